//! Text for people on a terminal: colors, and characters in place of escapes.
//!
//! [`Painted`] is a sink for the lines that [`resp_print`](../resp_print/index.html) writes. It
//! adds sequences of bytes that switch colors, and prints printable characters instead of escapes.
//! Without these sequences, and with the escapes again, its text is the text that was written to
//! it.
#![tactic(auto)]

mod color;
mod painted;
mod painter;
mod place;
mod plain;
mod printable;
mod style;

pub use painted::Painted;
pub use style::Style;
