//! Text for people: values as the lines of `resp show`, numbers, and bytes in quotes.
//!
//! [`value::write_value`] writes the lines of a value. [`text`] writes the parts of lines.
#![tactic(auto)]

pub mod hex;
pub mod print_error;
mod quote;
pub mod text;
pub mod value;
