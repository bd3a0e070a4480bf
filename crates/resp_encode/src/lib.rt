//! Encodes values: appends the canonical text of a value to a buffer, or writes it to a device.
//!
//! The canonical text of a value is its encoding in the Redis serialization protocol specification
//! with every choice fixed. Numbers have no `+` and no leading zeros. Strings have a length and
//! aggregates have a count, so nothing is streamed. Null is `$-1` in version 2 and `_` in version
//! 3.
#![tactic(auto)]

pub mod append;
mod attempt;
mod digits;
mod error;
mod first_fault;
pub mod laws;
mod measure;
mod measure_value;
mod room;
mod text;
mod values;
mod words;
mod writer;

pub use error::{EncodeError, EncodeToError};
pub use values::{encode, encode_push, size};
pub use words::{check_words, encode_words, words_size};
pub use writer::encode_to;
