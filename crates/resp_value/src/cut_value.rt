//! A value with only the first bytes of each text.

use crate::value::Value;

/// A value with only the first bytes of each text, and the lengths of the longer texts.
///
/// If `shown` bytes of each text are to be shown, `shown + 1` bytes of each text are kept. So a
/// text of the value has more than `shown` bytes exactly if the text that was received had more.
/// Doubles and big numbers are kept whole.
#[derive(Debug, PartialEq, Eq, Drop)]
pub struct CutValue {
    /// The value, with the first bytes of each text.
    pub value: Value,
    /// The number of bytes of each text that had more than `shown` bytes when it was received, in
    /// the order of the texts, without those of doubles and big numbers.
    pub lengths: Vec<u64>,
}
