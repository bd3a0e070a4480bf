//! The events of a scanner, and its errors.

use resp_value::cause::Cause;
use resp_value::kind::OpenKind;
use thiserror::Error;

/// A kind of text (Redis serialization protocol specification, "Simple strings", "Simple errors",
/// "Doubles", "Bulk strings", "Bulk errors", "Verbatim strings" and "Big numbers").
#[derive(Clone, Copy, Debug, PartialEq, Eq)]
pub enum TextKind {
    /// A simple string.
    Simple,
    /// A simple error.
    Error,
    /// A double. Its text is its line as received. It occurs only if the limits allow doubles.
    Double,
    /// A bulk string, counted or streamed.
    Bulk,
    /// A bulk error.
    BulkError,
    /// A verbatim string, with the three bytes of its format.
    Verbatim([u8; 3]),
    /// A big number. Its text is its digits without leading zeros. Zero has no digit and is never
    /// negative.
    Big {
        /// Whether the number is below zero.
        negative: bool,
    },
}

/// An event of the bytes received. The events of a value come in the order of its bytes.
#[derive(Clone, Copy, Debug)]
pub enum Event<'a> {
    /// Null, in any of its encodings.
    Null,
    /// A boolean.
    Bool(bool),
    /// An integer.
    Int(i64),
    /// A text begins. Its parts follow, and then [`Event::TextEnd`].
    Text(TextKind),
    /// Some consecutive bytes of the text, at least one. They are borrowed from the piece, except
    /// that the first digit of a big number is borrowed from a constant.
    Part(&'a [u8]),
    /// The text has ended.
    TextEnd,
    /// An aggregate begins. The number is that of its members, or of its pairs if it is a map or an
    /// attribute. It is `None` if the aggregate is streamed. Its members follow, and then
    /// [`Event::Close`].
    Open(OpenKind, Option<u64>),
    /// The innermost aggregate has ended. An attribute ends after the value that it annotates.
    Close,
    /// The outermost value is complete.
    Done,
}

/// The result of one step.
#[derive(Clone, Copy, Debug)]
pub struct Step<'a> {
    /// The number of bytes of the piece that were used. This is the whole piece if there is no
    /// event.
    pub used: usize,
    /// The event after these bytes, if there is one.
    pub event: Option<Event<'a>>,
}

/// The error of a rejected byte, or of an input that ends inside a value.
#[derive(Clone, Copy, Debug, PartialEq, Eq, Error)]
#[error("{cause:?} at byte {at} of the value")]
pub struct Fault {
    /// The cause.
    pub cause: Cause,
    /// The number of bytes of the value before the rejected byte, or before the end of the input.
    pub at: u64,
}

/// The result of one call over a piece.
#[derive(Clone, Copy, Debug, PartialEq, Eq)]
pub struct Scanned {
    /// The number of bytes of the piece that were used. This is the whole piece if no value has
    /// ended.
    pub used: usize,
    /// Whether a value ends after these bytes.
    pub is_whole: bool,
}

/// Why a call over a piece has stopped.
#[derive(Clone, Copy, Debug, PartialEq, Eq, Error)]
pub enum ScanError {
    /// A byte was rejected.
    #[error(transparent)]
    Fault(Fault),
    /// The listener returned false.
    #[error("the listener stopped after {taken} bytes of the value")]
    Stopped {
        /// The number of bytes of the value that were read, up to the event at which the listener
        /// stopped.
        taken: u64,
    },
}

/// The error of changing the version inside a value or after a fault.
#[derive(Clone, Copy, Debug, PartialEq, Eq, Error)]
#[error("the version cannot change inside a value or after an error")]
pub struct Busy;
