//! The error of printing a value.

use thiserror::Error;

/// The error of printing a value.
#[derive(Clone, Copy, Debug, PartialEq, Eq, Error)]
pub enum PrintError {
    /// A write failed.
    #[error("write failed")]
    Write,
    /// The value and the levels around it have 2^64 levels or more.
    ///
    /// This does not happen to a value that a decoder returned, because its depth is at most 128.
    #[error("the value is nested too deeply")]
    TooDeep,
}
