//! The error of a piece.

use resp_scan::event::Fault;
use thiserror::Error;

/// The error of [`Frames::next`](crate::Frames::next) and
/// [`Frames::next_command`](crate::Frames::next_command). After it, the connection is between two
/// values.
#[derive(Clone, Copy, Debug, PartialEq, Eq, Error)]
pub enum FrameError {
    /// A byte was rejected.
    #[error(transparent)]
    Fault(Fault),
    /// The value is not a command.
    #[error("the value is no command")]
    NotACommand,
    /// An allocation failed.
    #[error("out of memory")]
    OutOfMemory,
}
