//! The errors of the client's end and the server's end.

use resp_client::SendError;
use resp_scan::event::Fault;
use thiserror::Error;

/// Why [`crate::ask::ask`] failed.
#[derive(Clone, Copy, Debug, PartialEq, Eq, Error)]
pub enum AskError {
    /// The client refused this request. Nothing was written, and the requests before it stay
    /// queued.
    #[error("request {index}: {error}")]
    Refused {
        /// The index of the request, from 0.
        index: usize,
        /// The reason. It is never `OutOfMemory`.
        error: SendError,
    },
    /// A byte received is not valid, or it begins a reply while no command waits. The replies
    /// before it were added, and the commands after theirs still wait. The client returns this
    /// fault from then on.
    #[error(transparent)]
    Fault(Fault),
    /// An allocation failed. Either it was for a request, and nothing was written, or it was for
    /// the bytes received, and only the first of their replies were added.
    #[error("out of memory")]
    OutOfMemory,
    /// A read failed. The replies received before were added.
    #[error("read failed")]
    Read,
    /// A write failed or wrote no byte. The bytes that were not written still wait, and nothing was
    /// read.
    #[error("write failed")]
    Write,
    /// All allowed reads and writes were made. The bytes that were not written still wait, and the
    /// replies received were added.
    #[error("too many reads and writes")]
    TooManyTurns,
    /// The input ended while a command waited for its reply. The replies received were added.
    #[error("the input ended before the reply")]
    Ended,
}

/// Why [`crate::serve::serve`] failed.
#[derive(Clone, Copy, Debug, PartialEq, Eq, Error)]
pub enum ServeError {
    /// No session has this id. Nothing was done.
    #[error("no session has this id")]
    NoSession,
    /// An allocation failed. The commands run before keep their effect, nothing after them is done,
    /// and the session is closing.
    #[error("out of memory")]
    OutOfMemory,
    /// A read failed. All replies before it were written.
    #[error("read failed")]
    Read,
    /// A write failed or wrote no byte. The bytes that were not written still wait.
    #[error("write failed")]
    Write,
    /// All allowed reads and writes were made. The bytes that were not written still wait.
    #[error("too many reads and writes")]
    TooManyTurns,
}
