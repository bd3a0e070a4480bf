//! The errors of asking.

use resp_client::SendError;
use resp_scan::event::Fault;
use std::alloc::AllocError;
use thiserror::Error;

/// Why asking stopped before all commands had their replies.
#[derive(Clone, Copy, Debug, PartialEq, Eq, Error)]
pub enum ExchangeError {
    /// The client refused the command. Nothing was written or read. The error is never
    /// `OutOfMemory`.
    #[error(transparent)]
    Refused(SendError),
    /// A byte received is not valid, or it begins a reply while no command waits. The replies before
    /// it were printed.
    #[error(transparent)]
    Fault(Fault),
    /// An allocation failed.
    #[error("out of memory")]
    Memory,
    /// A read of the replies failed.
    #[error("read from the server failed")]
    Read,
    /// A write to the server failed or wrote no byte.
    #[error("write to the server failed")]
    Write,
    /// A write of the printed text failed or wrote no byte.
    #[error("write failed")]
    Output,
    /// The server closed the connection while a command waited for its reply.
    #[error("the server closed the connection before the reply")]
    Ended,
    /// Too many reads were made.
    #[error("too many reads")]
    TooManyTurns,
}

impl From<AllocError> for ExchangeError {
    ghost use Rattle.std.specs.Prelude.{◌≡◌};
    ghost use Rattle.resp_cli_ask.specs.declared.error.ExchangeError.TheVariants.{Memory};

    ghost from_gives = { λ _ error. error ≡ Memory };

    fn from(_: AllocError) -> ExchangeError {
        ExchangeError::Memory
    }
}
