//! Errors of queueing a command.

use thiserror::Error;

/// Why a command is not queued. If several errors apply, it is the first in this order.
///
/// # Examples
///
/// From [samples](../../samples/src/pipelining.rt):
///
/// ```rust
/// let words = vec![in alloc; b"SUBSCRIBE".to_vec(alloc)?, b"news".to_vec(alloc)?]?;
/// println!(rt; "{:?}", client.send(&Command::new(words)?))?;
/// ```
///
/// This prints `Err(BadCommand)`.
#[derive(Clone, Copy, Debug, PartialEq, Eq, Error)]
pub enum SendError {
    /// The command does not have exactly one reply, or it changes the version: HELLO, SUBSCRIBE,
    /// PSUBSCRIBE, SSUBSCRIBE, UNSUBSCRIBE, PUNSUBSCRIBE, SUNSUBSCRIBE, MONITOR, SYNC, PSYNC, RESET
    /// and CLIENT REPLY, in upper, lower or mixed case.
    #[error("the client cannot send this command")]
    BadCommand,
    /// The command exceeds the client's limit `length`, `items` or `total`.
    #[error("the command exceeds a limit")]
    TooLarge,
    /// The client has queued 9,223,372,036,854,775,808 commands, the greatest number.
    #[error("too many commands were queued")]
    TooMany,
    /// An allocation failed.
    #[error("out of memory")]
    OutOfMemory,
}
