//! The errors of a hub.

use resp_value::cause::Limit;
use thiserror::Error;

/// No session has this id: it was never given, or the session was closed.
#[derive(Clone, Copy, Debug, PartialEq, Eq, Error)]
#[error("no session has this id")]
pub struct NoSession;

/// Why no session was opened. The hub is unchanged.
#[derive(Clone, Copy, Debug, PartialEq, Eq, Error)]
pub enum OpenError {
    /// 65,536 sessions are open, or all ids have been used.
    #[error("too many sessions")]
    TooManySessions,
    /// An allocation failed.
    #[error("out of memory")]
    OutOfMemory,
}

/// Why a push was not queued. The hub is unchanged. If several errors apply, it is the first in
/// this order.
#[derive(Clone, Copy, Debug, PartialEq, Eq, Error)]
pub enum PushError {
    /// No session has this id.
    #[error("no session has this id")]
    NoSession,
    /// The session is closing.
    #[error("the session is closing")]
    Closing,
    /// The session's version is 2, which has no pushes.
    #[error("version 2 does not have pushes")]
    NotInVersion,
    /// An item holds a double, and the limits do not allow doubles.
    #[error("the limits do not allow doubles")]
    Double,
    /// An item holds a push.
    #[error("a push is inside another value")]
    NestedPush,
    /// The push exceeds this limit, and no limit that is checked before it.
    #[error("the push exceeds the limit {0:?}")]
    OverLimits(Limit),
    /// An allocation failed.
    #[error("out of memory")]
    OutOfMemory,
}

/// Why a piece was not completely handled.
#[derive(Clone, Copy, Debug, PartialEq, Eq, Error)]
pub enum HubError {
    /// No session has this id. The hub is unchanged.
    #[error("no session has this id")]
    NoSession,
    /// An allocation failed: for a command, for reading a command, or for the error reply after a
    /// protocol error. The commands run before keep their effect, nothing after them is done, and
    /// the session is closing.
    #[error("out of memory after {commands} commands")]
    OutOfMemory {
        /// The number of commands of the call that were run before.
        commands: u64,
    },
}
