//! The errors of a proxy.

use resp_board::OwnError;
use resp_frames::FrameError;
use thiserror::Error;

/// The name of a command, as the table of commands has it.
#[derive(Clone, Copy, Debug, PartialEq, Eq)]
pub struct CommandName {
    /// The name in lower case.
    pub command: &'static [u8],
    /// The name of its subcommand in lower case, if it has one.
    pub subcommand: Option<&'static [u8]>,
}

/// Why a client is closed. After the error the client is closing, and nothing more is taken from
/// it. The bytes after the commands that were taken are the cause of each error except the last
/// three.
#[derive(Clone, Copy, Debug, PartialEq, Eq, Error)]
pub enum ClientError {
    /// A byte was rejected, or a value is not a command.
    #[error(transparent)]
    Protocol(FrameError),
    /// A line has a quote that is not closed, or a byte other than a space after a closing quote.
    #[error("unbalanced quotes in request")]
    Quotes,
    /// A line has more than 65,536 bytes before its LF.
    #[error("too big inline request")]
    LongLine,
    /// The words of a line exceed a limit on commands.
    #[error("the command of the line exceeds a limit")]
    OverLimits,
    /// The client sent POST or `Host:`, with which requests of HTTP begin.
    #[error("the client speaks HTTP")]
    Http,
    /// The client sent QUIT.
    #[error("the client sent QUIT")]
    Quit,
    /// The client sent this command, which needs a connection of its own, or another setting, and it
    /// may get neither.
    #[error("a command needs a connection of its own, and no more are allowed")]
    NoneLeft(CommandName),
    /// The client is closing.
    #[error("the client is closing")]
    Closing,
    /// The proxy does not have this client: another proxy opened it.
    #[error("no client with this id is open")]
    NoClient,
    /// An allocation failed.
    #[error("out of memory")]
    OutOfMemory,
}

/// Why the commands of a client do not go to another line.
#[derive(Clone, Copy, Debug, PartialEq, Eq, Error)]
pub enum EnterError {
    /// Its next command needs no other connection, or it has not got the replies to all commands.
    #[error("the client may not leave its line")]
    Stays,
    /// It can't get the reply to its next command.
    #[error(transparent)]
    Own(OwnError),
}

/// Why a connection to the server does not continue a line.
#[derive(Clone, Copy, Debug, PartialEq, Eq, Error)]
pub enum AttachError {
    /// The server has not accepted all commands of the opening.
    #[error("the server has not accepted the connection")]
    NotAccepted,
    /// The connection was brought into another setting than that of the line.
    #[error("the connection is in another setting")]
    OtherSetting,
    /// A command of which a byte was sent over the last connection waits for its reply.
    #[error("a command that was sent over the last connection waits")]
    Waits,
}

/// Why a line is not used for another setting.
#[derive(Clone, Copy, Debug, PartialEq, Eq, Error)]
pub enum RenewError {
    /// A command waits on the line.
    #[error("a command waits on the line")]
    Waits,
    /// An allocation failed.
    #[error("out of memory")]
    OutOfMemory,
}

/// Why the connection to the server is not usable. Close it, and call
/// [`Proxy::lose`](crate::Proxy::lose).
#[derive(Clone, Copy, Debug, PartialEq, Eq, Error)]
pub enum ServerError {
    /// A byte was rejected.
    #[error(transparent)]
    Frame(FrameError),
    /// The value is a push, which no command waits for.
    #[error("a push came over a shared connection")]
    Push,
    /// No command of which a byte was sent waits.
    #[error("no command waits for this reply")]
    Unasked,
    /// An allocation failed.
    #[error("out of memory")]
    OutOfMemory,
    /// A reply to a probe is not the expected one. Call
    /// [`Proxy::lose_out_of_step`](crate::Proxy::lose_out_of_step) instead of `lose`.
    #[error("out of step, since a probe got another reply")]
    OutOfStep,
}
