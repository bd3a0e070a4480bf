//! The errors of a board.

use thiserror::Error;

/// The error of [`Board::open`](crate::Board::open): no client is opened.
#[derive(Clone, Copy, Debug, PartialEq, Eq, Error)]
pub enum OpenError {
    /// All numbers of clients were given.
    #[error("no number is left for a client")]
    TooMany,
    /// An allocation failed.
    #[error("out of memory")]
    OutOfMemory,
}

/// The error of [`Board::ask`](crate::Board::ask): the command is not queued.
#[derive(Clone, Copy, Debug, PartialEq, Eq, Error)]
pub enum AskError {
    /// No client with this id is open.
    #[error("no client with this id is open")]
    NoClient,
    /// There is no such line.
    #[error("there is no such line")]
    NoLine,
    /// As many commands of the client wait as [`Bounds::waiting`](crate::Bounds) allows.
    #[error("too many commands of the client wait")]
    ClientFull,
    /// With this command more bytes would wait to be sent over the line than
    /// [`Bounds::unsent`](crate::Bounds) allows.
    #[error("too many bytes wait to be sent over the line")]
    LineFull,
    /// No number is left for a command of the client.
    #[error("no number is left for a command of the client")]
    TooMany,
    /// An allocation failed.
    #[error("out of memory")]
    OutOfMemory,
}

/// The error of [`Board::own`](crate::Board::own): the client does not get the reply.
#[derive(Clone, Copy, Debug, PartialEq, Eq, Error)]
pub enum OwnError {
    /// No client with this id is open.
    #[error("no client with this id is open")]
    NoClient,
    /// As many commands of the client wait as [`Bounds::waiting`](crate::Bounds) allows.
    #[error("too many commands of the client wait")]
    ClientFull,
    /// No number is left for a command of the client.
    #[error("no number is left for a command of the client")]
    TooMany,
    /// An allocation failed.
    #[error("out of memory")]
    OutOfMemory,
}

/// The error of [`Board::reply`](crate::Board::reply): no client gets the reply.
#[derive(Clone, Copy, Debug, PartialEq, Eq, Error)]
pub enum ReplyError {
    /// No command of which a byte was sent waits on the line.
    #[error("no command waits for this reply")]
    Unasked,
    /// An allocation failed.
    #[error("out of memory")]
    OutOfMemory,
}

/// The error of [`Board::release`](crate::Board::release): no command is moved.
#[derive(Clone, Copy, Debug, PartialEq, Eq, Error)]
pub enum ReleaseError {
    /// One of the lines does not exist, or they are the same.
    #[error("there are no two such lines")]
    NoLine,
    /// A byte was sent of a command that waits on the first line.
    #[error("a byte was sent of a command that waits")]
    Begun,
    /// An allocation failed.
    #[error("out of memory")]
    OutOfMemory,
}
