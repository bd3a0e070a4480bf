//! The commands, replies and pushes of a connection.

use resp_session::words::Words;
use resp_value::CutValue;
use resp_value::cause::Cause;
use resp_value::value::Members;

/// The result of one step over a piece that one side sent.
#[derive(Drop)]
pub struct Step {
    /// The number of bytes read from the front of the piece. With [`Seen::Nothing`] this is the
    /// whole piece.
    pub used: usize,
    /// What these bytes complete.
    pub seen: Seen,
}

/// A command, a reply or another part of the traffic. Commands are numbered from 1, and a reply has
/// the number of its command.
///
/// A value of the server has one byte more of each text than is shown. A command has one byte more of
/// each word than the tap keeps, which is at least 65 bytes.
#[derive(Drop)]
pub enum Seen {
    /// The whole piece was read, and nothing ended in it.
    Nothing,
    /// The client sent an empty array or a null, which a server ignores.
    Passed,
    /// The client sent a command. These are the first bytes of its words, and the lengths of the longer
    /// words, in the order of the words.
    Command {
        number: u64,
        words: Words,
        lengths: Vec<u64>,
    },
    /// The server sent the reply to a command.
    Reply {
        number: u64,
        value: CutValue,
    },
    /// The server sent a push, which is not a reply to a command. These are its members, with the
    /// lengths of the longer texts as in a [`CutValue`].
    Push {
        members: Members,
        lengths: Vec<u64>,
    },
    /// The server sent a value that is paired with no command: after a command that does not have
    /// exactly one reply, after an error of the client, or after a value that no command asked for.
    Value(CutValue),
    /// The client sent a value that is not a command. The rest of its bytes are not read.
    NotCommand {
        number: u64,
    },
    /// A byte is not allowed at its place, or memory ran out. The rest of the bytes of this side
    /// are not read.
    Refused {
        cause: Cause,
        /// The index of the byte, from 0 at the first byte of the command, reply or value that
        /// contains it.
        at: u64,
        place: Place,
    },
}

/// The part of the traffic that contains a wrong byte.
#[derive(Clone, Copy, Debug, PartialEq, Eq)]
pub enum Place {
    /// The command with this number.
    Command(u64),
    /// The reply with this number, or a push before it.
    Reply(u64),
    /// A value of the server that is paired with no command.
    Value,
}
