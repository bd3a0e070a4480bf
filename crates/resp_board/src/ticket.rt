//! Which command of which client waits on a line.

/// The id of a client. No other client of the same board ever has the same id.
#[derive(Clone, Copy, Debug, PartialEq, Eq)]
pub struct ClientId {
    /// The place of the client. It is used again after the client was closed.
    pub place: usize,
    /// The number of the client. Numbers begin at 1 and are never used again.
    pub number: u64,
}

/// The id of a line of a board.
#[derive(Clone, Copy, Debug, PartialEq, Eq)]
pub struct LineId {
    /// The place of the line. Lines are numbered from 0 in the order in which they were opened.
    pub place: usize,
}

/// A part of a command that waits on a line: its client, the number of the command among the
/// client's commands, and the number of the part among the command's parts.
#[derive(Clone, Copy, Debug, PartialEq, Eq)]
pub struct Ticket {
    pub client: ClientId,
    /// The number that [`Desk::ask`](crate::Desk::ask) returned.
    pub number: u64,
    pub part: u32,
}
