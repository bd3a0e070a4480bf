//! The numbers of a proxy.

use crate::error_counts::ErrorCounts;
use crate::latency::{ReplyTimes, Times, Waits};
use crate::name_counts::NameCounts;
use resp_board::{Board, LineId};
use std::alloc::{AllocError, Global};
use std::time::Duration;

/// The counts of a proxy since it started.
#[derive(Clone, Copy, Debug, Default, PartialEq, Eq)]
pub struct Numbers {
    /// The open clients.
    pub clients: u64,
    /// The clients that were accepted.
    pub accepted: u64,
    /// The clients that were rejected, because the maximum number was open or an allocation failed.
    pub rejected: u64,
    /// The clients that were closed, because too many bytes waited for them.
    pub unread: u64,
    /// The open clients that have a connection of their own.
    pub own: u64,
    /// The commands that were queued for the server.
    pub commands: u64,
    /// The commands whose reply was the error for a lost or missing connection.
    pub failed: u64,
    /// The connections to the server that were opened for clients to share.
    pub connections: u64,
    /// The commands that wait for a reply.
    pub waiting: u64,
    /// The bytes that wait for the server.
    pub unsent: u64,
    /// The settings that have a connection which clients share.
    pub lines: u64,
}

/// An event that a proxy counts.
#[derive(Clone, Copy, Debug, PartialEq, Eq)]
pub enum Counted {
    /// A client was rejected.
    Rejected,
    /// A client was closed, because too many bytes waited for it.
    Unread,
    /// A client that [`Proxy::leave`](crate::Proxy::leave) has closed has a connection of its own.
    OwnOpened,
    /// Such a client was closed.
    OwnClosed,
    /// A connection to the server was opened for all clients.
    Connected,
}

/// The counts of a proxy, and the times of its replies.
#[derive(Drop)]
pub(crate) struct ProxyCounts {
    /// The lines of the proxy, and how many of them no client uses.
    lines: Vec<LineId>,
    idle_lines: usize,
    /// The clients of the board that are the proxy's own.
    hidden: u64,
    rejected: u64,
    unread: u64,
    own: u64,
    commands: u64,
    failed: u64,
    connections: u64,
    times: ReplyTimes,
    /// The commands of clients, by name.
    pub(crate) commands_by_name: NameCounts,
    /// The error replies.
    pub(crate) errors: ErrorCounts,
}

impl ProxyCounts {
    /// Returns the counts of a proxy that begins.
    pub(crate) fn new(alloc: Global) -> Result<Self, AllocError> {
        Ok(ProxyCounts {
            lines: Vec::new(alloc),
            idle_lines: 0,
            hidden: 0,
            rejected: 0,
            unread: 0,
            own: 0,
            commands: 0,
            failed: 0,
            connections: 0,
            times: ReplyTimes::new(),
            commands_by_name: NameCounts::new(alloc)?,
            errors: ErrorCounts::new(alloc)?,
        })
    }

    /// Makes room for one more line.
    pub(crate) fn make_room_for_line(&mut self) -> Result<(), AllocError> {
        self.lines.reserve(1)
    }

    /// Counts a line that was opened. It is not counted if there is no room for it.
    pub(crate) fn add_line(&mut self, line: LineId) {
        let _ = self.lines.push(line);
    }

    /// Sets the number of lines that no client uses.
    pub(crate) fn set_idle_lines(&mut self, idle: usize) {
        self.idle_lines = idle;
    }

    /// Returns the numbers, with those of the board.
    pub(crate) fn numbers(&self, board: &Board) -> Numbers {
        let open = board.open_clients() as u64;
        let (mut waiting, mut unsent) = (0, 0);
        for line in &self.lines {
            waiting = u64::saturating_add(waiting, board.waiting(*line) as u64);
            unsent = u64::saturating_add(unsent, board.to_server(*line).len() as u64);
        }
        Numbers {
            clients: self.own.saturating_add(open.saturating_sub(self.hidden)),
            accepted: board.opened_clients().saturating_sub(self.hidden),
            rejected: self.rejected,
            unread: self.unread,
            own: self.own,
            commands: self.commands,
            failed: self.failed,
            connections: self.connections,
            waiting,
            unsent,
            lines: self.lines.len().saturating_sub(self.idle_lines) as u64,
        }
    }

    /// Returns the number of clients that have a connection of their own.
    pub(crate) fn own(&self) -> u64 {
        self.own
    }

    /// Returns how long replies took.
    pub(crate) fn times(&self) -> Times {
        self.times.times()
    }

    /// Adds the lines about commands by name and error replies to a text.
    pub(crate) fn add_lines(&self, alloc: Global, text: &mut String) -> Result<(), AllocError> {
        text.push_str(self.commands_by_name.lines(alloc)?.as_str())?;
        text.push_str(self.errors.lines(alloc)?.as_str())
    }

    /// Does not count a client of the board, because it is the proxy's own.
    pub(crate) fn hide_client(&mut self) {
        self.hidden = self.hidden.saturating_add(1);
    }

    /// Counts an event.
    pub(crate) fn add(&mut self, counted: Counted) {
        match counted {
            Counted::Rejected => self.rejected = self.rejected.saturating_add(1),
            Counted::Unread => self.unread = self.unread.saturating_add(1),
            Counted::OwnOpened => self.own = self.own.saturating_add(1),
            Counted::OwnClosed => self.own = self.own.saturating_sub(1),
            Counted::Connected => self.connections = self.connections.saturating_add(1),
        }
    }

    /// Counts commands that were queued at this time on a line.
    pub(crate) fn add_queued(&mut self, waits: &mut Waits, count: usize, now: Duration) {
        self.commands = self.commands.saturating_add(count as u64);
        waits.queue(count, now);
    }

    /// Counts commands of a line that have their replies at this time.
    pub(crate) fn add_replied(&mut self, waits: &mut Waits, count: usize, now: Duration) {
        waits.reply(count, now, &mut self.times);
    }

    /// Counts commands of a line whose reply was the error for a lost or missing connection.
    pub(crate) fn add_failed(&mut self, waits: &mut Waits, count: usize) {
        self.failed = self.failed.saturating_add(count as u64);
        waits.forget(count);
    }
}
