//! Clients, a board with one line and its server, and the events between them.

use crate::draw::Draw;
use crate::replay::Expected;
use crate::server::Server;
use anyhow::Result;
use resp_board::{AskError, Board, Bounds, ClientId, LineId, OwnError, ReplyError};
use std::alloc::Global;
use std::collections::VecDeque;
use std::fmt::Write;

/// The number of clients.
const CLIENTS: u64 = 1_000;

/// The bounds are small, so that they are reached.
const BOUNDS: Bounds = Bounds {
    waiting: 8,
    unsent: 100,
};

/// The answer to commands of a connection that was lost.
const LOST: &[u8] = b"-lost;";

/// A client that is open.
#[derive(Drop)]
struct Seat {
    id: ClientId,
    expected: Expected,
}

/// A command that waits for a reply: the place of its client, the id, and which of the client's
/// commands it is.
#[derive(Clone, Copy, Drop)]
struct Waiting {
    seat: usize,
    id: ClientId,
    index: usize,
}

/// How often each kind of event happened.
#[derive(Drop)]
struct Events {
    refused: u64,
    replies: u64,
    to_closed: u64,
    own: u64,
    closed: u64,
    lost: u64,
    /// Losses after which commands wait for the new connection.
    kept: u64,
}

#[derive(Drop)]
pub(crate) struct World {
    alloc: Global,
    draw: Draw,
    board: Board,
    line: LineId,
    server: Server,
    seats: Vec<Option<Seat>>,
    waiting: VecDeque<Waiting>,
    wrong: u64,
    events: Events,
}

impl World {
    pub(crate) fn new(alloc: Global, seed: u64) -> Result<World> {
        let mut seats = Vec::new(alloc);
        for _ in 0..CLIENTS {
            seats.push(None)?;
        }
        let mut board = Board::new(alloc, BOUNDS);
        let line = board.open_line()?;
        Ok(World {
            alloc,
            draw: Draw::new(seed),
            board,
            line,
            server: Server::new(alloc),
            seats,
            waiting: VecDeque::new(alloc),
            wrong: 0,
            events: Events {
                refused: 0,
                replies: 0,
                to_closed: 0,
                own: 0,
                closed: 0,
                lost: 0,
                kept: 0,
            },
        })
    }

    /// Returns the number of differences.
    pub(crate) fn wrong(&self) -> u64 {
        self.wrong
    }

    /// Returns whether each kind of event happened often.
    pub(crate) fn was_busy(&self) -> bool {
        let e = &self.events;
        e.refused > 10
            && e.replies > 1_000
            && e.to_closed > 10
            && e.own > 100
            && e.closed > 100
            && e.lost > 10
            && e.kept > 5
    }

    fn check(&mut self, holds: bool) {
        if !holds {
            self.wrong = self.wrong.saturating_add(1);
        }
    }

    /// Draws a place. Half of the draws are among the first five, which become busy.
    fn draw_seat(&mut self) -> usize {
        let most = if self.draw.below(2) == 0 { 5 } else { CLIENTS };
        self.draw.below(most) as usize
    }

    /// Makes one event happen.
    pub(crate) fn step(&mut self) -> Result<()> {
        let seat = self.draw_seat();
        match self.draw.below(100) {
            0..40 => self.forward(seat)?,
            40..50 => self.send()?,
            50..74 => self.reply()?,
            74..86 => self.give(seat)?,
            86..93 => self.own(seat)?,
            93..99 => self.close(seat),
            99 if self.draw.below(10) == 0 => self.lose()?,
            _ => self.send()?,
        }
        self.compare(seat)
    }

    /// Compares the bytes that wait for a client with the replay.
    fn compare(&mut self, seat: usize) -> Result<()> {
        let holds = match &self.seats[seat] {
            Some(open) => match self.board.to_client(open.id) {
                Some(waiting) => open.expected.is_due(self.alloc, waiting)?,
                None => false,
            },
            None => true,
        };
        self.check(holds);
        Ok(())
    }

    /// Opens a client at this place, if none is open there.
    fn open(&mut self, seat: usize) -> Result<ClientId> {
        if let Some(open) = &self.seats[seat] {
            return Ok(open.id);
        }
        let id = self.board.open()?;
        self.seats[seat] = Some(Seat {
            id,
            expected: Expected::new(self.alloc),
        });
        Ok(id)
    }

    fn forward(&mut self, seat: usize) -> Result<()> {
        let id = self.open(seat)?;
        let Some(open) = &mut self.seats[seat] else {
            return Ok(());
        };
        let index = open.expected.answers.len();
        let mut command = String::new(self.alloc);
        write!(command, "{seat},{index};")?;
        let waiting = open.expected.waiting();
        let unsent = self.board.to_server(self.line).len();
        match self.board.ask(id, self.line, command.as_bytes()) {
            Ok(()) => {
                open.expected.answers.push(None)?;
                self.waiting.push_back(Waiting { seat, id, index })?;
                self.check(waiting < 8 && (unsent == 0 || unsent + command.len() <= 100));
            }
            Err(AskError::ClientFull) => {
                self.events.refused += 1;
                self.check(waiting == 8);
            }
            Err(AskError::LineFull) => {
                self.events.refused += 1;
                self.check(waiting < 8 && unsent + command.len() > 100);
            }
            Err(_) => self.check(false),
        }
        Ok(())
    }

    /// The server gets some of the bytes.
    fn send(&mut self) -> Result<()> {
        let unsent = self.board.to_server(self.line).len();
        let count = self.draw.below(unsent as u64 + 1) as usize;
        self.server
            .receive(&self.board.to_server(self.line)[..count])?;
        self.board.sent(self.line, count);
        Ok(())
    }

    /// The server replies to its first command.
    fn reply(&mut self) -> Result<()> {
        let Some(reply) = self.server.reply()? else {
            if self.server.begun() == 0 {
                let refused = self.board.reply(self.line, b"+nobody;") == Err(ReplyError::Unasked);
                self.check(refused);
            }
            return Ok(());
        };
        let Some(first) = self.waiting.pop_front() else {
            self.check(false);
            return Ok(());
        };
        let mut wanted = String::new(self.alloc);
        write!(wanted, "+{},{};", first.seat, first.index)?;
        let same = reply.as_slice() == wanted.as_bytes();
        let given = self.board.reply(self.line, &reply) == Ok(first.id);
        self.check(same && given);
        self.events.replies += 1;
        self.record(first, &reply)?;
        self.compare(first.seat)
    }

    /// Notes the answer to a command, if its client is still open.
    fn record(&mut self, command: Waiting, answer: &[u8]) -> Result<()> {
        if let Some(open) = &mut self.seats[command.seat] {
            if open.id == command.id {
                open.expected.answers[command.index] = Some(answer.to_vec(self.alloc)?);
                return Ok(());
            }
        }
        self.events.to_closed += 1;
        Ok(())
    }

    /// A client gets some of its bytes.
    fn give(&mut self, seat: usize) -> Result<()> {
        let Some(open) = &mut self.seats[seat] else {
            return Ok(());
        };
        let Some(waiting) = self.board.to_client(open.id) else {
            return Ok(());
        };
        let count = self.draw.below(waiting.len() as u64 + 1) as usize;
        open.expected.got.extend_from_slice(&waiting[..count])?;
        self.board.given(open.id, count);
        Ok(())
    }

    fn own(&mut self, seat: usize) -> Result<()> {
        let id = self.open(seat)?;
        let Some(open) = &mut self.seats[seat] else {
            return Ok(());
        };
        let mut text = String::new(self.alloc);
        write!(text, "={seat},{};", open.expected.answers.len())?;
        let waiting = open.expected.waiting();
        match self.board.own(id, text.as_bytes()) {
            Ok(()) => {
                let answer = text.as_bytes().to_vec(self.alloc)?;
                open.expected.answers.push(Some(answer))?;
                self.events.own += 1;
                self.check(waiting < 8);
            }
            Err(OwnError::ClientFull) => {
                self.events.refused += 1;
                self.check(waiting == 8);
            }
            Err(_) => self.check(false),
        }
        Ok(())
    }

    fn close(&mut self, seat: usize) {
        if let Some(open) = self.seats[seat].take() {
            self.board.close(open.id);
            let is_gone = self.board.to_client(open.id).is_none();
            self.check(is_gone);
            self.events.closed += 1;
        }
    }

    /// The connection to the server is lost. The commands of which a byte was sent are answered, and
    /// the others wait for a new connection.
    fn lose(&mut self) -> Result<()> {
        self.board.lose(self.line, LOST)?;
        for _ in 0..self.server.begun() {
            if let Some(command) = self.waiting.pop_front() {
                self.record(command, LOST)?;
            }
        }
        self.server = Server::new(self.alloc);
        for seat in 0..self.seats.len() {
            self.compare(seat)?;
        }
        let mut left = String::new(self.alloc);
        for command in &self.waiting {
            write!(left, "{},{};", command.seat, command.index)?;
        }
        if !self.waiting.is_empty() {
            self.events.kept += 1;
        }
        let is_left = self.board.waiting(self.line) == self.waiting.len()
            && self.board.begun(self.line) == 0
            && self.board.to_server(self.line) == left.as_bytes();
        self.check(is_left);
        self.events.lost += 1;
        Ok(())
    }

    /// The server gets all bytes and replies to all commands, and each client gets all its bytes.
    pub(crate) fn finish(&mut self) -> Result<()> {
        self.server.receive(self.board.to_server(self.line))?;
        self.board
            .sent(self.line, self.board.to_server(self.line).len());
        while !self.waiting.is_empty() {
            self.reply()?;
        }
        let is_done = self.board.waiting(self.line) == 0 && self.server.commands.is_empty();
        self.check(is_done);
        for seat in 0..self.seats.len() {
            self.compare(seat)?;
            let is_answered = match &self.seats[seat] {
                Some(open) => open.expected.answers.iter().all(|answer| answer.is_some()),
                None => true,
            };
            self.check(is_answered);
        }
        Ok(())
    }
}
