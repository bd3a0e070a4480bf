//! Boards with a few clients and lines, compared with lists of answers and of commands.

use crate::draw::Draw;
use crate::replay::Expected;
use resp_board::{AskError, Board, Bounds, ClientId, LineId, OwnError, ReleaseError};
use std::alloc::{AllocError, Global};

/// The number of clients that are open at a time, and of lines.
const CLIENTS: usize = 5;

const LINES: usize = 3;

/// The length of a command.
const LENGTH: usize = 3;

/// The bounds are small, so that they are reached.
const BOUNDS: Bounds = Bounds {
    waiting: 6,
    unsent: 20,
};

/// A command that waits on a line: its client, counted from the first that was opened, and its number.
#[derive(Clone, Copy)]
struct Waiting {
    client: usize,
    number: usize,
}

/// A line: its commands for the present connection, how many of them have a reply, and how many bytes
/// were sent. Each command is `LENGTH` bytes.
#[derive(Drop)]
struct Row {
    id: LineId,
    commands: Vec<Waiting>,
    replied: usize,
    sent: usize,
}

/// The clients and lines of a board.
#[derive(Drop)]
struct World {
    alloc: Global,
    board: Board,
    /// All clients that were opened.
    ids: Vec<ClientId>,
    expected: Vec<Expected>,
    /// The places in `ids` of the clients that are open.
    seats: Vec<usize>,
    rows: Vec<Row>,
    counts: Counts,
}

/// How often each of these happened.
#[derive(Clone, Copy)]
pub(crate) struct Counts {
    /// How often the board and the lists disagreed.
    pub(crate) wrong: u64,
    /// Connections that were lost.
    pub(crate) lost: u64,
    /// Commands that were refused because too many commands of their client waited.
    pub(crate) client_full: u64,
    /// Commands that were refused because too many bytes waited on their line.
    pub(crate) line_full: u64,
    /// Commands that were moved to another line.
    pub(crate) released: u64,
}

impl Counts {
    fn new() -> Counts {
        Counts {
            wrong: 0,
            lost: 0,
            client_full: 0,
            line_full: 0,
            released: 0,
        }
    }

    /// Returns whether each kind of event happened often.
    pub(crate) fn all_happened(&self) -> bool {
        self.lost > 5 && self.client_full > 5 && self.line_full > 5 && self.released > 5
    }
}

/// Runs this many events, and returns what happened how often.
pub(crate) fn run(alloc: Global, seed: u64, events: u64) -> Result<Counts, AllocError> {
    let mut draw = Draw::new(seed);
    let mut world = World::new(alloc)?;
    for event in 0..events {
        let seat = draw.below(CLIENTS as u64) as usize;
        let row = draw.below(LINES as u64) as usize;
        match draw.below(34) {
            0..10 => world.ask(seat, row)?,
            10..12 => world.own(seat, event)?,
            12..18 => world.send(row, draw.below(10) as usize),
            18..25 => world.reply(row, event)?,
            25..29 => world.give(seat, draw.below(9) as usize)?,
            29 => world.change(seat)?,
            30 => {
                world.lose(row)?;
                world.counts.lost += 1;
            }
            31 => {
                if event % 4 == 0 {
                    world.fail(row)?;
                }
            }
            _ => {
                if event % 2 == 0 {
                    world.lose(row)?;
                }
                world.release(row, draw.below(LINES as u64) as usize)?;
            }
        }
        world.compare(seat, row)?;
    }
    Ok(world.counts)
}

impl World {
    fn new(alloc: Global) -> Result<World, AllocError> {
        let mut world = World {
            alloc,
            board: Board::new(alloc, BOUNDS),
            ids: Vec::new(alloc),
            expected: Vec::new(alloc),
            seats: Vec::new(alloc),
            rows: Vec::new(alloc),
            counts: Counts::new(),
        };
        for _ in 0..CLIENTS {
            let opened = world.open()?;
            world.seats.push(opened).map_err(|_| AllocError)?;
        }
        for _ in 0..LINES {
            let row = Row {
                id: world.board.open_line()?,
                commands: Vec::new(alloc),
                replied: 0,
                sent: 0,
            };
            world.rows.push(row).map_err(|_| AllocError)?;
        }
        Ok(world)
    }

    /// Opens a client, and returns its place in `ids`.
    fn open(&mut self) -> Result<usize, AllocError> {
        let id = self.board.open().map_err(|_| AllocError)?;
        if self.ids.iter().any(|other| *other == id) {
            self.counts.wrong += 1;
        }
        self.ids.push(id).map_err(|_| AllocError)?;
        self.expected
            .push(Expected::new(self.alloc))
            .map_err(|_| AllocError)?;
        Ok(self.ids.len() - 1)
    }

    /// A client is closed, and another one takes its place.
    fn change(&mut self, seat: usize) -> Result<(), AllocError> {
        let closed = self.ids[self.seats[seat]];
        self.board.close(closed);
        let known = self.board.to_client(closed).is_some();
        let refused = self.board.ask(closed, self.rows[0].id, b"no\n") == Err(AskError::NoClient);
        self.counts.wrong += u64::from(known || !refused);
        let opened = self.open()?;
        self.seats[seat] = opened;
        Ok(())
    }

    /// Returns how the board has to answer to one more command on a line.
    fn verdict(&self, client: usize, row: usize) -> Result<(), AskError> {
        if self.expected[client].waiting() >= BOUNDS.waiting {
            return Err(AskError::ClientFull);
        }
        let unsent = self.rows[row].commands.len() * LENGTH - self.rows[row].sent;
        if unsent > 0 && unsent + LENGTH > BOUNDS.unsent {
            return Err(AskError::LineFull);
        }
        Ok(())
    }

    fn ask(&mut self, seat: usize, row: usize) -> Result<(), AllocError> {
        let client = self.seats[seat];
        let number = self.expected[client].answers.len();
        let text = [(client % 256) as u8, (number % 256) as u8, b'\n'];
        let line = self.rows[row].id;
        let verdict = self.verdict(client, row);
        let asked = self.board.ask(self.ids[client], line, &text);
        self.counts.wrong += u64::from(asked != verdict);
        self.counts.client_full += u64::from(asked == Err(AskError::ClientFull));
        self.counts.line_full += u64::from(asked == Err(AskError::LineFull));
        if asked.is_err() {
            return Ok(());
        }
        self.expected[client]
            .answers
            .push(None)
            .map_err(|_| AllocError)?;
        self.rows[row]
            .commands
            .push(Waiting { client, number })
            .map_err(|_| AllocError)
    }

    fn own(&mut self, seat: usize, event: u64) -> Result<(), AllocError> {
        let client = self.seats[seat];
        let text = [b'+', (event % 256) as u8, b'\n'];
        let full = self.expected[client].waiting() >= BOUNDS.waiting;
        let given = self.board.own(self.ids[client], &text);
        self.counts.wrong += u64::from(full != (given == Err(OwnError::ClientFull)));
        if full {
            return Ok(());
        }
        self.counts.wrong += u64::from(given.is_err());
        let answer = Vec::from_slice(self.alloc, &text)?;
        self.expected[client]
            .answers
            .push(Some(answer))
            .map_err(|_| AllocError)
    }

    /// Some of the bytes that wait are sent over a line.
    fn send(&mut self, row: usize, most: usize) {
        let line = self.rows[row].id;
        let count = self.board.to_server(line).len().min(most);
        self.board.sent(line, count);
        self.rows[row].sent += count;
    }

    fn reply(&mut self, row: usize, event: u64) -> Result<(), AllocError> {
        let text = [b':', (event % 256) as u8, (event / 256) as u8, b'\n'];
        let begun = self.begun(row);
        let answered = self.board.reply(self.rows[row].id, &text);
        if begun == 0 {
            self.counts.wrong += u64::from(answered.is_ok());
            return Ok(());
        }
        let first = self.rows[row].commands[self.rows[row].replied];
        if answered != Ok(self.ids[first.client]) {
            self.counts.wrong += 1;
        }
        self.rows[row].replied += 1;
        self.answer(first, &text)
    }

    /// Notes the answer to a command.
    fn answer(&mut self, command: Waiting, text: &[u8]) -> Result<(), AllocError> {
        let answer = Vec::from_slice(self.alloc, text)?;
        self.expected[command.client].answers[command.number] = Some(answer);
        Ok(())
    }

    fn give(&mut self, seat: usize, most: usize) -> Result<(), AllocError> {
        let client = self.seats[seat];
        let id = self.ids[client];
        let Some(text) = self.board.to_client(id) else {
            self.counts.wrong += 1;
            return Ok(());
        };
        let count = text.len().min(most);
        self.expected[client].got.extend_from_slice(&text[..count])?;
        self.board.given(id, count);
        Ok(())
    }

    /// Returns how many commands of a line that have no reply had a byte sent.
    fn begun(&self, row: usize) -> usize {
        self.rows[row].sent.div_ceil(LENGTH) - self.rows[row].replied
    }

    /// The connection of a line is lost.
    fn lose(&mut self, row: usize) -> Result<(), AllocError> {
        let begun = self.begun(row);
        self.board.lose(self.rows[row].id, b"-lost\n")?;
        self.begin_anew(row, begun, b"-lost\n")
    }

    /// A line has no connection.
    fn fail(&mut self, row: usize) -> Result<(), AllocError> {
        let waiting = self.rows[row].commands.len() - self.rows[row].replied;
        self.board.fail(self.rows[row].id, b"-failed\n")?;
        self.begin_anew(row, waiting, b"-failed\n")
    }

    /// The commands that wait on a line are moved to another line.
    fn release(&mut self, row: usize, other: usize) -> Result<(), AllocError> {
        let verdict = if row == other {
            Err(ReleaseError::NoLine)
        } else if self.begun(row) > 0 {
            Err(ReleaseError::Begun)
        } else {
            Ok(())
        };
        let released = self.board.release(self.rows[row].id, self.rows[other].id);
        self.counts.wrong += u64::from(released != verdict);
        if released.is_err() {
            return Ok(());
        }
        for place in self.rows[row].replied..self.rows[row].commands.len() {
            let command = self.rows[row].commands[place];
            self.rows[other]
                .commands
                .push(command)
                .map_err(|_| AllocError)?;
            self.counts.released += 1;
        }
        self.rows[row].commands = Vec::new(self.alloc);
        self.rows[row].replied = 0;
        self.rows[row].sent = 0;
        Ok(())
    }

    /// The first commands that wait have this answer, and the others are for a new connection.
    fn begin_anew(&mut self, row: usize, count: usize, text: &[u8]) -> Result<(), AllocError> {
        let replied = self.rows[row].replied;
        for place in replied..replied + count {
            let command = self.rows[row].commands[place];
            self.answer(command, text)?;
        }
        let mut left = Vec::new(self.alloc);
        for command in self.rows[row].commands.iter().skip(replied + count) {
            left.push(*command).map_err(|_| AllocError)?;
        }
        self.rows[row].commands = left;
        self.rows[row].replied = 0;
        self.rows[row].sent = 0;
        Ok(())
    }

    /// Compares what waits for a client and on a line with the lists.
    fn compare(&mut self, seat: usize, row: usize) -> Result<(), AllocError> {
        let client = self.seats[seat];
        let due = match self.board.to_client(self.ids[client]) {
            Some(text) => self.expected[client].is_due(self.alloc, text)?,
            None => false,
        };
        let line = self.rows[row].id;
        let mut bytes = Vec::new(self.alloc);
        for command in self.rows[row].commands.iter() {
            bytes.extend_from_slice(&[
                (command.client % 256) as u8,
                (command.number % 256) as u8,
                b'\n',
            ])?;
        }
        let agree = self.board.to_server(line) == &bytes[self.rows[row].sent..]
            && self.board.begun(line) == self.begun(row)
            && self.board.waiting_of(self.ids[client]) == Some(self.expected[client].waiting())
            && self.board.open_clients() == CLIENTS;
        self.counts.wrong += u64::from(!due) + u64::from(!agree);
        Ok(())
    }
}
