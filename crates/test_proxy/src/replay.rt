//! The bytes that each client has to get, by lists of commands alone.

use std::alloc::{AllocError, Global};

/// The length of a command.
pub const LENGTH: usize = 21;

/// The error of a command that a lost connection had begun.
pub const LOST: &[u8] = b"-ERR connection to server lost; the command may have run\r\n";

/// A fault.
#[derive(Clone, Copy)]
pub enum Fault {
    /// The connection to the server is lost.
    Lose,
    /// A client goes.
    Close(usize),
}

/// The state of a command.
#[derive(Clone, Copy, PartialEq, Eq)]
enum State {
    Waits,
    Replied,
    Lost,
}

/// A command of a client: `GET` of a key of two bytes.
#[derive(Clone, Copy)]
struct Asked {
    client: usize,
    key: [u8; 2],
    state: State,
}

/// The commands of both clients in the order in which they came.
#[derive(Drop)]
pub struct Replay {
    asked: Vec<Asked>,
    /// The number of commands that earlier connections had begun.
    base: usize,
    /// The number of bytes that the server has taken over this connection.
    sent: usize,
    /// The number of replies that have come over this connection.
    replied: usize,
    counts: [u8; 2],
    /// Whether each client is there.
    is_there: [bool; 2],
}

/// Returns the key of a client's command.
pub fn key_of(client: usize, count: u8) -> [u8; 2] {
    [if client == 0 { b'a' } else { b'b' }, b'0' + count]
}

impl Replay {
    pub fn new(alloc: Global) -> Self {
        Replay {
            asked: Vec::new(alloc),
            base: 0,
            sent: 0,
            replied: 0,
            counts: [0; 2],
            is_there: [true; 2],
        }
    }

    /// A client that is there sends its next command.
    pub fn ask(&mut self, client: usize) -> Result<(), AllocError> {
        if !self.is_there[client] {
            return Ok(());
        }
        let key = key_of(client, self.counts[client]);
        self.counts[client] += 1;
        self.asked.push(Asked {
            client,
            key,
            state: State::Waits,
        })?;
        Ok(())
    }

    /// The server takes at most `most` bytes.
    pub fn send(&mut self, most: usize) {
        let all = LENGTH * (self.asked.len() - self.base);
        self.sent = all.min(self.sent + most);
    }

    /// The server replies to the first whole command without a reply, if there is one.
    pub fn reply(&mut self) {
        if LENGTH * (self.replied + 1) <= self.sent {
            self.asked[self.base + self.replied].state = State::Replied;
            self.replied += 1;
        }
    }

    pub fn suffer(&mut self, fault: Fault) {
        match fault {
            Fault::Close(client) => self.is_there[client] = false,
            Fault::Lose => {
                let begun = self.sent.div_ceil(LENGTH);
                for place in self.replied..begun {
                    self.asked[self.base + place].state = State::Lost;
                }
                self.base += begun;
                self.sent = 0;
                self.replied = 0;
            }
        }
    }

    /// Returns whether a client is there.
    pub fn is_there(&self, client: usize) -> bool {
        self.is_there[client]
    }

    /// Appends what a client has to get.
    pub fn due_to(&self, client: usize, due: &mut Vec<u8>) -> Result<(), AllocError> {
        for asked in &self.asked {
            if asked.client == client {
                match asked.state {
                    State::Waits => return Ok(()),
                    State::Lost => due.extend_from_slice(LOST)?,
                    State::Replied => {
                        due.extend_from_slice(b"$2\r\n")?;
                        due.extend_from_slice(&asked.key)?;
                        due.extend_from_slice(b"\r\n")?;
                    }
                }
            }
        }
        Ok(())
    }
}
