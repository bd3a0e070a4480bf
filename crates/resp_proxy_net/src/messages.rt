//! The messages of a proxy on standard error.

use resp_net::terminal::Terminal;
use resp_schedule::Allowance;
use std::alloc::{AllocError, Global};
use std::collections::VecDeque;
use std::fs::{File, Files};
use std::io;
use std::net::Net;
use std::time::Duration;

/// The maximum number of messages about one topic in a second.
const MOST: u32 = 10;

/// The maximum number of messages that wait until standard error accepts them.
const WAITING: usize = 256;

/// The time after which standard error is tried again, in milliseconds.
const RETRY: u64 = 1_000;

/// What a message is about.
#[derive(Clone, Copy, Debug, PartialEq, Eq)]
pub(crate) enum Topic {
    /// A connection to the server is open.
    Connected,
    /// A connection to the server was lost.
    Lost,
    /// No connection to the server can be opened.
    NotConnected,
    /// The server runs a script, and replies to no other command meanwhile.
    Busy,
    /// The server was asked for its commands.
    Learned,
}

/// All topics.
const TOPICS: [Topic; 5] = [
    Topic::Connected,
    Topic::Lost,
    Topic::NotConnected,
    Topic::Busy,
    Topic::Learned,
];

impl Topic {
    /// Returns the first words of a message.
    pub(crate) fn words(self) -> &'static str {
        match self {
            Topic::Connected => "server connected",
            Topic::Lost => "server lost",
            Topic::NotConnected => "cannot connect to server",
            Topic::Busy => "server busy",
            Topic::Learned => "learned",
        }
    }
}

/// Prints messages on standard error without blocking, at most ten about one topic in a second.
///
/// Messages that are left out are counted, and their number is printed once the second is over. If
/// standard error does not accept a message, up to 256 messages wait, and later ones are left out.
#[derive(Drop)]
pub(crate) struct Messages {
    alloc: Global,
    terminal: Terminal,
    /// The messages that wait, each with its LF.
    waiting: VecDeque<String>,
    /// The number of bytes of the first one that were printed.
    printed: usize,
    connected: Allowance,
    lost: Allowance,
    not_connected: Allowance,
    busy: Allowance,
    learned: Allowance,
}

impl Messages {
    /// Returns a `Messages` without messages.
    ///
    /// # Errors
    ///
    /// An error of the system, or of kind `OutOfMemory`.
    pub(crate) fn new<R: Net + Files<File = File>>(rt: &R, alloc: Global) -> io::Result<Self> {
        Ok(Messages {
            alloc,
            terminal: Terminal::of_errors(rt, alloc)?,
            waiting: VecDeque::new(alloc),
            printed: 0,
            connected: Allowance::new(MOST),
            lost: Allowance::new(MOST),
            not_connected: Allowance::new(MOST),
            busy: Allowance::new(MOST),
            learned: Allowance::new(MOST),
        })
    }

    /// Adds a message about a topic: these words, the setting unless it is empty, and the reason unless
    /// it is empty.
    pub(crate) fn add(
        &mut self,
        now: Duration,
        topic: Topic,
        words: &str,
        setting: &str,
        why: &str,
    ) {
        if self.waiting.len() >= WAITING {
            self.allowance(topic).leave_out();
            return;
        }
        if !self.allowance(topic).allow(now) {
            return;
        }
        let line = match (setting.is_empty(), why.is_empty()) {
            (true, true) => format!(in self.alloc; "{words}\n"),
            (true, false) => format!(in self.alloc; "{words}: {why}\n"),
            (false, true) => format!(in self.alloc; "{words}: {setting}\n"),
            (false, false) => format!(in self.alloc; "{words}: {setting}: {why}\n"),
        };
        self.queue(line);
    }

    /// Queues a message, if there is memory for it.
    fn queue(&mut self, line: Result<String, AllocError>) {
        if let Ok(line) = line {
            let _ = self.waiting.push_back(line);
        }
    }

    /// Returns the allowance of a topic.
    fn allowance(&mut self, topic: Topic) -> &mut Allowance {
        match topic {
            Topic::Connected => &mut self.connected,
            Topic::Lost => &mut self.lost,
            Topic::NotConnected => &mut self.not_connected,
            Topic::Busy => &mut self.busy,
            Topic::Learned => &mut self.learned,
        }
    }

    /// Prints the messages that wait, as far as standard error accepts them without blocking.
    pub(crate) fn print(&mut self, now: Duration, log: &impl Eprint) {
        for topic in TOPICS {
            let left_out = self.allowance(topic).take_left_out(now);
            if left_out > 0 {
                let words = topic.words();
                let line = format!(in self.alloc;
                    "{words}: {left_out} more messages were left out\n"
                );
                self.queue(line);
            }
        }
        for _ in 0..self.waiting.len() {
            if !self.print_first(log) {
                return;
            }
        }
    }

    /// Prints the first message that waits, or the rest of it. Returns whether all of it was printed.
    fn print_first(&mut self, log: &impl Eprint) -> bool {
        let Some(line) = self.waiting.front() else {
            return false;
        };
        let rest = line.as_str().get(self.printed..).unwrap_or("");
        self.printed = self
            .printed
            .saturating_add(self.terminal.print_error(rest, log));
        if self.printed < line.len() {
            return false;
        }
        self.printed = 0;
        let _ = self.waiting.pop_front();
        true
    }

    /// Returns the time until there is something to print, if there is.
    pub(crate) fn patience(&self, now: Duration) -> Option<Duration> {
        let mut shortest = None;
        if !self.waiting.is_empty() {
            shortest = Some(Duration::from_millis(RETRY));
        }
        for allowance in [self.connected, self.lost, self.not_connected, self.busy] {
            shortest = match (shortest, allowance.time_left(now)) {
                (Some(one), Some(other)) => Some(one.min(other)),
                (None, time) | (time, None) => time,
            };
        }
        shortest
    }
}
