//! The counts of the commands with one name.

ghost use Rattle.std.specs.Prelude.{◌≡◌, [], min};
ghost use Rattle.resp_stats.specs.Rows.{AddsCall, HasNoCall};

use crate::histogram::Histogram;
use crate::name::Name;

/// A command with its reply, as it is counted.
#[derive(Clone, Copy, Debug, PartialEq, Eq)]
pub struct Call {
    /// The number of bytes of the command.
    pub sent: u64,
    /// The number of bytes of the reply.
    pub received: u64,
    /// Whether the reply is an error.
    pub is_error: bool,
    /// The microseconds that the command waited for its reply, if they are known.
    pub waited: Option<u64>,
}

/// The counts of the commands with one name. A number saturates at its maximum.
#[derive(Debug, Drop)]
pub struct CommandRow {
    pub(crate) name: Name,
    pub(crate) calls: u64,
    pub(crate) errors: u64,
    pub(crate) sent: u64,
    pub(crate) received: u64,
    pub(crate) greatest: u64,
    pub(crate) delays: Histogram,
}

impl CommandRow {
    /// Returns a row without calls.
    pub(crate) fn new(name: Name) -> CommandRow
        ensures name { result.name ≡ name }
        ensures empty { HasNoCall result }
    {
        CommandRow {
            name,
            calls: 0,
            errors: 0,
            sent: 0,
            received: 0,
            greatest: 0,
            delays: Histogram::new(),
        }
    }

    /// Returns the name of the commands.
    pub fn name(&self) -> &[u8]
        ensures { result.now ≡ self.now.name.text.items }
    {
        self.name.as_bytes()
    }

    /// Returns the number of commands.
    pub fn calls(&self) -> u64
        ensures { result ≡ self.now.calls }
    {
        self.calls
    }

    /// Returns the number of commands whose reply is an error.
    pub fn errors(&self) -> u64
        ensures { result ≡ self.now.errors }
    {
        self.errors
    }

    /// Returns the number of bytes of the commands.
    pub fn sent(&self) -> u64
        ensures { result ≡ self.now.sent }
    {
        self.sent
    }

    /// Returns the number of bytes of the replies.
    pub fn received(&self) -> u64
        ensures { result ≡ self.now.received }
    {
        self.received
    }

    /// Returns the greatest number of microseconds that a command waited for its reply.
    pub fn greatest(&self) -> u64
        ensures { result ≡ self.now.greatest }
    {
        self.greatest
    }

    /// Returns how long the commands waited for their replies.
    pub fn delays(&self) -> &Histogram
        ensures { result.now ≡ self.now.delays }
    {
        &self.delays
    }

    /// Counts a command with its reply.
    pub(crate) fn add(&mut self, call: Call)
        ensures { AddsCall call self.old self.new }
    {
        self.calls = self.calls.saturating_add(1);
        self.errors = self.errors.saturating_add(u64::from(call.is_error));
        self.sent = self.sent.saturating_add(call.sent);
        self.received = self.received.saturating_add(call.received);
        if let Some(micros) = call.waited {
            self.greatest = self.greatest.max(micros);
            self.delays.add(micros, 1);
        }
    }
}
