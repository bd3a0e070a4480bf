//! The second connection, over which a server that does not reply is asked whether it is busy.

use crate::arrival::{Arrival, Arrived, words_of};
use std::time::Duration;

/// The error of a server that runs a script for longer than it lets others wait.
const BUSY: &[u8] = b"-BUSY ";

/// A connection for PING while the server is silent. During a long script, Redis does not reply to
/// the commands of the connection that clients share, and replies with BUSY to those of other
/// connections.
#[derive(Drop)]
pub(crate) struct Pulse {
    /// The connection, until the server has replied over it or it has failed.
    arrival: Option<Box<Arrival>>,
    /// The beginning of the silence in which the server was asked last.
    asked: Option<Duration>,
}

impl Pulse {
    /// Returns a pulse of a server that was not asked.
    pub(crate) fn new() -> Self {
        Pulse {
            arrival: None,
            asked: None,
        }
    }

    /// Returns whether the server was asked in the silence that began at this time.
    pub(crate) fn was_asked(&self, since: Duration) -> bool {
        self.asked == Some(since)
    }

    /// Asks the server over a pending connection, if there is one, in the silence that began at
    /// this time.
    pub(crate) fn ask(&mut self, since: Duration, arrival: Option<Box<Arrival>>) {
        self.asked = Some(since);
        self.arrival = arrival;
    }

    /// Closes the connection.
    pub(crate) fn end(&mut self) {
        self.arrival = None;
    }

    /// Continues to ask. Closes the connection if it has failed, or if the server has replied with
    /// anything but BUSY.
    pub(crate) fn go_on(&mut self) {
        let Some(arrival) = &mut self.arrival else {
            return;
        };
        match arrival.go_on() {
            Ok(Arrived::No) => {}
            Ok(Arrived::Rejected) if arrival.refusal().starts_with(BUSY) => {}
            Ok(Arrived::Yes | Arrived::Rejected) | Err(_) => self.end(),
        }
    }

    /// Returns the words of the server if it has replied that it is busy.
    pub(crate) fn busy(&self) -> Option<&str> {
        let refusal = self.arrival.as_ref()?.refusal();
        if refusal.starts_with(BUSY) {
            Some(words_of(refusal))
        } else {
            None
        }
    }
}
