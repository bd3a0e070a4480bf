//! The drain of a service: its clients get the replies to their commands, and then it ends.

use crate::service::shorter;
use crate::stop_signals::StopSignals;
use std::fs::Files;
use std::time::Duration;

/// How far a service has drained. A service that drains accepts no more clients, and closes each client once
/// the client has the replies to its commands. After a timeout it closes the clients that are still open.
#[derive(Clone, Copy, Debug)]
pub struct Drain {
    signals: StopSignals,
    timeout: Duration,
    stage: DrainStage,
    /// The places of all connections are less than this number.
    end: usize,
    /// The places below this one were named in this stage.
    named: usize,
}

/// The stages of a drain.
#[derive(Clone, Copy, Debug)]
enum DrainStage {
    /// It has not begun.
    Serving,
    /// Clients are closed once they have their replies, until this time.
    Draining(Duration),
    /// All clients are closed.
    Over,
}

impl Drain {
    /// Returns a drain that begins when SIGTERM or SIGINT comes, if this signal is blocked now, or at
    /// [`Drain::begin`].
    pub fn new(files: &(impl Files + Alloc), timeout: Duration) -> Self {
        Drain {
            signals: StopSignals::new(files),
            timeout,
            stage: DrainStage::Serving,
            end: 0,
            named: 0,
        }
    }

    /// Notes that there may be a connection in this place.
    pub fn note_place(&mut self, place: usize) {
        self.end = self.end.max(place.saturating_add(1));
    }

    /// Begins to drain, if the drain has not begun.
    pub fn begin(&mut self, now: Duration) {
        if let DrainStage::Serving = self.stage {
            self.stage = DrainStage::Draining(now.saturating_add(self.timeout));
            self.named = 0;
        }
    }

    /// Begins to drain if a signal has come. Notes that the timeout has passed.
    pub fn look(&mut self, files: &(impl Files + Alloc), now: Duration) {
        if self.is_late(now) {
            self.stage = DrainStage::Over;
            self.named = 0;
        } else if !self.has_begun() && self.signals.have_come(files, now) {
            self.begin(now);
        }
    }

    /// Returns whether the timeout has passed, and the clients that are still open were not closed yet.
    fn is_late(&self, now: Duration) -> bool {
        match self.stage {
            DrainStage::Draining(until) => until <= now,
            DrainStage::Serving | DrainStage::Over => false,
        }
    }

    /// Returns whether the drain has begun.
    pub fn has_begun(&self) -> bool {
        !matches!(self.stage, DrainStage::Serving)
    }

    /// Returns whether all clients are closed now, since the timeout has passed.
    pub fn is_over(&self) -> bool {
        matches!(self.stage, DrainStage::Over)
    }

    /// Returns the place of the next connection that has to learn that the drain has begun, or that the
    /// timeout has passed. Each place is returned once.
    pub fn next_place(&mut self) -> Option<usize> {
        if !self.has_begun() || self.named >= self.end {
            return None;
        }
        let place = self.named;
        self.named = place.saturating_add(1);
        Some(place)
    }

    /// Returns the time until [`Drain::look`] or [`Drain::next_place`] has to be called, if there is one.
    pub fn patience(&self, now: Duration) -> Option<Duration> {
        match self.stage {
            DrainStage::Serving => self.signals.patience(now),
            DrainStage::Draining(_) | DrainStage::Over if self.named < self.end => {
                Some(Duration::from_millis(0))
            }
            DrainStage::Draining(until) => Some(until.saturating_sub(now)),
            DrainStage::Over => None,
        }
    }
}
