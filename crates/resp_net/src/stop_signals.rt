//! The signals that ask a program to stop.

use std::fs;
use std::fs::Files;
use std::time::Duration;

/// The bits of SIGINT and SIGTERM in a mask of signals.
const STOPPING: u64 = 1 << 1 | 1 << 14;

/// The file with the masks of the process.
const STATUS: &str = "/proc/self/status";

/// The time between two looks at the signals that wait, in milliseconds.
const PERIOD: u64 = 200;

/// Looks for SIGTERM and SIGINT, if the program was started with one of them blocked, for example
/// with `env --block-signal=TERM`. A blocked signal waits, and does not end the program.
#[derive(Clone, Copy, Debug)]
pub struct StopSignals {
    /// Whether one of them is blocked.
    are_blocked: bool,
    /// The time of the next look.
    next: Duration,
}

impl StopSignals {
    /// Returns a `StopSignals` that looks for the signals which are blocked now.
    pub fn new(files: &(impl Files + Alloc)) -> Self {
        StopSignals {
            are_blocked: mask(files, "SigBlk:") & STOPPING != 0,
            next: Duration::from_millis(0),
        }
    }

    /// Returns whether one of the signals waits. It looks at most five times a second.
    pub(crate) fn have_come(&mut self, files: &(impl Files + Alloc), now: Duration) -> bool {
        if !self.are_blocked || now < self.next {
            return false;
        }
        self.next = now.saturating_add(Duration::from_millis(PERIOD));
        (mask(files, "ShdPnd:") | mask(files, "SigPnd:")) & STOPPING != 0
    }

    /// Returns the time until the next look, or `None` if no signal is blocked.
    pub fn patience(&self, now: Duration) -> Option<Duration> {
        if self.are_blocked {
            Some(self.next.saturating_sub(now))
        } else {
            None
        }
    }
}

/// Returns the mask of signals of the process with this name, or an empty mask if it can't be read.
fn mask(files: &(impl Files + Alloc), name: &str) -> u64 {
    match fs::read_to_string(files, STATUS) {
        Ok(status) => mask_in(status.as_str(), name),
        Err(_) => 0,
    }
}

/// Returns the mask with this name in the lines of the file.
fn mask_in(status: &str, name: &str) -> u64 {
    for line in status.lines() {
        if let Some(mask) = line.strip_prefix(name) {
            return u64::from_str_radix(mask.trim(), 16).unwrap_or(0);
        }
    }
    0
}
