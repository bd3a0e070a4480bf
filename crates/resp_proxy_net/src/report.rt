//! The numbers of a proxy, which are printed from time to time.

use resp_io::live::LiveSink;
use resp_net::terminal::Terminal;
use resp_proxy::{Numbers, Times};
use std::alloc::{AllocError, Global};
use std::fs::{File, Files};
use std::io;
use std::net::Net;
use std::time::Duration;

/// Prints the numbers of a proxy on standard output from time to time. If standard output accepts only a part
/// of a line without blocking, the rest is printed in place of the next line.
#[derive(Drop)]
pub(crate) struct Report {
    alloc: Global,
    terminal: Terminal,
    /// The time between two lines.
    every: Duration,
    /// The time of the next line.
    next: Duration,
    /// The end of a line of which standard output accepted a part.
    rest: Vec<u8>,
    /// Whether a write to a file or a socket has failed. Nothing is printed after that.
    has_failed: bool,
}

impl Report {
    /// Returns a report with a line at once, and then one at this interval.
    ///
    /// # Errors
    ///
    /// An error of the system, or of kind `OutOfMemory`.
    pub(crate) fn new<R: Net + Files<File = File>>(
        rt: &R,
        alloc: Global,
        every: Duration,
    ) -> io::Result<Self> {
        Ok(Report {
            alloc,
            terminal: Terminal::new(rt, alloc)?,
            every,
            next: Duration::from_millis(0),
            rest: Vec::new(alloc),
            has_failed: false,
        })
    }

    /// Returns the time until the next line, or `None` if a write has failed.
    pub(crate) fn patience(&self, now: Duration) -> Option<Duration> {
        if self.has_failed {
            return None;
        }
        Some(self.next.saturating_sub(now))
    }

    /// Prints a line if it is time for one and no write has failed.
    pub(crate) fn go_on<W: LiveSink>(
        &mut self,
        now: Duration,
        numbers: (Numbers, Times),
        out: &mut W,
    ) {
        if self.has_failed || now < self.next {
            return;
        }
        self.next = now.saturating_add(self.every);
        if self.rest.is_empty() {
            match line_of(self.alloc, numbers) {
                Ok(line) => self.rest = line,
                Err(AllocError) => return,
            }
        }
        match self.terminal.print_or_drop(&self.rest, out) {
            Ok(count) => {
                let left = self.rest[count..].to_vec(self.alloc);
                self.rest = left.unwrap_or(Vec::new(self.alloc));
            }
            Err(_) => self.has_failed = true,
        }
    }
}

/// Returns the line with the numbers of a proxy.
fn line_of(alloc: Global, numbers: (Numbers, Times)) -> Result<Vec<u8>, AllocError> {
    let (numbers, times) = numbers;
    let Numbers {
        clients,
        accepted,
        rejected,
        unread,
        own,
        commands,
        failed,
        connections,
        waiting,
        unsent,
        lines,
    } = numbers;
    let Times {
        median,
        percentile_99,
        most,
    } = times;
    let line = format!(in alloc;
        "clients {clients} accepted {accepted} rejected {rejected} unread {unread} own {own} commands {commands} waiting {waiting} failed {failed} unsent {unsent} connections {connections} lines {lines} p50 {median} p99 {percentile_99} max {most}\n"
    )?;
    Ok(line.into_bytes())
}
