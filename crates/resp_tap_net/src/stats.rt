//! The counts of a window, and when they are printed.

use crate::timing::Timing;
use resp_stats::Counts;
use std::alloc::{AllocError, Global};
use std::io;
use std::rt::Clock;
use std::time::Duration;

/// When the table of the counts is printed.
#[derive(Clone, Copy)]
pub enum Tables {
    /// When the last connection closes.
    AtEnd,
    /// When the last connection closes, and at this interval.
    Every(Duration),
}

/// The counts of a window, and the time of the next table. A table is printed only if commands were
/// read since the table before.
#[derive(Drop)]
pub(crate) struct Stats {
    pub(crate) counts: Counts,
    /// The microseconds between two tables, if there are tables while connections are open.
    every: Option<u64>,
    /// The time of the next table, in microseconds.
    next: u64,
    /// The number of open connections.
    open: u64,
    /// Whether something was read since the last table.
    has_news: bool,
}

impl Stats {
    /// Returns counts without commands.
    ///
    /// # Errors
    ///
    /// `AllocError` if an allocation fails.
    pub(crate) fn new(alloc: Global, tables: Tables) -> Result<Self, AllocError> {
        let every = match tables {
            Tables::AtEnd => None,
            Tables::Every(every) => Some(u64::try_from(every.as_micros()).unwrap_or(u64::MAX)),
        };
        Ok(Stats {
            counts: Counts::new(alloc)?,
            every,
            next: 0,
            open: 0,
            has_news: false,
        })
    }

    /// Notes that something is read at this time, in microseconds.
    pub(crate) fn note(&mut self, now: u64) {
        if !self.has_news && self.next <= now {
            self.next = now.saturating_add(self.every.unwrap_or(0));
        }
        self.has_news = true;
    }

    /// Notes that a connection is open.
    pub(crate) fn open(&mut self) {
        self.open = self.open.saturating_add(1);
    }

    /// Notes that a connection has closed. Returns whether a table is printed, because it was the last.
    pub(crate) fn close(&mut self) -> bool {
        self.open = self.open.saturating_sub(1);
        self.open == 0 && self.has_news
    }

    /// Returns whether it is time for a table, at this time in microseconds.
    pub(crate) fn is_due(&self, now: u64) -> bool {
        self.every.is_some() && self.has_news && self.next <= now
    }

    /// Returns the time until the next table, if there is one.
    pub(crate) fn patience(&self, now: u64) -> Option<Duration> {
        if self.every.is_none() || !self.has_news {
            return None;
        }
        // One millisecond more, because the wait is cut to milliseconds.
        let rest = self.next.saturating_sub(now) / 1_000;
        Some(Duration::from_millis(rest.saturating_add(1)))
    }

    /// Notes that a table is printed at this time, in microseconds.
    pub(crate) fn printed(&mut self, now: u64) {
        self.next = now.saturating_add(self.every.unwrap_or(0));
        self.has_news = false;
    }
}

/// Returns the times, which are read if `is_timed` is true, and the counts of commands if tables are
/// printed. `shows_date` says whether lines of text have the date too.
///
/// # Errors
///
/// The error of the system if a clock can't be read, or an error of kind `OutOfMemory` if an
/// allocation fails.
pub(crate) fn counted_from(
    clock: &impl Clock,
    alloc: Global,
    is_timed: bool,
    shows_date: bool,
    tables: Option<Tables>,
) -> io::Result<(Timing, Option<Stats>)> {
    let timing = Timing::new(clock, is_timed, shows_date)?;
    match tables {
        Some(tables) => Ok((timing, Some(Stats::new(alloc, tables)?))),
        None => Ok((timing, None)),
    }
}
