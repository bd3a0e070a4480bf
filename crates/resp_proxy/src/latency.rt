//! How long replies take.

use resp_stats::Histogram;
use std::alloc::Global;
use std::collections::VecDeque;
use std::mem;
use std::time::Duration;

/// The seconds after which the older times are dropped.
const MINUTE: u64 = 60;

/// Commands that were queued at one time.
#[derive(Clone, Copy)]
struct Run {
    count: usize,
    since: Duration,
}

/// Since when the commands of one line wait for their replies.
#[derive(Drop)]
pub(crate) struct Waits {
    /// The commands that wait for a reply, and those that were queued last.
    runs: VecDeque<Run>,
    last: Run,
}

/// How long the replies of the last one to two minutes took, from the time at which the proxy read
/// the command to the time at which it read the reply.
#[derive(Drop)]
pub(crate) struct ReplyTimes {
    /// The times of this minute, and those of the minute before.
    recent: Histogram,
    older: Histogram,
    /// The end of this minute.
    until: Duration,
}

/// How long replies took, in microseconds. Each number exceeds the time by at most a sixteenth.
#[derive(Clone, Copy, Debug, Default, PartialEq, Eq)]
pub struct Times {
    /// Half of the replies took at most this time.
    pub median: u64,
    /// 99 of 100 replies took at most this time.
    pub percentile_99: u64,
    /// No reply took longer.
    pub most: u64,
}

impl Waits {
    /// Returns the state in which no command waits. Does not allocate.
    pub(crate) fn new(alloc: Global) -> Self {
        Waits {
            runs: VecDeque::new(alloc),
            last: Run {
                count: 0,
                since: Duration::from_millis(0),
            },
        }
    }

    /// Notes that commands were queued at this time. If an allocation fails, they count as queued
    /// with those before.
    pub(crate) fn queue(&mut self, count: usize, now: Duration) {
        if self.last.count > 0 && self.last.since != now && self.runs.push_back(self.last).is_ok() {
            self.last.count = 0;
        }
        if self.last.count == 0 {
            self.last.since = now;
        }
        self.last.count = self.last.count.saturating_add(count);
    }

    /// Notes that the first commands that wait have their replies at this time, and adds how long
    /// they took.
    pub(crate) fn reply(&mut self, count: usize, now: Duration, times: &mut ReplyTimes) {
        times.look_at_time(now);
        let mut rest = count;
        for _ in 0..count {
            let Some(run) = self.take(rest) else {
                return;
            };
            let micros = now.saturating_sub(run.since).as_micros();
            let micros = u64::try_from(micros).unwrap_or(u64::MAX);
            times.recent.add(micros, run.count as u64);
            rest = rest.saturating_sub(run.count);
        }
    }

    /// Forgets the first commands that wait.
    pub(crate) fn forget(&mut self, count: usize) {
        let mut rest = count;
        for _ in 0..count {
            let Some(run) = self.take(rest) else {
                return;
            };
            rest = rest.saturating_sub(run.count);
        }
    }

    /// Removes the first commands that wait and were queued at one time, at most this number.
    fn take(&mut self, most: usize) -> Option<Run> {
        let Some(first) = self.runs.front_mut() else {
            return part_of(&mut self.last, most);
        };
        let taken = part_of(first, most);
        if first.count == 0 {
            let _ = self.runs.pop_front();
        }
        taken
    }
}

impl ReplyTimes {
    /// Returns the times of no replies.
    pub(crate) fn new() -> Self {
        ReplyTimes {
            recent: Histogram::new(),
            older: Histogram::new(),
            until: Duration::from_millis(0),
        }
    }

    /// Drops the times of the minute before if this minute is over.
    fn look_at_time(&mut self, now: Duration) {
        if now < self.until {
            return;
        }
        let is_next = now < self.until.saturating_add(Duration::from_secs(MINUTE));
        let recent = mem::replace(&mut self.recent, Histogram::new());
        self.older = if is_next { recent } else { Histogram::new() };
        self.until = now.saturating_add(Duration::from_secs(MINUTE));
    }

    /// Returns how long the replies took.
    pub(crate) fn times(&self) -> Times {
        let mut all = self.recent;
        all.append(&self.older);
        Times {
            median: all.percentile(50).unwrap_or(0),
            percentile_99: all.percentile(99).unwrap_or(0),
            most: all.percentile(100).unwrap_or(0),
        }
    }
}

/// Removes at most this number of commands. Returns `None` if no command waits.
fn part_of(run: &mut Run, most: usize) -> Option<Run> {
    let count = run.count.min(most);
    if count == 0 {
        return None;
    }
    run.count = run.count.saturating_sub(count);
    Some(Run {
        count,
        since: run.since,
    })
}
