//! The maximum number of events of one kind that are reported in a second.

ghost use Rattle.std.specs.Prelude.{◌≡◌, ◌↔◌, false, option_map, IsTrue};
ghost use Rattle.std.specs.Duration.{as_nanos};
ghost use Rattle.resp_schedule.specs.Allowances.{Allows, HasPassed, IsAllowed, LeavesOut, Tells, told_after};

use std::time::Duration;

/// The length of a period, in milliseconds.
const PERIOD: u64 = 1_000;

/// Allows at most this many events in a second, and counts the others.
///
/// A second begins with the first event after the second before it.
#[derive(Clone, Copy, Debug, PartialEq, Eq)]
pub struct Allowance {
    /// The maximum number of events that are allowed in one second.
    pub most: u32,
    /// The time at which the current second began, on a clock that never goes back.
    pub since: Duration,
    /// The events that were allowed in it.
    pub count: u32,
    /// The events that were not allowed, and were not reported yet.
    pub left_out: u64,
}

impl Allowance {
    /// Returns an allowance of at most `most` events in a second, before the first event.
    pub fn new(most: u32) -> Self
        ensures most { result.most ≡ most }
        ensures no_event { result.count ≡ 0 }
        ensures nothing_left_out { result.left_out ≡ 0 }
    {
        Allowance {
            most,
            since: Duration::from_millis(0),
            count: 0,
            left_out: 0,
        }
    }

    /// Returns whether an event at this time is allowed, and counts it.
    pub fn allow(&mut self, now: Duration) -> bool
        ensures allowed { IsTrue result ↔ IsAllowed self.old now }
        ensures counted { IsTrue result → Allows self.old now self.new }
        ensures left_out { result ≡ false → LeavesOut self.old self.new }
    {
        if self.is_over(now) {
            self.since = now;
            self.count = 0;
        }
        if self.count < self.most {
            self.count += 1;
            true
        } else {
            self.leave_out();
            false
        }
    }

    /// Counts an event that is not reported for another reason.
    pub fn leave_out(&mut self)
        ensures one_more { LeavesOut self.old self.new }
        ensures same_second { (self.new.since ≡ self.old.since) × (self.new.count ≡ self.old.count) }
    {
        self.left_out = self.left_out.saturating_add(1);
    }

    /// Returns how many events were not allowed, once their second is over, and forgets them. It is 0
    /// before that.
    pub fn take_left_out(&mut self, now: Duration) -> u64
        ensures { Tells self.old now result self.new }
    {
        if !self.is_over(now) {
            return 0;
        }
        let left_out = self.left_out;
        self.left_out = 0;
        left_out
    }

    /// Returns the time until `take_left_out` returns events, if there are some.
    pub fn time_left(&self, now: Duration) -> Option<Duration>
        ensures { told_after now self.now (option_map as_nanos result) }
    {
        if self.left_out == 0 {
            return None;
        }
        let end = self.since.saturating_add(Duration::from_millis(PERIOD));
        Some(end.saturating_sub(now))
    }

    /// Returns whether the current second is over.
    fn is_over(&self, now: Duration) -> bool
        ensures { IsTrue result ↔ HasPassed self.now now }
    {
        let end = self.since.saturating_add(Duration::from_millis(PERIOD));
        end.saturating_sub(now).is_zero()
    }
}
