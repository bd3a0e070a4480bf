//! The time at which bytes arrive.

ghost use Rattle.std.specs.Prelude.{◌≡◌, ◌/◌, min};
ghost use Rattle.std.specs.Duration.{as_nanos};
ghost use Rattle.resp_io.specs.Devices.{last_count};

use std::time::Duration;

/// A time in UTC, and how it is printed.
#[derive(Clone, Copy, Debug, PartialEq, Eq)]
pub struct Utc {
    /// The microseconds since 1970.
    pub micros: u64,
    /// Whether a line of text has the date and the time of day. Otherwise it has the time of day.
    pub shows_date: bool,
}

/// The time shown by two clocks.
#[derive(Clone, Copy, Debug, PartialEq, Eq)]
pub struct Moment {
    /// The time of a clock that shows UTC.
    pub utc: Utc,
    /// The time in microseconds of a clock that is never set, from an unspecified start.
    pub steady: u64,
}

impl Moment {
    /// Returns the moment at which one clock shows `since_1970`, the time since 1970 in UTC, and a
    /// clock that is never set shows `steady`. Parts of a microsecond are dropped. `shows_date` says
    /// whether lines of text have the date too.
    pub fn new(since_1970: Duration, steady: Duration, shows_date: bool) -> Moment
        ensures utc { result.utc ≡ record {
          micros = min (as_nanos since_1970 / 1000) last_count;
          shows_date = shows_date;
        } }
        ensures steady { result.steady ≡ min (as_nanos steady / 1000) last_count }
    {
        Moment {
            utc: Utc {
                micros: whole_micros(since_1970),
                shows_date,
            },
            steady: whole_micros(steady),
        }
    }
}

/// Returns a duration in microseconds, at most `u64::MAX`.
fn whole_micros(duration: Duration) -> u64
    ensures { result ≡ min (as_nanos duration / 1000) last_count }
{
    u64::try_from(duration.as_micros()).unwrap_or(u64::MAX)
}
