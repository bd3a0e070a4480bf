//! The times at which pieces arrive.

use resp_tap::Moment;
use std::io;
use std::rt::Clock;
use std::time::Duration;

/// Reads the clocks when pieces arrive, if times are printed.
#[derive(Clone, Copy)]
pub(crate) struct Timing {
    /// The last moment, if times are printed.
    last: Option<Moment>,
    /// Whether lines of text have the date too.
    shows_date: bool,
}

impl Timing {
    /// Returns a `Timing` that reads the clocks if `is_told` is true. `shows_date` says whether lines
    /// of text have the date too.
    ///
    /// # Errors
    ///
    /// The error of the system if a clock can't be read.
    pub(crate) fn new(clock: &impl Clock, is_told: bool, shows_date: bool) -> io::Result<Self> {
        let last = if is_told {
            Some(moment(clock, shows_date)?)
        } else {
            None
        };
        Ok(Timing { last, shows_date })
    }

    /// Returns the moment that was read last.
    pub(crate) fn last(&self) -> Option<Moment> {
        self.last
    }

    /// Returns the current moment if times are printed. If a clock can't be read, it returns the
    /// last moment.
    pub(crate) fn now(&mut self, clock: &impl Clock) -> Option<Moment> {
        if self.last.is_some() {
            if let Ok(now) = moment(clock, self.shows_date) {
                self.last = Some(now);
            }
        }
        self.last
    }
}

/// The clock of the traffic that is printed: it shows the moment that is printed. If no times are
/// printed, it shows the time of the system.
#[derive(Clone, Copy)]
pub(crate) struct TrafficClock<'a, C> {
    clock: &'a C,
    seen: Option<Moment>,
}

impl<'a, C: Clock> TrafficClock<'a, C> {
    /// Returns a clock that shows `seen`, or what `clock` shows if there is no moment.
    pub(crate) fn new(clock: &'a C, seen: Option<Moment>) -> Self {
        TrafficClock { clock, seen }
    }
}

impl<'a, C: Clock> Clock for TrafficClock<'a, C> {
    fn monotonic(&self) -> io::Result<Duration> {
        match self.seen {
            Some(seen) => Ok(Duration::from_micros(seen.steady)),
            None => self.clock.monotonic(),
        }
    }

    fn since_1970(&self) -> io::Result<Duration> {
        match self.seen {
            Some(seen) => Ok(Duration::from_micros(seen.utc.micros)),
            None => self.clock.since_1970(),
        }
    }
}

/// Reads the clocks.
fn moment(clock: &impl Clock, shows_date: bool) -> io::Result<Moment> {
    Ok(Moment::new(clock.since_1970()?, clock.monotonic()?, shows_date))
}
