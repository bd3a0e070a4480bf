//! When a connection to a server is tried again, and when it is given up, without sockets.

ghost use Rattle.std.specs.Prelude.{◌≡◌, ◌↔◌, ◌-◌, ◌<◌, false, true, option_map, IsTrue};
ghost use Rattle.std.specs.Duration.{as_nanos};
ghost use Rattle.resp_schedule.specs.Attempts.{HasJustReplied, HasLooked, HasNotWaited, HasPaused, HasReplies, IsBegunSince, IsDown, IsLate, IsOpen, IsOpenSince, IsSilent, MayBegin, time_left};

use std::time::Duration;

/// The state of a connection. All times are those of a clock that never goes back.
#[derive(Clone, Copy, Debug, PartialEq, Eq)]
pub enum Phase {
    /// There is no connection. The next attempt may begin at this time.
    Down {
        /// The time.
        until: Duration,
    },
    /// A connection was started at this time, and is still pending.
    Begun {
        /// The time.
        since: Duration,
    },
    /// The connection is open.
    Open(Quiet),
}

/// How long an open connection has been quiet.
#[derive(Clone, Copy, Debug, PartialEq, Eq)]
pub struct Quiet {
    /// The last look at the time before which a reply had come, or no command had waited.
    pub since: Duration,
    /// Whether a reply has come over this connection.
    pub has_replied: bool,
    /// Whether a reply has come since the last look at the time.
    pub replied: bool,
    /// Whether a command waited for its reply at the last look at the time.
    pub waited: bool,
}

/// When a connection to a server is tried again, and when it is given up.
///
/// An attempt that failed is repeated after a pause of 10 milliseconds, which doubles up to a second. A
/// connection over which a reply came is tried again at once when it is lost. A connection that is
/// not open in time is given up, and so is one over which commands wait and no reply comes.
#[derive(Clone, Copy, Debug, PartialEq, Eq)]
pub struct Attempts {
    /// The time after which a connection is given up.
    pub patience: Duration,
    /// The pause before the next attempt, in milliseconds.
    pub pause: u64,
    /// The current time.
    pub time: Duration,
    /// The state of the connection.
    pub phase: Phase,
}

impl Attempts {
    /// Returns the attempts before the first one, which may begin at once.
    pub fn new(patience: Duration) -> Self
        ensures may_begin { MayBegin result }
        ensures patience { result.patience ≡ patience }
        ensures no_pause { result.pause ≡ 0 }
    {
        let start = Duration::from_millis(0);
        Attempts {
            patience,
            pause: 0,
            time: start,
            phase: Phase::Down { until: start },
        }
    }

    /// Returns whether the connection is open.
    pub fn is_open(&self) -> bool
        ensures { IsTrue result ↔ IsOpen self.now }
    {
        matches!(self.phase, Phase::Open(_))
    }

    /// Returns whether no connection is open or pending.
    pub fn is_down(&self) -> bool
        ensures { IsTrue result ↔ IsDown self.now }
    {
        matches!(self.phase, Phase::Down { .. })
    }

    /// Returns whether an attempt may begin now: there is no connection, and the pause is over.
    pub fn may_begin(&self) -> bool
        ensures { IsTrue result ↔ MayBegin self.now }
    {
        match self.phase {
            Phase::Down { until } => until.saturating_sub(self.time).is_zero(),
            _ => false,
        }
    }

    /// Notes that a connection is started now.
    pub fn begin(&mut self)
        ensures begun { IsBegunSince self.old.time self.new.phase }
        ensures rest { self.new ≡ record self.old { phase = self.new.phase } }
    {
        self.phase = Phase::Begun { since: self.time };
    }

    /// Notes that the connection is open now. No command waits and no reply has come over it.
    pub fn open(&mut self)
        ensures open { IsOpenSince self.old.time self.new.phase }
        ensures rest { self.new ≡ record self.old { phase = self.new.phase } }
    {
        self.phase = Phase::Open(Quiet {
            since: self.time,
            has_replied: false,
            replied: false,
            waited: false,
        });
    }

    /// Notes that replies have come. Nothing changes if the connection is not open.
    pub fn note_replies(&mut self)
        ensures replied { HasReplies self.old.phase self.new.phase }
        ensures rest { self.new ≡ record self.old { phase = self.new.phase } }
    {
        if let Phase::Open(quiet) = self.phase {
            self.phase = Phase::Open(Quiet {
                has_replied: true,
                replied: true,
                ..quiet
            });
        }
    }

    /// Looks at the time, and returns whether the connection is given up: it is open, a command
    /// waits and waited at the last look, and no reply has come for longer than the patience.
    /// `waits` says whether a command waits for its reply now.
    pub fn gives_up(&mut self, waits: bool) -> bool
        ensures silent { IsTrue result ↔ ((waits ≡ true) × IsSilent self.new) }
        ensures replied { HasJustReplied self.old.phase → result ≡ false }
        ensures idle { HasNotWaited self.old.phase → result ≡ false }
        ensures looked { HasLooked waits self.old.time self.old.phase self.new.phase }
        ensures rest { self.new ≡ record self.old { phase = self.new.phase } }
    {
        let Phase::Open(quiet) = self.phase else {
            return false;
        };
        let since = if quiet.replied || !quiet.waited {
            self.time
        } else {
            quiet.since
        };
        self.phase = Phase::Open(Quiet {
            since,
            replied: false,
            waited: waits,
            ..quiet
        });
        waits && self.is_over(since)
    }

    /// Returns the time until the next attempt may begin, or the connection is given up, if nothing
    /// happens before; `None` if it is open and no command waits. `waits` says whether a command
    /// waits for its reply now.
    pub fn time_left(&self, waits: bool) -> Option<Duration>
        ensures { option_map as_nanos result ≡ time_left waits self.now }
    {
        let until = match self.phase {
            Phase::Down { until } => until,
            Phase::Begun { since } => since.saturating_add(self.patience),
            Phase::Open(quiet) if waits => quiet.since.saturating_add(self.patience),
            Phase::Open(_) => return None,
        };
        Some(until.saturating_sub(self.time))
    }

    /// Notes that the connection was lost. The next attempt may begin at once if a reply came over
    /// this connection, and otherwise after a pause: 10 milliseconds, or twice the pause before, at
    /// most a second.
    pub fn lose(&mut self)
        ensures paused { HasPaused self.old self.new }
    {
        let has_replied = match self.phase {
            Phase::Open(quiet) => quiet.has_replied,
            _ => false,
        };
        self.pause = if has_replied {
            0
        } else {
            self.pause.saturating_mul(2).max(10).min(1_000)
        };
        let until = self.time.saturating_add(Duration::from_millis(self.pause));
        self.phase = Phase::Down { until };
    }

    /// Notes that another address of the server is tried at once.
    pub fn begin_again(&mut self)
        ensures may_begin { MayBegin self.new }
        ensures rest { self.new ≡ record self.old { phase = self.new.phase } }
    {
        self.phase = Phase::Down { until: self.time };
    }

    /// Notes that the connection is closed on purpose. The next attempt may begin at once, and the
    /// pauses start again at 10 milliseconds.
    pub fn stop(&mut self)
        ensures may_begin { MayBegin self.new }
        ensures no_pause { self.new.pause ≡ 0 }
        ensures rest { self.new ≡
            record self.old { phase = self.new.phase; pause = self.new.pause } }
    {
        self.pause = 0;
        self.phase = Phase::Down { until: self.time };
    }

    /// Returns whether a pending connection is not open in time.
    pub fn is_late(&self) -> bool
        ensures { IsTrue result ↔ IsLate self.now }
    {
        match self.phase {
            Phase::Begun { since } => self.is_over(since),
            _ => false,
        }
    }

    /// Returns whether more time than the patience has passed since then.
    fn is_over(&self, since: Duration) -> bool
        ensures { IsTrue result ↔
            (as_nanos self.now.patience < as_nanos self.now.time - as_nanos since) }
    {
        let passed = self.time.saturating_sub(since);
        !passed.saturating_sub(self.patience).is_zero()
    }
}
