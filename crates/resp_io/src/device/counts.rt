//! The counts of a device: its calls, and the calls that failed.

ghost use Rattle.std.specs.Prelude.{◌≡◌};
ghost use Rattle.resp_io.specs.Devices.{count_after};

/// Two counts. A count that has reached its greatest value stays there.
#[derive(Clone, Copy, Debug, Default)]
pub struct DeviceCounts {
    /// The number of calls.
    pub calls: u64,
    /// The number of calls that failed.
    pub failures: u64,
}

impl DeviceCounts {
    /// Counts a call.
    pub fn add_call(&mut self)
        ensures { self.new ≡ record self.old { calls = count_after 1 self.old.calls } }
    {
        self.calls = self.calls.saturating_add(1);
    }

    /// Counts a failure.
    pub fn add_failure(&mut self)
        ensures { self.new ≡ record self.old { failures = count_after 1 self.old.failures } }
    {
        self.failures = self.failures.saturating_add(1);
    }
}
