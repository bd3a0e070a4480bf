//! The clock of a capture.

use resp_capture::Time;
use std::io;
use std::rt::Clock;
use std::time::Duration;

/// A clock that shows the time of the packet that was read last.
#[derive(Clone, Copy, Default)]
pub(crate) struct PacketClock {
    time: Time,
}

impl PacketClock {
    /// Sets the clock to the time of a packet.
    pub(crate) fn set(&mut self, time: Time) {
        self.time = time;
    }

    /// Returns the time since 1970.
    fn duration(&self) -> Duration {
        Duration::from_secs(self.time.seconds).saturating_add(Duration::from_nanos(
            self.time.nanos as u64,
        ))
    }
}

impl Clock for PacketClock {
    fn monotonic(&self) -> io::Result<Duration> {
        Ok(self.duration())
    }

    fn since_1970(&self) -> io::Result<Duration> {
        Ok(self.duration())
    }
}
