//! Times of packets.

ghost use Rattle.std.specs.Prelude.{◌+◌, ◌<◌, ◌^◌};
ghost use Rattle.resp_capture.specs.Frames.{IsTime};

/// The number of nanoseconds of a second.
const NANOS: u128 = 1_000_000_000;

/// A time since 1970 in UTC.
#[derive(Clone, Copy, Debug, Default, PartialEq, Eq)]
pub struct Time {
    pub seconds: u64,
    /// The nanoseconds after that second, fewer than 1,000,000,000.
    pub nanos: u32,
}

/// Returns the time that is a number of ticks after a number of seconds. A second has `per_second`
/// ticks. Parts of a nanosecond are dropped.
pub(crate) fn time_of(seconds: u64, ticks: u64, per_second: u64) -> Time
    requires some { 0 < per_second }
    requires fits { seconds + ticks < 2 ^ 64 }
    ensures { IsTime seconds ticks per_second result }
{
    let rest = (ticks % per_second) as u128;
    Time {
        seconds: seconds + ticks / per_second,
        nanos: (rest * NANOS / per_second as u128) as u32,
    }
}
