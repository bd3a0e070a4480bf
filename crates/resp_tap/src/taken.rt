//! The bytes of an incomplete command and of an incomplete value.

ghost use Rattle.std.specs.Prelude.{◌≡◌, ◌+◌, min};
ghost use Rattle.resp_tap.specs.Taken.{KeepsTaken, left_of, taken_of};

use crate::seen::Seen;
use crate::watch::Side;

/// The number of bytes read of the client's incomplete command, and of the server's incomplete value.
#[derive(Clone, Copy, Debug, PartialEq, Eq)]
pub(crate) struct Taken {
    pub(crate) sent: u64,
    pub(crate) received: u64,
}

/// No bytes.
pub(crate) const NONE_TAKEN: Taken = Taken {
    sent: 0,
    received: 0,
};

impl Taken {
    /// Returns the number of bytes that one side has sent of a command or value, after these bytes.
    pub(crate) fn take(&mut self, side: Side, used: usize, seen: &Seen) -> u64
        ensures bytes { result ≡ min (taken_of side self.old + used) 18446744073709551615 }
        ensures left { taken_of side self.new ≡ left_of seen.now result }
        ensures same_taken { KeepsTaken side self.old self.new }
    {
        match side {
            Side::Client => {
                let bytes = self.sent.saturating_add(used as u64);
                self.sent = left_of(bytes, seen);
                bytes
            }
            Side::Server => {
                let bytes = self.received.saturating_add(used as u64);
                self.received = left_of(bytes, seen);
                bytes
            }
        }
    }
}

/// Returns how many bytes of an incomplete command or value are left after a result: `bytes` if
/// nothing was complete, and otherwise 0.
fn left_of(bytes: u64, seen: &Seen) -> u64
    ensures { result ≡ left_of seen.now bytes }
{
    match seen {
        Seen::Nothing => bytes,
        _ => 0,
    }
}
