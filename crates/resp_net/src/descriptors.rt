//! How many clients the limit of file descriptors allows.

ghost use Rattle.std.specs.Prelude.{◌≡◌, ◌≤◌, ◌<◌, ◌+◌};
ghost use Rattle.resp_net.specs.Descriptors.{descriptors_of};

use libc::RLIMIT_NOFILE;
use libc::types::rlimit;

/// The maximum number of clients of a program.
pub const MOST_CLIENTS: u32 = 65_536;

/// The limit if the system does not report one.
const USUAL_LIMIT: u64 = 1_024;

/// How many file descriptors a program needs for its clients.
#[derive(Clone, Copy)]
pub struct Descriptors {
    /// The number without a client.
    pub fixed: u32,
    /// The number of clients that need a second descriptor. Each client needs one.
    pub second: u32,
}

impl Descriptors {
    /// Returns the number of descriptors for this many clients.
    pub fn for_clients(self, clients: u32) -> u64
        ensures { result ≡ descriptors_of self.fixed self.second clients }
    {
        u64::from(self.fixed) + u64::from(clients) + u64::from(clients.min(self.second))
    }

    /// Returns the maximum number of clients, from 1 to 65,536, for which this many descriptors are
    /// enough. It is 1 if they are not enough for any client.
    pub fn most_clients(self, limit: u64) -> u32
        ensures one { 1 ≤ result }
        ensures in_range { result ≤ 65536 }
        ensures enough { 1 < result → descriptors_of self.fixed self.second result ≤ limit }
        ensures greatest { result < 65536 →
            limit < descriptors_of self.fixed self.second (result + 1) }
    {
        let left = limit.saturating_sub(u64::from(self.fixed));
        let second = u64::from(self.second);
        let clients = if left / 2 < second {
            left / 2
        } else {
            left - second
        };
        clients.clamp(1, u64::from(MOST_CLIENTS)) as u32
    }
}

/// Returns the maximum number of file descriptors that the program may have open.
pub fn limit() -> u64 {
    let mut limit = rlimit {
        rlim_cur: 0,
        rlim_max: 0,
    };
    if libc::getrlimit(RLIMIT_NOFILE, &mut limit) == 0 {
        limit.rlim_cur
    } else {
        USUAL_LIMIT
    }
}
