//! The bounds of a board.

ghost use Rattle.std.specs.Prelude.{◌≡◌};

/// Bounds on the commands of a board that wait, and on their bytes.
#[derive(Clone, Copy, Debug, PartialEq, Eq)]
pub struct Bounds {
    /// The maximum number of commands of one client that wait: those from the first one without a
    /// reply on. 0 lets no command pass.
    pub waiting: u64,
    /// The maximum number of bytes of commands that wait to be sent over one line. A longer command
    /// is queued only if no other bytes wait there.
    pub unsent: usize,
}

impl Bounds {
    /// Returns the default bounds: 1,024 commands of a client, and 1 MiB of commands to be sent over a
    /// line.
    pub fn standard() -> Bounds
        ensures { result ≡ record { waiting = 1024; unsent = 1048576 } }
    {
        Bounds {
            waiting: 1_024,
            unsent: 1_048_576,
        }
    }
}
