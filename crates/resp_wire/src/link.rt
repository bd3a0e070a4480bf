//! Links, which carry bytes between a client and its session.

ghost use Rattle.std.specs.Prelude.{◌≡◌, ◌≤◌, ◌+◌, ℕ, Option, length, is_err, true, IfErr, OnOk};
ghost use Rattle.resp_io.specs.Devices.{failures_after};
ghost use Rattle.resp_wire.specs.Links.{Carries, Traffic, is_of_link};

use resp_value::cause::Cause;
use thiserror::Error;

mod memory;
mod tcp;

pub use memory::MemoryLink;
pub use tcp::TcpLink;

/// The direction of a carry.
#[derive(Clone, Copy, Debug, PartialEq, Eq)]
pub enum Direction {
    /// From the client to its session.
    ToServer,
    /// From the session to its client.
    ToClient,
}

/// The error of a link.
#[derive(Clone, Copy, Debug, PartialEq, Eq, Error)]
#[error("the connection failed: {cause:?}")]
pub struct LinkFault {
    /// The cause: `Read`, `Write` or `TooManyTurns`.
    pub cause: Cause,
}

/// The result of a carry.
pub type Carried = Result<(), LinkFault>;

/// A connection between a client and its session that carries bytes in both directions.
pub trait Link: Drop {
    /// Holds if the link delivers the bytes that it is given. If it does not hold, the link
    /// promises nothing about its bytes.
    ghost is_honest: { Self → Type 0 };

    /// The bytes that were carried in each direction, or `None` if the link does not say.
    ghost traffic: { Self → Option Traffic };

    /// The number of calls that failed.
    ghost failures: { Self → ℕ };

    /// The number of reads and writes that were made.
    ghost calls: { Self → ℕ };

    /// Carries a piece of at most 1,024 bytes to the other end. `into` has the same length. Makes
    /// at most 65,536 reads and writes.
    ///
    /// # Errors
    ///
    /// A [`LinkFault`] with the cause `Read`, `Write` or `TooManyTurns`. Then the bytes in `into`
    /// are unspecified.
    fn carry(&mut self, direction: Direction, piece: &[u8], into: &mut [u8]) -> Carried
        requires same_length { length piece.now ≡ length into.old }
        requires short { length piece.now ≤ 1_024 }
        ensures carried { is_honest self.old → OnOk result (into.new ≡ piece.now) }
        ensures traffic { OnOk result
            (Carries direction piece.now (traffic self.old) (traffic self.new)) }
        ensures honest { is_honest self.old → is_honest self.new }
        ensures cause { IfErr result (λ fault. is_of_link fault.cause ≡ true) }
        ensures failures { failures self.new ≡
            failures_after (is_err result) (failures self.old) }
        ensures calls { calls self.new ≤ calls self.old + 65_536 };
}
