//! A link over memory.

ghost use Rattle.std.specs.Prelude.{◌≡◌, ◌≤◌, None, length, IsOk};

use super::{Carried, Direction, Link};

/// A link over memory. It never fails and does not allocate.
#[derive(Clone, Copy, Debug, Default, PartialEq, Eq, Drop)]
pub struct MemoryLink;

impl Link for MemoryLink {
    ghost is_honest = { λ _. Unit {0} };

    ghost traffic = { λ _. None };

    ghost failures = { λ _. 0 };

    ghost calls = { λ _. 0 };

    fn carry(&mut self, _direction: Direction, piece: &[u8], into: &mut [u8]) -> Carried
        requires same_length { length piece.now ≡ length into.old }
        requires short { length piece.now ≤ 1_024 }
        ensures carried { into.new ≡ piece.now }
        ensures always { IsOk result }
    {
        into.copy_from_slice(piece);
        Ok(())
    }
}
