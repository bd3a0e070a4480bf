//! The incomplete request of a client.

ghost use Rattle.std.specs.Prelude.{◌≡◌, ℕ, Bool, List, [], false, true, IsTrue};
ghost use Rattle.resp_frames.specs.Unfinished.{HasArray, HasBegunRequest, HasBytes};
ghost use Rattle.resp_line.specs.Inline.{GoesOn};
ghost use Rattle.resp_value.specs.Rules.{Rules};

use crate::begun::Begun;
use resp_line::begins_line;
use std::alloc::Global;

/// The bytes of the incomplete request of a client, which is an array or a line. Between two
/// requests it holds no memory.
#[derive(Drop)]
pub struct Unfinished {
    /// The incomplete array.
    pub begun: Begun,
    /// The bytes of the incomplete line.
    pub line: Vec<u8>,
}

impl Unfinished {
    /// Returns a client between two requests. Does not allocate.
    pub fn new(alloc: Global) -> Unfinished
        ensures nothing { (rules : Rules) (lines : Bool) → HasBegunRequest rules lines result [] }
    {
        Unfinished {
            begun: Begun::new(),
            line: Vec::new(alloc),
        }
    }

    /// Returns whether the next byte of a client belongs to a line. `lines` says whether a line is a
    /// request too.
    pub fn is_line(&self, lines: bool, piece: &[u8]) -> bool
        ensures line { (rules : Rules) (front : List ℕ) →
            HasBegunRequest rules lines self.now front → IsTrue result →
            (lines ≡ true) × GoesOn front piece.now × HasBytes rules self.now front }
        ensures array { (rules : Rules) (front : List ℕ) →
            HasBegunRequest rules lines self.now front → result ≡ false →
            HasArray rules self.now front }
    {
        if !self.line.is_empty() {
            return true;
        }
        lines && self.begun.is_empty() && begins_line(piece)
    }
}
