//! Fast path for the head of a short array that is completely at the beginning of a piece.

ghost use Rattle.std.specs.Prelude.{◌≡◌, ◌<◌, ◌≤◌, ◌+◌, ◌*◌, IfSome, Some, drop, false, length};
ghost use Rattle.resp_scan.specs.Machine.Heads.{after_open};
ghost use Rattle.resp_scan.specs.Machine.Room.{is_full, total_room};
ghost use Rattle.resp_scan.specs.Machine.Scan.{Gave, scan};
ghost use Rattle.resp_scan.specs.Machine.Tokens.{AtArrayHead, Open, Place, at};
ghost use Rattle.resp_value.specs.declared.kind.OpenKind.TheVariants as kind;

use crate::machine::{Advance, Machine};
use crate::short::{Short, short_number};
use resp_value::kind::OpenKind;

impl Machine {
    ghost use Rattle.resp_scan.specs.Machine.Fields.{Reads};

    /// Reads after the `*` at the beginning of the piece, as [`Machine::array_head`].
    #[inline(never)]
    pub(crate) fn array_begins(&mut self, piece: &[u8]) -> Advance
        requires { 1 ≤ length piece.now }
        ensures { Reads self.old self.new AtArrayHead piece.now 1 result }
    {
        match short_head(piece) {
            Some(short) => {
                let needed = short.count * 3 + 2;
                let is_few = short.count <= self.limits.items();
                if is_few && !self.is_full() && self.has_total_room(short.head - 2, needed) {
                    return self.open(short.head, OpenKind::Array, short.count, short.count);
                }
                self.array_head(piece, 1)
            }
            None => self.array_head(piece, 1),
        }
    }
}

/// Returns the head of an array at the beginning of a piece, if its number has one or two digits.
#[inline(always)]
#[tactic(auto, using(crate::proofs::Soundness::ShortHeads::array_head))]
fn short_head(piece: &[u8]) -> Option<Short>
    ensures within { IfSome result (λ short. (short.head ≤ length piece.now) × (4 ≤ short.head) ×
        (short.head ≤ 5) × (short.count < 100)) }
    ensures head { IfSome result (λ short. (u : Place) → is_full u ≡ false →
        short.count ≤ u.bounds.items → short.head + short.count * 3 ≤ total_room u →
        Gave short.head (Open kind.Array (Some short.count)) (after_open u kind.Array short.count) ≡
        scan 1 (at u AtArrayHead) (drop 1 piece.now)) }
{
    if piece.len() < 5 {
        return None;
    }
    short_number(piece)
}
