//! A step that passes its event to a slot, and passes a text and its end together if both are in
//! the piece.

ghost use Rattle.std.specs.Prelude.{◌≡◌};

use crate::event::Fault;
use crate::machine::Machine;
use crate::receiver::Filling;
use crate::slot::Slot;

impl Machine {
    ghost use Rattle.resp_scan.specs.Machine.Fields.{place_of};
    ghost use Rattle.resp_scan.specs.Machine.Slots.{FillsSlot};
    ghost use Rattle.resp_scan.specs.Machine.Sound.{IsSound};

    /// Continues from the token in which the piece begins, and passes its event to the slot.
    #[inline(always)]
    pub(crate) fn step_into<S: Slot>(
        &mut self,
        piece: &[u8],
        slot: &mut S,
    ) -> Result<Option<usize>, Fault>
        requires { IsSound (place_of self.old) }
        ensures { FillsSlot (S.shows slot.new) (S.shows_text slot.new) (slot.new ≡ slot.old)
            (place_of self.old) self.new piece.now result }
    {
        self.advance(piece, &mut Filling { slot })
    }
}
