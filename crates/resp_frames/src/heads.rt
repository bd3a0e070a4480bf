//! The first bytes of the last commands.

ghost use Rattle.std.specs.Prelude.{◌≡◌, ◌+◌, ◌%◌, ◌<◌, ◌≤◌, ◌∷◌, List, ℕ, [], length, slice_index, IfNone, IfSome};
ghost use Rattle.resp_frames.specs.Commands.{IsFrameOfWords};
ghost use Rattle.resp_scan.specs.Whole.{BeginsWith};
ghost use Rattle.resp_value.specs.Words.{command_of};

use crate::known_head::KnownHead;
use crate::words::{CommandFrame, command_of_piece};
use resp_value::limits::Limits;

/// The number of heads that are known at once.
const PLACES: usize = 16;

/// The first bytes of the last commands. Most commands begin like an earlier one, so neither the
/// head of the array nor the name is read again.
#[derive(Drop)]
pub(crate) struct Heads {
    known: [Option<KnownHead>; PLACES],
}

impl Heads {
    /// Returns an empty list of known heads.
    pub(crate) fn new() -> Heads {
        Heads {
            known: [None; PLACES],
        }
    }

    /// Returns the command at the beginning of the piece, if the piece contains the whole command.
    #[inline(always)]
    pub(crate) fn find<'a>(&mut self, piece: &'a [u8], limits: &Limits) -> Option<CommandFrame<'a>>
        ensures command { IfSome result (λ found. IsFrameOfWords limits.now [] piece.now found) }
        ensures none { IfNone result ((name : List ℕ) (arguments : List (List ℕ)) (rest : List ℕ) →
            BeginsWith limits.now piece.now (command_of (name ∷ arguments)) rest → ⊥) }
    {
        if let Some(head) = &self.known[place_of(piece)] {
            if let Some(found) = head.command(piece, limits) {
                return Some(found);
            }
        }
        self.find_unknown(piece, limits)
    }

    /// Like `find`, if the head of the command is not known. Afterwards it is known, unless the
    /// words of the command decide its class.
    #[inline(never)]
    fn find_unknown<'a>(&mut self, piece: &'a [u8], limits: &Limits) -> Option<CommandFrame<'a>>
        ensures command { IfSome result (λ found. IsFrameOfWords limits.now [] piece.now found) }
        ensures none { IfNone result ((name : List ℕ) (arguments : List (List ℕ)) (rest : List ℕ) →
            BeginsWith limits.now piece.now (command_of (name ∷ arguments)) rest → ⊥) }
    {
        let found = command_of_piece(piece, limits)?;
        if let Some(head) = KnownHead::of(piece, limits) {
            self.known[place_of(piece)] = Some(head);
        }
        Some(found)
    }
}

/// Returns the index at which the head of a command is kept. It is a hash of three bytes. In most
/// commands these are the length of the name and its first two letters.
#[inline(always)]
fn place_of(piece: &[u8]) -> usize
    ensures within { result < 16 }
    ensures short { length piece.now < 10 → result ≡ 0 }
    ensures hash { 10 ≤ length piece.now → result ≡ (slice_index piece.now 5 +
        slice_index piece.now 8 + slice_index piece.now 9) % 16 }
{
    if piece.len() < 10 {
        return 0;
    }
    (usize::from(piece[5]) + usize::from(piece[8]) + usize::from(piece[9])) % PLACES
}
