//! The pieces in which a client gets bytes.

ghost use Rattle.std.specs.Prelude.{◌≡◌, ◌<◌, None, IfSome, IsSome, false, true};

use crate::cutter::{Cut, Cutter};
use crate::deadlines::Deadlines;
use crate::service::Next;
use std::marker::Model;
use std::rt::Clock;
use std::time::Duration;

/// The time after a piece in which nothing more is written to its client, in milliseconds.
const PAUSE: u64 = 1;

/// The pieces in which a client gets bytes, and the pauses after them. If bytes are not cut, a piece has all
/// bytes that wait, and there are no pauses.
#[derive(Drop)]
pub struct Pieces {
    cutter: Option<Cutter>,
    pause: Pause,
}

/// Whether bytes are written to the client.
#[derive(Clone, Copy)]
enum Pause {
    /// They are.
    Over,
    /// They are not, since a piece was written in this visit.
    Begun,
    /// They are not before this time.
    Until(Duration),
}

impl Model for Pieces {
    ghost use Rattle.resp_net.specs.Pieces.{PiecesState, is_paused};

    ghost Value = { PiecesState };

    ghost view = { λ p. record { cut = p.cutter; are_paused = is_paused p.pause } };
}

impl Pieces {
    /// Returns the pieces of a client to which nothing was written.
    pub fn new(cut: Option<Cut>) -> Self
        ensures uncut { cut ≡ None → result.cut ≡ None }
        ensures not_paused { result.are_paused ≡ false }
    {
        Pieces {
            cutter: cut.map(|cut| Cutter::new(cut)),
            pause: Pause::Over,
        }
    }

    /// Returns the maximum number of bytes of the next piece.
    pub fn most(&self) -> usize
        ensures some { 0 < result }
        ensures up_to_the_cut { IfSome self.now.cut (λ cut. result ≡ cut.left) }
    {
        match &self.cutter {
            Some(cutter) => cutter.left(),
            None => usize::MAX,
        }
    }

    /// Returns whether nothing is written to the client.
    pub fn are_paused(&self) -> bool
        ensures { result ≡ self.now.are_paused }
    {
        !matches!(self.pause, Pause::Over)
    }

    /// Notes that this many bytes were written to the client. If they are a piece, a pause begins.
    pub fn note_written(&mut self, count: usize)
        ensures uncut { self.old.cut ≡ None → self.new ≡ self.old }
        ensures nothing_written { count ≡ 0 → self.new ≡ self.old }
        ensures paused { IsSome self.old.cut → 0 < count → self.new.are_paused ≡ true }
    {
        if let Some(cutter) = &mut self.cutter {
            if count > 0 {
                cutter.advance(count);
                self.pause = Pause::Begun;
            }
        }
    }

    /// Ends the pause if its time has come.
    pub fn look(&mut self, now: Duration)
        ensures same_cut { self.new.cut ≡ self.old.cut }
        ensures no_new_pause { self.new.are_paused ≡ true → self.old.are_paused ≡ true }
    {
        if let Pause::Until(until) = self.pause {
            if until <= now {
                self.pause = Pause::Over;
            }
        }
    }

    /// Sets the end of a pause that has begun in this visit, and adds it to the deadlines of the connection in
    /// this place. Returns `next`, or `Again` if an allocation fails: then there is no pause. `now` is the time
    /// of this turn of the loop, for a clock that cannot be read.
    pub fn settle(
        &mut self,
        clock: &impl Clock,
        now: Duration,
        place: usize,
        pauses: &mut Deadlines,
        next: Next,
    ) -> Next
        ensures same_cut { self.new.cut ≡ self.old.cut }
        ensures no_new_pause { self.new.are_paused ≡ true → self.old.are_paused ≡ true }
        ensures not_paused { self.old.are_paused ≡ false → result ≡ next }
    {
        if !matches!(self.pause, Pause::Begun) {
            return next;
        }
        let now = clock.monotonic().unwrap_or(now);
        let until = now.saturating_add(Duration::from_millis(PAUSE));
        if pauses.add(until, place).is_err() {
            self.pause = Pause::Over;
            return Next::Again;
        }
        self.pause = Pause::Until(until);
        next
    }
}
