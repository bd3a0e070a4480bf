//! The loop over a piece, which passes its events to a listener up to the end of a value.

ghost use Rattle.std.specs.Prelude.{◌≡◌, false, true};

use crate::event::{Fault, ScanError, Scanned};
use crate::listener::Listener;
use crate::machine::{EventTag, Machine, State};
use crate::turn::beyond;
use resp_value::cause::Cause;

/// The result of one turn of the loop.
#[derive(Clone, Copy)]
pub enum Turn {
    /// The listener continues.
    On,
    /// The piece has ended.
    More,
    /// The value has ended.
    Done,
    /// A byte was rejected.
    Failed,
    /// The listener stopped.
    Stopped,
}

/// The number of bytes that one turn used, and its result.
#[derive(Clone, Copy)]
pub struct Turned {
    /// The number of bytes used, or 0 if a byte was rejected.
    pub used: usize,
    /// The result.
    pub turn: Turn,
}

impl Machine {
    ghost use Rattle.resp_scan.specs.Machine.Fields.{place_of, out_by};
    ghost use Rattle.resp_scan.specs.Machine.Scan.{out_from};
    ghost use Rattle.resp_scan.specs.Machine.Sound.{IsSound};
    ghost use Rattle.resp_scan.specs.Machine.Tokens.{Dead};
    ghost use Rattle.resp_scan.specs.Machine.Turns.{IsScanned, IsTurn};

    /// Passes the events of the piece to the listener, up to the end of a value.
    #[inline(always)]
    pub fn scan<L: Listener>(
        &mut self,
        piece: &[u8],
        listener: &mut L,
    ) -> Result<Scanned, ScanError>
        requires { IsSound (place_of self.old) }
        ensures { IsScanned L.Origin (place_of self.old) (place_of self.new)
            (L.has_heard listener.old) (L.has_heard listener.new) (L.has_stopped listener.new)
            piece.now result }
    {
        let mut used = 0;
        loop {
            let turned = self.turn(beyond(piece, used), listener);
            used += turned.used;
            match turned.turn {
                Turn::On => {
                    if self.begins_anew(beyond(piece, used)) {
                        return Ok(Scanned {
                            used,
                            is_whole: true,
                        });
                    }
                    if self.is_cut(beyond(piece, used)) {
                        return Ok(Scanned {
                            used,
                            is_whole: false,
                        });
                    }
                }
                Turn::More => {
                    return Ok(Scanned {
                        used,
                        is_whole: false,
                    });
                }
                Turn::Done => {
                    return Ok(Scanned {
                        used,
                        is_whole: true,
                    });
                }
                Turn::Failed => {
                    return Err(ScanError::Fault(Fault {
                        cause: self.cause,
                        at: self.taken,
                    }));
                }
                Turn::Stopped => {
                    self.stop();
                    return Err(ScanError::Stopped { taken: self.taken });
                }
            }
        }
    }

    /// Returns whether the outermost value has ended and the next value may begin. This is checked
    /// after each event, because another turn of the loop would be slower.
    #[inline(always)]
    #[tactic(auto, using(crate::proofs::Soundness::Places::sound_member))]
    fn begins_anew(&mut self, rest: &[u8]) -> bool
        requires { IsSound (place_of self.old) }
        ensures ended { result ≡ true →
            out_by EventTag.Done 0 self.new ≡ out_from (place_of self.old) rest.now }
        ensures unchanged { result ≡ false → self.new ≡ self.old }
    {
        if !self.frames.is_empty() {
            return false;
        }
        let State::Boundary = self.state else {
            return false;
        };
        self.state = State::Start;
        self.taken = 0;
        true
    }

    /// Returns whether the piece ends inside the content of the outermost value, the most common
    /// place. This is checked after each event, because another turn of the loop would be slower.
    #[inline(always)]
    fn is_cut(&self, rest: &[u8]) -> bool
        ensures cut { result ≡ true →
            out_by EventTag.More 0 self.now ≡ out_from (place_of self.now) rest.now }
    {
        if !self.frames.is_empty() {
            return false;
        }
        let State::Content = self.state else {
            return false;
        };
        rest.is_empty()
    }

    /// Stops reading for good.
    #[cold]
    #[inline(never)]
    fn stop(&mut self)
        ensures { self.new ≡ record self.old { state = State.Failed; cause = Cause.OutOfMemory } }
    {
        self.state = State::Failed;
        self.cause = Cause::OutOfMemory;
    }

    /// Continues from the token in which the rest begins, and passes its event to the listener.
    #[inline(always)]
    fn turn<L: Listener>(&mut self, rest: &[u8], listener: &mut L) -> Turned
        requires { IsSound (place_of self.old) }
        ensures is_turn { IsTurn L.Origin (place_of self.old) (place_of self.new)
            (L.has_heard listener.old) (L.has_heard listener.new) (L.has_stopped listener.new)
            rest.now result }
        ensures failed { result.turn ≡ Turn.Failed →
            (place_of self.new).token ≡ Dead self.new.cause }
    {
        self.advance(rest, listener)
    }
}
