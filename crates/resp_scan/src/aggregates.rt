//! Aggregates: they open after their heads, and streamed aggregates close with a line of their own.

ghost use Rattle.std.specs.Prelude.{◌≡◌, ◌≤◌, ◌<◌, ◌+◌, ◌*◌, ◌^◌, ◌++◌, ◌∷◌, [], length, Some, slice_index};

use crate::frame::{Frame, Shape};
use crate::machine::{Advance, EventTag, Machine, State};
use resp_value::cause::Cause;
use resp_value::kind::OpenKind;

impl Machine {
    ghost use Rattle.resp_scan.specs.Machine.Fields.{place_of, out_of, Reads};
    ghost use Rattle.resp_scan.specs.Machine.Scan.{scan, Gave};
    ghost use Rattle.resp_scan.specs.Machine.Heads.{after_open};
    ghost use Rattle.resp_scan.specs.Machine.Sound.{IsSound};
    ghost use Rattle.resp_scan.specs.Machine.Moves.{may_close};
    ghost use Rattle.resp_scan.specs.Machine.Tokens.{at, Open, AtOpenCr, AtOpenLf, AtStart, AtCloseCr, AtCloseLf};

    /// Opens an aggregate with `number` in its head and `members` members.
    #[inline]
    pub(crate) fn open(&mut self, used: usize, kind: OpenKind, number: u64, members: u64) -> Advance
        requires level { length self.old.frames.items < 128 }
        requires frames_need { self.old.frames_need + members * 3 < 2 ^ 64 }
        ensures { out_of result self.new ≡
            Gave used (Open kind (Some number)) (after_open (place_of self.old) kind members) }
    {
        self.frames_need += members * 3;
        self.push(Frame {
            kind,
            shape: Shape::Left(members),
        });
        self.kind = kind;
        self.count = number;
        self.at_boundary(used, EventTag::Open)
    }

    /// Stores the frame of one more open aggregate, the innermost. There is room for it.
    #[inline]
    fn push(&mut self, frame: Frame)
        requires { length self.old.frames.items < 128 }
        ensures items { self.new.frames.items ≡ self.old.frames.items ++ frame ∷ [] }
        ensures rest { self.new ≡ record self.old { frames = self.new.frames } }
    {
        self.frames.push(frame);
    }

    /// Reads the CR after the `?` of a streamed aggregate.
    #[inline]
    pub(crate) fn open_cr(&mut self, piece: &[u8], i: usize, kind: OpenKind) -> Advance
        requires within { i ≤ length piece.now }
        requires level { length self.old.frames.items < 128 }
        requires frames_need { self.old.frames_need < 2 ^ 62 }
        ensures { Reads self.old self.new (AtOpenCr kind) piece.now i result }
    {
        if i == piece.len() {
            self.kind = kind;
            return self.rest(State::OpenCr, piece);
        }
        if piece[i] != b'\r' {
            return self.fail(i, Cause::Syntax);
        }
        self.open_lf(piece, i + 1, kind)
    }

    /// Reads the LF of the head of a streamed aggregate. Then the aggregate is open.
    #[inline]
    pub(crate) fn open_lf(&mut self, piece: &[u8], i: usize, kind: OpenKind) -> Advance
        requires within { i ≤ length piece.now }
        requires level { length self.old.frames.items < 128 }
        requires frames_need { self.old.frames_need < 2 ^ 62 }
        ensures { Reads self.old self.new (AtOpenLf kind) piece.now i result }
    {
        self.kind = kind;
        if i == piece.len() {
            return self.rest(State::OpenLf, piece);
        }
        if piece[i] != b'\n' {
            return self.fail(i, Cause::Syntax);
        }
        self.frames_need += 3;
        self.push(Frame {
            kind,
            shape: Shape::Begun(0),
        });
        self.at_boundary(i + 1, EventTag::OpenStreamed)
    }

    /// Returns whether the innermost open aggregate may close here. It has to be streamed, and a
    /// map closes only between whole pairs.
    #[inline]
    fn may_close(&self) -> bool
        ensures { result ≡ may_close (place_of self.now).frames }
    {
        match self.frames.as_slice().last() {
            None => false,
            Some(frame) => match frame.shape {
                Shape::Left(_) => false,
                Shape::Begun(begun) => match frame.kind {
                    OpenKind::Map => begun % 2 == 0,
                    _ => true,
                },
            },
        }
    }

    /// Reads the `.` that closes a streamed aggregate.
    #[inline]
    #[tactic(auto, using(crate::proofs::Soundness::Places::close_owed))]
    pub(crate) fn close(&mut self, piece: &[u8]) -> Advance
        requires some { 0 < length piece.now }
        requires sound { IsSound (at (place_of self.old) AtStart) }
        ensures { slice_index piece.now 0 ≡ 46 →
            out_of result self.new ≡ scan 0 (at (place_of self.old) AtStart) piece.now }
    {
        if !self.may_close() {
            return self.fail(0, Cause::Syntax);
        }
        self.frames_need -= 3;
        self.set_shape(Shape::Left(0));
        self.close_cr(piece, 1)
    }

    /// Reads the CR after the `.` that closes a streamed aggregate.
    #[inline]
    pub(crate) fn close_cr(&mut self, piece: &[u8], i: usize) -> Advance
        requires { i ≤ length piece.now }
        ensures { Reads self.old self.new AtCloseCr piece.now i result }
    {
        if i == piece.len() {
            return self.rest(State::CloseCr, piece);
        }
        if piece[i] != b'\r' {
            return self.fail(i, Cause::Syntax);
        }
        self.close_lf(piece, i + 1)
    }

    /// Reads the LF after the `.` of a streamed aggregate. Then the innermost aggregate has ended.
    #[inline]
    pub(crate) fn close_lf(&mut self, piece: &[u8], i: usize) -> Advance
        requires { i ≤ length piece.now }
        ensures { Reads self.old self.new AtCloseLf piece.now i result }
    {
        if i == piece.len() {
            return self.rest(State::CloseLf, piece);
        }
        if piece[i] != b'\n' {
            return self.fail(i, Cause::Syntax);
        }
        let _ = self.frames.pop();
        self.at_boundary(i + 1, EventTag::Close)
    }
}
