//! The state between two bytes, and the operations that all tokens share: room within the limits,
//! members, and ends.

ghost use Rattle.resp_scan.specs.Machine.Sound.{IsOpenShape, need_of_frame};
ghost use Rattle.resp_scan.specs.Machine.Room.{has_all, need_after_begin, begun_count};
ghost use Rattle.resp_scan.specs.declared.frame.Shape.TheVariants.{Begun};
ghost use Rattle.std.specs.Prelude.{◌≡◌, ◌<◌, ◌≤◌, ◌+◌, ◌^◌, length, IfNone, true, false, ◌-◌, ◌∷◌, List, IfSome, min, reverse};

use crate::frame::{Frame, Shape};
use arrayvec::ArrayVec;
use resp_value::cause::Cause;
use resp_value::double_stage::DoubleStage;
use resp_value::kind::OpenKind;
use resp_value::limits::Limits;
use resp_value::version::Version;

/// What the number in a head counts.
#[derive(Clone, Copy)]
pub(crate) enum Head {
    Bulk,
    BulkError,
    Verbatim,
    /// A chunk of a streamed string, and the number of bytes that the limit `length` leaves.
    Chunk { room: u64 },
    Array,
    Set,
    Map,
    Attr,
    Push,
}

/// The tokens. A token decides which bytes may come next.
#[derive(Clone, Copy)]
pub(crate) enum State {
    /// Before a value's first byte, or before the close of a streamed aggregate.
    Start,
    /// After a value or the head of an aggregate. A close or the end is due, or the next member may
    /// begin.
    Boundary,
    Line,
    Double,
    LineLf,
    IntSign,
    IntFirst,
    Int,
    IntLf,
    BigSign,
    BigFirst,
    BigZeros,
    BigZeroLf,
    /// The first digit of a big number is due as a part.
    BigDigit,
    Big,
    /// The end of a text is due.
    TextEnd,
    NullOne,
    NullCr,
    NullLf,
    Bool,
    BoolCr,
    BoolLf,
    BulkHead,
    ArrayHead,
    HeadFirst,
    HeadMore,
    HeadLf,
    FormatFirst,
    FormatSecond,
    FormatThird,
    FormatColon,
    Content,
    ContentCr,
    ContentLf,
    StreamCr,
    StreamLf,
    Chunk,
    ChunkContent,
    ChunkCr,
    ChunkLf,
    OpenCr,
    OpenLf,
    CloseCr,
    CloseLf,
    Failed,
}

/// The event after the bytes that were read. The data of the event is stored in the machine.
#[derive(Clone, Copy)]
pub(crate) enum EventTag {
    /// The piece has ended.
    More,
    Failed,
    Null,
    Bool,
    Int,
    Simple,
    Error,
    Double,
    Bulk,
    BulkError,
    Verbatim,
    Big,
    /// The bytes read are content.
    Part,
    /// The bytes read from `part_start` on are content.
    ChunkPart,
    /// One digit of a big number.
    Digit,
    TextEnd,
    Open,
    OpenStreamed,
    Close,
    Done,
}

/// The number of bytes read, and the event after them.
#[derive(Clone, Copy)]
pub(crate) struct Advance {
    pub used: usize,
    pub tag: EventTag,
}

/// The state between two bytes. The fields from `cause` on have a meaning only in some states.
#[derive(Drop)]
pub(crate) struct Machine {
    pub version: Version,
    pub limits: Limits,
    pub frames: ArrayVec<Frame, 128>,
    pub state: State,
    /// The number of bytes of the outermost value that were read before this piece.
    pub taken: u64,
    /// The least number of bytes that close the open aggregates after the token has ended.
    pub frames_need: u64,
    pub cause: Cause,
    pub head: Head,
    pub kind: OpenKind,
    pub truth: bool,
    pub negative: bool,
    /// The value of an integer's digits so far.
    pub magnitude: u64,
    pub value: i64,
    /// The sign of a big number.
    pub big_negative: bool,
    /// The value of a head's digits so far, or the number of content bytes still to come.
    pub count: u64,
    /// How far a double has been read.
    pub stage: DoubleStage,
    /// The number of bytes that the limit `length` leaves for a line, for a double, for the digits
    /// of a big number or for a streamed string.
    pub room: u64,
    pub digit: u8,
    pub format: [u8; 3],
    pub part_start: usize,
}

impl Machine {
    ghost use Rattle.resp_scan.specs.declared.frame.Frame.{Frame};
    ghost use Rattle.resp_scan.specs.Machine.Fields.{place_of, out_of};
    ghost use Rattle.resp_scan.specs.Machine.Sound.{IsSound};
    ghost use Rattle.resp_scan.specs.Machine.Scan.{More, Bad};
    ghost use Rattle.resp_scan.specs.Machine.Tokens.{at, Dead, AtStart};
    ghost use Rattle.resp_scan.specs.Machine.Room.{total_room, has_total_room, over_total, is_full, with_shape, after_begin, begin_cause};

    /// Ends the piece in this state.
    #[inline]
    pub(crate) fn rest(&mut self, state: State, piece: &[u8]) -> Advance
        ensures { out_of result self.new ≡
            More (length piece.now) (place_of (record self.old { state = state })) }
    {
        self.state = state;
        Advance {
            used: piece.len(),
            tag: EventTag::More,
        }
    }

    /// Returns this event after `used` bytes of the piece.
    #[inline]
    pub(crate) fn gives(&self, used: usize, tag: EventTag) -> Advance
        ensures { result ≡ record { used = used; tag = tag } }
    {
        Advance { used, tag }
    }

    /// Rejects the byte after `used` bytes with this cause. Every later byte is rejected too.
    #[cold]
    #[inline(never)]
    pub(crate) fn fail(&mut self, used: usize, cause: Cause) -> Advance
        ensures { out_of result self.new ≡ Bad used cause (at (place_of self.old) (Dead cause)) }
    {
        self.state = State::Failed;
        self.cause = cause;
        Advance {
            used,
            tag: EventTag::Failed,
        }
    }

    /// Returns the number of bytes that the limit `total` leaves for the value, after the bytes
    /// read before this piece and those that close the open aggregates.
    #[inline]
    pub(crate) fn total_room(&self) -> u64
        ensures few { result ≤ 2 ^ 40 }
        ensures room { result ≡ total_room (place_of self.now) }
        ensures frames_need { 0 < result → self.now.frames_need + result ≤ 2 ^ 40 }
    {
        self.limits
            .total()
            .saturating_sub(self.taken)
            .saturating_sub(self.frames_need)
    }

    /// Returns whether the limit `total` leaves room for `used` bytes of this piece and `needed`
    /// bytes after them.
    #[inline]
    pub(crate) fn has_total_room(&self, used: usize, needed: u64) -> bool
        requires index { used ≤ 2 ^ 63 }
        requires needed { needed < 2 ^ 62 }
        ensures few { result ≡ true → needed ≤ 2 ^ 40 }
        ensures fits { result ≡ has_total_room (place_of self.now) used needed }
        ensures frames_need { result ≡ true → 0 < needed → self.now.frames_need + needed ≤ 2 ^ 40 }
    {
        used as u64 + needed <= self.total_room()
    }

    /// Returns `Total` unless the limit `total` leaves room for `used` bytes of this piece and
    /// `needed` bytes after them.
    #[inline]
    pub(crate) fn over_total(&self, used: usize, needed: u64) -> Option<Cause>
        requires index { used ≤ 2 ^ 63 }
        requires needed { needed < 2 ^ 62 }
        ensures few { IfNone result (needed ≤ 2 ^ 40) }
        ensures over { result ≡ over_total (place_of self.now) used needed }
        ensures frames_need { IfNone result (0 < needed → self.now.frames_need + needed ≤ 2 ^ 40) }
    {
        if self.has_total_room(used, needed) {
            None
        } else {
            Some(Cause::Total)
        }
    }

    /// Returns the number of bytes that the limits `length` and `total` leave for a text whose line
    /// end has not arrived.
    #[inline]
    pub(crate) fn text_room(&self) -> u64
        ensures { result ≡ min self.now.room (total_room (place_of self.now) - 2) }
    {
        self.room.min(self.total_room().saturating_sub(2))
    }

    /// Returns whether the limit `depth` allows no further aggregate to open.
    #[inline]
    pub(crate) fn is_full(&self) -> bool
        ensures full { result ≡ is_full (place_of self.now) }
        ensures room { result ≡ false → length self.now.frames.items < 128 }
    {
        self.frames.len() as u64 >= self.limits.depth()
    }

    /// Begins a member with the first byte of this piece. The member needs `needed` bytes after
    /// that byte. Returns the cause if the limit `items` or `total` rejects it.
    #[inline]
    pub(crate) fn begin(&mut self, needed: u64) -> Option<Cause>
        requires needed { needed < 2 ^ 10 }
        requires sound { IsSound (at (place_of self.old) AtStart) }
        ensures cause { result ≡ begin_cause (at (place_of self.old) AtStart) needed }
        ensures begun { IfNone result (at (place_of self.new) AtStart ≡
            after_begin (at (place_of self.old) AtStart)) }
        ensures refused { IfSome result (λ cause. self.new ≡ self.old) }
    {
        match self.frames.as_slice().last() {
            None => self.over_total(1, needed),
            Some(frame) => {
                let frame = *frame;
                self.begin_in(frame, needed)
            }
        }
    }

    /// Begins a member of this aggregate, the innermost. Returns the cause if the limit `items` or
    /// `total` rejects it.
    #[inline]
    fn begin_in(&mut self, frame: Frame, needed: u64) -> Option<Cause>
        requires needed { needed < 2 ^ 10 }
        requires more { IsOpenShape frame.shape }
        requires frames_need { need_of_frame frame.kind frame.shape ≤ self.old.frames_need }
        requires few { self.old.frames_need < 2 ^ 62 }
        requires counted { begun_count frame.shape < 2 ^ 62 }
        ensures cause { (fs : List Frame) → (place_of self.old).frames ≡ frame ∷ fs →
            result ≡ begin_cause (at (place_of self.old) AtStart) needed }
        ensures begun { (fs : List Frame) → (place_of self.old).frames ≡ frame ∷ fs →
            IfNone result (at (place_of self.new) AtStart ≡
            after_begin (at (place_of self.old) AtStart)) }
        ensures refused { IfSome result (λ cause. self.new ≡ self.old) }
    {
        match frame.shape {
            Shape::Left(left) => {
                self.begin_as(Shape::Left(left - 1), self.frames_need - 3, needed)
            }
            Shape::Begun(begun) => {
                if has_all(frame.kind, begun, self.limits.items()) {
                    return Some(Cause::Items);
                }
                let frames_need = need_after_begin(frame.kind, begun, self.frames_need);
                self.begin_as(Shape::Begun(begun + 1), frames_need, needed)
            }
        }
    }

    /// Sets the shape of the innermost aggregate, and `frames_need` as the bytes that the open
    /// aggregates need. Returns the cause if the limit `total` rejects that.
    #[inline(always)]
    fn begin_as(&mut self, shape: Shape, frames_need: u64, needed: u64) -> Option<Cause>
        requires needed { needed < 2 ^ 10 }
        ensures cause { result ≡
            over_total (record (place_of self.old) { frames_need = frames_need }) 1 needed }
        ensures items { IfNone result (reverse self.new.frames.items ≡
            with_shape shape (reverse self.old.frames.items)) }
        ensures rest { IfNone result (self.new ≡
            record self.old { frames_need = frames_need; frames = self.new.frames }) }
        ensures refused { IfSome result (λ cause. self.new ≡ self.old) }
    {
        let room = self.limits.total().saturating_sub(self.taken);
        if needed >= room.saturating_sub(frames_need) {
            return Some(Cause::Total);
        }
        self.frames_need = frames_need;
        self.set_shape(shape);
        None
    }

    /// Sets the shape of the innermost open aggregate.
    #[inline]
    pub(crate) fn set_shape(&mut self, shape: Shape)
        ensures items { reverse self.new.frames.items ≡
            with_shape shape (reverse self.old.frames.items) }
        ensures rest { self.new ≡ record self.old { frames = self.new.frames } }
    {
        if !self.frames.is_empty() {
            let last = self.frames.len() - 1;
            self.frames.as_mut_slice()[last].shape = shape;
        }
    }

    /// Goes to the state after a value or the head of an aggregate, with this event.
    #[inline]
    pub(crate) fn at_boundary(&mut self, used: usize, tag: EventTag) -> Advance
        ensures gives { result ≡ record { used = used; tag = tag } }
        ensures state { self.new ≡ record self.old { state = State.Boundary } }
    {
        self.state = State::Boundary;
        Advance { used, tag }
    }
}

/// Returns whether a streamed aggregate with `begun` members has as many items as the limit allows.
#[inline]
fn has_all(kind: OpenKind, begun: u64, items: u64) -> bool
    ensures { result ≡ has_all kind (Begun begun) items }
{
    match kind {
        OpenKind::Map => begun % 2 == 0 && begun / 2 >= items,
        _ => begun >= items,
    }
}

/// Returns the number of bytes that the open aggregates need after one more member of a streamed
/// aggregate has begun. The key of a map needs a value after it.
#[inline]
fn need_after_begin(kind: OpenKind, begun: u64, frames_need: u64) -> u64
    requires frames_need { need_of_frame kind (Begun begun) ≤ frames_need }
    requires few { frames_need < 2 ^ 62 }
    ensures { result ≡ need_after_begin kind (Begun begun) frames_need }
{
    match kind {
        OpenKind::Map => {
            if begun % 2 == 0 {
                frames_need + 3
            } else {
                frames_need - 3
            }
        }
        _ => frames_need,
    }
}
