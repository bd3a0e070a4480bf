//! The first byte of a value.

ghost use Rattle.std.specs.Prelude.{◌≡◌, ◌<◌, ℕ, List, length, drop};
ghost use Rattle.resp_scan.specs.Machine.First.{by_first};
ghost use Rattle.resp_scan.specs.Machine.Moves as m;
ghost use Rattle.resp_scan.specs.Machine.Tokens.{Place};

use crate::machine::{Advance, EventTag, Head, Machine, State};
use crate::needed::first_needed;
use resp_value::cause::Cause;
use resp_value::double_stage::DoubleStage;
use resp_value::version::Version;

impl Machine {
    ghost use Rattle.resp_scan.specs.Machine.First.{after_first, first_move};
    ghost use Rattle.resp_scan.specs.Machine.Heads.{first_needed, HasFrame};
    ghost use Rattle.resp_scan.specs.Machine.Sound.{IsSound};
    ghost use Rattle.resp_scan.specs.Machine.Fields.{place_of, out_of};
    ghost use Rattle.resp_scan.specs.Machine.Scan.{scan};
    ghost use Rattle.resp_scan.specs.Machine.Tokens.{at, Text, AtStart, AtHead};
    ghost use Rattle.resp_scan.specs.declared.event.TextKind.TheVariants as text;

    /// Reads a value's first byte, or the `.` that closes a streamed aggregate. Rejects a double if
    /// doubles are not allowed, and rejects the forms of version 3 in version 2.
    #[inline(always)]
    #[tactic(auto, using(crate::proofs::Soundness::Starts::first_byte))]
    pub(crate) fn start(&mut self, piece: &[u8]) -> Advance
        requires { IsSound (at (place_of self.old) AtStart) }
        ensures { out_of result self.new ≡ scan 0 (at (place_of self.old) AtStart) piece.now }
    {
        if piece.is_empty() {
            return self.rest(State::Start, piece);
        }
        match piece[0] {
            b'+' => self.line_begins(EventTag::Simple),
            b'-' => self.line_begins(EventTag::Error),
            b':' => match self.begin(3) {
                Some(cause) => self.fail(0, cause),
                None => self.int_sign(piece, 1),
            },
            b'$' => match self.begin(4) {
                Some(cause) => self.fail(0, cause),
                None => self.bulk_head(piece, 1),
            },
            b'*' => {
                let needed = if self.is_full() { 4 } else { 3 };
                match self.begin(needed) {
                    Some(cause) => self.fail(0, cause),
                    None => self.array_begins(piece),
                }
            }
            b'.' => self.close(piece),
            b',' => self.double_begins(),
            byte => match first_of(byte) {
                None => self.fail(0, Cause::Syntax),
                Some(first) => match self.version {
                    Version::Two => self.fail(0, Cause::Version),
                    Version::Three => self.start_three(piece, first),
                },
            },
        }
    }

    /// Like `start`, but not inlined. It is used everywhere except for the outermost value in a
    /// step and in the loop, which keeps the code small.
    #[inline(never)]
    pub(crate) fn start_apart(&mut self, piece: &[u8]) -> Advance
        requires { IsSound (at (place_of self.old) AtStart) }
        ensures { out_of result self.new ≡ scan 0 (at (place_of self.old) AtStart) piece.now }
    {
        self.start(piece)
    }

    /// Begins a double, unless doubles are not allowed or the version has no doubles.
    #[inline(never)]
    fn double_begins(&mut self) -> Advance
        requires { IsSound (at (place_of self.old) AtStart) }
        ensures { (p : List ℕ) → out_of result self.new ≡
            after_first (m.double_move (at (place_of self.old) AtStart))
            (at (place_of self.old) AtStart) p }
    {
        if !self.limits.doubles() {
            return self.fail(0, Cause::Double);
        }
        match self.version {
            Version::Two => self.fail(0, Cause::Version),
            Version::Three => self.double_line_begins(),
        }
    }

    /// Begins the line of a double, unless the limit `items` or `total` rejects it.
    #[inline]
    #[tactic(auto, using(crate::proofs::Soundness::Starts::double_lines))]
    fn double_line_begins(&mut self) -> Advance
        requires { IsSound (at (place_of self.old) AtStart) }
        ensures { (p : List ℕ) → out_of result self.new ≡
            after_first (m.double_line_move (at (place_of self.old) AtStart))
            (at (place_of self.old) AtStart) p }
    {
        if let Some(cause) = self.begin(3) {
            return self.fail(0, cause);
        }
        self.state = State::Double;
        self.stage = DoubleStage::Begun;
        self.room = self.limits.length();
        self.gives(1, EventTag::Double)
    }

    /// Begins a simple string or a simple error, unless the limit `items` or `total` rejects it.
    #[inline]
    #[tactic(auto, using(crate::proofs::Soundness::Starts::lines))]
    fn line_begins(&mut self, tag: EventTag) -> Advance
        requires { IsSound (at (place_of self.old) AtStart) }
        ensures simple { (p : List ℕ) → tag ≡ EventTag.Simple →
            out_of result self.new ≡ after_first
            (m.line_move (at (place_of self.old) AtStart) (Text text.Simple))
            (at (place_of self.old) AtStart) p }
        ensures error { (p : List ℕ) → tag ≡ EventTag.Error →
            out_of result self.new ≡ after_first
            (m.line_move (at (place_of self.old) AtStart) (Text text.Error))
            (at (place_of self.old) AtStart) p }
    {
        if let Some(cause) = self.begin(2) {
            return self.fail(0, cause);
        }
        self.state = State::Line;
        self.room = self.limits.length();
        self.gives(1, tag)
    }

    /// Begins a form that only version 3 has.
    #[inline]
    #[tactic(auto, using(crate::proofs::Soundness::Starts::answers))]
    fn start_three(&mut self, piece: &[u8], first: First) -> Advance
        requires within { 0 < length piece.now }
        requires sound { IsSound (at (place_of self.old) AtStart) }
        ensures { out_of result self.new ≡
            after_first (first_move (at (place_of self.old) AtStart) first)
            (at (place_of self.old) AtStart) (drop 1 piece.now) }
    {
        match first {
            First::Null => match self.begin(2) {
                Some(cause) => self.fail(0, cause),
                None => self.null_cr(piece, 1),
            },
            First::Bool => match self.begin(3) {
                Some(cause) => self.fail(0, cause),
                None => self.bool(piece, 1),
            },
            First::Big => match self.begin(3) {
                Some(cause) => self.fail(0, cause),
                None => self.big_sign(piece, 1),
            },
            First::BulkError => self.head_begins(piece, Head::BulkError),
            First::Verbatim => self.head_begins(piece, Head::Verbatim),
            First::Set => self.aggregate_begins(piece, Head::Set),
            First::Map => self.aggregate_begins(piece, Head::Map),
            First::Attr => self.aggregate_begins(piece, Head::Attr),
            First::Push => {
                if !self.frames.is_empty() {
                    return self.fail(0, Cause::NestedPush);
                }
                self.aggregate_begins(piece, Head::Push)
            }
        }
    }

    /// Begins the head of a string or an aggregate that only version 3 has.
    #[inline(never)]
    #[tactic(auto, using(crate::proofs::Soundness::Starts::answers))]
    fn head_begins(&mut self, piece: &[u8], head: Head) -> Advance
        requires some { 0 < length piece.now }
        requires level { HasFrame (place_of self.old) head }
        requires sound { IsSound (at (place_of self.old) AtStart) }
        ensures { out_of result self.new ≡
            after_first
            (m.begin_move (at (place_of self.old) AtStart) (first_needed head) (AtHead head))
            (at (place_of self.old) AtStart) (drop 1 piece.now) }
    {
        match self.begin(first_needed(head)) {
            Some(cause) => self.fail(0, cause),
            None => self.head_first(piece, 1, head),
        }
    }

    /// Begins the head of an aggregate, which opens one more level.
    #[inline]
    fn aggregate_begins(&mut self, piece: &[u8], head: Head) -> Advance
        requires some { 0 < length piece.now }
        requires sound { IsSound (at (place_of self.old) AtStart) }
        ensures { out_of result self.new ≡
            after_first (m.aggregate_move (at (place_of self.old) AtStart) head)
            (at (place_of self.old) AtStart) (drop 1 piece.now) }
    {
        if self.is_full() {
            return self.fail(0, Cause::Depth);
        }
        self.head_begins(piece, head)
    }
}

/// The forms that only version 3 has.
#[derive(Clone, Copy)]
enum First {
    Null,
    Bool,
    Big,
    BulkError,
    Verbatim,
    Set,
    Map,
    Attr,
    Push,
}

/// Returns the form of version 3 that begins with this byte, if there is one.
#[inline]
fn first_of(byte: u8) -> Option<First>
    ensures { (s : Place) → m.start_three s byte ≡ by_first s result }
{
    match byte {
        b'_' => Some(First::Null),
        b'#' => Some(First::Bool),
        b'(' => Some(First::Big),
        b'!' => Some(First::BulkError),
        b'=' => Some(First::Verbatim),
        b'~' => Some(First::Set),
        b'%' => Some(First::Map),
        b'|' => Some(First::Attr),
        b'>' => Some(First::Push),
        _ => None,
    }
}
