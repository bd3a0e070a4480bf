//! One turn of the machine: it continues inside a token or begins a value, up to the next event,
//! and passes that event to a receiver. A text that is completely in the piece is passed together
//! with its end.

ghost use Rattle.std.specs.Prelude.{◌≡◌, ◌≤◌, ◌<◌, ◌+◌, ◌-◌, ◌^◌, List, length, IfSome, min, take, drop, ℕ};
ghost use Rattle.resp_scan.specs.Machine.Runs.{plain_run, double_run};
ghost use Rattle.resp_scan.specs.Machine.Tokens.{Place, at};
ghost use Rattle.resp_scan.specs.Machine.Turns.{EndsAt, EndsDouble, IsLineTag};

use crate::doubles::double_run;
use crate::event::{Fault, TextKind};
use crate::frame::Shape;
use crate::lines::line_run;
use crate::machine::{Advance, EventTag, Machine, State};
use crate::receiver::Receiver;
use crate::step::{digit_text, run};
use resp_value::double_stage::DoubleStage;

/// Where a turn begins.
#[derive(Clone, Copy)]
enum Stands {
    /// The outermost value has ended.
    Done,
    /// A value has ended that is the last member of its aggregate.
    Close,
    /// A value may begin.
    Member,
    /// Inside a token.
    Inside,
}

impl Machine {
    ghost use Rattle.resp_scan.specs.Listening.{IsTextOf};
    ghost use Rattle.resp_scan.specs.Machine.Fields.{place_of, out_of};
    ghost use Rattle.resp_scan.specs.Machine.Passing.{Passes, StandsAt};
    ghost use Rattle.resp_scan.specs.Machine.Room.{total_room};
    ghost use Rattle.resp_scan.specs.Machine.Scan.{out_from, scan};
    ghost use Rattle.resp_scan.specs.Machine.Sound.{IsSound};
    ghost use Rattle.resp_scan.specs.Machine.Tokens.{AtStart};
    ghost use Rattle.resp_scan.specs.Machine.Turns.{LeavesContent};

    /// Continues from the token in which the rest begins, and passes its event.
    #[inline(always)]
    pub(crate) fn advance<R: Receiver>(&mut self, rest: &[u8], receiver: &mut R) -> R::Answer
        requires { IsSound (place_of self.old) }
        ensures { Passes (R.takes receiver.old receiver.new result)
            (R.takes_text receiver.old receiver.new result) (place_of self.old) self.new rest.now }
    {
        match self.stands() {
            Stands::Member => self.tell_value(rest, receiver),
            Stands::Done => self.tell(rest, owed(EventTag::Done), receiver),
            Stands::Close => self.tell(rest, owed(EventTag::Close), receiver),
            Stands::Inside => {
                let taken = self.resume_content(rest);
                self.tell(rest, taken, receiver)
            }
        }
    }

    /// Returns where the token is. If the end of a value or the close of its aggregate is due, it
    /// is counted as given.
    #[inline(always)]
    #[tactic(auto, using(crate::proofs::Soundness::Places::sound_member))]
    fn stands(&mut self) -> Stands
        requires { IsSound (place_of self.old) }
        ensures { (p : List ℕ) → StandsAt result (place_of self.old) self.new p }
    {
        if let State::Start = self.state {
            return Stands::Member;
        }
        match self.state {
            State::Boundary => match self.frames.as_slice().last() {
                None => {
                    self.state = State::Start;
                    self.taken = 0;
                    Stands::Done
                }
                Some(frame) => match frame.shape {
                    Shape::Left(0) => {
                        let _ = self.frames.pop();
                        Stands::Close
                    }
                    _ => Stands::Member,
                },
            },
            _ => Stands::Inside,
        }
    }

    /// Passes the event of a value's first byte, or a complete text if it ends in this rest.
    #[inline(always)]
    fn tell_value<R: Receiver>(&mut self, rest: &[u8], receiver: &mut R) -> R::Answer
        requires sound { IsSound (at (place_of self.old) AtStart) }
        requires from { (s : Place) × IsSound s ×
            (out_from s rest.now ≡ scan 0 (at (place_of self.old) AtStart) rest.now) }
        ensures { (s : Place) → IsSound s →
            out_from s rest.now ≡ scan 0 (at (place_of self.old) AtStart) rest.now →
            Passes (R.takes receiver.old receiver.new result)
            (R.takes_text receiver.old receiver.new result) s self.new rest.now }
    {
        if let Some(short) = self.short_text(rest) {
            let run = short.count as usize;
            return self.tell_whole(rest, short.head, TextKind::Bulk, run, receiver);
        }
        if let Some(run) = self.short_line(rest) {
            return self.tell_whole(rest, 1, TextKind::Simple, run, receiver);
        }
        if let Some(taken) = self.short_int(rest) {
            return self.tell(rest, taken, receiver);
        }
        let taken = self.start(rest);
        self.tell_begun(rest, taken, receiver)
    }

    /// Passes the event of a first byte that was read, or a complete text if it ends in this rest.
    #[inline(always)]
    fn tell_begun<R: Receiver>(
        &mut self,
        rest: &[u8],
        taken: Advance,
        receiver: &mut R,
    ) -> R::Answer
        requires { (s : Place) × IsSound s × (out_of taken self.old ≡ out_from s rest.now) }
        ensures { (s : Place) → IsSound s → out_of taken self.old ≡ out_from s rest.now →
            Passes (R.takes receiver.old receiver.new result)
            (R.takes_text receiver.old receiver.new result) s self.new rest.now }
    {
        match line_kind(taken.tag) {
            Some(kind) => self.tell_line(rest, taken, kind, receiver),
            None => match taken.tag {
                EventTag::Bulk => self.tell_content(rest, taken, receiver),
                EventTag::Double => self.tell_double(rest, taken, receiver),
                _ => self.tell(rest, taken, receiver),
            },
        }
    }

    /// Continues inside a token. Counted content, the most common case, is handled without a call.
    #[inline(always)]
    fn resume_content(&mut self, rest: &[u8]) -> Advance
        requires { IsSound (place_of self.old) }
        ensures { out_of result self.new ≡ out_from (place_of self.old) rest.now }
    {
        if self.count > 0 {
            if let State::Content = self.state {
                return self.content(rest);
            }
        }
        self.resume(rest)
    }

    /// Passes a line of text: the complete text if it ends in this rest, otherwise its beginning.
    #[inline(always)]
    fn tell_line<R: Receiver>(
        &mut self,
        rest: &[u8],
        taken: Advance,
        kind: TextKind,
        receiver: &mut R,
    ) -> R::Answer
        requires whole { (s : Place) × IsSound s × (out_of taken self.old ≡ out_from s rest.now) }
        requires tag { IsLineTag taken.tag kind }
        ensures { (s : Place) → IsSound s → out_of taken self.old ≡ out_from s rest.now →
            Passes (R.takes receiver.old receiver.new result)
            (R.takes_text receiver.old receiver.new result) s self.new rest.now }
    {
        let after = beyond(rest, taken.used);
        match self.whole_line(after, taken.used) {
            Some(run) => self.tell_whole(rest, taken.used, kind, run, receiver),
            None => self.tell(rest, taken, receiver),
        }
    }

    /// Passes a double: the complete text if it ends in this rest, otherwise its beginning.
    fn tell_double<R: Receiver>(
        &mut self,
        rest: &[u8],
        taken: Advance,
        receiver: &mut R,
    ) -> R::Answer
        requires whole { (s : Place) × IsSound s × (out_of taken self.old ≡ out_from s rest.now) }
        requires tag { taken.tag ≡ EventTag.Double }
        ensures { (s : Place) → IsSound s → out_of taken self.old ≡ out_from s rest.now →
            Passes (R.takes receiver.old receiver.new result)
            (R.takes_text receiver.old receiver.new result) s self.new rest.now }
    {
        let after = beyond(rest, taken.used);
        match self.whole_double(after, taken.used) {
            Some(run) => self.tell_whole(rest, taken.used, TextKind::Double, run, receiver),
            None => self.tell(rest, taken, receiver),
        }
    }

    /// Passes a counted string: the complete text if it ends in this rest, otherwise its beginning.
    #[inline(always)]
    fn tell_content<R: Receiver>(
        &mut self,
        rest: &[u8],
        taken: Advance,
        receiver: &mut R,
    ) -> R::Answer
        requires whole { (s : Place) × IsSound s × (out_of taken self.old ≡ out_from s rest.now) }
        requires tag { taken.tag ≡ EventTag.Bulk }
        ensures { (s : Place) → IsSound s → out_of taken self.old ≡ out_from s rest.now →
            Passes (R.takes receiver.old receiver.new result)
            (R.takes_text receiver.old receiver.new result) s self.new rest.now }
    {
        let after = beyond(rest, taken.used);
        match self.whole_content(after) {
            Some(run) => self.tell_whole(rest, taken.used, TextKind::Bulk, run, receiver),
            None => self.tell(rest, taken, receiver),
        }
    }

    /// Passes a text of `run` bytes that begins after the first `head` bytes and has a CR LF after
    /// it.
    #[inline(always)]
    fn tell_whole<R: Receiver>(
        &mut self,
        rest: &[u8],
        head: usize,
        kind: TextKind,
        run: usize,
        receiver: &mut R,
    ) -> R::Answer
        requires within { head + run + 2 ≤ length rest.now }
        requires few { self.old.taken + head + run + 2 < 2 ^ 64 }
        requires is_text { IsTextOf kind (take run (drop head rest.now)) }
        ensures told { R.takes_text receiver.old receiver.new result (head + run + 2) kind
            (take run (drop head rest.now)) }
        ensures machine { self.new ≡ record self.old
            { taken = self.old.taken + (head + run + 2); state = State.Boundary } }
    {
        let used = head + run + 2;
        self.taken += used as u64;
        self.state = State::Boundary;
        receiver.take_whole_text(used, kind, &rest[head..head + run])
    }

    /// Returns the number of bytes of a line before its CR LF, if the CR LF is in this piece. The
    /// `head` bytes before the line have not been counted yet.
    #[inline(always)]
    fn whole_line(&self, piece: &[u8], head: usize) -> Option<usize>
        requires { head ≤ 2 ^ 63 }
        ensures few { IfSome result (λ run. run ≤ 2 ^ 63) }
        ensures line { IfSome result (λ run. (self.now.state ≡ State.Line) × EndsAt piece.now run ×
            (run ≡ plain_run (take (min (min self.now.room
            (total_room (place_of self.now) - (head + 2))) (length piece.now)) piece.now))) }
    {
        let State::Line = self.state else {
            return None;
        };
        let total = self.total_room().saturating_sub(head as u64 + 2);
        let most = self.room.min(total).min(piece.len() as u64) as usize;
        let run = line_run(&piece[..most]);
        ends_at(piece, run)
    }

    /// Returns the number of bytes of a double before its CR LF, if none of its bytes has been read
    /// and the CR LF is in this piece. The `head` bytes before the double have not been counted
    /// yet.
    #[inline]
    fn whole_double(&self, piece: &[u8], head: usize) -> Option<usize>
        requires { head ≤ 2 ^ 63 }
        ensures few { IfSome result (λ run. run ≤ 2 ^ 63) }
        ensures double { IfSome result (λ run. (self.now.state ≡ State.Double) ×
            (self.now.stage ≡ DoubleStage.Begun) × EndsAt piece.now run ×
            EndsDouble (double_run 0 (total_room (place_of self.now) - head) self.now.room
            DoubleStage.Begun piece.now) run) }
    {
        let (State::Double, DoubleStage::Begun) = (self.state, self.stage) else {
            return None;
        };
        let total = self.total_room().saturating_sub(head as u64);
        let run = double_run(DoubleStage::Begun, self.room, total, piece);
        if run.stage.needs() > 0 {
            return None;
        }
        ends_at(piece, run.count)
    }

    /// Returns the number of bytes of counted content before its CR LF, if the CR LF is in this
    /// piece.
    #[inline(always)]
    fn whole_content(&self, piece: &[u8]) -> Option<usize>
        ensures few { IfSome result (λ run. run ≤ 2 ^ 63) }
        ensures content { IfSome result (λ run. EndsAt piece.now run ×
            LeavesContent self.now.state self.now.count run) }
    {
        let State::Content = self.state else {
            return self.no_content(piece);
        };
        if self.count >= (piece.len() as u64).saturating_sub(1) {
            return None;
        }
        ends_at(piece, self.count as usize)
    }

    /// Like `whole_content`, for an empty string and for a streamed string.
    #[cold]
    #[inline(never)]
    fn no_content(&self, piece: &[u8]) -> Option<usize>
        ensures few { IfSome result (λ run. run ≤ 2 ^ 63) }
        ensures content { IfSome result (λ run. EndsAt piece.now run ×
            LeavesContent self.now.state self.now.count run) }
    {
        match self.state {
            State::ContentCr => ends_at(piece, 0),
            _ => None,
        }
    }

    /// Passes the event for the result of a token.
    #[inline(always)]
    fn tell<R: Receiver>(&mut self, rest: &[u8], taken: Advance, receiver: &mut R) -> R::Answer
        requires { (s : Place) × IsSound s × (out_of taken self.old ≡ out_from s rest.now) }
        ensures { (s : Place) → IsSound s → out_of taken self.old ≡ out_from s rest.now →
            Passes (R.takes receiver.old receiver.new result)
            (R.takes_text receiver.old receiver.new result) s self.new rest.now }
    {
        let used = taken.used;
        self.taken += used as u64;
        match taken.tag {
            EventTag::More => receiver.take_end(used),
            EventTag::Failed => receiver.take_fault(Fault {
                cause: self.cause,
                at: self.taken,
            }),
            EventTag::Done => receiver.take_done(used),
            EventTag::Null => receiver.take_null(used),
            EventTag::Bool => receiver.take_truth(used, self.truth),
            EventTag::Int => receiver.take_int(used, self.value),
            EventTag::Simple => receiver.take_text(used, TextKind::Simple),
            EventTag::Error => receiver.take_text(used, TextKind::Error),
            EventTag::Double => receiver.take_text(used, TextKind::Double),
            EventTag::Bulk => receiver.take_text(used, TextKind::Bulk),
            EventTag::BulkError => receiver.take_text(used, TextKind::BulkError),
            EventTag::Verbatim => receiver.take_text(used, TextKind::Verbatim(self.format)),
            EventTag::Big => {
                let negative = self.big_negative;
                receiver.take_text(used, TextKind::Big { negative })
            }
            EventTag::Part => receiver.take_part(used, &rest[..used]),
            EventTag::ChunkPart => {
                let part = run(rest, self.part_start, used);
                receiver.take_part(used, part)
            }
            EventTag::Digit => receiver.take_part(used, digit_text(self.digit)),
            EventTag::TextEnd => receiver.take_text_end(used),
            EventTag::Open => receiver.take_open(used, self.kind, Some(self.count)),
            EventTag::OpenStreamed => receiver.take_open(used, self.kind, None),
            EventTag::Close => receiver.take_close(used),
        }
    }
}

/// Returns the kind of text of a line that begins.
#[inline(always)]
fn line_kind(tag: EventTag) -> Option<TextKind>
    ensures { IfSome result (λ kind. IsLineTag tag kind) }
{
    match tag {
        EventTag::Simple => Some(TextKind::Simple),
        EventTag::Error => Some(TextKind::Error),
        _ => None,
    }
}

/// Returns an event of bytes that were already read.
#[inline(always)]
fn owed(tag: EventTag) -> Advance
    ensures { result ≡ record { used = 0; tag = tag } }
{
    Advance { used: 0, tag }
}

/// Returns the bytes from this index on.
#[inline]
pub(crate) fn beyond(piece: &[u8], from: usize) -> &[u8]
    requires { from ≤ length piece.now }
    ensures { result.now ≡ drop from piece.now }
{
    &piece[from..]
}

/// Returns this index if CR LF begins at it.
#[inline]
pub(crate) fn ends_at(piece: &[u8], run: usize) -> Option<usize>
    ensures { IfSome result (λ at. (at ≡ run) × EndsAt piece.now run) }
{
    if run >= piece.len().saturating_sub(1) {
        return None;
    }
    if piece[run] != b'\r' || piece[run + 1] != b'\n' {
        return None;
    }
    Some(run)
}
