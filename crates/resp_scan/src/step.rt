//! A step: the token in which the piece begins, and its event.

ghost use Rattle.std.specs.Prelude.{◌≡◌, ◌≤◌, ◌∷◌, ℕ, List, [], length, take, drop, true};
ghost use Rattle.resp_scan.specs.Machine.Moves.{is_digit};

use crate::event::{Event, Fault, Step, TextKind};
use crate::frame::Shape;
use crate::machine::{Advance, EventTag, Machine, State};
use resp_value::cause::Cause;

/// The ten digits. The first digit of a big number is borrowed from here, because its piece may no
/// longer exist.
static DIGITS: [u8; 10] = *b"0123456789";

impl Machine {
    ghost use Rattle.resp_scan.specs.Machine.Passing.{StepAnswers};
    ghost use Rattle.resp_scan.specs.Machine.Fields.{place_of, out_of};
    ghost use Rattle.resp_scan.specs.Machine.Scan.{out_from};
    ghost use Rattle.resp_scan.specs.Machine.Sound.{IsSound};
    ghost use Rattle.resp_scan.specs.Machine.Tokens.{Place};

    /// Continues after a value: its end or the close of its aggregate is due, or the next member
    /// may begin.
    #[inline]
    #[tactic(auto, using(crate::proofs::Soundness::Places::sound_member))]
    pub(crate) fn after_value(&mut self, piece: &[u8]) -> Advance
        requires state { self.old.state ≡ State.Boundary }
        requires sound { IsSound (place_of self.old) }
        ensures { out_of result self.new ≡ out_from (place_of self.old) piece.now }
    {
        match self.frames.as_slice().last() {
            None => {
                self.state = State::Start;
                self.taken = 0;
                self.gives(0, EventTag::Done)
            }
            Some(frame) => match frame.shape {
                Shape::Left(0) => {
                    let _ = self.frames.pop();
                    self.at_boundary(0, EventTag::Close)
                }
                _ => self.start_apart(piece),
            },
        }
    }

    /// Continues from the token in which the piece begins.
    #[inline(never)]
    #[tactic(auto, using(crate::proofs::Soundness::Places::tokens_fit))]
    pub(crate) fn resume(&mut self, piece: &[u8]) -> Advance
        requires { IsSound (place_of self.old) }
        ensures { out_of result self.new ≡ out_from (place_of self.old) piece.now }
    {
        match self.state {
            State::Start => self.start_apart(piece),
            State::Boundary => self.after_value(piece),
            State::Line => self.line(piece),
            State::Double => self.double(piece),
            State::LineLf => self.line_lf(piece, 0),
            State::IntSign => self.int_sign(piece, 0),
            State::IntFirst => self.int_signed(piece, 0, self.negative),
            State::Int => self.int_by_digits(piece, 0, self.negative, self.magnitude),
            State::IntLf => self.int_lf(piece, 0, self.negative, self.magnitude),
            State::BigSign => self.big_sign(piece, 0),
            State::BigFirst => self.big_first(piece, 0, self.big_negative),
            State::BigZeros => self.big_zeros(piece, 0, self.big_negative),
            State::BigZeroLf => self.big_zero_lf(piece, 0),
            State::BigDigit => self.first_digit(),
            State::Big => self.big(piece),
            State::TextEnd => self.at_boundary(0, EventTag::TextEnd),
            State::NullOne => self.null_one(piece, 0),
            State::NullCr => self.null_cr(piece, 0),
            State::NullLf => self.null_lf(piece, 0),
            State::Bool => self.bool(piece, 0),
            State::BoolCr => self.bool_cr(piece, 0, self.truth),
            State::BoolLf => self.bool_lf(piece, 0, self.truth),
            State::BulkHead => self.bulk_head(piece, 0),
            State::ArrayHead => self.array_head(piece, 0),
            State::HeadFirst => self.head_first(piece, 0, self.head),
            State::HeadMore => self.head_more(piece, 0, self.head, self.count),
            State::HeadLf => self.head_lf(piece, 0, self.head, self.count),
            State::FormatFirst => self.format_first(piece, 0, self.count),
            State::FormatSecond => self.format_second(piece, 0, self.format[0]),
            State::FormatThird => self.format_third(piece, 0, self.format[0], self.format[1]),
            State::FormatColon => self.format_colon(piece, 0, self.format),
            State::Content => self.content(piece),
            State::ContentCr => self.content_cr(piece),
            State::ContentLf => self.content_lf(piece, 0),
            State::StreamCr => self.stream_cr(piece, 0),
            State::StreamLf => self.stream_lf(piece, 0),
            State::Chunk => self.chunk(piece, 0),
            State::ChunkContent => self.chunk_content(piece, 0),
            State::ChunkCr => self.chunk_cr(piece),
            State::ChunkLf => self.chunk_lf(piece, 0),
            State::OpenCr => self.open_cr(piece, 0, self.kind),
            State::OpenLf => self.open_lf(piece, 0, self.kind),
            State::CloseCr => self.close_cr(piece, 0),
            State::CloseLf => self.close_lf(piece, 0),
            State::Failed => self.fail(0, self.cause),
        }
    }

    /// Gives the first digit of a big number.
    #[inline]
    fn first_digit(&mut self) -> Advance
        requires { self.old.state ≡ State.BigDigit }
        ensures { (piece : List ℕ) → out_of result self.new ≡ out_from (place_of self.old) piece }
    {
        self.state = State::Big;
        self.gives(0, EventTag::Digit)
    }

    /// Returns the result of a step whose token gave this.
    #[inline(always)]
    fn answer<'a>(&mut self, piece: &'a [u8], got: Advance) -> Result<Step<'a>, Fault>
        requires { (s : Place) × IsSound s × (out_of got self.old ≡ out_from s piece.now) }
        ensures { (s : Place) → IsSound s → out_of got self.old ≡ out_from s piece.now →
            StepAnswers s self.new piece.now result }
    {
        let used = got.used;
        self.taken += used as u64;
        let event = match got.tag {
            EventTag::More => None,
            EventTag::Failed => {
                return Err(Fault {
                    cause: self.cause,
                    at: self.taken,
                });
            }
            EventTag::Null => Some(Event::Null),
            EventTag::Bool => Some(Event::Bool(self.truth)),
            EventTag::Int => Some(Event::Int(self.value)),
            EventTag::Simple => Some(Event::Text(TextKind::Simple)),
            EventTag::Error => Some(Event::Text(TextKind::Error)),
            EventTag::Double => Some(Event::Text(TextKind::Double)),
            EventTag::Bulk => Some(Event::Text(TextKind::Bulk)),
            EventTag::BulkError => Some(Event::Text(TextKind::BulkError)),
            EventTag::Verbatim => Some(Event::Text(TextKind::Verbatim(self.format))),
            EventTag::Big => Some(Event::Text(TextKind::Big {
                negative: self.big_negative,
            })),
            EventTag::Part => Some(Event::Part(&piece[..used])),
            EventTag::ChunkPart => Some(Event::Part(run(piece, self.part_start, used))),
            EventTag::Digit => Some(Event::Part(digit_text(self.digit))),
            EventTag::TextEnd => Some(Event::TextEnd),
            EventTag::Open => Some(Event::Open(self.kind, Some(self.count))),
            EventTag::OpenStreamed => Some(Event::Open(self.kind, None)),
            EventTag::Close => Some(Event::Close),
            EventTag::Done => Some(Event::Done),
        };
        Ok(Step { used, event })
    }

    /// Reads bytes of the piece up to an event or the end of the piece. A rejected byte is final.
    #[inline(always)]
    pub(crate) fn step<'a>(&mut self, piece: &'a [u8]) -> Result<Step<'a>, Fault>
        requires { IsSound (place_of self.old) }
        ensures { StepAnswers (place_of self.old) self.new piece.now result }
    {
        match self.state {
            State::Start => {
                let got = self.start(piece);
                self.answer(piece, got)
            }
            State::Boundary => {
                let got = self.after_value(piece);
                self.answer(piece, got)
            }
            State::Line => {
                let got = self.line(piece);
                self.answer(piece, got)
            }
            State::Content => {
                let got = self.content(piece);
                self.answer(piece, got)
            }
            State::ContentCr => {
                let got = self.content_cr(piece);
                self.answer(piece, got)
            }
            _ => {
                let got = self.resume(piece);
                self.answer(piece, got)
            }
        }
    }
}

/// Returns the bytes from the first index to the second.
#[inline]
pub(crate) fn run(piece: &[u8], start: usize, used: usize) -> &[u8]
    requires start { start ≤ used }
    requires within { used ≤ length piece.now }
    ensures { result.now ≡ drop start (take used piece.now) }
{
    &piece[start..used]
}

/// Returns a constant of one byte, this digit.
pub(crate) fn digit_text(byte: u8) -> &'static [u8]
    requires { is_digit byte ≡ true }
    ensures { result.now ≡ byte ∷ [] }
{
    let at = (byte - b'0') as usize;
    &DIGITS[at..at + 1]
}
