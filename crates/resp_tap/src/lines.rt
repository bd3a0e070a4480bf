//! Commands that a client sends as lines.

ghost use Rattle.std.specs.Prelude.{◌≡◌, ◌≢◌, ◌⊎◌, ◌<◌, ◌≤◌, ◌++◌, [], true, length, IfErr, IfOk, OnOk};
ghost use Rattle.std.specs.Bool.{MatchBool};
ghost use Rattle.resp_tap.specs.Lined.{BeginsLine, EndsSo, IsInLine, IsNoLine, IsTextOf, SeesLined, TellsLine, WhyRejected};
ghost use Rattle.resp_tap.specs.Taps.{tap_state};
ghost use Rattle.resp_tap.specs.Watches.{KeepsOther};
ghost use Rattle.resp_tap.specs.Watching.{HasTakenRequest, KeepsValue};

use crate::moment::Moment;
use crate::seen::{Seen, Step};
use crate::tap::Tap;
use crate::watch::{Side, step};
use bytes::BytesMut;
use memchr::memchr;
use resp_encode::{EncodeError, encode_words};
use resp_line::{LineError, words_of};
use resp_value::cause::{Cause, Limit};
use resp_value::laws::no_spelling_begins_another;
use resp_value::limits::Limits;
use std::alloc::{AllocError, Global};

/// The maximum number of bytes of a line before its LF.
const LONGEST: usize = 65_536;

/// The lines among the bytes of a client. A line that has not ended is held.
#[derive(Drop)]
pub(crate) struct Lines {
    pub(crate) alloc: Global,
    /// Whether a line is a command.
    pub(crate) are_read: bool,
    /// The bytes of a line that has not ended.
    pub(crate) held: Vec<u8>,
}

/// A step, and whether it read a line.
#[derive(Drop)]
pub(crate) struct Lined {
    pub(crate) step: Step,
    pub(crate) is_line: bool,
}

/// Why a line is rejected: the cause, and the byte of the line.
#[derive(Clone, Copy)]
pub(crate) struct Rejected {
    pub(crate) cause: Cause,
    pub(crate) at: u64,
}

/// Returns whether these bytes begin no array.
fn begins_line(piece: &[u8]) -> bool
    ensures { MatchBool result (BeginsLine piece.now) (BeginsLine piece.now → ⊥) }
{
    piece.first().is_some_and(|byte| *byte != b'*')
}

impl Lines {
    /// Returns the lines of a new connection. `are_read` says whether lines are commands. It
    /// allocates nothing.
    pub(crate) fn new(alloc: Global, are_read: bool) -> Lines
        ensures are_read { result.are_read ≡ are_read }
        ensures nothing_held { result.held.items ≡ [] }
    {
        Lines {
            alloc,
            are_read,
            held: Vec::new(alloc),
        }
    }

    /// Returns whether the next bytes of the client belong to a line. A line begins where a command
    /// may begin, with any byte but `*`.
    fn have(&self, tap: &Tap, piece: &[u8]) -> bool
        ensures { MatchBool result (IsInLine self.now tap.now piece.now)
            (IsNoLine self.now tap.now piece.now) }
    {
        if !self.are_read || !tap.reads_commands() {
            return false;
        }
        if !self.held.is_empty() {
            return true;
        }
        tap.is_between() && begins_line(piece)
    }

    /// Holds more bytes of a line.
    fn hold(&mut self, bytes: &[u8]) -> Result<(), Rejected>
        ensures held { OnOk result (self.new.held.items ≡ self.old.held.items ++ bytes.now) }
        ensures short { OnOk result (length self.new.held.items ≤ 65536) }
        ensures refused { IfErr result (λ rejected. (rejected.cause ≡ Cause.OutOfMemory) ⊎
            ((rejected.cause ≡ Cause.Length) ×
            (65536 < length (self.old.held.items ++ bytes.now)))) }
    {
        if self.held.len().saturating_add(bytes.len()) > LONGEST {
            return Err(Rejected {
                cause: Cause::Length,
                at: LONGEST as u64,
            });
        }
        match self.held.extend_from_slice(bytes) {
            Ok(()) => Ok(()),
            Err(AllocError) => Err(Rejected {
                cause: Cause::OutOfMemory,
                at: 0,
            }),
        }
    }

    /// Reads bytes that one side sent, until there is a result or the piece ends, as
    /// [`step`](crate::watch::step) does. A line of the client is a command too, if lines are read.
    pub(crate) fn step(
        &mut self,
        tap: &mut Tap,
        side: Side,
        piece: &[u8],
        now: Option<Moment>,
    ) -> Lined
        ensures sees { SeesLined now side self.old self.new tap.old tap.new piece.now
            result.step.used result.step.seen result.is_line }
        ensures other_side { KeepsOther side tap.old tap.new }
        ensures within_piece { result.step.used ≤ length piece.now }
        ensures uses_bytes { 0 < length piece.now → 0 < result.step.used }
    {
        let is_line = side == Side::Client && self.have(tap, piece);
        let step = if is_line {
            self.read(tap, piece, now)
        } else {
            step(tap, side, piece, now)
        };
        Lined { step, is_line }
    }

    /// Reads bytes of a line, up to the end of the line or of the piece.
    fn read(&mut self, tap: &mut Tap, piece: &[u8], now: Option<Moment>) -> Step
        ensures told { HasTakenRequest tap.old [] → (tap_state tap.old).reads_commands ≡ true →
            TellsLine now self.old self.new tap.old tap.new piece.now result.used result.seen }
        ensures same_value { KeepsValue tap.old tap.new }
        ensures within_piece { result.used ≤ length piece.now }
        ensures uses_bytes { 0 < length piece.now → 0 < result.used }
    {
        let Some(end) = memchr(b'\n', piece) else {
            return match self.hold(piece) {
                Ok(()) => Step::nothing(piece),
                Err(rejected) => tap.refuse_command(rejected.cause, rejected.at, piece),
            };
        };
        match self.hold(&piece[..end]) {
            Ok(()) => self.end(tap, piece, end + 1, now),
            Err(rejected) => tap.refuse_command(rejected.cause, rejected.at, piece),
        }
    }

    /// Reads the words of the line that is held, which ends after this many bytes of the piece.
    fn end(&mut self, tap: &mut Tap, piece: &[u8], used: usize, now: Option<Moment>) -> Step
        ensures told { HasTakenRequest tap.old [] → (tap_state tap.old).reads_commands ≡ true →
            EndsSo now self.old.held.items tap.old tap.new result.seen }
        ensures nothing_held { self.new.held.items ≡ [] }
        ensures same_value { KeepsValue tap.old tap.new }
        ensures used { result.used ≡ used }
    {
        no_spelling_begins_another();
        let text = text_of(self.alloc, &tap.limits, self.held.as_slice());
        self.held = Vec::new(self.alloc);
        match text {
            Ok(None) => Step {
                used,
                seen: Seen::Passed,
            },
            Ok(Some(text)) => Step {
                used,
                seen: tap.from_client(text.as_slice(), now).seen,
            },
            Err(rejected) => Step {
                used,
                seen: tap.refuse_command(rejected.cause, rejected.at, piece).seen,
            },
        }
    }
}

/// Returns the array of the words of a line, if it has words.
fn text_of(alloc: Global, limits: &Limits, line: &[u8]) -> Result<Option<BytesMut>, Rejected>
    ensures text { IfOk result (IsTextOf limits.now line.now) }
    ensures rejected { IfErr result (λ rejected. WhyRejected limits.now line.now rejected.cause) }
{
    let words = match words_of(alloc, line) {
        Ok(words) => words,
        Err(error) => return Err(rejected_by(error)),
    };
    if words.is_empty() {
        return Ok(None);
    }
    let mut text = BytesMut::new(alloc);
    match encode_words(limits, words.as_slice(), &mut text) {
        Ok(()) => Ok(Some(text)),
        Err(error) => Err(Rejected {
            cause: cause_of(error),
            at: 0,
        }),
    }
}

/// Returns why a line has no words.
fn rejected_by(error: LineError) -> Rejected
    ensures { (result.cause ≡ Cause.OutOfMemory) ⊎
        ((result.cause ≡ Cause.Syntax) × (error ≢ LineError.Memory)) }
{
    match error {
        LineError::Open { at } | LineError::NoSpace { at } => Rejected {
            cause: Cause::Syntax,
            at: at as u64,
        },
        LineError::Memory => Rejected {
            cause: Cause::OutOfMemory,
            at: 0,
        },
    }
}

/// Returns why the words of a line are not a command.
fn cause_of(error: EncodeError) -> Cause
    ensures { (result ≡ Cause.OutOfMemory) ⊎ (error ≢ EncodeError.OutOfMemory) }
{
    match error {
        EncodeError::OverLimits(Limit::Depth) => Cause::Depth,
        EncodeError::OverLimits(Limit::Length) => Cause::Length,
        EncodeError::OverLimits(Limit::Items) => Cause::Items,
        EncodeError::OverLimits(Limit::Total) => Cause::Total,
        _ => Cause::OutOfMemory,
    }
}
