//! Explains an error in a stream: the lines of `--explain`.

ghost use Rattle.std.specs.Prelude.{◌≡◌, ◌≢◌, ◌++◌, ℕ, [], List, IfErr, IfOk, OnErr, OnOk, length, option_map, replicate};
ghost use Rattle.resp_cli_stream.specs.Explained.{Explains, ExplainsAt, HasWatched, IsHintOf, IsNextOf, IsRefusedBy, cause_text, double_text, held_bytes, margin_text, place_lines, rules_watched, sentence_of, sentence_text, system_reason_line};
ghost use Rattle.resp_cli_stream.specs.Hints.{hint_line};
ghost use Rattle.resp_print.specs.Written.{WritesText};
ghost use Rattle.resp_cli_stream.specs.Streams.{failed_to_write};
ghost use Rattle.resp_io.specs.Devices.{Appends, count_after, failures_after};
ghost use Rattle.resp_value.specs.Rules.{rules_under};

use crate::hint::{Hint, hint_of, write_hint, write_version};
use crate::valid::NextBytes;
use crate::watched::PlacedSource;
use resp_cli_args::options::Options;
use resp_cli_args::tool_error::{MOST_VALUES, ToolError};
use resp_io::device::{DeviceFault, MemorySink, Sink};
use resp_print::text::{write_number, write_quoted, write_text};
use resp_value::cause::Cause;
use resp_value::limits::Limits;
use resp_value::version::Version;
use std::alloc::{AllocError, Global};

/// A margin has fewer bytes than this.
const MOST_IN_MARGIN: usize = 256;

// The sentences about limits, before and after the number.
const DEEPER: &[u8] = b"aggregates are nested deeper than --depth ";

const LONGER: &[u8] = b"a string or line is longer than --length ";

const MORE_ITEMS: &[u8] = b"an aggregate has more members or pairs than --items ";

const MORE_BYTES: &[u8] = b"the value needs more bytes than --total ";

const ALLOWED: &[u8] = b" allows";

/// What is known about an error at a place.
#[derive(Drop)]
struct ErrorFacts<'a> {
    error: &'a ToolError,
    version: Version,
    limits: &'a Limits,
    /// The least number of bytes that complete the value.
    missing: u64,
    /// The bytes from the place on.
    after: &'a [u8],
    /// The bytes that are valid at the place, if they are known.
    next: Option<NextBytes>,
    /// A hint at the reason, if there is one.
    hint: Option<Hint>,
}

/// Writes two lines that explain `error`: the place in the stream of `watched` with the bytes
/// around it, and below the place a caret and a sentence. If the grammar does not allow the byte at
/// the place, the sentence names the bytes that are valid there, and a third line may have a hint
/// at the reason. They are missing if the value begins before the bytes that `watched` keeps. If a
/// device or an allocation failed, the call writes nothing.
///
/// # Errors
///
/// [`ToolError::Write`] if a write fails; the first part of the lines was written.
/// [`ToolError::Memory`] if an allocation fails; nothing was written.
pub fn explain<R, F: Sink>(
    alloc: Global,
    error: &ToolError,
    options: &Options<'_>,
    watched: &mut PlacedSource<R>,
    faults: &mut F,
) -> Result<(), ToolError>
    ensures explains { (bytes : List ℕ) → HasWatched watched.old bytes →
        OnOk result (Explains (rules_watched watched.old)
        (rules_under options.now.version options.now.limits) (held_bytes watched.old) bytes
        (F.written faults.old) (F.written faults.new) error.now) }
    ensures write_failed { F.failures faults.new ≡
        failures_after (failed_to_write result) (F.failures faults.old) }
    ensures memory { IfErr result (λ error. error ≢ ToolError.Write → (error ≡ ToolError.Memory) ×
        Appends (F.written faults.old) (F.written faults.new) []) }
{
    match error {
        ToolError::Refused { value, cause, at } => {
            settle_at_end(*cause, watched);
            explain_at(alloc, error, *value, *at, options, watched, faults)
        }
        ToolError::OverLimits { value } => {
            explain_at(alloc, error, *value, 0, options, watched, faults)
        }
        ToolError::TooManyValues => {
            explain_at(alloc, error, MOST_VALUES + 1, 0, options, watched, faults)
        }
        ToolError::Read | ToolError::Write | ToolError::TooManyTurns | ToolError::Memory => Ok(()),
    }
}

/// Writes a line with the reason that the system gives for a failed read or write. It follows the
/// line of the error.
///
/// # Errors
///
/// `DeviceFault` if a write fails. The first part of the line was written.
pub fn write_system_reason<F: Sink>(why: &[u8], faults: &mut F) -> Result<(), DeviceFault>
    ensures { WritesText (F.written faults.old) (F.written faults.new) (F.failures faults.old)
        (F.failures faults.new) result (system_reason_line why.now) }
{
    write_text(faults, b"  ")?;
    write_text(faults, why)?;
    write_text(faults, b"\n")
}

/// Scans the bytes of the last read, if the input ended inside a value.
fn settle_at_end<R>(cause: Cause, watched: &mut PlacedSource<R>)
    ensures watched { (bytes : List ℕ) → HasWatched watched.old bytes →
        HasWatched watched.new bytes }
    ensures same_rules { rules_watched watched.new ≡ rules_watched watched.old }
    ensures same_size { held_bytes watched.new ≡ held_bytes watched.old }
    ensures scanned { cause ≡ Cause.Truncated → watched.new.fresh ≡ 0 }
{
    if cause == Cause::Truncated {
        watched.settle();
    }
}

/// Explains an error at this byte of the value with this number.
fn explain_at<R, F: Sink>(
    alloc: Global,
    error: &ToolError,
    value: u64,
    at: u64,
    options: &Options<'_>,
    watched: &mut PlacedSource<R>,
    faults: &mut F,
) -> Result<(), ToolError>
    ensures explains { (bytes : List ℕ) → HasWatched watched.old bytes →
        (IsRefusedBy Cause.Truncated error.now → watched.old.fresh ≡ 0) →
        OnOk result (ExplainsAt (rules_watched watched.old)
        (rules_under options.now.version options.now.limits) (held_bytes watched.old) bytes value
        at (F.written faults.old) (F.written faults.new) error.now) }
    ensures write_failed { F.failures faults.new ≡
        failures_after (failed_to_write result) (F.failures faults.old) }
    ensures memory { IfErr result (λ error. error ≢ ToolError.Write → (error ≡ ToolError.Memory) ×
        Appends (F.written faults.old) (F.written faults.new) []) }
{
    let Some(place) = watched.place_of(value, at) else {
        return Err(ToolError::Memory);
    };
    let missing = watched.missing();
    let (before, after) = watched.around(place);
    let front = watched.front(at);
    let next = next_after(alloc, error, front, options)?;
    let reason = ErrorFacts {
        error,
        version: options.version,
        limits: &options.limits,
        missing,
        after,
        next,
        hint: hint_at(error, front, after),
    };
    write_around(alloc, place, before, &reason, faults)
}

/// Returns a hint at the reason for the byte after the front of a value, if the grammar does not
/// allow it.
fn hint_at(error: &ToolError, front: Option<&[u8]>, after: &[u8]) -> Option<Hint>
    ensures { IsHintOf error.now (option_map (λ text. text.now) front.entry) after.now result }
{
    match (error, front) {
        (ToolError::Refused { cause, .. }, Some(front)) if *cause == Cause::Syntax => {
            hint_of(front, after)
        }
        _ => None,
    }
}

/// Writes the lines, with the bytes before the place.
fn write_around<F: Sink>(
    alloc: Global,
    place: u64,
    before: &[u8],
    reason: &ErrorFacts<'_>,
    faults: &mut F,
) -> Result<(), ToolError>
    ensures lines { OnOk result (Appends (F.written faults.old) (F.written faults.new)
        (place_lines (margin_text place before.now) reason.now.after.now
        (replicate (length (margin_text place before.now)) 32) (sentence_of reason.now) ++
        hint_line reason.now.hint)) }
    ensures write_failed { F.failures faults.new ≡
        failures_after (failed_to_write result) (F.failures faults.old) }
    ensures memory { IfErr result (λ error. error ≢ ToolError.Write → (error ≡ ToolError.Memory) ×
        Appends (F.written faults.old) (F.written faults.new) []) }
{
    let margin = margin(alloc, place, before)?;
    let blank = vec![in alloc; b' '; margin.bytes().len()]?;
    write_place(faults, margin.bytes(), blank.as_slice(), reason)?;
    Ok(write_hint(reason.hint, faults)?)
}

/// Finds the bytes that are valid after the front of a value, if the grammar does not allow the
/// byte there.
fn next_after(
    alloc: Global,
    error: &ToolError,
    front: Option<&[u8]>,
    options: &Options<'_>,
) -> Result<Option<NextBytes>, AllocError>
    ensures { IfOk result (IsNextOf (rules_under options.now.version options.now.limits) error.now
        (option_map (λ text. text.now) front.entry)) }
{
    match (error, front) {
        (ToolError::Refused { cause, .. }, Some(front)) if *cause == Cause::Syntax => {
            let next = NextBytes::after(alloc, front, options.version, &options.limits)?;
            Ok(Some(next))
        }
        _ => Ok(None),
    }
}

/// Returns the first line up to the place of the error.
fn margin(alloc: Global, place: u64, before: &[u8]) -> Result<MemorySink, AllocError>
    ensures { IfOk result (λ margin. margin.held ≡ margin_text place before.now) }
{
    let mut margin = MemorySink::new(alloc, MOST_IN_MARGIN, MOST_IN_MARGIN)?;
    match write_margin(&mut margin, place, before) {
        Ok(()) => Ok(margin),
        Err(DeviceFault) => Err(AllocError),
    }
}

/// Writes the line with the place, and the line with the caret and the sentence.
fn write_place<F: Sink>(
    faults: &mut F,
    margin: &[u8],
    blank: &[u8],
    reason: &ErrorFacts<'_>,
) -> Result<(), DeviceFault>
    ensures lines { OnOk result (Appends (F.written faults.old) (F.written faults.new)
        (place_lines margin.now reason.now.after.now blank.now (sentence_of reason.now))) }
    ensures all_written { OnOk result (F.failures faults.new ≡ F.failures faults.old) }
    ensures write_failed { OnErr result (F.failures faults.new ≡
        count_after 1 (F.failures faults.old)) }
{
    write_text(faults, margin)?;
    write_quoted(faults, reason.after)?;
    write_text(faults, b"\n")?;
    write_text(faults, blank)?;
    write_text(faults, b"^ ")?;
    write_reason(faults, reason)?;
    write_text(faults, b"\n")
}

/// Writes the sentence about an error.
fn write_reason<F: Sink>(faults: &mut F, reason: &ErrorFacts<'_>) -> Result<(), DeviceFault>
    ensures { WritesText (F.written faults.old) (F.written faults.new) (F.failures faults.old)
        (F.failures faults.new) result (sentence_of reason.now) }
{
    match &reason.next {
        Some(next) => next.write(faults),
        None => write_sentence(faults, reason),
    }
}

/// Writes the first line up to the place of the error.
fn write_margin<F: Sink>(faults: &mut F, place: u64, before: &[u8]) -> Result<(), DeviceFault>
    ensures { WritesText (F.written faults.old) (F.written faults.new) (F.failures faults.old)
        (F.failures faults.new) result (margin_text place before.now) }
{
    write_number(faults, b"  at byte ", place, b" of the input: ")?;
    write_quoted(faults, before)
}

/// Writes the sentence about an error without the bytes that are valid there.
fn write_sentence<F: Sink>(faults: &mut F, reason: &ErrorFacts<'_>) -> Result<(), DeviceFault>
    ensures { WritesText (F.written faults.old) (F.written faults.new) (F.failures faults.old)
        (F.failures faults.new) result (sentence_text
        (rules_under reason.now.version reason.now.limits.now) reason.now.missing
        reason.now.after.now reason.now.error.now) }
{
    match reason.error {
        ToolError::Refused { cause, .. } => write_cause(faults, *cause, reason),
        ToolError::OverLimits { .. } => {
            write_text(
                faults,
                b"the canonical text of this value is over the limits",
            )
        }
        ToolError::TooManyValues
        | ToolError::Read
        | ToolError::Write
        | ToolError::TooManyTurns
        | ToolError::Memory => write_text(faults, b"a run reads at most 1000000000 values"),
    }
}

/// Writes why a byte is not valid, and which option accepts it.
fn write_cause<F: Sink>(
    faults: &mut F,
    cause: Cause,
    reason: &ErrorFacts<'_>,
) -> Result<(), DeviceFault>
    ensures { WritesText (F.written faults.old) (F.written faults.new) (F.failures faults.old)
        (F.failures faults.new) result (cause_text
        (rules_under reason.now.version reason.now.limits.now) reason.now.missing
        reason.now.after.now cause) }
{
    match cause {
        Cause::Double => write_double(faults, reason.version),
        Cause::Version => write_version(reason.after, faults),
        Cause::NestedPush => write_text(faults, b"a push cannot be inside another value"),
        Cause::Range => write_text(faults, b"the integer doesn't fit into 64 bits"),
        Cause::Depth => write_number(faults, DEEPER, reason.limits.depth(), ALLOWED),
        Cause::Length => write_number(faults, LONGER, reason.limits.length(), ALLOWED),
        Cause::Items => write_number(faults, MORE_ITEMS, reason.limits.items(), ALLOWED),
        Cause::Total => write_number(faults, MORE_BYTES, reason.limits.total(), ALLOWED),
        Cause::Streamed => {
            write_text(
                faults,
                b"a streamed string or aggregate; accepted without --no-streamed",
            )
        }
        Cause::Truncated => write_number(
            faults,
            b"the input ends inside a value; bytes missing: at least ",
            reason.missing,
            b"",
        ),
        _ => write_text(faults, b"a valid value cannot contain this byte here"),
    }
}

/// Writes which options accept a double.
fn write_double<F: Sink>(faults: &mut F, version: Version) -> Result<(), DeviceFault>
    ensures { WritesText (F.written faults.old) (F.written faults.new) (F.failures faults.old)
        (F.failures faults.new) result (double_text version) }
{
    match version {
        Version::Two => write_text(faults, b"a double; use -3"),
        Version::Three => write_text(faults, b"a double; use --doubles or -3"),
    }
}
