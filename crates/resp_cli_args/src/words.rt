//! Reads a command line, and writes the lines of its errors.

ghost use Rattle.std.specs.Prelude.{◌≡◌, ◌≢◌, ◌⊎◌, IfErr, IfOk, IsErrOf, OnOk, codes, map};
ghost use Rattle.clap.specs.Words.{App, kind_of};
ghost use Rattle.resp_cli_args.specs.CommandWords.{AnswersSort, AnswersStatus, AskFor, IsInRange};
ghost use Rattle.resp_cli_args.specs.Faults.{IsWordStatus, TellsFailure, fault_line, no_connection_line, no_host_line, open_failed_line, reason_line, status_of};
ghost use Rattle.resp_cli_args.specs.Program.{IsProgram};
ghost use Rattle.resp_cli_args.specs.Tried.{TriesText, WritesSome};
ghost use Rattle.resp_print.specs.Written.{WritesText};

use crate::asked::{Invocation, NothingAsked, OTHER_WORDS, asked_of};
use crate::instead::write_usage_error;
use crate::parser::matches_of;
use crate::tool_error::ToolError;
use clap::error::ErrorKind;
use resp_io::device::{DeviceFault, Sink};
use resp_print::text::write_text;
use std::alloc::Global;
use std::convert::AsStr;
use std::io::ErrorKind as IoErrorKind;

/// The exit status of a usage error.
const BAD_ARGUMENTS: u8 = 2;

/// The exit status after a device failed.
const DEVICE_FAILED: u8 = 3;

/// Writes help to `writer` or a usage error to `faults`, and returns the exit status.
fn explain<W: Sink, F: Sink>(
    alloc: Global,
    error: &clap::Error,
    writer: &mut W,
    faults: &mut F,
) -> u8
    ensures never_one { IsWordStatus result }
    ensures help_at_zero { result ≡ 0 → (kind_of error.now ≡ ErrorKind.DisplayHelp)
        ⊎ (kind_of error.now ≡ ErrorKind.DisplayVersion) }
    ensures refused_at_two { result ≡ 2 → (kind_of error.now ≢ ErrorKind.OutOfMemory)
        × (kind_of error.now ≢ ErrorKind.DisplayHelp)
        × (kind_of error.now ≢ ErrorKind.DisplayVersion) }
    ensures bad_words_write_nothing { result ≡ 2 → writer.new ≡ writer.old }
    ensures help_is_written { result ≡ 0 → WritesSome (W.written writer.old)
        (W.written writer.new) (W.failures writer.old) (W.failures writer.new) }
    ensures nothing_told_at_zero { result ≡ 0 → faults.new ≡ faults.old }
    ensures told_at_three { result ≡ 3 → TellsFailure (F.written faults.old)
        (F.written faults.new) (F.failures faults.old) (F.failures faults.new)
        (W.failures writer.old) (W.failures writer.new) }
{
    let text = match format!(in alloc; "{error}") {
        Ok(text) => text,
        Err(_) => return stop(&ToolError::Memory, faults),
    };
    match error.kind() {
        ErrorKind::OutOfMemory => stop(&ToolError::Memory, faults),
        ErrorKind::DisplayHelp | ErrorKind::DisplayVersion => {
            write_help(text.as_str().as_bytes(), writer, faults)
        }
        _ => {
            let _ = write_usage_error(text.as_str(), faults);
            BAD_ARGUMENTS
        }
    }
}

/// Writes help to `writer`, and returns the exit status. Help is never an empty text: an empty one
/// counts as a failed allocation.
fn write_help<W: Sink, F: Sink>(text: &[u8], writer: &mut W, faults: &mut F) -> u8
    ensures status { (result ≡ 0) ⊎ (result ≡ 3) }
    ensures help_is_written { result ≡ 0 → WritesSome (W.written writer.old)
        (W.written writer.new) (W.failures writer.old) (W.failures writer.new) }
    ensures nothing_told_at_zero { result ≡ 0 → faults.new ≡ faults.old }
    ensures told_at_three { result ≡ 3 → TellsFailure (F.written faults.old)
        (F.written faults.new) (F.failures faults.old) (F.failures faults.new)
        (W.failures writer.old) (W.failures writer.new) }
{
    if text.is_empty() {
        return stop(&ToolError::Memory, faults);
    }
    match write_text(writer, text) {
        Ok(()) => 0,
        Err(_) => stop(&ToolError::Write, faults),
    }
}

/// Writes the line of an error to `faults`, and returns the exit status. If a write fails, the rest
/// of the line is not written.
pub fn stop<F: Sink>(error: &ToolError, faults: &mut F) -> u8
    ensures status { result ≡ status_of error.now }
    ensures told { TriesText (F.written faults.old) (F.written faults.new)
        (F.failures faults.old) (F.failures faults.new) (fault_line error.now) }
{
    let _ = error.line(faults);
    error.status()
}

/// Writes why the words of the command line can't be read. Returns the exit status: 2 if a word is
/// not UTF-8, and 3 if an allocation failed.
#[tactic(auto, using(crate::proofs::Tried::tries_text))]
pub fn refuse_words<F: Sink>(kind: IoErrorKind, faults: &mut F) -> u8
    ensures two_where_not_text { kind ≡ IoErrorKind.InvalidData → result ≡ 2 }
    ensures three_without_memory { kind ≢ IoErrorKind.InvalidData → result ≡ 3 }
    ensures told_where_not_text { kind ≡ IoErrorKind.InvalidData →
        TriesText (F.written faults.old) (F.written faults.new) (F.failures faults.old)
        (F.failures faults.new) (codes "error: a word of the command line is not UTF-8\n") }
    ensures told_without_memory { kind ≢ IoErrorKind.InvalidData →
        TriesText (F.written faults.old) (F.written faults.new) (F.failures faults.old)
        (F.failures faults.new) (fault_line ToolError.Memory) }
{
    match kind {
        IoErrorKind::InvalidData => {
            let _ = write_text(faults, b"error: a word of the command line is not UTF-8\n");
            BAD_ARGUMENTS
        }
        _ => stop(&ToolError::Memory, faults),
    }
}

/// Writes that the words ask for something that is not done here. Returns the exit status, 2.
#[tactic(auto, using(crate::proofs::Tried::tries_text))]
pub fn refuse_request<F: Sink>(faults: &mut F) -> u8
    ensures status { result ≡ 2 }
    ensures told { TriesText (F.written faults.old) (F.written faults.new)
        (F.failures faults.old) (F.failures faults.new)
        (codes "error: these words ask for nothing here\n") }
{
    let _ = write_text(faults, OTHER_WORDS);
    BAD_ARGUMENTS
}

/// Writes that a file can't be opened, and why. Returns the exit status, 3.
pub fn refuse_file<F: Sink>(name: &str, why: &str, faults: &mut F) -> u8
    ensures status { result ≡ 3 }
    ensures told { TriesText (F.written faults.old) (F.written faults.new)
        (F.failures faults.old) (F.failures faults.new) (open_failed_line name.now why.now) }
{
    let _ = write_reason(b"open failed: ", name.as_bytes(), why.as_bytes(), faults);
    DEVICE_FAILED
}

/// Writes that the address of a host can't be found, and why. Returns the exit status, 3.
pub fn refuse_host<F: Sink>(name: &str, why: &str, faults: &mut F) -> u8
    ensures status { result ≡ 3 }
    ensures told { TriesText (F.written faults.old) (F.written faults.new)
        (F.failures faults.old) (F.failures faults.new) (no_host_line name.now why.now) }
{
    let _ = write_reason(
        b"cannot find the address of ",
        name.as_bytes(),
        why.as_bytes(),
        faults,
    );
    DEVICE_FAILED
}

/// Writes that no connection to a server can be opened, and why. Returns the exit status, 3.
pub fn refuse_connection<F: Sink>(name: &str, why: &str, faults: &mut F) -> u8
    ensures status { result ≡ 3 }
    ensures told { TriesText (F.written faults.old) (F.written faults.new)
        (F.failures faults.old) (F.failures faults.new) (no_connection_line name.now why.now) }
{
    let _ = write_reason(
        b"cannot connect to ",
        name.as_bytes(),
        why.as_bytes(),
        faults,
    );
    DEVICE_FAILED
}

/// Writes a line about a name, with the reason.
fn write_reason<F: Sink>(
    before: &[u8],
    name: &[u8],
    why: &[u8],
    faults: &mut F,
) -> Result<(), DeviceFault>
    ensures { WritesText (F.written faults.old) (F.written faults.new) (F.failures faults.old)
        (F.failures faults.new) result (reason_line before.now name.now why.now) }
{
    write_text(faults, before)?;
    write_text(faults, name)?;
    write_text(faults, b": ")?;
    write_text(faults, why)?;
    write_text(faults, b"\n")
}

/// Writes why the words ask for nothing. Returns the exit status: 3 if an allocation failed, and
/// otherwise 2.
fn refuse_nothing<F: Sink>(nothing: NothingAsked<'_>, faults: &mut F) -> u8
    ensures status { (result ≡ 2) ⊎ (result ≡ 3) }
    ensures not_memory { result ≡ 2 → nothing.entry ≢ NothingAsked.Memory }
    ensures told_without_memory { result ≡ 3 → TriesText (F.written faults.old)
        (F.written faults.new) (F.failures faults.old) (F.failures faults.new)
        (fault_line ToolError.Memory) }
{
    match nothing {
        NothingAsked::Memory => stop(&ToolError::Memory, faults),
        wrong => {
            let _ = wrong.write(faults);
            BAD_ARGUMENTS
        }
    }
}

/// Reads a command line, of which the first word is the name of the program, and returns what it
/// asks for.
///
/// # Errors
///
/// The exit status. It is 0 if the words ask for help or the version, which was written to
/// `writer`; 2 for a usage error, which was written to `faults`; and 3 if a device or an allocation
/// failed.
pub fn read_words<'a, S: AsStr, W: Sink, F: Sink>(
    alloc: Global,
    words: &'a [S],
    writer: &mut W,
    faults: &mut F,
) -> Result<Invocation<'a>, u8>
    ensures asked { (program : App) × IsProgram program
        × AnswersStatus AskFor program (map S.text words.entry.now) result
        × ((asked : Invocation) → AskFor program (map S.text words.entry.now) asked →
        AnswersSort asked result) }
    ensures in_range { IfOk result IsInRange }
    ensures nothing_said { OnOk result ((writer.new ≡ writer.old) × (faults.new ≡ faults.old)) }
    ensures never_one { IfErr result IsWordStatus }
    ensures help_is_written { IsErrOf result 0 → WritesSome (W.written writer.old)
        (W.written writer.new) (W.failures writer.old) (W.failures writer.new) }
    ensures nothing_told_at_zero { IsErrOf result 0 → faults.new ≡ faults.old }
    ensures nothing_at_two { IsErrOf result 2 → writer.new ≡ writer.old }
    ensures told_at_three { IsErrOf result 3 → TellsFailure (F.written faults.old)
        (F.written faults.new) (F.failures faults.old) (F.failures faults.new)
        (W.failures writer.old) (W.failures writer.new) }
{
    let matches = match matches_of(alloc, words) {
        Ok(matches) => matches,
        Err(error) => return Err(explain(alloc, &error, writer, faults)),
    };
    match asked_of(alloc, &matches) {
        Ok(asked) => Ok(asked),
        Err(nothing) => Err(refuse_nothing(nothing, faults)),
    }
}
