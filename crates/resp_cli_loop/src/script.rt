//! Reads a script: its lines, each with an event of one client.

ghost use Rattle.std.specs.Prelude.{◌≡◌, ◌+◌, ◌-◌, ◌<◌, [], ◌∷◌, length, IfOk, IfErr, IfSome, IfNone, MatchBool};
ghost use Rattle.resp_cli_loop.specs.Scripts.{IsRefusedScript, IsScript, IsWithin, NameNoClients, PassesLimit, lines_of};
ghost use Rattle.resp_print.specs.Written.{WritesText};

pub mod reasons;
pub mod steps;
mod words;

use crate::script::reasons::BadLine;
use memchr::memchr;
use resp_io::device::{DeviceFault, Sink};
use resp_print::text::{write_number, write_text};
use resp_wire::Event;
use std::alloc::Global;
use steps::{Saying, said};
use thiserror::Error;
use words::LineFault;

/// The maximum number of bytes of a script.
pub const MOST_BYTES: usize = 1_048_576;

/// The maximum number of lines of a script.
const MOST_LINES: u64 = 10_000;

/// The maximum number of bytes of a line, without its LF.
const MOST_IN_LINE: usize = 4_096;

/// The error of a script without a number of clients.
const NO_CLIENTS: ScriptError = ScriptError::BadScript {
    line: 1,
    reason: BadLine::NoClients,
};

/// A script that was read.
#[derive(Debug, PartialEq, Eq, Drop)]
pub struct Script {
    /// The number of clients, from 1 to 16.
    pub clients: usize,
    /// The events in order, each with the number of its line, from 1. `None` is `flush`.
    pub steps: Vec<(u64, Option<Event>)>,
}

/// The error of [`read_script`].
#[derive(Clone, Copy, Debug, PartialEq, Eq, Error)]
pub enum ScriptError {
    /// The first bad line, counted from 1, and the reason. If no line begins with the word
    /// `clients`, this is line 1.
    #[error("line {line} of the script is bad: {reason}")]
    BadScript { line: u64, reason: BadLine },
    /// An allocation failed.
    #[error("out of memory")]
    Memory,
}

impl ScriptError {
    ghost use Rattle.resp_cli_loop.specs.Scripts.{script_fault_line, script_reason_line, script_status};

    /// Writes the line for standard error, with an LF.
    ///
    /// # Errors
    ///
    /// `DeviceFault` if a write fails. The first part of the line was written.
    pub fn line<W: Sink>(&self, writer: &mut W) -> Result<(), DeviceFault>
        ensures { WritesText (W.written writer.old) (W.written writer.new) (W.failures writer.old)
            (W.failures writer.new) result (script_fault_line self.now) }
    {
        match self {
            ScriptError::BadScript { line, .. } => {
                write_number(writer, b"line ", *line, b": BadScript\n")
            }
            ScriptError::Memory => write_text(writer, b"out of memory\n"),
        }
    }

    /// Writes a line that explains why the script is bad. When out of memory, it writes nothing.
    ///
    /// # Errors
    ///
    /// `DeviceFault` if a write fails. The first part of the line was written.
    pub fn explain<W: Sink>(&self, writer: &mut W) -> Result<(), DeviceFault>
        ensures { WritesText (W.written writer.old) (W.written writer.new) (W.failures writer.old)
            (W.failures writer.new) result (script_reason_line self.now) }
    {
        match self {
            ScriptError::BadScript { reason, .. } => {
                write_text(writer, b"  ")?;
                write_text(writer, reason.sentence().as_bytes())?;
                write_text(writer, b"\n")
            }
            ScriptError::Memory => Ok(()),
        }
    }

    /// Returns the exit status of the program: 1 for a bad script, and 3 when out of memory.
    pub fn status(&self) -> u8
        ensures { result ≡ script_status self.now }
    {
        match self {
            ScriptError::BadScript { .. } => 1,
            ScriptError::Memory => 3,
        }
    }
}

/// Reads a script of at most 1,048,576 bytes and 10,000 lines. A line has at most 4,096 bytes
/// without its LF, and at most 64 words.
///
/// # Errors
///
/// - [`ScriptError::BadScript`] with the first bad line, or with line 1 if no line begins with the
///   word `clients`.
/// - [`ScriptError::Memory`] if an allocation fails.
pub fn read_script(alloc: Global, bytes: &[u8]) -> Result<Script, ScriptError>
    ensures script { IfOk result (λ script. IsScript bytes.now script) }
    ensures refused { IfErr result (λ error. IsRefusedScript bytes.now error) }
{
    if !names_clients(bytes) {
        return Err(NO_CLIENTS);
    }
    let mut clients = None;
    let mut steps = Vec::new(alloc);
    let mut line: u64 = 0;
    let mut rest = bytes;
    while let Some((content, beyond)) = first_line(rest) {
        line += 1;
        let read = bytes.len() - beyond.len();
        if let Some(reason) = passed_limit(line, content.len(), read) {
            return Err(ScriptError::BadScript { line, reason });
        }
        match said(alloc, clients, content) {
            Ok(Saying::Nothing) => {}
            Ok(Saying::Clients(count)) => clients = Some(count),
            Ok(Saying::Step(step)) => {
                if steps.push((line, step)).is_err() {
                    return Err(ScriptError::Memory);
                }
            }
            Err(LineFault::Bad(reason)) => return Err(ScriptError::BadScript { line, reason }),
            Err(LineFault::Memory) => return Err(ScriptError::Memory),
        }
        rest = beyond;
    }
    match clients {
        Some(clients) => Ok(Script { clients, steps }),
        None => Err(NO_CLIENTS),
    }
}

/// Returns the limit that the line with this number exceeds. The line has `bytes` bytes, and the
/// script has `read` bytes up to the line's end.
fn passed_limit(line: u64, bytes: usize, read: usize) -> Option<BadLine>
    ensures within { IfNone result (IsWithin line bytes read) }
    ensures passed { IfSome result (PassesLimit line bytes read) }
{
    if line > MOST_LINES {
        Some(BadLine::ManyLines)
    } else if bytes > MOST_IN_LINE {
        Some(BadLine::LongLine)
    } else if read > MOST_BYTES {
        Some(BadLine::LongScript)
    } else {
        None
    }
}

/// Returns the first line of a text, without its LF, and the rest of the text.
pub(crate) fn first_line(text: &[u8]) -> Option<(&[u8], &[u8])>
    ensures line { IfSome result (λ parts.
        lines_of text.now ≡ parts.0.now ∷ lines_of parts.1.now) }
    ensures left { IfSome result (λ parts.
        length parts.1.now ≡ length text.now - (length parts.0.now + 1)) }
    ensures shorter { IfSome result (λ parts. length parts.1.now < length text.now) }
    ensures end { IfNone result (text.now ≡ []) }
{
    if text.is_empty() {
        return None;
    }
    match memchr(b'\n', text) {
        Some(at) => Some((&text[..at], &text[at + 1..])),
        None => Some((text, &[])),
    }
}

/// Returns whether the first word of a line is `clients`.
fn names_clients(text: &[u8]) -> bool
    ensures { MatchBool result (NameNoClients (lines_of text.now) → ⊥)
        (NameNoClients (lines_of text.now)) }
{
    let mut rest = text;
    while let Some((line, beyond)) = first_line(rest) {
        if words::first_word(line) == b"clients".as_slice() {
            return true;
        }
        rest = beyond;
    }
    false
}
