//! Reads commands that clients send as lines.

ghost use Rattle.std.specs.Prelude.{◌≡◌, ◌↔◌, ◌⊎◌, ◌++◌, ◌<◌, ◌≤◌, length, IfErr, IfOk, IfSome, IsTrue, OnOk};
ghost use Rattle.resp_line.specs.Inline.{BeginsLine, EndsLine, GoesOn, HasText, ReadsLine, RejectsContent, RejectsLine};

use crate::line::{LineError, words_of};
use bytes::BytesMut;
use memchr::memchr;
use resp_encode::{EncodeError, encode_words};
use resp_value::limits::Limits;
use std::alloc::{AllocError, Global};
use std::mem;

/// The maximum number of bytes of a line before its LF.
const LONGEST: usize = 65_536;

/// Why a line is not a command.
#[derive(Clone, Copy, Debug, PartialEq, Eq)]
pub enum InlineError {
    /// The line has more than 65,536 bytes before its LF.
    LongLine,
    /// A quote is not closed, or no space follows it.
    Quotes,
    /// An array of the words of the line exceeds a limit.
    OverLimits,
    /// An allocation failed.
    OutOfMemory,
}

/// A line whose LF was read.
#[derive(Drop)]
pub struct InlineCommand {
    /// The bytes of the line before its LF.
    pub content: Vec<u8>,
    /// The words of the line as an array, or `None` if it has no words.
    pub text: Option<BytesMut>,
    /// The number of bytes of the piece that belong to the line.
    pub used: usize,
}

/// Returns whether the bytes begin with a byte that begins no array.
pub fn begins_line(piece: &[u8]) -> bool
    ensures { IsTrue result ↔ BeginsLine piece.now }
{
    match piece.first() {
        Some(byte) => *byte != b'*',
        None => false,
    }
}

/// Reads a line up to its LF from the bytes in `line` and from the piece after them. Returns the
/// command of this line, or `None` if the line does not end in the piece. Then `line` has all bytes
/// of the piece.
///
/// # Errors
///
/// The reason why the line is not a command, or `OutOfMemory`.
pub fn next_inline(
    alloc: Global,
    limits: &Limits,
    line: &mut Vec<u8>,
    piece: &[u8],
) -> Result<Option<InlineCommand>, InlineError>
    ensures read { GoesOn line.old.items piece.now → IfOk result
        (ReadsLine limits.now line.old.items piece.now line.new.items) }
    ensures content { GoesOn line.old.items piece.now → IfOk result (λ found. IfSome found
        (λ command. EndsLine line.old.items piece.now command)) }
    ensures rejected { GoesOn line.old.items piece.now → IfErr result
        (RejectsLine limits.now (line.old.items ++ piece.now)) }
    ensures onward { IfOk result (λ found. IfSome found (λ command. 0 < command.used)) }
    ensures within { IfOk result (λ found. IfSome found (λ command.
        command.used ≤ length piece.now)) }
{
    let Some(end) = memchr(b'\n', piece) else {
        return match hold(line, piece) {
            Ok(()) => Ok(None),
            Err(error) => Err(error),
        };
    };
    if let Err(error) = hold(line, &piece[..end]) {
        return Err(error);
    }
    match text_of(alloc, limits, line.as_slice()) {
        Ok(text) => {
            let content = mem::replace(line, Vec::new(alloc));
            Ok(Some(InlineCommand {
                content,
                text,
                used: end + 1,
            }))
        }
        Err(error) => Err(error),
    }
}

/// Holds more bytes of a line.
fn hold(line: &mut Vec<u8>, bytes: &[u8]) -> Result<(), InlineError>
    ensures held { OnOk result (line.new.items ≡ line.old.items ++ bytes.now) }
    ensures short { OnOk result (length line.new.items ≤ 65536) }
    ensures long { IfErr result (λ error. (error ≡ InlineError.OutOfMemory) ⊎
        ((error ≡ InlineError.LongLine) × (65536 < length (line.old.items ++ bytes.now)))) }
{
    if line.len().saturating_add(bytes.len()) > LONGEST {
        return Err(InlineError::LongLine);
    }
    match line.extend_from_slice(bytes) {
        Ok(()) => Ok(()),
        Err(AllocError) => Err(InlineError::OutOfMemory),
    }
}

/// Returns the words of a line without its LF as an array, or `None` if it has no words.
fn text_of(alloc: Global, limits: &Limits, line: &[u8]) -> Result<Option<BytesMut>, InlineError>
    ensures text { IfOk result (HasText limits.now line.now) }
    ensures rejected { IfErr result (RejectsContent limits.now line.now) }
{
    let words = match words_of(alloc, line) {
        Ok(words) => words,
        Err(LineError::Memory) => return Err(InlineError::OutOfMemory),
        Err(_) => return Err(InlineError::Quotes),
    };
    if words.is_empty() {
        return Ok(None);
    }
    let mut text = BytesMut::new(alloc);
    match encode_words(limits, words.as_slice(), &mut text) {
        Ok(()) => Ok(Some(text)),
        Err(EncodeError::OutOfMemory) => Err(InlineError::OutOfMemory),
        Err(_) => Err(InlineError::OverLimits),
    }
}
