//! The words of a line of a script, and numbers.

ghost use Rattle.std.specs.Prelude.{◌≡◌, ℕ, ◌≤◌, List, All, Option, map, decimal, IfOk, IfErr, IfSome, IfNone, MatchBool};
ghost use Rattle.resp_cli_loop.specs.Reasons.{IsReason, IsUnfit, WhereBad, parts_of_line};
ghost use Rattle.resp_cli_loop.specs.ScriptSteps.{AreWords, IsSeen, IsWord};
ghost use Rattle.resp_cli_loop.specs.Scripts.{first_word};

use crate::script::reasons::BadLine;
use itoa::Buffer;
use memchr::memchr;
use std::alloc::{AllocError, Global};
use std::str;

/// The maximum number of words of a line.
const MOST_WORDS: usize = 64;

/// Why a line could not be read.
#[derive(Clone, Copy, Debug, PartialEq, Eq)]
pub enum LineFault {
    /// The line is bad, for this reason.
    Bad(BadLine),
    /// An allocation failed.
    Memory,
}

/// Returns the bytes before the first space, or the whole line if it has no space.
pub fn first_word(line: &[u8]) -> &[u8]
    ensures { result.now ≡ first_word line.now }
{
    match memchr(b' ', line) {
        Some(at) => &line[..at],
        None => line,
    }
}

/// Returns the words of a line: from 1 to 64, separated by single spaces.
///
/// # Errors
///
/// `Bad` with the reason if the line does not consist of such words, and `Memory` if an allocation
/// fails.
pub fn words_of<'a>(alloc: Global, line: &'a [u8]) -> Result<Vec<&'a [u8]>, LineFault>
    ensures words { IfOk result (λ words. AreWords line.now (map (λ word. word.now) words.items)) }
    ensures parts { IfOk result (λ words.
        map (λ word. word.now) words.items ≡ parts_of_line line.now) }
    ensures bad { IfErr result (WhereBad (λ reason.
        (words : List (List ℕ)) → AreWords line.now words → ⊥)) }
    ensures reason { (named : Option ℕ) →
        IfErr result (WhereBad (IsReason named (parts_of_line line.now))) }
{
    let words = match split(alloc, line) {
        Ok(words) => words,
        Err(AllocError) => return Err(LineFault::Memory),
    };
    if words.len() > MOST_WORDS {
        return Err(LineFault::Bad(BadLine::ManyWords));
    }
    match first_fault(words.as_slice()) {
        None => Ok(words),
        Some(reason) => Err(LineFault::Bad(reason)),
    }
}

/// Returns the parts of a line between its spaces.
fn split<'a>(alloc: Global, line: &'a [u8]) -> Result<Vec<&'a [u8]>, AllocError>
    ensures { IfOk result (λ parts.
        map (λ part. part.now) parts.items ≡ parts_of_line line.now) }
{
    line.split(|byte| *byte == b' ').collect(alloc)
}

/// Returns what is wrong with the first part that is not a word.
fn first_fault(words: &[&[u8]]) -> Option<BadLine>
    ensures words { IfNone result (All IsWord (map (λ word. word.now) words.now)) }
    ensures no_words { IfSome result (λ reason.
        All IsWord (map (λ word. word.now) words.now) → ⊥) }
    ensures reason { IfSome result (IsUnfit (map (λ word. word.now) words.now)) }
{
    for word in words {
        if word.is_empty() {
            return Some(BadLine::Spaces);
        }
        if !are_seen(word) {
            return Some(BadLine::UnseenByte);
        }
    }
    None
}

/// Returns whether all bytes are graphic ASCII.
fn are_seen(text: &[u8]) -> bool
    ensures { MatchBool result (All IsSeen text.now) (All IsSeen text.now → ⊥) }
{
    text.iter().all(u8::is_ascii_graphic)
}

/// Returns the number in a word: from 1 to `most`, in decimal digits without a leading zero.
/// Returns `None` for any other word.
pub fn number_of(word: &[u8], most: u64) -> Option<u64>
    ensures number { IfSome result (λ number.
        (word.now ≡ decimal number) × (1 ≤ number) × (number ≤ most)) }
    ensures none { IfNone result
        ((number : ℕ) → word.now ≡ decimal number → 1 ≤ number → number ≤ most → ⊥) }
{
    let Ok(text) = str::from_utf8(word) else {
        return None;
    };
    let Ok(number) = text.parse::<u64>() else {
        return None;
    };
    // Only the canonical digits of a number are accepted.
    let mut buffer = Buffer::new();
    if buffer.format(number).as_bytes() != word || number < 1 || number > most {
        return None;
    }
    Some(number)
}
