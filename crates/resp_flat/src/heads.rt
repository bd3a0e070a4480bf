//! Numbers at the beginning of lines.

ghost use Rattle.std.specs.Prelude.{◌≡◌, ℕ, List, ◌≤◌, ◌+◌, ◌-◌, IfNone, IfSome, IsTrue, drop, length};
ghost use Rattle.std.specs.Bool.{MatchBool};
ghost use Rattle.resp_value.specs.Bytes.{crlf};
ghost use Rattle.resp_flat.specs.Plain.{BeginsWithLine, BeginsWithNumber};

use memchr::memchr;

/// A number, and the index after the CR LF that follows it.
#[derive(Clone, Copy)]
pub(crate) struct HeadNumber {
    pub(crate) number: u64,
    pub(crate) end: usize,
}

/// The greatest number that may have a digit more.
const MOST: u64 = 1_844_674_407_370_955_160;

/// Returns whether CR LF is at this index.
#[inline(always)]
pub(crate) fn is_line_end(buffer: &[u8], at: usize) -> bool
    requires { at ≤ length buffer.now }
    ensures { MatchBool result
        ((drop at buffer.now ≡ crlf (drop (at + 2) buffer.now)) × (at + 2 ≤ length buffer.now))
        ((rest : List ℕ) → drop at buffer.now ≡ crlf rest → ⊥) }
{
    if buffer.len() - at < 2 {
        return false;
    }
    buffer[at] == b'\r' && buffer[at + 1] == b'\n'
}

/// Returns the number from this index on, if it is at most this one and CR LF follows it.
#[inline(always)]
pub(crate) fn number_line(buffer: &[u8], at: usize, most: u64) -> Option<HeadNumber>
    requires at { at ≤ length buffer.now }
    requires most { most ≤ 9_223_372_036_854_775_808 }
    ensures number { IfSome result (λ found.
        BeginsWithNumber (drop at buffer.now) found.number (drop found.end buffer.now)) }
    ensures within { IfSome result (λ found.
        (found.number ≤ most) × (found.end ≤ length buffer.now)) }
    ensures none { IfNone result ((n : ℕ) (rest : List ℕ) → n ≤ most →
        BeginsWithNumber (drop at buffer.now) n rest → ⊥) }
{
    let mut number = 0;
    let mut end = at;
    while end < buffer.len() {
        let digit = buffer[end];
        if digit < b'0' || b'9' < digit {
            break;
        }
        if number > MOST {
            return None;
        }
        number = number * 10 + u64::from(digit - b'0');
        end += 1;
    }
    if number > most || end <= at || !is_line_end(buffer, end) {
        return None;
    }
    Some(HeadNumber {
        number,
        end: end + 2,
    })
}

/// The number of bytes of a line that are looked at one by one.
const NEAR: usize = 8;

/// Returns the index of the CR LF that ends a line, if its bytes before that are neither CR nor LF.
#[inline(always)]
pub(crate) fn line_end(buffer: &[u8], at: usize) -> Option<usize>
    requires { at ≤ length buffer.now }
    ensures line { IfSome result (λ end. BeginsWithLine (drop at buffer.now) (end - at) (crlf (drop (end + 2) buffer.now))) }
    ensures within { IfSome result (λ end. (at ≤ end) × (end + 2 ≤ length buffer.now)) }
    ensures none { IfNone result ((size : ℕ) (rest : List ℕ) →
        BeginsWithLine (drop at buffer.now) size (crlf rest) → ⊥) }
{
    for end in at..buffer.len().min(at.saturating_add(NEAR)) {
        let byte = buffer[end];
        if byte == b'\r' || byte == b'\n' {
            return if is_line_end(buffer, end) {
                Some(end)
            } else {
                None
            };
        }
    }
    let run = far_line(&buffer[at..])?;
    Some(at + run)
}

/// Returns the number of bytes of the line at the beginning of a text, which CR LF follows. Uses vector
/// instructions.
#[inline(never)]
fn far_line(text: &[u8]) -> Option<usize>
    ensures line { IfSome result (λ run.
        BeginsWithLine text.now run (crlf (drop (run + 2) text.now))) }
    ensures within { IfSome result (λ run. run + 2 ≤ length text.now) }
    ensures none { IfNone result ((size : ℕ) (rest : List ℕ) →
        BeginsWithLine text.now size (crlf rest) → ⊥) }
{
    let run = memchr(b'\r', text)?;
    match memchr(b'\n', &text[..run]) {
        Some(_) => None,
        None => {
            if is_line_end(text, run) {
                Some(run)
            } else {
                None
            }
        }
    }
}
