//! Parts of lines: plain text, numbers, and bytes in quotes.

ghost use Rattle.std.specs.Prelude.{◌≡◌, ◌++◌, ◌≤◌, false, true, length, drop, take};
ghost use Rattle.resp_print.specs.Shown.{indentation, is_cut, quoted_text, shown_part};
ghost use Rattle.resp_print.specs.Written.{WritesText};

use crate::quote::{BLOCK, is_plain, quote_block};
use itoa::{Buffer, Integer};
use resp_io::device::{DeviceFault, Sink, write_all};

/// The number of bytes that are tested together.
const RUN: usize = 64;

/// The number of plain bytes that are worth a write of their own.
const LONG: usize = 16;

/// The indentation of 128 levels.
const SPACES: [u8; 256] = [b' '; 256];

/// Writes a text, usually with one write.
///
/// # Errors
///
/// `DeviceFault` if a write fails. The first part of the text was written.
#[inline(always)]
pub fn write_text<W: Sink>(writer: &mut W, text: &[u8]) -> Result<(), DeviceFault>
    ensures { WritesText (W.written writer.old) (W.written writer.new) (W.failures writer.old)
        (W.failures writer.new) result text.now }
{
    if text.is_empty() {
        return Ok(());
    }
    match writer.write(text) {
        Ok(count) => {
            if count == text.len() {
                return Ok(());
            }
            if count == 0 {
                return Err(DeviceFault);
            }
            write_rest(writer, text, count)
        }
        Err(DeviceFault) => Err(DeviceFault),
    }
}

/// Writes the rest of a text after its first `written` bytes.
#[cold]
#[inline(never)]
fn write_rest<W: Sink>(writer: &mut W, text: &[u8], written: usize) -> Result<(), DeviceFault>
    requires { written ≤ length text.now }
    ensures { WritesText (W.written writer.old) (W.written writer.new) (W.failures writer.old)
        (W.failures writer.new) result (drop written text.now) }
{
    match write_all(writer, &text[written..]) {
        Ok(()) => Ok(()),
        Err(_) => Err(DeviceFault),
    }
}

/// Writes a text, an integer, and another text.
///
/// # Errors
///
/// `DeviceFault` if a write fails. The first part was written.
#[inline(always)]
pub fn write_number<W: Sink, N: Integer + Drop>(
    writer: &mut W,
    before: &[u8],
    number: N,
    beyond: &[u8],
) -> Result<(), DeviceFault>
    ensures { WritesText (W.written writer.old) (W.written writer.new) (W.failures writer.old)
        (W.failures writer.new) result (before.now ++ N.text number ++ beyond.now) }
{
    let mut buffer = Buffer::new();
    write_text(writer, before)?;
    write_text(writer, buffer.format(number).as_bytes())?;
    write_text(writer, beyond)
}

/// Writes two spaces for each level.
///
/// # Errors
///
/// `DeviceFault` if a write fails. The first part was written.
#[inline(always)]
pub fn write_indentation<W: Sink>(writer: &mut W, level: u64) -> Result<(), DeviceFault>
    ensures { WritesText (W.written writer.old) (W.written writer.new) (W.failures writer.old)
        (W.failures writer.new) result (indentation level) }
{
    let mut left = level;
    while left > 128 {
        write_text(writer, &SPACES)?;
        left -= 128;
    }
    write_text(writer, &SPACES[..2 * left as usize])
}

/// Returns whether all bytes are printed unchanged inside quotes. It tests every byte without
/// stopping early, so that many are tested together.
pub fn is_all_plain(text: &[u8]) -> bool
    ensures { result ≡ true → quoted_text text.now ≡ text.now }
{
    let mut is_plain_so_far = true;
    for byte in text {
        is_plain_so_far &= is_plain(*byte);
    }
    is_plain_so_far
}

/// Returns the number of bytes before the first one that is escaped inside quotes.
fn plain_length(text: &[u8]) -> usize
    ensures within { result ≤ length text.now }
    ensures plain { quoted_text (take result text.now) ≡ take result text.now }
{
    let mut length = 0;
    while text.len() - length >= RUN && is_all_plain(&text[length..length + RUN]) {
        length += RUN;
    }
    while length < text.len() && is_plain(text[length]) {
        length += 1;
    }
    length
}

/// Writes a text as it is printed inside quotes, without the quotes.
///
/// # Errors
///
/// `DeviceFault` if a write fails. The first part was written.
pub fn write_quoted<W: Sink>(writer: &mut W, text: &[u8]) -> Result<(), DeviceFault>
    ensures { WritesText (W.written writer.old) (W.written writer.new) (W.failures writer.old)
        (W.failures writer.new) result (quoted_text text.now) }
{
    let mut rest = text;
    while !rest.is_empty() {
        let plain = plain_length(rest);
        if plain >= LONG || plain == rest.len() {
            let (front, other) = rest.split_at(plain);
            write_text(writer, front)?;
            rest = other;
        } else {
            let (front, other) = rest.split_at(rest.len().min(BLOCK));
            let mut quoted = [0; 4 * BLOCK];
            let length = quote_block(front, &mut quoted);
            write_text(writer, &quoted[..length])?;
            rest = other;
        }
    }
    Ok(())
}

/// Returns the part of a text that is printed: at most its first `most` bytes, or all if `most` is
/// `None`.
pub fn shown_part(text: &[u8], most: Option<usize>) -> &[u8]
    ensures { result.now ≡ shown_part most text.now }
{
    match most {
        Some(most) => &text[..most.min(text.len())],
        None => text,
    }
}

/// Returns whether a text has more bytes than are printed of it.
pub fn is_cut(text: &[u8], most: Option<usize>) -> bool
    ensures { result ≡ is_cut most (length text.now) }
{
    match most {
        Some(most) => most < text.len(),
        None => false,
    }
}
