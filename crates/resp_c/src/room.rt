//! Writes texts to the beginning of the caller's buffer.

ghost use Rattle.std.specs.Prelude.{◌≡◌, false, ◌+◌, ◌≤◌, ◌++◌, ◌∷◌, ℕ, List, [], length};
ghost use Rattle.resp_value.specs.Bytes.{crlf};
ghost use Rattle.resp_value.specs.Numbers.{decimal};
ghost use Rattle.resp_c.specs.Writes.{StandsInRoom, Writes};

use crate::answer::NO_ROOM;
use itoa::Buffer;

/// Returns whether C passed a length that no text in memory has. A slice in Rust never has one.
pub(crate) fn is_too_long(text: &[u8]) -> bool
    ensures { result ≡ false }
{
    text.len() > isize::MAX as usize
}

/// Returns the number of bytes of a text with `more` bytes around it, at most the greatest number of
/// the type. A text in memory is always shorter than that.
#[inline(always)]
pub(crate) fn size_with(text: &[u8], more: usize) -> usize
    requires { more ≤ 64 }
    ensures { result ≡ length text.now + more }
{
    text.len().saturating_add(more)
}

/// Copies these bytes into the buffer from index `at` on, and returns the index after them.
#[inline(always)]
fn put(room: &mut [u8], at: usize, bytes: &[u8]) -> usize
    requires { at + length bytes.now ≤ length room.old }
    ensures end { result ≡ at + length bytes.now }
    ensures more { (old text : List ℕ) → StandsInRoom old text room.old at →
        StandsInRoom old (text ++ bytes.now) room.new result }
{
    let end = at + bytes.len();
    room[at..end].copy_from_slice(bytes);
    end
}

/// Writes a prefix, a text, CR and LF.
#[inline(always)]
pub(crate) fn write_line(room: &mut [u8], front: &[u8], text: &[u8], size: &mut usize) -> u32
    requires { length front.now ≤ 8 }
    ensures { Writes room.old room.new (front.now ++ (text.now ++ crlf [])) size.new result }
{
    let wanted = size_with(text, front.len() + 2);
    *size = wanted;
    if room.len() < wanted {
        return NO_ROOM;
    }
    let at = put(room, 0, front);
    let at = put(room, at, text);
    put(room, at, b"\r\n");
    0
}

/// Writes a prefix, a number, CR and LF.
pub(crate) fn write_number(room: &mut [u8], front: &[u8], number: u64, size: &mut usize) -> u32
    requires { length front.now ≤ 8 }
    ensures { Writes room.old room.new (front.now ++ (decimal number ++ crlf [])) size.new
        result }
{
    let mut buffer = Buffer::new();
    let digits = buffer.format(number).as_bytes();
    write_line(room, front, digits, size)
}

/// Writes a string whose head has the length `counted`: the head, a prefix, the bytes, CR and LF.
pub(crate) fn write_string(
    room: &mut [u8],
    byte: u8,
    counted: u64,
    prefix: &[u8],
    bytes: &[u8],
    size: &mut usize,
) -> u32
    requires { length prefix.now ≤ 8 }
    ensures { Writes room.old room.new
        (byte ∷ decimal counted ++ crlf (prefix.now ++ (bytes.now ++ crlf []))) size.new result }
{
    let mut buffer = Buffer::new();
    let digits = buffer.format(counted).as_bytes();
    let wanted = size_with(bytes, digits.len() + prefix.len() + 5);
    *size = wanted;
    if room.len() < wanted {
        return NO_ROOM;
    }
    let at = put(room, 0, &[byte]);
    let at = put(room, at, digits);
    let at = put(room, at, b"\r\n");
    let at = put(room, at, prefix);
    let at = put(room, at, bytes);
    put(room, at, b"\r\n");
    0
}
