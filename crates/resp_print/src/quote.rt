//! Quotes short blocks of bytes in memory, so that one write is enough for each block.

ghost use Rattle.std.specs.Prelude.{◌≡◌, ◌+◌, ◌++◌, ◌<◌, ◌≤◌, length, take};
ghost use Rattle.resp_print.specs.Shown.{is_plain, quoted_byte, quoted_text};

use crate::hex::hex_digit;

/// The maximum number of bytes of a block.
pub(crate) const BLOCK: usize = 64;

/// Returns whether a byte is printed unchanged inside quotes: printable ASCII except `"` and `\`.
#[inline(always)]
pub(crate) fn is_plain(byte: u8) -> bool
    ensures { result ≡ is_plain byte }
{
    32 <= byte && byte <= 126 && byte != b'"' && byte != b'\\'
}

/// Returns four bytes that begin with a byte as it is printed inside quotes, and how many of them
/// that takes.
#[inline(always)]
fn quote(byte: u8) -> ([u8; 4], usize)
    ensures quoted { take result.1 result.0 ≡ quoted_byte byte }
    ensures within { result.1 ≤ 4 }
{
    if is_plain(byte) {
        return ([byte, 0, 0, 0], 1);
    }
    match byte {
        b'"' => ([b'\\', b'"', 0, 0], 2),
        b'\\' => ([b'\\', b'\\', 0, 0], 2),
        b'\r' => ([b'\\', b'r', 0, 0], 2),
        b'\n' => ([b'\\', b'n', 0, 0], 2),
        b'\t' => ([b'\\', b't', 0, 0], 2),
        _ => ([b'\\', b'x', hex_digit(byte / 16), hex_digit(byte % 16)], 4),
    }
}

/// Writes a byte as it is printed inside quotes at an index with room for four bytes. Returns the
/// index after it.
#[inline(always)]
fn put_quoted(quoted: &mut [u8], at: usize, byte: u8) -> usize
    requires { at + 4 ≤ length quoted.old }
    ensures end { result ≤ at + 4 }
    ensures room { length quoted.new ≡ length quoted.old }
    ensures more { take result quoted.new ≡ take at quoted.old ++ quoted_byte byte }
{
    let (text, count) = quote(byte);
    quoted[at..at + 4].copy_from_slice(&text);
    at + count
}

/// Writes a block as it is printed inside quotes to the beginning of `quoted`. Returns the number
/// of bytes that were written.
pub(crate) fn quote_block(block: &[u8], quoted: &mut [u8; 4 * BLOCK]) -> usize
    requires { length block.now ≤ 64 }
    ensures within { result ≤ 256 }
    ensures quoted { take result quoted.new ≡ quoted_text block.now }
{
    let mut at = 0;
    for byte in block {
        at = put_quoted(quoted, at, *byte);
    }
    at
}
