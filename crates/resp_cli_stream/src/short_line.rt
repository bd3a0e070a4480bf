//! Builds the line of a short text in memory, so that one write is enough.

ghost use Rattle.std.specs.Prelude.{◌≡◌, ◌++◌, [], codes, decimal, false, true};
ghost use Rattle.resp_scan.specs.Kinds.{text_kind_of};
ghost use Rattle.resp_cli_stream.specs.Pages.{is_big, text_line, text_words};

use arrayvec::ArrayVec;
use resp_print::text::is_all_plain;
use resp_scan::event::TextKind;

/// The maximum number of bytes of content of a short line.
const MOST_CONTENT: usize = 96;

/// Builds the line of a text in the empty `line`, if the text is short and no byte of it is escaped.
/// Returns whether it did. The line is a parameter because a returned line would be copied.
#[inline(always)]
pub fn make_line(line: &mut ArrayVec<u8, 128>, kind: TextKind, bytes: &[u8]) -> bool
    requires { line.old.items ≡ [] }
    ensures { result ≡ true → line.new.items ≡ text_line (text_kind_of kind) bytes.now }
{
    if bytes.len() > MOST_CONTENT || !is_all_plain(bytes) {
        return false;
    }
    if !push_words(line, kind) {
        return false;
    }
    let Ok(()) = line.try_extend_from_slice(bytes) else {
        return false;
    };
    push_size(line, bytes.len() as u64)
}

/// Appends the words before the content, if there is room and the text is printed in quotes.
#[inline(always)]
fn push_words(line: &mut ArrayVec<u8, 128>, kind: TextKind) -> bool
    ensures words { result ≡ true →
        line.new.items ≡ line.old.items ++ text_words (text_kind_of kind) }
    ensures quoted { result ≡ true → is_big (text_kind_of kind) ≡ false }
{
    match kind {
        TextKind::Simple => line.try_extend_from_slice(b"simple \"").is_ok(),
        TextKind::Error => line.try_extend_from_slice(b"error \"").is_ok(),
        TextKind::Double => line.try_extend_from_slice(b"double \"").is_ok(),
        TextKind::Bulk => line.try_extend_from_slice(b"bulk \"").is_ok(),
        TextKind::BulkError => line.try_extend_from_slice(b"bulkerror \"").is_ok(),
        TextKind::Verbatim(_) => false,
        TextKind::Big { .. } => false,
    }
}

/// Appends the end of the line, a quote and the number of bytes, if there is room and the number
/// has at most two digits.
#[inline(always)]
fn push_size(line: &mut ArrayVec<u8, 128>, size: u64) -> bool
    ensures { result ≡ true →
        line.new.items ≡ line.old.items ++ (codes "\" " ++ decimal size ++ codes "\n") }
{
    if size < 10 {
        let digit = b'0' + size as u8;
        return line
            .try_extend_from_slice(&[b'"', b' ', digit, b'\n'])
            .is_ok();
    }
    if size >= 100 {
        return false;
    }
    let (tens, ones) = (b'0' + (size / 10) as u8, b'0' + (size % 10) as u8);
    line.try_extend_from_slice(&[b'"', b' ', tens, ones, b'\n'])
        .is_ok()
}
