//! Finds a likely reason for a byte that the grammar does not allow.

ghost use Rattle.std.specs.Prelude.{◌≡◌, ◌↔◌, ◌<◌, ℕ, true, false, IfSome, IsNone, get_or};
ghost use Rattle.std.specs.List.{AllByRecursion};
ghost use Rattle.resp_print.specs.Written.{WritesText};
ghost use Rattle.resp_cli_stream.specs.Hints.{Begins, BeginsWithLetter, Ends, EndsWithAny, EndsWithContent, EndsWithLength, IsFirstOf, IsHint, Shows, clue_line, clues, hint_line, is_one_of, version_text};

use itoa::Buffer;
use resp_io::device::{DeviceFault, Sink};
use resp_print::text::{write_number, write_text};

/// A likely reason for a byte that the grammar does not allow, if the byte does not follow the
/// content of a string. The first eleven are formats that an input may have instead of RESP. The
/// others are mistakes in RESP.
#[derive(Clone, Copy)]
pub(crate) enum Clue {
    /// A TLS handshake.
    Tls,
    /// Data compressed by gzip.
    Gzip,
    /// An executable.
    Elf,
    /// A snapshot of Redis.
    Rdb,
    HttpRequest,
    HttpResponse,
    /// Text that begins with a byte order mark.
    Utf8Mark,
    /// UTF-16, little end first, with a byte order mark.
    Utf16,
    Json,
    /// The output of redis-cli.
    Cli,
    /// An inline command.
    Inline,
    /// A backslash and an `r` instead of CR, or LF after a backslash and an `n`.
    Escaped,
    EmptyLine,
    /// No chunk in a streamed string.
    NoChunk,
    /// The end of a streamed aggregate, without its beginning.
    End,
    /// CR without LF after it.
    ReturnAlone,
    /// LF without CR before it.
    FeedAlone,
    /// A negative length or count other than -1.
    Negative,
    /// Bytes in a null.
    Null,
    /// Another letter in a boolean.
    Boolean,
    /// A byte that is not a digit, in a number.
    Integer,
    BigNumber,
    /// A byte that is not a digit, in a length.
    Length,
    /// A byte that is not a digit, in a count.
    Count,
}

/// All clues. An earlier one has precedence.
const CLUES: [Clue; 24] = [
    Clue::Tls,
    Clue::Gzip,
    Clue::Elf,
    Clue::Rdb,
    Clue::HttpRequest,
    Clue::HttpResponse,
    Clue::Utf8Mark,
    Clue::Utf16,
    Clue::Json,
    Clue::Cli,
    Clue::Inline,
    Clue::Escaped,
    Clue::EmptyLine,
    Clue::NoChunk,
    Clue::End,
    Clue::ReturnAlone,
    Clue::FeedAlone,
    Clue::Negative,
    Clue::Null,
    Clue::Boolean,
    Clue::Integer,
    Clue::BigNumber,
    Clue::Length,
    Clue::Count,
];

/// The digits of a number.
const DIGITS: &[u8] = b"0123456789";

/// The type bytes of strings whose length is counted, and of a chunk.
const LENGTH_MARKS: &[u8] = b"$!=;";

/// A hint at the reason for a byte that the grammar does not allow.
#[derive(Clone, Copy)]
pub(crate) enum Hint {
    /// The content of a string of this length is complete.
    Content { length: usize },
    /// Another reason.
    Clue(Clue),
}

/// Returns a hint at why the grammar does not allow the first byte of `from`. `before` has the
/// bytes of the value before that byte.
pub(crate) fn hint_of(before: &[u8], from: &[u8]) -> Option<Hint>
    ensures { IsHint before.now from.now result }
{
    match length_before(before) {
        Some(length) => Some(Hint::Content { length }),
        None => first_clue(before, from).map(Hint::Clue),
    }
}

/// Writes the line with a hint. Writes nothing if there is no hint.
pub(crate) fn write_hint<F: Sink>(hint: Option<Hint>, faults: &mut F) -> Result<(), DeviceFault>
    ensures { WritesText (F.written faults.old) (F.written faults.new) (F.failures faults.old)
        (F.failures faults.new) result (hint_line hint) }
{
    match hint {
        Some(Hint::Content { length }) => write_number(
            faults,
            b"  expected CR LF after ",
            length as u64,
            b" bytes of content\n",
        ),
        Some(Hint::Clue(clue)) => write_text(faults, clue_line(clue)),
        None => write_text(faults, b""),
    }
}

/// Returns the line about a clue.
fn clue_line(clue: Clue) -> &'static [u8]
    ensures { result.now ≡ clue_line clue }
{
    match clue {
        Clue::Tls => b"  this looks like TLS\n",
        Clue::Gzip => b"  this looks like gzip\n",
        Clue::Elf => b"  this looks like an ELF file\n",
        Clue::Rdb => b"  this looks like an RDB file\n",
        Clue::HttpRequest => b"  this looks like an HTTP request\n",
        Clue::HttpResponse => b"  this looks like an HTTP response\n",
        Clue::Utf8Mark => b"  this looks like text with a byte order mark\n",
        Clue::Utf16 => b"  this looks like text in UTF-16\n",
        Clue::Json => b"  this looks like JSON\n",
        Clue::Cli => b"  this looks like the output of redis-cli\n",
        Clue::Inline => {
            b"  this looks like an inline command; a command is an array of bulk strings here\n"
        }
        Clue::Escaped => b"  a backslash is a byte like any other; printf writes \\r\\n as CR LF\n",
        Clue::EmptyLine => b"  an empty line; a value begins with the byte of its type\n",
        Clue::NoChunk => b"  a streamed string consists of chunks, which begin with ;\n",
        Clue::End => b"  a dot ends a streamed aggregate, and is not valid elsewhere\n",
        Clue::ReturnAlone => b"  CR without LF; a line ends with CR LF\n",
        Clue::FeedAlone => b"  LF without CR; a line ends with CR LF\n",
        Clue::Negative => b"  the only negative length is -1\n",
        Clue::Null => b"  a null is only _ and CR LF\n",
        Clue::Boolean => b"  a boolean is #t or #f\n",
        Clue::Integer => b"  an integer consists of an optional sign and digits\n",
        Clue::BigNumber => b"  a big number consists of an optional sign and digits\n",
        Clue::Length => b"  a length consists of digits\n",
        Clue::Count => b"  a count consists of digits\n",
    }
}

/// Writes why a byte, the first of `from`, is not valid in version 2.
pub(crate) fn write_version<F: Sink>(from: &[u8], faults: &mut F) -> Result<(), DeviceFault>
    ensures { WritesText (F.written faults.old) (F.written faults.new) (F.failures faults.old)
        (F.failures faults.new) result (version_text (get_or from.now 0 0)) }
{
    let byte = from.first().copied().unwrap_or(0);
    write_text(faults, version_text(byte))
}

/// Returns the sentence about a byte in version 2.
fn version_text(byte: u8) -> &'static [u8]
    ensures { result.now ≡ version_text byte }
{
    match byte {
        b'_' => b"RESP3 null in RESP2 input; use -3",
        b'#' => b"RESP3 boolean in RESP2 input; use -3",
        b',' => b"RESP3 double in RESP2 input; use -3",
        b'(' => b"RESP3 big number in RESP2 input; use -3",
        b'!' => b"RESP3 bulk error in RESP2 input; use -3",
        b'=' => b"RESP3 verbatim string in RESP2 input; use -3",
        b'%' => b"RESP3 map in RESP2 input; use -3",
        b'~' => b"RESP3 set in RESP2 input; use -3",
        b'|' => b"RESP3 attribute in RESP2 input; use -3",
        b'>' => b"RESP3 push in RESP2 input; use -3",
        b'?' => b"RESP3 streamed string or aggregate in RESP2 input; use -3",
        _ => b"version 2 doesn't have this; use -3",
    }
}

/// Returns the first clue in the bytes before the rejected byte and in the bytes from it on.
fn first_clue(before: &[u8], from: &[u8]) -> Option<Clue>
    ensures { IsFirstOf clues before.now from.now result }
{
    let mut rest: &[Clue] = &CLUES;
    while let Some((clue, beyond)) = rest.split_first() {
        if shows(*clue, before, from) {
            return Some(*clue);
        }
        rest = beyond;
    }
    None
}

/// Returns whether the bytes show the clue.
fn shows(clue: Clue, before: &[u8], from: &[u8]) -> bool
    ensures { (result ≡ true) ↔ Shows clue before.now from.now }
{
    let first = before.is_empty();
    match clue {
        Clue::Tls => first && begins(from, b"\x16\x03"),
        Clue::Gzip => first && begins(from, b"\x1f\x8b"),
        Clue::Elf => first && begins(from, b"\x7fELF"),
        Clue::Rdb => first && begins(from, b"REDIS0"),
        Clue::HttpRequest => {
            first && (begins(from, b"GET /") || begins(from, b"POST /") || begins(from, b"HEAD /"))
        }
        Clue::HttpResponse => first && begins(from, b"HTTP/"),
        Clue::Utf8Mark => first && begins(from, b"\xef\xbb\xbf"),
        Clue::Utf16 => first && begins(from, b"\xff\xfe"),
        Clue::Json => first && (begins(from, b"{") || begins(from, b"[")),
        Clue::Cli => first && (begins(from, b"\"") || begins(from, b"1) ")),
        Clue::Inline => first && begins_with_letter(from),
        Clue::Escaped => begins(from, b"\\r") || ends(before, b"\\r\\n") && begins(from, b"\n"),
        Clue::EmptyLine => {
            (first || ends(before, b"\n")) && begins(from, b"\r") || first && begins(from, b"\n")
        }
        Clue::NoChunk => ends(before, b"$?\r\n"),
        Clue::End => (first || ends(before, b"\n")) && begins(from, b"."),
        Clue::ReturnAlone => ends(before, b"\r"),
        Clue::FeedAlone => begins(from, b"\n"),
        Clue::Negative => ends(before, b"$-") || ends(before, b"*-"),
        Clue::Null => ends(before, b"_"),
        Clue::Boolean => ends(before, b"#"),
        Clue::Integer => ends_with_any(before, b":", DIGITS),
        Clue::BigNumber => ends_with_any(before, b"(", DIGITS),
        Clue::Length => ends_with_any(before, LENGTH_MARKS, DIGITS),
        Clue::Count => ends_with_any(before, b"*%~>|", DIGITS),
    }
}

/// Returns whether the bytes begin with this text.
fn begins(from: &[u8], text: &[u8]) -> bool
    ensures { (result ≡ true) ↔ Begins text.now from.now }
{
    from.starts_with(text)
}

/// Returns whether the bytes end with this text.
fn ends(before: &[u8], text: &[u8]) -> bool
    ensures { (result ≡ true) ↔ Ends text.now before.now }
{
    before.ends_with(text)
}

/// Returns whether the last byte that is none of `digits` is one of these marks. No mark is a digit.
fn ends_with_any(before: &[u8], marks: &[u8], digits: &[u8]) -> bool
    requires no_digits { AllByRecursion (λ b. is_one_of digits.now b ≡ false) marks.now }
    ensures { (result ≡ true) ↔ EndsWithAny digits.now marks.now before.now }
{
    let mut rest = before;
    while let Some((byte, front)) = rest.split_last() {
        if !is_one_of(*byte, digits) {
            return is_one_of(*byte, marks);
        }
        rest = front;
    }
    false
}

/// Returns whether a byte is one of these.
fn is_one_of(byte: u8, bytes: &[u8]) -> bool
    ensures { result ≡ is_one_of bytes.now byte }
{
    bytes.contains(&byte)
}

/// Returns whether the first byte is a letter.
fn begins_with_letter(from: &[u8]) -> bool
    ensures { (result ≡ true) ↔ BeginsWithLetter from.now }
{
    from.first().is_some_and(u8::is_ascii_alphabetic)
}

/// Returns the length of the string content at the end of the bytes, or `None` if they do not end
/// with the type byte of a string, a length, CR LF and that many bytes. The length may have leading
/// zeros. If several lengths are possible, returns the greatest.
fn length_before(before: &[u8]) -> Option<usize>
    ensures found { IfSome result (λ length. EndsWithContent length before.now) }
    ensures longest { IfSome result (λ length. (other : ℕ) → length < other →
        EndsWithContent other before.now → ⊥) }
    ensures none { IsNone result → (length : ℕ) → EndsWithContent length before.now → ⊥ }
{
    let mut at = 0;
    while at <= before.len() {
        let (head, content) = before.split_at(at);
        if ends_with_length(head, content.len()) {
            return Some(content.len());
        }
        at += 1;
    }
    None
}

/// Returns whether the bytes end with the type byte of a string, this length and CR LF. The length may
/// have leading zeros.
fn ends_with_length(head: &[u8], length: usize) -> bool
    ensures { (result ≡ true) ↔ EndsWithLength length head.now }
{
    let mut buffer = Buffer::new();
    let digits = buffer.format(length as u64).as_bytes();
    match head.strip_suffix(b"\r\n") {
        Some(line) => match line.strip_suffix(digits) {
            Some(front) => ends_with_any(front, LENGTH_MARKS, b"0"),
            None => false,
        },
        None => false,
    }
}
