//! Writes the canonical texts of values without members, and the heads of values with members, into
//! a buffer of the caller.
//!
//! Each function returns 0 and sets `size` to the number of bytes of the text. It returns 65 if the
//! buffer is shorter than the text, and sets `size` then too. It returns another number if there is
//! no such text. After an error the buffer is unchanged. A text whose length no text in memory has,
//! which C may pass, is longer than any buffer: the result is 65.

ghost use Rattle.std.specs.Prelude.{◌≡◌, ◌↔◌, ◌<◌, ◌≤◌, ◌++◌, [], All, IsTrue, IfSome, length};
ghost use Rattle.resp_value.specs.Bytes.{IsLine, crlf};
ghost use Rattle.resp_value.specs.Canonical.{canonical_text};
ghost use Rattle.resp_value.specs.Causes.{number_of};
ghost use Rattle.resp_value.specs.Data.{scalar};
ghost use Rattle.resp_value.specs.Data as d;
ghost use Rattle.resp_value.specs.Doubles.{IsDouble};
ghost use Rattle.resp_value.specs.Kinds.{kind_of};
ghost use Rattle.resp_value.specs.Numbers.{IsDigit, IsKept};
ghost use Rattle.resp_value.specs.declared.version.Version.{Version};
ghost use Rattle.resp_value.specs.declared.cause.Cause.TheVariants as cause;
ghost use Rattle.resp_c.specs.Answers.{bad_kind, bad_version};
ghost use Rattle.resp_c.specs.Versions.{IsVersion, version_of};
ghost use Rattle.resp_c.specs.Writes.{IsAggregate, Writes, WritesNothing, aggregate_of};
ghost use Rattle.resp_encode.specs.Encodings.{head_text};

use crate::answer::{BAD_KIND, BAD_VERSION};
use crate::number;
use crate::room::{is_too_long, size_with, write_line, write_number, write_string};
use resp_value::cause::Cause;
use resp_value::double::is_double;
use resp_value::kind::OpenKind;
use resp_value::version::Version;

/// Returns the kind of aggregate of this number, `RESP_ARRAY` to `RESP_PUSH`.
fn kind(kind: u32) -> Option<OpenKind>
    ensures some { IfSome result (λ named. (named ≡ aggregate_of kind) × IsAggregate kind) }
    ensures none { result ≡ None → IsAggregate kind → ⊥ }
{
    match kind {
        number::ARRAY => Some(OpenKind::Array),
        number::SET => Some(OpenKind::Set),
        number::MAP => Some(OpenKind::Map),
        number::ATTRIBUTE => Some(OpenKind::Attr),
        number::PUSH => Some(OpenKind::Push),
        _ => None,
    }
}

/// Writes the head of an aggregate with the number of its members, or of its pairs if it is a map
/// or an attribute. The texts of its members follow it.
#[unsafe(no_mangle)]
pub extern "C" fn resp_write_head(room: &mut [u8], kind: u32, members: u64, size: &mut usize) -> u32
    ensures head { IsAggregate kind → Writes room.old room.new
        (head_text (kind_of (aggregate_of kind)) members) size.new result }
    ensures bad_kind { (IsAggregate kind → ⊥) → (result ≡ bad_kind) ×
        WritesNothing room.old room.new size.old size.new }
{
    let Some(kind) = crate::write::kind(kind) else {
        return BAD_KIND;
    };
    write_number(room, &[kind.byte()], members, size)
}

/// Writes a bulk string.
#[unsafe(no_mangle)]
pub extern "C" fn resp_write_bulk(room: &mut [u8], bytes: &[u8], size: &mut usize) -> u32
    ensures { (version : Version) → Writes room.old room.new
        (canonical_text version (scalar (d.Bulk bytes.now))) size.new result }
{
    write_string(room, b'$', bytes.len() as u64, b"", bytes, size)
}

/// Writes a bulk error, which version 2 does not have.
#[unsafe(no_mangle)]
pub extern "C" fn resp_write_bulk_error(room: &mut [u8], bytes: &[u8], size: &mut usize) -> u32
    ensures { (version : Version) → Writes room.old room.new
        (canonical_text version (scalar (d.BulkError bytes.now))) size.new result }
{
    write_string(room, b'!', bytes.len() as u64, b"", bytes, size)
}

/// Writes a verbatim string with a format of three bytes. Version 2 does not have verbatim strings.
#[unsafe(no_mangle)]
pub extern "C" fn resp_write_verbatim(
    room: &mut [u8],
    format: &[u8; 3],
    text: &[u8],
    size: &mut usize,
) -> u32
    ensures { (version : Version) → Writes room.old room.new
        (canonical_text version (scalar (d.Verbatim format.now text.now))) size.new result }
{
    let mut prefix = [b':'; 4];
    prefix[..3].copy_from_slice(format);
    write_string(room, b'=', size_with(text, 4) as u64, &prefix, text, size)
}

/// Writes an integer.
#[unsafe(no_mangle)]
pub extern "C" fn resp_write_int(room: &mut [u8], number: i64, size: &mut usize) -> u32
    ensures { (version : Version) → Writes room.old room.new
        (canonical_text version (scalar (d.Int number))) size.new result }
{
    let front: &[u8] = if number < 0 { b":-" } else { b":" };
    write_number(room, front, number.unsigned_abs(), size)
}

/// Writes a null in the form of version 2 or 3. Returns 64 for another version.
#[unsafe(no_mangle)]
pub extern "C" fn resp_write_null(room: &mut [u8], version: u32, size: &mut usize) -> u32
    ensures null { IsVersion version → Writes room.old room.new
        (canonical_text (version_of version) (scalar d.Null)) size.new result }
    ensures bad_version { (IsVersion version → ⊥) → (result ≡ bad_version) ×
        WritesNothing room.old room.new size.old size.new }
{
    match crate::scanner::version(version) {
        Some(Version::Two) => write_line(room, b"$-1", b"", size),
        Some(Version::Three) => write_line(room, b"_", b"", size),
        None => BAD_VERSION,
    }
}

/// Writes a boolean, which version 2 does not have.
#[unsafe(no_mangle)]
pub extern "C" fn resp_write_bool(room: &mut [u8], truth: bool, size: &mut usize) -> u32
    ensures { (version : Version) → Writes room.old room.new
        (canonical_text version (scalar (d.Bool truth))) size.new result }
{
    write_line(room, if truth { b"#t" } else { b"#f" }, b"", size)
}

/// Returns whether the bytes contain neither CR nor LF.
fn is_line(bytes: &[u8]) -> bool
    ensures { IsTrue result ↔ IsLine bytes.now }
{
    bytes.iter().all(|byte| *byte != b'\r' && *byte != b'\n')
}

/// Writes a line. Returns the number of `BadLine` if the text contains CR or LF.
fn write_plain(room: &mut [u8], front: &[u8], text: &[u8], size: &mut usize) -> u32
    requires { length front.now ≤ 8 }
    ensures line { IsLine text.now → Writes room.old room.new
        (front.now ++ (text.now ++ crlf [])) size.new result }
    ensures bad_line { (IsLine text.now → ⊥) → (result ≡ number_of cause.BadLine) ×
        WritesNothing room.old room.new size.old size.new }
{
    if !is_too_long(text) && !is_line(text) {
        return Cause::BadLine.number();
    }
    write_line(room, front, text, size)
}

/// Writes a simple string. Returns 60 if the text contains CR or LF.
#[unsafe(no_mangle)]
pub extern "C" fn resp_write_simple(room: &mut [u8], text: &[u8], size: &mut usize) -> u32
    ensures simple { IsLine text.now → (version : Version) → Writes room.old room.new
        (canonical_text version (scalar (d.Simple text.now))) size.new result }
    ensures bad_line { (IsLine text.now → ⊥) → (result ≡ number_of cause.BadLine) ×
        WritesNothing room.old room.new size.old size.new }
{
    write_plain(room, b"+", text, size)
}

/// Writes a simple error. Returns 60 if the text contains CR or LF.
#[unsafe(no_mangle)]
pub extern "C" fn resp_write_error(room: &mut [u8], text: &[u8], size: &mut usize) -> u32
    ensures error { IsLine text.now → (version : Version) → Writes room.old room.new
        (canonical_text version (scalar (d.Error text.now))) size.new result }
    ensures bad_line { (IsLine text.now → ⊥) → (result ≡ number_of cause.BadLine) ×
        WritesNothing room.old room.new size.old size.new }
{
    write_plain(room, b"-", text, size)
}

/// Writes a double, given as its text. Version 2 does not have doubles. Returns 61 if the text is
/// not that of a double.
#[unsafe(no_mangle)]
pub extern "C" fn resp_write_double(room: &mut [u8], text: &[u8], size: &mut usize) -> u32
    ensures double { IsDouble text.now → (version : Version) → Writes room.old room.new
        (canonical_text version (scalar (d.Double text.now))) size.new result }
    ensures bad_digits { (IsDouble text.now → ⊥) → (result ≡ number_of cause.BadDigits) ×
        WritesNothing room.old room.new size.old size.new }
{
    if !is_too_long(text) && !is_double(text) {
        return Cause::BadDigits.number();
    }
    write_line(room, b",", text, size)
}

/// Returns whether the text is one or more decimal digits.
fn are_digits(text: &[u8]) -> bool
    ensures { IsTrue result ↔ ((0 < length text.now) × All IsDigit text.now) }
{
    !text.is_empty() && text.iter().all(|byte| byte.is_ascii_digit())
}

/// Returns whether these are the sign and digits of a big number: one or more digits, no leading
/// zero, and no sign at a zero.
fn is_kept(negative: bool, digits: &[u8]) -> bool
    ensures { IsTrue result ↔ IsKept negative digits.now }
{
    are_digits(digits) && (digits[0] != b'0' || !negative && digits.len() == 1)
}

/// Writes a big number, given as its sign and its digits. Version 2 does not have big numbers.
/// Returns 61 if the digits are empty or contain another byte than a digit, if they have a leading
/// zero, or if they are a negative zero.
#[unsafe(no_mangle)]
pub extern "C" fn resp_write_big(
    room: &mut [u8],
    negative: bool,
    digits: &[u8],
    size: &mut usize,
) -> u32
    ensures big { IsKept negative digits.now → (version : Version) → Writes room.old room.new
        (canonical_text version (scalar (d.Big negative digits.now))) size.new result }
    ensures bad_digits { (IsKept negative digits.now → ⊥) → (result ≡ number_of cause.BadDigits) ×
        WritesNothing room.old room.new size.old size.new }
{
    if !is_too_long(digits) && !is_kept(negative, digits) {
        return Cause::BadDigits.number();
    }
    let front: &[u8] = if negative { b"(-" } else { b"(" };
    write_line(room, front, digits, size)
}
