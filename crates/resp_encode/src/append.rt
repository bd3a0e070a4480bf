//! Appends values without members, and heads of aggregates, for callers that have no
//! [`Value`](resp_value::value::Value).
//!
//! Each function appends the canonical text of the value, which [`encode`](crate::encode) appends
//! too. No limit is checked, nor whether the version has the type. The text is an encoding only if
//! the content is that of a value: a line contains neither CR nor LF, and a big number has at least
//! one digit and no leading zeros.
//!
//! # Errors
//!
//! `AllocError` if `out` cannot grow. Its bytes are unchanged then.
//!
//! # Examples
//!
//! An array of two integers, from [samples](../../samples/src/encoding.rt):
//!
//! ```rust
//! append::head(OpenKind::Array, 2, &mut out)?;
//! append::int(-1, &mut out)?;
//! append::int(42, &mut out)?;
//! println!(rt; "{}", out.escape_ascii())?;
//! ```
//!
//! This prints `*2\r\n:-1\r\n:42\r\n`.

ghost use Rattle.std.specs.Prelude.{◌∷◌, ◌++◌, [], length};
ghost use Rattle.resp_encode.specs.Encodings.{AppendsText, head_text};
ghost use Rattle.resp_value.specs.Bytes.{crlf};
ghost use Rattle.resp_value.specs.Canonical.{canonical_text};
ghost use Rattle.resp_value.specs.Data.{scalar};
ghost use Rattle.resp_value.specs.Data as d;
ghost use Rattle.resp_value.specs.Kinds.{kind_of};
ghost use Rattle.resp_value.specs.Numbers.{decimal};
ghost use Rattle.resp_value.specs.declared.version.Version.{Version};

use crate::measure::head_size;
use crate::measure_value::{big_size, int_size, null_size, string_size};
use crate::text::{
    write_big, write_bool, write_head, write_int, write_line, write_null, write_string,
    write_verbatim,
};
use bytes::BytesMut;
use resp_value::kind::OpenKind;
use resp_value::version::Version;
use std::alloc::AllocError;

/// Appends the head of an aggregate. The number is that of its members, or of its pairs if it is a
/// map or an attribute. The texts of its members follow it.
#[inline]
pub fn head(kind: OpenKind, number: u64, out: &mut BytesMut) -> Result<(), AllocError>
    ensures { AppendsText out.old out.new (head_text (kind_of kind) number) result }
{
    out.reserve(head_size(number) as usize)?;
    write_head(out, kind.byte(), number);
    Ok(())
}

/// Appends Null in the form of the version.
#[inline]
pub fn null(version: Version, out: &mut BytesMut) -> Result<(), AllocError>
    ensures { AppendsText out.old out.new (canonical_text version (scalar d.Null)) result }
{
    out.reserve(null_size(version) as usize)?;
    write_null(out, version);
    Ok(())
}

/// Appends a boolean.
#[inline]
pub fn boolean(truth: bool, out: &mut BytesMut) -> Result<(), AllocError>
    ensures { (version : Version) → AppendsText out.old out.new
        (canonical_text version (scalar (d.Bool truth))) result }
{
    out.reserve(4)?;
    write_bool(out, truth);
    Ok(())
}

/// Appends an integer.
#[inline]
pub fn int(number: i64, out: &mut BytesMut) -> Result<(), AllocError>
    ensures { (version : Version) → AppendsText out.old out.new
        (canonical_text version (scalar (d.Int number))) result }
{
    out.reserve(int_size(number) as usize)?;
    write_int(out, &number);
    Ok(())
}

/// Appends a simple string.
#[inline]
pub fn simple(text: &[u8], out: &mut BytesMut) -> Result<(), AllocError>
    ensures { (version : Version) → AppendsText out.old out.new
        (canonical_text version (scalar (d.Simple text.now))) result }
{
    line(b'+', text, out)
}

/// Appends a simple error.
#[inline]
pub fn error(text: &[u8], out: &mut BytesMut) -> Result<(), AllocError>
    ensures { (version : Version) → AppendsText out.old out.new
        (canonical_text version (scalar (d.Error text.now))) result }
{
    line(b'-', text, out)
}

/// Appends a double, given as its text.
#[inline]
pub fn double(text: &[u8], out: &mut BytesMut) -> Result<(), AllocError>
    ensures { (version : Version) → AppendsText out.old out.new
        (canonical_text version (scalar (d.Double text.now))) result }
{
    line(b',', text, out)
}

/// Appends a bulk string.
#[inline]
pub fn bulk(content: &[u8], out: &mut BytesMut) -> Result<(), AllocError>
    ensures { (version : Version) → AppendsText out.old out.new
        (canonical_text version (scalar (d.Bulk content.now))) result }
{
    string(b'$', content, out)
}

/// Appends a bulk error.
#[inline]
pub fn bulk_error(content: &[u8], out: &mut BytesMut) -> Result<(), AllocError>
    ensures { (version : Version) → AppendsText out.old out.new
        (canonical_text version (scalar (d.BulkError content.now))) result }
{
    string(b'!', content, out)
}

/// Appends a verbatim string with this format.
#[inline]
pub fn verbatim(format: &[u8; 3], text: &[u8], out: &mut BytesMut) -> Result<(), AllocError>
    ensures { (version : Version) → AppendsText out.old out.new
        (canonical_text version (scalar (d.Verbatim format.now text.now))) result }
{
    out.reserve(string_size(text.len() as u64 + 4) as usize)?;
    write_verbatim(out, format, text);
    Ok(())
}

/// Appends a big number with these digits.
#[inline]
pub fn big(negative: bool, digits: &[u8], out: &mut BytesMut) -> Result<(), AllocError>
    ensures { (version : Version) → AppendsText out.old out.new
        (canonical_text version (scalar (d.Big negative digits.now))) result }
{
    out.reserve(big_size(negative, digits) as usize)?;
    write_big(out, negative, digits);
    Ok(())
}

/// Appends a line: the byte, the text, CR and LF.
#[inline(always)]
fn line(byte: u8, text: &[u8], out: &mut BytesMut) -> Result<(), AllocError>
    ensures { AppendsText out.old out.new (byte ∷ text.now ++ crlf []) result }
{
    out.reserve(text.len() + 3)?;
    write_line(out, byte, text);
    Ok(())
}

/// Appends a string: its head, its bytes, CR and LF.
#[inline(always)]
fn string(byte: u8, bytes: &[u8], out: &mut BytesMut) -> Result<(), AllocError>
    ensures { AppendsText out.old out.new
        (byte ∷ decimal (length bytes.now) ++ crlf (bytes.now ++ crlf [])) result }
{
    out.reserve(string_size(bytes.len() as u64) as usize)?;
    write_string(out, byte, bytes);
    Ok(())
}
