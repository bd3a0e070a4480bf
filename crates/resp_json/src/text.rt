//! JSON strings, and texts of any bytes.

ghost use Rattle.std.specs.Prelude.{◌≡◌, ◌++◌, ◌<◌, ◌≤◌, false, length, take, slice_index, codes};
ghost use Rattle.std.specs.Str.{is_utf8};
ghost use Rattle.base64.specs.Engines.{standard};
ghost use Rattle.base64.specs.GeneralPurpose.{encode_of};
ghost use Rattle.resp_json.specs.Json.{escape_of, escaped, is_plain, json_string, text_json};
ghost use Rattle.resp_print.specs.Written.{WritesText};

use base64::engine::general_purpose::STANDARD;
use resp_io::device::{DeviceFault, Sink};
use resp_print::hex::hex_digit;
use resp_print::text::write_text;
use std::str;

/// The number of bytes that are encoded in base64 together. It is a multiple of 3, so only the last
/// part is padded.
const PART: usize = 768;

/// The number of bytes of the base64 of a part.
const ENCODED: usize = 1_024;

/// Returns whether a byte stands for itself inside a JSON string.
fn is_plain(byte: u8) -> bool
    ensures { result ≡ is_plain byte }
{
    32 <= byte && byte != b'"' && byte != b'\\'
}

/// Writes the escape of a byte that does not stand for itself.
fn write_escape<W: Sink>(writer: &mut W, byte: u8) -> Result<(), DeviceFault>
    ensures { WritesText (W.written writer.old) (W.written writer.new) (W.failures writer.old)
        (W.failures writer.new) result (escape_of byte) }
{
    match byte {
        b'"' => write_text(writer, b"\\\""),
        b'\\' => write_text(writer, b"\\\\"),
        b'\n' => write_text(writer, b"\\n"),
        b'\r' => write_text(writer, b"\\r"),
        b'\t' => write_text(writer, b"\\t"),
        _ => write_text(
            writer,
            &[
                b'\\',
                b'u',
                b'0',
                b'0',
                hex_digit(byte / 16),
                hex_digit(byte % 16),
            ],
        ),
    }
}

/// Returns the number of bytes before the first one that is escaped.
fn plain_length(text: &[u8]) -> usize
    ensures within { result ≤ length text.now }
    ensures plain { escaped (take result text.now) ≡ take result text.now }
    ensures whole { result < length text.now → is_plain (slice_index text.now result) ≡ false }
{
    let mut length = 0;
    while length < text.len() && is_plain(text[length]) {
        length += 1;
    }
    length
}

/// Writes a text as it is inside the quotes of a JSON string.
fn write_escaped<W: Sink>(writer: &mut W, text: &[u8]) -> Result<(), DeviceFault>
    ensures { WritesText (W.written writer.old) (W.written writer.new) (W.failures writer.old)
        (W.failures writer.new) result (escaped text.now) }
{
    let mut rest = text;
    while let Some((byte, beyond)) = rest.split_first() {
        let (plain, other) = rest.split_at(plain_length(rest));
        if plain.is_empty() {
            write_escape(writer, *byte)?;
            rest = beyond;
        } else {
            write_text(writer, plain)?;
            rest = other;
        }
    }
    Ok(())
}

/// Writes the base64 of some bytes as it is inside the quotes of a JSON string.
fn write_base64<W: Sink>(writer: &mut W, text: &[u8]) -> Result<(), DeviceFault>
    ensures { WritesText (W.written writer.old) (W.written writer.new) (W.failures writer.old)
        (W.failures writer.new) result (escaped (encode_of standard text.now)) }
{
    let mut rest = text;
    while rest.len() > PART {
        let (part, beyond) = rest.split_at(PART);
        write_part(writer, part)?;
        rest = beyond;
    }
    write_part(writer, rest)
}

/// Writes the base64 of at most `PART` bytes.
fn write_part<W: Sink>(writer: &mut W, part: &[u8]) -> Result<(), DeviceFault>
    requires { length part.now ≤ 768 }
    ensures { WritesText (W.written writer.old) (W.written writer.new) (W.failures writer.old)
        (W.failures writer.new) result (escaped (encode_of standard part.now)) }
{
    let mut encoded = [0u8; ENCODED];
    match STANDARD.encode_slice(part, &mut encoded) {
        Ok(size) => write_escaped(writer, &encoded[..size]),
        // The base64 of a part fits.
        Err(_) => unreachable!(),
    }
}

/// Writes a text of any bytes: a JSON string if the text is UTF-8, and otherwise an object whose
/// member `base64` has the bytes in base64.
///
/// # Errors
///
/// `DeviceFault` if a write fails. The first part of the text was written.
pub fn write_json_text<W: Sink>(writer: &mut W, text: &[u8]) -> Result<(), DeviceFault>
    ensures { WritesText (W.written writer.old) (W.written writer.new) (W.failures writer.old)
        (W.failures writer.new) result (text_json text.now) }
{
    if is_utf8(text) {
        write_string(writer, text)
    } else {
        write_base64_object(writer, text)
    }
}

/// Returns whether the bytes are UTF-8.
pub(crate) fn is_utf8(text: &[u8]) -> bool
    ensures { result ≡ is_utf8 text.now }
{
    str::from_utf8(text).is_ok()
}

/// Writes a JSON string.
fn write_string<W: Sink>(writer: &mut W, text: &[u8]) -> Result<(), DeviceFault>
    ensures { WritesText (W.written writer.old) (W.written writer.new) (W.failures writer.old)
        (W.failures writer.new) result (json_string text.now) }
{
    write_text(writer, b"\"")?;
    write_escaped(writer, text)?;
    write_text(writer, b"\"")
}

/// Writes an object with the bytes in base64.
fn write_base64_object<W: Sink>(writer: &mut W, text: &[u8]) -> Result<(), DeviceFault>
    ensures { WritesText (W.written writer.old) (W.written writer.new) (W.failures writer.old)
        (W.failures writer.new) result (codes "{\"base64\":" ++
        (json_string (encode_of standard text.now) ++ codes "}")) }
{
    write_text(writer, b"{\"base64\":\"")?;
    write_base64(writer, text)?;
    write_text(writer, b"\"}")
}
