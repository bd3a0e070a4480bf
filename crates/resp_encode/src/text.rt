//! Appends the text of a value to a buffer that already has room for it.

ghost use Rattle.std.specs.Prelude.{◌+◌, ◌≤◌, ◌++◌, ◌∷◌, [], length, map};
ghost use Rattle.resp_value.specs.Bytes.{crlf};
ghost use Rattle.resp_value.specs.Numbers.{decimal};
ghost use Rattle.resp_value.specs.Data.{scalar, data_of_list, in_turn};
ghost use Rattle.resp_value.specs.Data as d;
ghost use Rattle.resp_value.specs.Trees.{texts};
ghost use Rattle.resp_value.specs.Canonical.{canonical_text, canonical_trees};
ghost use Rattle.resp_value.specs.Values.{datum_of, pair_data};
ghost use Rattle.resp_value.specs.declared.version.Version.TheVariants.{Three};
ghost use Rattle.resp_encode.specs.Walks.Writings.{Fills};

use crate::digits::{four_digits, two_digits};
use bytes::BytesMut;
use resp_value::value::Value;
use resp_value::version::Version;

/// Appends a head: the byte, the number, CR and LF. A number of one or two digits, the most common
/// case, is written without a call.
#[inline(always)]
pub(crate) fn write_head(out: &mut BytesMut, byte: u8, number: u64)
    requires { length (decimal number) + 3 ≤ out.old.spare }
    ensures { Fills out.old out.new (byte ∷ decimal number ++ crlf []) }
{
    if number < 10 {
        out.extend_reserved(&[byte, b'0' + number as u8, b'\r', b'\n']);
    } else if number < 100 {
        let (tens, ones) = two_digits(number);
        out.extend_reserved(&[byte, tens, ones, b'\r', b'\n']);
    } else {
        write_long_head(out, byte, number);
    }
}

/// Appends a head with a number of at least three digits. Each byte is stored directly in its
/// place, which is faster than building the head elsewhere and copying it.
#[inline(never)]
fn write_long_head(out: &mut BytesMut, byte: u8, number: u64)
    requires long { 100 ≤ number }
    requires room { length (decimal number) + 3 ≤ out.old.spare }
    ensures { Fills out.old out.new (byte ∷ decimal number ++ crlf []) }
{
    if number < 1000 {
        let (_, hundreds, tens, ones) = four_digits(number);
        out.extend_reserved(&[byte, hundreds, tens, ones, b'\r', b'\n']);
    } else if number < 10_000 {
        let (thousands, hundreds, tens, ones) = four_digits(number);
        out.extend_reserved(&[byte, thousands, hundreds, tens, ones, b'\r', b'\n']);
    } else {
        write_longer_head(out, byte, number);
    }
}

/// Appends a head with a number of at least five digits.
#[inline(never)]
fn write_longer_head(out: &mut BytesMut, byte: u8, number: u64)
    requires long { 10000 ≤ number }
    requires room { length (decimal number) + 3 ≤ out.old.spare }
    ensures { Fills out.old out.new (byte ∷ decimal number ++ crlf []) }
{
    write_front(out, byte, number / 10_000);
    let (thousands, hundreds, tens, ones) = four_digits(number % 10_000);
    out.extend_reserved(&[thousands, hundreds, tens, ones, b'\r', b'\n']);
}

/// Appends the byte and the number. The last four digits of the whole number follow later.
#[inline(always)]
fn write_front(out: &mut BytesMut, byte: u8, number: u64)
    requires { length (decimal number) + 1 ≤ out.old.spare }
    ensures { Fills out.old out.new (byte ∷ decimal number) }
{
    if number < 10_000 {
        write_short_number(out, byte, number);
    } else {
        write_number(out, byte, number);
    }
}

/// Appends the byte and the number.
#[inline(never)]
fn write_number(out: &mut BytesMut, byte: u8, number: u64)
    requires { length (decimal number) + 1 ≤ out.old.spare }
    ensures { Fills out.old out.new (byte ∷ decimal number) }
{
    if number < 10_000 {
        write_short_number(out, byte, number);
    } else {
        write_number(out, byte, number / 10_000);
        let (thousands, hundreds, tens, ones) = four_digits(number % 10_000);
        out.extend_reserved(&[thousands, hundreds, tens, ones]);
    }
}

/// Appends the byte and a number of one to four digits.
#[inline]
fn write_short_number(out: &mut BytesMut, byte: u8, number: u64)
    requires short { number ≤ 9999 }
    requires room { length (decimal number) + 1 ≤ out.old.spare }
    ensures { Fills out.old out.new (byte ∷ decimal number) }
{
    let (thousands, hundreds, tens, ones) = four_digits(number);
    if number < 10 {
        out.extend_reserved(&[byte, ones]);
    } else if number < 100 {
        out.extend_reserved(&[byte, tens, ones]);
    } else if number < 1000 {
        out.extend_reserved(&[byte, hundreds, tens, ones]);
    } else {
        out.extend_reserved(&[byte, thousands, hundreds, tens, ones]);
    }
}

/// Appends CR and LF.
#[inline(always)]
fn write_end(out: &mut BytesMut)
    requires { 2 ≤ out.old.spare }
    ensures { Fills out.old out.new (crlf []) }
{
    let end = [b'\r', b'\n'];
    out.extend_reserved(&end);
}

/// Appends Null in the form of the version.
#[inline]
pub(crate) fn write_null(out: &mut BytesMut, version: Version)
    requires { length (canonical_text version (scalar d.Null)) ≤ out.old.spare }
    ensures { Fills out.old out.new (canonical_text version (scalar d.Null)) }
{
    match version {
        Version::Two => out.extend_reserved(b"$-1\r\n"),
        Version::Three => out.extend_reserved(&[b'_', b'\r', b'\n']),
    }
}

/// Appends a boolean.
#[inline]
pub(crate) fn write_bool(out: &mut BytesMut, truth: bool)
    requires { 4 ≤ out.old.spare }
    ensures { Fills out.old out.new (canonical_text Three (scalar (d.Bool truth))) }
{
    if truth {
        out.extend_reserved(b"#t\r\n");
    } else {
        out.extend_reserved(b"#f\r\n");
    }
}

/// Appends an integer.
#[inline(always)]
pub(crate) fn write_int(out: &mut BytesMut, number: &i64)
    requires { length (canonical_text Three (scalar (d.Int number.now))) ≤ out.old.spare }
    ensures { Fills out.old out.new (canonical_text Three (scalar (d.Int number.now))) }
{
    let magnitude = number.unsigned_abs();
    if *number < 0 {
        out.extend_reserved(b":");
        write_head(out, b'-', magnitude);
    } else {
        write_head(out, b':', magnitude);
    }
}

/// Appends a line: the byte, the text, CR and LF.
#[inline(always)]
pub(crate) fn write_line(out: &mut BytesMut, byte: u8, text: &[u8])
    requires { length text.now + 3 ≤ out.old.spare }
    ensures { Fills out.old out.new (byte ∷ text.now ++ crlf []) }
{
    out.extend_reserved(&[byte]);
    out.extend_reserved(text);
    write_end(out);
}

/// Appends a string: its head, its bytes, CR and LF.
#[inline(always)]
pub(crate) fn write_string(out: &mut BytesMut, byte: u8, bytes: &[u8])
    requires { length (decimal (length bytes.now)) + length bytes.now + 5 ≤ out.old.spare }
    ensures { Fills out.old out.new (byte ∷ decimal (length bytes.now) ++
        crlf (bytes.now ++ crlf [])) }
{
    write_head(out, byte, bytes.len() as u64);
    out.extend_reserved(bytes);
    write_end(out);
}

/// Appends a verbatim string: its head, its format, a colon, the text, CR and LF.
#[inline]
pub(crate) fn write_verbatim(out: &mut BytesMut, format: &[u8; 3], text: &[u8])
    requires { length (canonical_text Three (scalar (d.Verbatim format.now text.now))) ≤
        out.old.spare }
    ensures { Fills out.old out.new
        (canonical_text Three (scalar (d.Verbatim format.now text.now))) }
{
    write_head(out, b'=', text.len() as u64 + 4);
    out.extend_reserved(format);
    out.extend_reserved(b":");
    out.extend_reserved(text);
    write_end(out);
}

/// Appends a big number.
#[inline]
pub(crate) fn write_big(out: &mut BytesMut, negative: bool, digits: &[u8])
    requires { length (canonical_text Three (scalar (d.Big negative digits.now))) ≤ out.old.spare }
    ensures { Fills out.old out.new (canonical_text Three (scalar (d.Big negative digits.now))) }
{
    if negative {
        out.extend_reserved(b"(-");
    } else {
        out.extend_reserved(b"(");
    }
    out.extend_reserved(digits);
    write_end(out);
}

/// Appends the text of a value.
#[cycle(write)]
pub(crate) fn write_value(value: &Value, version: Version, out: &mut BytesMut)
    requires { length (canonical_text version (datum_of value.now)) ≤ out.old.spare }
    ensures { Fills out.old out.new (canonical_text version (datum_of value.now)) }
{
    match value {
        Value::Null => write_null(out, version),
        Value::Bool(truth) => write_bool(out, *truth),
        Value::Int(number) => write_int(out, number),
        Value::Simple(line) => write_line(out, b'+', line.text()),
        Value::Error(line) => write_line(out, b'-', line.text()),
        Value::Double(text) => write_line(out, b',', text.text()),
        Value::Bulk(content) => write_string(out, b'$', content.list()),
        Value::BulkError(content) => write_string(out, b'!', content.list()),
        Value::Verbatim(format, text) => write_verbatim(out, format, text.list()),
        Value::Big(digits) => write_big(out, digits.is_negative(), digits.digits()),
        Value::Array(members) => write_group(members.list(), version, b'*', out),
        Value::Set(members) => write_group(members.list(), version, b'~', out),
        Value::Push(members) => write_group(members.list(), version, b'>', out),
        Value::Map(pairs) => {
            let pairs = pairs.list();
            write_head(out, b'%', pairs.len() as u64);
            write_pairs(pairs, version, out);
        }
        Value::Attr(pairs, annotated) => {
            let pairs = pairs.list();
            write_head(out, b'|', pairs.len() as u64);
            write_pairs(pairs, version, out);
            write_annotated(annotated, version, out);
        }
    }
}

/// Appends the text of the value that an attribute annotates.
#[cycle(write)]
#[inline(never)]
fn write_annotated(value: &Value, version: Version, out: &mut BytesMut)
    requires { length (canonical_text version (datum_of value.now)) ≤ out.old.spare }
    ensures { Fills out.old out.new (canonical_text version (datum_of value.now)) }
{
    write_value(value, version, out);
}

/// Appends a head with this byte and the number of the members, and their texts.
#[cycle(write)]
#[inline(never)]
pub(crate) fn write_group(members: &[Value], version: Version, byte: u8, out: &mut BytesMut)
    requires { length (decimal (length members.now)) + 3 + length
        (texts (canonical_trees version (data_of_list (map datum_of members.now)))) ≤
        out.old.spare }
    ensures { Fills out.old out.new (byte ∷ decimal (length members.now) ++
        crlf (texts (canonical_trees version (data_of_list (map datum_of members.now))))) }
{
    write_head(out, byte, members.len() as u64);
    write_members(members, version, out);
}

/// Appends the texts of consecutive values.
#[cycle(write)]
fn write_members(members: &[Value], version: Version, out: &mut BytesMut)
    requires { length (texts (canonical_trees version (data_of_list (map datum_of members.now)))) ≤
        out.old.spare }
    ensures { Fills out.old out.new (texts
        (canonical_trees version (data_of_list (map datum_of members.now)))) }
{
    for member in members {
        write_value(member, version, out);
    }
}

/// Appends the texts of alternating keys and values.
#[cycle(write)]
#[inline(never)]
fn write_pairs(pairs: &[(Value, Value)], version: Version, out: &mut BytesMut)
    requires { length (texts (canonical_trees version
        (data_of_list (in_turn (map pair_data pairs.now))))) ≤ out.old.spare }
    ensures { Fills out.old out.new (texts
        (canonical_trees version (data_of_list (in_turn (map pair_data pairs.now))))) }
{
    for pair in pairs {
        write_value(&pair.0, version, out);
        write_value(&pair.1, version, out);
    }
}
