//! The JSON texts of values.

ghost use Rattle.std.specs.Prelude.{◌≡◌, ◌++◌, [], map, codes};
ghost use Rattle.resp_value.specs.Data.{data_of_list, in_turn};
ghost use Rattle.resp_value.specs.Data as d;
ghost use Rattle.resp_value.specs.Values.{datum_of, digits_text, is_negative, pair_data};
ghost use Rattle.resp_value.specs.declared.value.Value.TheVariants as value;
ghost use Rattle.resp_json.specs.Json.{big_front, in_brackets, is_object, json_line, json_of, members_json, pairs_json, scalar_json, text_object};
ghost use Rattle.resp_print.specs.Printed.{IsScalar};
ghost use Rattle.resp_print.specs.Written.{WritesText};

use crate::pairs::{after_value, before_key, before_value, close_bracket, is_object, open_bracket};
use crate::text::write_json_text;
use resp_io::device::{DeviceFault, Sink};
use resp_print::text::{write_number, write_text};
use resp_value::digits::Digits;
use resp_value::value::{Members, Value};

/// Writes the JSON text of a value, without spaces and without an LF. The call allocates nothing.
///
/// Two values with the same text are equal
/// ([`equal_json_means_equal_values`](crate::laws::equal_json_means_equal_values)).
///
/// # Errors
///
/// `DeviceFault` if a write fails. The first part of the text was written.
///
/// # Examples
///
/// From [samples](../../samples/src/printing.rt):
///
/// ```rust
/// let hits = Value::Bulk(Content::new(Vec::from_slice(alloc, b"hits")?));
/// let value = Value::Set(Members::new(vec![in alloc; hits, Value::Int(7)]?));
/// let mut text = MemorySink::new(alloc, 4_096, 4_096)?;
/// write_json(&value, &mut text)?;
/// println!(rt; "{}", str::from_utf8(text.bytes())?)?;
/// ```
///
/// This prints `{"set":["hits",7]}`.
#[cycle(json)]
pub fn write_json<W: Sink>(value: &Value, writer: &mut W) -> Result<(), DeviceFault>
    ensures { WritesText (W.written writer.old) (W.written writer.new) (W.failures writer.old)
        (W.failures writer.new) result (json_of (datum_of value.now)) }
{
    match value {
        Value::Array(members) => write_members(b"[", members.list(), b"]", writer),
        Value::Set(members) => write_members(b"{\"set\":[", members.list(), b"]}", writer),
        Value::Push(members) => write_members(b"{\"push\":[", members.list(), b"]}", writer),
        Value::Map(pairs) => write_pairs(b"{\"map\":", pairs.list(), b"}", writer),
        Value::Attr(pairs, annotated) => {
            write_pairs(b"{\"attribute\":", pairs.list(), b",\"of\":", writer)?;
            write_json(annotated, writer)?;
            write_text(writer, b"}")
        }
        _ => write_scalar(value, writer),
    }
}

/// Writes the JSON text of a value, and LF.
///
/// # Errors
///
/// `DeviceFault` if a write fails. The first part of the line was written.
pub fn write_json_line<W: Sink>(value: &Value, writer: &mut W) -> Result<(), DeviceFault>
    ensures { WritesText (W.written writer.old) (W.written writer.new) (W.failures writer.old)
        (W.failures writer.new) result (json_line (datum_of value.now)) }
{
    write_json(value, writer)?;
    write_text(writer, b"\n")
}

/// Writes the line of a push with these members, as [`write_json_line`] writes that of a value.
///
/// # Errors
///
/// Those of [`write_json_line`].
pub fn write_push_json_line<W: Sink>(members: &Members, writer: &mut W) -> Result<(), DeviceFault>
    ensures { WritesText (W.written writer.old) (W.written writer.new) (W.failures writer.old)
        (W.failures writer.new) result (json_line (datum_of (value.Push members.now))) }
{
    write_members(b"{\"push\":[", members.list(), b"]}", writer)?;
    write_text(writer, b"\n")
}

/// Writes members, separated by commas, between two texts.
#[cycle(json)]
fn write_members<W: Sink>(
    front: &[u8],
    members: &[Value],
    end: &[u8],
    writer: &mut W,
) -> Result<(), DeviceFault>
    ensures { WritesText (W.written writer.old) (W.written writer.new) (W.failures writer.old)
        (W.failures writer.new) result
        (front.now ++ (members_json [] (data_of_list (map datum_of members.now)) ++ end.now)) }
{
    write_text(writer, front)?;
    write_each_member(members, writer)?;
    write_text(writer, end)
}

/// Writes members, separated by commas.
#[cycle(json)]
fn write_each_member<W: Sink>(members: &[Value], writer: &mut W) -> Result<(), DeviceFault>
    ensures { WritesText (W.written writer.old) (W.written writer.new) (W.failures writer.old)
        (W.failures writer.new) result
        (members_json [] (data_of_list (map datum_of members.now))) }
{
    let mut separator: &[u8] = b"";
    for member in members {
        write_member(separator, member, writer)?;
        separator = b",";
    }
    Ok(())
}

/// Writes a separator and the JSON text of a value.
#[cycle(json)]
fn write_member<W: Sink>(
    separator: &[u8],
    member: &Value,
    writer: &mut W,
) -> Result<(), DeviceFault>
    ensures { WritesText (W.written writer.old) (W.written writer.new) (W.failures writer.old)
        (W.failures writer.new) result (separator.now ++ json_of (datum_of member.now)) }
{
    write_text(writer, separator)?;
    write_json(member, writer)
}

/// Writes pairs as an object or an array, between two texts.
#[cycle(json)]
fn write_pairs<W: Sink>(
    front: &[u8],
    pairs: &[(Value, Value)],
    end: &[u8],
    writer: &mut W,
) -> Result<(), DeviceFault>
    ensures { let xs = data_of_list (in_turn (map pair_data pairs.now)) in
        WritesText (W.written writer.old) (W.written writer.new) (W.failures writer.old)
        (W.failures writer.new) result (front.now ++
        (in_brackets (is_object xs) (pairs_json (is_object xs) [] xs) ++ end.now)) }
{
    let named = is_object(pairs);
    write_text(writer, front)?;
    write_text(writer, open_bracket(named))?;
    write_each_pair(named, pairs, writer)?;
    write_text(writer, close_bracket(named))?;
    write_text(writer, end)
}

/// Writes pairs, separated by commas: as members of an object if they are `named`, and otherwise as
/// arrays.
#[cycle(json)]
fn write_each_pair<W: Sink>(
    named: bool,
    pairs: &[(Value, Value)],
    writer: &mut W,
) -> Result<(), DeviceFault>
    ensures { WritesText (W.written writer.old) (W.written writer.new) (W.failures writer.old)
        (W.failures writer.new) result
        (pairs_json named [] (data_of_list (in_turn (map pair_data pairs.now)))) }
{
    let opening = before_key(named);
    let middle = before_value(named);
    let ending = after_value(named);
    let mut separator: &[u8] = b"";
    for pair in pairs {
        write_text(writer, separator)?;
        write_member(opening, &pair.0, writer)?;
        write_member(middle, &pair.1, writer)?;
        write_text(writer, ending)?;
        separator = b",";
    }
    Ok(())
}

/// Writes the JSON text of a value without members. For another value it writes nothing.
fn write_scalar<W: Sink>(value: &Value, writer: &mut W) -> Result<(), DeviceFault>
    ensures { (s : d.Scalar) → datum_of value.now ≡ d.scalar s →
        WritesText (W.written writer.old) (W.written writer.new) (W.failures writer.old)
        (W.failures writer.new) result (scalar_json s) }
{
    match value {
        Value::Null => write_text(writer, b"null"),
        Value::Bool(true) => write_text(writer, b"true"),
        Value::Bool(false) => write_text(writer, b"false"),
        Value::Int(number) => write_number(writer, b"", *number, b""),
        Value::Simple(line) => write_object(b"{\"simple\":", line.text(), writer),
        Value::Error(line) => write_object(b"{\"error\":", line.text(), writer),
        Value::Double(text) => write_object(b"{\"double\":", text.text(), writer),
        Value::Bulk(content) => write_json_text(writer, content.list()),
        Value::BulkError(content) => write_object(b"{\"bulk_error\":", content.list(), writer),
        Value::Verbatim(format, text) => write_verbatim(format, text.list(), writer),
        Value::Big(digits) => write_big(digits, writer),
        _ => Ok(()),
    }
}

/// Writes the front of an object, a text, and the end of the object.
fn write_object<W: Sink>(front: &[u8], text: &[u8], writer: &mut W) -> Result<(), DeviceFault>
    ensures { WritesText (W.written writer.old) (W.written writer.new) (W.failures writer.old)
        (W.failures writer.new) result (text_object front.now text.now) }
{
    write_text(writer, front)?;
    write_json_text(writer, text)?;
    write_text(writer, b"}")
}

/// Writes the object of a verbatim string.
fn write_verbatim<W: Sink>(format: &[u8; 3], text: &[u8], writer: &mut W) -> Result<(), DeviceFault>
    ensures { WritesText (W.written writer.old) (W.written writer.new) (W.failures writer.old)
        (W.failures writer.new) result (scalar_json (d.Verbatim format.now text.now)) }
{
    write_text(writer, b"{\"verbatim\":")?;
    write_json_text(writer, text)?;
    write_object(b",\"format\":", format, writer)
}

/// Writes the object of a big number.
fn write_big<W: Sink>(digits: &Digits, writer: &mut W) -> Result<(), DeviceFault>
    ensures { WritesText (W.written writer.old) (W.written writer.new) (W.failures writer.old)
        (W.failures writer.new) result
        (scalar_json (d.Big (is_negative digits.now) (digits_text digits.now))) }
{
    let front = big_front(digits.is_negative());
    write_text(writer, front)?;
    write_text(writer, digits.digits())?;
    write_text(writer, b"\"}")
}

/// Returns the text before the digits of a big number.
fn big_front(is_negative: bool) -> &'static [u8]
    ensures { result.now ≡ big_front is_negative }
{
    if is_negative {
        b"{\"big\":\"-"
    } else {
        b"{\"big\":\""
    }
}
