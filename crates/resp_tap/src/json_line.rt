//! The lines of JSON of commands, replies, pushes and connections.

ghost use Rattle.std.specs.Prelude.{◌≡◌, ◌++◌, ◌<◌, ℕ, Option, Some, length};
ghost use Rattle.resp_json.specs.Json.{text_json};
ghost use Rattle.resp_print.specs.Written.{WritesText};
ghost use Rattle.resp_tap.specs.Called.{command_name};
ghost use Rattle.resp_tap.specs.JsonLines.{answer_json, closed_json, closed_kind, command_json, continues, cut_bytes, cut_place, end_json, error_text, last_end, listening_json, member_json, place_json, push_json, refused_json, remark_json, reply_json, seen_json, shown_part, type_word, unpaired_json};
ghost use Rattle.resp_tap.specs.SeenOf.{IsKeptIn};
ghost use Rattle.resp_tap.specs.Segments.{segment_text};
ghost use Rattle.resp_value.specs.Data.{Datum};
ghost use Rattle.resp_value.specs.Values.{datum_of};

use crate::called::command_name;
use crate::end::Cut;
use crate::seen::{Place, Seen};
use crate::segment::{Segment, write_segments};
use crate::stamp::write_utc;
use crate::watch::Side;
use resp_io::device::{DeviceFault, Sink};
use resp_json::text::write_json_text;
use resp_print::text::write_text;
use resp_session::words::Words;
use resp_value::value::Value;

/// The most bytes of an error or an address that are printed.
pub(crate) const SHOWN: usize = 1_024;

/// What the line of a result says apart from the result itself.
#[derive(Clone, Copy, Debug, PartialEq, Eq)]
pub(crate) struct Facts {
    /// The number of the client.
    pub(crate) client: u64,
    /// Whether the result is that of a line.
    pub(crate) is_line: bool,
    /// The number of its bytes.
    pub(crate) size: u64,
    /// The time in UTC, in microseconds since 1970.
    pub(crate) utc: u64,
    /// The microseconds that the command of a reply waited, if they are known.
    pub(crate) waited: Option<u64>,
}

/// Returns whether a byte goes on with a character of UTF-8.
fn continues(byte: u8) -> bool
    ensures { result ≡ continues byte }
{
    128 <= byte && byte <= 191
}

/// Returns the end of the last character of a text that ends within the first 1,024 bytes.
fn last_end(text: &[u8]) -> usize
    requires { 1024 < length text.now }
    ensures { result ≡ last_end text.now }
{
    if !continues(text[SHOWN]) {
        SHOWN
    } else if !continues(text[SHOWN - 1]) {
        SHOWN - 1
    } else if !continues(text[SHOWN - 2]) {
        SHOWN - 2
    } else {
        SHOWN - 3
    }
}

/// Returns the first 1,024 bytes of a text, without a part of a character.
fn shown_part(text: &[u8]) -> &[u8]
    ensures { result.now ≡ shown_part text.now }
{
    if text.len() <= SHOWN {
        return text;
    }
    &text[..last_end(text)]
}

/// Writes a member of an object after these bytes, or nothing if the text is empty.
pub(crate) fn write_member<W: Sink>(
    front: &[u8],
    text: &[u8],
    writer: &mut W,
) -> Result<(), DeviceFault>
    ensures { WritesText (W.written writer.old) (W.written writer.new) (W.failures writer.old)
        (W.failures writer.new) result (member_json front.now text.now) }
{
    if text.is_empty() {
        return Ok(());
    }
    write_text(writer, front)?;
    write_part(text, writer)
}

/// Writes the first part of a text as a JSON string, or as an object if it is not UTF-8.
fn write_part<W: Sink>(text: &[u8], writer: &mut W) -> Result<(), DeviceFault>
    ensures { WritesText (W.written writer.old) (W.written writer.new) (W.failures writer.old)
        (W.failures writer.new) result (text_json (shown_part text.now)) }
{
    write_json_text(writer, shown_part(text))
}

/// Writes the date and the time of day, and the end of a line.
pub(crate) fn write_json_end<W: Sink>(utc: u64, writer: &mut W) -> Result<(), DeviceFault>
    ensures { WritesText (W.written writer.old) (W.written writer.new) (W.failures writer.old)
        (W.failures writer.new) result (end_json utc) }
{
    write_utc(b",\"time\":\"", utc, writer)?;
    write_text(writer, b"\"}\n")
}

/// Returns the word for the type of a value, without its attributes.
fn type_word(value: &Value) -> &'static [u8]
    ensures { result.now ≡ type_word (datum_of value.now) }
{
    match value.without_attributes() {
        Value::Null => b"null",
        Value::Bool(_) => b"boolean",
        Value::Int(_) => b"integer",
        Value::Simple(_) => b"simple",
        Value::Error(_) => b"error",
        Value::Double(_) => b"double",
        Value::Bulk(_) => b"bulk",
        Value::BulkError(_) => b"bulk_error",
        Value::Verbatim(_, _) => b"verbatim",
        Value::Big(_) => b"big",
        Value::Array(_) => b"array",
        Value::Set(_) => b"set",
        Value::Push(_) => b"push",
        Value::Map(_) => b"map",
        Value::Attr(_, _) => b"",
    }
}

/// Returns the text of a value that is an error, with attributes or without. For another value it
/// returns no byte.
fn error_text(value: &Value) -> &[u8]
    ensures { result.now ≡ error_text (datum_of value.now) }
{
    match value.without_attributes() {
        Value::Error(line) => line.text(),
        Value::BulkError(content) => content.list(),
        _ => b"",
    }
}

/// Writes the line of a command.
fn write_command<W: Sink>(
    facts: Facts,
    number: u64,
    name: &[u8],
    words: u64,
    writer: &mut W,
) -> Result<(), DeviceFault>
    ensures { WritesText (W.written writer.old) (W.written writer.new) (W.failures writer.old)
        (W.failures writer.new) result (command_json facts number name.now words) }
{
    write_segments(
        &[
            Segment::Number(b"{\"client\":", facts.client),
            Segment::Text(b",\"kind\":\"command\""),
            Segment::Number(b",\"number\":", number),
            Segment::Member(b",\"command\":", name),
            Segment::TextIf(facts.is_line, b",\"inline\":true"),
            Segment::Number(b",\"words\":", words),
            Segment::Number(b",\"size\":", facts.size),
            Segment::JsonEnd(facts.utc),
        ],
        writer,
    )
}

/// Writes the line of the reply to the command with this number and this name.
fn write_reply<W: Sink>(
    facts: Facts,
    number: u64,
    name: &[u8],
    value: &Value,
    writer: &mut W,
) -> Result<(), DeviceFault>
    ensures { WritesText (W.written writer.old) (W.written writer.new) (W.failures writer.old)
        (W.failures writer.new) result (reply_json facts number name.now (datum_of value.now)) }
{
    write_segments(
        &[
            Segment::Number(b"{\"client\":", facts.client),
            Segment::Text(b",\"kind\":\"reply\""),
            Segment::Number(b",\"number\":", number),
            Segment::Member(b",\"command\":", name),
        ],
        writer,
    )?;
    let waited = Segment::NumberIf(b",\"micros\":", facts.waited);
    write_answer(facts, waited, value, writer)
}

/// Writes the line of a value that is paired with no command.
fn write_unpaired<W: Sink>(facts: Facts, value: &Value, writer: &mut W) -> Result<(), DeviceFault>
    ensures { WritesText (W.written writer.old) (W.written writer.new) (W.failures writer.old)
        (W.failures writer.new) result (unpaired_json facts (datum_of value.now)) }
{
    write_segments(&[Segment::Number(b"{\"client\":", facts.client)], writer)?;
    write_answer(facts, Segment::Text(b",\"kind\":\"value\""), value, writer)
}

/// Writes a segment, the type and the bytes of a value, its text if it is an error, and the end of its
/// line.
fn write_answer<'a, W: Sink>(
    facts: Facts,
    first: Segment<'a>,
    value: &'a Value,
    writer: &mut W,
) -> Result<(), DeviceFault>
    ensures { WritesText (W.written writer.old) (W.written writer.new) (W.failures writer.old)
        (W.failures writer.new) result (segment_text first.entry ++
        answer_json facts (datum_of value.now)) }
{
    write_segments(
        &[
            first,
            Segment::Text(b",\"type\":\""),
            Segment::Text(type_word(value)),
            Segment::Number(b"\",\"size\":", facts.size),
            Segment::Member(b",\"error\":", error_text(value)),
            Segment::JsonEnd(facts.utc),
        ],
        writer,
    )
}

/// Writes the line of a push.
fn write_push<W: Sink>(facts: Facts, writer: &mut W) -> Result<(), DeviceFault>
    ensures { WritesText (W.written writer.old) (W.written writer.new) (W.failures writer.old)
        (W.failures writer.new) result (push_json facts) }
{
    write_segments(
        &[
            Segment::Number(b"{\"client\":", facts.client),
            Segment::Text(b",\"kind\":\"push\",\"type\":\"push"),
            Segment::Number(b"\",\"size\":", facts.size),
            Segment::JsonEnd(facts.utc),
        ],
        writer,
    )
}

/// Returns which command, reply or value is incomplete or wrong.
fn place_segment(place: Place) -> Segment<'static>
    ensures { segment_text result ≡ place_json place }
{
    match place {
        Place::Command(number) => Segment::Number(b",\"in\":\"command\",\"number\":", number),
        Place::Reply(number) => Segment::Number(b",\"in\":\"reply\",\"number\":", number),
        Place::Value => Segment::Text(b",\"in\":\"value\""),
    }
}

/// Writes the line of an error in the bytes of one side.
fn write_refused<W: Sink>(
    facts: Facts,
    name: &[u8],
    at: u64,
    place: Place,
    writer: &mut W,
) -> Result<(), DeviceFault>
    ensures { WritesText (W.written writer.old) (W.written writer.new) (W.failures writer.old)
        (W.failures writer.new) result (refused_json facts name.now at place) }
{
    write_segments(
        &[
            Segment::Number(b"{\"client\":", facts.client),
            Segment::Text(b",\"kind\":\"refused\",\"cause\":\""),
            Segment::Text(name),
            Segment::Number(b"\",\"at\":", at),
            place_segment(place),
            Segment::JsonEnd(facts.utc),
        ],
        writer,
    )
}

/// Writes the line of a result. `name` is that of the command that is answered.
pub(crate) fn write_seen_json<W: Sink>(
    facts: Facts,
    name: &[u8],
    seen: &Seen,
    writer: &mut W,
) -> Result<(), DeviceFault>
    ensures { (kept : Option ℕ) (whole : Datum) → IsKeptIn (Some 1024) kept whole seen.now →
        WritesText (W.written writer.old) (W.written writer.new) (W.failures writer.old)
        (W.failures writer.new) result (seen_json facts name.now whole seen.now) }
{
    match seen {
        Seen::Nothing | Seen::Passed => Ok(()),
        Seen::Command { number, words, .. } => write_words(facts, *number, words, writer),
        Seen::Reply { number, value } => write_reply(facts, *number, name, &value.value, writer),
        Seen::Push { .. } => write_push(facts, writer),
        Seen::Value(value) => write_unpaired(facts, &value.value, writer),
        Seen::NotCommand { number } => {
            write_refused(facts, b"NotCommand", 0, Place::Command(*number), writer)
        }
        Seen::Refused { cause, at, place } => {
            write_refused(facts, cause.name().as_bytes(), *at, *place, writer)
        }
    }
}

/// Writes the line of a command from the kept part of its words.
fn write_words<W: Sink>(
    facts: Facts,
    number: u64,
    words: &Words,
    writer: &mut W,
) -> Result<(), DeviceFault>
    ensures { WritesText (W.written writer.old) (W.written writer.new) (W.failures writer.old)
        (W.failures writer.new) result (command_json facts number (command_name words.now)
        (length words.now)) }
{
    let name = command_name(words);
    write_command(facts, number, name.as_slice(), words.len() as u64, writer)
}

/// Writes the line about a client's connection that has this kind, and this text after the name of
/// its member, such as `,"kind":"connected"` with an address after `,"from":`. Without a text there
/// is no such member. Of a text of more than 1,024 bytes only the first part is written.
///
/// # Errors
///
/// `DeviceFault` if a write fails. The first part of the line was written.
pub fn write_remark_json<'a, W: Sink>(
    client: u64,
    kind: &'a [u8],
    member: &'a [u8],
    text: &'a [u8],
    utc: u64,
    writer: &mut W,
) -> Result<(), DeviceFault>
    ensures { WritesText (W.written writer.old) (W.written writer.new) (W.failures writer.old)
        (W.failures writer.new) result (remark_json client kind.now member.now text.now utc) }
{
    write_segments(
        &[
            Segment::Number(b"{\"client\":", client),
            Segment::Text(kind),
            Segment::Member(member, text),
            Segment::JsonEnd(utc),
        ],
        writer,
    )
}

/// Returns the kind of the line about the side that has ended.
fn closed_kind(side: Side) -> &'static [u8]
    ensures { result.now ≡ closed_kind side }
{
    match side {
        Side::Client => b",\"kind\":\"closed\",\"side\":\"client\"",
        Side::Server => b",\"kind\":\"closed\",\"side\":\"server\"",
    }
}

/// Returns which command or reply is incomplete at the end of a side, if there is one.
fn cut_place(cut: Option<Cut>) -> Segment<'static>
    ensures { segment_text result ≡ cut_place cut }
{
    cut.map_or(Segment::Text(b""), |cut| place_segment(cut.place))
}

/// Writes the line about the side of a client's connection that has ended, and the incomplete
/// command or reply of that side, if there is one. A connection without a name has an empty one.
///
/// # Errors
///
/// `DeviceFault` if a write fails. The first part of the line was written.
pub fn write_closed_json<W: Sink>(
    client: u64,
    name: &[u8],
    side: Side,
    cut: Option<Cut>,
    utc: u64,
    writer: &mut W,
) -> Result<(), DeviceFault>
    ensures { WritesText (W.written writer.old) (W.written writer.new) (W.failures writer.old)
        (W.failures writer.new) result (closed_json client name.now side cut utc) }
{
    write_segments(
        &[
            Segment::Number(b"{\"client\":", client),
            Segment::Text(closed_kind(side)),
            Segment::Member(b",\"name\":", name),
            cut_place(cut),
            Segment::NumberIf(b",\"size\":", cut.map(|cut| cut.bytes)),
            Segment::JsonEnd(utc),
        ],
        writer,
    )
}

/// Writes the line about the address that is listened on.
///
/// # Errors
///
/// `DeviceFault` if a write fails. The first part of the line was written.
pub fn write_listening_json<W: Sink>(address: &[u8], writer: &mut W) -> Result<(), DeviceFault>
    ensures { WritesText (W.written writer.old) (W.written writer.new) (W.failures writer.old)
        (W.failures writer.new) result (listening_json address.now) }
{
    write_segments(
        &[
            Segment::Text(b"{\"kind\":\"listening\",\"address\":"),
            Segment::Json(address),
            Segment::Text(b"}\n"),
        ],
        writer,
    )
}
