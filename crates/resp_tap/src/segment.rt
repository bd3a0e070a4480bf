//! The segments of printed lines.

ghost use Rattle.resp_print.specs.Written.{WritesText};
ghost use Rattle.resp_tap.specs.Segments.{segment_text, segments_text};

use crate::json_line::{write_json_end, write_member};
use crate::stamp::{Stamp, write_ending};
use resp_io::device::{DeviceFault, Sink};
use resp_json::text::write_json_text;
use resp_print::text::{write_number, write_quoted, write_text};

/// A segment of a line.
#[derive(Clone, Copy)]
pub(crate) enum Segment<'a> {
    /// These bytes.
    Text(&'a [u8]),
    /// These bytes, and a number.
    Number(&'a [u8], u64),
    /// These bytes if the flag is true, and otherwise nothing.
    TextIf(bool, &'a [u8]),
    /// These bytes and a number, or nothing if the number is not known.
    NumberIf(&'a [u8], Option<u64>),
    /// A text as it is printed inside quotes.
    Quoted(&'a [u8]),
    /// The end of a line of text, with the time if there is a stamp.
    Ending(Option<Stamp>),
    /// A text as a JSON string, or as an object if it is not UTF-8.
    Json(&'a [u8]),
    /// A member of an object after these bytes, or nothing if the text is empty.
    Member(&'a [u8], &'a [u8]),
    /// The end of a line of JSON, with this time in microseconds since 1970.
    JsonEnd(u64),
}

/// Writes segments in order.
pub(crate) fn write_segments<W: Sink>(
    segments: &[Segment],
    writer: &mut W,
) -> Result<(), DeviceFault>
    ensures { WritesText (W.written writer.old) (W.written writer.new) (W.failures writer.old)
        (W.failures writer.new) result (segments_text segments.now) }
{
    for segment in segments {
        write_segment(*segment, writer)?;
    }
    Ok(())
}

/// Writes a segment.
fn write_segment<W: Sink>(segment: Segment, writer: &mut W) -> Result<(), DeviceFault>
    ensures { WritesText (W.written writer.old) (W.written writer.new) (W.failures writer.old)
        (W.failures writer.new) result (segment_text segment.entry) }
{
    match segment {
        Segment::Text(text) => write_text(writer, text),
        Segment::Number(before, number) => write_number(writer, before, number, b""),
        Segment::TextIf(true, text) => write_text(writer, text),
        Segment::NumberIf(before, Some(number)) => write_number(writer, before, number, b""),
        Segment::TextIf(false, _) | Segment::NumberIf(_, None) => Ok(()),
        Segment::Quoted(text) => write_quoted(writer, text),
        Segment::Ending(stamp) => write_ending(stamp, writer),
        Segment::Json(text) => write_json_text(writer, text),
        Segment::Member(front, text) => write_member(front, text, writer),
        Segment::JsonEnd(utc) => write_json_end(utc, writer),
    }
}
