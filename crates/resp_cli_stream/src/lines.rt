//! The lines that `show` writes for events as they arrive.

ghost use Rattle.std.specs.Prelude.{◌≡◌, ◌≤◌, ◌<◌, ◌+◌, ◌^◌, ◌==◌, ◌++◌, [], ◌∷◌, length, reverse, codes};
ghost use Rattle.resp_fronts.specs.Events as e;
ghost use Rattle.resp_value.specs.Data.{items_of};
ghost use Rattle.resp_value.specs.Kinds.{kind_of};
ghost use Rattle.resp_scan.specs.Kinds.{content_events, text_kind_of};
ghost use Rattle.resp_scan.specs.Listening.{whole_text_events};
ghost use Rattle.resp_cli_stream.specs.Lines.{size_of_text};
ghost use Rattle.resp_cli_stream.specs.Pages.{end_of_text, is_big, last_line, of_line, text_line, text_words, with_bytes};
ghost use Rattle.resp_print.specs.Shown.{indentation, kind_word, quoted_text, truth_word};
ghost use Rattle.resp_print.specs.Written.{WritesText};

use crate::short_line::make_line;
use arrayvec::ArrayVec;
use resp_io::device::{DeviceFault, Sink};
use resp_print::text::{write_indentation, write_number, write_quoted, write_text};
use resp_scan::event::TextKind;
use resp_value::kind::OpenKind;

/// An aggregate whose first line was written, and whose last line was not.
#[derive(Clone, Copy, Debug, PartialEq, Eq)]
struct OpenLine {
    kind: OpenKind,
    /// The number in its head.
    count: Option<u64>,
    /// The number of its members that were written completely.
    members: u64,
}

/// A text that was begun on a line.
#[derive(Clone, Copy, Debug, PartialEq, Eq)]
struct OpenText {
    is_big: bool,
    /// The number of its bytes that were written.
    size: u64,
}

/// The state of the lines: the open aggregates, and the text that was begun.
///
/// A call that writes fails with `DeviceFault` if a write fails. Then the first part of its text
/// was written.
#[derive(Debug, Drop)]
pub struct Lines {
    /// The open aggregates, the innermost last. There are never more than the greatest limit of
    /// depth.
    aggregates: ArrayVec<OpenLine, 128>,
    text: Option<OpenText>,
}

impl Default for OpenLine {
    fn default() -> OpenLine {
        OpenLine {
            kind: OpenKind::Array,
            count: None,
            members: 0,
        }
    }
}

impl Lines {
    ghost use Rattle.resp_cli_stream.specs.Lines.{HasRoomFor, innermost, page_of};
    ghost use Rattle.resp_cli_stream.specs.Pages.{beginning, blank, end_of_line, with_value};
    ghost use Rattle.resp_cli_stream.specs.Printing.{WritesEvents};

    /// Returns the state before the first event.
    pub fn new() -> Lines
        ensures { page_of result ≡ blank }
    {
        Lines {
            aggregates: ArrayVec::new(),
            text: None,
        }
    }

    /// Writes LF if a line is incomplete.
    pub fn end_line<W: Sink>(&self, writer: &mut W) -> Result<(), DeviceFault>
        ensures { WritesText (W.written writer.old) (W.written writer.new)
            (W.failures writer.old) (W.failures writer.new) result
            (end_of_line (page_of self.now).text) }
    {
        match self.text {
            Some(_) => write_text(writer, b"\n"),
            None => write_text(writer, b""),
        }
    }

    /// Writes the beginning of a value's line, and these words.
    fn begin<W: Sink>(&self, words: &[u8], writer: &mut W) -> Result<(), DeviceFault>
        ensures { WritesText (W.written writer.old) (W.written writer.new)
            (W.failures writer.old) (W.failures writer.new) result
            (beginning (page_of self.now) ++ words.now) }
    {
        self.begin_line(writer)?;
        write_text(writer, words)
    }

    /// Writes the beginning of a value's line: the indentation, and before it the line `of` if an
    /// attribute belongs to the value.
    #[inline(always)]
    fn begin_line<W: Sink>(&self, writer: &mut W) -> Result<(), DeviceFault>
        ensures { WritesText (W.written writer.old) (W.written writer.new)
            (W.failures writer.old) (W.failures writer.new) result (beginning (page_of self.now)) }
    {
        // Most values are in no aggregate.
        if self.aggregates.is_empty() {
            return Ok(());
        }
        let level = self.level();
        self.write_of(writer)?;
        write_indentation(writer, level as u64)
    }

    /// Returns the innermost open aggregate.
    fn innermost(&self) -> Option<OpenLine>
        ensures { result ≡ innermost (reverse self.now.aggregates.items) }
    {
        self.aggregates.as_slice().last().copied()
    }

    /// Returns the number of open aggregates.
    fn level(&self) -> usize
        ensures value { result ≡ length (page_of self.now).open_lines }
        ensures few { result ≤ 128 }
    {
        self.aggregates.len()
    }

    /// Writes the line `of` if an attribute has all its pairs.
    fn write_of<W: Sink>(&self, writer: &mut W) -> Result<(), DeviceFault>
        ensures { WritesText (W.written writer.old) (W.written writer.new)
            (W.failures writer.old) (W.failures writer.new) result
            (of_line (page_of self.now).open_lines) }
    {
        let level = self.level().saturating_sub(1);
        match self.innermost() {
            Some(line) if line.is_full() => write_indented(writer, level, b"of\n"),
            _ => write_text(writer, b""),
        }
    }

    /// Counts a value that was written completely, as one more member of the innermost aggregate.
    fn end(&mut self)
        ensures { HasRoomFor 1 (page_of self.old) →
            page_of self.new ≡ with_value (page_of self.old) }
    {
        if !self.aggregates.is_empty() {
            let last = self.aggregates.len() - 1;
            let members = self.aggregates.as_slice()[last].members.saturating_add(1);
            self.aggregates.as_mut_slice()[last].members = members;
        }
    }

    /// Writes a null.
    pub fn null<W: Sink>(&mut self, writer: &mut W) -> Result<(), DeviceFault>
        ensures { WritesEvents self.old self.new (W.written writer.old) (W.written writer.new)
            (W.failures writer.old) (W.failures writer.new) result (e.Null ∷ []) }
    {
        self.begin(b"null\n", writer)?;
        self.end();
        Ok(())
    }

    /// Writes a boolean.
    pub fn truth<W: Sink>(&mut self, truth: bool, writer: &mut W) -> Result<(), DeviceFault>
        ensures { WritesEvents self.old self.new (W.written writer.old) (W.written writer.new)
            (W.failures writer.old) (W.failures writer.new) result (e.Bool truth ∷ []) }
    {
        self.begin(truth_line(truth), writer)?;
        self.end();
        Ok(())
    }

    /// Writes an integer.
    pub fn int<W: Sink>(&mut self, number: i64, writer: &mut W) -> Result<(), DeviceFault>
        ensures { WritesEvents self.old self.new (W.written writer.old) (W.written writer.new)
            (W.failures writer.old) (W.failures writer.new) result (e.Int number ∷ []) }
    {
        self.begin_line(writer)?;
        write_number(writer, b"int ", number, b"\n")?;
        self.end();
        Ok(())
    }

    /// Writes the beginning of a text.
    pub fn text<W: Sink>(&mut self, kind: TextKind, writer: &mut W) -> Result<(), DeviceFault>
        ensures { WritesEvents self.old self.new (W.written writer.old) (W.written writer.new)
            (W.failures writer.old) (W.failures writer.new) result
            (e.Text (text_kind_of kind) ∷ []) }
    {
        self.begin_line(writer)?;
        write_head(writer, kind)?;
        self.text = Some(OpenText {
            is_big: is_big(kind),
            size: 0,
        });
        Ok(())
    }

    /// Writes a part of the text's bytes.
    pub fn part<W: Sink>(&mut self, part: &[u8], writer: &mut W) -> Result<(), DeviceFault>
        ensures { WritesEvents self.old self.new (W.written writer.old) (W.written writer.new)
            (W.failures writer.old) (W.failures writer.new) result (content_events part.now) }
    {
        write_quoted(writer, part)?;
        self.text = longer(self.text, part.len() as u64);
        Ok(())
    }

    /// Writes the end of the text.
    pub fn text_end<W: Sink>(&mut self, writer: &mut W) -> Result<(), DeviceFault>
        ensures { WritesEvents self.old self.new (W.written writer.old) (W.written writer.new)
            (W.failures writer.old) (W.failures writer.new) result (e.TextEnd ∷ []) }
    {
        write_end(writer, self.text)?;
        self.text = None;
        self.end();
        Ok(())
    }

    /// Writes a complete text.
    pub fn whole_text<W: Sink>(
        &mut self,
        kind: TextKind,
        bytes: &[u8],
        writer: &mut W,
    ) -> Result<(), DeviceFault>
        ensures { WritesEvents self.old self.new (W.written writer.old) (W.written writer.new)
            (W.failures writer.old) (W.failures writer.new) result
            (whole_text_events kind bytes.now) }
    {
        self.begin_line(writer)?;
        write_text_line(writer, kind, bytes)?;
        self.text = None;
        self.end();
        Ok(())
    }

    /// Writes the beginning of an aggregate.
    pub fn open<W: Sink>(
        &mut self,
        kind: OpenKind,
        count: Option<u64>,
        writer: &mut W,
    ) -> Result<(), DeviceFault>
        ensures { WritesEvents self.old self.new (W.written writer.old) (W.written writer.new)
            (W.failures writer.old) (W.failures writer.new) result
            (e.Open (kind_of kind) count ∷ []) }
    {
        self.begin(kind_line(kind), writer)?;
        // No value needs more room than there is.
        let _ = self.aggregates.try_push(OpenLine {
            kind,
            count,
            members: 0,
        });
        Ok(())
    }

    /// Writes the end of the innermost aggregate.
    pub fn close<W: Sink>(&mut self, writer: &mut W) -> Result<(), DeviceFault>
        ensures { WritesEvents self.old self.new (W.written writer.old) (W.written writer.new)
            (W.failures writer.old) (W.failures writer.new) result (e.Close ∷ []) }
    {
        self.write_last(writer)?;
        let _ = self.aggregates.pop();
        self.end();
        Ok(())
    }

    /// Writes the last line of the innermost aggregate.
    fn write_last<W: Sink>(&self, writer: &mut W) -> Result<(), DeviceFault>
        ensures { WritesText (W.written writer.old) (W.written writer.new)
            (W.failures writer.old) (W.failures writer.new) result
            (last_line (page_of self.now).open_lines) }
    {
        let Some(line) = self.innermost() else {
            return Ok(());
        };
        let level = self.level().saturating_sub(1);
        write_indentation(writer, level as u64)?;
        write_number(writer, b"end ", line.items(), b"\n")
    }
}

impl OpenLine {
    ghost use Rattle.resp_cli_stream.specs.Pages.{has_all_pairs};

    /// Returns whether an attribute has all its pairs, so that the value that it belongs to comes
    /// next.
    fn is_full(&self) -> bool
        ensures { result ≡ has_all_pairs (kind_of self.now.kind) self.now.count self.now.members }
    {
        match (self.kind, self.count) {
            (OpenKind::Attr, Some(pairs)) => self.members.checked_sub(pairs) == Some(pairs),
            _ => false,
        }
    }

    /// Returns the number of members, or of pairs.
    fn items(&self) -> u64
        ensures { result ≡ items_of (kind_of self.now.kind) self.now.members }
    {
        match self.kind {
            OpenKind::Map | OpenKind::Attr => self.members / 2,
            OpenKind::Array | OpenKind::Set | OpenKind::Push => self.members,
        }
    }
}

/// Writes the line of a complete text, after the indentation.
#[inline(always)]
fn write_text_line<W: Sink>(writer: &mut W, kind: TextKind, bytes: &[u8]) -> Result<(), DeviceFault>
    ensures { WritesText (W.written writer.old) (W.written writer.new) (W.failures writer.old)
        (W.failures writer.new) result (text_line (text_kind_of kind) bytes.now) }
{
    let mut line = ArrayVec::new();
    if make_line(&mut line, kind, bytes) {
        return write_text(writer, line.as_slice());
    }
    write_long_line(writer, kind, bytes)
}

/// Writes the line of a complete text in several parts.
fn write_long_line<W: Sink>(writer: &mut W, kind: TextKind, bytes: &[u8]) -> Result<(), DeviceFault>
    ensures { WritesText (W.written writer.old) (W.written writer.new) (W.failures writer.old)
        (W.failures writer.new) result (text_line (text_kind_of kind) bytes.now) }
{
    write_head(writer, kind)?;
    write_quoted(writer, bytes)?;
    let text = OpenText {
        is_big: is_big(kind),
        size: bytes.len() as u64,
    };
    write_end(writer, Some(text))
}

/// Writes the words before a text's content.
fn write_head<W: Sink>(writer: &mut W, kind: TextKind) -> Result<(), DeviceFault>
    ensures { WritesText (W.written writer.old) (W.written writer.new) (W.failures writer.old)
        (W.failures writer.new) result (text_words (text_kind_of kind)) }
{
    match kind {
        TextKind::Simple => write_text(writer, b"simple \""),
        TextKind::Error => write_text(writer, b"error \""),
        TextKind::Double => write_text(writer, b"double \""),
        TextKind::Bulk => write_text(writer, b"bulk \""),
        TextKind::BulkError => write_text(writer, b"bulkerror \""),
        TextKind::Verbatim(format) => write_format(writer, &format),
        TextKind::Big { negative: true } => write_text(writer, b"big -"),
        TextKind::Big { negative: false } => write_text(writer, b"big "),
    }
}

/// Writes the words before a verbatim string's content.
fn write_format<W: Sink>(writer: &mut W, format: &[u8]) -> Result<(), DeviceFault>
    ensures { WritesText (W.written writer.old) (W.written writer.new) (W.failures writer.old)
        (W.failures writer.new) result
        (codes "verbatim \"" ++ quoted_text format.now ++ codes "\" \"") }
{
    write_text(writer, b"verbatim \"")?;
    write_quoted(writer, format)?;
    write_text(writer, b"\" \"")
}

/// Writes two spaces for each level, and a line.
fn write_indented<W: Sink>(writer: &mut W, level: usize, line: &[u8]) -> Result<(), DeviceFault>
    requires { level ≤ 128 }
    ensures { WritesText (W.written writer.old) (W.written writer.new) (W.failures writer.old)
        (W.failures writer.new) result (indentation level ++ line.now) }
{
    write_indentation(writer, level as u64)?;
    write_text(writer, line)
}

/// Returns whether the text is a big number.
fn is_big(kind: TextKind) -> bool
    ensures { result ≡ is_big (text_kind_of kind) }
{
    matches!(kind, TextKind::Big { .. })
}

/// Returns the first line of an aggregate.
fn kind_line(kind: OpenKind) -> &'static [u8]
    ensures { result.now ≡ kind_word (kind_of kind) ++ codes "\n" }
{
    match kind {
        OpenKind::Array => b"array\n",
        OpenKind::Set => b"set\n",
        OpenKind::Map => b"map\n",
        OpenKind::Attr => b"attr\n",
        OpenKind::Push => b"push\n",
    }
}

/// Returns the line of a boolean.
fn truth_line(truth: bool) -> &'static [u8]
    ensures { result.now ≡ truth_word truth ++ codes "\n" }
{
    if truth { b"true\n" } else { b"false\n" }
}

/// Returns the text with `bytes` more bytes.
fn longer(text: Option<OpenText>, bytes: u64) -> Option<OpenText>
    ensures { size_of_text text + bytes < 2 ^ 64 → result ≡ with_bytes bytes text }
{
    match text {
        Some(text) => Some(OpenText {
            is_big: text.is_big,
            size: text.size.saturating_add(bytes),
        }),
        None => None,
    }
}

/// Writes the end of a text's line.
fn write_end<W: Sink>(writer: &mut W, text: Option<OpenText>) -> Result<(), DeviceFault>
    ensures { WritesText (W.written writer.old) (W.written writer.new) (W.failures writer.old)
        (W.failures writer.new) result (end_of_text text) }
{
    match text {
        Some(text) => {
            if !text.is_big {
                write_number(writer, b"\" ", text.size, b"\n")
            } else if text.size == 0 {
                write_text(writer, b"0\n")
            } else {
                write_text(writer, b"\n")
            }
        }
        None => write_text(writer, b""),
    }
}
