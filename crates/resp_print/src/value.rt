//! The lines of a value, as `resp show` prints them.

ghost use Rattle.std.specs.Prelude.{◌≡◌, ◌+◌, ◌++◌, ℕ, IsOk, List, OnOk, Option, Some, suc, drop, length, map, codes, decimal};
ghost use Rattle.resp_value.specs.Cuts.{cut, cut_lengths};
ghost use Rattle.resp_value.specs.Data.{Data, Datum, data_of_list, depth, greatest_depth, in_turn};
ghost use Rattle.resp_value.specs.Data as d;
ghost use Rattle.resp_value.specs.Values.{datum_of, digits_text, is_negative, pair_data};
ghost use Rattle.resp_value.specs.declared.value.Value.TheVariants as value;
ghost use Rattle.resp_print.specs.Kept.{MembersFor, ScalarFor, TextFor, ValueFor};
ghost use Rattle.resp_print.specs.Printed.{IsScalar, Prints, annotating_front, big_word, end_line, first_line, group_lines};
ghost use Rattle.resp_print.specs.Shown.{count_text, is_cut, lines_within, member_lines_within, quoted_text, scalar_line_within, shown_part, truth_word};
ghost use Rattle.resp_print.specs.Written.{WritesText};

use crate::print_error::PrintError;
use crate::text::{is_cut, shown_part, write_indentation, write_number, write_quoted, write_text};
use resp_io::device::{DeviceFault, Sink};
use resp_value::digits::Digits;
use resp_value::value::{Members, Value};

/// Writes the lines of a value, indented by two spaces for each level.
///
/// The lines are those of `resp show`, which prints a value on level 0. With `most`, at most this
/// many bytes of each text are printed, and `..` precedes the number of bytes of a text that has
/// more. The call allocates nothing.
///
/// # Errors
///
/// - [`PrintError::Write`] if a write fails.
/// - [`PrintError::TooDeep`] if the value and the levels around it have 2^64 levels or more.
///
/// After an error the first part of the lines was written.
///
/// # Examples
///
/// From [samples](../../samples/src/printing.rt):
///
/// ```rust
/// let hits = Value::Bulk(Content::new(Vec::from_slice(alloc, b"hits")?));
/// let value = Value::Array(Members::new(vec![in alloc; hits, Value::Int(7)]?));
/// let mut text = MemorySink::new(alloc, 4_096, 4_096)?;
/// write_value(&value, 0, None, &mut text)?;
/// print!(rt; "{}", str::from_utf8(text.bytes())?)?;
/// ```
///
/// This prints:
///
/// ```text
/// array
///   bulk "hits" 4
///   int 7
/// end 2
/// ```
pub fn write_value<W: Sink>(
    value: &Value,
    level: u64,
    most: Option<usize>,
    writer: &mut W,
) -> Result<(), PrintError>
    ensures { Prints (W.written writer.old) (W.written writer.new) (W.failures writer.old)
        (W.failures writer.new) result (lines_within most level (datum_of value.now))
        (level + depth (datum_of value.now)) }
{
    let mut lengths: &[u64] = &[];
    write_lines(value, level, most, &mut lengths, writer)
}

/// Writes the lines of a value. `shown + 1` bytes of each of its texts were kept. They are the
/// lines that [`write_value`] writes for the whole value with at most `shown` bytes of each text.
/// `lengths` are the numbers of bytes of the texts that have more than `shown` bytes, in order. A
/// `CutDecoder` of `resp_decode` returns both.
///
/// # Errors
///
/// The errors of [`write_value`].
///
/// # Examples
///
/// From [samples](../../samples/src/printing.rt):
///
/// ```rust
/// let mut decoder = CutDecoder::new(alloc, Version::Two, &Limits::standard(), 5);
/// let fed = decoder.feed(b"*2\r\n$12\r\nhello, world\r\n+OK\r\n")?;
/// if let Some(CutValue { value, lengths }) = &fed.value {
///     let mut text = MemorySink::new(alloc, 4_096, 4_096)?;
///     write_cut_value(value, lengths.as_slice(), 0, 5, &mut text)?;
///     print!(rt; "{}", str::from_utf8(text.bytes())?)?;
/// }
/// ```
///
/// This prints:
///
/// ```text
/// array
///   bulk "hello" .. 12
///   simple "OK" 2
/// end 2
/// ```
pub fn write_cut_value<W: Sink>(
    value: &Value,
    lengths: &[u64],
    level: u64,
    shown: usize,
    writer: &mut W,
) -> Result<(), PrintError>
    ensures { (whole : Datum) → datum_of value.now ≡ cut shown whole →
        lengths.now ≡ cut_lengths shown whole →
        Prints (W.written writer.old) (W.written writer.new) (W.failures writer.old)
        (W.failures writer.new) result (lines_within (Some shown) level whole)
        (level + depth (datum_of value.now)) }
{
    let mut lengths = lengths;
    write_lines(value, level, Some(shown), &mut lengths, writer)
}

/// Writes the lines of a value, and drops the lengths of its texts. The lengths are those of its
/// texts and of texts after it; or there are none.
#[cycle(lines)]
fn write_lines<W: Sink>(
    value: &Value,
    level: u64,
    most: Option<usize>,
    lengths: &mut &[u64],
    writer: &mut W,
) -> Result<(), PrintError>
    ensures { (x : Datum) (rest : List ℕ) →
        ValueFor most lengths.old.now (datum_of value.now) x rest →
        Prints (W.written writer.old) (W.written writer.new) (W.failures writer.old)
        (W.failures writer.new) result (lines_within most level x)
        (level + depth (datum_of value.now)) × OnOk result (lengths.new.now ≡ rest) }
{
    match value {
        Value::Array(members) => {
            write_group(b"array\n", members.list(), level, most, lengths, writer)
        }
        Value::Set(members) => {
            write_group(b"set\n", members.list(), level, most, lengths, writer)
        }
        Value::Push(members) => {
            write_group(b"push\n", members.list(), level, most, lengths, writer)
        }
        Value::Map(pairs) => write_map(pairs.list(), level, most, lengths, writer),
        Value::Attr(pairs, annotated) => {
            let pairs = pairs.list();
            let Some(deeper) = level.checked_add(1) else {
                return Err(PrintError::TooDeep);
            };
            write_annotating(pairs, level, deeper, most, lengths, writer)?;
            write_lines(annotated, deeper, most, lengths, writer)?;
            write_end_line(level, pairs.len() as u64, writer)
        }
        _ => write_leaf(value, level, most, lengths, writer),
    }
}

/// Writes the lines of a push with these members, as [`write_value`] writes those of a value.
///
/// # Errors
///
/// The errors of [`write_value`].
pub fn write_push_value<W: Sink>(
    members: &Members,
    level: u64,
    most: Option<usize>,
    writer: &mut W,
) -> Result<(), PrintError>
    ensures { Prints (W.written writer.old) (W.written writer.new) (W.failures writer.old)
        (W.failures writer.new) result
        (lines_within most level (datum_of (value.Push members.now)))
        (level + depth (datum_of (value.Push members.now))) }
{
    let mut lengths: &[u64] = &[];
    write_group(b"push\n", members.list(), level, most, &mut lengths, writer)
}

/// Writes the lines of a push, `shown + 1` bytes of whose texts were kept, as [`write_cut_value`]
/// writes those of a value.
///
/// # Errors
///
/// The errors of [`write_value`].
pub fn write_cut_push_value<W: Sink>(
    members: &Members,
    lengths: &[u64],
    level: u64,
    shown: usize,
    writer: &mut W,
) -> Result<(), PrintError>
    ensures { (whole : Datum) → datum_of (value.Push members.now) ≡ cut shown whole →
        lengths.now ≡ cut_lengths shown whole →
        Prints (W.written writer.old) (W.written writer.new) (W.failures writer.old)
        (W.failures writer.new) result (lines_within (Some shown) level whole)
        (level + depth (datum_of (value.Push members.now))) }
{
    let mut lengths = lengths;
    write_group(
        b"push\n",
        members.list(),
        level,
        Some(shown),
        &mut lengths,
        writer,
    )
}

/// Writes the lines of an aggregate with members: its first line, the lines of the members, and its
/// last line.
#[cycle(lines)]
fn write_group<W: Sink>(
    words: &[u8],
    members: &[Value],
    level: u64,
    most: Option<usize>,
    lengths: &mut &[u64],
    writer: &mut W,
) -> Result<(), PrintError>
    ensures { (xs : Data) (rest : List ℕ) →
        MembersFor most lengths.old.now (data_of_list (map datum_of members.now)) xs
        rest →
        Prints (W.written writer.old) (W.written writer.new) (W.failures writer.old)
        (W.failures writer.new) result
        (group_lines level words.now (member_lines_within most (suc level) xs)
        (length members.now))
        (level + (greatest_depth (data_of_list (map datum_of members.now)) + 1)) ×
        OnOk result (lengths.new.now ≡ rest) }
{
    let Some(deeper) = level.checked_add(1) else {
        return Err(PrintError::TooDeep);
    };
    write_first_line(level, words, writer)?;
    write_members(members, deeper, most, lengths, writer)?;
    write_end_line(level, members.len() as u64, writer)
}

/// Writes the lines of a map.
#[cycle(lines)]
fn write_map<W: Sink>(
    pairs: &[(Value, Value)],
    level: u64,
    most: Option<usize>,
    lengths: &mut &[u64],
    writer: &mut W,
) -> Result<(), PrintError>
    ensures { (xs : Data) (rest : List ℕ) →
        MembersFor most lengths.old.now
        (data_of_list (in_turn (map pair_data pairs.now))) xs rest →
        Prints (W.written writer.old) (W.written writer.new) (W.failures writer.old)
        (W.failures writer.new) result
        (group_lines level (codes "map\n") (member_lines_within most (suc level) xs)
        (length pairs.now))
        (level + (greatest_depth (data_of_list (in_turn (map pair_data pairs.now))) + 1)) ×
        OnOk result (lengths.new.now ≡ rest) }
{
    let Some(deeper) = level.checked_add(1) else {
        return Err(PrintError::TooDeep);
    };
    write_first_line(level, b"map\n", writer)?;
    write_pairs(pairs, deeper, most, lengths, writer)?;
    write_end_line(level, pairs.len() as u64, writer)
}

/// Writes the first line of an attribute, the lines of its pairs, and the line `of`.
#[cycle(lines)]
fn write_annotating<W: Sink>(
    pairs: &[(Value, Value)],
    level: u64,
    deeper: u64,
    most: Option<usize>,
    lengths: &mut &[u64],
    writer: &mut W,
) -> Result<(), PrintError>
    ensures { (xs : Data) (rest : List ℕ) →
        MembersFor most lengths.old.now
        (data_of_list (in_turn (map pair_data pairs.now))) xs rest →
        Prints (W.written writer.old) (W.written writer.new) (W.failures writer.old)
        (W.failures writer.new) result
        (annotating_front level (member_lines_within most deeper xs))
        (deeper + greatest_depth (data_of_list (in_turn (map pair_data pairs.now)))) ×
        OnOk result (lengths.new.now ≡ rest) }
{
    write_first_line(level, b"attr\n", writer)?;
    write_pairs(pairs, deeper, most, lengths, writer)?;
    write_first_line(level, b"of\n", writer)
}

/// Writes the lines of members, one after another.
#[cycle(lines)]
fn write_members<W: Sink>(
    members: &[Value],
    level: u64,
    most: Option<usize>,
    lengths: &mut &[u64],
    writer: &mut W,
) -> Result<(), PrintError>
    ensures { (xs : Data) (rest : List ℕ) →
        MembersFor most lengths.old.now (data_of_list (map datum_of members.now)) xs
        rest →
        Prints (W.written writer.old) (W.written writer.new) (W.failures writer.old)
        (W.failures writer.new) result (member_lines_within most level xs)
        (level + greatest_depth (data_of_list (map datum_of members.now))) ×
        OnOk result (lengths.new.now ≡ rest) }
{
    for member in members {
        write_lines(member, level, most, lengths, writer)?;
    }
    Ok(())
}

/// Writes the lines of keys and values in turn.
#[cycle(lines)]
fn write_pairs<W: Sink>(
    pairs: &[(Value, Value)],
    level: u64,
    most: Option<usize>,
    lengths: &mut &[u64],
    writer: &mut W,
) -> Result<(), PrintError>
    ensures { (xs : Data) (rest : List ℕ) →
        MembersFor most lengths.old.now
        (data_of_list (in_turn (map pair_data pairs.now))) xs rest →
        Prints (W.written writer.old) (W.written writer.new) (W.failures writer.old)
        (W.failures writer.new) result (member_lines_within most level xs)
        (level + greatest_depth (data_of_list (in_turn (map pair_data pairs.now)))) ×
        OnOk result (lengths.new.now ≡ rest) }
{
    for pair in pairs {
        write_lines(&pair.0, level, most, lengths, writer)?;
        write_lines(&pair.1, level, most, lengths, writer)?;
    }
    Ok(())
}

/// Returns the result of a write as the result of printing.
fn printed(written: Result<(), DeviceFault>) -> Result<(), PrintError>
    ensures prints { (before after : Option (List ℕ)) (failures failures' : ℕ) (text : List ℕ)
        (levels : ℕ) → WritesText before after failures failures' written text →
        Prints before after failures failures' result text levels }
    ensures ok { IsOk result → IsOk written }
{
    match written {
        Ok(()) => Ok(()),
        Err(_) => Err(PrintError::Write),
    }
}

/// Writes the first line of an aggregate.
fn write_first_line<W: Sink>(level: u64, words: &[u8], writer: &mut W) -> Result<(), PrintError>
    ensures { Prints (W.written writer.old) (W.written writer.new) (W.failures writer.old)
        (W.failures writer.new) result (first_line level words.now) 0 }
{
    printed(write_indented(level, words, writer))
}

/// Writes words, indented by two spaces for each level.
fn write_indented<W: Sink>(level: u64, words: &[u8], writer: &mut W) -> Result<(), DeviceFault>
    ensures { WritesText (W.written writer.old) (W.written writer.new) (W.failures writer.old)
        (W.failures writer.new) result (first_line level words.now) }
{
    write_indentation(writer, level)?;
    write_text(writer, words)
}

/// Writes the last line of an aggregate with this many members or pairs.
fn write_end_line<W: Sink>(level: u64, items: u64, writer: &mut W) -> Result<(), PrintError>
    ensures { Prints (W.written writer.old) (W.written writer.new) (W.failures writer.old)
        (W.failures writer.new) result (end_line level items) 0 }
{
    printed(write_end(level, items, writer))
}

/// Writes the word `end`, indented by two spaces for each level, a number, and LF.
fn write_end<W: Sink>(level: u64, items: u64, writer: &mut W) -> Result<(), DeviceFault>
    ensures { WritesText (W.written writer.old) (W.written writer.new) (W.failures writer.old)
        (W.failures writer.new) result (end_line level items) }
{
    write_indentation(writer, level)?;
    write_number(writer, b"end ", items, b"\n")
}

/// Writes the line of a value without members, as a part of printing. For another value it writes
/// no line.
fn write_leaf<W: Sink>(
    value: &Value,
    level: u64,
    most: Option<usize>,
    lengths: &mut &[u64],
    writer: &mut W,
) -> Result<(), PrintError>
    ensures { IsScalar (datum_of value.now) → (x : Datum) (rest : List ℕ) →
        ValueFor most lengths.old.now (datum_of value.now) x rest →
        Prints (W.written writer.old) (W.written writer.new) (W.failures writer.old)
        (W.failures writer.new) result (lines_within most level x)
        (level + depth (datum_of value.now)) × OnOk result (lengths.new.now ≡ rest) }
{
    printed(write_scalar(value, level, most, lengths, writer))
}

/// Writes the line of a value without members. For another value it writes no line.
fn write_scalar<W: Sink>(
    value: &Value,
    level: u64,
    most: Option<usize>,
    lengths: &mut &[u64],
    writer: &mut W,
) -> Result<(), DeviceFault>
    ensures { IsScalar (datum_of value.now) → (x : Datum) (rest : List ℕ) →
        ValueFor most lengths.old.now (datum_of value.now) x rest →
        WritesText (W.written writer.old) (W.written writer.new) (W.failures writer.old)
        (W.failures writer.new) result (lines_within most level x) ×
        OnOk result (lengths.new.now ≡ rest) }
{
    write_indentation(writer, level)?;
    write_scalar_line(value, most, lengths, writer)
}

/// Writes the line of a value without members, on level 0.
fn write_scalar_line<W: Sink>(
    value: &Value,
    most: Option<usize>,
    lengths: &mut &[u64],
    writer: &mut W,
) -> Result<(), DeviceFault>
    ensures { (s : d.Scalar) → datum_of value.now ≡ d.scalar s → (whole : d.Scalar)
        (rest : List ℕ) → ScalarFor most lengths.old.now s whole rest →
        WritesText (W.written writer.old) (W.written writer.new) (W.failures writer.old)
        (W.failures writer.new) result (scalar_line_within most whole) ×
        OnOk result (lengths.new.now ≡ rest) }
{
    match value {
        Value::Null => write_text(writer, b"null\n"),
        Value::Bool(truth) => write_text(writer, truth_line(*truth)),
        Value::Int(number) => write_number(writer, b"int ", *number, b"\n"),
        Value::Simple(line) => {
            write_kept_string(b"simple \"", line.text(), most, lengths, writer)
        }
        Value::Error(line) => { write_kept_string(b"error \"", line.text(), most, lengths, writer) }
        Value::Double(double) => {
            // (a double is kept whole, so its number of bytes is none of the lengths)
            let text = double.text();
            write_string(b"double \"", text, most, text.len() as u64, writer)
        }
        Value::Bulk(content) => {
            write_kept_string(b"bulk \"", content.list(), most, lengths, writer)
        }
        Value::BulkError(content) => {
            write_kept_string(b"bulkerror \"", content.list(), most, lengths, writer)
        }
        Value::Verbatim(format, text) => {
            write_verbatim(format, text.list(), most, lengths, writer)
        }
        Value::Big(digits) => write_big(digits, writer),
        _ => Ok(()),
    }
}

/// Returns the line of a boolean.
fn truth_line(truth: bool) -> &'static [u8]
    ensures { result.now ≡ truth_word truth ++ codes "\n" }
{
    if truth { b"true\n" } else { b"false\n" }
}

/// Returns the number of bytes that a text had. If only the first bytes of the text were kept, this
/// is the next of the lengths, which is dropped.
fn full_length(text: &[u8], most: Option<usize>, lengths: &mut &[u64]) -> u64
    ensures { (whole rest : List ℕ) → TextFor most lengths.old.now text.now whole rest →
        (result ≡ length whole) × (lengths.new.now ≡ rest) }
{
    match lengths.split_first() {
        Some((length, rest)) if is_cut(text, most) => {
            *lengths = rest;
            *length
        }
        _ => text.len() as u64,
    }
}

/// Writes a word and a quote, the part of a text that is printed, and the number of bytes that the
/// text had.
fn write_kept_string<W: Sink>(
    word: &[u8],
    text: &[u8],
    most: Option<usize>,
    lengths: &mut &[u64],
    writer: &mut W,
) -> Result<(), DeviceFault>
    ensures { (whole rest : List ℕ) → TextFor most lengths.old.now text.now whole rest →
        WritesText (W.written writer.old) (W.written writer.new) (W.failures writer.old)
        (W.failures writer.new) result (word.now ++ (quoted_text (shown_part most whole) ++
        (codes "\" " ++ count_text most (length whole) ++ codes "\n"))) ×
        OnOk result (lengths.new.now ≡ rest) }
{
    let count = full_length(text, most, lengths);
    write_string(word, text, most, count, writer)
}

/// Writes a word and a quote, the part of a text that is printed, and a number of bytes.
fn write_string<W: Sink>(
    word: &[u8],
    text: &[u8],
    most: Option<usize>,
    count: u64,
    writer: &mut W,
) -> Result<(), DeviceFault>
    ensures { WritesText (W.written writer.old) (W.written writer.new) (W.failures writer.old)
        (W.failures writer.new) result (word.now ++ (quoted_text (shown_part most text.now) ++
        (codes "\" " ++ count_text most count ++ codes "\n"))) }
{
    write_text(writer, word)?;
    write_quoted(writer, shown_part(text, most))?;
    write_count(count, most, writer)
}

/// Writes the quote after a text, the number of the text's bytes, and LF. If not all of them were
/// printed, `..` precedes the number.
fn write_count<W: Sink>(count: u64, most: Option<usize>, writer: &mut W) -> Result<(), DeviceFault>
    ensures { WritesText (W.written writer.old) (W.written writer.new) (W.failures writer.old)
        (W.failures writer.new) result
        (codes "\" " ++ count_text most count ++ codes "\n") }
{
    if is_over(count, most) {
        write_number(writer, b"\" .. ", count, b"\n")
    } else {
        write_number(writer, b"\" ", count, b"\n")
    }
}

/// Returns whether a text of this many bytes has more than are printed of it.
fn is_over(count: u64, most: Option<usize>) -> bool
    ensures { result ≡ is_cut most count }
{
    match most {
        Some(most) => (most as u64) < count,
        None => false,
    }
}

/// Writes the line of a verbatim string.
fn write_verbatim<W: Sink>(
    format: &[u8; 3],
    text: &[u8],
    most: Option<usize>,
    lengths: &mut &[u64],
    writer: &mut W,
) -> Result<(), DeviceFault>
    ensures { (whole rest : List ℕ) → TextFor most lengths.old.now text.now whole rest →
        WritesText (W.written writer.old) (W.written writer.new) (W.failures writer.old)
        (W.failures writer.new) result (codes "verbatim \"" ++ (quoted_text format.now ++
        (codes "\" \"" ++ (quoted_text (shown_part most whole) ++
        (codes "\" " ++ count_text most (length whole) ++ codes "\n"))))) ×
        OnOk result (lengths.new.now ≡ rest) }
{
    write_text(writer, b"verbatim \"")?;
    write_quoted(writer, format)?;
    write_kept_string(b"\" \"", text, most, lengths, writer)
}

/// Writes the line of a big number.
fn write_big<W: Sink>(digits: &Digits, writer: &mut W) -> Result<(), DeviceFault>
    ensures { WritesText (W.written writer.old) (W.written writer.new) (W.failures writer.old)
        (W.failures writer.new) result (big_word (is_negative digits.now) ++
        (digits_text digits.now ++ codes "\n")) }
{
    let word = big_word(digits.is_negative());
    write_text(writer, word)?;
    write_text(writer, digits.digits())?;
    write_text(writer, b"\n")
}

/// Returns the words before the digits of a big number.
fn big_word(is_negative: bool) -> &'static [u8]
    ensures { result.now ≡ big_word is_negative }
{
    if is_negative { b"big -" } else { b"big " }
}
