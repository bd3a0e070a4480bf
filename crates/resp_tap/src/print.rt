//! The lines of commands, replies and pushes, as `resp tap` prints them.

ghost use Rattle.std.specs.Prelude.{◌+◌, ◌++◌, ◌≡◌, [], ℕ, List, Option, Some, length};
ghost use Rattle.resp_print.specs.Printed.{Prints};
ghost use Rattle.resp_print.specs.Written.{WritesText};
ghost use Rattle.resp_value.specs.Data.{Datum, depth};
ghost use Rattle.resp_value.specs.Values.{datum_of};
ghost use Rattle.resp_value.specs.declared.value.Value.TheVariants as value;
ghost use Rattle.resp_print.specs.Shown.{lines_within};
ghost use Rattle.resp_tap.specs.Parts.{AreKeptOf, IsKeptOf, cut_within, length_within, lengths_within, word_within};
ghost use Rattle.resp_tap.specs.SeenOf.{IsKeptIn};
ghost use Rattle.resp_tap.specs.Segments.{segment_text};
ghost use Rattle.resp_tap.specs.Secrets.{printed_words, redacted_after, shown_word};
ghost use Rattle.resp_tap.specs.Stamps.{ending_text};
ghost use Rattle.resp_tap.specs.Texts.{IsPrintedAs, client_line, command_text, heading, levels_of, line_words, numbered_line, place_text, push_text, refusal_text, refused_text, remark_text, reply_text, seen_text, value_text, word_end, word_text, words_line, words_text};

use crate::secrets::Secrets;
use crate::seen::{Place, Seen};
use crate::segment::{Segment, write_segments};
use crate::shown_part::ShownPart;
use crate::stamp::Stamp;
use crate::tap::Tap;
use resp_io::device::{DeviceFault, Sink};
use resp_print::print_error::PrintError;
use resp_print::text::{is_cut, shown_part, write_text};
use resp_print::value::{write_cut_push_value, write_cut_value, write_push_value, write_value};
use resp_session::words::Words;
use resp_value::CutValue;
use resp_value::value::Members;

/// How the traffic of a client is printed.
#[derive(Clone, Copy, Debug, PartialEq, Eq)]
pub struct Printing {
    /// The number of the client, from 1.
    pub client: u64,
    /// Whether passwords and other secret words of commands are printed. If not, `(redacted)` is
    /// printed in place of each.
    pub shows_passwords: bool,
}

/// How the results of a client are printed by a tap.
#[derive(Clone, Copy, Debug, PartialEq, Eq)]
pub struct TextOptions {
    /// The number of the client, from 1.
    pub client: u64,
    /// Whether passwords and other secret words of commands are printed.
    pub shows_passwords: bool,
    /// How many bytes of a word or of a text are printed. A longer one is followed by `..` and the
    /// number of its bytes. The results have to be those of a tap that shows as many bytes.
    pub shown: ShownPart,
    /// How many bytes of each word of a command are kept, not counting one additional byte.
    pub kept: ShownPart,
}

impl Tap {
    ghost use Rattle.resp_tap.specs.Options.{options_of};

    /// Returns how results of this tap are printed.
    pub fn options(&self, printing: Printing) -> TextOptions
        ensures { result ≡ options_of printing self.now }
    {
        TextOptions {
            client: printing.client,
            shows_passwords: printing.shows_passwords,
            shown: self.values.shown,
            kept: self.requests.shown,
        }
    }
}

/// Writes the lines of `seen`. Replies and pushes are printed as `resp loop` prints them, if all
/// their bytes are printed. `is_line` says whether a command was sent as a line. With a stamp, the
/// first line ends with the time.
///
/// # Errors
///
/// Fails as [`write_value`] does. The first part of the text was written.
pub fn write_seen<W: Sink>(
    options: TextOptions,
    is_line: bool,
    stamp: Option<Stamp>,
    seen: &Seen,
    writer: &mut W,
) -> Result<(), PrintError>
    ensures { (whole : Datum) → IsKeptIn options.shown.most options.kept.most whole seen.now →
        Prints (W.written writer.old) (W.written writer.new) (W.failures writer.old)
        (W.failures writer.new) result (seen_text options is_line stamp whole seen.now)
        (levels_of seen.now) }
{
    match seen {
        Seen::Nothing | Seen::Passed => Ok(()),
        Seen::Command {
            number,
            words,
            lengths,
        } => {
            let lengths = lengths.as_slice();
            let number = *number;
            printed(write_command(options, number, is_line, stamp, words, lengths, writer))
        }
        Seen::Reply { number, value } => write_reply(options, *number, stamp, value, writer),
        Seen::Push { members, lengths } => {
            write_push(options, stamp, members, lengths.as_slice(), writer)
        }
        Seen::Value(value) => write_unpaired(options, stamp, value, writer),
        Seen::NotCommand { .. } | Seen::Refused { .. } => {
            printed(write_refused(options.client, stamp, seen, writer))
        }
    }
}

/// Writes the line of a result if it is an error.
pub(crate) fn write_refused<W: Sink>(
    client: u64,
    stamp: Option<Stamp>,
    seen: &Seen,
    writer: &mut W,
) -> Result<(), DeviceFault>
    ensures { WritesText (W.written writer.old) (W.written writer.new) (W.failures writer.old)
        (W.failures writer.new) result (refused_text client stamp seen.now) }
{
    match seen {
        Seen::NotCommand { number } => {
            let place = Place::Command(*number);
            write_refusal(client, b"NotCommand", 0, place, stamp, writer)
        }
        Seen::Refused { cause, at, place } => {
            let name = cause.name().as_bytes();
            write_refusal(client, name, *at, *place, stamp, writer)
        }
        _ => Ok(()),
    }
}

/// Returns the result of a write as the result of printing.
pub(crate) fn printed(written: Result<(), DeviceFault>) -> Result<(), PrintError>
    ensures { (before after : Option (List ℕ)) (failures failures' : ℕ) (text : List ℕ)
        (levels : ℕ) → WritesText before after failures failures' written text →
        Prints before after failures failures' result text levels }
{
    match written {
        Ok(()) => Ok(()),
        Err(_) => Err(PrintError::Write),
    }
}

/// Writes the reply to a command, after its heading.
fn write_reply<W: Sink>(
    options: TextOptions,
    number: u64,
    stamp: Option<Stamp>,
    kept: &CutValue,
    writer: &mut W,
) -> Result<(), PrintError>
    ensures { (whole : Datum) → IsKeptOf options.shown.most whole kept.now →
        Prints (W.written writer.old) (W.written writer.new) (W.failures writer.old)
        (W.failures writer.new) result (reply_text options number stamp whole)
        (1 + depth (datum_of kept.now.value)) }
{
    match write_numbered_line(options.client, b" reply ", number, b"", stamp, writer) {
        Ok(()) => write_kept(kept, options.shown, writer),
        Err(_) => Err(PrintError::Write),
    }
}

/// Writes the lines of a value. One byte more of each of its texts was kept than is shown.
fn write_kept<W: Sink>(kept: &CutValue, shown: ShownPart, writer: &mut W) -> Result<(), PrintError>
    ensures { (whole : Datum) → IsKeptOf shown.most whole kept.now →
        Prints (W.written writer.old) (W.written writer.new) (W.failures writer.old)
        (W.failures writer.new) result (lines_within shown.most 1 whole)
        (1 + depth (datum_of kept.now.value)) }
{
    match shown.most {
        Some(most) => write_cut_value(&kept.value, kept.lengths.as_slice(), 1, most, writer),
        None => write_value(&kept.value, 1, None, writer),
    }
}

/// Writes a push, after its heading.
fn write_push<W: Sink>(
    options: TextOptions,
    stamp: Option<Stamp>,
    members: &Members,
    lengths: &[u64],
    writer: &mut W,
) -> Result<(), PrintError>
    ensures { (whole : Datum) →
        datum_of (value.Push members.now) ≡ cut_within options.shown.most whole →
        lengths.now ≡ lengths_within options.shown.most whole →
        Prints (W.written writer.old) (W.written writer.new) (W.failures writer.old)
        (W.failures writer.new) result (push_text options stamp whole)
        (1 + depth (datum_of (value.Push members.now))) }
{
    match write_client_line(options.client, b" push", stamp, writer) {
        Ok(()) => write_kept_push(members, lengths, options.shown, writer),
        Err(_) => Err(PrintError::Write),
    }
}

/// Writes the lines of a push. One byte more of each of its texts was kept than is shown.
fn write_kept_push<W: Sink>(
    members: &Members,
    lengths: &[u64],
    shown: ShownPart,
    writer: &mut W,
) -> Result<(), PrintError>
    ensures { (whole : Datum) → datum_of (value.Push members.now) ≡ cut_within shown.most whole →
        lengths.now ≡ lengths_within shown.most whole →
        Prints (W.written writer.old) (W.written writer.new) (W.failures writer.old)
        (W.failures writer.new) result (lines_within shown.most 1 whole)
        (1 + depth (datum_of (value.Push members.now))) }
{
    match shown.most {
        Some(most) => write_cut_push_value(members, lengths, 1, most, writer),
        None => write_push_value(members, 1, None, writer),
    }
}

/// Writes a value that is paired with no command, after its heading.
fn write_unpaired<W: Sink>(
    options: TextOptions,
    stamp: Option<Stamp>,
    kept: &CutValue,
    writer: &mut W,
) -> Result<(), PrintError>
    ensures { (whole : Datum) → IsKeptOf options.shown.most whole kept.now →
        Prints (W.written writer.old) (W.written writer.new) (W.failures writer.old)
        (W.failures writer.new) result (value_text options stamp whole)
        (1 + depth (datum_of kept.now.value)) }
{
    match write_client_line(options.client, b" value", stamp, writer) {
        Ok(()) => write_kept(kept, options.shown, writer),
        Err(_) => Err(PrintError::Write),
    }
}

/// Returns the text ` inline` for a command that the client sent as a line, and an empty text for
/// any other command.
fn line_words(is_line: bool) -> &'static [u8]
    ensures { result.now ≡ line_words is_line }
{
    if is_line { b" inline" } else { b"" }
}

/// Writes the number of a command, and whether it was sent as a line.
pub(crate) fn write_heading<W: Sink>(
    client: u64,
    number: u64,
    is_line: bool,
    stamp: Option<Stamp>,
    writer: &mut W,
) -> Result<(), DeviceFault>
    ensures { WritesText (W.written writer.old) (W.written writer.new) (W.failures writer.old)
        (W.failures writer.new) result (heading is_line client number stamp) }
{
    let words = line_words(is_line);
    write_numbered_line(client, b" command ", number, words, stamp, writer)
}

/// Writes the number of a command, and its words on the next line.
fn write_command<W: Sink>(
    options: TextOptions,
    number: u64,
    is_line: bool,
    stamp: Option<Stamp>,
    words: &Words,
    lengths: &[u64],
    writer: &mut W,
) -> Result<(), DeviceFault>
    ensures { (whole : List (List ℕ)) →
        AreKeptOf options.shown.most options.kept.most whole words.now lengths.now →
        WritesText (W.written writer.old) (W.written writer.new) (W.failures writer.old)
        (W.failures writer.new) result (command_text options number is_line stamp whole) }
{
    write_heading(options.client, number, is_line, stamp, writer)?;
    write_words_line(options, words, lengths, writer)
}

/// Returns which words of a command are secret and not printed, given the kept part of its words.
pub(crate) fn secrets_for(options: TextOptions, words: &Words) -> Secrets
    ensures { (whole : List (List ℕ)) (lengths : List ℕ) →
        AreKeptOf options.shown.most options.kept.most whole words.now lengths →
        redacted_after result [] whole ≡ printed_words options.shows_passwords whole }
{
    if options.shows_passwords {
        Secrets::Absent
    } else {
        Secrets::of(words)
    }
}

/// Writes the heading of a command or a reply, with its number and these words after it.
fn write_numbered_line<'a, W: Sink>(
    client: u64,
    what: &'a [u8],
    number: u64,
    words: &'a [u8],
    stamp: Option<Stamp>,
    writer: &mut W,
) -> Result<(), DeviceFault>
    ensures { WritesText (W.written writer.old) (W.written writer.new) (W.failures writer.old)
        (W.failures writer.new) result (numbered_line client what.now number words.now stamp) }
{
    write_segments(
        &[
            Segment::Number(b"client ", client),
            Segment::Text(what),
            Segment::Number(b"", number),
            Segment::Text(words),
            Segment::Ending(stamp),
        ],
        writer,
    )
}

/// Writes a line, with the time if there is a stamp.
///
/// # Errors
///
/// `DeviceFault` if a write fails. The first part of the line was written.
pub fn write_line<W: Sink>(
    what: &[u8],
    stamp: Option<Stamp>,
    writer: &mut W,
) -> Result<(), DeviceFault>
    ensures { WritesText (W.written writer.old) (W.written writer.new) (W.failures writer.old)
        (W.failures writer.new) result (what.now ++ ending_text stamp) }
{
    write_segments(&[Segment::Text(what), Segment::Ending(stamp)], writer)
}

/// Writes a line about a client without a number, such as `client 1 gone`.
///
/// # Errors
///
/// `DeviceFault` if a write fails. The first part of the line was written.
pub fn write_client_line<W: Sink>(
    client: u64,
    what: &[u8],
    stamp: Option<Stamp>,
    writer: &mut W,
) -> Result<(), DeviceFault>
    ensures { WritesText (W.written writer.old) (W.written writer.new) (W.failures writer.old)
        (W.failures writer.new) result (client_line client what.now stamp) }
{
    write_remark(client, what, b"", stamp, writer)
}

/// Writes a line about a client: its number, these bytes and a text, such as `client 1 connected
/// from 127.0.0.1:50000`.
///
/// # Errors
///
/// `DeviceFault` if a write fails. The first part of the line was written.
pub fn write_remark<'a, W: Sink>(
    client: u64,
    front: &'a [u8],
    text: &'a [u8],
    stamp: Option<Stamp>,
    writer: &mut W,
) -> Result<(), DeviceFault>
    ensures { WritesText (W.written writer.old) (W.written writer.new) (W.failures writer.old)
        (W.failures writer.new) result (remark_text client front.now text.now stamp) }
{
    write_segments(
        &[
            Segment::Number(b"client ", client),
            Segment::Text(front),
            Segment::Text(text),
            Segment::Ending(stamp),
        ],
        writer,
    )
}

/// Writes the line with the words of a command, from their kept part.
fn write_words_line<W: Sink>(
    options: TextOptions,
    words: &Words,
    lengths: &[u64],
    writer: &mut W,
) -> Result<(), DeviceFault>
    ensures { (whole : List (List ℕ)) →
        AreKeptOf options.shown.most options.kept.most whole words.now lengths.now →
        WritesText (W.written writer.old) (W.written writer.new) (W.failures writer.old)
        (W.failures writer.new) result (words_line options.shown.most
        (printed_words options.shows_passwords whole)) }
{
    write_text(writer, b" ")?;
    write_words(options, words, lengths, secrets_for(options, words), writer)?;
    write_text(writer, b"\n")
}

/// Writes the kept parts of words in quotes, each after a space. Secret words are redacted.
pub(crate) fn write_words<W: Sink>(
    options: TextOptions,
    words: &Words,
    lengths: &[u64],
    secrets: Secrets,
    writer: &mut W,
) -> Result<(), DeviceFault>
    ensures { (whole : List (List ℕ)) →
        AreKeptOf options.shown.most options.kept.most whole words.now lengths.now →
        WritesText (W.written writer.old) (W.written writer.new) (W.failures writer.old)
        (W.failures writer.new) result
        (words_text options.shown.most (redacted_after secrets [] whole)) }
{
    let mut index = 0;
    // The lengths of the longer words from this one on.
    let mut longer = lengths;
    // How many words from this one on are secret because of a word before it.
    let mut left = 0;
    while index < words.len() {
        let word = words.word(index);
        let (count, later) = length_of(word, options.kept.most, longer);
        let is_secret = secrets.hides(index, left);
        write_shown(word, count, is_secret, options.shown.most, writer)?;
        left = secrets.left_after(left, word);
        longer = later;
        index += 1;
    }
    Ok(())
}

/// Returns the number of bytes of a word, given its kept part, and the lengths that remain for the
/// words after it. At most `kept` bytes of a word are kept. If the word has more bytes, the first
/// of `lengths` is its length.
fn length_of<'a>(word: &[u8], kept: Option<usize>, lengths: &'a [u64]) -> (u64, &'a [u64])
    ensures { (whole later : List ℕ) → word.now ≡ word_within kept whole →
        lengths.now ≡ length_within kept (length whole) ++ later →
        (result.0 ≡ length whole) × (result.1.now ≡ later) }
{
    if is_cut(word, kept) {
        if let Some((length, later)) = lengths.split_first() {
            return (*length, later);
        }
    }
    (word.len() as u64, lengths)
}

/// Writes a word of this many bytes as it is printed.
fn write_shown<W: Sink>(
    word: &[u8],
    count: u64,
    is_secret: bool,
    most: Option<usize>,
    writer: &mut W,
) -> Result<(), DeviceFault>
    ensures { (whole : List ℕ) → IsPrintedAs most whole word.now count →
        WritesText (W.written writer.old) (W.written writer.new) (W.failures writer.old)
        (W.failures writer.new) result (word_text most (shown_word is_secret whole)) }
{
    if is_secret {
        write_word(b"(redacted)", 10, most, writer)
    } else {
        write_word(word, count, most, writer)
    }
}

/// Writes the part of a word that is printed, in quotes, after a space. It has this many bytes.
fn write_word<W: Sink>(
    word: &[u8],
    count: u64,
    most: Option<usize>,
    writer: &mut W,
) -> Result<(), DeviceFault>
    ensures { (whole : List ℕ) → IsPrintedAs most whole word.now count →
        WritesText (W.written writer.old) (W.written writer.new) (W.failures writer.old)
        (W.failures writer.new) result (word_text most whole) }
{
    write_segments(
        &[
            Segment::Text(b" \""),
            Segment::Quoted(shown_part(word, most)),
            word_end(count, most),
        ],
        writer,
    )
}

/// Returns the quote after a word of this many bytes. If not all of them are printed, two dots and
/// the number of bytes follow the quote.
fn word_end(count: u64, most: Option<usize>) -> Segment<'static>
    ensures { segment_text result ≡ word_end most count }
{
    match most {
        Some(most) if count > most as u64 => Segment::Number(b"\" .. ", count),
        _ => Segment::Text(b"\""),
    }
}

/// Writes the line of an error in the bytes of one side.
fn write_refusal<W: Sink>(
    client: u64,
    name: &[u8],
    at: u64,
    place: Place,
    stamp: Option<Stamp>,
    writer: &mut W,
) -> Result<(), DeviceFault>
    ensures { WritesText (W.written writer.old) (W.written writer.new) (W.failures writer.old)
        (W.failures writer.new) result (refusal_text client name.now at place stamp) }
{
    write_segments(
        &[
            Segment::Number(b"client ", client),
            Segment::Text(b" refused "),
            Segment::Text(name),
            Segment::Number(b" at byte ", at),
            Segment::Text(b" of "),
            place_segment(place),
            Segment::Ending(stamp),
        ],
        writer,
    )
}

/// Returns the words about a command, reply or value.
pub(crate) fn place_segment(place: Place) -> Segment<'static>
    ensures { segment_text result ≡ place_text place }
{
    match place {
        Place::Command(number) => Segment::Number(b"command ", number),
        Place::Reply(number) => Segment::Number(b"reply ", number),
        Place::Value => Segment::Text(b"a value"),
    }
}
