//! The notes of the commands that wait, while a filter is used.

ghost use Rattle.std.specs.Prelude.{◌++◌, ◌≡◌, ◌<◌, ◌≤◌, ℕ, List, [], false, true, length, take, IfOk, if◌then◌else◌, option_map};
ghost use Rattle.resp_print.specs.Printed.{Prints};
ghost use Rattle.resp_print.specs.Written.{WritesText};
ghost use Rattle.resp_tap.specs.Filters.{is_by_reply};
ghost use Rattle.resp_tap.specs.Noted.{IsChosen, IsNote, before_text, deferred_text, filtered_text, kept_line, line_end, room_behind, room_for, shown_words};
ghost use Rattle.resp_tap.specs.Parts.{AreKeptOf};
ghost use Rattle.resp_tap.specs.SeenOf.{IsKeptIn};
ghost use Rattle.resp_tap.specs.Texts.{heading, levels_of};
ghost use Rattle.resp_value.specs.Data.{Datum};

use crate::filter::Filter;
use crate::moment::{Moment, Utc};
use crate::print::{TextOptions, secrets_for, write_heading, write_seen, write_words};
use crate::seen::Seen;
use crate::segment::{Segment, write_segments};
use crate::stamp::Stamp;
use resp_io::device::{DeviceFault, MemorySink, Sink};
use resp_print::print_error::PrintError;
use resp_session::words::Words;
use std::alloc::{AllocError, Global};

/// The maximum number of bytes that are kept of the words of a command.
const SHOWN: usize = 1_024;

/// The maximum number of commands of a connection for which bytes of the words are kept.
const MOST_KEPT: usize = 1_024;

/// The note of a command that waits for its reply.
#[derive(Debug, Drop)]
pub struct Note {
    /// The time at which it arrived, if times are printed.
    pub(crate) utc: Option<Utc>,
    /// Whether the client sent it as a line.
    pub(crate) is_line: bool,
    /// Whether the filter lets it through by its words.
    pub(crate) is_chosen: bool,
    /// Whether the text has all its words.
    pub(crate) is_whole: bool,
    /// The first bytes of the text of its words, as they are printed.
    pub(crate) text: Vec<u8>,
}

impl Filter {
    /// Returns the maximum number of bytes that are kept of a command behind this many others.
    fn room_for(&self, is_chosen: bool, behind: usize) -> usize
        ensures { result ≡ room_for self.now is_chosen behind }
    {
        if self.is_by_reply() && is_chosen {
            room_behind(behind)
        } else {
            0
        }
    }
}

/// Returns the maximum number of bytes that are kept of the words of a command behind this many
/// others.
fn room_behind(behind: usize) -> usize
    ensures { result ≡ room_behind behind }
{
    if behind < MOST_KEPT { SHOWN } else { 0 }
}

/// Returns the note of a command.
///
/// # Errors
///
/// `AllocError` if an allocation fails.
pub(crate) fn note_of(
    alloc: Global,
    filter: &Filter,
    options: TextOptions,
    now: Option<Moment>,
    is_line: bool,
    is_chosen: bool,
    words: &Words,
    lengths: &[u64],
    behind: usize,
) -> Result<Note, AllocError>
    ensures { (whole : List (List ℕ)) →
        AreKeptOf options.shown.most options.kept.most whole words.now lengths.now →
        IfOk result (IsNote options now is_line is_chosen whole
        (room_for filter.now is_chosen behind)) }
{
    let room = filter.room_for(is_chosen, behind);
    let (text, is_whole) = first_bytes(alloc, options, words, lengths, room)?;
    Ok(Note {
        utc: now.map(|now| now.utc),
        is_line,
        is_chosen,
        is_whole,
        text,
    })
}

/// Returns the first `room` bytes of the text of a command's words, and whether this is the whole
/// text.
///
/// # Errors
///
/// `AllocError` if an allocation fails.
fn first_bytes(
    alloc: Global,
    options: TextOptions,
    words: &Words,
    lengths: &[u64],
    room: usize,
) -> Result<(Vec<u8>, bool), AllocError>
    requires { room ≤ 1024 }
    ensures bytes { (whole : List (List ℕ)) →
        AreKeptOf options.shown.most options.kept.most whole words.now lengths.now →
        IfOk result (λ kept. kept.0.items ≡ take room (shown_words options whole)) }
    ensures whole { (whole : List (List ℕ)) →
        AreKeptOf options.shown.most options.kept.most whole words.now lengths.now →
        IfOk result (λ kept. kept.1 ≡ true → length (shown_words options whole) ≤ room) }
    ensures part { (whole : List (List ℕ)) →
        AreKeptOf options.shown.most options.kept.most whole words.now lengths.now →
        IfOk result (λ kept. kept.1 ≡ false → 0 < room →
        room < length (shown_words options whole)) }
{
    if room == 0 {
        return Ok((Vec::new(alloc), false));
    }
    // With one byte more it is known whether the text is longer.
    let mut sink = MemorySink::new(alloc, usize::MAX, room + 1)?;
    let secrets = secrets_for(options, words);
    let written = write_words(options, words, lengths, secrets, &mut sink);
    let text = sink.bytes();
    if written.is_err() && text.len() <= room {
        return Err(AllocError);
    }
    let is_whole = text.len() <= room;
    Ok((
        Vec::from_slice(alloc, &text[..room.min(text.len())])?,
        is_whole,
    ))
}

/// Returns whether the filter lets the words of a result's command through. `note` is the note of the
/// command that the next reply belongs to.
pub(crate) fn is_chosen(filter: &Filter, note: Option<&Note>, seen: &Seen) -> bool
    ensures { IsChosen filter.now (option_map (λ note. note.now) note.entry) seen.now result }
{
    match (seen, note) {
        (Seen::Command { words, .. }, _) => filter.keeps_words(words),
        (_, Some(note)) => note.is_chosen,
        (_, None) => filter.keeps_all(),
    }
}

/// Writes the lines of a result, if the filter lets it through. `is_line` says whether a command
/// was sent as a line, and `is_chosen` whether the words of its command are printed. `note` is the
/// note of the command that the next reply belongs to.
///
/// # Errors
///
/// The errors of [`write_seen`]. The first part of the text was written.
pub(crate) fn write_filtered<W: Sink>(
    filter: &Filter,
    options: TextOptions,
    is_line: bool,
    is_chosen: bool,
    note: Option<&Note>,
    stamp: Option<Stamp>,
    seen: &Seen,
    writer: &mut W,
) -> Result<(), PrintError>
    ensures { (whole : Datum) → IsKeptIn options.shown.most options.kept.most whole seen.now →
        Prints (W.written writer.old) (W.written writer.new) (W.failures writer.old)
        (W.failures writer.new) result (filtered_text filter.now options is_line is_chosen
        (option_map (λ note. note.now) note.entry) stamp whole seen.now) (levels_of seen.now) }
{
    let waited = stamp.and_then(|stamp| stamp.waited);
    if !filter.keeps(options.client, is_chosen, waited, seen) {
        return Ok(());
    }
    match write_before(filter, options.client, note, seen, writer) {
        Ok(()) => write_seen(options, is_line, stamp, seen, writer),
        Err(_) => Err(PrintError::Write),
    }
}

/// Writes the lines of the command that a reply belongs to, if the command is printed because of
/// the reply.
fn write_before<W: Sink>(
    filter: &Filter,
    client: u64,
    note: Option<&Note>,
    seen: &Seen,
    writer: &mut W,
) -> Result<(), DeviceFault>
    ensures { WritesText (W.written writer.old) (W.written writer.new) (W.failures writer.old)
        (W.failures writer.new) result (before_text filter.now client
        (option_map (λ note. note.now) note.entry) seen.now) }
{
    match seen {
        Seen::Reply { number, .. } => write_if_deferred(filter, client, *number, note, writer),
        _ => Ok(()),
    }
}

/// Writes the lines of a command, if it is printed because of its reply.
fn write_if_deferred<W: Sink>(
    filter: &Filter,
    client: u64,
    number: u64,
    note: Option<&Note>,
    writer: &mut W,
) -> Result<(), DeviceFault>
    ensures { WritesText (W.written writer.old) (W.written writer.new) (W.failures writer.old)
        (W.failures writer.new) result (if is_by_reply filter.now then
        deferred_text client number (option_map (λ note. note.now) note.entry) else []) }
{
    if !filter.is_by_reply() {
        return Ok(());
    }
    match note {
        Some(note) => {
            let stamp = note.utc.map(|utc| Stamp { utc, waited: None });
            write_deferred(
                client,
                number,
                note.is_line,
                stamp,
                note.is_whole,
                note.text.as_slice(),
                writer,
            )
        }
        None => write_deferred(client, number, false, None, false, b"", writer),
    }
}

/// Writes the heading of a command, and the kept part of its words.
fn write_deferred<W: Sink>(
    client: u64,
    number: u64,
    is_line: bool,
    stamp: Option<Stamp>,
    is_whole: bool,
    text: &[u8],
    writer: &mut W,
) -> Result<(), DeviceFault>
    ensures { WritesText (W.written writer.old) (W.written writer.new) (W.failures writer.old)
        (W.failures writer.new) result (heading is_line client number stamp ++
        kept_line is_whole text.now) }
{
    write_heading(client, number, is_line, stamp, writer)?;
    write_kept_line(is_whole, text, writer)
}

/// Returns the end of the line with the kept part of a command's words.
fn line_end(is_whole: bool) -> &'static [u8]
    ensures { result.now ≡ line_end is_whole }
{
    if is_whole { b"\n" } else { b" ..\n" }
}

/// Writes the kept part of a command's words as a line.
fn write_kept_line<W: Sink>(is_whole: bool, text: &[u8], writer: &mut W) -> Result<(), DeviceFault>
    ensures { WritesText (W.written writer.old) (W.written writer.new) (W.failures writer.old)
        (W.failures writer.new) result (kept_line is_whole text.now) }
{
    write_segments(
        &[
            Segment::Text(b" "),
            Segment::Text(text),
            Segment::Text(line_end(is_whole)),
        ],
        writer,
    )
}
