//! Rows of the number of bytes needed, before the first byte of a text and after each byte.

use super::reader::Reader;
use super::story::Story;
use resp_scan::Event;

/// Prints the number of bytes needed before the first byte of a text and after each byte. After the
/// last byte of a value it is 0 until the end was given. Also prints if another number or a wrong
/// end is returned, byte by byte and at each cut of the text.
pub(crate) fn say_needed(reader: &mut Reader, text: &[u8], story: &mut Story) {
    story.turn_to_needed();
    keep_needed(reader, text, story);
    story.say_kept();
    read_by_bytes(reader, text, story);
    for at in 0..=text.len() {
        reader.renew();
        read_to(reader, &text[..at], at, story);
        read_to(reader, &text[at..], text.len(), story);
    }
}

/// Records the numbers of bytes needed, with steps over single bytes.
fn keep_needed(reader: &mut Reader, text: &[u8], story: &mut Story) {
    reader.renew();
    reader.read_by_steps(b"", story);
    for byte in text.chunks(1) {
        reader.read_by_steps(byte, story);
    }
}

/// Reads single bytes, with an empty piece after each byte.
fn read_by_bytes(reader: &mut Reader, text: &[u8], story: &mut Story) {
    reader.renew();
    read_to(reader, b"", 0, story);
    for at in 0..text.len() {
        read_to(reader, &text[at..at + 1], at + 1, story);
        read_to(reader, b"", at + 1, story);
    }
}

/// Reads a piece, after which this many bytes of the text were read, and prints if it is rejected
/// or if the end is wrong.
fn read_to(reader: &mut Reader, piece: &[u8], size: usize, story: &mut Story) {
    if let Some(fault) = reader.read(piece, story) {
        story.fault("refused: ", fault);
    }
    let at = if story.kept(size) == Some(0) {
        0
    } else {
        size as u64
    };
    if !reader.ends_at(at) {
        story.number("wrong end after ", size as u64);
    }
}

/// Prints the number of events of a value that are given after all its bytes were read and before
/// its end. Also prints if nothing is needed before all bytes were read, or anything after.
pub(crate) fn say_owed(reader: &mut Reader, value: &[u8], story: &mut Story) {
    reader.renew();
    let mut rest = value;
    let mut owed: u64 = 0;
    for _ in 0..=value.len() {
        let Ok((left, Some(event))) = reader.step(rest) else {
            break;
        };
        if matches!(event, Event::Done) {
            break;
        }
        rest = left;
        let (taken, needed) = reader.taken_and_needed();
        if (needed == 0) != rest.is_empty() {
            story.number("other number after ", taken);
        }
        if needed == 0 {
            owed = owed.saturating_add(1);
        }
    }
    story.number("", owed);
    reader.say_end(story);
}
