//! Rows of a listener that stops, and of a listener that receives whole texts. The pieces of the
//! value are separated by `^`.

use super::reader::Reader;
use super::story::Story;
use resp_scan::{Event, Fault, Listener, OpenKind, ScanError, TextKind};
use resp_value::Cause;
use std::alloc::Global;

/// Prints for each event of a value the number of bytes read when a listener stops at this event,
/// and prints if a later call returns anything else. Then runs a listener that does not stop.
pub(crate) fn say_stops(alloc: Global, reader: &mut Reader, value: &[u8], story: &mut Story) {
    for number in 1..=value.len() {
        let mut heard = Story::new(alloc, number);
        let Some(taken) = stop(reader, value, &mut heard) else {
            break;
        };
        story.keep(taken);
        if !is_stopped_for_good(alloc, reader, taken) {
            story.number("not for good at ", taken);
        }
    }
    story.say_kept();
    reader.say_end(story);
}

/// Returns the number of bytes of a value that were read when a listener stopped, if it stops.
fn stop(reader: &mut Reader, value: &[u8], heard: &mut Story) -> Option<u64> {
    reader.renew();
    for piece in value.split(is_mark) {
        if let Err(ScanError::Stopped { taken }) = reader.scan(piece, heard) {
            return Some(taken);
        }
    }
    None
}

/// Returns whether a byte separates two pieces.
fn is_mark(byte: &u8) -> bool {
    *byte == b'^'
}

/// Returns whether every later call returns `OutOfMemory` at this byte.
fn is_stopped_for_good(alloc: Global, reader: &mut Reader, at: u64) -> bool {
    let cause = Cause::OutOfMemory;
    let fault = Fault { cause, at };
    reader.is_refused_for_good(alloc, b"+OK\r\n", fault)
        && reader.is_refused_for_good(alloc, b"", fault)
}

/// Receives a text that lies completely in the piece in one call, and everything else as [`Story`].
#[derive(Drop)]
struct WholeTexts<'a> {
    story: &'a mut Story,
}

impl<'a> Listener for WholeTexts<'a> {
    ghost Origin = { Unit {0} };

    ghost has_heard = { λ _ _ _. Unit {0} };

    ghost has_stopped = { λ _ _ _. Unit {0} };

    fn null(&mut self) -> bool {
        self.story.null()
    }

    fn truth(&mut self, truth: bool) -> bool {
        self.story.truth(truth)
    }

    fn int(&mut self, number: i64) -> bool {
        self.story.int(number)
    }

    fn text(&mut self, kind: TextKind) -> bool {
        self.story.text(kind)
    }

    fn part(&mut self, part: &[u8]) -> bool {
        self.story.part(part)
    }

    fn text_end(&mut self) -> bool {
        self.story.text_end()
    }

    fn open(&mut self, kind: OpenKind, count: Option<u64>) -> bool {
        self.story.open(kind, count)
    }

    fn close(&mut self) -> bool {
        self.story.close()
    }

    fn whole_text(&mut self, kind: TextKind, bytes: &[u8]) -> bool {
        self.story.tell_whole_text(kind, bytes);
        true
    }
}

/// Prints the events that a listener of whole texts receives.
pub(crate) fn say_whole_texts(reader: &mut Reader, value: &[u8], story: &mut Story) {
    reader.renew();
    for piece in value.split(is_mark) {
        let mut listener = WholeTexts { story: &mut *story };
        match reader.scan(piece, &mut listener) {
            Ok((rest, true)) if rest.is_empty() => story.tell(Event::Done),
            Ok((rest, false)) if rest.is_empty() => {}
            _ => story.item("not the whole piece"),
        }
    }
    reader.say_end(story);
}
