//! Events, as C receives them.

ghost use Rattle.std.specs.Prelude.{◌≡◌, Some};
ghost use Rattle.resp_c.specs.EventNumbers.{text_form};
ghost use Rattle.resp_c.specs.Told.{Tells, TellsWhole};

use crate::number;
use resp_scan::event::{Event, TextKind};
use resp_scan::slot::Slot;

/// The result of a step.
#[repr(C)]
#[derive(Clone, Copy)]
pub struct RespEvent {
    /// The kind of event: `RESP_MORE` if there is no event, otherwise `RESP_NULL` to `RESP_WHOLE`.
    pub kind: u32,
    /// The kind of a text, `RESP_TEXT_SIMPLE` to `RESP_TEXT_BIG`, even for a whole text. The kind
    /// of an aggregate that opens, `RESP_ARRAY` to `RESP_PUSH`.
    pub form: u32,
    /// An integer. Or 1 for true and for a big number below zero, and 0 for false and for another
    /// big number.
    pub number: i64,
    /// The number of members of an aggregate that opens, or of its pairs if it is a map or an
    /// attribute. `RESP_STREAMED` if it is streamed.
    pub members: u64,
    /// The number of bytes of the piece that were used.
    pub used: usize,
    /// The length of a part or of a whole text. The bytes of a part are the last of the bytes used,
    /// and if no byte was used, the part is `digit`. The bytes of a whole text have CR LF after
    /// them.
    pub part: usize,
    /// The format of a verbatim string.
    pub format: [u8; 3],
    /// The digit of a part for which no byte was used.
    pub digit: u8,
}

/// Returns the number of a kind of text.
#[inline(always)]
fn text_form(kind: TextKind) -> u32
    ensures { result ≡ text_form kind }
{
    match kind {
        TextKind::Simple => number::TEXT_SIMPLE,
        TextKind::Error => number::TEXT_ERROR,
        TextKind::Double => number::TEXT_DOUBLE,
        TextKind::Bulk => number::TEXT_BULK,
        TextKind::BulkError => number::TEXT_BULK_ERROR,
        TextKind::Verbatim(_) => number::TEXT_VERBATIM,
        TextKind::Big { .. } => number::TEXT_BIG,
    }
}

/// Writes an event of the scanner into the event of C. Leaves `used` unchanged, and the fields that this
/// kind of event does not have.
#[inline(always)]
pub(crate) fn tell(event: &mut RespEvent, told: Event<'_>)
    ensures used { event.new.used ≡ event.old.used }
    ensures tells { Tells event.new (Some told.entry) }
{
    match told {
        Event::Null => event.kind = number::NULL,
        Event::Bool(truth) => {
            event.kind = number::BOOL;
            event.number = truth as i64;
        }
        Event::Int(number) => {
            event.kind = number::INT;
            event.number = number;
        }
        Event::Text(kind) => {
            event.kind = number::TEXT;
            event.form = text_form(kind);
            match kind {
                TextKind::Verbatim(format) => event.format = format,
                TextKind::Big { negative } => event.number = negative as i64,
                _ => (),
            }
        }
        Event::Part(bytes) => {
            event.kind = number::PART;
            event.part = bytes.len();
            event.digit = bytes.first().copied().unwrap_or(0);
        }
        Event::TextEnd => event.kind = number::TEXT_END,
        Event::Open(kind, members) => {
            event.kind = number::OPEN;
            event.form = kind as u32;
            event.members = members.unwrap_or(number::STREAMED);
        }
        Event::Close => event.kind = number::CLOSE,
        Event::Done => event.kind = number::DONE,
    }
}

impl Slot for RespEvent {
    ghost shows = { λ out event. Tells out (Some event) };

    ghost shows_text = { TellsWhole };

    #[inline(always)]
    fn event(&mut self, event: Event<'_>) {
        tell(self, event);
    }

    #[inline(always)]
    fn text(&mut self, kind: TextKind, bytes: &[u8]) {
        self.kind = number::WHOLE;
        self.form = text_form(kind);
        self.part = bytes.len();
    }
}
