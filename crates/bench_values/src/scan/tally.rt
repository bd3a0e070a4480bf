//! The counts of a text. Only the number of parts depends on how the text is cut into pieces.

use resp_scan::event::{Event, Fault, ScanError, TextKind};
use resp_scan::listener::Listener;
use resp_scan::scanner::Scanner;
use resp_value::kind::OpenKind;

/// The call with which a text is read.
#[derive(Clone, Copy)]
pub(crate) enum Call {
    Step,
    Scan,
    Decode,
}

#[derive(Drop)]
pub(crate) struct Tally {
    /// Outermost values.
    pub(crate) replies: u64,
    /// Values that have begun, including those inside aggregates.
    pub(crate) values: u64,
    /// Bytes of texts.
    pub(crate) content: u64,
    /// Ends of texts and of aggregates.
    ends: u64,
    /// The sum of all integers, wrapped.
    pub(crate) sum: i64,
    /// Parts of texts.
    parts: u64,
}

impl Tally {
    pub(crate) fn new() -> Tally {
        Tally {
            replies: 0,
            values: 0,
            content: 0,
            ends: 0,
            sum: 0,
            parts: 0,
        }
    }

    /// Returns the number of all events.
    pub(crate) fn events(&self) -> u64 {
        self.replies
            .wrapping_add(self.values)
            .wrapping_add(self.parts)
            .wrapping_add(self.ends)
    }

    #[inline(always)]
    pub(crate) fn add_value(&mut self) {
        self.values = self.values.wrapping_add(1);
    }

    #[inline(always)]
    pub(crate) fn add_int(&mut self, number: i64) {
        self.add_value();
        self.sum = self.sum.wrapping_add(number);
    }

    #[inline(always)]
    fn add_part(&mut self, part: &[u8]) {
        self.parts = self.parts.wrapping_add(1);
        self.content = self.content.wrapping_add(part.len() as u64);
    }

    #[inline(always)]
    fn add_end(&mut self) {
        self.ends = self.ends.wrapping_add(1);
    }

    #[inline(always)]
    pub(crate) fn add_reply(&mut self) {
        self.replies = self.replies.wrapping_add(1);
    }

    /// Counts a whole text.
    #[inline(always)]
    pub(crate) fn add_text(&mut self, bytes: &[u8]) {
        self.add_value();
        self.add_part(bytes);
        self.add_end();
    }

    /// Counts an aggregate and its members, without looking into the members.
    #[inline(always)]
    pub(crate) fn add_members(&mut self, members: usize) {
        self.values = self.values.wrapping_add(1).wrapping_add(members as u64);
        self.add_end();
    }

    #[inline(always)]
    fn add(&mut self, event: &Event<'_>) {
        match event {
            Event::Null | Event::Bool(_) | Event::Text(_) | Event::Open(_, _) => self.add_value(),
            Event::Int(number) => self.add_int(*number),
            Event::Part(part) => self.add_part(part),
            Event::TextEnd | Event::Close => self.add_end(),
            Event::Done => self.add_reply(),
        }
    }
}

/// A listener that never stops.
impl Listener for Tally {
    ghost Origin = { Unit {0} };

    ghost has_heard = { λ _ _ _. Unit {0} };

    ghost has_stopped = { λ _ _ _. Unit {0} };

    #[inline(always)]
    fn null(&mut self) -> bool {
        self.add_value();
        true
    }

    #[inline(always)]
    fn truth(&mut self, _truth: bool) -> bool {
        self.add_value();
        true
    }

    #[inline(always)]
    fn int(&mut self, number: i64) -> bool {
        self.add_int(number);
        true
    }

    #[inline(always)]
    fn text(&mut self, _kind: TextKind) -> bool {
        self.add_value();
        true
    }

    #[inline(always)]
    fn part(&mut self, part: &[u8]) -> bool {
        self.add_part(part);
        true
    }

    #[inline(always)]
    fn text_end(&mut self) -> bool {
        self.add_end();
        true
    }

    #[inline(always)]
    fn open(&mut self, _kind: OpenKind, _count: Option<u64>) -> bool {
        self.add_value();
        true
    }

    #[inline(always)]
    fn close(&mut self) -> bool {
        self.add_end();
        true
    }
}

/// Scans the text in pieces of `size` bytes, with steps.
#[inline(never)]
pub(crate) fn step_text(
    scanner: &mut Scanner,
    text: &[u8],
    size: usize,
    tally: &mut Tally,
) -> Result<(), Fault> {
    for piece in text.chunks(size.max(1)) {
        step_piece(scanner, piece, tally)?;
    }
    Ok(())
}

#[inline(always)]
fn step_piece(scanner: &mut Scanner, piece: &[u8], tally: &mut Tally) -> Result<(), Fault> {
    let mut rest = piece;
    for _ in 0..u64::MAX {
        let step = scanner.step(rest)?;
        rest = &rest[step.used..];
        match &step.event {
            Some(event) => tally.add(event),
            None => break,
        }
    }
    Ok(())
}

/// Scans the text in pieces of `size` bytes, with the loop.
#[inline(never)]
pub(crate) fn scan_text(
    scanner: &mut Scanner,
    text: &[u8],
    size: usize,
    tally: &mut Tally,
) -> Result<(), ScanError> {
    for piece in text.chunks(size.max(1)) {
        scan_piece(scanner, piece, tally)?;
    }
    Ok(())
}

#[inline(always)]
fn scan_piece(scanner: &mut Scanner, piece: &[u8], tally: &mut Tally) -> Result<(), ScanError> {
    let mut rest = piece;
    for _ in 0..u64::MAX {
        let scanned = scanner.scan(rest, tally)?;
        rest = &rest[scanned.used..];
        if !scanned.is_whole {
            break;
        }
        tally.add_reply();
    }
    Ok(())
}
