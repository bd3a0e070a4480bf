//! Scanners, and the calls with which they read.

use super::story::Story;
use resp_scan::{Busy, Event, Fault, Listener, ScanError, Scanner};
use resp_value::{Cause, Limits, Version};
use std::alloc::Global;

/// More calls than any piece has events.
const CALLS: usize = 100_000;

/// The call with which a scanner reads.
#[derive(Clone, Copy)]
pub(crate) enum Call {
    /// [`Scanner::step`].
    Step,
    /// [`Scanner::scan`].
    Scan,
}

/// A scanner with its rules, and the call with which it reads.
#[derive(Drop)]
pub(crate) struct Reader {
    call: Call,
    version: Version,
    limits: Limits,
    scanner: Scanner,
}

impl Reader {
    /// Makes a new scanner of this version with these limits.
    pub(crate) fn new(call: Call, version: Version, limits: Limits) -> Reader {
        Reader {
            call,
            version,
            limits,
            scanner: Scanner::new(version, &limits),
        }
    }

    /// Replaces the scanner with a new scanner of the same rules.
    pub(crate) fn renew(&mut self) {
        self.scanner = Scanner::new(self.version, &self.limits);
    }

    /// Changes the version.
    pub(crate) fn set_version(&mut self, version: Version) -> Result<(), Busy> {
        self.scanner.set_version(version)
    }

    /// Makes one step. Returns the rest of the piece and the event.
    pub(crate) fn step<'a>(
        &mut self,
        piece: &'a [u8],
    ) -> Result<(&'a [u8], Option<Event<'a>>), Fault> {
        let step = self.scanner.step(piece)?;
        Ok((&piece[step.used..], step.event))
    }

    /// Makes one call over a piece. Returns the rest of the piece and whether a value has ended.
    pub(crate) fn scan<'a, L: Listener>(
        &mut self,
        piece: &'a [u8],
        listener: &mut L,
    ) -> Result<(&'a [u8], bool), ScanError> {
        let scanned = self.scanner.scan(piece, listener)?;
        Ok((&piece[scanned.used..], scanned.is_whole))
    }

    /// Returns the number of bytes read, and the least number of bytes needed.
    pub(crate) fn taken_and_needed(&self) -> (u64, u64) {
        (self.scanner.taken(), self.scanner.needed())
    }

    /// Reads a piece with its call. Returns the fault, if there is one.
    pub(crate) fn read(&mut self, piece: &[u8], story: &mut Story) -> Option<Fault> {
        match self.call {
            Call::Step => self.read_by_steps(piece, story),
            Call::Scan => self.read_by_scan(piece, story),
        }
    }

    /// Reads a piece with [`Scanner::step`]. Returns the fault, if there is one.
    pub(crate) fn read_by_steps(&mut self, piece: &[u8], story: &mut Story) -> Option<Fault> {
        let mut rest = piece;
        for _ in 0..CALLS {
            let (left, event) = match self.step(rest) {
                Ok(answer) => answer,
                Err(fault) => return Some(fault),
            };
            rest = left;
            let (taken, needed) = self.taken_and_needed();
            story.note(taken, needed);
            let Some(event) = event else {
                break;
            };
            story.tell(event);
        }
        if !rest.is_empty() {
            story.item("not the whole piece");
        }
        None
    }

    /// Reads a piece with [`Scanner::scan`]. Returns the fault, if there is one.
    fn read_by_scan(&mut self, piece: &[u8], story: &mut Story) -> Option<Fault> {
        let mut rest = piece;
        for _ in 0..CALLS {
            let (left, is_whole) = match self.scan(rest, story) {
                Ok(answer) => answer,
                Err(ScanError::Fault(fault)) => return Some(fault),
                Err(ScanError::Stopped { .. }) => {
                    story.item("stopped");
                    return None;
                }
            };
            rest = left;
            let (taken, needed) = self.taken_and_needed();
            story.note(taken, needed);
            if !is_whole {
                break;
            }
            story.tell(Event::Done);
        }
        if !rest.is_empty() {
            story.item("not the whole piece");
        }
        None
    }

    /// Prints whether the input may end. Inside a value, also prints the bytes read, the bytes
    /// needed and the depth.
    pub(crate) fn say_end(&self, story: &mut Story) {
        match self.scanner.finish() {
            Ok(()) => story.item("whole"),
            Err(fault) => story.fault("", fault),
        }
        let (taken, needed) = self.taken_and_needed();
        let depth = self.scanner.depth();
        if taken > 0 || needed != 3 || depth > 0 {
            story.number("taken ", taken);
            story.number("needed ", needed);
            story.number("depth ", depth as u64);
        }
    }

    /// Returns whether the end of the input is the end inside a value of which this many bytes were
    /// read, or the end between two values if the number is 0.
    pub(crate) fn ends_at(&mut self, at: u64) -> bool {
        let cause = Cause::Truncated;
        let (taken, _) = self.taken_and_needed();
        let wanted = match at {
            0 => Ok(()),
            _ => Err(Fault { cause, at }),
        };
        taken == at && self.scanner.finish() == wanted && (at == 0 || self.is_busy())
    }

    /// Returns whether the version cannot be changed.
    fn is_busy(&mut self) -> bool {
        let other = match self.version {
            Version::Two => Version::Three,
            Version::Three => Version::Two,
        };
        self.set_version(other) == Err(Busy)
    }

    /// Returns whether every later call returns this fault and gives no event.
    pub(crate) fn is_refused_for_good(
        &mut self,
        alloc: Global,
        piece: &[u8],
        fault: Fault,
    ) -> bool {
        let (taken, _) = self.taken_and_needed();
        let stepped = self.step(piece).err();
        let finished = self.scanner.finish().err();
        taken == fault.at
            && stepped == Some(fault)
            && finished == Some(fault)
            && self.is_scanned_with(alloc, piece, fault)
            && self.is_busy()
    }

    /// Returns whether [`Scanner::scan`] returns this fault and gives no event.
    fn is_scanned_with(&mut self, alloc: Global, piece: &[u8], fault: Fault) -> bool {
        let mut story = Story::new(alloc, 1);
        let scanned = self.scan(piece, &mut story).err();
        scanned == Some(ScanError::Fault(fault)) && story.is_empty()
    }
}
