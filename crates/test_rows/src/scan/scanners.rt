//! The scanners of a conversation, and the calls of their rows.

use super::reader::{Call, Reader};
use super::story::Story;
use super::{needed, stops};
use crate::bounds;
use crate::cut::{Cut, pieces};
use crate::subject::Subject;
use crate::text::bytes;
use anyhow::{Context, Result};
use resp_value::Version;
use std::alloc::Global;

/// Scanners that have to print the same. For each set of rules there is a scanner that reads with
/// `step` and a scanner that reads with `scan`.
#[derive(Drop)]
pub(crate) struct Scanners {
    alloc: Global,
    readers: Vec<Reader>,
}

impl Subject for Scanners {
    fn new(alloc: Global) -> Result<Scanners> {
        let readers = Vec::new(alloc);
        Ok(Scanners { alloc, readers })
    }

    fn is_cut(name: &str) -> bool {
        name == "input" || name == "scan"
    }

    fn run(&mut self, name: &str, given: &str, cut: Cut, said: &mut String) -> Result<()> {
        match name {
            "scanner" => {
                self.readers.clear();
                self.add(given)
            }
            "also" => self.add(given),
            _ => {
                let text = bytes(self.alloc, given)?;
                self.ask(name, text.as_slice(), cut, said)
            }
        }
    }
}

impl Scanners {
    /// Adds two scanners of a version and limits, written as `3 depth=4`.
    fn add(&mut self, given: &str) -> Result<()> {
        let (number, limits) = given.split_once(' ').unwrap_or((given, ""));
        let version = version(number.as_bytes()).context("an unknown version")?;
        let limits = bounds::limits(limits)?;
        self.readers.push(Reader::new(Call::Step, version, limits))?;
        self.readers.push(Reader::new(Call::Scan, version, limits))?;
        Ok(())
    }

    /// Prints on a line the results of the scanners for a row.
    fn ask(&mut self, name: &str, text: &[u8], cut: Cut, said: &mut String) -> Result<()> {
        let pieces = pieces(self.alloc, text, cut)?;
        let row = Row {
            alloc: self.alloc,
            name,
            text,
            pieces: pieces.as_slice(),
        };
        let told = row.ask_each(self.readers.as_mut_slice()).finish()?;
        if !told.is_empty() {
            writeln!(said, "{told}")?;
        }
        Ok(())
    }
}

/// A row that is run on each scanner.
#[derive(Clone, Copy)]
struct Row<'a> {
    alloc: Global,
    name: &'a str,
    text: &'a [u8],
    pieces: &'a [&'a [u8]],
}

impl Row<'_> {
    fn ask_each(self, readers: &mut [Reader]) -> Story {
        let mut all = Story::new(self.alloc, 0);
        for (number, reader) in readers.iter_mut().enumerate() {
            let mut story = Story::new(self.alloc, usize::MAX);
            self.ask(reader, &mut story);
            all.join(number, &mut story);
        }
        all
    }

    fn ask(self, reader: &mut Reader, story: &mut Story) {
        let text = self.text;
        match self.name {
            "input" => self.input(reader, story),
            "scan" => {
                let _is_viable = self.scan(reader, story);
            }
            "step" => step(reader, text, story),
            "end" => reader.say_end(story),
            "version" => set_version(reader, text, story),
            "needed" => needed::say_needed(reader, text, story),
            "owed" => needed::say_owed(reader, text, story),
            "stops" => stops::say_stops(self.alloc, reader, text, story),
            "whole_texts" => stops::say_whole_texts(reader, text, story),
            _ => story.item("an unknown row"),
        }
    }

    /// Prints the events of a complete input, and the fault or else the end.
    fn input(self, reader: &mut Reader, story: &mut Story) {
        reader.renew();
        if self.scan(reader, story) {
            reader.say_end(story);
        }
    }

    /// Prints the events of a text, and the fault if there is one. Returns whether there is no
    /// fault.
    fn scan(self, reader: &mut Reader, story: &mut Story) -> bool {
        for piece in self.pieces {
            if !self.read(reader, piece, story) {
                return false;
            }
        }
        // A text in one piece is followed by an empty piece.
        self.pieces.len() > 1 || self.read(reader, b"", story)
    }

    /// Reads a piece. Returns whether there is no fault.
    fn read(self, reader: &mut Reader, piece: &[u8], story: &mut Story) -> bool {
        let Some(fault) = reader.read(piece, story) else {
            return true;
        };
        story.fault("refused: ", fault);
        if !reader.is_refused_for_good(self.alloc, piece, fault) {
            story.item("not for good");
        }
        false
    }
}

/// Prints the number of bytes used by one step and its event, or the fault.
fn step(reader: &mut Reader, piece: &[u8], story: &mut Story) {
    match reader.step(piece) {
        Ok((rest, event)) => {
            let used = piece.len().saturating_sub(rest.len());
            story.number("used ", used as u64);
            if let Some(event) = event {
                story.tell(event);
            }
        }
        Err(fault) => story.fault("refused: ", fault),
    }
}

/// Changes the version, and prints the error if there is one.
fn set_version(reader: &mut Reader, number: &[u8], story: &mut Story) {
    match version(number) {
        Some(version) => {
            if reader.set_version(version).is_err() {
                story.item("refused: Busy");
            }
        }
        None => story.item("an unknown version"),
    }
}

/// Returns the version of this number.
fn version(number: &[u8]) -> Option<Version> {
    match number {
        b"2" => Some(Version::Two),
        b"3" => Some(Version::Three),
        _ => None,
    }
}
