//! Readers and writers as rows describe them.

use crate::cut::Cut;
use crate::text::number;
use anyhow::{Context, Result, bail};
use resp_io::device::{MemorySink, MemorySource};
use std::alloc::{AllocError, Global};

/// The reader and the writer of a call, and the number of its turns.
#[derive(Clone, Copy)]
pub(crate) struct Devices {
    /// The most bytes that a read returns. If it is not set, the cut decides.
    reads: Option<usize>,
    /// The byte from which on reads fail.
    read_fails: Option<usize>,
    /// The most bytes that a write accepts.
    writes: usize,
    /// The byte from which on writes fail.
    write_fails: usize,
    /// The number of reads and writes that may be made.
    pub(crate) turns: u64,
}

impl Devices {
    /// Returns a reader that never fails, and a writer that never fails and accepts all bytes at
    /// once.
    pub(crate) fn new() -> Devices {
        Devices {
            reads: None,
            read_fails: None,
            writes: 4_096,
            write_fails: 4_096,
            turns: 10_000,
        }
    }

    /// Sets the numbers in a text, as `reads=1 read-fails=3 writes=2 write-fails=5`.
    pub(crate) fn set_all(&mut self, text: &str) -> Result<()> {
        for word in text.split_whitespace() {
            let (name, value) = word.split_once('=').context("no number")?;
            self.set(name, number(value)? as usize)?;
        }
        Ok(())
    }

    /// Sets one number.
    pub(crate) fn set(&mut self, name: &str, number: usize) -> Result<()> {
        match name {
            "reads" => self.reads = Some(number),
            "read-fails" => self.read_fails = Some(number),
            "writes" => self.writes = number,
            "write-fails" => self.write_fails = number.min(4_096),
            "turns" => self.turns = number as u64,
            _ => bail!("no device has such a number"),
        }
        Ok(())
    }

    /// Returns a reader of this text. If the text is cut in two, it is read in pieces as long as
    /// the first piece.
    pub(crate) fn reader<'a>(&self, text: &'a [u8], cut: Cut) -> MemorySource<'a> {
        let most = match (self.reads, cut) {
            (Some(most), _) => most,
            (None, Cut::Whole) => 4_096,
            (None, Cut::At(at)) => at,
            (None, Cut::Bytes) => 1,
        };
        let reader = MemorySource::new(text, most.max(1));
        match self.read_fails {
            Some(byte) => reader.failing_from(byte),
            None => reader,
        }
    }

    pub(crate) fn writer(&self, alloc: Global) -> Result<MemorySink, AllocError> {
        MemorySink::new(alloc, self.writes, self.write_fails)
    }
}

/// The number of calls of the devices.
#[derive(Clone, Copy, Default)]
pub(crate) struct Calls {
    pub(crate) reads: u64,
    pub(crate) writes: u64,
}

impl Calls {
    pub(crate) fn say(self, said: &mut String) -> Result<()> {
        writeln!(said, "reads {} writes {}", self.reads, self.writes)?;
        Ok(())
    }
}

/// The bytes that a writer received, the bytes that still waited to be written, and whether a turn
/// was left.
#[derive(Clone, Copy)]
pub(crate) struct Ending<'a> {
    pub(crate) written: &'a [u8],
    pub(crate) waits: &'a [u8],
    pub(crate) calls: Calls,
    pub(crate) turns: u64,
}

impl Ending<'_> {
    /// Adds the two texts as one text.
    pub(crate) fn add_texts(self, said: &mut String) -> Result<(), AllocError> {
        let (written, waits) = (self.written.escape_ascii(), self.waits.escape_ascii());
        write!(said, ", \"{written}{waits}\"")
    }

    /// Adds that no turn is left, if that is true, and ends the line.
    pub(crate) fn add_turns(self, said: &mut String) -> Result<(), AllocError> {
        let Calls { reads, writes } = self.calls;
        said.push_str(if reads.saturating_add(writes) == self.turns {
            ", no turn left\n"
        } else {
            "\n"
        })
    }
}
