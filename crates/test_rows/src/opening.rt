//! Rows that run on the opening of a connection to the server.

use crate::cut::{Cut, pieces};
use crate::subject::Subject;
use crate::text::{bytes, split, version};
use anyhow::{Context, Result, bail};
use resp_io::{MemorySink, MemorySource};
use resp_proxy::{Ending, Opening, OpeningError, OpeningProgress, Setting};
use std::alloc::Global;

/// The most bytes of a write, so that commands are sent in parts.
const PART: usize = 7;

/// The most bytes of all writes and of a read.
const MOST: usize = 4_096;

/// An opening, and what the server has got in a row.
#[derive(Drop)]
pub(crate) struct Arriving {
    alloc: Global,
    opening: Opening,
    sent: Vec<u8>,
    /// The result of the last visit.
    last: std::result::Result<OpeningProgress, OpeningError>,
}

impl Subject for Arriving {
    fn new(alloc: Global) -> Result<Arriving> {
        let setting = Setting::first(alloc)?;
        Ok(Arriving {
            alloc,
            opening: Opening::new(alloc, &setting, b"", Ending::Setting)?,
            sent: Vec::new(alloc),
            last: Ok(OpeningProgress::Sends),
        })
    }

    fn is_cut(name: &str) -> bool {
        name == "server"
    }

    fn run(&mut self, name: &str, given: &str, cut: Cut, said: &mut String) -> Result<()> {
        match name {
            "open" => self.begin(given, "", Ending::Setting)?,
            "check" => self.begin(given, "", Ending::Check)?,
            "login" => self.begin("2 0", given, Ending::Setting)?,
            "ask" => {
                let (setting, text) = given.split_once(", ").context("no command")?;
                let command = bytes(self.alloc, text)?;
                self.begin(setting, "", Ending::Command(&command))?;
            }
            "server" => self.hear(given, cut)?,
            "piece" => self.hear(given, Cut::Whole)?,
            "end" => self.visit(&[], false)?,
            _ => bail!("an unknown row"),
        }
        self.tell(said)
    }
}

impl Arriving {
    /// Begins an opening into `VERSION DATABASE`, with this command of the proxy's own user.
    fn begin(&mut self, given: &str, own: &str, ending: Ending<'_>) -> Result<()> {
        let (number, database) = split(given);
        let mut setting = Setting::first(self.alloc)?;
        setting.version = version(number)?;
        setting.database = database.as_bytes().to_vec(self.alloc)?;
        let own = bytes(self.alloc, own)?;
        self.opening = Opening::new(self.alloc, &setting, &own, ending)?;
        self.visit(&[], true)
    }

    /// `server TEXT`: the server sends a text.
    fn hear(&mut self, given: &str, cut: Cut) -> Result<()> {
        let text = bytes(self.alloc, given)?;
        for piece in pieces(self.alloc, text.as_slice(), cut)? {
            self.visit(piece, true)?;
        }
        Ok(())
    }

    /// Visits the connection until nothing more is sent or read. The server has sent this piece, and
    /// either goes on or has closed the connection.
    fn visit(&mut self, piece: &[u8], goes_on: bool) -> Result<()> {
        let mut source = MemorySource::new(piece, MOST);
        if goes_on {
            source = source.failing_from(piece.len());
        }
        let mut buffer = [0; 64];
        loop {
            let mut sink = MemorySink::new(self.alloc, PART, MOST)?;
            self.last = self.opening.visit(&mut source, &mut sink, &mut buffer);
            self.sent.extend_from_slice(sink.bytes())?;
            match self.last {
                Ok(OpeningProgress::Sends | OpeningProgress::Reads) => {}
                _ => return Ok(()),
            }
        }
    }

    /// Prints what the server got, and the result of the last visit unless the opening waits.
    fn tell(&mut self, said: &mut String) -> Result<()> {
        if !self.sent.is_empty() {
            writeln!(said, "server {}", self.sent.escape_ascii())?;
            self.sent.clear();
        }
        match self.last {
            Ok(OpeningProgress::Accepted) => {
                let hello = self.opening.hello().escape_ascii();
                writeln!(said, "accepted {hello}")?;
            }
            Ok(_) => {}
            Err(error) => {
                let refusal = self.opening.refusal().escape_ascii();
                writeln!(said, "{error} {refusal}")?;
            }
        }
        Ok(())
    }
}
