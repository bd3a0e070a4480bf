//! The lines of an input, each of which is a command.

use crate::commands::{CommandInput, CommandPlace, Given, read_into};
use crate::failure::Failure;
use bytes::BytesMut;
use memchr::memchr;
use resp_io::device::Source;
use resp_line::words_of;
use resp_value::command::Command;
use std::alloc::Global;

/// The lines of an input.
#[derive(Drop)]
pub struct InputLines {
    bytes: BytesMut,
    /// The index of the first byte of the next line.
    at: usize,
    /// The number of lines that were returned.
    count: u64,
    /// Whether the input has ended.
    is_over: bool,
}

impl InputLines {
    /// Returns the lines of an input, before anything was read.
    pub fn new(alloc: Global) -> Self {
        InputLines {
            bytes: BytesMut::new(alloc),
            at: 0,
            count: 0,
            is_over: false,
        }
    }

    /// Returns the next line without its LF, if it was read completely. The last line needs no LF.
    fn next_line(&mut self) -> Option<&[u8]> {
        let rest = self.bytes.as_slice().get(self.at..)?;
        let length = match memchr(b'\n', rest) {
            Some(length) => length,
            None if self.is_over && !rest.is_empty() => rest.len(),
            None => return None,
        };
        self.count = self.count.saturating_add(1);
        self.at = self.at.saturating_add(length).saturating_add(1);
        rest.get(..length)
    }
}

impl CommandInput for InputLines {
    fn next(&mut self, alloc: Global) -> Result<Option<Given>, Failure> {
        for _line in 0..u64::MAX {
            let number = self.count.saturating_add(1);
            let Some(line) = self.next_line() else {
                return Ok(None);
            };
            let length = line.len();
            let words = match words_of(alloc, line) {
                Ok(words) => words,
                Err(error) => return Err(Failure::Line { number, error }),
            };
            // A line of spaces has no command.
            if let Ok(command) = Command::new(words) {
                let place = CommandPlace::Line(number);
                return Ok(Some(Given {
                    command,
                    length,
                    place,
                }));
            }
        }
        Ok(None)
    }

    fn fill<I: Source>(&mut self, input: &mut I) -> Result<bool, Failure> {
        if self.is_over {
            return Ok(false);
        }
        let used = self.at.min(self.bytes.len());
        self.bytes.advance(used);
        self.at = 0;
        let count = read_into(input, &mut self.bytes)?;
        self.is_over = count == 0;
        Ok(true)
    }
}
