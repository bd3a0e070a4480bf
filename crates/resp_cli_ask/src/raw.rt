//! The commands of an input that is RESP.

use crate::commands::{CommandInput, CommandPlace, Given, read_into};
use crate::error::ExchangeError;
use crate::failure::Failure;
use bytes::BytesMut;
use resp_frames::{Begun, FrameError, Frames, Request};
use resp_io::device::Source;
use resp_scan::event::Fault;
use resp_scan::whole::{self, WholeCommand};
use resp_value::cause::Cause;
use resp_value::command::Command;
use resp_value::limits::Limits;
use resp_value::version::Version;
use std::alloc::{AllocError, Global};

/// The commands of an input, each an array of bulk strings. Empty arrays and nulls are skipped, as
/// in Redis.
#[derive(Drop)]
pub struct RawCommands {
    frames: Frames,
    begun: Begun,
    bytes: BytesMut,
    /// The index of the first byte that was not read.
    at: usize,
    /// The bytes of the next command before this index.
    held: u64,
    /// The number of commands that were returned.
    count: u64,
    /// Whether the input has ended.
    is_over: bool,
}

impl RawCommands {
    /// Returns the commands of an input, before anything was read. They are read within these
    /// limits.
    ///
    /// # Errors
    ///
    /// `AllocError` if an allocation fails.
    pub fn new(alloc: Global, limits: &Limits) -> Result<Self, AllocError> {
        Ok(RawCommands {
            frames: Frames::new(alloc, Version::Two, limits)?,
            begun: Begun::new(),
            bytes: BytesMut::new(alloc),
            at: 0,
            held: 0,
            count: 0,
            is_over: false,
        })
    }
}

impl CommandInput for RawCommands {
    fn next(&mut self, alloc: Global) -> Result<Option<Given>, Failure> {
        for _value in 0..u64::MAX {
            let number = self.count.saturating_add(1);
            let Some(rest) = self.bytes.as_slice().get(self.at..) else {
                return Ok(None);
            };
            let request = match self.frames.next_request(&mut self.begun, rest) {
                Ok(request) => request,
                Err(error) => return Err(failure_of(number, error)),
            };
            let Some(request) = request else {
                self.held = self.held.saturating_add(rest.len() as u64);
                self.at = self.bytes.len();
                return Ok(None);
            };
            self.at = self.at.saturating_add(request.used());
            self.held = 0;
            if let Request::Command(found) = request {
                self.count = number;
                let text = found.frame.text();
                return Ok(Some(given(alloc, text, &self.frames.limits(), number)?));
            }
        }
        Ok(None)
    }

    fn fill<I: Source>(&mut self, input: &mut I) -> Result<bool, Failure> {
        if self.is_over {
            return Ok(false);
        }
        let used = self.at.min(self.bytes.len());
        self.bytes.advance(used);
        self.at = 0;
        let count = read_into(input, &mut self.bytes)?;
        self.is_over = count == 0;
        if self.is_over && !self.begun.is_empty() {
            return Err(Failure::Raw {
                number: self.count.saturating_add(1),
                fault: Fault {
                    cause: Cause::Truncated,
                    at: self.held,
                },
            });
        }
        Ok(true)
    }
}

/// Returns the command with the words of this text, which is a whole command.
fn given(alloc: Global, text: &[u8], limits: &Limits, number: u64) -> Result<Given, Failure> {
    let Some(found) = whole::command(text, limits) else {
        return Err(Failure::NotACommand { number });
    };
    match Command::new(words_of(alloc, found)?) {
        Ok(command) => Ok(Given {
            command,
            length: text.len(),
            place: CommandPlace::Command(number),
        }),
        Err(_) => Err(Failure::NotACommand { number }),
    }
}

/// Copies the words of a command.
fn words_of(alloc: Global, command: WholeCommand<'_>) -> Result<Vec<Vec<u8>>, AllocError> {
    let mut words = Vec::new(alloc);
    words.push(Vec::from_slice(alloc, command.name)?)?;
    for word in command.arguments {
        words.push(Vec::from_slice(alloc, word)?)?;
    }
    Ok(words)
}

/// Returns the failure for an error in place of the command with this number.
fn failure_of(number: u64, error: FrameError) -> Failure {
    match error {
        FrameError::Fault(fault) => Failure::Raw { number, fault },
        FrameError::NotACommand => Failure::NotACommand { number },
        FrameError::OutOfMemory => Failure::Ask(ExchangeError::Memory),
    }
}
