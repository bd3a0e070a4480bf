//! Why the commands of a client were not all sent and replied to.

use crate::commands::{CommandPlace, FillError};
use crate::error::ExchangeError;
use resp_client::SendError;
use resp_io::device::{DeviceFault, Sink};
use resp_line::LineError;
use resp_print::text::{write_number, write_quoted, write_text};
use resp_scan::event::Fault;
use resp_value::command::Command;
use std::alloc::{AllocError, Global};

/// Why asking stopped.
#[derive(Drop)]
pub enum Failure {
    /// The connection, the output or an allocation failed, or a reply is wrong.
    Ask(ExchangeError),
    /// A line is not a command.
    Line {
        number: u64,
        error: LineError,
    },
    /// A byte of the command with this number is wrong, or the input ends inside it.
    Raw {
        number: u64,
        fault: Fault,
    },
    /// The value in place of the command with this number is not an array of bulk strings.
    NotACommand {
        number: u64,
    },
    /// The command with this name is not sent.
    Refused {
        place: CommandPlace,
        name: Vec<u8>,
        error: SendError,
    },
    /// The input failed.
    Input,
    /// A write of the output failed.
    Output,
}

impl From<ExchangeError> for Failure {
    fn from(error: ExchangeError) -> Self {
        Failure::Ask(error)
    }
}

impl From<AllocError> for Failure {
    fn from(_: AllocError) -> Self {
        Failure::Ask(ExchangeError::Memory)
    }
}

impl From<FillError> for Failure {
    fn from(error: FillError) -> Self {
        match error {
            FillError::Read => Failure::Input,
            FillError::Memory => Failure::Ask(ExchangeError::Memory),
        }
    }
}

impl Failure {
    /// Returns the exit status: 1 for an error in the input or in a reply, and otherwise 3.
    pub fn status(&self) -> u8 {
        match self {
            Failure::Line { error, .. } if *error == LineError::Memory => 3,
            Failure::Raw { .. } | Failure::NotACommand { .. } => 1,
            Failure::Line { .. } | Failure::Refused { .. } => 1,
            Failure::Ask(ExchangeError::Refused(_)) | Failure::Ask(ExchangeError::Fault(_)) => 1,
            Failure::Ask(_) | Failure::Input | Failure::Output => 3,
        }
    }

    /// Returns whether a line of the input is not a command, or a command that is not sent. The
    /// lines after it can be sent.
    pub fn is_of_line(&self) -> bool {
        match self {
            Failure::Line { error, .. } => *error != LineError::Memory,
            Failure::Refused {
                place: CommandPlace::Line(_),
                error,
                ..
            } => *error != SendError::OutOfMemory,
            _ => false,
        }
    }

    /// Returns whether a read failed.
    pub fn is_of_read(&self) -> bool {
        matches!(self, Failure::Ask(ExchangeError::Read) | Failure::Input)
    }

    /// Returns whether a write of the output failed.
    pub fn is_of_output(&self) -> bool {
        matches!(self, Failure::Ask(ExchangeError::Output) | Failure::Output)
    }

    /// Returns whether a write failed.
    pub fn is_of_write(&self) -> bool {
        matches!(
            self,
            Failure::Ask(ExchangeError::Write)
                | Failure::Ask(ExchangeError::Output)
                | Failure::Output
        )
    }

    /// Writes the line for standard error, with an LF. The next reply has the number `reply`.
    pub fn write<F: Sink>(&self, reply: u64, faults: &mut F) -> Result<(), DeviceFault> {
        match self {
            Failure::Line { number, error } => write_line_error(*number, *error, faults),
            Failure::Raw { number, fault } => write_fault(b"command ", *number, *fault, faults),
            Failure::NotACommand { number } => write_number(
                faults,
                b"command ",
                *number,
                b": the value is not an array of bulk strings\n",
            ),
            Failure::Refused { place, name, error } => {
                place.write(faults)?;
                write_refusal(name.as_slice(), *error, faults)
            }
            Failure::Ask(ExchangeError::Fault(fault)) => {
                write_fault(b"reply ", reply, *fault, faults)
            }
            Failure::Ask(ExchangeError::Refused(error)) => write_refusal(b"", *error, faults),
            Failure::Ask(ExchangeError::Memory) => write_text(faults, b"out of memory\n"),
            Failure::Ask(ExchangeError::Ended) => {
                write_text(faults, b"read failed: the server closed the connection\n")
            }
            Failure::Ask(ExchangeError::Read) | Failure::Input => {
                write_text(faults, b"read failed\n")
            }
            Failure::Ask(ExchangeError::Write)
            | Failure::Ask(ExchangeError::Output)
            | Failure::Output => { write_text(faults, b"write failed\n") }
            Failure::Ask(ExchangeError::TooManyTurns) => write_text(faults, b"too many turns\n"),
        }
    }
}

/// Writes why a line is not a command.
fn write_line_error<F: Sink>(
    number: u64,
    error: LineError,
    faults: &mut F,
) -> Result<(), DeviceFault> {
    match error {
        LineError::Open { at } => {
            write_number(faults, b"line ", number, b": the quote at byte ")?;
            write_number(faults, b"", at as u64, b" is not closed\n")
        }
        LineError::NoSpace { at } => {
            write_number(
                faults,
                b"line ",
                number,
                b": no space after the closing quote, at byte ",
            )?;
            write_number(faults, b"", at as u64, b"\n")
        }
        LineError::Memory => write_text(faults, b"out of memory\n"),
    }
}

/// Writes the error of a command or a reply, and its byte.
fn write_fault<F: Sink>(
    what: &[u8],
    number: u64,
    fault: Fault,
    faults: &mut F,
) -> Result<(), DeviceFault> {
    write_number(faults, what, number, b": ")?;
    write_text(faults, fault.cause.name().as_bytes())?;
    write_number(faults, b" at byte ", fault.at, b"\n")
}

/// Writes why a command with this name is not sent.
fn write_refusal<F: Sink>(
    name: &[u8],
    error: SendError,
    faults: &mut F,
) -> Result<(), DeviceFault> {
    write_text(faults, b"\"")?;
    write_quoted(faults, name)?;
    match error {
        SendError::BadCommand => write_text(
            faults,
            b"\" is not sent: it does not have exactly one reply, or it changes the version\n",
        ),
        SendError::TooLarge => write_text(faults, b"\" is not sent: it exceeds a limit\n"),
        SendError::TooMany => write_text(faults, b"\" is not sent: too many commands were sent\n"),
        SendError::OutOfMemory => write_text(faults, b"\" is not sent: out of memory\n"),
    }
}

/// Returns the failure for a command that is not sent.
pub(crate) fn refused(
    alloc: Global,
    place: CommandPlace,
    command: &Command,
    error: SendError,
) -> Result<Failure, AllocError> {
    let name = match command.words().first() {
        Some(name) => Vec::from_slice(alloc, name.as_slice())?,
        None => Vec::new(alloc),
    };
    Ok(Failure::Refused { place, name, error })
}
