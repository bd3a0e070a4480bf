//! The errors of the program, the lines that it prints for them, and its exit statuses.

ghost use Rattle.std.specs.Prelude.{◌≡◌};
ghost use Rattle.resp_print.specs.Written.{WritesText};
ghost use Rattle.resp_cli_args.specs.Tried.{refusal_line};
ghost use Rattle.resp_cli_args.specs.declared.tool_error.ToolError.TheVariants.{Memory, Write};

use resp_io::device::{DeviceFault, Sink};
use resp_print::text::{write_number, write_text};
use resp_value::cause::Cause;
use std::alloc::AllocError;
use thiserror::Error;

/// The maximum number of values of one run.
pub const MOST_VALUES: u64 = 1_000_000_000;

/// Why a stream was not shown, checked or rewritten to its end.
#[derive(Clone, Copy, Debug, PartialEq, Eq, Error)]
pub enum ToolError {
    /// The value with this number, counted from 1, has an error at this byte, counted from 0.
    #[error("value {value}: {cause:?} at byte {at}")]
    Refused { value: u64, cause: Cause, at: u64 },
    /// The canonical text of the value with this number, counted from 1, is over the limits.
    #[error("value {value}: the canonical text exceeds the limits")]
    OverLimits { value: u64 },
    /// Bytes follow the first 1,000,000,000 values.
    #[error("too many values")]
    TooManyValues,
    /// A read failed.
    #[error("read failed")]
    Read,
    /// A write failed, or wrote no byte.
    #[error("write failed")]
    Write,
    /// The input did not end within 4,000,000,000 reads.
    #[error("too many reads")]
    TooManyTurns,
    /// An allocation failed.
    #[error("out of memory")]
    Memory,
}

impl From<AllocError> for ToolError {
    ghost from_gives = { λ _ error. error ≡ Memory };

    fn from(_: AllocError) -> ToolError {
        ToolError::Memory
    }
}

impl From<DeviceFault> for ToolError {
    ghost from_gives = { λ _ error. error ≡ Write };

    fn from(_: DeviceFault) -> ToolError {
        ToolError::Write
    }
}

/// Writes the line of an error in a value.
fn write_refusal<W: Sink>(
    writer: &mut W,
    value: u64,
    name: &[u8],
    at: u64,
) -> Result<(), DeviceFault>
    ensures { WritesText (W.written writer.old) (W.written writer.new) (W.failures writer.old)
        (W.failures writer.new) result (refusal_line value name.now at) }
{
    write_number(writer, b"value ", value, b": ")?;
    write_text(writer, name)?;
    write_number(writer, b" at byte ", at, b"\n")
}

impl ToolError {
    ghost use Rattle.resp_cli_args.specs.Faults.{fault_line, status_of};

    /// Writes the line for standard error, with an LF.
    ///
    /// # Errors
    ///
    /// `DeviceFault` if a write fails. The first part of the line was written.
    pub fn line<W: Sink>(&self, writer: &mut W) -> Result<(), DeviceFault>
        ensures { WritesText (W.written writer.old) (W.written writer.new) (W.failures writer.old)
            (W.failures writer.new) result (fault_line self.now) }
    {
        match self {
            ToolError::Refused { value, cause, at } => {
                write_refusal(writer, *value, cause.name().as_bytes(), *at)
            }
            ToolError::OverLimits { value } => {
                write_number(writer, b"value ", *value, b": OverLimits\n")
            }
            ToolError::TooManyValues => {
                write_text(writer, b"value 1000000001: TooManyValues at byte 0\n")
            }
            ToolError::Read => write_text(writer, b"read failed\n"),
            ToolError::Write => write_text(writer, b"write failed\n"),
            ToolError::TooManyTurns => write_text(writer, b"too many turns\n"),
            ToolError::Memory => write_text(writer, b"out of memory\n"),
        }
    }

    /// Returns the exit status of the program: 1 for an error in the input, and 3 if a device or an
    /// allocation failed or there were too many reads.
    pub fn status(&self) -> u8
        ensures { result ≡ status_of self.now }
    {
        match self {
            ToolError::Refused { .. } | ToolError::OverLimits { .. } | ToolError::TooManyValues =>
                1,
            ToolError::Read | ToolError::Write | ToolError::TooManyTurns | ToolError::Memory => 3,
        }
    }
}
