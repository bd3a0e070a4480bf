//! The trait that `show`, `check` and `canon` implement. It reads the values of a stream, and
//! writes something for each of them.

ghost use Rattle.std.specs.Prelude.{◌≡◌, ◌≤◌, ◌++◌, ℕ, List, [], length, IfOk, IsErr, IsErrOf, OnOk};
ghost use Rattle.resp_value.specs.Data.{Datum};
ghost use Rattle.resp_scan.specs.Reading.{HasNoSpelling};
ghost use Rattle.resp_io.specs.Live.{flush_fails};
ghost use Rattle.resp_io.specs.Devices.{Appends, failures_after};
ghost use Rattle.resp_value.specs.Rules.{Rules};

use resp_cli_args::tool_error::ToolError;
use resp_io::device::{DeviceFault, Sink};
use resp_io::live::LiveSink;
use resp_scan::event::{Fault, Scanned};

/// Why a value was not read and written completely.
#[derive(Clone, Copy, Debug, PartialEq, Eq)]
pub enum RenderStop {
    /// A byte is not valid, or the input ended inside the value.
    Fault(Fault),
    /// The text is over the limits. No part of it was written.
    OverLimits,
    /// A write failed. The first part of the text was written.
    Write,
    /// An allocation failed.
    Memory,
}

impl From<DeviceFault> for RenderStop {
    ghost use Rattle.resp_cli_stream.specs.declared.rendering.RenderStop.TheVariants.{Write};

    ghost from_gives = { λ _ error. error ≡ Write };

    fn from(_: DeviceFault) -> RenderStop {
        RenderStop::Write
    }
}

impl RenderStop {
    ghost use Rattle.resp_cli_stream.specs.Stops.{error_of};

    /// Returns the error of the program, if the value with this number stopped it.
    pub fn of_value(self, value: u64) -> ToolError
        ensures { result ≡ error_of value self }
    {
        match self {
            RenderStop::Fault(fault) => ToolError::Refused {
                value,
                cause: fault.cause,
                at: fault.at,
            },
            RenderStop::OverLimits => ToolError::OverLimits { value },
            RenderStop::Write => ToolError::Write,
            RenderStop::Memory => ToolError::Memory,
        }
    }
}

/// Writes something for each value of a stream.
pub trait Rendering {
    ghost use Rattle.resp_cli_stream.specs.Counts.{IsAny, LeavesNothing};
    ghost use Rattle.resp_cli_stream.specs.Stops.{failed_to_write};
    ghost use Rattle.resp_cli_stream.specs.Takings.{EndsInput, Takes};

    /// The version and limits under which values are read.
    ghost rules: { Self → Rules };

    /// It has read these bytes of a value, and has written this text for them.
    ghost has_taken: { Self → List ℕ → List ℕ → Type 0 };

    /// The text of a complete value.
    ghost text: { Rules → Datum → List ℕ };

    /// The values that are written. By default all values are.
    ghost is_written: { Rules → Datum → Type 0 } = { λ _. IsAny };

    /// The text that must have been written for a value that begins with these bytes. By default it
    /// is empty.
    ghost is_due: { Rules → List ℕ → List ℕ → Type 0 } = { λ _. LeavesNothing };

    /// The text that was written for a value that ends at these bytes, because the next byte is
    /// rejected or the input ends. By default it is empty.
    ghost is_left: { Rules → List ℕ → List ℕ → Type 0 } = { λ _. LeavesNothing };

    /// The text that may have been written for a value that begins in these bytes. By default it is
    /// empty.
    ghost is_begun: { Rules → List ℕ → List ℕ → Type 0 } = { λ _. LeavesNothing };

    /// Whether an allocation may fail for a value. By default no value needs one.
    ghost takes_memory: { Type 0 } = { ⊥ };

    /// Whether anything is written. By default this is true.
    ghost writes: { Type 0 } = { Unit {0} };

    /// Reads bytes of the piece until a value is complete or the piece ends, and writes the text
    /// for them.
    fn take<W: Sink>(&mut self, piece: &[u8], writer: &mut W) -> Result<Scanned, RenderStop>
        requires { (front : List ℕ) × (so_far : List ℕ) × has_taken self.old front so_far }
        ensures takes { (front so_far : List ℕ) → has_taken self.old front so_far →
            Takes (rules self.old) (text (rules self.old)) (is_written (rules self.old))
            (is_left (rules self.old)) (is_begun (rules self.old)) (has_taken self.new) front
            piece.now so_far (W.written writer.old) (W.written writer.new) result }
        ensures same_rules { rules self.new ≡ rules self.old }
        ensures within_piece { IfOk result (λ scanned. scanned.used ≤ length piece.now) }
        ensures memory_taken { IsErrOf result RenderStop.Memory → takes_memory }
        ensures writes { IsErrOf result RenderStop.Write → writes }
        ensures write_failures { W.failures writer.new ≡
            failures_after (failed_to_write result) (W.failures writer.old) };

    /// Does nothing. Its contract states that the text written for an incomplete value is a prefix
    /// of the text that may be written for it, and contains all text that must be written.
    fn part_stands(&self)
        ensures begun { (front so_far : List ℕ) → has_taken self.now front so_far →
            (later : List ℕ) × is_begun (rules self.now) front (so_far ++ later) }
        ensures not_whole { (front so_far : List ℕ) → has_taken self.now front so_far →
            HasNoSpelling (rules self.now) front }
        ensures due { (front so_far : List ℕ) → has_taken self.now front so_far →
            is_due (rules self.now) front so_far };

    /// Flushes the writer, if anything is written.
    fn flush<W: LiveSink>(&self, writer: &mut W) -> Result<(), DeviceFault>
        ensures same { Appends (W.written writer.old) (W.written writer.new) [] }
        ensures sent { writes → OnOk result (W.sent writer.new ≡ W.written writer.new) }
        ensures fails { IsErr result → writes }
        ensures failures { W.failures writer.new ≡
            failures_after (flush_fails result) (W.failures writer.old) };

    /// Handles the end of the input.
    fn finish<W: Sink>(&mut self, writer: &mut W) -> Result<(), RenderStop>
        requires { (front : List ℕ) × (so_far : List ℕ) × has_taken self.old front so_far }
        ensures ends { (front so_far : List ℕ) → has_taken self.old front so_far →
            EndsInput (rules self.old) (text (rules self.old)) (is_left (rules self.old))
            (is_begun (rules self.old)) front so_far (W.written writer.old)
            (W.written writer.new) result }
        ensures memory_taken { IsErrOf result RenderStop.Memory → takes_memory }
        ensures writes { IsErrOf result RenderStop.Write → writes }
        ensures write_failures { W.failures writer.new ≡
            failures_after (failed_to_write result) (W.failures writer.old) };
}
