//! `show`: writes each value of a stream as lines of text.

ghost use Rattle.std.specs.Prelude.{◌≡◌, ◌≤◌, ℕ, List, [], Some, IfErr, IfSome, IsErrOf};
ghost use Rattle.resp_cli_stream.specs.Counts.{IsAny};
ghost use Rattle.resp_cli_stream.specs.Live.{EachRead, IsLive};
ghost use Rattle.resp_cli_stream.specs.Scans.{IsShownDue, IsShownIn, IsShownOf};
ghost use Rattle.resp_print.specs.Shown.{shown_text};
ghost use Rattle.resp_cli_stream.specs.Streams.{AreRead, AtEnd, IsNeverOver, Renders, UsesReader, failed_to_write};
ghost use Rattle.resp_io.specs.Devices.{failures_after};
ghost use Rattle.resp_value.specs.Rules.{rules_under};

use crate::lines::Lines;
use crate::printer::print_piece;
use crate::rendering::{RenderStop, Rendering};
use crate::stream::{MOST_READS, render_stream};
use resp_cli_args::tool_error::ToolError;
use resp_io::device::{DeviceFault, Sink};
use resp_io::live::{LiveSink, LiveSource};
use resp_scan::event::{ScanError, Scanned};
use resp_scan::scanner::Scanner;
use resp_value::limits::Limits;
use resp_value::version::Version;
use std::alloc::Global;

/// Writes each value as lines of text.
#[derive(Drop)]
struct ShowLines {
    scanner: Scanner,
    lines: Lines,
}

impl Rendering for ShowLines {
    ghost use Rattle.resp_scan.specs.Kinds.{rules_of};
    ghost use Rattle.resp_cli_stream.specs.Scans.{HasShown};

    ghost rules = { λ s. rules_of s.scanner };

    ghost has_taken = { λ s. HasShown s.scanner s.lines };

    ghost text = { λ _. shown_text };

    ghost is_due = { λ _. IsShownDue };

    ghost is_left = { λ _. IsShownOf };

    ghost is_begun = { IsShownIn };

    fn take<W: Sink>(&mut self, piece: &[u8], writer: &mut W) -> Result<Scanned, RenderStop> {
        match print_piece(&mut self.scanner, piece, &mut self.lines, writer) {
            Ok(scanned) => Ok(scanned),
            Err(ScanError::Fault(fault)) => match self.lines.end_line(writer) {
                Ok(()) => Err(RenderStop::Fault(fault)),
                Err(_) => Err(RenderStop::Write),
            },
            Err(ScanError::Stopped { .. }) => Err(RenderStop::Write),
        }
    }

    fn part_stands(&self) {
        // The bytes that were scanned are viable: this call states it.
        let _taken = self.scanner.taken();
    }

    fn flush<W: LiveSink>(&self, writer: &mut W) -> Result<(), DeviceFault> {
        writer.flush()
    }

    fn finish<W: Sink>(&mut self, writer: &mut W) -> Result<(), RenderStop> {
        // The bytes that were scanned are viable: this call states it.
        let _viable = self.scanner.taken();
        match self.scanner.finish() {
            Ok(()) => Ok(()),
            Err(fault) => match self.lines.end_line(writer) {
                Ok(()) => Err(RenderStop::Fault(fault)),
                Err(_) => Err(RenderStop::Write),
            },
        }
    }
}

/// Reads a stream with reads of at most `piece` bytes, and writes the lines of each value as its
/// bytes arrive. `piece` is from 1 to 65,536. The writer is flushed before each read; the caller
/// flushes it at the end. The call allocates the bytes of one read.
///
/// # Errors
///
/// - [`ToolError::Refused`] at the first byte that no valid value can contain at its place, or if
///   the input ends inside a value; [`ToolError::TooManyValues`] if bytes follow the first
///   1,000,000,000 values. The lines of the values before the error, and of the part of the value
///   before it, were written.
/// - [`ToolError::Read`] and [`ToolError::Write`] if a device fails, and
///   [`ToolError::TooManyTurns`] after 4,000,000,000 reads. The first part of the lines was
///   written.
/// - [`ToolError::Memory`] if the allocation fails. Nothing was read or written.
pub fn show<R: LiveSource<W>, W: LiveSink>(
    alloc: Global,
    version: Version,
    limits: &Limits,
    piece: usize,
    reader: &mut R,
    writer: &mut W,
) -> Result<(), ToolError>
    requires { (1 ≤ piece) × (piece ≤ 65536) }
    // For the bytes that were read: the lines of each value, and the error.
    ensures written { (bytes : List ℕ) × AreRead (R.remaining reader.old) (R.remaining reader.new)
        bytes × Renders (rules_under version limits.now) shown_text IsAny IsShownOf
        (IsShownIn (rules_under version limits.now)) bytes (W.written writer.old)
        (W.written writer.new) result }
    ensures read_to_its_end { AtEnd result (IfSome (R.remaining reader.old) (λ _.
        R.remaining reader.new ≡ Some [])) }
    ensures never_over_limits { IfErr result IsNeverOver }
    // Before each read, the lines for all bytes that were read before were sent.
    ensures live { EachRead (R.looks reader.old) (R.looks reader.new)
        (IsLive (rules_under version limits.now) shown_text IsShownDue (R.remaining reader.old)
        (W.written writer.old)) }

    // A failed device or allocation.
    ensures reads { UsesReader MOST_READS result (R.calls reader.old) (R.calls reader.new)
        (R.failures reader.old) (R.failures reader.new) }
    ensures write_failures { W.failures writer.new ≡
        failures_after (failed_to_write result) (W.failures writer.old) }
    ensures no_buffer { IsErrOf result ToolError.Memory →
        (writer.new ≡ writer.old) × (reader.new ≡ reader.old) }
{
    let mut shown = ShowLines {
        scanner: Scanner::new(version, limits),
        lines: Lines::new(),
    };
    render_stream(alloc, &mut shown, piece, reader, writer)?;
    Ok(())
}
