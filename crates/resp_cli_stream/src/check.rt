//! `check`: counts the values and bytes of a stream.

ghost use Rattle.std.specs.Prelude.{◌≡◌, ◌≤◌, ℕ, List, [], Some, IfErr, IfSome, IsErrOf};
ghost use Rattle.resp_cli_stream.specs.Counts.{Counts, counts_line};
ghost use Rattle.resp_cli_stream.specs.Streams.{AreRead, AtEnd, IsNeverOver, UsesReader, failed_to_write};
ghost use Rattle.resp_print.specs.Written.{WritesText};
ghost use Rattle.resp_io.specs.Devices.{failures_after};
ghost use Rattle.resp_value.specs.Rules.{rules_under};

use crate::rendering::{RenderStop, Rendering};
use crate::stream::{MOST_READS, Totals, render_stream};
use resp_cli_args::tool_error::ToolError;
use resp_io::device::{DeviceFault, Sink};
use resp_io::live::{LiveSink, LiveSource};
use resp_print::text::write_number;
use resp_scan::event::{ScanError, Scanned};
use resp_scan::nobody::Nobody;
use resp_scan::scanner::Scanner;
use resp_value::limits::Limits;
use resp_value::version::Version;
use std::alloc::Global;

/// Writes nothing for a value.
#[derive(Drop)]
struct Unwritten {
    scanner: Scanner,
}

impl Rendering for Unwritten {
    ghost use Rattle.resp_scan.specs.Kinds.{rules_of};
    ghost use Rattle.resp_cli_stream.specs.Counts.{no_text};
    ghost use Rattle.resp_cli_stream.specs.Scans.{HasLookedAt};

    ghost rules = { λ u. rules_of u.scanner };

    ghost has_taken = { λ u. HasLookedAt u.scanner };

    ghost text = { λ _. no_text };

    ghost writes = { ⊥ };

    fn take<W: Sink>(&mut self, piece: &[u8], _writer: &mut W) -> Result<Scanned, RenderStop> {
        match self.scanner.scan(piece, &mut Nobody::<0>) {
            Ok(scanned) => Ok(scanned),
            Err(ScanError::Fault(fault)) => Err(RenderStop::Fault(fault)),
            // `Nobody` never stops.
            Err(ScanError::Stopped { .. }) => unreachable!(),
        }
    }

    fn part_stands(&self) {}

    fn flush<W: LiveSink>(&self, _writer: &mut W) -> Result<(), DeviceFault> {
        Ok(())
    }

    fn finish<W: Sink>(&mut self, _writer: &mut W) -> Result<(), RenderStop> {
        // The bytes that were read are viable: this call states it.
        let _viable = self.scanner.taken();
        self.scanner.finish().map_err(RenderStop::Fault)
    }
}

/// Reads a stream with reads of at most `piece` bytes, and writes the line of counts at its end.
/// `piece` is from 1 to 65,536. The call allocates the bytes of one read.
///
/// # Errors
///
/// - [`ToolError::Refused`] at the first byte that no valid value can contain at its place, or if
///   the input ends inside a value; [`ToolError::TooManyValues`] if bytes follow the first
///   1,000,000,000 values; [`ToolError::Read`] if a read fails; [`ToolError::TooManyTurns`] after
///   4,000,000,000 reads. Nothing was written.
/// - [`ToolError::Memory`] if the allocation fails. Nothing was read or written.
/// - [`ToolError::Write`] if a write fails. The first part of the line was written.
pub fn check<R: LiveSource<W>, W: LiveSink>(
    alloc: Global,
    version: Version,
    limits: &Limits,
    piece: usize,
    reader: &mut R,
    writer: &mut W,
) -> Result<(), ToolError>
    requires { (1 ≤ piece) × (piece ≤ 65536) }
    // For the bytes that were read: the line of their counts if the result is Ok, and the error.
    ensures counted { (bytes : List ℕ) × AreRead (R.remaining reader.old) (R.remaining reader.new)
        bytes × Counts (rules_under version limits.now) bytes (W.written writer.old)
        (W.written writer.new) result }
    ensures read_to_its_end { AtEnd result (IfSome (R.remaining reader.old) (λ _.
        R.remaining reader.new ≡ Some [])) }
    ensures read_before_written { IsErrOf result ToolError.Write →
        IfSome (R.remaining reader.old) (λ _. R.remaining reader.new ≡ Some []) }
    ensures never_over_limits { IfErr result IsNeverOver }

    // A failed device or allocation.
    ensures reads { UsesReader MOST_READS result (R.calls reader.old) (R.calls reader.new)
        (R.failures reader.old) (R.failures reader.new) }
    ensures write_failures { W.failures writer.new ≡
        failures_after (failed_to_write result) (W.failures writer.old) }
    ensures no_buffer { IsErrOf result ToolError.Memory →
        (writer.new ≡ writer.old) × (reader.new ≡ reader.old) }
{
    let mut unwritten = Unwritten {
        scanner: Scanner::new(version, limits),
    };
    let totals = render_stream(alloc, &mut unwritten, piece, reader, writer)?;
    Ok(write_counts(writer, totals)?)
}

/// Writes the line of counts.
fn write_counts<W: Sink>(writer: &mut W, totals: Totals) -> Result<(), DeviceFault>
    ensures { WritesText (W.written writer.old) (W.written writer.new) (W.failures writer.old)
        (W.failures writer.new) result (counts_line totals.values totals.bytes) }
{
    write_number(writer, b"values ", totals.values, b" ")?;
    write_number(writer, b"bytes ", totals.bytes, b"\n")
}
