//! `show --json`: writes each value of a stream as a line of JSON.

ghost use Rattle.std.specs.Prelude.{◌≡◌, ◌≤◌, ℕ, List, [], Some, IfSome};
ghost use Rattle.resp_json.specs.Json.{json_line};
ghost use Rattle.resp_cli_stream.specs.Counts.{IsAny, LeavesNothing};
ghost use Rattle.resp_cli_stream.specs.Decoded.{stop_of};
ghost use Rattle.resp_cli_stream.specs.Live.{EachRead, IsLive};
ghost use Rattle.resp_cli_stream.specs.Streams.{AreRead, AtEnd, Renders, UsesReader, failed_to_write};
ghost use Rattle.resp_io.specs.Devices.{failures_after};
ghost use Rattle.resp_value.specs.Rules.{rules_under};

use crate::rendering::{RenderStop, Rendering};
use crate::stream::{MOST_READS, render_stream};
use resp_cli_args::tool_error::ToolError;
use resp_decode::decoder::Decoder;
use resp_io::device::{DeviceFault, Sink};
use resp_io::live::{LiveSink, LiveSource};
use resp_json::value::write_json_line;
use resp_scan::event::{Fault, Scanned};
use resp_value::cause::Cause;
use resp_value::limits::Limits;
use resp_value::version::Version;
use std::alloc::Global;

/// Writes the line of each value once it is complete.
#[derive(Drop)]
struct JsonLines {
    decoder: Decoder,
}

impl Rendering for JsonLines {
    ghost use Rattle.resp_decode.specs.Decoding.{rules_of};
    ghost use Rattle.resp_cli_stream.specs.Decoded.{HasDecoded};

    ghost rules = { λ j. rules_of j.decoder };

    ghost has_taken = { λ j. HasDecoded j.decoder };

    ghost text = { λ _. json_line };

    ghost takes_memory = { Unit {0} };

    fn take<W: Sink>(&mut self, piece: &[u8], writer: &mut W) -> Result<Scanned, RenderStop> {
        let fed = self.decoder.feed(piece).map_err(stop_of)?;
        if let Some(value) = &fed.value {
            write_json_line(value, writer)?;
        }
        Ok(Scanned {
            used: fed.used,
            is_whole: fed.value.is_some(),
        })
    }

    fn part_stands(&self) {}

    fn flush<W: LiveSink>(&self, writer: &mut W) -> Result<(), DeviceFault> {
        writer.flush()
    }

    fn finish<W: Sink>(&mut self, _writer: &mut W) -> Result<(), RenderStop> {
        // The bytes that were read are viable: this call states it.
        let _viable = self.decoder.taken();
        self.decoder.finish().map_err(RenderStop::Fault)
    }
}

/// Returns why a value was not read, given the fault of the decoder.
fn stop_of(fault: Fault) -> RenderStop
    ensures { result ≡ stop_of fault }
{
    match fault.cause {
        Cause::OutOfMemory => RenderStop::Memory,
        _ => RenderStop::Fault(fault),
    }
}

/// Reads a stream with reads of at most `piece` bytes, and writes the line of each value as JSON
/// when the value is complete. `piece` is from 1 to 65,536. The writer is flushed before each read;
/// the caller flushes it at the end. The call allocates the bytes of one read, and the value that is
/// being read.
///
/// # Errors
///
/// - [`ToolError::Refused`] at the first byte that no valid value can contain at its place, or if
///   the input ends inside a value; [`ToolError::TooManyValues`] if bytes follow the first
///   1,000,000,000 values. The lines of the values before the error were written, and nothing of the
///   value with the error.
/// - [`ToolError::Read`], [`ToolError::Write`], [`ToolError::Memory`], and
///   [`ToolError::TooManyTurns`] after 4,000,000,000 reads. The first part of the lines was written.
pub fn show_json<R: LiveSource<W>, W: LiveSink>(
    alloc: Global,
    version: Version,
    limits: &Limits,
    piece: usize,
    reader: &mut R,
    writer: &mut W,
) -> Result<(), ToolError>
    requires { (1 ≤ piece) × (piece ≤ 65536) }
    // For the bytes that were read: the line of each value, and the error.
    ensures written { (bytes : List ℕ) × AreRead (R.remaining reader.old) (R.remaining reader.new)
        bytes × Renders (rules_under version limits.now) json_line IsAny LeavesNothing
        LeavesNothing bytes (W.written writer.old) (W.written writer.new) result }
    ensures read_to_its_end { AtEnd result (IfSome (R.remaining reader.old) (λ _.
        R.remaining reader.new ≡ Some [])) }
    // Before each read, the lines of all complete values were sent.
    ensures live { EachRead (R.looks reader.old) (R.looks reader.new)
        (IsLive (rules_under version limits.now) json_line LeavesNothing (R.remaining reader.old)
        (W.written writer.old)) }

    // A failed device or allocation.
    ensures reads { UsesReader MOST_READS result (R.calls reader.old) (R.calls reader.new)
        (R.failures reader.old) (R.failures reader.new) }
    ensures write_failures { W.failures writer.new ≡
        failures_after (failed_to_write result) (W.failures writer.old) }
{
    let mut lines = JsonLines {
        decoder: Decoder::new(alloc, version, limits),
    };
    render_stream(alloc, &mut lines, piece, reader, writer)?;
    Ok(())
}
