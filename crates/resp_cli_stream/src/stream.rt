//! The loop that reads a stream, for `show`, `check` and `canon`.

ghost use Rattle.std.specs.Prelude.{◌≡◌, ◌⊎◌, ◌+◌, ◌≤◌, ◌++◌, ℕ, List, [], Option, Some, IfErr, IfOk, IfSome, IsErrOf};
ghost use Rattle.resp_cli_stream.specs.Live.{EachRead, IsLive};
ghost use Rattle.resp_cli_stream.specs.Streams.{AreRead, AtEnd, HasRendered, IsBeforeEnd, IsRenderingError, RendersStopped, RendersStream, UsesReader, failed_to_write};
ghost use Rattle.resp_io.specs.Devices.{failures_after};

use crate::rendering::Rendering;
use resp_cli_args::tool_error::{MOST_VALUES, ToolError};
use resp_io::device::{DeviceFault, Sink};
use resp_io::live::{LiveSink, LiveSource};
use resp_value::laws;
use std::alloc::Global;

/// The maximum number of reads of one run.
pub const MOST_READS: u64 = 4_000_000_000;

/// The number of values and bytes that were read.
#[derive(Clone, Copy, Debug, PartialEq, Eq)]
pub struct Totals {
    /// The number of values.
    pub values: u64,
    /// The number of bytes.
    pub bytes: u64,
}

/// Reads a stream to its end with reads of at most `piece` bytes, and writes the text for each
/// value. The writer is flushed before each read.
///
/// # Errors
///
/// Fails as [`ToolError`] describes.
pub fn render_stream<T: Rendering, R: LiveSource<W>, W: LiveSink>(
    alloc: Global,
    rendering: &mut T,
    piece: usize,
    reader: &mut R,
    writer: &mut W,
) -> Result<Totals, ToolError>
    requires piece_in_range { (1 ≤ piece) × (piece ≤ 65536) }
    requires nothing_taken { T.has_taken rendering.old [] [] }
    // Some bytes were read, and this is the result for them.
    ensures rendered { (bytes : List ℕ) × AreRead (R.remaining reader.old) (R.remaining reader.new)
        bytes × RendersStream (T.rules rendering.old) (T.text (T.rules rendering.old))
        (T.is_written (T.rules rendering.old)) (T.is_left (T.rules rendering.old))
        (T.is_begun (T.rules rendering.old)) bytes (W.written writer.old) (W.written writer.new)
        result }
    ensures read_to_its_end { AtEnd result (IfSome (R.remaining reader.old) (λ _.
        R.remaining reader.new ≡ Some [])) }
    ensures live { T.writes → EachRead (R.looks reader.old) (R.looks reader.new)
        (IsLive (T.rules rendering.old) (T.text (T.rules rendering.old))
        (T.is_due (T.rules rendering.old)) (R.remaining reader.old) (W.written writer.old)) }

    // A failed device or allocation.
    ensures reads { UsesReader MOST_READS result (R.calls reader.old) (R.calls reader.new)
        (R.failures reader.old) (R.failures reader.new) }
    ensures write_failures { W.failures writer.new ≡
        failures_after (failed_to_write result) (W.failures writer.old) }
    ensures writes { IsErrOf result ToolError.Write → T.writes }
    ensures no_buffer { IsErrOf result ToolError.Memory →
        T.takes_memory ⊎ (writer.new ≡ writer.old) × (reader.new ≡ reader.old) }
{
    laws::no_spelling_is_empty();
    rendering.part_stands();
    let mut buffer = vec![in alloc; 0u8; piece]?;
    let mut totals = Totals {
        values: 0,
        bytes: 0,
    };
    for _ in 0..MOST_READS {
        rendering.part_stands();
        if let Err(DeviceFault) = rendering.flush(writer) {
            return Err(ToolError::Write);
        }
        let count = match reader.read_beside(buffer.as_mut_slice(), writer) {
            Ok(count) => count,
            Err(_) => return Err(ToolError::Read),
        };
        if count == 0 {
            if let Err(stop) = rendering.finish(writer) {
                return Err(stop.of_value(totals.values + 1));
            }
            return Ok(totals);
        }
        totals.values = match render_piece(rendering, totals.values, &buffer[..count], writer) {
            Ok(values) => values,
            Err(error) => return Err(error),
        };
        totals.bytes += count as u64;
    }
    rendering.part_stands();
    Err(ToolError::TooManyTurns)
}

/// Writes the text for the values in a piece, and returns the number of all complete values.
fn render_piece<T: Rendering, W: Sink>(
    rendering: &mut T,
    before: u64,
    piece: &[u8],
    writer: &mut W,
) -> Result<u64, ToolError>
    requires few { before ≤ 1000000000 }
    requires stands { (bytes : List ℕ) × (start : Option (List ℕ)) ×
        HasRendered (T.rules rendering.old) (T.text (T.rules rendering.old))
        (T.is_written (T.rules rendering.old)) (T.has_taken rendering.old) bytes start
        (W.written writer.old) before }
    ensures goes_on { (bytes : List ℕ) (start : Option (List ℕ)) →
        HasRendered (T.rules rendering.old) (T.text (T.rules rendering.old))
        (T.is_written (T.rules rendering.old)) (T.has_taken rendering.old) bytes start
        (W.written writer.old) before →
        IfOk result (HasRendered (T.rules rendering.old) (T.text (T.rules rendering.old))
        (T.is_written (T.rules rendering.old)) (T.has_taken rendering.new)
        (bytes ++ piece.now) start (W.written writer.new)) }
    ensures stops { (bytes : List ℕ) (start : Option (List ℕ)) →
        HasRendered (T.rules rendering.old) (T.text (T.rules rendering.old))
        (T.is_written (T.rules rendering.old)) (T.has_taken rendering.old) bytes start
        (W.written writer.old) before →
        IfErr result (RendersStopped (T.rules rendering.old) (T.text (T.rules rendering.old))
        (T.is_written (T.rules rendering.old)) (T.is_left (T.rules rendering.old))
        (T.is_begun (T.rules rendering.old)) (bytes ++ piece.now) start (W.written writer.new)) }
    ensures few { IfOk result (λ count. count ≤ 1000000000) }
    ensures same_rules { T.rules rendering.new ≡ T.rules rendering.old }
    ensures before_end { IfErr result IsBeforeEnd }
    ensures not_reading { IfErr result IsRenderingError }
    ensures memory_taken { IsErrOf result ToolError.Memory → T.takes_memory }
    ensures writes { IsErrOf result ToolError.Write → T.writes }
    ensures write_failures { W.failures writer.new ≡
        failures_after (failed_to_write result) (W.failures writer.old) }
{
    // No value is empty, so each value leaves fewer bytes.
    laws::no_spelling_is_empty();
    let mut values = before;
    let mut rest = piece;
    while !rest.is_empty() {
        if values == MOST_VALUES {
            return Err(ToolError::TooManyValues);
        }
        match rendering.take(rest, writer) {
            Ok(taken) => {
                rest = &rest[taken.used..];
                if taken.is_whole {
                    values += 1;
                }
            }
            Err(stop) => return Err(stop.of_value(values + 1)),
        }
    }
    Ok(values)
}
