//! `canon`: writes the canonical text of each value of a stream.

ghost use Rattle.std.specs.Prelude.{◌≡◌, ◌⊎◌, ◌<◌, ◌≤◌, ℕ, List, [], length, Some, IfErr, IfSome, IsErrOf, OnOk};
ghost use Rattle.resp_cli_args.specs.Tried.{BreaksText, WritesWhole};
ghost use Rattle.resp_decode.specs.Builds.{nothing};
ghost use Rattle.resp_cli_stream.specs.Counts.{LeavesNothing};
ghost use Rattle.resp_cli_stream.specs.Drafts.{IsDraftOf};
ghost use Rattle.resp_cli_stream.specs.Live.{EachRead, IsLive};
ghost use Rattle.resp_cli_stream.specs.Streams.{AreRead, AtEnd, Renders, UsesReader, failed_to_write};
ghost use Rattle.resp_value.specs.Canonical.{canonical_text, Fits};
ghost use Rattle.resp_value.specs.Data.{Datum};
ghost use Rattle.resp_io.specs.Devices.{failures_after};
ghost use Rattle.resp_value.specs.Rules.{rules_under};

use crate::draft::Draft;
use crate::rendering::{RenderStop, Rendering};
use crate::stream::{MOST_READS, render_stream};
use resp_cli_args::tool_error::ToolError;
use resp_io::device::{DeviceFault, Sink};
use resp_io::live::{LiveSink, LiveSource};
use resp_print::text::write_text;
use resp_scan::event::{ScanError, Scanned};
use resp_scan::scanner::Scanner;
use resp_value::laws;
use resp_value::limits::Limits;
use resp_value::version::Version;
use std::alloc::Global;

/// The initial capacity for a text, in bytes.
const ROOM: usize = 4_096;

/// Writes each value in its canonical text, in one version and under limits.
#[derive(Drop)]
struct Canonical<'a> {
    version: Version,
    limits: &'a Limits,
    scanner: Scanner,
    /// Builds each text before it is written.
    draft: Draft,
}

impl Rendering for Canonical<'_> {
    ghost use Rattle.resp_cli_stream.specs.Drafts.{HasBegunDraft};

    ghost rules = { λ c. rules_under c.version c.limits.now };

    ghost has_taken = { λ c.
        HasBegunDraft (rules_under c.version c.limits.now) c.scanner c.draft };

    ghost text = { λ rules. canonical_text rules.version };

    ghost is_written = { Fits };

    ghost takes_memory = { Unit {0} };

    fn take<W: Sink>(&mut self, piece: &[u8], writer: &mut W) -> Result<Scanned, RenderStop> {
        laws::what_was_read_can_be_written();
        let scanned = match self.scanner.scan(piece, &mut self.draft) {
            Ok(scanned) => scanned,
            Err(ScanError::Fault(fault)) => return Err(RenderStop::Fault(fault)),
            Err(ScanError::Stopped { .. }) => return Err(RenderStop::Memory),
        };
        if scanned.is_whole {
            write_draft(&mut self.draft, self.limits, writer)?;
        }
        Ok(scanned)
    }

    fn part_stands(&self) {}

    fn flush<W: LiveSink>(&self, writer: &mut W) -> Result<(), DeviceFault> {
        writer.flush()
    }

    fn finish<W: Sink>(&mut self, _writer: &mut W) -> Result<(), RenderStop> {
        // The bytes that were read are viable: this call states it.
        let _viable = self.scanner.taken();
        self.scanner.finish().map_err(RenderStop::Fault)
    }
}

/// Writes the text of a complete value, and prepares for the next one.
///
/// If the text is over the limit of total, the call fails and writes nothing. If a write fails, the
/// first part of the text was written.
#[inline(always)]
fn write_draft<W: Sink>(
    draft: &mut Draft,
    limits: &Limits,
    writer: &mut W,
) -> Result<(), RenderStop>
    ensures whole { OnOk result (WritesWhole (W.written writer.old) (W.written writer.new)
        (W.failures writer.old) (W.failures writer.new) draft.old.text.items) }
    ensures within_total { OnOk result (length draft.old.text.items ≤ limits.now.total) }
    ensures next { OnOk result ((x : Datum) →
        IsDraftOf draft.old (record nothing { whole = Some x }) → IsDraftOf draft.new nothing) }
    ensures same_version { draft.new.version ≡ draft.old.version }
    ensures over_total { IsErrOf result RenderStop.OverLimits → (writer.new ≡ writer.old)
        × (limits.now.total < length draft.old.text.items) }
    ensures part { IsErrOf result RenderStop.Write → BreaksText (W.written writer.old)
        (W.written writer.new) (W.failures writer.old) (W.failures writer.new)
        draft.old.text.items }
    ensures stops { IfErr result (λ stop. (stop ≡ RenderStop.OverLimits) ⊎ (stop ≡ RenderStop.Write)) }
{
    let text = draft.text();
    if (text.len() as u64) > limits.total() {
        return Err(RenderStop::OverLimits);
    }
    write_text(writer, text)?;
    draft.clear();
    Ok(())
}

/// Reads a stream with reads of at most `piece` bytes, and writes the canonical text of each value,
/// in the same version, when the value is complete. `piece` is from 1 to 65,536. The writer is
/// flushed before each read; the caller flushes it at the end.
///
/// # Errors
///
/// - [`ToolError::Refused`] at the first byte that no valid value can contain at its place, or if
///   the input ends inside a value. [`ToolError::OverLimits`] at the first value whose canonical
///   text is over the limits. [`ToolError::TooManyValues`] if bytes follow the first 1,000,000,000
///   values. The texts of the values before the error were written.
/// - [`ToolError::Read`], [`ToolError::Write`], [`ToolError::Memory`], and
///   [`ToolError::TooManyTurns`] after 4,000,000,000 reads. The first part of the texts was
///   written.
pub fn canon<R: LiveSource<W>, W: LiveSink>(
    alloc: Global,
    version: Version,
    limits: &Limits,
    piece: usize,
    reader: &mut R,
    writer: &mut W,
) -> Result<(), ToolError>
    requires { (1 ≤ piece) × (piece ≤ 65536) }
    // For the bytes that were read: the text of each value, all of which are within the limits, and
    // the error.
    ensures written { (bytes : List ℕ) × AreRead (R.remaining reader.old) (R.remaining reader.new)
        bytes × Renders (rules_under version limits.now) (canonical_text version)
        (Fits (rules_under version limits.now)) LeavesNothing LeavesNothing bytes
        (W.written writer.old) (W.written writer.new) result }
    ensures read_to_its_end { AtEnd result (IfSome (R.remaining reader.old) (λ _.
        R.remaining reader.new ≡ Some [])) }
    // Before each read, the texts of all complete values were sent.
    ensures live { EachRead (R.looks reader.old) (R.looks reader.new)
        (IsLive (rules_under version limits.now) (canonical_text version) LeavesNothing
        (R.remaining reader.old) (W.written writer.old)) }

    // A failed device or allocation.
    ensures reads { UsesReader MOST_READS result (R.calls reader.old) (R.calls reader.new)
        (R.failures reader.old) (R.failures reader.new) }
    ensures write_failures { W.failures writer.new ≡
        failures_after (failed_to_write result) (W.failures writer.old) }
{
    let mut draft = Draft::new(alloc, version);
    draft.reserve(ROOM);
    let mut canonical = Canonical {
        version,
        limits,
        scanner: Scanner::new(version, limits),
        draft,
    };
    render_stream(alloc, &mut canonical, piece, reader, writer)?;
    Ok(())
}
