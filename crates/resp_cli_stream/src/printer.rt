//! The listener of `show`: it writes the lines of the events that it receives.

ghost use Rattle.std.specs.Prelude.{◌≡◌, ◌≤◌, length, false, IfOk};
ghost use Rattle.resp_scan.specs.Kinds.{rules_of};
ghost use Rattle.resp_cli_stream.specs.Printing.{HasBroken, HasPrinted, ScansTo, WherePrinted};

use crate::lines::Lines;
use resp_io::device::Sink;
use resp_scan::event::{ScanError, Scanned, TextKind};
use resp_scan::listener::Listener;
use resp_scan::scanner::Scanner;
use resp_value::kind::OpenKind;

/// Writes the lines of the events that it receives, and stops if a write fails.
#[derive(Drop)]
struct LinePrinter<'a, W> {
    lines: &'a mut Lines,
    writer: &'a mut W,
}

impl<W: Sink> Listener for LinePrinter<'_, W> {
    ghost use Rattle.resp_cli_stream.specs.Printing.{Call, IsOfCall};

    ghost Origin = { Call };

    ghost has_heard = { λ p call es. IsOfCall call p.lines.ghost_name p.writer.ghost_name ×
        HasPrinted call.start p.lines.now (W.written p.writer.now) (W.failures p.writer.now) es };

    ghost has_stopped = { λ p call es. IsOfCall call p.lines.ghost_name p.writer.ghost_name ×
        HasBroken call.start (W.written p.writer.now) (W.failures p.writer.now) es };

    #[inline]
    fn null(&mut self) -> bool {
        self.lines.null(&mut *self.writer).is_ok()
    }

    #[inline]
    fn truth(&mut self, truth: bool) -> bool {
        self.lines.truth(truth, &mut *self.writer).is_ok()
    }

    #[inline]
    fn int(&mut self, number: i64) -> bool {
        self.lines.int(number, &mut *self.writer).is_ok()
    }

    #[inline]
    fn text(&mut self, kind: TextKind) -> bool {
        self.lines.text(kind, &mut *self.writer).is_ok()
    }

    #[inline]
    fn part(&mut self, part: &[u8]) -> bool {
        self.lines.part(part, &mut *self.writer).is_ok()
    }

    #[inline]
    fn text_end(&mut self) -> bool {
        self.lines.text_end(&mut *self.writer).is_ok()
    }

    #[inline]
    fn open(&mut self, kind: OpenKind, count: Option<u64>) -> bool {
        self.lines.open(kind, count, &mut *self.writer).is_ok()
    }

    #[inline]
    fn close(&mut self) -> bool {
        self.lines.close(&mut *self.writer).is_ok()
    }

    #[inline]
    fn whole_text(&mut self, kind: TextKind, bytes: &[u8]) -> bool {
        self.lines
            .whole_text(kind, bytes, &mut *self.writer)
            .is_ok()
    }
}

/// Scans a piece up to the end of a value, and writes the lines of its events. If a write fails,
/// the scan stops.
pub fn print_piece<W: Sink>(
    scanner: &mut Scanner,
    piece: &[u8],
    lines: &mut Lines,
    writer: &mut W,
) -> Result<Scanned, ScanError>
    ensures printed { WherePrinted scanner.old lines.old (W.written writer.old)
        (W.failures writer.old) (λ since front. ScansTo (rules_of scanner.old) scanner.new
        (HasPrinted since lines.new (W.written writer.new) (W.failures writer.new))
        (HasBroken since (W.written writer.new) (W.failures writer.new)) front piece.now result) }
    ensures within_piece { IfOk result (λ scanned. scanned.used ≤ length piece.now) }
    ensures whole_piece { IfOk result (λ scanned.
        scanned.is_whole ≡ false → scanned.used ≡ length piece.now) }
    ensures same_rules { rules_of scanner.new ≡ rules_of scanner.old }
{
    let mut printer = LinePrinter { lines, writer };
    scanner.scan(piece, &mut printer)
}
