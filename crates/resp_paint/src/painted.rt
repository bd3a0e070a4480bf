//! A sink that prints text in a style.

ghost use Rattle.std.specs.Prelude.{◌≡◌, ◌≤◌, ◌∷◌, [], false, true, length, None, IfOk, OnOk};
ghost use Rattle.resp_paint.specs.Paints.{Paints, is_plain_style};
ghost use Rattle.resp_paint.specs.Waiting.{Waits};
ghost use Rattle.resp_io.specs.Live.{flush_fails};
ghost use Rattle.resp_io.specs.Devices.{Writes, count_after, failures_after, write_fails};

use crate::painter::{MOST_HELD, Paint, Painter};
use crate::plain::shows;
use crate::style::Style;
use arrayvec::ArrayVec;
use resp_io::device::{DeviceFault, Sink};
use resp_io::live::LiveSink;
use resp_print::text::write_text;

/// A sink that prints the lines of `resp show`, `ask` and `tap` in a style, to another sink.
///
/// Without the sequences that switch colors, and with an escape in place of each byte that is not
/// ASCII, the printed text is the text that was written to this sink. The bytes of a character wait
/// for its end, fewer than 16 bytes, and with colors the first bytes of a line, fewer than eight. A
/// text with a byte that is not ASCII, or with the byte 27, which
/// begins a sequence, is rejected: the write fails.
///
/// In the style [`Style::PLAIN`] each write is passed on.
#[derive(Drop)]
pub struct Painted<W> {
    inner: W,
    painter: Painter,
    /// The bytes that wait.
    held: ArrayVec<u8, MOST_HELD>,
    calls: u64,
    failures: u64,
}

impl<W> Painted<W> {
    /// Returns a sink in the style [`Style::PLAIN`].
    pub fn new(inner: W) -> Self
        ensures plain { is_plain_style result.painter.style ≡ true }
        ensures nothing_waits { result.held.items ≡ [] }
    {
        Painted {
            inner,
            painter: Painter::new(Style::PLAIN),
            held: ArrayVec::new(),
            calls: 0,
            failures: 0,
        }
    }

    /// Sets the style. The next text begins a line.
    pub fn set_style(&mut self, style: Style)
        ensures style { self.new.painter.style ≡ style }
        ensures same_held { self.new.held.items ≡ self.old.held.items }
    {
        self.painter = Painter::new(style);
    }

    /// Returns the inner sink.
    pub fn inner(&self) -> &W {
        &self.inner
    }

    /// Returns the inner sink for changes.
    pub fn inner_mut(&mut self) -> &mut W {
        &mut self.inner
    }
}

impl<W: Sink> Painted<W> {
    /// Prints some bytes in this style, and returns their number.
    fn print(&mut self, from: &[u8]) -> Result<usize, DeviceFault>
        ensures within { IfOk result (λ n. n ≤ length from.now) }
        ensures passed_on { is_plain_style self.old.painter.style ≡ true →
            Writes (W.written self.old.inner) (W.written self.new.inner) from.now result }
        ensures painted { is_plain_style self.old.painter.style ≡ false → IfOk result (λ n.
            (n ≡ length from.now) × Paints (W.written self.old.inner) (W.written self.new.inner)
            self.old.held.items from.now self.new.held.items) }
        ensures waits { Waits self.old.painter.style self.old.held.items →
            OnOk result (Waits self.old.painter.style self.new.held.items) }
        ensures same_style { self.new.painter.style ≡ self.old.painter.style }
        ensures same_calls { self.new.calls ≡ self.old.calls }
        ensures same_failures { self.new.failures ≡ self.old.failures }
    {
        if self.painter.style().is_plain() {
            return self.inner.write(from);
        }
        match self.paint(from) {
            Ok(()) => Ok(from.len()),
            Err(fault) => Err(fault),
        }
    }

    /// Prints a text in a style.
    fn paint(&mut self, text: &[u8]) -> Result<(), DeviceFault>
        ensures paints { OnOk result (Paints (W.written self.old.inner)
            (W.written self.new.inner) self.old.held.items text.now self.new.held.items) }
        ensures waits { Waits self.old.painter.style self.old.held.items →
            OnOk result (Waits self.old.painter.style self.new.held.items) }
        ensures same_style { self.new.painter.style ≡ self.old.painter.style }
        ensures same_calls { self.new.calls ≡ self.old.calls }
        ensures same_failures { self.new.failures ≡ self.old.failures }
    {
        let mut rest = text;
        while let Some((byte, beyond)) = rest.split_first() {
            match self.paint_byte(*byte) {
                Ok(()) => rest = beyond,
                Err(fault) => return Err(fault),
            }
        }
        Ok(())
    }

    /// Prints one byte more, or lets it wait.
    fn paint_byte(&mut self, byte: u8) -> Result<(), DeviceFault>
        ensures paints { OnOk result (Paints (W.written self.old.inner)
            (W.written self.new.inner) self.old.held.items (byte ∷ []) self.new.held.items) }
        ensures waits { OnOk result (Waits self.old.painter.style self.new.held.items) }
        ensures same_style { self.new.painter.style ≡ self.old.painter.style }
        ensures same_calls { self.new.calls ≡ self.old.calls }
        ensures same_failures { self.new.failures ≡ self.old.failures }
    {
        match self.held.try_push(byte) {
            Ok(()) => {}
            Err(_) => return Err(DeviceFault),
        }
        let painted = match self.painter.next(self.held.as_slice()) {
            Paint::Later => return Ok(()),
            Paint::Now(painted) => painted,
        };
        if !shows(painted.as_slice(), self.held.as_slice()) {
            return Err(DeviceFault);
        }
        match write_text(&mut self.inner, painted.as_slice()) {
            Ok(()) => {}
            Err(fault) => return Err(fault),
        }
        self.held.clear();
        Ok(())
    }
}

impl<W: Sink> Sink for Painted<W> {
    ghost written = { λ _. None };

    ghost calls = { λ p. p.calls };

    ghost failures = { λ p. p.failures };

    fn write(&mut self, from: &[u8]) -> Result<usize, DeviceFault>
        ensures within { IfOk result (λ n. n ≤ length from.now) }
        ensures bytes { Writes None None from.now result }
        ensures calls { self.new.calls ≡ count_after 1 self.old.calls }
        ensures failures { self.new.failures ≡
            failures_after (write_fails result) self.old.failures }
        ensures passed_on { is_plain_style self.old.painter.style ≡ true →
            Writes (W.written self.old.inner) (W.written self.new.inner) from.now result }
        ensures painted { is_plain_style self.old.painter.style ≡ false → IfOk result (λ n.
            (n ≡ length from.now) × Paints (W.written self.old.inner) (W.written self.new.inner)
            self.old.held.items from.now self.new.held.items) }
        ensures waits { Waits self.old.painter.style self.old.held.items →
            OnOk result (Waits self.old.painter.style self.new.held.items) }
        ensures same_style { self.new.painter.style ≡ self.old.painter.style }
    {
        self.calls = self.calls.saturating_add(1);
        match self.print(from) {
            Ok(0) => {
                self.failures = self.failures.saturating_add(1);
                Ok(0)
            }
            Ok(count) => Ok(count),
            Err(fault) => {
                self.failures = self.failures.saturating_add(1);
                Err(fault)
            }
        }
    }
}

impl<W: LiveSink> LiveSink for Painted<W> {
    ghost sent = { λ _. None };

    fn flush(&mut self) -> Result<(), DeviceFault> {
        let result = self.inner.flush();
        if result.is_err() {
            self.failures = self.failures.saturating_add(1);
        }
        result
    }
}
