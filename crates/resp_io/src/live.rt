//! Output that is buffered until it is flushed, and input that is read beside such output.

ghost use Rattle.std.specs.Prelude.{◌≡◌, ◌≤◌, ◌<◌, ◌++◌, ℕ, List, [], length, true, false, Option, None, OnOk, OnErr, IfOk, IsOk};
ghost use Rattle.resp_io.specs.Live.{Look, Records, flush_fails, joined};
ghost use Rattle.resp_io.specs.Devices.{Appends, Reads, Writes, count_after, failures_after, read_fails, write_fails};

use crate::device::{Device, DeviceFault, MemorySink, MemorySource, Sink, Source, write_all};
use bytes::BytesMut;
use std::alloc::{AllocError, Global};
use std::io::Read;
use std::marker::Model;

/// The maximum number of bytes that a [`Gathering`] holds.
pub const MOST_GATHERED: usize = 8_192;

/// A sink that may hold bytes until it is flushed.
pub trait LiveSink: Sink {
    /// The bytes that were sent on, or `None` if the sink does not say.
    ghost sent: { Self → Option (List ℕ) };

    /// Sends all bytes that are held.
    ///
    /// # Errors
    ///
    /// `DeviceFault` if a write fails. This counts as a failed write, and the bytes that were not
    /// sent are still held.
    fn flush(&mut self) -> Result<(), DeviceFault>
        ensures same { Appends (Self.written self.old) (Self.written self.new) [] }
        ensures sent { OnOk result (sent self.new ≡ Self.written self.new) }
        ensures failures { Self.failures self.new ≡
            failures_after (flush_fails result) (Self.failures self.old) };
}

/// A source whose reads may record what a sink has sent before them.
pub trait LiveSource<W: LiveSink>: Source {
    /// A record of each read, or `None` if the source keeps no record.
    ghost looks: { Self → Option (List Look) };

    /// Reads as [`Source::read`] does. `writer` is the sink whose sent bytes may be recorded.
    ///
    /// # Errors
    ///
    /// `DeviceFault` if the read fails.
    fn read_beside(&mut self, into: &mut [u8], writer: &W) -> Result<usize, DeviceFault>
        ensures within { IfOk result (λ n. n ≤ length into.old) }
        ensures bytes { Reads (Self.remaining self.old) (Self.remaining self.new) into.new
            result }
        ensures calls { Self.calls self.new ≡ count_after 1 (Self.calls self.old) }
        ensures failures { Self.failures self.new ≡
            failures_after (read_fails result) (Self.failures self.old) }
        ensures looks { Records (looks self.old) (looks self.new) (record {
          left = Self.remaining self.old;
          sent = W.sent writer.now;
        }) };
}

/// A sink that collects up to 8,192 bytes for another sink and sends them together.
#[derive(Drop)]
pub struct Gathering<W> {
    inner: W,
    gathered: BytesMut,
    calls: u64,
}

impl<W> Model for Gathering<W> {
    ghost use Rattle.resp_io.specs.Live.{GatheringState};
    ghost use Rattle.resp_io.specs.declared.live.TheConstants.{MOST_GATHERED};
    ghost use Rattle.std.specs.Prelude.{◌≤◌, length};

    ghost Value = { GatheringState W };

    ghost view = { λ g. record {
      inner = g.inner;
      waits = g.gathered.items;
      calls = g.calls;
    } };

    ghost invariant = { λ g. length g.gathered.items ≤ MOST_GATHERED };
}

impl<W: Sink + Drop> Gathering<W> {
    /// Returns a sink for `inner`, and allocates room for the bytes that it collects.
    ///
    /// # Errors
    ///
    /// `AllocError` if the allocation fails.
    pub fn new(alloc: Global, inner: W) -> Result<Self, AllocError>
        ensures { IfOk result (λ g. g ≡ record { inner = inner; waits = []; calls = 0 }) }
    {
        Ok(Gathering {
            inner,
            gathered: BytesMut::with_capacity(alloc, MOST_GATHERED)?,
            calls: 0,
        })
    }

    /// Returns the inner sink.
    pub fn inner(&self) -> &W
        ensures { result.now ≡ self.now.inner }
    {
        &self.inner
    }
}

/// Appends a text to the collected bytes, if it is not empty and there is room for it. Returns
/// whether it was appended.
#[inline(always)]
fn gather(gathered: &mut BytesMut, text: &[u8]) -> bool
    ensures gathered { result ≡ true → gathered.new.items ≡ gathered.old.items ++ text.now }
    ensures some { result ≡ true → 0 < length text.now }
    ensures same { result ≡ false → gathered.new.items ≡ gathered.old.items }
    ensures at_most { result ≡ true → length gathered.new.items ≤ MOST_GATHERED }
{
    let size = gathered.len().saturating_add(text.len());
    !text.is_empty() && size <= MOST_GATHERED && gathered.extend_from_slice(text).is_ok()
}

/// Sends the collected bytes. If a write fails, only their first bytes are sent.
fn send<W: Sink>(inner: &mut W, gathered: &mut BytesMut) -> Result<(), DeviceFault>
    ensures same { Appends (joined (W.written inner.old) gathered.old.items)
        (joined (W.written inner.new) gathered.new.items) [] }
    ensures appended { OnOk result (Appends (W.written inner.old) (W.written inner.new)
        gathered.old.items) }
    ensures nothing_left { OnOk result (gathered.new.items ≡ []) }
    ensures no_more { length gathered.new.items ≤ length gathered.old.items }
    ensures failures { W.failures inner.new ≡
        failures_after (flush_fails result) (W.failures inner.old) }
{
    match write_all(inner, gathered.as_slice()) {
        Ok(()) => {
            gathered.clear();
            Ok(())
        }
        Err(fault) => {
            gathered.advance(fault.written);
            Err(DeviceFault)
        }
    }
}

impl<W: Sink> Sink for Gathering<W> {
    ghost written = { λ g. joined (W.written g.inner) g.waits };

    ghost calls = { λ g. g.calls };

    ghost failures = { λ g. W.failures g.inner };

    #[inline]
    fn write(&mut self, from: &[u8]) -> Result<usize, DeviceFault>
        ensures within { IfOk result (λ n. n ≤ length from.now) }
        ensures bytes { Writes (joined (W.written self.old.inner) self.old.waits)
            (joined (W.written self.new.inner) self.new.waits) from.now result }
        ensures calls { self.new.calls ≡ count_after 1 self.old.calls }
        ensures failures { W.failures self.new.inner ≡
            failures_after (write_fails result) (W.failures self.old.inner) }
        ensures at_most { length self.new.waits ≤ MOST_GATHERED }
    {
        self.calls = self.calls.saturating_add(1);
        if gather(&mut self.gathered, from) {
            return Ok(from.len());
        }
        if send(&mut self.inner, &mut self.gathered).is_err() {
            return Err(DeviceFault);
        }
        if gather(&mut self.gathered, from) {
            return Ok(from.len());
        }
        self.inner.write(from)
    }
}

impl<W: Sink> LiveSink for Gathering<W> {
    ghost sent = { λ g. W.written g.inner };

    fn flush(&mut self) -> Result<(), DeviceFault> {
        send(&mut self.inner, &mut self.gathered)
    }
}

/// It holds no bytes back.
impl LiveSink for MemorySink {
    ghost use Rattle.std.specs.Prelude.{Some};

    ghost sent = { λ s. Some s.held };

    fn flush(&mut self) -> Result<(), DeviceFault> {
        Ok(())
    }
}

/// It holds no bytes back.
impl LiveSink for Device<Vec<u8>> {
    ghost sent = { λ _. None };

    fn flush(&mut self) -> Result<(), DeviceFault> {
        Ok(())
    }
}

impl<W: LiveSink> LiveSource<W> for MemorySource<'_> {
    ghost looks = { λ _. None };

    fn read_beside(&mut self, into: &mut [u8], _writer: &W) -> Result<usize, DeviceFault> {
        self.read(into)
    }
}

impl<T: Read, W: LiveSink> LiveSource<W> for Device<T> {
    ghost looks = { λ _. None };

    fn read_beside(&mut self, into: &mut [u8], _writer: &W) -> Result<usize, DeviceFault> {
        self.read(into)
    }
}
