//! Forwards the bytes of one direction.

ghost use Rattle.std.specs.Prelude.{◌≡◌, ◌≢◌, ◌⊎◌, ◌++◌, ◌<◌, ◌≤◌, [], length, take};
ghost use Rattle.resp_io.specs.Devices.{count_after};

use bytes::BytesMut;
use resp_io::device::{DeviceFault, Sink, Source};
use std::alloc::{AllocError, Global};
use std::marker::Model;

/// Forwards the bytes of one direction: it holds the bytes that were read and still wait to be
/// written. While no bytes wait it holds no memory.
#[derive(Drop)]
pub struct Way {
    alloc: Global,
    waiting: BytesMut,
}

impl Model for Way {
    ghost use Rattle.resp_net.specs.Ways.{WayState};

    ghost Value = { WayState };

    ghost view = { λ w. record { waiting = w.waiting.items } };
}

/// The result of a visit.
#[derive(Clone, Copy, Debug, PartialEq, Eq)]
pub enum Visited {
    /// All bytes that were read were written.
    Onward,
    /// A read failed, for example because it would block.
    NotRead,
    /// A write failed, for example because it would block, or did not write all bytes. The bytes that
    /// were not written wait.
    NotWritten,
    /// The input ended.
    Ended,
    /// There is no memory for the bytes that were not written. They are lost, and the connection has to
    /// be closed.
    OutOfMemory,
}

impl Way {
    ghost use Rattle.std.specs.Prelude.{IsTrue, ◌↔◌};
    ghost use Rattle.resp_net.specs.Ways.{AtItsEnd, HandsOn, HandsOnOrLoses, MovesOrFails, Sends, SendsOrLoses};

    /// Returns a way that has read nothing. Does not allocate.
    pub fn new(alloc: Global) -> Way
        ensures { result ≡ record { waiting = [] } }
    {
        Way {
            alloc,
            waiting: BytesMut::new(alloc),
        }
    }

    /// Returns whether bytes wait to be written.
    pub fn waits(&self) -> bool
        ensures { IsTrue result ↔ (0 < length self.now.waiting) }
    {
        !self.waiting.is_empty()
    }

    /// Reads a piece into the buffer if no bytes wait, and writes the bytes that wait, with at most one
    /// read and one write. Returns the number of bytes that were read, which are the first bytes of the
    /// buffer, and the result of the visit. It allocates only if a write does not write all bytes.
    pub fn visit<R: Source, W: Sink>(
        &mut self,
        reader: &mut R,
        writer: &mut W,
        buffer: &mut [u8],
    ) -> (usize, Visited)
        requires { 0 < length buffer.old }
        ensures handed_on { HandsOnOrLoses (R.remaining reader.old) (R.remaining reader.new)
            (W.written writer.old) (W.written writer.new) self.old.waiting self.new.waiting
            (take result.0 buffer.new) result.1 }
        ensures within_buffer { result.0 ≤ length buffer.new }
        ensures nothing_read { 0 < length self.old.waiting → result.0 ≡ 0 }
        ensures onward { result.1 ≡ Visited.Onward → self.new.waiting ≡ [] }
        ensures end { result.1 ≡ Visited.Ended → (self.old.waiting ≡ []) ×
            AtItsEnd (R.remaining reader.old) }
        ensures not_read { result.1 ≡ Visited.NotRead → (self.old.waiting ≡ []) ×
            (R.failures reader.new ≡ count_after 1 (R.failures reader.old)) }
        ensures not_written { result.1 ≡ Visited.NotWritten → 0 < length self.new.waiting }
        ensures reads { self.old.waiting ≡ [] →
            R.calls reader.new ≡ count_after 1 (R.calls reader.old) }
        ensures writes { (result.1 ≡ Visited.Onward) ⊎ (result.1 ≡ Visited.NotWritten) →
            W.calls writer.new ≡ count_after 1 (W.calls writer.old) }
        ensures progress { result.1 ≡ Visited.NotWritten →
            MovesOrFails (self.old.waiting ++ take result.0 buffer.new) self.new.waiting
            (W.failures writer.old) (W.failures writer.new) }
    {
        if self.waits() {
            return (0, self.send_on(writer));
        }
        match reader.read(buffer) {
            Ok(0) => (0, Visited::Ended),
            Ok(count) => (count, self.send_piece(&buffer[..count], writer)),
            Err(DeviceFault) => (0, Visited::NotRead),
        }
    }

    /// Writes the bytes that wait, with one write.
    fn send_on<W: Sink>(&mut self, writer: &mut W) -> Visited
        requires { 0 < length self.old.waiting }
        ensures sent { Sends (W.written writer.old) (W.written writer.new) self.old.waiting
            self.new.waiting }
        ensures onward { result ≡ Visited.Onward → self.new.waiting ≡ [] }
        ensures or_not { (result ≡ Visited.Onward) ⊎ (result ≡ Visited.NotWritten) }
        ensures not_written { result ≡ Visited.NotWritten → 0 < length self.new.waiting }
        ensures once { W.calls writer.new ≡ count_after 1 (W.calls writer.old) }
        ensures progress { MovesOrFails self.old.waiting self.new.waiting
            (W.failures writer.old) (W.failures writer.new) }
    {
        let count = match writer.write(self.waiting.as_slice()) {
            Ok(count) => count,
            Err(DeviceFault) => return Visited::NotWritten,
        };
        if count == self.waiting.len() {
            self.waiting = BytesMut::new(self.alloc);
            return Visited::Onward;
        }
        self.waiting.advance(count);
        Visited::NotWritten
    }

    /// Writes a piece that was read, with one write, and holds the bytes that were not written.
    fn send_piece<W: Sink>(&mut self, piece: &[u8], writer: &mut W) -> Visited
        requires empty { self.old.waiting ≡ [] }
        requires some { 0 < length piece.now }
        ensures sent { SendsOrLoses (W.written writer.old) (W.written writer.new) piece.now
            self.new.waiting result }
        ensures onward { result ≡ Visited.Onward → self.new.waiting ≡ [] }
        ensures read { (result ≡ Visited.Onward) ⊎ (result ≡ Visited.NotWritten) ⊎
            (result ≡ Visited.OutOfMemory) }
        ensures not_written { result ≡ Visited.NotWritten → 0 < length self.new.waiting }
        ensures once { W.calls writer.new ≡ count_after 1 (W.calls writer.old) }
        ensures progress { result ≡ Visited.NotWritten → MovesOrFails piece.now self.new.waiting
            (W.failures writer.old) (W.failures writer.new) }
    {
        let count = match writer.write(piece) {
            Ok(count) => count,
            Err(DeviceFault) => 0,
        };
        if count == piece.len() {
            return Visited::Onward;
        }
        match self.waiting.extend_from_slice(&piece[count..]) {
            Ok(()) => Visited::NotWritten,
            Err(AllocError) => Visited::OutOfMemory,
        }
    }
}
