//! A non-blocking socket as a reader and a writer that keep the reason of a failure.

ghost use Rattle.std.specs.Prelude.{◌≡◌, [], false, max};

use crate::stream::Stream;
use std::io;
use std::io::{ErrorKind, Read, Write};
use std::marker::Model;

/// Returns whether a pending connection is open.
///
/// # Errors
///
/// The error of the system if the connection can't be opened.
pub fn is_open(server: &Stream) -> io::Result<bool> {
    if let Some(error) = server.take_error()? {
        return Err(error);
    }
    match server.peer_addr() {
        Ok(_) => Ok(true),
        Err(error) if error.kind() == ErrorKind::NotConnected => Ok(false),
        Err(error) => Err(error),
    }
}

/// A reader that knows, after a failed read, whether the read failed because it would block.
///
/// If a socket returns fewer bytes than were asked for, it has no more, so the next read would
/// block and is not made. The exception is a connection that may have ended: it is read again,
/// because the socket does not report its end a second time.
#[derive(Drop)]
pub struct Input<'a, R> {
    /// The bytes that are returned first.
    first: &'a [u8],
    inner: R,
    is_at_end: bool,
    is_dry: bool,
}

impl<'a, R> Model for Input<'a, R> {
    ghost use Rattle.resp_net.specs.Outputs.{InputState};

    ghost Value = { InputState };

    ghost view = { λ i. record { first = i.first.now; would_wait = i.is_dry } };
}

impl<'a, R> Input<'a, R> {
    /// Returns a reader over `inner`, before anything was read. `is_at_end` says whether the input
    /// may have ended.
    pub fn new(inner: R, is_at_end: bool) -> Self
        ensures { result ≡ record { first = []; would_wait = false } }
    {
        Input::after(&[], inner, is_at_end)
    }

    /// Returns a reader that returns `first` and then the bytes of `inner`.
    pub fn after(first: &'a [u8], inner: R, is_at_end: bool) -> Self
        ensures { result ≡ record { first = first.now; would_wait = false } }
    {
        Input {
            first,
            inner,
            is_at_end,
            is_dry: false,
        }
    }

    /// Returns the bytes that come before those of the inner reader and were not read.
    pub fn first(&self) -> &'a [u8]
        ensures { result.now ≡ self.now.first }
    {
        self.first
    }

    /// Returns whether the next read would block.
    pub fn would_wait(&self) -> bool
        ensures { result ≡ self.now.would_wait }
    {
        self.is_dry
    }
}

impl<R: Read> Read for Input<'_, R> {
    fn read(&mut self, into: &mut [u8]) -> io::Result<usize> {
        if !self.first.is_empty() {
            let (now, later) = self.first.split_at(self.first.len().min(into.len()));
            into[..now.len()].copy_from_slice(now);
            self.first = later;
            return Ok(now.len());
        }
        if self.is_dry {
            return Err(ErrorKind::WouldBlock.into());
        }
        let count = self.inner.read(into);
        self.is_dry = match &count {
            Ok(count) => *count < into.len() && !self.is_at_end,
            Err(error) => error.kind() == ErrorKind::WouldBlock,
        };
        count
    }
}

/// A writer that knows how many bytes it has written, and after a failed write whether the write failed
/// because it would block.
#[derive(Drop)]
pub struct Output<W> {
    inner: W,
    /// The maximum number of bytes of a write.
    most: usize,
    /// The number of bytes that the last write has written.
    written: usize,
    is_full: bool,
    has_failed: bool,
}

impl<W> Model for Output<W> {
    ghost use Rattle.resp_net.specs.Outputs.{OutputState};

    ghost Value = { OutputState };

    ghost view = { λ o. record {
      most = o.most;
      written = o.written;
      would_wait = o.is_full;
      has_failed = o.has_failed;
    } };
}

impl<W> Output<W> {
    /// Returns a writer over `inner`, before anything was written.
    pub fn new(inner: W) -> Self
        ensures nothing_written { result.written ≡ 0 }
        ensures not_failed { (result.would_wait ≡ false) × (result.has_failed ≡ false) }
    {
        Output::within(usize::MAX, inner)
    }

    /// Returns a writer over `inner` that writes at most `most` bytes at once, and at least one.
    pub(crate) fn within(most: usize, inner: W) -> Self
        ensures most { result.most ≡ max most 1 }
        ensures nothing_written { result.written ≡ 0 }
        ensures not_failed { (result.would_wait ≡ false) × (result.has_failed ≡ false) }
    {
        Output {
            inner,
            most: most.max(1),
            written: 0,
            is_full: false,
            has_failed: false,
        }
    }

    /// Returns the number of bytes that the last write has written.
    pub(crate) fn written(&self) -> usize
        ensures { result ≡ self.now.written }
    {
        self.written
    }

    /// Returns whether the last write failed for another reason, or wrote no byte.
    pub fn has_failed(&self) -> bool
        ensures { result ≡ self.now.has_failed }
    {
        self.has_failed
    }

    /// Returns whether the last write failed because it would block.
    pub fn would_wait(&self) -> bool
        ensures { result ≡ self.now.would_wait }
    {
        self.is_full
    }
}

impl<W: Write> Write for Output<W> {
    fn write(&mut self, from: &[u8]) -> io::Result<usize> {
        let count = self.inner.write(&from[..from.len().min(self.most)]);
        self.written = match &count {
            Ok(count) => *count,
            Err(_) => 0,
        };
        self.is_full = match &count {
            Ok(_) => false,
            Err(error) => error.kind() == ErrorKind::WouldBlock,
        };
        self.has_failed = match &count {
            Ok(count) => *count == 0,
            Err(_) => !self.is_full,
        };
        count
    }

    fn flush(&mut self) -> io::Result<()> {
        self.inner.flush()
    }
}
