//! A source over a slice that can be made to fail.

ghost use Rattle.std.specs.Prelude.{◌≡◌, ◌<◌, ◌≤◌, ◌↔◌, ◌++◌, length, take, drop, Some, IfOk, IsErr, OnErr};
ghost use Rattle.resp_io.specs.Devices.{count_after, Reads, read_fails, failures_after, SourceState, read_count, after_read, after_failed_read};

use super::counts::DeviceCounts;
use super::{DeviceFault, Source};
use std::marker::Model;

/// A source that reads from a slice. A read moves at most a set number of bytes, and reads can be
/// made to fail from a set byte on.
#[derive(Debug, Drop)]
pub struct MemorySource<'a> {
    left: &'a [u8],
    most: usize,
    // The number of bytes that may still be read before reads fail, or `None` if reads do not fail.
    sound: Option<usize>,
    counts: DeviceCounts,
}

impl<'a> Model for MemorySource<'a> {
    ghost Value = { SourceState };

    ghost view = { λ s. record {
      left = s.left.now;
      most = s.most;
      sound = s.sound;
      calls = s.counts.calls;
      failures = s.counts.failures;
    } };

    // A source that moves no byte would look as if it were at its end.
    ghost invariant = { λ s. 0 < s.most };
}

impl<'a> MemorySource<'a> {
    /// Creates a source of the given bytes that moves at most `most` bytes in a read, at least 1,
    /// and never fails. Does not allocate.
    ///
    /// # Examples
    ///
    /// From [samples](../../../samples/src/values.rt):
    ///
    /// ```rust
    /// let mut source = MemorySource::new(b"+OK\r\n", 3);
    /// let mut buffer = [0; 16];
    /// let first = source.read(&mut buffer)?;
    /// let second = source.read(&mut buffer)?;
    /// let end = source.read(&mut buffer)?;
    /// println!(rt; "{first} {second} {end}")?;
    /// ```
    ///
    /// This prints `3 2 0`.
    pub fn new(bytes: &'a [u8], most: usize) -> Self
        requires { 0 < most }
        ensures { result ≡ record {
          left = bytes.now;
          most = most;
          sound = None;
          calls = 0;
          failures = 0;
        } }
    {
        MemorySource {
            left: bytes,
            most,
            sound: None,
            counts: DeviceCounts::default(),
        }
    }

    /// Makes reads fail from this byte on, counted from 0 at the next byte to be read. A read that
    /// begins before that byte stops there. A read that begins at that byte fails, even if it is
    /// the end of the bytes.
    pub fn failing_from(self, byte: usize) -> Self
        ensures { result ≡ record self.entry { sound = Some byte } }
    {
        MemorySource {
            sound: Some(byte),
            ..self
        }
    }

    /// Returns the number of reads that were made. The count stops at the greatest `u64`.
    pub fn calls(&self) -> u64
        ensures { result ≡ self.now.calls }
    {
        self.counts.calls
    }

    /// Returns the number of reads that failed. The count stops at the greatest `u64`.
    pub fn failures(&self) -> u64
        ensures { result ≡ self.now.failures }
    {
        self.counts.failures
    }
}

impl Source for MemorySource<'_> {
    ghost remaining = { λ s. Some s.left };

    ghost calls = { λ s. s.calls };

    ghost failures = { λ s. s.failures };

    fn read(&mut self, into: &mut [u8]) -> Result<usize, DeviceFault>
        ensures within { IfOk result (λ n. n ≤ length into.old) }
        ensures bytes { Reads (Some self.old.left) (Some self.new.left) into.new result }
        ensures calls { self.new.calls ≡ count_after 1 self.old.calls }
        ensures failures { self.new.failures ≡
            failures_after (read_fails result) self.old.failures }

        // It fails if and only if no further byte may be read.
        ensures fails { IsErr result ↔ (self.old.sound ≡ Some 0) }
        ensures refused { OnErr result (self.new ≡ after_failed_read self.old) }
        ensures untouched { OnErr result (into.new ≡ into.old) }

        // Otherwise it moves as many bytes as it may.
        ensures count { IfOk result (λ n. n ≡ read_count self.old (length into.old)) }
        ensures moved { IfOk result (λ n. into.new ≡ take n self.old.left ++ drop n into.old) }
        ensures after { IfOk result (λ n. self.new ≡ after_read self.old n) }
    {
        self.counts.add_call();
        if self.sound == Some(0) {
            self.counts.add_failure();
            return Err(DeviceFault);
        }
        let mut count = self.most.min(into.len()).min(self.left.len());
        if let Some(sound) = self.sound {
            count = count.min(sound);
            self.sound = Some(sound - count);
        }
        let (front, left) = self.left.split_at(count);
        into[..count].copy_from_slice(front);
        self.left = left;
        Ok(count)
    }
}
