//! A sink in memory that can be made to fail.

ghost use Rattle.std.specs.Prelude.{◌≡◌, ◌+◌, ◌≤◌, ◌↔◌, [], length, Some, IfOk, IsOk, IsErr, OnErr, vec_len, vec_capacity};
ghost use Rattle.resp_io.specs.Devices.{count_after, Writes, write_fails, failures_after, SinkState, write_count, after_write, after_failed_write};

use super::counts::DeviceCounts;
use super::{DeviceFault, Sink};
use std::alloc::{AllocError, Global};
use std::marker::Model;

/// A sink that holds the bytes written to it. A write moves at most a set number of bytes, and
/// writes fail from a set byte on.
#[derive(Debug, Drop)]
pub struct MemorySink {
    held: Vec<u8>,
    most: usize,
    // The number of bytes that may still be written before writes fail.
    sound: usize,
    counts: DeviceCounts,
}

impl Model for MemorySink {
    ghost Value = { SinkState };

    ghost view = { λ s. record {
      held = s.held.items;
      most = s.most;
      sound = s.sound;
      calls = s.counts.calls;
      failures = s.counts.failures;
    } };

    // The buffer has room for all bytes that may still be written, so no write allocates.
    ghost invariant = { λ s. vec_len s.held + s.sound ≤ vec_capacity s.held };
}

impl MemorySink {
    /// Creates an empty sink that moves at most `most` bytes in a write and fails from byte
    /// `fails_from` on. A write that begins before byte `fails_from` stops there, and a write that
    /// begins at that byte fails. If `most` is 0, each write before that byte writes no byte.
    ///
    /// The room for all `fails_from` bytes is allocated here, so no write allocates.
    ///
    /// # Errors
    ///
    /// `AllocError` if the allocation fails. With `fails_from` 0 it never fails.
    pub fn new(alloc: Global, most: usize, fails_from: usize) -> Result<Self, AllocError>
        ensures ok { IfOk result (λ sink. sink ≡ record {
          held = [];
          most = most;
          sound = fails_from;
          calls = 0;
          failures = 0;
        }) }
        ensures takes_nothing { fails_from ≡ 0 → IsOk result }
    {
        Ok(MemorySink {
            held: Vec::with_capacity(alloc, fails_from)?,
            most,
            sound: fails_from,
            counts: DeviceCounts::default(),
        })
    }

    /// Returns the bytes that were written.
    pub fn bytes(&self) -> &[u8]
        ensures { result.now ≡ self.now.held }
    {
        self.held.as_slice()
    }

    /// Returns the bytes that were written, as a `Vec`.
    pub fn into_vec(self) -> Vec<u8>
        ensures { result.items ≡ self.held }
    {
        let MemorySink { held, .. } = self;
        held
    }

    /// Returns the number of writes that were made. The count stops at the greatest `u64`.
    pub fn calls(&self) -> u64
        ensures { result ≡ self.now.calls }
    {
        self.counts.calls
    }

    /// Returns the number of writes that failed or wrote no byte. The count stops at the greatest
    /// `u64`.
    pub fn failures(&self) -> u64
        ensures { result ≡ self.now.failures }
    {
        self.counts.failures
    }
}

impl Sink for MemorySink {
    ghost written = { λ s. Some s.held };

    ghost calls = { λ s. s.calls };

    ghost failures = { λ s. s.failures };

    fn write(&mut self, from: &[u8]) -> Result<usize, DeviceFault>
        ensures within { IfOk result (λ n. n ≤ length from.now) }
        ensures bytes { Writes (Some self.old.held) (Some self.new.held) from.now result }
        ensures calls { self.new.calls ≡ count_after 1 self.old.calls }
        ensures failures { self.new.failures ≡
            failures_after (write_fails result) self.old.failures }

        // It fails if and only if no further byte may be written.
        ensures fails { IsErr result ↔ (self.old.sound ≡ 0) }
        ensures refused { OnErr result (self.new ≡ after_failed_write self.old) }

        // Otherwise it moves as many bytes as it may.
        ensures count { IfOk result (λ n. n ≡ write_count self.old from.now) }
        ensures after { IfOk result (λ n. self.new ≡ after_write self.old from.now n) }
    {
        self.counts.add_call();
        if self.sound == 0 {
            self.counts.add_failure();
            return Err(DeviceFault);
        }
        let count = self.most.min(from.len()).min(self.sound);
        if count == 0 {
            self.counts.add_failure();
        }
        self.held.extend_from_slice(&from[..count]).unwrap();
        self.sound -= count;
        Ok(count)
    }
}
