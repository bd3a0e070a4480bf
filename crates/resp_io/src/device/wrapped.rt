//! A device over one of std's readers or writers.

ghost use Rattle.std.specs.Prelude.{◌≡◌, ℕ, ◌≤◌, None, length, IfOk};
ghost use Rattle.std.specs.Io.KnownBytes.{ReadConsumes, WriteAppends};
ghost use Rattle.resp_io.specs.Devices.{count_after, Reads, Writes, read_fails, write_fails, failures_after, DeviceState};

use super::counts::DeviceCounts;
use super::{DeviceFault, Sink, Source};
use std::io::{Read, Write};
use std::marker::Model;

/// A reader or writer of std with counts of its calls and failures. As a device it does not
/// say which bytes are left.
#[derive(Debug, Drop)]
pub struct Device<T> {
    inner: T,
    counts: DeviceCounts,
}

impl<T> Model for Device<T> {
    ghost Value = { DeviceState T };

    ghost view = { λ d. record {
      inner = d.inner;
      calls = d.counts.calls;
      failures = d.counts.failures;
    } };
}

impl<T> Device<T> {
    /// Creates a device over `inner`, with both counts 0.
    pub fn new(inner: T) -> Self
        ensures { result ≡ record { inner = inner; calls = 0; failures = 0 } }
    {
        Device {
            inner,
            counts: DeviceCounts::default(),
        }
    }

    /// Returns the reader or writer that the device wraps.
    pub fn into_inner(self) -> T
        ensures { result ≡ self.inner }
    {
        let Device { inner, counts: _ } = self;
        inner
    }

    /// Returns the number of reads or writes that were made. The count stops at the greatest `u64`.
    pub fn calls(&self) -> u64
        ensures { result ≡ self.now.calls }
    {
        self.counts.calls
    }

    /// Returns the number of reads that failed, or of writes that failed or wrote no byte. The
    /// count stops at the greatest `u64`.
    pub fn failures(&self) -> u64
        ensures { result ≡ self.now.failures }
    {
        self.counts.failures
    }
}

impl<R: Read> Source for Device<R> {
    ghost remaining = { λ _. None };

    ghost calls = { λ d. d.calls };

    ghost failures = { λ d. d.failures };

    fn read(&mut self, into: &mut [u8]) -> Result<usize, DeviceFault>
        ensures within { IfOk result (λ n. n ≤ length into.old) }
        ensures bytes { Reads None None into.new result }
        ensures calls { self.new.calls ≡ count_after 1 self.old.calls }
        ensures failures { self.new.failures ≡
            failures_after (read_fails result) self.old.failures }

        // The bytes are those that `inner` reads, if the contract of `inner` describes them.
        ensures inner { ReadConsumes (R.remaining self.old.inner) (R.remaining self.new.inner)
            result into.new }
    {
        self.counts.add_call();
        match self.inner.read(into) {
            Ok(count) => Ok(count),
            Err(_) => {
                self.counts.add_failure();
                Err(DeviceFault)
            }
        }
    }
}

impl<W: Write> Sink for Device<W> {
    ghost written = { λ _. None };

    ghost calls = { λ d. d.calls };

    ghost failures = { λ d. d.failures };

    fn write(&mut self, from: &[u8]) -> Result<usize, DeviceFault>
        ensures within { IfOk result (λ n. n ≤ length from.now) }
        ensures bytes { Writes None None from.now result }
        ensures calls { self.new.calls ≡ count_after 1 self.old.calls }
        ensures failures { self.new.failures ≡
            failures_after (write_fails result) self.old.failures }

        // The bytes go to `inner`, if the contract of `inner` describes them.
        ensures inner { WriteAppends (W.contents self.old.inner) (W.contents self.new.inner) result
            from.now }
    {
        self.counts.add_call();
        let result = self.inner.write(from).map_err(|_| DeviceFault);
        if matches!(result, Ok(0) | Err(DeviceFault)) {
            self.counts.add_failure();
        }
        result
    }
}
