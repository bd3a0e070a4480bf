//! Byte devices, from which bytes are read and to which bytes are written.

ghost use Rattle.std.specs.Prelude.{◌≡◌, ℕ, ◌+◌, ◌<◌, ◌≤◌, List, length, Option, IfOk, IfErr, OnErr, OnOk, take};
ghost use Rattle.resp_io.specs.Devices.{count_after, Reads, Writes, Appends, read_fails, write_fails, failures_after};

use thiserror::Error;

mod counts;
mod memory_sink;
mod memory_source;
mod wrapped;

pub use memory_sink::MemorySink;
pub use memory_source::MemorySource;
pub use wrapped::Device;

/// The error of a read or a write that failed. It moved no byte.
#[derive(Clone, Copy, Debug, PartialEq, Eq, Error)]
#[error("the device failed")]
pub struct DeviceFault;

/// A device from which bytes are read.
pub trait Source {
    /// The bytes that are left, or `None` if the device does not say.
    ghost remaining: { Self → Option (List ℕ) };

    /// The number of reads that were made.
    ghost calls: { Self → ℕ };

    /// The number of reads that failed.
    ghost failures: { Self → ℕ };

    /// Reads some bytes into the beginning of `into`, and returns their number. The number is 0
    /// only at the end of the bytes, or if `into` is empty.
    ///
    /// # Errors
    ///
    /// `DeviceFault` if the read fails. Then no byte was read.
    fn read(&mut self, into: &mut [u8]) -> Result<usize, DeviceFault>
        ensures within { IfOk result (λ n. n ≤ length into.old) }
        ensures bytes { Reads (remaining self.old) (remaining self.new) into.new result }
        ensures calls { calls self.new ≡ count_after 1 (calls self.old) }
        ensures failures { failures self.new ≡
            failures_after (read_fails result) (failures self.old) };
}

/// A device to which bytes are written.
pub trait Sink {
    /// The bytes that the device holds, or `None` if it does not say.
    ghost written: { Self → Option (List ℕ) };

    /// The number of writes that were made.
    ghost calls: { Self → ℕ };

    /// The number of writes that failed or wrote no byte.
    ghost failures: { Self → ℕ };

    /// Writes some bytes from the beginning of `from`, and returns their number.
    ///
    /// # Errors
    ///
    /// `DeviceFault` if the write fails. Then no byte was written.
    fn write(&mut self, from: &[u8]) -> Result<usize, DeviceFault>
        ensures within { IfOk result (λ n. n ≤ length from.now) }
        ensures bytes { Writes (written self.old) (written self.new) from.now result }
        ensures calls { calls self.new ≡ count_after 1 (calls self.old) }
        ensures failures { failures self.new ≡
            failures_after (write_fails result) (failures self.old) };
}

/// The error of [`write_all`]: one of its writes failed, or wrote no byte.
#[derive(Clone, Copy, Debug, PartialEq, Eq, Error)]
#[error("write failed after {written} bytes")]
pub struct WriteFault {
    /// The number of bytes that were written before the failure.
    pub written: usize,
}

/// Writes all of `bytes`, with as many writes as that needs.
///
/// # Errors
///
/// `WriteFault` if a write fails or writes no byte. Its field `written` is the number of bytes
/// written before.
///
/// # Examples
///
/// From [samples](../../samples/src/values.rt), with a sink that accepts 4 bytes in a write and
/// fails from byte 10 on:
///
/// ```rust
/// let mut sink = MemorySink::new(alloc, 4, 10)?;
/// let result = write_all(&mut sink, b"+a line of text\r\n");
/// println!(rt; "{result:?} {}", sink.bytes().escape_ascii())?;
/// ```
///
/// This prints `Err(WriteFault { written: 10 }) +a line of`.
pub fn write_all<W: Sink>(sink: &mut W, bytes: &[u8]) -> Result<(), WriteFault>
    ensures ok { OnOk result (Appends (W.written sink.old) (W.written sink.new) bytes.now) }
    ensures none_failed { OnOk result (W.failures sink.new ≡ W.failures sink.old) }
    ensures within { IfErr result (λ fault. fault.written < length bytes.now) }
    ensures part { IfErr result (λ fault. Appends (W.written sink.old) (W.written sink.new)
        (take fault.written bytes.now)) }
    ensures failed_once { OnErr result (W.failures sink.new ≡
        count_after 1 (W.failures sink.old)) }
{
    let mut written = 0;
    while written < bytes.len() {
        match sink.write(&bytes[written..]) {
            Ok(0) | Err(DeviceFault) => return Err(WriteFault { written }),
            Ok(count) => written += count,
        }
    }
    Ok(())
}
