//! Values that are written to a device.

use super::build::value;
use super::check_equal;
use resp_encode::{EncodeError, EncodeToError, encode_to};
use resp_io::device::MemorySink;
use resp_value::limits::Limits;
use resp_value::version::Version;
use std::process::Abort;

/// Checks the result of `encode_to` for the value of a text in version 2, and the bytes written.
/// The writer accepts at most `most` bytes in a write and fails from a byte on.
fn check_sent<R: Abort + AllocGlobal>(
    rt: &R,
    text: &[u8],
    (most, fails_from): (usize, usize),
    answer: Result<u64, EncodeToError>,
    bytes: &[u8],
) {
    let value = &value(rt, text);
    let mut sink = MemorySink::new(rt.alloc(), most, fails_from).expect(rt, "out of memory");
    let limits = Limits::standard();
    let sent = encode_to(rt.alloc(), Version::Two, &limits, value, &mut sink);
    check_equal(rt, (sent, sink.bytes()), (answer, bytes));
}

#[test]
fn devices(rt: HostRuntime) {
    check_sent(&rt, b"$3\r\nfoo\r\n", (1, 100), Ok(9), b"$3\r\nfoo\r\n");
}

#[test]
fn a_device_that_fails(rt: HostRuntime) {
    let fault = EncodeToError::Write { written: 3 };
    check_sent(&rt, b"$3\r\nfoo\r\n", (2, 3), Err(fault), b"$3\r");
}

#[test]
fn a_refusal_before_a_device(rt: HostRuntime) {
    let refused = EncodeToError::Refused(EncodeError::NotInVersion);
    check_sent(&rt, b"#t\r\n", (1, 100), Err(refused), b"");
}
