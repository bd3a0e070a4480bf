//! Parts that test the reading of captures.

use crate::outcome::Outcome;
use resp_capture::{Capture, Placed, Reason, Reassembly, StreamError};
use std::alloc::Global;

/// A file of the format pcap with one packet of two bytes.
const FILE: &[u8] = b"\xa1\xb2\xc3\xd4\0\x02\0\x04\0\0\0\0\0\0\0\0\0\0\xff\xff\0\0\0\x65\
    \0\0\0\x05\0\0\0\x07\0\0\0\x02\0\0\0\x02ok";

/// Returns whether a stream to which no byte was given gives the first bytes, and then so many that
/// had waited.
fn gives_on(stream: &mut Reassembly, held: &[u8]) -> bool {
    match stream.take(0, b"abc") {
        Ok(Placed::Given(bytes)) if bytes == b"abc".as_slice() => {}
        _ => return false,
    }
    match stream.next_held() {
        Some(bytes) => bytes.as_slice() == held && stream.waiting() == 0,
        None => held.is_empty() && stream.waiting() == 0,
    }
}

/// A segment that waits. After a failed allocation the stream is as before.
pub(crate) fn of_stream(alloc: Global) -> Outcome {
    let mut stream = Reassembly::new(alloc, 0);
    match stream.take(3, b"def") {
        Ok(Placed::Waits) => Outcome::of(gives_on(&mut stream, b"def")),
        Err(StreamError::OutOfMemory) => Outcome::refused(gives_on(&mut stream, b"")),
        _ => Outcome::Wrong,
    }
}

/// A capture in single bytes. After a failed allocation each call fails.
pub(crate) fn of_capture(alloc: Global) -> Outcome {
    let mut capture = Capture::new(alloc);
    for byte in FILE {
        match capture.read(&[*byte]) {
            Ok(1) => {}
            Err(error) if error.reason == Reason::OutOfMemory => {
                let again = capture.read(b"x");
                return Outcome::refused(capture.end().is_err() && again == Err(error));
            }
            _ => return Outcome::Wrong,
        }
    }
    match capture.frame() {
        Ok(Some(frame)) => Outcome::of(frame.bytes == b"ok".as_slice() && capture.end().is_ok()),
        _ => Outcome::Wrong,
    }
}
