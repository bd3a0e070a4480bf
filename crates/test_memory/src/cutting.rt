//! Parts that test the decoder that keeps the first bytes of each text.

use crate::encoding::is_written_so;
use crate::outcome::{Outcome, answers};
use resp_decode::CutDecoder;
use resp_scan::event::Fault;
use resp_value::CutValue;
use resp_value::cause::Cause;
use resp_value::limits::Limits;
use resp_value::version::Version;
use std::alloc::Global;

/// A value with texts of several kinds.
const TEXT: &[u8] =
    b"*3\r\n$5\r\nhello\r\n|1\r\n+key\r\n:1\r\n=7\r\ntxt:abc\r\n$?\r\n;2\r\nab\r\n;1\r\nc\r\n;0\r\n";

/// The same value, with the first two bytes of each text.
const CUT: &[u8] = b"*3\r\n$2\r\nhe\r\n|1\r\n+ke\r\n:1\r\n=6\r\ntxt:ab\r\n$2\r\nab\r\n";

/// The lengths of its texts that have more than one byte.
const LENGTHS: [u64; 4] = [5, 3, 3, 3];

/// Returns the value that ends with a piece.
fn feed(decoder: &mut CutDecoder, piece: &[u8]) -> Result<Option<CutValue>, Fault> {
    Ok(decoder.feed(piece)?.value)
}

/// Returns whether this fault is final and nothing is held.
fn is_final(decoder: &mut CutDecoder, fault: Fault) -> bool {
    answers(feed(decoder, b":7\r\n"), fault)
        && decoder.finish() == Err(fault)
        && decoder.taken() == fault.at
        && decoder.weight() == 0
}

/// Returns the value that ends with the last of the pieces of `size` bytes.
fn feed_all(decoder: &mut CutDecoder, size: usize) -> Result<Option<CutValue>, Fault> {
    let mut last = None;
    for piece in TEXT.chunks(size.max(1)) {
        last = feed(decoder, piece)?;
    }
    Ok(last)
}

/// Checks that the pieces of `size` bytes are one value, with these first bytes and lengths.
fn of_pieces(alloc: Global, size: usize) -> Outcome {
    let mut decoder = CutDecoder::new(alloc, Version::Three, &Limits::standard(), 1);
    match feed_all(&mut decoder, size) {
        Ok(Some(CutValue { value, lengths })) => {
            if lengths.as_slice() == LENGTHS.as_slice() {
                is_written_so(alloc, &value, CUT)
            } else {
                Outcome::Wrong
            }
        }
        Ok(None) => Outcome::Wrong,
        Err(fault) => {
            let is_refusal = fault.cause == Cause::OutOfMemory && fault.at <= TEXT.len() as u64;
            Outcome::refused(is_refusal && is_final(&mut decoder, fault))
        }
    }
}

pub(crate) fn of_one_piece(alloc: Global) -> Outcome {
    of_pieces(alloc, TEXT.len())
}

pub(crate) fn of_single_bytes(alloc: Global) -> Outcome {
    of_pieces(alloc, 1)
}
