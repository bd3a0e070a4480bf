//! Parts that test the decoder.

use crate::encoding::{SAMPLE, is_written_so};
use crate::outcome::{Outcome, answers};
use resp_decode::{AllFault, Decoder, decode_all};
use resp_scan::event::Fault;
use resp_value::cause::Cause;
use resp_value::limits::Limits;
use resp_value::value::Value;
use resp_value::version::Version;
use std::alloc::Global;

/// Returns the value that ends with a piece.
fn feed(decoder: &mut Decoder, piece: &[u8]) -> Result<Option<Value>, Fault> {
    Ok(decoder.feed(piece)?.value)
}

/// Returns whether this fault is final and nothing is held.
fn is_final(decoder: &mut Decoder, fault: Fault) -> bool {
    answers(feed(decoder, b":7\r\n"), fault)
        && decoder.finish() == Err(fault)
        && decoder.taken() == fault.at
        && decoder.weight() == 0
}

/// Checks that the fault is `OutOfMemory`, lies within the `given` bytes, and is final.
fn refused(decoder: &mut Decoder, fault: Fault, given: usize) -> Outcome {
    let is_refusal = fault.cause == Cause::OutOfMemory && fault.at <= given as u64;
    Outcome::refused(is_refusal && is_final(decoder, fault))
}

/// Returns the value that ends with a piece, if the decoder holds no more than it has read.
fn feed_piece(decoder: &mut Decoder, piece: &[u8], given: usize) -> Result<Option<Value>, Outcome> {
    match feed(decoder, piece) {
        Ok(value) if decoder.weight() <= decoder.taken() => Ok(value),
        Ok(_) => Err(Outcome::Wrong),
        Err(fault) => Err(refused(decoder, fault, given)),
    }
}

/// Returns the value that ends with the last of the pieces of `size` bytes.
fn feed_all(decoder: &mut Decoder, text: &[u8], size: usize) -> Result<Option<Value>, Outcome> {
    let mut given: usize = 0;
    let mut last = None;
    for piece in text.chunks(size.max(1)) {
        given = given.saturating_add(piece.len());
        last = feed_piece(decoder, piece, given)?;
    }
    Ok(last)
}

/// Checks that the text, in pieces of `size` bytes, is one value with this canonical text.
fn of_pieces(alloc: Global, text: &[u8], size: usize, canonical: &[u8]) -> Outcome {
    let mut decoder = Decoder::new(alloc, Version::Three, &Limits::standard());
    match feed_all(&mut decoder, text, size) {
        Ok(Some(value)) => is_written_so(alloc, &value, canonical),
        Ok(None) => Outcome::Wrong,
        Err(outcome) => outcome,
    }
}

pub(crate) fn of_one_piece(alloc: Global) -> Outcome {
    of_pieces(alloc, SAMPLE, SAMPLE.len(), SAMPLE)
}

pub(crate) fn of_single_bytes(alloc: Global) -> Outcome {
    of_pieces(alloc, SAMPLE, 1, SAMPLE)
}

pub(crate) fn of_streamed_forms(alloc: Global) -> Outcome {
    let text = b"*?\r\n$?\r\n;2\r\nab\r\n;1\r\nc\r\n;0\r\n%?\r\n+k\r\n:1\r\n.\r\n.\r\n";
    let canonical = b"*2\r\n$3\r\nabc\r\n%1\r\n+k\r\n:1\r\n";
    of_pieces(alloc, text, 2, canonical)
}

/// Returns whether a piece is read and the value continues.
fn goes_on(decoder: &mut Decoder, piece: &[u8]) -> bool {
    match feed(decoder, piece) {
        Ok(None) => true,
        _ => false,
    }
}

/// Returns whether these bytes, one by one, end a value, and no earlier value, without an
/// allocation.
fn reads(decoder: &mut Decoder, text: &[u8], value: &Value) -> bool {
    for byte in text {
        if !goes_on(decoder, &[*byte]) {
            return false;
        }
    }
    match feed(decoder, b"\n") {
        Ok(Some(read)) => read == *value,
        _ => false,
    }
}

/// Booleans, integers and nulls of one line do not allocate, so no failed allocation can affect
/// them.
pub(crate) fn of_scalars(alloc: Global) -> Outcome {
    let mut decoder = Decoder::new(alloc, Version::Three, &Limits::standard());
    let is_truth = reads(&mut decoder, b"#t\r", &Value::Bool(true));
    let is_number = reads(&mut decoder, b":7\r", &Value::Int(7));
    let is_null = reads(&mut decoder, b"_\r", &Value::Null);
    Outcome::of(is_truth && is_number && is_null)
}

/// Returns whether the head is read and the value continues.
fn takes_head(alloc: Global, limits: &Limits, head: &[u8]) -> bool {
    let mut decoder = Decoder::new(alloc, Version::Three, limits);
    goes_on(&mut decoder, head) && decoder.taken() == head.len() as u64
}

/// The number in a head allocates nothing for members that have not been received, so no
/// failed allocation can affect it.
pub(crate) fn of_heads(alloc: Global) -> Outcome {
    let Ok(great) = Limits::new(128, 536_870_912, 1_099_511_627_776) else {
        return Outcome::Wrong;
    };
    Outcome::of(
        takes_head(alloc, &great, b"*1000000000") && takes_head(alloc, &great, b"$536870912\r\n"),
    )
}

/// Returns the values encoded in a text of version 3.
pub(crate) fn values(alloc: Global, text: &[u8]) -> Result<Vec<Value>, AllFault> {
    decode_all(alloc, Version::Three, &Limits::standard(), text)
}

pub(crate) fn of_all(alloc: Global) -> Outcome {
    match values(alloc, b":7\r\n+OK\r\n$-1\r\n") {
        Ok(values) => are_read(alloc, values.as_slice()),
        Err(refusal) => Outcome::refused(refusal.fault.cause == Cause::OutOfMemory),
    }
}

fn are_read(alloc: Global, values: &[Value]) -> Outcome {
    match values {
        [Value::Int(7), simple, Value::Null] => is_written_so(alloc, simple, b"+OK\r\n"),
        _ => Outcome::Wrong,
    }
}
