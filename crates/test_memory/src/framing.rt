//! Parts that test the codecs for framed streams.

use crate::decoding::values;
use crate::encoding::{SAMPLE, is_written_so};
use crate::outcome::Outcome;
use bytes::BytesMut;
use resp_codec::{CodecError, CommandCodec, RespCodec};
use resp_encode::EncodeError;
use resp_session::words::Requested;
use resp_value::cause::Cause;
use resp_value::limits::Limits;
use resp_value::value::Value;
use resp_value::version::Version;
use std::alloc::Global;
use tokio_util::codec::{Decoder, Encoder};

/// The bytes of a buffer before a frame is appended.
const BEFORE: &[u8] = b"+a\r\n";

/// The number of bytes of a text that are received at once.
const PIECE: usize = 16;

/// Returns whether it is the error of a failed allocation, and the buffer is empty.
fn is_refusal(error: &CodecError, buffer: &BytesMut) -> bool {
    match error {
        CodecError::Fault(fault) => fault.cause == Cause::OutOfMemory && buffer.is_empty(),
        _ => false,
    }
}

/// Returns whether the codec of values returns the same error again, whatever it receives.
fn stays_refused(codec: &mut RespCodec, buffer: &mut BytesMut) -> bool {
    match codec.decode(buffer) {
        Ok(_) => false,
        Err(again) => is_refusal(&again, buffer),
    }
}

/// Returns the value that ends with the last piece of a text. Each piece is added to the buffer.
fn read(
    codec: &mut RespCodec,
    text: &[u8],
    buffer: &mut BytesMut,
) -> Result<Option<Value>, Outcome> {
    let mut last = None;
    for piece in text.chunks(PIECE) {
        if buffer.extend_from_slice(piece).is_err() {
            return Err(Outcome::OutOfMemory);
        }
        last = match codec.decode(buffer) {
            Ok(value) => value,
            Err(error) => {
                let refused = is_refusal(&error, buffer) && stays_refused(codec, buffer);
                return Err(Outcome::refused(refused));
            }
        };
    }
    Ok(last)
}

pub(crate) fn of_values_in(alloc: Global) -> Outcome {
    let mut codec = RespCodec::new(alloc, Version::Three, &Limits::standard());
    match read(&mut codec, SAMPLE, &mut BytesMut::new(alloc)) {
        Ok(Some(value)) => is_written_so(alloc, &value, SAMPLE),
        Ok(None) => Outcome::Wrong,
        Err(outcome) => outcome,
    }
}

/// Returns whether it is the command `GET a`.
fn is_get(asked: &Requested) -> bool {
    match asked {
        Requested::Command(words) => {
            words.len() == 2
                && words.word(0) == b"GET".as_slice()
                && words.word(1) == b"a".as_slice()
        }
        _ => false,
    }
}

pub(crate) fn of_commands_in(alloc: Global) -> Outcome {
    let mut codec = CommandCodec::new(alloc, &Limits::standard());
    let Ok(mut buffer) = BytesMut::copy_from_slice(alloc, b"*2\r\n$3\r\nGET\r\n$1\r\na\r\n+") else {
        return Outcome::OutOfMemory;
    };
    match codec.decode(&mut buffer) {
        Ok(Some(asked)) => Outcome::of(is_get(&asked) && buffer.as_slice() == b"+".as_slice()),
        Ok(None) => Outcome::Wrong,
        Err(error) => Outcome::refused(is_refusal(&error, &buffer)),
    }
}

/// Returns the outcome of appending the frame of a value to a buffer.
fn is_framed(alloc: Global, value: Value, text: &[u8]) -> Outcome {
    let Ok(mut out) = BytesMut::copy_from_slice(alloc, BEFORE) else {
        return Outcome::OutOfMemory;
    };
    let mut codec = CommandCodec::new(alloc, &Limits::standard());
    codec.set_version(Version::Three);
    match codec.encode(value, &mut out) {
        Ok(()) => Outcome::of(out.as_slice().strip_prefix(BEFORE) == Some(text)),
        Err(CodecError::Refused(EncodeError::OutOfMemory)) => {
            Outcome::refused(out.as_slice() == BEFORE)
        }
        Err(_) => Outcome::Wrong,
    }
}

pub(crate) fn of_replies_out(alloc: Global) -> Outcome {
    match values(alloc, SAMPLE) {
        Ok(mut read) => match read.pop() {
            Some(value) => is_framed(alloc, value, SAMPLE),
            None => Outcome::Wrong,
        },
        Err(_) => Outcome::OutOfMemory,
    }
}
