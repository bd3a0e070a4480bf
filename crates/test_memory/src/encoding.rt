//! Parts that test values and the encoder.

use crate::decoding::values;
use crate::given::{command, words};
use crate::outcome::Outcome;
use bytes::BytesMut;
use resp_encode::{
    EncodeError, EncodeToError, append, encode, encode_push, encode_to, encode_words,
};
use resp_io::device::MemorySink;
use resp_value::command::Command;
use resp_value::limits::Limits;
use resp_value::value::Value;
use resp_value::version::Version;
use std::alloc::{AllocError, Global};

/// A value with most of the forms, in canonical text.
pub(crate) const SAMPLE: &[u8] =
    b"*7\r\n|1\r\n+ttl\r\n:3600\r\n$5\r\nhello\r\n%1\r\n+k\r\n~2\r\n#t\r\n_\r\n\
    (-120\r\n=8\r\ntxt:text\r\n!3\r\nERR\r\n-bad\r\n+OK\r\n";

/// The bytes of a buffer before something is appended.
const BEFORE: &[u8] = b"+before\r\n";

fn standing(alloc: Global) -> Result<BytesMut, AllocError> {
    BytesMut::copy_from_slice(alloc, BEFORE)
}

/// Returns the outcome of appending this text to a buffer: the whole text, or nothing.
fn appended(answer: Result<(), EncodeError>, out: &BytesMut, text: &[u8]) -> Outcome {
    match answer {
        Ok(()) => Outcome::of(out.as_slice().strip_prefix(BEFORE) == Some(text)),
        Err(EncodeError::OutOfMemory) => Outcome::refused(out.as_slice() == BEFORE),
        Err(_) => Outcome::Wrong,
    }
}

/// Returns whether this is the canonical text of the value in version 3.
pub(crate) fn is_written_so(alloc: Global, value: &Value, text: &[u8]) -> Outcome {
    let Ok(mut out) = standing(alloc) else {
        return Outcome::OutOfMemory;
    };
    let answer = encode(Version::Three, &Limits::standard(), value, &mut out);
    appended(answer, &out, text)
}

/// A map of one pair, whose value is an array of two.
const SAMPLE_MAP: &[u8] = b"%1\r\n$3\r\nkey\r\n*2\r\n:-7\r\n$6\r\nsecond\r\n";

fn sample(alloc: Global) -> Option<Value> {
    values(alloc, SAMPLE_MAP).ok()?.pop()
}

fn is_copied(alloc: Global, value: &Value) -> Outcome {
    match value.try_clone(alloc) {
        Ok(copy) => is_written_so(alloc, &copy, SAMPLE_MAP),
        Err(AllocError) => Outcome::OutOfMemory,
    }
}

pub(crate) fn of_clone(alloc: Global) -> Outcome {
    match sample(alloc) {
        Some(value) => is_copied(alloc, &value),
        None => Outcome::OutOfMemory,
    }
}

pub(crate) fn of_value(alloc: Global) -> Outcome {
    match sample(alloc) {
        Some(value) => is_written_so(alloc, &value, SAMPLE_MAP),
        None => Outcome::OutOfMemory,
    }
}

fn is_pushed(alloc: Global, items: &[Value]) -> Outcome {
    let Ok(mut out) = standing(alloc) else {
        return Outcome::OutOfMemory;
    };
    let answer = encode_push(&Limits::standard(), items, &mut out);
    appended(answer, &out, b">2\r\n$7\r\nmessage\r\n:1\r\n")
}

pub(crate) fn of_push(alloc: Global) -> Outcome {
    match values(alloc, b"$7\r\nmessage\r\n:1\r\n") {
        Ok(items) => is_pushed(alloc, items.as_slice()),
        Err(_) => Outcome::OutOfMemory,
    }
}

fn are_written(alloc: Global, words: &[Vec<u8>]) -> Outcome {
    let Ok(mut out) = standing(alloc) else {
        return Outcome::OutOfMemory;
    };
    let answer = encode_words(&Limits::standard(), words, &mut out);
    appended(answer, &out, b"*2\r\n$3\r\nGET\r\n$1\r\na\r\n")
}

pub(crate) fn of_words(alloc: Global) -> Outcome {
    match words(alloc, &[b"GET", b"a"]) {
        Ok(words) => are_written(alloc, words.as_slice()),
        Err(AllocError) => Outcome::OutOfMemory,
    }
}

/// Appends a bulk string by itself: the whole text, or nothing.
pub(crate) fn of_bulk(alloc: Global) -> Outcome {
    let Ok(mut out) = standing(alloc) else {
        return Outcome::OutOfMemory;
    };
    let answer = append::bulk(b"second", &mut out);
    appended(
        answer.map_err(|_| EncodeError::OutOfMemory),
        &out,
        b"$6\r\nsecond\r\n",
    )
}

fn is_sent(alloc: Global, value: &Value, sink: &mut MemorySink) -> Outcome {
    match encode_to(alloc, Version::Three, &Limits::standard(), value, sink) {
        Ok(_) => Outcome::of(sink.bytes() == SAMPLE_MAP),
        Err(EncodeToError::Refused(EncodeError::OutOfMemory)) => {
            Outcome::refused(sink.bytes().is_empty())
        }
        Err(_) => Outcome::Wrong,
    }
}

pub(crate) fn to_writer(alloc: Global) -> Outcome {
    match (sample(alloc), MemorySink::new(alloc, 5, 4_096)) {
        (Some(value), Ok(mut sink)) => is_sent(alloc, &value, &mut sink),
        _ => Outcome::OutOfMemory,
    }
}

fn is_same(alloc: Global, command: &Command) -> Outcome {
    match command.try_clone(alloc) {
        Ok(copy) => Outcome::of(copy.words() == command.words()),
        Err(AllocError) => Outcome::OutOfMemory,
    }
}

pub(crate) fn of_command(alloc: Global) -> Outcome {
    match command(alloc, &[b"GET", b"a"]) {
        Ok(command) => is_same(alloc, &command),
        Err(AllocError) => Outcome::OutOfMemory,
    }
}
