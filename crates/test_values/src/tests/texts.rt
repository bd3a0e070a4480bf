//! The texts of values.

use super::build::{bare_buffer, limits_with_doubles, roomy_buffer, value};
use super::check_equal;
use bytes::BytesMut;
use resp_encode::{EncodeError, encode, size};
use resp_value::limits::Limits;
use resp_value::value::Value;
use resp_value::version::Version;
use std::process::Abort;

/// Checks that `encode` appends this text or fails with this error, with and without spare room in
/// the buffer.
pub fn check_encode<R: Abort + AllocGlobal>(
    rt: &R,
    version: Version,
    limits: &Limits,
    value: &Value,
    wanted: Result<&[u8], EncodeError>,
) {
    check_into(rt, &mut bare_buffer(rt), version, limits, value, wanted);
    check_into(rt, &mut roomy_buffer(rt), version, limits, value, wanted);
}

/// Encodes into a buffer that holds `kept`. A failed call has to leave the buffer unchanged.
fn check_into(
    rt: &impl Abort,
    buffer: &mut BytesMut,
    version: Version,
    limits: &Limits,
    value: &Value,
    wanted: Result<&[u8], EncodeError>,
) {
    let answer = encode(version, limits, value, buffer);
    let appended = buffer.as_slice().strip_prefix(b"kept".as_slice());
    match wanted {
        Ok(text) => check_equal(rt, (answer, appended), (Ok(()), Some(text))),
        Err(error) => check_equal(rt, (answer, appended), (Err(error), Some(b"".as_slice()))),
    }
}

/// Checks that the value encoded in the first text has the second text in version 3, and that a
/// copy of the value is equal to it.
fn check_text<R: Abort + AllocGlobal>(rt: &R, spelling: &[u8], text: &[u8]) {
    let value = &value(rt, spelling);
    check_copy(rt, value);
    check_equal(rt, size(Version::Three, value), Some(text.len() as u64));
    check_encode(rt, Version::Three, &limits_with_doubles(), value, Ok(text));
}

fn check_copy<R: Abort + AllocGlobal>(rt: &R, value: &Value) {
    let copy = &value.try_clone(rt.alloc()).expect(rt, "out of memory");
    check_equal(rt, copy, value);
}

/// Checks that each text is the canonical text of its value.
fn check_texts<R: Abort + AllocGlobal>(rt: &R, texts: &[&[u8]]) {
    for text in texts {
        check_text(rt, text, text);
    }
}

#[test]
fn nulls(rt: HostRuntime) {
    let limits = Limits::standard();
    check_encode(&rt, Version::Two, &limits, &Value::Null, Ok(b"$-1\r\n"));
    check_text(&rt, b"$-1\r\n", b"_\r\n");
}

/// Canonical texts of values in version 3.
const TEXTS: [&[u8]; 25] = [
    b"_\r\n",
    b"#t\r\n",
    b"#f\r\n",
    b":7\r\n",
    b":0\r\n",
    b":-12345\r\n",
    b":-9223372036854775808\r\n",
    b":9223372036854775807\r\n",
    b"+OK\r\n",
    b"-ERR no\r\n",
    b"$0\r\n\r\n",
    b"$10\r\nHello word\r\n",
    b"!7\r\nERR x\r\n\r\n",
    b"=15\r\ntxt:Some string\r\n",
    b",3.14\r\n",
    b",-1.5E+3\r\n",
    b",-nan\r\n",
    b"%1\r\n,1\r\n,1.0\r\n",
    b"|1\r\n,1\r\n+a\r\n,2\r\n",
    b"*0\r\n",
    b"*2\r\n:1\r\n_\r\n",
    b"~1\r\n#t\r\n",
    b">1\r\n$1\r\nx\r\n",
    b"%1\r\n+a\r\n:1\r\n",
    b"|1\r\n+a\r\n:1\r\n*1\r\n:3\r\n",
];

#[test]
fn texts_of_values(rt: HostRuntime) {
    check_texts(&rt, &TEXTS);
}

#[test]
fn big_numbers(rt: HostRuntime) {
    check_text(&rt, b"(-00120\r\n", b"(-120\r\n");
    check_text(&rt, b"(-0\r\n", b"(0\r\n");
}
