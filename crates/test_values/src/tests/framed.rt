//! The codecs for the framed streams of tokio, over buffers: values and commands at every cut, the
//! end of the input, and encoding.

use super::build::{value, values};
use super::check_equal;
use bytes::BytesMut;
use resp_codec::{CodecError, CommandCodec, RespCodec};
use resp_session::words::Requested;
use resp_value::limits::Limits;
use resp_value::value::Value;
use resp_value::version::Version;
use std::process::Abort;
use tokio_util::codec::{Decoder, Encoder};

/// Three values, one after another.
const TEXT: &[u8] = b"+OK\r\n%1\r\n$1\r\na\r\n*2\r\n:1\r\n_\r\n#t\r\n";

/// Returns the values that a codec reads from a buffer after a piece was added to it.
fn decode_all<R: Abort + AllocGlobal>(
    rt: &R,
    codec: &mut RespCodec,
    buffer: &mut BytesMut,
    piece: &[u8],
) -> Result<Vec<Value>, CodecError> {
    let mut found = Vec::new(rt.alloc());
    buffer.extend_from_slice(piece).expect(rt, "out of memory");
    while let Some(value) = codec.decode(buffer)? {
        found.push(value).expect(rt, "out of memory");
    }
    Ok(found)
}

#[test]
fn values_come_however_they_are_cut(rt: HostRuntime) {
    for cut in 0..TEXT.len() + 1 {
        let mut codec = RespCodec::new(rt.alloc(), Version::Three, &Limits::standard());
        let mut buffer = BytesMut::new(rt.alloc());
        let mut found = Vec::new(rt.alloc());
        for piece in [&TEXT[..cut], &TEXT[cut..]] {
            match decode_all(&rt, &mut codec, &mut buffer, piece) {
                Ok(values) => {
                    for value in values {
                        found.push(value).expect(&rt, "out of memory");
                    }
                }
                Err(error) => panic!(rt; "{error}"),
            }
        }
        check_equal(&rt, found, values(&rt, TEXT));
        check_equal(&rt, buffer.is_empty(), true);
        check_equal(&rt, codec.decode_eof(&mut buffer).is_ok(), true);
    }
}

/// Returns the result of a codec of values in version 2 for a text, and for its end if the whole
/// text was read.
fn answer<R: Abort + AllocGlobal>(rt: &R, text: &[u8]) -> String {
    let mut codec = RespCodec::new(rt.alloc(), Version::Two, &Limits::standard());
    let mut buffer = BytesMut::new(rt.alloc());
    let answer = match decode_all(rt, &mut codec, &mut buffer, text) {
        Ok(_) => codec.decode_eof(&mut buffer),
        Err(error) => Err(error),
    };
    let answer = match answer {
        Ok(_) => format!(in rt.alloc(); "end"),
        Err(error) => format!(in rt.alloc(); "{error}"),
    };
    answer.expect(rt, "out of memory")
}

#[test]
fn refused_bytes_and_the_end_inside_a_value(rt: HostRuntime) {
    check_equal(&rt, answer(&rt, b"+OK\r\n").as_str(), "end");
    check_equal(&rt, answer(&rt, b"").as_str(), "end");
    check_equal(
        &rt,
        answer(&rt, b"+OK\r\n:1x").as_str(),
        "Syntax at byte 2 of the value",
    );
    check_equal(
        &rt,
        answer(&rt, b"+OK\r\n#t").as_str(),
        "Version at byte 0 of the value",
    );
    check_equal(
        &rt,
        answer(&rt, b"+OK\r\n$5\r\nhel").as_str(),
        "Truncated at byte 7 of the value",
    );
}

#[test]
fn commands_come_and_replies_go_in_the_version_that_was_set(rt: HostRuntime) {
    let mut codec = CommandCodec::new(rt.alloc(), &Limits::standard());
    let mut buffer = BytesMut::new(rt.alloc());
    buffer
        .extend_from_slice(b"*1\r\n$4\r\nPING\r\n+x\r\n*2\r\n$3\r\nGET\r\n")
        .expect(&rt, "out of memory");
    let first = codec.decode(&mut buffer);
    check_equal(&rt, matches!(&first, Ok(Some(Requested::Command(_)))), true);
    let second = codec.decode(&mut buffer);
    check_equal(
        &rt,
        matches!(&second, Ok(Some(Requested::Command(_)))),
        false,
    );
    check_equal(&rt, matches!(&second, Ok(Some(_))), true);
    check_equal(&rt, matches!(&codec.decode(&mut buffer), Ok(None)), true);
    buffer
        .extend_from_slice(b"$1\r\na\r\n")
        .expect(&rt, "out of memory");
    let third = codec.decode(&mut buffer);
    check_equal(&rt, matches!(&third, Ok(Some(Requested::Command(_)))), true);
    let mut out = BytesMut::new(rt.alloc());
    check_equal(&rt, codec.encode(Value::Null, &mut out).is_ok(), true);
    codec.set_version(Version::Three);
    check_equal(&rt, codec.encode(Value::Null, &mut out).is_ok(), true);
    check_equal(&rt, out.as_slice(), b"$-1\r\n_\r\n".as_slice());
}

#[test]
fn what_is_refused_leaves_the_buffer_as_it_was(rt: HostRuntime) {
    let mut codec = RespCodec::new(rt.alloc(), Version::Two, &Limits::standard());
    let mut out = BytesMut::new(rt.alloc());
    check_equal(
        &rt,
        codec.encode(value(&rt, b"+a\r\n"), &mut out).is_ok(),
        true,
    );
    check_equal(
        &rt,
        codec.encode(value(&rt, b"#t\r\n"), &mut out).is_ok(),
        false,
    );
    check_equal(&rt, out.as_slice(), b"+a\r\n".as_slice());
    check_equal(&rt, codec.set_version(Version::Three).is_ok(), true);
    check_equal(
        &rt,
        codec.encode(value(&rt, b"#t\r\n"), &mut out).is_ok(),
        true,
    );
    check_equal(&rt, out.as_slice(), b"+a\r\n#t\r\n".as_slice());
}
