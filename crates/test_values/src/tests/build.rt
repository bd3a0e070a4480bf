//! Values to test with. If an allocation fails the test fails, so tests need no `?`.

use bytes::BytesMut;
use resp_decode::decode_all;
use resp_value::content::Content;
use resp_value::limits::Limits;
use resp_value::value::Value;
use resp_value::version::Version;
use std::process::Abort;

/// Returns the bytes of a text.
pub fn vec<R: Abort + AllocGlobal>(rt: &R, text: &[u8]) -> Vec<u8> {
    text.to_vec(rt.alloc()).expect(rt, "out of memory")
}

pub fn content<R: Abort + AllocGlobal>(rt: &R, bytes: &[u8]) -> Content {
    Content::new(vec(rt, bytes))
}

/// Returns the values encoded in a text of version 3, with doubles.
pub fn values<R: Abort + AllocGlobal>(rt: &R, text: &[u8]) -> Vec<Value> {
    match decode_all(rt.alloc(), Version::Three, &limits_with_doubles(), text) {
        Ok(values) => values,
        Err(fault) => panic!(rt; "{fault}"),
    }
}

/// Returns the one value encoded in a text of version 3.
pub fn value<R: Abort + AllocGlobal>(rt: &R, text: &[u8]) -> Value {
    values(rt, text).pop().expect(rt, "no value")
}

/// Texts as words of a command.
pub fn words<R: Abort + AllocGlobal>(rt: &R, texts: &[&[u8]]) -> Vec<Vec<u8>> {
    let mut words = Vec::new(rt.alloc());
    for text in texts {
        words.push(vec(rt, text)).expect(rt, "out of memory");
    }
    words
}

/// Limits of depth 4, length 64, total 256 and 16 items.
pub fn small_limits() -> Limits {
    Limits::new(4, 64, 256).unwrap().with_items(16).unwrap()
}

/// Returns the standard limits with doubles allowed.
pub fn limits_with_doubles() -> Limits {
    Limits::standard().with_doubles(true)
}

/// Returns a buffer that holds `kept`, without spare room.
pub fn bare_buffer<R: Abort + AllocGlobal>(rt: &R) -> BytesMut {
    BytesMut::copy_from_slice(rt.alloc(), b"kept").expect(rt, "out of memory")
}

/// Returns a buffer that holds `kept`, with spare room.
pub fn roomy_buffer<R: Abort + AllocGlobal>(rt: &R) -> BytesMut {
    let mut buffer = BytesMut::with_capacity(rt.alloc(), 1024).expect(rt, "out of memory");
    buffer
        .extend_from_slice(b"kept")
        .expect(rt, "out of memory");
    buffer
}
