//! The texts of commands and of pushes.

use super::build::{bare_buffer, small_limits, words};
use super::check_equal;
use resp_encode::{EncodeError, check_words, encode_push, encode_words, words_size};
use resp_value::cause::Limit;
use resp_value::value::Value;
use std::process::Abort;

/// Checks that `encode_push` appends `text` for the items to a buffer that holds `kept`.
fn check_push<R: Abort + AllocGlobal>(rt: &R, items: &[Value], text: &[u8]) {
    let mut buffer = bare_buffer(rt);
    let answer = encode_push(&small_limits(), items, &mut buffer);
    check_equal(rt, (answer, buffer.as_slice()), (Ok(()), text));
}

#[test]
fn pushes(rt: HostRuntime) {
    check_push(&rt, &[], b"kept>0\r\n");
    check_push(&rt, &[Value::Int(1)], b"kept>1\r\n:1\r\n");
}

/// Checks the results of `check_words` and `encode_words` for these words, and the text of the
/// buffer, which held `kept` before.
fn check_written<R: Abort + AllocGlobal>(
    rt: &R,
    words: &[Vec<u8>],
    answer: Result<(), EncodeError>,
    text: &[u8],
) {
    let mut buffer = bare_buffer(rt);
    check_equal(rt, check_words(&small_limits(), words), answer);
    let encoded = encode_words(&small_limits(), words, &mut buffer);
    check_equal(rt, (encoded, buffer.as_slice()), (answer, text));
}

#[test]
fn commands(rt: HostRuntime) {
    let words = words(&rt, &[b"SET", b"a", b"1"]);
    let text = b"kept*3\r\n$3\r\nSET\r\n$1\r\na\r\n$1\r\n1\r\n";
    check_written(&rt, words.as_slice(), Ok(()), text);
    check_equal(&rt, words_size(&small_limits(), &[3, 1, 1]), Ok(27));
}

#[test]
fn a_word_that_is_too_long(rt: HostRuntime) {
    let words = words(&rt, &[&[b'a'; 65]]);
    let over = Err(EncodeError::OverLimits(Limit::Length));
    check_written(&rt, words.as_slice(), over, b"kept");
    check_equal(&rt, words_size(&small_limits(), &[65]), Err(Limit::Length));
}
