//! The bytes that content keeps.

use super::build::content;
use super::check_equal;
use std::process::Abort;

fn check_content<R: Abort + AllocGlobal>(rt: &R, bytes: &[u8]) {
    let content = content(rt, bytes);
    check_equal(rt, content.list(), bytes);
    check_equal(rt, content.into_vec().as_slice(), bytes);
}

#[test]
fn keeps_any_bytes(rt: HostRuntime) {
    check_content(&rt, b"");
    check_content(&rt, b"foo");
    check_content(&rt, b"a\r\n\0\xff");
}
