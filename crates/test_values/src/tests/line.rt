//! The bytes that a line accepts and rejects.

use super::build::vec;
use super::check_equal;
use resp_value::line::{BadLine, Line};
use std::process::Abort;

/// Checks that a line accepts these bytes, or returns them in its error.
fn check_line<R: Abort + AllocGlobal>(rt: &R, bytes: &[u8], is_kept: bool) {
    match Line::new(vec(rt, bytes)) {
        Ok(line) => check_equal(rt, (line.text(), true), (bytes, is_kept)),
        Err(BadLine { bytes: back }) => {
            check_equal(rt, (back.as_slice(), false), (bytes, is_kept));
        }
    }
}

#[test]
fn keeps_bytes_without_cr_and_lf(rt: HostRuntime) {
    check_line(&rt, b"", true);
    check_line(&rt, b"OK", true);
    check_line(&rt, b"a\tb\0\x0b\x0c\xff", true);
}

#[test]
fn hands_back_bytes_with_cr_or_lf(rt: HostRuntime) {
    check_line(&rt, b"\r", false);
    check_line(&rt, b"\n", false);
    check_line(&rt, b"a\rb", false);
    check_line(&rt, b"a\nb", false);
    check_line(&rt, b"OK\r\n", false);
}
