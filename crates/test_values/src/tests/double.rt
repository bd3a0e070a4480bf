//! The texts that a double accepts and rejects.

use super::build::vec;
use super::check_equal;
use resp_value::double::{BadDouble, Double};
use std::process::Abort;

/// Texts of the published grammar, and `-nan`.
const DOUBLES: [&[u8]; 14] = [
    b"0",
    b"-0",
    b"+1",
    b"00",
    b"3.14",
    b"-0.50",
    b"1e3",
    b"1E-07",
    b"+1.5e+20",
    b"123456789012345678901234567890.5",
    b"inf",
    b"-inf",
    b"nan",
    b"-nan",
];

/// Texts that lack a part, have one too many, or have other bytes.
const OTHERS: [&[u8]; 24] = [
    b"",
    b"+",
    b"-",
    b".",
    b".5",
    b"1.",
    b"1.e3",
    b"e5",
    b"1e",
    b"1e+",
    b"1e1.5",
    b"1e1e1",
    b"1.2.3",
    b"--1",
    b"+inf",
    b"+nan",
    b"INF",
    b"in",
    b"infinity",
    b"nan(1)",
    b"0x1p3",
    b"1 ",
    b"1\r\n",
    b"abc",
];

/// Checks that a double accepts this text, or returns it in its error.
fn check_double<R: Abort + AllocGlobal>(rt: &R, text: &[u8], is_kept: bool) {
    match Double::new(vec(rt, text)) {
        Ok(double) => check_equal(rt, (double.text(), true), (text, is_kept)),
        Err(BadDouble { bytes: back }) => {
            check_equal(rt, (back.as_slice(), false), (text, is_kept));
        }
    }
}

#[test]
fn keeps_the_texts_of_numbers(rt: HostRuntime) {
    for text in &DOUBLES {
        check_double(&rt, text, true);
    }
}

#[test]
fn hands_back_other_texts(rt: HostRuntime) {
    for text in &OTHERS {
        check_double(&rt, text, false);
    }
}
