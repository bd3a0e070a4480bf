//! The sign and digits that a big number keeps, and texts that are not numbers.

use super::build::vec;
use super::check_equal;
use resp_value::digits::{Digits, DigitsError};
use std::process::Abort;

fn check_kept<R: Abort + AllocGlobal>(rt: &R, text: &[u8], is_negative: bool, digits: &[u8]) {
    let number = Digits::new(rt.alloc(), text).expect(rt, "no number");
    let kept = (number.is_negative(), number.digits());
    check_equal(rt, kept, (is_negative, digits));
}

#[test]
fn keeps_sign_and_digits(rt: HostRuntime) {
    check_kept(&rt, b"7", false, b"7");
    check_kept(&rt, b"+007", false, b"7");
    check_kept(&rt, b"-00120", true, b"120");
    check_kept(&rt, b"-0", false, b"0");
    check_kept(&rt, b"+0", false, b"0");
    check_kept(&rt, b"000", false, b"0");
    check_kept(&rt, b"-000", false, b"0");
    check_kept(&rt, b"100", false, b"100");
    check_kept(&rt, b"-98765432109876543210", true, b"98765432109876543210");
}

/// Returns whether these digits are accepted without a change.
fn is_kept<R: Abort + AllocGlobal>(rt: &R, is_negative: bool, digits: &[u8]) -> bool {
    Digits::of_kept(is_negative, vec(rt, digits)).is_some()
}

#[test]
fn takes_digits_as_they_are_kept(rt: HostRuntime) {
    check_equal(&rt, is_kept(&rt, false, b"0"), true);
    check_equal(&rt, is_kept(&rt, true, b"120"), true);
    check_equal(&rt, is_kept(&rt, true, b"0"), false);
    check_equal(&rt, is_kept(&rt, false, b"07"), false);
    check_equal(&rt, is_kept(&rt, false, b""), false);
    check_equal(&rt, is_kept(&rt, false, b"-7"), false);
}

/// Checks that each text is rejected.
fn check_refused<R: Abort + AllocGlobal>(rt: &R, texts: &[&[u8]]) {
    for text in texts {
        let refused = Digits::new(rt.alloc(), text).err();
        check_equal(rt, refused, Some(DigitsError::BadDigits));
    }
}

#[test]
fn refuses_other_texts(rt: HostRuntime) {
    check_refused(&rt, &[b"", b"+", b"-", b"--1", b"+-1"]);
    check_refused(&rt, &[b"1a", b"a1", b"1-"]);
    check_refused(&rt, &[b" 1", b"1.0", b"0x1", b"1\r\n", b"/", b":"]);
}
