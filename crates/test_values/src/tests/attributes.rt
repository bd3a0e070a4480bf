//! A value without the attributes in front of it.

use super::build::value;
use super::check_equal;
use std::process::Abort;

/// Checks that the value of the first text is the value of the second text once its attributes are
/// removed.
fn check_left<R: Abort + AllocGlobal>(rt: &R, text: &[u8], left: &[u8]) {
    let (value, left) = (&value(rt, text), &value(rt, left));
    check_equal(rt, value.without_attributes(), left);
}

#[test]
fn takes_away_each_attribute_before_a_value(rt: HostRuntime) {
    check_left(&rt, b"|1\r\n:1\r\n:2\r\n:3\r\n", b":3\r\n");
    let twice = b"|1\r\n:1\r\n:2\r\n|1\r\n:1\r\n:2\r\n:3\r\n";
    check_left(&rt, twice, b":3\r\n");
    check_left(&rt, b"|1\r\n,1\r\n,2\r\n,3\r\n", b",3\r\n");
}

#[test]
fn leaves_attributes_of_members(rt: HostRuntime) {
    let array = b"*1\r\n|1\r\n:1\r\n:2\r\n:3\r\n";
    check_left(&rt, array, array);
}
