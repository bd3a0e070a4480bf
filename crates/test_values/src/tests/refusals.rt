//! Values that the encoder rejects, and values just within the limits.

use super::build::{limits_with_doubles, small_limits, value, values};
use super::check_equal;
use super::texts::check_encode;
use resp_encode::{EncodeError, size};
use resp_value::cause::Limit;
use resp_value::limits::Limits;
use resp_value::value::{Members, Value};
use resp_value::version::Version;
use std::process::Abort;

/// Checks that the value of a text has this size in a version.
fn check_size<R: Abort + AllocGlobal>(rt: &R, version: Version, text: &[u8], wanted: Option<u64>) {
    let value = &value(rt, text);
    check_equal(rt, size(version, value), wanted);
}

/// Checks that `encode` rejects the value of a text in version 2, where it has no size.
fn check_refused<R: Abort + AllocGlobal>(rt: &R, text: &[u8], error: EncodeError) {
    check_size(rt, Version::Two, text, None);
    let value = &value(rt, text);
    check_encode(rt, Version::Two, &Limits::standard(), value, Err(error));
}

#[test]
fn types(rt: HostRuntime) {
    check_refused(&rt, b"*1\r\n#t\r\n", EncodeError::NotInVersion);
    check_refused(&rt, b">0\r\n", EncodeError::NotInVersion);
}

/// Checks that `encode` rejects an array with a push in it, which then has no size.
fn check_nested<R: Abort + AllocGlobal>(rt: &R, version: Version, error: EncodeError) {
    let array = &Value::Array(Members::new(values(rt, b">0\r\n")));
    check_equal(rt, size(version, array), None);
    check_encode(rt, version, &Limits::standard(), array, Err(error));
}

#[test]
fn nested_pushes(rt: HostRuntime) {
    check_nested(&rt, Version::Three, EncodeError::NestedPush);
    check_nested(&rt, Version::Two, EncodeError::NotInVersion);
}

/// Checks that `encode` rejects this value in both versions if doubles are not allowed, because it
/// holds a double.
fn check_doubles<R: Abort + AllocGlobal>(rt: &R, value: &Value) {
    let limits = &Limits::standard();
    check_encode(rt, Version::Three, limits, value, Err(EncodeError::Double));
    check_encode(rt, Version::Two, limits, value, Err(EncodeError::Double));
}

#[test]
fn doubles(rt: HostRuntime) {
    check_doubles(&rt, &value(&rt, b",3.14\r\n"));
    check_doubles(&rt, &value(&rt, b"%1\r\n+a\r\n,3.14\r\n"));
    check_doubles(
        &rt,
        &Value::Array(Members::new(values(&rt, b">0\r\n,1\r\n"))),
    );
}

#[test]
fn doubles_in_version_two(rt: HostRuntime) {
    check_size(&rt, Version::Two, b",3.14\r\n", None);
    let value = &value(&rt, b"*1\r\n,3.14\r\n");
    let error = Err(EncodeError::NotInVersion);
    check_encode(&rt, Version::Two, &limits_with_doubles(), value, error);
}

#[test]
fn null_in_version_two_is_none_of_them(rt: HostRuntime) {
    check_size(&rt, Version::Two, b"*1\r\n_\r\n", Some(9));
}

/// Checks the result of `encode` for the value of a text in version 2, under small limits.
fn check_small<R: Abort + AllocGlobal>(rt: &R, text: &[u8], wanted: Result<&[u8], EncodeError>) {
    let value = &value(rt, text);
    check_encode(rt, Version::Two, &small_limits(), value, wanted);
}

/// Checks that the value of a text exceeds this limit.
fn check_over<R: Abort + AllocGlobal>(rt: &R, text: &[u8], limit: Limit) {
    check_small(rt, text, Err(EncodeError::OverLimits(limit)));
}

/// Nested arrays with a bulk string of 65 bytes in the innermost, one byte more than the small
/// limits allow.
const DEEP: &[u8] = b"*1\r\n*1\r\n*1\r\n*1\r\n*1\r\n\
    $65\r\n0123456789abcdef0123456789abcdef0123456789abcdef0123456789abcdef0\r\n";

#[test]
fn length(rt: HostRuntime) {
    check_over(&rt, &DEEP[20..], Limit::Length);
}

#[test]
fn depth_is_named_before_length(rt: HostRuntime) {
    check_over(&rt, DEEP, Limit::Depth);
}

/// Seventeen members, one more than the small limits allow.
const MANY: &[u8] = b"*17\r\n:1\r\n:1\r\n:1\r\n:1\r\n:1\r\n:1\r\n:1\r\n:1\r\n:1\r\n\
    :1\r\n:1\r\n:1\r\n:1\r\n:1\r\n:1\r\n:1\r\n:1\r\n";

#[test]
fn items(rt: HostRuntime) {
    check_over(&rt, MANY, Limit::Items);
}

/// Four bulk strings of 64 bytes, as long as the small limits allow: 288 bytes.
const FOUR: &[u8] = b"*4\r\n\
    $64\r\n0123456789abcdef0123456789abcdef0123456789abcdef0123456789abcdef\r\n\
    $64\r\n0123456789abcdef0123456789abcdef0123456789abcdef0123456789abcdef\r\n\
    $64\r\n0123456789abcdef0123456789abcdef0123456789abcdef0123456789abcdef\r\n\
    $64\r\n0123456789abcdef0123456789abcdef0123456789abcdef0123456789abcdef\r\n";

/// Three of them: 217 bytes.
const THREE: &[u8] = b"*3\r\n\
    $64\r\n0123456789abcdef0123456789abcdef0123456789abcdef0123456789abcdef\r\n\
    $64\r\n0123456789abcdef0123456789abcdef0123456789abcdef0123456789abcdef\r\n\
    $64\r\n0123456789abcdef0123456789abcdef0123456789abcdef0123456789abcdef\r\n";

#[test]
fn total(rt: HostRuntime) {
    check_size(&rt, Version::Two, FOUR, Some(288));
    check_over(&rt, FOUR, Limit::Total);
    check_size(&rt, Version::Two, THREE, Some(217));
    check_small(&rt, THREE, Ok(THREE));
}
