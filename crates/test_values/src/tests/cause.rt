//! The number and the name of each cause.

use super::check_equal;
use resp_value::cause::{Cause, Limit};
use std::process::Abort;

/// Each cause with its number and its name.
const CAUSES: [(Cause, u32, &str); 33] = [
    (Cause::Syntax, 1, "Syntax"),
    (Cause::Double, 2, "Double"),
    (Cause::Version, 3, "Version"),
    (Cause::NestedPush, 4, "NestedPush"),
    (Cause::Range, 5, "Range"),
    (Cause::Depth, 6, "Depth"),
    (Cause::Length, 7, "Length"),
    (Cause::Total, 8, "Total"),
    (Cause::Truncated, 9, "Truncated"),
    (Cause::OutOfMemory, 10, "OutOfMemory"),
    (Cause::Streamed, 12, "Streamed"),
    (Cause::Items, 13, "Items"),
    (Cause::Unasked, 20, "Unasked"),
    (Cause::TooLarge, 21, "TooLarge"),
    (Cause::BadCommand, 22, "BadCommand"),
    (Cause::TooMany, 24, "TooMany"),
    (Cause::TooManySessions, 30, "TooManySessions"),
    (Cause::NoSession, 31, "NoSession"),
    (Cause::Closing, 32, "Closing"),
    (Cause::NotInVersion, 40, "NotInVersion"),
    (Cause::PushBelowTop, 41, "NestedPush"),
    (Cause::OverLimits(Limit::Depth), 42, "OverLimits"),
    (Cause::OverLimits(Limit::Length), 42, "OverLimits"),
    (Cause::OverLimits(Limit::Items), 42, "OverLimits"),
    (Cause::OverLimits(Limit::Total), 42, "OverLimits"),
    (Cause::Read, 50, "Read"),
    (Cause::Write, 51, "Write"),
    (Cause::TooManyTurns, 52, "TooManyTurns"),
    (Cause::Ended, 53, "Ended"),
    (Cause::BadLine, 60, "BadLine"),
    (Cause::BadDigits, 61, "BadDigits"),
    (Cause::Busy, 62, "Busy"),
    (Cause::BadLimits, 63, "BadLimits"),
];

#[test]
fn numbers_and_names(rt: HostRuntime) {
    for (cause, number, name) in &CAUSES {
        check_equal(&rt, (cause.number(), cause.name()), (*number, *name));
    }
}
