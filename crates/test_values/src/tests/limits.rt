//! The numbers that limits keep, and their ranges.

use super::check_equal;
use resp_value::limits::{BadLimits, Limits};
use std::process::Abort;

fn check_limits(rt: &impl Abort, limits: Limits, numbers: [u64; 4], streamed: bool) {
    let kept = [
        limits.depth(),
        limits.length(),
        limits.total(),
        limits.items(),
    ];
    check_equal(rt, kept, numbers);
    check_equal(rt, limits.streamed(), streamed);
}

/// Checks that these limits can allow doubles and forbid them again.
fn check_doubles(rt: &impl Abort, limits: Limits) {
    let allowed = limits.with_doubles(true);
    let refused = allowed.with_doubles(false);
    let all = [limits.doubles(), allowed.doubles(), refused.doubles()];
    check_equal(rt, all, [false, true, false]);
    check_equal(rt, allowed.with_streamed(false).doubles(), true);
}

#[test]
fn keeps_each_limit(rt: HostRuntime) -> Result<(), BadLimits> {
    let limits = Limits::new(5, 100, 300)?;
    check_limits(&rt, limits, [5, 100, 300, 1_099_511_627_776], true);
    let limits = limits.with_items(17)?.with_streamed(false);
    check_limits(&rt, limits, [5, 100, 300, 17], false);
    check_limits(&rt, limits.with_streamed(true), [5, 100, 300, 17], true);
    Ok(())
}

#[test]
fn standard_limits(rt: HostRuntime) {
    let numbers = [32, 536_870_912, 1_073_741_824, 1_099_511_627_776];
    check_limits(&rt, Limits::standard(), numbers, true);
}

#[test]
fn doubles_are_allowed_where_limits_say_so(rt: HostRuntime) -> Result<(), BadLimits> {
    check_doubles(&rt, Limits::standard());
    check_doubles(&rt, Limits::new(4, 64, 256)?);
    Ok(())
}

/// Limits of this depth, this length, this total and these items.
fn limits_of([depth, length, total, items]: [u64; 4]) -> Result<Limits, BadLimits> {
    Limits::new(depth, length, total)?.with_items(items)
}

/// Checks that all limits are accepted if `is_taken`, and that all are rejected otherwise.
fn check_taken(rt: &impl Abort, all: &[[u64; 4]], is_taken: bool) {
    for numbers in all {
        check_equal(rt, limits_of(*numbers).is_ok(), is_taken);
    }
}

#[test]
fn ranges_hold_both_their_ends(rt: HostRuntime) {
    let least = [4, 64, 256, 16];
    let greatest = [128, 1_073_741_824, 1_099_511_627_776, 1_099_511_627_776];
    check_taken(&rt, &[least, greatest], true);
}

#[test]
fn ranges_end_there(rt: HostRuntime) {
    let too_small = [
        [0, 64, 256, 16],
        [3, 64, 256, 16],
        [4, 63, 256, 16],
        [4, 64, 255, 16],
        [4, 64, 256, 15],
    ];
    check_taken(&rt, &too_small, false);
    let too_great = [
        [129, 64, 256, 16],
        [4, 1_073_741_825, 256, 16],
        [4, 64, 1_099_511_627_777, 16],
        [4, 64, 256, 1_099_511_627_777],
    ];
    check_taken(&rt, &too_great, false);
}
