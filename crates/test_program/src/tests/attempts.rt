//! When a connection is tried again, and when it is given up.

use super::check_equal;
use resp_schedule::Attempts;
use std::time::Duration;

/// Returns attempts at this millisecond, with a patience of 5 seconds.
fn at(attempts: Attempts, milliseconds: u64) -> Attempts {
    Attempts {
        time: Duration::from_millis(milliseconds),
        ..attempts
    }
}

/// The first attempt begins at once, and each pause is twice the one before, from 10 milliseconds
/// to a second.
#[test]
fn pauses_double(rt: HostRuntime) {
    let mut attempts = Attempts::new(Duration::from_secs(5));
    check_equal(&rt, attempts.may_begin(), true);
    let mut time = 0;
    for pause in [10, 20, 40, 80, 160, 320, 640, 1_000, 1_000] {
        attempts.begin();
        check_equal(&rt, attempts.may_begin(), false);
        attempts.lose();
        check_equal(
            &rt,
            attempts.time_left(true),
            Some(Duration::from_millis(pause)),
        );
        attempts = at(attempts, time + pause - 1);
        check_equal(&rt, attempts.may_begin(), false);
        time += pause;
        attempts = at(attempts, time);
        check_equal(&rt, attempts.may_begin(), true);
    }
}

/// A connection over which a reply came is tried again at once, and pauses begin anew.
#[test]
fn a_connection_with_replies_is_tried_again_at_once(rt: HostRuntime) {
    let mut attempts = Attempts::new(Duration::from_secs(5));
    attempts.lose();
    attempts.lose();
    attempts.open();
    attempts.note_replies();
    attempts.lose();
    check_equal(&rt, attempts.may_begin(), true);
    attempts.open();
    attempts.lose();
    check_equal(
        &rt,
        attempts.time_left(false),
        Some(Duration::from_millis(10)),
    );
}

/// A connection that was begun is late after the patience, and not before.
#[test]
fn a_connection_is_late_after_the_patience(rt: HostRuntime) {
    let mut attempts = at(Attempts::new(Duration::from_secs(5)), 1_000);
    attempts.begin();
    check_equal(
        &rt,
        attempts.time_left(false),
        Some(Duration::from_millis(5_000)),
    );
    check_equal(&rt, at(attempts, 6_000).is_late(), false);
    check_equal(&rt, at(attempts, 6_001).is_late(), true);
    attempts.open();
    check_equal(&rt, at(attempts, 6_001).is_late(), false);
}

/// A connection is given up if commands wait and no reply comes for longer than the patience.
#[test]
fn a_silent_connection_is_given_up(rt: HostRuntime) {
    let mut attempts = at(Attempts::new(Duration::from_secs(5)), 1_000);
    attempts.begin();
    attempts.open();
    check_equal(&rt, attempts.time_left(false), None);
    check_equal(&rt, attempts.gives_up(false), false);
    // The first look at which a command waits begins the silence.
    attempts = at(attempts, 9_000);
    check_equal(&rt, attempts.gives_up(true), false);
    check_equal(
        &rt,
        attempts.time_left(true),
        Some(Duration::from_millis(5_000)),
    );
    attempts = at(attempts, 14_000);
    check_equal(&rt, attempts.gives_up(true), false);
    check_equal(&rt, at(attempts, 14_001).gives_up(true), true);
    // A reply ends it.
    attempts.note_replies();
    attempts = at(attempts, 20_000);
    check_equal(&rt, attempts.gives_up(true), false);
    attempts = at(attempts, 25_000);
    check_equal(&rt, attempts.gives_up(true), false);
    // No command waits any more.
    attempts = at(attempts, 30_000);
    check_equal(&rt, attempts.gives_up(false), false);
    check_equal(&rt, attempts.is_open(), true);
}
