//! Rounds of a schedule, as the loop of resp_server_net makes them.

use super::check_equal;
use resp_schedule::{Backlog, OpenError, PlaceState, Schedule, Wait};
use std::process::Abort;

/// Returns a schedule with as many open places, which may have one more.
fn with_places<R: Abort + AllocGlobal>(rt: &R, count: usize) -> Schedule {
    let mut schedule = Schedule::new(rt.alloc(), count.saturating_add(1));
    for place in 0..count {
        check_equal(rt, schedule.open(), Ok(place));
    }
    schedule
}

/// Checks which places a round visits.
fn check_round<R: Abort + AllocGlobal>(rt: &R, schedule: &mut Schedule, places: &[usize]) {
    for place in places {
        check_equal(rt, schedule.next_due(), Some(*place));
    }
    check_equal(rt, schedule.next_due(), None);
}

#[test]
fn a_busy_place_is_visited_once_a_round(rt: HostRuntime) {
    let mut schedule = with_places(&rt, 4);
    for place in [3, 0, 2] {
        schedule.enqueue(place);
    }
    check_round(&rt, &mut schedule, &[]);
    // Place 3 is queued again during each of its visits, and place 1 became ready.
    check_equal(&rt, schedule.next_due(), Some(3));
    schedule.enqueue(3);
    schedule.enqueue(1);
    check_round(&rt, &mut schedule, &[0, 2]);
    check_round(&rt, &mut schedule, &[3, 1]);
    check_round(&rt, &mut schedule, &[]);
}

#[test]
fn a_place_is_queued_once(rt: HostRuntime) {
    let mut schedule = with_places(&rt, 2);
    for place in [1, 1, 0, 1, 7] {
        schedule.enqueue(place);
    }
    check_equal(&rt, schedule.state(1), PlaceState::Queued);
    check_equal(&rt, schedule.state(7), PlaceState::Closed);
    check_round(&rt, &mut schedule, &[]);
    check_round(&rt, &mut schedule, &[1, 0]);
    check_equal(&rt, schedule.state(1), PlaceState::Idle);
}

#[test]
fn a_closed_place_leaves_the_queue_and_is_not_reused_in_the_round(rt: HostRuntime) {
    let mut schedule = with_places(&rt, 4);
    for place in [2, 0, 3, 1] {
        schedule.enqueue(place);
    }
    check_round(&rt, &mut schedule, &[]);
    check_equal(&rt, schedule.next_due(), Some(2));
    schedule.enqueue(2);
    schedule.close(2);
    schedule.close(3);
    schedule.close(3);
    check_equal(&rt, schedule.open_places(), 2);
    check_equal(&rt, schedule.open(), Ok(4));
    check_round(&rt, &mut schedule, &[0, 1]);
    // The round is over: the place that was closed first is opened first.
    check_equal(&rt, schedule.open(), Ok(2));
    check_equal(&rt, schedule.state(2), PlaceState::Idle);
    check_equal(&rt, schedule.open(), Ok(3));
    check_equal(&rt, schedule.open(), Err(OpenError::Full));
    check_round(&rt, &mut schedule, &[]);
}

#[test]
fn the_loop_waits_only_without_work(rt: HostRuntime) {
    let mut schedule = with_places(&rt, 1);
    let backlogs = [
        (Backlog::Empty, Wait::Long, false),
        (Backlog::Failing, Wait::Short, true),
        (Backlog::Waiting, Wait::No, true),
    ];
    for (backlog, wait, accepts) in backlogs {
        schedule.set_backlog(backlog);
        check_equal(&rt, (schedule.wait(), schedule.accepts()), (wait, accepts));
        schedule.enqueue(0);
        check_equal(&rt, schedule.wait(), Wait::No);
        check_round(&rt, &mut schedule, &[]);
        check_round(&rt, &mut schedule, &[0]);
    }
}

#[test]
fn a_close_makes_accepting_succeed_again(rt: HostRuntime) {
    let mut schedule = with_places(&rt, 2);
    schedule.set_backlog(Backlog::Failing);
    schedule.close(0);
    check_equal(&rt, (schedule.wait(), schedule.accepts()), (Wait::No, true));
    schedule.set_backlog(Backlog::Empty);
    schedule.close(1);
    check_equal(
        &rt,
        (schedule.wait(), schedule.accepts()),
        (Wait::Long, false),
    );
}

#[test]
fn nothing_is_opened_after_a_stop(rt: HostRuntime) {
    let mut schedule = with_places(&rt, 1);
    schedule.stop();
    schedule.set_backlog(Backlog::Waiting);
    check_equal(
        &rt,
        (schedule.wait(), schedule.accepts()),
        (Wait::Long, false),
    );
    check_equal(&rt, schedule.open(), Err(OpenError::Stopped));
    schedule.enqueue(0);
    check_equal(&rt, schedule.wait(), Wait::No);
    check_round(&rt, &mut schedule, &[]);
    check_round(&rt, &mut schedule, &[0]);
}
