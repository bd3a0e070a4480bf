//! A part that tests the schedule of a loop.

use crate::outcome::Outcome;
use resp_schedule::{OpenError, PlaceState, Schedule, Wait};
use std::alloc::Global;

/// The number of places that are opened.
const PLACES: usize = 20;

/// Queues and closes each open place. Returns whether each was visited in its turn, and whether no
/// other place is open.
fn visits_each(schedule: &mut Schedule, count: usize) -> bool {
    for place in 0..count {
        schedule.enqueue(place);
    }
    let mut holds = schedule.next_due().is_none();
    for place in 0..count {
        holds = holds && schedule.next_due() == Some(place);
        schedule.close(place);
    }
    holds && schedule.next_due().is_none() && schedule.wait() == Wait::Long
}

/// Opens places one after another. If an allocation fails, the places opened before can still be
/// queued and closed.
pub(crate) fn of_open(alloc: Global) -> Outcome {
    let mut schedule = Schedule::new(alloc, PLACES);
    for place in 0..PLACES {
        match schedule.open() {
            Ok(opened) if opened == place => {}
            Err(OpenError::OutOfMemory) => {
                let stands = schedule.open_places() == place
                    && schedule.state(place) == PlaceState::Closed
                    && visits_each(&mut schedule, place);
                return Outcome::refused(stands);
            }
            _ => return Outcome::Wrong,
        }
    }
    let is_full = schedule.open() == Err(OpenError::Full);
    Outcome::of(is_full && visits_each(&mut schedule, PLACES))
}
