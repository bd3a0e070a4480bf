//! The part that tests worlds.

use crate::given::command;
use crate::outcome::Outcome;
use resp_server::OpenError;
use resp_value::cause::Cause;
use resp_value::limits::Limits;
use resp_wire::{Event, MemoryLink, Stop, World};
use std::alloc::{AllocError, Global};
use std::hash::{BuildHasherDefault, FoldHasher};

type TestWorld = World<MemoryLink, BuildHasherDefault<FoldHasher>>;

/// More bytes than wait.
const ALL: u64 = 1_000_000;

/// Returns events in which a key is read before it is set, and then all replies reach their
/// clients.
fn events(alloc: Global) -> Result<Vec<Event>, AllocError> {
    let mut events = Vec::new(alloc);
    events.push(Event::Send(1, command(alloc, &[b"SET", b"a", b"1"])?))?;
    events.push(Event::Send(2, command(alloc, &[b"GET", b"a"])?))?;
    events.push(Event::ToServer(2, 20))?;
    events.push(Event::ToServer(1, 27))?;
    events.push(Event::ToClient(1, ALL))?;
    events.push(Event::ToClient(2, ALL))?;
    Ok(events)
}

fn has_one_key(world: &TestWorld) -> bool {
    let mut entries = world.entries();
    entries.next().is_some() && entries.next().is_none()
}

/// Checks that there is one reply each, and one key.
fn stands(world: &TestWorld) -> bool {
    world.clients() == 2
        && world.order() == [2, 1].as_slice()
        && world.replies(1).len() == 1
        && world.replies(2).len() == 1
        && has_one_key(world)
}

/// Checks that a world that stopped when out of memory stops in the same way at each later event.
fn stays_stopped(world: &mut TestWorld) -> bool {
    let later = world.step(&Event::ToServer(1, ALL));
    later
        == Err(Stop {
            event: 0,
            cause: Cause::OutOfMemory,
        })
}

fn runs(world: &mut TestWorld, events: &[Event]) -> Outcome {
    match world.run(events) {
        Ok(()) => Outcome::of(stands(world)),
        Err(stop) => {
            if stop.cause == Cause::OutOfMemory {
                Outcome::refused(stays_stopped(world))
            } else {
                Outcome::Wrong
            }
        }
    }
}

fn of_events(alloc: Global, events: &[Event]) -> Outcome {
    match World::new(alloc, 2, Limits::standard(), BuildHasherDefault::new()) {
        Ok(mut world) => runs(&mut world, events),
        Err(OpenError::OutOfMemory) => Outcome::OutOfMemory,
        Err(OpenError::TooManySessions) => Outcome::Wrong,
    }
}

pub(crate) fn of_run(alloc: Global) -> Outcome {
    match events(alloc) {
        Ok(events) => of_events(alloc, events.as_slice()),
        Err(AllocError) => Outcome::OutOfMemory,
    }
}
