//! A client sets a key and another client reads it. Before each event one of them is dropped.

use crate::Tally;
use crate::replay::{Asked, Replay, TestWorld};
use resp_value::limits::Limits;
use resp_wire::{Event, Outcome, World};
use std::alloc::{AllocError, Global};
use std::hash::BuildHasherDefault;

/// The command of each client.
const ASKED: [Asked; 2] = [Asked::Set(b'a', b'1'), Asked::Get(b'a')];

/// What happens to a client.
#[derive(Clone, Copy)]
enum What {
    Asks,
    ComesToServer,
    ComesBack,
}

/// The events, each with the index of its client.
const HAPPENINGS: [(What, usize); 8] = [
    (What::Asks, 0),
    (What::Asks, 1),
    (What::ComesToServer, 1),
    (What::ComesToServer, 0),
    (What::ComesToServer, 0),
    (What::ComesBack, 0),
    (What::ComesToServer, 1),
    (What::ComesBack, 1),
];

/// Drops each client before each event in turn, and after the last event.
pub(crate) fn run_all(alloc: Global) -> Result<Tally, AllocError> {
    let mut tally = Tally { worlds: 0, same: 0 };
    for dropped in 0..2 {
        for place in 0..=HAPPENINGS.len() {
            tally.add(run(alloc, dropped, place)?);
        }
    }
    Ok(tally)
}

/// How far the command of a client has come.
#[derive(Clone, Copy)]
enum Stage {
    NotAsked,
    Asked,
    Ran,
    Heard,
}

/// Returns whether a world agrees with the replay if this client is dropped at this place.
fn run(alloc: Global, dropped: usize, place: usize) -> Result<bool, AllocError> {
    let mut replay = Replay::new(alloc);
    match World::new(alloc, 2, Limits::standard(), BuildHasherDefault::new()) {
        Ok(mut world) => run_events(alloc, &mut world, &mut replay, dropped, place),
        Err(_) => Err(AllocError),
    }
}

fn run_events(
    alloc: Global,
    world: &mut TestWorld,
    replay: &mut Replay,
    dropped: usize,
    place: usize,
) -> Result<bool, AllocError> {
    let mut stages = [Stage::NotAsked; 2];
    let mut goes_well = true;
    for (turn, (what, client)) in HAPPENINGS.iter().enumerate() {
        let index = *client % 2;
        if turn == place {
            goes_well &= is_done(
                world,
                &Event::Drop(dropped.saturating_add(1)),
                Outcome::Done,
            );
        }
        let event = event(alloc, *what, index)?;
        if turn >= place && index == dropped {
            goes_well &= is_done(world, &event, Outcome::Gone);
        } else {
            goes_well &= is_done(world, &event, Outcome::Done);
            stages[index] = happen(replay, *what, index, stages[index])?;
        }
    }
    if place == HAPPENINGS.len() {
        goes_well &= is_done(
            world,
            &Event::Drop(dropped.saturating_add(1)),
            Outcome::Done,
        );
    }
    Ok(goes_well && shows(world, replay, stages))
}

/// Performs an event, and returns whether it has this outcome.
fn is_done(world: &mut TestWorld, event: &Event, wanted: Outcome) -> bool {
    world.step(event) == Ok(wanted)
}

fn event(alloc: Global, what: What, index: usize) -> Result<Event, AllocError> {
    let number = index.saturating_add(1);
    Ok(match what {
        What::Asks => Event::Send(number, ASKED[index % 2].command(alloc)?),
        What::ComesToServer => Event::ToServer(number, 1_000),
        What::ComesBack => Event::ToClient(number, 1_000),
    })
}

/// Returns the stage of a client after an event.
fn happen(
    replay: &mut Replay,
    what: What,
    index: usize,
    stage: Stage,
) -> Result<Stage, AllocError> {
    match (what, stage) {
        (What::Asks, _) => Ok(Stage::Asked),
        (What::ComesToServer, Stage::Asked) => {
            replay.run(index.saturating_add(1), ASKED[index % 2])?;
            Ok(Stage::Ran)
        }
        (What::ComesBack, Stage::Ran) => Ok(Stage::Heard),
        _ => Ok(stage),
    }
}

fn shows(world: &TestWorld, replay: &Replay, stages: [Stage; 2]) -> bool {
    let [former, later] = stages;
    world.clients() == 2
        && replay.agrees(world)
        && replay.answers(world, 1, heard(former))
        && replay.answers(world, 2, heard(later))
}

/// Returns the number of replies that a client has received.
fn heard(stage: Stage) -> usize {
    match stage {
        Stage::Heard => 1,
        _ => 0,
    }
}
