//! Three clients with two commands each, and each command in two parts: every order of the
//! arrivals. The second part of a command arrives together with the first part of the next command.

use crate::Tally;
use crate::replay::{Asked, Replay, TestWorld};
use resp_value::limits::Limits;
use resp_wire::{Event, World};
use std::alloc::{AllocError, Global};
use std::hash::BuildHasherDefault;

/// The commands of each client.
const ASKED: [[Asked; 2]; 3] = [
    [Asked::Set(b'a', b'1'), Asked::Get(b'b')],
    [Asked::Set(b'b', b'2'), Asked::Get(b'a')],
    [Asked::Delete(b'a'), Asked::Set(b'a', b'3')],
];

/// The number of sequences of nine arrivals, each at one of three sessions.
const SEQUENCES: u64 = 19_683;

/// The number of arrivals of each client.
const ARRIVALS: usize = 3;

/// Runs each sequence in which each client occurs three times.
pub(crate) fn run_all(alloc: Global) -> Result<Tally, AllocError> {
    let mut tally = Tally { worlds: 0, same: 0 };
    for sequence in 0..SEQUENCES {
        let clients = clients_of(sequence);
        if counts_of(&clients) == [ARRIVALS; 3] {
            tally.add(run(alloc, &clients)?);
        }
    }
    Ok(tally)
}

/// Returns the clients of the arrivals, the digits of a number to the base 3.
fn clients_of(sequence: u64) -> [usize; 9] {
    let mut clients = [0; 9];
    let mut rest = sequence;
    for client in &mut clients {
        *client = (rest % 3) as usize;
        rest /= 3;
    }
    clients
}

/// Returns how often each client occurs among these.
fn counts_of(clients: &[usize; 9]) -> [usize; 3] {
    let mut counts = [0usize; 3];
    for client in clients {
        let index = *client % 3;
        counts[index] = counts[index].saturating_add(1);
    }
    counts
}

/// Returns whether a world and the replay agree for these arrivals.
fn run(alloc: Global, clients: &[usize]) -> Result<bool, AllocError> {
    let mut events = Vec::new(alloc);
    let mut replay = Replay::new(alloc);
    ask(alloc, &mut events)?;
    arrive(clients, &mut events, &mut replay)?;
    come_back(&mut events)?;
    is_replayed(alloc, events.as_slice(), &replay)
}

/// Each client sends its commands.
fn ask(alloc: Global, events: &mut Vec<Event>) -> Result<(), AllocError> {
    for index in 0..3 {
        for asked in ASKED[index] {
            events.push(Event::Send(index + 1, asked.command(alloc)?))?;
        }
    }
    Ok(())
}

/// Lets the bytes of the clients arrive in this order. The replay runs each command when it is
/// complete.
fn arrive(
    clients: &[usize],
    events: &mut Vec<Event>,
    replay: &mut Replay,
) -> Result<(), AllocError> {
    let mut arrived = [0usize; 3];
    for client in clients {
        let index = *client % 3;
        let [former, later] = ASKED[index];
        let (length, whole) = match arrived[index] {
            0 => (former.begun(), None),
            1 => (former.rest().saturating_add(later.begun()), Some(former)),
            _ => (later.rest(), Some(later)),
        };
        arrived[index] = arrived[index].saturating_add(1);
        events.push(Event::ToServer(index + 1, length))?;
        if let Some(asked) = whole {
            replay.run(index + 1, asked)?;
        }
    }
    Ok(())
}

/// Lets all replies reach the clients.
fn come_back(events: &mut Vec<Event>) -> Result<(), AllocError> {
    for number in 1..=3 {
        events.push(Event::ToClient(number, 1_000))?;
    }
    Ok(())
}

/// Returns whether a world with these events agrees with the replay.
fn is_replayed(alloc: Global, events: &[Event], replay: &Replay) -> Result<bool, AllocError> {
    match World::new(alloc, 3, Limits::standard(), BuildHasherDefault::new()) {
        Ok(mut world) => Ok(runs(&mut world, events) && shows(&world, replay)),
        Err(_) => Err(AllocError),
    }
}

fn runs(world: &mut TestWorld, events: &[Event]) -> bool {
    world.run(events).is_ok()
}

/// Returns whether all replies received are those of the replay.
fn shows(world: &TestWorld, replay: &Replay) -> bool {
    world.clients() == 3
        && replay.agrees(world)
        && (1..=3).all(|number| replay.answers(world, number, 2))
}
