//! Measures the cost of a command in a world of few clients and in a world of many.
//!
//! Each client in turn sends a PING, which reaches its session, and receives the reply. Without an
//! argument there are a hundred clients, and it prints counts, which are the same in every run.
//! With `times` there are a thousand and 16,000 clients, and it also prints the nanoseconds of one
//! command.

use crate::{end_line, has, nanos};
use anyhow::Result;
use resp_value::command::Command;
use resp_value::limits::Limits;
use resp_wire::{Event, MemoryLink, World};
use std::alloc::Global;
use std::hash::{BuildHasherDefault, FoldHasher};

/// The number of commands of each client.
const ROUNDS: usize = 10;

type BenchWorld = World<MemoryLink, BuildHasherDefault<FoldHasher>>;

fn ping(alloc: Global) -> Result<Command> {
    let name = b"PING".to_vec(alloc)?;
    Ok(Command::new(vec![in alloc; name]?)?)
}

/// One client sends a command and receives the reply.
fn converse(alloc: Global, world: &mut BenchWorld, client: usize) -> Result<()> {
    world.step(&Event::Send(client, ping(alloc)?))?;
    world.step(&Event::ToServer(client, u64::MAX))?;
    world.step(&Event::ToClient(client, u64::MAX))?;
    Ok(())
}

/// Runs each client in turn, `ROUNDS` times. Returns the nanoseconds used.
fn converse_all(rt: &HostRuntime, world: &mut BenchWorld, clients: usize) -> Result<u128> {
    let start = nanos(rt)?;
    for _ in 0..ROUNDS {
        for client in 0..clients {
            converse(rt.alloc(), world, client.wrapping_add(1))?;
        }
    }
    Ok(nanos(rt)?.saturating_sub(start))
}

fn run(rt: &HostRuntime, clients: usize, timed: bool) -> Result<()> {
    let hasher = BuildHasherDefault::new();
    let mut world: BenchWorld = World::new(rt.alloc(), clients, Limits::standard(), hasher)?;
    let nanos = converse_all(rt, &mut world, clients)?;
    let commands = world.order().len();
    print!(rt; "a world of {clients} clients: {commands} commands;")?;
    end_line(rt, timed, nanos, commands as u128, "each")
}

/// Runs the benchmark as the arguments request.
pub(crate) fn bench(rt: &HostRuntime, words: &[String]) -> Result<()> {
    if !has(words, "times") {
        return run(rt, 100, false);
    }
    run(rt, 1_000, true)?;
    run(rt, 16_000, true)
}
