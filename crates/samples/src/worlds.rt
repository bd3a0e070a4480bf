//! Several clients of one store.

use anyhow::Result;
use resp_value::{Command, Limits};
use resp_wire::{Event, World};
use std::alloc::Global;
use std::hash::{BuildHasherDefault, FoldHasher};

pub(crate) fn run(rt: &impl Print, alloc: Global) -> Result<()> {
    let hasher: BuildHasherDefault<FoldHasher> = BuildHasherDefault::new();
    let mut world = World::new(alloc, 2, Limits::standard(), hasher)?;
    world.step(&Event::Send(1, command(alloc, &[b"SET", b"a", b"1"])?))?;
    world.step(&Event::Send(2, command(alloc, &[b"GET", b"a"])?))?;
    world.step(&Event::ToServer(2, 1_000))?;
    world.step(&Event::ToServer(1, 1_000))?;
    world.step(&Event::ToClient(2, 1_000))?;
    println!(rt; "{:?} {:?}", world.order(), world.replies(2))?;
    Ok(())
}

/// Makes a command of the given words.
fn command(alloc: Global, words: &[&[u8]]) -> Result<Command> {
    let mut made = Vec::new(alloc);
    for word in words {
        made.push(Vec::from_slice(alloc, word)?)?;
    }
    Ok(Command::new(made)?)
}
