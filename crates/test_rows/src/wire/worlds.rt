//! Rows of a world over memory: an event each, and the state that the world shows.

use crate::spelling::{add_pushes, add_values};
use crate::text::{self, number, split, version_if_any};
use anyhow::{Result, bail};
use resp_value::content::Content;
use resp_value::limits::Limits;
use resp_value::value::{Members, Value};
use resp_wire::{Event, MemoryLink, Outcome, Request, Stop, World};
use std::alloc::{AllocError, Global};
use std::hash::{BuildHasherDefault, FoldHasher};

pub(crate) type Memory = World<MemoryLink, BuildHasherDefault<FoldHasher>>;

/// Makes a world of this many clients.
pub(crate) fn renew(alloc: Global, world: &mut Option<Memory>, count: &str) -> Result<()> {
    let (count, hasher) = (number(count)? as usize, BuildHasherDefault::new());
    *world = Some(World::new(alloc, count, Limits::standard(), hasher)?);
    Ok(())
}

/// Runs an event, or prints a part of the state that the world shows.
pub(crate) fn run(
    alloc: Global,
    world: &mut Memory,
    name: &str,
    given: &str,
    said: &mut String,
) -> Result<()> {
    match name {
        "order" => say_order(world, said),
        "keys" => say_keys(world, said),
        "asked" | "replies" | "pushes" => say_client(world, name, number(given)? as usize, said),
        _ => say_step(world, &event(alloc, name, given)?, said),
    }
}

/// Returns the event of a row, which is written as in a script.
fn event(alloc: Global, name: &str, given: &str) -> Result<Event> {
    let (first, rest) = split(given);
    let client = number(first)? as usize;
    Ok(match name {
        "send" => Event::Send(client, text::command(alloc, rest)?),
        "hello" => Event::Hello(client, version_if_any(rest)?),
        "push" => Event::Push(client, items(alloc, rest)?),
        "server" => Event::ToServer(client, number(rest)?),
        "client" => Event::ToClient(client, number(rest)?),
        "drop" => Event::Drop(client),
        _ => bail!("an unknown row"),
    })
}

/// Returns the items of a push of the given words.
fn items(alloc: Global, words: &str) -> Result<Members> {
    let mut items = Vec::new(alloc);
    for word in text::words(alloc, words)? {
        items.push(Value::Bulk(Content::new(word)))?;
    }
    Ok(Members::new(items))
}

fn step(world: &mut Memory, event: &Event) -> Result<Outcome, Stop> {
    world.step(event)
}

/// Performs an event, and prints its outcome.
fn say_step(world: &mut Memory, event: &Event, said: &mut String) -> Result<()> {
    let outcome = step(world, event)?;
    writeln!(said, "{outcome:?}")?;
    Ok(())
}

/// Prints the client of each command, in the order in which the commands were run.
fn say_order(world: &Memory, said: &mut String) -> Result<()> {
    said.push_str("clients")?;
    for number in world.order() {
        write!(said, " {number}")?;
    }
    said.push_str("\n")?;
    Ok(())
}

/// Prints the keys of the store with their values.
fn say_keys(world: &Memory, said: &mut String) -> Result<()> {
    said.push_str("keys")?;
    for (key, value) in world.entries() {
        write!(said, " {}={}", key.escape_ascii(), value.escape_ascii())?;
    }
    said.push_str("\n")?;
    Ok(())
}

/// Prints the requests that a client has queued, or the replies or the pushes that it has received.
fn say_client(world: &Memory, name: &str, number: usize, said: &mut String) -> Result<()> {
    if number == 0 || number > world.clients() {
        bail!("no client");
    }
    match name {
        "asked" => say_asked(world.asked(number), said)?,
        "replies" => add_values(said, world.replies(number))?,
        _ => add_pushes(said, world.pushes(number))?,
    }
    Ok(())
}

fn say_asked(asked: &[Request], said: &mut String) -> Result<(), AllocError> {
    for request in asked {
        match request {
            Request::Hello(version) => writeln!(said, "hello {version:?}")?,
            Request::Command(command) => {
                said.push_str("command")?;
                for word in command.words() {
                    write!(said, " {}", word.escape_ascii())?;
                }
                said.push_str("\n")?;
            }
        }
    }
    Ok(())
}
