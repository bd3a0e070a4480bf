//! Runs a proxy with two clients in every order of nine events, and compares what each client gets with
//! an independent replay.
//!
//! A client of another proxy is not served.
//!
//! Each client sends two commands. Twice the server receives thirty bytes, which is one command and a part
//! of the next, and twice it replies to a command. Once the connection to the server is lost, or a client
//! goes. After the nine events everything is sent and replied to.
#![tactic(auto)]

mod orders;
mod replay;
mod world;

use anyhow::Result;
use orders::next_order;
use replay::{Fault, Replay};
use resp_proxy::{ClientError, Proxy, Setting, Settings};
use std::alloc::Global;
use world::World;

/// The nine events: each client sends a command twice, the server receives bytes twice and replies twice,
/// and there is one fault.
const EVENTS: [u8; 9] = [0, 0, 1, 1, 2, 2, 3, 3, 4];

fn main(rt: HostRuntime) -> Result<()> {
    let alloc = rt.alloc();
    for (name, fault) in [
        ("the connection is lost", Fault::Lose),
        ("client 1 goes", Fault::Close(0)),
    ] {
        let (orders, same) = run_all(alloc, fault)?;
        println!(rt; "{name}: {orders} orders, {same} as in the replay")?;
    }
    let (first, second) = told_to_a_stranger(alloc)?;
    println!(rt; "a client of another proxy: {first}, then {second}")?;
    Ok(())
}

/// Returns the errors of the first two pieces of a client that another proxy has opened.
fn told_to_a_stranger(alloc: Global) -> Result<(String, String)> {
    let mut own = Proxy::new(alloc, Settings::standard())?;
    let mut other = Proxy::new(alloc, Settings::standard())?;
    let line = own.open_line(&Setting::first(alloc)?)?;
    let mut client = own.open(&line)?;
    let first = told(alloc, other.from_client(&mut client, b"PING\r\n"))?;
    let second = told(alloc, other.from_client(&mut client, b""))?;
    Ok((first, second))
}

/// Returns the text of an error, or `taken`.
fn told(alloc: Global, taken: std::result::Result<(), ClientError>) -> Result<String> {
    match taken {
        Ok(()) => Ok(format!(in alloc; "taken")?),
        Err(error) => Ok(format!(in alloc; "{error}")?),
    }
}

/// Runs each order of the events. Returns their number, and the number of those in which the proxy and
/// the replay agree.
fn run_all(alloc: Global, fault: Fault) -> Result<(u64, u64)> {
    let mut order = EVENTS;
    let mut orders = 0u64;
    let mut same = 0u64;
    loop {
        orders += 1;
        if agrees(alloc, &order, fault)? {
            same += 1;
        }
        if !next_order(&mut order) {
            return Ok((orders, same));
        }
    }
}

/// Returns whether the proxy and the replay agree about these events.
fn agrees(alloc: Global, order: &[u8], fault: Fault) -> Result<bool> {
    let mut world = World::new(alloc)?;
    let mut replay = Replay::new(alloc);
    for event in order {
        match *event {
            2 => {
                world.send(30)?;
                replay.send(30);
            }
            3 => {
                world.reply()?;
                replay.reply();
            }
            4 => {
                world.suffer(fault)?;
                replay.suffer(fault);
            }
            client => {
                world.ask(usize::from(client))?;
                replay.ask(usize::from(client))?;
            }
        }
    }
    for _ in 0..4 {
        world.send(1_000)?;
        replay.send(1_000);
        world.reply()?;
        replay.reply();
    }
    world.agrees(&replay)
}
