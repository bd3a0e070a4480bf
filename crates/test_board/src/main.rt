//! Runs a thousand clients over one line of a board, and compares what each client gets and what the server is
//! sent with a replay that is written apart. Does the same for the desks of clients whose answers
//! arrive in any order, for lines whose commands have tickets, and for boards of clients and lines.
//!
//! Clients come and go, send commands, and read in pieces of any size. The server gets the bytes in
//! pieces of any size, replies late, and its connection is lost now and then. Everything is drawn
//! from a seed. Prints the number of differences for each seed.
#![tactic(auto)]

mod boards;
mod desks;
mod draw;
mod queues;
mod replay;
mod server;
mod world;

use anyhow::Result;
use world::World;

/// The number of events of a run.
const EVENTS: u64 = 20_000;

/// The number of events of a desk and of a line.
const DESK_EVENTS: u64 = 1_500;

/// The number of events of a board.
const BOARD_EVENTS: u64 = 500;

fn main(rt: HostRuntime) -> Result<()> {
    let alloc = rt.alloc();
    for seed in 1..4 {
        let mut world = World::new(alloc, seed)?;
        for _ in 0..EVENTS {
            world.step()?;
        }
        world.finish()?;
        let wrong = world.wrong();
        let busy = world.was_busy();
        println!(rt; "seed {seed}: 1000 clients, differences {wrong}, all kinds of events {busy}")?;
    }
    for seed in 1..4 {
        let (wrong, early) = desks::run(alloc, seed, DESK_EVENTS)?;
        println!(rt;
            "seed {seed}: a desk, differences {wrong}, answers before their turn {}",
            early > 100
        )?;
        let (wrong, lost) = queues::run(alloc, seed, DESK_EVENTS)?;
        println!(rt;
            "seed {seed}: a line, differences {wrong}, connections lost {}",
            lost > 10
        )?;
        let counts = boards::run(alloc, seed, BOARD_EVENTS)?;
        println!(rt;
            "seed {seed}: a board, differences {}, all kinds of events {}",
            counts.wrong,
            counts.all_happened()
        )?;
    }
    Ok(())
}
