//! Runs worlds over memory in every order that matters, and compares each world with an independent
//! replay: one store, and the commands in the order in which they become complete.
//!
//! Prints the number of worlds, and the number of worlds that agree with the replay.
#![tactic(auto)]

mod dropped;
mod interleaved;
mod replay;

use anyhow::Result;
use std::alloc::AllocError;

/// The number of worlds that were run, and the number of worlds that agreed with the replay.
#[derive(Clone, Copy)]
struct Tally {
    worlds: u64,
    same: u64,
}

impl Tally {
    fn add(&mut self, same: bool) {
        self.worlds = self.worlds.saturating_add(1);
        if same {
            self.same = self.same.saturating_add(1);
        }
    }
}

fn print(rt: &HostRuntime, name: &str, tally: Result<Tally, AllocError>) -> Result<()> {
    let Tally { worlds, same } = tally?;
    println!(rt; "{name}: {worlds} worlds, {same} as replayed")?;
    Ok(())
}

fn main(rt: HostRuntime) -> Result<()> {
    let alloc = rt.alloc();
    print(&rt, "interleaved", interleaved::run_all(alloc))?;
    print(&rt, "dropped", dropped::run_all(alloc))
}
