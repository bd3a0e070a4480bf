//! Cuts values at each byte, and compares the frames with the values. Then two clients share a
//! server, and each byte of the conversation is a place of a cut.
//!
//! Prints the number of cuts, and the number of cuts with other frames or bytes.
#![tactic(auto)]

mod conversation;
mod cuts;
mod words;

use anyhow::Result;

fn main(rt: HostRuntime) -> Result<()> {
    let alloc = rt.alloc();
    let values = cuts::all(alloc)?;
    println!(rt; "values: {} cuts, {} wrong", values.cuts, values.wrong)?;
    let rejected = cuts::rejected(alloc)?;
    println!(rt;
        "rejected: {} cuts, {} wrong",
        rejected.cuts, rejected.wrong
    )?;
    let others = cuts::others(alloc)?;
    println!(rt; "no commands: {} cuts, {} wrong", others.cuts, others.wrong)?;
    let words = words::all(alloc)?;
    println!(rt; "words: {} cuts, {} wrong", words.cuts, words.wrong)?;
    let shared = conversation::all(alloc)?;
    println!(rt; "two clients: {} cuts, {} wrong", shared.cuts, shared.wrong)?;
    Ok(())
}
