//! The samples of the crates' doc comments. Each function is a sample that a comment shows, and
//! prints its result. tests/pages checks that the comments show these lines.
#![tactic(auto)]

mod counting;
mod decoding;
mod encoding;
mod flat;
mod framing;
mod pipelining;
mod printing;
mod scanning;
mod serving;
mod sessions;
mod tapping;
mod timing;
mod values;
mod wire;
mod worlds;

use anyhow::Result;

fn main(rt: HostRuntime) -> Result<()> {
    let alloc = rt.alloc();
    counting::run(&rt, alloc)?;
    values::run(&rt, alloc)?;
    sessions::run(&rt, alloc)?;
    encoding::run(&rt, alloc)?;
    scanning::run(&rt)?;
    decoding::run(&rt, alloc)?;
    pipelining::run(&rt, alloc)?;
    serving::run(&rt, alloc)?;
    wire::run(&rt, alloc)?;
    worlds::run(&rt, alloc)?;
    printing::run(&rt, alloc)?;
    tapping::run(&rt, alloc)?;
    framing::run(&rt, alloc)?;
    flat::run(&rt)?;
    timing::run(&rt)
}
