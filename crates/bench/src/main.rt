//! Benchmarks of the client, the server, the codecs and worlds, to be compared with others.
//!
//! The arguments name a part, `client`, `server`, `lengths`, `alone`, `framed`, `worlds` or `grow`,
//! and its options.
//! Without an argument each part counts its work on short texts, with the same output in every run.
#![tactic(auto)]

mod client;
mod framed;
mod grow;
mod lengths;
mod server;
mod worlds;

use anyhow::Result;
use std::env;
use std::time::CpuClock;

/// Returns whether this name is among the arguments.
fn has(words: &[String], name: &str) -> bool {
    words.iter().any(|word| word.as_str() == name)
}

/// Returns the nanoseconds of processor time that this thread has used.
fn nanos(rt: &HostRuntime) -> Result<u128> {
    Ok(rt.thread_cpu_time()?.as_nanos())
}

/// Ends a line, with the nanoseconds of each of `count` operations before its end if it is timed.
fn end_line(rt: &HostRuntime, timed: bool, nanos: u128, count: u128, each: &str) -> Result<()> {
    if timed {
        print!(rt; " {} ns {each}", nanos / count.max(1))?;
    }
    println!(rt; "")?;
    Ok(())
}

/// Runs the parts that the arguments name, or all parts if they name no part.
fn bench(rt: &HostRuntime, words: &[String]) -> Result<()> {
    let names = [
        "client", "server", "lengths", "alone", "framed", "worlds", "grow",
    ];
    let all = !names.iter().any(|name| has(words, name));
    for name in names {
        if all || has(words, name) {
            bench_part(rt, name, words)?;
        }
    }
    Ok(())
}

fn bench_part(rt: &HostRuntime, name: &str, words: &[String]) -> Result<()> {
    match name {
        "client" => client::bench(rt, words),
        "server" => server::bench(rt, words),
        "lengths" => lengths::bench(rt, words),
        "alone" => lengths::bench_alone(rt, words),
        "framed" => framed::bench(rt, words),
        "worlds" => worlds::bench(rt, words),
        _ => grow::bench(rt, words),
    }
}

fn main(rt: HostRuntime) -> Result<()> {
    let words: Vec<String> = env::args(&rt)?.collect(rt.alloc())?;
    bench(&rt, words.as_slice())
}
