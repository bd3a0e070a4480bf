//! Benchmarks of the encoder, the scanner, the decoder and flat replies, to be compared with others.
//!
//! It is a separate program, because the speed of a call depends on the rest of the program. The
//! arguments name a part, `encode`, `frames`, `replies` or `scan`, and its options. Without an argument the first
//! and the last part count their work on short texts, with the same output in every run.
#![tactic(auto)]

mod encode;
mod frames;
mod replies;
mod scan;
mod texts;

use anyhow::Result;
use std::env;
use std::time::CpuClock;

/// Returns whether this name is among the arguments.
fn has(words: &[String], name: &str) -> bool {
    words.iter().any(|word| word.as_str() == name)
}

/// Returns the nanoseconds of processor time that this thread has used.
fn nanos(rt: &HostRuntime) -> Result<u128> {
    Ok(rt.thread_cpu_time()?.as_nanos())
}

/// Runs the part that the arguments name, or `encode` and `scan` if they name no part.
fn main(rt: HostRuntime) -> Result<()> {
    let words: Vec<String> = env::args(&rt)?.collect(rt.alloc())?;
    let words = words.as_slice();
    if has(words, "frames") {
        return frames::bench(&rt, words);
    }
    if has(words, "replies") {
        return replies::bench(&rt, words);
    }
    if !has(words, "scan") {
        encode::bench(&rt, words)?;
    }
    if !has(words, "encode") {
        scan::bench(&rt, words)?;
    }
    Ok(())
}
