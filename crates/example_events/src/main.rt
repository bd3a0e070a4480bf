//! Scans standard input as RESP3 in pieces of 16 bytes, and prints each event on a line.
#![tactic(auto)]

use anyhow::Result;
use resp_scan::{Event, Scanner};
use resp_value::{Limits, Version};
use std::io::Read;

/// The size of one read, in bytes.
const PIECE: usize = 16;

/// Prints the events of a piece. The scanner keeps the state of a value that the piece does not
/// finish.
fn print_events(rt: &impl Print, scanner: &mut Scanner, piece: &[u8]) -> Result<()> {
    let mut rest = piece;
    for _ in 0..u64::MAX {
        let step = scanner.step(rest)?;
        rest = &rest[step.used..];
        match &step.event {
            Some(Event::Part(bytes)) => println!(rt; "Part(\"{}\")", bytes.escape_ascii())?,
            Some(event) => println!(rt; "{event:?}")?,
            None => break,
        }
    }
    Ok(())
}

fn main(rt: HostRuntime) -> Result<()> {
    let mut input = rt.stdin();
    let mut scanner = Scanner::new(Version::Three, &Limits::standard());
    let mut piece = [0; PIECE];
    for _ in 0..u64::MAX {
        let count = input.read(&mut piece)?;
        if count == 0 {
            break;
        }
        print_events(&rt, &mut scanner, &piece[..count])?;
    }
    scanner.finish()?;
    Ok(())
}
