//! Decodes standard input as RESP3 in pieces of 16 bytes, and prints each value on a line.
#![tactic(auto)]

use anyhow::Result;
use resp_decode::Decoder;
use resp_value::{Limits, Value, Version};
use std::io::Read;

/// The size of one read, in bytes.
const PIECE: usize = 16;

/// Prints the values that end in a piece. The decoder keeps the part of a value that the piece does
/// not finish.
fn print_values(rt: &impl Print, decoder: &mut Decoder, piece: &[u8]) -> Result<()> {
    let mut rest = piece;
    while !rest.is_empty() {
        let fed = decoder.feed(rest)?;
        rest = &rest[fed.used..];
        if let Some(value) = &fed.value {
            print_value(rt, value)?;
        }
    }
    Ok(())
}

/// Prints the text of a bulk string, the length of an array, and any other value with `Debug`.
fn print_value(rt: &impl Print, value: &Value) -> Result<()> {
    match value {
        Value::Bulk(content) => println!(rt; "\"{}\"", content.list().escape_ascii())?,
        Value::Array(members) => println!(rt; "an array of {}", members.list().len())?,
        value => println!(rt; "{value:?}")?,
    }
    Ok(())
}

fn main(rt: HostRuntime) -> Result<()> {
    let mut input = rt.stdin();
    let mut decoder = Decoder::new(rt.alloc(), Version::Three, &Limits::standard());
    let mut piece = [0; PIECE];
    for _ in 0..u64::MAX {
        let count = input.read(&mut piece)?;
        if count == 0 {
            break;
        }
        print_values(&rt, &mut decoder, &piece[..count])?;
    }
    decoder.finish()?;
    Ok(())
}
