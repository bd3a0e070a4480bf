//! Bytes to values.

use anyhow::Result;
use resp_decode::{CutDecoder, Decoder, decode_all};
use resp_value::{CutValue, Limits, Value, Version};
use std::alloc::Global;

pub(crate) fn run(rt: &impl Print, alloc: Global) -> Result<()> {
    decode_pieces(rt, alloc)?;
    end_early(rt, alloc)?;
    reject_doubles(rt, alloc)?;
    decode_input(rt, alloc)?;
    keep_first_bytes(rt, alloc)
}

fn decode_pieces(rt: &impl Print, alloc: Global) -> Result<()> {
    let mut decoder = Decoder::new(alloc, Version::Two, &Limits::standard());
    let first = decoder.feed(b"*2\r\n:1\r\n")?;
    let second = decoder.feed(b":2\r\n")?;
    println!(rt; "{} {}", first.value.is_some(), second.value.is_some())?;
    Ok(())
}

fn end_early(rt: &impl Print, alloc: Global) -> Result<()> {
    let mut decoder = Decoder::new(alloc, Version::Two, &Limits::standard());
    let fed = decoder.feed(b"+OK\r\n$3\r\n")?;
    println!(rt; "{} {:?}", fed.used, decoder.finish())?;
    let fed = decoder.feed(b"$3\r\n")?;
    println!(rt; "{} {:?}", fed.used, decoder.finish())?;
    Ok(())
}

fn reject_doubles(rt: &impl Print, alloc: Global) -> Result<()> {
    let mut decoder = Decoder::new(alloc, Version::Three, &Limits::standard());
    if let Err(fault) = decoder.feed(b",3.14\r\n") {
        println!(rt; "{fault}")?;
    }
    let limits = Limits::standard().with_doubles(true);
    let mut decoder = Decoder::new(alloc, Version::Three, &limits);
    println!(rt; "{}", decoder.feed(b",3.14\r\n")?.value.is_some())?;
    Ok(())
}

fn decode_input(rt: &impl Print, alloc: Global) -> Result<()> {
    let limits = Limits::standard();
    let values = decode_all(alloc, Version::Two, &limits, b"+OK\r\n:7\r\n")?;
    println!(rt; "{}", values.len())?;
    if let Err(error) = decode_all(alloc, Version::Two, &limits, b"+OK\r\n:7x") {
        println!(rt; "{error}")?;
    }
    Ok(())
}

fn keep_first_bytes(rt: &impl Print, alloc: Global) -> Result<()> {
    let mut decoder = CutDecoder::new(alloc, Version::Two, &Limits::standard(), 5);
    decoder.feed(b"$12\r\nhello, wo")?;
    println!(rt; "{}", decoder.weight())?;
    if let Some(CutValue { value, lengths }) = &decoder.feed(b"rld\r\n")?.value {
        if let Value::Bulk(content) = value {
            println!(rt; "{} {lengths:?}", content.list().escape_ascii())?;
        }
    }
    Ok(())
}
