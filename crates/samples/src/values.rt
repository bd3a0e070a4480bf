//! Values, limits, commands and devices in memory.

use anyhow::Result;
use resp_io::{MemorySink, MemorySource, Source, write_all};
use resp_value::{Command, Content, Digits, Double, Limits, Line, PairList, Value};
use std::alloc::Global;

pub(crate) fn run(rt: &impl Print, alloc: Global) -> Result<()> {
    make_map(rt, alloc)?;
    skip_attributes(rt, alloc)?;
    make_limits(rt)?;
    make_lines(rt, alloc)?;
    make_doubles(rt, alloc)?;
    make_digits(rt, alloc)?;
    make_command(rt, alloc)?;
    write_to_memory(rt, alloc)?;
    read_from_memory(rt)
}

fn make_map(rt: &impl Print, alloc: Global) -> Result<()> {
    let name = Value::Bulk(Content::new(Vec::from_slice(alloc, b"hits")?));
    let pairs = vec![in alloc; (name, Value::Int(42))]?;
    let reply = Value::Map(PairList::new(pairs));
    if let Value::Map(pairs) = &reply {
        println!(rt; "{} pair", pairs.list().len())?;
    }
    Ok(())
}

fn skip_attributes(rt: &impl Print, alloc: Global) -> Result<()> {
    let key = Value::Simple(Line::new(Vec::from_slice(alloc, b"ttl")?)?);
    let pairs = vec![in alloc; (key, Value::Int(3600))]?;
    let annotated = Value::Attr(PairList::new(pairs), Box::new(alloc, Value::Int(7))?);
    println!(rt; "{:?}", annotated.without_attributes())?;
    Ok(())
}

fn make_limits(rt: &impl Print) -> Result<()> {
    let limits = Limits::new(8, 1_048_576, 16_777_216)?
        .with_items(1_000)?
        .with_doubles(true);
    println!(rt; "depth {}, items {}", limits.depth(), limits.items())?;
    Ok(())
}

fn make_lines(rt: &impl Print, alloc: Global) -> Result<()> {
    let pong = Line::new(Vec::from_slice(alloc, b"PONG")?)?;
    let two_lines = Line::new(Vec::from_slice(alloc, b"two\r\nlines")?);
    println!(rt; "{} {}", pong.text().escape_ascii(), two_lines.is_err())?;
    Ok(())
}

fn make_doubles(rt: &impl Print, alloc: Global) -> Result<()> {
    let score = Double::new(Vec::from_slice(alloc, b"1.5e3")?)?;
    let word = Double::new(Vec::from_slice(alloc, b"1.5 seconds")?);
    println!(rt; "{} {}", score.text().escape_ascii(), word.is_err())?;
    Ok(())
}

fn make_digits(rt: &impl Print, alloc: Global) -> Result<()> {
    let digits = Digits::new(alloc, b"-00123456789012345678901234567890")?;
    println!(rt;
        "{} {}",
        digits.is_negative(),
        digits.digits().escape_ascii()
    )?;
    Ok(())
}

fn make_command(rt: &impl Print, alloc: Global) -> Result<()> {
    let words = vec![in alloc; b"INCR".to_vec(alloc)?, b"hits".to_vec(alloc)?]?;
    let command = Command::new(words)?;
    println!(rt; "{} words", command.words().len())?;
    Ok(())
}

fn write_to_memory(rt: &impl Print, alloc: Global) -> Result<()> {
    let mut sink = MemorySink::new(alloc, 4, 10)?;
    let result = write_all(&mut sink, b"+a line of text\r\n");
    println!(rt; "{result:?} {}", sink.bytes().escape_ascii())?;
    Ok(())
}

fn read_from_memory(rt: &impl Print) -> Result<()> {
    let mut source = MemorySource::new(b"+OK\r\n", 3);
    let mut buffer = [0; 16];
    let first = source.read(&mut buffer)?;
    let second = source.read(&mut buffer)?;
    let end = source.read(&mut buffer)?;
    println!(rt; "{first} {second} {end}")?;
    Ok(())
}
