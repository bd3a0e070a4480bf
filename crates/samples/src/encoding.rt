//! Values and commands to their text.

use anyhow::Result;
use bytes::BytesMut;
use resp_encode::{append, check_words, encode_push, encode_to, encode_words, size, words_size};
use resp_io::MemorySink;
use resp_value::{Content, Limits, OpenKind, Value, Version};
use std::alloc::Global;

pub(crate) fn run(rt: &impl Print, alloc: Global) -> Result<()> {
    append_push(rt, alloc)?;
    append_command(rt, alloc)?;
    check_command(rt, alloc)?;
    write_value(rt, alloc)?;
    print_sizes(rt)?;
    append_array(rt, alloc)
}

fn append_push(rt: &impl Print, alloc: Global) -> Result<()> {
    let mut out = BytesMut::new(alloc);
    let kind = Value::Bulk(Content::new(Vec::from_slice(alloc, b"message")?));
    encode_push(&Limits::standard(), &[kind, Value::Int(1)], &mut out)?;
    println!(rt; "{}", out.escape_ascii())?;
    Ok(())
}

fn append_command(rt: &impl Print, alloc: Global) -> Result<()> {
    let mut out = BytesMut::new(alloc);
    let words = [b"GET".to_vec(alloc)?, b"hits".to_vec(alloc)?];
    encode_words(&Limits::standard(), words.as_slice(), &mut out)?;
    println!(rt; "{}", out.escape_ascii())?;
    Ok(())
}

fn check_command(rt: &impl Print, alloc: Global) -> Result<()> {
    let limits = Limits::new(4, 64, 256)?;
    let words = [b"SET".to_vec(alloc)?, Vec::from_slice(alloc, &[b'x'; 65])?];
    println!(rt; "{:?}", check_words(&limits, words.as_slice()))?;
    Ok(())
}

fn write_value(rt: &impl Print, alloc: Global) -> Result<()> {
    let mut sink = MemorySink::new(alloc, 64, 64)?;
    let limits = Limits::standard();
    let written = encode_to(
        alloc,
        Version::Three,
        &limits,
        &Value::Bool(true),
        &mut sink,
    )?;
    println!(rt; "{written} {}", sink.bytes().escape_ascii())?;
    Ok(())
}

fn print_sizes(rt: &impl Print) -> Result<()> {
    println!(rt; "{:?}", size(Version::Two, &Value::Null))?;
    println!(rt; "{:?}", size(Version::Three, &Value::Null))?;
    println!(rt; "{:?}", size(Version::Two, &Value::Bool(true)))?;
    println!(rt; "{:?}", words_size(&Limits::standard(), &[3, 4]))?;
    Ok(())
}

fn append_array(rt: &impl Print, alloc: Global) -> Result<()> {
    let mut out = BytesMut::new(alloc);
    append::head(OpenKind::Array, 2, &mut out)?;
    append::int(-1, &mut out)?;
    append::int(42, &mut out)?;
    println!(rt; "{}", out.escape_ascii())?;
    Ok(())
}
