//! A client's commands and replies.

use anyhow::Result;
use resp_client::{Client, PushList, PushSink};
use resp_value::{Command, Limits, Version};
use std::alloc::Global;

pub(crate) fn run(rt: &impl Print, alloc: Global) -> Result<()> {
    refuse_command(rt, alloc)?;
    switch_version(rt, alloc)?;
    expect_reply(rt, alloc)?;
    write_in_parts(rt, alloc)?;
    store_push(rt, alloc)
}

fn refuse_command(rt: &impl Print, alloc: Global) -> Result<()> {
    let mut client = Client::new(alloc, &Limits::standard());
    let words = vec![in alloc; b"SUBSCRIBE".to_vec(alloc)?, b"news".to_vec(alloc)?]?;
    println!(rt; "{:?}", client.send(&Command::new(words)?))?;
    Ok(())
}

fn switch_version(rt: &impl Print, alloc: Global) -> Result<()> {
    let mut client = Client::new(alloc, &Limits::standard());
    client.hello(Some(Version::Three))?;
    client.feed(b"%1\r\n+proto\r\n:3\r\n")?;
    println!(rt; "{:?}", client.version())?;
    Ok(())
}

fn expect_reply(rt: &impl Print, alloc: Global) -> Result<()> {
    let mut client = Client::new(alloc, &Limits::standard());
    let number = client.expect(None)?;
    println!(rt; "{number}, {} bytes to write", client.out().len())?;
    println!(rt; "{:?}", client.feed(b":8\r\n")?.what)?;
    Ok(())
}

fn write_in_parts(rt: &impl Print, alloc: Global) -> Result<()> {
    let mut client = Client::new(alloc, &Limits::standard());
    client.send(&Command::new(vec![in alloc; b"PING".to_vec(alloc)?]?)?)?;
    // The socket accepted only the first four bytes.
    let written = client.out().len().min(4);
    client.sent(written);
    println!(rt; "{}", client.out().escape_ascii())?;
    Ok(())
}

fn store_push(rt: &impl Print, alloc: Global) -> Result<()> {
    let mut client = Client::new(alloc, &Limits::standard());
    client.hello(Some(Version::Three))?;
    client.feed(b"%0\r\n")?;
    let mut sink: Box<dyn PushSink> = Box::new(alloc, PushList::new(alloc))?;
    let fed = client.feed_with(b">1\r\n+tick\r\n", &mut sink)?;
    println!(rt; "{:?}, {} stored", fed.what, sink.shown().len())?;
    Ok(())
}
