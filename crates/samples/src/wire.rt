//! Both ends of a connection, over devices in memory.

use anyhow::Result;
use resp_client::Client;
use resp_io::{MemorySink, MemorySource};
use resp_server::Hub;
use resp_value::{Command, Limits};
use resp_wire::ask::ask;
use resp_wire::serve::serve;
use resp_wire::{Request, Responses};
use std::alloc::Global;
use std::hash::{BuildHasherDefault, FoldHasher};

pub(crate) fn run(rt: &impl Print, alloc: Global) -> Result<()> {
    let set = Command::new(vec![in alloc;
        b"SET".to_vec(alloc)?,
        b"a".to_vec(alloc)?,
        b"1".to_vec(alloc)?,
    ]?)?;
    let incr = Command::new(vec![in alloc; b"INCR".to_vec(alloc)?, b"b".to_vec(alloc)?]?)?;
    ask_two(rt, alloc, &[Request::Command(set), Request::Command(incr)])?;
    serve_one(rt, alloc)
}

fn ask_two(rt: &impl Print, alloc: Global, requests: &[Request]) -> Result<()> {
    let mut reader = MemorySource::new(b"+OK\r\n:1\r\n", 4);
    let mut writer = MemorySink::new(alloc, 16, 256)?;
    let mut client = Client::new(alloc, &Limits::standard());
    let mut received = Responses::new(alloc);
    ask(
        &mut reader,
        &mut writer,
        &mut client,
        requests,
        &mut received,
        100,
    )?;
    for (number, value) in received.replies.iter() {
        println!(rt; "reply {number}: {value:?}")?;
    }
    Ok(())
}

fn serve_one(rt: &impl Print, alloc: Global) -> Result<()> {
    let hasher: BuildHasherDefault<FoldHasher> = BuildHasherDefault::new();
    let mut hub = Hub::new(alloc, Limits::standard(), hasher);
    let mut reader = MemorySource::new(b"*1\r\n$4\r\nPING\r\n", 5);
    let mut writer = MemorySink::new(alloc, 16, 256)?;
    let id = hub.open()?;
    let served = serve(&mut reader, &mut writer, &mut hub, id, 100)?;
    println!(rt; "{served:?} {}", writer.bytes().escape_ascii())?;
    Ok(())
}
