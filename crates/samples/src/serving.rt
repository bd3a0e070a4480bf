//! A server's sessions.

use anyhow::Result;
use resp_server::Hub;
use resp_value::{Limits, Value};
use std::alloc::Global;
use std::hash::{BuildHasher, BuildHasherDefault, FoldHasher};

pub(crate) fn run(rt: &impl Print, alloc: Global) -> Result<()> {
    let hasher: BuildHasherDefault<FoldHasher> = BuildHasherDefault::new();
    answer_command(rt, alloc, hasher)?;
    answer_pieces(rt, alloc)?;
    answer_within(rt, alloc)?;
    push_in_three(rt, alloc)
}

fn answer_command<S: BuildHasher + Drop>(rt: &impl Print, alloc: Global, hasher: S) -> Result<()> {
    let mut hub = Hub::new(alloc, Limits::standard(), hasher);
    let id = hub.open()?;
    let handled = hub.bytes(id, b"*3\r\n$3\r\nSET\r\n$1\r\na\r\n$1\r\n1\r\n")?;
    println!(rt; "{} {}", handled.commands, hub.out(id)?.escape_ascii())?;
    let length = hub.out(id)?.len();
    hub.sent(id, length)?;
    print_entries(rt, &hub)
}

fn print_entries<S: BuildHasher + Drop>(rt: &impl Print, hub: &Hub<S>) -> Result<()> {
    for (key, value) in hub.entries() {
        println!(rt; "{} is {}", key.escape_ascii(), value.escape_ascii())?;
    }
    Ok(())
}

fn answer_pieces(rt: &impl Print, alloc: Global) -> Result<()> {
    let hasher: BuildHasherDefault<FoldHasher> = BuildHasherDefault::new();
    let mut hub = Hub::new(alloc, Limits::standard(), hasher);
    let id = hub.open()?;
    let first = hub.bytes(id, b"*1\r\n$4\r\nPI")?;
    let second = hub.bytes(id, b"NG\r\n")?;
    println!(rt; "{} {}", first.commands, second.commands)?;
    hub.bytes(id, b"PING\r\n")?;
    println!(rt; "{}", hub.out(id)?.escape_ascii())?;
    println!(rt; "{}", hub.is_closing(id)?)?;
    Ok(())
}

fn answer_within(rt: &impl Print, alloc: Global) -> Result<()> {
    let hasher: BuildHasherDefault<FoldHasher> = BuildHasherDefault::new();
    let mut hub = Hub::new(alloc, Limits::standard(), hasher);
    let id = hub.open()?;
    let pings = b"*1\r\n$4\r\nPING\r\n*1\r\n$4\r\nPING\r\n";
    let taken = hub.bytes_within(id, pings, 0)?;
    println!(rt; "{} {}", taken.used, hub.out(id)?.escape_ascii())?;
    Ok(())
}

fn push_in_three(rt: &impl Print, alloc: Global) -> Result<()> {
    let hasher: BuildHasherDefault<FoldHasher> = BuildHasherDefault::new();
    let mut hub = Hub::new(alloc, Limits::standard(), hasher);
    let id = hub.open()?;
    println!(rt; "{:?}", hub.push(id, &[Value::Int(1)]))?;
    hub.bytes(id, b"*2\r\n$5\r\nHELLO\r\n$1\r\n3\r\n")?;
    let length = hub.out(id)?.len();
    hub.sent(id, length)?;
    hub.push(id, &[Value::Int(1)])?;
    println!(rt; "{}", hub.out(id)?.escape_ascii())?;
    Ok(())
}
