//! The request that a value makes.

use anyhow::Result;
use resp_session::words::{Requested, asked_by};
use resp_value::{Content, Members, Value};
use std::alloc::Global;

pub(crate) fn run(rt: &impl Print, alloc: Global) -> Result<()> {
    let ping = Value::Bulk(Content::new(Vec::from_slice(alloc, b"PING")?));
    let words = vec![in alloc; ping]?;
    print_request(rt, Value::Array(Members::new(words)))?;
    print_request(rt, Value::Null)?;
    print_request(rt, Value::Int(1))
}

fn print_request(rt: &impl Print, value: Value) -> Result<()> {
    match asked_by(value) {
        Requested::Command(words) => println!(rt; "command {}", words.word(0).escape_ascii())?,
        Requested::Nothing => println!(rt; "nothing")?,
        Requested::NoCommand => println!(rt; "not a command")?,
    }
    Ok(())
}
