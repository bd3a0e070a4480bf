//! Reads values with a framed stream of tokio_util and prints them, and writes a value with a
//! framed sink. Then a client sends a pipeline of commands, and a server answers them.
//!
//! The reader and the writer are in memory here. With the handles `Wait` and `Threads`, which this
//! repository does not use, a program runs the same futures over sockets with a runtime of tokio,
//! and with `block_on` in place of `now_or_never`.
#![tactic(auto)]

mod pipeline;
mod server;

use anyhow::Result;
use futures::{FutureExt, SinkExt, StreamExt};
use resp_codec::{CodecError, RespCodec};
use resp_value::{Limits, Value, Version};
use tokio_util::codec::{FramedRead, FramedWrite};

fn main(rt: HostRuntime) -> Result<()> {
    let limits = Limits::standard();
    read_values(&rt, &limits)?;
    write_value(&rt, &limits)?;
    pipeline::run(&rt, &limits)
}

/// Prints the values of a stream, and the fault after them.
fn read_values(rt: &HostRuntime, limits: &Limits) -> Result<()> {
    let alloc = rt.alloc();
    let input = b"+OK\r\n:7\r\n$3\r\nabc\r\n*1\r\n".as_slice();
    let codec = RespCodec::new(alloc, Version::Three, limits);
    let values = FramedRead::new(alloc, input, codec)?;
    let Some(read) = values.collect(alloc).now_or_never(rt)? else {
        return Ok(());
    };
    for value in read? {
        print_item(rt, value)?;
    }
    Ok(())
}

fn print_item(rt: &HostRuntime, item: Result<Value, CodecError>) -> Result<()> {
    match item {
        Ok(value) => println!(rt; "{value:?}")?,
        Err(error) => println!(rt; "refused: {error}")?,
    }
    Ok(())
}

/// Writes and flushes a value, and prints the bytes written.
fn write_value(rt: &HostRuntime, limits: &Limits) -> Result<()> {
    let alloc = rt.alloc();
    let codec = RespCodec::new(alloc, Version::Three, limits);
    let sink = FramedWrite::new(alloc, Vec::new(alloc), codec)?;
    if let Some(sent) = sink.send(Value::Int(42)).now_or_never(rt)? {
        println!(rt; "{}", sent?.into_parts().io.escape_ascii())?;
    }
    Ok(())
}
