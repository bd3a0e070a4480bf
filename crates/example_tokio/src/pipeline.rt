//! A client that sends its commands without waiting, and the server that answers them, both over
//! framed streams and sinks in memory.

use crate::server::Server;
use anyhow::Result;
use futures::{FutureExt, SinkExt, StreamExt};
use resp_codec::{CommandCodec, RespCodec};
use resp_value::{Content, Limits, Members, Value, Version};
use std::alloc::{AllocError, Global};
use tokio_util::codec::{FramedRead, FramedWrite};

/// The words of the commands that the client sends.
const COMMANDS: &[&[&[u8]]] = &[
    &[b"SET", b"a", b"1"],
    &[b"GET", b"a"],
    &[b"HELLO", b"3"],
    &[b"GET", b"b"],
];

/// Sends the commands to a server, and prints each reply.
pub(crate) fn run(rt: &HostRuntime, limits: &Limits) -> Result<()> {
    let sent = send_commands(rt, limits)?;
    let replies = serve(rt, limits, sent.as_slice())?;
    print_replies(rt, limits, replies.as_slice())
}

/// Returns the array of bulk strings that is sent for a command.
fn command(alloc: Global, words: &[&[u8]]) -> Result<Value, AllocError> {
    let mut members = Vec::new(alloc);
    for word in words {
        members.push(Value::Bulk(Content::new(word.to_vec(alloc)?)))?;
    }
    Ok(Value::Array(Members::new(members)))
}

/// Returns the bytes that the client writes: all commands, one after another.
fn send_commands(rt: &HostRuntime, limits: &Limits) -> Result<Vec<u8>> {
    let alloc = rt.alloc();
    let codec = RespCodec::new(alloc, Version::Two, limits);
    let mut sink = FramedWrite::new(alloc, Vec::new(alloc), codec)?;
    for words in COMMANDS {
        let command = command(alloc, words)?;
        sink = match sink.send(command).now_or_never(rt)? {
            Some(sent) => sent?,
            None => return Ok(Vec::new(alloc)),
        };
    }
    Ok(sink.into_parts().io)
}

/// Returns the bytes that the server writes for this input. HELLO changes the version of the
/// replies, beginning with its own reply.
fn serve(rt: &HostRuntime, limits: &Limits, input: &[u8]) -> Result<Vec<u8>> {
    let alloc = rt.alloc();
    let mut server = Server::new(alloc);
    let commands = FramedRead::new(alloc, input, CommandCodec::new(alloc, limits))?;
    let mut sink = FramedWrite::new(alloc, Vec::new(alloc), CommandCodec::new(alloc, limits))?;
    let Some(read) = commands.collect(alloc).now_or_never(rt)? else {
        return Ok(Vec::new(alloc));
    };
    for asked in read? {
        let Some(reply) = server.answer(alloc, &asked?)? else {
            continue;
        };
        sink.encoder_mut().set_version(server.version());
        sink = match sink.send(reply).now_or_never(rt)? {
            Some(sent) => sent?,
            None => return Ok(Vec::new(alloc)),
        };
    }
    Ok(sink.into_parts().io)
}

/// Prints the replies that the client reads. It reads version 3, in which all replies of version 2
/// are valid too.
fn print_replies(rt: &HostRuntime, limits: &Limits, input: &[u8]) -> Result<()> {
    let alloc = rt.alloc();
    println!(rt; "{}", input.escape_ascii())?;
    let codec = RespCodec::new(alloc, Version::Three, limits);
    let replies = FramedRead::new(alloc, input, codec)?;
    let Some(read) = replies.collect(alloc).now_or_never(rt)? else {
        return Ok(());
    };
    for reply in read? {
        println!(rt; "{:?}", reply?)?;
    }
    Ok(())
}
