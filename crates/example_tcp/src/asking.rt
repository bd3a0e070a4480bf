//! Sends one pipeline to a server and checks the replies.

use anyhow::{Result, bail};
use resp_client::Client;
use resp_io::device::Device;
use resp_value::command::Command;
use resp_value::limits::Limits;
use resp_value::value::Value;
use resp_value::version::Version;
use resp_wire::ask::ask;
use resp_wire::{Request, Responses};
use std::alloc::Global;
use std::net::TcpStream;

/// The number of commands of the pipeline.
const COMMANDS: usize = 10_000;

/// The index of HELLO 3 in the pipeline. The command after it turns tracking on.
const HELLO: usize = 5_000;

/// After HELLO a key is read and then written once in this many commands. The write causes a push.
const TRACKED: usize = 100;

/// The greatest number of reads and writes.
const TURNS: u64 = 1_000_000;

fn command(alloc: Global, words: &[&[u8]]) -> Result<Request> {
    let mut owned = Vec::new(alloc);
    for word in words {
        owned.push(word.to_vec(alloc)?)?;
    }
    Ok(Request::Command(Command::new(owned)?))
}

/// Returns whether this command reads the tracked key. The command after it writes the key.
fn is_tracked(index: usize) -> bool {
    index > HELLO && index % TRACKED == 2
}

fn is_written(index: usize) -> bool {
    index > HELLO && index % TRACKED == 3
}

/// Returns the command of this index. Apart from the special commands it is an ECHO of the index.
fn request(alloc: Global, index: usize) -> Result<Request> {
    if index == HELLO {
        return Ok(Request::Hello(Some(Version::Three)));
    }
    if index == HELLO + 1 {
        return command(alloc, &[b"CLIENT", b"TRACKING", b"ON"]);
    }
    if is_tracked(index) {
        return command(alloc, &[b"GET", b"tracked"]);
    }
    let text = format!(in alloc; "{index}")?;
    if is_written(index) {
        return command(alloc, &[b"SET", b"tracked", text.as_bytes()]);
    }
    command(alloc, &[b"ECHO", text.as_bytes()])
}

/// Returns whether the reply belongs to the command of this index.
fn is_reply(alloc: Global, index: usize, reply: &Value) -> Result<bool> {
    if index == HELLO {
        return Ok(matches!(reply, Value::Map(_)));
    }
    if index == HELLO + 1 || is_written(index) {
        return Ok(matches!(reply, Value::Simple(line) if line.text() == b"OK".as_slice()));
    }
    if is_tracked(index) {
        return Ok(matches!(reply, Value::Null | Value::Bulk(_)));
    }
    let text = format!(in alloc; "{index}")?;
    Ok(matches!(reply, Value::Bulk(content) if content.list() == text.as_bytes()))
}

/// Returns the commands of the pipeline.
fn requests(alloc: Global) -> Result<Vec<Request>> {
    let mut requests = Vec::new(alloc);
    for index in 0..COMMANDS {
        requests.push(request(alloc, index)?)?;
    }
    Ok(requests)
}

/// Sends the pipeline to the server on this port, and returns the number of replies and of pushes.
pub(crate) fn ask_server(net: &HostRuntime, alloc: Global, port: u16) -> Result<(usize, usize)> {
    let requests = requests(alloc)?;
    let stream = TcpStream::connect(net, ("127.0.0.1", port))?;
    stream.set_nodelay(true)?;
    let mut client = Client::new(alloc, &Limits::standard());
    let mut received = Responses::new(alloc);
    ask(
        &mut Device::new(&stream),
        &mut Device::new(&stream),
        &mut client,
        requests.as_slice(),
        &mut received,
        TURNS,
    )?;
    check(alloc, &received)
}

/// Returns the number of replies and of pushes, if each command has its reply.
fn check(alloc: Global, received: &Responses) -> Result<(usize, usize)> {
    let count = received.replies.len();
    if count != COMMANDS {
        bail!("{count} replies to {COMMANDS} commands");
    }
    for (index, (number, reply)) in received.replies.iter().enumerate() {
        if *number != index as u64 + 1 || !is_reply(alloc, index, reply)? {
            bail!("reply {number} is another command's: {reply:?}");
        }
    }
    Ok((count, received.pushes.len()))
}
