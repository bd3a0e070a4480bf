//! Parts that test the two ends of a connection.

use crate::given::command;
use crate::outcome::Outcome;
use resp_client::Client;
use resp_io::device::{MemorySink, MemorySource};
use resp_server::Hub;
use resp_value::limits::Limits;
use resp_wire::ask::ask;
use resp_wire::serve::serve;
use resp_wire::{AskError, Request, Responses, ServeError, Served};
use std::alloc::{AllocError, Global};
use std::hash::{BuildHasherDefault, FoldHasher};

const PING: &[u8] = b"*1\r\n$4\r\nPING\r\n";

const TWO_PINGS: &[u8] = b"*1\r\n$4\r\nPING\r\n*1\r\n$4\r\nPING\r\n";

/// SET, 27 bytes, and GET.
const SET_GET: &[u8] = b"*3\r\n$3\r\nSET\r\n$1\r\na\r\n$1\r\n1\r\n*2\r\n$3\r\nGET\r\n$1\r\na\r\n";

/// Returns whether the replies have the first numbers, in order.
fn are_first(heard: &Responses) -> bool {
    let mut count: u64 = 0;
    for (number, _) in &heard.replies {
        let number = *number;
        count = count.saturating_add(1);
        if number != count {
            return false;
        }
    }
    true
}

/// Returns whether whole requests wait and nothing was written, or everything was written.
fn are_whole(waiting: &[u8], written: &[u8]) -> bool {
    if waiting.is_empty() {
        written.is_empty() || written == TWO_PINGS
    } else {
        written.is_empty() && (waiting == PING || waiting == TWO_PINGS)
    }
}

/// Sends two PINGs and reads their replies.
fn ask_all(
    client: &mut Client,
    requests: &[Request],
    writer: &mut MemorySink,
    heard: &mut Responses,
) -> Result<(), AskError> {
    let mut reader = MemorySource::new(b"$5\r\nhello\r\n+PONG\r\n", 4_096);
    ask(&mut reader, writer, client, requests, heard, 100)
}

/// When out of memory, whole requests wait or everything was written, and the first replies were
/// added.
fn asks(
    client: &mut Client,
    requests: &[Request],
    writer: &mut MemorySink,
    heard: &mut Responses,
) -> Outcome {
    match ask_all(client, requests, writer, heard) {
        Ok(()) => Outcome::of(writer.bytes() == TWO_PINGS && heard.replies.len() == 2),
        Err(AskError::OutOfMemory) => {
            Outcome::refused(are_whole(client.out(), writer.bytes()) && are_first(heard))
        }
        Err(_) => Outcome::Wrong,
    }
}

/// Returns this many PINGs.
fn pings(alloc: Global, count: usize) -> Result<Vec<Request>, AllocError> {
    let mut requests = Vec::new(alloc);
    for _ in 0..count {
        requests.push(Request::Command(command(alloc, &[b"PING"])?))?;
    }
    Ok(requests)
}

pub(crate) fn of_ask(alloc: Global) -> Outcome {
    let mut client = Client::new(alloc, &Limits::standard());
    let mut heard = Responses::new(alloc);
    let Ok(mut writer) = MemorySink::new(alloc, 4_096, 4_096) else {
        return Outcome::OutOfMemory;
    };
    match pings(alloc, 2) {
        Ok(requests) => asks(&mut client, requests.as_slice(), &mut writer, &mut heard),
        Err(AllocError) => Outcome::OutOfMemory,
    }
}

type TestHub = Hub<BuildHasherDefault<FoldHasher>>;

/// Serves SET and GET to a session.
fn serve_all(hub: &mut TestHub, id: u64, writer: &mut MemorySink) -> Result<Served, ServeError> {
    let mut reader = MemorySource::new(SET_GET, 27);
    serve(&mut reader, writer, hub, id, 100)
}

/// Returns whether nothing waits to be written and the session is closing.
fn is_ended(hub: &TestHub, id: u64) -> bool {
    hub.out(id) == Ok(b"".as_slice()) && hub.is_closing(id) == Ok(true)
}

fn is_set(hub: &TestHub) -> bool {
    hub.get(b"a") == Some(b"1".as_slice())
}

/// When out of memory, the commands before were run and their replies were written, nothing of the
/// failed command was done, and the session is closing.
fn serves(hub: &mut TestHub, id: u64, writer: &mut MemorySink) -> Outcome {
    let answer = serve_all(hub, id, writer);
    let is_set = is_set(hub);
    let written = writer.bytes();
    match answer {
        Ok(Served::Ended) => Outcome::of(is_set && written == b"+OK\r\n$1\r\n1\r\n".as_slice()),
        Err(ServeError::OutOfMemory) => {
            let replies = if is_set { b"+OK\r\n".as_slice() } else { b"" };
            Outcome::refused(written == replies && is_ended(hub, id))
        }
        _ => Outcome::Wrong,
    }
}

pub(crate) fn of_serve(alloc: Global) -> Outcome {
    let mut hub: TestHub = Hub::new(alloc, Limits::standard(), BuildHasherDefault::new());
    let Ok(mut writer) = MemorySink::new(alloc, 4_096, 4_096) else {
        return Outcome::OutOfMemory;
    };
    match hub.open() {
        Ok(id) => serves(&mut hub, id, &mut writer),
        Err(_) => Outcome::OutOfMemory,
    }
}
