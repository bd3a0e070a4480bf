//! Parts that test the client.

use crate::encoding::is_written_so;
use crate::given::command;
use crate::outcome::{Outcome, answers};
use resp_client::{Client, Fault, Heard, PushList, PushSink, SendError, What};
use resp_value::cause::Cause;
use resp_value::command::Command;
use resp_value::limits::Limits;
use resp_value::value::{Members, Value};
use resp_value::version::Version;
use std::alloc::Global;

const PING: &[u8] = b"*1\r\n$4\r\nPING\r\n";

const HELLO: &[u8] = b"*2\r\n$5\r\nHELLO\r\n$1\r\n3\r\n";

/// A push, and a reply to HELLO.
const PUSH: &[u8] = b">2\r\n$4\r\nnews\r\n:1\r\n";

const REPLY: &[u8] = b"%1\r\n$5\r\nproto\r\n:3\r\n";

fn new_client(alloc: Global) -> Client {
    Client::new(alloc, &Limits::standard())
}

/// Queues a command, or HELLO if there is no command.
fn send(client: &mut Client, command: Option<&Command>) -> Result<u64, SendError> {
    match command {
        Some(command) => client.send(command),
        None => client.hello(Some(Version::Three)),
    }
}

/// Returns whether these bytes and `waiting` commands wait.
fn waits(client: &Client, out: &[u8], waiting: u64) -> bool {
    client.out() == out && client.waiting() == waiting
}

/// Returns whether the next command has number 1 and is the only one that waits.
fn is_first(client: &mut Client, command: Option<&Command>, text: &[u8]) -> bool {
    send(client, command) == Ok(1) && waits(client, text, 1)
}

/// If an allocation fails, no command is queued and the client continues: the next command has the
/// number that this command would have had.
fn sends(client: &mut Client, command: Option<&Command>, text: &[u8]) -> Outcome {
    match send(client, command) {
        Ok(number) => Outcome::of(number == 1 && waits(client, text, 1)),
        Err(SendError::OutOfMemory) => {
            Outcome::refused(waits(client, b"", 0) && is_first(client, command, text))
        }
        Err(_) => Outcome::Wrong,
    }
}

pub(crate) fn of_send(alloc: Global) -> Outcome {
    let mut client = new_client(alloc);
    match command(alloc, &[b"PING"]) {
        Ok(ping) => sends(&mut client, Some(&ping), PING),
        Err(_) => Outcome::OutOfMemory,
    }
}

pub(crate) fn of_hello(alloc: Global) -> Outcome {
    let mut client = new_client(alloc);
    sends(&mut client, None, HELLO)
}

/// Returns the reply or push that ends with a piece.
fn hear(client: &mut Client, piece: &[u8]) -> Result<What, Fault> {
    Ok(client.feed(piece)?.what)
}

/// Checks that a fault is `OutOfMemory` and final, and that the waiting bytes are unchanged.
fn refused(client: &mut Client, fault: Fault) -> Outcome {
    let is_final = answers(hear(client, b":7\r\n"), fault);
    Outcome::refused(is_final && fault.cause == Cause::OutOfMemory && client.out() == HELLO)
}

fn is_news(items: &Members) -> bool {
    match items.list() {
        [Value::Bulk(content), Value::Int(1)] => content.list() == b"news".as_slice(),
        _ => false,
    }
}

/// Returns the outcome of a push: it has to be the news, and then the reply to HELLO is received.
fn hears(alloc: Global, client: &mut Client) -> Outcome {
    match hear(client, PUSH) {
        Ok(What::Push(items)) => {
            if is_news(&items) {
                hears_reply(alloc, client)
            } else {
                Outcome::Wrong
            }
        }
        Ok(_) => Outcome::Wrong,
        Err(fault) => refused(client, fault),
    }
}

/// The reply to HELLO was received whole.
fn hears_reply(alloc: Global, client: &mut Client) -> Outcome {
    match hear(client, REPLY) {
        Ok(What::Reply { number: 1, value }) => greeted(alloc, client.version(), &value),
        Ok(_) => Outcome::Wrong,
        Err(fault) => refused(client, fault),
    }
}

fn greeted(alloc: Global, version: Version, reply: &Value) -> Outcome {
    match version {
        Version::Two => Outcome::Wrong,
        Version::Three => is_written_so(alloc, reply, REPLY),
    }
}

pub(crate) fn of_feed(alloc: Global) -> Outcome {
    let mut client = new_client(alloc);
    match send(&mut client, None) {
        Ok(_) => hears(alloc, &mut client),
        Err(_) => Outcome::OutOfMemory,
    }
}

/// Returns the outcome of one more push, given the pushes stored by now and the number stored
/// before. If an allocation fails, exactly the pushes before it are stored.
fn shown(
    client: &mut Client,
    answer: Result<Heard, Fault>,
    pushes: &[Members],
    before: usize,
) -> Outcome {
    match answer {
        Ok(heard) => match heard.what {
            What::Shown => Outcome::of(
                pushes.len() == before.saturating_add(1) && pushes.iter().all(is_news),
            ),
            _ => Outcome::Wrong,
        },
        Err(fault) => {
            if pushes.len() == before {
                refused(client, fault)
            } else {
                Outcome::Wrong
            }
        }
    }
}

/// Returns the outcome of six pushes that are passed to a sink, up to the first that fails.
fn shows(client: &mut Client, list: Box<PushList>) -> Outcome {
    let mut sink: Box<dyn PushSink> = list;
    let mut outcome = Outcome::Whole;
    for before in 0..6 {
        let answer = client.feed_with(PUSH, &mut sink);
        outcome = shown(client, answer, sink.shown(), before);
        if !outcome.is_whole() {
            break;
        }
    }
    outcome
}

pub(crate) fn of_feed_with(alloc: Global) -> Outcome {
    let mut client = new_client(alloc);
    if send(&mut client, None).is_err() {
        return Outcome::OutOfMemory;
    }
    match Box::new(alloc, PushList::new(alloc)) {
        Ok(list) => shows(&mut client, list),
        Err(_) => Outcome::OutOfMemory,
    }
}

/// Returns whether a piece is read and the reply continues.
fn goes_on(client: &mut Client, piece: &[u8]) -> bool {
    match hear(client, piece) {
        Ok(What::More) => true,
        _ => false,
    }
}

/// A reply of one line does not allocate, so no failed allocation can affect it.
fn hears_integer(client: &mut Client) -> bool {
    if !goes_on(client, b":") || !goes_on(client, b"7") || !goes_on(client, b"\r") {
        return false;
    }
    match hear(client, b"\n") {
        Ok(What::Reply { number: 1, value }) => value == Value::Int(7),
        _ => false,
    }
}

pub(crate) fn of_integer(alloc: Global) -> Outcome {
    let mut client = new_client(alloc);
    match send(&mut client, None) {
        Ok(_) => Outcome::of(hears_integer(&mut client)),
        Err(_) => Outcome::OutOfMemory,
    }
}
