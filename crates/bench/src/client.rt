//! Measures how long the client needs to queue commands and to read their replies, to be compared
//! with another client.
//!
//! Without an argument it runs one pipeline and prints counts, which are the same in every run.
//! With the argument `times` it runs 10,000 pipelines, a million commands in all, and also prints
//! microseconds. With `once` it runs a single pipeline and prints the same form.

use crate::{has, nanos};
use anyhow::Result;
use resp_client::client::Client;
use resp_client::heard::What;
use resp_value::command::Command;
use resp_value::limits::Limits;
use resp_value::value::Value;
use std::alloc::Global;

/// The commands of a pipeline.
const PIPELINE: usize = 100;

/// The number of pipelines that are timed.
const ROUNDS: usize = 10_000;

/// The counts of both clients.
#[derive(Clone, Copy)]
struct Tally {
    queued: u64,
    replies: u64,
    content: u64,
}

/// Makes the command `GET key:NNNNNNN`.
fn command(alloc: Global, number: usize) -> Result<Command> {
    let key = format!(in alloc; "key:{number:07}")?;
    let name = b"GET".to_vec(alloc)?;
    Ok(Command::new(vec![in alloc; name, key.into_bytes()]?)?)
}

/// Returns the commands of a pipeline.
fn commands(alloc: Global) -> Result<Vec<Command>> {
    let mut all = Vec::new(alloc);
    for number in 0..PIPELINE {
        all.push(command(alloc, number)?)?;
    }
    Ok(all)
}

/// Returns the replies to a pipeline, bulk strings of 16 bytes.
fn replies(alloc: Global) -> Result<Vec<u8>> {
    let mut text = Vec::new(alloc);
    for _ in 0..PIPELINE {
        text.extend_from_slice(b"$16\r\nxxxxxxxxxxxxxxxx\r\n")?;
    }
    Ok(text)
}

/// Queues the commands, and drops their texts as if they were written.
fn queue(client: &mut Client, commands: &[Command], tally: &mut Tally) -> Result<()> {
    for command in commands {
        client.send(command)?;
    }
    let length = client.out().len();
    tally.queued = tally.queued.saturating_add(length as u64);
    client.sent(length);
    Ok(())
}

/// Reads all replies of the text.
fn hear(client: &mut Client, text: &[u8], tally: &mut Tally) -> Result<()> {
    let mut rest = text;
    for _ in 0..u64::MAX {
        let heard = client.feed(rest)?;
        rest = &rest[heard.used..];
        match &heard.what {
            What::Reply { number: _, value } => tally.add(value),
            What::More => break,
            _ => {}
        }
    }
    Ok(())
}

impl Tally {
    #[inline(always)]
    fn add(&mut self, reply: &Value) {
        self.replies = self.replies.saturating_add(1);
        if let Value::Bulk(content) = reply {
            self.content = self.content.saturating_add(content.list().len() as u64);
        }
    }
}

/// Runs `rounds` pipelines with the replies to each. Returns the nanoseconds used.
fn converse(
    rt: &HostRuntime,
    client: &mut Client,
    commands: &[Command],
    text: &[u8],
    rounds: usize,
    tally: &mut Tally,
) -> Result<u128> {
    let start = nanos(rt)?;
    for _ in 0..rounds {
        queue(client, commands, tally)?;
        hear(client, text, tally)?;
    }
    Ok(nanos(rt)?.saturating_sub(start))
}

/// Runs the pipelines with a new client.
fn converse_anew(
    rt: &HostRuntime,
    commands: &[Command],
    text: &[u8],
    rounds: usize,
    tally: &mut Tally,
) -> Result<u128> {
    let mut client = Client::new(rt.alloc(), &Limits::standard());
    converse(rt, &mut client, commands, text, rounds, tally)
}

/// Runs the benchmark as the arguments request.
pub(crate) fn bench(rt: &HostRuntime, words: &[String]) -> Result<()> {
    let rounds = if has(words, "times") { ROUNDS } else { 1 };
    let commands = commands(rt.alloc())?;
    let text = replies(rt.alloc())?;
    let mut tally = Tally {
        queued: 0,
        replies: 0,
        content: 0,
    };
    let nanos = converse_anew(rt, commands.as_slice(), text.as_slice(), rounds, &mut tally)?;
    print_tally(rt, &tally)?;
    if has(words, "times") || has(words, "once") {
        print!(rt; " {} us", nanos / 1_000)?;
    }
    println!(rt; "")?;
    Ok(())
}

fn print_tally(rt: &HostRuntime, tally: &Tally) -> Result<()> {
    let (queued, replies, content) = (tally.queued, tally.replies, tally.content);
    print!(rt; "GET in pipelines: {queued} bytes queued, {replies} replies, {content} bytes;")?;
    Ok(())
}
