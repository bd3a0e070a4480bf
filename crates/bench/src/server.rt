//! Measures how many commands a session of a hub answers, to be compared with another server.
//!
//! It sends SET, GET and PING from memory, in pieces of 16,384 bytes, and drops the replies.
//! Without an argument it sends a hundred commands of each kind and prints counts, which are the
//! same in every run. With the argument `times` it sends a million of each and also prints
//! microseconds. With `once` it sends 10,000 of each.

use crate::{has, nanos};
use anyhow::Result;
use resp_server::Hub;
use resp_value::limits::Limits;
use std::alloc::{AllocError, Global};
use std::hash::{BuildHasherDefault, FoldHasher};

/// The number of bytes that a session receives at once.
const PIECE: usize = 16_384;

/// The greatest number of keys.
const KEYS: u64 = 100_000;

/// The session that receives all commands.
const SESSION: u64 = 1;

pub(crate) type BenchHub = Hub<BuildHasherDefault<FoldHasher>>;

/// The kind of a command.
#[derive(Clone, Copy, Debug)]
pub(crate) enum Kind {
    Set,
    Get,
    Ping,
    Del,
}

/// Counts of the commands and replies.
#[derive(Clone, Copy, Default)]
pub(crate) struct Tally {
    commands: u64,
    replied: u64,
}

impl Tally {
    /// Returns the number of commands, and the number of bytes replied.
    pub(crate) fn counted(self) -> (u64, u64) {
        (self.commands, self.replied)
    }
}

/// Makes a hub without a session.
pub(crate) fn new_hub(alloc: Global) -> BenchHub {
    Hub::new(alloc, Limits::standard(), BuildHasherDefault::new())
}

/// Returns a command of this kind, with this key if the kind has a key.
pub(crate) fn command(alloc: Global, kind: Kind, key: u64) -> Result<String, AllocError> {
    let set = "*3\r\n$3\r\nSET\r\n$16\r\nkey:";
    let value = "$16\r\nxxxxxxxxxxxxxxxx\r\n";
    match kind {
        Kind::Set => format!(in alloc; "{set}{key:012}\r\n{value}"),
        Kind::Get => format!(in alloc; "*2\r\n$3\r\nGET\r\n$16\r\nkey:{key:012}\r\n"),
        Kind::Ping => format!(in alloc; "*1\r\n$4\r\nPING\r\n"),
        Kind::Del => format!(in alloc; "*2\r\n$3\r\nDEL\r\n$16\r\nkey:{key:012}\r\n"),
    }
}

/// Returns `count` commands of a kind as one text. The keys are pseudo-random, the same in every
/// run.
fn commands(alloc: Global, kind: Kind, count: u64) -> Result<Vec<u8>> {
    let mut drawn: u64 = 1;
    let mut text = Vec::new(alloc);
    for _ in 0..count {
        drawn = drawn
            .wrapping_mul(6_364_136_223_846_793_005)
            .wrapping_add(1_442_695_040_888_963_407);
        let key = (drawn >> 33) % count.clamp(1, KEYS);
        text.extend_from_slice(command(alloc, kind, key)?.as_bytes())?;
    }
    Ok(text)
}

/// Sends a piece, and drops the replies.
#[inline(always)]
pub(crate) fn send_piece(hub: &mut BenchHub, piece: &[u8], tally: &mut Tally) -> Result<()> {
    let handled = hub.bytes(SESSION, piece)?;
    tally.commands = tally.commands.saturating_add(handled.commands);
    let waiting = hub.out(SESSION)?.len();
    tally.replied = tally.replied.saturating_add(waiting as u64);
    hub.sent(SESSION, waiting)?;
    Ok(())
}

/// Sends the text in pieces, and drops the replies to each.
pub(crate) fn send(hub: &mut BenchHub, text: &[u8]) -> Result<Tally> {
    let mut tally = Tally::default();
    for piece in text.chunks(PIECE) {
        send_piece(hub, piece, &mut tally)?;
    }
    Ok(tally)
}

/// Sends the text of commands that are measured. The profiler counts this function by its name.
#[inline(never)]
pub(crate) fn answer_text(hub: &mut BenchHub, text: &[u8]) -> Result<Tally> {
    send(hub, text)
}

/// Sends a SET of each key that may be used.
fn fill(alloc: Global, hub: &mut BenchHub, count: u64) -> Result<()> {
    hub.open()?;
    for key in 0..count.min(KEYS) {
        let set = command(alloc, Kind::Set, key)?;
        send(hub, set.as_bytes())?;
    }
    Ok(())
}

/// Returns how many commands of each kind the arguments request.
fn asked_for(words: &[String]) -> u64 {
    if has(words, "times") {
        1_000_000
    } else if has(words, "once") {
        10_000
    } else {
        100
    }
}

/// Sends all commands of a text, and prints the counts.
fn run(rt: &HostRuntime, hub: &mut BenchHub, timed: bool, kind: Kind, text: &[u8]) -> Result<()> {
    let start = nanos(rt)?;
    let tally = answer_text(hub, text)?;
    let nanos = nanos(rt)?.saturating_sub(start);
    let (commands, replied) = tally.counted();
    print!(rt; "{kind:?}: {commands} commands, {replied} bytes replied;")?;
    if timed {
        print!(rt; " {} us", nanos / 1_000)?;
    }
    println!(rt; "")?;
    Ok(())
}

/// Fills a hub, and sends it `count` commands of each kind.
fn run_all(rt: &HostRuntime, hub: &mut BenchHub, count: u64, timed: bool) -> Result<()> {
    fill(rt.alloc(), hub, count)?;
    for kind in [Kind::Set, Kind::Get, Kind::Ping] {
        let text = commands(rt.alloc(), kind, count)?;
        run(rt, hub, timed, kind, text.as_slice())?;
    }
    Ok(())
}

/// Runs the benchmark for each kind of command, as the arguments request.
pub(crate) fn bench(rt: &HostRuntime, words: &[String]) -> Result<()> {
    let mut hub = new_hub(rt.alloc());
    run_all(rt, &mut hub, asked_for(words), has(words, "times"))
}
