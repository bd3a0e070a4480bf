//! Measures commands by their kind and by the length of their values.
//!
//! A session of a hub receives a thousand commands in one piece: PING, GET, ECHO, DEL, and SET with
//! values of several lengths. All keys are present. The part `alone` serves sessions by `serve_with`
//! that receive one PING each, and then one PING more. Without the argument `once` there are ten
//! commands of each kind. It prints counts, which are the same in every run; a profiler counts the
//! instructions.

use crate::has;
use crate::server::{BenchHub, Tally, new_hub, send_piece};
use anyhow::Result;
use resp_io::device::{MemorySink, MemorySource};
use resp_wire::serve::serve_with;
use std::alloc::Global;

/// The session that receives the commands in one piece.
const SESSION: u64 = 1;

/// The number of bytes that a read returns at most.
const PIECE: usize = 16_384;

/// The lengths of the values of SET.
const LENGTHS: [usize; 5] = [16, 99, 100, 1_000, 100_000];

/// The commands of a line of the output, with the number of a key.
#[derive(Clone, Copy)]
enum Kind {
    Ping,
    Get,
    Echo,
    Del,
    Set(usize),
}

/// Returns a command of this kind.
fn command(alloc: Global, kind: Kind, key: usize) -> Result<String> {
    let mut text = match kind {
        Kind::Ping => format!(in alloc; "*1\r\n$4\r\nPING\r\n")?,
        Kind::Get => format!(in alloc; "*2\r\n$3\r\nGET\r\n$16\r\nkey:{key:012}\r\n")?,
        Kind::Echo => format!(in alloc; "*2\r\n$4\r\nECHO\r\n$3\r\nfoo\r\n")?,
        Kind::Del => format!(in alloc; "*2\r\n$3\r\nDEL\r\n$16\r\nkey:{key:012}\r\n")?,
        Kind::Set(length) => {
            format!(in alloc; "*3\r\n$3\r\nSET\r\n$16\r\nkey:{key:012}\r\n${length}\r\n")?
        }
    };
    if let Kind::Set(length) = kind {
        for _ in 0..length {
            text.push('x')?;
        }
        text.push_str("\r\n")?;
    }
    Ok(text)
}

/// Returns a command of this kind for each of the first `count` keys, as one text.
fn commands(alloc: Global, kind: Kind, count: usize) -> Result<Vec<u8>> {
    let mut text = Vec::new(alloc);
    for key in 0..count {
        text.extend_from_slice(command(alloc, kind, key)?.as_bytes())?;
    }
    Ok(text)
}

/// Sends the text of commands that are measured. The profiler counts this function by its name.
#[inline(never)]
fn answer_piece(hub: &mut BenchHub, text: &[u8]) -> Result<Tally> {
    let mut tally = Tally::default();
    send_piece(hub, text, &mut tally)?;
    Ok(tally)
}

/// Serves the PING of each session. The profiler counts this function by its name.
#[inline(never)]
fn answer_alone(hub: &mut BenchHub, sessions: &[u64], writer: &mut MemorySink) -> usize {
    let mut buffer = [0; PIECE];
    for id in sessions {
        let mut reader = MemorySource::new(b"*1\r\n$4\r\nPING\r\n", PIECE);
        let _visit = serve_with(
            &mut reader,
            writer,
            hub,
            *id,
            u64::MAX,
            &mut buffer,
            usize::MAX,
        );
    }
    writer.bytes().len()
}

/// Sends a SET of 16 bytes for each key, and prints the counts of the measured commands.
fn print(rt: &HostRuntime, hub: &mut BenchHub, kind: Kind, count: usize) -> Result<()> {
    let set = commands(rt.alloc(), Kind::Set(16), count)?;
    let mut dropped = Tally::default();
    send_piece(hub, set.as_slice(), &mut dropped)?;
    let text = commands(rt.alloc(), kind, count)?;
    let tally = answer_piece(hub, text.as_slice())?;
    let (commands, replied) = tally.counted();
    match kind {
        Kind::Ping => print!(rt; "PING")?,
        Kind::Get => print!(rt; "GET")?,
        Kind::Echo => print!(rt; "ECHO of 3 bytes")?,
        Kind::Del => print!(rt; "DEL")?,
        Kind::Set(length) => print!(rt; "SET of {length} bytes")?,
    }
    println!(rt; ": {commands} commands, {replied} bytes replied;")?;
    Ok(())
}

/// Returns how many commands of each kind the arguments request.
fn asked_for(words: &[String]) -> usize {
    if has(words, "once") { 1_000 } else { 10 }
}

/// Prints the counts of PINGs that arrive alone: the first of each session, and the second.
pub(crate) fn bench_alone(rt: &HostRuntime, words: &[String]) -> Result<()> {
    let count = asked_for(words);
    let mut hub = new_hub(rt.alloc());
    let mut sessions = Vec::new(rt.alloc());
    for _ in 0..count {
        sessions.push(hub.open()?)?;
    }
    for name in ["first PING", "PING"] {
        let mut writer = MemorySink::new(rt.alloc(), PIECE, count.saturating_mul(7))?;
        let written = answer_alone(&mut hub, sessions.as_slice(), &mut writer);
        println!(rt; "{name} alone, by serve_with: {count} commands, {written} bytes replied;")?;
    }
    Ok(())
}

/// Runs the benchmark as the arguments request.
pub(crate) fn bench(rt: &HostRuntime, words: &[String]) -> Result<()> {
    let count = asked_for(words);
    let mut hub = new_hub(rt.alloc());
    hub.open()?;
    for kind in [Kind::Ping, Kind::Get, Kind::Echo, Kind::Del] {
        print(rt, &mut hub, kind, count)?;
    }
    for length in LENGTHS {
        let commands = if length > 1_000 { count / 10 } else { count };
        print(rt, &mut hub, Kind::Set(length), commands)?;
    }
    Ok(())
}
