//! Measures the cost of a DEL and of closing a session, with few and with many keys and sessions.
//!
//! It deletes half of the keys of a hub, far from one another, and closes half of its sessions, the
//! oldest first. Without an argument there are a hundred, and it prints counts, which are the same
//! in every run. With `times` there are a thousand and more, and it prints the nanoseconds of one
//! DEL and of one close. With `idle` 65,536 sessions stay open, and the peak memory of the run
//! shows the cost of an idle session.

use crate::server::{BenchHub, Kind, command, new_hub, send};
use crate::{end_line, has, nanos};
use anyhow::Result;
use std::alloc::Global;

/// The number of times a hub is made anew when it is timed. The least time is printed.
const ROUNDS: u64 = 5;

/// Opens a session that has read a command, and drops its reply.
fn open_idle(hub: &mut BenchHub) -> Result<()> {
    let id = hub.open()?;
    hub.bytes(id, b"*1\r\n$4\r\nPING\r\n")?;
    let waiting = hub.out(id)?.len();
    hub.sent(id, waiting)?;
    Ok(())
}

/// Opens `sessions` sessions, which are then idle.
fn open_all(hub: &mut BenchHub, sessions: u64) -> Result<()> {
    for _ in 0..sessions {
        open_idle(hub)?;
    }
    Ok(())
}

/// Closes the first `count` sessions. Returns the nanoseconds used.
fn close_first(rt: &HostRuntime, hub: &mut BenchHub, count: u64) -> Result<u128> {
    let start = nanos(rt)?;
    for id in 0..count {
        hub.close(id.wrapping_add(1))?;
    }
    Ok(nanos(rt)?.saturating_sub(start))
}

/// Returns `count` commands of this kind as one text, each with another key.
fn of_keys(alloc: Global, kind: Kind, keys: u64, count: u64) -> Result<Vec<u8>> {
    let mut text = Vec::new(alloc);
    for index in 0..count {
        let key = index.wrapping_mul(7_919) % keys.max(1);
        text.extend_from_slice(command(alloc, kind, key)?.as_bytes())?;
    }
    Ok(text)
}

/// Sets `keys` keys and deletes half of them. Returns the nanoseconds that the deletes used.
fn delete_half(rt: &HostRuntime, hub: &mut BenchHub, keys: u64) -> Result<u128> {
    hub.open()?;
    let set = of_keys(rt.alloc(), Kind::Set, keys, keys)?;
    send(hub, set.as_slice())?;
    let deleted = of_keys(rt.alloc(), Kind::Del, keys, keys / 2)?;
    let start = nanos(rt)?;
    send(hub, deleted.as_slice())?;
    Ok(nanos(rt)?.saturating_sub(start))
}

/// Opens `sessions` sessions and closes half of them. Returns the nanoseconds that the closes used.
fn close_half(rt: &HostRuntime, hub: &mut BenchHub, sessions: u64) -> Result<u128> {
    open_all(hub, sessions)?;
    close_first(rt, hub, sessions / 2)
}

/// Runs one of the two with a new hub.
fn once(rt: &HostRuntime, closes: bool, count: u64) -> Result<u128> {
    let mut hub = new_hub(rt.alloc());
    if closes {
        close_half(rt, &mut hub, count)
    } else {
        delete_half(rt, &mut hub, count)
    }
}

/// Prints the counts, and the least time of one operation if it is timed.
fn print(rt: &HostRuntime, closes: bool, count: u64, timed: bool) -> Result<()> {
    let mut least = once(rt, closes, count)?;
    if timed {
        for _ in 1..ROUNDS {
            least = least.min(once(rt, closes, count)?);
        }
    }
    let half = count / 2;
    if closes {
        print!(rt; "{half} of {count} sessions closed;")?;
    } else {
        print!(rt; "{half} of {count} keys deleted;")?;
    }
    end_line(rt, timed, least, u128::from(half), "each")
}

/// Leaves sessions open until the hub is dropped.
fn idle(rt: &HostRuntime) -> Result<()> {
    let mut hub = new_hub(rt.alloc());
    open_all(&mut hub, 65_536)?;
    println!(rt; "65536 sessions are idle")?;
    Ok(())
}

/// Runs the benchmark as the arguments request.
pub(crate) fn bench(rt: &HostRuntime, words: &[String]) -> Result<()> {
    if has(words, "idle") {
        return idle(rt);
    }
    if !has(words, "times") {
        print(rt, false, 100, false)?;
        return print(rt, true, 100, false);
    }
    for keys in [1_000, 10_000, 100_000, 1_000_000] {
        print(rt, false, keys, true)?;
    }
    for sessions in [1_000, 4_096, 16_384, 65_536] {
        print(rt, true, sessions, true)?;
    }
    Ok(())
}
