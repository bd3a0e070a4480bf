//! Counts of commands with more names than there are rows.

use super::check_equal;
use resp_io::device::MemorySink;
use resp_stats::Counts;
use resp_tap::watch::{Given, Side, watch};
use resp_tap::{CountedTap, Filter, Moment, Printing};
use resp_value::limits::Limits;
use std::alloc::Global;
use std::time::Duration;

/// The commands, each with its own name.
const NAMES: u64 = 300;

/// Counts the commands that a filter lets through among commands named A100, A101, and so on. The last
/// command has an error in reply, and each of the others OK. Returns `None` if memory is out.
fn counted(alloc: Global, filter: Filter) -> Option<Counts> {
    let now = Moment::new(Duration::ZERO, Duration::ZERO, false);
    let printing = Printing {
        client: 1,
        shows_passwords: false,
    };
    let mut tap = CountedTap::new(alloc, &Limits::standard(), filter);
    let mut counts = Counts::new(alloc).ok()?;
    let mut text = MemorySink::new(alloc, 4_096, 4_096).ok()?;
    for number in 0..NAMES {
        let command = format!(in alloc; "*1\r\n$4\r\nA{}\r\n", 100 + number).ok()?;
        let reply = if number + 1 < NAMES {
            b"+OK\r\n".as_slice()
        } else {
            b"-ERR\r\n".as_slice()
        };
        for (side, piece) in [
            (Side::Client, command.as_str().as_bytes()),
            (Side::Server, reply),
        ] {
            let given = Given { printing, now };
            watch(&mut tap, &mut counts, given, side, piece, &mut text).ok()?;
        }
    }
    Some(counts)
}

#[test]
fn the_first_row_has_all_names_behind_the_256th(rt: HostRuntime) {
    let counts = counted(rt.alloc(), Filter::all(rt.alloc()));
    let rows = match &counts {
        Some(counts) => counts.rows(),
        None => &[],
    };
    check_equal(&rt, rows.len(), 257);
    check_equal(&rt, rows[0].calls(), NAMES - 256);
    check_equal(&rt, (rows[1].calls(), rows[256].calls()), (1, 1));
}

#[test]
fn a_command_that_is_not_counted_has_no_row(rt: HostRuntime) {
    let mut filter = Filter::all(rt.alloc());
    filter.errors = true;
    let counts = counted(rt.alloc(), filter);
    let rows = match &counts {
        Some(counts) => counts.rows(),
        None => &[],
    };
    check_equal(&rt, rows.len(), 2);
    check_equal(&rt, (rows[0].calls(), rows[1].calls()), (0, 1));
    check_equal(&rt, rows[1].name(), b"A399".as_slice());
}
