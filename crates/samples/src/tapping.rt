//! The traffic of a connection that is forwarded.

use anyhow::Result;
use resp_io::MemorySink;
use resp_tap::watch::{Given, Side, watch};
use resp_tap::{Filter, FilteredTap, JsonTap, Moment, Printing, Seen, ShownPart, Tap};
use resp_value::Limits;
use std::alloc::Global;
use std::str;
use std::time::Duration;

pub(crate) fn run(rt: &impl Print, alloc: Global) -> Result<()> {
    pair_reply(rt, alloc)?;
    measure_reply(rt, alloc)?;
    print_traffic(rt, alloc)?;
    print_errors(rt, alloc)?;
    print_json(rt, alloc)
}

fn pair_reply(rt: &impl Print, alloc: Global) -> Result<()> {
    let mut tap = Tap::new(alloc, &Limits::standard(), ShownPart::first(32));
    let step = tap.from_client(b"*1\r\n$4\r\nPING\r\n", None);
    if let Seen::Command { number, words, .. } = &step.seen {
        println!(rt; "command {number}: {}", words.word(0).escape_ascii())?;
    }
    let step = tap.from_server(b"+PONG\r\n");
    if let Seen::Reply { number, value } = &step.seen {
        println!(rt; "reply {number}: {:?} {:?}", value.value, value.lengths)?;
    }
    Ok(())
}

fn measure_reply(rt: &impl Print, alloc: Global) -> Result<()> {
    let mut tap = Tap::new(alloc, &Limits::standard(), ShownPart::all());
    let sent = Moment::new(
        Duration::from_micros(1_796_017_016_123_456),
        Duration::from_secs(5),
        false,
    );
    tap.from_client(b"*1\r\n$4\r\nPING\r\n", Some(sent));
    println!(rt; "{:?}", tap.asked())?;
    Ok(())
}

fn print_traffic(rt: &impl Print, alloc: Global) -> Result<()> {
    let mut tap = Tap::new(alloc, &Limits::standard(), ShownPart::all());
    let mut text = MemorySink::new(alloc, 4_096, 4_096)?;
    let printing = Printing {
        client: 1,
        shows_passwords: false,
    };
    let given = Given {
        printing,
        now: None,
    };
    let get = b"*2\r\n$3\r\nGET\r\n$4\r\nhits\r\n";
    watch(&mut tap, &mut (), given, Side::Client, get, &mut text)?;
    watch(&mut tap, &mut (), given, Side::Server, b":7\r\n", &mut text)?;
    print!(rt; "{}", str::from_utf8(text.bytes())?)?;
    Ok(())
}

fn print_errors(rt: &impl Print, alloc: Global) -> Result<()> {
    let mut filter = Filter::all(alloc);
    filter.errors = true;
    println!(rt; "{}", filter.is_by_reply())?;
    let mut text = MemorySink::new(alloc, 4_096, 4_096)?;
    let printing = Printing {
        client: 1,
        shows_passwords: false,
    };
    let given = Given {
        printing,
        now: None,
    };
    let mut tap = FilteredTap::new(alloc, &Limits::standard(), ShownPart::all(), filter);
    let sent = b"*1\r\n$4\r\nPING\r\n*2\r\n$4\r\nINCR\r\n$1\r\na\r\n";
    watch(&mut tap, &mut (), given, Side::Client, sent, &mut text)?;
    let heard = b"+PONG\r\n-WRONGTYPE not a number\r\n";
    watch(&mut tap, &mut (), given, Side::Server, heard, &mut text)?;
    print!(rt; "{}", str::from_utf8(text.bytes())?)?;
    Ok(())
}

fn print_json(rt: &impl Print, alloc: Global) -> Result<()> {
    let start = Duration::from_micros(1_796_017_016_123_456);
    let sent = Moment::new(start, Duration::from_secs(5), false);
    let later = start.saturating_add(Duration::from_micros(120));
    let heard = Moment::new(later, Duration::from_micros(5_000_120), false);
    let mut text = MemorySink::new(alloc, 4_096, 4_096)?;
    let printing = Printing {
        client: 1,
        shows_passwords: false,
    };
    let mut tap = JsonTap::new(alloc, &Limits::standard(), Filter::all(alloc));
    let ping = b"*1\r\n$4\r\nPING\r\n";
    let given = Given {
        printing,
        now: sent,
    };
    watch(&mut tap, &mut (), given, Side::Client, ping, &mut text)?;
    let given = Given {
        printing,
        now: heard,
    };
    watch(
        &mut tap,
        &mut (),
        given,
        Side::Server,
        b"-ERR no\r\n",
        &mut text,
    )?;
    print!(rt; "{}", str::from_utf8(text.bytes())?)?;
    Ok(())
}
