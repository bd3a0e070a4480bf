//! Parts that forward bytes and print traffic. After a failed allocation the bytes that were not
//! written are lost, and the words of a command that waits are not known.

use crate::outcome::Outcome;
use resp_io::{MemorySink, MemorySource};
use resp_net::way::{Visited, Way};
use resp_stats::{Counts, table_of};
use resp_tap::watch::{Given, Side, watch};
use resp_tap::{CountedTap, Filter, FilteredTap, JsonTap, Moment, Printing, ShownPart};
use resp_value::Limits;
use std::alloc::{AllocError, Global};
use std::time::Duration;

/// The lines of a command.
const COMMAND: &[u8] = b"client 1 command 1\n  \"a\"\n";

/// The lines of a reply with a text of 20 bytes, of which 12 are shown.
const LONG_REPLY: &[u8] =
    b"client 1 reply 1\n  array\n    bulk \"abcdefghijkl\" .. 20\n    bulk \"c\" 1\n  end 2\n";

/// The beginning of the line of a command or a reply for which memory is out.
const REFUSED: &[u8] = b"client 1 refused OutOfMemory at byte ";

/// The line of JSON of a command.
const COMMAND_JSON: &[u8] =
    b"{\"client\":1,\"kind\":\"command\",\"number\":1,\"command\":\"A\",\"words\":1,\"size\":11,\"time\":\"1970-01-01T00:00:00.000000Z\"}\n";

/// The beginning of the line of JSON of a command or a reply for which memory is out.
const REFUSED_JSON: &[u8] = b"{\"client\":1,\"kind\":\"refused\",\"cause\":\"OutOfMemory\"";

/// The lines of JSON of a command and its reply.
const JSON: &[u8] =
    b"{\"client\":1,\"kind\":\"command\",\"number\":1,\"command\":\"A\",\"words\":1,\"size\":11,\"time\":\"1970-01-01T00:00:00.000000Z\"}\n{\"client\":1,\"kind\":\"reply\",\"number\":1,\"command\":\"A\",\"micros\":0,\"type\":\"error\",\"size\":4,\"error\":\"E\",\"time\":\"1970-01-01T00:00:00.000000Z\"}\n";

/// The same lines if nothing is kept of the command.
const JSON_WITHOUT_NAME: &[u8] =
    b"{\"client\":1,\"kind\":\"command\",\"number\":1,\"command\":\"A\",\"words\":1,\"size\":11,\"time\":\"1970-01-01T00:00:00.000000Z\"}\n{\"client\":1,\"kind\":\"reply\",\"number\":1,\"micros\":0,\"type\":\"error\",\"size\":4,\"error\":\"E\",\"time\":\"1970-01-01T00:00:00.000000Z\"}\n";

/// A piece of which the writer accepts four bytes at a time.
pub(crate) fn of_way(alloc: Global) -> Outcome {
    let mut way = Way::new(alloc);
    let mut reader = MemorySource::new(b"eight bytes", 100);
    let Ok(mut writer) = MemorySink::new(alloc, 4, 100) else {
        return Outcome::OutOfMemory;
    };
    let mut buffer = [0; 64];
    match way.visit(&mut reader, &mut writer, buffer.as_mut_slice()) {
        (11, Visited::NotWritten) => {}
        (11, Visited::OutOfMemory) => return Outcome::refused(!way.waits()),
        _ => return Outcome::Wrong,
    }
    for visited in [Visited::NotWritten, Visited::Onward] {
        if way.visit(&mut reader, &mut writer, buffer.as_mut_slice()) != (0, visited) {
            return Outcome::Wrong;
        }
    }
    Outcome::of(!way.waits() && writer.bytes() == b"eight bytes".as_slice())
}

/// A command that is printed with its reply, because the reply is an error.
pub(crate) fn of_filtered_tap(alloc: Global) -> Outcome {
    let mut filter = Filter::all(alloc);
    filter.errors = true;
    let printing = Printing {
        client: 1,
        shows_passwords: false,
    };
    let mut tap = FilteredTap::new(alloc, &Limits::standard(), ShownPart::all(), filter);
    let Ok(mut text) = MemorySink::new(alloc, 4_096, 4_096) else {
        return Outcome::OutOfMemory;
    };
    for (side, piece) in [
        (Side::Client, b"*1\r\n$1\r\na\r\n".as_slice()),
        (Side::Server, b"-E\r\n".as_slice()),
    ] {
        let given = Given {
            printing,
            now: None,
        };
        if watch(&mut tap, &mut (), given, side, piece, &mut text).is_err() {
            return Outcome::Wrong;
        }
    }
    let text = text.bytes();
    if text.starts_with(REFUSED) {
        return Outcome::OutOfMemory;
    }
    if text == b"client 1 command 1\n  ..\nclient 1 reply 1\n  error \"E\" 1\n".as_slice() {
        return Outcome::OutOfMemory;
    }
    Outcome::of(
        text == b"client 1 command 1\n  \"a\"\nclient 1 reply 1\n  error \"E\" 1\n".as_slice(),
    )
}

/// A reply in two pieces with a text of 20 bytes, of which 12 are shown.
pub(crate) fn of_long_reply(alloc: Global) -> Outcome {
    let printing = Printing {
        client: 1,
        shows_passwords: false,
    };
    let filter = Filter::all(alloc);
    let mut tap = FilteredTap::new(alloc, &Limits::standard(), ShownPart::first(12), filter);
    let Ok(mut text) = MemorySink::new(alloc, 4_096, 4_096) else {
        return Outcome::OutOfMemory;
    };
    for (side, piece) in [
        (Side::Client, b"*1\r\n$1\r\na\r\n".as_slice()),
        (Side::Server, b"*2\r\n$20\r\nabcdefghij".as_slice()),
        (Side::Server, b"klmnopqrst\r\n$1\r\nc\r\n".as_slice()),
    ] {
        let given = Given {
            printing,
            now: None,
        };
        if watch(&mut tap, &mut (), given, side, piece, &mut text).is_err() {
            return Outcome::Wrong;
        }
    }
    let text = text.bytes();
    let after_command = text.get(COMMAND.len()..).unwrap_or(b"".as_slice());
    if text.starts_with(REFUSED) || after_command.starts_with(REFUSED) {
        return Outcome::OutOfMemory;
    }
    Outcome::of(text.starts_with(COMMAND) && after_command == LONG_REPLY)
}

/// A command and its reply that are printed as JSON, the reply with the name of the command.
pub(crate) fn of_json_tap(alloc: Global) -> Outcome {
    let now = Moment::new(Duration::ZERO, Duration::ZERO, false);
    let printing = Printing {
        client: 1,
        shows_passwords: false,
    };
    let mut tap = JsonTap::new(alloc, &Limits::standard(), Filter::all(alloc));
    let Ok(mut text) = MemorySink::new(alloc, 4_096, 4_096) else {
        return Outcome::OutOfMemory;
    };
    for (side, piece) in [
        (Side::Client, b"*1\r\n$1\r\na\r\n".as_slice()),
        (Side::Server, b"-E\r\n".as_slice()),
    ] {
        let given = Given { printing, now };
        if watch(&mut tap, &mut (), given, side, piece, &mut text).is_err() {
            return Outcome::Wrong;
        }
    }
    let text = text.bytes();
    let after_command = text.get(COMMAND_JSON.len()..).unwrap_or(b"".as_slice());
    if text.starts_with(REFUSED_JSON) || after_command.starts_with(REFUSED_JSON) {
        return Outcome::OutOfMemory;
    }
    if text == JSON_WITHOUT_NAME {
        return Outcome::OutOfMemory;
    }
    Outcome::of(text == JSON)
}

/// A command that is counted with its reply, and the table of it.
pub(crate) fn of_counted_tap(alloc: Global) -> Outcome {
    let mut tap = CountedTap::new(alloc, &Limits::standard(), Filter::all(alloc));
    let Ok(mut counts) = Counts::new(alloc) else {
        return Outcome::OutOfMemory;
    };
    for (side, piece) in [
        (Side::Client, b"*1\r\n$1\r\na\r\n".as_slice()),
        (Side::Server, b"-E\r\n".as_slice()),
    ] {
        match count_piece(alloc, &mut tap, &mut counts, side, piece) {
            Ok(true) => {}
            Ok(false) => return Outcome::Wrong,
            Err(AllocError) => return Outcome::OutOfMemory,
        }
    }
    if table_of(alloc, &counts).is_err() {
        return Outcome::OutOfMemory;
    }
    match counts.rows() {
        [_, row] if row.calls() == 1 => Outcome::of(row.errors() == 1 && row.sent() == 11),
        _ => Outcome::OutOfMemory,
    }
}

/// Passes a piece of client 1 to the tap, and counts it. Returns whether its lines were written.
fn count_piece(
    alloc: Global,
    tap: &mut CountedTap,
    counts: &mut Counts,
    side: Side,
    piece: &[u8],
) -> Result<bool, AllocError> {
    let printing = Printing {
        client: 1,
        shows_passwords: false,
    };
    let now = Moment::new(Duration::ZERO, Duration::ZERO, false);
    let mut text = MemorySink::new(alloc, 4_096, 4_096)?;
    let given = Given { printing, now };
    let watched = watch(tap, counts, given, side, piece, &mut text);
    Ok(watched.is_ok())
}
