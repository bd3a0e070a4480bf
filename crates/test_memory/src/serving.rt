//! Parts that test the server.

use crate::decoding::values;
use crate::outcome::Outcome;
use resp_server::{Hub, HubError, NoSession, OpenError, PushError};
use resp_value::limits::Limits;
use resp_value::value::Value;
use resp_value::version::Version;
use std::alloc::Global;
use std::hash::{BuildHasherDefault, FoldHasher};

type TestHub = Hub<BuildHasherDefault<FoldHasher>>;

/// The expected state of session 1 and of the store.
#[derive(Clone, Copy)]
struct Standing<'a> {
    out: &'a [u8],
    version: Version,
    /// Keys of one byte, each with a value of one byte, in order.
    store: &'a [u8],
}

/// Returns the expected state in version 2.
fn in_two<'a>(out: &'a [u8], store: &'a [u8]) -> Standing<'a> {
    Standing {
        out,
        version: Version::Two,
        store,
    }
}

fn new_hub(alloc: Global) -> TestHub {
    Hub::new(alloc, Limits::standard(), BuildHasherDefault::new())
}

/// Returns the number of commands of a piece to session 1 that were run.
fn run(hub: &mut TestHub, piece: &[u8]) -> Result<u64, HubError> {
    Ok(hub.bytes(1, piece)?.commands)
}

/// Opens session 1 and sends it these bytes. Returns whether that succeeded.
fn opens(hub: &mut TestHub, piece: &[u8]) -> bool {
    hub.open() == Ok(1) && run(hub, piece).is_ok()
}

fn holds(hub: &TestHub, store: &[u8]) -> bool {
    let mut rest = store;
    for (key, value) in hub.entries() {
        let [first, second, others @ ..] = rest else {
            return false;
        };
        if key != [*first].as_slice() || value != [*second].as_slice() {
            return false;
        }
        rest = others;
    }
    rest.is_empty()
}

fn stands(hub: &TestHub, standing: Standing<'_>, closing: bool) -> bool {
    hub.out(1) == Ok(standing.out)
        && hub.version(1) == Ok(standing.version)
        && hub.is_closing(1) == Ok(closing)
        && holds(hub, standing.store)
}

/// Checks that a closing session runs no command and keeps its state.
fn stays_closing(hub: &mut TestHub, standing: Standing<'_>) -> bool {
    run(hub, b"*1\r\n$4\r\nPING\r\n") == Ok(0) && stands(hub, standing, true)
}

/// Returns the outcome of a piece. `after` has the expected states after none of its commands,
/// after one, and so on.
fn runs(hub: &mut TestHub, piece: &[u8], after: &[Standing<'_>]) -> Outcome {
    let (count, is_refused) = match run(hub, piece) {
        Ok(commands) => (commands, false),
        Err(HubError::OutOfMemory { commands }) => (commands, true),
        Err(HubError::NoSession) => return Outcome::Wrong,
    };
    let Some(standing) = after.get(count as usize) else {
        return Outcome::Wrong;
    };
    if is_refused {
        return Outcome::refused(stays_closing(hub, *standing));
    }
    Outcome::of(count.saturating_add(1) == after.len() as u64 && stands(hub, *standing, false))
}

/// Returns the outcome of a piece that is sent after another piece.
fn of_piece(alloc: Global, before: &[u8], piece: &[u8], after: &[Standing<'_>]) -> Outcome {
    let mut hub = new_hub(alloc);
    if opens(&mut hub, before) {
        runs(&mut hub, piece, after)
    } else {
        Outcome::OutOfMemory
    }
}

/// A session whose allocation failed does not exist, and its id is not used up.
fn is_opened(hub: &mut TestHub) -> Outcome {
    match hub.open() {
        Ok(id) => Outcome::of(id == 1 && stands(hub, in_two(b"", b""), false)),
        Err(OpenError::OutOfMemory) => {
            Outcome::refused(hub.out(1) == Err(NoSession) && hub.open() == Ok(1))
        }
        Err(OpenError::TooManySessions) => Outcome::Wrong,
    }
}

pub(crate) fn of_open(alloc: Global) -> Outcome {
    let mut hub = new_hub(alloc);
    is_opened(&mut hub)
}

pub(crate) fn of_set(alloc: Global) -> Outcome {
    let piece = b"*3\r\n$3\r\nSET\r\n$1\r\na\r\n$1\r\n1\r\n\
        *3\r\n$3\r\nSET\r\n$1\r\nb\r\n$1\r\n2\r\n";
    let none = in_two(b"", b"");
    let one = in_two(b"+OK\r\n", b"a1");
    let two = in_two(b"+OK\r\n+OK\r\n", b"a1b2");
    of_piece(alloc, b"", piece, &[none, one, two])
}

/// Sets `a` to 1.
const SET_A: &[u8] = b"*3\r\n$3\r\nSET\r\n$1\r\na\r\n$1\r\n1\r\n";

pub(crate) fn of_get(alloc: Global) -> Outcome {
    let none = in_two(b"+OK\r\n", b"a1");
    let one = in_two(b"+OK\r\n$1\r\n1\r\n", b"a1");
    of_piece(
        alloc,
        SET_A,
        b"*2\r\n$3\r\nGET\r\n$1\r\na\r\n",
        &[none, one],
    )
}

pub(crate) fn of_del(alloc: Global) -> Outcome {
    let piece = b"*3\r\n$3\r\nDEL\r\n$1\r\na\r\n$1\r\na\r\n";
    let none = in_two(b"+OK\r\n", b"a1");
    let one = in_two(b"+OK\r\n:1\r\n", b"");
    of_piece(alloc, SET_A, piece, &[none, one])
}

/// Requests version 3.
const HELLO: &[u8] = b"*2\r\n$5\r\nHELLO\r\n$1\r\n3\r\n";

/// The reply to HELLO.
const GREETING: &[u8] = b"%7\r\n$6\r\nserver\r\n$9\r\nresp_loop\r\n$7\r\nversion\r\n$5\r\n1.0.0\r\n\
    $5\r\nproto\r\n:3\r\n$2\r\nid\r\n:1\r\n$4\r\nmode\r\n$10\r\nstandalone\r\n\
    $4\r\nrole\r\n$6\r\nmaster\r\n$7\r\nmodules\r\n*0\r\n";

/// Returns the expected state after HELLO.
fn greeted() -> Standing<'static> {
    Standing {
        out: GREETING,
        version: Version::Three,
        store: b"",
    }
}

pub(crate) fn of_hello(alloc: Global) -> Outcome {
    of_piece(alloc, b"", HELLO, &[in_two(b"", b""), greeted()])
}

fn is_refused(hub: &mut TestHub) -> Outcome {
    let refused = b"-ERR Protocol error: NotCommand at byte 0\r\n";
    match run(hub, b":1\r\n") {
        Ok(_) => Outcome::of(stays_closing(hub, in_two(refused, b""))),
        Err(HubError::OutOfMemory { commands: 0 }) => {
            Outcome::refused(stays_closing(hub, in_two(b"", b"")))
        }
        Err(_) => Outcome::Wrong,
    }
}

pub(crate) fn of_protocol_error(alloc: Global) -> Outcome {
    let mut hub = new_hub(alloc);
    if opens(&mut hub, b"") {
        is_refused(&mut hub)
    } else {
        Outcome::OutOfMemory
    }
}

/// Returns the number of bytes that wait to be written.
fn waiting(hub: &TestHub) -> usize {
    hub.out(1).map_or(0, |out| out.len())
}

fn is_pushed(hub: &mut TestHub, items: &[Value]) -> Outcome {
    match hub.push(1, items) {
        Ok(()) => Outcome::of(waiting(hub) == 148 + 600 + 12),
        Err(PushError::OutOfMemory) => Outcome::refused(stands(hub, greeted(), false)),
        Err(_) => Outcome::Wrong,
    }
}

/// Returns a bulk string of 600 bytes, more than the spare room of a buffer.
fn long_items(alloc: Global) -> Option<Vec<Value>> {
    let mut text = [b'x'; 608];
    text[..6].copy_from_slice(b"$600\r\n");
    text[606..].copy_from_slice(b"\r\n");
    values(alloc, &text).ok()
}

/// A long push is queued whole or not at all.
pub(crate) fn of_push(alloc: Global) -> Outcome {
    let mut hub = new_hub(alloc);
    if !opens(&mut hub, HELLO) {
        return Outcome::OutOfMemory;
    }
    match long_items(alloc) {
        Some(items) => is_pushed(&mut hub, items.as_slice()),
        None => Outcome::OutOfMemory,
    }
}
