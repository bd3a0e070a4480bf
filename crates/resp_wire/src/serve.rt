//! The server's end of a connection.

ghost use Rattle.std.specs.Prelude.{◌≡◌, ◌+◌, ◌-◌, ◌<◌, ◌≤◌, ◌^◌, [], length, take, true, false, None, Err, IfSome, IfOk, IfErr, IsErrOf, OnErr, OnOk};
ghost use Rattle.resp_server.specs.Hubs.{Seat, WaitsAtMost, seat_at};
ghost use Rattle.resp_io.specs.Devices.{failures_after};
ghost use Rattle.resp_io.specs.Turns.{Spends, SpendsAtMost, has_failed, stopped_by};
ghost use Rattle.resp_wire.specs.Serving as session;
ghost use Rattle.resp_wire.specs.Serving.{EndsBy, FailsServing, LeavesOverfull, ServesClosing};
ghost use Rattle.resp_wire.specs.Visits.{Answers, EndsVisit, FailsVisit, GoesOn, ServesPieces, StaysAfter, StopsAnswering, StopsOverfull, WritesClosing, is_of_reader, is_of_writer, read_error, rest_in, write_error};

use crate::error::ServeError;
use crate::pieces::{PIECE, beyond};
use crate::sessions::Sessions;
use resp_io::device::{Sink, Source};
use resp_io::{Halt, read_some};
use resp_server::Hub;
use std::hash::BuildHasher;
use std::ops::Range;

/// How a connection ended.
#[derive(Clone, Copy, Debug, PartialEq, Eq)]
pub enum Served {
    /// The input ended.
    Ended,
    /// The session is closing.
    Closed,
}

/// Serves a session: writes the bytes that wait, reads a piece of at most 4,096 bytes, and gives it
/// to the session, until the input ends or the session is closing. Nothing is read from a session
/// that is closing.
///
/// Each read and each write is a turn, and the call makes at most `turns` of them.
///
/// # Errors
///
/// - `NoSession` if no session has this id. Nothing was done.
/// - `Read` if a read fails. All replies before it were written.
/// - `Write` if a write fails or writes no byte, and `TooManyTurns` if no turn is left. The bytes
///   that were not written wait in the hub.
/// - `OutOfMemory` if an allocation fails. The session is closing, and its waiting bytes have not
///   been written.
///
/// # Examples
///
/// Over sockets, one connection after another, from
/// [example_tcp](../../example_tcp/src/serving.rt). Set `set_nodelay`: without it a pipeline of
/// more than one piece waits for the delayed acknowledgement of each piece.
///
/// ```rust
/// let mut hub = Hub::new(alloc, Limits::standard(), hasher);
/// for stream in listener.incoming() {
///     let stream = stream?;
///     stream.set_nodelay(true)?;
///     let id = hub.open()?;
///     let _served = serve(
///         &mut Device::new(&stream),
///         &mut Device::new(&stream),
///         &mut hub,
///         id,
///         TURNS,
///     );
///     hub.close(id)?;
/// }
/// ```
///
/// Over devices in memory, from [samples](../../samples/src/wire.rt):
///
/// ```rust
/// let mut reader = MemorySource::new(b"*1\r\n$4\r\nPING\r\n", 5);
/// let mut writer = MemorySink::new(alloc, 16, 256)?;
/// let id = hub.open()?;
/// let served = serve(&mut reader, &mut writer, &mut hub, id, 100)?;
/// println!(rt; "{served:?} {}", writer.bytes().escape_ascii())?;
/// ```
///
/// This prints `Ended +PONG\r\n`.
pub fn serve<R: Source, W: Sink, S: BuildHasher>(
    reader: &mut R,
    writer: &mut W,
    hub: &mut Hub<S>,
    id: u64,
    turns: u64,
) -> Result<Served, ServeError>
    // The bytes received are pieces of at most 4,096 bytes, each from one read. Before each read,
    // all replies to the bytes received before were written. The bytes written and the bytes that
    // still wait, joined, are the bytes that waited before and the response to the bytes read before
    // of a value together with the bytes received. The hub is in the state after that response.
    ensures served { session.ServesPieces 4096 W.written R.remaining R.calls R.failures writer.old
        writer.new reader.old reader.new hub.old hub.new id result [] }
    ensures end { IfOk result (EndsBy hub.new id (R.remaining reader.old)
        (R.remaining reader.new)) }

    // Nothing is read of a session that is closing, and its waiting bytes are written.
    ensures closing { IfSome (seat_at hub.old id) (λ (s : Seat). s.closing ≡ true →
        (reader.new ≡ reader.old) × ServesClosing hub.old hub.new id (W.written writer.old)
        (W.written writer.new) result) }
    ensures refusal { IfErr result (FailsServing hub.old id (W.failures writer.old)
        (W.failures writer.new) (R.failures reader.old) (R.failures reader.new)) }
    // A device fails once if the error says so, and otherwise never.
    ensures write_failures { W.failures writer.new ≡
        failures_after (stopped_by is_of_writer result) (W.failures writer.old) }
    ensures read_failures { R.failures reader.new ≡
        failures_after (stopped_by is_of_reader result) (R.failures reader.old) }
    ensures no_session { seat_at hub.old id ≡ None → (result ≡ Err ServeError.NoSession) ×
        (hub.new ≡ hub.old) × (reader.new ≡ reader.old) × (writer.new ≡ writer.old) }
    ensures turns { SpendsAtMost (W.calls writer.old) (W.calls writer.new) (R.calls reader.old)
        (R.calls reader.new) turns (IsErrOf result ServeError.TooManyTurns) }
{
    serve_with(reader, writer, hub, id, turns, &mut [0; PIECE], usize::MAX).end
}

/// The result of [`serve_with`].
#[derive(Clone, Debug, Drop, PartialEq, Eq)]
pub struct Visit {
    /// How the connection ended, or why the call stopped.
    pub end: Result<Served, ServeError>,
    /// The place in the buffer of the bytes that were read and not given to the session. It is empty
    /// except after `Write` and `TooManyTurns`.
    pub rest: Range<usize>,
}

/// Serves a session as [`serve`] does, and reads into `buffer`, which must not be empty. A piece has
/// at most as many bytes as the buffer. Use it to serve many sessions with one buffer, or with larger
/// pieces.
///
/// If more than `held` bytes wait, they are written before the session is given more of the piece. So
/// at most `held` bytes and one reply wait, if no push is queued. If they cannot be written, the rest
/// of the piece is in the buffer: let the reader return it first in the next call. With `usize::MAX`
/// there is no rest.
///
/// # Errors
///
/// `end` is an error as [`serve`] returns it.
pub fn serve_with<R: Source, W: Sink, S: BuildHasher>(
    reader: &mut R,
    writer: &mut W,
    hub: &mut Hub<S>,
    id: u64,
    turns: u64,
    buffer: &mut [u8],
    held: usize,
) -> Visit
    requires { 0 < length buffer.now }
    // As `serve`, except that the pieces have at most as many bytes as the buffer, and that the
    // session was not given the rest.
    ensures served { session.ServesPieces (length buffer.old) W.written R.remaining R.calls R.failures
        writer.old writer.new reader.old reader.new hub.old hub.new id result.end
        (rest_in result buffer.new) }
    ensures end { IfOk result.end (EndsBy hub.new id (R.remaining reader.old)
        (R.remaining reader.new)) }

    ensures whole { held ≡ 2 ^ 64 - 1 → rest_in result buffer.new ≡ [] }
    // Bytes are left only if more than `held` bytes waited and could not all be written.
    ensures full { LeavesOverfull held W.written writer.old writer.new hub.old hub.new id
        (rest_in result buffer.new) }
    ensures in_buffer { (result.rest.start ≤ result.rest.end) ×
        (result.rest.end ≤ length buffer.new) }
    ensures bounded { WaitsAtMost (held + hub.old.limits.total) hub.old id →
        WaitsAtMost (held + hub.old.limits.total) hub.new id }
    // Nothing is read of a session that is closing, and its waiting bytes are written.
    ensures closing { IfSome (seat_at hub.old id) (λ (s : Seat). s.closing ≡ true →
        (reader.new ≡ reader.old) × ServesClosing hub.old hub.new id (W.written writer.old)
        (W.written writer.new) result.end) }
    ensures refusal { IfErr result.end (FailsServing hub.old id (W.failures writer.old)
        (W.failures writer.new) (R.failures reader.old) (R.failures reader.new)) }
    // A device fails once if the error says so, and otherwise never.
    ensures write_failures { W.failures writer.new ≡
        failures_after (stopped_by is_of_writer result.end) (W.failures writer.old) }
    ensures read_failures { R.failures reader.new ≡
        failures_after (stopped_by is_of_reader result.end) (R.failures reader.old) }
    ensures no_session { seat_at hub.old id ≡ None → (result.end ≡ Err ServeError.NoSession) ×
        (hub.new ≡ hub.old) × (reader.new ≡ reader.old) × (writer.new ≡ writer.old) }
    ensures turns { SpendsAtMost (W.calls writer.old) (W.calls writer.new) (R.calls reader.old)
        (R.calls reader.new) turns (IsErrOf result.end ServeError.TooManyTurns) }
{
    let mut client = id;
    serve_client(reader, writer, hub, &mut client, turns, buffer, held)
}

/// Serves a client of any server, as [`serve_with`] serves a session of a hub.
///
/// # Errors
///
/// `end` is an error as [`serve`] returns it.
pub fn serve_client<R: Source, W: Sink, C, T: Sessions<C>>(
    reader: &mut R,
    writer: &mut W,
    sessions: &mut T,
    client: &mut C,
    turns: u64,
    buffer: &mut [u8],
    held: usize,
) -> Visit
    // The bytes received are pieces, each from one read, and the server was given all of them but the
    // rest. Before each read, all replies to the bytes received before were written.
    ensures served { ServesPieces (length buffer.old) W.written R.remaining R.calls R.failures
        writer.old writer.new reader.old reader.new
        (T.has_served held sessions.old client.old) (T.has_cut_short held sessions.old client.old)
        T.waiting T.closing sessions.new client.new result.end (rest_in result buffer.new) }
    ensures ends { 0 < length buffer.old → EndsVisit (R.remaining reader.old)
        (R.remaining reader.new) (T.waiting sessions.new client.new)
        (T.closing sessions.new client.new) result.end }
    ensures whole { held ≡ 2 ^ 64 - 1 → rest_in result buffer.new ≡ [] }
    // Bytes are left only if more than `held` bytes waited and could not all be written.
    ensures full { (rest_in result buffer.new ≡ [] → ⊥) → StopsOverfull held
        (W.written writer.old) (W.written writer.new) (T.has_served held sessions.old client.old)
        (T.takes held) T.writes T.waiting sessions.new client.new }
    ensures in_buffer { (result.rest.start ≤ result.rest.end) ×
        (result.rest.end ≤ length buffer.new) }
    // Nothing is read of a client that is closing, and its waiting bytes are written.
    ensures closing { T.has sessions.old client.old ≡ true →
        T.closing sessions.old client.old ≡ true → (reader.new ≡ reader.old) ×
        WritesClosing T.writes (W.written writer.old) (W.written writer.new) sessions.old
        client.old sessions.new client.new result.end }
    ensures refusal { IfErr result.end (FailsVisit (T.has sessions.old client.old)
        (W.failures writer.old) (W.failures writer.new) (R.failures reader.old)
        (R.failures reader.new)) }
    // A device fails once if the error says so, and otherwise never.
    ensures write_failures { W.failures writer.new ≡
        failures_after (stopped_by is_of_writer result.end) (W.failures writer.old) }
    ensures read_failures { R.failures reader.new ≡
        failures_after (stopped_by is_of_reader result.end) (R.failures reader.old) }
    ensures nobody { T.has sessions.old client.old ≡ false →
        (result.end ≡ Err ServeError.NoSession) × (sessions.new ≡ sessions.old) ×
        (client.new ≡ client.old) × (reader.new ≡ reader.old) × (writer.new ≡ writer.old) }
    ensures turns { SpendsAtMost (W.calls writer.old) (W.calls writer.new) (R.calls reader.old)
        (R.calls reader.new) turns (IsErrOf result.end ServeError.TooManyTurns) }
{
    let Some(_) = sessions.find(client) else {
        return ended(Err(ServeError::NoSession));
    };
    let mut left = turns;
    let mut closing = match sessions.send(client, writer, &mut left) {
        Ok(closing) => closing,
        Err(halt) => return ended(Err(unsent(halt))),
    };
    while !closing {
        let count = match read_some(reader, buffer, &mut left) {
            Ok(0) => return ended(Ok(Served::Ended)),
            Ok(count) => count,
            Err(halt) => return ended(Err(unread(halt))),
        };
        let answered = answer(writer, sessions, client, &buffer[..count], &mut left, held);
        match answered.end {
            Ok(now) => closing = now,
            Err(error) => {
                return Visit {
                    end: Err(error),
                    rest: answered.used..count,
                };
            }
        }
    }
    ended(Ok(Served::Closed))
}

/// Returns a visit after which no byte is left.
fn ended(end: Result<Served, ServeError>) -> Visit
    ensures { result ≡ record { end = end; rest = record { start = 0; end = 0 } } }
{
    Visit { end, rest: 0..0 }
}

/// The result of giving a server a piece.
#[derive(Clone, Copy)]
struct Answered {
    /// The number of bytes that the server was given, from the beginning of the piece.
    used: usize,
    /// Whether the client is closing.
    end: Result<bool, ServeError>,
}

/// Gives the server a piece of a client, and writes all replies to it. When it is called, no bytes of
/// the client wait.
fn answer<W: Sink, C, T: Sessions<C>>(
    writer: &mut W,
    sessions: &mut T,
    client: &mut C,
    piece: &[u8],
    turns: &mut u64,
    held: usize,
) -> Answered
    requires here { T.knows sessions.old client.old }
    requires is_open { T.closing sessions.old client.old ≡ false }
    requires none_waits { T.waiting sessions.old client.old ≡ [] }
    ensures still_here { T.knows sessions.new client.new }
    ensures within { result.used ≤ length piece.now }
    ensures answered { Answers (T.has_served held) (T.has_cut_short held) (W.written writer.old)
        (W.written writer.new) sessions.old client.old sessions.new client.new
        (take result.used piece.now) result.end }
    ensures whole { OnOk result.end (result.used ≡ length piece.now) }
    ensures all { held ≡ 2 ^ 64 - 1 → result.used ≡ length piece.now }
    ensures no_memory { IsErrOf result.end ServeError.OutOfMemory →
        result.used ≡ length piece.now }
    ensures written { OnOk result.end (T.waiting sessions.new client.new ≡ []) }
    ensures closing { 0 < length piece.now → IfOk result.end (λ is_closing.
        is_closing ≡ T.closing sessions.new client.new) }
    ensures stopped { IfErr result.end (StaysAfter (T.waiting sessions.new client.new)
        (T.closing sessions.new client.new)) }
    ensures full { result.used < length piece.now → StopsOverfull held (W.written writer.old)
        (W.written writer.new) (GoesOn (T.has_served held) sessions.old client.old) (T.takes held)
        T.writes T.waiting sessions.new client.new }
    ensures failures { W.failures writer.new ≡
        failures_after (stopped_by is_of_writer result.end) (W.failures writer.old) }
    ensures refusal { IfErr result.end (StopsAnswering (W.failures writer.old)
        (W.failures writer.new) turns.new) }
    ensures turns { Spends (W.calls writer.old) (W.calls writer.new) turns.old turns.new }
{
    let mut used = 0;
    let mut closing = false;
    while used < piece.len() {
        let given = sessions.give(client, beyond(piece, used), held);
        let Ok(count) = given else {
            return Answered {
                used: piece.len(),
                end: Err(ServeError::OutOfMemory),
            };
        };
        used += count;
        match sessions.send(client, writer, turns) {
            Ok(now) => closing = now,
            Err(halt) => {
                return Answered {
                    used,
                    end: Err(unsent(halt)),
                };
            }
        }
    }
    Answered {
        used,
        end: Ok(closing),
    }
}

/// Returns the error of the call for a read that moved no byte.
fn unread(halt: Halt) -> ServeError
    ensures error { result ≡ read_error halt }
    ensures of_reader { is_of_reader result ≡ has_failed halt }
    ensures of_writer { is_of_writer result ≡ false }
{
    match halt {
        Halt::Failed => ServeError::Read,
        Halt::NoTurn => ServeError::TooManyTurns,
    }
}

/// Returns the error of the call for a write that stopped.
fn unsent(halt: Halt) -> ServeError
    ensures error { result ≡ write_error halt }
    ensures of_writer { is_of_writer result ≡ has_failed halt }
    ensures of_reader { is_of_reader result ≡ false }
{
    match halt {
        Halt::Failed => ServeError::Write,
        Halt::NoTurn => ServeError::TooManyTurns,
    }
}
