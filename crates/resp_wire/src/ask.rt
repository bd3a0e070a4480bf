//! The client's end of a connection.

ghost use Rattle.std.specs.Prelude.{◌≡◌, ◌<◌, ◌≤◌, ◌++◌, ℕ, List, [], false, length, take, IsErrOf, OnOk, OnErr, IfErr};
ghost use Rattle.resp_client.specs.Clients.{state_of, with_request, without_front};
ghost use Rattle.resp_client.specs.Sending.{AnswersRequest};
ghost use Rattle.resp_wire.specs.Requests.{request_of};
ghost use Rattle.resp_client.specs.Hearing.{KeepsReading, WhereTaken};
ghost use Rattle.resp_io.specs.Devices.{Appends, failures_after};
ghost use Rattle.resp_wire.specs.Hearing.{HearsAll, WaitsBefore};
ghost use Rattle.resp_wire.specs.Asking.{SendsAll, sent};
ghost use Rattle.resp_wire.specs.Asks.{HearsPieces, StopsAsking};
ghost use Rattle.resp_wire.specs.Stops.{FailsReading, FailsWriting, KeepsFault, QueuesFirst, StopsListening, StopsQueueing, error_at, is_of_last_read, is_of_reader, is_of_writer};
ghost use Rattle.resp_io.specs.Pieces.{ReadsPieces};
ghost use Rattle.resp_io.specs.Turns.{Spends, SpendsAtMost, stopped_by};
ghost use Rattle.std.specs.List.{concat};

use crate::asked::{Request, Responses};
use crate::error::AskError;
use crate::hear::hear_piece;
use crate::pieces::PIECE;
use resp_client::{Client, SendError};
use resp_io::device::{Sink, Source};
use resp_io::{Halt, read_some, write_text};
use resp_session::laws;

/// Queues the requests, writes all waiting bytes, and reads until no command waits for a reply. The
/// replies and pushes of each piece that was read are added to `heard`, even if the call fails.
///
/// A read requests at most 4,096 bytes. Each read and each write is a turn, and the call makes at
/// most `turns` of them.
///
/// # Errors
///
/// As [`AskError`] describes:
///
/// - If a request is refused, nothing was written, and the requests before it stay queued.
/// - If a write fails or no turn is left for it, the bytes that were not written wait in the
///   client, and nothing was read.
/// - If a read fails, no turn is left for it, or the input ends, the replies received before are
///   added, and the other commands still wait.
/// - If a byte received is not valid or was not requested, the replies before it are added, and the
///   client returns the fault from then on.
/// - After `OutOfMemory`, bytes that were read may be lost. Close the connection.
///
/// # Examples
///
/// Over a socket, from [example_tcp](../../example_tcp/src/asking.rt):
///
/// ```rust
/// let stream = TcpStream::connect(net, ("127.0.0.1", port))?;
/// stream.set_nodelay(true)?;
/// let mut client = Client::new(alloc, &Limits::standard());
/// let mut received = Responses::new(alloc);
/// ask(
///     &mut Device::new(&stream),
///     &mut Device::new(&stream),
///     &mut client,
///     requests.as_slice(),
///     &mut received,
///     TURNS,
/// )?;
/// ```
///
/// Over devices in memory, from [samples](../../samples/src/wire.rt):
///
/// ```rust
/// let mut reader = MemorySource::new(b"+OK\r\n:1\r\n", 4);
/// let mut writer = MemorySink::new(alloc, 16, 256)?;
/// let mut client = Client::new(alloc, &Limits::standard());
/// let mut received = Responses::new(alloc);
/// ask(&mut reader, &mut writer, &mut client, requests, &mut received, 100)?;
/// for (number, value) in received.replies.iter() {
///     println!(rt; "reply {number}: {value:?}")?;
/// }
/// ```
pub fn ask<R: Source, W: Sink>(
    reader: &mut R,
    writer: &mut W,
    client: &mut Client,
    requests: &[Request],
    heard: &mut Responses,
    turns: u64,
) -> Result<(), AskError>
    // All requests and the bytes that waited before were written, and all replies received were
    // added. The bytes received are pieces of at most 4,096 bytes, each from one read that was made
    // while a command waited.
    ensures sent { OnOk result (SendsAll client.old requests.now (W.written writer.old)
        (W.written writer.new)) }
    ensures heard { OnOk result (HearsPieces 4096 R.remaining R.calls R.failures reader.old
        reader.new false client.old (sent client.old requests.now) heard.old
        (HearsAll (sent client.old requests.now) client.new heard.old heard.new)) }
    ensures all_answered { OnOk result ((state_of client.new).waiting.asks ≡ []) }
    ensures turns { SpendsAtMost (W.calls writer.old) (W.calls writer.new) (R.calls reader.old)
        (R.calls reader.new) turns (IsErrOf result AskError.TooManyTurns) }

    // A device fails once if the error says so, and otherwise never.
    ensures write_failures { W.failures writer.new ≡
        failures_after (stopped_by is_of_writer result) (W.failures writer.old) }
    ensures read_failures { R.failures reader.new ≡
        failures_after (stopped_by is_of_reader result) (R.failures reader.old) }

    ensures refusal { IfErr result (StopsAsking 4096 W.written W.failures R.remaining R.calls
        R.failures client.old client.new requests.now writer.old writer.new reader.old reader.new
        heard.old heard.new) }
    ensures fault_is_kept { IfErr result (KeepsFault client.new) }
{
    ask_with(
        reader,
        writer,
        client,
        requests,
        heard,
        turns,
        &mut [0; PIECE],
    )
}

/// Asks as [`ask`] does, and reads into `buffer`, which must not be empty. A piece has at most as many
/// bytes as the buffer.
///
/// # Errors
///
/// The errors of [`ask`].
pub fn ask_with<R: Source, W: Sink>(
    reader: &mut R,
    writer: &mut W,
    client: &mut Client,
    requests: &[Request],
    heard: &mut Responses,
    turns: u64,
    buffer: &mut [u8],
) -> Result<(), AskError>
    requires { 0 < length buffer.now }
    // All requests and the bytes that waited before were written, and all replies received were
    // added. The bytes received are pieces, each from one read into the buffer that was made while a
    // command waited.
    ensures sent { OnOk result (SendsAll client.old requests.now (W.written writer.old)
        (W.written writer.new)) }
    ensures heard { OnOk result (HearsPieces (length buffer.old) R.remaining R.calls R.failures
        reader.old reader.new false client.old (sent client.old requests.now) heard.old
        (HearsAll (sent client.old requests.now) client.new heard.old heard.new)) }
    ensures all_answered { OnOk result ((state_of client.new).waiting.asks ≡ []) }
    ensures turns { SpendsAtMost (W.calls writer.old) (W.calls writer.new) (R.calls reader.old)
        (R.calls reader.new) turns (IsErrOf result AskError.TooManyTurns) }

    // A device fails once if the error says so, and otherwise never.
    ensures write_failures { W.failures writer.new ≡
        failures_after (stopped_by is_of_writer result) (W.failures writer.old) }
    ensures read_failures { R.failures reader.new ≡
        failures_after (stopped_by is_of_reader result) (R.failures reader.old) }

    ensures refusal { IfErr result (StopsAsking (length buffer.old) W.written W.failures
        R.remaining R.calls R.failures client.old client.new requests.now writer.old writer.new
        reader.old reader.new heard.old heard.new) }
    ensures fault_is_kept { IfErr result (KeepsFault client.new) }
{
    if let Err(error) = queue(client, requests) {
        return Err(error);
    }
    let mut left = turns;
    if let Err(error) = send_all(writer, client, &mut left) {
        return Err(error);
    }
    if let Err(error) = hear_all(reader, client, heard, &mut left, buffer) {
        return Err(error);
    }
    Ok(())
}

/// Queues the requests in order, up to the first that is refused.
fn queue(client: &mut Client, requests: &[Request]) -> Result<(), AskError>
    ensures all_queued { OnOk result (QueuesFirst client.old client.new requests.now
        (length requests.now)) }
    ensures refusal { IfErr result (StopsQueueing client.old client.new requests.now) }
    ensures no_device { (stopped_by is_of_writer result ≡ false) ×
        (stopped_by is_of_reader result ≡ false) }
    ensures same_reading { KeepsReading client.old client.new }
{
    for index in 0..requests.len() {
        if let Err(error) = queue_one(client, &requests[index]) {
            return Err(refused(index, error));
        }
    }
    Ok(())
}

/// Queues one request.
fn queue_one(client: &mut Client, request: &Request) -> Result<u64, SendError>
    ensures answer { AnswersRequest (state_of client.old) (request_of request.now) result }
    ensures queued { OnOk result (state_of client.new ≡
        with_request (request_of request.now) (state_of client.old)) }
    ensures unchanged { OnErr result (state_of client.new ≡ state_of client.old) }
    ensures same_reading { KeepsReading client.old client.new }
{
    match request {
        Request::Hello(asked) => client.hello(*asked),
        Request::Command(command) => client.send(command),
    }
}

/// Returns the error of the call for a refused request.
fn refused(index: usize, error: SendError) -> AskError
    ensures error { result ≡ error_at index error }
    ensures no_device { (is_of_writer result ≡ false) × (is_of_reader result ≡ false) }
{
    match error {
        SendError::OutOfMemory => AskError::OutOfMemory,
        error => AskError::Refused { index, error },
    }
}

/// Writes the bytes that wait in the client.
fn send_all<W: Sink>(writer: &mut W, client: &mut Client, turns: &mut u64) -> Result<(), AskError>
    ensures sent { (count : ℕ) × (count ≤ length (state_of client.old).out) ×
        Appends (W.written writer.old) (W.written writer.new)
        (take count (state_of client.old).out) ×
        (state_of client.new ≡ without_front count (state_of client.old)) }
    ensures all { OnOk result ((state_of client.new).out ≡ []) }
    ensures same_reading { KeepsReading client.old client.new }
    ensures failures { W.failures writer.new ≡
        failures_after (stopped_by is_of_writer result) (W.failures writer.old) }
    ensures no_read { stopped_by is_of_reader result ≡ false }
    ensures turns { Spends (W.calls writer.old) (W.calls writer.new) turns.old turns.new }
    ensures refusal { IfErr result (FailsWriting (W.failures writer.old) (W.failures writer.new)
        (state_of client.new).out) }
    ensures no_turn_left { IsErrOf result AskError.TooManyTurns → turns.new ≡ 0 }
{
    let written = write_text(writer, client.out(), turns);
    client.sent(written.count);
    match written.end {
        Ok(()) => Ok(()),
        Err(Halt::Failed) => Err(AskError::Write),
        Err(Halt::NoTurn) => Err(AskError::TooManyTurns),
    }
}

/// Reads until no command waits for a reply, and adds the replies and pushes received.
fn hear_all<R: Source>(
    reader: &mut R,
    client: &mut Client,
    heard: &mut Responses,
    turns: &mut u64,
    buffer: &mut [u8],
) -> Result<(), AskError>
    requires { 0 < length buffer.now }
    ensures heard { (pieces : List (List ℕ)) × ReadsPieces (length buffer.old) R.remaining R.calls
        R.failures reader.old reader.new pieces (stopped_by is_of_last_read result) ×
        WhereTaken client.old (λ front.
        OnOk result (HearsAll (state_of client.old) client.new heard.old heard.new
        (front ++ concat pieces)) ×
        IfErr result (StopsListening (state_of client.old) client.new heard.old heard.new
        (front ++ concat pieces)) × WaitsBefore (state_of client.old) heard.old front pieces) }
    ensures all_answered { OnOk result ((state_of client.new).waiting.asks ≡ []) }
    ensures failures { R.failures reader.new ≡
        failures_after (stopped_by is_of_reader result) (R.failures reader.old) }
    ensures no_write { stopped_by is_of_writer result ≡ false }
    ensures turns { Spends (R.calls reader.old) (R.calls reader.new) turns.old turns.new }
    ensures refusal { IfErr result (FailsReading (R.failures reader.old) (R.failures reader.new)
        (R.remaining reader.old) (R.remaining reader.new) (state_of client.new)) }
    ensures fault_is_kept { IfErr result (KeepsFault client.new) }
    ensures no_turn_left { IsErrOf result AskError.TooManyTurns → turns.new ≡ 0 }
{
    laws::readings_go_on();
    laws::hearing_goes_on();
    while client.waiting() > 0 {
        let count = match read_some(reader, buffer, turns) {
            Ok(0) => return Err(AskError::Ended),
            Ok(count) => count,
            Err(Halt::Failed) => return Err(AskError::Read),
            Err(Halt::NoTurn) => return Err(AskError::TooManyTurns),
        };
        if let Err(error) = hear_piece(client, &buffer[..count], heard) {
            return Err(error);
        }
    }
    Ok(())
}
