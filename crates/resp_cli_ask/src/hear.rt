//! Reading replies and pushes, and printing them.

ghost use Rattle.std.specs.Prelude.{◌≡◌, ◌≤◌, ◌<◌, ◌++◌, ℕ, List, drop, false, length, take, IsErrOf, OnOk, IfErr};
ghost use Rattle.resp_io.specs.Devices.{failures_after};
ghost use Rattle.resp_client.specs.Clients.{state_of};
ghost use Rattle.resp_client.specs.Hearing.{WhereTaken};
ghost use Rattle.resp_io.specs.Turns.{TellsEnd, WereRead, stopped_by};
ghost use Rattle.resp_cli_ask.specs.Hearing.{IsOfConnection, StopsHearing, StopsTelling, Tells, error_of, is_of_output, is_of_reader, is_of_writer};

use crate::error::ExchangeError;
use crate::tell::tell;
use crate::telling::Telling;
use resp_client::Client;
use resp_io::device::{Sink, Source};
use resp_io::{Halt, read_some};
use resp_scan::event::Fault;
use resp_session::laws;
use resp_value::cause::Cause;

/// The maximum number of reads of one call.
const MOST_READS: u64 = 4_000_000_000;

/// Returns the error for a client's fault.
fn stop(fault: Fault) -> ExchangeError
    ensures { result ≡ error_of fault }
{
    match fault.cause {
        Cause::OutOfMemory => ExchangeError::Memory,
        _ => ExchangeError::Fault(fault),
    }
}

/// Feeds a whole piece to the client, and prints the replies and pushes received.
pub(crate) fn tell_piece<O: Sink>(
    client: &mut Client,
    piece: &[u8],
    telling: &mut Telling,
    output: &mut O,
) -> Result<(), ExchangeError>
    ensures told { WhereTaken client.old (λ front. OnOk result (Tells telling.old telling.new
        (state_of client.old) client.new (O.written output.old) (O.written output.new)
        (front ++ piece.now))) }
    ensures refusal { WhereTaken client.old (λ front. IfErr result (StopsTelling telling.old
        telling.new (state_of client.old) (O.written output.old) (O.written output.new)
        (front ++ piece.now))) }
    ensures failures { O.failures output.new ≡
        failures_after (stopped_by is_of_output result) (O.failures output.old) }
    ensures not_read { stopped_by is_of_reader result ≡ false }
    ensures not_ended { IsErrOf result ExchangeError.Ended → ⊥ }
    ensures not_written { stopped_by is_of_writer result ≡ false }
    ensures never_refuses { IfErr result IsOfConnection }
{
    laws::readings_go_on();
    // The contract of the loop needs the range of this number.
    let _errors = telling.errors;
    let mut rest = piece;
    // Each turn uses at least one byte.
    for turn in 0..piece.len() {
        if rest.is_empty() {
            return Ok(());
        }
        let heard = match client.feed(rest) {
            Ok(heard) => heard,
            Err(fault) => return Err(stop(fault)),
        };
        if let Err(error) = tell(&heard.what, telling, output) {
            return Err(error);
        }
        rest = beyond(rest, heard.used);
    }
    Ok(())
}

/// Returns the bytes from this index on.
#[inline]
fn beyond(piece: &[u8], from: usize) -> &[u8]
    requires { from ≤ length piece.now }
    ensures { result.now ≡ drop from piece.now }
{
    &piece[from..]
}

/// Reads until at most `left` commands wait for a reply, and prints the replies and pushes received.
pub fn hear_until<R: Source, O: Sink>(
    reader: &mut R,
    client: &mut Client,
    left: u64,
    telling: &mut Telling,
    output: &mut O,
    buffer: &mut [u8],
) -> Result<(), ExchangeError>
    requires { 0 < length buffer.now }
    ensures told { (came : List ℕ) × WereRead (R.remaining reader.old) (R.remaining reader.new)
        came × WhereTaken client.old (λ front. OnOk result (Tells telling.old telling.new
        (state_of client.old) client.new (O.written output.old) (O.written output.new)
        (front ++ came)) × IfErr result (StopsHearing telling.old telling.new
        (state_of client.old) client.new (O.written output.old) (O.written output.new)
        (front ++ came))) }
    ensures few_wait { OnOk result (length (state_of client.new).waiting.asks ≤ left) }
    ensures read_failures { R.failures reader.new ≡
        failures_after (stopped_by is_of_reader result) (R.failures reader.old) }
    ensures print_failures { O.failures output.new ≡
        failures_after (stopped_by is_of_output result) (O.failures output.old) }
    ensures end { IsErrOf result ExchangeError.Ended →
        TellsEnd (R.remaining reader.old) (R.remaining reader.new) }
    ensures not_written { stopped_by is_of_writer result ≡ false }
    ensures never_refuses { IfErr result IsOfConnection }
{
    laws::readings_go_on();
    // The contract of the loop needs the range of this number.
    let _errors = telling.errors;
    let mut turns = MOST_READS;
    while client.waiting() > left {
        let count = match read_some(reader, buffer, &mut turns) {
            Ok(0) => return Err(ExchangeError::Ended),
            Ok(count) => count,
            Err(Halt::Failed) => return Err(ExchangeError::Read),
            Err(Halt::NoTurn) => return Err(ExchangeError::TooManyTurns),
        };
        if let Err(error) = tell_piece(client, front(buffer, count), telling, output) {
            return Err(error);
        }
    }
    Ok(())
}

/// Returns the first `count` bytes of a piece.
#[inline]
fn front(piece: &[u8], count: usize) -> &[u8]
    requires { count ≤ length piece.now }
    ensures { result.now ≡ take count piece.now }
{
    &piece[..count]
}
