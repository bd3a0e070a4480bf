//! Writing the commands that were queued, and printing replies.

ghost use Rattle.std.specs.Prelude.{◌≡◌, ◌≢◌, ◌≤◌, ◌<◌, ◌++◌, ℕ, List, length, take, IsErrOf, OnOk, OnErr, IfErr};
ghost use Rattle.resp_io.specs.Devices.{Appends, failures_after};
ghost use Rattle.resp_client.specs.Clients.{state_of};
ghost use Rattle.resp_client.specs.Hearing.{KeepsReading, WhereTaken};
ghost use Rattle.resp_io.specs.Turns.{WereRead, stopped_by};
ghost use Rattle.resp_cli_ask.specs.Exchanging.{SendsAll, SendsPart, sent_state};
ghost use Rattle.resp_cli_ask.specs.Hearing.{IsOfConnection, StopsHearing, Tells, is_of_output, is_of_reader, is_of_writer};

use crate::error::ExchangeError;
use crate::hear::hear_until;
use crate::telling::Telling;
use resp_client::Client;
use resp_io::device::{Sink, Source, write_all};

/// Writes the bytes that wait in the client.
pub(crate) fn send_all<W: Sink>(writer: &mut W, client: &mut Client) -> Result<(), ExchangeError>
    ensures sent { OnOk result (SendsAll (W.written writer.old) (W.written writer.new)
        (state_of client.old) (state_of client.new)) }
    ensures part { OnErr result (SendsPart (W.written writer.old) (W.written writer.new)
        (state_of client.old) (state_of client.new)) }
    ensures write_error { IfErr result (λ error. error ≡ ExchangeError.Write) }
    ensures same_reading { KeepsReading client.old client.new }
    ensures failures { W.failures writer.new ≡
        failures_after (stopped_by is_of_writer result) (W.failures writer.old) }
{
    let length = client.out().len();
    match write_all(writer, client.out()) {
        Ok(()) => {
            client.sent(length);
            Ok(())
        }
        Err(fault) => {
            client.sent(fault.written);
            Err(ExchangeError::Write)
        }
    }
}

/// Writes the bytes that wait in the client, and then reads until at most `left` commands wait for a
/// reply. Prints the replies and pushes received.
///
/// # Errors
///
/// - [`AskError::Write`] if a write fails. The first bytes were written, and nothing was read.
/// - [`AskError::Read`], [`AskError::Ended`] or [`AskError::TooManyTurns`] if a read fails, at the
///   end of the input, or after 4,000,000,000 reads. The replies received were printed.
/// - [`AskError::Fault`] at a byte that is not valid. The replies before it were printed.
/// - [`AskError::Output`] or [`AskError::Memory`] if a write of the text or an allocation fails. The
///   first part of the text was printed.
pub fn exchange<R: Source, W: Sink, O: Sink>(
    reader: &mut R,
    writer: &mut W,
    client: &mut Client,
    left: u64,
    telling: &mut Telling,
    output: &mut O,
    buffer: &mut [u8],
) -> Result<(), ExchangeError>
    requires { 0 < length buffer.now }
    ensures sent { OnOk result (Appends (W.written writer.old) (W.written writer.new)
        (state_of client.old).out) }
    ensures told { (came : List ℕ) × WereRead (R.remaining reader.old) (R.remaining reader.new)
        came × WhereTaken client.old (λ front. OnOk result (Tells telling.old telling.new
        (sent_state (state_of client.old)) client.new (O.written output.old)
        (O.written output.new) (front ++ came)) × IfErr result (λ error. error ≢ ExchangeError.Write →
        StopsHearing telling.old telling.new (sent_state (state_of client.old)) client.new
        (O.written output.old) (O.written output.new) (front ++ came) error)) }
    ensures few_wait { OnOk result (length (state_of client.new).waiting.asks ≤ left) }
    ensures unwritten { IsErrOf result ExchangeError.Write → SendsPart (W.written writer.old)
        (W.written writer.new) (state_of client.old) (state_of client.new) ×
        (reader.new ≡ reader.old) × (output.new ≡ output.old) }
    ensures written { IfErr result (λ error. error ≢ ExchangeError.Write →
        Appends (W.written writer.old) (W.written writer.new) (state_of client.old).out) }
    ensures write_failures { W.failures writer.new ≡
        failures_after (stopped_by is_of_writer result) (W.failures writer.old) }
    ensures read_failures { R.failures reader.new ≡
        failures_after (stopped_by is_of_reader result) (R.failures reader.old) }
    ensures print_failures { O.failures output.new ≡
        failures_after (stopped_by is_of_output result) (O.failures output.old) }
    ensures never_refuses { IfErr result IsOfConnection }
{
    if let Err(error) = send_all(writer, client) {
        return Err(error);
    }
    hear_until(reader, client, left, telling, output, buffer)
}
