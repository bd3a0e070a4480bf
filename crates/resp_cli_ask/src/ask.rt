//! Sending one command.

ghost use Rattle.std.specs.Prelude.{◌≡◌, ◌≢◌, ◌<◌, ◌++◌, ℕ, List, [], length, IsErrOf, OnOk, IfErr, IfOk};
ghost use Rattle.resp_value.specs.Commands.{words_of};
ghost use Rattle.resp_io.specs.Devices.{Appends};
ghost use Rattle.resp_session.specs.Requests as request;
ghost use Rattle.resp_client.specs.Clients.{state_of, with_request};
ghost use Rattle.resp_client.specs.Hearing.{WhereTaken};
ghost use Rattle.resp_client.specs.Sending.{DeclinesRequest, MayBeSent};
ghost use Rattle.resp_io.specs.Turns.{WereRead};
ghost use Rattle.resp_cli_ask.specs.Exchanging.{IsRefused, refusal_of, sent_state};
ghost use Rattle.resp_cli_ask.specs.Hearing.{StopsHearing, Tells};

use crate::error::ExchangeError;
use crate::exchange::exchange;
use crate::telling::Telling;
use resp_client::{Client, SendError};
use resp_io::device::{Sink, Source};
use resp_value::command::Command;

/// Sends one command, and prints its reply, and the pushes before it. No command waits when this is
/// called.
///
/// # Errors
///
/// - [`AskError::Refused`] if the client refuses the command. Nothing was written or read.
/// - [`AskError::Memory`] if an allocation fails.
/// - Those of [`exchange`].
pub fn ask_command<R: Source, W: Sink, O: Sink>(
    reader: &mut R,
    writer: &mut W,
    client: &mut Client,
    command: &Command,
    telling: &mut Telling,
    output: &mut O,
    buffer: &mut [u8],
) -> Result<(), ExchangeError>
    requires { 0 < length buffer.now }
    // The bytes that waited and the command were written, and the values received were printed.
    ensures sent { OnOk result (Appends (W.written writer.old) (W.written writer.new)
        (with_request (request.Command (words_of command.now)) (state_of client.old)).out) }
    ensures told { OnOk result ((came : List ℕ) ×
        WereRead (R.remaining reader.old) (R.remaining reader.new) came ×
        WhereTaken client.old (λ front. Tells telling.old telling.new (sent_state
        (with_request (request.Command (words_of command.now)) (state_of client.old))) client.new
        (O.written output.old) (O.written output.new) (front ++ came))) }
    ensures answered { OnOk result ((state_of client.new).waiting.asks ≡ []) }
    ensures may_be_sent { OnOk result (MayBeSent (state_of client.old)
        (request.Command (words_of command.now))) }

    // The client refuses exactly the commands that its definition says.
    ensures refused { IfErr result (IsRefused (state_of client.old)
        (request.Command (words_of command.now))) }
    ensures nothing_done { IfErr result (λ error. (refusal : SendError) →
        error ≡ ExchangeError.Refused refusal → (state_of client.new ≡ state_of client.old) ×
        (writer.new ≡ writer.old) × (reader.new ≡ reader.old) × (output.new ≡ output.old)) }
{
    if let Err(error) = client.send(command) {
        return Err(refusal(error));
    }
    exchange(reader, writer, client, 0, telling, output, buffer)
}

/// Returns the error for a command that is not queued.
fn refusal(error: SendError) -> ExchangeError
    ensures { result ≡ refusal_of error }
{
    match error {
        SendError::OutOfMemory => ExchangeError::Memory,
        error => ExchangeError::Refused(error),
    }
}
