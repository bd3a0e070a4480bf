//! Feeding a piece to a client.

ghost use Rattle.std.specs.Prelude.{◌≡◌, ◌++◌, false, OnOk, IfErr};
ghost use Rattle.resp_client.specs.Clients.{state_of};
ghost use Rattle.resp_client.specs.Hearing.{WhereTaken};
ghost use Rattle.resp_client.specs.Standing.{IsOfBytes};
ghost use Rattle.resp_wire.specs.Carrying.{cause_of};
ghost use Rattle.resp_wire.specs.Hearing.{HearsAll};
ghost use Rattle.resp_wire.specs.Links.{is_of_link};
ghost use Rattle.resp_wire.specs.Stops.{KeepsFault, StopsClient, StopsListening, error_by};

use crate::asked::Responses;
use crate::error::AskError;
use crate::pieces::beyond;
use resp_client::Client;
use resp_scan::event::Fault;
use resp_session::laws;
use resp_value::cause::Cause;

/// Returns the error of the call for a client's fault.
#[tactic(auto, using(crate::proofs::LinkStops::not_of_link))]
fn stop(fault: Fault) -> AskError
    requires { IsOfBytes fault.cause }
    ensures error { result ≡ error_by fault.cause fault }
    ensures no_link { is_of_link (cause_of result) ≡ false }
{
    match fault.cause {
        Cause::OutOfMemory => AskError::OutOfMemory,
        _ => AskError::Fault(fault),
    }
}

/// Feeds a whole piece to the client, and adds the replies and pushes received.
pub(crate) fn hear_piece(
    client: &mut Client,
    piece: &[u8],
    heard: &mut Responses,
) -> Result<(), AskError>
    ensures heard { WhereTaken client.old (λ front. OnOk result
        (HearsAll (state_of client.old) client.new heard.old heard.new (front ++ piece.now))) }
    ensures refusal { WhereTaken client.old (λ front. IfErr result
        (StopsListening (state_of client.old) client.new heard.old heard.new
        (front ++ piece.now))) }
    ensures fault_or_memory { IfErr result StopsClient }
    ensures no_link { IfErr result (λ error. is_of_link (cause_of error) ≡ false) }
    ensures fault_is_kept { IfErr result (KeepsFault client.new) }
{
    laws::readings_go_on();
    laws::hearing_goes_on();
    let mut rest = piece;
    while !rest.is_empty() {
        let given = match client.feed(rest) {
            Ok(given) => given,
            Err(fault) => return Err(stop(fault)),
        };
        let used = given.used;
        if heard.add(given.what).is_err() {
            return Err(AskError::OutOfMemory);
        }
        rest = beyond(rest, used);
    }
    Ok(())
}
