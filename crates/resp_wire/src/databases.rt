//! The clients of [`Databases`], as [`serve_client`] serves them.

ghost use Rattle.std.specs.Prelude.{◌≡◌, ◌<◌, ◌≤◌, [], ℕ, length, true, IfErr, IsErrOf};
ghost use Rattle.resp_io.specs.Devices.{failures_after};
ghost use Rattle.resp_io.specs.Turns.{SpendsAtMost, stopped_by};
ghost use Rattle.resp_wire.specs.Visits.{EndsVisit, FailsVisit, ServesPieces, StopsOverfull, WritesClosing, is_of_reader, is_of_writer, rest_in};
ghost use Rattle.resp_server.specs.Doing.{standing_of, waiting_of};
ghost use Rattle.resp_wire.specs.DatabasesClients.{CutsClient, IsKnown, ServesClient, TakesBytes, WritesText, closing_of, has_client, waits_of};

use crate::error::ServeError;
use crate::serve::{Visit, serve_client};
use crate::sessions::Sessions;
use resp_io::device::{Sink, Source};
use resp_io::{Halt, write_text};
use resp_server::{Client, Databases};
use std::alloc::AllocError;
use std::hash::BuildHasher;

/// Serves a client, as [`serve_client`] does for any server. It writes the bytes that wait, reads a
/// piece into `buffer`, which must not be empty, and takes it, until the input ends or the client is
/// closing. Nothing is read from a client that is closing.
///
/// Each read and each write is a turn, and the call makes at most `turns` of them. If more than
/// `held` bytes wait, they are written before more of the piece is taken. So at most `held` bytes
/// and one reply wait. If they cannot be written, the rest of the piece is in the buffer: let the
/// reader return it first in the next call.
///
/// # Errors
///
/// `end` is an error as [`ServeError`] describes it. It is never `NoSession`.
pub fn serve<R: Source, W: Sink, S: BuildHasher + Copy>(
    reader: &mut R,
    writer: &mut W,
    databases: &mut Databases<S>,
    client: &mut Client,
    turns: u64,
    buffer: &mut [u8],
    held: usize,
) -> Visit
    // The bytes received are pieces, each from one read. Those that were given to the server are
    // requests, which were done in order, and a rest. The bytes written and the bytes that still
    // wait, joined, are those that waited before and the replies. Before each read, all replies to
    // the bytes received before were written.
    ensures served { ServesPieces (length buffer.old) W.written R.remaining R.calls R.failures
        writer.old writer.new reader.old reader.new (ServesClient databases.old client.old)
        (CutsClient databases.old client.old) waits_of closing_of databases.new client.new
        result.end (rest_in result buffer.new) }
    ensures ends { 0 < length buffer.old → EndsVisit (R.remaining reader.old)
        (R.remaining reader.new) (waiting_of client.new) (standing_of client.new).closing
        result.end }
    // Nothing is read of a client that is closing, and its waiting bytes are written.
    ensures closing { (standing_of client.old).closing ≡ true → (reader.new ≡ reader.old) ×
        WritesClosing WritesText (W.written writer.old) (W.written writer.new) databases.old
        client.old databases.new client.new result.end }
    // Bytes are left only if more than `held` bytes waited and could not all be written.
    ensures full { (rest_in result buffer.new ≡ [] → ⊥) → StopsOverfull held
        (W.written writer.old) (W.written writer.new) (ServesClient databases.old client.old)
        (TakesBytes held) WritesText waits_of databases.new client.new }
    ensures in_buffer { (result.rest.start ≤ result.rest.end) ×
        (result.rest.end ≤ length buffer.new) }
    ensures refusal { IfErr result.end (FailsVisit true (W.failures writer.old)
        (W.failures writer.new) (R.failures reader.old) (R.failures reader.new)) }
    // A device fails once if the error says so, and otherwise never.
    ensures write_failures { W.failures writer.new ≡
        failures_after (stopped_by is_of_writer result.end) (W.failures writer.old) }
    ensures read_failures { R.failures reader.new ≡
        failures_after (stopped_by is_of_reader result.end) (R.failures reader.old) }
    ensures turns { SpendsAtMost (W.calls writer.old) (W.calls writer.new) (R.calls reader.old)
        (R.calls reader.new) turns (IsErrOf result.end ServeError.TooManyTurns) }
    ensures same_server { databases.new ≡
        record databases.old { stores = databases.new.stores } }
{
    serve_client(reader, writer, databases, client, turns, buffer, held)
}

/// The server has each client.
impl<S: BuildHasher + Copy> Sessions<Client> for Databases<S> {
    ghost has = { has_client };

    ghost knows = { IsKnown };

    ghost closing = { closing_of };

    ghost waiting = { waits_of };

    ghost has_served = { λ (held : ℕ). ServesClient };

    ghost has_cut_short = { λ (held : ℕ). CutsClient };

    ghost takes = { TakesBytes };

    ghost writes = { WritesText };

    fn find(&self, client: &Client) -> Option<bool> {
        Some(client.is_closing())
    }

    fn give(
        &mut self,
        client: &mut Client,
        piece: &[u8],
        held: usize,
    ) -> Result<usize, AllocError> {
        match self.take(client, piece, held) {
            Ok(used) => {
                // This shows that the number of bytes that wait fits into a `usize`.
                let _waits = client.out().len();
                Ok(used)
            }
            Err(AllocError) => Err(AllocError),
        }
    }

    fn send<W: Sink>(
        &mut self,
        client: &mut Client,
        writer: &mut W,
        turns: &mut u64,
    ) -> Result<bool, Halt> {
        let written = write_text(writer, client.out(), turns);
        client.sent(written.count);
        match written.end {
            Ok(()) => Ok(client.is_closing()),
            Err(halt) => Err(halt),
        }
    }
}
