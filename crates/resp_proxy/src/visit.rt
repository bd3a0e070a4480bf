//! Visits of connections.

ghost use Rattle.std.specs.Prelude.{◌≡◌, ◌↔◌, ◌<◌, None, [], false, length, true, IfErr, IfSome, OnErr, OnOk};
ghost use Rattle.resp_board.specs.Runs.{KeepsOpen, KeepsOthers, WhereRun, unsent_on};
ghost use Rattle.resp_proxy.specs.Clients.{client_id, is_closing, route_of};
ghost use Rattle.resp_proxy.specs.Leaving.{LeavesRightly};
ghost use Rattle.resp_proxy.specs.Proxies.{HasRoomFor, WhereHeld, board_in, replied_to, terms_of};
ghost use Rattle.resp_proxy.specs.ServerLines.{WhereBegunBy, expected_of, is_attached, line_of, line_terms, prober_of, reply_rules_of, server_begun};
ghost use Rattle.resp_proxy.specs.Probing.{KeepsStep};
ghost use Rattle.resp_proxy.specs.Telling.{Tells};
ghost use Rattle.resp_proxy.specs.Visiting.{HasNothingFor, ReadsClient, ReadsServer, TriesRead, VisitsClient, VisitsServer};
ghost use Rattle.resp_io.specs.Devices.{count_after};

use crate::client::Client;
use crate::error::{ClientError, ServerError};
use crate::giving::WriteOutcome;
use crate::proxy::Proxy;
use crate::server_line::ServerLine;
use resp_io::device::{DeviceFault, Sink, Source};

/// The result of the read of a client.
#[derive(Clone, Copy, Debug, PartialEq, Eq)]
pub enum Read {
    /// Bytes were taken, and there may be more.
    Some,
    /// Nothing was read, since too many bytes or commands of this client wait, or too many bytes for
    /// the server.
    Full,
    /// The read failed, for example because it would block.
    Failed,
    /// The input ended.
    Ended,
    /// The client is closing.
    Closing(ClientError),
}

/// The result of [`Proxy::visit_client`].
#[derive(Clone, Copy, Debug, PartialEq, Eq)]
pub struct ClientVisit {
    /// The result of the read.
    pub read: Read,
    /// The result of the write.
    pub written: WriteOutcome,
}

/// The result of [`Proxy::visit_server`].
#[derive(Clone, Copy, Debug, PartialEq, Eq)]
pub struct ServerVisit {
    /// The number of bytes that were read, or `None` if the read failed, for example because it would
    /// block. 0 is the end of the input.
    pub read: Option<usize>,
    /// An error if the connection is not usable. Then nothing was written.
    pub end: Result<(), ServerError>,
    /// The result of the write.
    pub written: WriteOutcome,
}

impl Proxy {
    /// Reads bytes of a client, if there is room for a command of it, and writes bytes that wait for
    /// it, with at most one read and one write. Bytes that wait for room are taken before anything
    /// is read.
    pub fn visit_client<R: Source, W: Sink>(
        &mut self,
        client: &mut Client,
        reader: &mut R,
        writer: &mut W,
        buffer: &mut [u8],
    ) -> ClientVisit
        requires { 0 < length buffer.old }
        // The bytes read came from this client, and the bytes written are those that it was owed.
        ensures visited { WhereHeld self.old client.old (λ held. VisitsClient (terms_of self.old)
            (route_of client.old) (R.remaining reader.old) (R.remaining reader.new)
            (W.written writer.old) (W.written writer.new) held client.new result.read
            (board_in self.old) (board_in self.new)) }
        ensures closing { (result.read ≡ Read.Closing ClientError.Closing) ↔
            (is_closing client.old ≡ true) }
        ensures full { (result.read ≡ Read.Full) ↔ ((is_closing client.old ≡ false) ×
            (HasRoomFor self.old client.old → ⊥)) }
        // Each other client has the bytes that it had.
        ensures others { WhereHeld self.old client.old (λ held. WhereRun (board_in self.old) (λ h.
            KeepsOthers (client_id client.old) (board_in self.old) (board_in self.new))) }
        ensures nothing_read { (HasRoomFor self.old client.old → ⊥) → reader.new ≡ reader.old }
        // One read if there is room, and one write if bytes wait.
        ensures tries { TriesRead client.old (HasRoomFor self.old client.old) result.read
            (R.remaining reader.old) (R.calls reader.old) (R.calls reader.new)
            (R.failures reader.old) (R.failures reader.new) }
        ensures writes { (HasNothingFor (board_in self.new) (client_id client.old) → ⊥) →
            W.calls writer.new ≡ count_after 1 (W.calls writer.old) }
        // The client is leaving only if its next command needs a connection of its own.
        ensures leaves { WhereHeld self.old client.old (λ held.
            LeavesRightly (terms_of self.old) client.old →
            LeavesRightly (terms_of self.old) client.new) }
        ensures all { result.written ≡ WriteOutcome.All →
            HasNothingFor (board_in self.new) (client_id client.old) }
        ensures same_client { route_of client.new ≡ route_of client.old }
        ensures same_clients { KeepsOpen (board_in self.old) (board_in self.new) }
        ensures same_terms { terms_of self.new ≡ terms_of self.old }
        ensures same_replied { replied_to self.new ≡ replied_to self.old }
    {
        let read = self.read_client(client, reader, buffer);
        let written = self.give(client, writer);
        ClientVisit { read, written }
    }

    /// Reads bytes of a client, if there is room for a command of it.
    fn read_client<R: Source>(
        &mut self,
        client: &mut Client,
        reader: &mut R,
        buffer: &mut [u8],
    ) -> Read
        requires { 0 < length buffer.old }
        ensures reads { WhereHeld self.old client.old (λ held. ReadsClient (terms_of self.old)
            (route_of client.old) (R.remaining reader.old) (R.remaining reader.new) held client.new
            result (board_in self.old) (board_in self.new)) }
        ensures closing { (result ≡ Read.Closing ClientError.Closing) ↔
            (is_closing client.old ≡ true) }
        ensures full { (result ≡ Read.Full) ↔ ((is_closing client.old ≡ false) ×
            (HasRoomFor self.old client.old → ⊥)) }
        ensures nothing_read { (HasRoomFor self.old client.old → ⊥) → reader.new ≡ reader.old }
        ensures tries { TriesRead client.old (HasRoomFor self.old client.old) result
            (R.remaining reader.old) (R.calls reader.old) (R.calls reader.new)
            (R.failures reader.old) (R.failures reader.new) }
        // The client is leaving only if its next command needs a connection of its own.
        ensures leaves { WhereHeld self.old client.old (λ held.
            LeavesRightly (terms_of self.old) client.old →
            LeavesRightly (terms_of self.old) client.new) }
        ensures same_client { route_of client.new ≡ route_of client.old }
        ensures same_clients { KeepsOpen (board_in self.old) (board_in self.new) }
        ensures same_terms { terms_of self.new ≡ terms_of self.old }
        ensures same_replied { replied_to self.new ≡ replied_to self.old }
    {
        if client.is_closing {
            return Read::Closing(ClientError::Closing);
        }
        if !self.has_room(client) {
            return Read::Full;
        }
        if !client.rest.is_empty() {
            return read_result(self.from_client(client, &[]));
        }
        match reader.read(buffer) {
            Ok(0) => {
                self.shut(client);
                Read::Ended
            }
            Ok(count) => read_result(self.from_client(client, &buffer[..count])),
            Err(DeviceFault) => Read::Failed,
        }
    }

    /// Reads bytes of the server over a line, and writes bytes that wait for it, with at most one read
    /// and one write. Without a connection, which [`Proxy::attach`] tells, nothing is read or written.
    pub fn visit_server<R: Source, W: Sink>(
        &mut self,
        line: &mut ServerLine,
        reader: &mut R,
        writer: &mut W,
        buffer: &mut [u8],
    ) -> ServerVisit
        requires { 0 < length buffer.old }
        // The bytes read came from the server, and the bytes written waited for it.
        ensures visited { WhereBegunBy line.old (λ front. VisitsServer (reply_rules_of line.old)
            (line_of line.old) (R.remaining reader.old) (R.remaining reader.new) (W.written writer.old)
            (W.written writer.new) front (server_begun line.new) result.read result.end
            (board_in self.old) (board_in self.new)) }
        // The replies to probes are the expected ones. At the first that is not, nothing more is given.
        ensures step { IfSome result.read (λ count. WhereBegunBy line.old (λ front.
            WhereRun (board_in self.old) (λ h. KeepsStep (line_of line.old)
            (prober_of line.old) (expected_of line.old) result.end (board_in self.old) h
            (board_in self.new)))) }
        // Each client whose bytes are other than before is returned by `next_replied`.
        ensures told { Tells (line_of line.old) (replied_to self.old) (replied_to self.new)
            (board_in self.old) (board_in self.new) }
        ensures once { is_attached line.old ≡ true →
            R.calls reader.new ≡ count_after 1 (R.calls reader.old) }
        ensures failed { is_attached line.old ≡ true → result.read ≡ None →
            R.failures reader.new ≡ count_after 1 (R.failures reader.old) }
        // Without a connection nothing is read and nothing is written.
        ensures detached { is_attached line.old ≡ false →
            (reader.new ≡ reader.old) × (writer.new ≡ writer.old) }
        ensures all { result.written ≡ WriteOutcome.All →
            unsent_on (board_in self.new) (line_of line.new) ≡ [] }
        // One write if the bytes of the server were usable and bytes wait.
        ensures writes { is_attached line.old ≡ true → OnOk result.end
            ((unsent_on (board_in self.new) (line_of line.new) ≡ [] → ⊥) → W.calls writer.new ≡ count_after 1 (W.calls writer.old)) }
        ensures attached { OnOk result.end (is_attached line.new ≡ is_attached line.old) }
        ensures closed { OnErr result.end (is_attached line.new ≡ false) }
        ensures same_prober { prober_of line.new ≡ prober_of line.old }
        ensures same_expected { expected_of line.new ≡ expected_of line.old }
        ensures same_line { line_terms line.new ≡ line_terms line.old }
        ensures same_clients { KeepsOpen (board_in self.old) (board_in self.new) }
        ensures same_terms { terms_of self.new ≡ terms_of self.old }
    {
        let (read, end) = self.read_server(line, reader, buffer);
        let written = if end.is_ok() {
            self.send(line, writer)
        } else {
            WriteOutcome::Some
        };
        ServerVisit { read, end, written }
    }

    /// Reads bytes of the server.
    fn read_server<R: Source>(
        &mut self,
        line: &mut ServerLine,
        reader: &mut R,
        buffer: &mut [u8],
    ) -> (Option<usize>, Result<(), ServerError>)
        requires { 0 < length buffer.old }
        ensures reads { WhereBegunBy line.old (λ front. ReadsServer (reply_rules_of line.old)
            (line_of line.old) (R.remaining reader.old) (R.remaining reader.new) front (server_begun line.new)
            result.0 result.1
            (board_in self.old) (board_in self.new)) }
        ensures step { IfSome result.0 (λ count. WhereBegunBy line.old (λ front.
            WhereRun (board_in self.old) (λ h. KeepsStep (line_of line.old)
            (prober_of line.old) (expected_of line.old) result.1 (board_in self.old) h
            (board_in self.new)))) }
        ensures told { Tells (line_of line.old) (replied_to self.old) (replied_to self.new)
            (board_in self.old) (board_in self.new) }
        ensures once { is_attached line.old ≡ true →
            R.calls reader.new ≡ count_after 1 (R.calls reader.old) }
        ensures failed { is_attached line.old ≡ true → result.0 ≡ None →
            R.failures reader.new ≡ count_after 1 (R.failures reader.old) }
        ensures detached { is_attached line.old ≡ false → reader.new ≡ reader.old }
        ensures attached { OnOk result.1 (is_attached line.new ≡ is_attached line.old) }
        ensures closed { OnErr result.1 (is_attached line.new ≡ false) }
        ensures same_prober { prober_of line.new ≡ prober_of line.old }
        ensures same_expected { expected_of line.new ≡ expected_of line.old }
        ensures same_line { line_terms line.new ≡ line_terms line.old }
        ensures same_clients { KeepsOpen (board_in self.old) (board_in self.new) }
        ensures same_terms { terms_of self.new ≡ terms_of self.old }
    {
        if !line.is_attached {
            return (None, Ok(()));
        }
        match reader.read(buffer) {
            Ok(count) => (Some(count), self.from_server(line, &buffer[..count])),
            Err(DeviceFault) => (None, Ok(())),
        }
    }
}

/// Returns the result of a read, given the result of taking its bytes.
fn read_result(taken: Result<(), ClientError>) -> Read
    ensures taken { OnOk taken (result ≡ Read.Some) }
    ensures refused { IfErr taken (λ error. result ≡ Read.Closing error) }
{
    match taken {
        Ok(()) => Read::Some,
        Err(error) => Read::Closing(error),
    }
}
