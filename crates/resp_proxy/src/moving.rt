//! Clients whose next command needs another line, or a connection of their own.

ghost use Rattle.std.specs.Prelude.{◌≡◌, ◌↔◌, ◌≤◌, drop, false, length, IfErr, IfOk, IsErrOf, IsTrue, OnErr, OnOk};
ghost use Rattle.resp_board.specs.Runs.{ClientIsFull, HasClosed, KeepsOpen, KeepsRun};
ghost use Rattle.resp_proxy.specs.Clients.{Holds, client_id, is_closing, is_leaving, route_of, waits_for_room};
ghost use Rattle.resp_proxy.specs.Moving.{IsGivenReply, MayLeave, name_of, number_of};
ghost use Rattle.resp_proxy.specs.Hellos.{IsReplyWithNumber, own_reply};
ghost use Rattle.resp_proxy.specs.OwnReplies.{is_client_name};
ghost use Rattle.resp_value.specs.Canonical.{canonical_text};
ghost use Rattle.resp_proxy.specs.Proxies.{board_in, replied_to, terms_of};
ghost use Rattle.resp_proxy.specs.ServerLines.{route_to};

use crate::answer;
use crate::client::Client;
use crate::error::EnterError;
use crate::giving::has_all;
use crate::hello::{hello_text, with_number};
use crate::proxy::Proxy;
use crate::server_line::ServerLine;
use bytes::BytesMut;
use resp_board::OwnError;
use resp_frames::Unfinished;
use resp_value::version::Version;
use std::alloc::{AllocError, Global};

impl Client {
    /// Returns the bytes of this client that wait for room, or the bytes from its next command on if
    /// it is leaving.
    pub fn rest(&self) -> &[u8]
        ensures { result.now ≡ waits_for_room self.now }
    {
        self.rest.as_slice()
    }

    /// Gives the client a name, as HELLO does with SETNAME. An empty name means no name.
    pub fn set_name(&mut self, name: Vec<u8>)
        ensures named { name_of self.new ≡ name.items }
        ensures same_rest { waits_for_room self.new ≡ waits_for_room self.old }
        ensures same_client { route_of self.new ≡ route_of self.old }
        ensures same_leaving { is_leaving self.new ≡ is_leaving self.old }
        ensures same_closing { is_closing self.new ≡ is_closing self.old }
    {
        self.name = name;
    }

    /// Returns the reply to HELLO for this client. `reply` is the reply of the server to HELLO over
    /// the connection that the client shares, or empty in version 2.
    ///
    /// # Errors
    ///
    /// `AllocError` if an allocation fails.
    pub fn hello(
        &self,
        alloc: Global,
        version: Version,
        reply: &[u8],
    ) -> Result<Vec<u8>, AllocError>
        ensures two { version ≡ Version.Two → IfOk result (λ text.
            text.items ≡ canonical_text Version.Two (own_reply (number_of self.now))) }
        ensures three { version ≡ Version.Three → IfOk result (λ text.
            IsReplyWithNumber (number_of self.now) reply.now text.items) }
    {
        match version {
            Version::Two => hello_text(alloc, self.route.client.number),
            Version::Three => with_number(alloc, reply, self.route.client.number),
        }
    }
}

/// Returns whether each byte of a name is printable and not a space, as a name of a client has to
/// be.
pub fn is_client_name(name: &[u8]) -> bool
    ensures { result ≡ is_client_name name.now }
{
    answer::is_client_name(name)
}

impl Proxy {
    /// Returns whether a client is leaving, no command of it waits, and all its replies were
    /// written. Call [`Proxy::enter`] or [`Proxy::leave`] then.
    pub fn may_leave(&self, client: &Client) -> bool
        ensures { IsTrue result ↔ MayLeave (board_in self.now) client.now }
    {
        client.is_leaving && has_all(&self.board, client.route.client)
    }

    /// Closes a client that may leave: its next command needs a connection of its own, and it has got
    /// the replies to all commands before. Returns its bytes from this command on. They are the
    /// first that are sent over that connection.
    ///
    /// # Errors
    ///
    /// The client, if it may not leave. Nothing changes.
    pub fn leave(&mut self, client: Client) -> Result<BytesMut, Client>
        ensures left { IfOk result (λ rest. MayLeave (board_in self.old) client) }
        ensures bytes { IfOk result (λ rest. rest.items ≡ waits_for_room client) }
        ensures closed { IfOk result (λ rest.
            HasClosed (board_in self.old) (board_in self.new) (client_id client)) }
        ensures stays { IfErr result (λ same. (same ≡ client) × (self.new ≡ self.old) ×
            (MayLeave (board_in self.old) client → ⊥)) }
        ensures run { KeepsRun (board_in self.old) (board_in self.new) }
        ensures same_terms { terms_of self.new ≡ terms_of self.old }
        ensures same_replied { replied_to self.new ≡ replied_to self.old }
    {
        if !self.may_leave(&client) {
            return Err(client);
        }
        self.board.close(client.route.client);
        let Client { rest, .. } = client;
        Ok(rest)
    }

    /// Lets the commands of a client that may leave go to this line from now on. `used` is the
    /// number of bytes of its next command, which gets this reply of the proxy itself. The line may
    /// be the one that the client has used before.
    ///
    /// # Errors
    ///
    /// `Stays` if the client may not leave, and an [`OwnError`] if it can't get the reply. Nothing
    /// changes.
    pub fn enter(
        &mut self,
        client: &mut Client,
        line: &ServerLine,
        used: usize,
        reply: &[u8],
    ) -> Result<(), EnterError>
        requires { used ≤ length (waits_for_room client.old) }
        // The client got the replies to all commands before.
        ensures all { OnOk result (MayLeave (board_in self.old) client.old) }
        ensures answered { OnOk result (IsGivenReply (board_in self.old) (board_in self.new)
            (client_id client.old) reply.now) }
        ensures route { OnOk result
            (route_of client.new ≡ route_to line.now (client_id client.old)) }
        ensures holds { OnOk result (Holds (terms_of self.new) client.new
            (drop used (waits_for_room client.old))) }
        ensures shares { OnOk result (is_leaving client.new ≡ false) }
        ensures same_closing { is_closing client.new ≡ is_closing client.old }
        ensures same_name { name_of client.new ≡ name_of client.old }
        ensures stays { IsErrOf result EnterError.Stays ↔
            (MayLeave (board_in self.old) client.old → ⊥) }
        ensures unchanged { OnErr result ((client.new ≡ client.old) ×
            KeepsRun (board_in self.old) (board_in self.new)) }
        ensures same_clients { KeepsOpen (board_in self.old) (board_in self.new) }
        ensures same_terms { terms_of self.new ≡ terms_of self.old }
        ensures same_replied { replied_to self.new ≡ replied_to self.old }
    {
        if !self.may_leave(client) {
            return Err(EnterError::Stays);
        }
        match self.board.own(client.route.client, reply) {
            Ok(()) => {}
            Err(error) => return Err(EnterError::Own(error)),
        }
        client.unfinished = Unfinished::new(self.alloc);
        client.rest.advance(used);
        client.is_leaving = false;
        client.route = line.route(client.route.client);
        Ok(())
    }
}
