//! A client of a proxy.

ghost use Rattle.std.specs.Prelude.{◌≡◌, ◌↔◌, false, []};
ghost use Rattle.resp_proxy.specs.Clients.{Holds, client_id, is_closing, is_leaving, route_of, waits_for_room};
ghost use Rattle.resp_proxy.specs.Terms.{Terms};

use crate::route::Route;
use bytes::BytesMut;
use resp_board::ClientId;
use resp_frames::Unfinished;
use std::alloc::Global;

/// A client of a proxy: its id, and the bytes received from it that are not yet a command.
///
/// It belongs to the proxy that opened it, and to one connection.
#[derive(Drop)]
pub struct Client {
    pub(crate) route: Route,
    /// The incomplete command of the client.
    pub(crate) unfinished: Unfinished,
    /// The bytes after it. They wait until there is room for more commands.
    pub(crate) rest: BytesMut,
    pub(crate) is_closing: bool,
    /// Whether the next command, with which `rest` begins, needs a dedicated connection.
    pub(crate) is_leaving: bool,
    /// The name that the client has given itself, or empty.
    pub(crate) name: Vec<u8>,
}

impl Client {
    /// Returns a client that has sent nothing.
    pub(crate) fn new(alloc: Global, route: Route) -> Client
        ensures route { route_of result ≡ route }
        ensures nothing { (terms : Terms) → Holds terms result [] }
        ensures open { is_closing result ≡ false }
        ensures stays { is_leaving result ≡ false }
    {
        Client {
            route,
            unfinished: Unfinished::new(alloc),
            rest: BytesMut::new(alloc),
            is_closing: false,
            is_leaving: false,
            name: Vec::new(alloc),
        }
    }

    /// Returns the id of the client.
    pub fn id(&self) -> ClientId
        ensures { result ≡ client_id self.now }
    {
        self.route.client
    }

    /// Returns whether nothing more is taken from this client. Close it when all its replies were
    /// written.
    pub fn is_closing(&self) -> bool
        ensures { result ≡ is_closing self.now }
    {
        self.is_closing
    }

    /// Returns whether bytes of this client wait for room for a command.
    pub fn has_rest(&self) -> bool
        ensures { (result ≡ false) ↔ (waits_for_room self.now ≡ []) }
    {
        !self.rest.is_empty()
    }

    /// Returns whether the next command of this client needs a connection of its own. Nothing more is
    /// taken from this client. Call [`Proxy::enter`](crate::Proxy::enter) or
    /// [`Proxy::leave`](crate::Proxy::leave) when all its replies were written.
    pub fn is_leaving(&self) -> bool
        ensures { result ≡ is_leaving self.now }
    {
        self.is_leaving
    }
}
