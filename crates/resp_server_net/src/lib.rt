//! A server for many connections at once, in one thread, over non-blocking sockets.
//!
//! A [`StoreServer`] is a service of [`resp_net::Loop`]. For each ready connection it calls
//! [`answer`], which calls [`resp_wire::serve::serve_client`] with its [`Store`]. The contract of
//! that function states which bytes are read, which replies are written and which bytes still wait if
//! the socket accepts no more.
//!
//! With a seed for `torture`, the server replies in other encodings of the same values and in pieces, for the
//! tests of clients.
//!
//! The store of a [`Server`] is a hub, and that of a [`TestServer`] are 16 databases.
#![tactic(auto)]

mod connection;
mod encodings;
mod server;
mod store;
mod torture;

pub use connection::{Incoming, PIECE, Rest, Room, answer};
pub use resp_net::service::Next;
pub use server::{Server, ServerSettings, StoreServer, TestServer};
pub use store::Store;
