//! The client's and the server's end of a connection, over any reader and writer, and worlds of
//! clients and sessions.
//!
//! [`ask::ask`] writes a client's requests and reads the replies. [`serve::serve`] reads commands
//! and writes the replies, and [`serve::serve_client`] does so for any server that implements
//! [`Sessions`], as [`databases::serve`] does for the 16 databases. A [`world::World`] simulates several clients of one server, with events that
//! happen one after another.
#![tactic(auto)]

pub mod ask;
pub mod asked;
mod carrying;
pub mod databases;
mod end;
pub mod error;
pub mod event;
mod hear;
mod hub_sessions;
pub mod laws;
pub mod link;
mod pieces;
pub mod serve;
pub mod sessions;
pub mod world;

pub use asked::{Request, Responses};
pub use error::{AskError, ServeError};
pub use event::{Event, Outcome, Stop};
pub use link::{Carried, Direction, Link, LinkFault, MemoryLink, TcpLink};
pub use serve::Served;
pub use sessions::Sessions;
pub use world::World;
