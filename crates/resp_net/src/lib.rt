//! A loop over many connections in one thread, over non-blocking sockets, and what its services share.
//!
//! A [`Service`] says how connections are made, visited and closed. A [`Loop`] listens on an address
//! and visits the connections of its service. A [`resp_schedule::Schedule`] decides which connection
//! it visits next, when it accepts connections, and when it waits.
//!
//! A [`drain::Drain`] says how far a service has drained, and [`deadlines::Deadlines`] which connections are
//! visited at a given time.
//!
//! A [`Backend`] is a server that connections are forwarded to, with its addresses. A [`lane::Lane`] forwards
//! the bytes of one socket to another, as the contract of [`way::Way::visit`] says. A [`Terminal`] writes to
//! standard output without blocking.
#![tactic(auto)]

pub mod backend;
pub mod cause;
pub mod closing;
pub mod cutter;
pub mod deadlines;
pub mod descriptors;
pub mod drain;
pub mod event_loop;
pub mod lane;
pub mod laws;
mod listener;
pub mod non_blocking;
mod own_address;
pub mod pieces;
pub mod register;
pub mod service;
pub mod spare;
pub mod stop_signals;
pub mod stream;
pub mod terminal;
pub mod way;

pub use backend::{Address, Backend};
pub use cause::{SystemCause, cause_of};
pub use event_loop::Loop;
pub use service::{Next, Service};
pub use terminal::Terminal;
