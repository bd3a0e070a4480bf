//! A pipelining client of RESP2 and RESP3.
//!
//! A [`client::Client`] queues commands and matches each reply to its command. It does no input and
//! output itself: the caller writes [`client::Client::out`] and feeds the bytes received, in pieces
//! of any size.
#![tactic(auto)]

pub mod client;
mod feed;
pub mod heard;
mod names;
mod send;
mod send_error;
pub mod sink;

pub use client::Client;
pub use heard::{Heard, What};
pub use resp_scan::event::Fault;
pub use send_error::SendError;
pub use sink::{OutOfMemory, PushList, PushSink};
