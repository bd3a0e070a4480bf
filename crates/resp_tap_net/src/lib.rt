//! A window between clients and a server, which prints their traffic, and a replay of captured traffic.
//!
//! A [`Window`] is a service of [`resp_net::Loop`]. It forwards connections to another server with
//! [`resp_net::way::Way::visit`], and prints the commands, replies and pushes that
//! [`resp_tap::Tap`] reports.
//!
//! A [`Replay`] prints the traffic in a capture as a window prints traffic that it forwards.
#![tactic(auto)]

mod keyboard;
mod open_connections;
mod packet_clock;
mod printer;
mod recording;
mod remark;
mod replay;
mod replay_view;
mod replayed;
mod shown;
mod stats;
mod tapped;
mod timing;
mod view;
mod watcher;
mod window;

pub use replay::{Replay, ReplayError, ReplaySettings};
pub use stats::Tables;
pub use window::{AfterFailure, TapSettings, Window};
