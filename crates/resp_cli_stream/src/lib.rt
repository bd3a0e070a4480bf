//! The parts of the program `resp` that read streams: they show, check and rewrite streams of RESP,
//! the Redis wire protocol.
//!
//! [`show::show`], [`json::show_json`], [`check::check`] and [`canon::canon`] read from a
//! [`LiveSource`](resp_io::live::LiveSource) and write to a
//! [`LiveSink`](resp_io::live::LiveSink). [`command_line::command`] runs a command line.
#![tactic(auto)]

pub mod canon;
pub mod check;
pub mod command_line;
mod draft;
pub mod explain;
mod hint;
pub mod json;
pub mod laws;
mod lines;
mod printer;
mod rendering;
mod short_line;
pub mod show;
mod starts;
mod stream;
mod valid;
pub mod watched;
