//! Sends commands to a server and prints the replies: `resp ask`, over any reader and writer.
//!
//! [`ask::ask_command`] sends one command. [`exchange::exchange`] writes the commands that a client
//! has queued and prints the replies as they arrive. [`talk::Talk`] sends the commands of an input, which
//! are lines or RESP.
#![tactic(auto)]

pub mod ask;
pub mod commands;
pub mod error;
pub mod exchange;
pub mod failure;
pub mod hear;
pub mod laws;
mod lined;
pub mod lines;
pub mod raw;
pub mod talk;
mod tell;
pub mod telling;

pub use ask::ask_command;
pub use error::ExchangeError;
pub use failure::Failure;
pub use lines::InputLines;
pub use raw::RawCommands;
pub use talk::{Greeting, Talk};
pub use telling::{ReplyForm, Telling};
