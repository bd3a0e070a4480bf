//! Finds whole values in bytes that arrive in pieces of any size, without building the values.
//!
//! [`Frames::next`] finds the end of the next value of a connection and lends its bytes. A value
//! that is complete in its piece is not copied. Only a connection with an incomplete value holds
//! memory. [`Unfinished`] holds the bytes of a client that sends lines too.
#![tactic(auto)]

mod begun;
mod commands;
mod error;
mod frame;
mod frames;
mod heads;
mod keys;
mod known_head;
pub mod laws;
mod unfinished;
mod words;

pub use begun::Begun;
pub use error::FrameError;
pub use frame::Frame;
pub use frames::Frames;
pub use unfinished::Unfinished;
pub use words::{CommandFrame, CommandWords, Request, command_of_piece};
