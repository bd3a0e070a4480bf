//! The command line of the program `resp`: its requests with their options, and the lines and exit
//! statuses of its errors.
//!
//! [`words::read_words`] reads a command line and returns an [`asked::Asked`].
#![tactic(auto)]

pub mod asked;
pub mod asking;
mod bad_address;
pub mod cutting;
pub mod duration;
mod instead;
pub mod laws;
pub mod listen_address;
mod names;
pub mod options;
mod parameter;
mod parser;
pub mod proxying;
pub mod server_address;
pub mod serving;
mod sizes;
pub mod style;
mod subcommands;
mod tables;
pub mod tapping;
pub mod tool_error;
pub mod traffic;
mod units;
pub mod words;
