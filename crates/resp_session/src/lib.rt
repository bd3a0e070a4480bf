//! Definitions of commands, replies, sessions and worlds, and their laws.
//!
//! A *session* is the server's state of one connection. A *world* is a store with several clients
//! and their sessions. [`words::asked_by`] computes in memory which command a value is.
#![tactic(auto)]

pub mod laws;
pub mod names;
pub mod words;
