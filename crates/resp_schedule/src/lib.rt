//! The decisions of a loop over many connections, without sockets.
//!
//! A [`Schedule`] knows which places have a connection, which of them are visited next, and whether
//! connections wait to be accepted. A loop asks it what to do, reads and writes the sockets, and
//! reports what happened.
//!
//! A round visits each place that is queued when the round begins, once and in order. A place that
//! is queued again is visited in the next round. A place that is closed is not used again in the
//! same round, so a late event of its old connection never reaches a new one.
//!
//! [`Attempts`] decides when a connection to a server is tried again, and when it is given up.
//! [`Allowance`] limits how many events of one kind are reported in a second.
#![tactic(auto)]

pub mod allowance;
pub mod attempts;
pub mod laws;
mod queue;
mod schedule;

pub use allowance::Allowance;
pub use attempts::{Attempts, Phase, Quiet};
pub use schedule::{Backlog, OpenError, PlaceState, Schedule, Wait};
