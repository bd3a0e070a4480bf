//! The replies to many clients over several connections to servers.
//!
//! A [`Queue`] sends the commands of many clients to one server, whole and in order, and names the
//! command that the next reply is for. A [`Desk`] has the replies to one client's commands, which
//! arrive in any order, and gives them in the order of the commands. A [`Board`] has the desks of all
//! clients and the queues of all lines. They read and write no sockets and know no grammar.
#![tactic(auto)]

mod begin;
mod board;
mod bounds;
mod clients;
mod desk;
mod early;
mod error;
pub mod laws;
mod queue;
mod rows;
mod seat;
mod text;
mod ticket;

pub use board::Board;
pub use bounds::Bounds;
pub use desk::{Desk, DeskError, TooMany};
pub use error::{AskError, OpenError, OwnError, ReleaseError, ReplyError};
pub use queue::Queue;
pub use ticket::{ClientId, LineId, Ticket};
