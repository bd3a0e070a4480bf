//! Small servers without input and output.
//!
//! A [`Hub`] has sessions over one store. A session receives the bytes of a client and queues its
//! replies. [`Databases`] are 16 stores, for tests of programs that need Redis. A [`Client`] of
//! them may select one of them, and sends arrays or lines.
#![tactic(auto)]

mod answer;
mod answer_value;
mod database;
mod databases;
mod entries;
mod error;
mod hub;
mod operation;
mod push;
mod reader;
mod refusal;
pub mod reply;
mod row;
mod run;
mod session;
mod store;
mod stored;
mod turn;
mod words;

pub use databases::Databases;
pub use databases::client::Client;
pub use entries::Entries;
pub use error::{HubError, NoSession, OpenError, PushError};
pub use hub::{Handled, Hub, Sent, Taken};
