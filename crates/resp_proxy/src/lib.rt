//! A proxy that shares connections to a server among many clients, without sockets.
//!
//! [`Proxy::visit_client`] and [`Proxy::visit_server`] make at most one read and one write over any
//! reader and writer. [`Proxy::from_client`] and [`Proxy::from_server`] take bytes that were read.
#![tactic(auto)]

mod answer;
mod attaching;
mod carrying;
mod client;
mod commands;
mod counts;
mod error;
mod error_counts;
mod giving;
mod hello;
mod intake;
mod latency;
mod lines;
mod local;
mod moving;
mod name_counts;
mod opening;
mod opening_replies;
mod part;
mod probing;
mod proxy;
mod reaction;
mod replies;
mod route;
mod server_line;
mod setting;
mod settings;
mod taking;
mod told;
mod visit;
mod wish;

pub use answer::no_more;
pub use client::Client;
pub use counts::{Counted, Numbers};
pub use error::{AttachError, ClientError, CommandName, EnterError, RenewError, ServerError};
pub use giving::WriteOutcome;
pub use latency::Times;
pub use moving::is_client_name;
pub use opening::{Ending, Opening, OpeningProgress};
pub use opening_replies::OpeningError;
pub use proxy::Proxy;
pub use server_line::ServerLine;
pub use setting::{Login, Setting};
pub use settings::Settings;
pub use visit::{ClientVisit, Read, ServerVisit};
pub use wish::{Account, Wish, WishCommand, next_wish};
