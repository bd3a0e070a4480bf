//! The traffic between a client and a server: bytes are forwarded unchanged, and their commands,
//! replies and pushes are reported.
//!
//! [`tap::Tap`] has no socket. It receives the bytes that both sides of a connection send, and
//! reports each command, reply and push. It knows how long each command has waited for its reply.
//! [`watch::watch`] prints the traffic as `resp tap` does: as text, or as JSON with a [`JsonTap`]. With
//! a [`CountedTap`] it counts the commands.
#![tactic(auto)]

mod called;
pub mod client_name;
pub mod connection;
pub mod counted;
mod date;
pub mod end;
pub mod filter;
pub mod filtered;
pub mod json_line;
pub mod json_tap;
mod keys;
pub mod kind;
pub mod laws;
mod line;
mod lines;
pub mod moment;
mod note;
mod notice;
pub mod print;
pub mod screen;
pub mod secrets;
pub mod seen;
mod segment;
mod shown;
pub mod shown_part;
mod side_reader;
pub mod stamp;
mod taken;
pub mod tap;
pub mod watch;

pub use client_name::ClientName;
pub use connection::ConnectionTap;
pub use counted::CountedTap;
pub use end::Cut;
pub use filter::Filter;
pub use filtered::FilteredTap;
pub use json_tap::JsonTap;
pub use moment::{Moment, Utc};
pub use print::{Printing, TextOptions};
pub use seen::{Place, Seen, Step};
pub use shown_part::ShownPart;
pub use tap::Tap;
