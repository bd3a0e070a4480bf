//! The table of the commands of Redis, and the slots of keys in a Redis Cluster.
//!
//! [`entry`] finds a command by its name, in upper, lower or mixed case. Its [`Command`] says
//! whether clients that send it can share a connection to the server, and where its keys are. The
//! table is that of redis-server 7.0.15. [`slot`] returns the slot of a key, and [`glob::matches`] whether a key matches a
//! pattern of KEYS. No function allocates.
#![tactic(auto)]

mod arguments;
mod checksum;
mod class;
mod command;
pub mod glob;
mod key;
mod key_list;
mod keys;
pub mod laws;
mod lookup;
mod migrate;
mod options;
mod sorts;
mod table;

pub use arguments::Arguments;
pub use checksum::crc16;
pub use class::{Listing, class_of, listing_of};
pub use command::{Class, Command, Keys, Merge, Search, Split};
pub use key::{hashed_part, slot};
pub use key_list::{KeyWords, key_words};
pub use keys::{KeyPlaces, Places, fixed_key_places, key_places};
pub use lookup::{entry, place, row_of, subcommand};
pub use table::{COMMANDS, SUBCOMMANDS};
