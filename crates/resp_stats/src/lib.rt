//! Counts of commands by name, with the delays of their replies.
//!
//! [`Counts`] has a row for each name: the calls, the errors, the bytes of both sides and the delays.
//! It keeps at most 256 names, so it needs a bounded amount of memory. [`table_of`] returns the rows
//! as a table for people.
//!
//! A [`Histogram`] counts times in microseconds. It needs the same memory for any number of times,
//! and returns a percentile with an error of at most a sixteenth.
#![tactic(auto)]

mod counts;
mod histogram;
mod name;
mod range;
mod row;
mod table;
mod units;

pub use counts::Counts;
pub use histogram::Histogram;
pub use name::{Name, name_of};
pub use row::{Call, CommandRow};
pub use table::table_of;
