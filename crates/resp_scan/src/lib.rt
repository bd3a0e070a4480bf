//! An incremental parser of RESP2 and RESP3. It reads bytes in pieces of any size and returns
//! events. It never allocates.
//!
//! A [`scanner::Scanner`] keeps a few numbers for the current value and one small frame for each
//! open aggregate, at most 128. It does not keep content: an event borrows content from the
//! caller's piece. The scanner reports an error at the first byte that no value within the limits
//! could contain there.
#![tactic(auto)]

mod aggregates;
mod big_numbers;
mod chunks;
mod content;
mod doubles;
pub mod event;
mod frame;
mod heads;
mod integers;
pub mod laws;
mod lines;
mod listen;
pub mod listener;
mod literals;
mod machine;
mod needed;
pub mod nobody;
mod receiver;
pub mod scanner;
mod short;
mod short_arrays;
pub mod slot;
mod start;
mod step;
mod step_into;
mod turn;
pub mod whole;

pub use event::{Busy, Event, Fault, ScanError, Scanned, Step, TextKind};
pub use listener::Listener;
pub use resp_value::kind::OpenKind;
pub use scanner::Scanner;
pub use slot::Slot;
