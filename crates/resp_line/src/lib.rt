//! The words of a line, with the quoting of redis-cli and of the lines that redis-server accepts as commands.
//!
//! [`words_of`] returns the words of a line. [`next_inline`] reads a command that is a line.
#![tactic(auto)]

mod inline;
mod line;

pub use inline::{InlineCommand, InlineError, begins_line, next_inline};
pub use line::{LineError, words_of};
