//! The subjects on which rows run.

use crate::cut::Cut;
use anyhow::Result;
use std::alloc::Global;

/// A subject on which rows run, such as a client or a decoder.
pub(crate) trait Subject: Drop {
    /// Makes a new subject. Each run of a conversation begins with it.
    fn new(alloc: Global) -> Result<Self>;

    /// Returns whether the text of a row of this name is cut.
    fn is_cut(name: &str) -> bool;

    /// Runs a row, given the name of its call and its arguments, and adds the lines that it prints,
    /// each with LF. An error, such as an unknown or badly written row, is printed too, as a line
    /// `error: ..`.
    fn run(&mut self, name: &str, given: &str, cut: Cut, said: &mut String) -> Result<()>;
}
