//! Arguments that several parts use.

use resp_value::command::Command;
use std::alloc::{AllocError, Global};

/// Makes a word of each text.
pub(crate) fn words(alloc: Global, texts: &[&[u8]]) -> Result<Vec<Vec<u8>>, AllocError> {
    let mut words = Vec::new(alloc);
    for text in texts {
        words.push(text.to_vec(alloc)?)?;
    }
    Ok(words)
}

/// Makes a command with each text as a word.
pub(crate) fn command(alloc: Global, texts: &[&[u8]]) -> Result<Command, AllocError> {
    Command::new(words(alloc, texts)?).map_err(|_| AllocError)
}
