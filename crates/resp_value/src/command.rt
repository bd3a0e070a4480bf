//! Commands, which a client sends to a server.

ghost use Rattle.std.specs.Prelude.{◌≡◌, ◌↔◌, ◌<◌, length, IsOk, IfOk, IfErr};
ghost use Rattle.resp_value.specs.Words.{texts_of};

use std::alloc::{AllocError, Global};
use thiserror::Error;

/// A command: its name and its arguments, each any bytes. There is at least the name. It is sent as
/// an array of bulk strings (Redis serialization protocol specification, "Sending commands to a
/// Redis server").
#[derive(Debug, PartialEq, Eq, Drop)]
pub struct Command {
    words: Vec<Vec<u8>>,
    ghost has_name: { 0 < length words.items },
}

/// The error of [`Command::new`]: the command has no word.
#[derive(Debug, PartialEq, Eq, Drop, Error)]
#[error("the command has no words")]
pub struct BadCommand {
    /// The words that were passed, an empty list.
    pub words: Vec<Vec<u8>>,
}

impl Command {
    ghost use Rattle.resp_value.specs.Commands.{words_of};

    /// Creates a command of the given words, the name first. Does not allocate.
    ///
    /// # Errors
    ///
    /// `BadCommand` if and only if there is no word. It returns the list.
    ///
    /// # Examples
    ///
    /// From [samples](../../samples/src/values.rt):
    ///
    /// ```rust
    /// let words = vec![in alloc; b"INCR".to_vec(alloc)?, b"hits".to_vec(alloc)?]?;
    /// let command = Command::new(words)?;
    /// println!(rt; "{} words", command.words().len())?;
    /// ```
    pub fn new(words: Vec<Vec<u8>>) -> Result<Command, BadCommand>
        ensures has_word { IsOk result ↔ (0 < length words.items) }
        ensures same_words { IfOk result (λ command. words_of command ≡ texts_of words.items) }
        ensures handed_back { IfErr result (λ bad. bad.words ≡ words) }
    {
        if words.is_empty() {
            Err(BadCommand { words })
        } else {
            Ok(Command { words })
        }
    }

    /// Returns the words, the name first.
    pub fn words(&self) -> &[Vec<u8>]
        ensures same_words { texts_of result.now ≡ words_of self.now }
        ensures has_word { 0 < length result.now }
    {
        self.words.as_slice()
    }

    /// Copies the command into newly allocated memory.
    ///
    /// # Errors
    ///
    /// `AllocError` if an allocation fails.
    pub fn try_clone(&self, alloc: Global) -> Result<Command, AllocError>
        ensures { IfOk result (λ copy. words_of copy ≡ words_of self.now) }
    {
        let mut words = Vec::new(alloc);
        for word in self.words() {
            words.push(Vec::from_slice(alloc, word.as_slice())?)?;
        }
        Ok(Command { words })
    }
}
