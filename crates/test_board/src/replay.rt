//! What each client must get, kept in another way: a list of answers for each client.

use std::alloc::{AllocError, Global};

/// A client: its commands in order, each with its answer once there is one.
#[derive(Drop)]
pub(crate) struct Expected {
    pub(crate) answers: Vec<Option<Vec<u8>>>,
    /// The bytes that the client got.
    pub(crate) got: Vec<u8>,
}

impl Expected {
    pub(crate) fn new(alloc: Global) -> Expected {
        Expected {
            answers: Vec::new(alloc),
            got: Vec::new(alloc),
        }
    }

    /// Returns whether these bytes, after those that the client got, are its answers up to the first
    /// that is missing.
    pub(crate) fn is_due(&self, alloc: Global, waiting: &[u8]) -> Result<bool, AllocError> {
        let mut due = Vec::new(alloc);
        for answer in &self.answers {
            match answer {
                Some(text) => due.extend_from_slice(text)?,
                None => break,
            }
        }
        let got = self.got.len();
        if due.len() != got + waiting.len() {
            return Ok(false);
        }
        Ok(due.starts_with(&self.got) && due.ends_with(waiting))
    }

    /// Returns the number of commands from the first one without an answer on.
    pub(crate) fn waiting(&self) -> u64 {
        let mut front = 0;
        for answer in &self.answers {
            if answer.is_none() {
                break;
            }
            front += 1;
        }
        self.answers.len() as u64 - front
    }
}
