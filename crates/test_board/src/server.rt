//! A server that knows only the bytes that it was sent.
//!
//! A command is digits, a comma, digits and a semicolon. The reply to it is the command with `+` in
//! front.

use std::alloc::{AllocError, Global};
use std::collections::VecDeque;

#[derive(Drop)]
pub(crate) struct Server {
    alloc: Global,
    /// The bytes of a command that has no end yet.
    begun: Vec<u8>,
    /// The commands that have no reply yet.
    pub(crate) commands: VecDeque<Vec<u8>>,
}

impl Server {
    pub(crate) fn new(alloc: Global) -> Server {
        Server {
            alloc,
            begun: Vec::new(alloc),
            commands: VecDeque::new(alloc),
        }
    }

    /// Takes bytes that were sent.
    pub(crate) fn receive(&mut self, piece: &[u8]) -> Result<(), AllocError> {
        for byte in piece {
            self.begun.push(*byte)?;
            if *byte == b';' {
                let command = self.begun.as_slice().to_vec(self.alloc)?;
                self.commands.push_back(command)?;
                self.begun.clear();
            }
        }
        Ok(())
    }

    /// Returns the number of commands without a reply of which a byte has come.
    pub(crate) fn begun(&self) -> usize {
        self.commands.len() + usize::from(!self.begun.is_empty())
    }

    /// Returns the reply to the first command that has none.
    pub(crate) fn reply(&mut self) -> Result<Option<Vec<u8>>, AllocError> {
        let Some(command) = self.commands.pop_front() else {
            return Ok(None);
        };
        let mut reply = Vec::new(self.alloc);
        reply.push(b'+')?;
        reply.extend_from_slice(&command)?;
        Ok(Some(reply))
    }
}
