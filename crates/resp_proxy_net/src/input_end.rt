//! The end of standard input.

use mio::unix::SourceFd;
use mio::{Interest, Registry};
use resp_net::service::INPUT;
use std::io::{ErrorKind, Read};
use std::os::fd::RawFd;

/// The descriptor of standard input.
const STANDARD_INPUT: RawFd = 0;

/// Waits for the end of standard input.
#[derive(Drop)]
pub(crate) struct InputEnd<I> {
    input: I,
    is_registered: bool,
}

impl<I: Read> InputEnd<I> {
    /// Returns an `InputEnd` of standard input, before the first read.
    pub(crate) fn new(input: I) -> Self {
        InputEnd {
            input,
            is_registered: false,
        }
    }

    /// Registers standard input at the first call. Returns true if it can't be registered, as for a
    /// file, whose end never has to be waited for.
    pub(crate) fn is_file(&mut self, registry: &Registry) -> bool {
        if self.is_registered {
            return false;
        }
        self.is_registered = true;
        let mut source = SourceFd(&STANDARD_INPUT);
        registry
            .register(&mut source, INPUT, Interest::READABLE)
            .is_err()
    }

    /// Returns whether standard input, which is ready, has ended. Otherwise it reads some bytes and drops
    /// them.
    pub(crate) fn has_come(&mut self, is_at_end: bool) -> bool {
        if is_at_end {
            return true;
        }
        let mut piece = [0; 4_096];
        match self.input.read(&mut piece) {
            Ok(count) => count == 0,
            Err(error) => error.kind() != ErrorKind::WouldBlock,
        }
    }
}
