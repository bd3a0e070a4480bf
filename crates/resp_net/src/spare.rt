//! A descriptor that is kept for a connection to the server.

use crate::backend::Address;
use crate::stream::Stream;
use mio::Poll;
use std::io;
use std::net::Net;

/// A descriptor that is closed if no other is left for a connection to the server.
#[derive(Drop)]
pub struct Spare {
    poll: Option<Poll>,
    /// Whether the descriptor is opened again.
    is_kept: bool,
}

impl Spare {
    /// Opens the descriptor, if one is left.
    pub fn new(net: &impl Net) -> Self {
        Spare {
            poll: Poll::new(net).ok(),
            is_kept: true,
        }
    }

    /// Returns a `Spare` without a descriptor. None is opened later.
    pub fn none() -> Self {
        Spare {
            poll: None,
            is_kept: false,
        }
    }

    /// Starts to connect to a server. If that fails, it is tried once more after the spare
    /// descriptor is closed.
    ///
    /// # Errors
    ///
    /// The error of the system.
    pub fn connect(&mut self, net: &impl Net, server: &Address) -> io::Result<Stream> {
        let connected = Stream::connect(net, server);
        if connected.is_ok() || self.poll.is_none() {
            return connected;
        }
        self.poll = None;
        let connected = Stream::connect(net, server);
        self.keep(net);
        connected
    }

    /// Opens the descriptor again, if it is closed and one is left.
    pub fn keep(&mut self, net: &impl Net) {
        if self.is_kept && self.poll.is_none() {
            self.poll = Poll::new(net).ok();
        }
    }
}
