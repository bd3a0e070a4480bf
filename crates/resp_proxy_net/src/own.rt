//! The connection to the server that one client of the proxy has for itself.

ghost use Rattle.std.specs.Prelude.{◌<◌, length};

use crate::arrival::{Arrival, Arrived, REJECTED};
use bytes::BytesMut;
use resp_net::lane::{Lane, Progress, TURNS, next_of};
use resp_net::non_blocking::Output;
use resp_net::service::Next;
use resp_net::stream::Stream;
use std::alloc::Global;
use std::io;
use std::io::{ErrorKind, Write};
use std::time::Duration;

/// A connection to the server for one client. The bytes of both sides are forwarded unchanged.
#[derive(Drop)]
pub(crate) struct Own {
    server: Arrival,
    /// Whether the connection is in its setting.
    is_open: bool,
    /// The time since which the client has waited for it.
    since: Duration,
    alloc: Global,
    /// The bytes that the client sent before, from its first command on that needs this connection,
    /// and that were not written to the server yet.
    first: BytesMut,
    /// Whether nothing more is read from the client.
    is_shut: bool,
    to_server: Lane,
    to_client: Lane,
}

impl Own {
    /// Returns a pending connection, for which the client has waited since this time. `first` are
    /// the bytes that are sent first.
    pub(crate) fn new(alloc: Global, server: Arrival, since: Duration, first: BytesMut) -> Self {
        Own {
            server,
            is_open: false,
            since,
            alloc,
            first,
            is_shut: false,
            to_server: Lane::new(alloc),
            to_client: Lane::new(alloc),
        }
    }

    /// Returns the time since which the client has waited for the connection.
    pub(crate) fn since(&self) -> Duration {
        self.since
    }

    /// Continues to connect and to log in, and forwards bytes once the connection is open. Each
    /// piece is read into the buffer. If `is_late` is true, a connection that is not open is given
    /// up.
    ///
    /// # Errors
    ///
    /// Why the connection was not opened: the error of the system, an error of kind
    /// `PermissionDenied` if the server rejected the login, an error of kind `ConnectionAborted`
    /// if it closed the connection meanwhile, or an error of kind `TimedOut`.
    pub(crate) fn visit(
        &mut self,
        client: &Stream,
        is_at_end: bool,
        is_late: bool,
        buffer: &mut [u8],
    ) -> io::Result<Next>
        requires { 0 < length buffer.old }
    {
        if !self.is_open {
            match self.server.go_on()? {
                Arrived::No if is_late => return Err(ErrorKind::TimedOut.into()),
                Arrived::No => return Ok(Next::Wait),
                Arrived::Rejected => return Err(self.server.rejection(REJECTED)),
                Arrived::Yes => self.is_open = true,
            }
        }
        Ok(self.forward(client, is_at_end, buffer))
    }

    /// Stops reading from the client, and tells the server so.
    pub(crate) fn shut(&mut self) {
        self.is_shut = true;
    }

    /// Forwards the bytes of both sides, until each call would block or the allowed number of
    /// pieces was forwarded.
    fn forward(&mut self, client: &Stream, is_at_end: bool, buffer: &mut [u8]) -> Next
        requires { 0 < length buffer.old }
    {
        for _ in 0..TURNS {
            let to_server = self.visit_server(client, is_at_end, buffer);
            let to_client = self
                .to_client
                .visit(self.server.stream(), client, is_at_end, buffer);
            let have_ended = self.to_server.has_ended() && self.to_client.has_ended();
            if let Some(next) = next_of(to_server, to_client.progress, have_ended) {
                return next;
            }
        }
        Next::Again
    }

    /// Writes to the server the bytes that the client sent before, and then those that it sends.
    fn visit_server(&mut self, client: &Stream, is_at_end: bool, buffer: &mut [u8]) -> Progress
        requires { 0 < length buffer.old }
    {
        if !self.first.is_empty() {
            return self.write_first();
        }
        if self.is_shut {
            self.to_server.end(self.server.stream());
        }
        self.to_server
            .visit(client, self.server.stream(), is_at_end, buffer)
            .progress
    }

    /// Writes a part of the bytes that the client sent before.
    fn write_first(&mut self) -> Progress {
        match write_some(self.server.stream(), self.first.as_slice()) {
            Some(0) => return Progress::Waits,
            Some(count) => self.first.advance(count.min(self.first.len())),
            None => return Progress::Failed,
        }
        if self.first.is_empty() {
            self.first = BytesMut::new(self.alloc);
        }
        Progress::MayGoOn
    }
}

/// Writes a part of these bytes. Returns the number of bytes, or `None` if the
/// socket failed.
fn write_some(stream: &Stream, bytes: &[u8]) -> Option<usize> {
    let mut writer = Output::new(stream);
    match writer.write(bytes) {
        Ok(count) if !writer.has_failed() => Some(count),
        Err(_) if writer.would_wait() => Some(0),
        _ => None,
    }
}
