//! A connection of a capture whose traffic is printed.

use crate::replay_view::ReplayView;
use crate::watcher::Watcher;
use resp_capture::stream::MOST_PARTS;
use resp_capture::{CapturedConnection, End, Endpoint, Placed, Segment, StreamError};
use resp_io::device::Sink;
use resp_tap::Printing;
use resp_tap::watch::Side;
use std::alloc::AllocError;

/// A connection of a capture.
#[derive(Drop)]
pub(crate) struct Replayed {
    pub(crate) connection: CapturedConnection,
    watcher: Watcher,
    /// The client's number, and how its traffic is printed.
    printing: Printing,
    /// Whether its bytes are read, which is so until some are missing.
    is_read: bool,
    /// Whether the bytes of the server are read. If the capture lacks the beginning of the
    /// connection, the bytes before the first bytes of the client are not read, because they are
    /// replies to commands that the capture lacks.
    reads_replies: bool,
    /// Whether a side has ended.
    is_half_closed: bool,
}

/// Returns the side of the bytes that an end sends.
fn side_of(end: End) -> Side {
    match end {
        End::Client => Side::Client,
        End::Server => Side::Server,
    }
}

impl Replayed {
    /// Returns a connection before anything was read. `is_whole` says whether the capture has its
    /// beginning.
    pub(crate) fn new(
        connection: CapturedConnection,
        watcher: Watcher,
        printing: Printing,
        is_whole: bool,
    ) -> Replayed {
        Replayed {
            connection,
            watcher,
            printing,
            is_read: true,
            reads_replies: is_whole,
            is_half_closed: false,
        }
    }

    /// Returns the client's number, from 1.
    pub(crate) fn number(&self) -> u64 {
        self.printing.client
    }

    /// Returns the addresses of the client and of the server.
    pub(crate) fn ends(&self) -> (Endpoint, Endpoint) {
        (self.connection.client(), self.connection.server())
    }

    /// Prints the bytes of a segment that an end has sent, and the bytes that waited for them.
    ///
    /// # Errors
    ///
    /// `AllocError` if an allocation fails.
    pub(crate) fn print_segment<W: Sink>(
        &mut self,
        end: End,
        segment: &Segment<'_>,
        view: &mut ReplayView,
        out: &mut W,
    ) -> Result<(), AllocError> {
        if !self.is_read {
            return Ok(());
        }
        match self.connection.take(end, segment) {
            Ok(Placed::Given(bytes)) => {
                self.print_bytes(end, bytes, view, out);
                self.print_held(end, view, out);
                Ok(())
            }
            Ok(Placed::Waits) | Err(StreamError::TooFar) => Ok(()),
            Err(StreamError::Full) => self.print_missing(end, view, out),
            Err(StreamError::OutOfMemory) => Err(AllocError),
        }
    }

    /// Prints bytes of an end.
    fn print_bytes<W: Sink>(&mut self, end: End, bytes: &[u8], view: &mut ReplayView, out: &mut W) {
        if bytes.is_empty() {
            return;
        }
        if end == End::Client {
            self.reads_replies = true;
        }
        if self.reads_replies {
            let mut printer = view.printer(out);
            printer.print(&mut self.watcher, self.printing, side_of(end), bytes);
        }
    }

    /// Prints the bytes of an end that no longer wait.
    fn print_held<W: Sink>(&mut self, end: End, view: &mut ReplayView, out: &mut W) {
        for _ in 0..MOST_PARTS {
            let Some(bytes) = self.connection.next_held(end) else {
                return;
            };
            self.print_bytes(end, bytes.as_slice(), view, out);
        }
    }

    /// Prints how many bytes of an end are missing, if bytes after them wait or the end has sent its
    /// last byte. Then no more bytes of the connection are read, because it is not known which
    /// command a reply belongs to.
    ///
    /// # Errors
    ///
    /// `AllocError` if an allocation fails.
    fn print_missing<W: Sink>(
        &mut self,
        end: End,
        view: &mut ReplayView,
        out: &mut W,
    ) -> Result<(), AllocError> {
        let missing = match self.connection.skip(end) {
            Some(missing) => Some(missing),
            None => self.connection.missing_to_end(end),
        };
        match missing {
            Some(missing) if self.is_read => {
                self.is_read = false;
                view.print_missing(self.number(), side_of(end), missing, out)
            }
            _ => Ok(()),
        }
    }

    /// Prints a line if this end has sent its last byte and the other end has not. Returns whether
    /// both ends have sent their last byte.
    pub(crate) fn print_end<W: Sink>(
        &mut self,
        end: End,
        view: &mut ReplayView,
        out: &mut W,
    ) -> bool {
        if !self.connection.has_ended(end) {
            return false;
        }
        if !self.is_half_closed {
            self.is_half_closed = true;
            let mut printer = view.printer(out);
            printer.print_end(&self.watcher, self.number(), side_of(end));
        }
        self.connection.has_ended(End::Client) && self.connection.has_ended(End::Server)
    }

    /// Prints how many bytes are missing before bytes that wait, at the end of the connection or of
    /// the capture.
    ///
    /// # Errors
    ///
    /// `AllocError` if an allocation fails.
    pub(crate) fn finish<W: Sink>(
        &mut self,
        view: &mut ReplayView,
        out: &mut W,
    ) -> Result<(), AllocError> {
        self.print_missing(End::Client, view, out)?;
        self.print_missing(End::Server, view, out)
    }

    /// Prints that the connection is gone.
    pub(crate) fn print_gone<W: Sink>(&self, view: &mut ReplayView, out: &mut W) {
        view.printer(out).print_gone(&self.watcher, self.number());
    }
}
