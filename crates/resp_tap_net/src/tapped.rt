//! One forwarded connection.

ghost use Rattle.std.specs.Prelude.{◌<◌, length};

use crate::printer::Printer;
use crate::recording::Recording;
use crate::watcher::Watcher;
use mio::Registry;
use resp_capture::{End, Recorded, SegmentKind};
use resp_io::device::Sink;
use resp_net::backend::Attempt;
use resp_net::closing::drop_input;
use resp_net::lane::{Lane, Progress, TURNS, next_of};
use resp_net::non_blocking::is_open;
use resp_net::pieces::Pieces;
use resp_net::register::register;
use resp_net::service::{Next, Tokens};
use resp_net::stream::Stream;
use resp_tap::Printing;
use resp_tap::watch::Side;
use std::alloc::Global;
use std::io;
use std::net::Shutdown;
use std::rt::Clock;
use std::time::Duration;

/// Whether the connection to the server is open.
#[derive(Drop)]
pub(crate) enum Opening {
    /// The server has not accepted the connection yet.
    Connecting,
    /// The connection is open. `is_new` is true the first time.
    Connected { is_new: bool },
    /// The connection could not be opened.
    Failed(io::Error),
}

/// The sockets of a connection.
#[derive(Drop)]
pub(crate) struct Sockets {
    pub(crate) client: Stream,
    pub(crate) server: Stream,
    /// The tokens under which they are registered.
    pub(crate) tokens: Tokens,
    /// The attempt to connect to the server that the second one belongs to.
    pub(crate) attempt: Attempt,
}

/// The connection of a client, and the connection to the server for it.
#[derive(Drop)]
pub(crate) struct Tapped {
    sockets: Sockets,
    /// Whether the connection to the server is open. Nothing is read from the client before that.
    is_connected: bool,
    /// Whether one of the inputs may have ended. A socket reports this only once.
    may_have_ended: bool,
    to_server: Lane,
    to_client: Lane,
    /// The pieces in which the client gets the bytes of the server.
    pub(crate) pieces: Pieces,
    watcher: Watcher,
    /// The client's number, and how its traffic is printed.
    printing: Printing,
    /// The connection as it is recorded.
    recorded: Recorded,
    /// Whether nothing more is read from the client, since the tap drains.
    is_shut: bool,
    /// The time at which the connection is closed if its client does not close its side before, once nothing
    /// more is sent to the client.
    until: Option<Duration>,
}

impl Tapped {
    /// Returns a connection before anything was read.
    pub(crate) fn new(
        alloc: Global,
        sockets: Sockets,
        pieces: Pieces,
        watcher: Watcher,
        printing: Printing,
        recorded: Recorded,
    ) -> Self {
        Tapped {
            sockets,
            is_connected: false,
            may_have_ended: false,
            to_server: Lane::new(alloc),
            to_client: Lane::new(alloc),
            pieces,
            watcher,
            printing,
            recorded,
            is_shut: false,
            until: None,
        }
    }

    /// Notes that a socket is ready. `is_at_end` says whether its input may have ended.
    pub(crate) fn note_ready(&mut self, is_at_end: bool) {
        self.may_have_ended = self.may_have_ended || is_at_end;
    }

    /// Returns whether the connection to the server is open. The system is asked until it is open.
    pub(crate) fn opening(&mut self) -> Opening {
        if self.is_connected {
            return Opening::Connected { is_new: false };
        }
        match is_open(&self.sockets.server) {
            Ok(false) => Opening::Connecting,
            Ok(true) => {
                self.is_connected = true;
                Opening::Connected { is_new: true }
            }
            Err(error) => Opening::Failed(error),
        }
    }

    /// Returns the attempt to connect to the server.
    pub(crate) fn attempt(&self) -> Attempt {
        self.sockets.attempt
    }

    /// Sets the connection to the server to that of a further attempt.
    ///
    /// # Errors
    ///
    /// The error of the system if it can't be registered.
    pub(crate) fn set_server(
        &mut self,
        server: Stream,
        attempt: Attempt,
        registry: &Registry,
    ) -> io::Result<()> {
        let mut server = server;
        register(&mut server, registry, self.sockets.tokens.server)?;
        self.sockets.server = server;
        self.sockets.attempt = attempt;
        Ok(())
    }

    /// Reads nothing more from the client.
    pub(crate) fn shut(&mut self) {
        self.is_shut = true;
    }

    /// Returns whether nothing is left to do for a client of which nothing more is read: no command waits for
    /// its reply, and all bytes that were read were forwarded.
    pub(crate) fn is_done(&self) -> bool {
        let is_idle = !self.to_server.waits() && !self.to_client.waits();
        self.is_shut && is_idle && self.watcher.connection().waiting() == 0
    }

    /// Closes the connection to the server, sends nothing more to the client, and drops what it sends until it
    /// closes its side or this time has come.
    pub(crate) fn close_until(&mut self, until: Duration) {
        let _ = self.sockets.server.shutdown(Shutdown::Both);
        let _ = self.sockets.client.shutdown(Shutdown::Write);
        self.until = Some(until);
    }

    /// Returns the time at which the connection is closed if its client does not close its side before, once
    /// nothing more is sent to the client.
    pub(crate) fn until(&self) -> Option<Duration> {
        self.until
    }

    /// Drops bytes of the client.
    pub(crate) fn drop_input(&self, buffer: &mut [u8]) -> Next
        requires { 0 < length buffer.old }
    {
        drop_input(&self.sockets.client, buffer)
    }

    /// Returns the place of the connection in the loop.
    pub(crate) fn place(&self) -> usize {
        self.sockets.tokens.place
    }

    /// Returns the client's number, from 1.
    pub(crate) fn number(&self) -> u64 {
        self.printing.client
    }

    /// Returns the tap of the connection.
    pub(crate) fn watcher(&self) -> &Watcher {
        &self.watcher
    }

    /// Returns whether the connection to the server was ever open.
    pub(crate) fn is_connected(&self) -> bool {
        self.is_connected
    }

    /// Records that the connection to the server is open.
    pub(crate) fn record_opening<C: Clock>(&mut self, recording: &mut Recording, clock: &C) {
        recording.add(
            clock,
            &mut self.recorded,
            End::Server,
            SegmentKind::Beginning,
            b"",
        );
    }

    /// Records that the connection is closed, unless both sides have ended before.
    pub(crate) fn record_close<C: Clock>(&mut self, recording: &mut Recording, clock: &C) {
        if !self.have_ended() {
            recording.add(
                clock,
                &mut self.recorded,
                End::Server,
                SegmentKind::Reset,
                b"",
            );
        }
    }

    /// Forwards the bytes received, until each call would block or the allowed number of pieces was
    /// forwarded. Each piece is read into the buffer.
    pub(crate) fn hand_on<W: Sink, C: Clock>(
        &mut self,
        buffer: &mut [u8],
        printer: &mut Printer<'_, '_, '_, W, C>,
        recording: &mut Recording,
    ) -> Next
        requires { 0 < length buffer.old }
    {
        for _ in 0..TURNS {
            let to_server = self.visit(Side::Client, buffer, printer, recording);
            let to_client = self.visit(Side::Server, buffer, printer, recording);
            if let Some(next) = next_of(to_server, to_client, self.have_ended()) {
                return next;
            }
        }
        Next::Again
    }

    /// Visits the lane of the bytes that one side sends, and prints and records the bytes that
    /// arrived.
    fn visit<W: Sink, C: Clock>(
        &mut self,
        side: Side,
        buffer: &mut [u8],
        printer: &mut Printer<'_, '_, '_, W, C>,
        recording: &mut Recording,
    ) -> Progress
        requires { 0 < length buffer.old }
    {
        if side == Side::Client && self.is_shut && !self.to_server.waits() {
            return Progress::Waits;
        }
        if side == Side::Server && self.pieces.are_paused() {
            return Progress::Waits;
        }
        let is_first = !self.to_server.has_ended() && !self.to_client.has_ended();
        let (client, server) = (&self.sockets.client, &self.sockets.server);
        let may_end = self.may_have_ended;
        let forwarded = match side {
            Side::Client => self.to_server.visit(client, server, may_end, buffer),
            Side::Server => {
                let most = self.pieces.most();
                let forwarded = self
                    .to_client
                    .visit_within(server, client, may_end, most, buffer);
                self.pieces.note_written(forwarded.written);
                forwarded
            }
        };
        if forwarded.count == 0 && !forwarded.has_ended {
            return forwarded.progress;
        }
        // The records and the lines have the same time.
        let (clock, end) = (printer.look(), end_of(side));
        let piece = &buffer[..buffer.len().min(forwarded.count)];
        if !piece.is_empty() {
            recording.add(&clock, &mut self.recorded, end, SegmentKind::Bytes, piece);
            printer.print(&mut self.watcher, self.printing, side, piece);
        }
        if forwarded.has_ended {
            recording.add(&clock, &mut self.recorded, end, SegmentKind::End, b"");
        }
        // The end of a side is printed if the other side has not ended before.
        if forwarded.has_ended && is_first {
            printer.print_end(&self.watcher, self.printing.client, side);
        }
        forwarded.progress
    }

    /// Returns whether both sides have ended.
    fn have_ended(&self) -> bool {
        self.to_server.has_ended() && self.to_client.has_ended()
    }
}

/// Returns the end that sends the bytes of a side.
fn end_of(side: Side) -> End {
    match side {
        Side::Client => End::Client,
        Side::Server => End::Server,
    }
}
