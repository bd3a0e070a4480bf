//! Prints the traffic in a capture as a window prints traffic that it forwards.

ghost use Rattle.std.specs.Prelude.{◌<◌, length};

use crate::open_connections::OpenConnections;
use crate::remark::Remark;
use crate::replay_view::ReplayView;
use crate::replayed::Replayed;
use crate::stats::Tables;
use crate::watcher::Watcher;
use resp_capture::packet::read_packet;
use resp_capture::{
    Capture, CaptureError, CapturedConnection, CapturedPacket, Endpoint, Packet, Segment,
    is_to_server,
};
use resp_io::device::{Sink, Source};
use resp_io::live::LiveSink;
use resp_net::lane::PIECE;
use resp_tap::{Filter, Printing, ShownPart};
use resp_value::limits::Limits;
use std::alloc::{AllocError, Global};
use std::collections::VecDeque;
use std::io;
use thiserror::Error;

/// The maximum number of reads of a capture.
const MOST_READS: u64 = 1 << 40;

/// The number of closed connections that are remembered, so that their late segments are not read.
const MOST_CLOSED: usize = 256;

/// How a capture is printed.
#[derive(Clone, Copy)]
pub struct ReplaySettings {
    /// The limits within which both sides are read.
    pub limits: Limits,
    /// Whether times are printed.
    pub tells_time: bool,
    /// Whether the times of lines of text have the date too.
    pub tells_date: bool,
    /// Whether a line of a client is a command.
    pub reads_lines: bool,
    /// Whether passwords and other secret words of commands are printed.
    pub shows_passwords: bool,
    /// The maximum number of bytes of a word or of a text that are printed.
    pub shown: usize,
    /// Whether the traffic is printed as JSON. Then times are printed.
    pub json: bool,
    /// When the counts of commands are printed, if commands are counted and not printed.
    pub tables: Option<Tables>,
    /// The port of the server, if it is known.
    pub port: Option<u16>,
}

/// Why a capture is not printed to its end. The traffic before was printed.
#[derive(Clone, Copy, Debug, Error)]
pub enum ReplayError {
    /// The file is not a capture, or it is cut off.
    #[error("{0}")]
    Capture(CaptureError),
    /// A read of the file failed.
    #[error("read failed")]
    Read,
    /// A write of the output failed.
    #[error("write failed")]
    Write,
    /// An allocation failed.
    #[error("out of memory")]
    OutOfMemory,
}

/// Prints the traffic in a capture as [`Window`](crate::Window) prints traffic that it forwards.
/// The times are those of the packets. If bytes of a connection are missing, a line says so, and
/// the bytes after them are not read.
#[derive(Drop)]
pub struct Replay {
    alloc: Global,
    settings: ReplaySettings,
    view: ReplayView,
    open: OpenConnections,
    /// The client and the server of connections that were closed, the last one at the end.
    closed: VecDeque<(Endpoint, Endpoint)>,
    /// The number of connections.
    count: u64,
    /// The number of fragments, which are not read.
    fragments: u64,
}

impl Replay {
    /// Returns a replay of a capture, before anything was read. It prints what the filter lets
    /// through.
    ///
    /// # Errors
    ///
    /// An error of kind `OutOfMemory` if an allocation fails.
    pub fn new(alloc: Global, settings: ReplaySettings, filter: Filter) -> io::Result<Replay> {
        let view = ReplayView::new(alloc, &settings, filter)?;
        Ok(Replay {
            alloc,
            settings,
            view,
            open: OpenConnections::new(alloc),
            closed: VecDeque::new(alloc),
            count: 0,
            fragments: 0,
        })
    }

    /// Returns the number of fragments of packets that were found. They are not read.
    pub fn fragments(&self) -> u64 {
        self.fragments
    }

    /// Reads a capture to its end and prints its traffic. The traffic of all packets that were read
    /// is printed and flushed before the next read, which may wait for more packets.
    ///
    /// # Errors
    ///
    /// The first error. The traffic before it was printed.
    pub fn run<S: Source, W: LiveSink>(
        &mut self,
        source: &mut S,
        out: &mut W,
    ) -> Result<(), ReplayError> {
        let mut capture = Capture::new(self.alloc);
        let read = self.read_all(&mut capture, source, out);
        let finished = self.finish(out);
        match read {
            Ok(()) => finished,
            error => error,
        }
    }

    /// Reads a capture to its end. Before each read, it prints the traffic that was read so far.
    fn read_all<S: Source, W: LiveSink>(
        &mut self,
        capture: &mut Capture,
        source: &mut S,
        out: &mut W,
    ) -> Result<(), ReplayError> {
        let mut buffer = [0; PIECE];
        for _ in 0..MOST_READS {
            if out.flush().is_err() {
                return Err(ReplayError::Write);
            }
            let Ok(count) = source.read(&mut buffer) else {
                return Err(ReplayError::Read);
            };
            if count == 0 {
                break;
            }
            self.print_piece(capture, &buffer[..count], out)?;
        }
        match capture.end() {
            Ok(()) => Ok(()),
            Err(error) => Err(ReplayError::Capture(error)),
        }
    }

    /// Reads a piece of the capture and prints its traffic.
    fn print_piece<W: Sink>(
        &mut self,
        capture: &mut Capture,
        piece: &[u8],
        out: &mut W,
    ) -> Result<(), ReplayError> {
        let mut rest = piece;
        // Each turn reads at least one byte.
        for _ in 0..piece.len() {
            if rest.is_empty() {
                break;
            }
            match capture.read(rest) {
                Ok(count) => rest = &rest[count..],
                Err(error) => return Err(ReplayError::Capture(error)),
            }
            match capture.frame() {
                Ok(Some(frame)) => self.print_frame(&frame, out)?,
                Ok(None) => {}
                Err(error) => return Err(ReplayError::Capture(error)),
            }
        }
        Ok(())
    }

    /// Prints the traffic of a packet.
    fn print_frame<W: Sink>(
        &mut self,
        frame: &CapturedPacket<'_>,
        out: &mut W,
    ) -> Result<(), ReplayError> {
        self.view.go_on(frame.time, out);
        let printed = match read_packet(frame.link, frame.bytes) {
            Packet::Segment(segment) => self.print_segment(&segment, out),
            Packet::Fragment => {
                self.fragments = self.fragments.saturating_add(1);
                Ok(())
            }
            Packet::Other => Ok(()),
        };
        match printed {
            Err(AllocError) => Err(ReplayError::OutOfMemory),
            Ok(()) if self.view.has_failed() => Err(ReplayError::Write),
            Ok(()) => Ok(()),
        }
    }

    /// Prints the traffic of a segment.
    fn print_segment<W: Sink>(
        &mut self,
        segment: &Segment<'_>,
        out: &mut W,
    ) -> Result<(), AllocError> {
        let Some(number) = self.number_for(segment, out)? else {
            return Ok(());
        };
        let Some(replayed) = self.open.get_mut(number) else {
            return Ok(());
        };
        let Some(end) = replayed.connection.sender(segment) else {
            return Ok(());
        };
        replayed.print_segment(end, segment, &mut self.view, out)?;
        let have_ended = replayed.print_end(end, &mut self.view, out);
        if have_ended || segment.resets {
            self.close(number, out)?;
        }
        Ok(())
    }

    /// Returns the number of the connection of a segment, which is opened if it is not open.
    /// Returns `None` if no connection is opened: for a segment without bytes that does not begin a
    /// connection, and for a late segment of a closed connection.
    fn number_for<W: Sink>(
        &mut self,
        segment: &Segment<'_>,
        out: &mut W,
    ) -> Result<Option<u64>, AllocError> {
        if let Some(number) = self.open.find(segment) {
            let is_other = match self.open.get(number) {
                Some(replayed) => replayed.connection.is_begun_again(segment),
                None => false,
            };
            if !is_other {
                return Ok(Some(number));
            }
            self.close(number, out)?;
        }
        if !segment.begins && (segment.data.is_empty() || self.is_closed(segment)) {
            return Ok(None);
        }
        self.admit(segment, out)?;
        Ok(Some(self.count))
    }

    /// Returns whether a segment is one of a connection that was closed.
    fn is_closed(&self, segment: &Segment<'_>) -> bool {
        let (from, to) = (segment.from, segment.to);
        self.closed
            .iter()
            .any(|ends| *ends == (from, to) || *ends == (to, from))
    }

    /// Opens the connection of a segment.
    fn admit<W: Sink>(&mut self, segment: &Segment<'_>, out: &mut W) -> Result<(), AllocError> {
        let (client, server) = if is_to_server(segment, self.settings.port) {
            (segment.from, segment.to)
        } else {
            (segment.to, segment.from)
        };
        self.closed.retain(|ends| *ends != (client, server));
        self.count = self.count.saturating_add(1);
        let printing = Printing {
            client: self.count,
            shows_passwords: self.settings.shows_passwords,
        };
        self.view.print_connected(self.count, client, out)?;
        if !segment.begins {
            let mut printer = self.view.printer(out);
            printer.print_remark(self.count, Remark::InTheMiddle, b"");
        }
        let filter = self.view.filter()?;
        let watcher = Watcher::new(
            self.alloc,
            &self.settings.limits,
            self.settings.reads_lines,
            self.view.counts(),
            self.view.is_json(),
            ShownPart::first(self.settings.shown),
            filter,
        );
        let connection = CapturedConnection::new(self.alloc, client, server);
        let is_whole = segment.begins;
        self.open
            .add(Replayed::new(connection, watcher, printing, is_whole))
    }

    /// Closes a connection, and prints that it is gone.
    fn close<W: Sink>(&mut self, number: u64, out: &mut W) -> Result<(), AllocError> {
        let Some(mut replayed) = self.open.remove(number) else {
            return Ok(());
        };
        let closed = self.finish_one(&mut replayed, out);
        drop(replayed);
        closed
    }

    /// Prints that a connection, which was removed, is gone.
    fn finish_one<W: Sink>(
        &mut self,
        replayed: &mut Replayed,
        out: &mut W,
    ) -> Result<(), AllocError> {
        replayed.finish(&mut self.view, out)?;
        replayed.print_gone(&mut self.view, out);
        if self.closed.len() >= MOST_CLOSED {
            let _ = self.closed.pop_front();
        }
        match self.closed.push_back(replayed.ends()) {
            Ok(()) => Ok(()),
            Err(_) => Err(AllocError),
        }
    }

    /// Prints which bytes are missing at the end of the capture, and the table.
    fn finish<W: Sink>(&mut self, out: &mut W) -> Result<(), ReplayError> {
        if self.open.finish(&mut self.view, out).is_err() {
            return Err(ReplayError::OutOfMemory);
        }
        if self.view.counts() {
            self.view.printer(out).print_table(self.alloc);
        }
        if self.view.has_failed() {
            return Err(ReplayError::Write);
        }
        Ok(())
    }
}
