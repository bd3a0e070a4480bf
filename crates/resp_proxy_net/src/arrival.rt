//! A new connection to the server, before it is used.

use memchr::memchr;
use mio::{Registry, Token};
use resp_io::device::Device;
use resp_net::backend::Backend;
use resp_net::non_blocking::{Input, Output, is_open};
use resp_net::register::register;
use resp_net::stream::Stream;
use resp_proxy::{Opening, OpeningError, OpeningProgress};
use std::io::ErrorKind;
use std::net::Net;
use std::{io, str};

/// Why no connection was opened, if the server rejected AUTH.
pub(crate) const REJECTED: &str = "the server rejected AUTH";

/// Why no connection was opened, if the server closed it during the login.
const CLOSED: &str = "closed during AUTH";

/// The maximum number of bytes of one read of the replies.
const PIECE: usize = 1_024;

/// The maximum number of bytes of an error of the server that are shown.
const WORDS: usize = 256;

/// A connection that is opened to the server and then brought into a setting.
#[derive(Drop)]
pub(crate) struct Arrival {
    stream: Stream,
    /// Whether the server has accepted the connection.
    is_open: bool,
    opening: Opening,
}

/// The progress of an arrival.
#[derive(Clone, Copy)]
pub(crate) enum Arrived {
    /// It waits for the server.
    No,
    /// The connection is open, and in its setting.
    Yes,
    /// The server rejected a command, or sent other bytes.
    Rejected,
}

impl Arrival {
    /// Returns the arrival of a pending connection.
    pub(crate) fn new(stream: Stream, opening: Opening) -> Self {
        Arrival {
            stream,
            is_open: false,
            opening,
        }
    }

    /// Starts to connect to the server, at the address to which a connection was opened last.
    ///
    /// # Errors
    ///
    /// The error of the system.
    pub(crate) fn begin(
        net: &impl Net,
        backend: &Backend,
        registry: &Registry,
        token: Token,
        opening: Opening,
    ) -> io::Result<Self> {
        match open(net, backend, registry, token) {
            Ok(stream) => Ok(Arrival::new(stream, opening)),
            Err(error) => {
                drop(opening);
                Err(error)
            }
        }
    }

    /// Continues to connect and to enter the setting.
    ///
    /// # Errors
    ///
    /// Why the connection was not opened: the error of the system, an error of kind
    /// `ConnectionAborted` if the server closed it meanwhile, or an error of kind `OutOfMemory`.
    pub(crate) fn go_on(&mut self) -> io::Result<Arrived> {
        if !self.is_open {
            if !is_open(&self.stream)? {
                return Ok(Arrived::No);
            }
            self.is_open = true;
        }
        advance(&mut self.opening, &self.stream)
    }

    /// Returns whether the server has accepted the connection.
    pub(crate) fn is_open(&self) -> bool {
        self.is_open
    }

    /// Returns the error with which the server rejected a command, or an empty text.
    pub(crate) fn refusal(&self) -> &[u8] {
        self.opening.refusal()
    }

    /// Returns the error for a connection that the server rejected: the words of the server if it
    /// replied with an error, and otherwise this reason.
    pub(crate) fn rejection(&self, why: &str) -> io::Error {
        let words = words_of(self.refusal());
        let why = if words.is_empty() { why } else { words };
        io::Error::new(ErrorKind::PermissionDenied, why)
    }

    /// Returns the socket.
    pub(crate) fn stream(&self) -> &Stream {
        &self.stream
    }

    /// Returns the socket and the opening.
    pub(crate) fn into_parts(self) -> (Stream, Opening) {
        let Arrival {
            stream,
            opening,
            ..
        } = self;
        (stream, opening)
    }
}

/// Sends the commands of an opening over a socket and reads the replies, as far as the socket
/// allows.
fn advance(opening: &mut Opening, stream: &Stream) -> io::Result<Arrived> {
    let mut piece = [0; PIECE];
    for _ in 0..u64::MAX {
        let mut reader = Device::new(Input::new(stream, true));
        let mut writer = Device::new(Output::new(stream));
        let progress = opening.visit(&mut reader, &mut writer, &mut piece);
        let is_dry = reader.into_inner().would_wait();
        if writer.into_inner().has_failed() {
            return Err(closed());
        }
        match progress {
            Ok(OpeningProgress::Reads) => {}
            Ok(OpeningProgress::Sends) => return Ok(Arrived::No),
            Ok(OpeningProgress::Waits) if is_dry => return Ok(Arrived::No),
            Ok(OpeningProgress::Accepted) => return Ok(Arrived::Yes),
            Err(OpeningError::Rejected) => return Ok(Arrived::Rejected),
            Err(OpeningError::OutOfMemory) => return Err(ErrorKind::OutOfMemory.into()),
            Ok(OpeningProgress::Waits) | Err(OpeningError::Closed) => return Err(closed()),
        }
    }
    Err(closed())
}

/// Returns the error for a connection that the server closed before it was used.
fn closed() -> io::Error {
    io::Error::new(ErrorKind::ConnectionAborted, CLOSED)
}

/// Returns the text of an error of the server without the sign before it and the end of the line,
/// at most 256 bytes. Returns an empty text if the bytes are not text.
pub(crate) fn words_of(error: &[u8]) -> &str {
    let text = error.strip_prefix(b"-").unwrap_or(b"");
    let end = memchr(b'\r', text).unwrap_or(text.len()).min(WORDS);
    str::from_utf8(&text[..end.min(text.len())]).unwrap_or("")
}

/// Starts to connect to the server, at the address to which a connection was opened last.
fn open(
    net: &impl Net,
    backend: &Backend,
    registry: &Registry,
    token: Token,
) -> io::Result<Stream> {
    let address = backend.address(backend.first())?;
    let mut stream = Stream::connect(net, address)?;
    register(&mut stream, registry, token)?;
    Ok(stream)
}
