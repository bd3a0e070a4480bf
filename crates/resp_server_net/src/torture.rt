//! Replies in other encodings and in pieces, for the tests of a client.

use crate::encodings::Encodings;
use bytes::BytesMut;
use resp_decode::Decoder;
use resp_net::cutter::Cut;
use resp_net::pieces::Pieces;
use resp_net::stream::Stream;
use resp_value::limits::Limits;
use resp_value::version::Version;
use std::alloc::{AllocError, Global};
use std::io;
use std::io::{ErrorKind, Write};
use std::time::Duration;

/// The greatest limits of the nesting, of the bytes of a string, and of the bytes of a value.
const DEPTH: u64 = 128;

const LENGTH: u64 = 1_073_741_824;

const TOTAL: u64 = 1_099_511_627_776;

/// The replies of one client, each in an encoding that the seed chooses, and cut into pieces at places of the
/// seed.
///
/// It reads the bytes of the replies, which begin in version 2. The only aggregate that the servers send is the
/// reply to HELLO: a map, from which on the replies are those of version 3, or an array, from which on they are
/// those of version 2.
#[derive(Drop)]
pub(crate) struct Torture {
    alloc: Global,
    decoder: Decoder,
    version: Version,
    encodings: Encodings,
    /// The bytes that wait to be written.
    waiting: BytesMut,
    pub(crate) pieces: Pieces,
    /// Whether the connection is closed once no bytes wait.
    pub(crate) is_closing: bool,
}

/// What is left of the bytes that wait.
#[derive(Clone, Copy, Debug, PartialEq, Eq)]
pub(crate) enum Left {
    /// Nothing waits, and the next piece may be written.
    Nothing,
    /// Bytes may be written later.
    Later,
    /// The socket has failed.
    Failed,
}

impl Torture {
    /// Returns the replies of a client to which nothing was sent.
    pub(crate) fn new(alloc: Global, seed: u64) -> Self {
        let limits = greatest_limits();
        Torture {
            alloc,
            decoder: Decoder::new(alloc, Version::Two, &limits),
            version: Version::Two,
            encodings: Encodings::new(seed, &limits),
            waiting: BytesMut::new(alloc),
            pieces: Pieces::new(Some(Cut::Random(seed))),
            is_closing: false,
        }
    }

    /// Returns whether bytes wait, or a piece was written and its pause is not over.
    pub(crate) fn is_busy(&self) -> bool {
        !self.waiting.is_empty() || self.pieces.are_paused()
    }

    /// Takes bytes of replies.
    ///
    /// # Errors
    ///
    /// `AllocError` if an allocation fails, or if the bytes are not those of replies. The replies cannot be
    /// continued.
    fn take(&mut self, bytes: &[u8]) -> Result<(), AllocError> {
        let mut rest = bytes;
        while let Some(first) = rest.first() {
            self.look(*first);
            let Ok(fed) = self.decoder.feed(rest) else {
                return Err(AllocError);
            };
            rest = &rest[fed.used..];
            if let Some(reply) = &fed.value {
                self.encodings
                    .append(self.version, reply, &mut self.waiting)?;
            }
        }
        Ok(())
    }

    /// Sets the version if this byte begins the reply to HELLO.
    fn look(&mut self, byte: u8) {
        let version = match byte {
            b'%' => Version::Three,
            b'*' => Version::Two,
            _ => return,
        };
        if self.decoder.set_version(version).is_ok() {
            self.version = version;
        }
    }

    /// Writes the next piece, if the pause after the piece before it is over.
    pub(crate) fn send(&mut self, stream: &Stream, now: Duration) -> Left {
        self.pieces.look(now);
        if self.pieces.are_paused() {
            return Left::Later;
        }
        if self.waiting.is_empty() {
            return Left::Nothing;
        }
        let most = self.pieces.most().min(self.waiting.len());
        let mut writer = stream;
        match writer.write(&self.waiting.as_slice()[..most]) {
            Ok(0) => Left::Failed,
            Ok(count) => {
                self.note_sent(count);
                Left::Later
            }
            Err(error) if error.kind() == ErrorKind::WouldBlock => Left::Later,
            Err(_) => Left::Failed,
        }
    }

    /// Notes that the first bytes that wait were written.
    fn note_sent(&mut self, count: usize) {
        self.pieces.note_written(count);
        if count >= self.waiting.len() {
            self.waiting = BytesMut::new(self.alloc);
        } else {
            self.waiting.advance(count);
        }
    }
}

/// Returns limits that each reply is within: an error may be longer than the strings that a client may send.
fn greatest_limits() -> Limits {
    match Limits::new(DEPTH, LENGTH, TOTAL) {
        Ok(limits) => limits,
        Err(_) => Limits::standard(),
    }
}

/// A writer that gives the bytes of replies to the torture, if no bytes of earlier replies wait.
#[derive(Drop)]
pub(crate) struct Tortured<'a> {
    pub(crate) torture: &'a mut Torture,
}

impl Write for Tortured<'_> {
    fn write(&mut self, from: &[u8]) -> io::Result<usize> {
        if !self.torture.waiting.is_empty() {
            return Err(ErrorKind::WouldBlock.into());
        }
        match self.torture.take(from) {
            Ok(()) => Ok(from.len()),
            Err(AllocError) => Err(ErrorKind::OutOfMemory.into()),
        }
    }

    fn flush(&mut self) -> io::Result<()> {
        Ok(())
    }
}
