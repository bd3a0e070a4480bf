//! One connection of the server.

ghost use Rattle.std.specs.Prelude.{◌≡◌, false};

use crate::torture::Torture;
use resp_io::device::Device;
use resp_net::non_blocking::{Input, Output};
use resp_net::service::Next;
use resp_net::stream::Stream;
use resp_wire::serve::serve_client;
use resp_wire::{ServeError, Sessions};
use std::alloc::{AllocError, Global};
use std::io::{Read, Write};
use std::time::Duration;
use std::{io, mem};

/// The maximum number of reads and writes of a connection before the other connections are served.
const TURNS: u64 = 16;

/// The maximum number of bytes of one read.
pub const PIECE: usize = 16_384;

/// The memory that the visits of all connections use in turn.
#[derive(Drop)]
pub struct Room {
    pub(crate) alloc: Global,
    /// The bytes of one read.
    pub(crate) buffer: [u8; PIECE],
    /// The maximum number of bytes that wait to be written to a client before its next command is
    /// run.
    pub(crate) held: usize,
}

impl Room {
    /// Returns the memory of the visits. A command is run while at most `held` bytes wait to be
    /// written to its client.
    pub fn new(alloc: Global, held: usize) -> Self {
        Room {
            alloc,
            buffer: [0; PIECE],
            held,
        }
    }
}

/// The bytes that were read from a client and not given to its session, because too many bytes wait
/// to be written.
#[derive(Drop)]
pub struct Rest {
    pub(crate) bytes: Vec<u8>,
}

impl Rest {
    /// Returns an empty rest. Does not allocate.
    pub fn new(alloc: Global) -> Self {
        Rest {
            bytes: Vec::new(alloc),
        }
    }

    /// Returns a copy of these bytes, joined. Does not allocate if there are no bytes.
    pub(crate) fn copy(alloc: Global, bytes: &[u8], more: &[u8]) -> Result<Self, AllocError> {
        let mut rest = Rest::new(alloc);
        rest.bytes.extend_from_slice(bytes)?;
        rest.bytes.extend_from_slice(more)?;
        Ok(rest)
    }
}

/// A connection of a client.
#[derive(Drop)]
pub(crate) struct Connection<C> {
    /// The socket, which is non-blocking.
    pub(crate) stream: Stream,
    /// The place of the connection in the loop.
    pub(crate) place: usize,
    /// The client as the store knows it, such as the number of its session.
    pub(crate) client: C,
    pub(crate) rest: Rest,
    pub(crate) incoming: Incoming,
    /// The time at which the connection is closed if its client does not close its side before, once nothing
    /// more is sent to the client.
    pub(crate) until: Option<Duration>,
    /// The replies in other encodings and in pieces, if they are asked for.
    pub(crate) torture: Option<Box<Torture>>,
}

/// What is read from a client.
#[derive(Clone, Copy, Debug, PartialEq, Eq)]
pub enum Incoming {
    /// Bytes may come.
    Open,
    /// The input may have ended. The socket reports this only once.
    MayHaveEnded,
    /// Nothing more is read.
    Shut,
}

/// The bytes that are read from a client.
#[derive(Clone, Copy)]
pub(crate) struct Received<'a> {
    stream: &'a Stream,
    incoming: Incoming,
}

impl<'a> Received<'a> {
    /// Returns what is read from a socket.
    pub(crate) fn new(stream: &'a Stream, incoming: Incoming) -> Self {
        Received { stream, incoming }
    }

    /// Returns whether the input may have ended.
    pub(crate) fn may_have_ended(&self) -> bool {
        self.incoming != Incoming::Open
    }
}

impl Read for Received<'_> {
    fn read(&mut self, into: &mut [u8]) -> io::Result<usize> {
        if self.incoming == Incoming::Shut {
            return Ok(0);
        }
        let mut reader = self.stream;
        reader.read(into)
    }
}

/// Runs the commands that a client of a store has sent and writes the replies, until a read or
/// write would block, or 16 of them were made. The commands are read into the buffer of `room`,
/// after those in `rest`. `is_at_end` says whether the input may have ended. If not, it is not read
/// again after a read that did not fill the buffer.
///
/// The replies to what was read are written before more is read. If they cannot be written yet,
/// they wait in the store. The bytes that wait are at most as many as `room` allows, plus one reply.
/// The commands that were read and not run are in `rest`.
///
/// If the memory for the rest cannot be allocated, the connection is closed.
pub fn answer<R: Read + Drop, W: Write + Drop, C, T: Sessions<C>>(
    reader: R,
    writer: W,
    store: &mut T,
    client: &mut C,
    room: &mut Room,
    rest: &mut Rest,
    is_at_end: bool,
) -> Next
    ensures nobody { T.has store.old client.old ≡ false → (result ≡ Next.Close) ×
        (store.new ≡ store.old) × (client.new ≡ client.old) }
{
    let first = mem::replace(rest, Rest::new(room.alloc));
    let mut reader = Device::new(Input::after(first.bytes.as_slice(), reader, is_at_end));
    let mut writer = Device::new(Output::new(writer));
    let visit = serve_client(
        &mut reader,
        &mut writer,
        store,
        client,
        TURNS,
        &mut room.buffer,
        room.held,
    );
    let reader = reader.into_inner();
    let waits = match visit.end {
        Ok(_) | Err(ServeError::NoSession) => return Next::Close,
        // The client is closing. The bytes that wait still have to be written.
        Err(ServeError::TooManyTurns | ServeError::OutOfMemory) => None,
        Err(ServeError::Read) => Some(reader.would_wait()),
        Err(ServeError::Write) => Some(writer.into_inner().would_wait()),
    };
    let left = &room.buffer[visit.rest];
    hold(room.alloc, rest, left, reader.first(), waits)
}

/// Joins and holds the bytes that were read and whose commands were not run. Returns when the
/// connection is visited next. `waits` says whether the socket would block, if a read or a write
/// has failed.
fn hold(alloc: Global, rest: &mut Rest, bytes: &[u8], more: &[u8], waits: Option<bool>) -> Next {
    match Rest::copy(alloc, bytes, more) {
        Ok(left) => *rest = left,
        Err(_) => return Next::Close,
    }
    match waits {
        None => Next::Again,
        Some(true) => Next::Wait,
        Some(false) => Next::Close,
    }
}
