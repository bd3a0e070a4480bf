//! One connection of a client of the proxy.

ghost use Rattle.std.specs.Prelude.{◌<◌, length};

use crate::arrival::Arrival;
use crate::own::Own;
use crate::plan::Plan;
use mio::Token;
use resp_board::ClientId;
use resp_io::device::{Device, Sink, Source};
use resp_net::closing::drop_input;
use resp_net::lane::{Progress, after_write};
use resp_net::non_blocking::{Input, Output};
use resp_net::service::{Next, Tokens};
use resp_net::stream::Stream;
use resp_proxy::{Client, Proxy, Read, WriteOutcome};
use std::net::Shutdown;
use std::time::Duration;
use std::{io, mem};

/// The socket of a client, together with the client. They are created together and stay together.
#[derive(Drop)]
pub(crate) struct Proxied {
    stream: Stream,
    tokens: Tokens,
    link: ClientPath,
    /// Whether a read may return bytes.
    may_read: bool,
    /// Whether the input may have ended.
    is_at_end: bool,
    /// The time since which the next command of the client needs another connection, if it does.
    leaving_since: Option<Duration>,
}

/// How the commands of a client reach the server.
#[derive(Drop)]
pub(crate) enum ClientPath {
    /// Over the connection that clients in a setting share.
    Shared(Seat),
    /// Not yet: a connection in another setting is opened.
    Moving(Box<Move>),
    /// Over a dedicated connection.
    Own(Box<Own>),
    /// Not at all: bytes of the client are dropped, until it closes its side or this time has come.
    Closing(Duration),
    /// Not at all: the connection is closed at the end of its visit.
    Closed,
}

/// A client of the proxy.
#[derive(Drop)]
pub(crate) struct Seat {
    /// The number of its setting.
    pub(crate) number: usize,
    pub(crate) client: Client,
}

/// A client that waits for a connection in another setting.
#[derive(Drop)]
pub(crate) struct Move {
    /// The client, in the setting that it leaves.
    pub(crate) seat: Seat,
    pub(crate) plan: Plan,
    pub(crate) arrival: Arrival,
    /// The time since which the client has waited for it.
    pub(crate) since: Duration,
}

/// The result of a read and a write.
#[derive(Clone, Copy)]
struct Exchanged {
    /// Whether the read failed, for example because it would block.
    has_failed: bool,
    /// Whether the next read would block.
    is_dry: bool,
    written: Progress,
}

impl Proxied {
    /// Returns the connection of a client that has sent nothing.
    pub(crate) fn new(stream: Stream, tokens: Tokens, client: Client) -> Self {
        Proxied {
            stream,
            tokens,
            link: ClientPath::Shared(Seat { number: 0, client }),
            may_read: false,
            is_at_end: false,
            leaving_since: None,
        }
    }

    /// Returns the number of the setting and the id of the client, while it shares a connection.
    pub(crate) fn seat(&self) -> Option<(usize, ClientId)> {
        match &self.link {
            ClientPath::Shared(seat) => Some((seat.number, seat.client.id())),
            _ => None,
        }
    }

    /// Notes that a socket is ready. `is_at_end` says whether its input may have ended.
    pub(crate) fn note_ready(&mut self, is_at_end: bool) {
        self.may_read = true;
        self.is_at_end = self.is_at_end || is_at_end;
    }

    /// Stops reading from a client that shares a connection.
    pub(crate) fn shut(&mut self, proxy: &mut Proxy) {
        match &mut self.link {
            ClientPath::Shared(seat) if !seat.client.is_closing() => proxy.shut(&mut seat.client),
            _ => {}
        }
    }

    /// Stops reading from a client with a connection of its own.
    pub(crate) fn shut_own(&mut self) {
        if let ClientPath::Own(own) = &mut self.link {
            own.shut();
        }
    }

    /// Returns whether bytes are to be read from the client as soon as there is room.
    pub(crate) fn waits_for_room(&self) -> bool {
        match &self.link {
            ClientPath::Shared(seat) => self.may_read && may_take(&seat.client),
            _ => false,
        }
    }

    /// Returns whether this proxy, which the client shares, has room for its next command.
    pub(crate) fn has_room(&self, proxy: &Proxy) -> bool {
        match &self.link {
            ClientPath::Shared(seat) => proxy.has_room(&seat.client),
            _ => false,
        }
    }

    /// Returns whether the client shares a connection, and is to get another one now: its next
    /// command needs it, and all replies to the commands before were written.
    pub(crate) fn leaves(&self, proxy: &Proxy) -> bool {
        match &self.link {
            ClientPath::Shared(seat) => proxy.may_leave(&seat.client),
            _ => false,
        }
    }

    /// Notes whether the next command of a client that shares a connection needs another one.
    pub(crate) fn note_leaving(&mut self, now: Duration) {
        if let ClientPath::Shared(seat) = &self.link {
            self.leaving_since = match self.leaving_since {
                Some(since) if seat.client.is_leaving() => Some(since),
                None if seat.client.is_leaving() => Some(now),
                _ => None,
            };
        }
    }

    /// Returns the time since which a command of the client has needed another connection, or this time.
    pub(crate) fn leaving_since(&self, now: Duration) -> Duration {
        self.leaving_since.unwrap_or(now)
    }

    /// Returns the number of bytes that wait for a client that shares a connection.
    pub(crate) fn unread(&self, proxy: &Proxy) -> usize {
        match &self.link {
            ClientPath::Shared(seat) => proxy.unread(&seat.client),
            _ => 0,
        }
    }

    /// Reads bytes of the client if there may be some, and writes bytes that wait for it, with at
    /// most one read and one write.
    pub(crate) fn visit(&mut self, proxy: &mut Proxy, buffer: &mut [u8]) -> Next
        requires { 0 < length buffer.old }
    {
        let waits = self.waits_for_room();
        let ClientPath::Shared(seat) = &mut self.link else {
            return Next::Wait;
        };
        let client = &mut seat.client;
        let written = if waits {
            let exchanged = exchange(
                proxy,
                client,
                &self.stream,
                &self.stream,
                self.is_at_end,
                buffer,
            );
            if exchanged.has_failed && !exchanged.is_dry {
                return Next::Close;
            }
            // Replies of the proxy itself may have filled the room, and were written since.
            if exchanged.is_dry && proxy.has_room(client) && !client.has_rest() {
                self.may_read = false;
            }
            exchanged.written
        } else {
            give(proxy, client, &self.stream)
        };
        next(proxy, client, self.may_read, written)
    }

    /// Returns the client if it shares a connection. Put it back, or close it.
    pub(crate) fn take_seat(&mut self) -> Option<Seat> {
        match self.take_link() {
            ClientPath::Shared(seat) => Some(seat),
            link => {
                self.set_link(link);
                None
            }
        }
    }

    /// Sets the link, and drops the previous one.
    fn set_link(&mut self, link: ClientPath) {
        drop(mem::replace(&mut self.link, link));
    }

    /// Lets the client share the connection of its setting.
    pub(crate) fn enter(&mut self, seat: Seat) {
        self.set_link(ClientPath::Shared(seat));
        // The client may hold bytes that are taken before anything is read.
        self.may_read = true;
    }

    /// Lets the client wait for a connection in another setting.
    pub(crate) fn wait(&mut self, moving: Box<Move>) {
        self.set_link(ClientPath::Moving(moving));
    }

    /// Returns what the client waits for, if it waits for a connection in another setting. Put it
    /// back, or enter a setting.
    pub(crate) fn take_move(&mut self) -> Option<Box<Move>> {
        match self.take_link() {
            ClientPath::Moving(moving) => Some(moving),
            link => {
                self.set_link(link);
                None
            }
        }
    }

    /// Gives the client a connection of its own.
    pub(crate) fn give_own(&mut self, own: Box<Own>) {
        self.set_link(ClientPath::Own(own));
    }

    /// Returns the time since which the client has waited for its own connection, if it has one.
    pub(crate) fn own_since(&self) -> Option<Duration> {
        match &self.link {
            ClientPath::Own(own) => Some(own.since()),
            _ => None,
        }
    }

    /// Forwards bytes over the client's own connection. Returns `None` if the client has no such
    /// connection. If the connection is not open and `is_late` is true, it is given up.
    ///
    /// # Errors
    ///
    /// Why that connection was not opened.
    pub(crate) fn forward(&mut self, is_late: bool, buffer: &mut [u8]) -> io::Result<Option<Next>>
        requires { 0 < length buffer.old }
    {
        match &mut self.link {
            ClientPath::Shared(_) | ClientPath::Moving(_) => Ok(None),
            ClientPath::Own(own) => {
                let next = own.visit(&self.stream, self.is_at_end, is_late, buffer)?;
                Ok(Some(next))
            }
            ClientPath::Closing(_) | ClientPath::Closed => Ok(Some(Next::Close)),
        }
    }

    /// Sends nothing more to the client, and drops what it sends until it closes its side or this time has
    /// come.
    pub(crate) fn close_until(&mut self, until: Duration) {
        let _ = self.stream.shutdown(Shutdown::Write);
        self.set_link(ClientPath::Closing(until));
    }

    /// Returns the time at which the connection is closed if its client does not close its side before, once
    /// nothing more is sent to the client.
    pub(crate) fn closing_until(&self) -> Option<Duration> {
        match &self.link {
            ClientPath::Closing(until) => Some(*until),
            _ => None,
        }
    }

    /// Drops bytes of the client.
    pub(crate) fn drop_input(&self, buffer: &mut [u8]) -> Next
        requires { 0 < length buffer.old }
    {
        drop_input(&self.stream, buffer)
    }

    /// Returns the token of the socket of the client's own connection to the server.
    pub(crate) fn server_token(&self) -> Token {
        self.tokens.server
    }

    /// Returns the place of the connection.
    pub(crate) fn place(&self) -> usize {
        self.tokens.place
    }

    /// Returns the socket.
    pub(crate) fn stream(&self) -> &Stream {
        &self.stream
    }

    /// Returns the link, and leaves `Closed` in its place.
    pub(crate) fn take_link(&mut self) -> ClientPath {
        mem::replace(&mut self.link, ClientPath::Closed)
    }

    /// Returns the socket.
    pub(crate) fn into_stream(self) -> Stream {
        let Proxied { stream, link, .. } = self;
        drop(link);
        stream
    }
}

/// Returns whether commands of a client may be taken if there is room.
fn may_take(client: &Client) -> bool {
    !client.is_closing() && !client.is_leaving()
}

/// Returns when a client is visited next, after a visit whose write had this result.
fn next(proxy: &Proxy, client: &Client, may_read: bool, written: Progress) -> Next {
    if written == Progress::Failed || proxy.is_done(client) {
        return Next::Close;
    }
    let reads = may_read && may_take(client) && proxy.has_room(client);
    if written == Progress::MayGoOn || reads {
        Next::Again
    } else {
        Next::Wait
    }
}

/// Writes bytes that wait for a client.
fn give(proxy: &mut Proxy, client: &Client, stream: &Stream) -> Progress {
    let mut writer = Device::new(Output::new(stream));
    let written = proxy.give(client, &mut writer);
    progress(written, &writer.into_inner())
}

/// Reads bytes of a client from the reader, and writes bytes that wait for it to the writer.
fn exchange(
    proxy: &mut Proxy,
    client: &mut Client,
    reader: &Stream,
    writer: &Stream,
    is_at_end: bool,
    buffer: &mut [u8],
) -> Exchanged
    requires { 0 < length buffer.old }
{
    let mut reader = Device::new(Input::new(reader, is_at_end));
    let mut writer = Device::new(Output::new(writer));
    let (has_failed, written) = visit_over(proxy, client, &mut reader, &mut writer, buffer);
    Exchanged {
        has_failed,
        is_dry: reader.into_inner().would_wait(),
        written: progress(written, &writer.into_inner()),
    }
}

/// Visits a client over any devices, and returns whether the read failed, and the result of the
/// write.
fn visit_over<R: Source, W: Sink>(
    proxy: &mut Proxy,
    client: &mut Client,
    reader: &mut R,
    writer: &mut W,
    buffer: &mut [u8],
) -> (bool, WriteOutcome)
    requires { 0 < length buffer.old }
{
    let visit = proxy.visit_client(client, reader, writer, buffer);
    (visit.read == Read::Failed, visit.written)
}

/// Returns the result of a write.
fn progress<W>(written: WriteOutcome, writer: &Output<W>) -> Progress {
    if written == WriteOutcome::All && !writer.has_failed() {
        Progress::Waits
    } else {
        after_write(writer)
    }
}
