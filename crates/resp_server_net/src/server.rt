//! The server: its loop, its store, and what it does with a connection.

use crate::connection::{Connection, Incoming, Received, Rest, Room, answer};
use crate::store::Store;
use crate::torture::{Left, Torture, Tortured};
use mio::Registry;
use resp_net::backend::Address;
use resp_net::closing::{LINGER, close, drop_input};
use resp_net::deadlines::Deadlines;
use resp_net::drain::Drain;
use resp_net::event_loop::Loop;
use resp_net::register::register;
use resp_net::service::{Next, Service, Tokens, shorter};
use resp_net::stream::Stream;
use resp_server::{Client, Databases, Hub};
use resp_value::limits::Limits;
use std::alloc::Global;
use std::fs::Files;
use std::io;
use std::io::ErrorKind;
use std::net::{Net, Shutdown};
use std::rt::Clock;
use std::time::Duration;

/// A server of PING, ECHO, GET, SET, DEL and HELLO.
pub type Server<S> = StoreServer<u64, Hub<S>>;

/// A server of the 16 databases of [`Databases`], for tests.
pub type TestServer<S> = StoreServer<Client, Databases<S>>;

/// A server for many clients at once, over one store. `C` is the store's type for a client.
///
/// A connection is not read while a reply to it waits to be written, and none of its commands is run
/// while more than `held` bytes wait. So at most `held` bytes and one reply wait for a client.
/// Connections with much to do are served in turns.
///
/// If SIGTERM or SIGINT comes and was blocked at the start, the server drains: it accepts no more clients,
/// reads nothing more, and closes each client once its replies were written.
#[derive(Drop)]
pub struct StoreServer<C, T> {
    connections: Loop<Connection<C>>,
    replies: Replies<T>,
}

/// How a [`StoreServer`] works.
#[derive(Clone, Copy)]
pub struct ServerSettings {
    /// The limits within which commands are read.
    pub limits: Limits,
    /// The most clients at once.
    pub most: usize,
    /// No command is run while more bytes than this wait to be written to its client.
    pub held: usize,
    /// The time after which a server that drains closes the clients that are still open.
    pub drain_timeout: Duration,
    /// The seed of other encodings and of pieces, if clients are tested with these.
    pub torture: Option<u64>,
}

/// Runs the commands of all connections in one store.
#[derive(Drop)]
struct Replies<T> {
    store: T,
    room: Room,
    drain: Drain,
    /// The times at which the connections of clients to which nothing more is sent are closed.
    lingering: Deadlines,
    /// The times at which pauses between two pieces end.
    pauses: Deadlines,
    /// The seed of other encodings and of pieces, if clients are tested with these.
    torture: Option<u64>,
    /// The time of this turn of the loop.
    now: Duration,
}

/// The replies with the runtime.
#[derive(Drop)]
struct ServingReplies<'a, R, T> {
    replies: &'a mut Replies<T>,
    rt: &'a R,
}

impl<C: Drop, T: Store<C> + Drop> StoreServer<C, T> {
    /// Listens on an address.
    ///
    /// # Errors
    ///
    /// The error of the system if the address can't be opened, or an error of kind `OutOfMemory`.
    pub fn listen<R: Net + Files + Alloc>(
        rt: &R,
        alloc: Global,
        address: &Address,
        settings: ServerSettings,
        hasher: T::Hasher,
    ) -> io::Result<Self> {
        let Ok(store) = T::make(alloc, settings.limits, hasher) else {
            return Err(ErrorKind::OutOfMemory.into());
        };
        Ok(StoreServer {
            connections: Loop::listen(rt, alloc, address, settings.most)?,
            replies: Replies {
                store,
                room: Room::new(alloc, settings.held),
                drain: Drain::new(rt, settings.drain_timeout),
                lingering: Deadlines::new(alloc),
                pauses: Deadlines::new(alloc),
                torture: settings.torture,
                now: Duration::from_millis(0),
            },
        })
    }

    /// Returns the address that the server listens on.
    ///
    /// # Errors
    ///
    /// The error of the system if it can't be read, or an error of kind `OutOfMemory` if an allocation
    /// fails.
    pub fn address(&self) -> io::Result<Address> {
        self.connections.address()
    }

    /// Serves all connections until waiting for them fails, or until the server has drained.
    ///
    /// # Errors
    ///
    /// The error of that wait, or an error of kind `OutOfMemory` if the first allocation fails.
    pub fn run<R: Files + Clock + Alloc>(&mut self, rt: &R) -> io::Result<()> {
        let mut events = self.connections.events()?;
        let replies = &mut self.replies;
        self.connections
            .run(&mut ServingReplies { replies, rt }, &mut events)
    }
}

impl<T> Replies<T> {
    /// Returns the torture of a new client, if clients are tortured.
    fn torture_of_client(&self) -> io::Result<Option<Box<Torture>>> {
        let Some(seed) = self.torture else {
            return Ok(None);
        };
        let alloc = self.room.alloc;
        match Box::new(alloc, Torture::new(alloc, seed)) {
            Ok(torture) => Ok(Some(torture)),
            Err(_) => Err(ErrorKind::OutOfMemory.into()),
        }
    }

    /// Runs the commands of a client, and writes the replies.
    fn visit<C: Drop>(&mut self, clock: &impl Clock, connection: &mut Connection<C>) -> Next
    where
        T: Store<C>,
    {
        if self.drain.is_over() {
            return Next::Close;
        }
        let until = connection.until;
        if let Some(until) = until {
            if until <= self.now {
                return Next::Close;
            }
            return drop_input(&connection.stream, &mut self.room.buffer);
        }
        if self.drain.has_begun() {
            connection.incoming = Incoming::Shut;
        }
        let next = match connection.torture.take() {
            Some(torture) => {
                let mut torture = torture;
                let next = self.answer_tortured(clock, connection, &mut torture);
                connection.torture = Some(torture);
                next
            }
            None => self.answer(connection),
        };
        match next {
            Next::Close => self.linger(connection),
            Next::Wait | Next::Again => next,
        }
    }

    /// Runs the commands of a client, and writes the replies as they are.
    fn answer<C: Drop>(&mut self, connection: &mut Connection<C>) -> Next
    where
        T: Store<C>,
    {
        let received = Received::new(&connection.stream, connection.incoming);
        let may_have_ended = received.may_have_ended();
        answer(
            received,
            &connection.stream,
            &mut self.store,
            &mut connection.client,
            &mut self.room,
            &mut connection.rest,
            may_have_ended,
        )
    }

    /// Runs the commands of a client if no bytes wait for it, and writes the next piece of the replies.
    fn answer_tortured<C: Drop>(
        &mut self,
        clock: &impl Clock,
        connection: &mut Connection<C>,
        torture: &mut Torture,
    ) -> Next
    where
        T: Store<C>,
    {
        torture.pieces.look(self.now);
        let mut next = Next::Wait;
        if !torture.is_busy() && !torture.is_closing {
            let received = Received::new(&connection.stream, connection.incoming);
            let may_have_ended = received.may_have_ended();
            let tortured = Tortured {
                torture: &mut *torture,
            };
            next = answer(
                received,
                tortured,
                &mut self.store,
                &mut connection.client,
                &mut self.room,
                &mut connection.rest,
                may_have_ended,
            );
            torture.is_closing = next == Next::Close;
        }
        match torture.send(&connection.stream, self.now) {
            Left::Failed => Next::Close,
            Left::Nothing if torture.is_closing => Next::Close,
            Left::Nothing => next,
            Left::Later => {
                let place = connection.place;
                torture
                    .pieces
                    .settle(clock, self.now, place, &mut self.pauses, Next::Wait)
            }
        }
    }

    /// Sends nothing more to a client, whose replies were written, and closes its connection once the client
    /// has closed its side or [`LINGER`] has passed.
    fn linger<C>(&mut self, connection: &mut Connection<C>) -> Next {
        let _ = connection.stream.shutdown(Shutdown::Write);
        let next = drop_input(&connection.stream, &mut self.room.buffer);
        let until = self.now.saturating_add(Duration::from_millis(LINGER));
        if next == Next::Close || self.lingering.add(until, connection.place).is_err() {
            return Next::Close;
        }
        connection.until = Some(until);
        next
    }
}

impl<R: Files + Clock + Alloc, C: Drop, T: Store<C>> Service<Connection<C>>
    for ServingReplies<'_, R, T> {
    fn admit(
        &mut self,
        client: Stream,
        registry: &Registry,
        tokens: Tokens,
    ) -> io::Result<Connection<C>> {
        let mut stream = client;
        register(&mut stream, registry, tokens.client)?;
        let torture = self.replies.torture_of_client()?;
        let client = self.replies.store.admit().ok_or(ErrorKind::OutOfMemory)?;
        self.replies.drain.note_place(tokens.place);
        Ok(Connection {
            stream,
            place: tokens.place,
            client,
            rest: Rest::new(self.replies.room.alloc),
            incoming: Incoming::Open,
            until: None,
            torture,
        })
    }

    fn lose(&mut self) {}

    fn reject(&mut self) {}

    fn begin_turn(&mut self) {
        if let Ok(now) = self.rt.monotonic() {
            self.replies.now = now;
        }
    }

    fn note_ready(&mut self, connection: &mut Connection<C>, is_at_end: bool) {
        if is_at_end && connection.incoming == Incoming::Open {
            connection.incoming = Incoming::MayHaveEnded;
        }
    }

    fn visit(&mut self, connection: &mut Connection<C>, _registry: &Registry) -> Next {
        self.replies.visit(self.rt, connection)
    }

    fn close(&mut self, connection: Connection<C>) {
        let Connection { stream, client, .. } = connection;
        self.replies.store.part(client);
        close(&stream);
    }

    fn accepts(&self) -> bool {
        !self.replies.drain.has_begun()
    }

    fn patience(&self) -> Option<Duration> {
        let now = self.replies.now;
        let of_ends = shorter(
            self.replies.drain.patience(now),
            self.replies.lingering.patience(now),
        );
        shorter(of_ends, self.replies.pauses.patience(now))
    }

    fn work(&mut self, _registry: &Registry) -> io::Result<()> {
        let now = self.replies.now;
        self.replies.drain.look(self.rt, now);
        Ok(())
    }

    fn next_due(&mut self) -> Option<usize> {
        let now = self.replies.now;
        if let Some(place) = self.replies.drain.next_place() {
            return Some(place);
        }
        match self.replies.lingering.next_place(now) {
            Some(place) => Some(place),
            None => self.replies.pauses.next_place(now),
        }
    }
}
