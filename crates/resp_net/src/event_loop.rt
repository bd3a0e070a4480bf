//! The loop over the listener and the connections that are ready.

ghost use Rattle.std.specs.Prelude.{◌≡◌, ◌<◌, ◌≤◌, [], None, Some, IfOk, OnOk, length, slice_get, vec_len};
ghost use Rattle.resp_net.specs.Placing.{ArePlaced, KeepsOthers, NoneAppears};
ghost use Rattle.resp_net.specs.Waits.{IsNoWait};

use crate::backend::Address;
use crate::closing::refuse;
use crate::listener::AcceptSocket;
use crate::service::{INPUT, Next, OWN_SOCKET, Service, Tokens, number_of};
use crate::stream::Stream;
use mio::{Events, Poll, Registry, Token};
use resp_schedule::{Backlog, OpenError, PlaceState, Schedule, Wait};
use std::alloc::{AllocError, Global};
use std::fs::Files;
use std::io;
use std::io::ErrorKind;
use std::net::Net;
use std::time::Duration;

/// The token of the listener. The tokens of the connection in a place are twice the place plus 1
/// and plus 2.
const LISTENER: usize = 0;

/// The maximum number of events that one wait returns.
const EVENTS: usize = 1_024;

/// The maximum number of connections that are accepted before the ready connections are visited.
const ACCEPTED: usize = 256;

/// The time until connections are accepted again after a failure, in milliseconds.
const PAUSE: u64 = 100;

/// The reply to a connection beyond the maximum.
const TOO_MANY: &[u8] = b"-ERR max number of clients reached\r\n";

/// A listener and its connections. Each connection has a place of the schedule.
///
/// A place is opened before its connection is made, and closed when the connection is dropped. So
/// each connection is in an open place of its own.
#[derive(Drop)]
pub struct Loop<C> {
    alloc: Global,
    poll: Poll,
    /// The listener, as long as connections are accepted.
    listener: Option<AcceptSocket>,
    schedule: Schedule,
    /// The connection in each place.
    connections: Vec<Option<C>>,
    ghost placed: { ArePlaced schedule connections.items },
}

impl<C: Drop> Loop<C> {
    ghost use Rattle.resp_schedule.specs.Places.{without};
    ghost use Rattle.resp_schedule.specs.Plans.{due_of, state_of};

    /// Listens on an address, for at most `most` connections at once. The file of a Unix socket is
    /// left when the loop ends.
    ///
    /// # Errors
    ///
    /// The error of the system if the address can't be opened. Its kind is `AddrInUse` if the
    /// address is in use, or if the path of a Unix socket has a file that is not a socket or that a
    /// program listens on.
    pub fn listen<R: Net + Files>(
        rt: &R,
        alloc: Global,
        address: &Address,
        most: usize,
    ) -> io::Result<Self> {
        let poll = Poll::new(rt)?;
        let mut listener = AcceptSocket::bind(rt, address)?;
        listener.register(poll.registry(), Token(LISTENER))?;
        Ok(Loop {
            alloc,
            poll,
            listener: Some(listener),
            schedule: Schedule::new(alloc, most),
            connections: Vec::new(alloc),
        })
    }

    /// Returns the address that the loop listens on.
    ///
    /// # Errors
    ///
    /// The error of the system if it can't be read, an error of kind `OutOfMemory` if an allocation
    /// fails, or an error of kind `NotConnected` if the loop no longer listens.
    pub fn address(&self) -> io::Result<Address> {
        match &self.listener {
            Some(listener) => listener.address(),
            None => Err(ErrorKind::NotConnected.into()),
        }
    }

    /// Returns room for the events of one wait.
    ///
    /// # Errors
    ///
    /// An error of kind `OutOfMemory` if the allocation fails.
    pub fn events(&self) -> io::Result<Events> {
        match Events::with_capacity(self.alloc, EVENTS) {
            Ok(events) => Ok(events),
            Err(_) => Err(ErrorKind::OutOfMemory.into()),
        }
    }

    /// Visits connections when they are ready, until waiting for them fails or the service's own
    /// work fails. After such an error the loop accepts no more connections. If the service accepts
    /// no more connections, the loop closes the listener, and ends when the last connection is
    /// closed and the service may end.
    ///
    /// # Errors
    ///
    /// The error of the wait, or of the service's work.
    pub fn run<T: Service<C>>(&mut self, service: &mut T, events: &mut Events) -> io::Result<()> {
        for _ in 0..u64::MAX {
            if !service.accepts() {
                self.stop();
                if self.schedule.open_places() == 0 && service.may_end() {
                    return Ok(());
                }
            }
            if let Err(error) = self.turn(service, events) {
                self.stop();
                return Err(error);
            }
        }
        Ok(())
    }

    /// Closes the listener, and accepts no more connections.
    fn stop(&mut self)
        ensures stopped { self.new.schedule.backlog ≡ Backlog.Stopped }
        ensures closed { self.new.listener ≡ None }
        ensures same { self.new.connections.items ≡ self.old.connections.items }
    {
        self.schedule.stop();
        self.listener = None;
    }

    /// Waits until a socket is ready, visits the connections that are ready or queued, and accepts
    /// connections.
    fn turn<T: Service<C>>(&mut self, service: &mut T, events: &mut Events) -> io::Result<()> {
        let timeout = self.timeout(service);
        self.poll.poll(events, timeout)?;
        service.begin_turn();
        for event in events.iter() {
            match event.token() {
                Token(LISTENER) => self.schedule.set_backlog(Backlog::Waiting),
                OWN_SOCKET => service.ready(0, event.is_read_closed()),
                INPUT => service.input_ready(event.is_read_closed()),
                Token(token) => {
                    let is_at_end = event.is_read_closed();
                    match number_of(token) {
                        Some(number) => service.ready(number, is_at_end),
                        None => self.ready(service, (token - 1) / 2, is_at_end),
                    }
                }
            }
        }
        self.visit_named(service);
        self.visit_due(service);
        if self.schedule.accepts() {
            self.accept_some(service);
        }
        service.work(self.poll.registry())
    }

    /// Returns the longest time of the next wait.
    fn timeout<T: Service<C>>(&self, service: &T) -> Option<Duration>
        ensures queued { 0 < length self.now.schedule.queue → IsNoWait result }
        ensures waiting { self.now.schedule.backlog ≡ Backlog.Waiting → IsNoWait result }
    {
        match (self.schedule.wait(), service.patience()) {
            (Wait::No, _) => Some(Duration::from_millis(0)),
            (Wait::Short, None) => Some(Duration::from_millis(PAUSE)),
            (Wait::Short | Wait::Long, patience) => patience,
        }
    }

    /// Notes that a socket of a connection is ready, and visits the connection if it is not queued.
    fn ready<T: Service<C>>(&mut self, service: &mut T, place: usize, is_at_end: bool)
        ensures others { KeepsOthers self.old.connections.items self.new.connections.items place }
    {
        note_one(&mut self.connections, service, place, is_at_end);
        self.visit_idle(service, place);
    }

    /// Visits a connection that is not queued. A queued connection is visited when it is its turn.
    fn visit_idle<T: Service<C>>(&mut self, service: &mut T, place: usize)
        ensures others { KeepsOthers self.old.connections.items self.new.connections.items place }
    {
        if let PlaceState::Idle = self.schedule.state(place) {
            self.visit(service, place);
        }
    }

    /// Visits the connections that the service names.
    fn visit_named<T: Service<C>>(&mut self, service: &mut T) {
        for _ in 0..u64::MAX {
            let Some(place) = service.next_due() else {
                return;
            };
            self.visit_idle(service, place);
        }
    }

    /// Visits each connection that was queued before this round.
    fn visit_due<T: Service<C>>(&mut self, service: &mut T)
        ensures over { self.new.schedule.gone ≡ [] }
        ensures all_are_next { due_of self.new.schedule ≡ self.new.schedule.queue }
    {
        while let Some(place) = self.schedule.next_due() {
            self.visit(service, place);
        }
    }

    /// Visits the connection in a place, and queues or closes it if the service says so.
    fn visit<T: Service<C>>(&mut self, service: &mut T, place: usize)
        ensures due { length (due_of self.new.schedule) ≤ length (due_of self.old.schedule) }
        ensures others { KeepsOthers self.old.connections.items self.new.connections.items place }
    {
        let registry = self.poll.registry();
        let next = visit_one(&mut self.connections, service, registry, place);
        self.settle(service, place, next);
    }

    /// Queues or closes a connection after its visit.
    fn settle<T: Service<C>>(&mut self, service: &mut T, place: usize, next: Next)
        ensures waits { next ≡ Next.Wait → self.new.schedule ≡ self.old.schedule }
        ensures again { next ≡ Next.Again → state_of self.old.schedule place ≡ PlaceState.Idle →
            state_of self.new.schedule place ≡ PlaceState.Queued }
        ensures closes { next ≡ Next.Close → state_of self.new.schedule place ≡ PlaceState.Closed }
        ensures due { length (due_of self.new.schedule) ≤ length (due_of self.old.schedule) }
        ensures others { KeepsOthers self.old.connections.items self.new.connections.items place }
    {
        match next {
            Next::Wait => {}
            Next::Again => self.schedule.enqueue(place),
            Next::Close => self.close(service, place),
        }
    }

    /// Closes the connection in a place, and the place.
    fn close<T: Service<C>>(&mut self, service: &mut T, place: usize)
        ensures due { due_of self.new.schedule ≡ without place (due_of self.old.schedule) }
        ensures closed { state_of self.new.schedule place ≡ PlaceState.Closed }
        ensures others { KeepsOthers self.old.connections.items self.new.connections.items place }
    {
        self.schedule.close(place);
        if let Some(slot) = self.connections.get_mut(place) {
            if let Some(connection) = slot.take() {
                service.close(connection);
            }
        }
    }

    /// Accepts waiting connections.
    fn accept_some<T: Service<C>>(&mut self, service: &mut T) {
        for _ in 0..ACCEPTED {
            match accept(&self.listener) {
                Ok(client) => self.admit(service, client),
                Err(backlog) => {
                    self.schedule.set_backlog(backlog);
                    return;
                }
            }
        }
        self.schedule.set_backlog(Backlog::Waiting);
    }

    /// Admits an accepted client to a place, or rejects it if the maximum is reached.
    fn admit<T: Service<C>>(&mut self, service: &mut T, client: Stream) {
        match self.open() {
            Ok(place) => self.fill(service, client, place),
            Err(OpenError::Full) => {
                refuse(&client, TOO_MANY);
                service.reject();
            }
            Err(OpenError::Stopped | OpenError::OutOfMemory) => service.lose(),
        }
    }

    /// Opens a place, with room for its connection.
    fn open(&mut self) -> Result<usize, OpenError>
        ensures idle { IfOk result (λ place. state_of self.new.schedule place ≡ PlaceState.Idle) }
        ensures vacant { IfOk result (λ place.
            slice_get self.new.connections.items place ≡ Some None) }
    {
        let place = self.schedule.open()?;
        if make_room(&mut self.connections, place).is_err() {
            self.schedule.close(place);
            return Err(OpenError::OutOfMemory);
        }
        Ok(place)
    }

    /// Puts the connection of an accepted client into an open place. If an allocation or a socket
    /// fails, the client and the place are closed.
    fn fill<T: Service<C>>(&mut self, service: &mut T, client: Stream, place: usize)
        requires idle { state_of self.old.schedule place ≡ PlaceState.Idle }
        requires vacant { slice_get self.old.connections.items place ≡ Some None }
        ensures others { KeepsOthers self.old.connections.items self.new.connections.items place }
    {
        let first = place.saturating_mul(2);
        let tokens = Tokens {
            place,
            client: Token(first.saturating_add(1)),
            server: Token(first.saturating_add(2)),
        };
        match service.admit(client, self.poll.registry(), tokens) {
            Ok(connection) => self.connections[place] = Some(connection),
            Err(_) => self.schedule.close(place),
        }
    }
}

/// Accepts a connection.
///
/// # Errors
///
/// Whether connections may wait, if none is accepted.
fn accept(listener: &Option<AcceptSocket>) -> Result<Stream, Backlog> {
    let Some(listener) = listener else {
        return Err(Backlog::Empty);
    };
    match listener.accept() {
        Ok(client) => Ok(client),
        Err(error) if error.kind() == ErrorKind::WouldBlock => Err(Backlog::Empty),
        Err(_) => Err(Backlog::Failing),
    }
}

/// Notes that a socket of the connection in a place is ready, if there is one.
fn note_one<C: Drop, T: Service<C>>(
    connections: &mut Vec<Option<C>>,
    service: &mut T,
    place: usize,
    is_at_end: bool,
)
    ensures same { NoneAppears connections.old.items connections.new.items }
    ensures others { KeepsOthers connections.old.items connections.new.items place }
{
    if let Some(Some(connection)) = connections.get_mut(place) {
        service.note_ready(connection, is_at_end);
    }
}

/// Visits the connection in a place, if there is one.
fn visit_one<C: Drop, T: Service<C>>(
    connections: &mut Vec<Option<C>>,
    service: &mut T,
    registry: &Registry,
    place: usize,
) -> Next
    ensures same { NoneAppears connections.old.items connections.new.items }
    ensures others { KeepsOthers connections.old.items connections.new.items place }
{
    match connections.get_mut(place) {
        Some(Some(connection)) => service.visit(connection, registry),
        _ => Next::Wait,
    }
}

/// Makes room for the connection in a place.
///
/// # Errors
///
/// `AllocError` if an allocation fails.
fn make_room<C: Drop>(connections: &mut Vec<Option<C>>, place: usize) -> Result<(), AllocError>
    ensures room { OnOk result (place < vec_len connections.new) }
    ensures same { NoneAppears connections.old.items connections.new.items }
{
    while connections.len() <= place {
        connections.push(None)?;
    }
    Ok(())
}
