//! The proxy with its connections: what it does with a client, and with the server.

use crate::channel::{Channel, NOT_CONNECTED};
use crate::learner::{Learned, Learner};
use crate::messages::{Messages, Topic};
use crate::proxied::{ClientPath, Move, Proxied, Seat};
use crate::proxying::ProxySettings;
use crate::server_link::ServerLink;
use mio::Registry;
use resp_board::ClientId;
use resp_net::backend::Backend;
use resp_net::cause::cause_of;
use resp_net::closing::{LINGER, refuse};
use resp_net::deadlines::Deadlines;
use resp_net::drain::Drain;
use resp_net::lane::PIECE;
use resp_net::service::{Next, Tokens, shorter};
use resp_net::spare::Spare;
use resp_net::stream::Stream;
use resp_proxy::{Counted, Numbers, Proxy, Setting, Times};
use std::alloc::{AllocError, Global};
use std::fs::{File, Files};
use std::io;
use std::io::ErrorKind;
use std::net::Net;
use std::random::RandomSource;
use std::rt::Clock;
use std::time::Duration;

/// The most bytes of one read of a client.
const CLIENT_PIECE: usize = PIECE;

/// The most bytes of one read of the server.
const SERVER_PIECE: usize = 65_536;

/// The proxy, its connections to the server, and the clients that move between them.
#[derive(Drop)]
pub(crate) struct Relay {
    pub(crate) alloc: Global,
    pub(crate) settings: ProxySettings,
    pub(crate) proxy: Proxy,
    /// The settings that clients are in. In the first one every client begins.
    pub(crate) channels: Vec<Channel>,
    /// The place of the connection of each client, indexed by the place in the client's id.
    places: Vec<usize>,
    /// The next client that got a reply which was not written.
    next: Option<ClientId>,
    /// The names of the commands that are admitted although the table does not have them.
    also: Vec<Vec<u8>>,
    /// The times at which clients that wait for another connection are given up.
    pub(crate) moves: Deadlines,
    /// The times at which the connections of clients to which nothing more is sent are closed.
    closing: Deadlines,
    drain: Drain,
    /// Whether the server was asked for its commands since the connection to it was opened.
    has_learned: bool,
    pub(crate) messages: Messages,
    client_buffer: [u8; CLIENT_PIECE],
    server_buffer: [u8; SERVER_PIECE],
}

impl Relay {
    /// Admits a command of this name, as [`resp_proxy::Proxy::admit`] does, unless it was admitted before.
    pub(crate) fn admit(&mut self, name: &[u8]) -> Result<(), AllocError> {
        if self.has_admitted(name) {
            return Ok(());
        }
        let copy = name.to_vec(self.alloc)?;
        if self.also.push(copy).is_err() {
            return Err(AllocError);
        }
        self.proxy.admit(name)
    }

    /// Returns whether a command of this name was admitted.
    fn has_admitted(&self, name: &[u8]) -> bool {
        self.also.iter().any(|admitted| admitted.as_slice() == name)
    }

    /// Asks the server for its commands, once after each time that it was connected.
    pub(crate) fn learn<L: Learner>(&mut self, clock: &impl Clock, learner: &mut L) {
        if !self.is_connected() {
            self.has_learned = false;
            return;
        }
        if self.has_learned {
            return;
        }
        self.has_learned = true;
        let answer = learner.learn();
        self.look_at_clock(clock);
        if let Ok(Some(learned)) = &answer {
            self.take_learned(learned);
        }
        drop(answer);
    }

    /// Admits the commands that the server has named, and prints a message about them.
    fn take_learned(&mut self, learned: &Learned) {
        for name in &learned.names {
            // Without memory the proxy does not know this command.
            let _ = self.admit(name);
        }
        let (words, why) = (learned.words.as_str(), learned.why.as_str());
        let now = self.now();
        self.messages.add(now, Topic::Learned, words, "", why);
    }

    /// Returns whether the connection of the first setting is open.
    fn is_connected(&self) -> bool {
        match self.channels.first() {
            Some(first) => first.link.is_open(),
            None => false,
        }
    }

    /// Returns a relay without clients, before the first attempt to connect to the server.
    ///
    /// # Errors
    ///
    /// An error of the system, or an error of kind `OutOfMemory`.
    pub(crate) fn new<R: Net + Files<File = File> + Alloc>(
        rt: &R,
        alloc: Global,
        backend: Backend,
        login: Vec<u8>,
        settings: ProxySettings,
    ) -> io::Result<Self> {
        let setting = Setting::first(alloc)?;
        let spare = Spare::new(rt);
        let messages = Messages::new(rt, alloc)?;
        let link = ServerLink::new(alloc, backend, 0, login, settings.patience, spare);
        let mut proxy = Proxy::new(alloc, settings.proxy)?;
        let first = Channel::new(alloc, &mut proxy, link, &setting, String::new(alloc))?;
        let channels = only(alloc, first)?;
        Ok(Relay {
            alloc,
            settings,
            proxy,
            channels,
            places: Vec::new(alloc),
            next: None,
            also: Vec::new(alloc),
            moves: Deadlines::new(alloc),
            closing: Deadlines::new(alloc),
            drain: Drain::new(rt, settings.drain_timeout),
            has_learned: false,
            messages,
            client_buffer: [0; CLIENT_PIECE],
            server_buffer: [0; SERVER_PIECE],
        })
    }

    /// Opens a client for a connection with these tokens.
    ///
    /// # Errors
    ///
    /// An error of kind `OutOfMemory`. The socket is closed.
    pub(crate) fn open(&mut self, stream: Stream, tokens: Tokens) -> io::Result<Proxied> {
        let Some(first) = self.channels.first_mut() else {
            return Err(ErrorKind::OutOfMemory.into());
        };
        let Ok(client) = self.proxy.open(&first.line) else {
            return Err(ErrorKind::OutOfMemory.into());
        };
        if set_at(&mut self.places, client.id().place, tokens.place).is_err() {
            self.proxy.close(client);
            return Err(ErrorKind::OutOfMemory.into());
        }
        first.add_client();
        self.drain.note_place(tokens.place);
        Ok(Proxied::new(stream, tokens, client))
    }

    /// Closes the client of a connection, and returns the socket.
    pub(crate) fn close(&mut self, connection: Proxied) -> Stream {
        let mut connection = connection;
        self.end(connection.take_link());
        connection.into_stream()
    }

    /// Closes a client by its link.
    fn end(&mut self, link: ClientPath) {
        match link {
            ClientPath::Shared(seat) => self.close_seat(seat),
            ClientPath::Moving(moving) => self.close_moving(Box::into_inner(moving)),
            ClientPath::Own(own) => {
                self.count(Counted::OwnClosed);
                drop(own);
            }
            ClientPath::Closing(_) | ClientPath::Closed => {}
        }
    }

    /// Closes a client of the proxy.
    pub(crate) fn close_seat(&mut self, seat: Seat) {
        let Seat { number, client } = seat;
        self.proxy.close(client);
        if let Some(channel) = self.channels.get_mut(number) {
            channel.remove_client();
        }
    }

    /// Closes a client that waits for a connection in another setting.
    pub(crate) fn close_moving(&mut self, moving: Move) {
        let Move {
            seat,
            plan,
            arrival,
            ..
        } = moving;
        drop(plan);
        drop(arrival);
        self.close_seat(seat);
    }

    /// Counts an event.
    pub(crate) fn count(&mut self, counted: Counted) {
        self.proxy.count(counted);
    }

    /// Begins to drain: nothing more is read from clients, and each is closed when its commands have
    /// their replies.
    pub(crate) fn drain(&mut self) {
        let now = self.now();
        self.drain.begin(now);
    }

    /// Returns whether the relay has begun to drain.
    pub(crate) fn is_draining(&self) -> bool {
        self.drain.has_begun()
    }

    /// Returns the current time.
    pub(crate) fn now(&self) -> Duration {
        match self.channels.first() {
            Some(first) => first.link.now(),
            None => Duration::from_millis(0),
        }
    }

    /// Returns the numbers of the proxy, and how long replies took.
    pub(crate) fn numbers(&self) -> (Numbers, Times) {
        (self.proxy.numbers(), self.proxy.times())
    }

    /// Reads and writes the sockets of a client.
    pub(crate) fn visit<R: Net + RandomSource>(
        &mut self,
        rt: &R,
        connection: &mut Proxied,
        registry: &Registry,
    ) -> Next {
        if self.drain.is_over() {
            return Next::Close;
        }
        if let Some(until) = connection.closing_until() {
            return self.drop_input(connection, until);
        }
        match self.visit_open(rt, connection, registry) {
            Next::Close => self.begin_close(connection),
            next => next,
        }
    }

    /// Closes the client of a connection, whose replies were written, and the connection once its client has
    /// closed its side or [`LINGER`] has passed.
    fn begin_close(&mut self, connection: &mut Proxied) -> Next {
        self.end(connection.take_link());
        let until = self.now().saturating_add(Duration::from_millis(LINGER));
        connection.close_until(until);
        let next = connection.drop_input(&mut self.client_buffer);
        if next == Next::Close || self.closing.add(until, connection.place()).is_err() {
            return Next::Close;
        }
        next
    }

    /// Drops what a client sends to whom nothing more is sent, until this time.
    fn drop_input(&mut self, connection: &mut Proxied, until: Duration) -> Next {
        if until <= self.now() {
            return Next::Close;
        }
        connection.drop_input(&mut self.client_buffer)
    }

    /// Reads and writes the sockets of a client that is open.
    fn visit_open<R: Net + RandomSource>(
        &mut self,
        rt: &R,
        connection: &mut Proxied,
        registry: &Registry,
    ) -> Next {
        if self.is_draining() {
            connection.shut_own();
        }
        let is_late = match connection.own_since() {
            Some(since) => self.is_late(since),
            None => false,
        };
        match connection.forward(is_late, &mut self.client_buffer) {
            Ok(Some(next)) => return next,
            Ok(None) => {}
            Err(error) => return self.give_up(connection, &error),
        }
        if connection.seat().is_some() {
            return self.visit_shared(rt, connection, registry);
        }
        match connection.take_move() {
            Some(moving) => self.go_on_moving(rt, connection, registry, moving),
            None => Next::Close,
        }
    }

    /// Reads and writes the socket of a client that shares a connection.
    fn visit_shared<R: Net + RandomSource>(
        &mut self,
        rt: &R,
        connection: &mut Proxied,
        registry: &Registry,
    ) -> Next {
        let Some((number, who)) = connection.seat() else {
            return Next::Close;
        };
        let (is_draining, may_leave) = (self.is_draining(), self.may_leave());
        let Some(channel) = self.channels.get_mut(number) else {
            return Next::Close;
        };
        if channel.is_condemned(who) {
            return Next::Close;
        }
        let proxy = &mut self.proxy;
        if is_draining {
            connection.shut(proxy);
        }
        proxy.admit_own(may_leave);
        let before = proxy.waiting(&channel.line);
        let next = connection.visit(proxy, &mut self.client_buffer);
        connection.note_leaving(channel.link.now());
        let queued = proxy.waiting(&channel.line).saturating_sub(before);
        channel.note_queued(rt, proxy, queued, self.settings.check_every);
        channel.send_eagerly(rt, proxy, &mut self.messages);
        if connection.unread(proxy) > self.settings.unread {
            proxy.count(Counted::Unread);
            return Next::Close;
        }
        if connection.leaves(proxy) {
            return self.leave(rt, connection, registry);
        }
        if next == Next::Wait && connection.waits_for_room() {
            return wait_for_room(channel, proxy, connection, self.settings.proxy.unsent);
        }
        next
    }

    /// Returns whether a client may get another connection.
    fn may_leave(&self) -> bool {
        self.settings.lines > 1 || self.may_give_own()
    }

    /// Returns whether a client may get a connection of its own.
    pub(crate) fn may_give_own(&self) -> bool {
        self.proxy.own_clients() < self.settings.own as u64
    }

    /// Tells a client that it gets no connection of its own, and why.
    pub(crate) fn give_up(&self, connection: &Proxied, error: &io::Error) -> Next {
        let cause = cause_of(error);
        let reply = format!(in self.alloc; "-ERR cannot connect to server: {cause}\r\n");
        match &reply {
            Ok(reply) => refuse(connection.stream(), reply.as_str().as_bytes()),
            Err(_) => refuse(connection.stream(), NOT_CONNECTED),
        }
        Next::Close
    }

    /// Returns the place of the next connection whose client got a reply or room.
    pub(crate) fn next_due(&mut self) -> Option<usize> {
        if let Some(place) = self.next_replied_place() {
            return Some(place);
        }
        if let Some(place) = self.next_late() {
            return Some(place);
        }
        if let Some(place) = self.drain.next_place() {
            return Some(place);
        }
        for channel in &mut self.channels {
            if let Some(place) = channel.next_stalled_place(
                &self.proxy,
                self.settings.proxy.unsent,
            ) {
                return Some(place);
            }
        }
        None
    }

    /// Returns the place of the next connection whose client got a reply.
    fn next_replied_place(&mut self) -> Option<usize> {
        for _ in 0..u64::MAX {
            let who = self.next_replied()?;
            if let Some(place) = self.places.get(who.place) {
                return Some(*place);
            }
        }
        None
    }

    /// Returns the next client that got a reply which was not written.
    fn next_replied(&mut self) -> Option<ClientId> {
        self.next
            .take()
            .or_else(|| self.next_noted())
            .or_else(|| self.next_condemned())
    }

    /// Returns the next client that was replied to, which is not the proxy's own.
    fn next_noted(&mut self) -> Option<ClientId> {
        for _ in 0..u64::MAX {
            let who = self.proxy.next_replied()?;
            if !self.is_prober(who) {
                return Some(who);
            }
        }
        None
    }

    /// Returns whether this is the proxy's own client that sends probes over a line.
    fn is_prober(&self, who: ClientId) -> bool {
        self.channels
            .iter()
            .any(|channel| channel.line.is_prober(who))
    }

    /// Returns the next client that is closed at its next visit.
    fn next_condemned(&mut self) -> Option<ClientId> {
        for channel in &mut self.channels {
            if let Some(who) = channel.next_condemned() {
                return Some(who);
            }
        }
        None
    }

    /// Returns the place of the next client that has waited too long for a connection, or that has not
    /// closed its side in time.
    fn next_late(&mut self) -> Option<usize> {
        let now = self.now();
        match self.moves.next_place(now) {
            Some(place) => Some(place),
            None => self.closing.next_place(now),
        }
    }

    /// Returns the longest time of the next wait.
    pub(crate) fn patience(&self) -> Option<Duration> {
        if self.next.is_some() {
            return Some(Duration::from_millis(0));
        }
        let now = self.now();
        let mut shortest = shorter(self.moves.patience(now), self.closing.patience(now));
        shortest = shorter(shortest, self.drain.patience(now));
        shortest = shorter(shortest, self.messages.patience(now));
        for channel in &self.channels {
            if channel.has_work(&self.proxy, self.settings.proxy.unsent) {
                return Some(Duration::from_millis(0));
            }
            shortest = shorter(shortest, channel.patience(&self.proxy));
        }
        shortest
    }

    /// Reads and writes the socket of the server with this number after it became ready.
    pub(crate) fn ready<R: Net + Clock>(&mut self, rt: &R, number: usize, is_at_end: bool) {
        self.look_at_clock(rt);
        if let Some(channel) = self.channels.get_mut(number) {
            channel.link.note_ready(is_at_end);
            let (proxy, messages) = (&mut self.proxy, &mut self.messages);
            channel.exchange(rt, proxy, messages, &mut self.server_buffer);
        }
    }

    /// Notes the current time, if the clock can be read.
    pub(crate) fn look_at_clock(&mut self, clock: &impl Clock) {
        if let Ok(now) = clock.monotonic() {
            for channel in &mut self.channels {
                channel.link.set_now(now);
            }
        }
    }

    /// Writes the commands that wait for the server, reads replies, and connects to the server
    /// where there is no connection.
    pub(crate) fn work<R: Net + Clock + Eprint + Files + Alloc>(
        &mut self,
        rt: &R,
        registry: &Registry,
    ) {
        self.look_at_clock(rt);
        let (proxy, messages) = (&mut self.proxy, &mut self.messages);
        for channel in &mut self.channels {
            channel.work(rt, proxy, messages, registry, &mut self.server_buffer);
        }
        self.next = self.next_replied();
        self.count_idle();
        let now = self.now();
        self.drain.look(rt, now);
        self.messages.print(now, rt);
    }

    /// Counts the settings that no client is in.
    fn count_idle(&mut self) {
        let mut idle = 0;
        for channel in &self.channels {
            if channel.is_free(&self.proxy) {
                idle = usize::saturating_add(idle, 1);
            }
        }
        self.proxy.set_idle_lines(idle);
    }

    /// Counts a client that was rejected.
    pub(crate) fn reject(&mut self) {
        self.count(Counted::Rejected);
    }
}

/// Returns when a client is visited next that is to be read, after a visit which left nothing else to do.
/// Bytes for the server may have been sent since it was not read, so there may be room now.
fn wait_for_room(
    channel: &mut Channel,
    proxy: &Proxy,
    connection: &Proxied,
    unsent: usize,
) -> Next {
    if connection.has_room(proxy) {
        return Next::Again;
    }
    if !channel.is_full(proxy, unsent) {
        // It is visited when it gets a reply, or when its socket accepts bytes.
        return Next::Wait;
    }
    match channel.stall(connection.place()) {
        Ok(()) => Next::Wait,
        Err(AllocError) => Next::Close,
    }
}

/// Returns a list of this channel.
fn only(alloc: Global, channel: Channel) -> Result<Vec<Channel>, AllocError> {
    let mut channels = Vec::new(alloc);
    add(&mut channels, channel)?;
    Ok(channels)
}

/// Adds a channel behind the others. It is dropped if there is no memory for it.
pub(crate) fn add(channels: &mut Vec<Channel>, channel: Channel) -> Result<(), AllocError> {
    let pushed = channels.push(channel);
    let is_pushed = pushed.is_ok();
    drop(pushed);
    if is_pushed { Ok(()) } else { Err(AllocError) }
}

/// Sets the value at an index, and makes the list longer if needed.
fn set_at(list: &mut Vec<usize>, index: usize, value: usize) -> Result<(), AllocError> {
    let length = index.checked_add(1).ok_or(AllocError)?;
    if list.len() < length {
        list.resize(length, 0)?;
    }
    list[index] = value;
    Ok(())
}
