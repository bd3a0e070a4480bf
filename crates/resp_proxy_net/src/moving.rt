//! How clients of the proxy move to another setting, or to a connection of their own.

use crate::arrival::{Arrival, Arrived, REJECTED};
use crate::channel::{Channel, NOT_CONNECTED};
use crate::own::Own;
use crate::plan::{OwnRefusal, Plan};
use crate::proxied::{Move, Proxied, Seat};
use crate::relay::{Relay, add};
use crate::server_link::ServerLink;
use mio::Registry;
use resp_net::cause::cause_of;
use resp_net::closing::refuse;
use resp_net::service::Next;
use resp_net::spare::Spare;
use resp_proxy::{Counted, Ending, Setting};
use std::alloc::AllocError;
use std::io;
use std::io::ErrorKind;
use std::net::Net;
use std::time::Duration;

/// How a client gets to the setting that it wants.
#[derive(Clone, Copy)]
enum MovePath {
    /// Over a connection of its own.
    Own,
    /// Over the connection of the setting of this number, which is open.
    Open(usize),
    /// Over a connection that is opened for it.
    New,
}

impl Relay {
    /// Gives a client the connection that its next command needs.
    pub(crate) fn leave<R: Net>(
        &mut self,
        rt: &R,
        connection: &mut Proxied,
        registry: &Registry,
    ) -> Next {
        let Some(seat) = connection.take_seat() else {
            return Next::Wait;
        };
        match self.plan_of(&seat) {
            Ok(Some(plan)) => self.follow(rt, connection, registry, seat, plan),
            Ok(None) => self.give_own(rt, connection, registry, seat),
            Err(AllocError) => self.close_client(seat),
        }
    }

    /// Returns the plan of a client, or `None` if it needs a connection of its own.
    fn plan_of(&self, seat: &Seat) -> Result<Option<Plan>, AllocError> {
        let Some(channel) = self.channels.get(seat.number) else {
            return Ok(None);
        };
        let limits = &self.settings.proxy.limits;
        Plan::of(self.alloc, &seat.client, channel.line.setting(), limits)
    }

    /// Closes a client of the proxy, and its connection.
    fn close_client(&mut self, seat: Seat) -> Next {
        self.close_seat(seat);
        Next::Close
    }

    /// Moves a client to the setting that it wants, or begins to open a connection for it.
    fn follow<R: Net>(
        &mut self,
        rt: &R,
        connection: &mut Proxied,
        registry: &Registry,
        seat: Seat,
        plan: Plan,
    ) -> Next {
        match self.way_of(&plan) {
            MovePath::Own => {
                drop(plan);
                self.give_own(rt, connection, registry, seat)
            }
            MovePath::Open(number) => self.enter(connection, number, seat, plan),
            MovePath::New => match self.begin(rt, connection, registry, &seat, &plan) {
                Ok(arrival) => {
                    let since = self.waits_since(connection, seat.number);
                    self.wait(
                        connection,
                        Move {
                            seat,
                            plan,
                            arrival,
                            since,
                        },
                    )
                }
                Err(error) => self.stay(connection, seat, plan, &error),
            },
        }
    }

    /// Returns how a client gets to the setting that it wants.
    fn way_of(&self, plan: &Plan) -> MovePath {
        if self.settings.lines <= 1 {
            return MovePath::Own;
        }
        let Some(setting) = &plan.setting else {
            return MovePath::New;
        };
        match self.find(setting) {
            Some(number) if !plan.has_password && self.is_ready(number) => MovePath::Open(number),
            Some(_) => MovePath::New,
            None if self.free_number().is_none() => MovePath::Own,
            None => MovePath::New,
        }
    }

    /// Starts a connection in the setting that a client wants, or in its current one if only the
    /// server knows what its command asks for.
    fn begin(
        &self,
        net: &impl Net,
        connection: &Proxied,
        registry: &Registry,
        seat: &Seat,
        plan: &Plan,
    ) -> io::Result<Arrival> {
        let Some(channel) = self.channels.get(seat.number) else {
            return Err(ErrorKind::NotConnected.into());
        };
        let link = &channel.link;
        let opening = match &plan.setting {
            Some(setting) => link.opening(setting, Ending::Setting),
            None => {
                let command = seat.client.rest().get(..plan.used).unwrap_or(b"");
                link.opening(channel.line.setting(), Ending::Command(command))
            }
        };
        let Ok(opening) = opening else {
            return Err(ErrorKind::OutOfMemory.into());
        };
        Arrival::begin(
            net,
            link.backend(),
            registry,
            connection.server_token(),
            opening,
        )
    }

    /// Lets a client wait for the pending connection.
    fn wait(&mut self, connection: &mut Proxied, moving: Move) -> Next {
        if self
            .give_up_later(connection.place(), moving.since)
            .is_err()
        {
            self.close_moving(moving);
            return Next::Close;
        }
        match Box::new(self.alloc, moving) {
            Ok(moving) => {
                connection.wait(moving);
                Next::Wait
            }
            Err(failed) => {
                self.close_moving(failed.value);
                Next::Close
            }
        }
    }

    /// Continues to open the connection that a client waits for.
    pub(crate) fn go_on_moving<R: Net>(
        &mut self,
        rt: &R,
        connection: &mut Proxied,
        registry: &Registry,
        moving: Box<Move>,
    ) -> Next {
        let mut moving = moving;
        let arrived = self.arrived(&mut moving);
        if let Ok(Arrived::No) = arrived {
            connection.wait(moving);
            return Next::Wait;
        }
        let moving = Box::into_inner(moving);
        match arrived {
            Ok(Arrived::Rejected) => self.pass_refusal(connection, moving),
            Ok(_) => self.arrive(rt, connection, registry, moving),
            Err(error) => self.pass_failure(connection, moving, &error),
        }
    }

    /// Returns the progress of the connection that a client waits for.
    ///
    /// # Errors
    ///
    /// Those of [`Arrival::go_on`], an error of kind `TimedOut` if it is given up, and an error of kind
    /// `PermissionDenied` if the server sent bytes other than replies to the commands.
    fn arrived(&self, moving: &mut Move) -> io::Result<Arrived> {
        let arrival = &mut moving.arrival;
        match arrival.go_on()? {
            Arrived::No if self.is_late(moving.since) => Err(ErrorKind::TimedOut.into()),
            Arrived::Rejected if arrival.refusal().is_empty() => Err(arrival.rejection(REJECTED)),
            arrived => Ok(arrived),
        }
    }

    /// Replies with the reason why there is no connection.
    fn pass_failure(&mut self, connection: &mut Proxied, moving: Move, error: &io::Error) -> Next {
        let Move {
            seat,
            plan,
            arrival,
            ..
        } = moving;
        let next = self.stay(connection, seat, plan, error);
        drop(arrival);
        next
    }

    /// Lets a client continue in its setting, with the error of the server as the reply.
    fn pass_refusal(&mut self, connection: &mut Proxied, moving: Move) -> Next {
        let Move {
            seat,
            plan,
            arrival,
            ..
        } = moving;
        let next = self.answer(connection, seat, used_by(plan), arrival.refusal());
        drop(arrival);
        next
    }

    /// Returns whether a connection that was started at this time is given up.
    pub(crate) fn is_late(&self, since: Duration) -> bool {
        self.now().saturating_sub(since) >= self.settings.patience
    }

    /// Moves a client to the setting that it wants, since the server has accepted the connection
    /// that it waited for. Clients share it if the setting has no other connection.
    fn arrive<R: Net>(
        &mut self,
        rt: &R,
        connection: &mut Proxied,
        registry: &Registry,
        moving: Move,
    ) -> Next {
        let Move {
            seat,
            plan,
            arrival,
            ..
        } = moving;
        match self.place_of(&plan, seat.number) {
            Ok(Some((number, setting))) => {
                match self.use_arrival(registry, number, setting, arrival) {
                    Ok(()) => self.enter(connection, number, seat, plan),
                    Err(error) => self.stay(connection, seat, plan, &error),
                }
            }
            Ok(None) => {
                let next = self.give_own(rt, connection, registry, seat);
                drop(arrival);
                drop(plan);
                next
            }
            Err(AllocError) => {
                drop(arrival);
                drop(plan);
                self.close_client(seat)
            }
        }
    }

    /// Returns a copy of the setting that a client wants, with its number, which is in use from now
    /// on. Returns `None` if only the server knows what the client wants, or too many settings are
    /// in use.
    fn place_of(
        &mut self,
        plan: &Plan,
        from: usize,
    ) -> Result<Option<(usize, Setting)>, AllocError> {
        let Some(wanted) = &plan.setting else {
            return Ok(None);
        };
        let setting = wanted.copy(self.alloc)?;
        match self.place_for(&setting, from) {
            Ok(Some(number)) => Ok(Some((number, setting))),
            Ok(None) => {
                drop(setting);
                Ok(None)
            }
            Err(AllocError) => {
                drop(setting);
                Err(AllocError)
            }
        }
    }

    /// Lets clients in the setting of this number share a connection that has arrived, if they have
    /// no other.
    fn use_arrival(
        &mut self,
        registry: &Registry,
        number: usize,
        setting: Setting,
        arrival: Arrival,
    ) -> io::Result<()> {
        if !self.renew(number, setting) {
            drop(arrival);
            return Ok(());
        }
        let (proxy, messages) = (&mut self.proxy, &mut self.messages);
        match self.channels.get_mut(number) {
            Some(channel) => channel.adopt(proxy, arrival, registry, messages),
            None => {
                drop(arrival);
                Err(ErrorKind::NotConnected.into())
            }
        }
    }

    /// Replaces the setting of this number with one that differs at most in its password. Returns
    /// whether it has no connection.
    fn renew(&mut self, number: usize, setting: Setting) -> bool {
        let now = self.now();
        let Some(channel) = self.channels.get_mut(number) else {
            drop(setting);
            return true;
        };
        channel.link.set_now(now);
        if number > 0 {
            channel.line.set_setting(setting);
        } else {
            drop(setting);
        }
        !channel.link.is_open()
    }

    /// Carries out the command with which a client asked for the setting of this number, whose
    /// connection to the server is open.
    fn enter(&mut self, connection: &mut Proxied, number: usize, seat: Seat, plan: Plan) -> Next {
        let mut seat = seat;
        let used = plan.used;
        let Some(channel) = self.channels.get(number) else {
            drop(plan);
            return self.close_client(seat);
        };
        let line = &channel.line;
        match plan.carry_out(self.alloc, &mut seat.client, line.setting(), line.hello()) {
            Ok(reply) => self.seat(connection, number, seat, used, &reply),
            Err(AllocError) => self.close_client(seat),
        }
    }

    /// Lets a client use the line of the setting of this number from now on. `used` is the number of
    /// bytes of its next command, which gets this reply.
    fn seat(
        &mut self,
        connection: &mut Proxied,
        number: usize,
        seat: Seat,
        used: usize,
        reply: &[u8],
    ) -> Next {
        let mut seat = seat;
        let used = used.min(seat.client.rest().len());
        let Some(channel) = self.channels.get_mut(number) else {
            return self.close_client(seat);
        };
        let entered = self
            .proxy
            .enter(&mut seat.client, &channel.line, used, reply);
        if entered.is_err() {
            return self.close_client(seat);
        }
        channel.add_client();
        if let Some(left) = self.channels.get_mut(seat.number) {
            left.remove_client();
        }
        seat.number = number;
        connection.enter(seat);
        Next::Again
    }

    /// Lets a client continue in its setting, with this reply to its next command.
    fn answer(&mut self, connection: &mut Proxied, seat: Seat, used: usize, reply: &[u8]) -> Next {
        let number = seat.number;
        self.seat(connection, number, seat, used, reply)
    }

    /// Replies to a command for which there is no connection, with the reason. The client is
    /// closed, unless it continues in its setting.
    fn stay(
        &mut self,
        connection: &mut Proxied,
        seat: Seat,
        plan: Plan,
        error: &io::Error,
    ) -> Next {
        let (goes_on, used) = (plan.goes_on, used_by(plan));
        if !goes_on {
            self.close_seat(seat);
            return self.give_up(connection, error);
        }
        let cause = cause_of(error);
        match format!(in self.alloc; "-ERR cannot connect to server: {cause}\r\n") {
            Ok(reply) => self.answer(connection, seat, used, reply.as_str().as_bytes()),
            Err(_) => self.answer(connection, seat, used, NOT_CONNECTED),
        }
    }

    /// Gives a client a connection of its own, or an error if no more clients may get one.
    fn give_own<R: Net>(
        &mut self,
        rt: &R,
        connection: &mut Proxied,
        registry: &Registry,
        seat: Seat,
    ) -> Next {
        if !self.may_give_own() {
            return self.refuse_own(connection, seat);
        }
        let Some(channel) = self.channels.get(seat.number) else {
            return self.close_client(seat);
        };
        let link = &channel.link;
        let Ok(opening) = link.opening(channel.line.setting(), Ending::Check) else {
            return self.close_client(seat);
        };
        let token = connection.server_token();
        match Arrival::begin(rt, link.backend(), registry, token, opening) {
            Ok(arrival) => self.wait_for_own(connection, seat, arrival),
            Err(error) => {
                self.close_seat(seat);
                self.give_up(connection, &error)
            }
        }
    }

    /// Lets a client wait for its own connection, which is pending.
    fn wait_for_own(&mut self, connection: &mut Proxied, seat: Seat, arrival: Arrival) -> Next {
        let since = self.waits_since(connection, seat.number);
        if self.give_up_later(connection.place(), since).is_err() {
            drop(arrival);
            return self.close_client(seat);
        }
        let Seat { number, client } = seat;
        let first = match self.proxy.leave(client) {
            Ok(first) => first,
            Err(client) => {
                drop(arrival);
                return self.close_client(Seat { number, client });
            }
        };
        if let Some(left) = self.channels.get_mut(number) {
            left.remove_client();
        }
        match Box::new(self.alloc, Own::new(self.alloc, arrival, since, first)) {
            Ok(own) => {
                connection.give_own(own);
                self.count(Counted::OwnOpened);
                Next::Wait
            }
            Err(failed) => {
                drop(failed.value);
                Next::Close
            }
        }
    }

    /// Returns since when a client that leaves a setting has waited for a server that does not
    /// reply: since its command needed another connection, or since the server last replied.
    fn waits_since(&self, connection: &Proxied, from: usize) -> Duration {
        let since = connection.leaving_since(self.now());
        match self.channels.get(from) {
            Some(channel) => since.max(channel.replied_at()),
            None => since,
        }
    }

    /// Notes to visit the connection in a place again at the time at which its client, which has
    /// waited since this time, gets the error that there is no connection.
    fn give_up_later(&mut self, place: usize, since: Duration) -> Result<(), AllocError> {
        let until = since.saturating_add(self.settings.patience);
        self.moves.add(until, place)
    }

    /// Tells a client that no more clients may get a connection of their own, and closes it unless
    /// it continues without one.
    fn refuse_own(&mut self, connection: &mut Proxied, seat: Seat) -> Next {
        let limits = &self.settings.proxy.limits;
        match OwnRefusal::of(self.alloc, seat.client.rest(), limits) {
            Ok(Some(refusal)) if refusal.goes_on => {
                self.answer(connection, seat, refusal.used, &refusal.reply)
            }
            Ok(Some(refusal)) => {
                refuse(connection.stream(), &refusal.reply);
                self.close_client(seat)
            }
            Ok(None) | Err(AllocError) => self.close_client(seat),
        }
    }

    /// Returns the number of a setting that is in use.
    fn find(&self, setting: &Setting) -> Option<usize> {
        self.channels
            .iter()
            .position(|channel| channel.is_in(setting))
    }

    /// Returns whether clients may enter the setting of this number now.
    fn is_ready(&self, number: usize) -> bool {
        match self.channels.get(number) {
            Some(channel) => channel.is_ready(),
            None => false,
        }
    }

    /// Returns the number for one more setting: a new one, or that of a setting without clients.
    fn free_number(&self) -> Option<usize> {
        if self.channels.len() < self.settings.lines {
            return Some(self.channels.len());
        }
        self.channels
            .iter()
            .position(|channel| channel.is_free(&self.proxy))
    }

    /// Returns the number of a setting, which is in use from now on. Returns `None` if too many are
    /// in use.
    fn place_for(&mut self, setting: &Setting, from: usize) -> Result<Option<usize>, AllocError> {
        if let Some(number) = self.find(setting) {
            return Ok(Some(number));
        }
        let Some(number) = self.free_number() else {
            return Ok(None);
        };
        self.open_channel(number, setting, from)?;
        Ok(Some(number))
    }

    /// Uses the channel with this number for a setting, or appends a channel. Its connection is not
    /// open.
    fn open_channel(
        &mut self,
        number: usize,
        setting: &Setting,
        from: usize,
    ) -> Result<(), AllocError> {
        let link = self.new_link(number, from)?;
        let shown = setting.shown(self.alloc)?;
        match self.channels.get_mut(number) {
            Some(channel) => match channel.renew(&self.proxy, link, setting, shown) {
                Ok(()) => Ok(()),
                Err(_) => Err(AllocError),
            },
            None => {
                let channel = Channel::new(self.alloc, &mut self.proxy, link, setting, shown)?;
                add(&mut self.channels, channel)
            }
        }
    }

    /// Returns a link to the server of the setting with the number `from`.
    fn new_link(&self, number: usize, from: usize) -> Result<ServerLink, AllocError> {
        let Some(channel) = self.channels.get(from) else {
            return Err(AllocError);
        };
        let backend = channel.link.backend().copy(self.alloc)?;
        let login = channel.link.login().to_vec(self.alloc)?;
        let patience = self.settings.patience;
        Ok(ServerLink::new(self.alloc, backend, number, login, patience, Spare::none()))
    }
}

/// Returns the number of bytes of the command of a plan.
fn used_by(plan: Plan) -> usize {
    let used = plan.used;
    drop(plan);
    used
}
