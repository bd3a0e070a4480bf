//! Worlds: clients and their sessions over one store, and events that happen one after another.

ghost use Rattle.std.specs.Prelude.{◌≡◌, ◌↔◌, ◌+◌, ◌<◌, ◌≤◌, [], length, map, None, Some, Err, IfErr, IfOk, IfSome, IsErrOf, OnOk};
ghost use Rattle.std.specs.Bool.{OnFalse, OnTrue};
ghost use Rattle.std.specs.List.{AllByRecursion};
ghost use Rattle.resp_value.specs.Bounds.{Bounds};
ghost use Rattle.resp_value.specs.Commands.{words_of};
ghost use Rattle.resp_value.specs.Values.{datum_of, list_of};
ghost use Rattle.resp_session.specs.Connections.{shown_pushes, shown_replies};
ghost use Rattle.resp_session.specs.Serving.{clients_in};
ghost use Rattle.resp_session.specs.Worlds as session;
ghost use Rattle.resp_session.specs.Worlds.{client_of, connection_at, new_world};
ghost use Rattle.resp_io.specs.Turns.{stopped_by};
ghost use Rattle.resp_wire.specs.Ends.{outcome_of_push};
ghost use Rattle.resp_wire.specs.Happening.{AreOpened, Fails, Happens, IsOpenClient, MayLackMemory, Performs, RunsTo, StopsAt};
ghost use Rattle.resp_wire.specs.Links.{is_of_link};
ghost use Rattle.resp_wire.specs.Requests.{request_of};
ghost use Rattle.resp_wire.specs.Worlds.{CountsFailures, KeepFailures, LinksAfter, OthersStay, Shows, event_of, pushes_with, values_in};

use crate::asked::{Request, Responses};
use crate::carrying::{carry_to_client, carry_to_server};
use crate::end::End;
use crate::event::{Event, Outcome, Stop};
use crate::link::{Link, MemoryLink};
use resp_server::{Entries, Hub, OpenError, PushError};
use resp_session::laws;
use resp_value::cause::Cause;
use resp_value::command::Command;
use resp_value::limits::Limits;
use resp_value::value::{Members, Value};
use resp_value::version::Version;
use std::alloc::Global;
use std::hash::BuildHasher;
use std::marker::Model;

/// The greatest number of clients of a world.
const MOST_CLIENTS: usize = 65_536;

/// Clients and their sessions over one store, with a link between each client and its session.
/// Clients are numbered from 1.
///
/// # Examples
///
/// Two clients of one store, from [samples](../../samples/src/worlds.rt):
///
/// ```rust
/// let mut world = World::new(alloc, 2, Limits::standard(), hasher)?;
/// world.step(&Event::Send(1, command(alloc, &[b"SET", b"a", b"1"])?))?;
/// world.step(&Event::Send(2, command(alloc, &[b"GET", b"a"])?))?;
/// world.step(&Event::ToServer(2, 1_000))?;
/// world.step(&Event::ToServer(1, 1_000))?;
/// world.step(&Event::ToClient(2, 1_000))?;
/// println!(rt; "{:?} {:?}", world.order(), world.replies(2))?;
/// ```
///
/// The GET arrives first, so this prints `[2, 1] [Null]`.
#[derive(Drop)]
pub struct World<L: Link, S: BuildHasher> {
    alloc: Global,
    hub: Hub<S>,
    /// The clients, with the link of each client to its session.
    ends: Vec<End>,
    links: Vec<L>,
    /// The client of each command, in the order in which the commands were run.
    order: Vec<usize>,
    stopped: Option<Cause>,
}

impl<L: Link, S: BuildHasher> Model for World<L, S> {
    ghost use Rattle.std.specs.Coded.{codes};
    ghost use Rattle.std.specs.Prelude.{◌≡◌, length};
    ghost use Rattle.resp_value.specs.contracts.value.Value as value;
    ghost use Rattle.resp_wire.specs.Worlds.{WorldState};

    ghost Value = { WorldState L };

    ghost coded = { Prim.hlevel (codes, value.the_row.coded) };

    ghost view = { λ world. record {
      hub = world.hub;
      ends = world.ends.items;
      links = world.links.items;
      order = world.order.items;
      stopped = world.stopped;
    } };

    ghost invariant = { λ world. length world.links.items ≡ length world.ends.items };
}

impl<S: BuildHasher + Drop> World<MemoryLink, S> {
    /// Creates a world of `count` clients that have sent nothing, with links over memory and an
    /// empty store. Each client and each session reads and writes within these limits.
    ///
    /// # Errors
    ///
    /// `TooManySessions` if and only if `count` is more than 65,536, otherwise `OutOfMemory` if an
    /// allocation fails.
    pub fn new(alloc: Global, count: usize, limits: Limits, hasher: S) -> Result<Self, OpenError>
        ensures shows { IfOk result (λ world.
            Shows (λ _. Unit {0}) world limits (new_world count)) }
        ensures too_many { IsErrOf result OpenError.TooManySessions ↔ (65536 < count) }
        ensures going { IfOk result (λ world. world.stopped ≡ None) }
    {
        if count > MOST_CLIENTS {
            return Err(OpenError::TooManySessions);
        }
        let Ok(links) = vec![in alloc; MemoryLink; count] else {
            return Err(OpenError::OutOfMemory);
        };
        World::over(alloc, links, limits, hasher)
    }
}

impl<L: Link, S: BuildHasher + Drop> World<L, S> {
    /// Creates a world with a client for each of the links and an empty store. The clients have
    /// sent nothing. Each client and each session reads and writes within these limits.
    ///
    /// # Errors
    ///
    /// `TooManySessions` if and only if there are more than 65,536 links, otherwise `OutOfMemory`
    /// if an allocation fails.
    pub fn over(alloc: Global, links: Vec<L>, limits: Limits, hasher: S) -> Result<Self, OpenError>
        ensures shows { IfOk result (λ world. AllByRecursion L.is_honest links.items →
            Shows L.is_honest world limits (new_world (length links.items))) }
        ensures as_many { IfOk result (λ world. length world.ends ≡ length links.items) }
        ensures too_many { IsErrOf result OpenError.TooManySessions ↔
            (65536 < length links.items) }
        ensures going { IfOk result (λ world. world.stopped ≡ None) }
    {
        if links.len() > MOST_CLIENTS {
            return Err(OpenError::TooManySessions);
        }
        limits.are_in_range();
        let mut hub = Hub::new(alloc, limits, hasher);
        let ends = open_each(alloc, &mut hub, &limits, links.len())?;
        Ok(World {
            alloc,
            hub,
            ends,
            links,
            order: Vec::new(alloc),
            stopped: None,
        })
    }

    /// Performs one event and returns its outcome. A refused event changes nothing.
    ///
    /// # Errors
    ///
    /// A [`Stop`] with index 0 if an allocation or a link fails. If no link changes bytes, there is
    /// no other cause. An event that is refused or concerns no client does not allocate, and
    /// neither does a drop. After a stop each step returns the same cause and changes nothing, and
    /// what the world shows is unspecified.
    pub fn step(&mut self, event: &Event) -> Result<Outcome, Stop>
        ensures happens { IfOk result (Happens L.is_honest self.old self.new (event_of event.now)) }
        ensures going { OnOk result (self.new.stopped ≡ None) }
        ensures stops { IfErr result (λ stop. self.old.stopped ≡ None →
            Fails L.is_honest L.failures self.old self.new stop.cause) }
        ensures memory { IfErr result (λ stop. self.old.stopped ≡ None →
            stop.cause ≡ Cause.OutOfMemory →
            MayLackMemory L.is_honest self.old (event_of event.now)) }
        ensures remembered { IfErr result (λ stop. self.new.stopped ≡ Some stop.cause) }
        ensures stopped_before { IfSome self.old.stopped (λ cause.
            result ≡ Err (record { event = 0; cause = cause })) }
        ensures nothing_more { IfSome self.old.stopped (λ cause. self.new ≡ self.old) }
        ensures index { IfErr result (λ stop. stop.event ≡ 0) }
        ensures none_failed { OnOk result
            (KeepFailures L.failures self.old.links self.new.links) }
        // Whatever the links are: if the cause of the stop is a link's, the link of the event's
        // client has failed, once, and no other link.
        ensures links { self.old.stopped ≡ None → CountsFailures L.failures
            (client_of (event_of event.now)) self.old.links self.new.links
            (stopped_by (λ stop. is_of_link stop.cause) result) }
        // The bytes of an event go over the link of its client, and in its direction.
        ensures traffic { IfOk result
            (LinksAfter L.traffic self.old self.new (event_of event.now)) }
        ensures others { OthersStay (client_of (event_of event.now)) self.old.links
            self.new.links }
        ensures as_many { length self.new.ends ≡ length self.old.ends }
    {
        if let Some(cause) = self.stopped {
            return Err(Stop { event: 0, cause });
        }
        match self.happen(event) {
            Ok(outcome) => Ok(outcome),
            Err(cause) => {
                self.stopped = Some(cause);
                Err(Stop { event: 0, cause })
            }
        }
    }

    /// Performs events one after another, up to the first at which [`World::step`] fails. Events
    /// that are refused or whose client was dropped do not stop the run.
    ///
    /// # Errors
    ///
    /// The [`Stop`] of that event, with its index from 0.
    pub fn run(&mut self, events: &[Event]) -> Result<(), Stop>
        ensures happens { OnOk result (RunsTo L.is_honest self.old self.new
            (map event_of events.now)) }
        ensures going { OnOk result (self.new.stopped ≡ self.old.stopped) }
        ensures stops { IfErr result (StopsAt L.is_honest L.failures self.old self.new
            (map event_of events.now)) }
        ensures remembered { IfErr result (λ stop. self.new.stopped ≡ Some stop.cause) }
        ensures stopped_before { IfSome self.old.stopped (λ cause. 0 < length events.now →
            result ≡ Err (record { event = 0; cause = cause })) }
        ensures none_failed { OnOk result
            (KeepFailures L.failures self.old.links self.new.links) }
        ensures as_many { length self.new.ends ≡ length self.old.ends }
    {
        for index in 0..events.len() {
            if let Err(stop) = self.step(&events[index]) {
                return Err(Stop {
                    event: index,
                    cause: stop.cause,
                });
            }
        }
        Ok(())
    }

    /// Returns the outcome of an event, or the cause at which the world stops.
    fn happen(&mut self, event: &Event) -> Result<Outcome, Cause>
        ensures { Performs L.is_honest L.failures L.traffic self.old self.new (event_of event.now)
            result }
    {
        let number = event.client();
        if !self.is_open(number) {
            return Ok(Outcome::Gone);
        }
        match event {
            Event::Send(_, command) => self.send(number, command),
            Event::Hello(_, asked) => self.hello(number, *asked),
            Event::ToServer(_, count) => self.to_server(number, *count),
            Event::ToClient(_, count) => self.to_client(number, *count),
            Event::Push(_, items) => self.push(number, items),
            Event::Drop(_) => self.drop_client(number),
        }
    }

    /// Returns whether a client has this number and was not dropped.
    fn is_open(&self, number: usize) -> bool
        ensures open { OnTrue result (IsOpenClient self.now.ends number) }
        ensures gone { OnFalse result ((event : session.WorldEvent) → number ≡ client_of event →
            Happens L.is_honest self.now self.now event Outcome.Gone) }
    {
        if number == 0 || number > self.ends.len() {
            return false;
        }
        !self.ends[number - 1].is_dropped
    }

    /// Queues a command of a client.
    fn send(&mut self, number: usize, command: &Command) -> Result<Outcome, Cause>
        requires { IsOpenClient self.old.ends number }
        ensures { Performs L.is_honest L.failures L.traffic self.old self.new
            (session.Send number (words_of command.now)) result }
    {
        laws::readings_stay();
        laws::what_has_come_was_sent();
        laws::a_change_is_of_one_connection();
        self.ends[number - 1].send(self.alloc, command)
    }

    /// Queues a HELLO of a client.
    fn hello(&mut self, number: usize, asked: Option<Version>) -> Result<Outcome, Cause>
        requires { IsOpenClient self.old.ends number }
        ensures { Performs L.is_honest L.failures L.traffic self.old self.new
            (session.Greet number asked) result }
    {
        laws::readings_stay();
        laws::what_has_come_was_sent();
        laws::a_change_is_of_one_connection();
        self.ends[number - 1].hello(asked)
    }

    /// Carries `count` of a client's waiting bytes to its session, or all if fewer wait.
    fn to_server(&mut self, number: usize, count: u64) -> Result<Outcome, Cause>
        requires { IsOpenClient self.old.ends number }
        ensures { Performs L.is_honest L.failures L.traffic self.old self.new
            (session.ToServer number count) result }
    {
        laws::what_arrives_is_answered();
        laws::what_is_shown_is_read();
        laws::what_has_come_was_sent();
        let carried = carry_to_server(
            &mut self.links[number - 1],
            &mut self.ends[number - 1].client,
            &mut self.hub,
            number as u64,
            &mut self.order,
            number,
            count,
        );
        if let Err(cause) = carried {
            return Err(cause);
        }
        Ok(Outcome::Done)
    }

    /// Carries `count` of a session's waiting bytes to its client, or all if fewer wait, and stores
    /// the replies and pushes that they complete.
    fn to_client(&mut self, number: usize, count: u64) -> Result<Outcome, Cause>
        requires { IsOpenClient self.old.ends number }
        ensures { Performs L.is_honest L.failures L.traffic self.old self.new
            (session.ToClient number count) result }
    {
        laws::readings_go_on();
        laws::what_is_shown_is_read();
        laws::a_change_is_of_one_connection();
        let mut heard = Responses::new(self.alloc);
        let carried = carry_to_client(
            &mut self.links[number - 1],
            &mut self.ends[number - 1].client,
            &mut self.hub,
            number as u64,
            &mut heard,
            count,
        );
        if let Err(cause) = carried {
            return Err(cause);
        }
        self.ends[number - 1].keep(heard)
    }

    /// Sends a push of the items to a client.
    fn push(&mut self, number: usize, items: &Members) -> Result<Outcome, Cause>
        requires { IsOpenClient self.old.ends number }
        ensures { Performs L.is_honest L.failures L.traffic self.old self.new
            (session.Push number (map datum_of (list_of items.now))) result }
    {
        laws::what_is_shown_is_read();
        laws::what_has_come_was_sent();
        laws::a_change_is_of_one_connection();
        if let Err(error) = self.hub.push(number as u64, items.list()) {
            return outcome_of_push(error);
        }
        Ok(Outcome::Done)
    }

    /// Closes a client's session. No more bytes are carried in either direction.
    fn drop_client(&mut self, number: usize) -> Result<Outcome, Cause>
        requires { IsOpenClient self.old.ends number }
        ensures { Performs L.is_honest L.failures L.traffic self.old self.new
            (session.Drop number) result }
    {
        laws::a_change_is_of_one_connection();
        if let Err(_) = self.hub.close(number as u64) {
            return Err(Cause::NoSession);
        }
        self.ends[number - 1].is_dropped = true;
        Ok(Outcome::Done)
    }

    /// Returns the number of clients.
    pub fn clients(&self) -> usize
        ensures { result ≡ length self.now.ends }
    {
        self.ends.len()
    }

    /// Returns the requests that the client of this number has queued, in order. Clients are
    /// numbered from 1 to [`World::clients`].
    pub fn asked(&self, number: usize) -> &[Request]
        requires { (1 ≤ number) × (number ≤ length self.now.ends) }
        ensures { (limits : Bounds) (w : session.World) → Shows L.is_honest self.now limits w →
            IfSome (connection_at w.connections number) (λ c.
            map request_of result.now ≡ c.requests) }
    {
        self.ends[number - 1].asked.as_slice()
    }

    /// Returns the client of each command, in the order in which the commands were run.
    pub fn order(&self) -> &[usize]
        ensures { (limits : Bounds) (w : session.World) → Shows L.is_honest self.now limits w →
            result.now ≡ clients_in w }
    {
        self.order.as_slice()
    }

    /// Returns the replies that the client of this number has received. The nth reply belongs to
    /// its nth command.
    pub fn replies(&self, number: usize) -> &[Value]
        requires { (1 ≤ number) × (number ≤ length self.now.ends) }
        ensures { (limits : Bounds) (w : session.World) → Shows L.is_honest self.now limits w →
            IfSome (connection_at w.connections number) (λ c.
            values_in result.now ≡ shown_replies c) }
    {
        self.ends[number - 1].replies.as_slice()
    }

    /// Returns the members of each push that the client of this number has received, in order.
    pub fn pushes(&self, number: usize) -> &[Members]
        requires { (1 ≤ number) × (number ≤ length self.now.ends) }
        ensures { (limits : Bounds) (w : session.World) → Shows L.is_honest self.now limits w →
            IfSome (connection_at w.connections number) (λ c.
            pushes_with result.now ≡ shown_pushes c) }
    {
        self.ends[number - 1].pushes.as_slice()
    }

    /// Returns the keys of the store with their values, in the order in which the keys were added.
    /// A key that is set again keeps its place.
    pub fn entries(&self) -> Entries<'_>
        ensures { (limits : Bounds) (w : session.World) → Shows L.is_honest self.now limits w →
            result ≡ w.store }
    {
        self.hub.entries()
    }
}

/// Opens a session for each of `count` clients that have sent nothing.
fn open_each<S: BuildHasher>(
    alloc: Global,
    hub: &mut Hub<S>,
    limits: &Limits,
    count: usize,
) -> Result<Vec<End>, OpenError>
    requires few { count ≤ 65_536 }
    requires nothing_open { (hub.old.sessions ≡ []) × (hub.old.last ≡ 0) }
    ensures opened { IfOk result (λ ends. AreOpened limits.now hub.old hub.new ends.items count) }
    ensures memory { IfErr result (λ error. error ≡ OpenError.OutOfMemory) }
{
    let mut ends = Vec::new(alloc);
    for _ in 0..count {
        if let Err(error) = hub.open() {
            return Err(error);
        }
        let Ok(()) = ends.push(End::new(alloc, limits)) else {
            return Err(OpenError::OutOfMemory);
        };
    }
    Ok(ends)
}

/// Returns the outcome of a push that a session does not queue.
fn outcome_of_push(error: PushError) -> Result<Outcome, Cause>
    ensures { result ≡ outcome_of_push error }
{
    match error {
        PushError::NotInVersion => Ok(Outcome::Refused(Cause::NotInVersion)),
        PushError::Double => Ok(Outcome::Refused(Cause::Double)),
        PushError::NestedPush => Ok(Outcome::Refused(Cause::PushBelowTop)),
        PushError::OverLimits(limit) => Ok(Outcome::Refused(Cause::OverLimits(limit))),
        PushError::OutOfMemory => Err(Cause::OutOfMemory),
        PushError::Closing => Err(Cause::Closing),
        PushError::NoSession => Err(Cause::NoSession),
    }
}
