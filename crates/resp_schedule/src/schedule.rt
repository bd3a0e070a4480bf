//! Which place is visited next, when connections are accepted, and when the loop waits.

ghost use Rattle.std.specs.Prelude.{◌≡◌, ◌≢◌, ◌⊎◌, ℕ, ◌+◌, ◌<◌, ◌≤◌, ◌↔◌, [], ◌∷◌, ◌++◌, length, IsTrue, IfSome, IfNone, OnSome, IfOk, OnOk, OnErr, Err};

use crate::queue;
use std::alloc::{AllocError, Global};
use std::collections::VecDeque;
use std::marker::Model;

/// The state of a place.
#[derive(Clone, Copy, Debug, PartialEq, Eq)]
pub enum PlaceState {
    /// The place has no connection.
    Closed,
    /// The place has a connection, which is visited when its socket is ready.
    Idle,
    /// The place has a connection, which is visited without waiting for its socket.
    Queued,
}

/// Whether connections wait to be accepted.
#[derive(Clone, Copy, Debug, PartialEq, Eq)]
pub enum Backlog {
    /// No connection is known to wait.
    Empty,
    /// Connections may wait.
    Waiting,
    /// Connections may wait, and the last attempt to accept one failed.
    Failing,
    /// No more connections are accepted.
    Stopped,
}

impl Backlog {
    ghost use Rattle.resp_schedule.specs.Plans.{resumed};

    /// Returns the backlog after a connection was closed: a failed attempt is repeated.
    fn resumed(self) -> Backlog
        ensures { result ≡ resumed self }
    {
        match self {
            Backlog::Failing => Backlog::Waiting,
            other => other,
        }
    }
}

/// How long a loop may wait for its sockets.
#[derive(Clone, Copy, Debug, PartialEq, Eq)]
pub enum Wait {
    /// Not at all, because there is work.
    No,
    /// For a short time, after which accepting is tried again.
    Short,
    /// Until a socket is ready.
    Long,
}

/// Why no place was opened.
#[derive(Clone, Copy, Debug, PartialEq, Eq)]
pub enum OpenError {
    /// The maximum number of places is open.
    Full,
    /// The schedule was stopped.
    Stopped,
    /// An allocation failed.
    OutOfMemory,
}

/// Decides which place is visited next, when connections are accepted, and when the loop waits.
///
/// Places are numbers from 0. Each call takes constant time, except [`Schedule::close`] of a place
/// that is queued. Only [`Schedule::open`] allocates.
#[derive(Drop)]
pub struct Schedule {
    /// The state of each place that was ever open.
    states: Vec<PlaceState>,
    /// The places that are queued, in the order of their visits.
    queue: VecDeque<usize>,
    /// How many of them are visited in this round.
    due: usize,
    /// The places that were open once and are closed, in the order in which they were closed.
    free: VecDeque<usize>,
    /// How many of them were closed in earlier rounds.
    reusable: usize,
    /// How many places are open.
    count: usize,
    backlog: Backlog,
    most: usize,
}

impl Model for Schedule {
    ghost use Rattle.std.specs.Prelude.{◌≡◌, ◌≤◌, length, drop};
    ghost use Rattle.std.specs.VecDeque.{deque_capacity};
    ghost use Rattle.resp_schedule.specs.Plans.{Plan};

    ghost Value = { Plan };

    ghost use Rattle.resp_schedule.specs.Stands.{Stands};

    ghost view = { λ s. record {
      states = s.states.items;
      queue = s.queue.items;
      due = s.due;
      gone = drop s.reusable s.free.items;
      backlog = s.backlog;
      most = s.most;
    } };

    ghost invariant = { λ s. Stands s.states.items s.queue.items s.due s.free.items s.reusable
        s.count s.most (deque_capacity s.queue) (deque_capacity s.free) };
}

impl Schedule {
    ghost use Rattle.resp_schedule.specs.Places.{times, without};
    ghost use Rattle.resp_schedule.specs.Plans.{Changes, Closes, IsReusable, VisitsNext, due_of, new_plan, next_round, open_count, queued_last, state_of};

    /// Returns a schedule with at most `most` open places. It allocates nothing.
    pub fn new(alloc: Global, most: usize) -> Schedule
        ensures { result ≡ new_plan most }
    {
        Schedule {
            states: Vec::new(alloc),
            queue: VecDeque::new(alloc),
            due: 0,
            free: VecDeque::new(alloc),
            reusable: 0,
            count: 0,
            backlog: Backlog::Empty,
            most,
        }
    }

    /// Returns the number of open places.
    pub fn open_places(&self) -> usize
        ensures count { result ≡ open_count self.now }
        ensures at_most { result ≤ self.now.most }
    {
        self.count
    }

    /// Returns the state of a place. A place is in the queue once if it is queued, and otherwise
    /// not at all.
    pub fn state(&self, place: usize) -> PlaceState
        ensures state { result ≡ state_of self.now place }
        ensures queued_once { result ≡ PlaceState.Queued → times place self.now.queue ≡ 1 }
        ensures not_queued { result ≢ PlaceState.Queued → times place self.now.queue ≡ 0 }
    {
        match self.states.get(place) {
            Some(state) => *state,
            None => PlaceState::Closed,
        }
    }

    /// Opens a place for a connection, and returns it. The place is idle. It was not closed in this
    /// round. A place that was closed in an earlier round is opened again, if there is one.
    ///
    /// # Errors
    ///
    /// `Stopped` after [`Schedule::stop`], otherwise `Full` if the maximum number of places is
    /// open, and otherwise `OutOfMemory` if an allocation fails. Nothing changes.
    pub fn open(&mut self) -> Result<usize, OpenError>
        ensures opened { IfOk result (λ place.
            Changes self.old self.new place PlaceState.Closed PlaceState.Idle) }
        ensures not_reused { IfOk result (λ place. times place self.old.gone ≡ 0) }
        ensures rest { OnOk result (self.new ≡ record self.old { states = self.new.states }) }
        ensures counted { OnOk result (open_count self.new ≡ open_count self.old + 1) }
        ensures stopped { (result ≡ Err OpenError.Stopped) ↔
            (self.old.backlog ≡ Backlog.Stopped) }
        ensures full { result ≡ Err OpenError.Full → open_count self.old ≡ self.old.most }
        ensures reused { (place : ℕ) → IsReusable self.old place →
            (length self.new.states ≡ length self.old.states) ×
            (result ≢ Err OpenError.OutOfMemory) }
        ensures err { OnErr result (self.new ≡ self.old) }
    {
        if let Backlog::Stopped = self.backlog {
            return Err(OpenError::Stopped);
        }
        if self.count >= self.most {
            return Err(OpenError::Full);
        }
        if let Some(place) = self.reuse() {
            return Ok(place);
        }
        match self.add() {
            Ok(place) => Ok(place),
            Err(AllocError) => Err(OpenError::OutOfMemory),
        }
    }

    /// Opens the place that was closed first, if it was closed in an earlier round.
    fn reuse(&mut self) -> Option<usize>
        requires { open_count self.old < self.old.most }
        ensures opened { IfSome result (λ place.
            Changes self.old self.new place PlaceState.Closed PlaceState.Idle) }
        ensures not_reused { IfSome result (λ place. times place self.old.gone ≡ 0) }
        ensures rest { OnSome result (self.new ≡ record self.old { states = self.new.states }) }
        ensures counted { OnSome result (open_count self.new ≡ open_count self.old + 1) }
        ensures none { IfNone result (self.new ≡ self.old) }
        ensures none_left { IfNone result ((place : ℕ) → IsReusable self.old place → ⊥) }
        ensures same_length { length self.new.states ≡ length self.old.states }
    {
        if self.reusable == 0 {
            return None;
        }
        let place = self.free.pop_front()?;
        self.reusable -= 1;
        self.count += 1;
        self.states[place] = PlaceState::Idle;
        Some(place)
    }

    /// Opens a place that was never open.
    fn add(&mut self) -> Result<usize, AllocError>
        requires { open_count self.old < self.old.most }
        ensures opened { IfOk result (λ place.
            Changes self.old self.new place PlaceState.Closed PlaceState.Idle) }
        ensures not_reused { IfOk result (λ place. times place self.old.gone ≡ 0) }
        ensures rest { OnOk result (self.new ≡ record self.old { states = self.new.states }) }
        ensures counted { OnOk result (open_count self.new ≡ open_count self.old + 1) }
        ensures err { OnErr result (self.new ≡ self.old) }
    {
        let place = self.states.len();
        self.states.reserve(1)?;
        // With room for as many places as the states have, the lists grow as seldom as these.
        let room = self.states.capacity();
        self.queue.reserve(room.saturating_sub(self.queue.len()))?;
        self.free.reserve(room.saturating_sub(self.free.len()))?;
        self.states.push_reserved(PlaceState::Idle);
        self.count += 1;
        Ok(place)
    }

    /// Returns the next place that is visited in this round. It is idle now. If no place is
    /// left, the round is over: the places that are queued now are visited in the next round, and the
    /// places that were closed may be opened again.
    pub fn next_due(&mut self) -> Option<usize>
        ensures next { IfSome result (λ place. VisitsNext self.old self.new place) }
        ensures over { IfNone result (due_of self.old ≡ []) }
        ensures next_round { IfNone result (self.new ≡ next_round self.old) }
    {
        if self.due == 0 {
            self.due = self.queue.len();
            self.reusable = self.free.len();
            return None;
        }
        let place = self.queue.pop_front()?;
        self.due -= 1;
        self.states[place] = PlaceState::Idle;
        Some(place)
    }

    /// Queues an idle place after all others. It is visited in the next round. Nothing changes if
    /// the place is not idle.
    pub fn enqueue(&mut self, place: usize)
        ensures queued { state_of self.old place ≡ PlaceState.Idle →
            Changes self.old self.new place PlaceState.Idle PlaceState.Queued }
        ensures last { state_of self.old place ≡ PlaceState.Idle →
            self.new ≡ queued_last place self.new.states self.old }
        ensures same_due { due_of self.new ≡ due_of self.old }
        ensures counted { open_count self.new ≡ open_count self.old }
        ensures not_idle { state_of self.old place ≢ PlaceState.Idle → self.new ≡ self.old }
    {
        if let PlaceState::Idle = self.state(place) {
            self.queue.push_back_reserved(place);
            self.states[place] = PlaceState::Queued;
        }
    }

    /// Closes an open place, and removes it from the queue. If accepting failed before, it is tried
    /// again. Nothing changes if the place is closed.
    pub fn close(&mut self, place: usize)
        ensures closed { state_of self.new place ≡ PlaceState.Closed }
        ensures others { (other : ℕ) → other ≢ place →
            state_of self.new other ≡ state_of self.old other }
        ensures queue { self.new.queue ≡ without place self.old.queue }
        ensures due { due_of self.new ≡ without place (due_of self.old) }
        ensures was_open { state_of self.old place ≢ PlaceState.Closed →
            Closes self.old self.new place }
        ensures was_closed { state_of self.old place ≡ PlaceState.Closed → self.new ≡ self.old }
    {
        match self.state(place) {
            PlaceState::Closed => {}
            PlaceState::Idle => self.close_idle(place),
            PlaceState::Queued => {
                self.dequeue(place);
                self.close_idle(place);
            }
        }
    }

    /// Removes a place from the queue. The place is idle now.
    fn dequeue(&mut self, place: usize)
        requires { state_of self.old place ≡ PlaceState.Queued }
        ensures idle { Changes self.old self.new place PlaceState.Queued PlaceState.Idle }
        ensures queue { self.new.queue ≡ without place self.old.queue }
        ensures due { due_of self.new ≡ without place (due_of self.old) }
        ensures same { (self.new.gone ≡ self.old.gone) × (self.new.backlog ≡ self.old.backlog) ×
            (self.new.most ≡ self.old.most) }
        ensures counted { open_count self.new ≡ open_count self.old }
    {
        self.due = queue::remove(&mut self.queue, self.due, place);
        self.states[place] = PlaceState::Idle;
    }

    /// Closes an idle place. If accepting failed before, it is tried again.
    fn close_idle(&mut self, place: usize)
        requires { state_of self.old place ≡ PlaceState.Idle }
        ensures closed { Changes self.old self.new place PlaceState.Idle PlaceState.Closed }
        ensures rest { Closes self.old self.new place }
        ensures same_queue { (self.new.queue ≡ self.old.queue) × (self.new.due ≡ self.old.due) }
    {
        self.states[place] = PlaceState::Closed;
        self.free.push_back_reserved(place);
        self.count -= 1;
        self.backlog = self.backlog.resumed();
    }

    /// Says whether connections wait to be accepted. After [`Schedule::stop`] nothing changes.
    pub fn set_backlog(&mut self, backlog: Backlog)
        ensures set { self.old.backlog ≢ Backlog.Stopped →
            self.new ≡ record self.old { backlog = backlog } }
        ensures stopped { self.old.backlog ≡ Backlog.Stopped → self.new ≡ self.old }
    {
        match self.backlog {
            Backlog::Stopped => {}
            _ => self.backlog = backlog,
        }
    }

    /// Stops accepting connections for good.
    pub fn stop(&mut self)
        ensures { self.new ≡ record self.old { backlog = Backlog.Stopped } }
    {
        self.backlog = Backlog::Stopped;
    }

    /// Returns whether accepting a connection is tried now.
    pub fn accepts(&self) -> bool
        ensures { IsTrue result ↔ ((self.now.backlog ≡ Backlog.Waiting) ⊎
            (self.now.backlog ≡ Backlog.Failing)) }
    {
        match self.backlog {
            Backlog::Waiting | Backlog::Failing => true,
            Backlog::Empty | Backlog::Stopped => false,
        }
    }

    /// Returns how long the loop may wait for its sockets.
    pub fn wait(&self) -> Wait
        ensures queued { 0 < length self.now.queue → result ≡ Wait.No }
        ensures waiting { self.now.backlog ≡ Backlog.Waiting → result ≡ Wait.No }
        ensures failing { self.now.queue ≡ [] → self.now.backlog ≡ Backlog.Failing →
            result ≡ Wait.Short }
        ensures empty { self.now.queue ≡ [] → self.now.backlog ≡ Backlog.Empty →
            result ≡ Wait.Long }
        ensures stopped { self.now.queue ≡ [] → self.now.backlog ≡ Backlog.Stopped →
            result ≡ Wait.Long }
    {
        if !self.queue.is_empty() {
            return Wait::No;
        }
        match self.backlog {
            Backlog::Waiting => Wait::No,
            Backlog::Failing => Wait::Short,
            Backlog::Empty | Backlog::Stopped => Wait::Long,
        }
    }
}
