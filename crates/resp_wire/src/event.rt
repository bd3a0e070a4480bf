//! The events of a world, and their outcomes.

ghost use Rattle.std.specs.Prelude.{◌≡◌};
ghost use Rattle.resp_session.specs.Worlds.{client_of};
ghost use Rattle.resp_wire.specs.Worlds.{event_of};

use resp_value::cause::Cause;
use resp_value::command::Command;
use resp_value::value::Members;
use resp_value::version::Version;
use thiserror::Error;

/// An event. Each event concerns the client of this number, counted from 1.
#[derive(Debug, PartialEq, Eq, Drop)]
pub enum Event {
    /// The client sends a command. HELLO is refused here.
    Send(usize, Command),
    /// The client sends HELLO, with or without a version.
    Hello(usize, Option<Version>),
    /// This many of the client's waiting bytes reach its session, or all of them if fewer wait.
    ToServer(usize, u64),
    /// This many of the session's waiting bytes reach its client, or all of them if fewer wait.
    ToClient(usize, u64),
    /// The session sends a push of the items to the client. It does so only in version 3.
    Push(usize, Members),
    /// The session is closed, and the waiting bytes of both directions are lost.
    Drop(usize),
}

impl Event {
    /// Returns the number of the client of the event.
    pub fn client(&self) -> usize
        ensures { result ≡ client_of (event_of self.now) }
    {
        match self {
            Event::Send(number, _) => *number,
            Event::Hello(number, _) => *number,
            Event::ToServer(number, _) => *number,
            Event::ToClient(number, _) => *number,
            Event::Push(number, _) => *number,
            Event::Drop(number) => *number,
        }
    }
}

/// The outcome of an event.
#[derive(Clone, Copy, Debug, PartialEq, Eq)]
pub enum Outcome {
    /// The event happened.
    Done,
    /// The event was refused, and nothing changed. The cause is `BadCommand`, `TooLarge` or
    /// `TooMany` of the client, or `NotInVersion`, `Double`, `PushBelowTop` or `OverLimits` of the
    /// session, the first one that applies.
    Refused(Cause),
    /// The client was dropped, or no client has this number. Nothing changed.
    Gone,
}

/// Why a world stopped. Each later step stops with the same cause, and what the world then shows is
/// unspecified.
#[derive(Clone, Copy, Debug, PartialEq, Eq, Error)]
#[error("event {event} failed: {cause:?}")]
pub struct Stop {
    /// The index of the event among the events of the call, from 0.
    pub event: usize,
    /// `OutOfMemory`, the cause of a link's error, or the cause of a fault of a client or session.
    /// A client or session has a fault only if a link changes bytes.
    pub cause: Cause,
}
