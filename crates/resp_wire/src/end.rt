//! A client of a world, with its requests and the replies and pushes that it has received.

ghost use Rattle.std.specs.Prelude.{◌≡◌, ◌++◌, ℕ, map, IfErr, IfOk, OnErr, OnOk};
ghost use Rattle.resp_value.specs.Commands.{words_of};
ghost use Rattle.resp_session.specs.Requests as session;
ghost use Rattle.resp_value.specs.declared.value.Value.{Value};
ghost use Rattle.resp_wire.specs.Ends.{outcome_of_send};

use crate::asked::{Request, Responses};
use crate::event::Outcome;
use resp_client::{Client, SendError};
use resp_value::cause::Cause;
use resp_value::command::Command;
use resp_value::limits::Limits;
use resp_value::value::{Members, Value};
use resp_value::version::Version;
use std::alloc::{AllocError, Global};

/// A client, with its requests and the replies and pushes that it has received.
#[derive(Drop)]
pub(crate) struct End {
    pub(crate) client: Client,
    pub(crate) asked: Vec<Request>,
    pub(crate) replies: Vec<Value>,
    pub(crate) pushes: Vec<Members>,
    /// Whether its session is closed. Then no more bytes are carried.
    pub(crate) is_dropped: bool,
}

impl End {
    ghost use Rattle.resp_client.specs.Clients.{state_of};
    ghost use Rattle.resp_client.specs.Sending.{MayBeSent};
    ghost use Rattle.resp_wire.specs.Ends.{IsNew, KeepsHeard, TakesRequest};

    /// Creates a client without requests. Does not allocate.
    pub(crate) fn new(alloc: Global, limits: &Limits) -> End
        ensures { IsNew limits.now result }
    {
        End {
            client: Client::new(alloc, limits),
            asked: Vec::new(alloc),
            replies: Vec::new(alloc),
            pushes: Vec::new(alloc),
            is_dropped: false,
        }
    }

    /// Queues a command.
    pub(crate) fn send(&mut self, alloc: Global, command: &Command) -> Result<Outcome, Cause>
        ensures takes { IfOk result
            (TakesRequest self.old self.new (session.Command (words_of command.now))) }
        ensures bytes { IfOk result (λ outcome. outcome ≡ Outcome.Done →
            session.HasBytes (session.Command (words_of command.now))) }
        ensures memory { IfErr result (λ cause. cause ≡ Cause.OutOfMemory) }
        ensures may_be_sent { OnErr result
            (MayBeSent (state_of self.old.client) (session.Command (words_of command.now))) }
    {
        if let Err(error) = self.client.send(command) {
            return outcome_of_send(error);
        }
        let Ok(copy) = command.try_clone(alloc) else {
            return Err(Cause::OutOfMemory);
        };
        if self.asked.push(Request::Command(copy)).is_err() {
            return Err(Cause::OutOfMemory);
        }
        Ok(Outcome::Done)
    }

    /// Queues HELLO.
    pub(crate) fn hello(&mut self, asked: Option<Version>) -> Result<Outcome, Cause>
        ensures takes { IfOk result (TakesRequest self.old self.new (session.Hello asked)) }
        ensures memory { IfErr result (λ cause. cause ≡ Cause.OutOfMemory) }
        ensures may_be_sent { OnErr result
            (MayBeSent (state_of self.old.client) (session.Hello asked)) }
    {
        if let Err(error) = self.client.hello(asked) {
            return outcome_of_send(error);
        }
        if self.asked.push(Request::Hello(asked)).is_err() {
            return Err(Cause::OutOfMemory);
        }
        Ok(Outcome::Done)
    }

    /// Stores the replies, without their numbers, and the pushes received.
    pub(crate) fn keep(&mut self, heard: Responses) -> Result<Outcome, Cause>
        ensures kept { OnOk result (KeepsHeard self.old self.new heard) }
        ensures done { IfOk result (λ outcome. outcome ≡ Outcome.Done) }
        ensures memory { IfErr result (λ cause. cause ≡ Cause.OutOfMemory) }
    {
        let Responses {
            replies,
            mut pushes,
        } = heard;
        let Ok(()) = add_values(&mut self.replies, replies) else {
            return Err(Cause::OutOfMemory);
        };
        let Ok(()) = self.pushes.append(&mut pushes) else {
            return Err(Cause::OutOfMemory);
        };
        Ok(Outcome::Done)
    }
}

/// Adds the values of numbered replies.
fn add_values(values: &mut Vec<Value>, replies: Vec<(u64, Value)>) -> Result<(), AllocError>
    ensures { OnOk result (values.new.items ≡
        values.old.items ++ map (λ (r : ℕ × Value). r.1) replies.items) }
{
    let mut rest = replies.into_iter();
    while let Some((_, value)) = rest.next() {
        values.push(value)?;
    }
    Ok(())
}

/// Returns the outcome of a request that a client does not queue.
fn outcome_of_send(error: SendError) -> Result<Outcome, Cause>
    ensures { result ≡ outcome_of_send error }
{
    match error {
        SendError::BadCommand => Ok(Outcome::Refused(Cause::BadCommand)),
        SendError::TooLarge => Ok(Outcome::Refused(Cause::TooLarge)),
        SendError::TooMany => Ok(Outcome::Refused(Cause::TooMany)),
        SendError::OutOfMemory => Err(Cause::OutOfMemory),
    }
}
