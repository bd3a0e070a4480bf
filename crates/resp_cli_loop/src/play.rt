//! Plays the events of a script, and prints the result of each.

ghost use Rattle.std.specs.Prelude.{◌≡◌, true, ◌+◌, ◌<◌, ◌^◌, ◌++◌, ◌∷◌, [], codes, decimal, drop, length, None, Option, Some, IfErr, IsErrOf};
ghost use Rattle.resp_cli_loop.specs.Plays.{AreThere, EndsPrint, FailsToWrite, AreShownOn, IsAtStep, KeepsCause, LacksMemoryOnlyTooDeep, PlaysScript, PlaysTo, WhereStopped, flush_events, no_connection_line, played, step_events, steps_events};
ghost use Rattle.resp_cli_loop.specs.Printed.{PlaysText, counts_text, key_count, gone_text, heard_text, outcome_text, refused_text};
ghost use Rattle.resp_session.specs.Connections.{Connection};
ghost use Rattle.resp_session.specs.Worlds as session;
ghost use Rattle.resp_print.specs.Written.{WritesText};
ghost use Rattle.resp_value.specs.Bounds.{Bounds};
ghost use Rattle.resp_wire.specs.Worlds.{Shows, event_of, outcome_of};

use crate::heard::{write_numbers, write_pushes, write_replies};
use crate::script::Script;
use resp_io::device::{DeviceFault, Sink};
use resp_print::text::{write_number, write_text};
use resp_value::cause::Cause;
use resp_wire::{Event, Link, Outcome, World};
use std::alloc::Global;
use std::hash::BuildHasher;
use thiserror::Error;

/// A count that moves all waiting bytes.
const ALL: u64 = u64::MAX;

/// Why a script was not played to its end.
#[derive(Clone, Copy, Debug, PartialEq, Eq, Error)]
pub enum PlayError {
    /// The world stopped at the event of this line, with this cause. Lines are counted from 1.
    #[error("line {line} failed: {cause:?}")]
    Stopped { line: u64, cause: Cause },
    /// A write failed, or wrote no byte.
    #[error("write failed")]
    Write,
    /// A reply or a push has 2^64 levels, more than memory holds.
    #[error("out of memory")]
    Memory,
}

impl From<DeviceFault> for PlayError {
    ghost use Rattle.resp_cli_loop.specs.declared.play.PlayError.TheVariants.{Write};

    ghost from_gives = { λ _ error. error ≡ Write };

    fn from(_: DeviceFault) -> PlayError {
        PlayError::Write
    }
}

/// Writes a line: a subject with its number, and a reason.
fn note<W: Sink>(writer: &mut W, subject: &[u8], number: u64, why: &[u8]) -> Result<(), DeviceFault>
    ensures { WritesText (W.written writer.old) (W.written writer.new) (W.failures writer.old)
        (W.failures writer.new) result
        (subject.now ++ decimal number ++ codes ": " ++ why.now ++ codes "\n") }
{
    write_number(writer, subject, number, b": ")?;
    write_text(writer, why)?;
    write_text(writer, b"\n")
}

impl PlayError {
    ghost use Rattle.resp_cli_loop.specs.Plays.{play_fault_line};

    /// Writes the line for standard error, with an LF.
    ///
    /// # Errors
    ///
    /// `DeviceFault` if a write fails. The first part of the line was written.
    pub fn line<W: Sink>(&self, writer: &mut W) -> Result<(), DeviceFault>
        ensures { WritesText (W.written writer.old) (W.written writer.new) (W.failures writer.old)
            (W.failures writer.new) result (play_fault_line self.now) }
    {
        match self {
            PlayError::Stopped { line, cause } => {
                note(writer, b"line ", *line, cause.name().as_bytes())
            }
            PlayError::Write => write_text(writer, b"write failed\n"),
            PlayError::Memory => write_text(writer, b"out of memory\n"),
        }
    }

    /// Returns the exit status of the program: 3.
    pub fn status(&self) -> u8
        ensures { result ≡ 3 }
    {
        3
    }
}

/// Writes the line that explains that no connection could be opened for this client, and why, with
/// an LF. Clients are counted from 1.
///
/// # Errors
///
/// `DeviceFault` if a write fails. The first part of the line was written.
pub fn write_no_connection<W: Sink>(
    writer: &mut W,
    client: u64,
    why: &[u8],
) -> Result<(), DeviceFault>
    ensures { WritesText (W.written writer.old) (W.written writer.new) (W.failures writer.old)
        (W.failures writer.new) result (no_connection_line client why.now) }
{
    note(writer, b"  no connection for client ", client, why)
}

/// Plays the events of a script and writes the result of each. The last line has the number of
/// commands that were run and the number of keys. The world should have as many clients as the
/// script names; for an event of another client, the text says that the client is gone.
///
/// # Errors
///
/// - [`PlayError::Stopped`] with the line of the event if the world stops. The text of all events
///   before it was written.
/// - [`PlayError::Write`] if a write fails, and [`PlayError::Memory`] if a reply or a push has 2^64
///   levels. The text of the events before this one was written, and the first part of its own
///   text. No event after it happened.
pub fn play<L: Link, S: BuildHasher + Drop, W: Sink>(
    alloc: Global,
    script: &Script,
    world: &mut World<L, S>,
    writer: &mut W,
) -> Result<(), PlayError>
    // The results of the steps are those of the definitions, and this is their text.
    ensures plays { (limits : Bounds) (w : session.World) → Shows L.is_honest world.old limits w →
        PlaysScript L.is_honest limits w (steps_events script.now.clients script.now.steps.items)
        world.new (W.written writer.old) (W.written writer.new) result }
    ensures stopped { IfErr result (IsAtStep script.now.steps.items) }
    ensures cause { KeepsCause world.old.stopped world.new.stopped result }
    ensures failed { FailsToWrite (W.failures writer.old) (W.failures writer.new) result }
    ensures memory { LacksMemoryOnlyTooDeep L.is_honest world.old world.new result }
{
    for (line, step) in &script.steps {
        play_step(alloc, *line, step, script.clients, world, writer)?;
    }
    write_counts(world, writer)
}

/// Writes the number of commands that were run, and the number of keys in the store.
fn write_counts<L: Link, S: BuildHasher + Drop, W: Sink>(
    world: &World<L, S>,
    writer: &mut W,
) -> Result<(), PlayError>
    ensures prints { (limits : Bounds) (w : session.World) → Shows L.is_honest world.now limits w →
        PlaysText (W.written writer.old) (W.written writer.new) (W.failures writer.old)
        (W.failures writer.new) result (counts_text w) }
    ensures ends { EndsPrint (W.failures writer.old) (W.failures writer.new) result }
    ensures no_memory { IsErrOf result PlayError.Memory → ⊥ }
{
    let commands = world.order().len() as u64;
    Ok(write_numbers(writer, b"commands ", commands, b" keys ", count_keys(world))?)
}

/// Returns the number of keys in the store, or `u64::MAX` if it is larger.
fn count_keys<L: Link, S: BuildHasher + Drop>(world: &World<L, S>) -> u64
    ensures { (limits : Bounds) (w : session.World) → Shows L.is_honest world.now limits w →
        result ≡ key_count w }
{
    let mut count: u64 = 0;
    for _ in world.entries() {
        count = count.saturating_add(1);
    }
    count
}

/// Plays the events of a step, and writes the results.
fn play_step<L: Link, S: BuildHasher + Drop, W: Sink>(
    alloc: Global,
    line: u64,
    step: &Option<Event>,
    clients: usize,
    world: &mut World<L, S>,
    writer: &mut W,
) -> Result<(), PlayError>
    ensures plays { (limits : Bounds) (w : session.World) → Shows L.is_honest world.old limits w →
        PlaysTo L.is_honest limits w (step_events clients line step.now) world.new
        (W.written writer.old) (W.written writer.new) result }
    ensures stopped { IfErr result (WhereStopped (λ at cause. at ≡ line)) }
    ensures cause { KeepsCause world.old.stopped world.new.stopped result }
    ensures failed { FailsToWrite (W.failures writer.old) (W.failures writer.new) result }
    ensures memory { LacksMemoryOnlyTooDeep L.is_honest world.old world.new result }
{
    match step {
        Some(event) => take(alloc, line, event, false, world, writer),
        None => flush(alloc, line, clients, world, writer),
    }
}

/// Moves all waiting bytes of each client to its session, and then those of the session to the
/// client.
fn flush<L: Link, S: BuildHasher + Drop, W: Sink>(
    alloc: Global,
    line: u64,
    clients: usize,
    world: &mut World<L, S>,
    writer: &mut W,
) -> Result<(), PlayError>
    ensures plays { (limits : Bounds) (w : session.World) → Shows L.is_honest world.old limits w →
        PlaysTo L.is_honest limits w (flush_events line clients) world.new
        (W.written writer.old) (W.written writer.new) result }
    ensures stopped { IfErr result (WhereStopped (λ at cause. at ≡ line)) }
    ensures cause { KeepsCause world.old.stopped world.new.stopped result }
    ensures failed { FailsToWrite (W.failures writer.old) (W.failures writer.new) result }
    ensures memory { LacksMemoryOnlyTooDeep L.is_honest world.old world.new result }
{
    for index in 0..clients {
        let to_server = Event::ToServer(index + 1, ALL);
        take(alloc, line, &to_server, true, world, writer)?;
        let to_client = Event::ToClient(index + 1, ALL);
        take(alloc, line, &to_client, true, world, writer)?;
    }
    Ok(())
}

/// Plays one event and writes its result. In a `flush`, it does not write that a client is gone.
fn take<L: Link, S: BuildHasher + Drop, W: Sink>(
    alloc: Global,
    line: u64,
    event: &Event,
    is_flush: bool,
    world: &mut World<L, S>,
    writer: &mut W,
) -> Result<(), PlayError>
    ensures plays { (limits : Bounds) (w : session.World) → Shows L.is_honest world.old limits w →
        PlaysTo L.is_honest limits w (played line is_flush (event_of event.now) ∷ [])
        world.new (W.written writer.old) (W.written writer.new) result }
    ensures stopped { IfErr result (WhereStopped (λ at cause. at ≡ line)) }
    ensures cause { KeepsCause world.old.stopped world.new.stopped result }
    ensures failed { FailsToWrite (W.failures writer.old) (W.failures writer.new) result }
    ensures memory { LacksMemoryOnlyTooDeep L.is_honest world.old world.new result }
{
    let before = Before::new(event.client(), world);
    let outcome = match world.step(event) {
        Ok(outcome) => outcome,
        Err(stop) => {
            return Err(PlayError::Stopped {
                line,
                cause: stop.cause,
            });
        }
    };
    before.write_outcome(alloc, outcome, is_flush, world, writer)
}

/// The numbers of replies and pushes that a client had received before an event.
#[derive(Clone, Copy)]
struct Before {
    client: usize,
    replies: usize,
    pushes: usize,
}

impl Before {
    /// Returns the numbers for this client, which are 0 if there is no such client.
    fn new<L: Link, S: BuildHasher + Drop>(client: usize, world: &World<L, S>) -> Self
        ensures client { result.client ≡ client }
        ensures heard { (limits : Bounds) (w : session.World) →
            Shows L.is_honest world.now limits w →
            AreShownOn result.replies result.pushes (session.connection_at w.connections client) }
    {
        if client == 0 || client > world.clients() {
            return Before {
                client,
                replies: 0,
                pushes: 0,
            };
        }
        Before {
            client,
            replies: world.replies(client).len(),
            pushes: world.pushes(client).len(),
        }
    }

    /// Writes the result of an event of the client. In a `flush`, it does not write that the client
    /// is gone.
    fn write_outcome<L: Link, S: BuildHasher + Drop, W: Sink>(
        &self,
        alloc: Global,
        outcome: Outcome,
        is_flush: bool,
        world: &World<L, S>,
        writer: &mut W,
    ) -> Result<(), PlayError>
        ensures prints { (limits : Bounds) (next : session.World) →
            Shows L.is_honest world.now limits next → (c : Option Connection) →
            AreShownOn self.now.replies self.now.pushes c →
            AreThere outcome c (session.connection_at next.connections self.now.client) →
            PlaysText (W.written writer.old) (W.written writer.new) (W.failures writer.old)
            (W.failures writer.new) result (outcome_text self.now.client is_flush
            (outcome_of outcome) c (session.connection_at next.connections self.now.client)) }
        ensures ends { EndsPrint (W.failures writer.old) (W.failures writer.new) result }
        ensures memory { LacksMemoryOnlyTooDeep L.is_honest world.now world.now result }
    {
        match outcome {
            Outcome::Done => self.write_heard(alloc, world, writer),
            Outcome::Refused(cause) => Ok(write_refused(self.client as u64, cause, writer)?),
            Outcome::Gone => Ok(write_gone(self.client as u64, is_flush, writer)?),
        }
    }

    /// Writes the replies and pushes that the client received since then.
    fn write_heard<L: Link, S: BuildHasher + Drop, W: Sink>(
        &self,
        alloc: Global,
        world: &World<L, S>,
        writer: &mut W,
    ) -> Result<(), PlayError>
        ensures prints { (limits : Bounds) (next : session.World) →
            Shows L.is_honest world.now limits next → (c : Connection) →
            session.connection_at next.connections self.now.client ≡ Some c →
            PlaysText (W.written writer.old) (W.written writer.new) (W.failures writer.old)
            (W.failures writer.new) result
            (heard_text self.now.client self.now.replies self.now.pushes c) }
        ensures ends { EndsPrint (W.failures writer.old) (W.failures writer.new) result }
        ensures memory { LacksMemoryOnlyTooDeep L.is_honest world.now world.now result }
    {
        if self.client == 0 || self.client > world.clients() {
            return Ok(());
        }
        let client = self.client as u64;
        let replies = beyond(world.replies(self.client), self.replies);
        let pushes = beyond(world.pushes(self.client), self.pushes);
        write_replies(client, self.replies as u64, replies, writer)?;
        write_pushes(client, pushes, writer)
    }
}

/// Returns the items after the first `count`.
fn beyond<T>(items: &[T], count: usize) -> &[T]
    ensures items { result.now ≡ drop count items.now }
    ensures few { length result.now + count < 2 ^ 64 }
{
    if count < items.len() {
        &items[count..]
    } else {
        &[]
    }
}

/// Writes that an event of a client was rejected.
fn write_refused<W: Sink>(client: u64, cause: Cause, writer: &mut W) -> Result<(), DeviceFault>
    ensures { WritesText (W.written writer.old) (W.written writer.new) (W.failures writer.old)
        (W.failures writer.new) result (refused_text client cause) }
{
    write_number(writer, b"client ", client, b" refused ")?;
    write_text(writer, cause.name().as_bytes())?;
    write_text(writer, b"\n")
}

/// Writes that a client is gone, except in a `flush`.
fn write_gone<W: Sink>(client: u64, is_flush: bool, writer: &mut W) -> Result<(), DeviceFault>
    ensures { WritesText (W.written writer.old) (W.written writer.new) (W.failures writer.old)
        (W.failures writer.new) result (gone_text client is_flush) }
{
    if is_flush {
        return Ok(());
    }
    write_number(writer, b"client ", client, b" gone\n")
}
