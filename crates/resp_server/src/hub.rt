//! The hub: sessions over one store.

ghost use Rattle.std.specs.Prelude.{◌≡◌, ◌≢◌, ◌+◌, ◌≤◌, ◌++◌, ◌↔◌, [], length, drop, take, true, false, ℕ, List, None, Some, Ok, Err, IfSome, IsOk, IsErr, IsErrOf, IfOk, IfErr, OnOk, OnErr};
ghost use Rattle.std.specs.Option.{option_map};
ghost use Rattle.resp_value.specs.Canonical.{IsValue, canonical_text};
ghost use Rattle.resp_value.specs.declared.version.Version.TheVariants.{Three};
ghost use Rattle.resp_io.specs.Devices.{failures_after};
ghost use Rattle.resp_encode.specs.Pushes.{push_of};
ghost use Rattle.resp_session.specs.Stores.{value_at};
ghost use Rattle.resp_io.specs.Turns.{Halts, Spends, has_failed, stopped_by};
ghost use Rattle.resp_server.specs.Answering.{TakesWithin};
ghost use Rattle.resp_server.specs.PushRefusals.{IsPushVerdict};
ghost use Rattle.resp_server.specs.Reading.{HasReadFront, HoldsNoIdleDecoder};
ghost use Rattle.resp_server.specs.Handling.{WhereOpen, HasAnswered, HasCutShort, IfOutOfMemory};
ghost use Rattle.resp_server.specs.Sending.{HasSent, HasSentPart, IsClosing};
ghost use Rattle.resp_server.specs.declared.error.HubError.{HubError};
ghost use Rattle.resp_server.specs.declared.error.OpenError.{OpenError};

use crate::answer::answer;
use crate::database::Database;
use crate::entries::Entries;
use crate::error::{HubError, NoSession, OpenError, PushError};
use crate::push::queue_push;
use crate::session::Session;
use resp_io::device::Sink;
use resp_io::{Halt, write_text};
use resp_value::limits::Limits;
use resp_value::value::Value;
use resp_value::version::Version;
use std::alloc::Global;
use std::collections::BTreeMap;
use std::hash::BuildHasher;
use std::marker::Model;

/// The result of giving a session a piece.
#[derive(Clone, Copy, Debug, PartialEq, Eq)]
pub struct Handled {
    /// The number of commands that were run, including those with an error reply.
    pub commands: u64,
}

/// The result of giving a session a piece that may be used only in part.
#[derive(Clone, Copy, Debug, PartialEq, Eq)]
pub struct Taken {
    /// The number of bytes that were used, from the beginning of the piece.
    pub used: usize,
    /// The number of commands that were run, including those with an error reply.
    pub commands: u64,
}

/// The result of writing the bytes that wait in a session.
#[derive(Clone, Copy, Debug, PartialEq, Eq)]
pub struct Sent {
    /// Why writing stopped, if bytes still wait.
    pub end: Result<(), Halt>,
    /// Whether the session is closing, as [`Hub::is_closing`] returns it.
    pub closing: bool,
}

/// Sessions over one store. Each session reads the commands of one client in version 2 (Redis
/// serialization protocol specification, "Sending commands to a Redis server") and replies in the
/// version that HELLO last set. The replies wait in the hub until the caller has written them. `S`
/// hashes the keys of the store.
///
/// # Examples
///
/// From [samples](../../samples/src/serving.rt):
///
/// ```rust
/// let mut hub = Hub::new(alloc, Limits::standard(), hasher);
/// let id = hub.open()?;
/// let handled = hub.bytes(id, b"*3\r\n$3\r\nSET\r\n$1\r\na\r\n$1\r\n1\r\n")?;
/// println!(rt; "{} {}", handled.commands, hub.out(id)?.escape_ascii())?;
/// let length = hub.out(id)?.len();
/// hub.sent(id, length)?;
/// ```
///
/// This prints `1 +OK\r\n`.
#[derive(Drop)]
pub struct Hub<S: BuildHasher> {
    database: Database<S>,
    sessions: BTreeMap<u64, Session>,
    last: u64,
}

impl<S: BuildHasher> Model for Hub<S> {
    ghost use Rattle.std.specs.Coded.{codes};
    ghost use Rattle.resp_value.specs.contracts.value.Value as value;
    ghost use Rattle.resp_server.specs.Hubs.{HubState, HubIsSound, seats_of};

    ghost Value = { HubState };

    ghost coded = { Prim.hlevel (codes, value.the_row.coded) };

    ghost view = { λ hub. record {
      limits = hub.database.limits;
      sessions = seats_of hub.sessions.entries;
      store = hub.database.store;
      last = hub.last;
    } };

    ghost invariant = { λ hub. HubIsSound hub.database.limits hub.sessions.entries hub.database.store
        hub.last };
}

impl<S: BuildHasher> Hub<S> {
    ghost use Rattle.resp_server.specs.Hubs.{HubState, Seat, WaitsAtMost, seat_at, seated, without_seat};
    ghost use Rattle.resp_server.specs.Hubs.{IsOpened, HasNoSessionLeft};

    /// Creates a hub with an empty store and without a session. Its sessions read and write within
    /// these limits. Does not allocate.
    pub fn new(alloc: Global, limits: Limits, hasher: S) -> Hub<S>
        ensures { result ≡ record { limits = limits; sessions = []; store = []; last = 0 } }
    {
        Hub {
            database: Database::new(alloc, limits, hasher),
            sessions: BTreeMap::new(alloc),
            last: 0,
        }
    }

    /// Returns the value of a key, or `None` if the store does not have the key.
    pub fn get(&self, key: &[u8]) -> Option<&[u8]>
        ensures { option_map (λ value. value.now) result ≡ value_at self.now.store key.now }
    {
        self.database.get(key)
    }

    /// Returns the keys of the store with their values, in the order in which the keys were added.
    /// A key that is set again keeps its place.
    ///
    /// # Examples
    ///
    /// From [samples](../../samples/src/serving.rt):
    ///
    /// ```rust
    /// for (key, value) in hub.entries() {
    ///     println!(rt; "{} is {}", key.escape_ascii(), value.escape_ascii())?;
    /// }
    /// ```
    pub fn entries(&self) -> Entries<'_>
        ensures { result ≡ self.now.store }
    {
        self.database.store.entries()
    }

    /// Returns the bytes that wait to be written to a session's client.
    ///
    /// # Errors
    ///
    /// `NoSession` if no session has this id.
    pub fn out(&self, id: u64) -> Result<&[u8], NoSession>
        ensures waiting { IfOk result (λ text.
            option_map (λ (s : Seat). s.out) (seat_at self.now id) ≡ Some text.now) }
        ensures none { OnErr result (seat_at self.now id ≡ None) }
    {
        match self.sessions.get(&id) {
            Some(session) => Ok(session.out.as_slice()),
            None => Err(NoSession),
        }
    }

    /// Removes the first `count` bytes of [`Hub::out`] after they were written. `count` is at most
    /// the number of bytes that wait.
    ///
    /// # Errors
    ///
    /// `NoSession` if no session has this id. Then nothing is changed.
    pub fn sent(&mut self, id: u64, count: usize) -> Result<(), NoSession>
        requires { IfSome (seat_at self.old id) (λ (s : Seat). count ≤ length s.out) }
        ensures dropped { OnOk result (IfSome (seat_at self.old id) (λ (s : Seat).
            self.new ≡ seated self.old id (record s { out = drop count s.out }))) }
        ensures some { OnOk result (seat_at self.old id ≢ None) }
        ensures none { OnErr result (seat_at self.old id ≡ None) }
        ensures unchanged { OnErr result (self.new ≡ self.old) }
    {
        let Some(session) = self.sessions.get_mut(&id) else {
            return Err(NoSession);
        };
        session.out.advance(count);
        Ok(())
    }

    /// Writes the bytes that wait in a session, with as many writes as they need, and removes those
    /// that were written. Each write uses one of the turns that are left.
    ///
    /// # Errors
    ///
    /// `NoSession` if no session has this id. Then nothing is changed. If a write fails, writes no
    /// byte or has no turn left, then [`Sent::end`] is an error, and the other bytes still wait.
    pub fn write_out<W: Sink>(
        &mut self,
        id: u64,
        writer: &mut W,
        turns: &mut u64,
    ) -> Result<Sent, NoSession>
        ensures sent { IfOk result (λ sent. OnOk sent.end (HasSent self.old self.new id
            (W.written writer.old) (W.written writer.new) [])) }
        ensures part { IfOk result (λ sent. OnErr sent.end (HasSentPart self.old self.new id
            (W.written writer.old) (W.written writer.new))) }
        ensures closing { IfOk result (λ sent. IsClosing self.new id sent.closing) }
        ensures failures { IfOk result (λ sent. W.failures writer.new ≡
            failures_after (stopped_by has_failed sent.end) (W.failures writer.old)) }
        ensures turns { Spends (W.calls writer.old) (W.calls writer.new) turns.old turns.new }
        ensures halted { IfOk result (λ sent. IfErr sent.end (Halts (W.failures writer.old)
            (W.failures writer.new) turns.new)) }
        ensures none { OnErr result (seat_at self.old id ≡ None) }
        ensures unchanged { OnErr result ((self.new ≡ self.old) × (writer.new ≡ writer.old) ×
            (turns.new ≡ turns.old)) }
    {
        let Some(session) = self.sessions.get_mut(&id) else {
            return Err(NoSession);
        };
        let written = write_text(writer, session.out.as_slice(), turns);
        session.out.advance(written.count);
        let closing = session.closing;
        let end = written.end;
        Ok(Sent { end, closing })
    }

    /// Returns whether a session accepts no more commands and pushes, after a protocol error or
    /// when out of memory.
    ///
    /// # Errors
    ///
    /// `NoSession` if no session has this id.
    pub fn is_closing(&self, id: u64) -> Result<bool, NoSession>
        ensures closing { IfOk result (λ closing.
            option_map (λ (s : Seat). s.closing) (seat_at self.now id) ≡ Some closing) }
        ensures none { OnErr result (seat_at self.now id ≡ None) }
        // An open session has read the first bytes of a value, which has no reply yet.
        ensures taking { IfSome (seat_at self.now id) (λ (s : Seat). s.closing ≡ false →
            (front : List ℕ) × HasReadFront s.decoder front) }
        ensures waiting { WhereOpen self.now id (λ s front.
            HasAnswered self.now self.now id s front 0) }
    {
        let Some(session) = self.sessions.get(&id) else {
            return Err(NoSession);
        };
        // The contract of the decoder's `taken` states here that the bytes read are viable.
        let _taken = session.decoder.taken(&self.database.limits);
        Ok(session.closing)
    }

    /// Returns the version in which a session replies: 2 until a HELLO sets another.
    ///
    /// # Errors
    ///
    /// `NoSession` if no session has this id.
    pub fn version(&self, id: u64) -> Result<Version, NoSession>
        ensures version { IfOk result (λ version.
            option_map (λ (s : Seat). s.version) (seat_at self.now id) ≡ Some version) }
        ensures none { OnErr result (seat_at self.now id ≡ None) }
    {
        match self.sessions.get(&id) {
            Some(session) => Ok(session.version),
            None => Err(NoSession),
        }
    }

    /// Opens a session and returns its id. The session first replies in version 2. The ids are 1,
    /// 2, 3 and so on, and no id is given twice.
    ///
    /// # Errors
    ///
    /// `TooManySessions` if 65,536 sessions are open or 9,223,372,036,854,775,807 ids were given,
    /// otherwise `OutOfMemory` if an allocation fails. Then nothing is changed.
    pub fn open(&mut self) -> Result<u64, OpenError>
        ensures opened { IfOk result (IsOpened self.old self.new) }
        ensures too_many { IsErrOf result OpenError.TooManySessions ↔ HasNoSessionLeft self.old }
        ensures unchanged { OnErr result (self.new ≡ self.old) }
    {
        if self.sessions.len() >= 65_536 || self.last >= 9_223_372_036_854_775_807 {
            return Err(OpenError::TooManySessions);
        }
        let id = self.last + 1;
        let session = Session::new(self.database.alloc, id);
        if let Err(_) = self.sessions.insert(id, session) {
            return Err(OpenError::OutOfMemory);
        }
        self.last = id;
        Ok(id)
    }

    /// Closes a session and drops the bytes that wait to be written.
    ///
    /// # Errors
    ///
    /// `NoSession` if no session has this id. Then nothing is changed.
    pub fn close(&mut self, id: u64) -> Result<(), NoSession>
        ensures closed { OnOk result (self.new ≡
            record self.old { sessions = without_seat self.old.sessions id }) }
        ensures gone { OnOk result (seat_at self.new id ≡ None) }
        ensures some { OnOk result (seat_at self.old id ≢ None) }
        ensures none { OnErr result (seat_at self.old id ≡ None) }
        ensures unchanged { OnErr result (self.new ≡ self.old) }
    {
        let Some(_session) = self.sessions.remove(&id) else {
            return Err(NoSession);
        };
        Ok(())
    }

    /// Gives a session a piece of the bytes that its client has sent. Runs all commands that are
    /// complete with this piece, in order, and queues their replies. The pieces may be cut
    /// anywhere.
    ///
    /// If a byte is rejected or a value is not a command, the session queues an error reply that
    /// names the problem, and is closing: it then ignores further pieces. Nulls and empty arrays
    /// are ignored.
    ///
    /// # Errors
    ///
    /// - `NoSession` if no session has this id. Then nothing is changed.
    /// - `OutOfMemory` if an allocation fails. The commands run before keep their effect and their
    ///   replies, nothing after them is done, and the session is closing.
    ///
    /// # Examples
    ///
    /// A command in two pieces, and then bytes that are not a command, from
    /// [samples](../../samples/src/serving.rt):
    ///
    /// ```rust
    /// let first = hub.bytes(id, b"*1\r\n$4\r\nPI")?;
    /// let second = hub.bytes(id, b"NG\r\n")?;
    /// println!(rt; "{} {}", first.commands, second.commands)?;
    /// hub.bytes(id, b"PING\r\n")?;
    /// println!(rt; "{}", hub.out(id)?.escape_ascii())?;
    /// println!(rt; "{}", hub.is_closing(id)?)?;
    /// ```
    ///
    /// This prints `0 1`, `+PONG\r\n-ERR Protocol error: Syntax at byte 0\r\n` and `true`.
    pub fn bytes(&mut self, id: u64, piece: &[u8]) -> Result<Handled, HubError>
        // The queued replies, the store, the version and whether the session is closing are the
        // response to the bytes read before of a value together with the piece.
        ensures answered { WhereOpen self.old id (λ s front. IfOk result (λ handled.
            HasAnswered self.old self.new id s (front ++ piece.now) handled.commands)) }
        // At `OutOfMemory` they are the response to the bytes read before together with the
        // first bytes of the piece.
        ensures cut_short { WhereOpen self.old id (λ s front. IfErr result (λ error.
            IfOutOfMemory error (HasCutShort self.old self.new id s front piece.now))) }
        ensures closing { IfSome (seat_at self.old id) (λ (s : Seat). s.closing ≡ true →
            (result ≡ Ok (record { commands = 0 })) × (self.new ≡ self.old)) }
        // A session has a decoder only inside a value, and none once it is closing.
        ensures idle { IfSome (seat_at self.new id) (λ (s : Seat).
            HoldsNoIdleDecoder s.closing s.decoder) }
        ensures no_session { seat_at self.old id ≡ None → result ≡ Err HubError.NoSession }
        ensures none { IsErrOf result HubError.NoSession → seat_at self.old id ≡ None }
        ensures unchanged { IsErrOf result HubError.NoSession → self.new ≡ self.old }
    {
        let taken = self.bytes_within(id, piece, usize::MAX)?;
        let commands = taken.commands;
        Ok(Handled { commands })
    }

    /// Gives a session a piece as [`Hub::bytes`] does, but runs no further command when more than
    /// `held` bytes wait to be written. Returns the number of bytes that were used. Give the others
    /// again after bytes were written. So at most `held` bytes and one reply wait, if no push is
    /// queued.
    ///
    /// # Errors
    ///
    /// The errors of [`Hub::bytes`].
    ///
    /// # Examples
    ///
    /// From [samples](../../samples/src/serving.rt):
    ///
    /// ```rust
    /// let pings = b"*1\r\n$4\r\nPING\r\n*1\r\n$4\r\nPING\r\n";
    /// let taken = hub.bytes_within(id, pings, 0)?;
    /// println!(rt; "{} {}", taken.used, hub.out(id)?.escape_ascii())?;
    /// ```
    ///
    /// This prints `14 +PONG\r\n`.
    pub fn bytes_within(&mut self, id: u64, piece: &[u8], held: usize) -> Result<Taken, HubError>
        // As `bytes`, for the bytes of the piece that are used.
        ensures answered { WhereOpen self.old id (λ s front. IfOk result (λ taken.
            HasAnswered self.old self.new id s (front ++ take taken.used piece.now)
            taken.commands)) }
        ensures cut_short { WhereOpen self.old id (λ s front. IfErr result (λ error.
            IfOutOfMemory error (HasCutShort self.old self.new id s front piece.now))) }
        // The call stops before the end of the piece only if more than `held` bytes wait.
        ensures within { IfSome (seat_at self.old id) (λ (s : Seat). IfOk result (λ taken.
            IfSome (seat_at self.new id) (λ (t : Seat). TakesWithin held (length s.out)
            (length t.out) t.closing (length piece.now) taken.used))) }
        // At most `held` bytes and one reply wait, and a reply is within the limits.
        ensures bounded { WaitsAtMost (held + self.old.limits.total) self.old id →
            WaitsAtMost (held + self.old.limits.total) self.new id }
        ensures closing { IfSome (seat_at self.old id) (λ (s : Seat). s.closing ≡ true →
            (result ≡ Ok (record { used = length piece.now; commands = 0 })) ×
            (self.new ≡ self.old)) }
        ensures idle { IfSome (seat_at self.new id) (λ (s : Seat).
            HoldsNoIdleDecoder s.closing s.decoder) }
        ensures no_session { seat_at self.old id ≡ None → result ≡ Err HubError.NoSession }
        ensures none { IsErrOf result HubError.NoSession → seat_at self.old id ≡ None }
        ensures unchanged { IsErrOf result HubError.NoSession → self.new ≡ self.old }
    {
        let Some(session) = self.sessions.get_mut(&id) else {
            return Err(HubError::NoSession);
        };
        if session.closing {
            let used = piece.len();
            return Ok(Taken { used, commands: 0 });
        }
        let answered = answer(&mut self.database, session, piece, held);
        session.shrink();
        let taken = match answered {
            Ok(taken) => taken,
            Err(commands) => return Err(HubError::OutOfMemory { commands }),
        };
        Ok(taken)
    }

    /// Queues a push of the items in version 3 (Redis serialization protocol specification,
    /// "Pushes").
    ///
    /// # Errors
    ///
    /// The first of `NoSession`, `Closing`, `NotInVersion`, `Double`, `NestedPush`, `OverLimits`
    /// and `OutOfMemory` that applies, as [`PushError`] describes. Then nothing is changed.
    ///
    /// # Examples
    ///
    /// From [samples](../../samples/src/serving.rt):
    ///
    /// ```rust
    /// println!(rt; "{:?}", hub.push(id, &[Value::Int(1)]))?;
    /// hub.bytes(id, b"*2\r\n$5\r\nHELLO\r\n$1\r\n3\r\n")?;
    /// let length = hub.out(id)?.len();
    /// hub.sent(id, length)?;
    /// hub.push(id, &[Value::Int(1)])?;
    /// println!(rt; "{}", hub.out(id)?.escape_ascii())?;
    /// ```
    ///
    /// This prints `Err(NotInVersion)` and `>1\r\n:1\r\n`.
    pub fn push(&mut self, id: u64, items: &[Value]) -> Result<(), PushError>
        ensures queued { OnOk result (IfSome (seat_at self.old id) (λ (s : Seat).
            self.new ≡ seated self.old id
            (record s { out = s.out ++ canonical_text Three (push_of items.now) }))) }
        ensures verdict { IsPushVerdict self.old.limits (seat_at self.old id) (push_of items.now)
            result }
        ensures unchanged { OnErr result (self.new ≡ self.old) }
        // The push is a value of the protocol, whatever the items are.
        ensures is_value { OnOk result (IsValue (push_of items.now)) }
    {
        let Some(session) = self.sessions.get_mut(&id) else {
            return Err(PushError::NoSession);
        };
        if let Err(error) = queue_push(session, &self.database.limits, items) {
            return Err(error);
        }
        Ok(())
    }
}
