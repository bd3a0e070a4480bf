//! Reading replies and pushes from the bytes received.

ghost use Rattle.std.specs.Prelude.{◌≡◌, ◌≢◌, ◌↔◌, ◌<◌, ◌≤◌, ◌++◌, [], length, take, Err, None, IsTrue, OnOk, OnErr, IfOk, IfErr};
ghost use Rattle.resp_value.specs.Values.{datum_of};
ghost use Rattle.resp_session.specs.Reading.{IsUnasked, greater_version, is_refusal, reading_version};
ghost use Rattle.resp_decode.specs.Decoding.{IfNoValue, IfValue};
ghost use Rattle.resp_client.specs.Clients.{KeepsQueued, next_number, state_of, with_answer};
ghost use Rattle.resp_client.specs.Hearing.{HasFault, HasTaken, Hears, HearsAndShows, Refuses, RefusesOrLoses, TakesPiece, UnlessReply, WhereTaken};
ghost use Rattle.resp_client.specs.Standing.{IsOfBytes};
ghost use Rattle.resp_client.specs.Steps.{HasBegun, IsUnaskedFault, Knows, SameReading, TakesValue};
ghost use Rattle.resp_scan.specs.declared.event.Fault.{Fault};

use crate::client::Client;
use crate::heard::{Heard, What};
use crate::sink::{PushSink, show_to};
use resp_decode::fed::Fed;
use resp_scan::event::Fault;
use resp_value::cause::Cause;
use resp_value::laws as grammar;
use resp_value::value::Value;
use resp_value::version::Version;

/// Returns the greater of two versions.
fn greater_version(version: Version, other: Version) -> Version
    ensures { result ≡ greater_version version other }
{
    match version {
        Version::Two => other,
        Version::Three => Version::Three,
    }
}

/// Returns whether a reply is an error.
fn is_refusal(value: &Value) -> bool
    ensures { result ≡ is_refusal (datum_of value.now) }
{
    match value.without_attributes() {
        Value::Error(_) | Value::BulkError(_) => true,
        _ => false,
    }
}

impl Client {
    /// Reads bytes of the piece up to the end of a reply or a push, or up to the end of the piece.
    /// Call it again with the bytes that are left.
    ///
    /// A reply belongs to the first command that waits, and a push belongs to no command. A value
    /// is read in the client's version, or in the version that the first waiting command requests
    /// if that is greater. The choice is made at the first byte of the value.
    ///
    /// # Errors
    ///
    /// A [`Fault`] with the cause `Unasked` at the first byte of a value that is not a push, if no
    /// command waits. At any other byte the faults are those of the decoder, with `OutOfMemory` if
    /// an allocation fails. Every later call returns the same fault, and the queued commands stay
    /// queued.
    ///
    /// # Examples
    ///
    /// The replies and pushes of a piece, from [example_client](../../example_client/src/main.rt):
    ///
    /// ```rust
    /// let fed = client.feed(rest)?;
    /// rest = &rest[fed.used..];
    /// match &fed.what {
    ///     What::Reply { number, value } => println!(rt; "reply {number}: {value:?}")?,
    ///     What::Push(items) => println!(rt; "push: {:?}", items.list())?,
    ///     _ => break,
    /// }
    /// ```
    pub fn feed(&mut self, piece: &[u8]) -> Result<Heard, Fault>
        ensures heard { WhereTaken self.old (λ front. IfOk result (λ heard.
            Hears self.old self.new front piece.now heard.used heard.what)) }
        ensures refusal { WhereTaken self.old (λ front. IfErr result
            (Refuses (state_of self.old) front piece.now)) }
        ensures only_replies_answer { UnlessReply result (state_of self.new ≡ state_of self.old) }
        ensures same_queue { KeepsQueued (state_of self.old) (state_of self.new) }
        ensures within_piece { IfOk result (λ heard. heard.used ≤ length piece.now) }
        ensures uses_bytes { IfOk result (λ heard. 0 < length piece.now → 0 < heard.used) }
        ensures cause { IfErr result (λ fault. IsOfBytes fault.cause) }
        ensures fault_is_kept { IfErr result (HasFault self.new) }
        ensures fault_is_final { (fault : Fault) → HasFault self.old fault → result ≡ Err fault }
    {
        if let Some(fault) = self.fault {
            return Err(fault);
        }
        let fed = self.take(piece)?;
        let used = fed.used;
        let Some(value) = fed.value else {
            return Ok(Heard {
                used,
                what: What::More,
            });
        };
        let what = self.hear(value);
        Ok(Heard { used, what })
    }

    /// Like [`Client::feed`], but passes each push to the sink and returns [`What::Shown`] for it.
    ///
    /// # Errors
    ///
    /// Those of [`Client::feed`], and `OutOfMemory` if the sink returns an error. Then the sink has
    /// stored nothing, and the push is lost.
    ///
    /// # Examples
    ///
    /// From [samples](../../samples/src/pipelining.rt):
    ///
    /// ```rust
    /// let mut sink: Box<dyn PushSink> = Box::new(alloc, PushList::new(alloc))?;
    /// let fed = client.feed_with(b">1\r\n+tick\r\n", &mut sink)?;
    /// println!(rt; "{:?}, {} stored", fed.what, sink.shown().len())?;
    /// ```
    ///
    /// This prints `Shown, 1 stored`.
    pub fn feed_with(&mut self, piece: &[u8], sink: &mut Box<dyn PushSink>) -> Result<Heard, Fault>
        ensures heard { WhereTaken self.old (λ front. IfOk result (λ heard.
            HearsAndShows self.old self.new (pushes sink.old) (pushes sink.new) front piece.now
            heard.used heard.what)) }
        ensures refusal { WhereTaken self.old (λ front. IfErr result
            (RefusesOrLoses (state_of self.old) front piece.now)) }
        ensures only_replies_answer { UnlessReply result (state_of self.new ≡ state_of self.old) }
        ensures nothing_shown { OnErr result (pushes sink.new ≡ pushes sink.old) }
        ensures within_piece { IfOk result (λ heard. heard.used ≤ length piece.now) }
        ensures uses_bytes { IfOk result (λ heard. 0 < length piece.now → 0 < heard.used) }
        ensures cause { IfErr result (λ fault. IsOfBytes fault.cause) }
        ensures fault_is_kept { IfErr result (HasFault self.new) }
        ensures fault_is_final { (fault : Fault) → HasFault self.old fault → result ≡ Err fault }
    {
        let taken = self.decoder.taken();
        let heard = self.feed(piece)?;
        let used = heard.used;
        let items = match heard.what {
            What::Push(items) => items,
            what => return Ok(Heard { used, what }),
        };
        if show_to(sink, items).is_err() {
            let fault = Fault {
                cause: Cause::OutOfMemory,
                at: taken + used as u64,
            };
            self.fault = Some(fault);
            return Err(fault);
        }
        Ok(Heard {
            used,
            what: What::Shown,
        })
    }

    /// Reads bytes up to the end of a value, in the version chosen for the value. A fault is kept.
    fn take(&mut self, piece: &[u8]) -> Result<Fed<Value>, Fault>
        requires { self.old.fault ≡ None }
        ensures value_whole { WhereTaken self.old (λ front. IfValue result (λ used value.
            TakesValue self.old self.new (front ++ take used piece.now) (datum_of value))) }
        ensures used_up { WhereTaken self.old (λ front. IfNoValue result
            (TakesPiece self.old self.new (front ++ piece.now) piece.now)) }
        ensures refusal { WhereTaken self.old (λ front. IfErr result
            (Refuses (state_of self.old) front piece.now)) }
        ensures within_piece { IfOk result (λ fed. fed.used ≤ length piece.now) }
        ensures same_state { state_of self.new ≡ state_of self.old }
        ensures no_fault { OnOk result (self.new.fault ≡ None) }
        ensures cause { IfErr result (λ fault. IsOfBytes fault.cause) }
        ensures fault_is_kept { IfErr result (HasFault self.new) }
    {
        grammar::no_spelling_is_empty();
        grammar::a_push_begins_with_its_byte();
        if let Err(fault) = self.begin(piece) {
            self.fault = Some(fault);
            return Err(fault);
        }
        let fed = self.decoder.feed(piece);
        if let Err(fault) = &fed {
            // The contract of the decoder's `taken` states here that the bytes read before are
            // within the limits.
            let _taken = self.decoder.taken();
            self.fault = Some(*fault);
            return fed;
        }
        fed
    }

    /// Chooses the version of a value at its first byte, or rejects that byte.
    fn begin(&mut self, piece: &[u8]) -> Result<(), Fault>
        ensures begun { WhereTaken self.old (λ front. OnOk result
            (HasBegun self.new front piece.now)) }
        ensures unasked { WhereTaken self.old (λ front. IfErr result
            (IsUnaskedFault (state_of self.old) front piece.now)) }
        ensures at_start { IfErr result (λ fault. fault.at ≡ 0) }
        ensures cause { IfErr result (λ fault. IsOfBytes fault.cause) }
        ensures same_state { state_of self.new ≡ state_of self.old }
        ensures same_fault { self.new.fault ≡ self.old.fault }
    {
        if self.decoder.taken() != 0 {
            return Ok(());
        }
        if self.is_unasked(piece) {
            return Err(Fault {
                cause: Cause::Unasked,
                at: 0,
            });
        }
        let version = self.reading_version();
        // The decoder has read no byte of a value, so it accepts the version.
        let _changed = self.decoder.set_version(version);
        Ok(())
    }

    /// Returns whether a value that begins with this piece is not a push while no command waits.
    fn is_unasked(&self, piece: &[u8]) -> bool
        ensures { IsTrue result ↔ IsUnasked (state_of self.now).waiting piece.now }
    {
        match piece.first() {
            Some(first) => self.asks.is_empty() && *first != b'>',
            None => false,
        }
    }

    /// Returns the version in which a value that begins now is read.
    fn reading_version(&self) -> Version
        ensures { result ≡ reading_version (state_of self.now).waiting.version
            (state_of self.now).waiting.asks }
    {
        match self.asks.front() {
            Some(Some(asked)) => greater_version(self.version, *asked),
            _ => self.version,
        }
    }

    /// Returns the result for a value that was read: a push, or the reply to the first command that
    /// waits.
    fn hear(&mut self, value: Value) -> What
        requires { ∥ HasTaken self.old [] ∥₁ }
        ensures known { Knows (state_of self.old) (state_of self.new) (datum_of value) result }
        ensures same_queue { KeepsQueued (state_of self.old) (state_of self.new) }
        ensures same_reading { SameReading self.old self.new }
    {
        match value {
            Value::Push(items) => What::Push(items),
            value => {
                let number = self.answer(&value);
                What::Reply { number, value }
            }
        }
    }

    /// Records the reply to the first command that waits, and returns the command's number.
    fn answer(&mut self, value: &Value) -> u64
        requires { ∥ HasTaken self.old [] ∥₁ }
        ensures answered { (state_of self.old).waiting.asks ≢ [] →
            state_of self.new ≡ with_answer (datum_of value.now) (state_of self.old) }
        ensures number { (state_of self.old).waiting.asks ≢ [] →
            result ≡ next_number (state_of self.old) }
        ensures same_queue { KeepsQueued (state_of self.old) (state_of self.new) }
        ensures same_reading { SameReading self.old self.new }
    {
        if let Some(asked) = self.asks.pop_front() {
            self.answered += 1;
            if let Some(version) = asked {
                if !is_refusal(value) {
                    self.version = version;
                }
            }
        }
        self.answered
    }
}
