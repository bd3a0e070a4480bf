//! The scanner, which reads values from pieces of any size and returns their events.

ghost use Rattle.resp_value.specs.Bounds.{AreBounds};
ghost use Rattle.std.specs.Prelude.{◌≡◌, ◌↔◌, ◌⊎◌, ◌≤◌, ◌<◌, ◌+◌, ◌++◌, length, take, [], false, None, Some, Ok, Err, IsOk, OnOk, OnErr, IfOk, IfErr};
ghost use Rattle.resp_value.specs.declared.cause.Cause.TheVariants as cause;

use crate::event::{Busy, Event, Fault, ScanError, Scanned, Step};
use crate::listener::Listener;
use crate::machine::{Head, Machine, State};
use crate::slot::Slot;
use arrayvec::ArrayVec;
use resp_value::cause::Cause;
use resp_value::double_stage::DoubleStage;
use resp_value::kind::OpenKind;
use resp_value::limits::Limits;
use resp_value::version::Version;
use std::marker::Model;

/// Reads values one after another, from pieces of any size (Redis serialization protocol
/// specification, "RESP protocol description"; RESP3 specification for streamed forms).
///
/// No call allocates.
///
/// # Examples
///
/// From [samples](../../samples/src/scanning.rt):
///
/// ```rust
/// let mut scanner = Scanner::new(Version::Two, &Limits::standard());
/// let mut rest = b"$5\r\nhello\r\n".as_slice();
/// for _ in 0..u64::MAX {
///     let step = scanner.step(rest)?;
///     rest = &rest[step.used..];
///     match &step.event {
///         Some(Event::Part(bytes)) => println!(rt; "part {}", bytes.escape_ascii())?,
///         Some(event) => println!(rt; "{event:?}")?,
///         None => break,
///     }
/// }
/// ```
///
/// This prints `Text(Bulk)`, `part hello`, `TextEnd` and `Done`, each on a line.
#[derive(Drop)]
pub struct Scanner {
    machine: Machine,
}

impl Model for Scanner {
    ghost use Rattle.resp_scan.specs.Machine.Tokens.{Place};

    ghost Value = { Place };

    ghost use Rattle.resp_scan.specs.Machine.Fields.{place_of};
    ghost use Rattle.resp_scan.specs.Machine.Sound.{IsSound};

    ghost view = { λ s. place_of s.machine };

    ghost invariant = { λ s. IsSound (place_of s.machine) };
}

impl Scanner {
    ghost use Rattle.resp_fronts.specs.LeastCompletions.{IsLeast};
    ghost use Rattle.resp_scan.specs.declared.event.Fault.{Fault};
    ghost use Rattle.resp_scan.specs.Machine.End.{end_cause};
    ghost use Rattle.resp_scan.specs.Counts.{close_count, open_count};
    ghost use Rattle.resp_scan.specs.Parts.{IsOfPiece};
    ghost use Rattle.resp_scan.specs.Slots.{IfNotShown, IfNothingShown, IfShown, ShowsEvent, ShowsText, Steps};
    ghost use Rattle.resp_scan.specs.Kinds.{rules_of};
    ghost use Rattle.resp_scan.specs.Machine.Sound.{IsSound, needed};
    ghost use Rattle.resp_scan.specs.Reading.{BeginDue, ComesInTime, EndsValue, HasNoDone, HasNoValue, HasRead, IfDone, IfNoEvent, IfOtherEvent, IsFaulted, IsRefused, MayEnd, UsesUp, WhereRead, events_of};
    ghost use Rattle.resp_scan.specs.Listening.{HearsPiece, HearsRefusal, HearsValue, IfRefused, IfStopped, IfUsedUp, IfWhole, StopsAfter, WhereHeard, fault_of};
    ghost use Rattle.resp_value.specs.Rules.{WithinTotal, rules_under};
    ghost use Rattle.resp_value.specs.Spellings.{IsViable};
    ghost use Rattle.resp_scan.specs.Machine.Tokens.{AtStart};

    /// Creates a scanner of this version with these limits, before the first value.
    pub fn new(version: Version, limits: &Limits) -> Scanner
        ensures nothing_read { HasRead result [] [] }
        ensures rules { rules_of result ≡ rules_under version limits.now }
    {
        limits.are_in_range();
        Scanner {
            machine: Machine {
                version,
                limits: *limits,
                frames: ArrayVec::new(),
                state: State::Start,
                taken: 0,
                frames_need: 0,
                cause: Cause::Syntax,
                head: Head::Bulk,
                kind: OpenKind::Array,
                truth: false,
                negative: false,
                magnitude: 0,
                value: 0,
                big_negative: false,
                count: 0,
                stage: DoubleStage::Begun,
                room: 0,
                digit: b'0',
                format: [0; 3],
                part_start: 0,
            },
        }
    }

    /// Reads bytes of the piece up to the next event, or up to the end of the piece if there is no
    /// further event. Call it again with the bytes that are left. A step may return an event
    /// without reading a byte, so call it again even with an empty piece, until it returns no
    /// event.
    ///
    /// # Errors
    ///
    /// A [`Fault`] at the first byte that no value within the limits could contain there. If
    /// several causes apply, the fault has the first in this order: `Syntax`, `Double`, `Version`,
    /// `NestedPush`, `Range`, `Streamed`, `Depth`, `Length`, `Items`, `Total`. Every later step
    /// returns the same fault. After a listener has stopped a [`Scanner::scan`], each step returns
    /// the fault of that scan.
    ///
    /// # Examples
    ///
    /// Each event of a piece, from [example_events](../../example_events/src/main.rt):
    ///
    /// ```rust
    /// let step = scanner.step(rest)?;
    /// rest = &rest[step.used..];
    /// match &step.event {
    ///     Some(Event::Part(bytes)) => println!(rt; "Part(\"{}\")", bytes.escape_ascii())?,
    ///     Some(event) => println!(rt; "{event:?}")?,
    ///     None => break,
    /// }
    /// ```
    #[inline(always)]
    pub fn step<'a>(&mut self, piece: &'a [u8]) -> Result<Step<'a>, Fault>
        // No event: the whole piece was read, no value has ended in it, and all events of the bytes
        // read were given.
        ensures no_event { WhereRead self.old (λ front given.
            IfNoEvent result (UsesUp self.new front given piece.now)) }

        // `Done`: the bytes read are an encoding of a value, the events given are its events, and
        // the next value may begin.
        ensures value_whole { WhereRead self.old (λ front given.
            IfDone result (EndsValue (rules_of self.old) self.new front given)) }

        // Another event: the bytes used were read, and the event was given.
        ensures another_event { WhereRead self.old (λ front given.
            IfOtherEvent result (λ used event.
            HasRead self.new (front ++ take used piece.now) (given ++ events_of event))) }

        // An event is given with the last of its bytes. No earlier event was missing before these
        // bytes.
        ensures in_time { WhereRead self.old (λ front given.
            IfOtherEvent result (ComesInTime front given piece.now)) }

        // A fault: the byte is the first that cannot follow the bytes before it, and the fault has
        // its cause.
        ensures refusal { WhereRead self.old (λ front given.
            IfErr result (IsRefused (rules_of self.old) front given piece.now)) }

        ensures first_of_those_due { WhereRead self.old BeginDue }
        ensures within_piece { IfOk result (λ step. step.used ≤ length piece.now) }
        ensures whole_piece { IfOk result (λ step.
            step.event ≡ None → step.used ≡ length piece.now) }
        ensures part_of_piece { IfOk result (λ step. IsOfPiece piece.now step) }
        ensures same_rules { rules_of self.new ≡ rules_of self.old }
        ensures fault_is_kept { IfErr result (IsFaulted self.new) }
        ensures fault_is_final { (fault : Fault) → IsFaulted self.old fault →
            (result ≡ Err fault) × (self.new ≡ self.old) }
    {
        self.machine.step(piece)
    }

    /// Makes a step as [`Scanner::step`] does, and passes its event to the slot. If a text is
    /// completely in the piece, from its type byte to its end, the slot receives its bytes and its
    /// end in one call. Returns the number of bytes used, or `None` if the whole piece was read
    /// without an event.
    ///
    /// # Errors
    ///
    /// Those of [`Scanner::step`]. If there is no event, the slot is not called.
    ///
    /// # Examples
    ///
    /// A slot that keeps the length of a text, from [samples](../../samples/src/scanning.rt):
    ///
    /// ```rust
    /// let mut scanner = Scanner::new(Version::Two, &Limits::standard());
    /// let mut length = Length { bytes: 0 };
    /// let used = scanner.step_into(b"$5\r\nhello\r\n", &mut length)?;
    /// println!(rt; "{used:?} {}", length.bytes)?;
    /// ```
    ///
    /// This prints `Some(11) 5`.
    #[inline(always)]
    pub fn step_into<S: Slot>(&mut self, piece: &[u8], slot: &mut S) -> Result<Option<usize>, Fault>
        // The slot has received the event of a step, or a text whose events come next.
        ensures shown { IfShown result (λ used.
            ShowsEvent (S.shows slot.new) self.old self.new piece.now used ⊎
            ShowsText (S.shows_text slot.new) self.old self.new piece.now used) }

        // No event: a step has read the whole piece.
        ensures used_up { IfNothingShown result (Steps self.old self.new piece.now
            (Ok (record { used = length piece.now; event = None }))) }

        // A fault: a step has rejected a byte.
        ensures refused { IfErr result (λ fault. Steps self.old self.new piece.now (Err fault)) }
        ensures slot_is_left { IfNotShown result (slot.new ≡ slot.old) }
    {
        self.machine.step_into(piece, slot)
    }

    /// Reads the piece up to the end of a value and passes the events to the listener, in the order
    /// of [`Scanner::step`]. If a text is completely in the piece, its events may be passed in one
    /// call, [`Listener::whole_text`].
    ///
    /// # Errors
    ///
    /// - `Fault`: the first byte that no value within the limits could contain there, as for
    ///   [`Scanner::step`].
    /// - `Stopped`: the listener returned false. Then no more bytes are read, and every later call
    ///   fails with `OutOfMemory` at the number of bytes of the value that were read.
    ///
    /// # Examples
    ///
    /// A listener that counts integers, from [samples](../../samples/src/scanning.rt):
    ///
    /// ```rust
    /// let mut scanner = Scanner::new(Version::Two, &Limits::standard());
    /// let mut counter = Counter { integers: 0 };
    /// let scanned = scanner.scan(b"*2\r\n:1\r\n:2\r\n+next", &mut counter)?;
    /// println!(rt; "{} {} {}", counter.integers, scanned.used, scanned.is_whole)?;
    /// ```
    ///
    /// This prints `2 12 true`.
    #[inline(always)]
    pub fn scan<L: Listener>(
        &mut self,
        piece: &[u8],
        listener: &mut L,
    ) -> Result<Scanned, ScanError>
        // A value has ended: the bytes are its encoding, the listener has received its events, and
        // the next value may begin.
        ensures value_whole { WhereHeard self.old (L.has_heard listener.old) (λ since front.
            IfWhole result (λ used. HearsValue (rules_of self.old) self.new
            (L.has_heard listener.new since) (front ++ take used piece.now))) }

        // No value has ended in the piece, and the listener has received all events of the bytes
        // read.
        ensures used_up { WhereHeard self.old (L.has_heard listener.old) (λ since front.
            IfUsedUp result (HearsPiece self.new (L.has_heard listener.new since)
            (front ++ piece.now))) }

        // A fault: the byte is the first that cannot follow the bytes before it, and the fault has
        // its cause.
        ensures refusal { WhereHeard self.old (L.has_heard listener.old) (λ since front.
            IfRefused result (HearsRefusal (rules_of self.old) (L.has_heard listener.new since)
            front piece.now)) }

        // The listener stopped. The events that it received are a prefix of the events of the bytes
        // read.
        ensures stopped { WhereHeard self.old (L.has_heard listener.old) (λ since front.
            IfStopped result (StopsAfter (rules_of self.old) (L.has_stopped listener.new since)
            front piece.now)) }

        // If no value has ended in the bytes read before, a call with a piece that is not empty
        // uses at least one byte.
        ensures uses_bytes { WhereHeard self.old (L.has_heard listener.old) (λ since front.
            HasNoValue front → IfOk result (λ scanned. 0 < length piece.now → 0 < scanned.used)) }

        ensures within_piece { IfOk result (λ scanned. scanned.used ≤ length piece.now) }
        ensures whole_piece { IfOk result (λ scanned.
            scanned.is_whole ≡ false → scanned.used ≡ length piece.now) }
        ensures same_rules { rules_of self.new ≡ rules_of self.old }
        ensures fault_is_kept { IfErr result (λ stop. IsFaulted self.new (fault_of stop)) }
        ensures fault_is_final { (fault : Fault) → IsFaulted self.old fault →
            (result ≡ Err (ScanError.Fault fault)) × (self.new ≡ self.old) }
    {
        self.machine.scan(piece, listener)
    }

    /// Checks that the input may end here.
    ///
    /// # Errors
    ///
    /// - `Truncated` if a value has begun and some of its bytes are missing, at the number of its
    ///   bytes that were read.
    /// - The earlier fault, after a byte was rejected or a listener has stopped.
    ///
    /// # Examples
    ///
    /// From [samples](../../samples/src/scanning.rt):
    ///
    /// ```rust
    /// let mut scanner = Scanner::new(Version::Two, &Limits::standard());
    /// scanner.step(b"$5\r\n")?;
    /// println!(rt; "{} {}", scanner.taken(), scanner.needed())?;
    /// println!(rt; "{:?}", scanner.finish())?;
    /// ```
    ///
    /// This prints `4 7` and `Err(Fault { cause: Truncated, at: 4 })`.
    pub fn finish(&self) -> Result<(), Fault>
        ensures may_end { WhereRead self.now (λ front given.
            IsOk result ↔ MayEnd (rules_of self.now) front) }
        ensures truncated_inside_a_value { WhereRead self.now (λ front given.
            IfErr result (λ fault. (fault.cause ≡ cause.Truncated) × (fault.at ≡ length front))) }
        ensures fault_is_final { (fault : Fault) → IsFaulted self.now fault → result ≡ Err fault }
    {
        self.end()
    }

    /// Checks the end of the input by the numbers of the machine.
    fn end(&self) -> Result<(), Fault>
        ensures ok { OnOk result (end_cause self.now ≡ None) }
        ensures err { IfErr result (λ fault. (end_cause self.now ≡ Some fault.cause) ×
            (fault.at ≡ self.now.taken)) }
        ensures sound { IsSound self.now }
    {
        let machine = &self.machine;
        let at = machine.taken;
        match machine.state {
            State::Failed => Err(Fault {
                cause: machine.cause,
                at,
            }),
            _ => {
                if at == 0 || machine.needed() == 0 {
                    Ok(())
                } else {
                    Err(Fault {
                        cause: Cause::Truncated,
                        at,
                    })
                }
            }
        }
    }

    /// Changes the version, from the next value on.
    ///
    /// # Errors
    ///
    /// `Busy` from the first byte of a value until its [`Event::Done`] was given, and after a
    /// fault. Then nothing is changed.
    ///
    /// # Examples
    ///
    /// From [samples](../../samples/src/scanning.rt):
    ///
    /// ```rust
    /// let mut scanner = Scanner::new(Version::Two, &Limits::standard());
    /// println!(rt; "{:?}", scanner.set_version(Version::Three))?;
    /// scanner.step(b"*1\r\n")?;
    /// println!(rt; "{:?}", scanner.set_version(Version::Two))?;
    /// ```
    ///
    /// This prints `Ok(())` and `Err(Busy)`.
    pub fn set_version(&mut self, version: Version) -> Result<(), Busy>
        ensures only_between_values { WhereRead self.old (λ front given.
            IsOk result ↔ (front ≡ [])) }
        ensures nothing_read { WhereRead self.old (λ front given.
            OnOk result (HasRead self.new [] [])) }
        ensures new_version { OnOk result
            (rules_of self.new ≡ rules_under version (rules_of self.old).limits) }
        ensures unchanged_where_busy { OnErr result (self.new ≡ self.old) }
        ensures never_after_a_fault { (fault : Fault) → IsFaulted self.old fault →
            OnOk result ⊥ }
    {
        self.change_version(version)
    }

    /// Changes the version if no value has begun, judging by the machine's token and frames.
    fn change_version(&mut self, version: Version) -> Result<(), Busy>
        ensures between { IsOk result ↔ ((self.old.token ≡ AtStart) × (self.old.frames ≡ [])) }
        ensures ok { OnOk result (self.new ≡ record self.old { version = version }) }
        ensures err { OnErr result (self.new ≡ self.old) }
        ensures sound { IsSound self.old }
    {
        match self.machine.state {
            State::Start => {
                if self.machine.frames.is_empty() {
                    self.machine.version = version;
                    Ok(())
                } else {
                    Err(Busy)
                }
            }
            _ => Err(Busy),
        }
    }

    /// Returns the number of open aggregates: those with an `Open` event and no `Close` event yet.
    pub fn depth(&self) -> usize
        ensures at_most_depth { result ≤ (rules_of self.now).limits.depth }
        ensures opens_less_closes { WhereRead self.now (λ front given.
            open_count given ≡ result + close_count given) }
    {
        self.machine.frames.len()
    }

    /// Returns the number of bytes of the current value that were read, 0 between values. A
    /// rejected byte does not count.
    #[inline]
    pub fn taken(&self) -> u64
        ensures length_of_front { WhereRead self.now (λ front given. result ≡ length front) }
        ensures viable { WhereRead self.now (λ front given.
            IsViable (rules_of self.now) WithinTotal front) }
        ensures first_of_those_due { WhereRead self.now BeginDue }
        ensures no_more_events_than_bytes { WhereRead self.now (λ front given.
            length given ≤ result) }
        ensures no_value_ended { WhereRead self.now (λ front given. HasNoDone given) }
        ensures after_a_fault { (fault : Fault) → IsFaulted self.now fault → result ≡ fault.at }
        ensures at_most_total { result ≤ (rules_of self.now).limits.total }
        ensures limits_in_range { AreBounds (rules_of self.now).limits }
    {
        self.machine.taken
    }

    /// Returns the least number of bytes that complete the current value, ignoring the limit
    /// `total`: 3 between values, and 0 if all bytes were read and only events are left. The number
    /// has no meaning after a fault.
    pub fn needed(&self) -> u64
        ensures least_completion { WhereRead self.now (λ front given.
            IsLeast (rules_of self.now) front result) }
    {
        self.machine.needed()
    }
}
