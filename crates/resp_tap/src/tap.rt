//! The tap: reads the traffic of one connection, and knows how long each command has waited.

ghost use Rattle.std.specs.Prelude.{◌≡◌, ◌+◌, ◌<◌, ◌≤◌, ◌^◌, ◌++◌, ℕ, List, Option, None, true, false, [], length, take, IfErr, OnOk, OnErr};
ghost use Rattle.resp_value.specs.Rules.{rules_under};
ghost use Rattle.resp_value.specs.declared.version.Version.TheVariants.{Two};
ghost use Rattle.resp_tap.specs.Parts.{IsEnough};
ghost use Rattle.resp_tap.specs.Sides.{side_rules};
ghost use Rattle.resp_tap.specs.declared.seen.Place.TheVariants as place;

use crate::kind::command_kind;
use crate::line::Line;
use crate::moment::Moment;
use crate::print::write_seen;
use crate::seen::{Place, Seen, Step};
use crate::shown_part::ShownPart;
use crate::side_reader::SideReader;
use crate::watch::{Given, Side, Watched, Watching, stamp_of, step};
use resp_io::device::Sink;
use resp_session::words::{Requested, Words, asked_by};
use resp_value::CutValue;
use resp_value::cause::Cause;
use resp_value::limits::Limits;
use resp_value::value::Value;
use resp_value::version::Version;
use std::alloc::Global;

/// The maximum number of commands that may wait for their replies.
const MOST_WAITING: u64 = 1_048_576;

/// The maximum number of commands of a connection.
const MOST_COMMANDS: u64 = 9_223_372_036_854_775_808;

/// Reads the traffic of one proxied connection. It receives the bytes that both sides send, in
/// pieces of any size, and reports each command, reply and push.
///
/// The client's bytes are read as commands, which are arrays of bulk strings. Each value of the
/// server that is not a push belongs to the first command that waits. The version is 2 at first. It
/// changes when the reply to a HELLO that asks for another version arrives and is not an error, and
/// it is 2 after the reply to RESET.
///
/// The server replies to a command that subscribes or unsubscribes with a confirmation for each
/// channel, or with an error. The confirmations are pushes in version 3, and arrays in version 2.
/// In version 2, messages to channels are arrays too, and belong to no command. REPLCONF with ACK
/// or GETACK has no reply.
///
/// After MONITOR, SYNC, PSYNC, CLIENT REPLY and SCRIPT DEBUG, and after the replies to the commands
/// before it, values are read in version 3, which contains version 2, and belong to no command,
/// until the reply to the next RESET. After a value that no command asked for, the same is true
/// until the connection ends.
///
/// After an error in the bytes of a side, nothing more of that side is read. After an error of the
/// client, the replies to the commands before it are still paired. A tap holds at most one
/// incomplete value of each side, and 40 bytes for each command that waits, at most 1,048,576 of
/// them. It holds one byte more of each text of the server's value than is shown, regardless of the
/// text's length. It holds as many bytes of each word of a command, or 65 if that is more.
///
/// # Examples
///
/// From [samples](../../samples/src/tapping.rt):
///
/// ```rust
/// let mut tap = Tap::new(alloc, &Limits::standard(), ShownPart::first(32));
/// let step = tap.from_client(b"*1\r\n$4\r\nPING\r\n", None);
/// if let Seen::Command { number, words, .. } = &step.seen {
///     println!(rt; "command {number}: {}", words.word(0).escape_ascii())?;
/// }
/// let step = tap.from_server(b"+PONG\r\n");
/// if let Seen::Reply { number, value } = &step.seen {
///     println!(rt; "reply {number}: {:?} {:?}", value.value, value.lengths)?;
/// }
/// ```
///
/// This prints `command 1: PING` and `reply 1: Simple(Line { text: [80, 79, 78, 71] }) []`, each on
/// a line.
#[derive(Drop)]
pub struct Tap {
    /// Reads the bytes of the client.
    pub(crate) requests: SideReader,
    /// The number of commands that were read.
    pub(crate) commands: u64,
    /// Reads the bytes of the server.
    pub(crate) values: SideReader,
    /// The commands that wait, each with its time on the steady clock, if that is known.
    pub(crate) line: Line<Option<u64>>,
    pub(crate) limits: Limits,
    ghost in_range: { commands ≤ 2 ^ 63 },
    ghost request_rules: { side_rules requests ≡ rules_under Two limits },
    ghost value_limits: { values.limits ≡ limits },
    ghost enough: { IsEnough values.shown.most requests.shown.most },
}

impl Step {
    /// Returns the step of a piece that was read without a result.
    pub(crate) fn nothing(piece: &[u8]) -> Step
        ensures { result ≡ record { used = length piece.now; seen = Seen.Nothing } }
    {
        Step {
            used: piece.len(),
            seen: Seen::Nothing,
        }
    }
}

ghost use Rattle.resp_value.specs.Values.{datum_of};
ghost use Rattle.resp_session.specs.Heard.{is_push};
ghost use Rattle.resp_tap.specs.SeenOf.{ToldAs};

/// Converts a value of the server, which belongs to the command with this number. A push has no
/// number.
fn told_as(number: Option<u64>, kept: CutValue) -> Seen
    requires { is_push (datum_of kept.value) ≡ true → number ≡ None }
    ensures { ToldAs number kept result }
{
    let CutValue { value, lengths } = kept;
    match (number, value) {
        (_, Value::Push(members)) => Seen::Push { members, lengths },
        (Some(number), value) => Seen::Reply {
            number,
            value: CutValue { value, lengths },
        },
        (None, value) => Seen::Value(CutValue { value, lengths }),
    }
}

impl Tap {
    ghost use Rattle.resp_value.specs.Spellings.{IsSpelling};
    ghost use Rattle.resp_tap.specs.Kinds.{command_kind};
    ghost use Rattle.resp_tap.specs.Lines.{number_for};
    ghost use Rattle.resp_tap.specs.LinesOf.{DropsFirst, MayAdd};
    ghost use Rattle.resp_tap.specs.declared.moment.Moment.{Moment};
    ghost use Rattle.resp_tap.specs.Parts.{IsKeptOf, kept_for};
    ghost use Rattle.resp_value.specs.Data.{Datum};
    ghost use Rattle.resp_tap.specs.Taps.{at_front, new_tap, tap_state, with_command, with_refused_command, with_refused_reply, with_value};
    ghost use Rattle.resp_tap.specs.Times.{IsAskedIn, KeepsTimes, times_of, waits_in};
    ghost use Rattle.resp_tap.specs.Watching.{HasTakenRequest, HasTakenSomeRequest, HasTakenSomeValue, HasTakenValue, IsLeftOut, KeepsRequest, KeepsValue, SeesRequest, SeesValue, WhereAnswered, WhereRequested, place_of_value, request_rules};

    /// Returns a tap of a new connection, which is read within these limits. It keeps one byte
    /// more of each text of the server than is shown, and as many bytes of each word of the client,
    /// but at least 65. The call allocates nothing.
    pub fn new(alloc: Global, limits: &Limits, shown: ShownPart) -> Tap
        ensures nothing_passed { tap_state result ≡
            new_tap limits.now shown.most (kept_for 0 shown.most) }
        ensures nothing_requested { HasTakenRequest result [] }
        ensures nothing_answered { HasTakenValue result [] }
        ensures no_times { times_of result ≡ [] }
    {
        Tap::keeping(alloc, limits, shown, shown.of_words(0))
    }

    /// Returns a tap of a new connection, as [`Tap::new`] does, that keeps one byte more of each word
    /// of the client than this part.
    pub(crate) fn keeping(alloc: Global, limits: &Limits, shown: ShownPart, kept: ShownPart) -> Tap
        requires { IsEnough shown.most kept.most }
        ensures nothing_passed { tap_state result ≡ new_tap limits.now shown.most kept.most }
        ensures nothing_requested { HasTakenRequest result [] }
        ensures nothing_answered { HasTakenValue result [] }
        ensures no_times { times_of result ≡ [] }
    {
        Tap {
            requests: SideReader::new(alloc, limits, kept),
            commands: 0,
            values: SideReader::new(alloc, limits, shown),
            line: Line::new(alloc),
            limits: *limits,
        }
    }

    /// Returns the time, on the steady clock, of the command that the next reply belongs to. It is
    /// known if a moment was given with the last bytes of that command.
    pub fn asked(&self) -> Option<u64>
        ensures { IsAskedIn self.now result }
    {
        self.line.kept_at(self.line.asked_at()).copied().flatten()
    }

    /// Reads bytes that the client sent, which arrived at this moment, until a command is complete or
    /// the piece ends. The time of a command is kept while it waits, if a moment is given. Call it
    /// again with the rest of the piece.
    ///
    /// # Errors
    ///
    /// Reports [`Seen::NotCommand`] for a value that is not a command. Reports [`Seen::Refused`]
    /// with the cause of a [`Decoder`] for a byte that no command can contain at its place, with
    /// `TooMany` for the command after 9,223,372,036,854,775,808 commands or while 1,048,576
    /// commands wait, and with `OutOfMemory` if an allocation fails. After an error the bytes of
    /// the client are skipped.
    #[tactic(auto, using(crate::proofs::TimeLemmas::times_added, crate::proofs::TimeLemmas::times_stay))]
    pub fn from_client(&mut self, piece: &[u8], now: Option<Moment>) -> Step
        ensures seen { (tap_state self.old).reads_commands ≡ true →
            WhereRequested self.old (λ front.
            SeesRequest (tap_state self.old) self.new front piece.now result.used result.seen) }
        ensures times { KeepsTimes now self.old self.new }
        ensures some { HasTakenSomeRequest self.old }
        ensures same_value { KeepsValue self.old self.new }
        ensures within_piece { result.used ≤ length piece.now }
        ensures uses_bytes { 0 < length piece.now → 0 < result.used }
        ensures unread { (tap_state self.old).reads_commands ≡ false → (self.new ≡ self.old) ×
            (result ≡ record { used = length piece.now; seen = Seen.Nothing }) }
    {
        if !self.requests.is_reading() {
            return Step::nothing(piece);
        }
        let fed = match self.requests.feed(piece) {
            Ok(fed) => fed,
            Err(fault) => return self.refuse_command(fault.cause, fault.at, piece),
        };
        let used = fed.used;
        match fed.value {
            None => Step {
                used,
                seen: Seen::Nothing,
            },
            Some(kept) => Step {
                used,
                seen: self.command_of(kept, now.map(|now| now.steady)),
            },
        }
    }

    /// Stops reading the client's bytes. The replies to the commands before are still paired.
    fn stop_commands(&mut self)
        ensures after { tap_state self.new ≡ with_refused_command (tap_state self.old) }
        ensures same_line { self.new.line ≡ self.old.line }
        ensures same_value { KeepsValue self.old self.new }
    {
        self.requests.stop();
    }

    /// Stops reading the client's bytes, and reports an error in the next command.
    pub(crate) fn refuse_command(&mut self, cause: Cause, at: u64, piece: &[u8]) -> Step
        ensures after { tap_state self.new ≡ with_refused_command (tap_state self.old) }
        ensures same_line { self.new.line ≡ self.old.line }
        ensures step { result ≡ record {
          used = length piece.now;
          seen = Seen.Refused cause at (place.Command ((tap_state self.old).commands + 1));
        } }
        ensures same_value { KeepsValue self.old self.new }
    {
        let place = Place::Command(self.commands.saturating_add(1));
        self.stop_commands();
        Step {
            used: piece.len(),
            seen: Seen::Refused { cause, at, place },
        }
    }

    /// Stops reading the server's bytes, and reports an error.
    fn refuse_reply(&mut self, cause: Cause, at: u64, piece: &[u8]) -> Step
        ensures after { tap_state self.new ≡ with_refused_reply (tap_state self.old) }
        ensures same_line { self.new.line ≡ self.old.line }
        ensures same_request { self.new.requests ≡ self.old.requests }
        ensures step { result ≡ record {
          used = length piece.now;
          seen = Seen.Refused cause at (place_of_value (tap_state self.old));
        } }
    {
        let place = self.line.place();
        self.values.stop();
        Step {
            used: piece.len(),
            seen: Seen::Refused { cause, at, place },
        }
    }

    /// Returns whether a value of the client is a command, a value that a server ignores, or a
    /// value that is not a command. Its kept part decides that. A command has this time.
    fn command_of(&mut self, kept: CutValue, sent: Option<u64>) -> Seen
        ensures seen { HasTakenRequest self.old [] → (whole : Datum) (front piece : List ℕ)
            (used : ℕ) → IsSpelling (request_rules (tap_state self.old).limits) whole
            (front ++ take used piece) → IsKeptOf (tap_state self.old).kept whole kept →
            SeesRequest (tap_state self.old) self.new front piece used result }
        ensures times { MayAdd sent self.old.line self.new.line }
        ensures same_value { KeepsValue self.old self.new }
    {
        let number = self.commands.saturating_add(1);
        let CutValue { value, lengths } = kept;
        match asked_by(value) {
            Requested::Command(words) => match self.take_command(&words, sent) {
                Ok(()) => Seen::Command {
                    number,
                    words,
                    lengths,
                },
                Err(cause) => {
                    self.stop_commands();
                    Seen::Refused {
                        cause,
                        at: 0,
                        place: Place::Command(number),
                    }
                }
            },
            Requested::Nothing => Seen::Passed,
            Requested::NoCommand => {
                self.stop_commands();
                Seen::NotCommand { number }
            }
        }
    }

    /// Counts a command with this time, given the kept part of its words, and records it if it waits.
    fn take_command(&mut self, words: &Words, sent: Option<u64>) -> Result<(), Cause>
        requires { 0 < length words.now }
        ensures counted { OnOk result (tap_state self.new ≡
            with_command (command_kind words.now) (tap_state self.old)) }
        ensures refusal { IfErr result (IsLeftOut (tap_state self.old) words.now) }
        ensures unchanged { OnErr result (tap_state self.new ≡ tap_state self.old) }
        ensures times { MayAdd sent self.old.line self.new.line }
        ensures same_request { self.new.requests ≡ self.old.requests }
        ensures same_value { KeepsValue self.old self.new }
    {
        if self.commands >= MOST_COMMANDS || self.line.waiting() >= MOST_WAITING {
            return Err(Cause::TooMany);
        }
        let number = self.commands + 1;
        if self.line.send(number, command_kind(words), sent).is_err() {
            return Err(Cause::OutOfMemory);
        }
        self.commands = number;
        Ok(())
    }

    /// Reads bytes that the server sent, until a value is complete or the piece ends. The time of a
    /// command is dropped when it no longer waits. Call it again with the rest of the piece.
    ///
    /// # Errors
    ///
    /// Reports [`Seen::Refused`] with the error of a [`Decoder`] in the version in which the value is
    /// read, and with `OutOfMemory` if an allocation fails. After an error the bytes of the server are
    /// skipped.
    #[tactic(auto, using(crate::proofs::TimeLemmas::times_dropped, crate::proofs::TimeLemmas::times_stay))]
    pub fn from_server(&mut self, piece: &[u8]) -> Step
        ensures seen { (tap_state self.old).reads_replies ≡ true → WhereAnswered self.old (λ front.
            SeesValue (at_front front piece.now (tap_state self.old)) self.new front piece.now
            result.used result.seen) }
        ensures times { (now : Option Moment) → KeepsTimes now self.old self.new }
        ensures some { HasTakenSomeValue self.old }
        ensures same_request { KeepsRequest self.old self.new }
        ensures within_piece { result.used ≤ length piece.now }
        ensures uses_bytes { 0 < length piece.now → 0 < result.used }
        ensures unread { (tap_state self.old).reads_replies ≡ false → (self.new ≡ self.old) ×
            (result ≡ record { used = length piece.now; seen = Seen.Nothing }) }
    {
        if !self.values.is_reading() {
            return Step::nothing(piece);
        }
        self.begin(piece);
        self.read_value(piece)
    }

    /// Decides how a value is read, if the piece begins it.
    fn begin(&mut self, piece: &[u8])
        ensures begun { WhereAnswered self.old (λ front. HasTakenValue self.new front ×
            (tap_state self.new ≡ at_front front piece.now (tap_state self.old))) }
        ensures same_pending { self.new.line.pending ≡ self.old.line.pending }
        ensures same_reading { self.new.values.is_reading ≡ self.old.values.is_reading }
        ensures same_request { self.new.requests ≡ self.old.requests }
    {
        if self.values.taken() == 0 {
            self.line.settle(piece);
            self.values.set_version(self.line.next_version());
        }
    }

    /// Reads bytes of a value, in the version that was decided.
    fn read_value(&mut self, piece: &[u8]) -> Step
        requires { self.old.values.is_reading ≡ true }
        ensures seen { WhereAnswered self.old (λ front. SeesValue (tap_state self.old) self.new
            front piece.now result.used result.seen) }
        ensures gone { DropsFirst self.old.line self.new.line }
        ensures same_request { self.new.requests ≡ self.old.requests }
        ensures within_piece { result.used ≤ length piece.now }
        ensures uses_bytes { 0 < length piece.now → 0 < result.used }
    {
        let fed = match self.values.feed(piece) {
            Ok(fed) => fed,
            Err(fault) => return self.refuse_reply(fault.cause, fault.at, piece),
        };
        let used = fed.used;
        match fed.value {
            None => Step {
                used,
                seen: Seen::Nothing,
            },
            Some(kept) => Step {
                used,
                seen: self.value_of(kept),
            },
        }
    }

    /// Records a value of the server, and returns what it is.
    #[tactic(auto, using(crate::proofs::LineLemmas::no_number_of_a_push))]
    fn value_of(&mut self, kept: CutValue) -> Seen
        ensures told { ToldAs (number_for (tap_state self.old).line (datum_of kept.value)) kept
            result }
        ensures after { tap_state self.new ≡
            with_value (datum_of kept.value) (tap_state self.old) }
        ensures gone { DropsFirst self.old.line self.new.line }
        ensures same_values { self.new.values ≡ self.old.values }
        ensures same_request { self.new.requests ≡ self.old.requests }
    {
        let number = self.line.hear(&kept.value);
        told_as(number, kept)
    }
}

/// Prints the commands, replies and pushes. If a moment is given, the first line of a result ends
/// with the time. The first line of a reply also has the seconds that its command waited.
impl Watching for Tap {
    ghost use Rattle.resp_tap.specs.Watches.{Watches};
    ghost use Rattle.resp_tap.specs.declared.tap.Tap.{Tap};

    type Given = Given<Option<Moment>>;

    type Shared = ();

    ghost State = { Tap };

    ghost state = { λ tap _. tap };

    ghost tap_in = { λ tap. tap };

    ghost watches = { λ given side. Watches given.printing side given.now };

    fn watch_some<W: Sink>(
        &mut self,
        _shared: &mut Self::Shared,
        given: Self::Given,
        side: Side,
        piece: &[u8],
        writer: &mut W,
    ) -> Watched {
        let options = self.options(given.printing);
        let asked = self.asked();
        let step = step(self, side, piece, given.now);
        let stamp = stamp_of(given.now, asked, &step.seen);
        let printed = write_seen(options, false, stamp, &step.seen, writer);
        let used = step.used;
        drop(step);
        Watched { used, printed }
    }
}
