//! The commands of a connection that wait for replies, and the command that a value belongs to.

ghost use Rattle.std.specs.Prelude.{◌≡◌, ◌≢◌, ◌<◌, ◌≤◌, ◌+◌, ℕ, List, true, false, [], ◌∷◌, length, option_map, slice_get, OnOk, OnErr};
ghost use Rattle.resp_value.specs.Values.{datum_of};
ghost use Rattle.resp_session.specs.Heard.{is_push};
ghost use Rattle.resp_session.specs.Reading.{greater_version, is_refusal};
ghost use Rattle.resp_tap.specs.LinesOf.{DropsFirst, MayAdd, first_of, kept_in, line_of};
ghost use Rattle.resp_tap.specs.Watching.{place_by_kind, place_on};
ghost use Rattle.resp_tap.specs.Lines.{after_confirmation, after_reply, asked_by_kind, begins_reply, confirmed, confirms, due_of, has_all, is_confirmation, is_free, is_listening, is_notification, is_reset, is_subscribed, is_two, asked_at, asked_by_first, line_after, line_sent, new_line, next_version, no_subscriptions, number_by_first, number_first, number_for, number_in_class, number_of_reply, open_after, resumed, same_verb, settled, subscriptions_after, subscriptions_by, version_for};

use crate::kind::{CommandKind, Verb};
use crate::notice::{Notice, notice_of};
use crate::seen::Place;
use resp_value::value::Value;
use resp_value::version::Version;
use std::alloc::{AllocError, Global};
use std::collections::VecDeque;

/// A command that waits.
#[derive(Clone, Copy, Debug, PartialEq, Eq)]
pub(crate) struct Due {
    pub(crate) number: u64,
    pub(crate) kind: CommandKind,
}

/// A command that waits, and what is kept of it.
#[derive(Debug, Drop)]
pub(crate) struct Pending<T> {
    pub(crate) due: Due,
    pub(crate) kept: T,
}

/// The number of subscriptions of a connection.
#[derive(Clone, Copy, Debug, PartialEq, Eq)]
pub(crate) struct Subscriptions {
    pub(crate) channels: u64,
    pub(crate) patterns: u64,
    pub(crate) shards: u64,
}

/// The state of a connection between two values of the server. Something is kept of each command
/// that waits.
#[derive(Drop)]
pub(crate) struct Line<T> {
    pub(crate) version: Version,
    /// The commands that wait. A command of the kind `Unpairing` waits for a RESET.
    pub(crate) pending: VecDeque<Pending<T>>,
    /// The number of confirmations that the first of them has received.
    pub(crate) heard: u64,
    pub(crate) subscriptions: Subscriptions,
    /// Whether the next command is paired with its reply.
    pub(crate) is_open: bool,
    /// Whether a value has arrived that no command asked for.
    pub(crate) is_lost: bool,
}

impl Subscriptions {
    /// Returns no subscriptions.
    fn none() -> Subscriptions
        ensures { result ≡ no_subscriptions }
    {
        Subscriptions {
            channels: 0,
            patterns: 0,
            shards: 0,
        }
    }

    /// Returns whether there is a subscription.
    fn is_subscribed(self) -> bool
        ensures { result ≡ is_subscribed self }
    {
        !(self.channels == 0 && (self.patterns == 0 && self.shards == 0))
    }

    /// Returns the subscriptions after a confirmation.
    fn confirmed(self, verb: Verb, total: u64) -> Subscriptions
        ensures { result ≡ confirmed verb total self }
    {
        match verb {
            Verb::Subscribe | Verb::Unsubscribe => Subscriptions {
                channels: total.saturating_sub(self.patterns),
                ..self
            },
            Verb::Psubscribe | Verb::Punsubscribe => Subscriptions {
                patterns: total.saturating_sub(self.channels),
                ..self
            },
            Verb::Ssubscribe | Verb::Sunsubscribe => Subscriptions {
                shards: total,
                ..self
            },
        }
    }

    /// Returns the number of subscriptions of the class of a command.
    fn number_in_class(self, verb: Verb) -> u64
        ensures { result ≡ number_in_class verb self }
    {
        match verb {
            Verb::Subscribe | Verb::Unsubscribe => self.channels,
            Verb::Psubscribe | Verb::Punsubscribe => self.patterns,
            Verb::Ssubscribe | Verb::Sunsubscribe => self.shards,
        }
    }

    /// Returns the subscriptions after a value that confirms a channel.
    fn after_notice(self, notice: Notice) -> Subscriptions
        ensures { result ≡ subscriptions_by notice self }
    {
        match notice {
            Notice::Confirmation { verb, total } => self.confirmed(verb, total),
            _ => self,
        }
    }
}

/// Returns whether two commands have the same name.
fn same_verb(verb: Verb, other: Verb) -> bool
    ensures { result ≡ same_verb verb other }
{
    match (verb, other) {
        (Verb::Subscribe, Verb::Subscribe)
        | (Verb::Unsubscribe, Verb::Unsubscribe)
        | (Verb::Psubscribe, Verb::Psubscribe)
        | (Verb::Punsubscribe, Verb::Punsubscribe)
        | (Verb::Ssubscribe, Verb::Ssubscribe)
        | (Verb::Sunsubscribe, Verb::Sunsubscribe) => true,
        _ => false,
    }
}

/// Returns whether a value confirms a channel of a command of this kind.
fn confirms(kind: CommandKind, notice: Notice) -> bool
    ensures { result ≡ confirms kind notice }
{
    match (kind, notice) {
        (CommandKind::Subscribing { verb, .. }, Notice::Confirmation { verb: other, .. }) => {
            same_verb(verb, other)
        }
        _ => false,
    }
}

/// Returns whether a command has all its confirmations, after one more.
fn has_all(kind: CommandKind, heard: u64, subscriptions: Subscriptions) -> bool
    ensures { result ≡ has_all kind heard subscriptions }
{
    match kind {
        CommandKind::Subscribing { verb, channels } => {
            if channels == 0 {
                subscriptions.number_in_class(verb) == 0
            } else {
                channels <= heard.saturating_add(1)
            }
        }
        _ => true,
    }
}

/// Returns whether a value is a message or a confirmation, which may arrive at any time while there are
/// subscriptions.
fn is_notification(notice: Notice) -> bool
    ensures { result ≡ is_notification notice }
{
    match notice {
        Notice::Message | Notice::Confirmation { .. } => true,
        _ => false,
    }
}

/// Returns whether a value is a confirmation.
fn is_confirmation(notice: Notice) -> bool
    ensures { result ≡ is_confirmation notice }
{
    match notice {
        Notice::Confirmation { .. } => true,
        _ => false,
    }
}

/// Returns whether a value is the reply to RESET.
fn is_reset(notice: Notice) -> bool
    ensures { result ≡ is_reset notice }
{
    match notice {
        Notice::Reset => true,
        _ => false,
    }
}

/// Returns whether a value is a push.
fn is_push(value: &Value) -> bool
    ensures { result ≡ is_push (datum_of value.now) }
{
    match value {
        Value::Push(_) => true,
        _ => false,
    }
}

/// Returns whether a reply is an error.
pub(crate) fn is_refusal(value: &Value) -> bool
    ensures { result ≡ is_refusal (datum_of value.now) }
{
    match value.without_attributes() {
        Value::Error(_) | Value::BulkError(_) => true,
        _ => false,
    }
}

/// Returns the greater of two versions.
fn greater_version(version: Version, other: Version) -> Version
    ensures { result ≡ greater_version version other }
{
    match version {
        Version::Two => other,
        Version::Three => Version::Three,
    }
}

/// Returns the version of a value that may be the reply to a command of this kind.
fn version_for(version: Version, kind: CommandKind) -> Version
    ensures { result ≡ version_for version kind }
{
    match kind {
        CommandKind::Hello(asked) => greater_version(version, asked),
        CommandKind::Unpairing => Version::Three,
        _ => version,
    }
}

/// Returns the version that a command of this kind asks for.
fn asked_by_kind(kind: CommandKind) -> Option<Version>
    ensures { result ≡ asked_by_kind kind }
{
    match kind {
        CommandKind::Hello(version) => Some(version),
        CommandKind::Reset => Some(Version::Two),
        _ => None,
    }
}

/// Returns whether these bytes begin a value that is not a push.
fn begins_reply(piece: &[u8]) -> bool
    ensures { result ≡ begins_reply piece.now }
{
    piece.first().is_some_and(|byte| *byte != b'>')
}

/// Returns the index, among the commands that wait, of the command that the next reply belongs to.
/// The first of them has this kind.
fn asked_by_first(kind: CommandKind) -> usize
    ensures { result ≡ asked_by_first kind }
{
    match kind {
        CommandKind::Unpairing => 1,
        _ => 0,
    }
}

/// Returns the place of a value that may be the reply to a command of this number and kind.
fn place_by_kind(number: u64, kind: CommandKind) -> Place
    ensures { result ≡ place_by_kind number kind }
{
    match kind {
        CommandKind::Unpairing => Place::Value,
        _ => Place::Reply(number),
    }
}

impl<T: Drop> Line<T> {
    /// Returns the state of a new connection. It allocates nothing.
    pub(crate) fn new(alloc: Global) -> Line<T>
        ensures { line_of result ≡ new_line }
    {
        Line {
            version: Version::Two,
            pending: VecDeque::new(alloc),
            heard: 0,
            subscriptions: Subscriptions::none(),
            is_open: true,
            is_lost: false,
        }
    }

    /// Returns whether a command of this kind waits.
    fn waits_for(&self, kind: CommandKind) -> bool
        ensures waits { result ≡ true → (number : ℕ) → due_of number kind (line_of self.now).is_open ≡
            record { number = number; kind = kind } ∷ [] }
        ensures silent { result ≡ false → (number : ℕ) → due_of number kind (line_of self.now).is_open ≡ [] }
    {
        match kind {
            CommandKind::Silent => false,
            CommandKind::Reset => true,
            _ => self.is_open,
        }
    }

    /// Records a command, and keeps `kept` while it waits. After a value that no command asked for,
    /// nothing is recorded.
    ///
    /// # Errors
    ///
    /// `AllocError` if an allocation fails. Then nothing is changed.
    #[tactic(auto, using(crate::proofs::TimeLemmas::due_added))]
    pub(crate) fn send(&mut self, number: u64, kind: CommandKind, kept: T) -> Result<(), AllocError>
        ensures sent { OnOk result (line_of self.new ≡ line_sent number kind (line_of self.old)) }
        ensures failed { OnErr result ((line_of self.old).is_lost ≡ false ×
            (due_of number kind (line_of self.old).is_open ≢ [])) }
        ensures unchanged { OnErr result (line_of self.new ≡ line_of self.old) }
        ensures kept { MayAdd kept self.old self.new }
    {
        if self.is_lost {
            return Ok(());
        }
        if self.waits_for(kind) {
            let due = Due { number, kind };
            if self.pending.push_back(Pending { due, kept }).is_err() {
                return Err(AllocError);
            }
        }
        match kind {
            CommandKind::Unpairing => self.is_open = false,
            CommandKind::Reset => self.is_open = true,
            _ => {}
        }
        Ok(())
    }

    /// Returns whether messages of channels are arrays and may arrive at any time.
    fn is_listening(&self) -> bool
        ensures { result ≡ is_listening (line_of self.now) }
    {
        self.version == Version::Two && self.subscriptions.is_subscribed()
    }

    /// Returns the version of a value that begins now.
    pub(crate) fn next_version(&self) -> Version
        ensures { result ≡ next_version (line_of self.now) }
    {
        if self.is_lost {
            return Version::Three;
        }
        self.pending.front().map_or(
            self.version,
            |first| version_for(self.version, first.due.kind),
        )
    }

    /// Returns the number of commands that wait.
    pub(crate) fn waiting(&self) -> u64
        ensures { result ≡ length (line_of self.now).due }
    {
        self.pending.len() as u64
    }

    /// Returns the index, among the commands that wait, of the command that the next reply belongs
    /// to.
    pub(crate) fn asked_at(&self) -> usize
        ensures { result ≡ asked_at (line_of self.now).due }
    {
        self.pending
            .front()
            .map_or(0, |first| asked_by_first(first.due.kind))
    }

    /// Returns the first command that waits.
    fn first(&self) -> Option<Due>
        ensures { result ≡ first_of (line_of self.now).due }
    {
        self.pending.front().map(|first| first.due)
    }

    /// Returns what is kept of the command at this index, among the commands that wait.
    pub(crate) fn kept_at(&self, index: usize) -> Option<&T>
        ensures { option_map (λ kept. kept.now) result ≡
            slice_get (kept_in self.now.pending.items) index }
    {
        self.pending.get(index).map(|pending| &pending.kept)
    }

    /// Returns the place of a value that begins now.
    pub(crate) fn place(&self) -> Place
        ensures { result ≡ place_on (line_of self.now) }
    {
        if self.is_lost {
            return Place::Value;
        }
        self.pending.front().map_or(
            Place::Value,
            |first| place_by_kind(first.due.number, first.due.kind),
        )
    }

    /// Records the first byte of a value, with which the piece begins.
    pub(crate) fn settle(&mut self, piece: &[u8])
        ensures settled { line_of self.new ≡ settled piece.now (line_of self.old) }
        ensures same_pending { self.new.pending ≡ self.old.pending }
    {
        if self.pending.is_empty() && (begins_reply(piece) && !self.is_listening()) {
            self.is_lost = true;
        }
    }

    /// Records a value, and returns the number of the command that it belongs to.
    pub(crate) fn hear(&mut self, value: &Value) -> Option<u64>
        ensures number { result ≡ number_for (line_of self.old) (datum_of value.now) }
        ensures after { line_of self.new ≡ line_after (line_of self.old) (datum_of value.now) }
        ensures gone { DropsFirst self.old self.new }
    {
        if self.is_lost {
            return None;
        }
        let notice = notice_of(value);
        let is_push = is_push(value);
        let is_free = is_push || (self.is_listening() && is_notification(notice));
        let Some(first) = self.first() else {
            self.is_lost = !(is_free && !is_confirmation(notice));
            return None;
        };
        if confirms(first.kind, notice) {
            self.confirm(first.kind, notice);
            return if is_push { None } else { Some(first.number) };
        }
        if is_free {
            return None;
        }
        self.take(first, notice, value)
    }

    /// Records a confirmation of the first command that waits, which has this kind.
    fn confirm(&mut self, kind: CommandKind, notice: Notice)
        ensures after { (first : Due) (due : List Due) → (line_of self.old).due ≡ first ∷ due →
            first.kind ≡ kind →
            line_of self.new ≡ after_confirmation (line_of self.old) first due notice }
        ensures gone { DropsFirst self.old self.new }
    {
        self.subscriptions = self.subscriptions.after_notice(notice);
        if has_all(kind, self.heard, self.subscriptions) {
            let _ = self.pending.pop_front();
            self.heard = 0;
        } else {
            self.heard = self.heard.saturating_add(1);
        }
    }

    /// Records a value that may be the reply to the first command that waits, and returns the number
    /// of the command that it belongs to.
    fn take(&mut self, first: Due, notice: Notice, value: &Value) -> Option<u64>
        ensures number { (due : List Due) → (line_of self.old).due ≡ first ∷ due →
            result ≡ number_of_reply first first.kind due notice }
        ensures after { (due : List Due) → (line_of self.old).due ≡ first ∷ due →
            line_of self.new ≡ after_reply (line_of self.old) first.kind due notice (datum_of value.now) }
        ensures gone { DropsFirst self.old self.new }
    {
        if let CommandKind::Unpairing = first.kind {
            if is_reset(notice) {
                return self.resume();
            }
            return None;
        }
        self.answer(first.kind, value);
        Some(first.number)
    }

    /// Records the reply to the first command that waits, which has this kind.
    fn answer(&mut self, kind: CommandKind, value: &Value)
        requires { kind ≢ CommandKind.Unpairing }
        ensures after { (notice : Notice) (first : Due) (due : List Due) → (line_of self.old).due ≡ first ∷ due →
            line_of self.new ≡ after_reply (line_of self.old) kind due notice (datum_of value.now) }
        ensures gone { DropsFirst self.old self.new }
    {
        let _ = self.pending.pop_front();
        self.heard = 0;
        if is_refusal(value) {
            return;
        }
        if let Some(version) = asked_by_kind(kind) {
            self.version = version;
        }
        if let CommandKind::Reset = kind {
            self.subscriptions = Subscriptions::none();
        }
    }

    /// Records the reply to the RESET that waits behind the first command that waits.
    fn resume(&mut self) -> Option<u64>
        ensures number { (first : Due) (due : List Due) → (line_of self.old).due ≡ first ∷ due →
            result ≡ number_first due }
        ensures after { (first : Due) (due : List Due) → (line_of self.old).due ≡ first ∷ due →
            line_of self.new ≡ resumed (line_of self.old) due }
        ensures gone { DropsFirst self.old self.new }
    {
        let Some(reset) = self.pending.get(1).map(|reset| reset.due.number) else {
            self.is_lost = true;
            return None;
        };
        let _ = self.pending.pop_front();
        let _ = self.pending.pop_front();
        self.version = Version::Two;
        self.heard = 0;
        self.subscriptions = Subscriptions::none();
        Some(reset)
    }
}
