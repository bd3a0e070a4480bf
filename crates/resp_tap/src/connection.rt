//! The tap of a connection whose client may send commands as lines, and may name the connection.

ghost use Rattle.std.specs.Prelude.{◌≡◌, ◌-◌, ◌<◌, ◌≤◌, true, [], length, drop};
ghost use Rattle.resp_tap.specs.Connections.{IsNewConnection, SeesNext};
ghost use Rattle.resp_tap.specs.Ends.{CutsOff};
ghost use Rattle.resp_tap.specs.Filters.{kept_by};
ghost use Rattle.resp_tap.specs.Keeping.{Follows};
ghost use Rattle.resp_tap.specs.Parts.{IsEnough};
ghost use Rattle.resp_tap.specs.Times.{IsAskedIn, next_asked, waits_in};
ghost use Rattle.resp_tap.specs.Watches.{KeepsOther};

use crate::client_name::ClientName;
use crate::end::Cut;
use crate::filter::Filter;
use crate::lines::Lines;
use crate::moment::Moment;
use crate::seen::Step;
use crate::shown_part::ShownPart;
use crate::taken::{NONE_TAKEN, Taken};
use crate::tap::Tap;
use crate::watch::Side;
use resp_value::limits::Limits;
use std::alloc::Global;
use std::collections::VecDeque;

/// The next result of a connection.
#[derive(Drop)]
pub(crate) struct Next {
    pub(crate) step: Step,
    /// Whether the step read a line.
    pub(crate) is_line: bool,
    /// The number of bytes that the side has sent of the command or value.
    pub(crate) size: u64,
    /// The number of commands that waited before the step.
    pub(crate) before: u64,
    /// The index, among these commands, of the command that the next reply belonged to.
    pub(crate) at: usize,
    /// The time of that command on the steady clock, if it is known.
    pub(crate) asked: Option<u64>,
    /// The number of commands that wait after the step.
    pub(crate) left: u64,
}

/// The tap of a connection whose client may send commands as lines, and may name the connection.
#[derive(Drop)]
pub struct ConnectionTap {
    pub(crate) tap: Tap,
    /// The lines among the bytes of the client.
    pub(crate) lines: Lines,
    pub(crate) name: ClientName,
    /// The bytes read of an incomplete command and of an incomplete value.
    pub(crate) taken: Taken,
}

impl ConnectionTap {
    /// Returns the tap of a new connection, which is read within these limits. It keeps one byte more
    /// than `shown` of each text of the server, and one byte more than `kept` of each word of the
    /// client. A line of the client is a command too. It allocates nothing.
    pub(crate) fn keeping(
        alloc: Global,
        limits: &Limits,
        shown: ShownPart,
        kept: ShownPart,
    ) -> ConnectionTap
        requires { IsEnough shown.most kept.most }
        ensures { IsNewConnection limits.now shown.most kept.most result }
    {
        ConnectionTap {
            tap: Tap::keeping(alloc, limits, shown, kept),
            lines: Lines::new(alloc, true),
            name: ClientName::new(),
            taken: NONE_TAKEN,
        }
    }

    /// Returns the tap of the commands and replies.
    pub fn tap(&self) -> &Tap
        ensures { result.now ≡ self.now.tap }
    {
        &self.tap
    }

    /// Returns the incomplete command, reply or value of this side, if the bytes of the side are
    /// still read.
    pub fn cut(&self, side: Side) -> Option<Cut>
        ensures { CutsOff side self.now.lines.held.items self.now.tap result }
    {
        self.tap.cut(side, self.lines.held.as_slice())
    }

    /// Returns the number of commands that wait for their replies.
    pub fn waiting(&self) -> u64
        ensures { result ≡ waits_in self.now.tap }
    {
        self.tap.waiting()
    }

    /// Returns the name that the client has given to the connection.
    pub fn name(&self) -> &ClientName
        ensures { result.now ≡ self.now.name }
    {
        &self.name
    }

    /// Reads bytes that one side sent, until there is a result or the piece ends, as
    /// [`step`](crate::watch::step) does. A line of the client is a command too, if lines are read.
    pub(crate) fn step(&mut self, side: Side, piece: &[u8], now: Option<Moment>) -> Next
        ensures sees { SeesNext now side self.old self.new piece.now result.step.used
            result.step.seen result.is_line result.size }
        ensures before { result.before ≡ waits_in self.old.tap }
        ensures at { result.at ≡ next_asked self.old.tap }
        ensures asked { IsAskedIn self.old.tap result.asked }
        ensures left { result.left ≡ waits_in self.new.tap }
        ensures other_side { KeepsOther side self.old.tap self.new.tap }
        ensures within_piece { result.step.used ≤ length piece.now }
        ensures uses_bytes { 0 < length piece.now → 0 < result.step.used }
    {
        let (before, at, asked) = (
            self.tap.waiting(),
            self.tap.line.asked_at(),
            self.tap.asked(),
        );
        let lined = self.lines.step(&mut self.tap, side, piece, now);
        let seen = &lined.step.seen;
        self.name.follow(seen);
        Next {
            size: self.taken.take(side, lined.step.used, seen),
            step: lined.step,
            is_line: lined.is_line,
            before,
            at,
            asked,
            left: self.tap.waiting(),
        }
    }
}

/// A tap of a connection that prints or counts the commands and replies that its filter lets through.
/// It keeps an item for each command that waits.
#[derive(Drop)]
pub struct KeepingTap<T> {
    pub(crate) connection: ConnectionTap,
    /// Decides which commands, replies and other results are printed or counted.
    pub(crate) filter: Filter,
    /// The items of the commands that wait, in the order of the commands.
    pub(crate) kept: VecDeque<T>,
}

impl<T: Drop> KeepingTap<T> {
    /// Returns the tap of a new connection for this filter, which is read within these limits. It
    /// keeps as much of each text as this shown part and the filter need, and allocates nothing.
    pub(crate) fn of_connection(
        alloc: Global,
        limits: &Limits,
        shown: ShownPart,
        filter: Filter,
    ) -> KeepingTap<T>
        ensures new_connection { IsNewConnection limits.now shown.most (kept_by filter shown.most)
            result.connection }
        ensures filter { result.filter ≡ filter }
        ensures nothing_kept { result.kept.items ≡ [] }
    {
        let kept = filter.kept_part(shown);
        KeepingTap {
            connection: ConnectionTap::keeping(alloc, limits, shown, kept),
            filter,
            kept: VecDeque::new(alloc),
        }
    }

    /// Returns whether there is an item for each command that waited before a step.
    pub(crate) fn has_all(&self, next: &Next) -> bool
        ensures { result ≡ true → length self.now.kept.items ≡ next.now.before }
    {
        self.kept.len() as u64 == next.before
    }

    /// Returns the tap of the connection.
    pub fn connection(&self) -> &ConnectionTap
        ensures { result.now ≡ self.now.connection }
    {
        &self.connection
    }

    /// Returns the tap of a new connection. `are_read` says whether lines are commands. If they are
    /// not, a byte that does not begin an array is an error.
    pub fn with_lines(mut self, are_read: bool) -> KeepingTap<T>
        ensures lines { result.connection.lines ≡ record self.connection.lines { are_read = are_read } }
        ensures same { result ≡ record self {
          connection =
              record self.connection { lines = result.connection.lines };
        } }
    {
        self.connection.lines.are_read = are_read;
        self
    }
}

/// Adds the item of a new command that waits, or drops the items of the commands that no longer wait.
pub(crate) fn follow<T: Drop>(kept: &mut VecDeque<T>, next: &Next, item: Option<T>)
    ensures { Follows item (next.now.before - next.now.left) kept.old.items kept.new.items }
{
    match item {
        Some(item) => {
            let _ = kept.push_back(item);
        }
        None => drop_first(kept, next.before.saturating_sub(next.left)),
    }
}

/// Drops the first items, at most this many.
fn drop_first<T: Drop>(kept: &mut VecDeque<T>, count: u64)
    ensures { kept.new.items ≡ drop count kept.old.items }
{
    let mut left = count;
    while left > 0 && !kept.is_empty() {
        let _ = kept.pop_front();
        left -= 1;
    }
}
