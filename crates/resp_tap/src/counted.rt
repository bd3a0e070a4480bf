//! A tap whose commands are counted.

ghost use Rattle.std.specs.Prelude.{◌≡◌, ◌-◌, [], Some, nat_lt, slice_get, IfSome};
ghost use Rattle.resp_print.specs.Printed.{Prints};
ghost use Rattle.resp_tap.specs.Connections.{IsNewConnection};
ghost use Rattle.resp_tap.specs.CountedTaps.{counted_text};
ghost use Rattle.resp_tap.specs.Filters.{kept_by};
ghost use Rattle.resp_tap.specs.Counting.{AnswersCall, CountsBy, IsAsked, IsCounted, IsNameFor, is_error};
ghost use Rattle.resp_tap.specs.Keeping.{IsNew, new_words};
ghost use Rattle.resp_stats.specs.Names.{table_name};
ghost use Rattle.resp_tap.specs.Texts.{levels_of};

use crate::connection::{KeepingTap, Next, follow};
use crate::filter::Filter;
use crate::line::is_refusal;
use crate::moment::Moment;
use crate::print::{Printing, printed, write_refused};
use crate::seen::Seen;
use crate::shown_part::ShownPart;
use crate::watch::{Given, Side, Watched, Watching, stamp_of, waited_of};
use resp_io::device::Sink;
use resp_print::print_error::PrintError;
use resp_session::words::Words;
use resp_stats::{Call, Counts, Name, name_of};
use resp_value::limits::Limits;
use std::alloc::Global;

/// What is kept to count a command that waits for its reply.
#[derive(Debug, Drop)]
pub struct Asked {
    /// Its name in the table, if it is counted when its reply is let through.
    pub(crate) name: Option<Name>,
    /// The number of its bytes.
    pub(crate) bytes: u64,
}

/// The reply to a command.
#[derive(Clone, Copy, Debug, PartialEq, Eq)]
pub(crate) struct Heard {
    /// The number of bytes.
    pub(crate) bytes: u64,
    /// Whether it is an error.
    pub(crate) is_error: bool,
    /// The microseconds that the command waited, if they are known.
    pub(crate) waited: Option<u64>,
}

/// Returns whether a result is a reply that is an error.
fn is_error(seen: &Seen) -> bool
    ensures { result ≡ is_error seen.now }
{
    match seen {
        Seen::Reply { value, .. } => is_refusal(&value.value),
        _ => false,
    }
}

/// Counts a command that has its reply, if the filter lets the reply through. A command that is not
/// counted gets no row.
fn answer(counts: &mut Counts, filter: &Filter, asked: &Asked, heard: Heard)
    ensures { AnswersCall filter.now (Some asked.now) heard counts.old.rows.items counts.new.rows.items }
{
    let Some(name) = &asked.name else {
        return;
    };
    if filter.keeps_answer(heard.is_error, heard.waited) {
        let call = Call {
            sent: asked.bytes,
            received: heard.bytes,
            is_error: heard.is_error,
            waited: heard.waited,
        };
        let place = counts.place_of(name);
        counts.count(place, call);
    }
}

/// A tap whose commands are counted in [`Counts`], each with its reply, as far as its [`Filter`] lets
/// them through. Use the same counts for all bytes of a connection.
///
/// If an allocation fails, neither the command nor the commands that follow while it waits are
/// counted.
pub type CountedTap = KeepingTap<Asked>;

impl CountedTap {
    /// Returns a tap of a new connection for this filter, which is read within these limits. At
    /// most 13 bytes of each text of the server are kept. If the filter has a key, whole words of
    /// the client are kept. Otherwise at most 65 bytes of each word are kept, or one byte more than
    /// the longest name of the filter if that is more. A line of the client is a command too. It
    /// allocates nothing.
    pub fn new(alloc: Global, limits: &Limits, filter: Filter) -> CountedTap
        ensures new_connection { IsNewConnection limits.now (Some 12) (kept_by filter (Some 12))
            result.connection }
        ensures filter { result.filter ≡ filter }
        ensures nothing_asked { result.kept.items ≡ [] }
    {
        KeepingTap::of_connection(alloc, limits, ShownPart::first(0), filter)
    }

    /// Counts the command that no longer waits after a step, or returns what is kept of a new command
    /// that waits.
    fn count(&self, counts: &mut Counts, client: u64, next: &Next, heard: Heard) -> Option<Asked>
        ensures asked { IfSome result (IsNew (IsAsked self.now.filter client heard.bytes
            next.now.before self.now.kept.items)
            (new_words (nat_lt next.now.before next.now.left) next.now.step.seen)) }
        ensures rows { CountsBy self.now.filter
            (new_words (nat_lt next.now.before next.now.left) next.now.step.seen) heard
            (next.now.before - next.now.left) (slice_get self.now.kept.items next.now.at)
            counts.old.rows.items counts.new.rows.items }
    {
        match &next.step.seen {
            Seen::Command { words, .. } if next.before < next.left => {
                // Otherwise a command before this one is missing.
                if !self.has_all(next) {
                    return None;
                }
                let counted = is_counted(&self.filter, client, words);
                let name = name_for(counted, words);
                let bytes = heard.bytes;
                Some(Asked { name, bytes })
            }
            _ => {
                if next.left < next.before {
                    if let Some(asked) = self.kept.get(next.at) {
                        answer(counts, &self.filter, asked, heard);
                    }
                }
                None
            }
        }
    }
}

/// Returns whether a command of this client is counted, if the filter lets its reply through.
fn is_counted(filter: &Filter, client: u64, words: &Words) -> bool
    ensures { IsCounted filter.now client words.now result }
{
    filter.keeps_client(client) && filter.keeps_words(words)
}

/// Returns the name of a command, if the command is counted.
fn name_for(counted: bool, words: &Words) -> Option<Name>
    ensures { IsNameFor counted (table_name words.now) result }
{
    if counted { Some(name_of(words)) } else { None }
}

/// Writes the line of a result if it is an error, and the filter lets lines about the client through.
fn write_counted<W: Sink>(
    filter: &Filter,
    printing: Printing,
    now: Moment,
    seen: &Seen,
    writer: &mut W,
) -> Result<(), PrintError>
    ensures { Prints (W.written writer.old) (W.written writer.new) (W.failures writer.old)
        (W.failures writer.new) result (counted_text filter.now printing now seen.now)
        (levels_of seen.now) }
{
    if !filter.keeps_client(printing.client) {
        return Ok(());
    }
    let stamp = stamp_of(Some(now), None, seen);
    printed(write_refused(printing.client, stamp, seen, writer))
}

/// Counts a command when it no longer waits, if the filter of the tap lets it and its reply through.
/// Prints a result if it is an error and the filter lets lines about the client through, as it is
/// printed without counting.
impl Watching for CountedTap {
    ghost use Rattle.std.specs.Prelude.{List};
    ghost use Rattle.resp_stats.specs.declared.row.CommandRow.{CommandRow};
    ghost use Rattle.resp_tap.specs.CountedTaps.{WatchesCounted};
    ghost use Rattle.resp_tap.specs.Counting.{CountedTap};

    type Given = Given<Moment>;

    type Shared = Counts;

    ghost State = { CountedTap × List CommandRow };

    ghost state = { λ tap counts. (tap, counts.rows.items) };

    ghost tap_in = { λ tap. tap.connection.tap };

    ghost watches = { λ given side. WatchesCounted given.printing side given.now };

    fn watch_some<W: Sink>(
        &mut self,
        counts: &mut Self::Shared,
        given: Self::Given,
        side: Side,
        piece: &[u8],
        writer: &mut W,
    ) -> Watched {
        let Given { printing, now } = given;
        let next = self.connection.step(side, piece, Some(now));
        let seen = &next.step.seen;
        let heard = Heard {
            bytes: next.size,
            is_error: is_error(seen),
            waited: waited_of(now, next.asked, seen),
        };
        let printed = write_counted(&self.filter, printing, now, seen, writer);
        let asked = self.count(counts, printing.client, &next, heard);
        follow(&mut self.kept, &next, asked);
        let used = next.step.used;
        drop(next);
        Watched { used, printed }
    }
}
