//! A tap whose traffic is printed as JSON.

ghost use Rattle.std.specs.Prelude.{◌≡◌, ℕ, [], Option, Some, nat_lt, IfSome};
ghost use Rattle.resp_print.specs.Printed.{Prints};
ghost use Rattle.resp_tap.specs.Connections.{IsNewConnection};
ghost use Rattle.resp_tap.specs.Called.{IsCalled};
ghost use Rattle.resp_tap.specs.Filters.{kept_by};
ghost use Rattle.resp_tap.specs.Keeping.{IsNew, new_words};
ghost use Rattle.resp_tap.specs.JsonTaps.{kept_json};
ghost use Rattle.resp_value.specs.Data.{Datum};
ghost use Rattle.resp_tap.specs.SeenOf.{IsKeptIn};

use crate::called::{Called, command_name, is_chosen_called, name_of_called};
use crate::connection::{KeepingTap, Next, follow};
use crate::filter::Filter;
use crate::json_line::{Facts, SHOWN, write_seen_json};
use crate::moment::Moment;
use crate::print::printed;
use crate::seen::Seen;
use crate::shown_part::ShownPart;
use crate::watch::{Given, Side, Watched, Watching, waited_of};
use resp_io::device::Sink;
use resp_print::print_error::PrintError;
use resp_value::limits::Limits;
use std::alloc::Global;

/// A tap whose traffic is printed as JSON, through a [`Filter`].
///
/// The tap keeps the name of each command that waits, and whether its words pass.
///
/// If an allocation fails, the tap keeps neither the command nor the commands that follow while it
/// waits. The lines of their replies have no name.
///
/// # Examples
///
/// From [samples](../../samples/src/tapping.rt), for a reply that arrives 120 microseconds after its
/// command:
///
/// ```rust
/// let mut tap = JsonTap::new(alloc, &Limits::standard(), Filter::all(alloc));
/// let ping = b"*1\r\n$4\r\nPING\r\n";
/// let given = Given {
///     printing,
///     now: sent,
/// };
/// watch(&mut tap, &mut (), given, Side::Client, ping, &mut text)?;
/// let given = Given {
///     printing,
///     now: heard,
/// };
/// watch(&mut tap, &mut (), given, Side::Server, b"-ERR no\r\n", &mut text)?;
/// ```
///
/// This prints:
///
/// ```text
/// {"client":1,"kind":"command","number":1,"command":"PING","words":1,"size":14,"time":"2026-11-30T05:36:56.123456Z"}
/// {"client":1,"kind":"reply","number":1,"command":"PING","micros":120,"type":"error","size":9,"error":"ERR no","time":"2026-11-30T05:36:56.123576Z"}
/// ```
pub type JsonTap = KeepingTap<Called>;

impl JsonTap {
    /// Returns a tap of a new connection for this filter, which is read within these limits. At
    /// most 1,025 bytes of each text of the server are kept. If the filter has a key, whole words
    /// of the client are kept. Otherwise at most 1,025 bytes of each word are kept, or one byte
    /// more than the longest name of the filter if that is more. A line of the client is a command
    /// too. It allocates nothing.
    pub fn new(alloc: Global, limits: &Limits, filter: Filter) -> JsonTap
        ensures new_connection { IsNewConnection limits.now (Some 1024)
            (kept_by filter (Some 1024)) result.connection }
        ensures filter { result.filter ≡ filter }
        ensures nothing_kept { result.kept.items ≡ [] }
    {
        KeepingTap::of_connection(alloc, limits, ShownPart::first(SHOWN), filter)
    }

    /// Returns the name of a new command that waits. `is_chosen` says whether its words are printed.
    fn called_for(&self, next: &Next, is_chosen: bool) -> Option<Called>
        ensures { IfSome result (IsNew (IsCalled is_chosen) (new_words
            (nat_lt next.now.before next.now.left) next.now.step.seen)) }
    {
        match &next.step.seen {
            Seen::Command { words, .. } if next.before < next.left && self.has_all(next) => {
                let name = command_name(words);
                Some(Called { name, is_chosen })
            }
            _ => None,
        }
    }
}

/// Writes a result as a line of JSON, if the filter lets it through. `name` is the name of the
/// command that the result is a reply to, and `is_chosen` says whether the words of this command
/// are printed.
fn write_kept<W: Sink>(
    filter: &Filter,
    facts: Facts,
    is_chosen: bool,
    name: &[u8],
    seen: &Seen,
    writer: &mut W,
) -> Result<(), PrintError>
    ensures { (kept : Option ℕ) (whole : Datum) → IsKeptIn (Some 1024) kept whole seen.now →
        Prints (W.written writer.old) (W.written writer.new) (W.failures writer.old)
        (W.failures writer.new) result
        (kept_json filter.now facts is_chosen name.now whole seen.now) 0 }
{
    if !filter.keeps(facts.client, is_chosen, facts.waited, seen) {
        return Ok(());
    }
    printed(write_seen_json(facts, name, seen, writer))
}

/// Prints a result as a line of JSON, if the filter of the tap lets it through.
impl Watching for JsonTap {
    ghost use Rattle.resp_tap.specs.JsonTaps.{JsonTap, WatchesJson};

    type Given = Given<Moment>;

    type Shared = ();

    ghost State = { JsonTap };

    ghost state = { λ tap _. tap };

    ghost tap_in = { λ tap. tap.connection.tap };

    ghost watches = { λ given side. WatchesJson given.printing.client side given.now };

    fn watch_some<W: Sink>(
        &mut self,
        _shared: &mut Self::Shared,
        given: Self::Given,
        side: Side,
        piece: &[u8],
        writer: &mut W,
    ) -> Watched {
        let now = given.now;
        let next = self.connection.step(side, piece, Some(now));
        let seen = &next.step.seen;
        let filter = &self.filter;
        let called = self.kept.get(next.at);
        let is_chosen = is_chosen_called(filter, called, seen);
        let facts = Facts {
            client: given.printing.client,
            is_line: next.is_line,
            size: next.size,
            utc: now.utc.micros,
            waited: waited_of(now, next.asked, seen),
        };
        let name = name_of_called(called);
        let printed = write_kept(filter, facts, is_chosen, name, seen, writer);
        let called = self.called_for(&next, is_chosen);
        follow(&mut self.kept, &next, called);
        let used = next.step.used;
        drop(next);
        Watched { used, printed }
    }
}
