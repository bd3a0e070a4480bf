//! A tap whose traffic is printed through a filter.

ghost use Rattle.std.specs.Prelude.{◌≡◌, ◌&&◌, [], nat_lt, IfSome};
ghost use Rattle.resp_tap.specs.Connections.{IsNewConnection};
ghost use Rattle.resp_tap.specs.Filters.{is_selective, kept_by};
ghost use Rattle.resp_tap.specs.Keeping.{IsNew, new_words};
ghost use Rattle.resp_tap.specs.Noted.{IsNoteBehind};
ghost use Rattle.resp_tap.specs.SeenOf.{IsKeptIn, with_whole};
ghost use Rattle.resp_value.specs.Data.{Datum};

use crate::connection::{KeepingTap, Next, follow};
use crate::filter::Filter;
use crate::moment::Moment;
use crate::note::{Note, is_chosen, note_of, write_filtered};
use crate::print::TextOptions;
use crate::seen::Seen;
use crate::shown_part::ShownPart;
use crate::watch::{Given, Side, Watched, Watching, stamp_of};
use resp_io::device::Sink;
use resp_value::limits::Limits;
use std::alloc::Global;

/// A tap whose traffic is printed through a [`Filter`].
///
/// If a filter has names or a key, or prints a command only with its reply, the tap keeps, for each
/// command that waits, the time at which it arrived and whether its words pass. If the reply
/// decides, it also keeps the first 1,024 bytes of the text of the command's words. It keeps this
/// text only for the first 1,024 commands that wait.
///
/// If an allocation fails, the tap keeps a note neither of the command nor of the commands that
/// follow while it waits.
///
/// # Examples
///
/// From [samples](../../samples/src/tapping.rt):
///
/// ```rust
/// let mut tap = FilteredTap::new(alloc, &Limits::standard(), ShownPart::all(), filter);
/// let sent = b"*1\r\n$4\r\nPING\r\n*2\r\n$4\r\nINCR\r\n$1\r\na\r\n";
/// watch(&mut tap, &mut (), given, Side::Client, sent, &mut text)?;
/// let heard = b"+PONG\r\n-WRONGTYPE not a number\r\n";
/// watch(&mut tap, &mut (), given, Side::Server, heard, &mut text)?;
/// ```
///
/// With a filter that prints errors only, this prints:
///
/// ```text
/// client 1 command 2
///   "INCR" "a"
/// client 1 reply 2
///   error "WRONGTYPE not a number" 22
/// ```
pub type FilteredTap = KeepingTap<Note>;

impl FilteredTap {
    /// Returns a tap of a new connection for this filter, which is read within these limits. It keeps
    /// one byte more of each text of the server than is shown. If the filter has a key, it keeps whole
    /// words of the client. Otherwise it keeps one byte more of each word than is shown, or than the
    /// longest name of the filter has, and at least 65. A line of the client is a command too. The
    /// call allocates nothing.
    pub fn new(alloc: Global, limits: &Limits, shown: ShownPart, filter: Filter) -> FilteredTap
        ensures new_connection { IsNewConnection limits.now shown.most (kept_by filter shown.most)
            result.connection }
        ensures filter { result.filter ≡ filter }
        ensures nothing_kept { result.kept.items ≡ [] }
    {
        KeepingTap::of_connection(alloc, limits, shown, filter)
    }

    /// Returns the note of a new command that waits, if the filter needs notes. `is_chosen` says
    /// whether the words of the command are printed.
    fn note_for(
        &self,
        options: TextOptions,
        now: Option<Moment>,
        next: &Next,
        is_chosen: bool,
    ) -> Option<Note>
        ensures { (whole : Datum) →
            IsKeptIn options.shown.most options.kept.most whole next.now.step.seen →
            IfSome result (IsNew (IsNoteBehind self.now.filter options now next.now.is_line
            is_chosen self.now.kept.items) (new_words (nat_lt next.now.before next.now.left &&
            is_selective self.now.filter) (with_whole whole next.now.step.seen))) }
    {
        match &next.step.seen {
            Seen::Command { words, lengths, .. }
                if next.before < next.left && self.filter.is_selective() && self.has_all(next) => {
                note_of(
                    self.connection.lines.alloc,
                    &self.filter,
                    options,
                    now,
                    next.is_line,
                    is_chosen,
                    words,
                    lengths.as_slice(),
                    self.kept.len(),
                )
                .ok()
            }
            _ => None,
        }
    }
}

/// Prints a result as a [`Tap`](crate::Tap) does, if the filter of the tap lets it through. A command
/// whose reply decides is printed before the reply.
impl Watching for FilteredTap {
    ghost use Rattle.resp_tap.specs.Filtering.{FilteredTap, WatchesFiltered};

    type Given = Given<Option<Moment>>;

    type Shared = ();

    ghost State = { FilteredTap };

    ghost state = { λ tap _. tap };

    ghost tap_in = { λ tap. tap.connection.tap };

    ghost watches = { λ given side. WatchesFiltered given.printing side given.now };

    fn watch_some<W: Sink>(
        &mut self,
        _shared: &mut Self::Shared,
        given: Self::Given,
        side: Side,
        piece: &[u8],
        writer: &mut W,
    ) -> Watched {
        let options = self.connection.tap.options(given.printing);
        let next = self.connection.step(side, piece, given.now);
        let seen = &next.step.seen;
        let stamp = stamp_of(given.now, next.asked, seen);
        let filter = &self.filter;
        let note = self.kept.get(next.at);
        let is_chosen = is_chosen(filter, note, seen);
        let printed = write_filtered(
            filter,
            options,
            next.is_line,
            is_chosen,
            note,
            stamp,
            seen,
            writer,
        );
        let note = self.note_for(options, given.now, &next, is_chosen);
        follow(&mut self.kept, &next, note);
        let used = next.step.used;
        drop(next);
        Watched { used, printed }
    }
}
