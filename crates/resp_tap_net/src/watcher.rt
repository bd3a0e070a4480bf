//! The tap of one connection.

use crate::window::TapSettings;
use resp_tap::{ConnectionTap, CountedTap, Filter, FilteredTap, JsonTap, ShownPart};
use resp_value::limits::Limits;
use std::alloc::Global;

/// The tap of a connection whose traffic is printed or counted.
#[derive(Drop)]
pub(crate) enum Watcher {
    Printed(FilteredTap),
    Json(JsonTap),
    Counted(CountedTap),
}

impl Watcher {
    /// Returns the tap of a new connection, whose commands are counted, or printed as JSON or as
    /// text. `reads_lines` says whether a line of a client is a command, `shown` how many bytes of
    /// each text are printed, and `filter` which commands. It allocates nothing.
    pub(crate) fn new(
        alloc: Global,
        limits: &Limits,
        reads_lines: bool,
        is_counted: bool,
        json: bool,
        shown: ShownPart,
        filter: Filter,
    ) -> Self {
        if is_counted {
            let tap = CountedTap::new(alloc, limits, filter);
            Watcher::Counted(tap.with_lines(reads_lines))
        } else if json {
            let tap = JsonTap::new(alloc, limits, filter);
            Watcher::Json(tap.with_lines(reads_lines))
        } else {
            let tap = FilteredTap::new(alloc, limits, shown, filter);
            Watcher::Printed(tap.with_lines(reads_lines))
        }
    }

    /// Returns the tap of the connection, which has its name and its incomplete command or reply.
    pub(crate) fn connection(&self) -> &ConnectionTap {
        match self {
            Watcher::Printed(tap) => tap.connection(),
            Watcher::Json(tap) => tap.connection(),
            Watcher::Counted(tap) => tap.connection(),
        }
    }
}
