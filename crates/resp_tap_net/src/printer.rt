//! Prints what the taps report.

use crate::remark::Remark;
use crate::shown::ShownLines;
use crate::stats::Stats;
use crate::timing::{Timing, TrafficClock};
use crate::watcher::Watcher;
use resp_io::device::{DeviceFault, Sink};
use resp_print::text::write_text;
use resp_stats::table_of;
use resp_tap::end::{write_end, write_named_line};
use resp_tap::json_line::{write_closed_json, write_remark_json};
use resp_tap::print::{write_line, write_remark};
use resp_tap::stamp::Stamp;
use resp_tap::watch::{Given, Side, watch};
use resp_tap::{Cut, Moment, Printing};
use std::alloc::Global;
use std::rt::Clock;

/// The line in place of a table for which there is no memory.
const NO_TABLE: &[u8] = b"out of memory for the table\n";

/// Prints the results of the taps that the filter lets through, with times if times are printed. If
/// commands are counted, only errors and the table are printed. Without a writer nothing is
/// printed, and no tap is read.
#[derive(Drop)]
pub(crate) struct Printer<'a, 'f, 's, W, C> {
    clock: &'a C,
    timing: &'a mut Timing,
    /// The moment of the last [`look`](Printer::look), if there was one and times are printed.
    seen: Option<Moment>,
    stats: Option<&'s mut Stats>,
    shown: &'f ShownLines,
    writer: Option<&'a mut W>,
    /// Whether printing has failed.
    has_failed: &'a mut bool,
}

impl<'a, 'f, 's, W: Sink, C: Clock> Printer<'a, 'f, 's, W, C> {
    /// Returns a printer over `writer`, which sets `has_failed` if printing fails.
    pub(crate) fn new(
        clock: &'a C,
        timing: &'a mut Timing,
        stats: Option<&'s mut Stats>,
        shown: &'f ShownLines,
        writer: Option<&'a mut W>,
        has_failed: &'a mut bool,
    ) -> Self {
        Printer {
            clock,
            timing,
            seen: None,
            stats,
            shown,
            writer,
            has_failed,
        }
    }

    /// Reads the clocks if times are printed. All lines up to the next call have this time. Returns a
    /// clock that shows it.
    pub(crate) fn look(&mut self) -> TrafficClock<'a, C> {
        self.seen = self.timing.now(self.clock);
        TrafficClock::new(self.clock, self.seen)
    }

    /// Returns the moment of the last [`look`](Printer::look), or else the current moment, if times
    /// are printed.
    fn now(&mut self) -> Option<Moment> {
        if self.seen.is_some() {
            return self.seen;
        }
        self.timing.now(self.clock)
    }

    /// Reads a piece that one side of a client's connection sent, and prints or counts the results.
    pub(crate) fn print(
        &mut self,
        watcher: &mut Watcher,
        printing: Printing,
        side: Side,
        piece: &[u8],
    ) {
        let now = self.now();
        let Some(writer) = &mut self.writer else {
            return;
        };
        let printed = match (watcher, now, &mut self.stats) {
            (Watcher::Printed(tap), _, _) => {
                watch(tap, &mut (), Given { printing, now }, side, piece, *writer)
            }
            (Watcher::Json(tap), Some(now), _) => {
                watch(tap, &mut (), Given { printing, now }, side, piece, *writer)
            }
            (Watcher::Counted(tap), Some(now), Some(stats)) => {
                stats.note(now.steady);
                let counts = &mut stats.counts;
                watch(tap, counts, Given { printing, now }, side, piece, *writer)
            }
            _ => Ok(()),
        };
        if printed.is_err() {
            *self.has_failed = true;
        }
    }

    /// Prints a line about a client, with this text.
    pub(crate) fn print_remark(&mut self, client: u64, remark: Remark, text: &[u8]) {
        if !self.shown.filter.keeps_client(client) {
            return;
        }
        let stamp = self.stamp();
        let json = self.shown.json;
        let Some(writer) = &mut self.writer else {
            return;
        };
        if write_remark_as(json, client, remark, text, stamp, *writer).is_err() {
            *self.has_failed = true;
        }
    }

    /// Prints that a client's connection is gone, unless only some commands are printed or all are
    /// counted.
    pub(crate) fn print_gone(&mut self, watcher: &Watcher, client: u64) {
        if !self.prints_connections() || !self.shown.filter.keeps_gone(client) {
            return;
        }
        let name = self.name_of(watcher);
        let stamp = self.stamp();
        let json = self.shown.json;
        let Some(writer) = &mut self.writer else {
            return;
        };
        if write_gone_as(json, client, name, stamp, *writer).is_err() {
            *self.has_failed = true;
        }
    }

    /// Returns whether lines about connections are printed, as far as the filter lets them through.
    fn prints_connections(&self) -> bool {
        self.stats.is_none() || self.shown.filter.connections
    }

    /// Returns the name of a connection, if names are printed.
    fn name_of<'w>(&self, watcher: &'w Watcher) -> &'w [u8] {
        if self.shown.filter.connections {
            watcher.connection().name().as_bytes()
        } else {
            b""
        }
    }

    /// Prints which side of a client's connection has ended, and the incomplete command or reply of
    /// that side. If only some commands are printed or all are counted, only an end inside a
    /// command or a reply is printed.
    pub(crate) fn print_end(&mut self, watcher: &Watcher, client: u64, side: Side) {
        let cut = watcher.connection().cut(side);
        let is_kept = cut.is_some() || self.prints_connections();
        if !is_kept || !self.shown.filter.keeps_end(client, cut) {
            return;
        }
        let name = self.name_of(watcher);
        let stamp = self.stamp();
        let json = self.shown.json;
        let Some(writer) = &mut self.writer else {
            return;
        };
        if write_end_as(json, client, name, side, cut, stamp, *writer).is_err() {
            *self.has_failed = true;
        }
    }

    /// Prints the table of the counts.
    pub(crate) fn print_table(&mut self, alloc: Global) {
        let Some(now) = self.now() else {
            return;
        };
        let Some(stats) = &mut self.stats else {
            return;
        };
        let Some(writer) = &mut self.writer else {
            return;
        };
        if !write_table(alloc, *stats, now, *writer) {
            *self.has_failed = true;
        }
    }

    /// Returns the stamp of a line that is printed now.
    fn stamp(&mut self) -> Option<Stamp> {
        match self.now() {
            Some(now) => Some(Stamp::new(now)),
            None => None,
        }
    }
}

/// Returns the microseconds since 1970 of a stamp. Lines of JSON always have one.
fn utc_of(stamp: Option<Stamp>) -> u64 {
    match stamp {
        Some(stamp) => stamp.utc.micros,
        None => 0,
    }
}

/// Writes a line about a client, as JSON or as text.
fn write_remark_as<W: Sink>(
    json: bool,
    client: u64,
    remark: Remark,
    text: &[u8],
    stamp: Option<Stamp>,
    writer: &mut W,
) -> Result<(), DeviceFault> {
    if json {
        let (kind, member) = (remark.kind(), remark.member());
        write_remark_json(client, kind, member, text, utc_of(stamp), writer)
    } else {
        write_remark(client, remark.front(), text, stamp, writer)
    }
}

/// Writes that a connection with this name is gone, as JSON or as text.
fn write_gone_as<W: Sink>(
    json: bool,
    client: u64,
    name: &[u8],
    stamp: Option<Stamp>,
    writer: &mut W,
) -> Result<(), DeviceFault> {
    if json {
        write_remark_json(
            client,
            b",\"kind\":\"gone\"",
            b",\"name\":",
            name,
            utc_of(stamp),
            writer,
        )
    } else {
        write_named_line(client, name, b" gone", stamp, writer)
    }
}

/// Writes which side of a connection has ended, as JSON or as text.
fn write_end_as<W: Sink>(
    json: bool,
    client: u64,
    name: &[u8],
    side: Side,
    cut: Option<Cut>,
    stamp: Option<Stamp>,
    writer: &mut W,
) -> Result<(), DeviceFault> {
    if json {
        write_closed_json(client, name, side, cut, utc_of(stamp), writer)
    } else {
        write_end(client, name, side, cut, stamp, writer)
    }
}

/// Writes the table of the counts, and returns whether it was written.
fn write_table<W: Sink>(alloc: Global, stats: &mut Stats, now: Moment, writer: &mut W) -> bool {
    stats.printed(now.steady);
    let table = table_of(alloc, &stats.counts);
    let text = match &table {
        Ok(table) => table.as_str().as_bytes(),
        Err(_) => NO_TABLE,
    };
    let head = write_line(b"stats", Some(Stamp::new(now)), writer);
    head.is_ok() && write_text(writer, text).is_ok()
}
