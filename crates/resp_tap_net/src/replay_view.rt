//! The output for a capture.

use crate::packet_clock::PacketClock;
use crate::printer::Printer;
use crate::remark::Remark;
use crate::replay::ReplaySettings;
use crate::shown::ShownLines;
use crate::stats::{Stats, counted_from};
use crate::timing::Timing;
use resp_capture::{Endpoint, IpAddress, Time};
use resp_io::device::Sink;
use resp_tap::watch::Side;
use resp_tap::{Filter, Printing};
use std::alloc::{AllocError, Global};
use std::io;
use std::net::{IpAddr, Ipv4Addr, Ipv6Addr, SocketAddr};

/// The output for a capture, printed as [`Window`](crate::window::Window) prints its traffic.
#[derive(Drop)]
pub(crate) struct ReplayView {
    alloc: Global,
    clock: PacketClock,
    timing: Timing,
    stats: Option<Stats>,
    shown: ShownLines,
    /// Whether a write has failed.
    has_failed: bool,
}

/// Returns the address of an end of a connection.
fn address_of(end: Endpoint) -> SocketAddr {
    match end.address {
        IpAddress::Four(bits) => SocketAddr::new(IpAddr::V4(Ipv4Addr::from_bits(bits)), end.port),
        IpAddress::Six { high, low } => {
            let bits = (high as u128) * 18_446_744_073_709_551_616 + low as u128;
            SocketAddr::new(IpAddr::V6(Ipv6Addr::from_bits(bits)), end.port)
        }
    }
}

impl ReplayView {
    /// Returns a view of a capture, before anything was read.
    ///
    /// # Errors
    ///
    /// An error of kind `OutOfMemory` if an allocation fails.
    pub(crate) fn new(
        alloc: Global,
        settings: &ReplaySettings,
        filter: Filter,
    ) -> io::Result<ReplayView> {
        let clock = PacketClock::default();
        let is_timed = settings.tells_time || settings.tables.is_some();
        match counted_from(
            &clock,
            alloc,
            is_timed,
            settings.tells_date,
            settings.tables,
        ) {
            Ok((timing, stats)) => Ok(ReplayView {
                alloc,
                clock,
                timing,
                stats,
                shown: ShownLines {
                    filter,
                    json: settings.json,
                },
                has_failed: false,
            }),
            Err(error) => {
                drop(filter);
                Err(error)
            }
        }
    }

    /// Returns whether a write has failed.
    pub(crate) fn has_failed(&self) -> bool {
        self.has_failed
    }

    /// Returns whether commands are counted and not printed.
    pub(crate) fn counts(&self) -> bool {
        self.stats.is_some()
    }

    /// Sets the clock to the time of a packet, and prints the table if it is time for it.
    pub(crate) fn go_on<W: Sink>(&mut self, time: Option<Time>, out: &mut W) {
        if let Some(time) = time {
            self.clock.set(time);
        }
        let Some(stats) = &self.stats else {
            return;
        };
        if let Some(now) = self.timing.now(&self.clock) {
            if stats.is_due(now.steady) {
                let alloc = self.alloc;
                self.printer(out).print_table(alloc);
            }
        }
    }

    /// Returns a printer for the results of taps.
    pub(crate) fn printer<'a, W: Sink>(
        &'a mut self,
        out: &'a mut W,
    ) -> Printer<'a, 'a, 'a, W, PacketClock> {
        Printer::new(
            &self.clock,
            &mut self.timing,
            self.stats.as_mut(),
            &self.shown,
            Some(out),
            &mut self.has_failed,
        )
    }

    /// Returns a filter for the tap of a connection, through which its traffic is printed or counted.
    ///
    /// # Errors
    ///
    /// `AllocError` if an allocation fails.
    pub(crate) fn filter(&self) -> Result<Filter, AllocError> {
        self.shown.filter.clone()
    }

    /// Returns whether the traffic is printed as JSON.
    pub(crate) fn is_json(&self) -> bool {
        self.shown.json
    }

    /// Prints the address of a connected client, if connections are printed.
    ///
    /// # Errors
    ///
    /// `AllocError` if an allocation fails.
    pub(crate) fn print_connected<W: Sink>(
        &mut self,
        client: u64,
        end: Endpoint,
        out: &mut W,
    ) -> Result<(), AllocError> {
        if self.shown.filter.keeps_connected(client) {
            let address = address_of(end);
            let text = format!(in self.alloc; "{address}")?;
            let bytes = text.as_str().as_bytes();
            let mut printer = self.printer(out);
            printer.print_remark(client, Remark::ConnectedFrom, bytes);
        }
        Ok(())
    }

    /// Prints how many bytes of a side are missing.
    ///
    /// # Errors
    ///
    /// `AllocError` if an allocation fails.
    pub(crate) fn print_missing<W: Sink>(
        &mut self,
        client: u64,
        side: Side,
        missing: u64,
        out: &mut W,
    ) -> Result<(), AllocError> {
        let side = match side {
            Side::Client => "client",
            Side::Server => "server",
        };
        let text = format!(in self.alloc; "{missing} bytes of the {side} are missing")?;
        let mut printer = self.printer(out);
        printer.print_remark(client, Remark::Missing, text.as_str().as_bytes());
        Ok(())
    }
}
