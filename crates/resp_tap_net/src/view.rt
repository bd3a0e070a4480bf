//! What a window does with its connections, and what it prints of them.

use crate::keyboard::Keyboard;
use crate::printer::Printer;
use crate::recording::{Recording, endpoint_of};
use crate::remark::Remark;
use crate::shown::ShownLines;
use crate::stats::{Stats, counted_from};
use crate::tapped::{Opening, Sockets, Tapped};
use crate::timing::Timing;
use crate::watcher::Watcher;
use crate::window::{AfterFailure, TapSettings};
use mio::Registry;
use resp_capture::{End, Endpoint, SegmentKind};
use resp_io::device::Sink;
use resp_io::live::LiveSink;
use resp_net::backend::{Address, Backend};
use resp_net::cause::cause_of;
use resp_net::closing::LINGER;
use resp_net::deadlines::Deadlines;
use resp_net::drain::Drain;
use resp_net::lane::PIECE;
use resp_net::pieces::Pieces;
use resp_net::register::register;
use resp_net::service::{Next, Tokens};
use resp_net::spare::Spare;
use resp_net::stream::Stream;
use resp_net::terminal::Terminal;
use resp_paint::Painted;
use resp_tap::screen::Screen;
use resp_tap::{Filter, Printing, ShownPart};
use std::alloc::{AllocError, Global};
use std::fs::{File, Files};
use std::io::ErrorKind;
use std::net::Net;
use std::rt::Clock;
use std::time::Duration;
use std::{io, mem};

/// The maximum number of bytes of text that wait to be printed.
const SCREEN: usize = 1_048_576;

/// The maximum number of writes of text before connections are visited.
const WRITES: usize = 64;

/// The time after which printing waiting text is tried again, in milliseconds.
const PATIENCE: u64 = 5;

/// The notice on standard error after a failed write, if the window ends with the last connection.
const FINISHES: &str = "write failed\n\
    nothing more is printed, and no client is accepted; tap ends when the last connection closes";

/// The notice on standard error after a failed write, if the window continues.
const KEEPS_GOING: &str = "write failed\nnothing more is printed; clients are still accepted";

/// The notice on standard error after a failed write to the capture, if there is no memory for its
/// reason.
const NOT_RECORDED: &str = "recording failed\nnothing more is recorded; traffic is still forwarded";

/// The server to which connections are forwarded, and what is printed about them.
#[derive(Drop)]
pub(crate) struct View {
    alloc: Global,
    backend: Backend,
    pub(crate) settings: TapSettings,
    shown: ShownLines,
    /// The number of connections that were accepted.
    count: u64,
    /// A spare descriptor. With it, a client is accepted only if a descriptor is also left for its
    /// connection to the server.
    pub(crate) spare: Spare,
    screen: Painted<Screen>,
    pub(crate) terminal: Terminal,
    /// Whether a write to a file has failed.
    has_failed: bool,
    /// Whether nothing more is printed, because a write has failed.
    pub(crate) is_silent: bool,
    timing: Timing,
    /// The counts of commands, if they are counted.
    pub(crate) stats: Option<Stats>,
    /// The keys with which the user asks for the table.
    pub(crate) keyboard: Keyboard,
    /// The capture to which the traffic is written.
    pub(crate) recording: Recording,
    pub(crate) drain: Drain,
    /// The times at which the connections of clients to which nothing more is sent are closed.
    pub(crate) lingering: Deadlines,
    /// The times at which pauses between two pieces end.
    pub(crate) pauses: Deadlines,
    /// The time of this turn of the loop.
    pub(crate) now: Duration,
    /// The bytes of one read of any connection.
    buffer: [u8; PIECE],
}

/// Returns the view of a window that listens on this address.
pub(crate) fn view_of<R: Net + Clock + Files<File = File> + Alloc>(
    rt: &R,
    alloc: Global,
    listening: io::Result<Address>,
    backend: Backend,
    settings: TapSettings,
    filter: Filter,
) -> io::Result<View> {
    let mut backend = backend;
    match parts_of(rt, alloc, listening, &mut backend, &settings) {
        Ok((terminal, timing, stats)) => Ok(View::new(
            rt, alloc, backend, settings, filter, terminal, timing, stats,
        )),
        Err(error) => {
            drop(backend);
            drop(filter);
            Err(error)
        }
    }
}

/// Returns what a view needs of the system, if the window may listen on this address.
fn parts_of<R: Net + Clock + Files<File = File>>(
    rt: &R,
    alloc: Global,
    listening: io::Result<Address>,
    backend: &mut Backend,
    settings: &TapSettings,
) -> io::Result<(Terminal, Timing, Option<Stats>)> {
    backend.check(rt, listening)?;
    let terminal = Terminal::new(rt, alloc)?;
    let is_timed = settings.tells_time || settings.tables.is_some();
    match counted_from(rt, alloc, is_timed, settings.tells_date, settings.tables) {
        Ok((timing, stats)) => Ok((terminal, timing, stats)),
        Err(error) => {
            drop(terminal);
            Err(error)
        }
    }
}

impl View {
    /// Returns a view of a server, before any client is accepted.
    fn new<R: Net + Files + Alloc>(
        rt: &R,
        alloc: Global,
        backend: Backend,
        settings: TapSettings,
        filter: Filter,
        terminal: Terminal,
        timing: Timing,
        stats: Option<Stats>,
    ) -> View {
        let json = settings.json;
        let keyboard = Keyboard::new(stats.is_some());
        let mut screen = Painted::new(Screen::new(alloc, SCREEN).with_json(json));
        screen.set_style(settings.style);
        View {
            alloc,
            backend,
            settings,
            shown: ShownLines { filter, json },
            count: 0,
            spare: Spare::new(rt),
            screen,
            terminal,
            has_failed: false,
            is_silent: false,
            timing,
            stats,
            keyboard,
            recording: Recording::none(),
            drain: Drain::new(rt, settings.drain_timeout),
            lingering: Deadlines::new(alloc),
            pauses: Deadlines::new(alloc),
            now: Duration::from_millis(0),
            buffer: [0; PIECE],
        }
    }

    /// Prints waiting text, as far as standard output accepts it without blocking. A file accepts
    /// all text.
    pub(crate) fn show<W: LiveSink>(&mut self, out: &mut W) -> io::Result<()> {
        if !self.terminal.may_wait() {
            if self.has_failed || out.flush().is_err() {
                return Err(ErrorKind::WriteZero.into());
            }
            return Ok(());
        }
        for _ in 0..WRITES {
            let screen = self.screen.inner_mut();
            let _ = screen.say_what_is_left_out();
            let text = screen.text();
            if text.is_empty() {
                return Ok(());
            }
            match self.terminal.print(text, out)? {
                0 => return Ok(()),
                count => screen.shown(count),
            }
        }
        Ok(())
    }

    /// Ends printing after a failed write, and says so on standard error.
    ///
    /// # Errors
    ///
    /// An error of kind `WriteZero` if the window ends now.
    pub(crate) fn fail(&mut self, rt: &impl Eprint) -> io::Result<()> {
        let notice = match self.settings.after_failure {
            AfterFailure::End => return Err(ErrorKind::WriteZero.into()),
            AfterFailure::Finish => FINISHES,
            AfterFailure::KeepGoing => KEEPS_GOING,
        };
        self.is_silent = true;
        // The text that waits is never printed.
        drop(mem::replace(&mut self.screen, Painted::new(Screen::new(self.alloc, 0))));
        let _ = rt.eprintln(notice);
        Ok(())
    }

    /// Returns whether text waits to be printed.
    pub(crate) fn has_text(&self) -> bool {
        let screen = self.screen.inner();
        !screen.text().is_empty() || screen.unshown() != 0
    }

    /// Returns the time until something is printed although no socket is ready.
    pub(crate) fn patience(&self) -> Option<Duration> {
        if self.keyboard.is_new() {
            return Some(Duration::from_millis(0));
        }
        if self.is_silent {
            return None;
        }
        if self.has_text() {
            return Some(Duration::from_millis(PATIENCE));
        }
        let stats = self.stats.as_ref()?;
        stats.patience(self.timing.last()?.steady)
    }

    /// Returns whether clients are accepted after a write has failed.
    pub(crate) fn goes_on_accepting(&self) -> bool {
        matches!(self.settings.after_failure, AfterFailure::KeepGoing)
    }

    /// Returns the number of the next client.
    pub(crate) fn next_number(&mut self) -> u64 {
        self.count = self.count.saturating_add(1);
        self.count
    }

    /// Prints that a client's connection is gone, unless only some commands are printed or all are
    /// counted.
    pub(crate) fn print_gone<W: Sink, C: Clock>(
        &mut self,
        connection: &Tapped,
        clock: &C,
        out: &mut W,
    ) {
        let client = connection.number();
        let (timing, stats) = (&mut self.timing, self.stats.as_mut());
        if self.terminal.may_wait() {
            let screen = as_long(!self.is_silent, &mut self.screen);
            // The screen says itself what it leaves out.
            let failed = &mut false;
            let mut printer = Printer::new(clock, timing, stats, &self.shown, screen, failed);
            printer.print_gone(connection.watcher(), client);
            return;
        }
        let out = as_long(!self.is_silent, out);
        let failed = &mut self.has_failed;
        let mut printer = Printer::new(clock, timing, stats, &self.shown, out, failed);
        printer.print_gone(connection.watcher(), client);
    }

    /// Prints the address of a connected client, if connections are printed.
    pub(crate) fn print_connected<W: Sink, C: Clock>(
        &mut self,
        client: u64,
        stream: &Stream,
        clock: &C,
        out: &mut W,
    ) {
        if !self.shown.filter.keeps_connected(client) {
            return;
        }
        let text = match stream.peer_addr() {
            Ok(Some(address)) => format!(in self.alloc; "{address}"),
            Ok(None) | Err(_) => Err(AllocError),
        };
        match text {
            Ok(text) => {
                let bytes = text.as_str().as_bytes();
                self.print_remark(client, Remark::ConnectedFrom, bytes, clock, out);
            }
            Err(_) => self.print_remark(client, Remark::Connected, b"", clock, out),
        }
    }

    /// Prints a line about a client, with this text.
    pub(crate) fn print_remark<W: Sink, C: Clock>(
        &mut self,
        client: u64,
        remark: Remark,
        text: &[u8],
        clock: &C,
        out: &mut W,
    ) {
        let (timing, stats) = (&mut self.timing, self.stats.as_mut());
        if self.terminal.may_wait() {
            let screen = as_long(!self.is_silent, &mut self.screen);
            let failed = &mut false;
            let mut printer = Printer::new(clock, timing, stats, &self.shown, screen, failed);
            printer.print_remark(client, remark, text);
            return;
        }
        let out = as_long(!self.is_silent, out);
        let failed = &mut self.has_failed;
        let mut printer = Printer::new(clock, timing, stats, &self.shown, out, failed);
        printer.print_remark(client, remark, text);
    }

    /// Prints the table of the counts.
    pub(crate) fn print_table<W: Sink, C: Clock>(&mut self, clock: &C, out: &mut W) {
        let (timing, stats) = (&mut self.timing, self.stats.as_mut());
        if self.terminal.may_wait() {
            let screen = as_long(!self.is_silent, &mut self.screen);
            let failed = &mut false;
            let mut printer = Printer::new(clock, timing, stats, &self.shown, screen, failed);
            printer.print_table(self.alloc);
            return;
        }
        let out = as_long(!self.is_silent, out);
        let failed = &mut self.has_failed;
        let mut printer = Printer::new(clock, timing, stats, &self.shown, out, failed);
        printer.print_table(self.alloc);
    }

    /// Prints the table if it is time for it.
    pub(crate) fn go_on<W: Sink, C: Clock>(&mut self, clock: &C, out: &mut W) {
        let Some(stats) = &self.stats else {
            return;
        };
        if let Some(now) = self.timing.now(clock) {
            if stats.is_due(now.steady) {
                self.print_table(clock, out);
            }
        }
    }

    /// Prints that no connection to the server could be opened for a client, and why.
    pub(crate) fn print_failure<W: Sink, C: Clock>(
        &mut self,
        client: u64,
        error: &io::Error,
        clock: &C,
        out: &mut W,
    ) {
        let server = self.backend.name();
        let cause = cause_of(error);
        match format!(in self.alloc; "cannot connect to {server}: {cause}") {
            Ok(text) => {
                let bytes = text.as_str().as_bytes();
                self.print_remark(client, Remark::Failed, bytes, clock, out);
            }
            Err(_) => self.print_remark(client, Remark::NotConnected, b"", clock, out),
        }
    }

    /// Forwards the bytes of a connection. If the window drains, closes a client that has its replies.
    pub(crate) fn visit<R: Net + Clock, W: Sink>(
        &mut self,
        rt: &R,
        connection: &mut Tapped,
        registry: &Registry,
        out: &mut W,
    ) -> Next {
        if self.drain.is_over() {
            return Next::Close;
        }
        match connection.until() {
            Some(until) if until <= self.now => return Next::Close,
            Some(_) => return connection.drop_input(&mut self.buffer),
            None => {}
        }
        if self.drain.has_begun() {
            connection.shut();
        }
        let next = self.visit_open(rt, connection, registry, out);
        if next != Next::Close && connection.is_done() {
            return self.linger(connection);
        }
        next
    }

    /// Sends nothing more to a client, which has its replies, and closes its connection once the client has
    /// closed its side or [`LINGER`] has passed.
    fn linger(&mut self, connection: &mut Tapped) -> Next {
        let until = self.now.saturating_add(Duration::from_millis(LINGER));
        connection.close_until(until);
        let next = connection.drop_input(&mut self.buffer);
        if next == Next::Close || self.lingering.add(until, connection.place()).is_err() {
            return Next::Close;
        }
        next
    }

    /// Forwards the bytes of a connection once the connection to the server is open. If it can't be
    /// opened, the next address of the server is tried.
    fn visit_open<R: Net + Clock, W: Sink>(
        &mut self,
        rt: &R,
        connection: &mut Tapped,
        registry: &Registry,
        out: &mut W,
    ) -> Next {
        let error = match connection.opening() {
            Opening::Connecting => return Next::Wait,
            Opening::Connected { is_new } => {
                if is_new {
                    self.backend.prefer(connection.attempt());
                    connection.record_opening(&mut self.recording, rt);
                }
                return self.hand_on_pieces(connection, rt, out);
            }
            Opening::Failed(error) => error,
        };
        match self.connect_again(rt, connection, registry, error) {
            Ok(()) => Next::Wait,
            Err(error) => {
                self.print_failure(connection.number(), &error, rt, out);
                Next::Close
            }
        }
    }

    /// Starts to connect to the next address of the server, after one could not be reached for this
    /// reason.
    ///
    /// # Errors
    ///
    /// That reason if each address was tried, or an error of the system.
    fn connect_again(
        &mut self,
        net: &impl Net,
        connection: &mut Tapped,
        registry: &Registry,
        error: io::Error,
    ) -> io::Result<()> {
        let Some(attempt) = self.backend.after(connection.attempt()) else {
            return Err(error);
        };
        let (server, attempt) = self.backend.connect(&mut self.spare, net, attempt)?;
        connection.set_server(server, attempt, registry)?;
        self.spare.keep(net);
        Ok(())
    }

    /// Forwards the bytes of a connection. A pause follows each piece if the bytes are cut.
    fn hand_on_pieces<W: Sink, C: Clock>(
        &mut self,
        connection: &mut Tapped,
        clock: &C,
        out: &mut W,
    ) -> Next {
        connection.pieces.look(self.now);
        let next = self.hand_on(connection, clock, out);
        if next == Next::Close {
            return next;
        }
        let place = connection.place();
        connection
            .pieces
            .settle(clock, self.now, place, &mut self.pauses, next)
    }

    /// Forwards the bytes of a connection.
    fn hand_on<W: Sink, C: Clock>(
        &mut self,
        connection: &mut Tapped,
        clock: &C,
        out: &mut W,
    ) -> Next {
        let (timing, stats) = (&mut self.timing, self.stats.as_mut());
        let recording = &mut self.recording;
        if self.terminal.may_wait() {
            let screen = as_long(!self.is_silent, &mut self.screen);
            let failed = &mut false;
            let mut printer = Printer::new(clock, timing, stats, &self.shown, screen, failed);
            return connection.hand_on(&mut self.buffer, &mut printer, recording);
        }
        let out = as_long(!self.is_silent, out);
        let failed = &mut self.has_failed;
        let mut printer = Printer::new(clock, timing, stats, &self.shown, out, failed);
        connection.hand_on(&mut self.buffer, &mut printer, recording)
    }

    /// Reports on standard error that a write to the capture has failed, if this was not reported
    /// yet.
    pub(crate) fn say_failure_of_recording(&mut self, rt: &impl Eprint) {
        let Some(error) = self.recording.take_failure() else {
            return;
        };
        let notice = format!(in self.alloc;
            "recording failed: {error}\nnothing more is recorded; traffic is still forwarded"
        );
        let _ = match &notice {
            Ok(notice) => rt.eprintln(notice.as_str()),
            Err(_) => rt.eprintln(NOT_RECORDED),
        };
    }

    /// Returns the address of the server that is recorded.
    fn recorded_server(&self) -> Endpoint {
        match self.backend.address(self.backend.first()) {
            Ok(Address::Socket(address)) => endpoint_of(Some(*address), 0),
            Ok(Address::Path(_)) | Err(_) => endpoint_of(None, 0),
        }
    }

    /// Records that a client was connected and is gone.
    pub(crate) fn record_lost(&mut self, number: u64, clock: &impl Clock) {
        let server = self.recorded_server();
        let client = endpoint_of(None, number);
        let mut recorded = self.recording.begin(clock, client, server);
        self.recording
            .add(clock, &mut recorded, End::Server, SegmentKind::Reset, b"");
    }

    /// Starts to connect to the server for a client, and returns both connections.
    pub(crate) fn connect<R: Net + Clock>(
        &mut self,
        net: &R,
        client: Stream,
        number: u64,
        registry: &Registry,
        tokens: Tokens,
    ) -> io::Result<Tapped> {
        let filter = self.shown.filter.clone()?;
        let mut client = client;
        let first = self.backend.first();
        let (mut server, attempt) = self.backend.connect(&mut self.spare, net, first)?;
        register(&mut client, registry, tokens.client)?;
        register(&mut server, registry, tokens.server)?;
        let printing = Printing {
            client: number,
            shows_passwords: self.settings.shows_passwords,
        };
        let sockets = Sockets {
            client,
            server,
            tokens,
            attempt,
        };
        let watcher = Watcher::new(
            self.alloc,
            &self.settings.limits,
            self.settings.reads_lines,
            self.stats.is_some(),
            self.settings.json,
            ShownPart::first(self.settings.shown),
            filter,
        );
        let peer = sockets.client.peer_addr().unwrap_or(None);
        let server = self.recorded_server();
        let recorded = self.recording.begin(net, endpoint_of(peer, number), server);
        let pieces = Pieces::new(self.settings.cut);
        Ok(Tapped::new(self.alloc, sockets, pieces, watcher, printing, recorded))
    }
}

/// Returns a writer if it is used.
fn as_long<W>(is_used: bool, writer: &mut W) -> Option<&mut W> {
    if is_used { Some(writer) } else { None }
}
