//! The window: its loop, its settings, and the service of its connections.

use crate::keyboard::Typed;
use crate::recording::Recording;
use crate::remark::Remark;
use crate::stats::Tables;
use crate::tapped::Tapped;
use crate::view::{View, view_of};
use mio::Registry;
use resp_capture::End;
use resp_io::live::LiveSink;
use resp_net::backend::{Address, Backend};
use resp_net::cutter::Cut;
use resp_net::event_loop::Loop;
use resp_net::service::{Next, Service, Tokens, shorter};
use resp_net::stream::Stream;
use resp_paint::Style;
use resp_tap::Filter;
use resp_value::limits::Limits;
use std::alloc::Global;
use std::fs::{File, Files};
use std::io::ErrorKind;
use std::net::Net;
use std::rt::Clock;
use std::time::Duration;
use std::{io, mem};

/// The notice on standard error if the user may ask for the table.
const KEYS: &str = "Enter prints the table, and Ctrl-D prints it and ends";

/// Forwards connections to a server, and prints their traffic, or counts the commands and prints a
/// table of them. Each client gets its own connection to the server, and the bytes of both sides are
/// forwarded unchanged. Nothing is read from a client before its connection to the server is open.
///
/// A side is not read while its bytes wait to be forwarded. Connections with much to do are visited
/// in turns. Text is written as far as standard output accepts it without blocking. At most
/// 1,048,576 bytes of text wait; more text is omitted and counted. A file always accepts text, so
/// no text for a file is omitted.
///
/// If SIGTERM or SIGINT comes and was blocked at the start, the window drains: it accepts no more clients,
/// reads nothing more from them, and closes each client once no command of it waits for a reply.
#[derive(Drop)]
pub struct Window {
    connections: Loop<Tapped>,
    view: View,
}

/// What a [`Window`] does after a write to standard output has failed.
#[derive(Clone, Copy)]
pub enum AfterFailure {
    /// It ends, and closes all connections.
    End,
    /// It prints nothing more, closes the listener, and ends when the last connection is closed.
    Finish,
    /// It prints nothing more, and accepts and forwards connections as before.
    KeepGoing,
}

/// How a [`Window`] works.
#[derive(Clone, Copy)]
pub struct TapSettings {
    /// The limits within which both sides are read.
    pub limits: Limits,
    /// The maximum number of clients at once.
    pub most: usize,
    /// The time after which a window that drains closes the clients that are still open.
    pub drain_timeout: Duration,
    /// Where the bytes of the server are cut into pieces, if they are.
    pub cut: Option<Cut>,
    /// Whether times are printed.
    pub tells_time: bool,
    /// Whether the times of lines of text have the date too.
    pub tells_date: bool,
    /// What happens after a write to standard output has failed.
    pub after_failure: AfterFailure,
    /// Whether a line of a client is a command.
    pub reads_lines: bool,
    /// Whether passwords and other secret words of commands are printed.
    pub shows_passwords: bool,
    /// The maximum number of bytes of a word or of a text that are printed.
    pub shown: usize,
    /// Whether the traffic is printed as JSON. Then times are printed.
    pub json: bool,
    /// When the counts of commands are printed, if commands are counted and not printed.
    pub tables: Option<Tables>,
    /// The style of text that waits for a terminal, a pipe or a socket.
    pub style: Style,
}

/// A view with the runtime, and the output to which its text is printed.
#[derive(Drop)]
struct Watching<'a, R, W> {
    view: &'a mut View,
    rt: &'a R,
    out: &'a mut W,
}

impl Window {
    /// Listens on an address for clients, and connects them to a server. Prints what the filter
    /// lets through.
    ///
    /// # Errors
    ///
    /// The error of the system if the address can't be opened or a clock can't be read, an error of
    /// kind `InvalidInput` if an address of the server is the address to listen on, or an error of
    /// kind `OutOfMemory` if an allocation fails.
    pub fn listen<R: Net + Clock + Files<File = File> + Alloc>(
        rt: &R,
        alloc: Global,
        address: &Address,
        backend: Backend,
        settings: TapSettings,
        filter: Filter,
    ) -> io::Result<Self> {
        let connections = Loop::listen(rt, alloc, address, settings.most)?;
        match view_of(rt, alloc, connections.address(), backend, settings, filter) {
            Ok(view) => Ok(Window { connections, view }),
            Err(error) => {
                drop(connections);
                Err(error)
            }
        }
    }

    /// Returns the address that the window listens on.
    ///
    /// # Errors
    ///
    /// The error of the system if it can't be read, or an error of kind `OutOfMemory` if an allocation
    /// fails.
    pub fn address(&self) -> io::Result<Address> {
        self.connections.address()
    }

    /// Also writes the traffic to a capture in the pcap format, which is created. A failed write is
    /// reported on standard error. After it nothing more is recorded, and the window continues.
    ///
    /// # Errors
    ///
    /// The error of the system if the file can't be created. Its kind is `AlreadyExists` if there is
    /// a file of this name, which is left unchanged.
    pub fn record<R: Files<File = File>>(&mut self, rt: &R, path: &str) -> io::Result<()> {
        let recording = Recording::create(rt, path)?;
        drop(mem::replace(&mut self.view.recording, recording));
        Ok(())
    }

    /// Returns whether a write to standard output has failed.
    pub fn is_silent(&self) -> bool {
        self.view.is_silent
    }

    /// Returns whether standard output is a terminal, a pipe or a socket, for which text may wait.
    pub fn may_wait(&self) -> bool {
        self.view.terminal.may_wait()
    }

    /// Forwards the bytes of all connections and prints their traffic, until waiting for
    /// connections fails. If printing fails, this is reported on standard error, and the window
    /// continues or ends as [`AfterFailure`] says. It returns without an error if the window has drained, or if
    /// printing had failed and the last connection was closed after that. If commands are counted and standard input is a terminal,
    /// a line that is typed there prints the table, and Ctrl-D prints it and ends the window.
    ///
    /// # Errors
    ///
    /// An error of kind `Interrupted` if Ctrl-D has ended the window. The error of waiting for
    /// connections. An error of kind `OutOfMemory` if the first allocation fails. An error of kind
    /// `WriteZero` if a write fails and the window ends at once: with [`AfterFailure::End`], or
    /// with [`AfterFailure::Finish`] before it has accepted a client.
    pub fn run<R: Net + Clock + Eprint + Files + Alloc, W: LiveSink>(
        &mut self,
        rt: &R,
        out: &mut W,
    ) -> io::Result<()> {
        let mut events = self.connections.events()?;
        let view = &mut self.view;
        if out.flush().is_err() {
            if matches!(view.settings.after_failure, AfterFailure::Finish) {
                return Err(ErrorKind::WriteZero.into());
            }
            view.fail(rt)?;
        }
        if view.keyboard.is_used() {
            let _ = rt.eprintln(KEYS);
        }
        self.connections
            .run(&mut Watching { view, rt, out }, &mut events)
    }
}

impl<R: Net + Clock + Eprint + Files + Alloc, W: LiveSink> Service<Tapped> for Watching<'_, R, W> {
    fn admit(&mut self, client: Stream, registry: &Registry, tokens: Tokens) -> io::Result<Tapped> {
        self.view.drain.note_place(tokens.place);
        let number = self.view.next_number();
        self.view
            .print_connected(number, &client, self.rt, self.out);
        let admitted = self.view.connect(self.rt, client, number, registry, tokens);
        match &admitted {
            Ok(_) => {
                if let Some(stats) = &mut self.view.stats {
                    stats.open();
                }
            }
            Err(error) => {
                self.view.print_failure(number, error, self.rt, self.out);
                self.view.record_lost(number, self.rt);
            }
        }
        admitted
    }

    fn lose(&mut self) {
        let number = self.view.next_number();
        self.view
            .print_remark(number, Remark::NotConnected, b"", self.rt, self.out);
        self.view.record_lost(number, self.rt);
    }

    fn reject(&mut self) {
        let number = self.view.next_number();
        self.view
            .print_remark(number, Remark::Rejected, b"", self.rt, self.out);
        self.view.record_lost(number, self.rt);
    }

    fn begin_turn(&mut self) {
        if let Ok(now) = self.rt.monotonic() {
            self.view.now = now;
        }
    }

    fn note_ready(&mut self, connection: &mut Tapped, is_at_end: bool) {
        connection.note_ready(is_at_end);
    }

    fn visit(&mut self, connection: &mut Tapped, registry: &Registry) -> Next {
        self.view.visit(self.rt, connection, registry, self.out)
    }

    fn close(&mut self, connection: Tapped) {
        let mut connection = connection;
        connection.record_close(&mut self.view.recording, self.rt);
        if connection.is_connected() {
            self.view.print_gone(&connection, self.rt, self.out);
        }
        // Its descriptors are closed first.
        drop(connection);
        self.view.spare.keep(self.rt);
        if let Some(stats) = &mut self.view.stats {
            if stats.close() {
                self.view.print_table(self.rt, self.out);
            }
        }
    }

    fn accepts(&self) -> bool {
        !self.view.drain.has_begun() && (!self.view.is_silent || self.view.goes_on_accepting())
    }

    fn may_end(&self) -> bool {
        self.view.is_silent || !self.view.has_text() || self.view.drain.is_over()
    }

    fn patience(&self) -> Option<Duration> {
        let now = self.view.now;
        let of_ends = shorter(
            self.view.drain.patience(now),
            self.view.lingering.patience(now),
        );
        let of_clients = shorter(of_ends, self.view.pauses.patience(now));
        shorter(self.view.patience(), of_clients)
    }

    fn work(&mut self, registry: &Registry) -> io::Result<()> {
        let now = self.view.now;
        self.view.drain.look(self.rt, now);
        self.view.say_failure_of_recording(self.rt);
        let typed = self.view.keyboard.take(registry);
        if !self.view.is_silent && typed != Typed::Nothing {
            self.view.print_table(self.rt, self.out);
        }
        if !self.view.is_silent {
            self.view.go_on(self.rt, self.out);
        }
        if !self.view.is_silent && self.view.show(self.out).is_err() {
            return self.view.fail(self.rt);
        }
        match typed {
            Typed::End if self.view.is_silent => Err(ErrorKind::WriteZero.into()),
            Typed::End => Err(ErrorKind::Interrupted.into()),
            Typed::Nothing | Typed::Line => Ok(()),
        }
    }

    fn input_ready(&mut self, _is_at_end: bool) {
        self.view.keyboard.read();
    }

    fn next_due(&mut self) -> Option<usize> {
        let now = self.view.now;
        if let Some(place) = self.view.drain.next_place() {
            return Some(place);
        }
        match self.view.lingering.next_place(now) {
            Some(place) => Some(place),
            None => self.view.pauses.next_place(now),
        }
    }
}
