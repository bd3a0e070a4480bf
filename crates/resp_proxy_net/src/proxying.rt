//! The proxy over sockets: its loop, and its settings.

use crate::input_end::InputEnd;
use crate::learner::Learner;
use crate::proxied::Proxied;
use crate::relay::Relay;
use crate::report::Report;
use mio::Registry;
use resp_io::live::LiveSink;
use resp_net::backend::{Address, Backend};
use resp_net::closing;
use resp_net::event_loop::Loop;
use resp_net::register::register;
use resp_net::service::{Next, Service, Tokens, shorter};
use resp_net::stream::Stream;
use std::alloc::{AllocError, Global};
use std::fs::{File, Files};
use std::io;
use std::io::{ErrorKind, Read};
use std::net::Net;
use std::random::RandomSource;
use std::rt::Clock;
use std::time::Duration;

/// Shares one connection to a server among many clients. The contracts of [`resp_proxy::Proxy`]
/// state which bytes go where: each client gets the replies to its own commands, in order, and
/// nothing else.
///
/// A client is not read while the maximum number of its commands wait for replies, while too many
/// bytes wait for it, or while too many bytes wait for the server. Clients with much to do are
/// visited in turns. If the connection to the server is lost, each command of which a byte was sent
/// gets an error, and the others wait for the next connection. No command is sent twice.
#[derive(Drop)]
pub struct ProxyServer {
    connections: Loop<Proxied>,
    relay: Relay,
}

/// How a [`ProxyServer`] works.
#[derive(Clone, Copy)]
pub struct ProxySettings {
    /// The limits and bounds of the proxy.
    pub proxy: resp_proxy::Settings,
    /// The maximum number of clients at once.
    pub most: usize,
    /// The maximum number of clients at once that have a connection of their own.
    pub own: usize,
    /// A client that shares a connection is closed when more bytes than this wait for it.
    pub unread: usize,
    /// The maximum number of connections to the server that clients share, one for each setting,
    /// from 1 to 256.
    pub lines: usize,
    /// The time without a reply after which the connection to the server is given up, if a command
    /// waits. A connection that is not open after this time is given up too.
    pub patience: Duration,
    /// The time between two lines with numbers on standard output, if they are printed.
    pub report: Option<Duration>,
    /// Whether the proxy ends when standard input ends.
    pub drains: bool,
    /// The time after which it closes the clients that are still open.
    pub drain_timeout: Duration,
    /// The number of commands after which a probe checks the connection to the server, or 0 for no
    /// probes.
    pub check_every: u64,
}

/// A relay with the runtime, and the output to which its numbers are printed.
#[derive(Drop)]
struct Relaying<'a, R, I, W, L> {
    relay: &'a mut Relay,
    learner: L,
    report: Option<Report>,
    input: Option<InputEnd<I>>,
    rt: &'a R,
    out: &'a mut W,
}

impl ProxyServer {
    /// Listens on an address for clients of a server. `login` is the command AUTH
    /// that is sent first over each connection to the server, or empty.
    ///
    /// # Errors
    ///
    /// The error of the system if the address can't be opened, an error of kind `InvalidInput` if
    /// an address of the server is the address to listen on, or an error of kind `OutOfMemory` if
    /// an allocation fails.
    pub fn listen<R: Net + Files<File = File> + Alloc>(
        rt: &R,
        alloc: Global,
        address: &Address,
        backend: Backend,
        login: Vec<u8>,
        settings: ProxySettings,
    ) -> io::Result<Self> {
        let connections = Loop::listen(rt, alloc, address, settings.most)?;
        match relay_of(rt, alloc, connections.address(), backend, login, settings) {
            Ok(relay) => Ok(ProxyServer { connections, relay }),
            Err(error) => {
                drop(connections);
                Err(error)
            }
        }
    }

    /// Admits a command of this name, as [`resp_proxy::Proxy::admit`] does.
    ///
    /// # Errors
    ///
    /// `AllocError` if an allocation fails.
    pub fn admit(&mut self, name: &[u8]) -> Result<(), AllocError> {
        self.relay.admit(name)
    }

    /// Returns the address that the proxy listens on.
    ///
    /// # Errors
    ///
    /// The error of the system if it can't be read, or an error of kind `OutOfMemory` if an allocation
    /// fails.
    pub fn address(&self) -> io::Result<Address> {
        self.connections.address()
    }

    /// Serves all clients until waiting for them fails. It also ends once the last client is
    /// closed, after a SIGTERM or SIGINT that was blocked at the start, or, if the settings ask for
    /// that, after the end of `input`, which is standard input. Prints on standard error when the
    /// connection to the server is opened or lost. Calls `learner` each time that it is opened.
    ///
    /// # Errors
    ///
    /// The error of that wait, an error of the system if standard output can't be used, or an error
    /// of kind `OutOfMemory` if the first allocation fails.
    pub fn run<
        R: Net + Clock + Eprint + RandomSource + Files<File = File> + Alloc,
        I: Read + Drop,
        W: LiveSink,
        L: Learner + Drop,
    >(&mut self, rt: &R, input: I, out: &mut W, learner: L) -> io::Result<()> {
        let mut events = self.connections.events()?;
        let relay = &mut self.relay;
        let report = report_of(rt, relay.alloc, relay.settings.report)?;
        let input = if relay.settings.drains {
            Some(InputEnd::new(input))
        } else {
            None
        };
        let mut relaying = Relaying {
            relay,
            learner,
            report,
            input,
            rt,
            out,
        };
        self.connections.run(&mut relaying, &mut events)
    }
}

/// Returns the relay of a proxy that listens on this address.
fn relay_of<R: Net + Files<File = File> + Alloc>(
    rt: &R,
    alloc: Global,
    listening: io::Result<Address>,
    backend: Backend,
    login: Vec<u8>,
    settings: ProxySettings,
) -> io::Result<Relay> {
    let mut backend = backend;
    backend.check(rt, listening)?;
    Relay::new(rt, alloc, backend, login, settings)
}

/// Returns a report with a line at this interval, or `None` without an interval.
fn report_of<R: Net + Files<File = File>>(
    rt: &R,
    alloc: Global,
    every: Option<Duration>,
) -> io::Result<Option<Report>> {
    match every {
        Some(every) => Ok(Some(Report::new(rt, alloc, every)?)),
        None => Ok(None),
    }
}

impl<
    R: Net + Clock + Eprint + RandomSource + Files + Alloc,
    I: Read + Drop,
    W: LiveSink,
    L: Learner + Drop,
> Service<Proxied> for Relaying<'_, R, I, W, L> {
    fn admit(
        &mut self,
        client: Stream,
        registry: &Registry,
        tokens: Tokens,
    ) -> io::Result<Proxied> {
        let mut client = client;
        register(&mut client, registry, tokens.client)?;
        self.relay.open(client, tokens)
    }

    fn lose(&mut self) {
        self.relay.reject();
    }

    fn reject(&mut self) {
        self.relay.reject();
    }

    fn begin_turn(&mut self) {
        self.relay.look_at_clock(self.rt);
    }

    fn note_ready(&mut self, connection: &mut Proxied, is_at_end: bool) {
        connection.note_ready(is_at_end);
    }

    fn visit(&mut self, connection: &mut Proxied, registry: &Registry) -> Next {
        self.relay.visit(self.rt, connection, registry)
    }

    fn close(&mut self, connection: Proxied) {
        let stream = self.relay.close(connection);
        closing::close(&stream);
    }

    fn accepts(&self) -> bool {
        !self.relay.is_draining()
    }

    fn patience(&self) -> Option<Duration> {
        let now = self.relay.now();
        let of_relay = self.relay.patience();
        match &self.report {
            Some(report) => shorter(of_relay, report.patience(now)),
            None => of_relay,
        }
    }

    fn work(&mut self, registry: &Registry) -> io::Result<()> {
        if let Some(input) = &mut self.input {
            if input.is_file(registry) {
                self.relay.drain();
            }
        }
        self.relay.work(self.rt, registry);
        self.relay.learn(self.rt, &mut self.learner);
        if let Some(report) = &mut self.report {
            report.go_on(self.relay.now(), self.relay.numbers(), self.out);
        }
        Ok(())
    }

    fn input_ready(&mut self, is_at_end: bool) {
        if let Some(input) = &mut self.input {
            if input.has_come(is_at_end) {
                self.relay.drain();
            }
        }
    }

    fn ready(&mut self, number: usize, is_at_end: bool) {
        self.relay.ready(self.rt, number, is_at_end);
    }

    fn next_due(&mut self) -> Option<usize> {
        self.relay.next_due()
    }
}
