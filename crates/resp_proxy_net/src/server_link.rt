//! The connection of the proxy to the server.

ghost use Rattle.std.specs.Prelude.{◌<◌, length};

use crate::arrival::{Arrival, Arrived, REJECTED, words_of};
use crate::pulse::Pulse;
use memchr::memrchr;
use mio::{Interest, Registry, Token};
use resp_io::device::Device;
use resp_net::backend::{Attempt, Backend};
use resp_net::non_blocking::{Input, Output};
use resp_net::register::register;
use resp_net::service::{FURTHER, shorter, token_of};
use resp_net::spare::Spare;
use resp_net::stream::Stream;
use resp_proxy::{
    AttachError, Ending, Opening, Proxy, ServerError, ServerLine, Setting, WriteOutcome,
};
use resp_schedule::{Attempts, Phase};
use std::alloc::{AllocError, Global};
use std::fs::Files;
use std::io::ErrorKind;
use std::net::Net;
use std::time::Duration;
use std::{io, mem};
use thiserror::Error;

/// The maximum number of reads and writes of the server before clients are visited.
const TURNS: usize = 16;

/// The seconds after a lookup of the server's name before the next one.
const LOOKED_UP: u64 = 10;

/// The number of the first of the connections over which a silent server is asked. No service is
/// told that a socket with such a number is ready: it only ends the wait, after which each of these
/// connections continues.
const ASKING: usize = FURTHER + 1;

/// Why no connection was opened, if the server rejected a command of another setting.
const REFUSED: &str = "the server rejected AUTH, HELLO or SELECT";

/// The command over the second connection to a silent server.
const PING: &[u8] = b"*1\r\n$4\r\nPING\r\n";

/// Why the connection to the server was lost.
#[derive(Clone, Copy, Debug, PartialEq, Eq, Error)]
pub(crate) enum Loss {
    /// The server closed the connection.
    #[error("closed by the server")]
    Closed,
    /// A read failed.
    #[error("read failed")]
    Read,
    /// A write failed.
    #[error("write failed")]
    Write,
    /// No reply came in time.
    #[error("no reply in time")]
    Silence,
    /// The bytes of the server are not usable.
    #[error(transparent)]
    Server(ServerError),
}

impl Loss {
    /// Returns whether the server sent a reply that no command waited for.
    pub(crate) fn is_unasked(self) -> bool {
        matches!(self, Loss::Server(error) if is_unasked(error))
    }
}

/// The state of the connection to the server.
#[derive(Drop)]
enum LinkState {
    /// There is no connection.
    Down,
    /// A connection is pending, or is brought into the setting of the line.
    Opening(Arrival),
    /// The connection is open, and continues the line.
    Open(OpenConnection),
}

/// An open connection to the server.
#[derive(Drop)]
struct OpenConnection {
    stream: Stream,
    /// Whether a read may return bytes.
    may_read: bool,
    /// Whether the input may have ended.
    is_at_end: bool,
}

/// The connection to the server, and when it is tried again.
#[derive(Drop)]
pub(crate) struct ServerLink {
    alloc: Global,
    backend: Backend,
    /// The current attempt to connect, or the next one.
    attempt: Attempt,
    /// The number of the socket.
    number: usize,
    /// The command AUTH of the proxy's own user, or empty.
    login: Vec<u8>,
    /// The last error that the server sent although no command waited for a reply, or empty.
    unasked: Vec<u8>,
    spare: Spare,
    state: LinkState,
    /// When the connection is tried again, and when it is given up.
    attempts: Attempts,
    /// The second connection, over which a silent server is asked whether it is busy.
    pulse: Pulse,
    /// Whether the addresses of the server are looked up before the next attempt, if it has a name.
    is_stale: bool,
    /// The time of the last lookup.
    looked_up: Duration,
}

impl ServerLink {
    /// Returns a link to a server, before the first attempt to connect to it. `login` is the
    /// command AUTH of the proxy's own user, or empty, and `number` is that of the socket.
    pub(crate) fn new(
        alloc: Global,
        backend: Backend,
        number: usize,
        login: Vec<u8>,
        patience: Duration,
        spare: Spare,
    ) -> Self {
        let attempt = backend.first();
        ServerLink {
            alloc,
            backend,
            attempt,
            number,
            login,
            unasked: Vec::new(alloc),
            spare,
            state: LinkState::Down,
            attempts: Attempts::new(patience),
            pulse: Pulse::new(),
            is_stale: true,
            looked_up: Duration::from_millis(0),
        }
    }

    /// Returns whether the connection is open.
    pub(crate) fn is_open(&self) -> bool {
        self.attempts.is_open()
    }

    /// Uses a connection that has arrived in the setting of the line, if the link has none.
    ///
    /// # Errors
    ///
    /// The error of the system, or an error of kind `OutOfMemory` if a command that was sent over a
    /// lost connection waits for its reply. The connection is closed.
    pub(crate) fn adopt(
        &mut self,
        proxy: &Proxy,
        line: &mut ServerLine,
        arrival: Arrival,
        registry: &Registry,
    ) -> io::Result<()> {
        let (mut stream, opening) = arrival.into_parts();
        let interests = Interest::READABLE | Interest::WRITABLE;
        if let Err(error) = registry.reregister(&mut stream, token_of(self.number), interests) {
            drop(opening);
            return Err(error);
        }
        self.attach(proxy, line, stream, opening)
    }

    /// Lets a connection that is in the setting of the line continue the line.
    fn attach(
        &mut self,
        proxy: &Proxy,
        line: &mut ServerLine,
        stream: Stream,
        opening: Opening,
    ) -> io::Result<()> {
        match proxy.attach(line, opening) {
            Ok(()) => {
                self.attempts.open();
                self.set_state(LinkState::Open(OpenConnection::new(stream)));
                Ok(())
            }
            Err(error) => {
                drop(stream);
                Err(kind_of(error).into())
            }
        }
    }

    /// Sets the state, and drops the previous one.
    fn set_state(&mut self, state: LinkState) {
        drop(mem::replace(&mut self.state, state));
    }

    /// Returns the state, and leaves `Down` in its place.
    fn take_state(&mut self) -> LinkState {
        mem::replace(&mut self.state, LinkState::Down)
    }

    /// Returns the opening of a new connection in this setting.
    ///
    /// # Errors
    ///
    /// `AllocError` if an allocation fails.
    pub(crate) fn opening(
        &self,
        setting: &Setting,
        ending: Ending<'_>,
    ) -> Result<Opening, AllocError> {
        Opening::new(self.alloc, setting, &self.login, ending)
    }

    /// Returns the server.
    pub(crate) fn backend(&self) -> &Backend {
        &self.backend
    }

    /// Returns the command AUTH of the proxy's own user, or an empty text.
    pub(crate) fn login(&self) -> &[u8] {
        &self.login
    }

    /// Notes the current time.
    pub(crate) fn set_now(&mut self, now: Duration) {
        self.attempts.time = now;
    }

    /// Returns the current time.
    pub(crate) fn now(&self) -> Duration {
        self.attempts.time
    }

    /// Opens the spare descriptor again, if it is closed and one is left.
    pub(crate) fn keep_spare(&mut self, net: &impl Net) {
        self.spare.keep(net);
    }

    /// Returns whether no connection is open or pending.
    pub(crate) fn is_down(&self) -> bool {
        self.attempts.is_down()
    }

    /// Returns the time until the link has work to do although its socket is not ready. `waits`
    /// says whether a command waits for a reply.
    pub(crate) fn patience(&self, waits: bool) -> Option<Duration> {
        match &self.state {
            LinkState::Open(open) if open.may_read => Some(Duration::from_millis(0)),
            _ => shorter(self.attempts.time_left(waits), self.time_to_ask(waits)),
        }
    }

    /// Returns since when no reply has come, if a command has waited since then. `waits` says
    /// whether a command waits for a reply now.
    fn silent_since(&self, waits: bool) -> Option<Duration> {
        match self.attempts.phase {
            Phase::Open(quiet) if waits && quiet.waited && !quiet.replied => Some(quiet.since),
            _ => None,
        }
    }

    /// Returns the time until the server is asked whether it is busy: half of the patience after the
    /// beginning of a silence.
    fn time_to_ask(&self, waits: bool) -> Option<Duration> {
        let since = self.silent_since(waits)?;
        if self.pulse.was_asked(since) {
            return None;
        }
        let half = half_of(self.attempts.patience);
        Some(since.saturating_add(half).saturating_sub(self.now()))
    }

    /// Asks a silent server over a second connection whether it is busy, or continues to ask.
    /// Returns the words of the server if it is busy.
    pub(crate) fn ask(
        &mut self,
        net: &impl Net,
        registry: &Registry,
        setting: &Setting,
        waits: bool,
    ) -> Option<&str> {
        match self.silent_since(waits) {
            Some(since) => {
                if self.time_to_ask(waits) == Some(Duration::from_millis(0)) {
                    let arrival = self.begin_to_ask(net, registry, setting).ok();
                    self.pulse.ask(since, arrival);
                }
                self.pulse.go_on();
            }
            None => self.pulse.end(),
        }
        self.pulse.busy()
    }

    /// Starts a second connection to the server, for PING.
    fn begin_to_ask(
        &self,
        net: &impl Net,
        registry: &Registry,
        setting: &Setting,
    ) -> io::Result<Box<Arrival>> {
        let Ok(opening) = self.opening(setting, Ending::Command(PING)) else {
            return Err(ErrorKind::OutOfMemory.into());
        };
        let token = token_of(self.number.saturating_add(ASKING));
        let arrival = Arrival::begin(net, &self.backend, registry, token, opening)?;
        match Box::new(self.alloc, arrival) {
            Ok(arrival) => Ok(arrival),
            Err(failed) => {
                drop(failed.value);
                Err(ErrorKind::OutOfMemory.into())
            }
        }
    }

    /// Continues to wait for a busy server, as if a reply had come.
    pub(crate) fn bear(&mut self) {
        self.pulse.end();
        self.attempts.note_replies();
    }

    /// Notes that the socket is ready.
    pub(crate) fn note_ready(&mut self, is_at_end: bool) {
        if let LinkState::Open(open) = &mut self.state {
            open.may_read = true;
            open.is_at_end = open.is_at_end || is_at_end;
        }
    }

    /// Starts to connect to the server, to bring the connection into this setting, if there is no
    /// connection and the pause is over.
    ///
    /// # Errors
    ///
    /// The error of the system, or an error of kind `OutOfMemory`. The next attempt is made after a
    /// pause.
    pub(crate) fn connect<R: Net + Files>(
        &mut self,
        net: &R,
        registry: &Registry,
        setting: &Setting,
    ) -> io::Result<()> {
        if !self.attempts.may_begin() {
            return Ok(());
        }
        let begun = self.begin(net, registry, setting);
        if begun.is_err() {
            self.pause();
        }
        begun
    }

    /// Starts to connect to the server.
    fn begin<R: Net + Files>(
        &mut self,
        net: &R,
        registry: &Registry,
        setting: &Setting,
    ) -> io::Result<()> {
        self.look_up(net)?;
        let Ok(opening) = self.opening(setting, Ending::Setting) else {
            return Err(ErrorKind::OutOfMemory.into());
        };
        let token = token_of(self.number);
        match open(
            &mut self.spare,
            net,
            &self.backend,
            self.attempt,
            registry,
            token,
        ) {
            Ok((stream, attempt)) => {
                self.attempt = attempt;
                self.attempts.begin();
                self.set_state(LinkState::Opening(Arrival::new(stream, opening)));
                Ok(())
            }
            Err(error) => {
                drop(opening);
                Err(error)
            }
        }
    }

    /// Looks up the addresses of the server if it has a name, and no address is known, or no address
    /// could be connected to and the last lookup was at least ten seconds ago.
    fn look_up<R: Net + Files>(&mut self, rt: &R) -> io::Result<()> {
        let until = self
            .looked_up
            .saturating_add(Duration::from_secs(LOOKED_UP));
        let is_over = until.saturating_sub(self.now()).is_zero();
        if !self.backend.is_at_host() || !self.backend.is_empty() && !(self.is_stale && is_over) {
            return Ok(());
        }
        self.looked_up = self.now();
        self.backend.look_up(rt, self.alloc)?;
        self.attempt = self.backend.first();
        self.is_stale = false;
        Ok(())
    }

    /// Continues to open the pending connection, and to bring it into the setting of the line.
    /// Returns whether this call has opened it.
    ///
    /// # Errors
    ///
    /// The error of the system, an error of kind `TimedOut`, or an error of kind `PermissionDenied`
    /// if the server rejected the login. The next attempt is made after a pause.
    pub(crate) fn finish_connecting(
        &mut self,
        proxy: &Proxy,
        line: &mut ServerLine,
    ) -> io::Result<bool> {
        let LinkState::Opening(arrival) = &mut self.state else {
            return Ok(false);
        };
        match arrival.go_on() {
            Ok(Arrived::No) if self.attempts.is_late() => self.try_next(ErrorKind::TimedOut.into()),
            Ok(Arrived::No) => Ok(false),
            Ok(Arrived::Yes) => self.finish_login(proxy, line),
            Ok(Arrived::Rejected) => {
                let why = if self.number == 0 { REJECTED } else { REFUSED };
                let error = arrival.rejection(why);
                self.pause();
                Err(error)
            }
            Err(error) if arrival.is_open() => {
                self.pause();
                Err(error)
            }
            Err(error) => self.try_next(error),
        }
    }

    /// Tries the next address of the server at once, if the server did not accept the connection and
    /// this was not the last address.
    ///
    /// # Errors
    ///
    /// The error that the attempt failed with. The next attempt is made after a pause.
    fn try_next(&mut self, error: io::Error) -> io::Result<bool> {
        let was_open = match &self.state {
            LinkState::Opening(arrival) => arrival.is_open(),
            _ => true,
        };
        match self.backend.after(self.attempt) {
            Some(next) if !was_open => {
                self.attempt = next;
                self.attempts.begin_again();
                self.set_state(LinkState::Down);
                Ok(false)
            }
            _ => {
                self.is_stale = true;
                self.pause();
                Err(error)
            }
        }
    }

    /// Lets the connection that has arrived continue the line. Returns true.
    fn finish_login(&mut self, proxy: &Proxy, line: &mut ServerLine) -> io::Result<bool> {
        let LinkState::Opening(arrival) = self.take_state() else {
            return Ok(false);
        };
        self.backend.prefer(self.attempt);
        let (stream, opening) = arrival.into_parts();
        if let Err(error) = self.attach(proxy, line, stream, opening) {
            self.pause();
            return Err(error);
        }
        Ok(true)
    }

    /// Closes the connection. The next attempt is made after a pause, or at once if a reply came
    /// over this connection. It begins with the last address that accepted a connection.
    fn pause(&mut self) {
        self.attempt = self.backend.first();
        self.attempts.lose();
        self.set_state(LinkState::Down);
    }

    /// Reads replies and writes commands of this line until each call would block, or 16 of each were
    /// made.
    ///
    /// # Errors
    ///
    /// Why the connection was lost. It is closed.
    pub(crate) fn exchange(
        &mut self,
        proxy: &mut Proxy,
        line: &mut ServerLine,
        buffer: &mut [u8],
    ) -> Result<(), Loss>
        requires { 0 < length buffer.old }
    {
        let LinkState::Open(open) = &mut self.state else {
            return Ok(());
        };
        let before = proxy.waiting(line);
        let exchanged = open.exchange(proxy, line, buffer, &mut self.unasked);
        if proxy.waiting(line) < before {
            self.attempts.note_replies();
        }
        if exchanged.is_err() {
            self.pause();
        }
        exchanged
    }

    /// Returns the text of the error that the server sent while no command waited for a reply,
    /// before the connection was lost. The text is empty if the server sent no such error.
    pub(crate) fn unasked(&self) -> &str {
        words_of(&self.unasked)
    }

    /// Gives up the connection if commands wait and no reply has come for too long. `waits` says
    /// whether a command waits for a reply.
    ///
    /// # Errors
    ///
    /// `Silence` if the connection was given up.
    pub(crate) fn judge(&mut self, waits: bool) -> Result<(), Loss> {
        if self.attempts.gives_up(waits) {
            self.pause();
            return Err(Loss::Silence);
        }
        Ok(())
    }

    /// Writes commands of this line until a write would block, or 16 were made.
    ///
    /// # Errors
    ///
    /// Why the connection was lost. It is closed.
    pub(crate) fn send(&mut self, proxy: &mut Proxy, line: &ServerLine) -> Result<(), Loss> {
        let LinkState::Open(open) = &mut self.state else {
            return Ok(());
        };
        let sent = open.send(proxy, line);
        if sent.is_err() {
            self.pause();
        }
        sent
    }
}

impl OpenConnection {
    /// Returns a connection over which no command was sent.
    fn new(stream: Stream) -> Self {
        OpenConnection {
            stream,
            may_read: true,
            is_at_end: true,
        }
    }

    /// Reads replies and writes commands until each call would block, or 16 of each were made. Sets
    /// `unasked` to an error of the server that is the reply to no command.
    fn exchange(
        &mut self,
        proxy: &mut Proxy,
        line: &mut ServerLine,
        buffer: &mut [u8],
        unasked: &mut Vec<u8>,
    ) -> Result<(), Loss>
        requires { 0 < length buffer.old }
    {
        for _ in 0..TURNS {
            if !self.may_read {
                break;
            }
            self.visit(proxy, line, buffer, unasked)?;
        }
        self.send(proxy, line)
    }

    /// Makes one read and at most one write.
    fn visit(
        &mut self,
        proxy: &mut Proxy,
        line: &mut ServerLine,
        buffer: &mut [u8],
        unasked: &mut Vec<u8>,
    ) -> Result<(), Loss>
        requires { 0 < length buffer.old }
    {
        self.may_read = exchange(proxy, line, &self.stream, self.is_at_end, buffer, unasked)?;
        Ok(())
    }

    /// Writes commands until a write would block, or 16 were made.
    fn send(&mut self, proxy: &mut Proxy, line: &ServerLine) -> Result<(), Loss> {
        for _ in 0..TURNS {
            let mut writer = Device::new(Output::new(&self.stream));
            let written = proxy.send(line, &mut writer);
            let writer = writer.into_inner();
            if writer.has_failed() {
                return Err(Loss::Write);
            }
            if written == WriteOutcome::All || writer.would_wait() {
                return Ok(());
            }
        }
        Ok(())
    }
}

/// Reads bytes of the server over a line from its socket, and writes bytes that wait for it. Returns
/// whether another read may return bytes.
fn exchange(
    proxy: &mut Proxy,
    line: &mut ServerLine,
    stream: &Stream,
    is_at_end: bool,
    buffer: &mut [u8],
    unasked: &mut Vec<u8>,
) -> Result<bool, Loss>
    requires { 0 < length buffer.old }
{
    let mut reader = Device::new(Input::new(stream, is_at_end));
    let mut writer = Device::new(Output::new(stream));
    let visit = proxy.visit_server(line, &mut reader, &mut writer, buffer);
    proxy.settle_probes(line);
    let is_dry = reader.into_inner().would_wait();
    if writer.into_inner().has_failed() {
        return Err(Loss::Write);
    }
    match (visit.end, visit.read) {
        (Err(error), read) => {
            if is_unasked(error) {
                keep_last_line(unasked, &buffer[..buffer.len().min(read.unwrap_or(0))]);
            }
            Err(Loss::Server(error))
        }
        (Ok(()), Some(0)) => Err(Loss::Closed),
        (Ok(()), None) if !is_dry => Err(Loss::Read),
        _ => Ok(!is_dry),
    }
}

/// Returns the kind of the error for a connection that does not continue a line.
fn kind_of(error: AttachError) -> ErrorKind {
    match error {
        AttachError::Waits => ErrorKind::OutOfMemory,
        AttachError::NotAccepted | AttachError::OtherSetting => ErrorKind::NotConnected,
    }
}

/// Returns whether the server sent a reply that no command waits for.
fn is_unasked(error: ServerError) -> bool {
    error == ServerError::Unasked
}

/// Keeps the last line of some bytes of the server, if there is memory for it. Otherwise nothing is kept.
fn keep_last_line(kept: &mut Vec<u8>, bytes: &[u8]) {
    let bytes = bytes.strip_suffix(b"\r\n").unwrap_or(bytes);
    let begin = match memrchr(b'\n', bytes) {
        Some(place) => place.saturating_add(1),
        None => 0,
    };
    kept.clear();
    let _ = kept.extend_from_slice(bytes.get(begin..).unwrap_or(b""));
}

/// Returns half of a time, in whole milliseconds.
fn half_of(time: Duration) -> Duration {
    let of_seconds = time.as_secs().saturating_mul(500);
    Duration::from_millis(of_seconds.saturating_add(u64::from(time.subsec_millis() / 2)))
}

/// Starts a connection to a server with this attempt or a later one, and registers its socket.
fn open(
    spare: &mut Spare,
    net: &impl Net,
    backend: &Backend,
    attempt: Attempt,
    registry: &Registry,
    token: Token,
) -> io::Result<(Stream, Attempt)> {
    let (mut stream, attempt) = backend.connect(spare, net, attempt)?;
    register(&mut stream, registry, token)?;
    Ok((stream, attempt))
}
