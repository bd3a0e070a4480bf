//! Standard output and standard error, which are written only as far as a write does not block.

ghost use Rattle.std.specs.Prelude.{◌≤◌, length, IfOk, IfSome};

use mio::unix::SourceFd;
use mio::{Events, Interest, Poll, Token};
use resp_io::live::LiveSink;
use std::alloc::Global;
use std::fs::{File, Files, OpenOptions};
use std::io;
use std::io::{ErrorKind, Write};
use std::net::Net;
use std::os::fd::{OwnedFd, RawFd};
use std::os::unix::net::UnixStream;
use std::time::Duration;

/// The bytes that a ready socket accepts without blocking.
const FEW: usize = 4_096;

/// The descriptor of standard output.
const STANDARD_OUTPUT: RawFd = 1;

/// The descriptor of standard error.
const STANDARD_ERROR: RawFd = 2;

/// Writes to standard output or to standard error without blocking.
#[derive(Drop)]
pub struct Terminal {
    descriptor: RawFd,
    poll: Poll,
    events: Events,
    /// Whether a write may block, as for a pipe or a terminal.
    may_wait: bool,
    /// A pipe or a terminal, reopened so that a write to it does not block.
    opened: Option<File>,
}

impl Terminal {
    /// Returns a `Terminal` over standard output. A pipe or a terminal is reopened. A socket can't
    /// be; it is asked before each write whether it accepts one.
    ///
    /// # Errors
    ///
    /// The error of the system, or an error of kind `OutOfMemory` if the allocation fails.
    pub fn new<R: Net + Files<File = File>>(rt: &R, alloc: Global) -> io::Result<Self> {
        Terminal::over(rt, alloc, STANDARD_OUTPUT)
    }

    /// Returns a `Terminal` over standard error, as [`Terminal::new`] does over standard output.
    ///
    /// # Errors
    ///
    /// The error of the system, or an error of kind `OutOfMemory` if the allocation fails.
    pub fn of_errors<R: Net + Files<File = File>>(rt: &R, alloc: Global) -> io::Result<Self> {
        Terminal::over(rt, alloc, STANDARD_ERROR)
    }

    /// Returns a `Terminal` over a descriptor.
    fn over<R: Net + Files<File = File>>(
        rt: &R,
        alloc: Global,
        descriptor: RawFd,
    ) -> io::Result<Self> {
        let poll = Poll::new(rt)?;
        let Ok(events) = Events::with_capacity(alloc, 1) else {
            return Err(ErrorKind::OutOfMemory.into());
        };
        let mut source = SourceFd(&descriptor);
        let registered = poll
            .registry()
            .register(&mut source, Token(0), Interest::WRITABLE);
        let may_wait = registered.is_ok();
        let opened = match may_wait {
            true => open_anew(rt, name_of(descriptor)).ok(),
            false => None,
        };
        Ok(Terminal {
            descriptor,
            poll,
            events,
            may_wait,
            opened,
        })
    }

    /// Returns whether a write may block, as for a pipe or a terminal. A write to a file does not.
    pub fn may_wait(&self) -> bool {
        self.may_wait
    }

    /// Writes some bytes from the beginning of `text`, as many as standard output accepts without
    /// blocking, and returns their number. It is 0 if no byte is accepted now.
    ///
    /// # Errors
    ///
    /// An error of kind `WriteZero` if a write fails.
    pub fn print<W: LiveSink>(&mut self, text: &[u8], out: &mut W) -> io::Result<usize>
        ensures within { IfOk result (λ count. count ≤ length text.now) }
    {
        match self.write_anew(text) {
            Some(Ok(count)) => return Ok(count),
            // The write below fails too, and `out` learns why.
            Some(Err(_)) => self.opened = None,
            None => {}
        }
        self.write_to(text, out)
    }

    /// Like `print`, but if a pipe has no reader, or a write to a terminal fails, the text counts
    /// as written. A reader that opens the pipe later gets what is printed after that.
    ///
    /// # Errors
    ///
    /// An error of kind `WriteZero` if a write to a file or a socket fails.
    pub fn print_or_drop<W: LiveSink>(&mut self, text: &[u8], out: &mut W) -> io::Result<usize>
        ensures within { IfOk result (λ count. count ≤ length text.now) }
    {
        match self.write_anew(text) {
            Some(Ok(count)) => Ok(count),
            Some(Err(_)) => Ok(text.len()),
            None => self.write_to(text, out),
        }
    }

    /// Writes some bytes from the beginning of `text` to standard error, as many as it accepts
    /// without blocking, and returns their number. If a write fails, the text counts as written. Call
    /// it for a `Terminal` over standard error.
    pub fn print_error(&mut self, text: &str, log: &impl Eprint) -> usize
        ensures within { result ≤ length text.now }
    {
        match self.write_anew(text.as_bytes()) {
            Some(Ok(count)) => return count,
            Some(Err(_)) => return text.len(),
            None => {}
        }
        if !self.is_ready() {
            return 0;
        }
        let _ = log.eprint(text);
        text.len()
    }

    /// Writes some bytes to the pipe or the terminal that was reopened, and returns their number,
    /// which is 0 if a write would block. Returns `None` if nothing was reopened.
    fn write_anew(&mut self, text: &[u8]) -> Option<io::Result<usize>>
        ensures within { IfSome result (λ written. IfOk written (λ count. count ≤ length text.now)) }
    {
        let Some(file) = &mut self.opened else {
            return None;
        };
        match file.write(text) {
            Ok(count) => Some(Ok(count.min(text.len()))),
            Err(error) if error.kind() == ErrorKind::WouldBlock => Some(Ok(0)),
            Err(error) => Some(Err(error)),
        }
    }

    /// Writes some bytes to `out` if the descriptor accepts them now.
    fn write_to<W: LiveSink>(&mut self, text: &[u8], out: &mut W) -> io::Result<usize>
        ensures within { IfOk result (λ count. count ≤ length text.now) }
    {
        if !self.is_ready() {
            return Ok(0);
        }
        let written = out.write(&text[..FEW.min(text.len())]);
        match (written, out.flush()) {
            (Ok(count), Ok(())) if count > 0 => Ok(count),
            _ => Err(ErrorKind::WriteZero.into()),
        }
    }

    /// Returns whether the descriptor accepts a write now.
    fn is_ready(&mut self) -> bool {
        let mut source = SourceFd(&self.descriptor);
        // After this call the system reports again that the descriptor is ready.
        let again = self
            .poll
            .registry()
            .reregister(&mut source, Token(0), Interest::WRITABLE);
        if again.is_err() {
            return true;
        }
        let polled = self
            .poll
            .poll(&mut self.events, Some(Duration::from_millis(0)));
        polled.is_ok() && self.events.iter().next().is_some()
    }
}

/// Returns the name with which a descriptor is reopened.
fn name_of(descriptor: RawFd) -> &'static str {
    if descriptor == STANDARD_ERROR {
        "/proc/self/fd/2"
    } else {
        "/proc/self/fd/1"
    }
}

/// Reopens a descriptor by its name. A write to the file that is returned does not block, and the
/// descriptor itself, which other programs may share, keeps its setting.
fn open_anew<R: Files<File = File>>(rt: &R, name: &str) -> io::Result<File> {
    let file = OpenOptions::new().write(true).open(rt, name)?;
    // The setting belongs to the open file, and only sockets have a call for it.
    let same = UnixStream::from(OwnedFd::from(file.try_clone()?));
    same.set_nonblocking(true)?;
    Ok(file)
}
