//! The devices of the program, why the last of their calls that failed did so, and the error messages.

use resp_cli_args::tool_error::ToolError;
use resp_cli_args::words::{refuse_connection, refuse_file};
use resp_cli_stream::explain::write_system_reason;
use resp_io::device::{DeviceFault, MemorySink};
use resp_net::cause_of;
use resp_print::text::write_text;
use std::alloc::{AllocError, Global};
use std::cell::Cell;
use std::io;
use std::io::{ErrorKind, Read, Write};

/// The greatest number of bytes of error messages.
const MOST_FAULTS: usize = 16_384;

/// Why reads and writes failed.
#[derive(Drop)]
pub struct Failures {
    read: Cell<Option<io::Error>>,
    write: Cell<Option<io::Error>>,
    is_closed: Cell<bool>,
    explains: Cell<bool>,
}

impl Failures {
    /// Returns the state before any failure. Errors are not explained.
    pub(crate) fn new() -> Self {
        Failures {
            read: Cell::new(None),
            write: Cell::new(None),
            is_closed: Cell::new(false),
            explains: Cell::new(false),
        }
    }

    /// Explains errors from here on, or not.
    pub(crate) fn set_explains(&self, explains: bool) {
        self.explains.set(explains);
    }

    /// Returns whether errors are explained.
    pub(crate) fn explains(&self) -> bool {
        self.explains.get()
    }

    /// Returns whether the last read failed because nothing came in its time.
    pub(crate) fn is_late(&self) -> bool {
        match self.read.get() {
            Some(error) => matches!(error.kind(), ErrorKind::WouldBlock | ErrorKind::TimedOut),
            None => false,
        }
    }

    /// Returns whether the reader of the output has closed it.
    pub(crate) fn is_output_closed(&self) -> bool {
        self.is_closed.get()
    }
}

/// The error messages, and why reads and writes failed.
#[derive(Drop)]
pub struct Faults<'a> {
    /// The lines for standard error.
    pub lines: MemorySink,
    pub failures: &'a Failures,
}

impl<'a> Faults<'a> {
    /// Returns no error messages.
    pub(crate) fn new(alloc: Global, failures: &'a Failures) -> Result<Self, AllocError> {
        Ok(Faults {
            lines: MemorySink::new(alloc, MOST_FAULTS, MOST_FAULTS)?,
            failures,
        })
    }

    /// Writes why a device failed, if errors are explained and `error` says that one failed.
    pub(crate) fn write_why(&mut self, alloc: Global, error: &ToolError) -> Result<(), AllocError> {
        let reason = match error {
            ToolError::Read => self.failures.read.get(),
            ToolError::Write => self.failures.write.get(),
            _ => None,
        };
        let Some(error) = reason else {
            return Ok(());
        };
        if self.failures.explains() {
            let why = format!(in alloc; "{error}")?;
            let _ = write_system_reason(why.as_str().as_bytes(), &mut self.lines);
        }
        Ok(())
    }

    /// Reports that a file or an address cannot be opened, and why. Returns the exit status.
    pub(crate) fn refuse_opening(
        &mut self,
        alloc: Global,
        name: &str,
        error: &io::Error,
    ) -> Result<u8, AllocError> {
        let why = reason_of(alloc, error)?;
        Ok(refuse_file(name, why.as_str(), &mut self.lines))
    }

    /// Reports that no connection to a server can be opened, and why. Returns the exit status.
    pub(crate) fn refuse_connection(
        &mut self,
        alloc: Global,
        server: &str,
        error: &io::Error,
    ) -> Result<u8, AllocError> {
        let why = reason_of(alloc, error)?;
        Ok(refuse_connection(server, why.as_str(), &mut self.lines))
    }

    /// Writes that a word is no value of an option, and then `wanted`: which option, and what it
    /// expects.
    pub(crate) fn write_bad_value(&mut self, word: &str, wanted: &[u8]) -> Result<(), DeviceFault> {
        write_text(&mut self.lines, b"error: invalid value '")?;
        write_text(&mut self.lines, word.as_bytes())?;
        write_text(&mut self.lines, wanted)?;
        write_text(
            &mut self.lines,
            b"\n\nFor more information, try '--help'.\n",
        )
    }
}

/// Returns why something cannot be opened.
pub(crate) fn reason_of(alloc: Global, error: &io::Error) -> Result<String, AllocError> {
    let cause = cause_of(error);
    format!(in alloc; "{cause}")
}

/// A reader that records why a read failed.
#[derive(Drop)]
pub struct WatchedInput<'a, R> {
    inner: R,
    failures: &'a Failures,
}

impl<'a, R> WatchedInput<'a, R> {
    /// Makes a reader over `inner`.
    pub(crate) fn new(inner: R, failures: &'a Failures) -> Self {
        WatchedInput { inner, failures }
    }
}

impl<R: Read> Read for WatchedInput<'_, R> {
    fn read(&mut self, into: &mut [u8]) -> io::Result<usize> {
        let result = self.inner.read(into);
        if let Err(error) = &result {
            self.failures.read.set(Some(*error));
        }
        result
    }
}

/// A writer that records why a write failed.
#[derive(Drop)]
pub struct WatchedOutput<'a, W> {
    inner: W,
    failures: &'a Failures,
}

impl<'a, W> WatchedOutput<'a, W> {
    /// Makes a writer over `inner`.
    pub(crate) fn new(inner: W, failures: &'a Failures) -> Self {
        WatchedOutput { inner, failures }
    }
}

impl<W: Write> Write for WatchedOutput<'_, W> {
    fn write(&mut self, from: &[u8]) -> io::Result<usize> {
        let result = self.inner.write(from);
        if let Err(error) = &result {
            self.failures.write.set(Some(*error));
        }
        result
    }

    fn flush(&mut self) -> io::Result<()> {
        self.inner.flush()
    }
}

/// Standard output. Beside the reason of a failed write, it records whether its reader has closed
/// it.
#[derive(Drop)]
pub struct StandardOutput<'a, W> {
    output: WatchedOutput<'a, W>,
}

impl<'a, W> StandardOutput<'a, W> {
    /// Makes a writer over `inner`.
    pub(crate) fn new(inner: W, failures: &'a Failures) -> Self {
        StandardOutput {
            output: WatchedOutput::new(inner, failures),
        }
    }
}

impl<W: Write> Write for StandardOutput<'_, W> {
    fn write(&mut self, from: &[u8]) -> io::Result<usize> {
        let result = self.output.write(from);
        if let Err(error) = &result {
            if error.kind() == ErrorKind::BrokenPipe {
                self.output.failures.is_closed.set(true);
            }
        }
        result
    }

    fn flush(&mut self) -> io::Result<()> {
        self.output.flush()
    }
}
