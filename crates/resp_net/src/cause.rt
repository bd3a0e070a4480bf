//! Why a connection, a listener or a file can't be opened, in words.

use std::fmt::{Display, Formatter, Write};
use std::io::ErrorKind;
use std::{fmt, io};

/// The cause of an error, as the messages of the program name it.
#[derive(Clone, Copy)]
pub struct SystemCause<'a> {
    error: &'a io::Error,
}

/// Returns the cause of an error.
pub fn cause_of(error: &io::Error) -> SystemCause<'_> {
    SystemCause { error }
}

impl Display for SystemCause<'_> {
    /// Writes the words for a frequent cause that the system names by a number, and the text of the error for
    /// any other.
    fn fmt<W: Write>(&self, f: &mut Formatter<W>) -> fmt::Result {
        match (self.error.raw_os_error(), frequent(self.error.kind())) {
            (Some(_), Some(words)) => write!(f, "{words}"),
            _ => write!(f, "{}", self.error),
        }
    }
}

/// Returns the words for a frequent cause, and `None` for any other.
fn frequent(kind: ErrorKind) -> Option<&'static str> {
    match kind {
        ErrorKind::AddrInUse => Some("address in use"),
        ErrorKind::ConnectionRefused => Some("connection refused"),
        ErrorKind::HostUnreachable => Some("no route to host"),
        ErrorKind::NotFound => Some("no such file or directory"),
        ErrorKind::PermissionDenied => Some("permission denied"),
        ErrorKind::TimedOut => Some("timed out"),
        _ => None,
    }
}
