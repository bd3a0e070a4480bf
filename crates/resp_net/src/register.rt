//! Sockets of connections in the registry of the loop.

use crate::stream::Stream;
use mio::{Interest, Registry, Token};
use std::io;

/// Sends the bytes of each write at once, and registers the socket under its token.
///
/// # Errors
///
/// The error of the system.
pub fn register(stream: &mut Stream, registry: &Registry, token: Token) -> io::Result<()> {
    stream.send_at_once()?;
    registry.register(stream, token, Interest::READABLE | Interest::WRITABLE)
}
