//! The socket of a listener, over TCP or at the path of a Unix socket.

use crate::backend::Address;
use crate::stream::Stream;
use mio::event::Source;
use mio::net::{TcpListener, UnixListener, UnixStream};
use mio::{Interest, Registry, Token};
use std::fs::Files;
use std::io::ErrorKind;
use std::net::Net;
use std::os::unix::fs::FileTypeExt;
use std::{fs, io};

/// A socket that accepts connections. Accepting one doesn't block.
#[derive(Drop)]
pub(crate) enum AcceptSocket {
    /// It accepts connections over TCP.
    Tcp(TcpListener),
    /// It accepts connections at a path.
    Unix { socket: UnixListener, path: String },
}

impl AcceptSocket {
    /// Listens on an address. If the address is a path, creates the file of the socket, and
    /// replaces the file of a socket that no program listens on.
    ///
    /// # Errors
    ///
    /// The error of the system. Its kind is `AddrInUse` if the address is in use, or if the path
    /// has another file.
    pub(crate) fn bind<R: Net + Files>(rt: &R, address: &Address) -> io::Result<Self> {
        match address {
            Address::Socket(address) => Ok(AcceptSocket::Tcp(TcpListener::bind(rt, *address)?)),
            Address::Path(path) => Ok(AcceptSocket::Unix {
                socket: bind_path(rt, path.as_str())?,
                path: path.clone()?,
            }),
        }
    }

    /// Returns the address that it listens on.
    ///
    /// # Errors
    ///
    /// The error of the system if it can't be read, or an error of kind `OutOfMemory`.
    pub(crate) fn address(&self) -> io::Result<Address> {
        match self {
            AcceptSocket::Tcp(socket) => Ok(Address::Socket(socket.local_addr()?)),
            AcceptSocket::Unix { path, .. } => Ok(Address::Path(path.clone()?)),
        }
    }

    /// Accepts a connection.
    ///
    /// # Errors
    ///
    /// The error of the system, which is of kind `WouldBlock` if no connection waits.
    pub(crate) fn accept(&self) -> io::Result<Stream> {
        match self {
            AcceptSocket::Tcp(socket) => {
                let (client, _) = socket.accept()?;
                Ok(Stream::Tcp(client))
            }
            AcceptSocket::Unix { socket, .. } => {
                let (client, _) = socket.accept()?;
                Ok(Stream::Unix(client))
            }
        }
    }

    /// Registers the socket in a registry.
    ///
    /// # Errors
    ///
    /// The error of the system.
    pub(crate) fn register(&mut self, registry: &Registry, token: Token) -> io::Result<()> {
        match self {
            AcceptSocket::Tcp(socket) => socket.register(registry, token, Interest::READABLE),
            AcceptSocket::Unix { socket, .. } => socket.register(
                registry,
                token,
                Interest::READABLE,
            ),
        }
    }
}

/// Listens at a path. A socket that nothing listens on is replaced.
///
/// # Errors
///
/// The error of the system.
fn bind_path<R: Net + Files>(rt: &R, path: &str) -> io::Result<UnixListener> {
    match UnixListener::bind(rt, path) {
        Err(error) if error.kind() == ErrorKind::AddrInUse && is_abandoned(rt, path) => {
            fs::remove_file(rt, path)?;
            UnixListener::bind(rt, path)
        }
        bound => bound,
    }
}

/// Returns whether the file at a path is a Unix socket that nothing listens on.
fn is_abandoned<R: Net + Files>(rt: &R, path: &str) -> bool {
    let Ok(file) = fs::symlink_metadata(rt, path) else {
        return false;
    };
    if !file.file_type().is_socket() {
        return false;
    }
    match UnixStream::connect(rt, path) {
        Ok(_) => false,
        Err(error) => error.kind() == ErrorKind::ConnectionRefused,
    }
}
