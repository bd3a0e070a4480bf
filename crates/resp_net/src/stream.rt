//! The socket of a connection, over TCP or a Unix socket.

ghost use Rattle.std.specs.Io.{ReadsAtMost, WritesAtMost};

use crate::backend::Address;
use mio::event::Source;
use mio::net::{TcpStream, UnixStream};
use mio::{Interest, Registry, Token};
use std::io;
use std::io::{Read, Write};
use std::net::{Net, Shutdown, SocketAddr};

/// The socket of a connection. Its reads and writes don't block.
#[derive(Drop)]
pub enum Stream {
    /// A connection over TCP.
    Tcp(TcpStream),
    /// A connection over a Unix socket.
    Unix(UnixStream),
}

impl Stream {
    /// Starts to connect to an address.
    ///
    /// # Errors
    ///
    /// The error of the system.
    pub fn connect(net: &impl Net, address: &Address) -> io::Result<Stream> {
        match address {
            Address::Socket(address) => Ok(Stream::Tcp(TcpStream::connect(net, *address)?)),
            Address::Path(path) => Ok(Stream::Unix(UnixStream::connect(net, path.as_str())?)),
        }
    }

    /// Sends the bytes of each write at once.
    ///
    /// # Errors
    ///
    /// The error of the system.
    pub(crate) fn send_at_once(&self) -> io::Result<()> {
        match self {
            Stream::Tcp(stream) => stream.set_nodelay(true),
            Stream::Unix(_) => Ok(()),
        }
    }

    /// Returns the address of the other end, or `None` if it is a Unix socket.
    ///
    /// # Errors
    ///
    /// The error of the system, which is of kind `NotConnected` while the connection is not open.
    pub fn peer_addr(&self) -> io::Result<Option<SocketAddr>> {
        match self {
            Stream::Tcp(stream) => Ok(Some(stream.peer_addr()?)),
            Stream::Unix(stream) => {
                stream.peer_addr()?;
                Ok(None)
            }
        }
    }

    /// Returns the error of the socket that was not returned yet, if there is one.
    ///
    /// # Errors
    ///
    /// The error of the system if it can't be read.
    pub(crate) fn take_error(&self) -> io::Result<Option<io::Error>> {
        match self {
            Stream::Tcp(stream) => stream.take_error(),
            Stream::Unix(stream) => stream.take_error(),
        }
    }

    /// Reads some bytes.
    fn read_some(&self, into: &mut [u8]) -> io::Result<usize>
        ensures { ReadsAtMost result into.new }
    {
        match self {
            Stream::Tcp(stream) => (&*stream).read(into),
            Stream::Unix(stream) => (&*stream).read(into),
        }
    }

    /// Writes some bytes.
    fn write_some(&self, from: &[u8]) -> io::Result<usize>
        ensures { WritesAtMost result from.now }
    {
        match self {
            Stream::Tcp(stream) => (&*stream).write(from),
            Stream::Unix(stream) => (&*stream).write(from),
        }
    }

    /// Shuts down a direction of the connection.
    ///
    /// # Errors
    ///
    /// The error of the system.
    pub fn shutdown(&self, how: Shutdown) -> io::Result<()> {
        match self {
            Stream::Tcp(stream) => stream.shutdown(how),
            Stream::Unix(stream) => stream.shutdown(how),
        }
    }
}

impl Read for &Stream {
    fn read(&mut self, into: &mut [u8]) -> io::Result<usize> {
        self.read_some(into)
    }
}

impl Write for &Stream {
    fn write(&mut self, from: &[u8]) -> io::Result<usize> {
        self.write_some(from)
    }

    fn flush(&mut self) -> io::Result<()> {
        Ok(())
    }
}

impl Source for Stream {
    fn register(
        &mut self,
        registry: &Registry,
        token: Token,
        interests: Interest,
    ) -> io::Result<()> {
        match self {
            Stream::Tcp(stream) => stream.register(registry, token, interests),
            Stream::Unix(stream) => stream.register(registry, token, interests),
        }
    }

    fn reregister(
        &mut self,
        registry: &Registry,
        token: Token,
        interests: Interest,
    ) -> io::Result<()> {
        match self {
            Stream::Tcp(stream) => stream.reregister(registry, token, interests),
            Stream::Unix(stream) => stream.reregister(registry, token, interests),
        }
    }

    fn deregister(&mut self, registry: &Registry) -> io::Result<()> {
        match self {
            Stream::Tcp(stream) => stream.deregister(registry),
            Stream::Unix(stream) => stream.deregister(registry),
        }
    }
}
