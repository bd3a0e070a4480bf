//! The connection of `ask`, of `proxy --check` and of `proxy --learn` to a server.

ghost use Rattle.std.specs.Io.{ReadsAtMost, WritesAtMost};

use resp_net::Address;
use std::io;
use std::io::{ErrorKind, Read, Write};
use std::net::TcpStream;
use std::os::unix::net::UnixStream;
use std::time::Duration;

/// An open connection to a server.
#[derive(Drop)]
pub enum ServerStream {
    /// Over TCP.
    Tcp(TcpStream),
    /// Over a Unix socket.
    Unix(UnixStream),
}

impl ServerStream {
    /// Connects to the first of these addresses that accepts a connection. With a timeout, each of
    /// them has this long to accept the connection, and each read that takes longer fails.
    ///
    /// # Errors
    ///
    /// The error of the last address, or an error of kind `AddrNotAvailable` if there is no address.
    pub(crate) fn connect(
        rt: &HostRuntime,
        addresses: &[Address],
        timeout: Option<Duration>,
    ) -> io::Result<Self> {
        let mut failed = ErrorKind::AddrNotAvailable.into();
        for address in addresses {
            match open(rt, address, timeout) {
                Ok(stream) => return Ok(stream),
                Err(error) => failed = error,
            }
        }
        Err(failed)
    }

    /// Reads some bytes.
    fn read_some(&self, into: &mut [u8]) -> io::Result<usize>
        ensures { ReadsAtMost result into.new }
    {
        match self {
            ServerStream::Tcp(stream) => (&*stream).read(into),
            ServerStream::Unix(stream) => (&*stream).read(into),
        }
    }

    /// Writes some bytes.
    fn write_some(&self, from: &[u8]) -> io::Result<usize>
        ensures { WritesAtMost result from.now }
    {
        match self {
            ServerStream::Tcp(stream) => (&*stream).write(from),
            ServerStream::Unix(stream) => (&*stream).write(from),
        }
    }
}

/// Connects to an address, and sends the bytes of each write at once.
fn open(
    rt: &HostRuntime,
    address: &Address,
    timeout: Option<Duration>,
) -> io::Result<ServerStream> {
    match address {
        Address::Socket(address) => {
            let stream = match timeout {
                Some(timeout) => TcpStream::connect_timeout(rt, address, timeout)?,
                None => TcpStream::connect(rt, *address)?,
            };
            let _ = stream.set_nodelay(true);
            stream.set_read_timeout(timeout)?;
            Ok(ServerStream::Tcp(stream))
        }
        Address::Path(path) => {
            let stream = UnixStream::connect(rt, path.as_str())?;
            stream.set_read_timeout(timeout)?;
            Ok(ServerStream::Unix(stream))
        }
    }
}

impl Read for &ServerStream {
    fn read(&mut self, into: &mut [u8]) -> io::Result<usize> {
        self.read_some(into)
    }
}

impl Write for &ServerStream {
    fn write(&mut self, from: &[u8]) -> io::Result<usize> {
        self.write_some(from)
    }

    fn flush(&mut self) -> io::Result<()> {
        Ok(())
    }
}
