//! The addresses of the server, and which of them is tried next.

use crate::own_address::{check_path, check_server};
use crate::spare::Spare;
use crate::stream::Stream;
use std::alloc::{AllocError, Global};
use std::fmt::{Display, Formatter, Write};
use std::fs::Files;
use std::io::ErrorKind;
use std::net::{Net, SocketAddr, ToSocketAddrs};
use std::{fmt, io};

/// An address of a server or of a listener.
#[derive(Debug, Drop)]
pub enum Address {
    /// An IP address and a port.
    Socket(SocketAddr),
    /// The path of a Unix socket.
    Path(String),
}

impl Address {
    /// Returns a copy.
    ///
    /// # Errors
    ///
    /// `AllocError` if an allocation fails.
    fn copy(&self) -> Result<Address, AllocError> {
        match self {
            Address::Socket(address) => Ok(Address::Socket(*address)),
            Address::Path(path) => Ok(Address::Path(path.clone()?)),
        }
    }
}

impl Display for Address {
    /// Writes the IP address and the port, or the path.
    fn fmt<W: Write>(&self, f: &mut Formatter<W>) -> fmt::Result {
        match self {
            Address::Socket(address) => write!(f, "{address}"),
            Address::Path(path) => write!(f, "{path}"),
        }
    }
}

/// A server with its addresses, which are tried in turn until one of them accepts a connection. The
/// next connection is tried at that address first.
#[derive(Drop)]
pub struct Backend {
    name: String,
    addresses: Vec<Address>,
    /// The host whose addresses they are, if they are looked up.
    host: Option<Host>,
    /// The address on which the program itself listens, if it is known.
    own: Option<Address>,
    /// The index of the address that is tried first.
    first: usize,
}

/// The name of a host, and a port.
#[derive(Drop)]
struct Host {
    name: String,
    port: u16,
}

/// An attempt to connect to one of the addresses of a server.
#[derive(Clone, Copy)]
pub struct Attempt {
    /// The index of the address.
    index: usize,
    /// The number of attempts after this one, which are at other addresses.
    left: usize,
}

impl Backend {
    /// Returns a server with these addresses, which are tried in this order. The name is used in
    /// lines about connections that can't be opened.
    pub fn new(name: String, addresses: Vec<Address>) -> Self {
        Backend {
            name,
            addresses,
            host: None,
            own: None,
            first: 0,
        }
    }

    /// Returns a server at this port of a host, whose addresses are not known before
    /// [`Backend::look_up`]. The name is used in lines about connections that can't be opened.
    pub fn at_host(alloc: Global, name: String, host: String, port: u16) -> Self {
        Backend {
            name,
            addresses: Vec::new(alloc),
            host: Some(Host { name: host, port }),
            own: None,
            first: 0,
        }
    }

    /// Returns whether the server has the name of a host, whose addresses are looked up.
    pub fn is_at_host(&self) -> bool {
        self.host.is_some()
    }

    /// Returns whether no address is known.
    pub fn is_empty(&self) -> bool {
        self.addresses.is_empty()
    }

    /// Looks up the addresses of the host, if the server has the name of a host. The system may wait for
    /// other machines meanwhile.
    ///
    /// # Errors
    ///
    /// The error of the system if it finds no address, an error of kind `InvalidInput` if the program
    /// itself listens on one of them, or an error of kind `OutOfMemory`. The addresses stay as they
    /// were.
    pub fn look_up<R: Net + Files>(&mut self, rt: &R, alloc: Global) -> io::Result<()> {
        let Some(host) = &self.host else {
            return Ok(());
        };
        let addresses = addresses_of(rt, alloc, host)?;
        match self.check_all(rt, &addresses) {
            Ok(()) => {
                self.addresses = addresses;
                self.first = 0;
                Ok(())
            }
            Err(error) => {
                drop(addresses);
                Err(error)
            }
        }
    }

    /// Returns a copy.
    ///
    /// # Errors
    ///
    /// `AllocError` if an allocation fails.
    pub fn copy(&self, alloc: Global) -> Result<Self, AllocError> {
        let mut addresses = Vec::new(alloc);
        for address in &self.addresses {
            addresses.push(address.copy()?)?;
        }
        let host = match &self.host {
            Some(host) => Some(host.copy()?),
            None => None,
        };
        let own = match &self.own {
            Some(own) => Some(own.copy()?),
            None => None,
        };
        Ok(Backend {
            name: self.name.clone()?,
            addresses,
            host,
            own,
            first: self.first,
        })
    }

    /// Returns the name of the server.
    pub fn name(&self) -> &str {
        self.name.as_str()
    }

    /// Fails if connections to one of the addresses would come back to this address, on which the
    /// caller has just begun to listen. The file of its Unix socket is removed then. Addresses that
    /// are looked up later are compared with it too.
    ///
    /// # Errors
    ///
    /// The error of the address, or an error of kind `InvalidInput`.
    pub fn check<R: Net + Files>(
        &mut self,
        rt: &R,
        listening: io::Result<Address>,
    ) -> io::Result<()> {
        self.own = Some(listening?);
        self.check_all(rt, &self.addresses)
    }

    /// Fails if a connection to one of the addresses would come back to the program itself.
    fn check_all<R: Net + Files>(&self, rt: &R, addresses: &[Address]) -> io::Result<()> {
        let Some(listening) = &self.own else {
            return Ok(());
        };
        for address in addresses {
            match (address, listening) {
                (Address::Socket(server), Address::Socket(listening)) => {
                    check_server(rt, *server, *listening)?;
                }
                (Address::Path(server), Address::Path(listening)) => {
                    check_path(rt, server.as_str(), listening.as_str())?;
                }
                _ => {}
            }
        }
        Ok(())
    }

    /// Returns the first attempt of a connection.
    pub fn first(&self) -> Attempt {
        Attempt {
            index: self.first,
            left: self.addresses.len().saturating_sub(1),
        }
    }

    /// Returns the attempt after one that failed, or `None` if each address was tried.
    pub fn after(&self, failed: Attempt) -> Option<Attempt> {
        let left = failed.left.checked_sub(1)?;
        let next = failed.index.saturating_add(1);
        let index = if next < self.addresses.len() { next } else { 0 };
        Some(Attempt { index, left })
    }

    /// Notes that the attempt has succeeded, so its address is tried first from now on.
    pub fn prefer(&mut self, attempt: Attempt) {
        self.first = attempt.index;
    }

    /// Returns the address of an attempt.
    ///
    /// # Errors
    ///
    /// An error of kind `AddrNotAvailable` if the server has no address.
    pub fn address(&self, attempt: Attempt) -> io::Result<&Address> {
        match self.addresses.get(attempt.index) {
            Some(address) => Ok(address),
            None => Err(ErrorKind::AddrNotAvailable.into()),
        }
    }

    /// Starts to connect to the server with this attempt, or with the next one that can be started.
    /// Returns that attempt with the connection.
    ///
    /// # Errors
    ///
    /// The error of the system for the last attempt.
    pub fn connect(
        &self,
        spare: &mut Spare,
        net: &impl Net,
        attempt: Attempt,
    ) -> io::Result<(Stream, Attempt)> {
        let mut attempt = attempt;
        for _ in 0..self.addresses.len() {
            match spare.connect(net, self.address(attempt)?) {
                Ok(stream) => return Ok((stream, attempt)),
                Err(error) => match self.after(attempt) {
                    Some(next) => attempt = next,
                    None => return Err(error),
                },
            }
        }
        Err(ErrorKind::AddrNotAvailable.into())
    }
}

impl Host {
    /// Returns a copy.
    fn copy(&self) -> Result<Host, AllocError> {
        Ok(Host {
            name: self.name.clone()?,
            port: self.port,
        })
    }
}

/// Returns the addresses of a host, at least one.
fn addresses_of(net: &impl Net, alloc: Global, host: &Host) -> io::Result<Vec<Address>> {
    let mut addresses = Vec::new(alloc);
    match add_addresses(net, host, &mut addresses) {
        Ok(()) => Ok(addresses),
        Err(error) => {
            drop(addresses);
            Err(error)
        }
    }
}

/// Appends the addresses of a host to others.
fn add_addresses(net: &impl Net, host: &Host, addresses: &mut Vec<Address>) -> io::Result<()> {
    for address in (host.name.as_str(), host.port).to_socket_addrs(net)? {
        addresses.push(Address::Socket(address))?;
    }
    if addresses.is_empty() {
        return Err(ErrorKind::AddrNotAvailable.into());
    }
    Ok(())
}
