//! The addresses of listeners and of servers, which may be given by the name of a host.

use crate::failures::{Faults, reason_of};
use resp_cli_args::listen_address::ListenAddress;
use resp_cli_args::server_address::ServerAddress;
use resp_cli_args::words::refuse_host;
use resp_net::{Address, Backend};
use std::alloc::{AllocError, Global};
use std::net::{Net, ToSocketAddrs};
use std::{env, io};

/// The environment variable with the password of the server.
const PASSWORD: &str = "RESP_PASSWORD";

/// Returns the password of the server, if the environment has one.
pub(crate) fn password_of(rt: &HostRuntime) -> Option<String> {
    env::var(rt, PASSWORD).ok()
}

/// Returns the address to listen on.
///
/// # Errors
///
/// `AllocError` if an allocation fails.
pub(crate) fn listening_on(
    alloc: Global,
    address: &ListenAddress<'_>,
) -> Result<Address, AllocError> {
    match *address {
        ListenAddress::Socket(address) => Ok(Address::Socket(address)),
        ListenAddress::Path(path) => Ok(Address::Path(String::from_str(alloc, path)?)),
    }
}

/// Returns the addresses of a server. The system looks up a name, and may wait for other machines.
///
/// # Errors
///
/// The error of the system if it finds no address, or an error of kind `OutOfMemory`.
pub(crate) fn addresses_of(
    net: &impl Net,
    alloc: Global,
    server: &ServerAddress<'_>,
) -> io::Result<Vec<Address>> {
    let mut addresses = Vec::new(alloc);
    match add_addresses(net, alloc, server, &mut addresses) {
        Ok(()) => Ok(addresses),
        Err(error) => {
            drop(addresses);
            Err(error)
        }
    }
}

/// Returns a server whose name is looked up whenever a connection to it is tried and none of its
/// addresses is known or accepts one.
///
/// # Errors
///
/// `AllocError` if an allocation fails.
pub(crate) fn backend_of(
    rt: &HostRuntime,
    server: &ServerAddress<'_>,
) -> Result<Backend, AllocError> {
    let alloc = rt.alloc();
    let name = name_of(alloc, server)?;
    let address = match *server {
        ServerAddress::Named { host, port } => {
            let host = String::from_str(alloc, host)?;
            return Ok(Backend::at_host(alloc, name, host, port));
        }
        ServerAddress::Socket(address) => Address::Socket(address),
        ServerAddress::Path(path) => Address::Path(String::from_str(alloc, path)?),
    };
    let mut addresses = Vec::new(alloc);
    match addresses.push(address) {
        Ok(()) => Ok(Backend::new(name, addresses)),
        Err(_) => Err(AllocError),
    }
}

/// Adds the addresses of a server behind others.
fn add_addresses(
    net: &impl Net,
    alloc: Global,
    server: &ServerAddress<'_>,
    addresses: &mut Vec<Address>,
) -> io::Result<()> {
    match *server {
        ServerAddress::Socket(address) => add(addresses, Address::Socket(address)),
        ServerAddress::Named { host, port } => {
            for address in (host, port).to_socket_addrs(net)? {
                add(addresses, Address::Socket(address))?;
            }
            Ok(())
        }
        ServerAddress::Path(path) => {
            add(addresses, Address::Path(String::from_str(alloc, path)?))
        }
    }
}

/// Adds an address behind others.
fn add(addresses: &mut Vec<Address>, address: Address) -> io::Result<()> {
    addresses.push(address)?;
    Ok(())
}

/// Returns the name of a server for lines about it: the host and the port.
pub(crate) fn name_of(alloc: Global, server: &ServerAddress<'_>) -> Result<String, AllocError> {
    match server {
        ServerAddress::Socket(address) => format!(in alloc; "{address}"),
        ServerAddress::Named { host, port } => format!(in alloc; "{host}:{port}"),
        ServerAddress::Path(path) => format!(in alloc; "{path}"),
    }
}

/// Reports that the system found no address of a server, and why. Returns the exit status.
pub(crate) fn refuse_server(
    alloc: Global,
    server: &ServerAddress<'_>,
    error: &io::Error,
    faults: &mut Faults<'_>,
) -> Result<u8, AllocError> {
    let why = reason_of(alloc, error)?;
    let host = match server {
        ServerAddress::Socket(address) => format!(in alloc; "{address}")?,
        ServerAddress::Named { host, .. } => format!(in alloc; "{host}")?,
        ServerAddress::Path(path) => format!(in alloc; "{path}")?,
    };
    Ok(refuse_host(host.as_str(), why.as_str(), &mut faults.lines))
}
