//! Whether connections to a server come back to the listener that forwards them.

ghost use Rattle.std.specs.Prelude.{◌≡◌, true};
ghost use Rattle.std.specs.Net.Socket.{socket_port};

use mio::net::TcpListener;
use std::fs::Files;
use std::io::ErrorKind;
use std::net::{IpAddr, Ipv4Addr, Ipv6Addr, Net, SocketAddr};
use std::os::unix::fs::MetadataExt;
use std::{fs, io};

/// Why nothing listens on the address of the server.
const COMES_BACK: &str = "connections to the server would come back to this address";

/// Fails if connections to the server would come back to this address to listen on.
///
/// # Errors
///
/// An error of kind `InvalidInput`.
pub(crate) fn check_server(
    net: &impl Net,
    server: SocketAddr,
    listening: SocketAddr,
) -> io::Result<()> {
    if comes_back(server, listening, is_own(net, server.ip())) {
        return Err(io::Error::new(ErrorKind::InvalidInput, COMES_BACK));
    }
    Ok(())
}

/// Fails if the path of a server leads to the socket at the path `listening`, which is removed then.
///
/// # Errors
///
/// An error of kind `InvalidInput`, or the error of the system if the socket can't be removed.
pub(crate) fn check_path(files: &impl Files, server: &str, listening: &str) -> io::Result<()> {
    if is_same_file(files, server, listening) {
        fs::remove_file(files, listening)?;
        return Err(io::Error::new(ErrorKind::InvalidInput, COMES_BACK));
    }
    Ok(())
}

/// Returns whether two paths lead to the same file.
fn is_same_file(files: &impl Files, one: &str, other: &str) -> bool {
    match (fs::metadata(files, one), fs::metadata(files, other)) {
        (Ok(one), Ok(other)) => one.dev() == other.dev() && one.ino() == other.ino(),
        _ => false,
    }
}

/// Returns whether an address is one of this machine's.
fn is_own(net: &impl Net, ip: IpAddr) -> bool {
    TcpListener::bind(net, SocketAddr::new(ip, 0)).is_ok()
}

/// Returns whether connections to `server` reach a listener on the address `listening`. `is_own`
/// says whether the address of the server is one of this machine's.
fn comes_back(server: SocketAddr, listening: SocketAddr, is_own: bool) -> bool
    ensures port { result ≡ true → socket_port server ≡ socket_port listening }
{
    server.port() == listening.port() && reaches(reached(server.ip()), listening.ip(), is_own)
}

/// Returns the address that connections to an address reach: the loopback address if it is
/// unspecified.
fn reached(ip: IpAddr) -> IpAddr {
    match ip.to_canonical() {
        IpAddr::V4(ip) if ip.is_unspecified() => IpAddr::V4(Ipv4Addr::LOCALHOST),
        IpAddr::V6(ip) if ip.is_unspecified() => IpAddr::V6(Ipv6Addr::LOCALHOST),
        ip => ip,
    }
}

/// Returns whether a connection to `ip` reaches a listener on the address `listening`. A listener
/// on `::` accepts connections to all addresses of this machine, and a listener on `0.0.0.0` those
/// to its addresses of IPv4.
fn reaches(ip: IpAddr, listening: IpAddr, is_own: bool) -> bool {
    ip == listening.to_canonical()
        || is_own && listening.is_unspecified() && (listening.is_ipv6() || ip.is_ipv4())
}
