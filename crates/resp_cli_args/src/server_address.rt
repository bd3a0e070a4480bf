//! The address of a server in the words of a command line.

ghost use Rattle.std.specs.Prelude.{◌↔◌, ℕ, All, List, IfNone, IfOk, IfSome, IsTrue, OnErr};
ghost use Rattle.resp_cli_args.specs.Hosts.{IsDigitByte, IsHost, IsHostText, IsHostByte, IsPath, IsServerText};

use crate::asked::NothingAsked;
use crate::options::{address_of, port_after};
use std::net::SocketAddr;

/// The default port of a server.
const USUAL_PORT: u16 = 6_379;

/// The address of a server, as it was given.
#[derive(Clone, Copy)]
pub enum ServerAddress<'a> {
    /// An IP address and a port.
    Socket(SocketAddr),
    /// The name of a host, and a port. The name may also be an IP address.
    Named {
        /// The name.
        host: &'a str,
        /// The port, which is 6379 if none was given.
        port: u16,
    },
    /// The path of a Unix socket.
    Path(&'a str),
}

/// Returns the address of a server in a text, which was given for the argument `SERVER`. A text
/// that begins with `/` or `./` is a path. A text may also be an IP address with a port, or a port
/// alone.
pub(crate) fn server_of<'a>(text: &'a str) -> Result<ServerAddress<'a>, NothingAsked<'a>>
    ensures ok { IfOk result (IsServerText text.now) }
    ensures err { OnErr result ((server : ServerAddress) → IsServerText text.now server → ⊥) }
{
    if is_path(text) {
        return Ok(ServerAddress::Path(text));
    }
    if let Ok(address) = address_of(text, "SERVER") {
        return Ok(ServerAddress::Socket(address));
    }
    match named(text) {
        Some((host, port)) => Ok(ServerAddress::Named { host, port }),
        None => Err(NothingAsked::BadServer { text }),
    }
}

/// Returns whether a text is the path of a Unix socket.
pub(crate) fn is_path(text: &str) -> bool
    ensures { IsTrue result ↔ IsPath text.now }
{
    matches!(text.as_bytes(), [b'/', ..] | [b'.', b'/', ..])
}

/// Returns the name of a host and the port in a text.
fn named<'a>(text: &'a str) -> Option<(&'a str, u16)>
    ensures some { IfSome result (λ named. IsHostText text.now named.0.now named.1) }
    ensures none { IfNone result ((host : List ℕ) (port : ℕ)
        → IsHostText text.now host port → ⊥) }
{
    let Some((host, port)) = text.split_once(':') else {
        if is_host(text) {
            return Some((text, USUAL_PORT));
        }
        return None;
    };
    if !is_host(host) {
        return None;
    }
    match port_after("", port) {
        Some(port) => Some((host, port)),
        None => None,
    }
}

/// Returns whether a text may be the name of a host.
fn is_host(text: &str) -> bool
    ensures { IsTrue result ↔ IsHost text.now }
{
    has_host_bytes(text.as_bytes()) && !is_number(text.as_bytes())
}

/// Returns whether each byte may be part of the name of a host.
fn has_host_bytes(bytes: &[u8]) -> bool
    ensures { IsTrue result ↔ All IsHostByte bytes.now }
{
    bytes.iter().all(is_host_byte)
}

/// Returns whether each byte is a digit.
fn is_number(bytes: &[u8]) -> bool
    ensures { IsTrue result ↔ All IsDigitByte bytes.now }
{
    bytes.iter().all(|byte| byte.is_ascii_digit())
}

/// Returns whether a byte may be part of the name of a host.
fn is_host_byte(byte: &u8) -> bool
    ensures { IsTrue result ↔ IsHostByte byte.now }
{
    byte.is_ascii_alphanumeric() || matches!(*byte, b'-' | b'_' | b'.')
}
