//! The address of a listener in the words of a command line.

ghost use Rattle.std.specs.Prelude.{IfOk, OnErr};
ghost use Rattle.resp_cli_args.specs.Hosts.{IsListenText};

use crate::asked::NothingAsked;
use crate::options::address_of;
use crate::server_address::is_path;
use std::net::SocketAddr;

/// The address of a listener, as it was given.
#[derive(Clone, Copy)]
pub enum ListenAddress<'a> {
    /// An IP address and a port.
    Socket(SocketAddr),
    /// The path of a Unix socket.
    Path(&'a str),
}

/// Returns the address of a listener in a text, which was given for the argument `name`. A text
/// that begins with `/` or `./` is a path. A port alone means this machine.
pub(crate) fn listen_of<'a>(
    text: &'a str,
    name: &'a str,
) -> Result<ListenAddress<'a>, NothingAsked<'a>>
    ensures ok { IfOk result (IsListenText text.now) }
    ensures err { OnErr result ((address : ListenAddress) → IsListenText text.now address → ⊥) }
{
    if is_path(text) {
        return Ok(ListenAddress::Path(text));
    }
    match address_of(text, name) {
        Ok(address) => Ok(ListenAddress::Socket(address)),
        Err(nothing) => Err(nothing),
    }
}
