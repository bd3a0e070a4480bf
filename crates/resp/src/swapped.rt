//! A hint for a person who may have swapped the addresses of `tap` or `proxy`.

use crate::failures::Faults;
use crate::hosts::{addresses_of, listening_on};
use crate::server_stream::ServerStream;
use resp_cli_args::listen_address::ListenAddress;
use resp_cli_args::server_address::ServerAddress;
use resp_net::Address;
use resp_print::text::write_text;
use std::alloc::AllocError;
use std::io::{self, ErrorKind};
use std::time::Duration;

/// Writes below the line of an error that LISTEN comes before SERVER, if both seem to be swapped: LISTEN is
/// in use and accepts a connection, and SERVER accepts none.
///
/// # Errors
///
/// `AllocError` if an allocation fails.
pub(crate) fn write_order_hint(
    rt: &HostRuntime,
    listen: &ListenAddress<'_>,
    server: &ServerAddress<'_>,
    error: &io::Error,
    faults: &mut Faults<'_>,
) -> Result<(), AllocError> {
    if error.kind() != ErrorKind::AddrInUse {
        return Ok(());
    }
    let alloc = rt.alloc();
    let Ok(servers) = addresses_of(rt, alloc, server) else {
        return Ok(());
    };
    let listener = listening_on(alloc, listen)?;
    if accepts(rt, &[listener]) && !accepts(rt, servers.as_slice()) {
        let _ = write_text(
            &mut faults.lines,
            b"  were the addresses swapped? LISTEN comes first, then SERVER\n",
        );
    }
    Ok(())
}

/// Returns whether one of these addresses accepts a connection within a second.
fn accepts(rt: &HostRuntime, addresses: &[Address]) -> bool {
    ServerStream::connect(rt, addresses, Some(Duration::from_secs(1))).is_ok()
}
