//! A server that serves one connection after another.

use anyhow::Result;
use resp_io::device::Device;
use resp_server::Hub;
use resp_value::limits::Limits;
use resp_wire::serve::serve;
use std::alloc::Global;
use std::hash::RandomState;
use std::net::TcpListener;

/// The greatest number of reads and writes for a connection.
const TURNS: u64 = 4_000_000_000;

/// Serves each connection to this port, one after another. A client that disconnects in the middle
/// of a command ends only its own connection.
pub(crate) fn serve_clients(
    net: &HostRuntime,
    alloc: Global,
    hasher: RandomState,
    port: u16,
) -> Result<()> {
    let listener = TcpListener::bind(net, ("127.0.0.1", port))?;
    let mut hub = Hub::new(alloc, Limits::standard(), hasher);
    for stream in listener.incoming() {
        let stream = stream?;
        stream.set_nodelay(true)?;
        let id = hub.open()?;
        let _served = serve(
            &mut Device::new(&stream),
            &mut Device::new(&stream),
            &mut hub,
            id,
            TURNS,
        );
        hub.close(id)?;
    }
    Ok(())
}
