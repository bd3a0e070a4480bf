//! Two clients and a server, with a cut at each byte.

use crate::cuts::Tally;
use anyhow::Result;
use resp_io::MemorySink;
use resp_proxy::{Client, Ending, Opening, Proxy, Setting, Settings};
use std::alloc::Global;

const FIRST: &[u8] = b"*2\r\n$3\r\nGET\r\n$1\r\na\r\n*1\r\n$4\r\nPING\r\n";

const SECOND: &[u8] = b"*2\r\n$3\r\nGET\r\n$1\r\nb\r\n";

/// The number of bytes of the first command of the first client.
const GET: usize = 20;

/// The replies if the second client's command is sent first.
const TO_SECOND_FIRST: &[u8] = b"$3\r\nonb\r\n$2\r\nof\r\n+PONG\r\n";

/// The replies if it is sent between the commands of the first client.
const TO_SECOND_BETWEEN: &[u8] = b"$2\r\nof\r\n$3\r\nonb\r\n+PONG\r\n";

/// The number of bytes that a sink takes.
const MOST: usize = 1_000;

/// Returns the bytes that wait for a client.
fn given(alloc: Global, proxy: &mut Proxy, client: &Client) -> Result<Vec<u8>> {
    let mut sink = MemorySink::new(alloc, MOST, MOST)?;
    let _ = proxy.give(client, &mut sink);
    Ok(sink.into_vec())
}

/// The first client is cut in its commands, and the server in its replies. The second client sends
/// between the two pieces of the first.
fn is_right(alloc: Global, cut: usize, server_cut: usize) -> Result<bool> {
    let mut proxy = Proxy::new(alloc, Settings::standard())?;
    let mut line = proxy.open_line(&Setting::first(alloc)?)?;
    // The first setting needs no command.
    let opening = Opening::new(alloc, line.setting(), b"", Ending::Setting)?;
    proxy.attach(&mut line, opening)?;
    let (mut first, mut second) = (proxy.open(&line)?, proxy.open(&line)?);
    proxy.from_client(&mut first, &FIRST[..cut])?;
    proxy.from_client(&mut second, SECOND)?;
    proxy.from_client(&mut first, &FIRST[cut..])?;
    let mut sink = MemorySink::new(alloc, MOST, MOST)?;
    let _ = proxy.send(&line, &mut sink);
    // The second client's command follows the commands of the first that ended before it.
    let (before, after) = FIRST.split_at(if cut < GET { 0 } else { GET });
    let is_sent = sink.bytes().len() == FIRST.len() + SECOND.len()
        && sink.bytes().starts_with(before)
        && sink.bytes()[before.len()..].starts_with(SECOND)
        && sink.bytes().ends_with(after);
    let replies = if cut < GET {
        TO_SECOND_FIRST
    } else {
        TO_SECOND_BETWEEN
    };
    proxy.from_server(&mut line, &replies[..server_cut])?;
    proxy.from_server(&mut line, &replies[server_cut..])?;
    let is_given = given(alloc, &mut proxy, &first)?.as_slice()
        == b"$2\r\nof\r\n+PONG\r\n".as_slice()
        && given(alloc, &mut proxy, &second)?.as_slice() == b"$3\r\nonb\r\n".as_slice();
    Ok(is_sent && is_given)
}

pub(crate) fn all(alloc: Global) -> Result<Tally> {
    let mut tally = Tally { cuts: 0, wrong: 0 };
    for cut in 0..FIRST.len() {
        for server_cut in 0..TO_SECOND_FIRST.len() {
            tally.add(is_right(alloc, cut, server_cut)?);
        }
    }
    Ok(tally)
}
