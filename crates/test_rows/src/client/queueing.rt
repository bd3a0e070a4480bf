//! Rows of the commands that a client queues.

use crate::spelling::{add_answer, add_quoted, version_number};
use crate::text::{command, number, version_if_any};
use anyhow::{Result, bail};
use resp_client::Client;
use std::alloc::Global;

/// `send WORD WORD ..` queues a command, and prints its number or the error.
pub(crate) fn send(
    alloc: Global,
    client: &mut Client,
    given: &str,
    said: &mut String,
) -> Result<()> {
    let command = command(alloc, given)?;
    add_answer(said, "", "refused: ", client.send(&command))?;
    Ok(())
}

/// `hello`, `hello 2` and `hello 3` queue HELLO, and print its number or the error.
pub(crate) fn hello(client: &mut Client, given: &str, said: &mut String) -> Result<()> {
    let asked = version_if_any(given)?;
    add_answer(said, "", "refused: ", client.hello(asked))?;
    Ok(())
}

/// `sent COUNT` removes this many waiting bytes.
pub(crate) fn sent(client: &mut Client, given: &str) -> Result<()> {
    let count = number(given)? as usize;
    if count > client.out().len() {
        bail!("fewer bytes wait to be sent");
    }
    client.sent(count);
    Ok(())
}

/// `out` prints the bytes that wait to be written.
pub(crate) fn out(client: &Client, said: &mut String) -> Result<()> {
    add_quoted(said, "", client.out())?;
    Ok(())
}

/// `state` prints the number of commands that wait for a reply, and the version.
pub(crate) fn state(client: &Client, said: &mut String) -> Result<()> {
    let version = version_number(client.version());
    writeln!(said, "waiting {}, version {version}", client.waiting())?;
    Ok(())
}
