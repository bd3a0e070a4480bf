//! Rows that change a hub.

use super::TestHub;
use crate::cut::{Cut, pieces};
use crate::spelling::add_answer;
use crate::text::{self, number, split};
use anyhow::{Result, bail};
use resp_decode::decode_all;
use resp_server::{HubError, NoSession, OpenError};
use resp_value::limits::Limits;
use resp_value::value::Value;
use resp_value::version::Version;
use std::alloc::{AllocError, Global};

/// Opens one session, or the given number of sessions, and prints the id of the last.
pub(crate) fn open(hub: &mut TestHub, given: &str, said: &mut String) -> Result<()> {
    let count = if given.is_empty() { 1 } else { number(given)? };
    add_answer(said, "session ", "", open_each(hub, count))?;
    Ok(())
}

fn open_each(hub: &mut TestHub, count: u64) -> Result<u64, OpenError> {
    let mut last = 0;
    for _ in 0..count {
        last = hub.open()?;
    }
    Ok(last)
}

/// Sends a text to a session in pieces, and prints the number of commands that were run.
pub(crate) fn bytes(
    alloc: Global,
    hub: &mut TestHub,
    given: &str,
    cut: Cut,
    said: &mut String,
) -> Result<()> {
    let (id, text) = split(given);
    let text = text::bytes(alloc, text)?;
    let pieces = pieces(alloc, text.as_slice(), cut)?;
    let ran = feed(hub, number(id)?, pieces.as_slice());
    add_answer(said, "ran ", "", ran)?;
    Ok(())
}

/// Sends commands of the given words to a session, and prints the number of commands that were run.
pub(crate) fn run(alloc: Global, hub: &mut TestHub, given: &str, said: &mut String) -> Result<()> {
    let (id, commands) = split(given);
    let mut text = Vec::new(alloc);
    for words in commands.split(" ; ") {
        spell(alloc, text::words(alloc, words)?, &mut text)?;
    }
    let ran = feed(hub, number(id)?, &[text.as_slice()]);
    add_answer(said, "ran ", "", ran)?;
    Ok(())
}

/// Adds the text of a command of the given words.
fn spell(alloc: Global, words: Vec<Vec<u8>>, text: &mut Vec<u8>) -> Result<(), AllocError> {
    add_line(alloc, text, '*', words.len())?;
    for word in words.as_slice() {
        add_line(alloc, text, '$', word.len())?;
        text.extend_from_slice(word.as_slice())?;
        text.extend_from_slice(b"\r\n")?;
    }
    Ok(())
}

/// Adds the head of an array or of a bulk string.
fn add_line(alloc: Global, text: &mut Vec<u8>, mark: char, size: usize) -> Result<(), AllocError> {
    let head = format!(in alloc; "{mark}{size}\r\n")?;
    text.extend_from_slice(head.as_bytes())
}

/// Returns the number of commands that were run for these pieces.
fn feed(hub: &mut TestHub, id: u64, pieces: &[&[u8]]) -> Result<u64, HubError> {
    let mut count = 0u64;
    for piece in pieces {
        let handled = hub.bytes(id, piece)?;
        count = count.saturating_add(handled.commands);
    }
    Ok(count)
}

/// Removes the given number of waiting bytes, or all of them.
pub(crate) fn sent(hub: &mut TestHub, given: &str, said: &mut String) -> Result<()> {
    let (id, count) = split(given);
    let dropped = drop_sent(hub, number(id)?, number(count)?);
    add_answer(said, "dropped ", "", dropped)?;
    Ok(())
}

fn drop_sent(hub: &mut TestHub, id: u64, count: u64) -> Result<u64, NoSession> {
    let count = hub.out(id)?.len().min(count as usize);
    hub.sent(id, count)?;
    Ok(count as u64)
}

/// Queues a push of the values encoded in a text of version 3.
pub(crate) fn push(alloc: Global, hub: &mut TestHub, given: &str, said: &mut String) -> Result<()> {
    let (id, text) = split(given);
    let items = values(alloc, text)?;
    match hub.push(number(id)?, items.as_slice()) {
        Ok(()) => said.push_str("queued\n")?,
        Err(error) => writeln!(said, "{error:?}")?,
    }
    Ok(())
}

/// Returns the values encoded in a text. They may be nested deeper than a hub allows.
fn values(alloc: Global, text: &str) -> Result<Vec<Value>> {
    let text = text::bytes(alloc, text)?;
    let limits = Limits::new(128, 1_073_741_824, 1_099_511_627_776)?.with_doubles(true);
    match decode_all(alloc, Version::Three, &limits, text.as_slice()) {
        Ok(values) => Ok(values),
        Err(_) => bail!("no values"),
    }
}

pub(crate) fn close(hub: &mut TestHub, given: &str, said: &mut String) -> Result<()> {
    said.push_str(match hub.close(number(given)?) {
        Ok(()) => "closed\n",
        Err(NoSession) => "NoSession\n",
    })?;
    Ok(())
}
