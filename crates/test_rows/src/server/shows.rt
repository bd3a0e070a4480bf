//! Rows that print the state of a hub.

use super::TestHub;
use crate::spelling::add_quoted;
use crate::text::{bytes, number};
use anyhow::Result;
use resp_server::NoSession;
use resp_value::version::Version;
use std::alloc::Global;

/// Prints the bytes that wait to be written.
pub(crate) fn out(hub: &TestHub, given: &str, said: &mut String) -> Result<()> {
    match hub.out(number(given)?) {
        Ok(text) => add_quoted(said, "", text)?,
        Err(NoSession) => said.push_str("NoSession\n")?,
    }
    Ok(())
}

pub(crate) fn closing(hub: &TestHub, given: &str, said: &mut String) -> Result<()> {
    said.push_str(match hub.is_closing(number(given)?) {
        Ok(true) => "closing\n",
        Ok(false) => "open\n",
        Err(NoSession) => "NoSession\n",
    })?;
    Ok(())
}

pub(crate) fn version(hub: &TestHub, given: &str, said: &mut String) -> Result<()> {
    said.push_str(match hub.version(number(given)?) {
        Ok(Version::Two) => "version 2\n",
        Ok(Version::Three) => "version 3\n",
        Err(NoSession) => "NoSession\n",
    })?;
    Ok(())
}

/// Prints the value of a key.
pub(crate) fn get(alloc: Global, hub: &TestHub, given: &str, said: &mut String) -> Result<()> {
    let key = bytes(alloc, given)?;
    match hub.get(key.as_slice()) {
        Some(value) => add_quoted(said, "", value)?,
        None => said.push_str("none\n")?,
    }
    Ok(())
}

/// Prints each key of the store with its value, and then their number.
pub(crate) fn entries(hub: &TestHub, said: &mut String) -> Result<()> {
    let mut count = 0u64;
    for (key, value) in hub.entries() {
        writeln!(said, "{}={}", key.escape_ascii(), value.escape_ascii())?;
        count = count.saturating_add(1);
    }
    writeln!(said, "keys {count}")?;
    Ok(())
}
