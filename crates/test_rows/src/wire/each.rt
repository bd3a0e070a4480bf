//! Rows that run for each value of a number. Equal results of consecutive values are printed once.

use super::asking::Asking;
use super::devices::Devices;
use super::serving::serve_one;
use crate::text::{bytes, number, split};
use anyhow::Result;
use std::alloc::{AllocError, Global};

/// The end of a connection that is run.
#[derive(Clone, Copy)]
pub(crate) enum End<'a> {
    /// The end of a new client, with its requests.
    Client(&'a Asking),
    /// The end of a server, with a new session.
    Server,
}

/// Runs an end for each value of a number, from 0. A row gives the name of the number, its last
/// value, and the bytes to be read.
pub(crate) fn run(
    alloc: Global,
    end: End<'_>,
    devices: Devices,
    given: &str,
    said: &mut String,
) -> Result<()> {
    let (name, rest) = split(given);
    let (last, text) = split(rest);
    let last = number(last)? as usize;
    let text = bytes(alloc, text)?;
    let mut alike = Alike::new(alloc);
    for value in 0..=last {
        let mut devices = devices;
        devices.set(name, value)?;
        let line = run_once(alloc, end, devices, text.as_slice())?;
        alike.add(value, line, said)?;
    }
    alike.end(last.saturating_add(1), said)?;
    Ok(())
}

/// Returns the result of one run.
fn run_once(alloc: Global, end: End<'_>, devices: Devices, text: &[u8]) -> Result<String> {
    let mut line = String::new(alloc);
    match end {
        End::Client(asking) => asking.ask_one(alloc, devices, text, &mut line)?,
        End::Server => serve_one(alloc, devices, text, &mut line)?,
    }
    Ok(line)
}

/// The result that is the same for consecutive values, from one value on.
#[derive(Drop)]
struct Alike {
    from: usize,
    line: String,
}

impl Alike {
    /// Makes an empty state.
    fn new(alloc: Global) -> Alike {
        Alike {
            from: 0,
            line: String::new(alloc),
        }
    }

    /// Adds the result of the next value. Prints the earlier result if the new result differs.
    fn add(&mut self, value: usize, line: String, said: &mut String) -> Result<(), AllocError> {
        if line.as_str() != self.line.as_str() {
            self.end(value, said)?;
            self.from = value;
            self.line = line;
        }
        Ok(())
    }

    /// Prints the result of the values before this value.
    fn end(&self, value: usize, said: &mut String) -> Result<(), AllocError> {
        if self.from < value {
            write!(said, "{} to {}: {}", self.from, value - 1, self.line)?;
        }
        Ok(())
    }
}
