//! Rows that call `ask` with a client.

use super::devices::{Calls, Devices, Ending};
use crate::bounds;
use crate::cut::Cut;
use crate::spelling::{add_pushes, add_quoted, add_value, version_number};
use crate::text::{bytes, command, version_if_any};
use anyhow::Result;
use resp_client::Client;
use resp_io::device::MemorySink;
use resp_value::limits::Limits;
use resp_wire::ask::ask;
use resp_wire::{AskError, Request, Responses};
use std::alloc::{AllocError, Global};

/// A client with the requests of the next call.
#[derive(Drop)]
pub(crate) struct Asking {
    client: Client,
    requests: Vec<Request>,
}

fn new_client(alloc: Global) -> Client {
    Client::new(alloc, &Limits::standard())
}

/// Calls `ask` over a reader of this text, and returns the number of reads.
fn ask_once(
    devices: Devices,
    cut: Cut,
    client: &mut Client,
    requests: &[Request],
    text: &[u8],
    writer: &mut MemorySink,
    heard: &mut Responses,
) -> (Result<(), AskError>, u64) {
    let mut reader = devices.reader(text, cut);
    let answer = ask(&mut reader, writer, client, requests, heard, devices.turns);
    (answer, reader.calls())
}

impl Asking {
    pub(crate) fn new(alloc: Global) -> Asking {
        Asking {
            client: new_client(alloc),
            requests: Vec::new(alloc),
        }
    }

    /// Replaces the client with a new client with these limits.
    pub(crate) fn renew(&mut self, alloc: Global, limits: &str) -> Result<()> {
        self.client = Client::new(alloc, &bounds::limits(limits)?);
        Ok(())
    }

    /// Adds a command of the given words to the requests.
    pub(crate) fn queue(&mut self, alloc: Global, words: &str) -> Result<()> {
        self.requests
            .push(Request::Command(command(alloc, words)?))?;
        Ok(())
    }

    /// Adds a HELLO to the requests.
    pub(crate) fn queue_hello(&mut self, version: &str) -> Result<()> {
        self.requests
            .push(Request::Hello(version_if_any(version)?))?;
        Ok(())
    }

    /// Calls `ask` with the requests, and prints the bytes written, the replies and pushes
    /// received, and the result.
    pub(crate) fn ask(
        &mut self,
        alloc: Global,
        devices: Devices,
        text: &str,
        cut: Cut,
        calls: &mut Calls,
        said: &mut String,
    ) -> Result<()> {
        let text = bytes(alloc, text)?;
        let mut writer = devices.writer(alloc)?;
        let mut heard = Responses::new(alloc);
        let Asking { client, requests } = self;
        let (answer, reads) = ask_once(
            devices,
            cut,
            client,
            requests.as_slice(),
            text.as_slice(),
            &mut writer,
            &mut heard,
        );
        requests.clear();
        calls.reads = reads;
        calls.writes = writer.calls();
        say(said, answer, &heard, writer.bytes())?;
        Ok(())
    }

    /// Prints the number of commands that wait for a reply, the version, and the bytes that wait to
    /// be written.
    pub(crate) fn say_waiting(&self, said: &mut String) -> Result<()> {
        let waiting = self.client.waiting();
        let version = version_number(self.client.version());
        write!(said, "commands {waiting} version {version} ")?;
        add_quoted(said, "", self.client.out())?;
        Ok(())
    }

    /// Calls `ask` with the requests on a new client, and prints a short result.
    pub(crate) fn ask_one(
        &self,
        alloc: Global,
        devices: Devices,
        text: &[u8],
        said: &mut String,
    ) -> Result<(), AllocError> {
        let mut client = new_client(alloc);
        let mut heard = Responses::new(alloc);
        let mut writer = devices.writer(alloc)?;
        let requests = self.requests.as_slice();
        let (answer, reads) = ask_once(
            devices,
            Cut::Whole,
            &mut client,
            requests,
            text,
            &mut writer,
            &mut heard,
        );
        let writes = writer.calls();
        let ending = Ending {
            written: writer.bytes(),
            waits: client.out(),
            calls: Calls { reads, writes },
            turns: devices.turns,
        };
        say_shortly(said, answer, heard.replies.len(), ending)
    }
}

/// Prints the bytes written, the replies, the pushes and the result.
fn say(
    said: &mut String,
    answer: Result<(), AskError>,
    heard: &Responses,
    written: &[u8],
) -> Result<(), AllocError> {
    add_quoted(said, "wrote ", written)?;
    for (number, value) in &heard.replies {
        write!(said, "reply {number} ")?;
        add_value(said, value)?;
        said.push_str("\n")?;
    }
    add_pushes(said, heard.pushes.as_slice())?;
    add_end(said, answer)?;
    said.push_str("\n")
}

fn add_end(said: &mut String, answer: Result<(), AskError>) -> Result<(), AllocError> {
    match answer {
        Ok(()) => said.push_str("Done"),
        Err(error) => write!(said, "{error:?}"),
    }
}

/// Prints on one line the result, the number of replies, the bytes written, the bytes that still
/// wait to be written, and whether a turn is left.
fn say_shortly(
    said: &mut String,
    answer: Result<(), AskError>,
    replies: usize,
    ending: Ending<'_>,
) -> Result<(), AllocError> {
    add_end(said, answer)?;
    write!(said, ", replies {replies}")?;
    ending.add_texts(said)?;
    if ending.calls.reads == 0 {
        said.push_str(", no read")?;
    }
    ending.add_turns(said)
}
