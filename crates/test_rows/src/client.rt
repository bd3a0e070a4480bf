//! Rows that run on a client.

mod hearing;
mod queueing;

use crate::bounds;
use crate::cut::{Cut, pieces};
use crate::subject::Subject;
use crate::text::bytes;
use anyhow::{Result, bail};
use resp_client::Client;
use resp_value::Limits;
use std::alloc::Global;

/// A client.
#[derive(Drop)]
pub(crate) struct Talker {
    alloc: Global,
    client: Client,
}

impl Subject for Talker {
    fn new(alloc: Global) -> Result<Talker> {
        Ok(Talker {
            alloc,
            client: Client::new(alloc, &Limits::standard()),
        })
    }

    fn is_cut(name: &str) -> bool {
        name == "hear" || name == "show"
    }

    fn run(&mut self, name: &str, given: &str, cut: Cut, said: &mut String) -> Result<()> {
        let alloc = self.alloc;
        let client = &mut self.client;
        match name {
            "client" => renew(alloc, client, given),
            "send" => queueing::send(alloc, client, given, said),
            "hello" => queueing::hello(client, given, said),
            "sent" => queueing::sent(client, given),
            "out" => queueing::out(client, said),
            "state" => queueing::state(client, said),
            "taken" => hearing::taken(client, said),
            "hear" | "show" | "feed" => hear(alloc, client, name, given, cut, said),
            _ => bail!("an unknown row"),
        }
    }
}

/// Feeds a text to the client: in pieces with or without a sink, or in one call.
fn hear(
    alloc: Global,
    client: &mut Client,
    name: &str,
    given: &str,
    cut: Cut,
    said: &mut String,
) -> Result<()> {
    let text = bytes(alloc, given)?;
    if name == "feed" {
        return hearing::feed(client, text.as_slice(), said);
    }
    let pieces = pieces(alloc, text.as_slice(), cut)?;
    if name == "hear" {
        return hearing::hear(client, pieces.as_slice(), said);
    }
    hearing::show(alloc, client, pieces.as_slice(), said)
}

/// `client LIMITS` begins a new client.
fn renew(alloc: Global, client: &mut Client, limits: &str) -> Result<()> {
    *client = Client::new(alloc, &bounds::limits(limits)?);
    Ok(())
}
