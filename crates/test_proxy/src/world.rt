//! A proxy with two clients, and a server that replies to `GET` of a key by the key.

use crate::replay::{Fault, LENGTH, Replay, key_of};
use anyhow::{Context, Result};
use resp_io::{MemorySink, MemorySource};
use resp_proxy::{Client, Ending, Opening, Proxy, ServerLine, Setting, Settings};
use std::alloc::Global;

/// The bytes of a command around its key.
const BEFORE: &[u8] = b"*2\r\n$3\r\nGET\r\n$2\r\n";

const AFTER: &[u8] = b"\r\n";

/// The most bytes of one write.
const MOST: usize = 4_096;

/// A proxy, its clients, and its server.
#[derive(Drop)]
pub struct World {
    alloc: Global,
    proxy: Proxy,
    line: ServerLine,
    clients: Vec<Option<Client>>,
    /// The bytes that each client has got.
    got: Vec<Vec<u8>>,
    counts: [u8; 2],
    /// The bytes that the server has got over this connection.
    heard: Vec<u8>,
    /// The number of replies that it has sent over this connection.
    replied: usize,
    /// The keys of the commands that servers have got whole.
    keys: Vec<[u8; 2]>,
}

/// Lets a new connection continue a line in the first setting, which needs no command.
fn attach(alloc: Global, proxy: &Proxy, line: &mut ServerLine) -> Result<()> {
    let opening = Opening::new(alloc, line.setting(), b"", Ending::Setting)?;
    proxy.attach(line, opening)?;
    Ok(())
}

impl World {
    pub fn new(alloc: Global) -> Result<Self> {
        let mut proxy = Proxy::new(alloc, Settings::standard())?;
        let mut line = proxy.open_line(&Setting::first(alloc)?)?;
        attach(alloc, &proxy, &mut line)?;
        let mut clients = Vec::new(alloc);
        let mut got = Vec::new(alloc);
        for _ in 0..2 {
            clients.push(Some(proxy.open(&line)?))?;
            got.push(Vec::new(alloc))?;
        }
        Ok(World {
            alloc,
            proxy,
            line,
            clients,
            got,
            counts: [0; 2],
            heard: Vec::new(alloc),
            replied: 0,
            keys: Vec::new(alloc),
        })
    }

    /// A client that is there sends its next command.
    pub fn ask(&mut self, client: usize) -> Result<()> {
        let Some(asking) = &mut self.clients[client] else {
            return Ok(());
        };
        let mut text = BEFORE.to_vec(self.alloc)?;
        text.extend_from_slice(&key_of(client, self.counts[client]))?;
        text.extend_from_slice(AFTER)?;
        self.counts[client] += 1;
        let mut reader = MemorySource::new(text.as_slice(), MOST);
        let mut writer = MemorySink::new(self.alloc, MOST, MOST)?;
        let mut buffer = [0; 64];
        let _ = self
            .proxy
            .visit_client(asking, &mut reader, &mut writer, buffer.as_mut_slice());
        self.got[client].extend_from_slice(writer.bytes())?;
        Ok(())
    }

    /// The server takes at most `most` bytes.
    pub fn send(&mut self, most: usize) -> Result<()> {
        let mut writer = MemorySink::new(self.alloc, most, most)?;
        let _ = self.proxy.send(&self.line, &mut writer);
        let whole = self.heard.len() / LENGTH;
        self.heard.extend_from_slice(writer.bytes())?;
        for place in whole..self.heard.len() / LENGTH {
            let key = self.key_at(place).context("no command")?;
            self.keys.push(key)?;
        }
        Ok(())
    }

    /// Returns the key of a command that the server has got, if the bytes there are a command.
    fn key_at(&self, place: usize) -> Option<[u8; 2]> {
        let command = self.heard.get(LENGTH * place..LENGTH * (place + 1))?;
        let key = command.strip_prefix(BEFORE)?.strip_suffix(AFTER)?;
        Some([*key.first()?, *key.get(1)?])
    }

    /// The server replies to the first whole command without a reply, if there is one. Each client gets
    /// the bytes that wait for it.
    pub fn reply(&mut self) -> Result<()> {
        if self.heard.len() / LENGTH == self.replied {
            return Ok(());
        }
        let key = self.key_at(self.replied).context("no command")?;
        self.replied += 1;
        let mut text = b"$2\r\n".to_vec(self.alloc)?;
        text.extend_from_slice(&key)?;
        text.extend_from_slice(b"\r\n")?;
        self.proxy.from_server(&mut self.line, text.as_slice())?;
        self.give()
    }

    /// Gives each client the bytes that wait for it.
    fn give(&mut self) -> Result<()> {
        for place in 0..2 {
            if let Some(client) = &self.clients[place] {
                let mut writer = MemorySink::new(self.alloc, MOST, MOST)?;
                let _ = self.proxy.give(client, &mut writer);
                self.got[place].extend_from_slice(writer.bytes())?;
            }
        }
        Ok(())
    }

    pub fn suffer(&mut self, fault: Fault) -> Result<()> {
        match fault {
            Fault::Close(client) => {
                if let Some(client) = self.clients[client].take() {
                    self.proxy.close(client);
                }
                Ok(())
            }
            Fault::Lose => {
                self.proxy.lose(&mut self.line)?;
                attach(self.alloc, &self.proxy, &mut self.line)?;
                self.heard.clear();
                self.replied = 0;
                self.give()
            }
        }
    }

    /// Returns whether each client that is there got what the replay says, and no server got a command
    /// that a server had got before.
    pub fn agrees(&self, replay: &Replay) -> Result<bool> {
        for client in 0..2 {
            let mut due = Vec::new(self.alloc);
            replay.due_to(client, &mut due)?;
            if replay.is_there(client) && due.as_slice() != self.got[client].as_slice() {
                return Ok(false);
            }
        }
        for place in 0..self.keys.len() {
            if self.keys[..place].contains(&self.keys[place]) {
                return Ok(false);
            }
        }
        Ok(true)
    }
}
