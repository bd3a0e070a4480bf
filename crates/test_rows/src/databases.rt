//! Rows that run on a server of 16 databases.

use crate::bounds;
use crate::cut::{Cut, pieces};
use crate::spelling::add_quoted;
use crate::subject::Subject;
use crate::text::{self, number, split};
use anyhow::{Context, Result, bail};
use resp_server::{Client, Databases};
use resp_value::limits::Limits;
use std::alloc::{AllocError, Global};
use std::hash::{BuildHasherDefault, FoldHasher};

type TestDatabases = Databases<BuildHasherDefault<FoldHasher>>;

fn new_databases(alloc: Global, limits: Limits) -> Result<TestDatabases> {
    Ok(Databases::new(alloc, limits, BuildHasherDefault::new())?)
}

/// The server of a conversation and its clients. It begins with the standard limits and without a
/// client.
#[derive(Drop)]
pub(crate) struct Hosting {
    alloc: Global,
    databases: TestDatabases,
    clients: Vec<Client>,
}

impl Subject for Hosting {
    fn new(alloc: Global) -> Result<Self> {
        Ok(Hosting {
            alloc,
            databases: new_databases(alloc, Limits::standard())?,
            clients: Vec::new(alloc),
        })
    }

    fn is_cut(name: &str) -> bool {
        name == "bytes"
    }

    fn run(&mut self, name: &str, given: &str, cut: Cut, said: &mut String) -> Result<()> {
        match name {
            "limits" => {
                self.databases = new_databases(self.alloc, bounds::limits(given)?)?;
                Ok(())
            }
            "open" => self.open(said),
            "bytes" => self.bytes(given, cut, said),
            "take" => self.take(given, said),
            "out" => self.out(given, said),
            _ => bail!("an unknown row"),
        }
    }
}

impl Hosting {
    /// Opens a client and prints its id.
    fn open(&mut self, said: &mut String) -> Result<()> {
        let client = self.databases.open().context("no id is left")?;
        writeln!(said, "client {}", client.id())?;
        self.clients.push(client)?;
        Ok(())
    }

    /// Gives the server a text of a client in pieces.
    fn bytes(&mut self, given: &str, cut: Cut, said: &mut String) -> Result<()> {
        let (id, text) = split(given);
        let text = text::bytes(self.alloc, text)?;
        let client = client(&mut self.clients, id)?;
        for piece in pieces(self.alloc, text.as_slice(), cut)?.as_slice() {
            match self.databases.take(client, piece, usize::MAX) {
                Ok(used) if used == piece.len() => {}
                Ok(used) => writeln!(said, "took {used} of {}", piece.len())?,
                Err(AllocError) => said.push_str("out of memory\n")?,
            }
        }
        Ok(())
    }

    /// Gives the server a text of a client while at most a number of bytes wait, and prints how
    /// many bytes were used.
    fn take(&mut self, given: &str, said: &mut String) -> Result<()> {
        let (id, rest) = split(given);
        let (held, text) = split(rest);
        let text = text::bytes(self.alloc, text)?;
        let client = client(&mut self.clients, id)?;
        match self
            .databases
            .take(client, text.as_slice(), number(held)? as usize)
        {
            Ok(used) => writeln!(said, "took {used}")?,
            Err(AllocError) => said.push_str("out of memory\n")?,
        }
        Ok(())
    }

    /// Prints and removes the bytes that wait for a client, and whether it is closing.
    fn out(&mut self, given: &str, said: &mut String) -> Result<()> {
        let client = client(&mut self.clients, given)?;
        add_quoted(said, "", client.out())?;
        let length = client.out().len();
        client.sent(length);
        if client.is_closing() {
            said.push_str("closing\n")?;
        }
        Ok(())
    }
}

/// Returns the client of an id.
fn client<'a>(clients: &'a mut Vec<Client>, id: &str) -> Result<&'a mut Client> {
    let index = number(id)?.saturating_sub(1);
    clients.get_mut(index as usize).context("no such client")
}
