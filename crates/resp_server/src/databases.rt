//! A server of 16 databases, for tests of programs that need Redis.
//!
//! [`Databases`] has the stores, and a [`Client`] is what the server knows about a connection.
//! [`Databases::take`] takes the bytes of a client, runs each command in them once, in order, and
//! queues the replies. However the bytes are cut, each command has its outcome: the stores of all
//! databases, the state of its client, and its reply.

ghost use Rattle.std.specs.Prelude.{◌≡◌, ◌+◌, ◌≤◌, ◌↔◌, [], map, replicate, set, false, IfNone, IfOk, IfSome, IsNone};
ghost use Rattle.resp_value.specs.declared.version.Version.TheVariants.{Two};

pub(crate) mod client;
mod deed;
mod index;
mod options;
mod perform;
mod rejection;
mod reply;
mod take;

use crate::database::Database;
use crate::databases::client::Client;
use crate::databases::index::DATABASES;
use resp_frames::Frames;
use resp_value::limits::Limits;
use resp_value::version::Version;
use std::alloc::{AllocError, Global};
use std::hash::BuildHasher;
use std::marker::Model;
use std::mem;

/// 16 databases. `S` hashes the keys of their stores.
#[derive(Drop)]
pub struct Databases<S: BuildHasher> {
    pub(crate) alloc: Global,
    pub(crate) limits: Limits,
    hasher: S,
    /// Finds the commands of the clients.
    pub(crate) frames: Frames,
    pub(crate) list: Vec<Database<S>>,
    /// The last id that was given.
    last: u64,
}

impl<S: BuildHasher> Model for Databases<S> {
    ghost use Rattle.resp_server.specs.Servers.{ServerIsSound, ServerState, stores_in};

    ghost Value = { ServerState };

    ghost view = { λ server. record {
      limits = server.limits;
      stores = stores_in server.list.items;
      last = server.last;
    } };

    ghost invariant = { λ server. ServerIsSound server.limits server.list.items server.frames };
}

impl<S: BuildHasher + Copy> Databases<S> {
    ghost use Rattle.resp_server.specs.Doing.{standing_of, waiting_of};
    ghost use Rattle.resp_server.specs.Taking.{HasUnfinished};

    /// Returns 16 databases without keys. Commands are read and replies are written within these
    /// limits.
    ///
    /// # Errors
    ///
    /// `AllocError` if an allocation fails.
    pub fn new(alloc: Global, limits: Limits, hasher: S) -> Result<Self, AllocError>
        ensures empty { IfOk result (λ server. server ≡ record {
          limits = limits;
          stores = replicate 16 [];
          last = 0;
        }) }
    {
        let mut list = Vec::new(alloc);
        for _ in 0..DATABASES {
            list.push(Database::new(alloc, limits, hasher))?;
        }
        Ok(Databases {
            alloc,
            limits,
            hasher,
            frames: Frames::new(alloc, Version::Two, &limits)?,
            list,
            last: 0,
        })
    }

    /// Returns a client in version 2 and database 0, without a name. The ids are 1, 2, 3 and so on,
    /// and no id is given twice. Returns `None` after 9,223,372,036,854,775,807 clients. Does not
    /// allocate.
    pub fn open(&mut self) -> Option<Client>
        ensures client { IfSome result (λ client. standing_of client ≡ record {
          id = self.old.last + 1;
          version = Two;
          database = 0;
          name = [];
          closing = false;
        }) }
        ensures nothing_waits { IfSome result (λ client. waiting_of client ≡ []) }
        ensures nothing_begun { IfSome result (λ client.
            HasUnfinished self.old.limits client []) }
        ensures given { IfSome result (λ client.
            self.new ≡ record self.old { last = self.old.last + 1 }) }
        ensures used_up { IsNone result ↔ (9223372036854775807 ≤ self.old.last) }
        ensures unchanged { IfNone result (self.new ≡ self.old) }
    {
        if self.last >= 9_223_372_036_854_775_807 {
            return None;
        }
        self.last += 1;
        Some(Client::new(self.alloc, self.last))
    }

    /// Removes all keys of the database of this number.
    pub(crate) fn flush(&mut self, index: usize)
        ensures { self.new ≡ record self.old { stores = set self.old.stores index [] } }
    {
        let empty = Database::new(self.alloc, self.limits, self.hasher);
        let Some(database) = self.list.get_mut(index) else {
            return;
        };
        drop(mem::replace(database, empty));
    }

    /// Removes all keys of all databases.
    pub(crate) fn flush_all(&mut self)
        ensures { self.new ≡ record self.old { stores = map (λ store. []) self.old.stores } }
    {
        let count = self.list.len();
        for index in 0..count {
            self.flush(index);
        }
    }
}
