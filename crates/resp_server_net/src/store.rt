//! The stores whose clients a server serves.

use resp_server::{Client, Databases, Hub};
use resp_value::limits::Limits;
use resp_wire::Sessions;
use std::alloc::{AllocError, Global};
use std::hash::BuildHasher;

/// A store that runs the commands of many clients. `C` is its type for a client.
pub trait Store<C>: Sessions<C> {
    /// Hashes the keys.
    type Hasher;

    /// Returns an empty store, whose clients send commands within these limits.
    fn make(alloc: Global, limits: Limits, hasher: Self::Hasher) -> Result<Self, AllocError>;

    /// Returns a new client, or `None` if an allocation fails.
    fn admit(&mut self) -> Option<C>;

    /// Forgets a client.
    fn part(&mut self, client: C);
}

/// A client is the id of its session.
impl<S: BuildHasher + Drop> Store<u64> for Hub<S> {
    type Hasher = S;

    fn make(alloc: Global, limits: Limits, hasher: S) -> Result<Self, AllocError> {
        Ok(Hub::new(alloc, limits, hasher))
    }

    fn admit(&mut self) -> Option<u64> {
        self.open().ok()
    }

    fn part(&mut self, client: u64) {
        let _ = self.close(client);
    }
}

impl<S: BuildHasher + Copy> Store<Client> for Databases<S> {
    type Hasher = S;

    fn make(alloc: Global, limits: Limits, hasher: S) -> Result<Self, AllocError> {
        Databases::new(alloc, limits, hasher)
    }

    fn admit(&mut self) -> Option<Client> {
        self.open()
    }

    fn part(&mut self, client: Client) {
        drop(client);
    }
}
