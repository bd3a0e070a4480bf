//! A database: one store within limits, without sessions.

ghost use Rattle.std.specs.Prelude.{◌≡◌, ◌<◌, ◌≤◌, ◌^◌, ◌∷◌, [], length, IfNone, IfSome};
ghost use Rattle.std.specs.Option.{option_map};
ghost use Rattle.resp_session.specs.Fitting.{FitsStore};
ghost use Rattle.resp_session.specs.Operations.{operation_of};
ghost use Rattle.resp_session.specs.Stores.{effect_of, value_at};
ghost use Rattle.resp_server.specs.Outcomes.{keys_in};
ghost use Rattle.resp_server.specs.Running.{FitsWords, KeepsWithin, Runs};
ghost use Rattle.resp_server.specs.Words.{words_left};

use crate::operation::operation_of;
use crate::run::run;
use crate::store::Store;
use crate::words::Words;
use bytes::BytesMut;
use resp_scan::whole::CommandArguments;
use resp_session::laws;
use resp_value::limits::Limits;
use resp_value::version::Version;
use std::alloc::{AllocError, Global};
use std::hash::BuildHasher;

/// A store, and the limits within which its commands are read and its replies are written.
#[derive(Drop)]
pub(crate) struct Database<S: BuildHasher> {
    pub(crate) store: Store<S>,
    pub(crate) limits: Limits,
    pub(crate) alloc: Global,
}

impl<S: BuildHasher> Database<S> {
    /// Creates a database without a key. Does not allocate.
    pub(crate) fn new(alloc: Global, limits: Limits, hasher: S) -> Database<S>
        ensures store { result.store ≡ [] }
        ensures limits { result.limits ≡ limits }
    {
        Database {
            store: Store::new(alloc, hasher),
            limits,
            alloc,
        }
    }

    /// Returns the value of a key, or `None` if the store does not have the key.
    pub(crate) fn get(&self, key: &[u8]) -> Option<&[u8]>
        ensures { option_map (λ value. value.now) result ≡ value_at self.now.store key.now }
    {
        match self.store.get(key) {
            Some(stored) => Some(stored.bytes()),
            None => None,
        }
    }

    /// Returns how many of these keys exist, or `None` if there are 2^64 or more. A key that is
    /// named twice is counted twice.
    pub(crate) fn count(&self, keys: CommandArguments<'_>) -> Option<u64>
        ensures some { IfSome result (λ count. count ≡ length (keys_in self.now.store keys.entry)) }
        ensures none { IfNone result (2 ^ 64 ≤ length (keys_in self.now.store keys.entry)) }
    {
        let mut count = 0_u64;
        for key in keys {
            if self.get(key).is_some() {
                count = count.checked_add(1)?;
            }
        }
        Some(count)
    }

    /// Returns the number of keys, or `None` if there are 2^64 or more. Takes time for each of
    /// them.
    pub(crate) fn size(&self) -> Option<u64>
        ensures some { IfSome result (λ count. count ≡ length self.now.store) }
        ensures none { IfNone result (2 ^ 64 ≤ length self.now.store) }
    {
        let mut count = 0_u64;
        for _ in self.store.entries() {
            count = count.checked_add(1)?;
        }
        Some(count)
    }

    /// Runs the command of this name with these words after it, which the client of this id and
    /// version has sent, and appends the reply to `out`. HELLO may change the version.
    ///
    /// # Errors
    ///
    /// `AllocError` if an allocation fails. Then nothing is changed.
    #[inline(always)]
    pub(crate) fn run(
        &mut self,
        name: &[u8],
        arguments: Words<'_>,
        id: u64,
        version: &mut Version,
        out: &mut BytesMut,
    ) -> Result<(), AllocError>
        requires stored { FitsStore self.old.limits self.old.store }
        requires small { id < 2 ^ 63 }
        requires words { FitsWords self.old.limits (name.now ∷ words_left arguments) }
        ensures runs { Runs self.old.store self.new.store version.old version.new out.old.items
            out.new.items (effect_of self.old.store version.old id
            (operation_of name.now (words_left arguments.entry))) result }
        ensures within { KeepsWithin self.old.limits self.new.limits self.new.store out.old.items
            out.new.items }
    {
        laws::effects_fit();
        self.limits.are_in_range();
        let operation = operation_of(name, arguments);
        run(operation, self, id, version, out)
    }
}
