//! The store: keys with their values, in the order in which the keys were added.

ghost use Rattle.std.specs.Prelude.{◌≡◌, ◌*◌, ◌+◌, ◌<◌, ◌≤◌, ◌∷◌, [], ℕ, List, None, Some, Vec, length, slice_get, IfNone, IfSome, IsSome, OnOk, OnErr};
ghost use Rattle.std.proofs.Common.{Global};
ghost use Rattle.std.specs.Option.{option_map};
ghost use Rattle.resp_value.specs.Values.{content_bytes};
ghost use Rattle.indexmap.specs.IndexMap.{index_map_len, set_value_at};
ghost use Rattle.resp_server.specs.Entries.{AreInPlace, LosesRow, entries_in};
ghost use Rattle.resp_server.specs.declared.row.Row.{Row};
ghost use Rattle.resp_server.specs.Words.{words_left};
ghost use Rattle.resp_session.specs.Stores.{value_at, store_with, store_without};

use crate::entries::Entries;
use crate::row::Row;
use crate::stored::Stored;
use crate::words::Words;
use indexmap::IndexMap;
use resp_value::content::Content;
use std::alloc::{AllocError, Global};
use std::hash::BuildHasher;
use std::marker::Model;

/// Keys with their values. A new key goes last, and a key that is set again keeps its place. The
/// place of a removed key stays empty, so no other key moves, until more than half of the places
/// are empty. Then the empty places are removed.
#[derive(Drop)]
pub(crate) struct Store<S: BuildHasher> {
    /// The keys and their values, in no particular order.
    rows: IndexMap<Vec<u8>, Row, S>,
    /// The index of the row in each place, in order.
    places: Vec<Option<usize>>,
}

impl<S: BuildHasher> Model for Store<S> {
    ghost use Rattle.std.specs.Prelude.{ℕ, List};
    ghost use Rattle.resp_server.specs.Entries.{HoldsRows, entries_in};

    ghost Value = { List (List ℕ × List ℕ) };

    ghost view = { λ store. entries_in store.rows.entries store.places.items };

    ghost invariant = { λ store. HoldsRows store.rows.entries store.places.items };
}

impl<S: BuildHasher> Store<S> {
    /// Creates an empty store. Does not allocate.
    pub(crate) fn new(alloc: Global, hasher: S) -> Store<S>
        ensures { result ≡ [] }
    {
        Store {
            rows: IndexMap::with_hasher(alloc, hasher),
            places: Vec::new(alloc),
        }
    }

    /// Returns the value of a key.
    pub(crate) fn get(&self, key: &[u8]) -> Option<&Stored>
        ensures { option_map (λ stored. stored.now) result ≡ value_at self.now key.now }
    {
        match self.rows.get(key) {
            Some(row) => Some(&row.value),
            None => None,
        }
    }

    /// Returns the keys with their values, in order.
    pub(crate) fn entries(&self) -> Entries<'_>
        ensures { result ≡ self.now }
    {
        Entries::new(self.rows.as_slice(), self.places.as_slice())
    }

    /// Sets the value of a key, copying both. Changes nothing if an allocation fails.
    pub(crate) fn set(&mut self, key: &[u8], value: &[u8], alloc: Global) -> Result<(), AllocError>
        ensures set { OnOk result (self.new ≡ store_with self.old key.now value.now) }
        ensures unchanged { OnErr result (self.new ≡ self.old) }
    {
        let value = Content::new(Vec::from_slice(alloc, value)?);
        let Some(value) = self.replace(key, value) else {
            return Ok(());
        };
        let key = Content::new(Vec::from_slice(alloc, key)?);
        self.add(key, value)
    }

    /// Sets the value of an existing key. Returns the value if the key does not exist.
    fn replace(&mut self, key: &[u8], value: Content) -> Option<Content>
        ensures set { IfNone result
            (self.new ≡ store_with self.old key.now (content_bytes value)) }
        ensures back { IfSome result (λ back. content_bytes back ≡ content_bytes value) }
        ensures unchanged { IsSome result → self.new ≡ self.old }
        ensures not_there { IsSome result → value_at self.old key.now ≡ None }
    {
        let Some(index) = self.rows.get_index_of(key) else {
            return Some(value);
        };
        let Some(row) = self.rows.get_index_mut(index) else {
            unreachable!()
        };
        row.set(value);
        None
    }

    /// Adds a key that does not exist, with this value.
    fn add(&mut self, key: Content, value: Content) -> Result<(), AllocError>
        requires { value_at self.old (content_bytes key) ≡ None }
        ensures added { OnOk result (self.new ≡
            store_with self.old (content_bytes key) (content_bytes value)) }
        ensures unchanged { OnErr result (self.new ≡ self.old) }
    {
        let row = Row {
            place: self.places.len(),
            value: Stored::new(value),
        };
        if self.places.push(Some(self.rows.len())).is_err() {
            drop((key, row));
            return Err(AllocError);
        }
        let added = self.rows.insert(key.into_vec(), row);
        let is_added = added.is_ok();
        drop(added);
        if !is_added {
            self.places.pop();
            return Err(AllocError);
        }
        Ok(())
    }

    /// Removes the keys, and returns the number of keys that existed.
    pub(crate) fn remove(&mut self, mut keys: Words<'_>) -> u64
        ensures removed { self.new ≡ store_without self.old (words_left keys.entry) }
        ensures count { result + length self.new ≡ length self.old }
    {
        let mut removed = 0;
        for _ in 0..keys.len() {
            let Some(key) = keys.next() else {
                unreachable!()
            };
            removed += self.remove_key(key);
        }
        removed
    }

    /// Removes a key. Returns the number of keys removed, 0 or 1.
    fn remove_key(&mut self, key: &[u8]) -> u64
        ensures removed { self.new ≡ store_without self.old (key.now ∷ []) }
        ensures count { result + length self.new ≡ length self.old }
        ensures at_most_one { result ≤ 1 }
    {
        let Some(index) = self.rows.get_index_of(key) else {
            return 0;
        };
        remove_row(&mut self.rows, &mut self.places, index);
        close_up(&mut self.rows, &mut self.places);
        1
    }
}

/// Removes the row with this index, and empties its place.
fn remove_row<S: BuildHasher>(
    rows: &mut IndexMap<Vec<u8>, Row, S>,
    places: &mut Vec<Option<usize>>,
    index: usize,
)
    requires there { index < index_map_len rows.old }
    requires before { AreInPlace rows.old.entries places.old.items }
    ensures { LosesRow rows.old.entries rows.new.entries places.old.items places.new.items index }
{
    let Some(removed) = rows.swap_remove_index(index) else {
        unreachable!()
    };
    let place = removed.1.place;
    drop(removed);
    places[place] = None;
    // The row that was last now has this index.
    if let Some((_, moved)) = rows.get_index(index) {
        places[moved.place] = Some(index);
    }
}

/// Removes the empty places if they are more than half.
fn close_up<S: BuildHasher>(rows: &mut IndexMap<Vec<u8>, Row, S>, places: &mut Vec<Option<usize>>)
    requires { AreInPlace rows.old.entries places.old.items }
    ensures same { entries_in rows.new.entries places.new.items ≡
        entries_in rows.old.entries places.old.items }
    ensures in_place { AreInPlace rows.new.entries places.new.items }
    ensures few { length places.new.items ≤ 2 * length rows.new.entries + 1 }
{
    if places.len() / 2 <= rows.len() {
        return;
    }
    let mut filled = 0;
    for place in 0..places.len() {
        if let Some(index) = places[place] {
            places[filled] = Some(index);
            move_row(rows, index, filled);
            filled += 1;
        }
    }
    places.truncate(filled);
}

/// Stores in the row with this index that its key is in this place.
fn move_row<S: BuildHasher>(rows: &mut IndexMap<Vec<u8>, Row, S>, index: usize, place: usize)
    requires { index < index_map_len rows.old }
    ensures { (key : Vec ℕ Global) (row : Row) →
        slice_get rows.old.entries index ≡ Some (key, row) →
        rows.new.entries ≡ set_value_at rows.old.entries index (record row { place = place }) }
{
    let Some(row) = rows.get_index_mut(index) else {
        unreachable!()
    };
    row.place = place;
}
