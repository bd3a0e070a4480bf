//! The entries of a hub's store, one after another.

ghost use Rattle.std.specs.Prelude.{◌≡◌, length};
ghost use Rattle.std.specs.Iterator.{at_most};
ghost use Rattle.std.specs.Map.Iter.{TakesFirst, deref_pair};
ghost use Rattle.resp_server.specs.Entries.{entries_in};

use crate::row::Row;
use indexmap::map::Slice;
use std::marker::Model;

/// An iterator over the keys of a hub's store with their values, in the order in which the keys
/// were added. It does not allocate.
#[derive(Drop)]
pub struct Entries<'a> {
    rows: Slice<'a, Vec<u8>, Row>,
    /// The places that are left.
    places: &'a [Option<usize>],
}

impl<'a> Model for Entries<'a> {
    ghost use Rattle.std.specs.Prelude.{ℕ, List};
    ghost use Rattle.resp_server.specs.Entries.{entries_in};

    ghost Value = { List (List ℕ × List ℕ) };

    ghost view = { λ entries. entries_in entries.rows entries.places.now };
}

impl<'a> Entries<'a> {
    /// Creates an iterator over the rows in the order of the places.
    pub(crate) fn new(rows: Slice<'a, Vec<u8>, Row>, places: &'a [Option<usize>]) -> Entries<'a>
        ensures { result ≡ entries_in rows.entry places.now }
    {
        Entries { rows, places }
    }
}

impl<'a> Iterator for Entries<'a> {
    type Item = (&'a [u8], &'a [u8]);

    ghost next_gives = { TakesFirst deref_pair };

    ghost remaining = { λ entries. at_most (length entries) };

    fn next(&mut self) -> Option<(&'a [u8], &'a [u8])> {
        while let Some((first, rest)) = self.places.split_first() {
            self.places = rest;
            if let Some(index) = first {
                if let Some((key, row)) = self.rows.get_index(*index) {
                    return Some((key.as_slice(), row.value.bytes()));
                }
            }
        }
        None
    }
}
