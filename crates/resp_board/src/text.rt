//! Bytes that wait to be written.

ghost use Rattle.std.specs.Prelude.{◌≡◌, ◌++◌, ◌≤◌, [], length, drop, take, OnOk, OnErr};

use std::alloc::{AllocError, Global};
use std::marker::Model;

/// The least number of bytes for which memory is allocated, so that a row of short replies needs one
/// allocation.
const FIRST: usize = 256;

/// Bytes that are added at the end and removed at the front. It is smaller than a `BytesMut`, and
/// holds no memory while it is empty.
#[derive(Drop)]
pub(crate) struct Text {
    bytes: Vec<u8>,
    /// The number of bytes that were removed and are still in memory.
    start: usize,
}

impl Model for Text {
    ghost use Rattle.std.specs.Prelude.{List, ℕ, ◌≤◌, length, drop};

    ghost Value = { List ℕ };

    ghost view = { λ t. drop t.start t.bytes.items };

    ghost invariant = { λ t. t.start ≤ length t.bytes.items };
}

impl Text {
    /// Returns no bytes.
    pub(crate) fn new(alloc: Global) -> Text
        ensures { result ≡ [] }
    {
        Text {
            bytes: Vec::new(alloc),
            start: 0,
        }
    }

    /// Returns the bytes.
    pub(crate) fn as_slice(&self) -> &[u8]
        ensures { result.now ≡ self.now }
    {
        &self.bytes[self.start..]
    }

    /// Adds bytes at the end.
    pub(crate) fn append(&mut self, text: &[u8]) -> Result<(), AllocError>
        ensures added { OnOk result (self.new ≡ self.old ++ text.now) }
        ensures unchanged { OnErr result (self.new ≡ self.old) }
    {
        if self.bytes.is_empty() {
            self.bytes.reserve(FIRST)?;
        }
        self.bytes.extend_from_slice(text)
    }

    /// Returns the number of bytes.
    pub(crate) fn len(&self) -> usize
        ensures { result ≡ length self.now }
    {
        self.bytes.len() - self.start
    }

    /// Removes all bytes after the first `count`, which is at most the number of bytes.
    pub(crate) fn truncate(&mut self, count: usize)
        requires { count ≤ length self.old }
        ensures { self.new ≡ take count self.old }
    {
        self.bytes.truncate(self.start + count);
    }

    /// Removes the first `count` bytes. Bytes that stay are moved only if more were removed.
    pub(crate) fn advance(&mut self, alloc: Global, count: usize)
        requires { count ≤ length self.old }
        ensures { self.new ≡ drop count self.old }
    {
        self.start += count;
        let left = self.bytes.len() - self.start;
        if left == 0 {
            self.bytes = Vec::new(alloc);
            self.start = 0;
        } else if left <= self.start {
            self.bytes.copy_within(self.start.., 0);
            self.bytes.truncate(left);
            self.start = 0;
        }
    }
}
