//! A source that keeps the last bytes of its stream and the place at which its last value begins.

ghost use Rattle.std.specs.Prelude.{◌≡◌, ◌≤◌, ◌+◌, ◌-◌, ◌++◌, ℕ, List, [], length, drop, take, IfOk, IfSome, IsErr, IsSome, false};
ghost use Rattle.resp_cli_stream.specs.Begun.{HasReadOrRefused, HavePassed};
ghost use Rattle.resp_cli_stream.specs.Explained.{AreAround, FindsPlace, HasWatched, HoldsLast, IsHeld, held_bytes, rules_watched};
ghost use Rattle.resp_io.specs.Live.{Records};
ghost use Rattle.resp_io.specs.Devices.{Reads, count_after, failures_after, last_count, read_fails};
ghost use Rattle.resp_fronts.specs.LeastCompletions.{IsLeast};
ghost use Rattle.resp_value.specs.Rules.{WithinTotal, rules_under};
ghost use Rattle.resp_value.specs.Spellings.{IsViable};

use crate::starts::Starts;
use bytes::BytesMut;
use resp_io::device::{DeviceFault, Source};
use resp_io::live::{LiveSink, LiveSource};
use resp_value::limits::Limits;
use resp_value::version::Version;
use std::alloc::Global;

/// The maximum number of bytes that are shown before a place, and from it on.
const SHOWN: usize = 16;

/// Reads from another source. It keeps the place at which the next value begins, the bytes of the
/// last read, and up to 16 bytes before them.
#[derive(Drop)]
pub struct PlacedSource<R> {
    inner: R,
    starts: Starts,
    held: BytesMut,
    // The number of the last bytes in `held` that were not scanned yet.
    fresh: usize,
    read: u64,
    is_lost: bool,
}

impl<R: Source + Drop> PlacedSource<R> {
    /// Returns a `PlacedSource` over a source, from its next byte on. The values are read in this
    /// version, within these limits.
    pub fn new(alloc: Global, inner: R, version: Version, limits: &Limits) -> PlacedSource<R>
        ensures nothing_read { HasWatched result [] }
        ensures rules { rules_watched result ≡ rules_under version limits.now }
        ensures same_source { result.inner ≡ inner }
        ensures sound { result.is_lost ≡ false }
        ensures nothing_held { held_bytes result ≡ 0 }
    {
        PlacedSource {
            inner,
            starts: Starts::new(version, limits),
            held: BytesMut::new(alloc),
            fresh: 0,
            read: 0,
            is_lost: false,
        }
    }
}

impl<R> PlacedSource<R> {
    /// Scans the bytes of the last read.
    pub(crate) fn settle(&mut self)
        ensures watched { (bytes : List ℕ) → HasWatched self.old bytes → HasWatched self.new bytes }
        ensures gone_through { (bytes : List ℕ) → HasWatched self.old bytes →
            self.new.is_lost ≡ false → HavePassed self.new.starts bytes }
        ensures same_rules { rules_watched self.new ≡ rules_watched self.old }
        ensures same_source { self.new.inner ≡ self.old.inner }
        ensures same_size { held_bytes self.new ≡ held_bytes self.old }
        ensures none_fresh { self.new.fresh ≡ 0 }
    {
        let fresh = last(self.held.as_slice(), self.fresh);
        if !self.starts.pass(fresh, u64::MAX) {
            self.is_lost = true;
        }
        self.fresh = 0;
    }

    /// Keeps the bytes of a read.
    fn keep(&mut self, bytes: &[u8])
        ensures watched { (before : List ℕ) → HasWatched self.old before →
            HasWatched self.new (before ++ bytes.now) }
        ensures same_rules { rules_watched self.new ≡ rules_watched self.old }
        ensures same_source { self.new.inner ≡ self.old.inner }
        ensures at_most { held_bytes self.new ≤ SHOWN + length bytes.now }
    {
        self.settle();
        let beyond = self.held.len().saturating_sub(SHOWN);
        self.held.advance(beyond);
        if self.held.extend_from_slice(bytes).is_err() {
            self.is_lost = true;
        }
        self.fresh = bytes.len();
        self.read = self.read.saturating_add(bytes.len() as u64);
    }

    /// Returns the index in the stream of byte `at` of a value. `value` is the number of the value,
    /// counted from 1. Returns `None` if an allocation failed before, or if the stream has fewer
    /// values.
    ///
    /// Call it only once, since it stops scanning at that value.
    pub(crate) fn place_of(&mut self, value: u64, at: u64) -> Option<u64>
        ensures place { (bytes : List ℕ) → HasWatched self.old bytes →
            IfSome result (FindsPlace self.old self.new bytes value at) }
        ensures holds { (bytes : List ℕ) → HasWatched self.old bytes →
            IsSome result → HoldsLast self.new bytes }
        ensures same_rules { rules_watched self.new ≡ rules_watched self.old }
        ensures same_size { held_bytes self.new ≡ held_bytes self.old }
    {
        if self.is_lost || value == 0 {
            return None;
        }
        if self.fresh > 0 {
            let fresh = last(self.held.as_slice(), self.fresh);
            let _ = self.starts.pass(fresh, value - 1);
        }
        if self.starts.values() != value - 1 {
            return None;
        }
        Some(self.starts.start().saturating_add(at))
    }

    /// Returns the first `at` bytes of the value that begins at [`Starts::start`], if all of them
    /// are in memory.
    pub(crate) fn front(&self, at: u64) -> Option<&[u8]>
        ensures front { (bytes begun : List ℕ) → HoldsLast self.now bytes →
            length bytes ≤ last_count → self.now.starts.start ≡ length begun →
            IfSome result (λ front. front.now ≡ take at (drop (length begun) bytes)) }
        ensures none { (bytes begun : List ℕ) → HoldsLast self.now bytes →
            self.now.starts.start ≡ length begun →
            IsHeld (held_bytes self.now) bytes begun at → IsSome result }
    {
        let held = self.held.as_slice();
        let first = self.read.checked_sub(held.len() as u64)?;
        let begin = self.starts.start().checked_sub(first)?;
        let end = begin.checked_add(at)?;
        if end > held.len() as u64 {
            return None;
        }
        Some(&held[begin as usize..end as usize])
    }

    /// Returns the least number of bytes that complete the value that was begun.
    pub(crate) fn missing(&self) -> u64
        ensures { (rest : List ℕ) → HasReadOrRefused self.now.starts.scanner rest →
            IsViable (rules_watched self.now) WithinTotal rest →
            IsLeast (rules_watched self.now) rest result }
    {
        self.starts.needed()
    }

    /// Returns up to 16 bytes before a place and up to 16 bytes from it on, as far as they were
    /// read. If the bytes at the place are no longer in memory, returns no bytes and `..`.
    pub(crate) fn around(&self, place: u64) -> (&[u8], &[u8])
        ensures { (bytes : List ℕ) → HoldsLast self.now bytes → length bytes ≤ last_count →
            AreAround (held_bytes self.now) bytes place result.0.now result.1.now }
    {
        let held = self.held.as_slice();
        let first = self.read.saturating_sub(held.len() as u64);
        let index = place.saturating_sub(first);
        if place < first || index > held.len() as u64 {
            return (b"", b"..");
        }
        let (before, after) = held.split_at(index as usize);
        (last(before, SHOWN), &after[..SHOWN.min(after.len())])
    }
}

/// Returns the last `count` bytes of a text, or all if it is shorter.
fn last(text: &[u8], count: usize) -> &[u8]
    ensures { result.now ≡ drop (length text.now - count) text.now }
{
    &text[text.len().saturating_sub(count)..]
}

impl<R: Source> Source for PlacedSource<R> {
    ghost remaining = { λ w. R.remaining w.inner };

    ghost calls = { λ w. R.calls w.inner };

    ghost failures = { λ w. R.failures w.inner };

    fn read(&mut self, into: &mut [u8]) -> Result<usize, DeviceFault>
        ensures within { IfOk result (λ n. n ≤ length into.old) }
        ensures bytes { Reads (R.remaining self.old.inner) (R.remaining self.new.inner) into.new
            result }
        ensures calls { R.calls self.new.inner ≡ count_after 1 (R.calls self.old.inner) }
        ensures failures { R.failures self.new.inner ≡
            failures_after (read_fails result) (R.failures self.old.inner) }
        ensures at_most { IfOk result (λ n. held_bytes self.new ≤ SHOWN + n) }
        ensures no_more { IsErr result → held_bytes self.new ≡ held_bytes self.old }
    {
        let count = self.inner.read(into)?;
        self.keep(&into[..count]);
        Ok(count)
    }
}

impl<R: LiveSource<W>, W: LiveSink> LiveSource<W> for PlacedSource<R> {
    ghost looks = { λ w. R.looks w.inner };

    fn read_beside(&mut self, into: &mut [u8], writer: &W) -> Result<usize, DeviceFault>
        ensures within { IfOk result (λ n. n ≤ length into.old) }
        ensures bytes { Reads (R.remaining self.old.inner) (R.remaining self.new.inner) into.new
            result }
        ensures calls { R.calls self.new.inner ≡ count_after 1 (R.calls self.old.inner) }
        ensures failures { R.failures self.new.inner ≡
            failures_after (read_fails result) (R.failures self.old.inner) }
        ensures looks { Records (R.looks self.old.inner) (R.looks self.new.inner) (record {
          left = R.remaining self.old.inner;
          sent = W.sent writer.now;
        }) }
        ensures watched { (before : List ℕ) → HasWatched self.old before →
            IfOk result (λ n. HasWatched self.new (before ++ take n into.new)) }
        ensures failed { IsErr result → (before : List ℕ) → HasWatched self.old before →
            HasWatched self.new before }
        ensures at_most { IfOk result (λ n. held_bytes self.new ≤ SHOWN + n) }
        ensures no_more { IsErr result → held_bytes self.new ≡ held_bytes self.old }
        ensures same_rules { rules_watched self.new ≡ rules_watched self.old }
    {
        let count = self.inner.read_beside(into, writer)?;
        self.keep(&into[..count]);
        Ok(count)
    }
}
