//! The bytes of one side of a connection, put together from segments.

ghost use Rattle.std.specs.Prelude.{◌≡◌, ◌≢◌, ◌⊎◌, ℕ, ◌+◌, ◌<◌, ◌≤◌, ◌^◌, [], ◌∷◌, ◌++◌, length, slice_index_or, IfErr, IfOk, IfSome, IfNone, OnErr, OnOk};
ghost use Rattle.std.specs.List.{IsAmong};
ghost use Rattle.resp_capture.specs.declared.held.WaitingPart.{WaitingPart};

use crate::error::StreamError;
use crate::held::WaitingPart;
use bytes::BytesMut;
use std::alloc::Global;
use std::marker::Model;

/// The maximum number of bytes that wait for bytes before them.
pub const MOST_BYTES: usize = 1_048_576;

/// The maximum number of parts that wait for bytes before them.
pub const MOST_PARTS: usize = 1_024;

/// The bytes of one side of a connection, put together from segments.
///
/// Each byte has a place, counted from 0 at the first byte of the side. The bytes are given in the
/// order of their places, each at most once. A segment after a gap waits until the bytes before it
/// have come. At most [`MOST_BYTES`] bytes in [`MOST_PARTS`] parts wait.
#[derive(Drop)]
pub struct Reassembly {
    alloc: Global,
    /// The sequence number of the byte at place 0.
    first: u32,
    /// The place of the next byte: the bytes before it were given, or are missing.
    next: u64,
    held: Vec<WaitingPart>,
    /// The number of bytes that wait.
    size: usize,
}

impl Model for Reassembly {
    ghost use Rattle.std.specs.Prelude.{◌≡◌, ◌≤◌, length};
    ghost use Rattle.resp_capture.specs.Streams.{StreamState, held_bytes};

    ghost Value = { StreamState };

    ghost view = { λ s. record { first = s.first; next = s.next; held = s.held.items } };

    ghost invariant = { λ s. (s.size ≡ held_bytes s.held.items) × (s.size ≤ 1048576) ×
        (length s.held.items ≤ 1024) };
}

/// What happened to a segment.
#[derive(Clone, Copy, Debug, PartialEq, Eq)]
pub enum Placed<'a> {
    /// These bytes of it are the next ones of the side. There are none if all came before.
    Given(&'a [u8]),
    /// It waits for bytes before it.
    Waits,
}

impl Reassembly {
    ghost use Rattle.resp_capture.specs.Streams.{HasReadyPart, IsFull, IsPlaceOf, Skips, TakesHeld, TakesSegment, WaitsForOthers, given_of, held_bytes};

    /// Returns a stream without segments. The byte at place 0 has this sequence number. It
    /// allocates nothing.
    pub fn new(alloc: Global, first: u32) -> Reassembly
        ensures { result ≡ record { first = first; next = 0; held = [] } }
    {
        Reassembly {
            alloc,
            first,
            next: 0,
            held: Vec::new(alloc),
            size: 0,
        }
    }

    /// Returns the place of the next byte.
    pub fn next(&self) -> u64
        ensures { result ≡ self.now.next }
    {
        self.next
    }

    /// Returns the number of bytes that wait.
    pub fn waiting(&self) -> usize
        ensures bytes { result ≡ held_bytes self.now.held }
        ensures bounded { result ≤ 1048576 }
        ensures parts { length self.now.held ≤ 1024 }
    {
        self.size
    }

    /// Returns the place of the byte with this sequence number that is nearest to the next byte:
    /// less than 2^31 bytes after it, or at most 2^31 bytes before it. Returns `None` if that place
    /// is below 0, or at or above 2^64.
    pub fn place_of(&self, sequence: u32) -> Option<u64>
        ensures some { IfSome result (λ place. IsPlaceOf self.now sequence place) }
        ensures none { IfNone result ((place : ℕ) → IsPlaceOf self.now sequence place → ⊥) }
    {
        let expected = self.first.wrapping_add((self.next % 4_294_967_296) as u32);
        let ahead = sequence.wrapping_sub(expected) as u64;
        if ahead < 2_147_483_648 {
            self.next.checked_add(ahead)
        } else {
            self.next.checked_sub(4_294_967_296 - ahead)
        }
    }

    /// Takes a segment whose first byte has this place.
    ///
    /// # Errors
    ///
    /// `Full` if it has to wait, and there is no room for it; `TooFar` if a place is at or above
    /// 2^64; or `OutOfMemory`. The stream is unchanged.
    pub fn take<'a>(&mut self, at: u64, bytes: &'a [u8]) -> Result<Placed<'a>, StreamError>
        ensures taken { IfOk result (λ taken. TakesSegment self.old self.new at bytes.now
            (given_of taken)) }
        ensures waits { IfOk result (λ taken. taken ≡ Placed.Waits → self.old.next < at) }
        ensures refused { OnErr result (self.new ≡ self.old) }
        ensures full { IfErr result (λ error. error ≡ StreamError.Full →
            IsFull self.old at bytes.now) }
        ensures far { IfErr result (λ error. error ≡ StreamError.TooFar →
            2 ^ 64 ≤ at + length bytes.now) }
    {
        let Some(end) = at.checked_add(bytes.len() as u64) else {
            return Err(StreamError::TooFar);
        };
        if end <= self.next || bytes.is_empty() {
            return Ok(Placed::Given(&bytes[bytes.len()..]));
        }
        if at <= self.next {
            let rest = &bytes[(self.next - at) as usize..];
            self.next = end;
            return Ok(Placed::Given(rest));
        }
        self.hold(at, bytes)?;
        Ok(Placed::Waits)
    }

    /// Keeps a segment that waits for bytes before it.
    fn hold(&mut self, at: u64, bytes: &[u8]) -> Result<(), StreamError>
        requires fits { at + length bytes.now < 2 ^ 64 }
        ensures first { self.new.first ≡ self.old.first }
        ensures next { self.new.next ≡ self.old.next }
        ensures held { OnOk result ((part : WaitingPart) × (part.at ≡ at) ×
            (part.bytes.items ≡ bytes.now) × (self.new.held ≡ self.old.held ++ part ∷ [])) }
        ensures refused { OnErr result (self.new ≡ self.old) }
        ensures full { IfErr result (λ error. error ≡ StreamError.Full →
            (1024 ≤ length self.old.held) ⊎
            (1048576 < held_bytes self.old.held + length bytes.now)) }
        ensures not_far { IfErr result (λ error. error ≢ StreamError.TooFar) }
    {
        if self.held.len() >= MOST_PARTS || bytes.len() > MOST_BYTES - self.size {
            return Err(StreamError::Full);
        }
        let part = part_of(self.alloc, at, bytes)?;
        if self.held.push(part).is_err() {
            return Err(StreamError::OutOfMemory);
        }
        self.size += bytes.len();
        Ok(())
    }

    /// Returns the bytes of a part that no longer waits, because the bytes before it have come.
    /// There are none if all came before. Call it after each segment until it returns `None`.
    pub fn next_held(&mut self) -> Option<BytesMut>
        ensures held { IfSome result (λ given. TakesHeld self.old self.new given.items) }
        ensures none { IfNone result (WaitsForOthers self.old) }
        ensures unchanged { IfNone result (self.new ≡ self.old) }
    {
        let index = first_before(self.held.as_slice(), self.next)?;
        let WaitingPart { at, mut bytes } = self.held.remove(index);
        self.size -= bytes.len();
        let old = (self.next - at).min(bytes.len() as u64) as usize;
        bytes.advance(old);
        self.next += bytes.len() as u64;
        Some(bytes)
    }

    /// Skips the bytes that are missing before the first part that waits, and returns their number.
    /// [`next_held`](Stream::next_held) then returns that part. Returns `None` if no part waits.
    pub fn skip(&mut self) -> Option<u64>
        ensures skips { IfSome result (λ missing. Skips self.old self.new missing) }
        ensures ready { IfSome result (λ missing. HasReadyPart self.new) }
        ensures none { IfNone result ((self.old.held ≡ []) × (self.new ≡ self.old)) }
    {
        let least = least_of(self.held.as_slice())?.at;
        let missing = least.saturating_sub(self.next);
        self.next = self.next.max(least);
        Some(missing)
    }
}

/// Returns a part with this place and these bytes.
fn part_of(alloc: Global, at: u64, bytes: &[u8]) -> Result<WaitingPart, StreamError>
    requires { at + length bytes.now < 2 ^ 64 }
    ensures at { IfOk result (λ part. part.at ≡ at) }
    ensures bytes { IfOk result (λ part. part.bytes.items ≡ bytes.now) }
    ensures error { IfErr result (λ error. error ≡ StreamError.OutOfMemory) }
{
    let mut held = BytesMut::new(alloc);
    match held.extend_from_slice(bytes) {
        Ok(()) => Ok(WaitingPart { at, bytes: held }),
        Err(_) => Err(StreamError::OutOfMemory),
    }
}

/// Returns the index of the first part that does not begin after this place.
fn first_before(held: &[WaitingPart], place: u64) -> Option<usize>
    ensures some { IfSome result (λ index. (index < length held.now) ×
        ((d : WaitingPart) → (slice_index_or held.now index d).at ≤ place)) }
    ensures none { IfNone result ((part : WaitingPart) → IsAmong held.now part → place < part.at) }
{
    held.iter().position(|part| part.at <= place)
}

/// Returns the part with the least place.
fn least_of(held: &[WaitingPart]) -> Option<&WaitingPart>
    ensures least { IfSome result (λ least. (part : WaitingPart) → IsAmong held.now part →
        least.now.at ≤ part.at) }
    ensures some { IfSome result (λ least. IsAmong held.now least.now) }
    ensures none { IfNone result (held.now ≡ []) }
{
    held.iter().min_by_key(|part| part.at)
}
