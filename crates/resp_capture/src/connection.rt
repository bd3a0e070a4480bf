//! A connection of a capture, with both sides.

ghost use Rattle.std.specs.Prelude.{◌≡◌, ◌≢◌, ◌↔◌, ℕ, ◌≤◌, [], None, Some, false, not, true, IfOk, IfSome, IfNone, IsTrue, OnErr, OnSome};
ghost use Rattle.resp_capture.specs.Connections.{BeginsAgain, HasEnded, HasSameEnds, IsFrom, IsNewSide, LacksToEnd, RefusesInSide, TakesInSide, begun_stream, first_number, other, side_of};
ghost use Rattle.resp_capture.specs.Streams.{HasReadyPart, Skips, TakesHeld, WaitsForOthers};

use crate::address::Endpoint;
use crate::error::StreamError;
use crate::stream::{Placed, Reassembly};
use crate::transport::Segment;
use bytes::BytesMut;
use std::alloc::Global;

/// An end of a connection, and the side of the bytes that it sends.
#[derive(Clone, Copy, Debug, PartialEq, Eq)]
pub enum End {
    Client,
    Server,
}

/// The bytes that one end sends.
#[derive(Drop)]
pub(crate) struct SentSide {
    pub(crate) stream: Reassembly,
    /// Whether a segment has arrived.
    pub(crate) is_begun: bool,
    /// The place after the last byte, if the last segment has arrived.
    pub(crate) last: Option<u64>,
}

/// A connection of a capture, with both sides.
#[derive(Drop)]
pub struct CapturedConnection {
    alloc: Global,
    pub(crate) client: Endpoint,
    pub(crate) server: Endpoint,
    pub(crate) to_server: SentSide,
    pub(crate) to_client: SentSide,
}

/// Returns whether the receiver of a segment is the server: the receiver of the first segment of a
/// connection, and the sender of the second one. Otherwise it is the end with the port `port`, or
/// with the lower port number.
pub fn is_to_server(segment: &Segment<'_>, port: Option<u16>) -> bool
    ensures begins { segment.now.begins ≡ true → result ≡ not segment.now.acknowledges }
    ensures named { (named : ℕ) → segment.now.begins ≡ false → port ≡ Some named →
        segment.now.to.port ≡ named → result ≡ true }
    ensures from_named { (named : ℕ) → segment.now.begins ≡ false → port ≡ Some named →
        segment.now.from.port ≡ named → segment.now.to.port ≢ named → result ≡ false }
    ensures lower { segment.now.begins ≡ false → port ≢ Some segment.now.to.port →
        port ≢ Some segment.now.from.port →
        IsTrue result ↔ (segment.now.to.port ≤ segment.now.from.port) }
{
    if segment.begins {
        return !segment.acknowledges;
    }
    let (from, to) = (segment.from.port, segment.to.port);
    match port {
        Some(port) if to == port => true,
        Some(port) if from == port => false,
        _ => to <= from,
    }
}

/// Returns the sequence number of the first byte of a segment.
fn first_of(segment: &Segment<'_>) -> u32
    ensures { result ≡ first_number segment.now }
{
    let before = if segment.begins { 1 } else { 0 };
    segment.sequence.wrapping_add(before)
}

impl SentSide {
    /// Returns a side that has received nothing.
    fn new(alloc: Global) -> SentSide
        ensures { IsNewSide result }
    {
        SentSide {
            stream: Reassembly::new(alloc, 0),
            is_begun: false,
            last: None,
        }
    }

    /// Begins the side with this sequence number, if nothing has arrived.
    fn begin(&mut self, alloc: Global, first: u32)
        ensures stream { self.new.stream ≡ begun_stream self.old first }
        ensures begun { self.new.is_begun ≡ true }
        ensures same_last { self.new.last ≡ self.old.last }
    {
        if !self.is_begun {
            self.stream = Reassembly::new(alloc, first);
            self.is_begun = true;
        }
    }

    /// Takes a segment.
    fn take<'a>(&mut self, alloc: Global, segment: &Segment<'a>) -> Result<Placed<'a>, StreamError>
        ensures takes { IfOk result (λ taken. TakesInSide self.old self.new segment.now taken) }
        ensures refused { OnErr result (RefusesInSide self.old self.new segment.now) }
    {
        let first = first_of(segment);
        self.begin(alloc, first);
        let Some(place) = self.stream.place_of(first) else {
            return Err(StreamError::TooFar);
        };
        let data = segment.data;
        if segment.ends && self.last.is_none() {
            self.last = place.checked_add(data.len() as u64);
        }
        self.stream.take(place, data)
    }
}

impl CapturedConnection {
    /// Returns a connection without segments. It allocates nothing.
    pub fn new(alloc: Global, client: Endpoint, server: Endpoint) -> CapturedConnection
        ensures client { result.client ≡ client }
        ensures server { result.server ≡ server }
        ensures to_server { IsNewSide result.to_server }
        ensures to_client { IsNewSide result.to_client }
    {
        CapturedConnection {
            alloc,
            client,
            server,
            to_server: SentSide::new(alloc),
            to_client: SentSide::new(alloc),
        }
    }

    /// Returns the address of the client.
    pub fn client(&self) -> Endpoint
        ensures { result ≡ self.now.client }
    {
        self.client
    }

    /// Returns the address of the server.
    pub fn server(&self) -> Endpoint
        ensures { result ≡ self.now.server }
    {
        self.server
    }

    /// Returns the end that sent a segment, or `None` if the segment is one of another connection.
    pub fn sender(&self, segment: &Segment<'_>) -> Option<End>
        ensures sender { IfSome result (λ end. IsFrom self.now end segment.now) }
        ensures none { IfNone result ((end : End) → IsFrom self.now end segment.now → ⊥) }
    {
        if segment.from == self.client && segment.to == self.server {
            Some(End::Client)
        } else if segment.from == self.server && segment.to == self.client {
            Some(End::Server)
        } else {
            None
        }
    }

    /// Returns whether a segment of the client begins another connection with the same addresses.
    pub fn is_begun_again(&self, segment: &Segment<'_>) -> bool
        ensures { IsTrue result ↔ BeginsAgain self.now.to_server segment.now }
    {
        let side = &self.to_server;
        if !segment.begins || segment.acknowledges || !side.is_begun {
            return false;
        }
        side.stream.place_of(first_of(segment)) != Some(0)
    }

    /// Takes a segment that this end sent. The first segment of an end begins its side: if it is
    /// not the first one of the connection (SYN), the bytes before it are not known.
    ///
    /// # Errors
    ///
    /// Those of [`Stream::take`], and `TooFar` if the segment is before the beginning. The bytes
    /// that were given and the bytes that wait are unchanged.
    pub fn take<'a>(&mut self, end: End, segment: &Segment<'a>) -> Result<Placed<'a>, StreamError>
        ensures takes { IfOk result (λ taken. TakesInSide (side_of self.old end)
            (side_of self.new end) segment.now taken) }
        ensures refused { OnErr result (RefusesInSide (side_of self.old end)
            (side_of self.new end) segment.now) }
        ensures other_side { side_of self.new (other end) ≡ side_of self.old (other end) }
        ensures same_ends { HasSameEnds self.old self.new }
    {
        match end {
            End::Client => self.to_server.take(self.alloc, segment),
            End::Server => self.to_client.take(self.alloc, segment),
        }
    }

    /// Returns the bytes that this end sent before, and that no longer wait. Call it after each
    /// segment until it returns `None`.
    pub fn next_held(&mut self, end: End) -> Option<BytesMut>
        ensures held { IfSome result (λ given. TakesHeld (side_of self.old end).stream
            (side_of self.new end).stream given.items) }
        ensures none { IfNone result (WaitsForOthers (side_of self.old end).stream) }
        ensures unchanged { IfNone result ((side_of self.new end).stream ≡
            (side_of self.old end).stream) }
        ensures other_side { side_of self.new (other end) ≡ side_of self.old (other end) }
        ensures same_ends { HasSameEnds self.old self.new }
    {
        match end {
            End::Client => self.to_server.stream.next_held(),
            End::Server => self.to_client.stream.next_held(),
        }
    }

    /// Skips the bytes of this end that are missing before the first part that waits, and returns
    /// their number. Returns `None` if no part waits.
    pub fn skip(&mut self, end: End) -> Option<u64>
        ensures skips { IfSome result (λ missing. Skips (side_of self.old end).stream
            (side_of self.new end).stream missing) }
        ensures ready { OnSome result (HasReadyPart (side_of self.new end).stream) }
        ensures none { IfNone result (((side_of self.old end).stream.held ≡ []) ×
            ((side_of self.new end).stream ≡ (side_of self.old end).stream)) }
        ensures other_side { side_of self.new (other end) ≡ side_of self.old (other end) }
        ensures same_ends { HasSameEnds self.old self.new }
    {
        match end {
            End::Client => self.to_server.stream.skip(),
            End::Server => self.to_client.stream.skip(),
        }
    }

    /// Returns how many bytes of this end are missing before its last segment, or `None` if none
    /// are missing or that segment has not arrived. Bytes that wait count as missing too.
    pub fn missing_to_end(&self, end: End) -> Option<u64>
        ensures some { IfSome result (λ missing. LacksToEnd (side_of self.now end) missing) }
        ensures none { IfNone result ((missing : ℕ) →
            LacksToEnd (side_of self.now end) missing → ⊥) }
    {
        let (last, next) = match end {
            End::Client => (self.to_server.last, self.to_server.stream.next()),
            End::Server => (self.to_client.last, self.to_client.stream.next()),
        };
        match last {
            Some(last) if next < last => Some(last - next),
            _ => None,
        }
    }

    /// Returns whether all bytes of this end were given, and it sends no more.
    pub fn has_ended(&self, end: End) -> bool
        ensures { IsTrue result ↔ HasEnded (side_of self.now end) }
    {
        let side = match end {
            End::Client => &self.to_server,
            End::Server => &self.to_client,
        };
        match side.last {
            Some(last) => last <= side.stream.next(),
            None => false,
        }
    }
}
