//! A connection that is recorded.

ghost use Rattle.std.specs.Prelude.{◌≡◌, ◌+◌, ◌%◌, ◌^◌, length};
ghost use Rattle.resp_capture.specs.Connections.{other};
ghost use Rattle.resp_capture.specs.Recording.{acknowledges_by, begins_by, ends_by, number_of, own_numbers, receiver, resets_by, sender};

use crate::address::Endpoint;
use crate::connection::End;
use crate::transport::Segment;

/// A segment to be recorded.
#[derive(Clone, Copy, Debug, PartialEq, Eq)]
pub enum SegmentKind {
    /// The first segment of an end, before its bytes.
    Beginning,
    /// Bytes.
    Bytes,
    /// The last segment of an end.
    End,
    /// The last segment of a connection that is ended at once.
    Reset,
}

/// The ends of a connection that is recorded, and the sequence numbers of their next bytes.
#[derive(Clone, Copy, Debug, PartialEq, Eq)]
pub struct Recorded {
    pub(crate) client: Endpoint,
    pub(crate) server: Endpoint,
    pub(crate) of_client: u32,
    pub(crate) of_server: u32,
}

impl Recorded {
    /// Returns a connection before anything is recorded.
    pub fn new(client: Endpoint, server: Endpoint) -> Recorded
        ensures client { sender result End.Client ≡ client }
        ensures server { sender result End.Server ≡ server }
        ensures first { number_of result End.Client ≡ 0 }
        ensures first_of_server { number_of result End.Server ≡ 0 }
    {
        Recorded {
            client,
            server,
            of_client: 0,
            of_server: 0,
        }
    }

    /// Returns the sequence number of the next byte of an end.
    pub fn number(&self, end: End) -> u32
        ensures { result ≡ number_of self.now end }
    {
        match end {
            End::Client => self.of_client,
            End::Server => self.of_server,
        }
    }

    /// Returns the next segment of an end, with these bytes. Its sequence number is that of the
    /// next byte, and the numbers of later bytes follow those of its bytes. The beginning and the
    /// end of a side each have their own number.
    pub fn next<'a>(&mut self, end: End, sent: SegmentKind, bytes: &'a [u8]) -> Segment<'a>
        ensures from { result.from ≡ sender self.old end }
        ensures to { result.to ≡ receiver self.old end }
        ensures sequence { result.sequence ≡ number_of self.old end }
        ensures carries { result.data.now ≡ bytes.now }
        ensures begins { result.begins ≡ begins_by sent }
        ensures ends { result.ends ≡ ends_by sent }
        ensures resets { result.resets ≡ resets_by sent }
        ensures acknowledges { result.acknowledges ≡ acknowledges_by end sent }
        ensures next { number_of self.new end ≡
            (number_of self.old end + length bytes.now + own_numbers sent) % 2 ^ 32 }
        ensures other { number_of self.new (other end) ≡ number_of self.old (other end) }
        ensures same_from { sender self.new end ≡ sender self.old end }
        ensures same_to { receiver self.new end ≡ receiver self.old end }
    {
        let (sequence, data) = (self.number(end), bytes);
        let own = match sent {
            SegmentKind::Beginning | SegmentKind::End => 1,
            SegmentKind::Bytes | SegmentKind::Reset => 0,
        };
        let count = (bytes.len() % 4_294_967_296) as u32;
        let next = sequence.wrapping_add(count).wrapping_add(own);
        let (from, to) = match end {
            End::Client => (self.client, self.server),
            End::Server => (self.server, self.client),
        };
        match end {
            End::Client => self.of_client = next,
            End::Server => self.of_server = next,
        }
        Segment {
            from,
            to,
            sequence,
            begins: sent == SegmentKind::Beginning,
            acknowledges: sent != SegmentKind::Beginning || end == End::Server,
            ends: sent == SegmentKind::End,
            resets: sent == SegmentKind::Reset,
            data,
        }
    }
}
