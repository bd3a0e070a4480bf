//! Segments of TCP.

ghost use Rattle.std.specs.Prelude.{◌≡◌, IfNone, IfSome};
ghost use Rattle.resp_capture.specs.Headers.{IsTcp, head_tcp};
ghost use Rattle.resp_capture.specs.Segments.{IsSegment};

use crate::address::{Endpoint, IpAddress};
use crate::number::{ByteOrder, number16, number32};

/// A TCP segment.
#[derive(Clone, Copy, Debug, PartialEq, Eq)]
pub struct Segment<'a> {
    pub from: Endpoint,
    pub to: Endpoint,
    /// The sequence number of the first byte. If the segment begins a side, it is the number before
    /// the first byte.
    pub sequence: u32,
    /// Whether it begins its side (SYN).
    pub begins: bool,
    /// Whether it acknowledges bytes of the other side (ACK).
    pub acknowledges: bool,
    /// Whether its side ends after it (FIN).
    pub ends: bool,
    /// Whether it ends the connection at once (RST).
    pub resets: bool,
    pub data: &'a [u8],
}

/// Returns the number of bytes of the head of a segment, or `None` if the head is cut off.
fn head_tcp(bytes: &[u8]) -> Option<usize>
    ensures some { IfSome result (λ head. (head ≡ head_tcp bytes.now) × IsTcp bytes.now) }
    ensures none { IfNone result (IsTcp bytes.now → ⊥) }
{
    if bytes.len() < 20 {
        return None;
    }
    let head = bytes[12] as usize / 16 * 4;
    if head < 20 || head > bytes.len() {
        return None;
    }
    Some(head)
}

/// Returns the segment in the bytes that were sent from one address to another, or `None` if its
/// head is cut off.
pub(crate) fn segment_of(from: IpAddress, to: IpAddress, bytes: &[u8]) -> Option<Segment<'_>>
    ensures some { IfSome result (λ segment. IsSegment from to bytes.now segment) }
    ensures none { IfNone result (IsTcp bytes.now → ⊥) }
{
    let head = head_tcp(bytes)?;
    let flags = bytes[13];
    Some(Segment {
        from: Endpoint {
            address: from,
            port: number16(ByteOrder::Big, bytes, 0),
        },
        to: Endpoint {
            address: to,
            port: number16(ByteOrder::Big, bytes, 2),
        },
        sequence: number32(ByteOrder::Big, bytes, 4),
        begins: flags / 2 % 2 == 1,
        acknowledges: flags / 16 % 2 == 1,
        ends: flags % 2 == 1,
        resets: flags / 4 % 2 == 1,
        data: &bytes[head..],
    })
}
