//! The TCP segment in a packet of a capture.

ghost use Rattle.std.specs.Prelude.{◌≡◌, ℕ, List, IfNone, IfSome};
ghost use Rattle.resp_capture.specs.Headers.{CarriesTcp};
ghost use Rattle.resp_capture.specs.declared.address.IpAddress.{IpAddress};
ghost use Rattle.resp_capture.specs.Segments.{HasFragment, HasSegment, IfFragment, IfSegment, UnlessSegment};
ghost use Rattle.resp_capture.specs.declared.transport.Segment.{Segment};

use crate::link::{LinkType, packet_of};
use crate::network::{IpPayload, TCP, address_six, is_fragment, read_four, read_six};
use crate::transport::{Segment, segment_of};

/// What a packet of a capture carries.
#[derive(Clone, Copy, Debug, PartialEq, Eq)]
pub enum Packet<'a> {
    /// A TCP segment.
    Segment(Segment<'a>),
    /// A fragment of an IP packet. It is not read.
    Fragment,
    /// Something else.
    Other,
}

/// Returns what an IP packet carries over TCP.
fn read_tcp(packet: &[u8]) -> Option<IpPayload<'_>>
    ensures some { IfSome result (λ carried.
        CarriesTcp packet.now carried.from carried.to carried.bytes.now) }
    ensures none { IfNone result ((from to : IpAddress) (bytes : List ℕ) →
        CarriesTcp packet.now from to bytes → ⊥) }
{
    if let Some(carried) = read_four(packet) {
        return Some(carried);
    }
    let Some((protocol, bytes)) = read_six(packet) else {
        return None;
    };
    if protocol != TCP {
        return None;
    }
    Some(IpPayload {
        from: address_six(packet, 8),
        to: address_six(packet, 24),
        bytes,
    })
}

/// Returns the segment in a packet of a capture, or that it is a fragment or has no segment. `link` is
/// the type of the link on which the packet was captured.
pub fn read_packet(link: LinkType, frame: &[u8]) -> Packet<'_>
    ensures segment { IfSegment result (HasSegment link frame.now) }
    ensures none { UnlessSegment result ((segment : Segment) →
        HasSegment link frame.now segment → ⊥) }
    ensures fragment { IfFragment result (HasFragment link frame.now) }
    ensures no_fragment { HasFragment link frame.now → result ≡ Packet.Fragment }
{
    let Some(packet) = packet_of(link, frame) else {
        return Packet::Other;
    };
    if is_fragment(packet) {
        return Packet::Fragment;
    }
    match read_tcp(packet) {
        Some(carried) => match segment_of(carried.from, carried.to, carried.bytes) {
            Some(segment) => Packet::Segment(segment),
            None => Packet::Other,
        },
        None => Packet::Other,
    }
}
