//! Link-layer frames, which carry IP packets.

ghost use Rattle.std.specs.Prelude.{◌≡◌, ℕ, ◌+◌, ◌≤◌, List, length, drop, IfNone, IfSome};
ghost use Rattle.resp_capture.specs.Headers.{CarriesPacket, IsTyped, is_internet, is_tag, link_of, type_place};

use crate::number::{ByteOrder, number16};

/// How the packets of a capture begin.
#[derive(Clone, Copy, Debug, PartialEq, Eq)]
pub enum LinkType {
    /// Number 0, the loopback of BSD and of macOS, or 108, that of OpenBSD: four bytes, and the packet.
    Loopback,
    /// Number 1, Ethernet: 14 bytes, or 18 or 22 with tags of virtual networks.
    Ethernet,
    /// Number 101, or 228 for version 4 and 229 for version 6: the packet alone.
    Raw,
    /// Number 113, all interfaces of Linux: 16 bytes.
    Cooked,
    /// Number 276, all interfaces of Linux in a later form: 20 bytes.
    CookedTwo,
}

impl LinkType {
    /// Returns the link of this number, if it is read.
    pub fn of_number(number: u32) -> Option<LinkType>
        ensures { result ≡ link_of number }
    {
        match number {
            0 | 108 => Some(LinkType::Loopback),
            1 => Some(LinkType::Ethernet),
            101 | 228 | 229 => Some(LinkType::Raw),
            113 => Some(LinkType::Cooked),
            276 => Some(LinkType::CookedTwo),
            _ => None,
        }
    }
}

/// Returns whether a type of Ethernet is that of a tag, which is followed by another type.
fn is_tag(number: u16) -> bool
    ensures { result ≡ is_tag number }
{
    number == 0x8100 || number == 0x88a8
}

/// Returns whether a type of Ethernet is that of the internet protocol.
fn is_internet(number: u16) -> bool
    ensures { result ≡ is_internet number }
{
    number == 0x0800 || number == 0x86dd
}

/// Returns where the type of an Ethernet frame is, after at most two tags.
fn type_place(frame: &[u8]) -> usize
    requires { 22 ≤ length frame.now }
    ensures place { result ≡ type_place frame.now }
    ensures within { result ≤ 20 }
{
    if !is_tag(number16(ByteOrder::Big, frame, 12)) {
        12
    } else if !is_tag(number16(ByteOrder::Big, frame, 16)) {
        16
    } else {
        20
    }
}

/// Returns the packet after a head of `head` bytes, with the type at this place of it.
fn after_type(frame: &[u8], place: usize, head: usize) -> Option<&[u8]>
    requires { place + 2 ≤ head }
    ensures some { IfSome result (λ packet. IsTyped place head frame.now packet.now) }
    ensures none { IfNone result ((packet : List ℕ) → IsTyped place head frame.now packet → ⊥) }
{
    if head > frame.len() || !is_internet(number16(ByteOrder::Big, frame, place)) {
        return None;
    }
    Some(&frame[head..])
}

/// Returns the packet that an Ethernet frame carries.
fn after_ethernet(frame: &[u8]) -> Option<&[u8]>
    ensures some { IfSome result (λ packet. CarriesPacket LinkType.Ethernet frame.now packet.now) }
    ensures none { IfNone result ((packet : List ℕ) →
        CarriesPacket LinkType.Ethernet frame.now packet → ⊥) }
{
    if frame.len() < 22 {
        return None;
    }
    let place = type_place(frame);
    after_type(frame, place, place + 2)
}

/// Returns the IP packet that a frame carries, or `None` if it carries something else.
pub(crate) fn packet_of(link: LinkType, frame: &[u8]) -> Option<&[u8]>
    ensures some { IfSome result (λ packet. CarriesPacket link frame.now packet.now) }
    ensures none { IfNone result ((packet : List ℕ) → CarriesPacket link frame.now packet → ⊥) }
{
    match link {
        LinkType::Loopback if frame.len() < 4 => None,
        LinkType::Loopback => Some(&frame[4..]),
        LinkType::Ethernet => after_ethernet(frame),
        LinkType::Raw => Some(frame),
        LinkType::Cooked => after_type(frame, 14, 16),
        LinkType::CookedTwo => after_type(frame, 0, 20),
    }
}
