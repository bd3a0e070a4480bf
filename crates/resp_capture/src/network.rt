//! IP packets, which carry TCP.

ghost use Rattle.std.specs.Prelude.{◌≡◌, ◌⊎◌, ℕ, ◌+◌, ◌*◌, ◌<◌, ◌≤◌, List, length, IfNone, IfSome, IsTrue, ◌↔◌};
ghost use Rattle.resp_capture.specs.Headers.{CarriesFour, CarriesSix, IsExtension, IsFour, IsFragment, IsFragmentFour, IsSix, IsFragmentSix, Reaches, address_six, end_four, end_six, extension_size, head_four, is_extension};
ghost use Rattle.resp_capture.specs.declared.address.IpAddress.{IpAddress};

use crate::address::IpAddress;
use crate::number::{ByteOrder, number16, number32, number64};

/// The number of TCP among the protocols.
pub(crate) const TCP: u8 = 6;

/// The number of the header of a fragment among those of version 6.
const FRAGMENT: u8 = 44;

/// The maximum number of IPv6 headers before the protocol.
const MOST_HEADERS: u8 = 8;

/// The bytes that a packet carries from one address to another.
#[derive(Clone, Copy, Debug, PartialEq, Eq)]
pub(crate) struct IpPayload<'a> {
    pub(crate) from: IpAddress,
    pub(crate) to: IpAddress,
    pub(crate) bytes: &'a [u8],
}

/// Returns the end of an IPv4 packet among the bytes that were captured.
fn end_four(packet: &[u8]) -> usize
    requires { 20 ≤ length packet.now }
    ensures end { result ≡ end_four packet.now }
    ensures within { result ≤ length packet.now }
{
    let length = number16(ByteOrder::Big, packet, 2) as usize;
    if length == 0 {
        packet.len()
    } else {
        length.min(packet.len())
    }
}

/// Returns the number of bytes of the head of an IPv4 packet, or `None` if the bytes are not such a
/// packet or the head is cut off.
fn head_four(packet: &[u8]) -> Option<usize>
    ensures some { IfSome result (λ head. (head ≡ head_four packet.now) × IsFour packet.now) }
    ensures none { IfNone result (IsFour packet.now → ⊥) }
{
    if packet.len() < 20 || packet[0] / 16 != 4 {
        return None;
    }
    let head = packet[0] as usize % 16 * 4;
    if head < 20 || head > end_four(packet) {
        return None;
    }
    Some(head)
}

/// Returns what an IPv4 packet carries over TCP, or `None` if it is something else or a fragment.
pub(crate) fn read_four(packet: &[u8]) -> Option<IpPayload<'_>>
    ensures some { IfSome result (λ carried.
        CarriesFour packet.now carried.from carried.to carried.bytes.now) }
    ensures none { IfNone result ((from to : IpAddress) (bytes : List ℕ) →
        CarriesFour packet.now from to bytes → ⊥) }
{
    let head = head_four(packet)?;
    if number16(ByteOrder::Big, packet, 6) % 16_384 != 0 || packet[9] != TCP {
        return None;
    }
    Some(IpPayload {
        from: IpAddress::Four(number32(ByteOrder::Big, packet, 12)),
        to: IpAddress::Four(number32(ByteOrder::Big, packet, 16)),
        bytes: &packet[head..end_four(packet)],
    })
}

/// Returns whether a packet is a fragment of version 4.
fn is_fragment_four(packet: &[u8]) -> bool
    ensures { IsTrue result ↔ (IsFour packet.now × IsFragmentFour packet.now) }
{
    head_four(packet).is_some() && number16(ByteOrder::Big, packet, 6) % 16_384 != 0
}

/// Returns whether a header of version 6 with this number is followed by another header.
fn is_extension(next: u8) -> bool
    ensures { result ≡ is_extension next }
{
    next == 0 || next == 43 || next == 60
}

/// Returns the number of bytes of a header that is followed by another one, or `None` if it is cut
/// off.
fn extension_size(bytes: &[u8]) -> Option<usize>
    ensures some { IfSome result (λ size. (size ≡ extension_size bytes.now) ×
        IsExtension bytes.now) }
    ensures none { IfNone result (IsExtension bytes.now → ⊥) }
{
    if bytes.len() < 8 {
        return None;
    }
    let size = (bytes[1] as usize + 1) * 8;
    if size > bytes.len() { None } else { Some(size) }
}

/// Returns the number of the protocol after the IPv6 headers, and its bytes. At most `most` headers
/// come before it. Returns `None` if there are more, or a header is cut off.
fn after_headers(most: u8, next: u8, bytes: &[u8]) -> Option<(u8, &[u8])>
    ensures some { IfSome result (λ found. Reaches most next bytes.now found.0 found.1.now) }
    ensures none { IfNone result ((protocol : ℕ) (rest : List ℕ) →
        Reaches most next bytes.now protocol rest → ⊥) }
{
    if !is_extension(next) {
        return Some((next, bytes));
    }
    if most == 0 {
        return None;
    }
    let size = extension_size(bytes)?;
    after_headers(most - 1, bytes[0], &bytes[size..])
}

/// Returns the end of an IPv6 packet among the bytes that were captured.
fn end_six(packet: &[u8]) -> usize
    requires { 40 ≤ length packet.now }
    ensures end { result ≡ end_six packet.now }
    ensures least { 40 ≤ result }
    ensures within { result ≤ length packet.now }
{
    let length = number16(ByteOrder::Big, packet, 4) as usize;
    if length == 0 {
        packet.len()
    } else {
        (length + 40).min(packet.len())
    }
}

/// Returns the number of the protocol that an IPv6 packet carries, and its bytes.
pub(crate) fn read_six(packet: &[u8]) -> Option<(u8, &[u8])>
    ensures some { IfSome result (λ found. CarriesSix packet.now found.0 found.1.now) }
    ensures none { IfNone result ((protocol : ℕ) (bytes : List ℕ) →
        CarriesSix packet.now protocol bytes → ⊥) }
{
    if packet.len() < 40 || packet[0] / 16 != 6 {
        return None;
    }
    after_headers(MOST_HEADERS, packet[6], &packet[40..end_six(packet)])
}

/// Returns the address from this byte of an IPv6 packet on.
pub(crate) fn address_six(packet: &[u8], at: usize) -> IpAddress
    requires { at + 16 ≤ length packet.now }
    ensures { result ≡ address_six at packet.now }
{
    IpAddress::Six {
        high: number64(ByteOrder::Big, packet, at),
        low: number64(ByteOrder::Big, packet, at + 8),
    }
}

/// Returns whether a packet is a fragment of version 6.
fn is_fragment_six(packet: &[u8]) -> bool
    ensures { IsTrue result ↔ IsFragmentSix packet.now }
{
    let Some((protocol, _)) = read_six(packet) else {
        return false;
    };
    protocol == FRAGMENT
}

/// Returns whether a packet is a fragment.
pub(crate) fn is_fragment(packet: &[u8]) -> bool
    ensures { IsTrue result ↔ IsFragment packet.now }
{
    is_fragment_four(packet) || is_fragment_six(packet)
}
