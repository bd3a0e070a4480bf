//! Writes captures of the format pcap.
//!
//! The numbers of a file are big-endian, its times have nanoseconds, and each of its packets is of
//! version 4 of the internet protocol, without the head of a link.

ghost use Rattle.std.specs.Prelude.{◌≡◌, ◌+◌, ◌/◌, ◌%◌, ◌^◌, ◌≤◌, ◌==◌, ◌++◌, IfNone, IfSome, length, slice_index};
ghost use Rattle.resp_capture.specs.Numbers.{number16, number32};
ghost use Rattle.resp_capture.specs.Writing.{CanBeRecorded, IsFileHead, IsRecordOf, words_sum};
ghost use Rattle.resp_capture.specs.declared.address.IpAddress.TheVariants as address;
ghost use Rattle.resp_capture.specs.declared.number.ByteOrder.TheVariants as order;

use crate::address::IpAddress;
use crate::time::Time;
use crate::transport::Segment;

/// The maximum number of bytes of a recorded segment.
pub const MOST_DATA: usize = 65_495;

/// The number of bytes before those of a recorded segment.
pub const HEAD: usize = 56;

/// Returns the bytes with which a file begins.
pub fn file_head() -> [u8; 24]
    ensures { IsFileHead result }
{
    [
        0xa1, 0xb2, 0x3c, 0x4d, 0, 2, 0, 4, 0, 0, 0, 0, 0, 0, 0, 0, 0, 4, 0, 0, 0, 0, 0, 101,
    ]
}

/// Returns the two bytes of a number.
fn bytes16(number: u16) -> [u8; 2]
    ensures { number16 order.Big 0 result ≡ number }
{
    [(number / 256) as u8, (number % 256) as u8]
}

/// Returns the four bytes of a number.
fn bytes32(number: u32) -> [u8; 4]
    ensures { number32 order.Big 0 result ≡ number }
{
    [
        (number / 16_777_216) as u8,
        (number / 65_536 % 256) as u8,
        (number / 256 % 256) as u8,
        (number % 256) as u8,
    ]
}

/// Returns the flags of a segment.
fn flags_of(segment: &Segment<'_>) -> u8
    ensures ends { (result % 2 == 1) ≡ segment.now.ends }
    ensures begins { ((result / 2) % 2 == 1) ≡ segment.now.begins }
    ensures resets { ((result / 4) % 2 == 1) ≡ segment.now.resets }
    ensures acknowledges { ((result / 16) % 2 == 1) ≡ segment.now.acknowledges }
{
    let ends = if segment.ends { 1 } else { 0 };
    let begins = if segment.begins { 2 } else { 0 };
    let resets = if segment.resets { 4 } else { 0 };
    let acknowledges = if segment.acknowledges { 16 } else { 0 };
    ends + begins + resets + acknowledges
}

/// Returns the checksum of the head of a packet of this length.
fn checksum_of(length: u16, from: u32, to: u32) -> u16
    ensures { (50438 + length + from / 65536 + from % 65536 + to / 65536 + to % 65536 + result)
        % 65535 ≡ 0 }
{
    let ends = from / 65_536 + from % 65_536 + to / 65_536 + to % 65_536;
    let sum = 50_438 + length as u32 + ends;
    (65_535 - sum % 65_535) as u16
}

/// Returns the head of a record, with the time of its packet, of which this many bytes were
/// captured.
fn time_head(time: Time, count: u32) -> [u8; 16]
    ensures seconds { number32 order.Big 0 result ≡ time.seconds % 2 ^ 32 }
    ensures nanos { number32 order.Big 4 result ≡ time.nanos }
    ensures captured { number32 order.Big 8 result ≡ count }
    ensures whole { number32 order.Big 12 result ≡ count }
{
    let (s, n) = (
        bytes32((time.seconds % 4_294_967_296) as u32),
        bytes32(time.nanos),
    );
    let c = bytes32(count);
    [
        s[0], s[1], s[2], s[3], n[0], n[1], n[2], n[3], c[0], c[1], c[2], c[3], c[0], c[1], c[2],
        c[3],
    ]
}

/// Returns the head of an IPv4 packet with this length, which carries TCP and is not a fragment.
fn packet_head(length: u16, from: u32, to: u32) -> [u8; 20]
    ensures version { slice_index result 0 ≡ 69 }
    ensures length { number16 order.Big 2 result ≡ length }
    ensures not_cut { number16 order.Big 6 result ≡ 16384 }
    ensures protocol { slice_index result 9 ≡ 6 }
    ensures from { number32 order.Big 12 result ≡ from }
    ensures to { number32 order.Big 16 result ≡ to }
    ensures checked { words_sum result % 65535 ≡ 0 }
{
    let (l, c) = (bytes16(length), bytes16(checksum_of(length, from, to)));
    let (f, g) = (
        bytes16((from / 65_536) as u16),
        bytes16((from % 65_536) as u16),
    );
    let (t, u) = (bytes16((to / 65_536) as u16), bytes16((to % 65_536) as u16));
    [
        69, 0, l[0], l[1], 0, 0, 64, 0, 64, 6, c[0], c[1], f[0], f[1], g[0], g[1], t[0], t[1],
        u[0], u[1],
    ]
}

/// Returns the head of a segment with these numbers and flags.
fn segment_head(from: u16, to: u16, sequence: u32, acknowledged: u32, flags: u8) -> [u8; 20]
    ensures from { number16 order.Big 0 result ≡ from }
    ensures to { number16 order.Big 2 result ≡ to }
    ensures sequence { number32 order.Big 4 result ≡ sequence }
    ensures head { slice_index result 12 ≡ 80 }
    ensures flags { slice_index result 13 ≡ flags }
{
    let (f, t) = (bytes16(from), bytes16(to));
    let (s, a) = (bytes32(sequence), bytes32(acknowledged));
    [
        f[0], f[1], t[0], t[1], s[0], s[1], s[2], s[3], a[0], a[1], a[2], a[3], 80, flags, 255,
        255, 0, 0, 0, 0,
    ]
}

/// Returns the heads of a record with this time, of a segment between these IPv4 addresses.
fn heads_of(time: Time, segment: &Segment<'_>, acknowledged: u32, from: u32, to: u32) -> [u8; 56]
    requires from { segment.now.from.address ≡ address.Four from }
    requires to { segment.now.to.address ≡ address.Four to }
    requires fits { length segment.now.data.now ≤ 65495 }
    ensures { IsRecordOf (result ++ segment.now.data.now) time segment.now }
{
    let length = 40 + segment.data.len() as u16;
    let t = time_head(time, length as u32);
    let p = packet_head(length, from, to);
    let (flags, sequence) = (flags_of(segment), segment.sequence);
    let (from, to) = (segment.from.port, segment.to.port);
    let s = segment_head(from, to, sequence, acknowledged, flags);
    [
        t[0], t[1], t[2], t[3], t[4], t[5], t[6], t[7], t[8], t[9], t[10], t[11], t[12], t[13],
        t[14], t[15], p[0], p[1], p[2], p[3], p[4], p[5], p[6], p[7], p[8], p[9], p[10], p[11],
        p[12], p[13], p[14], p[15], p[16], p[17], p[18], p[19], s[0], s[1], s[2], s[3], s[4], s[5],
        s[6], s[7], s[8], s[9], s[10], s[11], s[12], s[13], s[14], s[15], s[16], s[17], s[18],
        s[19],
    ]
}

/// Returns the bytes of the record of a segment before those of the segment itself, with the time
/// of its packet. Returns `None` if an address is of version 6, or the segment has more than 65,495
/// bytes.
pub fn record_head(time: Time, segment: &Segment<'_>, acknowledged: u32) -> Option<[u8; 56]>
    ensures some { IfSome result (λ head.
        IsRecordOf (head ++ segment.now.data.now) time segment.now) }
    ensures none { IfNone result (CanBeRecorded segment.now → ⊥) }
{
    let IpAddress::Four(from) = segment.from.address else {
        return None;
    };
    let IpAddress::Four(to) = segment.to.address else {
        return None;
    };
    if segment.data.len() > MOST_DATA {
        return None;
    }
    Some(heads_of(time, segment, acknowledged, from, to))
}
