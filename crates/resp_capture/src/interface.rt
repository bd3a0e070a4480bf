//! The interfaces of a capture.

ghost use Rattle.std.specs.Prelude.{◌≡◌, ℕ, ℤ, ◌≤◌, List, Some, length, pos, IfNone, IfSome};
ghost use Rattle.resp_capture.specs.Frames.{HasOffset, HasOption, HasResolution, IsDescribed, ticks_of};

use crate::link::LinkType;
use crate::number::{ByteOrder, number16, number32, number64};

/// The ticks of a second, if the capture does not say them.
const MICROS: u64 = 1_000_000;

/// The code of the option with the ticks of a second.
const RESOLUTION: u16 = 9;

/// The code of the option with the seconds that are added to each time.
const OFFSET: u16 = 14;

/// An interface of a capture.
#[derive(Clone, Copy, Debug, PartialEq, Eq)]
pub(crate) struct Interface {
    /// The link of its packets, if it is read.
    pub(crate) link: Option<LinkType>,
    /// The ticks of a second of its times, at least 1; 0 if they have too many digits.
    pub(crate) per_second: u64,
    /// The seconds that are added to each of its times.
    pub(crate) offset: i64,
    /// The maximum number of bytes of a packet that were captured.
    pub(crate) most: u32,
}

/// Returns the ticks of a second by the option with this byte, or 0 if they have too many digits.
fn ticks_of(byte: u8) -> u64
    ensures { result ≡ ticks_of byte }
{
    let (base, power) = if byte < 128 {
        (10u64, byte)
    } else {
        (2u64, byte - 128)
    };
    base.checked_pow(power as u32).unwrap_or(0)
}

/// Returns the first bytes of the option with this code, `least` bytes, or `None` if no option has this
/// code and so many bytes.
fn option_in(order: ByteOrder, options: &[u8], code: u16, least: usize) -> Option<&[u8]>
    ensures some { IfSome result (λ bytes. HasOption order code least options.now bytes.now) }
    ensures none { IfNone result ((bytes : List ℕ) →
        HasOption order code least options.now bytes → ⊥) }
    ensures long { IfSome result (λ bytes. length bytes.now ≡ least) }
{
    if options.len() < 4 {
        return None;
    }
    let (found, length) = (
        number16(order, options, 0),
        number16(order, options, 2) as usize,
    );
    if found == 0 {
        return None;
    }
    if found == code && least <= length && least <= options.len() - 4 {
        return Some(&options[4..4 + least]);
    }
    let next = 4 + (length + 3) / 4 * 4;
    if next > options.len() {
        return None;
    }
    option_in(order, &options[next..], code, least)
}

/// Returns the ticks of a second that options say, or 1,000,000 if they do not say them.
fn ticks_in(order: ByteOrder, options: &[u8]) -> u64
    ensures ticks { (byte : ℕ) → HasResolution order options.now byte → result ≡ ticks_of byte }
    ensures micros { ((byte : ℕ) → HasResolution order options.now byte → ⊥) → result ≡ 1000000 }
{
    match option_in(order, options, RESOLUTION, 1) {
        Some(bytes) => ticks_of(bytes[0]),
        None => MICROS,
    }
}

/// Returns the seconds that options say are added to each time, or 0 if they do not say them.
fn offset_in(order: ByteOrder, options: &[u8]) -> i64
    ensures offset { (offset : ℤ) → HasOffset order options.now offset → result ≡ offset }
    ensures none { ((offset : ℤ) → HasOffset order options.now offset → ⊥) → result ≡ pos 0 }
{
    match option_in(order, options, OFFSET, 8) {
        Some(bytes) => number64(order, bytes, 0).cast_signed(),
        None => 0,
    }
}

impl Interface {
    /// Returns the interface of a pcap file.
    pub(crate) fn of_pcap(link: LinkType, per_second: u32) -> Interface
        ensures link { result.link ≡ Some link }
        ensures ticks { result.per_second ≡ per_second }
        ensures offset { result.offset ≡ pos 0 }
        ensures most { result.most ≡ 4294967295 }
    {
        Interface {
            link: Some(link),
            per_second: per_second as u64,
            offset: 0,
            most: u32::MAX,
        }
    }

    /// Returns the interface that a pcapng block describes, which has at least 20 bytes.
    pub(crate) fn of_block(order: ByteOrder, block: &[u8]) -> Interface
        requires { 20 ≤ length block.now }
        ensures { IsDescribed order block.now result }
    {
        let options = &block[16..block.len() - 4];
        Interface {
            link: LinkType::of_number(number16(order, block, 8) as u32),
            per_second: ticks_in(order, options),
            offset: offset_in(order, options),
            most: number32(order, block, 12),
        }
    }
}
