//! The sizes of blocks, and what a capture says in its first ones.

ghost use Rattle.std.specs.Prelude.{◌≡◌, ◌≤◌, length, IfOk};
ghost use Rattle.resp_capture.specs.Blocks.{block_size_said, checked_size, first_size, magic_of, pcapng_size, record_size, section_order, size_of};

use crate::error::Reason;
use crate::number::{ByteOrder, number32};

/// The maximum number of bytes of a block.
pub const MOST_BLOCK: usize = 1_048_576;

/// The type of a pcapng section header block.
pub(crate) const SECTION: u32 = 0x0a0d_0d0a;

/// What is known about a file.
#[derive(Clone, Copy, Debug, PartialEq, Eq)]
pub(crate) enum Format {
    /// Nothing.
    Unknown,
    /// It is a pcap file. Its numbers have this order.
    Pcap(ByteOrder),
    /// It is a pcapng file. The numbers of the section have this order.
    Pcapng(ByteOrder),
}

/// The order of the numbers of a pcap file, and the ticks of a second.
#[derive(Clone, Copy, Debug, PartialEq, Eq)]
pub(crate) struct Magic {
    pub(crate) order: ByteOrder,
    pub(crate) per_second: u32,
}

/// Returns what the first number of a pcap file says, or `None` if the file is not a pcap file.
pub(crate) fn magic_of(number: u32) -> Option<Magic>
    ensures { result ≡ magic_of number }
{
    match number {
        0xa1b2_c3d4 => Some(Magic {
            order: ByteOrder::Big,
            per_second: 1_000_000,
        }),
        0xd4c3_b2a1 => Some(Magic {
            order: ByteOrder::Little,
            per_second: 1_000_000,
        }),
        0xa1b2_3c4d => Some(Magic {
            order: ByteOrder::Big,
            per_second: 1_000_000_000,
        }),
        0x4d3c_b2a1 => Some(Magic {
            order: ByteOrder::Little,
            per_second: 1_000_000_000,
        }),
        _ => None,
    }
}

/// Returns the order of the numbers of a section whose third number this is, as if it were
/// big-endian.
pub(crate) fn section_order(number: u32) -> Option<ByteOrder>
    ensures { result ≡ section_order number }
{
    match number {
        0x1a2b_3c4d => Some(ByteOrder::Big),
        0x4d3c_2b1a => Some(ByteOrder::Little),
        _ => None,
    }
}

/// Returns the number of bytes of a pcapng block, as its head says.
fn checked_size(size: u32) -> Result<usize, Reason>
    ensures size { result ≡ checked_size size }
    ensures bounded { IfOk result (λ size. size ≤ 1048576) }
{
    let size = size as usize;
    if size < 12 || size % 4 > 0 {
        Err(Reason::WrongLength)
    } else if size > MOST_BLOCK {
        Err(Reason::TooLong)
    } else {
        Ok(size)
    }
}

/// Returns the number of bytes of a pcapng block that begins with these bytes. Its numbers have
/// this order, unless it begins a section.
fn block_size_said(order: ByteOrder, bytes: &[u8]) -> Result<usize, Reason>
    requires { 12 ≤ length bytes.now }
    ensures size { result ≡ block_size_said order bytes.now }
    ensures bounded { IfOk result (λ size. size ≤ 1048576) }
{
    if number32(ByteOrder::Big, bytes, 0) != SECTION {
        return checked_size(number32(order, bytes, 4));
    }
    match section_order(number32(ByteOrder::Big, bytes, 8)) {
        Some(order) => checked_size(number32(order, bytes, 4)),
        None => Err(Reason::NotACapture),
    }
}

/// Returns the number of bytes of a pcapng block that begins with these bytes, or the number of
/// bytes that are needed to know that.
fn pcapng_size(order: ByteOrder, bytes: &[u8]) -> Result<usize, Reason>
    ensures size { result ≡ pcapng_size order bytes.now }
    ensures bounded { IfOk result (λ size. size ≤ 1048576) }
{
    if bytes.len() < 12 {
        Ok(12)
    } else {
        block_size_said(order, bytes)
    }
}

/// Returns the number of bytes of a pcap record that begins with these bytes, or the number of
/// bytes that are needed to know that.
fn record_size(order: ByteOrder, bytes: &[u8]) -> Result<usize, Reason>
    ensures size { result ≡ record_size order bytes.now }
    ensures bounded { IfOk result (λ size. size ≤ 1048576) }
{
    if bytes.len() < 16 {
        return Ok(16);
    }
    let size = number32(order, bytes, 8) as usize + 16;
    if size > MOST_BLOCK {
        Err(Reason::TooLong)
    } else {
        Ok(size)
    }
}

/// Returns the number of bytes of the first block of a file that begins with these bytes, or the
/// number of bytes that are needed to know that.
fn first_size(bytes: &[u8]) -> Result<usize, Reason>
    ensures size { result ≡ first_size bytes.now }
    ensures bounded { IfOk result (λ size. size ≤ 1048576) }
{
    if bytes.len() < 4 {
        return Ok(4);
    }
    let number = number32(ByteOrder::Big, bytes, 0);
    if magic_of(number).is_some() {
        Ok(24)
    } else if number == SECTION {
        pcapng_size(ByteOrder::Big, bytes)
    } else {
        Err(Reason::NotACapture)
    }
}

/// Returns the number of bytes of a block that begins with these bytes, or the number of bytes that
/// are needed to know that.
pub(crate) fn block_size(format: Format, bytes: &[u8]) -> Result<usize, Reason>
    ensures size { result ≡ size_of format bytes.now }
    ensures bounded { IfOk result (λ size. size ≤ 1048576) }
{
    match format {
        Format::Unknown => first_size(bytes),
        Format::Pcap(order) => record_size(order, bytes),
        Format::Pcapng(order) => pcapng_size(order, bytes),
    }
}
