//! Numbers of two, four and eight bytes, in either byte order.

ghost use Rattle.std.specs.Prelude.{◌≡◌, ◌+◌, ◌≤◌, length};
ghost use Rattle.resp_capture.specs.Numbers.{number16, number32, number64};

/// The order of the bytes of a number.
#[derive(Clone, Copy, Debug, PartialEq, Eq)]
pub enum ByteOrder {
    /// The byte of the greatest value is first.
    Big,
    /// The byte of the least value is first.
    Little,
}

/// Returns the number in the two bytes from `at` on.
pub(crate) fn number16(order: ByteOrder, bytes: &[u8], at: usize) -> u16
    requires { at + 2 ≤ length bytes.now }
    ensures { result ≡ number16 order at bytes.now }
{
    let (first, second) = (bytes[at] as u16, bytes[at + 1] as u16);
    match order {
        ByteOrder::Big => first * 256 + second,
        ByteOrder::Little => second * 256 + first,
    }
}

/// Returns the number in the four bytes from `at` on.
pub(crate) fn number32(order: ByteOrder, bytes: &[u8], at: usize) -> u32
    requires { at + 4 ≤ length bytes.now }
    ensures { result ≡ number32 order at bytes.now }
{
    let first = number16(order, bytes, at) as u32;
    let second = number16(order, bytes, at + 2) as u32;
    match order {
        ByteOrder::Big => first * 65_536 + second,
        ByteOrder::Little => second * 65_536 + first,
    }
}

/// Returns the number in the eight bytes from `at` on.
pub(crate) fn number64(order: ByteOrder, bytes: &[u8], at: usize) -> u64
    requires { at + 8 ≤ length bytes.now }
    ensures { result ≡ number64 order at bytes.now }
{
    let first = number32(order, bytes, at) as u64;
    let second = number32(order, bytes, at + 4) as u64;
    match order {
        ByteOrder::Big => first * 4_294_967_296 + second,
        ByteOrder::Little => second * 4_294_967_296 + first,
    }
}
