//! Room in a buffer for a text.

ghost use Rattle.std.specs.Prelude.{◌≡◌, ◌+◌, ◌≤◌, ◌^◌, length, IfErr};
ghost use Rattle.std.specs.Bool.{OnTrue};
ghost use Rattle.bytes.specs.Filled.{MakesSpare};
ghost use Rattle.resp_value.specs.Numbers.{decimal};

use crate::error::EncodeError;
use crate::measure::head_size;
use bytes::BytesMut;

/// The number of bytes of the longest head: the type byte, the twenty digits of the greatest `u64`,
/// CR and LF.
const LONGEST_HEAD: u64 = 23;

/// Makes room for `size` more bytes. The bytes in the buffer stay the same.
#[inline]
pub(crate) fn reserve(out: &mut BytesMut, size: usize) -> Result<(), EncodeError>
    ensures items { out.new.items ≡ out.old.items }
    ensures spare { MakesSpare result out.old.spare out.new.spare size }
    ensures memory { IfErr result (λ error. error ≡ EncodeError.OutOfMemory) }
{
    match out.reserve(size) {
        Ok(()) => Ok(()),
        Err(_) => Err(EncodeError::OutOfMemory),
    }
}

/// Returns the number of bytes that the buffer can receive without growing.
#[inline]
pub(crate) fn room(out: &BytesMut) -> u64
    ensures { result ≡ out.now.spare }
{
    (out.capacity() - out.len()) as u64
}

/// Returns true only if there is room for a head with this number and the bytes after it. Counts
/// the digits only if there is little room.
#[inline(always)]
pub(crate) fn has_room_for_head(out: &BytesMut, number: u64, beyond: u64) -> bool
    requires { beyond ≤ 2 ^ 63 + 6 }
    ensures { OnTrue result (length (decimal number) + 3 + beyond ≤ out.now.spare) }
{
    let room = room(out);
    beyond + LONGEST_HEAD <= room || head_size(number) + beyond <= room
}
