//! The slots of keys.

ghost use Rattle.std.specs.Prelude.{◌≡◌, ◌<◌, ◌≤◌, length};
ghost use Rattle.resp_commands.specs.Slots.{bytes_before, hashed_part, slot_of};

use crate::checksum::crc16;

/// Returns the slot of a key in a Redis Cluster, below 16,384.
///
/// # Examples
///
/// Keys with the same hash tag have the same slot, as `{user1000}.following` and
/// `{user1000}.followers`.
pub fn slot(key: &[u8]) -> u16
    ensures slot { result ≡ slot_of key.now }
    ensures below { result < 16384 }
{
    crc16(hashed_part(key)) % 16_384
}

/// Returns the part of a key that determines its slot. This is its hash tag, the bytes between the
/// first `{` and the first `}` after it, if the key has both and a byte between them. Otherwise it
/// is the whole key.
pub fn hashed_part(key: &[u8]) -> &[u8]
    ensures { result.now ≡ hashed_part key.now }
{
    let open = bytes_before(b'{', key);
    if open == key.len() {
        return key;
    }
    let rest = &key[open + 1..];
    let count = bytes_before(b'}', rest);
    if count == 0 || count == rest.len() {
        return key;
    }
    &rest[..count]
}

/// Returns the number of bytes before the first occurrence of this byte, or of all bytes if it does
/// not occur.
fn bytes_before(wanted: u8, bytes: &[u8]) -> usize
    ensures count { result ≡ bytes_before wanted bytes.now }
    ensures within { result ≤ length bytes.now }
{
    for i in 0..bytes.len() {
        if bytes[i] == wanted {
            return i;
        }
    }
    bytes.len()
}
