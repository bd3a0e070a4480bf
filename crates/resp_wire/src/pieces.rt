//! Pieces of the bytes that are read.

ghost use Rattle.std.specs.Prelude.{◌≡◌, ◌≤◌, drop, length};

/// The maximum number of bytes of one read, if the caller lends no buffer.
pub(crate) const PIECE: usize = 4_096;

/// Returns the bytes from this index on.
#[inline]
pub(crate) fn beyond(piece: &[u8], from: usize) -> &[u8]
    requires { from ≤ length piece.now }
    ensures { result.now ≡ drop from piece.now }
{
    &piece[from..]
}
