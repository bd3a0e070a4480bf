//! A part of a side that waits for bytes before it.

ghost use Rattle.std.specs.Prelude.{◌+◌, ◌<◌, ◌^◌};
ghost use Rattle.std.specs.Prelude.{length};

use bytes::BytesMut;

/// A part of a side that waits for bytes before it.
#[derive(Debug, Drop)]
pub(crate) struct WaitingPart {
    /// The place of its first byte.
    pub(crate) at: u64,
    pub(crate) bytes: BytesMut,
    ghost fits: { at + length bytes.items < 2 ^ 64 },
}
