//! A part of a client's bytes.

/// The next part of a client's bytes: a command, or bytes that the proxy skips.
#[derive(Drop)]
pub(crate) enum Part {
    /// It is whole, was taken, and ends after this many bytes of the piece.
    Whole(usize),
    /// It does not end in the piece. All bytes of the piece are held.
    Partial,
    /// It is a command that needs a dedicated connection, and has this text, an array or a line. It
    /// was not taken. It ends after this many bytes of the piece.
    Aside(usize, Vec<u8>),
}
