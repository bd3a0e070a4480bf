//! A whole value.

ghost use Rattle.std.specs.Prelude.{◌≡◌, length};
ghost use Rattle.resp_frames.specs.Texts.{text_of, used_of};

/// The bytes of a whole value.
#[derive(Debug, Drop)]
pub enum Frame<'a> {
    /// The value is at the beginning of the piece.
    InPiece(&'a [u8]),
    /// The value began in an earlier piece. Its bytes were copied.
    Held {
        /// The number of bytes of the piece that belong to the value.
        used: usize,
        /// The bytes of the value.
        text: Vec<u8>,
    },
}

impl<'a> Frame<'a> {
    /// Returns the bytes of the value.
    pub fn text(&self) -> &[u8]
        ensures { result.now ≡ text_of self.now }
    {
        match self {
            Frame::InPiece(text) => text,
            Frame::Held { used: _, text } => text,
        }
    }

    /// Returns the number of bytes of the piece that belong to the value.
    pub fn used(&self) -> usize
        ensures { result ≡ used_of self.now }
    {
        match self {
            Frame::InPiece(text) => text.len(),
            Frame::Held { used, text: _ } => *used,
        }
    }
}
