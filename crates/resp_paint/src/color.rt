//! The sequences of bytes that switch the colors of a terminal.

/// A color, or the end of one. Each color ends the one before.
#[derive(Clone, Copy, Debug, PartialEq, Eq)]
pub(crate) enum Color {
    /// No change.
    Same,
    /// Errors.
    Red,
    /// Texts.
    Green,
    /// Numbers and booleans.
    Magenta,
    /// Nulls.
    Dim,
    /// Lines about clients and commands.
    Bold,
    /// The end of a color.
    Reset,
}

impl Color {
    /// Returns the bytes that switch to this color.
    pub(crate) fn sequence(self) -> &'static [u8] {
        match self {
            Color::Same => b"",
            Color::Red => b"\x1b[0;31m",
            Color::Green => b"\x1b[0;32m",
            Color::Magenta => b"\x1b[0;35m",
            Color::Dim => b"\x1b[0;2m",
            Color::Bold => b"\x1b[0;1m",
            Color::Reset => b"\x1b[0m",
        }
    }
}
