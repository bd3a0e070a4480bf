//! The place of a byte in a line of printed text, from which its color follows.

ghost use Rattle.std.specs.Prelude.{◌≡◌, ◌<◌, length, true};

use crate::color::Color;

/// The word `int`, as the number that its bytes are.
const INT: u64 = 0x69_6E74;

/// The word `big`.
const BIG: u64 = 0x62_6967;

/// The word `double`.
const DOUBLE: u64 = 0x646F_7562_6C65;

/// The word `error`.
const ERROR: u64 = 0x65_7272_6F72;

/// The last eight bytes of the word `bulkerror`.
const BULK_ERROR: u64 = 0x756C_6B65_7272_6F72;

/// The beginnings of the lines that have one color up to their end.
const HEADINGS: [(&[u8], Color); 6] = [
    (b"client ", Color::Bold),
    (b"command ", Color::Bold),
    (b"reply ", Color::Bold),
    (b"null\n", Color::Dim),
    (b"true\n", Color::Magenta),
    (b"false\n", Color::Magenta),
];

/// The number of bytes of the longest heading.
const LONGEST: usize = 8;

/// The place after the bytes of a line so far.
#[derive(Clone, Copy, Debug, PartialEq, Eq)]
pub(crate) enum LinePlace {
    /// At the beginning of a line, or in its indentation.
    Start,
    /// In the first word, of which this number has the last eight bytes.
    Word(u64),
    /// After the first word. Texts in quotes have this color.
    Beyond(Color),
    /// In quotes.
    Quoted(Color),
    /// In quotes, after a backslash.
    Escaped(Color),
    /// In a line that is colored up to its end.
    Colored,
}

/// The effect of a byte.
#[derive(Clone, Copy)]
pub(crate) struct ByteEffect {
    /// The color that is switched to before the byte.
    pub(crate) before: Color,
    /// The color that is switched to after the byte.
    pub(crate) after: Color,
    /// The place after the byte.
    pub(crate) place: LinePlace,
}

/// Returns the step to a place, without a change of color.
fn to(place: LinePlace) -> ByteEffect {
    colored(Color::Same, place)
}

/// Returns the step to a place, with a color from the byte on.
fn colored(before: Color, place: LinePlace) -> ByteEffect {
    ByteEffect {
        before,
        after: Color::Same,
        place,
    }
}

/// Returns whether these bytes of a line, after its indentation, begin a heading and do not end it.
pub(crate) fn may_be_heading(bytes: &[u8]) -> bool
    ensures { result ≡ true → length bytes.now < 8 }
{
    bytes.len() < LONGEST
        && HEADINGS.iter().any(|(heading, _)| heading.len() > bytes.len()
            && heading.starts_with(bytes))
}

/// Returns the color of a line that begins with these bytes after its indentation, if they are a
/// heading.
pub(crate) fn color_of_heading(bytes: &[u8]) -> Option<Color> {
    for (heading, color) in &HEADINGS {
        if *heading == bytes {
            return Some(*color);
        }
    }
    None
}

impl LinePlace {
    /// Returns whether the next byte is the first one of a line after its indentation.
    pub(crate) fn is_start(self) -> bool {
        self == LinePlace::Start
    }

    /// Returns whether the next byte is inside quotes, and not after a backslash.
    pub(crate) fn is_quoted(self) -> bool {
        matches!(self, LinePlace::Quoted(_))
    }

    /// Returns the effect of the next byte.
    pub(crate) fn step(self, byte: u8) -> ByteEffect {
        match self {
            LinePlace::Start => begin(byte),
            LinePlace::Word(word) => in_word(word, byte),
            LinePlace::Beyond(color) => match byte {
                b'\n' => to(LinePlace::Start),
                b'"' => colored(color, LinePlace::Quoted(color)),
                _ => to(self),
            },
            LinePlace::Quoted(color) => in_quotes(color, byte),
            LinePlace::Escaped(color) => to(LinePlace::Quoted(color)),
            LinePlace::Colored => match byte {
                b'\n' => colored(Color::Reset, LinePlace::Start),
                _ => to(self),
            },
        }
    }
}

/// Returns the effect of a byte at the beginning of a line.
fn begin(byte: u8) -> ByteEffect {
    match byte {
        b' ' | b'\n' => to(LinePlace::Start),
        b'"' => colored(Color::Green, LinePlace::Quoted(Color::Green)),
        _ => to(LinePlace::Word(u64::from(byte))),
    }
}

/// Returns the effect of a byte in the first word of a line.
fn in_word(word: u64, byte: u8) -> ByteEffect {
    match byte {
        b'\n' => to(LinePlace::Start),
        b' ' => match word {
            INT | BIG => ByteEffect {
                before: Color::Same,
                after: Color::Magenta,
                place: LinePlace::Colored,
            },
            DOUBLE => to(LinePlace::Beyond(Color::Magenta)),
            ERROR | BULK_ERROR => to(LinePlace::Beyond(Color::Red)),
            _ => to(LinePlace::Beyond(Color::Green)),
        },
        _ => to(LinePlace::Word(word.wrapping_mul(256) | u64::from(byte))),
    }
}

/// Returns the effect of a byte in quotes.
fn in_quotes(color: Color, byte: u8) -> ByteEffect {
    match byte {
        b'\\' => to(LinePlace::Escaped(color)),
        b'\n' => colored(Color::Reset, LinePlace::Start),
        b'"' => ByteEffect {
            before: Color::Same,
            after: Color::Reset,
            place: LinePlace::Beyond(color),
        },
        _ => to(LinePlace::Quoted(color)),
    }
}
