//! Colors and characters for the bytes of printed text, one byte after another.

ghost use Rattle.std.specs.Prelude.{◌≡◌, ◌++◌, ◌<◌, ℕ, List, true, codes};
ghost use Rattle.resp_paint.specs.Waiting.{MayWait, OnLater};

use crate::color::Color;
use crate::place::{LinePlace, color_of_heading, may_be_heading};
use crate::printable::{is_printable, length_from};
use crate::style::Style;
use arrayvec::ArrayVec;

/// The maximum number of bytes of text that wait for the end of a character: the escapes of four
/// bytes.
pub(crate) const MOST_HELD: usize = 16;

/// The maximum number of bytes that are printed for the bytes that wait.
pub(crate) const MOST_PAINTED: usize = 64;

/// The bytes of an escape: a backslash, `x`, and two digits.
const ESCAPE: usize = 4;

/// What is printed for the bytes that wait, of which the last one is new.
#[derive(Drop)]
pub(crate) enum Paint {
    /// Nothing, since the bytes may be part of a character.
    Later,
    /// This text.
    Now(ArrayVec<u8, MOST_PAINTED>),
}

/// The state of a text that is printed in a style.
#[derive(Clone, Copy)]
pub(crate) struct Painter {
    style: Style,
    place: LinePlace,
}

impl Painter {
    /// Returns the state at the beginning of a line.
    pub(crate) fn new(style: Style) -> Self
        ensures { result.style ≡ style }
    {
        Painter {
            style,
            place: LinePlace::Start,
        }
    }

    /// Returns the style.
    pub(crate) fn style(&self) -> Style
        ensures { result ≡ self.now.style }
    {
        self.style
    }

    /// Returns what is printed for the bytes that wait, after one more byte was added to them. Only the
    /// bytes with which a character or the heading of a line begins wait.
    pub(crate) fn next(&mut self, held: &[u8]) -> Paint
        ensures waits { OnLater result (MayWait self.old.style held.now) }
        ensures same_style { self.new.style ≡ self.old.style }
    {
        if self.style.utf8 && self.place.is_quoted() && may_be_character(held) {
            let bytes = escaped_bytes(held);
            if held.len() < MOST_HELD && !is_whole(held, &bytes) {
                return Paint::Later;
            }
            if is_printable(&bytes) {
                let mut text = ArrayVec::new();
                append(&mut text, &bytes);
                return Paint::Now(text);
            }
        }
        if self.style.colors && self.place.is_start() {
            if may_be_heading(held) {
                return Paint::Later;
            }
            if let Some(color) = color_of_heading(held) {
                return Paint::Now(self.heading(held, color));
            }
        }
        Paint::Now(self.as_they_are(held))
    }

    /// Returns a heading in the color of its line.
    fn heading(&mut self, held: &[u8], color: Color) -> ArrayVec<u8, MOST_PAINTED>
        ensures { self.new.style ≡ self.old.style }
    {
        let mut text = ArrayVec::new();
        let mut place = LinePlace::Colored;
        append(&mut text, color.sequence());
        for byte in held {
            let step = place.step(*byte);
            place = step.place;
            append(&mut text, step.before.sequence());
            append(&mut text, &[*byte]);
        }
        self.place = place;
        text
    }

    /// Returns the bytes with their colors.
    fn as_they_are(&mut self, held: &[u8]) -> ArrayVec<u8, MOST_PAINTED>
        ensures { self.new.style ≡ self.old.style }
    {
        let mut text = ArrayVec::new();
        let mut place = self.place;
        for byte in held {
            let step = place.step(*byte);
            place = step.place;
            if self.style.colors {
                append(&mut text, step.before.sequence());
            }
            append(&mut text, &[*byte]);
            if self.style.colors {
                append(&mut text, step.after.sequence());
            }
        }
        self.place = place;
        text
    }
}

/// Appends bytes, as far as there is room.
fn append<const N: usize>(text: &mut ArrayVec<u8, N>, bytes: &[u8]) {
    for byte in bytes {
        let _ = text.try_push(*byte);
    }
}

/// Returns whether the bytes are escapes of bytes that are not ASCII, of which the last may be
/// incomplete, and may begin or be a character.
fn may_be_character(held: &[u8]) -> bool
    ensures { result ≡ true → (rest : List ℕ) × (held.now ≡ codes "\\" ++ rest) }
{
    held.len() <= MOST_HELD
        && held.starts_with(b"\\")
        && held
            .chunks(ESCAPE)
            .enumerate()
            .all(|(index, escape)| may_be_escape(index, escape))
}

/// Returns whether the bytes are the escape, or a beginning of the escape, of a byte that may be at this
/// index of a character.
fn may_be_escape(index: usize, escape: &[u8]) -> bool {
    let begins = match escape {
        [b'\\'] | [b'\\', b'x'] => true,
        [b'\\', b'x', digit] | [b'\\', b'x', digit, _] =>
            matches!(*digit, b'8'..=b'9' | b'a'..=b'f'),
        _ => false,
    };
    begins
        && match byte_of(escape) {
            Some(byte) if index == 0 => length_from(byte) > 0,
            Some(byte) => (0x80..=0xBF).contains(&byte),
            None => true,
        }
}

/// Returns the byte of an escape, or `None` if it is not complete.
fn byte_of(escape: &[u8]) -> Option<u8> {
    match escape {
        [_, _, high, low] => Some(digit_of(*high) * 16 + digit_of(*low)),
        _ => None,
    }
}

/// Returns the value of a hexadecimal digit in lower case, and 0 for any other byte.
fn digit_of(digit: u8) -> u8
    ensures { result < 16 }
{
    match digit {
        b'0'..=b'9' => digit - b'0',
        b'a'..=b'f' => digit - b'a' + 10,
        _ => 0,
    }
}

/// Returns the bytes whose complete escapes these are.
fn escaped_bytes(held: &[u8]) -> ArrayVec<u8, MOST_HELD> {
    let mut bytes = ArrayVec::new();
    for escape in held.chunks(ESCAPE) {
        if let Some(byte) = byte_of(escape) {
            append(&mut bytes, &[byte]);
        }
    }
    bytes
}

/// Returns whether the escapes are complete, and are those of as many bytes as the first one
/// announces.
fn is_whole(held: &[u8], bytes: &[u8]) -> bool {
    match bytes.first() {
        Some(first) => {
            let is_complete = held.len() % ESCAPE == 0;
            is_complete && bytes.len() >= length_from(*first)
        }
        None => false,
    }
}
