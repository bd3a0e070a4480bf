//! The text without colors and with escapes that a painted text stands for.

ghost use Rattle.std.specs.Prelude.{◌≡◌, ◌≤◌, ◌<◌, ◌∷◌, ◌++◌, ℕ, List, length, true, IfSome};
ghost use Rattle.resp_paint.specs.Plain.{Shows, beyond_sequence, plain_text, shown_byte};

use resp_print::hex::hex_digit;

/// The byte that begins a sequence.
const ESCAPE: u8 = 27;

/// Returns whether `painted` shows `plain`: without the sequences that switch colors, and with an
/// escape in place of each byte that is not ASCII, it is that text, and it ends outside a sequence.
pub(crate) fn shows(painted: &[u8], plain: &[u8]) -> bool
    ensures { result ≡ true → Shows painted.now plain.now }
{
    let Some((byte, beyond)) = painted.split_first() else {
        return plain.is_empty();
    };
    if *byte == ESCAPE {
        return match after_sequence(beyond) {
            Some(rest) => shows(rest, plain),
            None => false,
        };
    }
    match after_byte(*byte, plain) {
        Some(rest) => shows(beyond, rest),
        None => false,
    }
}

/// Returns the bytes after a sequence whose first byte was read.
fn after_sequence(text: &[u8]) -> Option<&[u8]>
    ensures same_text { IfSome result (λ rest. (more : List ℕ) →
        beyond_sequence (text.now ++ more) ≡ plain_text (rest.now ++ more)) }
    ensures shorter { IfSome result (λ rest. length rest.now ≤ length text.now) }
{
    let (byte, beyond) = text.split_first()?;
    if *byte == b'm' {
        return Some(beyond);
    }
    after_sequence(beyond)
}

/// Returns the text after the one that a byte stands for: the byte itself if it is ASCII, otherwise
/// its escape.
fn after_byte(byte: u8, plain: &[u8]) -> Option<&[u8]>
    ensures { IfSome result (λ rest. plain.now ≡ shown_byte byte ++ rest.now) }
{
    if byte < 128 {
        return after_first(byte, plain);
    }
    let digits = after_first(b'x', after_first(b'\\', plain)?)?;
    after_first(
        hex_digit(byte % 16),
        after_first(hex_digit(byte / 16), digits)?,
    )
}

/// Returns the text after its first byte, if this is that byte.
fn after_first(byte: u8, text: &[u8]) -> Option<&[u8]>
    ensures { IfSome result (λ rest. text.now ≡ byte ∷ rest.now) }
{
    let (first, rest) = text.split_first()?;
    if *first == byte { Some(rest) } else { None }
}
