//! A small reader of the grammar of doubles, written apart from the stages of `resp_value`. It takes
//! a text from its front, part by part:
//! `[+-]?D+(.D+)?([eE][+-]?D+)? | -?inf | -?nan`.

/// Texts that complete each beginning of a double.
const COMPLETIONS: [&[u8]; 8] = [b"", b"0", b"inf", b"nf", b"f", b"nan", b"an", b"n"];

/// Returns the text after a sign, if it begins with one.
fn after_sign(text: &[u8]) -> &[u8] {
    match text.split_first() {
        Some((b'+' | b'-', rest)) => rest,
        _ => text,
    }
}

/// Returns the text after one or more digits, or `None` if it does not begin with a digit.
fn after_digits(text: &[u8]) -> Option<&[u8]> {
    let mut rest = text;
    while let Some((byte, beyond)) = rest.split_first() {
        if !byte.is_ascii_digit() {
            break;
        }
        rest = beyond;
    }
    if rest.len() == text.len() {
        None
    } else {
        Some(rest)
    }
}

/// Returns the text after a fraction, or the whole text if it does not begin with a point.
fn after_fraction(text: &[u8]) -> Option<&[u8]> {
    match text.split_first() {
        Some((b'.', rest)) => after_digits(rest),
        _ => Some(text),
    }
}

/// Returns the text after an exponent, or the whole text if it does not begin with its letter.
fn after_exponent(text: &[u8]) -> Option<&[u8]> {
    match text.split_first() {
        Some((b'e' | b'E', rest)) => after_digits(after_sign(rest)),
        _ => Some(text),
    }
}

/// Returns the text after a number, or `None` if it does not begin with one.
fn after_number(text: &[u8]) -> Option<&[u8]> {
    let rest = after_digits(after_sign(text))?;
    let rest = after_fraction(rest)?;
    after_exponent(rest)
}

/// Returns whether a text is that of a double.
pub fn is_of_grammar(text: &[u8]) -> bool {
    for name in [b"inf".as_slice(), b"-inf", b"nan", b"-nan"] {
        if text == name {
            return true;
        }
    }
    match after_number(text) {
        Some(rest) => rest.is_empty(),
        None => false,
    }
}

/// Returns whether a text is that of a double if one of the completions follows it.
fn begins_a_double(text: &[u8], completed: &mut Vec<u8>) -> Option<bool> {
    for completion in &COMPLETIONS {
        completed.clear();
        completed.extend_from_slice(text).ok()?;
        completed.extend_from_slice(completion).ok()?;
        if is_of_grammar(completed.as_slice()) {
            return Some(true);
        }
    }
    Some(false)
}

/// Returns how many bytes at the front of a text begin a double. `completed` is room. Returns `None`
/// if an allocation fails.
pub fn length_begun(text: &[u8], completed: &mut Vec<u8>) -> Option<usize> {
    let mut length = 0;
    for index in 0..text.len() {
        let next = index + 1;
        if !begins_a_double(text.get(..next)?, completed)? {
            return Some(length);
        }
        length = next;
    }
    Some(length)
}
