//! Doubles that are made at random are read back, and a small reader of the grammar judges texts of
//! doubles in which one byte was changed at random.

use super::build::{limits_with_doubles, vec};
use super::check_equal;
use super::draw::Draw;
use super::grammar::{is_of_grammar, length_begun};
use super::texts::check_encode;
use resp_decode::decode_all;
use resp_value::cause::Cause;
use resp_value::double::{Double, is_double};
use resp_value::value::Value;
use resp_value::version::Version;
use std::process::Abort;

/// How many doubles are made.
const MADE: u64 = 20_000;

/// The names of the grammar.
const NAMES: [&[u8]; 4] = [b"inf", b"-inf", b"nan", b"-nan"];

/// The bytes of doubles, and bytes that no double has.
const BYTES: &[u8] = b"00123456789+-..eEinfna ,xINF_:\r\n\0\xff";

/// Appends a byte.
fn add<R: Abort>(rt: &R, text: &mut Vec<u8>, byte: u8) {
    text.push(byte).expect(rt, "out of memory");
}

/// Appends a `+`, a `-`, or nothing.
fn add_sign<R: Abort>(rt: &R, draw: &mut Draw, text: &mut Vec<u8>) {
    match draw.below(3) {
        0 => add(rt, text, b'+'),
        1 => add(rt, text, b'-'),
        _ => {}
    }
}

/// Appends one to six digits.
fn add_digits<R: Abort>(rt: &R, draw: &mut Draw, text: &mut Vec<u8>) {
    for _ in 0..=draw.below(6) {
        let digit = draw.below(10) as usize;
        add(rt, text, *b"0123456789".get(digit).unwrap_or(&b'0'));
    }
}

/// Returns a double made at random from the grammar.
fn made<R: Abort + AllocGlobal>(rt: &R, draw: &mut Draw) -> Vec<u8> {
    let chosen = draw.below(20) as usize;
    if let Some(name) = NAMES.get(chosen) {
        return vec(rt, name);
    }
    let mut text = Vec::new(rt.alloc());
    add_sign(rt, draw, &mut text);
    add_digits(rt, draw, &mut text);
    if draw.below(2) == 0 {
        add(rt, &mut text, b'.');
        add_digits(rt, draw, &mut text);
    }
    if draw.below(2) == 0 {
        add(rt, &mut text, if draw.below(2) == 0 { b'e' } else { b'E' });
        add_sign(rt, draw, &mut text);
        add_digits(rt, draw, &mut text);
    }
    text
}

/// Returns the line of a double with this text.
fn line_of<R: Abort + AllocGlobal>(rt: &R, text: &[u8]) -> Vec<u8> {
    let mut line = vec(rt, b",");
    line.extend_from_slice(text).expect(rt, "out of memory");
    line.extend_from_slice(b"\r\n").expect(rt, "out of memory");
    line
}

/// Checks that the line of a double is read as the value of its text, and written for it.
fn check_read_back<R: Abort + AllocGlobal>(rt: &R, text: &[u8]) {
    let line = line_of(rt, text);
    let limits = &limits_with_doubles();
    let Ok(double) = Double::new(vec(rt, text)) else {
        panic!(rt; "the text {} is refused", text.escape_ascii())
    };
    let value = Value::Double(double);
    check_encode(rt, Version::Three, limits, &value, Ok(line.as_slice()));
    match decode_all(rt.alloc(), Version::Three, limits, line.as_slice()) {
        Ok(values) => check_equal(rt, values.as_slice(), &[value]),
        Err(fault) => panic!(rt; "the line of {} is refused: {fault}", text.escape_ascii()),
    }
}

#[test]
fn doubles_made_at_random_are_read_back(rt: HostRuntime) {
    let mut draw = Draw::new(1);
    for _ in 0..MADE {
        let text = made(&rt, &mut draw);
        check_read_back(&rt, text.as_slice());
    }
}

/// Returns a text with one byte replaced, added, or taken away.
fn changed<R: Abort + AllocGlobal>(rt: &R, draw: &mut Draw, text: &[u8]) -> Vec<u8> {
    let at = draw.below(text.len() as u64) as usize;
    let chosen = draw.below(BYTES.len() as u64) as usize;
    let byte = *BYTES.get(chosen).unwrap_or(&b'x');
    let way = draw.below(3);
    let mut changed = Vec::new(rt.alloc());
    for (index, old) in text.iter().enumerate() {
        if index == at && way < 2 {
            add(rt, &mut changed, byte);
        }
        if index != at || way == 1 {
            add(rt, &mut changed, *old);
        }
    }
    changed
}

/// Checks what is said about a text by what the reader of the grammar says about it. The fault of its
/// line is at the first byte that no double has there: behind the bytes that begin one.
fn check_judged<R: Abort + AllocGlobal>(rt: &R, text: &[u8], room: &mut Vec<u8>) -> bool {
    let is_one = is_of_grammar(text);
    let length = length_begun(text, room).expect(rt, "out of memory");
    check_equal(rt, (text, is_double(text)), (text, is_one));
    let line = line_of(rt, text);
    let limits = &limits_with_doubles();
    let found = match decode_all(rt.alloc(), Version::Three, limits, line.as_slice()) {
        Ok(values) => Ok(values.len()),
        Err(error) => Err((error.value, error.fault.cause, error.fault.at)),
    };
    let wanted = if is_one {
        Ok(1)
    } else {
        Err((1, Cause::Syntax, first_wrong(text, length)))
    };
    check_equal(rt, (text, found), (text, wanted));
    is_one
}

/// Returns where the first wrong byte of the line of a text is that is no double. So many of its bytes
/// begin one. If the CR of the line's end comes after a whole double in the text, it is not wrong, but
/// the byte after it is.
fn first_wrong(text: &[u8], length: usize) -> u64 {
    let begun = text.get(..length).unwrap_or_default();
    let is_end = is_of_grammar(begun) && text.get(length) == Some(&b'\r');
    let taken = (length as u64).saturating_add(1);
    if is_end {
        taken.saturating_add(1)
    } else {
        taken
    }
}

#[test]
fn doubles_changed_at_random_are_judged_by_the_grammar(rt: HostRuntime) {
    let mut draw = Draw::new(2);
    let mut room = Vec::new(rt.alloc());
    let (mut accepted, mut refused) = (0_u64, 0_u64);
    for _ in 0..MADE {
        let text = made(&rt, &mut draw);
        check_equal(&rt, is_of_grammar(text.as_slice()), true);
        let other = changed(&rt, &mut draw, text.as_slice());
        if check_judged(&rt, other.as_slice(), &mut room) {
            accepted = accepted.saturating_add(1);
        } else {
            refused = refused.saturating_add(1);
        }
    }
    check_equal(
        &rt,
        (accepted > MADE / 10, refused > MADE / 10),
        (true, true),
    );
}
