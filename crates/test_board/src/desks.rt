//! Clients whose answers arrive in any order, compared with lists of answers.

use crate::draw::Draw;
use crate::replay::Expected;
use resp_board::Desk;
use std::alloc::{AllocError, Global};

/// Runs this many events of one client, and returns how often its desk and the list of its answers
/// disagreed, and how many answers arrived before their turn.
pub(crate) fn run(alloc: Global, seed: u64, events: u64) -> Result<(u64, u64), AllocError> {
    let mut draw = Draw::new(seed);
    let mut desk = Desk::new(alloc);
    let mut expected = Expected::new(alloc);
    let (mut wrong, mut early) = (0, 0);
    for event in 0..events {
        match draw.below(8) {
            0 | 1 | 2 => {
                let number = desk.ask().map_err(|_| AllocError)?;
                if number != expected.answers.len() as u64 {
                    wrong += 1;
                }
                expected.answers.push(None).map_err(|_| AllocError)?;
            }
            3 | 4 | 5 => {
                if let Some(number) = missing(&expected, draw.below(9)) {
                    let text = text_of(alloc, event)?;
                    desk.answer(number as u64, text.as_slice())?;
                    if expected.answers.iter().take(number).any(Option::is_none) {
                        early += 1;
                    }
                    expected.answers[number] = Some(text);
                }
            }
            6 => {
                let text = text_of(alloc, event)?;
                desk.own(text.as_slice()).map_err(|_| AllocError)?;
                expected.answers.push(Some(text)).map_err(|_| AllocError)?;
            }
            _ => {
                let count = draw.below(desk.out().len() as u64 + 1) as usize;
                expected.got.extend_from_slice(&desk.out()[..count])?;
                desk.given(count);
            }
        }
        let first = expected.answers.iter().position(Option::is_none);
        let waiting = first.map_or(0, |first| expected.answers.len() - first);
        if !expected.is_due(alloc, desk.out())? || desk.waiting() != waiting as u64 {
            wrong += 1;
        }
    }
    Ok((wrong, early))
}

/// Returns the number of a command without an answer, behind so many others without one if there are
/// so many, and `None` if there is none.
fn missing(expected: &Expected, behind: u64) -> Option<usize> {
    let mut found = None;
    let mut passed = 0;
    for (number, answer) in expected.answers.iter().enumerate() {
        if answer.is_none() {
            found = Some(number);
            if passed == behind {
                break;
            }
            passed += 1;
        }
    }
    found
}

/// Returns a text that no other event has.
fn text_of(alloc: Global, event: u64) -> Result<Vec<u8>, AllocError> {
    let mut text = Vec::from_slice(alloc, b":")?;
    let mut rest = event;
    while rest > 0 {
        text.push(b'0' + (rest % 10) as u8).map_err(|_| AllocError)?;
        rest /= 10;
    }
    text.extend_from_slice(b"\r\n")?;
    Ok(text)
}
