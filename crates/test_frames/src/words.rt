//! Commands one after another, cut at each byte: the number, the class and the keys of their words.

use crate::cuts::Tally;
use anyhow::Result;
use resp_commands::Class;
use resp_frames::{Begun, CommandFrame, CommandWords, FrameError, Frames};
use resp_value::cause::Cause;
use resp_value::limits::Limits;
use resp_value::version::Version;
use std::alloc::Global;

/// The commands of the stream.
const COMMANDS: &[u8] = b"*2\r\n$3\r\nGet\r\n$3\r\nkey\r\n\
*1\r\n$4\r\nPING\r\n\
*4\r\n$5\r\nxread\r\n$7\r\nstreams\r\n$5\r\nblock\r\n$1\r\n0\r\n\
*6\r\n$5\r\nXREAD\r\n$5\r\nblock\r\n$1\r\n0\r\n$7\r\nstreams\r\n$1\r\ns\r\n$1\r\n0\r\n\
*3\r\n$6\r\nclient\r\n$8\r\nTRACKING\r\n$2\r\non\r\n\
*2\r\n$6\r\nclient\r\n$5\r\npause\r\n\
*2\r\n$3\r\nfoo\r\n$3\r\nkey\r\n\
*5\r\n$4\r\nmset\r\n$1\r\na\r\n$1\r\n1\r\n$1\r\nb\r\n$1\r\n2\r\n\
*6\r\n$4\r\nEVAL\r\n$1\r\n-\r\n$1\r\n2\r\n$1\r\nk\r\n$1\r\nl\r\n$1\r\nm\r\n\
*2\r\n$3\r\nGet\r\n$5\r\nother\r\n\
*2\r\n$3\r\nGeo\r\n$3\r\nkey\r\n\
*2\r\n$3\r\nGet\r\n$0\r\n\r\n\
*3\r\n$3\r\nGet\r\n$1\r\na\r\n$1\r\nb\r\n\
*4\r\n$13\r\nzrangebyscore\r\n$1\r\nk\r\n$1\r\n0\r\n$1\r\n1\r\n\
*4\r\n$13\r\nzrxngebyscore\r\n$1\r\nk\r\n$1\r\n0\r\n$1\r\n1\r\n\
*4\r\n$13\r\nzrangebyscore\r\n$1\r\nl\r\n$1\r\n0\r\n$1\r\n1\r\n\
*6\r\n$5\r\nXREAD\r\n$5\r\ncount\r\n$1\r\n2\r\n$7\r\nstreams\r\n$1\r\nt\r\n$1\r\n0\r\n\
*6\r\n$5\r\nXREAD\r\n$5\r\nblock\r\n$1\r\n0\r\n$7\r\nstreams\r\n$1\r\nu\r\n$1\r\n0\r\n\
*2\r\n$6\r\nclient\r\n$7\r\ncaching\r\n";

/// Returns the number of words after the name, and the class, of the command of this number.
fn expected(number: usize) -> Option<(u64, Option<Class>)> {
    Some(match number {
        0 => (1, Some(Class::Shared)),
        1 => (0, Some(Class::Shared)),
        2 => (3, Some(Class::Shared)),
        3 => (5, Some(Class::OwnConnection)),
        4 => (2, Some(Class::OwnConnection)),
        5 => (1, Some(Class::Refused)),
        6 => (1, None),
        7 => (4, Some(Class::Shared)),
        8 => (5, Some(Class::Shared)),
        9 => (1, Some(Class::Shared)),
        10 => (1, None),
        11 => (1, Some(Class::Shared)),
        12 => (2, Some(Class::Shared)),
        13 => (3, Some(Class::Shared)),
        14 => (3, None),
        15 => (3, Some(Class::Shared)),
        16 => (5, Some(Class::Shared)),
        17 => (5, Some(Class::OwnConnection)),
        18 => (1, Some(Class::OwnConnection)),
        _ => return None,
    })
}

/// Returns the keys of the command of this number, with a space after each, or `None` if its row does
/// not say where they are.
fn expected_keys(number: usize) -> Option<&'static [u8]> {
    match number {
        0 => Some(b"key "),
        1 | 4 | 5 => Some(b""),
        2 => Some(b"block "),
        3 => Some(b"s "),
        7 => Some(b"a b "),
        8 => Some(b"k l "),
        9 => Some(b"other "),
        11 => Some(b" "),
        12 => Some(b"a "),
        13 => Some(b"k "),
        15 => Some(b"l "),
        16 => Some(b"t "),
        17 => Some(b"u "),
        18 => Some(b""),
        _ => None,
    }
}

/// Returns whether the keys are those of the command of this number.
fn has_keys(alloc: Global, frames: &Frames, found: &CommandFrame, number: usize) -> Result<bool> {
    let (Some(keys), Some(wanted)) = (frames.keys(found), expected_keys(number)) else {
        return Ok(frames.keys(found).is_none() && expected_keys(number).is_none());
    };
    let mut text = Vec::new(alloc);
    for key in keys {
        text.extend_from_slice(key)?;
        text.push(b' ')?;
    }
    Ok(text.as_slice() == wanted)
}

/// Returns whether the words are those of the command of this number.
fn are_expected(words: CommandWords, number: usize) -> bool {
    match expected(number) {
        Some((arguments, class)) => words.arguments == arguments && words.class == class,
        None => false,
    }
}

/// Returns whether these pieces give the words of all commands.
fn holds(alloc: Global, pieces: &[&[u8]]) -> Result<bool> {
    let mut frames = Frames::new(alloc, Version::Two, &Limits::standard())?;
    let mut begun = Begun::new();
    let mut number: usize = 0;
    for piece in pieces {
        let mut rest: &[u8] = piece;
        while !rest.is_empty() {
            let Some(found) = frames.next_command(&mut begun, rest)? else {
                break;
            };
            if !are_expected(found.words, number) || !has_keys(alloc, &frames, &found, number)? {
                return Ok(false);
            }
            number = number.saturating_add(1);
            rest = rest.get(found.frame.used()..).unwrap_or_default();
        }
    }
    Ok(expected(number).is_none())
}

/// Returns whether commands that begin as one before them are rejected at the same byte as the first
/// one would be.
fn keeps_limits(alloc: Global) -> Result<bool> {
    let limits = Limits::new(4, 64, 256)?;
    let mut frames = Frames::new(alloc, Version::Two, &limits)?;
    let mut begun = Begun::new();
    let first = b"*2\r\n$3\r\nGET\r\n$1\r\na\r\n".as_slice();
    for _ in 0..2 {
        if !matches!(frames.next_command(&mut begun, first), Ok(Some(_))) {
            return Ok(false);
        }
    }
    let long = frames.next_command(&mut begun, b"*2\r\n$3\r\nGET\r\n$65\r\n");
    let wrong = frames.next_command(&mut begun, b"*2\r\n$3\r\nGET\r\n$1\r\nab\n");
    Ok(is_fault(long, Cause::Length, 15) && is_fault(wrong, Cause::Syntax, 18))
}

/// Returns whether a byte was rejected here, for this reason.
fn is_fault(found: Result<Option<CommandFrame>, FrameError>, cause: Cause, at: u64) -> bool {
    match found {
        Err(FrameError::Fault(fault)) => fault.cause == cause && fault.at == at,
        _ => false,
    }
}

/// Cuts the commands in two at each byte, and into single bytes.
pub(crate) fn all(alloc: Global) -> Result<Tally> {
    let mut tally = Tally { cuts: 0, wrong: 0 };
    for cut in 0..COMMANDS.len() {
        tally.add(holds(alloc, &[&COMMANDS[..cut], &COMMANDS[cut..]])?);
    }
    tally.add(keeps_limits(alloc)?);
    let mut bytes = Vec::new(alloc);
    for at in 0..COMMANDS.len() {
        bytes.push(&COMMANDS[at..at + 1])?;
    }
    tally.add(holds(alloc, &bytes)?);
    Ok(tally)
}
