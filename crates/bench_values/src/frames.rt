//! Measures how long it takes to find where values end.
//!
//! With the argument `loop` a text is read with the scanner's loop and a listener that ignores all
//! events, with `values` with [`Frames::next`], and with `commands` two commands are read with
//! [`Frames::next_command`].

use crate::texts::{
    ARRAY_3, BULK_16, BULK_1024, BULK_65536, GET, INTEGER, LINE, MAP, SET, SIMPLE, Text,
};
use crate::{has, nanos};
use anyhow::Result;
use resp_frames::{Begun, FrameError, Frames};
use resp_scan::event::ScanError;
use resp_scan::nobody::Nobody;
use resp_scan::scanner::Scanner;
use resp_value::limits::Limits;
use resp_value::version::Version;

/// The size of the pieces.
const SIZE: usize = 16_384;

/// The least length of a text. It fits a processor's cache.
const LEAST: usize = 262_144;

/// The times that a text is read when its time is measured.
const ROUNDS: usize = 128;

/// The call with which a text is read.
#[derive(Clone, Copy)]
enum Call {
    Loop,
    Values,
    Commands,
}

/// What a text is read with.
#[derive(Drop)]
struct Reader {
    scanner: Scanner,
    frames: Frames,
    begun: Begun,
}

/// Scans the text with the loop, and returns the number of values.
#[inline(never)]
fn loop_text(scanner: &mut Scanner, text: &[u8]) -> Result<u64, ScanError> {
    let mut values: u64 = 0;
    for piece in text.chunks(SIZE) {
        let mut rest = piece;
        for _ in 0..u64::MAX {
            let scanned = scanner.scan(rest, &mut Nobody::<2>)?;
            rest = &rest[scanned.used..];
            if !scanned.is_whole {
                break;
            }
            values = values.wrapping_add(1);
        }
    }
    Ok(values)
}

/// Finds the values of the text, and returns their number.
#[inline(never)]
fn frame_text(frames: &mut Frames, begun: &mut Begun, text: &[u8]) -> Result<u64, FrameError> {
    let mut values: u64 = 0;
    for piece in text.chunks(SIZE) {
        let mut rest = piece;
        for _ in 0..u64::MAX {
            if rest.is_empty() {
                break;
            }
            let Some(frame) = frames.next(begun, rest)? else {
                break;
            };
            rest = &rest[frame.used()..];
            values = values.wrapping_add(1);
        }
    }
    Ok(values)
}

/// Finds the commands of the text, and returns their number.
#[inline(never)]
fn command_text(frames: &mut Frames, begun: &mut Begun, text: &[u8]) -> Result<u64, FrameError> {
    let mut values: u64 = 0;
    for piece in text.chunks(SIZE) {
        let mut rest = piece;
        for _ in 0..u64::MAX {
            if rest.is_empty() {
                break;
            }
            let Some(found) = frames.next_command(begun, rest)? else {
                break;
            };
            rest = rest.get(found.frame.used()..).unwrap_or_default();
            values = values.wrapping_add(1);
        }
    }
    Ok(values)
}

fn read(reader: &mut Reader, call: Call, text: &[u8]) -> Result<u64> {
    Ok(match call {
        Call::Loop => loop_text(&mut reader.scanner, text)?,
        Call::Values => frame_text(&mut reader.frames, &mut reader.begun, text)?,
        Call::Commands => command_text(&mut reader.frames, &mut reader.begun, text)?,
    })
}

/// Reads a text the requested number of times, and prints the number of values and microseconds.
fn run(rt: &HostRuntime, text: &Text, call: Call, rounds: usize) -> Result<()> {
    let bytes = text.repeated(rt.alloc(), LEAST)?;
    let limits = Limits::standard();
    let mut reader = Reader {
        scanner: Scanner::new(Version::Three, &limits),
        frames: Frames::new(rt.alloc(), Version::Three, &limits)?,
        begun: Begun::new(),
    };
    let start = nanos(rt)?;
    let mut values: u64 = 0;
    for _ in 0..rounds {
        values = read(&mut reader, call, &bytes)?;
    }
    let micros = nanos(rt)?.saturating_sub(start) / 1_000;
    println!(rt; "{} by {SIZE}: {values} replies; {micros} us", text.name)?;
    Ok(())
}

/// Runs the benchmark for each text, as the arguments request.
pub(crate) fn bench(rt: &HostRuntime, words: &[String]) -> Result<()> {
    let rounds = if has(words, "times") { ROUNDS } else { 1 };
    if has(words, "commands") {
        run(rt, &GET, Call::Commands, rounds)?;
        return run(rt, &SET, Call::Commands, rounds);
    }
    let call = if has(words, "loop") {
        Call::Loop
    } else {
        Call::Values
    };
    for text in [
        SIMPLE, INTEGER, LINE, BULK_16, BULK_1024, BULK_65536, ARRAY_3, MAP, GET, SET,
    ] {
        run(rt, &text, call, rounds)?;
    }
    Ok(())
}
