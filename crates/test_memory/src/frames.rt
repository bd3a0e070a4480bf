//! Parts that test frames.

use crate::outcome::Outcome;
use resp_frames::{Begun, FrameError, Frames};
use resp_value::limits::Limits;
use resp_value::version::Version;
use std::alloc::Global;

const PIECES: [&[u8]; 3] = [b"$20\r\n01", b"2345678901234567", b"89\r\n+OK\r\n"];

const TEXT: &[u8] = b"$20\r\n01234567890123456789\r\n";

/// Returns whether a connection reads a value that lies in the piece.
fn reads_on(frames: &mut Frames, begun: &mut Begun) -> bool {
    match frames.next(begun, b":1\r\n+") {
        Ok(Some(frame)) => frame.text() == b":1\r\n".as_slice() && frame.used() == 4,
        _ => false,
    }
}

/// A value in three pieces. After a failed allocation the connection is between two values.
pub(crate) fn of_next(alloc: Global) -> Outcome {
    let Ok(mut frames) = Frames::new(alloc, Version::Two, &Limits::standard()) else {
        return Outcome::OutOfMemory;
    };
    let mut begun = Begun::new();
    for piece in PIECES {
        match frames.next(&mut begun, piece) {
            Ok(None) => {}
            Ok(Some(frame)) => {
                let holds = frame.text() == TEXT && frame.used() == 4;
                return Outcome::of(holds && reads_on(&mut frames, &mut begun));
            }
            Err(FrameError::OutOfMemory) => return Outcome::refused(reads_on(
                &mut frames,
                &mut begun,
            )),
            Err(_) => return Outcome::Wrong,
        }
    }
    Outcome::Wrong
}
