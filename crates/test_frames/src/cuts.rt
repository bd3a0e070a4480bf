//! Values one after another, cut at each byte.

use anyhow::Result;
use resp_frames::{Begun, FrameError, Frames};
use resp_value::cause::Cause;
use resp_value::limits::Limits;
use resp_value::version::Version;
use std::alloc::Global;

/// The number of cuts, and the number of cuts with a difference.
#[derive(Clone, Copy)]
pub(crate) struct Tally {
    pub(crate) cuts: u64,
    pub(crate) wrong: u64,
}

impl Tally {
    pub(crate) fn add(&mut self, holds: bool) {
        self.cuts = self.cuts.saturating_add(1);
        if !holds {
            self.wrong = self.wrong.saturating_add(1);
        }
    }
}

/// The values of the stream, in version 3.
const VALUES: [&[u8]; 12] = [
    b"+OK\r\n",
    b":-7\r\n",
    b"$5\r\nhello\r\n",
    b"$0\r\n\r\n",
    b"*0\r\n",
    b"*3\r\n$3\r\nSET\r\n$3\r\nkey\r\n$4\r\n\r\n\r\n\r\n",
    b"*2\r\n*1\r\n:1\r\n*1\r\n+a\r\n",
    b"%1\r\n+a\r\n:1\r\n",
    b"~2\r\n#t\r\n_\r\n",
    b"-ERR no\r\n",
    b"=7\r\ntxt:abc\r\n",
    b"|1\r\n+a\r\n:1\r\n:2\r\n",
];

/// Returns the frames of these pieces.
pub(crate) fn frames_of(alloc: Global, pieces: &[&[u8]]) -> Result<Vec<Vec<u8>>> {
    let mut frames = Frames::new(alloc, Version::Three, &Limits::standard())?;
    let mut begun = Begun::new();
    let mut found = Vec::new(alloc);
    for piece in pieces {
        let mut rest: &[u8] = piece;
        while !rest.is_empty() {
            let Some(frame) = frames.next(&mut begun, rest)? else {
                break;
            };
            found.push(frame.text().to_vec(alloc)?)?;
            rest = rest.get(frame.used()..).unwrap_or_default();
        }
    }
    Ok(found)
}

fn are_values(frames: &[Vec<u8>]) -> bool {
    if frames.len() != VALUES.len() {
        return false;
    }
    for (index, frame) in frames.iter().enumerate() {
        if frame.as_slice() != VALUES[index] {
            return false;
        }
    }
    true
}

/// Cuts the values in two and in three at each byte, and into single bytes.
pub(crate) fn all(alloc: Global) -> Result<Tally> {
    let mut text = Vec::new(alloc);
    for value in VALUES {
        text.extend_from_slice(value)?;
    }
    let mut tally = Tally { cuts: 0, wrong: 0 };
    for cut in 0..text.len() {
        let found = frames_of(alloc, &[&text[..cut], &text[cut..]])?;
        tally.add(are_values(&found));
        for later in cut..text.len() {
            let found = frames_of(alloc, &[&text[..cut], &text[cut..later], &text[later..]])?;
            tally.add(are_values(&found));
        }
    }
    let mut bytes = Vec::new(alloc);
    for at in 0..text.len() {
        bytes.push(&text[at..at + 1])?;
    }
    tally.add(are_values(&frames_of(alloc, &bytes)?));
    Ok(tally)
}

/// Returns whether the second piece is rejected at this byte of the value, and whether the next
/// value of the connection is read.
fn is_rejected(alloc: Global, text: &[u8], cut: usize, at: u64) -> Result<bool> {
    let mut frames = Frames::new(alloc, Version::Three, &Limits::standard())?;
    let mut begun = Begun::new();
    let mut rejected = false;
    for piece in [&text[..cut], &text[cut..]] {
        match frames.next(&mut begun, piece) {
            Ok(None) => {}
            Ok(Some(_)) => return Ok(false),
            Err(FrameError::Fault(fault)) => {
                rejected = fault.cause == Cause::Syntax && fault.at == at;
                break;
            }
            Err(_) => return Ok(false),
        }
    }
    let next = frames.next(&mut begun, b"+OK\r\n")?;
    Ok(rejected && matches!(next, Some(_)))
}

/// Cuts a text with a wrong byte at each byte before it.
pub(crate) fn rejected(alloc: Global) -> Result<Tally> {
    let mut tally = Tally { cuts: 0, wrong: 0 };
    let text = b"*2\r\n$3\r\nGET\r\n$x";
    for cut in 0..text.len() {
        tally.add(is_rejected(alloc, text, cut, 14)?);
    }
    Ok(tally)
}

/// Values that are no commands.
const OTHERS: [&[u8]; 4] = [
    b"+PING\r\n",
    b"*0\r\n",
    b"*1\r\n*1\r\n$1\r\na\r\n",
    b"*2\r\n$1\r\na\r\n:1\r\n",
];

/// Cuts values that are no commands, each after a command.
pub(crate) fn others(alloc: Global) -> Result<Tally> {
    let mut tally = Tally { cuts: 0, wrong: 0 };
    for other in OTHERS {
        for cut in 0..other.len() {
            tally.add(is_no_command(alloc, other, cut)?);
        }
    }
    Ok(tally)
}

fn is_no_command(alloc: Global, other: &[u8], cut: usize) -> Result<bool> {
    let mut frames = Frames::new(alloc, Version::Two, &Limits::standard())?;
    let mut begun = Begun::new();
    let command = b"*1\r\n$4\r\nPING\r\n";
    let is_command = match frames.next_command(&mut begun, command)? {
        Some(found) => {
            found.frame.text() == command.as_slice() && found.frame.used() == command.len()
        }
        None => false,
    };
    let first = frames.next_command(&mut begun, &other[..cut])?;
    let refused = frames.next_command(&mut begun, &other[cut..]);
    Ok(is_command && first.is_none() && matches!(refused, Err(FrameError::NotACommand)))
}
