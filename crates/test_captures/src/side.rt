//! One side of a connection, put together from segments.

use anyhow::Result;
use resp_capture::{Placed, Reassembly, StreamError};
use std::alloc::Global;

/// The sequence number of the first byte, so that the numbers wrap inside the side.
const FIRST: u32 = u32::MAX - 5;

/// The text from which segments are cut.
const TEXT: &[u8; 16] = b"abcdefghijklmnop";

/// The bytes that were given, and the places of bytes that are missing.
#[derive(Drop)]
struct Told {
    /// Each byte that was given or is missing, which is a dot.
    bytes: Vec<u8>,
}

/// Returns whether the bytes that segments of the text give in this order are right: those of the
/// text, with a dot for each byte of which no segment came.
pub fn is_right(alloc: Global, order: &[(usize, usize)], count: usize) -> Result<bool> {
    let mut stream = Reassembly::new(alloc, FIRST);
    let mut told = Told {
        bytes: Vec::new(alloc),
    };
    for (place, size) in order {
        let (place, size) = (*place, *size);
        if place > TEXT.len() || size > TEXT.len() - place {
            return Ok(false);
        }
        let sequence = FIRST.wrapping_add(place as u32);
        let Some(at) = stream.place_of(sequence) else {
            return Ok(false);
        };
        if at != place as u64 {
            return Ok(false);
        }
        match stream.take(at, &TEXT[place..place + size]) {
            Ok(Placed::Given(bytes)) => told.bytes.extend_from_slice(bytes)?,
            Ok(Placed::Waits) => {}
            Err(_) => return Ok(false),
        }
        drain(&mut stream, &mut told)?;
    }
    while let Some(missing) = stream.skip() {
        for _ in 0..missing {
            told.bytes.push(b'.')?;
        }
        drain(&mut stream, &mut told)?;
    }
    Ok(told.bytes.as_slice() == expected(alloc, order, count)?.as_slice() && stream.waiting() == 0)
}

/// Adds the bytes that wait no more.
fn drain(stream: &mut Reassembly, told: &mut Told) -> Result<()> {
    while let Some(bytes) = stream.next_held() {
        told.bytes.extend_from_slice(bytes.as_slice())?;
    }
    Ok(())
}

/// Returns the text, with a dot for each byte of which no segment came.
fn expected(alloc: Global, order: &[(usize, usize)], count: usize) -> Result<Vec<u8>> {
    let mut bytes = Vec::new(alloc);
    for index in 0..count.min(TEXT.len()) {
        let came = order
            .iter()
            .any(|(place, size)| *place <= index && index - *place < *size);
        bytes.push(if came { TEXT[index] } else { b'.' })?;
    }
    Ok(bytes)
}

/// Returns how many bytes wait when the next segment finds no room. Each segment has 65,536 bytes.
pub fn fills(alloc: Global) -> Result<usize> {
    let mut stream = Reassembly::new(alloc, 0);
    let data = Vec::from_slice(alloc, [0u8; 4_096].as_slice())?;
    for index in 0..1_000u64 {
        match stream.take(1 + index * 4_096, data.as_slice()) {
            Ok(_) => {}
            Err(StreamError::Full) => return Ok(stream.waiting()),
            Err(_) => return Ok(0),
        }
    }
    Ok(0)
}
