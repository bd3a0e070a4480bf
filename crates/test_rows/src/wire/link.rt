//! Rows that carry bytes over a link in memory.

use crate::cut::{Cut, pieces};
use crate::spelling::add_quoted;
use crate::text::bytes;
use anyhow::{Result, bail};
use resp_wire::{Direction, Link, MemoryLink};
use std::alloc::Global;

/// Carries a text in pieces, and prints the bytes received.
pub(crate) fn carry(
    alloc: Global,
    direction: Direction,
    text: &str,
    cut: Cut,
    said: &mut String,
) -> Result<()> {
    let text = bytes(alloc, text)?;
    let mut came = Vec::new(alloc);
    for piece in pieces(alloc, text.as_slice(), cut)? {
        carry_piece(alloc, direction, piece, &mut came)?;
    }
    add_quoted(said, "", came.as_slice())?;
    Ok(())
}

/// Carries a piece of at most 1,024 bytes, and adds the bytes received.
fn carry_piece(
    alloc: Global,
    direction: Direction,
    piece: &[u8],
    came: &mut Vec<u8>,
) -> Result<()> {
    let mut into = vec![in alloc; 0; piece.len()]?;
    if !is_carried(direction, piece, into.as_mut_slice()) {
        bail!("not carried");
    }
    came.extend_from_slice(into.as_slice())?;
    Ok(())
}

fn is_carried(direction: Direction, piece: &[u8], into: &mut [u8]) -> bool {
    piece.len() == into.len()
        && piece.len() <= 1_024
        && MemoryLink.carry(direction, piece, into).is_ok()
}
