//! How a text is cut into pieces.

use std::alloc::{AllocError, Global};

/// How each received text is cut.
#[derive(Clone, Copy, Debug)]
pub(crate) enum Cut {
    /// It is one piece.
    Whole,
    /// It is two pieces. The first has this many bytes, or all bytes if there are fewer.
    At(usize),
    /// Each byte is a piece, with an empty piece before and after it.
    Bytes,
}

impl Cut {
    /// Returns the cut of a number: first no cut, then a cut at each byte of a text of this length,
    /// and last byte by byte.
    pub(crate) fn numbered(number: usize, length: usize) -> Cut {
        match number {
            0 => Cut::Whole,
            number if number > length => Cut::Bytes,
            number => Cut::At(number.saturating_sub(1)),
        }
    }
}

/// Returns the pieces of a text with this cut.
pub(crate) fn pieces<'a>(
    alloc: Global,
    text: &'a [u8],
    cut: Cut,
) -> Result<Vec<&'a [u8]>, AllocError> {
    let mut all = Vec::new(alloc);
    match cut {
        Cut::Whole => all.push(text)?,
        Cut::At(at) => {
            let at = at.min(text.len());
            all.push(&text[..at])?;
            all.push(&text[at..])?;
        }
        Cut::Bytes => {
            all.push(&text[..0])?;
            for at in 0..text.len() {
                all.push(&text[at..at + 1])?;
                all.push(&text[at..at])?;
            }
        }
    }
    Ok(all)
}
