//! The calls of a decoder, and the lines printed for their results.

use super::row_decoder::RowDecoder;
use crate::cut::{Cut, pieces};
use crate::spelling::{add_fault, add_final_fault, add_values, is_refused};
use crate::text::{bytes, split, version};
use anyhow::Result;
use resp_decode::decode_all;
use resp_scan::event::Fault;
use resp_value::Limits;
use std::alloc::{AllocError, Global};

/// How a value is printed.
#[derive(Clone, Copy)]
pub(crate) enum Says {
    /// The value.
    Value,
    /// The kind of an aggregate and the number of its members or pairs.
    Size,
}

/// Prints each value of a text, and the fault if there is one.
pub(crate) fn decode<D: RowDecoder>(
    alloc: Global,
    decoder: &mut D,
    given: &str,
    cut: Cut,
    says: Says,
    said: &mut String,
) -> Result<()> {
    let text = bytes(alloc, given)?;
    for piece in pieces(alloc, text.as_slice(), cut)? {
        if !decode_piece(decoder, piece, says, said)? {
            break;
        }
    }
    Ok(())
}

/// Prints each value that ends in a piece. Returns whether the decoder continues.
fn decode_piece<D: RowDecoder>(
    decoder: &mut D,
    piece: &[u8],
    says: Says,
    said: &mut String,
) -> Result<bool, AllocError> {
    let mut rest = piece;
    for _ in 0..=piece.len() {
        match decoder.feed(rest) {
            Ok((used, value)) => {
                rest = &rest[used..];
                if !say_answer(decoder, value, says, said)? {
                    break;
                }
            }
            Err(fault) => return say_refusal(decoder, rest, fault, said),
        }
    }
    Ok(true)
}

/// Prints a value, and a line if the decoder holds more than it should. Returns whether there is a
/// value.
fn say_answer<D: RowDecoder>(
    decoder: &D,
    value: Option<D::Value>,
    says: Says,
    said: &mut String,
) -> Result<bool, AllocError> {
    let Some(value) = value else {
        if decoder.weight() > decoder.taken() {
            said.push_str("more is held than was taken\n")?;
        }
        return Ok(false);
    };
    D::say(&value, says, said)?;
    said.push_str("\n")?;
    if decoder.taken() != 0 || decoder.weight() != 0 {
        say_held(decoder, said)?;
    }
    Ok(true)
}

/// Prints a fault, and a line if it is not returned again or if the decoder still holds anything.
fn say_refusal<D: RowDecoder>(
    decoder: &mut D,
    rest: &[u8],
    fault: Fault,
    said: &mut String,
) -> Result<bool, AllocError> {
    let is_final = is_refused(decoder.feed(rest), fault) && decoder.finish() == Err(fault);
    add_final_fault(said, fault, is_final)?;
    if decoder.taken() != fault.at || decoder.weight() != 0 {
        say_held(decoder, said)?;
    }
    Ok(false)
}

/// Makes one call, and prints the number of bytes used and the value that ended with them.
pub(crate) fn feed<D: RowDecoder>(
    alloc: Global,
    decoder: &mut D,
    given: &str,
    says: Says,
    said: &mut String,
) -> Result<()> {
    let text = bytes(alloc, given)?;
    say_fed::<D>(decoder.feed(text.as_slice()), says, said)?;
    Ok(())
}

fn say_fed<D: RowDecoder>(
    fed: Result<(usize, Option<D::Value>), Fault>,
    says: Says,
    said: &mut String,
) -> Result<(), AllocError> {
    match fed {
        Ok((used, value)) => {
            write!(said, "used {used}: ")?;
            match value {
                Some(value) => {
                    D::say(&value, says, said)?;
                    said.push_str("\n")
                }
                None => said.push_str("more\n"),
            }
        }
        Err(fault) => add_fault(said, fault.cause, fault.at),
    }
}

/// Prints the number of bytes read of a value, and the weight held of it.
pub(crate) fn held<D: RowDecoder>(decoder: &D, said: &mut String) -> Result<()> {
    say_held(decoder, said)?;
    Ok(())
}

fn say_held<D: RowDecoder>(decoder: &D, said: &mut String) -> Result<(), AllocError> {
    writeln!(
        said,
        "taken {}, weight {}",
        decoder.taken(),
        decoder.weight()
    )
}

/// Ends the input, and prints the error if there is one.
pub(crate) fn finish<D: RowDecoder>(decoder: &D, said: &mut String) -> Result<()> {
    match decoder.finish() {
        Ok(()) => said.push_str("whole\n")?,
        Err(fault) => add_fault(said, fault.cause, fault.at)?,
    }
    Ok(())
}

/// Changes the version, and prints the error if there is one.
pub(crate) fn set_version<D: RowDecoder>(
    decoder: &mut D,
    given: &str,
    said: &mut String,
) -> Result<()> {
    if let Err(busy) = decoder.set_version(version(given)?) {
        writeln!(said, "refused: {busy:?}")?;
    }
    Ok(())
}

/// Prints the values of a complete input, or the number of the value with a fault and the fault.
pub(crate) fn all(alloc: Global, given: &str, said: &mut String) -> Result<()> {
    let (number, text) = split(given);
    let text = bytes(alloc, text)?;
    match decode_all(
        alloc,
        version(number)?,
        &Limits::standard(),
        text.as_slice(),
    ) {
        Ok(values) => add_values(said, values.as_slice())?,
        Err(refusal) => writeln!(said, "{refusal}")?,
    }
    Ok(())
}
