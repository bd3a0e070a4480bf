//! The counts of a decoded text: of each outermost value its own content and the number of its
//! members.

use super::tally::Tally;
use resp_decode::Decoder;
use resp_scan::event::Fault;
use resp_value::value::Value;

#[inline(always)]
fn add(tally: &mut Tally, value: &Value) {
    tally.add_reply();
    match value {
        Value::Null | Value::Bool(_) => tally.add_value(),
        Value::Int(number) => tally.add_int(*number),
        Value::Simple(line) | Value::Error(line) => tally.add_text(line.text()),
        Value::Double(double) => tally.add_text(double.text()),
        Value::Bulk(content) | Value::BulkError(content) | Value::Verbatim(_, content) => {
            tally.add_text(content.list())
        }
        Value::Big(digits) => tally.add_text(digits.digits()),
        Value::Array(members) | Value::Set(members) | Value::Push(members) => {
            tally.add_members(members.list().len())
        }
        Value::Map(pairs) | Value::Attr(pairs, _) => {
            tally.add_members(pairs.list().len().wrapping_mul(2))
        }
    }
}

/// Decodes the text in pieces of `size` bytes.
#[inline(never)]
pub(crate) fn decode_text(
    decoder: &mut Decoder,
    text: &[u8],
    size: usize,
    tally: &mut Tally,
) -> Result<(), Fault> {
    for piece in text.chunks(size.max(1)) {
        decode_piece(decoder, piece, tally)?;
    }
    Ok(())
}

#[inline(always)]
fn decode_piece(decoder: &mut Decoder, piece: &[u8], tally: &mut Tally) -> Result<(), Fault> {
    let mut rest = piece;
    for _ in 0..u64::MAX {
        let fed = decoder.feed(rest)?;
        rest = &rest[fed.used..];
        let Some(value) = fed.value else {
            break;
        };
        add(tally, &value);
    }
    Ok(())
}
