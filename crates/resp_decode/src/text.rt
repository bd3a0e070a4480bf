//! A text that is being read.

ghost use Rattle.std.specs.Prelude.{◌≡◌, [], ◌++◌, OnOk, IfOk, IfSome};
ghost use Rattle.resp_value.specs.Numbers.{zero_if_none};
ghost use Rattle.resp_value.specs.Values.{datum_of};
ghost use Rattle.resp_scan.specs.Kinds.{text_kind_of};
ghost use Rattle.resp_scan.specs.Listening.{IsTextOf};
ghost use Rattle.resp_decode.specs.Builds.{text_value};
ghost use Rattle.resp_decode.specs.Fits.{IsContentAlone, end_weight};
ghost use Rattle.resp_decode.specs.Weights.{format_weight};

use resp_scan::event::TextKind;
use resp_value::content::Content;
use resp_value::digits::Digits;
use resp_value::double::Double;
use resp_value::line::Line;
use resp_value::value::Value;
use std::alloc::{AllocError, Global};

/// The maximum number of bytes of a freed block that the C library keeps for a quick reuse.
const AT_HAND: usize = 1_032;

/// A text whose end has not been read.
#[derive(Drop)]
pub(crate) struct PartialText {
    kind: TextKind,
    bytes: Vec<u8>,
}

impl PartialText {
    ghost use Rattle.resp_decode.specs.Holding.{text_held};

    /// Makes a text without content. Does not allocate.
    #[inline]
    pub(crate) fn new(alloc: Global, kind: TextKind) -> PartialText
        ensures { text_held result ≡ record { kind = text_kind_of kind; content = [] } }
    {
        PartialText {
            kind,
            bytes: Vec::new(alloc),
        }
    }

    /// Appends these bytes of the content. If small content has no room left, it moves to a new
    /// block of four times the bytes received, because the C library cannot grow a small block in
    /// place.
    #[inline]
    pub(crate) fn extend(&mut self, alloc: Global, part: &[u8]) -> Result<(), AllocError>
        ensures { OnOk result (text_held self.new ≡ record (text_held self.old) {
          content = (text_held self.old).content ++ part.now;
        }) }
    {
        let length = self.bytes.len().saturating_add(part.len());
        if length <= self.bytes.capacity() || length > AT_HAND {
            return self.bytes.extend_from_slice(part);
        }
        let room = length.saturating_mul(4).min(AT_HAND);
        let mut moved = Vec::with_capacity(alloc, room)?;
        if !self.bytes.is_empty() {
            moved.extend_from_slice(self.bytes.as_slice())?;
        }
        moved.extend_from_slice(part)?;
        self.bytes = moved;
        Ok(())
    }

    /// Returns the weight that the end of the text adds: a node, and the digit of a zero big
    /// number.
    #[inline]
    pub(crate) fn end_weight(&self) -> u64
        ensures { result ≡ end_weight (text_held self.now).kind (text_held self.now).content }
    {
        match self.kind {
            TextKind::Big { .. } if self.bytes.is_empty() => 4,
            _ => 3,
        }
    }

    /// Returns the value of the complete text. Returns `None` if an allocation fails or if the
    /// content does not fit the kind of text, which never happens with a scanner's events.
    #[inline]
    pub(crate) fn into_value(self) -> Option<Value>
        ensures { IfSome result (λ value.
            datum_of value ≡ text_value (text_held self).kind (text_held self).content) }
    {
        let PartialText { kind, bytes } = self;
        match kind {
            TextKind::Simple => match Line::new(bytes) {
                Ok(line) => Some(Value::Simple(line)),
                Err(_) => None,
            },
            TextKind::Error => match Line::new(bytes) {
                Ok(line) => Some(Value::Error(line)),
                Err(_) => None,
            },
            TextKind::Double => match Double::new(bytes) {
                Ok(double) => Some(Value::Double(double)),
                Err(_) => None,
            },
            TextKind::Bulk => Some(Value::Bulk(Content::new(bytes))),
            TextKind::BulkError => Some(Value::BulkError(Content::new(bytes))),
            TextKind::Verbatim(format) => Some(Value::Verbatim(format, Content::new(bytes))),
            TextKind::Big { negative } => match zero_if_none(bytes) {
                Ok(digits) => match Digits::of_kept(negative, digits) {
                    Some(digits) => Some(Value::Big(digits)),
                    None => None,
                },
                Err(_) => None,
            },
        }
    }
}

/// Returns the value of a complete text that consists of its content alone. It does not read the
/// bytes of a line or a double again.
#[inline(always)]
pub(crate) fn content_value(kind: TextKind, bytes: Vec<u8>) -> Value
    requires content_alone { IsContentAlone (text_kind_of kind) }
    requires is_text { IsTextOf kind bytes.items }
    ensures { datum_of result ≡ text_value (text_kind_of kind) bytes.items }
{
    match kind {
        TextKind::Simple => Value::Simple(Line::of_plain(bytes)),
        TextKind::Error => Value::Error(Line::of_plain(bytes)),
        TextKind::Double => Value::Double(Double::of_text(bytes)),
        TextKind::BulkError => Value::BulkError(Content::new(bytes)),
        _ => Value::Bulk(Content::new(bytes)),
    }
}

/// Returns the number of bytes in the format of a text.
#[inline]
pub(crate) fn format_weight(kind: TextKind) -> u64
    ensures { result ≡ format_weight (text_kind_of kind) }
{
    match kind {
        TextKind::Verbatim(_) => 3,
        _ => 0,
    }
}

/// Returns the digits, or a single `0` if there are no digits.
#[inline]
fn zero_if_none(mut digits: Vec<u8>) -> Result<Vec<u8>, AllocError>
    ensures { IfOk result (λ kept. kept.items ≡ zero_if_none digits.items) }
{
    if digits.is_empty() {
        digits.push(b'0')?;
    }
    Ok(digits)
}
