//! Reading values from a buffer.

ghost use Rattle.std.specs.Prelude.{◌≡◌, [], IfOk, IfErr, IfSome, IfNone, OnErr};
ghost use Rattle.resp_value.specs.Values.{datum_of};
ghost use Rattle.resp_decode.specs.Decoding.{rules_of};
ghost use Rattle.resp_codec.specs.Frames.{ValueEnds, TakesPart, RefusesBuffer};

use bytes::BytesMut;
use resp_decode::Decoder;
use resp_scan::event::Fault;
use resp_value::value::Value;

/// Returns the value that ends in the buffer, and removes its bytes. If no value ends in the
/// buffer, removes all bytes and returns `None`.
pub(crate) fn next_value(decoder: &mut Decoder, src: &mut BytesMut) -> Result<Option<Value>, Fault>
    ensures value { IfOk result (λ next. IfSome next (λ value.
        ValueEnds decoder.old src.old.items (datum_of value) decoder.new src.new.items)) }
    ensures none { IfOk result (λ next. IfNone next
        (TakesPart decoder.old src.old.items decoder.new src.new.items)) }
    ensures refused { IfErr result (λ fault.
        RefusesBuffer decoder.old src.old.items fault decoder.new src.new.items) }
    ensures cleared { OnErr result (src.new.items ≡ []) }
    ensures same_rules { rules_of decoder.new ≡ rules_of decoder.old }
{
    let fed = match decoder.feed(src.as_slice()) {
        Ok(fed) => fed,
        Err(fault) => {
            src.clear();
            return Err(fault);
        }
    };
    src.advance(fed.used);
    // The contract of the decoder's `taken` states here that the bytes read are viable.
    let _taken = decoder.taken();
    Ok(fed.value)
}
