//! A codec of values in both directions.

ghost use Rattle.std.specs.Prelude.{◌≡◌, ◌↔◌, [], IsOk, OnOk, OnErr, IfOk, IfNone};
ghost use Rattle.resp_value.specs.Rules.{rules_under};
ghost use Rattle.resp_decode.specs.Decoding as decoding;

use crate::error::CodecError;
use crate::reading::next_value;
use bytes::BytesMut;
use resp_decode::Decoder;
use resp_encode::encode;
use resp_scan::event::Busy;
use resp_value::limits::Limits;
use resp_value::value::Value;
use resp_value::version::Version;
use std::alloc::Global;
use tokio_util::codec;

/// Reads and writes values in one version and within the same limits. A client writes commands with
/// it, as arrays of bulk strings, and reads the replies.
///
/// # Examples
///
/// From [samples](../../samples/src/framing.rt):
///
/// ```rust
/// let mut codec = RespCodec::new(alloc, Version::Two, &Limits::standard());
/// let mut buffer = BytesMut::new(alloc);
/// buffer.extend_from_slice(b"+OK\r\n$5\r\nhel")?;
/// println!(rt; "{}", codec.decode(&mut buffer)?.is_some())?;
/// println!(rt; "{} {}", codec.decode(&mut buffer)?.is_some(), buffer.len())?;
/// println!(rt; "{}", codec.decode_eof(&mut buffer).is_err())?;
/// ```
///
/// This prints `true`, `false 0` and `true`.
#[derive(Drop)]
pub struct RespCodec {
    decoder: Decoder,
    version: Version,
    limits: Limits,
    /// It reads and writes with the same version and limits.
    ghost same_rules: { decoding.rules_of decoder ≡ rules_under version limits },
}

impl RespCodec {
    ghost use Rattle.resp_scan.specs.declared.event.Fault.{Fault};
    ghost use Rattle.resp_codec.specs.Values.{HasFault, HasTaken, WhereTaken, rules_of};

    /// Creates a codec of this version with these limits, before the first value. Does not
    /// allocate.
    pub fn new(alloc: Global, version: Version, limits: &Limits) -> RespCodec
        ensures nothing_taken { HasTaken result [] }
        ensures rules { rules_of result ≡ rules_under version limits.now }
    {
        RespCodec {
            decoder: Decoder::new(alloc, version, limits),
            version,
            limits: *limits,
        }
    }

    /// Changes the version of reading and writing, from the next value on.
    ///
    /// # Errors
    ///
    /// `Busy` from the first byte of a value until the value was returned, and after a fault. Then
    /// nothing is changed.
    pub fn set_version(&mut self, version: Version) -> Result<(), Busy>
        ensures only_between_values { WhereTaken self.old (λ front. IsOk result ↔ (front ≡ [])) }
        ensures nothing_taken { WhereTaken self.old (λ front. OnOk result (HasTaken self.new [])) }
        ensures new_version { OnOk result (rules_of self.new ≡
            rules_under version (rules_of self.old).limits) }
        ensures unchanged_where_busy { OnErr result (self.new ≡ self.old) }
        ensures never_after_a_fault { (fault : Fault) → HasFault self.old fault → OnOk result ⊥ }
    {
        self.decoder.set_version(version)?;
        self.version = version;
        Ok(())
    }
}

impl codec::Decoder for RespCodec {
    ghost use Rattle.tokio_util.specs.Codec.Next.{Decodes, DecodesAtEnd};
    ghost use Rattle.resp_codec.specs.Values.{gives_values, reading_values};
    ghost use Rattle.resp_codec.specs.NextLaws as laws;

    type Item = Value;

    type Error = CodecError;

    ghost gives = { gives_values };

    ghost stable = { laws.stable reading_values };

    ghost partial_has_no_frame = { laws.partial_has_no_frame reading_values };

    ghost end_is_partial = { laws.end_is_partial reading_values };

    /// Returns the value that ends in the buffer, as [`Decoder::feed`] does. If no value ends in
    /// the buffer, removes all bytes, and continues after them in the next call.
    ///
    /// # Errors
    ///
    /// Those of [`Decoder::feed`]. The buffer is cleared, and every later call returns the same
    /// error.
    fn decode(&mut self, src: &mut BytesMut) -> Result<Option<Value>, CodecError>
        ensures next { Decodes gives_values self.old src.old.items result self.new src.new.items }
        ensures all_taken { IfOk result (λ next. IfNone next (src.new.items ≡ [])) }
        ensures cleared { OnErr result (src.new.items ≡ []) }
    {
        let value = next_value(&mut self.decoder, src)?;
        Ok(value)
    }

    /// Like `decode`, and fails with `Truncated` if the input ends inside a value.
    fn decode_eof(&mut self, src: &mut BytesMut) -> Result<Option<Value>, CodecError>
        ensures next { DecodesAtEnd gives_values self.old src.old.items result self.new
            src.new.items }
        ensures cleared { OnErr result (src.new.items ≡ []) }
    {
        match self.decode(src)? {
            Some(value) => Ok(Some(value)),
            None => {
                self.decoder.finish()?;
                Ok(None)
            }
        }
    }
}

impl codec::Encoder<Value> for RespCodec {
    ghost use Rattle.resp_codec.specs.Values.{encodes_values, refuses_values};

    type Error = CodecError;

    ghost encodes = { encodes_values };

    ghost refuses = { refuses_values };

    /// Appends the canonical text of the value, or leaves the buffer unchanged.
    ///
    /// # Errors
    ///
    /// Those of [`encode`].
    fn encode(&mut self, item: Value, dst: &mut BytesMut) -> Result<(), CodecError> {
        encode(self.version, &self.limits, &item, dst)?;
        Ok(())
    }
}
