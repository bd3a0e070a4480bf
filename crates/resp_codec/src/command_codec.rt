//! A codec for a server: it reads commands and writes replies.

ghost use Rattle.std.specs.Prelude.{◌≡◌, [], IfOk, IfNone, OnErr};
ghost use Rattle.resp_value.specs.Rules.{rules_under};
ghost use Rattle.resp_value.specs.declared.version.Version.TheVariants.{Two};
ghost use Rattle.resp_decode.specs.Decoding as decoding;
ghost use Rattle.tokio_util.specs.Codec.Next.{Decodes, DecodesAtEnd};
ghost use Rattle.resp_codec.specs.Commands.{HasTaken, ReadsLike, reads_by, writes_by, gives_commands, reading_commands, encodes_replies, refuses_replies};
ghost use Rattle.resp_codec.specs.NextLaws as laws;

use crate::error::CodecError;
use crate::reading::next_value;
use bytes::BytesMut;
use resp_decode::Decoder;
use resp_encode::encode;
use resp_session::words::{Requested, asked_by};
use resp_value::limits::Limits;
use resp_value::value::Value;
use resp_value::version::Version;
use std::alloc::Global;
use tokio_util::codec;

/// Reads the requests of clients, always in version 2, and writes replies in the version of the
/// session.
///
/// # Examples
///
/// From [samples](../../samples/src/framing.rt):
///
/// ```rust
/// let mut codec = CommandCodec::new(alloc, &Limits::standard());
/// let mut buffer = BytesMut::new(alloc);
/// buffer.extend_from_slice(b"*1\r\n$4\r\nPING\r\n")?;
/// if let Some(Requested::Command(words)) = codec.decode(&mut buffer)? {
///     println!(rt; "{}", words.word(0).escape_ascii())?;
/// }
/// let mut out = BytesMut::new(alloc);
/// codec.encode(Value::Null, &mut out)?;
/// codec.set_version(Version::Three);
/// codec.encode(Value::Null, &mut out)?;
/// println!(rt; "{}", out.escape_ascii())?;
/// ```
///
/// This prints `PING` and `$-1\r\n_\r\n`.
#[derive(Drop)]
pub struct CommandCodec {
    decoder: Decoder,
    version: Version,
    limits: Limits,
}

impl CommandCodec {
    /// Creates a codec with these limits, before the first command. It writes version 2 at first.
    /// Does not allocate.
    pub fn new(alloc: Global, limits: &Limits) -> CommandCodec
        ensures nothing_taken { HasTaken result [] }
        ensures reads { reads_by result ≡ rules_under Two limits.now }
        ensures writes { writes_by result ≡ rules_under Two limits.now }
    {
        CommandCodec {
            decoder: Decoder::new(alloc, Version::Two, limits),
            version: Version::Two,
            limits: *limits,
        }
    }

    /// Changes the version of the replies, from the next reply on. Call it after a HELLO that
    /// requests the version.
    pub fn set_version(&mut self, version: Version)
        ensures writes { writes_by self.new ≡ rules_under version (writes_by self.old).limits }
        ensures reads_as_before { ReadsLike self.old self.new }
    {
        self.version = version;
    }
}

impl codec::Decoder for CommandCodec {
    type Item = Requested;

    type Error = CodecError;

    ghost gives = { gives_commands };

    ghost stable = { laws.stable reading_commands };

    ghost partial_has_no_frame = { laws.partial_has_no_frame reading_commands };

    ghost end_is_partial = { laws.end_is_partial reading_commands };

    /// Returns the request of the value that ends in the buffer. If no value ends in the buffer,
    /// removes all bytes, and continues after them in the next call.
    ///
    /// # Errors
    ///
    /// Those of [`Decoder::feed`]. The buffer is cleared, and every later call returns the same
    /// error.
    fn decode(&mut self, src: &mut BytesMut) -> Result<Option<Requested>, CodecError>
        ensures next { Decodes gives_commands self.old src.old.items result self.new src.new.items }
        ensures all_taken { IfOk result (λ next. IfNone next (src.new.items ≡ [])) }
        ensures cleared { OnErr result (src.new.items ≡ []) }
    {
        match next_value(&mut self.decoder, src)? {
            Some(value) => Ok(Some(asked_by(value))),
            None => Ok(None),
        }
    }

    /// Like `decode`, and fails with `Truncated` if the input ends inside a value.
    fn decode_eof(&mut self, src: &mut BytesMut) -> Result<Option<Requested>, CodecError>
        ensures next { DecodesAtEnd gives_commands self.old src.old.items result self.new
            src.new.items }
        ensures cleared { OnErr result (src.new.items ≡ []) }
    {
        match self.decode(src)? {
            Some(asked) => Ok(Some(asked)),
            None => {
                self.decoder.finish()?;
                Ok(None)
            }
        }
    }
}

impl codec::Encoder<Value> for CommandCodec {
    type Error = CodecError;

    ghost encodes = { encodes_replies };

    ghost refuses = { refuses_replies };

    /// Appends the canonical text of the reply, or leaves the buffer unchanged.
    ///
    /// # Errors
    ///
    /// Those of [`encode`].
    fn encode(&mut self, item: Value, dst: &mut BytesMut) -> Result<(), CodecError> {
        encode(self.version, &self.limits, &item, dst)?;
        Ok(())
    }
}
