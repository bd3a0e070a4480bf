//! Other encodings of a reply, which mean the same to a caller.

use bytes::BytesMut;
use rand_core::utils::NextWord;
use rand_pcg::Pcg32;
use resp_encode::{EncodeError, append, encode};
use resp_value::kind::OpenKind;
use resp_value::limits::Limits;
use resp_value::value::Value;
use resp_value::version::Version;
use std::alloc::AllocError;

/// The stream of the generator that chooses encodings.
const STREAM: u64 = 55;

/// The maximum number of bytes of a bulk string that is also sent as a simple string.
const SHORT: usize = 64;

/// The attribute that precedes some replies in version 3.
const ATTRIBUTE: &[u8] = b"|1\r\n+ttl\r\n:3600\r\n";

/// Chooses an encoding of each reply. The seed decides which one. The encodings of a value are:
///
/// | Value | Version 2 | Version 3 |
/// |---|---|---|
/// | null | `$-1`, `*-1` | `_` |
/// | an integer that is not negative | `:1`, `:+1` | the same |
/// | a simple string, or a bulk string without CR and LF of at most 64 bytes | `+`, `$` | the same, and `=` with `txt:` if its bytes are printable |
/// | a simple error | `-` | `-`, `!` |
/// | an aggregate | with other encodings of its members | the same |
/// | any other value | the usual one | the usual one |
/// | any reply | as above | as above, or after an attribute |
#[derive(Drop)]
pub(crate) struct Encodings {
    generator: Pcg32,
    limits: Limits,
}

impl Encodings {
    /// Returns the choices of this seed, for replies within these limits.
    pub(crate) fn new(seed: u64, limits: &Limits) -> Self {
        Encodings {
            generator: Pcg32::new(seed, STREAM),
            limits: *limits,
        }
    }

    /// Appends an encoding of a reply.
    ///
    /// # Errors
    ///
    /// `AllocError` if an allocation fails, or if the reply exceeds the limits.
    pub(crate) fn append(
        &mut self,
        version: Version,
        reply: &Value,
        out: &mut BytesMut,
    ) -> Result<(), AllocError> {
        if version == Version::Three && self.one_of(4) == 0 {
            out.extend_from_slice(ATTRIBUTE)?;
        }
        match reply {
            Value::Array(members) => {
                append::head(OpenKind::Array, members.list().len() as u64, out)?;
                self.append_members(version, members.list(), out)
            }
            Value::Map(pairs) => {
                append::head(OpenKind::Map, pairs.list().len() as u64, out)?;
                self.append_pairs(version, pairs.list(), out)
            }
            single => self.append_single(version, single, out),
        }
    }

    /// Appends the members of an array.
    fn append_members(
        &mut self,
        version: Version,
        members: &[Value],
        out: &mut BytesMut,
    ) -> Result<(), AllocError> {
        for member in members {
            self.append_single(version, member, out)?;
        }
        Ok(())
    }

    /// Appends the pairs of a map.
    fn append_pairs(
        &mut self,
        version: Version,
        pairs: &[(Value, Value)],
        out: &mut BytesMut,
    ) -> Result<(), AllocError> {
        for (key, value) in pairs {
            self.append_single(version, key, out)?;
            self.append_single(version, value, out)?;
        }
        Ok(())
    }

    /// Appends an encoding of a value without members. Any other value is appended as it is.
    fn append_single(
        &mut self,
        version: Version,
        value: &Value,
        out: &mut BytesMut,
    ) -> Result<(), AllocError> {
        match value {
            Value::Null if version == Version::Two && self.one_of(2) == 0 => {
                out.extend_from_slice(b"*-1\r\n")
            }
            Value::Int(number) => self.append_int(*number, out),
            Value::Simple(line) => self.append_text(version, line.text(), out),
            Value::Bulk(content) if is_short_line(content.list()) => {
                self.append_text(version, content.list(), out)
            }
            Value::Error(line) if version == Version::Three && self.one_of(2) == 0 => {
                append::bulk_error(line.text(), out)
            }
            other => whole(encode(version, &self.limits, other, out)),
        }
    }

    /// Appends an integer, with a plus sign or without.
    fn append_int(&mut self, number: i64, out: &mut BytesMut) -> Result<(), AllocError> {
        if number < 0 || self.one_of(2) == 0 {
            return append::int(number, out);
        }
        let mut digits = itoa::Buffer::new();
        out.extend_from_slice(b":+")?;
        out.extend_from_slice(digits.format(number).as_bytes())?;
        out.extend_from_slice(b"\r\n")
    }

    /// Appends a text without CR and LF as a simple, a bulk or a verbatim string.
    fn append_text(
        &mut self,
        version: Version,
        text: &[u8],
        out: &mut BytesMut,
    ) -> Result<(), AllocError> {
        let may_be_verbatim = version == Version::Three
            && text.iter().all(|byte| is_printable(*byte));
        match self.one_of(if may_be_verbatim { 3 } else { 2 }) {
            0 => append::simple(text, out),
            1 => append::bulk(text, out),
            _ => append::verbatim(b"txt", text, out),
        }
    }

    /// Returns a number below this one.
    fn one_of(&mut self, count: u32) -> u32 {
        self.generator.next_word() % count.max(1)
    }
}

/// Returns whether a bulk string is also sent as a simple string.
fn is_short_line(text: &[u8]) -> bool {
    text.len() <= SHORT && text.iter().all(|byte| *byte != b'\r' && *byte != b'\n')
}

/// Returns whether a byte is a printable character of ASCII.
fn is_printable(byte: u8) -> bool {
    (b' '..=b'~').contains(&byte)
}

/// Returns whether a value was appended.
fn whole(encoded: Result<(), EncodeError>) -> Result<(), AllocError> {
    match encoded {
        Ok(()) => Ok(()),
        Err(_) => Err(AllocError),
    }
}
