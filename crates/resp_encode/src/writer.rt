//! Values, written to a device.

ghost use Rattle.resp_value.specs.Rules.{rules_under};
ghost use Rattle.std.specs.Prelude.{◌≡◌, ◌≢◌, ◌<◌, length, IfOk, OnOk, IfErr, IsErrOf};
ghost use Rattle.resp_value.specs.Canonical.{canonical_text, Fits};
ghost use Rattle.resp_value.specs.Values.{datum_of};
ghost use Rattle.resp_encode.specs.Refusals.{IsFirstFault, IsFirstRefusal, IfWrite};
ghost use Rattle.resp_encode.specs.Encodings.{WritesWhole, WritesPart};
ghost use Rattle.resp_encode.specs.declared.error.EncodeError.{EncodeError};

use crate::error::{EncodeError, EncodeToError};
use crate::values::encode;
use bytes::BytesMut;
use resp_io::device::{Sink, write_all};
use resp_value::limits::Limits;
use resp_value::value::Value;
use resp_value::version::Version;
use std::alloc::Global;

/// Writes the canonical text of a value to a device, with as many writes as that needs, and returns
/// its length in bytes.
///
/// The text is built in memory before the first write.
///
/// # Errors
///
/// - `Refused`: an error of [`encode`](crate::encode). Nothing was written.
/// - `Write`: a write failed or wrote no byte. The bytes written before are the first bytes of the
///   text, and the error has their number. No further write is made.
///
/// # Examples
///
/// From [samples](../../samples/src/encoding.rt):
///
/// ```rust
/// let mut sink = MemorySink::new(alloc, 64, 64)?;
/// let limits = Limits::standard();
/// let written = encode_to(alloc, Version::Three, &limits, &Value::Bool(true), &mut sink)?;
/// println!(rt; "{written} {}", sink.bytes().escape_ascii())?;
/// ```
///
/// This prints `4 #t\r\n`.
pub fn encode_to<W: Sink>(
    alloc: Global,
    version: Version,
    limits: &Limits,
    value: &Value,
    writer: &mut W,
) -> Result<u64, EncodeToError>
    ensures whole { IfOk result (WritesWhole (W.written writer.old) (W.written writer.new)
        (W.failures writer.old) (W.failures writer.new)
        (canonical_text version (datum_of value.now))) }
    ensures fits { OnOk result (Fits (rules_under version limits.now) (datum_of value.now)) }

    // A fault is returned only if the value has it and has no earlier fault. It is always returned
    // then, and before anything is written.
    ensures first_fault { IfErr result (IsFirstRefusal (rules_under version limits.now)
        (datum_of value.now)) }
    ensures every_fault { (error : EncodeError) → error ≢ EncodeError.OutOfMemory →
        IsFirstFault (rules_under version limits.now) (datum_of value.now) error →
        IsErrOf result (EncodeToError.Refused error) }
    ensures nothing_written { (error : EncodeError) →
        IsErrOf result (EncodeToError.Refused error) → writer.new ≡ writer.old }

    // If a write failed, the first bytes were written, as many as the error says.
    ensures part { IfErr result (IfWrite (WritesPart (W.written writer.old) (W.written writer.new)
        (W.failures writer.old) (W.failures writer.new)
        (canonical_text version (datum_of value.now)))) }
{
    let mut text = BytesMut::new(alloc);
    encode(version, limits, value, &mut text)?;
    let length = text.len() as u64;
    match write_all(writer, text.as_slice()) {
        Ok(()) => Ok(length),
        Err(fault) => Err(EncodeToError::Write {
            written: fault.written as u64,
        }),
    }
}
