//! All values of a complete input.

ghost use Rattle.std.specs.Prelude.{◌≡◌, ◌<◌, ◌≤◌, ◌++◌, [], ◌∷◌, length, map, take, IfOk, IfErr, OnOk};
ghost use Rattle.resp_decode.specs.Decoding.{GivesValue, HasTaken, rules_of};
ghost use Rattle.resp_decode.specs.Inputs.{IsReadUpTo, RefusesInput, RefusesRest};
ghost use Rattle.resp_value.specs.Rules.{rules_under};
ghost use Rattle.resp_value.specs.Spellings.{AreSpellings};
ghost use Rattle.resp_value.specs.Values.{datum_of};
ghost use Rattle.resp_value.specs.declared.value.Value.{Value};

use crate::decoder::Decoder;
use resp_scan::event::Fault;
use resp_value::cause::Cause;
use resp_value::limits::Limits;
use resp_value::value::Value;
use resp_value::version::Version;
use std::alloc::Global;
use thiserror::Error;

/// The error of [`decode_all`].
#[derive(Clone, Copy, Debug, PartialEq, Eq, Error)]
#[error("value {value}: {fault}")]
pub struct AllFault {
    /// The number of the value with the fault, from 1.
    pub value: u64,
    /// The fault.
    pub fault: Fault,
}

/// Decodes a complete input and returns its values, in order.
///
/// # Errors
///
/// An [`AllFault`] if the input is not a sequence of complete values. It has the fault of the first
/// value that is not valid, or `Truncated` if the input ends inside a value. Its cause is
/// `OutOfMemory` if an allocation fails.
///
/// # Examples
///
/// From [samples](../../samples/src/decoding.rt):
///
/// ```rust
/// let limits = Limits::standard();
/// let values = decode_all(alloc, Version::Two, &limits, b"+OK\r\n:7\r\n")?;
/// println!(rt; "{}", values.len())?;
/// if let Err(error) = decode_all(alloc, Version::Two, &limits, b"+OK\r\n:7x") {
///     println!(rt; "{error}")?;
/// }
/// ```
///
/// This prints `2` and `value 2: Syntax at byte 2 of the value`.
pub fn decode_all(
    alloc: Global,
    version: Version,
    limits: &Limits,
    bytes: &[u8],
) -> Result<Vec<Value>, AllFault>
    // The input consists of the encodings of the returned values and nothing else.
    ensures whole_input { IfOk result (λ values.
        AreSpellings (rules_under version limits.now) (map datum_of values.items) bytes.now) }

    // The input consists of the encodings of the values before the fault, and a rest that has the
    // fault.
    ensures refusal { IfErr result (RefusesInput (rules_under version limits.now) bytes.now) }
{
    let mut decoder = Decoder::new(alloc, version, limits);
    let mut values = Vec::new(alloc);
    if let Err(fault) = decode_into(&mut decoder, bytes, &mut values) {
        return Err(fault);
    }
    Ok(values)
}

/// Decodes a complete input, and adds its values to an empty list.
fn decode_into(decoder: &mut Decoder, bytes: &[u8], values: &mut Vec<Value>) -> Result<(), AllFault>
    requires { IsReadUpTo (rules_of decoder.old) bytes.now decoder.old values.old.items bytes.now }
    ensures whole_input { OnOk result
        (AreSpellings (rules_of decoder.old) (map datum_of values.new.items) bytes.now) }
    ensures refusal { IfErr result (RefusesInput (rules_of decoder.old) bytes.now) }
{
    let mut rest = bytes;
    while !rest.is_empty() {
        let number = values.len() as u64 + 1;
        match decode_next(decoder, rest, values) {
            Ok(used) => rest = &rest[used..],
            Err(fault) => return Err(AllFault {
                value: number,
                fault,
            }),
        }
    }
    Ok(())
}

/// Decodes the first value of the bytes, adds it to the list, and returns the number of its bytes.
fn decode_next(decoder: &mut Decoder, bytes: &[u8], values: &mut Vec<Value>) -> Result<usize, Fault>
    requires between { HasTaken decoder.old [] }
    requires not_empty { 0 < length bytes.now }
    ensures read { IfOk result (λ used. (value : Value) ×
        GivesValue (rules_of decoder.old) decoder.new (take used bytes.now) value ×
        (values.new.items ≡ values.old.items ++ value ∷ [])) }
    ensures within { IfOk result (λ used. used ≤ length bytes.now) }
    ensures same_rules { rules_of decoder.new ≡ rules_of decoder.old }
    ensures refusal { IfErr result (RefusesRest (rules_of decoder.old) bytes.now) }
{
    let fed = match decoder.feed(bytes) {
        Ok(fed) => fed,
        Err(fault) => return Err(fault),
    };
    let used = fed.used;
    let Some(value) = fed.value else {
        return Err(fault_at(Cause::Truncated, bytes.len()));
    };
    if values.push(value).is_err() {
        return Err(fault_at(Cause::OutOfMemory, used));
    }
    Ok(used)
}

/// Returns a fault after `bytes` bytes of a value.
fn fault_at(cause: Cause, bytes: usize) -> Fault
    ensures { result ≡ record { cause = cause; at = bytes } }
{
    Fault {
        cause,
        at: bytes as u64,
    }
}
