//! Values, appended to a buffer.

ghost use Rattle.resp_value.specs.Rules.{rules_under};
ghost use Rattle.resp_encode.specs.Encodings.{IsVerdict, AppendsWhole};
ghost use Rattle.std.specs.Prelude.{◌≡◌, ◌↔◌, ◌<◌, ◌≤◌, ◌^◌, length, IsSome, IfSome, IsErrOf, IfOk, OnOk};
ghost use Rattle.resp_value.specs.Canonical.{IsValue, canonical_text};
ghost use Rattle.resp_value.specs.Values.{datum_of};
ghost use Rattle.resp_encode.specs.Refusals.{HasText};
ghost use Rattle.resp_encode.specs.Pushes.{push_of};
ghost use Rattle.resp_encode.specs.Walks.Writings.{Fills};
ghost use Rattle.resp_encode.specs.declared.error.EncodeError.{EncodeError};
ghost use Rattle.resp_value.specs.declared.version.Version.TheVariants.{Three};

use crate::attempt::attempt;
use crate::error::EncodeError;
use crate::first_fault::{checked_size, has_types};
use crate::measure_value::{measure_group, measure_value};
use crate::room::reserve;
use crate::text::{write_group, write_value};
use bytes::BytesMut;
use resp_value::kind::OpenKind;
use resp_value::limits::Limits;
use resp_value::value::Value;
use resp_value::version::Version;

/// Appends the canonical text of a value to `out`, or leaves `out` unchanged. The forms are those
/// of the Redis serialization protocol specification, "RESP protocol description".
///
/// # Errors
///
/// The first error of this list that applies. `out` is unchanged.
///
/// - `Double`: the value holds a double, and the limits do not allow doubles.
/// - `NotInVersion`: the version does not have a type of the value. Version 2 has nulls, integers,
///   simple strings, simple errors, bulk strings and arrays.
/// - `NestedPush`: the value holds a push inside another value.
/// - `OverLimits`: the value exceeds the limit `depth`, `length`, `items` or `total`, checked in
///   this order.
/// - `OutOfMemory`: `out` could not grow. This never happens if its spare capacity holds the text.
///
/// # Examples
///
/// A reply of three members, from [example_encode](../../example_encode/src/main.rt):
///
/// ```rust
/// let hello = Value::Bulk(Content::new(Vec::from_slice(alloc, b"hello")?));
/// let members = vec![in alloc; Value::Int(42), hello, Value::Null]?;
/// let reply = Value::Array(Members::new(members));
///
/// let mut text = BytesMut::new(alloc);
/// encode(Version::Three, &Limits::standard(), &reply, &mut text)?;
/// ```
///
/// This appends `*3\r\n:42\r\n$5\r\nhello\r\n_\r\n`.
pub fn encode(
    version: Version,
    limits: &Limits,
    value: &Value,
    out: &mut BytesMut,
) -> Result<(), EncodeError>
    ensures verdict { IsVerdict (rules_under version limits.now) (datum_of value.now) result }
    ensures whole_or_nothing { AppendsWhole out.old out.new
        (canonical_text version (datum_of value.now)) result }
{
    if attempt(value, version, limits, out) {
        return Ok(());
    }
    let size = checked_value_size(value, version, limits)?;
    reserve(out, size)?;
    write_whole(value, version, out);
    Ok(())
}

/// Returns the number of bytes of the value's text, or its first fault.
#[cold]
#[inline(never)]
fn checked_value_size(
    value: &Value,
    version: Version,
    limits: &Limits,
) -> Result<usize, EncodeError>
    ensures verdict { IsVerdict (rules_under version limits.now) (datum_of value.now) result }
    ensures size { IfOk result (λ size. size ≡
        length (canonical_text version (datum_of value.now))) }
    ensures not_memory { IsErrOf result EncodeError.OutOfMemory → ⊥ }
{
    let found = measure_value(value, version);
    checked_size(&found, version, limits)
}

/// Appends the text of a value. The buffer already has room for it.
#[cold]
#[inline(never)]
fn write_whole(value: &Value, version: Version, out: &mut BytesMut)
    requires { length (canonical_text version (datum_of value.now)) ≤ out.old.spare }
    ensures { Fills out.old out.new (canonical_text version (datum_of value.now)) }
{
    write_value(value, version, out);
}

/// Returns the number of bytes of the text of a push of the given values, or its first fault.
fn checked_push_size(limits: &Limits, items: &[Value]) -> Result<usize, EncodeError>
    ensures verdict { IsVerdict (rules_under Three limits.now) (push_of items.now) result }
    ensures size { IfOk result (λ size. size ≡ length (canonical_text Three (push_of items.now))) }
    ensures not_memory { IsErrOf result EncodeError.OutOfMemory → ⊥ }
    ensures is_value { IsValue (push_of items.now) }
{
    let found = measure_group(items, Version::Three, OpenKind::Push);
    checked_size(&found, Version::Three, limits)
}

/// Appends the text of a push of the given values. The buffer already has room for it.
fn write_push(items: &[Value], out: &mut BytesMut)
    requires { length (canonical_text Three (push_of items.now)) ≤ out.old.spare }
    ensures { Fills out.old out.new (canonical_text Three (push_of items.now)) }
{
    write_group(items, Version::Three, b'>', out);
}

/// Appends the canonical text of a push of the given values in version 3 (Redis serialization
/// protocol specification, "Pushes"), or leaves `out` unchanged.
///
/// # Errors
///
/// Those of [`encode`] for this push. `out` is unchanged.
///
/// # Examples
///
/// From [samples](../../samples/src/encoding.rt):
///
/// ```rust
/// let kind = Value::Bulk(Content::new(Vec::from_slice(alloc, b"message")?));
/// encode_push(&Limits::standard(), &[kind, Value::Int(1)], &mut out)?;
/// println!(rt; "{}", out.escape_ascii())?;
/// ```
///
/// This prints `>2\r\n$7\r\nmessage\r\n:1\r\n`.
pub fn encode_push(limits: &Limits, items: &[Value], out: &mut BytesMut) -> Result<(), EncodeError>
    ensures verdict { IsVerdict (rules_under Three limits.now) (push_of items.now) result }
    ensures whole_or_nothing { AppendsWhole out.old out.new
        (canonical_text Three (push_of items.now)) result }
    // The push is a value of the protocol, whatever the items are.
    ensures is_value { OnOk result (IsValue (push_of items.now)) }
{
    let size = checked_push_size(limits, items)?;
    reserve(out, size)?;
    write_push(items, out);
    Ok(())
}

/// Returns the length of a value's canonical text in bytes, regardless of the limits. Does not
/// allocate.
///
/// Returns `None` if and only if the version does not have a type of the value, the value holds a
/// push inside another value, or the length exceeds a `u64`.
///
/// # Examples
///
/// From [samples](../../samples/src/encoding.rt):
///
/// ```rust
/// println!(rt; "{:?}", size(Version::Two, &Value::Null))?;
/// println!(rt; "{:?}", size(Version::Three, &Value::Null))?;
/// println!(rt; "{:?}", size(Version::Two, &Value::Bool(true)))?;
/// ```
///
/// This prints `Some(5)`, `Some(3)` and `None`.
pub fn size(version: Version, value: &Value) -> Option<u64>
    ensures length { IfSome result (λ n. n ≡ length (canonical_text version (datum_of value.now))) }
    ensures some { IsSome result ↔ (HasText version (datum_of value.now) ×
        (length (canonical_text version (datum_of value.now)) < 2 ^ 64)) }
{
    let found = measure_value(value, version);
    if has_types(&found, version) && found.push_at_top {
        found.size
    } else {
        None
    }
}
