//! The first fault of a value, found from its measure.

ghost use Rattle.resp_value.specs.Rules.{rules_under};
ghost use Rattle.resp_encode.specs.Encodings.{IsVerdict};
ghost use Rattle.std.specs.Prelude.{◌≡◌, ◌↔◌, IsTrue, IfOk, IsErrOf, length};
ghost use Rattle.resp_value.specs.Data.{Datum};
ghost use Rattle.resp_value.specs.Canonical.{IsValue, HasTypes, AllowsDoubles, canonical_text};
ghost use Rattle.resp_encode.specs.Walks.Measures.{Describes};
ghost use Rattle.resp_value.specs.declared.version.Version.{Version};

use crate::error::EncodeError;
use crate::measure::Measure;
use resp_value::cause::Limit;
use resp_value::limits::Limits;
use resp_value::version::Version;

/// Returns whether the version has each type of the measured value.
#[inline]
pub(crate) fn has_types(found: &Measure, version: Version) -> bool
    ensures { (x : Datum) → Describes version x found.now → (IsTrue result ↔ HasTypes version x) }
{
    match version {
        Version::Two => found.in_two,
        Version::Three => true,
    }
}

/// Returns whether the limits allow the doubles of the measured value, if it has any.
#[inline]
pub(crate) fn are_doubles_allowed(found: &Measure, limits: &Limits) -> bool
    ensures { (version : Version) (x : Datum) → Describes version x found.now →
        (IsTrue result ↔ AllowsDoubles limits.now x) }
{
    found.no_double || limits.doubles()
}

/// Returns the number of bytes of the measured value's text, or its first fault. The fault is never
/// `OutOfMemory`.
#[inline]
pub(crate) fn checked_size(
    found: &Measure,
    version: Version,
    limits: &Limits,
) -> Result<usize, EncodeError>
    ensures verdict { (x : Datum) → Describes version x found.now → IsValue x →
        IsVerdict (rules_under version limits.now) x result }
    ensures size { (x : Datum) → Describes version x found.now →
        IfOk result (λ size. size ≡ length (canonical_text version x)) }
    ensures not_memory { IsErrOf result EncodeError.OutOfMemory → ⊥ }
{
    if !are_doubles_allowed(found, limits) {
        return Err(EncodeError::Double);
    }
    if !has_types(found, version) {
        return Err(EncodeError::NotInVersion);
    }
    if !found.push_at_top {
        return Err(EncodeError::NestedPush);
    }
    if found.depth > limits.depth() {
        return Err(EncodeError::OverLimits(Limit::Depth));
    }
    if found.longest > limits.length() {
        return Err(EncodeError::OverLimits(Limit::Length));
    }
    if found.most_items > limits.items() {
        return Err(EncodeError::OverLimits(Limit::Items));
    }
    let total = limits.total();
    match found.size {
        Some(size) if size <= total => Ok(size as usize),
        _ => Err(EncodeError::OverLimits(Limit::Total)),
    }
}
