//! Measures a value in one pass over it.

ghost use Rattle.std.specs.Prelude.{◌≡◌, ℕ, List, [], ◌∷◌, ◌++◌, ◌+◌, ◌≤◌, ◌^◌, length, map};
ghost use Rattle.resp_value.specs.Bytes.{IsText};
ghost use Rattle.resp_value.specs.Numbers.{decimal};
ghost use Rattle.resp_value.specs.Data.{Datum, scalar, aggregate, items_of, data_of_list, in_turn};
ghost use Rattle.resp_value.specs.Data as d;
ghost use Rattle.resp_value.specs.Canonical.{IsValue, AreValues, IsScalarValue, canonical_text};
ghost use Rattle.resp_value.specs.Values.{datum_of, pair_data};
ghost use Rattle.resp_value.specs.declared.version.Version.{Version};
ghost use Rattle.resp_value.specs.declared.version.Version.TheVariants.{Three};
ghost use Rattle.resp_value.specs.Kinds.{kind_of};
ghost use Rattle.resp_encode.specs.Walks.Measures.{Describes, DescribesEach};

use crate::digits::digit_count;
use crate::measure::{Measure, head_size, sum};
use resp_value::kind::OpenKind;
use resp_value::value::Value;
use resp_value::version::Version;

/// Returns the number of bytes of the text of Null, which depends on the version.
#[inline]
pub(crate) fn null_size(version: Version) -> u64
    ensures { result ≡ length (canonical_text version (scalar d.Null)) }
{
    match version {
        Version::Two => 5,
        Version::Three => 3,
    }
}

/// Returns the measure of Null.
#[inline]
pub(crate) fn measure_null(version: Version) -> Measure
    ensures { Describes version (scalar d.Null) result }
{
    Measure::scalar(true, 0, null_size(version))
}

/// Returns the measure of a boolean, which version 2 does not have.
#[inline]
fn measure_bool(truth: bool) -> Measure
    ensures { (version : Version) → Describes version (scalar (d.Bool truth)) result }
{
    Measure::scalar(false, 0, 4)
}

/// Returns the number of bytes of the text of an integer.
#[inline]
pub(crate) fn int_size(number: i64) -> u64
    ensures { result ≡ length (canonical_text Three (scalar (d.Int number))) }
{
    let digits = digit_count(number.unsigned_abs());
    if number < 0 { digits + 4 } else { digits + 3 }
}

/// Returns the measure of an integer. Its digits do not count for the limit `length`.
#[inline]
pub(crate) fn measure_int(number: &i64) -> Measure
    ensures found { (version : Version) → Describes version (scalar (d.Int number.now)) result }
    ensures is_value { IsScalarValue (d.Int number.now) }
{
    Measure::scalar(true, 0, int_size(*number))
}

/// Returns the measure of a simple string or of an error.
#[inline]
pub(crate) fn measure_line(text: &[u8]) -> Measure
    ensures simple { (version : Version) → Describes version (scalar (d.Simple text.now)) result }
    ensures error { (version : Version) → Describes version (scalar (d.Error text.now)) result }
    ensures is_text { IsText text.now }
{
    let length = text.len() as u64;
    Measure::scalar(true, length, length + 3)
}

/// Returns the measure of a double, which version 2 does not have.
#[inline]
fn measure_double(text: &[u8]) -> Measure
    ensures found { (version : Version) → Describes version (scalar (d.Double text.now)) result }
    ensures is_text { IsText text.now }
{
    let length = text.len() as u64;
    let found = Measure::scalar(false, length, length + 3);
    Measure {
        no_double: false,
        ..found
    }
}

/// Returns the number of bytes of a string whose head has the length `counted`: the head, the
/// content, CR and LF.
#[inline]
pub(crate) fn string_size(counted: u64) -> u64
    requires { counted ≤ 2 ^ 63 + 4 }
    ensures { result ≡ length (decimal counted) + counted + 5 }
{
    head_size(counted) + counted + 2
}

/// Returns the measure of a bulk string of the given bytes.
#[inline]
pub(crate) fn measure_bulk(bytes: &[u8]) -> Measure
    ensures found { (version : Version) → Describes version (scalar (d.Bulk bytes.now)) result }
    ensures is_text { IsText bytes.now }
{
    let counted = bytes.len() as u64;
    Measure::scalar(true, counted, string_size(counted))
}

/// Returns the measure of a bulk string of this many bytes.
#[inline]
pub(crate) fn measure_bulk_of(counted: u64) -> Measure
    ensures { (version : Version) (bytes : List ℕ) → length bytes ≡ counted →
        Describes version (scalar (d.Bulk bytes)) result }
{
    let found = Measure::scalar(true, counted, 0);
    Measure {
        size: sum(Some(head_size(counted) + 2), Some(counted)),
        ..found
    }
}

/// Returns the measure of a bulk error of the given bytes, which version 2 does not have.
#[inline]
fn measure_bulk_error(bytes: &[u8]) -> Measure
    ensures found { (version : Version) →
        Describes version (scalar (d.BulkError bytes.now)) result }
    ensures is_text { IsText bytes.now }
{
    let counted = bytes.len() as u64;
    Measure::scalar(false, counted, string_size(counted))
}

/// Returns the measure of a verbatim string. Its head counts its format and the colon after the
/// format.
#[inline]
fn measure_verbatim(format: &[u8; 3], text: &[u8]) -> Measure
    ensures found { (version : Version) →
        Describes version (scalar (d.Verbatim format.now text.now)) result }
    ensures is_value { IsScalarValue (d.Verbatim format.now text.now) }
{
    let counted = text.len() as u64 + 4;
    Measure::scalar(false, counted, string_size(counted))
}

/// Returns the number of bytes of the text of a big number.
#[inline]
pub(crate) fn big_size(negative: bool, digits: &[u8]) -> u64
    ensures { result ≡ length (canonical_text Three (scalar (d.Big negative digits.now))) }
{
    let length = digits.len() as u64;
    if negative { length + 4 } else { length + 3 }
}

/// Returns the measure of a big number. Its digits count for the limit of length, and its sign does
/// not.
#[inline]
fn measure_big(negative: bool, digits: &[u8]) -> Measure
    ensures { (version : Version) → Describes version (scalar (d.Big negative digits.now)) result }
{
    Measure::scalar(false, digits.len() as u64, big_size(negative, digits))
}

/// Returns the measure of a value. Each value of this type is a value of the protocol's grammar.
///
/// It is inlined in its caller, which keeps the measure of a scalar in registers. The functions
/// that call it recursively are not inlined.
#[cycle(measure)]
#[inline(always)]
pub(crate) fn measure_value(value: &Value, version: Version) -> Measure
    ensures found { Describes version (datum_of value.now) result }
    ensures is_value { IsValue (datum_of value.now) }
{
    match value {
        Value::Null => measure_null(version),
        Value::Bool(truth) => measure_bool(*truth),
        Value::Int(number) => measure_int(number),
        Value::Simple(line) => measure_line(line.text()),
        Value::Error(line) => measure_line(line.text()),
        Value::Double(text) => measure_double(text.text()),
        Value::Bulk(content) => measure_bulk(content.list()),
        Value::BulkError(content) => measure_bulk_error(content.list()),
        Value::Verbatim(format, text) => measure_verbatim(format, text.list()),
        Value::Big(digits) => measure_big(digits.is_negative(), digits.digits()),
        Value::Array(members) => measure_group(members.list(), version, OpenKind::Array),
        Value::Set(members) => measure_group(members.list(), version, OpenKind::Set),
        Value::Push(members) => measure_group(members.list(), version, OpenKind::Push),
        Value::Map(pairs) => measure_map(pairs.list(), version),
        Value::Attr(pairs, annotated) => {
            let under = measure_annotated(annotated, version);
            measure_attr(pairs.list(), version, &under)
        }
    }
}

/// Returns the measure of a map of the given pairs.
#[cycle(measure)]
#[inline(never)]
fn measure_map(pairs: &[(Value, Value)], version: Version) -> Measure
    ensures found { Describes version (aggregate d.Map
        (data_of_list (in_turn (map pair_data pairs.now)))) result }
    ensures is_value { IsValue (aggregate d.Map
        (data_of_list (in_turn (map pair_data pairs.now)))) }
{
    measure_pairs(pairs, version).inside(OpenKind::Map, pairs.len() as u64)
}

/// Returns the measure of the value that an attribute annotates.
#[cycle(measure)]
#[inline(never)]
fn measure_annotated(value: &Value, version: Version) -> Measure
    ensures found { Describes version (datum_of value.now) result }
    ensures is_value { IsValue (datum_of value.now) }
{
    measure_value(value, version)
}

/// Returns the measure of an attribute of the given pairs that annotates a value with the measure
/// `under`.
#[cycle(measure)]
#[inline(never)]
fn measure_attr(pairs: &[(Value, Value)], version: Version, under: &Measure) -> Measure
    ensures found { (x : Datum) → Describes version x under.now →
        Describes version (aggregate d.Attr
        (data_of_list (in_turn (map pair_data pairs.now) ++ x ∷ []))) result }
    ensures are_values { AreValues (data_of_list (in_turn (map pair_data pairs.now))) }
{
    let found = measure_pairs(pairs, version).with(under);
    found.inside(OpenKind::Attr, pairs.len() as u64)
}

/// Returns the measure of an aggregate whose head counts its members.
#[cycle(measure)]
#[inline(never)]
pub(crate) fn measure_group(members: &[Value], version: Version, kind: OpenKind) -> Measure
    requires { (n : ℕ) → items_of (kind_of kind) n ≡ n }
    ensures found { Describes version (aggregate (kind_of kind)
        (data_of_list (map datum_of members.now))) result }
    ensures are_values { AreValues (data_of_list (map datum_of members.now)) }
{
    measure_members(members, version).inside(kind, members.len() as u64)
}

/// Returns the measure of consecutive values.
#[cycle(measure)]
fn measure_members(members: &[Value], version: Version) -> Measure
    ensures found { DescribesEach version (data_of_list (map datum_of members.now)) result }
    ensures are_values { AreValues (data_of_list (map datum_of members.now)) }
{
    let mut found = Measure::nothing();
    for member in members {
        found = found.with(&measure_value(member, version));
    }
    found
}

/// Returns the measure of alternating keys and values.
#[cycle(measure)]
fn measure_pairs(pairs: &[(Value, Value)], version: Version) -> Measure
    ensures found { DescribesEach version
        (data_of_list (in_turn (map pair_data pairs.now))) result }
    ensures are_values { AreValues (data_of_list (in_turn (map pair_data pairs.now))) }
{
    let mut found = Measure::nothing();
    for pair in pairs {
        found = found.with(&measure_value(&pair.0, version));
        found = found.with(&measure_value(&pair.1, version));
    }
    found
}
