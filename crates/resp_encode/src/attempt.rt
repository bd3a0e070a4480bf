//! Encodes a value in one pass over it, which writes as it goes and stops at the first fault or
//! when the room ends.
//!
//! Most values have no fault, and there is room for them. This module saves the separate pass that
//! measures them first.

ghost use Rattle.resp_value.specs.Rules.{rules_under};
ghost use Rattle.std.specs.Prelude.{◌≡◌, ◌+◌, ◌<◌, ◌≤◌, ◌++◌, ◌∷◌, [], ℕ, length, map};
ghost use Rattle.std.specs.Bool.{OnTrue, OnFalse};
ghost use Rattle.resp_value.specs.Bytes.{crlf};
ghost use Rattle.resp_value.specs.Numbers.{decimal};
ghost use Rattle.resp_value.specs.Data.{aggregate, items_of, data_of_list, in_turn};
ghost use Rattle.resp_value.specs.Data as d;
ghost use Rattle.resp_value.specs.Trees.{kind_byte};
ghost use Rattle.resp_value.specs.Canonical.{IsValue, HasNoPush, canonical_text, Fits};
ghost use Rattle.resp_value.specs.Values.{datum_of, pair_data};
ghost use Rattle.resp_encode.specs.Walks.Attempts.{HasKind, Attempt, AttemptEach, AttemptInside};
ghost use Rattle.resp_value.specs.Kinds.{kind_of};
ghost use Rattle.resp_encode.specs.Walks.Writings.{Fills};

use crate::room::{has_room_for_head, room};
use crate::text::write_head;
use bytes::BytesMut;
use resp_value::kind::OpenKind;
use resp_value::limits::Limits;
use resp_value::value::Value;
use resp_value::version::Version;
use scalars::{attempt_bulk, attempt_int, attempt_null, attempt_scalar, attempt_simple};

mod scalars;

/// Returns whether the version has the kind.
#[inline]
fn has_kind(version: Version, kind: OpenKind) -> bool
    ensures { OnTrue result (HasKind version (kind_of kind)) }
{
    match version {
        Version::Two => kind.is_in_two(),
        Version::Three => true,
    }
}

/// Appends the head of an aggregate and returns true. If there is a fault or no room, leaves the
/// buffer unchanged and returns false.
#[inline]
fn attempt_head(
    items: u64,
    kind: OpenKind,
    version: Version,
    limits: &Limits,
    deeper: u64,
    out: &mut BytesMut,
) -> bool
    ensures writes { OnTrue result (Fills out.old out.new (kind_byte (kind_of kind) ∷
        decimal items ++ crlf [])) }
    ensures has_kind { OnTrue result (HasKind version (kind_of kind)) }
    ensures within_items { OnTrue result (items ≤ limits.now.items) }
    ensures within_depth { OnTrue result (0 < deeper) }
    ensures unchanged { OnFalse result (out.new ≡ out.old) }
{
    if !has_kind(version, kind) || deeper == 0 {
        return false;
    }
    if items > limits.items() || !has_room_for_head(out, items, 0) {
        return false;
    }
    write_head(out, kind.byte(), items);
    true
}

/// Appends the text of a value inside another value, and returns true. Stops and returns false at a
/// fault or when the room ends.
#[cycle(attempt)]
#[inline(always)]
fn attempt_value(
    value: &Value,
    version: Version,
    limits: &Limits,
    deeper: u64,
    out: &mut BytesMut,
) -> bool
    ensures attempt { Attempt version limits.now deeper (datum_of value.now)
        out.old out.new result }
    ensures no_push { OnTrue result (HasNoPush (datum_of value.now)) }
{
    match value {
        Value::Null => attempt_null(version, limits, out),
        Value::Int(number) => attempt_int(number, out),
        Value::Simple(line) => attempt_simple(line, version, limits, out),
        Value::Bulk(content) => attempt_bulk(content, limits, out),
        Value::Bool(_)
        | Value::Error(_)
        | Value::Double(_)
        | Value::BulkError(_)
        | Value::Verbatim(_, _)
        | Value::Big(_) => attempt_scalar(value, version, limits, out),
        Value::Array(members) => {
            attempt_group(
                members.list(),
                OpenKind::Array,
                version,
                limits,
                deeper,
                out,
            )
        }
        Value::Set(members) => {
            attempt_group(members.list(), OpenKind::Set, version, limits, deeper, out)
        }
        Value::Map(pairs) => {
            attempt_counted_pairs(pairs.list(), OpenKind::Map, version, limits, deeper, out)
        }
        Value::Attr(pairs, annotated) => {
            let pairs = pairs.list();
            if !attempt_counted_pairs(pairs, OpenKind::Attr, version, limits, deeper, out) {
                return false;
            }
            attempt_annotated(annotated, version, limits, deeper - 1, out)
        }
        Value::Push(_) => false,
    }
}

/// Appends the text of an aggregate whose head counts its members, and returns true. Stops and
/// returns false at a fault or when the room ends.
#[cycle(attempt)]
#[inline(never)]
fn attempt_group(
    members: &[Value],
    kind: OpenKind,
    version: Version,
    limits: &Limits,
    deeper: u64,
    out: &mut BytesMut,
) -> bool
    requires { (n : ℕ) → items_of (kind_of kind) n ≡ n }
    ensures { Attempt version limits.now deeper
        (aggregate (kind_of kind) (data_of_list (map datum_of members.now)))
        out.old out.new result }
{
    if !attempt_head(members.len() as u64, kind, version, limits, deeper, out) {
        return false;
    }
    attempt_members(members, version, limits, deeper - 1, out)
}

/// Appends the head and the pairs of a map or an attribute, and returns true. Stops and returns
/// false at a fault or when the room ends.
#[cycle(attempt)]
#[inline(never)]
fn attempt_counted_pairs(
    pairs: &[(Value, Value)],
    kind: OpenKind,
    version: Version,
    limits: &Limits,
    deeper: u64,
    out: &mut BytesMut,
) -> bool
    ensures { AttemptInside version limits.now deeper (kind_of kind) (length pairs.now)
        (data_of_list (in_turn (map pair_data pairs.now))) out.old out.new result }
{
    if !attempt_head(pairs.len() as u64, kind, version, limits, deeper, out) {
        return false;
    }
    attempt_pairs(pairs, version, limits, deeper - 1, out)
}

/// Appends the text of the value that an attribute annotates, and returns true. Stops and returns
/// false at a fault or when the room ends.
#[cycle(attempt)]
#[inline(never)]
fn attempt_annotated(
    value: &Value,
    version: Version,
    limits: &Limits,
    deeper: u64,
    out: &mut BytesMut,
) -> bool
    ensures attempt { Attempt version limits.now deeper (datum_of value.now)
        out.old out.new result }
    ensures no_push { OnTrue result (HasNoPush (datum_of value.now)) }
{
    attempt_value(value, version, limits, deeper, out)
}

/// Appends the texts of consecutive values, and returns true. Stops and returns false at a fault or
/// when the room ends.
#[cycle(attempt)]
#[inline(never)]
fn attempt_members(
    members: &[Value],
    version: Version,
    limits: &Limits,
    deeper: u64,
    out: &mut BytesMut,
) -> bool
    ensures { AttemptEach version limits.now deeper (data_of_list (map datum_of members.now))
        out.old out.new result }
{
    for member in members {
        if !attempt_value(member, version, limits, deeper, out) {
            return false;
        }
    }
    true
}

/// Appends the texts of alternating keys and values, and returns true. Stops and returns false at a
/// fault or when the room ends.
#[cycle(attempt)]
#[inline(never)]
fn attempt_pairs(
    pairs: &[(Value, Value)],
    version: Version,
    limits: &Limits,
    deeper: u64,
    out: &mut BytesMut,
) -> bool
    ensures { AttemptEach version limits.now deeper
        (data_of_list (in_turn (map pair_data pairs.now))) out.old out.new result }
{
    for pair in pairs {
        if !attempt_value(&pair.0, version, limits, deeper, out) {
            return false;
        }
        if !attempt_value(&pair.1, version, limits, deeper, out) {
            return false;
        }
    }
    true
}

/// Appends the text of a value that may be a push, and returns true. Stops and returns false at a
/// fault or when the room ends.
#[inline(always)]
fn attempt_top(value: &Value, version: Version, limits: &Limits, out: &mut BytesMut) -> bool
    ensures { Attempt version limits.now limits.now.depth (datum_of value.now) out.old out.new
        result }
{
    let deeper = limits.depth();
    match value {
        Value::Push(members) => {
            attempt_group(members.list(), OpenKind::Push, version, limits, deeper, out)
        }
        _ => attempt_value(value, version, limits, deeper, out),
    }
}

/// Appends the text of a value and returns true if the value has no fault and there is room for it.
/// Otherwise leaves the buffer unchanged and returns false.
#[inline(always)]
pub(crate) fn attempt(value: &Value, version: Version, limits: &Limits, out: &mut BytesMut) -> bool
    ensures writes { OnTrue result (Fills out.old out.new
        (canonical_text version (datum_of value.now))) }
    ensures fits { OnTrue result (Fits (rules_under version limits.now)
        (datum_of value.now)) }
    ensures is_value { OnTrue result (IsValue (datum_of value.now)) }
    ensures items { OnFalse result (out.new.items ≡ out.old.items) }
    ensures spare { OnFalse result (out.new.spare ≡ out.old.spare) }
{
    let before = room(out);
    if attempt_top(value, version, limits, out) {
        let written = before - room(out);
        if written <= limits.total() {
            return true;
        }
    }
    let written = before - room(out);
    out.truncate(out.len() - written as usize);
    false
}
