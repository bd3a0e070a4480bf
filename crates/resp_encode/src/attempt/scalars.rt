//! Encodes values without members. Each function appends the text and returns true, or leaves the
//! buffer unchanged and returns false if the value has a fault or there is no room. The limit
//! `total` is not checked here.

ghost use Rattle.std.specs.Prelude.{◌≡◌, ◌+◌, ℕ};
ghost use Rattle.std.specs.Bool.{OnTrue};
ghost use Rattle.resp_value.specs.Bounds.{Bounds};
ghost use Rattle.resp_value.specs.Data.{Datum, Scalar, scalar};
ghost use Rattle.resp_value.specs.Data as d;
ghost use Rattle.resp_value.specs.declared.version.Version.{Version};
ghost use Rattle.resp_value.specs.Values.{line_text, content_bytes, datum_of};
ghost use Rattle.resp_encode.specs.Walks.Attempts.{Attempt, FitsSpare};
ghost use Rattle.resp_encode.specs.Walks.Measures.{Describes};

use crate::first_fault::{are_doubles_allowed, has_types};
use crate::measure::Measure;
use crate::measure_value::{measure_line, measure_null, measure_value};
use crate::room::{has_room_for_head, room};
use crate::text::{write_int, write_line, write_null, write_string, write_value};
use bytes::BytesMut;
use resp_value::content::Content;
use resp_value::limits::Limits;
use resp_value::line::Line;
use resp_value::value::Value;
use resp_value::version::Version;

/// Returns whether a value without members has no fault, apart from the limit of total, and there
/// is room for its text.
#[inline(always)]
fn suits(found: &Measure, version: Version, limits: &Limits, out: &BytesMut) -> bool
    ensures { (x : Datum) → Describes version x found.now →
        OnTrue result (FitsSpare version limits.now out.now.spare x) }
{
    if !are_doubles_allowed(found, limits) || !has_types(found, version) {
        return false;
    }
    if found.longest > limits.length() {
        return false;
    }
    match found.size {
        Some(size) => size <= room(out),
        None => false,
    }
}

/// Appends Null in the form of the version. Leaves the buffer unchanged if there is no room.
#[inline(always)]
pub(super) fn attempt_null(version: Version, limits: &Limits, out: &mut BytesMut) -> bool
    ensures { (deeper : ℕ) → Attempt version limits.now deeper (scalar d.Null) out.old out.new
        result }
{
    let found = measure_null(version);
    if !suits(&found, version, limits, out) {
        return false;
    }
    write_null(out, version);
    true
}

/// Appends an integer. Leaves the buffer unchanged if there is no room for its digits and a minus.
#[inline(always)]
pub(super) fn attempt_int(number: &i64, out: &mut BytesMut) -> bool
    ensures { (version : Version) (bounds : Bounds) (deeper : ℕ) →
        Attempt version bounds deeper (scalar (d.Int number.now)) out.old out.new result }
{
    if !has_room_for_head(out, number.unsigned_abs(), 1) {
        return false;
    }
    write_int(out, number);
    true
}

/// Appends a simple string. Leaves the buffer unchanged if it exceeds the limit of length or there
/// is no room.
#[inline(always)]
pub(super) fn attempt_simple(
    line: &Line,
    version: Version,
    limits: &Limits,
    out: &mut BytesMut,
) -> bool
    ensures { (deeper : ℕ) → Attempt version limits.now deeper
        (scalar (d.Simple (line_text line.now))) out.old out.new result }
{
    let text = line.text();
    let found = measure_line(text);
    if !suits(&found, version, limits, out) {
        return false;
    }
    write_line(out, b'+', text);
    true
}

/// Appends a bulk string. Leaves the buffer unchanged if it exceeds the limit of length or there is
/// no room.
#[inline(always)]
pub(super) fn attempt_bulk(content: &Content, limits: &Limits, out: &mut BytesMut) -> bool
    ensures { (version : Version) (deeper : ℕ) →
        Attempt version limits.now deeper (scalar (d.Bulk (content_bytes content.now))) out.old
        out.new result }
{
    let bytes = content.list();
    let counted = bytes.len() as u64;
    if counted > limits.length() || !has_room_for_head(out, counted, counted + 2) {
        return false;
    }
    write_string(out, b'$', bytes);
    true
}

/// Appends a value of any type without members. Leaves the buffer unchanged if the value has a fault
/// or there is no room.
#[inline(never)]
pub(super) fn attempt_scalar(
    value: &Value,
    version: Version,
    limits: &Limits,
    out: &mut BytesMut,
) -> bool
    ensures { (content : Scalar) → datum_of value.now ≡ scalar content → (deeper : ℕ) →
        Attempt version limits.now deeper (datum_of value.now) out.old out.new result }
{
    let found = measure_value(value, version);
    if !suits(&found, version, limits, out) {
        return false;
    }
    write_value(value, version, out);
    true
}
