//! Values without members.

ghost use Rattle.std.specs.Prelude.{◌≡◌, ℕ, List, Bool, ◌+◌, ◌<◌, ◌≤◌, [], ◌∷◌, ◌++◌, pos, IfNone, IfSome, codes, drop, true, get_or, length};
ghost use Rattle.std.proofs.Common.{neg_ℤ};
ghost use Rattle.std.specs.Str.{byte};
ghost use Rattle.resp_value.specs.Bounds.{Bounds};
ghost use Rattle.resp_value.specs.Bytes.{crlf};
ghost use Rattle.resp_fronts.specs.Tokens.{HasAnyText};
ghost use Rattle.resp_value.specs.Doubles.{IsDouble};
ghost use Rattle.resp_value.specs.Rules.{Rules, IsLeafInTwo, rules_under};
ghost use Rattle.resp_value.specs.Trees.{LineKind, StringKind, line, line_byte, string, string_byte, truth_line};
ghost use Rattle.resp_value.specs.declared.version.Version.{Version};
ghost use Rattle.resp_value.specs.declared.version.Version.TheVariants.{Two};
ghost use Rattle.resp_flat.specs.Numbers.{line_form, string_form};
ghost use Rattle.resp_flat.specs.Plain.{BeginsWithLine, BeginsWithNumber, HasLeaf, HasNoFormat, IsLeafAt, IsNullByte};

use crate::heads::{is_line_end, line_end, number_line};
use crate::node::{BOOL, INT, NULL, Node, leaf, text, verbatim};
use resp_value::double::is_double;
use resp_value::limits::Limits;
use resp_value::version::Version;

/// A value without members: its node, and the index after it.
#[derive(Clone, Copy)]
pub(crate) struct Leaf {
    pub(crate) node: Node,
    pub(crate) end: usize,
}

/// The greatest integer.
const MOST: u64 = 9_223_372_036_854_775_807;

/// The absolute value of the least integer.
const LEAST: u64 = 9_223_372_036_854_775_808;

/// Reads the line of a simple string or an error.
#[inline(always)]
fn line(buffer: &[u8], at: usize, limits: &Limits, form: u8) -> Option<Leaf>
    requires { at < length buffer.now }
    ensures found { (version : Version) (k : LineKind) → get_or buffer.now at 0 ≡ line_byte k → form ≡ line_form k →
        HasAnyText k → IfSome result (λ found. IsLeafAt (rules_under version limits.now) buffer.now at found.end found.node) }
    ensures none { IfNone result ((size : ℕ) (rest : List ℕ) → size ≤ limits.now.length →
        BeginsWithLine (drop (at + 1) buffer.now) size (crlf rest) → ⊥) }
{
    let end = line_end(buffer, at + 1)?;
    let length = end - (at + 1);
    if length as u64 > limits.length() {
        return None;
    }
    Some(Leaf {
        node: text(form, at + 1, length),
        end: end + 2,
    })
}

/// Reads a double.
#[inline(always)]
fn double(buffer: &[u8], at: usize, limits: &Limits) -> Option<Leaf>
    requires { at < length buffer.now }
    ensures found { (version : Version) → (version ≡ Two → ⊥) → limits.now.doubles ≡ true →
        get_or buffer.now at 0 ≡ byte "," →
        IfSome result (λ found. IsLeafAt (rules_under version limits.now) buffer.now at found.end found.node) }
    ensures none { IfNone result ((text rest : List ℕ) → IsDouble text → length text ≤ limits.now.length →
        drop (at + 1) buffer.now ≡ text ++ crlf rest → ⊥) }
{
    let end = line_end(buffer, at + 1)?;
    let length = end - (at + 1);
    if length as u64 > limits.length() {
        return None;
    }
    if !is_double(&buffer[at + 1..end]) {
        return None;
    }
    Some(Leaf {
        node: text(2, at + 1, length),
        end: end + 2,
    })
}

/// Reads a string with the number of its bytes in front of it.
#[inline(always)]
fn string(buffer: &[u8], at: usize, limits: &Limits, form: u8) -> Option<Leaf>
    requires { at < length buffer.now }
    ensures found { (version : Version) (k : StringKind) → get_or buffer.now at 0 ≡ string_byte k → form ≡ string_form k →
        HasNoFormat k → (version ≡ Two → IsLeafInTwo (string k [] [])) →
        IfSome result (λ found. IsLeafAt (rules_under version limits.now) buffer.now at found.end found.node) }
    ensures none { IfNone result ((text rest : List ℕ) → length text ≤ limits.now.length →
        BeginsWithNumber (drop (at + 1) buffer.now) (length text) (text ++ crlf rest) → ⊥) }
{
    let head = number_line(buffer, at + 1, limits.length())?;
    let length = head.number as usize;
    if buffer.len() - head.end < length {
        return None;
    }
    let end = head.end + length;
    if !is_line_end(buffer, end) {
        return None;
    }
    Some(Leaf {
        node: text(form, head.end, length),
        end: end + 2,
    })
}

/// Returns this number.
#[inline(always)]
fn from_zero(number: u64) -> i64
    requires { number ≤ 9_223_372_036_854_775_807 }
    ensures { result ≡ pos number }
{
    number as i64
}

/// Returns the number below zero with this absolute value.
#[inline(always)]
fn below_zero(number: u64) -> i64
    requires { number ≤ 9_223_372_036_854_775_808 }
    ensures { result ≡ neg_ℤ (pos number) }
{
    if number == LEAST {
        return i64::MIN;
    }
    -(number as i64)
}

/// Reads an integer.
#[inline(always)]
fn integer(buffer: &[u8], at: usize) -> Option<Leaf>
    requires { at < length buffer.now }
    ensures found { (rules : Rules) → get_or buffer.now at 0 ≡ byte ":" →
        IfSome result (λ found. IsLeafAt rules buffer.now at found.end found.node) }
    ensures none { IfNone result ((n : ℕ) (rest : List ℕ) → n ≤ 9_223_372_036_854_775_807 →
        BeginsWithNumber (drop (at + 1) buffer.now) n rest → ⊥) }
    ensures none_below { IfNone result ((n : ℕ) (more rest : List ℕ) →
        n ≤ 9_223_372_036_854_775_808 → drop (at + 1) buffer.now ≡ codes "-" ++ more →
        BeginsWithNumber more n rest → ⊥) }
{
    if at + 1 < buffer.len() && buffer[at + 1] == b'-' {
        let found = number_line(buffer, at + 2, LEAST)?;
        return Some(Leaf {
            node: leaf(INT, below_zero(found.number)),
            end: found.end,
        });
    }
    let found = number_line(buffer, at + 1, MOST)?;
    Some(Leaf {
        node: leaf(INT, from_zero(found.number)),
        end: found.end,
    })
}

/// Reads `$-1`, `*-1` after the first byte.
#[inline(always)]
fn null(buffer: &[u8], at: usize) -> Option<Leaf>
    requires { at < length buffer.now }
    ensures found { (rules : Rules) → IsNullByte (get_or buffer.now at 0) →
        IfSome result (λ found. IsLeafAt rules buffer.now at found.end found.node) }
    ensures none { IfNone result ((rest : List ℕ) →
        drop (at + 1) buffer.now ≡ codes "-1" ++ crlf rest → ⊥) }
{
    if buffer.len() - at < 5 || buffer[at + 1] != b'-' || buffer[at + 2] != b'1' {
        return None;
    }
    if !is_line_end(buffer, at + 3) {
        return None;
    }
    Some(Leaf {
        node: leaf(NULL, 0),
        end: at + 5,
    })
}

/// Reads a verbatim string.
#[inline(always)]
fn verbatim_string(buffer: &[u8], at: usize, limits: &Limits) -> Option<Leaf>
    requires { at < length buffer.now }
    ensures found { (version : Version) → (version ≡ Two → ⊥) → get_or buffer.now at 0 ≡ byte "=" →
        IfSome result (λ found. IsLeafAt (rules_under version limits.now) buffer.now at found.end found.node) }
    ensures none { IfNone result ((format text rest : List ℕ) → length format ≡ 3 →
        length text + 4 ≤ limits.now.length → BeginsWithNumber (drop (at + 1) buffer.now)
        (length (format ++ byte ":" ∷ text)) ((format ++ byte ":" ∷ text) ++ crlf rest) → ⊥) }
{
    let head = number_line(buffer, at + 1, limits.length())?;
    let length = head.number as usize;
    if length < 4 || buffer.len() - head.end < length || buffer[head.end + 3] != b':' {
        return None;
    }
    let end = head.end + length;
    if !is_line_end(buffer, end) {
        return None;
    }
    let format = [buffer[head.end], buffer[head.end + 1], buffer[head.end + 2]];
    Some(Leaf {
        node: verbatim(format, head.end + 4, length - 4),
        end: end + 2,
    })
}

/// Reads a value that version 3 alone has.
#[inline(never)]
fn leaf_in_three(buffer: &[u8], at: usize, limits: &Limits) -> Option<Leaf>
    requires { at < length buffer.now }
    ensures found { (version : Version) → (version ≡ Two → ⊥) →
        IfSome result (λ found. IsLeafAt (rules_under version limits.now) buffer.now at found.end found.node) }
    ensures none { IfNone result ((version : Version) (level : ℕ)
        (has : HasLeaf (rules_under version limits.now) level buffer.now at) →
        (IsLeafInTwo has.leaf → ⊥) → ⊥) }
{
    match buffer[at] {
        b'_' => {
            if !is_line_end(buffer, at + 1) {
                return None;
            }
            Some(Leaf {
                node: leaf(NULL, 0),
                end: at + 3,
            })
        }
        b'#' => truth(buffer, at),
        b',' => {
            if !limits.doubles() {
                return None;
            }
            double(buffer, at, limits)
        }
        b'!' => string(buffer, at, limits, 4),
        b'=' => verbatim_string(buffer, at, limits),
        _ => None,
    }
}

/// Reads a boolean.
#[inline(always)]
fn truth(buffer: &[u8], at: usize) -> Option<Leaf>
    requires { at < length buffer.now }
    ensures found { (rules : Rules) → (rules.version ≡ Two → ⊥) → get_or buffer.now at 0 ≡ byte "#" →
        IfSome result (λ found. IsLeafAt rules buffer.now at found.end found.node) }
    ensures none { IfNone result ((truth : Bool) (rest : List ℕ) →
        drop at buffer.now ≡ truth_line truth ++ crlf rest → ⊥) }
{
    if buffer.len() - at < 4 || !is_line_end(buffer, at + 2) {
        return None;
    }
    match buffer[at + 1] {
        b't' => Some(Leaf {
            node: leaf(BOOL, 1),
            end: at + 4,
        }),
        b'f' => Some(Leaf {
            node: leaf(BOOL, 0),
            end: at + 4,
        }),
        _ => None,
    }
}

/// Reads the value without members at this index.
#[inline(always)]
pub(crate) fn leaf_at(version: Version, limits: &Limits, buffer: &[u8], at: usize) -> Option<Leaf>
    ensures found { IfSome result (λ found. IsLeafAt (rules_under version limits.now) buffer.now at found.end found.node) }
    ensures none { IfNone result ((level : ℕ) →
        HasLeaf (rules_under version limits.now) level buffer.now at → ⊥) }
{
    if at >= buffer.len() {
        return None;
    }
    match buffer[at] {
        b'$' => match string(buffer, at, limits, 3) {
            Some(found) => Some(found),
            None => null(buffer, at),
        },
        b':' => integer(buffer, at),
        b'+' => line(buffer, at, limits, 0),
        b'-' => line(buffer, at, limits, 1),
        b'*' => null(buffer, at),
        _ => match version {
            Version::Two => None,
            Version::Three => leaf_in_three(buffer, at, limits),
        },
    }
}
