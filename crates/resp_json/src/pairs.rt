//! Which pairs are the members of a JSON object, and the texts around them.

ghost use Rattle.std.specs.Prelude.{◌≡◌, ◌&&◌, not, map};
ghost use Rattle.std.specs.List.{list_any};
ghost use Rattle.resp_value.specs.Data.{data_of_list, in_turn};
ghost use Rattle.resp_value.specs.Values.{datum_of, pair_data};
ghost use Rattle.resp_json.specs.Json.{are_names, close_bracket, is_name, is_object, keys, name_text, open_bracket};
ghost use Rattle.resp_json.specs.Pairs.{after_value, before_key, before_value, is_bulk};

use crate::text::is_utf8;
use resp_value::value::Value;

/// The maximum number of pairs of an object.
///
/// Each key is compared with each key before it. So no map takes more time than this number of
/// comparisons for each of its keys, and no memory is allocated.
const MOST_MEMBERS: usize = 512;

/// Returns whether pairs are printed as an object: if there are at most `MOST_MEMBERS`, each key is a
/// bulk string that is UTF-8, and no key repeats.
pub(crate) fn is_object(pairs: &[(Value, Value)]) -> bool
    ensures { result ≡ is_object (data_of_list (in_turn (map pair_data pairs.now))) }
{
    pairs.len() <= MOST_MEMBERS && are_names(pairs)
}

/// Returns whether each key is a bulk string that is UTF-8, and no key repeats.
fn are_names(pairs: &[(Value, Value)]) -> bool
    ensures { result ≡ are_names (keys (data_of_list (in_turn (map pair_data pairs.now)))) }
{
    let mut rest = pairs;
    while let Some((pair, beyond)) = rest.split_first() {
        if !is_new_name(&pair.0, beyond) {
            return false;
        }
        rest = beyond;
    }
    true
}

/// Returns whether a key is a bulk string that is UTF-8, and is not a key of these pairs.
fn is_new_name(key: &Value, pairs: &[(Value, Value)]) -> bool
    ensures { result ≡ (is_name (datum_of key.now) &&
        not (list_any (λ pair. is_bulk (name_text (datum_of key.now)) (datum_of pair.0)) pairs.now)) }
{
    match key {
        Value::Bulk(content) => is_utf8(content.list()) && !has_key(pairs, content.list()),
        _ => false,
    }
}

/// Returns whether a key of these pairs is this bulk string.
fn has_key(pairs: &[(Value, Value)], text: &[u8]) -> bool
    ensures { result ≡ list_any (λ pair. is_bulk text.now (datum_of pair.0)) pairs.now }
{
    let mut index = 0;
    while index < pairs.len() {
        if is_bulk(&pairs[index].0, text) {
            return true;
        }
        index += 1;
    }
    false
}

/// Returns whether a value is this bulk string.
fn is_bulk(value: &Value, text: &[u8]) -> bool
    ensures { result ≡ is_bulk text.now (datum_of value.now) }
{
    match value {
        Value::Bulk(content) => text == content.list(),
        _ => false,
    }
}

/// Returns the bracket before pairs: of an object if they are `named`, and otherwise of an array.
pub(crate) fn open_bracket(named: bool) -> &'static [u8]
    ensures { result.now ≡ open_bracket named }
{
    if named { b"{" } else { b"[" }
}

/// Returns the bracket after pairs.
pub(crate) fn close_bracket(named: bool) -> &'static [u8]
    ensures { result.now ≡ close_bracket named }
{
    if named { b"}" } else { b"]" }
}

/// Returns the text before the key of a pair.
pub(crate) fn before_key(named: bool) -> &'static [u8]
    ensures { result.now ≡ before_key named }
{
    if named { b"" } else { b"[" }
}

/// Returns the text between a key and its value.
pub(crate) fn before_value(named: bool) -> &'static [u8]
    ensures { result.now ≡ before_value named }
{
    if named { b":" } else { b"," }
}

/// Returns the text after the value of a pair.
pub(crate) fn after_value(named: bool) -> &'static [u8]
    ensures { result.now ≡ after_value named }
{
    if named { b"" } else { b"]" }
}
