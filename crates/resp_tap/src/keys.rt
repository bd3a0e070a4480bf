//! The keys of a command whose words are decoded.

ghost use Rattle.std.specs.Prelude.{◌≡◌, drop};
ghost use Rattle.std.specs.Bool.{MatchBool};
ghost use Rattle.resp_commands.specs.Keys.{AreKeys};
ghost use Rattle.resp_tap.specs.Keyed.{HasKeyLike, IsFirstArgument, IsKeyed, IsLike, IsUnkeyed, has_channels, name_in};

use resp_commands::glob::matches;
use resp_commands::{Arguments, KeyPlaces, Keys, fixed_key_places, key_places, row_of};
use resp_session::names::is_name;
use resp_session::words::Words;

/// Returns whether a glob matches one of the keys of a command. The table of `resp_commands` says
/// which words are keys. Channels, which this table has in their places, are no keys.
pub(crate) fn has_key(words: &Words, glob: &[u8]) -> bool
    ensures { MatchBool result (IsKeyed glob.now words.now) (IsUnkeyed glob.now words.now) }
{
    let name = name_in(words);
    let Some(row) = row_of(name, first_argument(words)) else {
        return false;
    };
    if has_channels(name) {
        return false;
    }
    has_key_at(words, glob, places_of(&row.keys, words))
}

/// Returns whether the table has the channels of a command of this name in the places of keys.
fn has_channels(name: &[u8]) -> bool
    ensures { result ≡ has_channels name.now }
{
    is_name(name, b"ssubscribe") || is_name(name, b"sunsubscribe") || is_name(name, b"spublish")
}

/// Returns the name of a command.
pub(crate) fn name_in(words: &Words) -> &[u8]
    ensures { result.now ≡ name_in words.now }
{
    if words.len() == 0 { b"" } else { words.word(0) }
}

/// Returns whether a glob matches one of the words at these places.
fn has_key_at(words: &Words, glob: &[u8], places: KeyPlaces) -> bool
    ensures { (keys : Keys) → AreKeys keys (drop 1 words.now) places → MatchBool result
        (HasKeyLike glob.now words.now keys) (HasKeyLike glob.now words.now keys → ⊥) }
{
    for place in 0..words.len() {
        if places.contains(place) && is_like(words.word(place), glob) {
            return true;
        }
    }
    false
}

/// Returns whether KEYS would return this key for a glob. An empty key is returned only for `*` and
/// for the empty glob.
fn is_like(key: &[u8], glob: &[u8]) -> bool
    ensures { MatchBool result (IsLike glob.now key.now) (IsLike glob.now key.now → ⊥) }
{
    if key.is_empty() && glob.len() > 1 {
        return false;
    }
    matches(glob, key)
}

/// Returns the word after the name, if there is one.
fn first_argument(words: &Words) -> Option<&[u8]>
    ensures { IsFirstArgument words.now result }
{
    if words.len() > 1 {
        Some(words.word(1))
    } else {
        None
    }
}

/// Returns the places of the keys of a command, given its row of the table.
fn places_of(keys: &Keys, words: &Words) -> KeyPlaces
    ensures { AreKeys keys.now (drop 1 words.now) result }
{
    let arguments = WordsFrom { words, place: 1 };
    let count = arguments.left();
    match key_places(keys, arguments) {
        Some(places) => places,
        None => fixed_key_places(keys, count),
    }
}

/// The words of a command from a place on.
#[derive(Drop)]
struct WordsFrom<'a> {
    words: &'a Words,
    place: usize,
}

impl<'a> Arguments<'a> for WordsFrom<'a> {
    ghost words = { λ from. drop from.place from.words.now };

    fn left(&self) -> usize {
        self.words.len().saturating_sub(self.place)
    }

    fn again(&self) -> Self {
        WordsFrom {
            words: self.words,
            place: self.place,
        }
    }

    fn next_word(&mut self) -> Option<&'a [u8]> {
        if self.place >= self.words.len() {
            return None;
        }
        let word = self.words.word(self.place);
        self.place += 1;
        Some(word)
    }
}
