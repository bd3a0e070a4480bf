//! The places of the keys of a command.

ghost use Rattle.std.specs.Prelude.{◌≡◌, ◌+◌, ◌-◌, ◌^◌, ◌<◌, ◌≤◌, ℕ, List, drop, length, codes, if◌then◌else◌, ◌&&◌, ◌==◌, IfNone, IfSome};
ghost use Rattle.std.specs.Bool.{MatchBool};
ghost use Rattle.resp_value.specs.Numbers.{IsNumber};
ghost use Rattle.resp_commands.specs.KeyWords.{is_among, is_among_any};
ghost use Rattle.resp_commands.specs.Migrates.{IsMigrateKey};
ghost use Rattle.resp_commands.specs.Sorts.{IsSortedKey};
ghost use Rattle.resp_commands.specs.Keys.{AreKeys, HasCount, IsAmong, IsAmongAny, IsCountedKey, IsFixedKey, IsStoreKey, IsStreamKey, TellsNoKeys, words_before};

use crate::arguments::{Arguments, skip};
use crate::command::{Keys, Search};
use crate::migrate::{is_third_empty, words_before_keys};
use crate::options::is_word;
use crate::sorts::last_store;

/// Places at equal distances: the first is next to `after`, and the last is at most `last`.
#[derive(Clone, Copy, Debug, PartialEq, Eq)]
pub struct Places {
    /// The place before the first.
    pub after: usize,
    /// The greatest place that is possible.
    pub last: usize,
    /// The distance between two places.
    pub step: usize,
}

/// The places of the keys of a command among its words. The name has place 0.
#[derive(Clone, Copy, Debug, PartialEq, Eq)]
pub struct KeyPlaces {
    /// The keys at fixed places.
    pub fixed: Places,
    /// The keys at places that depend on the words.
    pub further: Places,
    /// A second key of this kind, as after STOREDIST.
    pub other: Places,
}

/// No places.
const NOWHERE: Places = Places {
    after: 0,
    last: 0,
    step: 1,
};

impl Places {
    /// Returns whether this is one of the places.
    #[inline]
    pub fn contains(&self, place: usize) -> bool
        ensures among { MatchBool result (IsAmong self.now place) (¬ IsAmong self.now place) }
        ensures same { result ≡ is_among self.now place }
    {
        self.after < place
            && place <= self.last
            && self.step != 0
            && (place - self.after - 1) % self.step == 0
    }
}

impl KeyPlaces {
    /// Returns whether the word at this place is a key.
    pub fn contains(&self, place: usize) -> bool
        ensures among { MatchBool result (IsAmongAny self.now place) (¬ IsAmongAny self.now place) }
        ensures same { result ≡ is_among_any self.now place }
    {
        if self.fixed.contains(place) {
            return true;
        }
        if self.further.contains(place) {
            return true;
        }
        self.other.contains(place)
    }
}

/// Returns the places of the keys of a command, given its row of the table and the words after its
/// name.
///
/// Returns `None` if the number of keys is not a decimal number or greater than the number of words
/// after it.
pub fn key_places<'a, A: Arguments<'a>>(keys: &Keys, arguments: A) -> Option<KeyPlaces>
    ensures keys { IfSome result (AreKeys keys.now (A.words arguments)) }
    ensures none { IfNone result (TellsNoKeys keys.now (A.words arguments)) }
{
    let count = arguments.left();
    let fixed = fixed_places(keys, count);
    let start = keys.start.saturating_sub(1);
    match keys.search {
        Search::Nothing => Some(KeyPlaces {
            fixed,
            further: NOWHERE,
            other: NOWHERE,
        }),
        Search::Counted => {
            let further = counted_places(arguments, keys.start)?;
            Some(KeyPlaces {
                fixed,
                further,
                other: NOWHERE,
            })
        }
        Search::Streams => Some(KeyPlaces {
            fixed,
            further: stream_places(arguments, start, count),
            other: NOWHERE,
        }),
        Search::Sort => Some(KeyPlaces {
            fixed,
            further: sort_place(arguments, start, count),
            other: NOWHERE,
        }),
        Search::Migrate => Some(KeyPlaces {
            fixed,
            further: migrate_places(arguments, start, count),
            other: NOWHERE,
        }),
        Search::Stores => {
            let found = find_words(arguments, start, b"store", b"storedist");
            Some(KeyPlaces {
                fixed,
                further: place_after(found.first, start, count),
                other: place_after(found.second, start, count),
            })
        }
    }
}

/// Returns the places of the keys of a command with this many words after its name, if the words have
/// no number of keys. Then [`key_places`] returns `None`, and only the keys at fixed places are left.
pub fn fixed_key_places(keys: &Keys, count: usize) -> KeyPlaces
    ensures { (arguments : List (List ℕ)) → count ≡ length arguments →
        TellsNoKeys keys.now arguments → AreKeys keys.now arguments result }
{
    KeyPlaces {
        fixed: fixed_places(keys, count),
        further: NOWHERE,
        other: NOWHERE,
    }
}

/// Returns the keys at fixed places of a command with this many words after its name.
fn fixed_places(keys: &Keys, count: usize) -> Places
    ensures { (place : ℕ) → (IsAmong result place → IsFixedKey keys.now count place) ×
        (IsFixedKey keys.now count place → IsAmong result place) }
{
    if keys.first == 0 {
        return NOWHERE;
    }
    let last = usize::from(keys.last);
    let last = if keys.from_end {
        count.saturating_sub(last.saturating_sub(1))
    } else {
        last.min(count)
    };
    Places {
        after: usize::from(keys.first) - 1,
        last,
        step: usize::from(keys.step),
    }
}

/// Returns the keys after their number, which is the word at this place.
fn counted_places<'a, A: Arguments<'a>>(mut arguments: A, start: u8) -> Option<Places>
    ensures keys { IfSome result (λ places. (place : ℕ) →
        (IsAmong places place → IsCountedKey start (A.words arguments) place) ×
        (IsCountedKey start (A.words arguments) place → IsAmong places place)) }
    ensures none { IfNone result ((count : ℕ) → HasCount start (A.words arguments) count → ⊥) }
{
    let _total = arguments.left();
    let skipped = start.saturating_sub(1);
    skip(&mut arguments, skipped);
    let word = arguments.next_word()?;
    let count = number_of(word, arguments.left())?;
    let after = usize::from(skipped) + 1;
    Some(Places {
        after,
        last: after + count,
        step: 1,
    })
}

/// Returns the decimal number that a word is, if it is at most this one.
fn number_of(word: &[u8], most: usize) -> Option<usize>
    ensures number { IfSome result (λ n. IsNumber n word.now) }
    ensures within { IfSome result (λ n. n ≤ most) }
    ensures none { IfNone result ((n : ℕ) → IsNumber n word.now → n ≤ most → ⊥) }
{
    if word.is_empty() {
        return None;
    }
    let mut number = 0;
    for byte in word {
        if *byte < b'0' || b'9' < *byte {
            return None;
        }
        let digit = usize::from(*byte - b'0');
        if digit > most || number > (most - digit) / 10 {
            return None;
        }
        number = number * 10 + digit;
    }
    Some(number)
}

/// The numbers of words before two words.
#[derive(Drop)]
struct Found {
    first: usize,
    second: usize,
}

/// Returns the numbers of words before these two, after this many others.
fn find_words<'a, A: Arguments<'a>>(mut words: A, skipped: u8, first: &[u8], second: &[u8]) -> Found
    ensures first { result.first ≡ words_before first.now (drop skipped (A.words words)) }
    ensures second { result.second ≡ words_before second.now (drop skipped (A.words words)) }
    ensures first_within { result.first ≤ length (A.words words) - skipped }
    ensures second_within { result.second ≤ length (A.words words) - skipped }
{
    skip(&mut words, skipped);
    find_both(words, first, second)
}

/// Returns the numbers of words before these two.
fn find_both<'a, A: Arguments<'a>>(mut words: A, first: &[u8], second: &[u8]) -> Found
    ensures first { result.first ≡ words_before first.now (A.words words) }
    ensures second { result.second ≡ words_before second.now (A.words words) }
    ensures first_within { result.first ≤ length (A.words words) }
    ensures second_within { result.second ≤ length (A.words words) }
{
    let mut found = Found {
        first: 0,
        second: 0,
    };
    for place in 0..words.left() {
        let Some(word) = words.next_word() else {
            return found;
        };
        found.first = before(found.first, place, is_word(word, first));
        found.second = before(found.second, place, is_word(word, second));
    }
    found
}

/// Returns the number of words before a word, if it was this number before the word at this place.
fn before(number: usize, place: usize, is_found: bool) -> usize
    requires before { number ≤ place }
    requires fits { place + 1 < 2 ^ 64 }
    ensures { result ≡ (if number == place then (if is_found then place else place + 1) else number) }
{
    if number == place && !is_found {
        return place + 1;
    }
    number
}

/// Returns the keys after STREAMS among this many words.
fn stream_places<'a, A: Arguments<'a>>(arguments: A, skipped: u8, count: usize) -> Places
    requires { count ≡ length (A.words arguments) }
    ensures { (place : ℕ) →
        (IsAmong result place → IsStreamKey (skipped + 1) (A.words arguments) place) ×
        (IsStreamKey (skipped + 1) (A.words arguments) place → IsAmong result place) }
{
    let found = find_words(arguments, skipped, b"streams", b"streams");
    let before = usize::from(skipped) + found.first;
    if before >= count {
        return NOWHERE;
    }
    let after = before + 1;
    Places {
        after,
        last: after + (count - after) / 2,
        step: 1,
    }
}

/// Returns the place of the key that SORT stores, among this many words.
fn sort_place<'a, A: Arguments<'a>>(mut arguments: A, skipped: u8, count: usize) -> Places
    requires { count ≡ length (A.words arguments) }
    ensures { (place : ℕ) →
        (IsAmong result place → IsSortedKey (skipped + 1) (A.words arguments) place) ×
        (IsSortedKey (skipped + 1) (A.words arguments) place → IsAmong result place) }
{
    skip(&mut arguments, skipped);
    match last_store(arguments) {
        Some(before) => place_after(before, skipped, count),
        None => NOWHERE,
    }
}

/// Returns the places of the keys of MIGRATE, among this many words.
fn migrate_places<'a, A: Arguments<'a>>(arguments: A, skipped: u8, count: usize) -> Places
    requires { count ≡ length (A.words arguments) }
    ensures { (place : ℕ) →
        (IsAmong result place → IsMigrateKey (skipped + 1) (A.words arguments) place) ×
        (IsMigrateKey (skipped + 1) (A.words arguments) place → IsAmong result place) }
{
    let mut options = arguments.again();
    skip(&mut options, skipped);
    let Some(before) = words_before_keys(options) else {
        return Places {
            after: 2,
            last: count.min(3),
            step: 1,
        };
    };
    if !is_third_empty(arguments) {
        return NOWHERE;
    }
    Places {
        after: usize::from(skipped) + before + 1,
        last: count,
        step: 1,
    }
}

/// Returns the place after a word that has `number` words before it, after `skipped` others.
fn place_after(number: usize, skipped: u8, count: usize) -> Places
    requires { number ≤ count - skipped }
    ensures { (place : ℕ) →
        (IsAmong result place → (place ≡ skipped + number + 1 + 1) × (place ≤ count)) ×
        (place ≡ skipped + number + 1 + 1 → place ≤ count → IsAmong result place) }
{
    let before = usize::from(skipped) + number;
    if before >= count {
        return NOWHERE;
    }
    let after = before + 1;
    Places {
        after,
        last: after.saturating_add(1).min(count),
        step: 1,
    }
}
