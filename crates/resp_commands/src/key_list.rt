//! The keys of a command.

ghost use Rattle.std.specs.Prelude.{length};
ghost use Rattle.std.specs.Iterator.{at_most};
ghost use Rattle.std.specs.Map.Iter.{TakesFirst, deref};
ghost use Rattle.resp_commands.specs.Keys.{AreKeys};
ghost use Rattle.resp_commands.specs.KeyWords.{AreKeyWords};

use crate::command::Keys;
use crate::keys::KeyPlaces;
use resp_scan::whole::CommandArguments;
use std::marker::Model;

/// The words of a command that are keys, in order. They are borrowed, and taking them does not
/// allocate.
#[derive(Debug, Drop)]
pub struct KeyWords<'a> {
    places: KeyPlaces,
    place: usize,
    words: CommandArguments<'a>,
}

impl<'a> Model for KeyWords<'a> {
    ghost use Rattle.std.specs.Prelude.{ℕ, List, length, ◌+◌, ◌<◌, ◌^◌};
    ghost use Rattle.resp_commands.specs.KeyWords.{keys_after};

    ghost Value = { List (List ℕ) };

    ghost view = { λ keys. keys_after keys.places keys.place keys.words };

    ghost invariant = { λ keys. keys.place + length keys.words < 2 ^ 64 };
}

impl<'a> Iterator for KeyWords<'a> {
    type Item = &'a [u8];

    ghost next_gives = { TakesFirst deref };

    ghost remaining = { λ keys. at_most (length keys) };

    fn next(&mut self) -> Option<&'a [u8]> {
        while let Some(word) = self.words.next() {
            self.place += 1;
            if self.places.contains(self.place) {
                return Some(word);
            }
        }
        None
    }
}

/// Returns the words at these places, among the words after the name of a command.
pub fn key_words(places: KeyPlaces, arguments: CommandArguments<'_>) -> KeyWords<'_>
    ensures { (keys : Keys) → AreKeys keys arguments.entry places →
        AreKeyWords keys arguments.entry result }
{
    let _total = arguments.len();
    KeyWords {
        places,
        place: 0,
        words: arguments,
    }
}
