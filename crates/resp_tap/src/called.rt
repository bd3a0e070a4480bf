//! The commands that wait for a reply, while JSON is printed.

ghost use Rattle.std.specs.Prelude.{◌≡◌, [], map, take, option_map};
ghost use Rattle.resp_tap.specs.Called.{IsChosenCalled, command_name, name_of_called, upper_word};

use crate::filter::Filter;
use crate::keys::name_in;
use crate::seen::Seen;
use arrayvec::ArrayVec;
use resp_session::words::Words;

/// The maximum number of bytes of a name that are printed.
const MOST: usize = 32;

/// The printed name of a command: the first 32 bytes of its first word, with letters in upper case.
#[derive(Drop)]
pub struct Called {
    pub(crate) name: ArrayVec<u8, MOST>,
    /// Whether the filter lets the command through by its words.
    pub(crate) is_chosen: bool,
}

/// Returns the first 32 bytes of a word, with letters in upper case.
fn upper_word(word: &[u8]) -> ArrayVec<u8, MOST>
    ensures { result.items ≡ upper_word word.now }
{
    let mut name = ArrayVec::new();
    for index in 0..word.len().min(MOST) {
        name.push(word[index].to_ascii_uppercase());
    }
    name
}

/// Returns the printed name of a command.
pub(crate) fn command_name(words: &Words) -> ArrayVec<u8, MOST>
    ensures { result.items ≡ command_name words.now }
{
    upper_word(name_in(words))
}

/// Returns the kept name of a command, or an empty name if no name is kept.
pub(crate) fn name_of_called<'a>(called: Option<&'a Called>) -> &'a [u8]
    ensures { result.now ≡ name_of_called (option_map (λ called. called.now) called.entry) }
{
    called.map_or(b"", |called| called.name.as_slice())
}

/// Returns whether the filter lets the words of a result's command through. `called` is the command
/// that the next reply belongs to.
pub(crate) fn is_chosen_called(filter: &Filter, called: Option<&Called>, seen: &Seen) -> bool
    ensures { IsChosenCalled filter.now (option_map (λ called. called.now) called.entry) seen.now
        result }
{
    match (seen, called) {
        (Seen::Command { words, .. }, _) => filter.keeps_words(words),
        (_, Some(called)) => called.is_chosen,
        (_, None) => filter.keeps_all(),
    }
}
