//! Options among the words of a command.

ghost use Rattle.std.specs.Prelude.{◌≡◌};
ghost use Rattle.std.specs.Bool.{MatchBool};
ghost use Rattle.std.specs.Str.{str_eq_ignore_ascii_case};
ghost use Rattle.resp_commands.specs.Options.{Blocks, argument_count};

use crate::arguments::skip;
use resp_scan::whole::CommandArguments;

/// Returns whether the words after the name of XREAD or XREADGROUP have the option BLOCK.
pub(crate) fn blocks(mut words: CommandArguments<'_>) -> bool
    ensures { MatchBool result (Blocks words.entry) (Blocks words.entry → ⊥) }
{
    while let Some(word) = words.next() {
        if is_word(word, b"block") {
            return true;
        }
        let Some(count) = argument_count(word) else {
            return false;
        };
        skip(&mut words, count);
    }
    false
}

/// Returns the number of words that belong to an option of XREAD or XREADGROUP other than BLOCK.
fn argument_count(option: &[u8]) -> Option<u8>
    ensures { result ≡ argument_count option.now }
{
    if is_word(option, b"count") {
        return Some(1);
    }
    if is_word(option, b"group") {
        return Some(2);
    }
    if is_word(option, b"noack") {
        return Some(0);
    }
    None
}

/// Returns whether the word is this one, in upper, lower or mixed case.
pub(crate) fn is_word(word: &[u8], wanted: &[u8]) -> bool
    ensures { result ≡ str_eq_ignore_ascii_case word.now wanted.now }
{
    word.eq_ignore_ascii_case(wanted)
}
