//! The keys of MIGRATE.

ghost use Rattle.std.specs.Prelude.{◌≡◌, ℕ, IfNone, IfSome};
ghost use Rattle.std.specs.Bool.{MatchBool};
ghost use Rattle.resp_commands.specs.Migrates.{HasEmptyThird, HasKeysAfter, migrate_argument_count};

use crate::arguments::{Arguments, skip};
use crate::options::is_word;

/// Returns the number of words before the option KEYS.
pub(crate) fn words_before_keys<'a, A: Arguments<'a>>(mut words: A) -> Option<usize>
    ensures found { IfSome result (HasKeysAfter (A.words words)) }
    ensures none { IfNone result ((count : ℕ) → HasKeysAfter (A.words words) count → ⊥) }
{
    let total = words.left();
    let mut left = total;
    while let Some(word) = words.next_word() {
        if is_word(word, b"keys") {
            return Some(total - left);
        }
        skip(&mut words, migrate_argument_count(word));
        left = words.left();
    }
    None
}

/// Returns the number of words that belong to an option of MIGRATE other than KEYS.
fn migrate_argument_count(option: &[u8]) -> u8
    ensures { result ≡ migrate_argument_count option.now }
{
    if is_word(option, b"auth") {
        return 1;
    }
    if is_word(option, b"auth2") {
        return 2;
    }
    0
}

/// Returns whether the third word after the name is empty.
pub(crate) fn is_third_empty<'a, A: Arguments<'a>>(mut arguments: A) -> bool
    ensures { MatchBool result (HasEmptyThird (A.words arguments))
        (HasEmptyThird (A.words arguments) → ⊥) }
{
    skip(&mut arguments, 2);
    match arguments.next_word() {
        Some(word) => word.is_empty(),
        None => false,
    }
}
