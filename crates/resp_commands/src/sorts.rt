//! The key that SORT stores.

ghost use Rattle.std.specs.Prelude.{◌≡◌, ℕ, drop, length, IfNone, IfSome};
ghost use Rattle.resp_commands.specs.Sorts.{StoresAfter, StoresLast, sort_argument_count};

use crate::arguments::{Arguments, skip};
use crate::options::is_word;

/// Returns the number of words before the last option STORE that has a word after it.
pub(crate) fn last_store<'a, A: Arguments<'a>>(mut words: A) -> Option<usize>
    ensures last { IfSome result (StoresLast (A.words words)) }
    ensures none { IfNone result ((count : ℕ) → StoresAfter (A.words words) count → ⊥) }
{
    let total = words.left();
    let mut last = None;
    let mut left = total;
    while let Some(word) = words.next_word() {
        if is_word(word, b"store") && words.left() > 0 {
            last = Some(total - left);
        }
        skip(&mut words, sort_argument_count(word));
        left = words.left();
    }
    last
}

/// Returns the number of words that belong to an option of SORT.
fn sort_argument_count(option: &[u8]) -> u8
    ensures { result ≡ sort_argument_count option.now }
{
    if is_word(option, b"limit") {
        return 2;
    }
    if is_word(option, b"get") || is_word(option, b"by") {
        return 1;
    }
    0
}
