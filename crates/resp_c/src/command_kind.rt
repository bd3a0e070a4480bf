//! How a server replies to a command, given its words.

ghost use Rattle.std.specs.Prelude.{◌≡◌, ◌≤◌, [], ◌∷◌, ℕ, List};
ghost use Rattle.resp_c.specs.CommandKinds.{is_subscribing, kind_of_command, kind_of_hello};

use crate::number;
use resp_session::names::{is_name, is_unsent_name};

/// Returns whether a command of this name subscribes or unsubscribes.
fn is_subscribing(name: &[u8]) -> bool
    ensures { result ≡ is_subscribing name.now }
{
    is_name(name, b"subscribe")
        || is_name(name, b"unsubscribe")
        || is_name(name, b"psubscribe")
        || is_name(name, b"punsubscribe")
        || is_name(name, b"ssubscribe")
        || is_name(name, b"sunsubscribe")
}

/// Returns the kind of a HELLO with this version argument.
fn kind_of_version(word: &[u8]) -> u32
    ensures { result ≡ kind_of_hello (word.now ∷ []) }
{
    match word {
        b"2" => number::HELLO_TWO,
        b"3" => number::HELLO_THREE,
        _ => number::ONE_REPLY,
    }
}

/// Returns the kind of a command whose first two words are `name` and `argument`. For a command of one
/// word, `argument` is empty.
fn kind_of_words(name: &[u8], argument: &[u8]) -> u32
    ensures { result ≡ kind_of_command (name.now ∷ argument.now ∷ []) }
{
    if is_name(name, b"hello") {
        return kind_of_version(argument);
    }
    if is_subscribing(name) {
        return number::SUBSCRIBING;
    }
    if is_unsent_name(name) || is_name(name, b"client") && is_name(argument, b"reply") {
        return number::NOT_PAIRED;
    }
    number::ONE_REPLY
}

/// Returns how a server replies to a command of `count` words, as the kind for
/// [`crate::pairing::resp_pairing_queue`]. `name` is the first word, and `argument` the second.
/// They have no meaning if there are fewer words. Upper and lower case of a name are the same.
///
/// Returns 0 for a command that has exactly one reply, 2 or 3 for a HELLO that requests this
/// version, 16 for SUBSCRIBE, PSUBSCRIBE, SSUBSCRIBE and their UN- forms, and 17 for the other
/// commands that a client does not send: MONITOR, SYNC, PSYNC, RESET, CLIENT REPLY and no word.
#[unsafe(no_mangle)]
pub extern "C" fn resp_command_kind(count: usize, name: &[u8], argument: &[u8]) -> u32
    ensures none { count ≡ 0 → result ≡ kind_of_command [] }
    ensures one { count ≡ 1 → result ≡ kind_of_command (name.now ∷ []) }
    ensures more { 2 ≤ count → (others : List (List ℕ)) →
        result ≡ kind_of_command (name.now ∷ argument.now ∷ others) }
{
    match count {
        0 => number::NOT_PAIRED,
        1 => kind_of_words(name, b""),
        _ => kind_of_words(name, argument),
    }
}
