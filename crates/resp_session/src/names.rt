//! Names of commands and of their options, in any case of their letters.

ghost use Rattle.std.specs.Prelude.{◌≡◌};
ghost use Rattle.std.specs.List.{list_any};
ghost use Rattle.resp_session.specs.Operations.{is_name};
ghost use Rattle.resp_session.specs.Requests.{unsent_names};

/// Returns whether a word is this name in upper, lower or mixed case. The name is given in lower
/// case, so only the word is changed to lower case.
#[inline(always)]
pub fn is_name(word: &[u8], name: &[u8]) -> bool
    ensures same { result ≡ is_name name.now word.now }
{
    if word.len() != name.len() {
        return false;
    }
    for index in 0..name.len() {
        if word[index].to_ascii_lowercase() != name[index] {
            return false;
        }
    }
    true
}

/// Returns whether a command of this name does not have exactly one reply, or changes the version.
/// Only the name is looked at, so this is false for CLIENT REPLY.
pub fn is_unsent_name(name: &[u8]) -> bool
    ensures same { result ≡ list_any (λ unsent. is_name unsent name.now) unsent_names }
{
    is_name(name, b"hello")
        || is_name(name, b"subscribe")
        || is_name(name, b"unsubscribe")
        || is_name(name, b"psubscribe")
        || is_name(name, b"punsubscribe")
        || is_name(name, b"ssubscribe")
        || is_name(name, b"sunsubscribe")
        || is_name(name, b"monitor")
        || is_name(name, b"sync")
        || is_name(name, b"psync")
        || is_name(name, b"reset")
}
