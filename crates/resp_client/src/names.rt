//! The names of the commands that a client does not send.

ghost use Rattle.std.specs.Prelude.{◌≡◌};
ghost use Rattle.resp_value.specs.Words.{texts_of};
ghost use Rattle.resp_session.specs.Requests.{is_reply_word, is_unsent};

use resp_session::names::{is_name, is_unsent_name};

/// Returns whether the first word is REPLY.
fn is_reply_word(words: &[Vec<u8>]) -> bool
    ensures { result ≡ is_reply_word (texts_of words.now) }
{
    match words.first() {
        Some(word) => is_name(word.as_slice(), b"reply"),
        None => false,
    }
}

/// Returns whether a client does not send a command with the given words.
pub(crate) fn is_unsent(words: &[Vec<u8>]) -> bool
    ensures { result ≡ is_unsent (texts_of words.now) }
{
    match words.split_first() {
        Some((name, arguments)) => {
            is_unsent_name(name.as_slice())
                || is_name(name.as_slice(), b"client") && is_reply_word(arguments)
        }
        None => true,
    }
}
