//! Values about subscriptions, and the reply to RESET.

ghost use Rattle.std.specs.Prelude.{◌≡◌, length, map};
ghost use Rattle.resp_value.specs.Data.{data_of_list};
ghost use Rattle.resp_value.specs.Values.{datum_of};
ghost use Rattle.resp_tap.specs.Notices.{confirmation_by, is_message_word, members_by, message_by, notice_in, notice_of, notice_of_line, three_by, total_of};

use crate::kind::{Verb, verb_named};
use resp_value::value::Value;

/// What a value of the server says about subscriptions.
#[derive(Clone, Copy, Debug, PartialEq, Eq)]
pub(crate) enum Notice {
    /// A channel was subscribed to or unsubscribed from by a command with this name. `total` is the
    /// number of subscriptions after that.
    Confirmation { verb: Verb, total: u64 },
    /// A message to a channel.
    Message,
    /// The reply to RESET.
    Reset,
    /// Anything else.
    Other,
}

/// Returns a number of subscriptions.
fn total_of(total: i64) -> u64
    ensures { result ≡ total_of total }
{
    if total < 0 { 0 } else { total as u64 }
}

/// Returns whether a message begins with this word.
fn is_message_word(word: &[u8]) -> bool
    ensures { result ≡ is_message_word word.now }
{
    word == b"message".as_slice()
        || word == b"pmessage".as_slice()
        || word == b"smessage".as_slice()
}

/// Returns the notice of members that begin with this word and are not a confirmation: a message,
/// or any other value.
fn message_by(word: &[u8]) -> Notice
    ensures { result ≡ message_by word.now }
{
    if is_message_word(word) {
        Notice::Message
    } else {
        Notice::Other
    }
}

/// Returns the notice of a confirmation with this verb, if there is one.
fn confirmation_by(verb: Option<Verb>, total: i64) -> Notice
    ensures { result ≡ confirmation_by verb total }
{
    match verb {
        Some(verb) => Notice::Confirmation {
            verb,
            total: total_of(total),
        },
        None => Notice::Other,
    }
}

/// Returns the notice of three members that begin with this word.
fn three_by(word: &[u8], last: &Value) -> Notice
    ensures { result ≡ three_by word.now (datum_of last.now) }
{
    match last {
        Value::Int(total) => confirmation_by(verb_named(word), *total),
        _ => message_by(word),
    }
}

/// Returns the notice of members that begin with this word.
fn members_by(word: &[u8], rest: &[Value]) -> Notice
    ensures { result ≡ members_by word.now (data_of_list (map datum_of rest.now)) }
{
    match rest {
        [_, last] => three_by(word, last),
        _ => message_by(word),
    }
}

/// Returns the notice of the members of an array or a push.
fn notice_in(members: &[Value]) -> Notice
    ensures { result ≡ notice_in (data_of_list (map datum_of members.now)) }
{
    match members.split_first() {
        Some((Value::Bulk(word), rest)) => members_by(word.list(), rest),
        _ => Notice::Other,
    }
}

/// Returns the notice of a simple string.
fn notice_of_line(text: &[u8]) -> Notice
    ensures { result ≡ notice_of_line text.now }
{
    if text == b"RESET".as_slice() {
        Notice::Reset
    } else {
        Notice::Other
    }
}

/// Returns what a value says about subscriptions.
pub(crate) fn notice_of(value: &Value) -> Notice
    ensures { result ≡ notice_of (datum_of value.now) }
{
    match value {
        Value::Simple(line) => notice_of_line(line.text()),
        Value::Array(members) => notice_in(members.list()),
        Value::Push(members) => notice_in(members.list()),
        _ => Notice::Other,
    }
}
