//! How a server replies to a command.

ghost use Rattle.std.specs.Prelude.{◌≡◌, ◌-◌, ◌<◌, drop, length};
ghost use Rattle.std.specs.List.{list_any};
ghost use Rattle.resp_session.specs.Operations.{is_name};
ghost use Rattle.resp_tap.specs.Kinds.{are_unanswered, begins_with_name, command_kind, ends_pairing, has_word, kind_by_verb, unpairing_names, verb_named, version_worded};

use resp_session::names::is_name;
use resp_session::words::Words;
use resp_value::version::Version;

/// The commands that subscribe and unsubscribe. The server confirms each of their channels with a
/// message that has the command's name.
#[derive(Clone, Copy, Debug, PartialEq, Eq)]
pub enum Verb {
    Subscribe,
    Unsubscribe,
    Psubscribe,
    Punsubscribe,
    Ssubscribe,
    Sunsubscribe,
}

/// How a server replies to a command.
#[derive(Clone, Copy, Debug, PartialEq, Eq)]
pub enum CommandKind {
    /// The command has exactly one reply.
    Plain,
    /// The command is HELLO with this version. It has exactly one reply. If the reply is not an
    /// error, the connection continues in this version.
    Hello(Version),
    /// The command is RESET. It has exactly one reply. If the reply is not an error, the connection
    /// continues in version 2 and without subscriptions.
    Reset,
    /// The command has no reply: REPLCONF with ACK or GETACK.
    Silent,
    /// The command is SUBSCRIBE, PSUBSCRIBE, SSUBSCRIBE or one of their UN- forms. The server sends
    /// a confirmation for each channel that the command names, or an error. If the command names no
    /// channel, the server sends a confirmation for each channel of its class that the connection
    /// is subscribed to, or one without a channel if there is no such channel.
    Subscribing { verb: Verb, channels: u64 },
    /// After the replies to the earlier commands, values are paired with no command: MONITOR, SYNC,
    /// PSYNC, CLIENT REPLY, SCRIPT DEBUG, and REPLCONF with ACK or GETACK after another option.
    Unpairing,
}

/// Returns whether the word after the name of a command is `name`, which is in lower case.
pub(crate) fn has_subcommand(words: &Words, name: &[u8]) -> bool
    ensures { result ≡ begins_with_name name.now (drop 1 words.now) }
{
    words.len() > 1 && is_name(words.word(1), name)
}

/// Returns whether values are paired with no command after a command of this name.
fn is_unpairing_name(name: &[u8]) -> bool
    ensures { result ≡ list_any (λ other. is_name other name.now) unpairing_names }
{
    is_name(name, b"monitor") || is_name(name, b"sync") || is_name(name, b"psync")
}

/// Returns whether one of the words after the name of a command is `name`, which is in lower case.
fn has_argument(words: &Words, name: &[u8]) -> bool
    ensures { result ≡ has_word name.now (drop 1 words.now) }
{
    let mut index = 1;
    while index < words.len() {
        if is_name(words.word(index), name) {
            return true;
        }
        index += 1;
    }
    false
}

/// Returns whether the words after the name are those of a REPLCONF that has no reply.
fn are_unanswered(words: &Words) -> bool
    requires { 0 < length words.now }
    ensures { result ≡ are_unanswered (drop 1 words.now) }
{
    (has_subcommand(words, b"ack") || has_subcommand(words, b"getack"))
        && (words.len() - 1) % 2 == 0
}

/// Returns whether values are paired with no command after a command with this name.
fn ends_pairing(words: &Words, name: &[u8]) -> bool
    ensures { result ≡ ends_pairing name.now (drop 1 words.now) }
{
    is_unpairing_name(name)
        || is_name(name, b"client") && has_subcommand(words, b"reply")
        || is_name(name, b"script") && has_subcommand(words, b"debug")
        || is_name(name, b"replconf")
            && (has_argument(words, b"ack") || has_argument(words, b"getack"))
}

/// Returns the effect of a HELLO with this version argument.
fn version_worded(word: &[u8]) -> CommandKind
    ensures { result ≡ version_worded word.now }
{
    if word == b"2".as_slice() {
        return CommandKind::Hello(Version::Two);
    }
    if word == b"3".as_slice() {
        return CommandKind::Hello(Version::Three);
    }
    CommandKind::Plain
}

/// Returns the kind of the confirmations that a command of this name gets.
pub(crate) fn verb_named(name: &[u8]) -> Option<Verb>
    ensures { result ≡ verb_named name.now }
{
    if is_name(name, b"subscribe") {
        Some(Verb::Subscribe)
    } else if is_name(name, b"unsubscribe") {
        Some(Verb::Unsubscribe)
    } else if is_name(name, b"psubscribe") {
        Some(Verb::Psubscribe)
    } else if is_name(name, b"punsubscribe") {
        Some(Verb::Punsubscribe)
    } else if is_name(name, b"ssubscribe") {
        Some(Verb::Ssubscribe)
    } else if is_name(name, b"sunsubscribe") {
        Some(Verb::Sunsubscribe)
    } else {
        None
    }
}

/// Returns the kind of a command with these confirmations, if there are any.
fn kind_by_verb(verb: Option<Verb>, channels: u64) -> CommandKind
    ensures { result ≡ kind_by_verb verb channels }
{
    verb.map_or(
        CommandKind::Plain,
        |verb| CommandKind::Subscribing { verb, channels },
    )
}

/// Returns how a server replies to a command. Its first word is its name, in upper, lower or mixed
/// case.
pub fn command_kind(words: &Words) -> CommandKind
    requires { 0 < length words.now }
    ensures { result ≡ command_kind words.now }
{
    let name = words.word(0);
    if is_name(name, b"hello") {
        if words.len() == 1 {
            return CommandKind::Plain;
        }
        return version_worded(words.word(1));
    }
    if is_name(name, b"reset") {
        return CommandKind::Reset;
    }
    if is_name(name, b"replconf") && are_unanswered(words) {
        return CommandKind::Silent;
    }
    if ends_pairing(words, name) {
        return CommandKind::Unpairing;
    }
    kind_by_verb(verb_named(name), (words.len() - 1) as u64)
}
