//! The request of a command, found from its words.

ghost use Rattle.std.specs.Prelude.{◌≡◌, ◌≤◌, ◌∷◌, List, ℕ, length, []};
ghost use Rattle.resp_session.specs.Operations as spec;
ghost use Rattle.resp_server.specs.Operations.{conditional_by, operation_in};
ghost use Rattle.resp_server.specs.Words.{words_left};

use crate::refusal::{Refusal, Verb};
use crate::words::Words;
use resp_session::names::is_name;
use resp_value::version::Version;

/// The condition of a SET.
#[derive(Clone, Copy, Debug, PartialEq, Eq)]
pub(crate) enum Condition {
    /// Set the key in any case.
    Always,
    /// Set the key only if it does not exist.
    IfAbsent,
    /// Set the key only if it exists.
    IfPresent,
}

/// The request of a command.
#[derive(Drop)]
pub(crate) enum Operation<'a> {
    /// PING without a word: reply `PONG`.
    Ping,
    /// Reply with this word.
    Echo(&'a [u8]),
    /// Reply with the value of the key.
    Get(&'a [u8]),
    /// Set the key to the value.
    Set(Condition, &'a [u8], &'a [u8]),
    /// Remove the keys.
    Del(Words<'a>),
    /// Describe the session, and change the version if one is given.
    Hello(Option<Version>),
    /// Reply with an error.
    Refused(Refusal),
}

/// Returns the operation that a command of this name asks for, with these words after the name.
#[inline(always)]
pub(crate) fn operation_of<'a>(name: &[u8], arguments: Words<'a>) -> Operation<'a>
    ensures { operation_in result ≡ spec.operation_of name.now (words_left arguments.entry) }
{
    if is_name(name, b"ping") {
        ping(arguments)
    } else if is_name(name, b"echo") {
        echo(arguments)
    } else if is_name(name, b"get") {
        get(arguments)
    } else if is_name(name, b"set") {
        set(arguments)
    } else if is_name(name, b"del") {
        del(arguments)
    } else if is_name(name, b"hello") {
        hello(arguments)
    } else {
        Operation::Refused(Refusal::UnknownCommand)
    }
}

/// Returns the request of a PING with these words after its name.
#[inline(always)]
fn ping(words: Words<'_>) -> Operation<'_>
    ensures { operation_in result ≡ spec.ping_operation (words_left words.entry) }
{
    match words.len() {
        0 => Operation::Ping,
        1 => Operation::Echo(only(words)),
        _ => Operation::Refused(Refusal::WrongNumber(Verb::Ping)),
    }
}

/// Returns the only word.
#[inline(always)]
fn only(mut words: Words<'_>) -> &[u8]
    requires { length (words_left words) ≡ 1 }
    ensures { words_left words.entry ≡ result.now ∷ [] }
{
    match words.next() {
        Some(word) => word,
        None => unreachable!(),
    }
}

/// Returns the request of an ECHO with these words after its name.
#[inline(always)]
fn echo(words: Words<'_>) -> Operation<'_>
    ensures { operation_in result ≡ spec.echo_operation (words_left words.entry) }
{
    match words.len() {
        1 => Operation::Echo(only(words)),
        _ => Operation::Refused(Refusal::WrongNumber(Verb::Echo)),
    }
}

/// Returns the request of a GET with these words after its name.
#[inline(always)]
fn get(words: Words<'_>) -> Operation<'_>
    ensures { operation_in result ≡ spec.get_operation (words_left words.entry) }
{
    match words.len() {
        1 => Operation::Get(only(words)),
        _ => Operation::Refused(Refusal::WrongNumber(Verb::Get)),
    }
}

/// Returns the request of a SET with these words after its name.
#[inline(always)]
fn set(words: Words<'_>) -> Operation<'_>
    ensures { operation_in result ≡ spec.set_operation (words_left words.entry) }
{
    match words.len() {
        0 | 1 => Operation::Refused(Refusal::WrongNumber(Verb::Set)),
        2 | 3 => set_key(words),
        _ => Operation::Refused(Refusal::Syntax),
    }
}

/// Returns the request of a SET of a key and a value, with an option if there is a third word.
#[inline(always)]
fn set_key(mut words: Words<'_>) -> Operation<'_>
    requires some { 2 ≤ length (words_left words) }
    requires few { length (words_left words) ≤ 3 }
    ensures { operation_in result ≡ spec.set_operation (words_left words.entry) }
{
    let Some(key) = words.next() else {
        unreachable!()
    };
    let Some(value) = words.next() else {
        unreachable!()
    };
    match words.next() {
        None => Operation::Set(Condition::Always, key, value),
        Some(option) => match condition_of(option) {
            Some(condition) => Operation::Set(condition, key, value),
            None => Operation::Refused(Refusal::Syntax),
        },
    }
}

/// Returns the condition that an option of a SET asks for, or `None` if the option is unknown.
fn condition_of(option: &[u8]) -> Option<Condition>
    ensures { (key value : List ℕ) →
        conditional_by result key value ≡ spec.conditional_operation key value option.now }
{
    if is_name(option, b"nx") {
        Some(Condition::IfAbsent)
    } else if is_name(option, b"xx") {
        Some(Condition::IfPresent)
    } else {
        None
    }
}

/// Returns the request of a DEL with these words after its name.
#[inline(always)]
fn del(words: Words<'_>) -> Operation<'_>
    ensures { operation_in result ≡ spec.del_operation (words_left words.entry) }
{
    match words.len() {
        0 => Operation::Refused(Refusal::WrongNumber(Verb::Del)),
        _ => Operation::Del(words),
    }
}

/// Returns the request of a HELLO with these words after its name.
#[inline(always)]
fn hello(words: Words<'_>) -> Operation<'_>
    ensures { operation_in result ≡ spec.hello_operation (words_left words.entry) }
{
    match words.len() {
        0 => Operation::Hello(None),
        1 => hello_of(only(words)),
        _ => Operation::Refused(Refusal::Syntax),
    }
}

/// Returns the request of a HELLO with a word for the version.
fn hello_of<'a>(word: &[u8]) -> Operation<'a>
    ensures { operation_in result ≡ spec.version_operation word.now }
{
    if word == b"2".as_slice() {
        Operation::Hello(Some(Version::Two))
    } else if word == b"3".as_slice() {
        Operation::Hello(Some(Version::Three))
    } else {
        Operation::Refused(Refusal::NoProtocol)
    }
}
