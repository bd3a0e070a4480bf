//! What a command asks for, found from its words.

ghost use Rattle.std.specs.Prelude.{◌≡◌, ◌∷◌, List, ℕ, [], IfErr, IfNone, IfOk, IfSome, OnErr};
ghost use Rattle.resp_session.specs.Operations.{operation_of};
ghost use Rattle.resp_server.specs.Deeds.{Asks, SelectAsks, alone_asks, asked_by, client_asks, exists_asks, flush_asks, set_info_asks, set_name_asks};
ghost use Rattle.resp_server.specs.Deeds as asked;
ghost use Rattle.resp_server.specs.Names.{is_client_name};

use crate::databases::index::index_of;
use crate::databases::options::hello;
use crate::refusal::{Refusal, Verb};
use resp_scan::whole::CommandArguments;
use resp_session::names::is_name;
use resp_value::version::Version;

/// What a command asks for.
#[derive(Drop)]
pub(crate) enum Deed<'a> {
    /// Select the database of this number.
    Select(usize),
    /// Count those of these keys that exist.
    Exists(CommandArguments<'a>),
    /// Count the keys of the client's database.
    DbSize,
    /// Remove the keys of the client's database.
    FlushDb,
    /// Remove the keys of all databases.
    FlushAll,
    /// Give the client this name.
    SetName(&'a [u8]),
    /// Reply with the client's name.
    GetName,
    /// Reply with the client's id.
    Id,
    /// Reply OK, and change nothing.
    SetInfo,
    /// Change the version, reply with the description of the client, and give it a name if there is one.
    Hello(Version, Option<&'a [u8]>),
    /// Reply OK, and run no further command of the client.
    Quit,
    /// Reply with an error.
    Refused(Refusal),
    /// Reply that CLIENT has no such subcommand.
    UnknownSubcommand(&'a [u8]),
}

/// Returns what the command of this name with these words after it asks for.
///
/// # Errors
///
/// The words, if the command is run in the client's database.
pub(crate) fn deed_of<'a>(
    name: &[u8],
    arguments: CommandArguments<'a>,
) -> Result<Deed<'a>, CommandArguments<'a>>
    ensures deed { IfOk result (λ deed. Asks name.now arguments.entry (asked_by deed)) }
    ensures request { OnErr result (Asks name.now arguments.entry
        (asked.Request (operation_of name.now arguments.entry))) }
    ensures back { IfErr result (λ words. words ≡ arguments.entry) }
{
    if is_name(name, b"select") {
        Ok(select(arguments))
    } else if is_name(name, b"exists") {
        Ok(exists(arguments))
    } else if is_name(name, b"dbsize") {
        Ok(alone(Deed::DbSize, Verb::DbSize, arguments))
    } else if is_name(name, b"flushdb") {
        Ok(flush(Deed::FlushDb, arguments))
    } else if is_name(name, b"flushall") {
        Ok(flush(Deed::FlushAll, arguments))
    } else if is_name(name, b"client") {
        Ok(client(arguments))
    } else if is_name(name, b"quit") {
        Ok(Deed::Quit)
    } else if is_name(name, b"hello") && arguments.len() > 1 {
        Ok(hello(arguments))
    } else {
        Err(arguments)
    }
}

/// Returns what a SELECT with these words after its name asks for.
fn select(words: CommandArguments<'_>) -> Deed<'_>
    ensures { SelectAsks words.entry (asked_by result) }
{
    let Some(word) = only(words) else {
        return Deed::Refused(Refusal::WrongNumber(Verb::Select));
    };
    match index_of(word) {
        Ok(index) => Deed::Select(index),
        Err(refusal) => Deed::Refused(refusal),
    }
}

/// Returns the only word, or `None` if there is none or more than one.
fn only(mut words: CommandArguments<'_>) -> Option<&[u8]>
    ensures some { IfSome result (λ word. words.entry ≡ word.now ∷ []) }
    ensures none { IfNone result ((word : List ℕ) → words.entry ≡ word ∷ [] → ⊥) }
{
    if words.len() == 1 { words.next() } else { None }
}

/// Returns what an EXISTS with these words after its name asks for.
fn exists(words: CommandArguments<'_>) -> Deed<'_>
    ensures { asked_by result ≡ exists_asks words.entry }
{
    if words.len() == 0 {
        return Deed::Refused(Refusal::WrongNumber(Verb::Exists));
    }
    Deed::Exists(words)
}

/// Returns `deed` if there are no words, or only ASYNC or SYNC, and otherwise an error.
fn flush<'a>(deed: Deed<'a>, mut words: CommandArguments<'a>) -> Deed<'a>
    ensures { asked_by result ≡ flush_asks (asked_by deed.entry) words.entry }
{
    if words.len() > 1 {
        return Deed::Refused(Refusal::Syntax);
    }
    let Some(word) = words.next() else {
        return deed;
    };
    if is_name(word, b"async") || is_name(word, b"sync") {
        deed
    } else {
        Deed::Refused(Refusal::Syntax)
    }
}

/// Returns what a CLIENT with these words after its name asks for.
fn client(mut words: CommandArguments<'_>) -> Deed<'_>
    ensures { asked_by result ≡ client_asks words.entry }
{
    let Some(subcommand) = words.next() else {
        return Deed::Refused(Refusal::WrongNumber(Verb::Client));
    };
    if is_name(subcommand, b"setname") {
        set_name(words)
    } else if is_name(subcommand, b"getname") {
        alone(Deed::GetName, Verb::GetName, words)
    } else if is_name(subcommand, b"id") {
        alone(Deed::Id, Verb::Id, words)
    } else if is_name(subcommand, b"setinfo") {
        set_info(words)
    } else {
        Deed::UnknownSubcommand(subcommand)
    }
}

/// Returns `deed` if there is no word, and otherwise the error of the wrong number of words.
fn alone<'a>(deed: Deed<'a>, verb: Verb, words: CommandArguments<'a>) -> Deed<'a>
    ensures { asked_by result ≡ alone_asks (asked_by deed.entry) verb words.entry }
{
    if words.len() == 0 {
        deed
    } else {
        Deed::Refused(Refusal::WrongNumber(verb))
    }
}

/// Returns what a CLIENT SETNAME with these words after it asks for.
fn set_name(words: CommandArguments<'_>) -> Deed<'_>
    ensures { asked_by result ≡ set_name_asks words.entry }
{
    let Some(name) = only(words) else {
        return Deed::Refused(Refusal::WrongNumber(Verb::SetName));
    };
    if is_client_name(name) {
        Deed::SetName(name)
    } else {
        Deed::Refused(Refusal::BadName)
    }
}

/// Returns whether each byte of a name is printable and not a space.
pub(crate) fn is_client_name(name: &[u8]) -> bool
    ensures { result ≡ is_client_name name.now }
{
    for byte in name {
        if *byte < b'!' || *byte > b'~' {
            return false;
        }
    }
    true
}

/// Returns what a CLIENT SETINFO with these words after it asks for.
fn set_info(words: CommandArguments<'_>) -> Deed<'_>
    ensures { asked_by result ≡ set_info_asks words.entry }
{
    if words.len() == 2 {
        Deed::SetInfo
    } else {
        Deed::Refused(Refusal::WrongNumber(Verb::SetInfo))
    }
}
