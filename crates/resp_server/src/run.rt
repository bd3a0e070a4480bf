//! Runs a command. All allocations come first, and after them nothing can fail.

ghost use Rattle.std.specs.Prelude.{◌≡◌};
ghost use Rattle.resp_session.specs.Fitting.{FitsEffect};
ghost use Rattle.resp_session.specs.Operations as spec;
ghost use Rattle.resp_session.specs.Stores.{effect_of, value_at};
ghost use Rattle.resp_session.specs.Stores as stores;
ghost use Rattle.resp_server.specs.Operations.{operation_in, condition_in};
ghost use Rattle.resp_server.specs.Running.{Runs};
ghost use Rattle.resp_server.specs.Words.{words_left};

use crate::database::Database;
use crate::operation::{Condition, Operation};
use crate::reply::{NUMBER_ROOM, greeting, reply, reserved_number};
use crate::store::Store;
use crate::words::Words;
use bytes::BytesMut;
use resp_value::content::Content;
use resp_value::value::Value;
use resp_value::version::Version;
use std::alloc::AllocError;
use std::hash::BuildHasher;

/// Runs a command of the client of this id and version, and appends the reply to `out`. When out of
/// memory, the store, the version and the waiting bytes are unchanged.
#[inline(always)]
pub(crate) fn run<S: BuildHasher>(
    operation: Operation<'_>,
    database: &mut Database<S>,
    id: u64,
    version: &mut Version,
    out: &mut BytesMut,
) -> Result<(), AllocError>
    requires fits { FitsEffect database.old.limits (effect_of database.old.store version.old id
        (operation_in operation)) }
    ensures runs { Runs database.old.store database.new.store version.old version.new out.old.items
        out.new.items (effect_of database.old.store version.old id
        (operation_in operation.entry)) result }
    ensures same_limits { database.new.limits ≡ database.old.limits }
{
    match operation {
        Operation::Ping => out.extend_from_slice(b"+PONG\r\n"),
        Operation::Echo(word) => echo(word, database, *version, out),
        Operation::Get(key) => get(key, database, *version, out),
        Operation::Set(condition, key, value) => set(
            condition, key, value, database, *version, out,
        ),
        Operation::Del(keys) => del(keys, database, *version, out),
        Operation::Hello(asked) => hello(asked, database, id, version, out),
        Operation::Refused(refusal) => out.extend_from_slice(refusal.line()),
    }
}

/// Replies with a word.
fn echo<S: BuildHasher>(
    word: &[u8],
    database: &Database<S>,
    version: Version,
    out: &mut BytesMut,
) -> Result<(), AllocError>
    requires { FitsEffect database.now.limits
        (effect_of database.now.store version 0 (spec.Echo word.now)) }
    ensures runs { Runs database.now.store database.now.store version version out.old.items
        out.new.items (effect_of database.now.store version 0 (spec.Echo word.now)) result }
{
    let word = Value::Bulk(Content::new(Vec::from_slice(database.alloc, word)?));
    reply(out, version, &database.limits, &word)
}

/// Replies with the value of a key.
fn get<S: BuildHasher>(
    key: &[u8],
    database: &Database<S>,
    version: Version,
    out: &mut BytesMut,
) -> Result<(), AllocError>
    requires { FitsEffect database.now.limits
        (effect_of database.now.store version 0 (spec.Get key.now)) }
    ensures runs { Runs database.now.store database.now.store version version out.old.items
        out.new.items (effect_of database.now.store version 0 (spec.Get key.now)) result }
{
    match database.store.get(key) {
        Some(stored) => reply(out, version, &database.limits, stored.reply()),
        None => reply(out, version, &database.limits, &Value::Null),
    }
}

/// Returns whether a SET under this condition sets this key. Looks the key up only if there is a
/// condition.
fn is_met<S: BuildHasher>(condition: Condition, key: &[u8], store: &Store<S>) -> bool
    ensures { result ≡ stores.is_met (condition_in condition) (value_at store.now key.now) }
{
    match condition {
        Condition::Always => true,
        Condition::IfAbsent => store.get(key).is_none(),
        Condition::IfPresent => store.get(key).is_some(),
    }
}

/// Sets a key if its condition holds, and replies whether the key was set.
fn set<S: BuildHasher>(
    condition: Condition,
    key: &[u8],
    value: &[u8],
    database: &mut Database<S>,
    version: Version,
    out: &mut BytesMut,
) -> Result<(), AllocError>
    requires { FitsEffect database.old.limits (effect_of database.old.store version 0
        (spec.Set (condition_in condition) key.now value.now)) }
    ensures runs { Runs database.old.store database.new.store version version out.old.items
        out.new.items (effect_of database.old.store version 0
        (spec.Set (condition_in condition) key.now value.now)) result }
    ensures same_limits { database.new.limits ≡ database.old.limits }
{
    if !is_met(condition, key, &database.store) {
        return reply(out, version, &database.limits, &Value::Null);
    }
    out.reserve(5)?;
    database.store.set(key, value, database.alloc)?;
    out.extend_reserved(b"+OK\r\n");
    Ok(())
}

/// Removes the keys, and replies with the number of keys that existed.
fn del<S: BuildHasher>(
    keys: Words<'_>,
    database: &mut Database<S>,
    version: Version,
    out: &mut BytesMut,
) -> Result<(), AllocError>
    requires { FitsEffect database.old.limits (effect_of database.old.store version 0
        (spec.Del (words_left keys))) }
    ensures runs { Runs database.old.store database.new.store version version out.old.items
        out.new.items (effect_of database.old.store version 0 (spec.Del (words_left keys.entry)))
        result }
    ensures same_limits { database.new.limits ≡ database.old.limits }
{
    out.reserve(NUMBER_ROOM)?;
    let removed = database.store.remove(keys);
    reserved_number(out, removed);
    Ok(())
}

/// Changes the version if one is requested, and replies with the description of the client in that
/// version.
fn hello<S: BuildHasher>(
    asked: Option<Version>,
    database: &Database<S>,
    id: u64,
    version: &mut Version,
    out: &mut BytesMut,
) -> Result<(), AllocError>
    ensures runs { Runs database.now.store database.now.store version.old version.new
        out.old.items out.new.items
        (effect_of database.now.store version.old id (spec.Hello asked)) result }
{
    let next = asked.unwrap_or(*version);
    greeting(out, next, id)?;
    *version = next;
    Ok(())
}
