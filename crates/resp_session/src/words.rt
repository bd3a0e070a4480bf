//! The request that a value received by a server makes.

ghost use Rattle.std.specs.Prelude.{◌≡◌, ◌<◌, [], ◌∷◌, ◌++◌, ◌↔◌, length, slice_index_or, map, None, IsSome, IfSome, IfNone};
ghost use Rattle.std.specs.Bool.{MatchBool};
ghost use Rattle.std.specs.List.{AllByRecursion};
ghost use Rattle.resp_value.specs.Data.{data_of_list};
ghost use Rattle.resp_value.specs.Values.{datum_of, content_bytes};
ghost use Rattle.resp_session.specs.Commands.{meaning_of, array_meaning, bulk_contents};
ghost use Rattle.resp_session.specs.Bulks.{IsBulk};

use resp_value::content::Content;
use resp_value::value::Value;
use std::marker::Model;

/// The words of a command, as they were read: the bulk strings of an array. The first is the name.
#[derive(Drop)]
pub struct Words {
    members: Vec<Value>,
}

impl Model for Words {
    ghost use Rattle.std.specs.Prelude.{ℕ, List, map};
    ghost use Rattle.std.specs.List.{AllByRecursion};
    ghost use Rattle.resp_session.specs.Bulks.{bulk_bytes, IsBulk};

    ghost Value = { List (List ℕ) };

    ghost view = { λ words. map bulk_bytes words.members.items };

    ghost invariant = { λ words. AllByRecursion IsBulk words.members.items };
}

/// The request that a value received by a server makes.
#[derive(Drop)]
pub enum Requested {
    /// A command with its words, the name first.
    Command(Words),
    /// No request: an empty array or a null. The server ignores it.
    Nothing,
    /// Any other value. It is not a command.
    NoCommand,
}

ghost use Rattle.resp_session.specs.Asked.{meaning_in, IfCommand};

/// Returns the request that a value makes. An array that has at least one member and only bulk
/// strings is a command (Redis serialization protocol specification, "Sending commands to a Redis
/// server"). An empty array or a null makes no request. Any other value is not a command. Does not
/// allocate.
///
/// # Examples
///
/// From [samples](../../samples/src/sessions.rt):
///
/// ```rust
/// match asked_by(value) {
///     Requested::Command(words) => println!(rt; "command {}", words.word(0).escape_ascii())?,
///     Requested::Nothing => println!(rt; "nothing")?,
///     Requested::NoCommand => println!(rt; "not a command")?,
/// }
/// ```
pub fn asked_by(value: Value) -> Requested
    ensures meaning { meaning_in result ≡ meaning_of (datum_of value) }
    ensures has_name { IfCommand result (λ words. 0 < length words) }
{
    match value {
        Value::Null => Requested::Nothing,
        Value::Array(members) => asked_by_members(members.into_vec()),
        Value::Bool(_)
        | Value::Int(_)
        | Value::Simple(_)
        | Value::Error(_)
        | Value::Double(_)
        | Value::Bulk(_)
        | Value::BulkError(_)
        | Value::Verbatim(_, _)
        | Value::Big(_)
        | Value::Set(_)
        | Value::Map(_)
        | Value::Attr(_, _)
        | Value::Push(_) => Requested::NoCommand,
    }
}

/// Returns the request that an array of the given members makes.
fn asked_by_members(members: Vec<Value>) -> Requested
    ensures meaning { meaning_in result ≡
        array_meaning (bulk_contents (data_of_list (map datum_of members.items))) }
    ensures has_name { IfCommand result (λ words. 0 < length words) }
{
    if members.is_empty() {
        return Requested::Nothing;
    }
    if are_bulks(members.as_slice()) {
        Requested::Command(Words { members })
    } else {
        Requested::NoCommand
    }
}

/// Returns whether each member is a bulk string.
fn are_bulks(members: &[Value]) -> bool
    ensures { MatchBool result (AllByRecursion IsBulk members.now)
        (bulk_contents (data_of_list (map datum_of members.now)) ≡ None) }
{
    for member in members {
        match member {
            Value::Bulk(_) => {}
            _ => return false,
        }
    }
    true
}

impl Words {
    /// Returns the number of words.
    pub fn len(&self) -> usize
        ensures { result ≡ length self.now }
    {
        self.members.len()
    }

    /// Returns the word at this index. The index counts from 0 and is less than [`Words::len`].
    pub fn word(&self, index: usize) -> &[u8]
        requires { index < length self.now }
        ensures { result.now ≡ slice_index_or self.now index [] }
    {
        match &self.members[index] {
            Value::Bulk(content) => content.list(),
            _ => &[],
        }
    }

    /// Removes the last word and returns it, or returns `None` if there is no word. Does not
    /// allocate.
    pub fn pop(&mut self) -> Option<Content>
        ensures last { IfSome result (λ content.
            self.old ≡ self.new ++ content_bytes content ∷ []) }
        ensures some { IsSome result ↔ (0 < length self.old) }
        ensures unchanged { IfNone result (self.new ≡ self.old) }
    {
        let Some(last) = self.members.pop() else {
            return None;
        };
        match last {
            Value::Bulk(content) => Some(content),
            _ => unreachable!(),
        }
    }
}
