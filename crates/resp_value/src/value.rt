//! Values of the protocol, and the lists that they hold.

ghost use Rattle.std.specs.Prelude.{◌≡◌, IfOk, map};
ghost use Rattle.resp_value.specs.Values.{datum_of, pair_data, list_of, pairs_of};

use crate::content::Content;
use crate::digits::Digits;
use crate::double::Double;
use crate::line::Line;
use std::alloc::{AllocError, Global};

mod attributes;

/// The members of an array, a set or a push, in order.
///
/// The protocol does not remove duplicates: a set may hold the same member twice.
#[derive(Debug, PartialEq, Eq, Drop)]
#[cycle(value)]
pub struct Members {
    items: Vec<Value>,
}

/// The pairs of a map or an attribute, in order. The same key may occur more than once.
#[derive(Debug, PartialEq, Eq, Drop)]
#[cycle(value)]
pub struct PairList {
    pairs: Vec<(Value, Value)>,
}

/// A value of the protocol.
///
/// A value does not record how it was encoded, except that a double keeps its text. Two values are
/// equal if they have the same shape and the same content, in the same order.
///
/// The comment of each variant names its section of the Redis serialization protocol specification.
/// Version 2 has nulls, integers, simple strings, simple errors, bulk strings and arrays. Version 3
/// has all of them.
///
/// # Examples
///
/// From [samples](../../samples/src/values.rt):
///
/// ```rust
/// let name = Value::Bulk(Content::new(Vec::from_slice(alloc, b"hits")?));
/// let pairs = vec![in alloc; (name, Value::Int(42))]?;
/// let reply = Value::Map(PairList::new(pairs));
/// ```
#[derive(Debug, PartialEq, Eq, Drop)]
#[cycle(value)]
pub enum Value {
    /// Null, the absence of a value ("Nulls").
    Null,
    /// `true` or `false` ("Booleans").
    Bool(bool),
    /// A signed 64-bit integer ("Integers").
    Int(i64),
    /// A string without CR and LF ("Simple strings").
    Simple(Line),
    /// An error message without CR and LF ("Simple errors").
    Error(Line),
    /// A double, kept as its text ("Doubles"). Two doubles are equal if their texts are equal.
    /// Doubles are read and written only if `Limits::with_doubles` allows them.
    Double(Double),
    /// A string of any bytes ("Bulk strings").
    Bulk(Content),
    /// An error message of any bytes ("Bulk errors").
    BulkError(Content),
    /// A format of three bytes, and a text of any bytes ("Verbatim strings").
    Verbatim([u8; 3], Content),
    /// An integer of any size ("Big numbers").
    Big(Digits),
    /// Members in order ("Arrays").
    Array(Members),
    /// Members ("Sets"). Their order counts in a comparison too.
    Set(Members),
    /// Pairs of a key and a value ("Maps").
    Map(PairList),
    /// The pairs of an attribute, and the value that it annotates ("Attributes").
    Attr(PairList, Box<Value>),
    /// Members that the server sent without being asked ("Pushes"). A push may only be the
    /// outermost value: encoding a value with a push inside it fails.
    Push(Members),
}

impl Members {
    /// Creates a list of the given members. Does not allocate.
    pub fn new(items: Vec<Value>) -> Members
        ensures { list_of result ≡ items.items }
    {
        Members { items }
    }

    /// Returns the members, in order.
    pub fn list(&self) -> &[Value]
        ensures { result.now ≡ list_of self.now }
    {
        self.items.as_slice()
    }

    /// Returns the members as a `Vec`, in order. Does not allocate.
    pub fn into_vec(self) -> Vec<Value>
        ensures { result.items ≡ list_of self }
    {
        let Members { items } = self;
        items
    }
}

impl PairList {
    /// Creates a list of the given pairs. Does not allocate.
    pub fn new(pairs: Vec<(Value, Value)>) -> PairList
        ensures { pairs_of result ≡ pairs.items }
    {
        PairList { pairs }
    }

    /// Returns the pairs, in order.
    pub fn list(&self) -> &[(Value, Value)]
        ensures { result.now ≡ pairs_of self.now }
    {
        self.pairs.as_slice()
    }

    /// Returns the pairs as a `Vec`, in order. Does not allocate.
    pub fn into_vec(self) -> Vec<(Value, Value)>
        ensures { result.items ≡ pairs_of self }
    {
        let PairList { pairs } = self;
        pairs
    }
}

impl Value {
    /// Copies the value into newly allocated memory.
    ///
    /// # Errors
    ///
    /// `AllocError` if an allocation fails.
    #[cycle(copy)]
    pub fn try_clone(&self, alloc: Global) -> Result<Value, AllocError>
        ensures { IfOk result (λ copy. datum_of copy ≡ datum_of self.now) }
    {
        match self {
            Value::Null => Ok(Value::Null),
            Value::Bool(truth) => Ok(Value::Bool(*truth)),
            Value::Int(number) => Ok(Value::Int(*number)),
            Value::Simple(line) => Ok(Value::Simple(line.try_clone(alloc)?)),
            Value::Error(line) => Ok(Value::Error(line.try_clone(alloc)?)),
            Value::Double(text) => Ok(Value::Double(text.try_clone(alloc)?)),
            Value::Bulk(content) => Ok(Value::Bulk(content.try_clone(alloc)?)),
            Value::BulkError(content) => Ok(Value::BulkError(content.try_clone(alloc)?)),
            Value::Verbatim(format, text) => Ok(Value::Verbatim(*format, text.try_clone(alloc)?)),
            Value::Big(digits) => Ok(Value::Big(digits.try_clone(alloc)?)),
            Value::Array(members) => Ok(Value::Array(copy_members(members, alloc)?)),
            Value::Set(members) => Ok(Value::Set(copy_members(members, alloc)?)),
            Value::Push(members) => Ok(Value::Push(copy_members(members, alloc)?)),
            Value::Map(pairs) => Ok(Value::Map(copy_pairs(pairs, alloc)?)),
            Value::Attr(pairs, value) => {
                let pairs = copy_pairs(pairs, alloc)?;
                let value = value.try_clone(alloc)?;
                Ok(Value::Attr(pairs, Box::new(alloc, value)?))
            }
        }
    }
}

/// Copies the members into newly allocated memory. Fails only if an allocation fails.
#[cycle(copy)]
fn copy_members(members: &Members, alloc: Global) -> Result<Members, AllocError>
    ensures { IfOk result (λ copy. map datum_of (list_of copy) ≡
        map datum_of (list_of members.now)) }
{
    let mut items = Vec::new(alloc);
    for member in members.list() {
        items.push(member.try_clone(alloc)?)?;
    }
    Ok(Members::new(items))
}

/// Copies the pairs into newly allocated memory. Fails only if an allocation fails.
#[cycle(copy)]
fn copy_pairs(pairs: &PairList, alloc: Global) -> Result<PairList, AllocError>
    ensures { IfOk result (λ copy. map pair_data (pairs_of copy) ≡
        map pair_data (pairs_of pairs.now)) }
{
    let mut copies = Vec::new(alloc);
    for pair in pairs.list() {
        let key = pair.0.try_clone(alloc)?;
        let value = pair.1.try_clone(alloc)?;
        copies.push((key, value))?;
    }
    Ok(PairList::new(copies))
}
