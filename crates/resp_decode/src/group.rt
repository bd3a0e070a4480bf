//! Open aggregates with their finished members.

ghost use Rattle.std.specs.Prelude.{◌≡◌, ◌≤◌, [], ◌∷◌, ◌++◌, length, IsSome, OnOk, IfOk, IfSome};
ghost use Rattle.resp_value.specs.Data.{aggregate, data_of_list};
ghost use Rattle.resp_value.specs.Kinds.{kind_of};
ghost use Rattle.resp_value.specs.Values.{datum_of};

use resp_value::kind::OpenKind;
use resp_value::value::{Members, PairList, Value};
use std::alloc::{AllocError, Global};

/// Appends an item. The room for it is made first, so the item is moved only once.
#[inline(always)]
fn append<T: Drop>(list: &mut Vec<T>, item: T) -> Result<(), AllocError>
    ensures { OnOk result (list.new.items ≡ list.old.items ++ item ∷ []) }
{
    list.reserve(1)?;
    list.push_reserved(item);
    Ok(())
}

/// Alternating keys and values.
#[derive(Drop)]
pub(crate) struct Pairs {
    whole: Vec<(Value, Value)>,
    /// A key whose value has not been read.
    key: Option<Value>,
}

impl Pairs {
    ghost use Rattle.resp_value.specs.Data as d;
    ghost use Rattle.resp_decode.specs.Holding.{pairs_data};
    ghost use Rattle.resp_decode.specs.Fits.{IsMemberCount};

    /// Creates an empty list with room for `pairs` pairs.
    #[inline]
    fn with_room(alloc: Global, pairs: usize) -> Result<Pairs, AllocError>
        ensures { IfOk result (λ made. pairs_data made ≡ []) }
    {
        let whole = Vec::with_capacity(alloc, pairs)?;
        Ok(Pairs { whole, key: None })
    }

    /// Adds a key, or adds the value of the pending key.
    #[inline(never)]
    fn add(&mut self, value: Value) -> Result<(), AllocError>
        ensures { OnOk result (pairs_data self.new ≡ pairs_data self.old ++ datum_of value ∷ []) }
    {
        if self.key.is_some() {
            return self.end_pair(value);
        }
        self.key = Some(value);
        Ok(())
    }

    /// Adds the value of the pending key.
    #[inline(always)]
    fn end_pair(&mut self, value: Value) -> Result<(), AllocError>
        ensures { IsSome self.old.key →
            OnOk result (pairs_data self.new ≡ pairs_data self.old ++ datum_of value ∷ []) }
    {
        match self.key.take() {
            Some(key) => append(&mut self.whole, (key, value))?,
            None => {}
        }
        Ok(())
    }

    /// Returns the map of the pairs.
    #[inline]
    fn into_map(self) -> Value
        ensures { IsMemberCount d.Map (length (pairs_data self)) →
            datum_of result ≡ aggregate d.Map (data_of_list (pairs_data self)) }
    {
        Value::Map(PairList::new(self.whole))
    }

    /// Returns the attribute of the pairs. The last member, which has no partner, is the value that
    /// it annotates.
    #[inline]
    fn into_attr(self, alloc: Global) -> Option<Value>
        ensures { IfSome result (λ value.
            datum_of value ≡ aggregate d.Attr (data_of_list (pairs_data self))) }
    {
        let Pairs { whole, key } = self;
        match key {
            Some(annotated) => match Box::new(alloc, annotated) {
                Ok(annotated) => Some(Value::Attr(PairList::new(whole), annotated)),
                Err(_) => None,
            },
            None => None,
        }
    }
}

/// An open aggregate, with its finished members.
#[derive(Drop)]
pub(crate) enum Group {
    Array(Vec<Value>),
    Set(Vec<Value>),
    Map(Pairs),
    Attr(Pairs),
    Push(Vec<Value>),
}

impl Group {
    ghost use Rattle.resp_decode.specs.Holding.{group_of};
    ghost use Rattle.resp_decode.specs.Fits.{IsMemberCount};

    /// Creates an aggregate without members, with room for `room` members or pairs.
    #[inline]
    pub(crate) fn with_room(alloc: Global, kind: OpenKind, room: usize) -> Result<Group, AllocError>
        requires few_at_most { room ≤ 16 }
        ensures { IfOk result (λ g. group_of g ≡ record { kind = kind_of kind; members = [] }) }
    {
        match kind {
            OpenKind::Array => Ok(Group::Array(Vec::with_capacity(alloc, room)?)),
            OpenKind::Set => Ok(Group::Set(Vec::with_capacity(alloc, room)?)),
            OpenKind::Map => Ok(Group::Map(Pairs::with_room(alloc, room)?)),
            OpenKind::Attr => Ok(Group::Attr(Pairs::with_room(alloc, room)?)),
            OpenKind::Push => Ok(Group::Push(Vec::with_capacity(alloc, room)?)),
        }
    }

    /// Adds a finished member.
    #[inline(always)]
    pub(crate) fn add(&mut self, value: Value) -> Result<(), AllocError>
        ensures { OnOk result (group_of self.new ≡ record (group_of self.old) {
          members = (group_of self.old).members ++ datum_of value ∷ [];
        }) }
    {
        match self {
            Group::Array(members) => append(members, value),
            Group::Set(members) => append(members, value),
            Group::Push(members) => append(members, value),
            Group::Map(pairs) => pairs.add(value),
            Group::Attr(pairs) => pairs.add(value),
        }
    }

    /// Returns the value that has these members. Returns `None` if an allocation fails, or if an
    /// attribute has no value to annotate.
    #[inline]
    pub(crate) fn into_value(self, alloc: Global) -> Option<Value>
        ensures { IsMemberCount (group_of self).kind (length (group_of self).members) →
            IfSome result (λ value. datum_of value ≡
            aggregate (group_of self).kind (data_of_list (group_of self).members)) }
    {
        match self {
            Group::Array(members) => Some(Value::Array(Members::new(members))),
            Group::Set(members) => Some(Value::Set(Members::new(members))),
            Group::Push(members) => Some(Value::Push(Members::new(members))),
            Group::Map(pairs) => Some(pairs.into_map()),
            Group::Attr(pairs) => pairs.into_attr(alloc),
        }
    }
}
