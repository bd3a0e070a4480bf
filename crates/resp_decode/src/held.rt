//! The part of a value that was read: the open aggregates with their finished members, and the text
//! that is being read.

ghost use Rattle.std.specs.Prelude.{◌≡◌, ◌≤◌, ◌+◌, ◌-◌, ◌^◌, [], ◌∷◌, true, false, None, min, OnOk, OnErr};
ghost use Rattle.resp_fronts.specs.Events as e;
ghost use Rattle.resp_scan.specs.Kinds.{content_events, text_kind_of};
ghost use Rattle.resp_scan.specs.Listening.{IsTextOf, whole_text_events};
ghost use Rattle.resp_decode.specs.Fits.{IsContentAlone};
ghost use Rattle.resp_value.specs.Kinds.{kind_of};
ghost use Rattle.resp_value.specs.Values.{datum_of};

use crate::group::Group;
use crate::text::{PartialText, content_value, format_weight};
use resp_scan::event::TextKind;
use resp_scan::listener::Listener;
use resp_value::kind::OpenKind;
use resp_value::value::Value;
use std::alloc::{AllocError, Global};

/// The greatest number of members that are reserved because of the number in a head.
const MOST_RESERVED: u64 = 16;

/// The parts of a value that a decoder holds.
#[derive(Drop)]
pub(crate) struct HeldParts {
    alloc: Global,
    /// The open aggregates, the innermost last.
    groups: Vec<Group>,
    text: Option<PartialText>,
    /// The outermost value, once it is complete.
    whole: Option<Value>,
    weight: u64,
}

impl HeldParts {
    ghost use Rattle.resp_decode.specs.Builds.{nothing, with_value, with_events, with_event};
    ghost use Rattle.resp_decode.specs.Hearing.{TakesInWhereFit};
    ghost use Rattle.resp_decode.specs.Holding.{construction_of, maybe_datum};

    /// Creates an empty state. Does not allocate.
    pub(crate) fn new(alloc: Global) -> HeldParts
        ensures holds { construction_of result ≡ nothing }
        ensures weighs { result.weight ≡ 0 }
    {
        HeldParts {
            alloc,
            groups: Vec::new(alloc),
            text: None,
            whole: None,
            weight: 0,
        }
    }

    /// Returns the weight of the parts held.
    #[inline]
    pub(crate) fn weight(&self) -> u64
        ensures { result ≡ self.now.weight }
    {
        self.weight
    }

    /// Drops all parts held.
    #[cold]
    pub(crate) fn clear(&mut self)
        ensures weighs { self.new.weight ≡ 0 }
        ensures holds { construction_of self.new ≡ nothing }
    {
        *self = HeldParts::new(self.alloc);
    }

    /// Takes out the outermost value if it is complete. Nothing else is held then.
    #[inline]
    pub(crate) fn take_whole(&mut self) -> Option<Value>
        ensures taken { maybe_datum result ≡ (construction_of self.old).whole }
        ensures holds { construction_of self.new ≡
            record (construction_of self.old) { whole = None } }
        ensures weighs { self.new.weight ≡ 0 }
    {
        self.weight = 0;
        self.whole.take()
    }

    /// Adds a finished value, as a member of the innermost aggregate or as the outermost value.
    /// Only a member needs memory.
    #[inline(always)]
    fn put(&mut self, value: Value) -> Result<(), AllocError>
        ensures holds { OnOk result (construction_of self.new ≡
            with_value (datum_of value) (construction_of self.old)) }
        ensures same_weight { self.new.weight ≡ self.old.weight }
        ensures memory_for_members { OnErr result ((construction_of self.old).groups ≡ [] → ⊥) }
    {
        match self.groups.last_mut() {
            None => self.whole = Some(value),
            Some(group) => group.add(value)?,
        }
        Ok(())
    }

    /// Adds to the weight. No value that a scanner reads makes it too great.
    #[inline]
    fn add_weight(&mut self, more: u64)
        ensures { self.new ≡ record self.old {
          weight = min (self.old.weight + more) (2 ^ 64 - 1);
        } }
    {
        self.weight = self.weight.saturating_add(more);
    }

    /// Adds a scalar with `content` bytes of content.
    #[inline(always)]
    pub(crate) fn put_scalar(&mut self, value: Value, content: usize) -> bool
        ensures holds { result ≡ true → construction_of self.new ≡
            with_value (datum_of value) (construction_of self.old) }
        ensures weighs { self.new.weight ≡ min (self.old.weight + (content + 3)) (2 ^ 64 - 1) }
        ensures memory_for_members { result ≡ false → (construction_of self.old).groups ≡ [] → ⊥ }
    {
        self.add_weight((content as u64).saturating_add(3));
        self.put(value).is_ok()
    }

    /// Begins a text of this kind, without content. Does not allocate.
    #[inline]
    pub(crate) fn begin_text(&mut self, kind: TextKind)
        ensures { TakesInWhereFit self.old self.new (e.Text (text_kind_of kind) ∷ []) true }
    {
        self.add_weight(format_weight(kind));
        self.text = Some(PartialText::new(self.alloc, kind));
    }

    /// Adds a part to the text that is being read. Returns false if no text is being read or an
    /// allocation fails.
    #[inline]
    pub(crate) fn extend_text(&mut self, part: &[u8]) -> bool
        ensures { TakesInWhereFit self.old self.new (content_events part.now) result }
    {
        self.add_weight(part.len() as u64);
        match &mut self.text {
            Some(text) => text.extend(self.alloc, part).is_ok(),
            None => false,
        }
    }

    /// Ends the text and adds its value. Returns false if no text is being read, if its content
    /// does not fit its kind, or if an allocation fails.
    #[inline]
    pub(crate) fn end_text(&mut self) -> bool
        ensures { TakesInWhereFit self.old self.new (e.TextEnd ∷ []) result }
    {
        let Some(text) = self.text.take() else {
            return false;
        };
        self.add_weight(text.end_weight());
        match text.into_value() {
            Some(value) => self.put(value).is_ok(),
            None => false,
        }
    }

    /// Opens an aggregate, with room for its first members. Returns false if an allocation fails.
    #[inline]
    pub(crate) fn open_group(&mut self, kind: OpenKind, count: Option<u64>) -> bool
        ensures { TakesInWhereFit self.old self.new (e.Open (kind_of kind) count ∷ []) result }
    {
        self.add_weight(3);
        match Group::with_room(self.alloc, kind, reserved(count)) {
            Ok(group) => self.groups.push(group).is_ok(),
            Err(_) => false,
        }
    }

    /// Closes the innermost aggregate and adds its value. Returns false if no aggregate is open, if
    /// an attribute annotates nothing, or if an allocation fails.
    #[inline]
    pub(crate) fn close_group(&mut self) -> bool
        ensures { TakesInWhereFit self.old self.new (e.Close ∷ []) result }
    {
        let Some(group) = self.groups.pop() else {
            return false;
        };
        match group.into_value(self.alloc) {
            Some(value) => self.put(value).is_ok(),
            None => false,
        }
    }

    /// Adds a complete text.
    #[inline]
    pub(crate) fn take_text(&mut self, kind: TextKind, bytes: &[u8]) -> bool
        requires { IsTextOf kind bytes.now }
        ensures { TakesInWhereFit self.old self.new (whole_text_events kind bytes.now) result }
    {
        match kind {
            TextKind::Verbatim(_) | TextKind::Big { .. } => self.take_parts(kind, bytes),
            _ => self.take_content(kind, bytes),
        }
    }

    /// Adds a complete text that consists of its content alone.
    #[inline(always)]
    fn take_content(&mut self, kind: TextKind, bytes: &[u8]) -> bool
        requires content_alone { IsContentAlone (text_kind_of kind) }
        requires is_text { IsTextOf kind bytes.now }
        ensures { TakesInWhereFit self.old self.new (whole_text_events kind bytes.now) result }
    {
        match Vec::from_slice(self.alloc, bytes) {
            Ok(copy) => self.put_scalar(content_value(kind, copy), bytes.len()),
            Err(_) => false,
        }
    }

    /// Adds a complete text as its beginning, one part and its end.
    fn take_parts(&mut self, kind: TextKind, bytes: &[u8]) -> bool
        ensures { TakesInWhereFit self.old self.new (whole_text_events kind bytes.now) result }
    {
        self.begin_text(kind);
        self.extend_text(bytes) && self.end_text()
    }
}

impl Listener for HeldParts {
    ghost use Rattle.resp_decode.specs.Brief.{WantMemory};
    ghost use Rattle.resp_decode.specs.Hearing.{HasHeard};

    ghost Origin = { Unit {0} };

    ghost has_heard = { λ held _. HasHeard held };

    ghost has_stopped = { λ _ _. WantMemory };

    #[inline]
    fn null(&mut self) -> bool {
        self.put_scalar(Value::Null, 0)
    }

    #[inline]
    fn truth(&mut self, truth: bool) -> bool {
        self.put_scalar(Value::Bool(truth), 0)
    }

    #[inline]
    fn int(&mut self, number: i64) -> bool {
        self.put_scalar(Value::Int(number), 0)
    }

    #[inline]
    fn text(&mut self, kind: TextKind) -> bool {
        self.begin_text(kind);
        true
    }

    #[inline]
    fn part(&mut self, part: &[u8]) -> bool {
        self.extend_text(part)
    }

    #[inline]
    fn text_end(&mut self) -> bool {
        self.end_text()
    }

    #[inline]
    fn open(&mut self, kind: OpenKind, count: Option<u64>) -> bool {
        self.open_group(kind, count)
    }

    #[inline]
    fn close(&mut self) -> bool {
        self.close_group()
    }

    #[inline]
    fn whole_text(&mut self, kind: TextKind, bytes: &[u8]) -> bool {
        self.take_text(kind, bytes)
    }
}

/// Returns the number of members or pairs to reserve, which is limited whatever the number in the
/// head is.
#[inline]
fn reserved(count: Option<u64>) -> usize
    ensures { result ≤ 16 }
{
    match count {
        Some(number) => number.min(MOST_RESERVED) as usize,
        None => 0,
    }
}
