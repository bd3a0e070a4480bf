//! The measure of a value: the facts that decide whether it fits, and the length of its text.

ghost use Rattle.std.specs.Prelude.{◌≡◌, ◌+◌, ◌≤◌, true, ℕ, length};
ghost use Rattle.resp_value.specs.Data.{Datum, Data, none, aggregate, items_of, count};
ghost use Rattle.resp_value.specs.Numbers.{decimal};
ghost use Rattle.resp_value.specs.Values.{extended};
ghost use Rattle.resp_value.specs.declared.version.Version.{Version};
ghost use Rattle.resp_encode.specs.Walks.Sizes.{IsSize};

use crate::digits::digit_count;
use resp_value::kind::OpenKind;

/// The measure of a value, or of consecutive members.
#[derive(Clone, Copy)]
pub(crate) struct Measure {
    /// Whether version 2 has each type.
    pub(crate) in_two: bool,
    /// Whether there is no double.
    pub(crate) no_double: bool,
    /// Whether there is no push.
    pub(crate) no_push: bool,
    /// Whether there is no push inside another value.
    pub(crate) push_at_top: bool,
    /// The number of aggregates inside one another, if it is below `u64::MAX`.
    pub(crate) depth: u64,
    /// The number of bytes of the longest content.
    pub(crate) longest: u64,
    /// The greatest number of members of one array, set or push, or of pairs of one map or
    /// attribute.
    pub(crate) most_items: u64,
    /// The number of bytes of the text, if a `u64` holds it.
    pub(crate) size: Option<u64>,
}

/// Returns the sum of two sizes, if a `u64` holds it.
#[inline]
pub(crate) fn sum(left: Option<u64>, right: Option<u64>) -> Option<u64>
    ensures { (m n : ℕ) → IsSize left m → IsSize right n → IsSize result (m + n) }
{
    match (left, right) {
        (Some(left), Some(right)) => left.checked_add(right),
        _ => None,
    }
}

/// Returns the number of bytes of the head of an aggregate or a string: the type byte, the number,
/// CR and LF.
#[inline]
pub(crate) fn head_size(number: u64) -> u64
    ensures size { result ≡ length (decimal number) + 3 }
    ensures short { result ≤ 23 }
{
    digit_count(number) + 3
}

impl Measure {
    ghost use Rattle.resp_value.specs.Kinds.{kind_of};
    ghost use Rattle.resp_encode.specs.Walks.Measures.{DescribesEach, Describes};

    /// Returns the measure of an empty list of members.
    #[inline]
    pub(crate) fn nothing() -> Measure
        ensures { (version : Version) → DescribesEach version none result }
    {
        Measure::scalar(true, 0, 0)
    }

    /// Returns the measure of a value without members.
    #[inline]
    pub(crate) fn scalar(in_two: bool, length: u64, size: u64) -> Measure
        ensures { result ≡ record {
          in_two = in_two;
          no_double = true;
          no_push = true;
          push_at_top = true;
          depth =
              0;
          longest = length;
          most_items = 0;
          size = Some size;
        } }
    {
        Measure {
            in_two,
            no_double: true,
            no_push: true,
            push_at_top: true,
            depth: 0,
            longest: length,
            most_items: 0,
            size: Some(size),
        }
    }

    /// Returns the measure of the members with one more member after them.
    #[inline]
    pub(crate) fn with(&self, next: &Measure) -> Measure
        ensures { (version : Version) (xs : Data) (x : Datum) → DescribesEach version xs self.now →
            Describes version x next.now → DescribesEach version (extended xs x) result }
    {
        Measure {
            in_two: self.in_two & next.in_two,
            no_double: self.no_double & next.no_double,
            no_push: self.no_push & next.no_push,
            push_at_top: true,
            depth: self.depth.max(next.depth),
            longest: self.longest.max(next.longest),
            most_items: self.most_items.max(next.most_items),
            size: sum(self.size, next.size),
        }
    }

    /// Returns the measure of the aggregate that has these members and this number in its head.
    #[inline]
    pub(crate) fn inside(&self, kind: OpenKind, items: u64) -> Measure
        ensures { (version : Version) (xs : Data) → DescribesEach version xs self.now →
            items ≡ items_of (kind_of kind) (count xs) →
            Describes version (aggregate (kind_of kind) xs) result }
    {
        Measure {
            in_two: self.in_two & kind.is_in_two(),
            no_double: self.no_double,
            no_push: self.no_push & kind.is_below(),
            push_at_top: self.no_push,
            depth: self.depth.saturating_add(1),
            longest: self.longest,
            most_items: self.most_items.max(items),
            size: sum(Some(head_size(items)), self.size),
        }
    }
}
