//! The limits on the values that are read and written.

ghost use Rattle.std.specs.Prelude.{◌≡◌, ◌↔◌, true, false, IsOk, IfOk};
ghost use Rattle.resp_value.specs.Bounds.{IsDepth, IsLength, IsTotal, IsItems, AreBounds};

use std::marker::Model;
use thiserror::Error;

/// The default limit of items. No value within the greatest limit of total has more.
const ITEMS: u64 = 1_099_511_627_776;

/// Limits on a value: how deep, long and large it may be, and whether streamed forms and doubles
/// are allowed. Each number is within its range.
///
/// | Limit | From | To | Default | What it counts |
/// |---|---|---|---|---|
/// | depth | 4 | 128 | 32 | aggregates nested inside one another |
/// | length | 64 | 1,073,741,824 | 536,870,912 | bytes of one content |
/// | total | 256 | 1,099,511,627,776 | 1,073,741,824 | bytes of one outermost value, as encoded |
/// | items | 16 | 1,099,511,627,776 | 1,099,511,627,776 | members or pairs of one aggregate |
///
/// Empty aggregates and attributes count for depth too, and the value that an attribute annotates
/// is inside the attribute. The content of a verbatim string is four bytes longer than its text,
/// and the content of a big number is its digits. The items of a map or an attribute are its pairs.
/// The default of length is the standard's (Redis serialization protocol specification, "Bulk
/// strings"). The other limits are specific to this library.
///
/// # Examples
///
/// From [samples](../../samples/src/values.rt):
///
/// ```rust
/// let limits = Limits::new(8, 1_048_576, 16_777_216)?
///     .with_items(1_000)?
///     .with_doubles(true);
/// ```
#[derive(Clone, Copy, Debug, PartialEq, Eq)]
pub struct Limits {
    depth: u64,
    length: u64,
    total: u64,
    items: u64,
    streamed: bool,
    doubles: bool,
}

impl Model for Limits {
    ghost use Rattle.resp_value.specs.Bounds.{Bounds, AreBounds};

    ghost Value = { Bounds };

    ghost view = { λ limits. record {
      depth = limits.depth;
      length = limits.length;
      total = limits.total;
      items = limits.items;
      streamed = limits.streamed;
      doubles = limits.doubles;
    } };

    ghost invariant = { λ limits. AreBounds (record {
      depth = limits.depth;
      length = limits.length;
      total = limits.total;
      items = limits.items;
      streamed = limits.streamed;
      doubles = limits.doubles;
    }) };

    ghost inverse = { λ bounds. record {
      depth = bounds.depth;
      length = bounds.length;
      total = bounds.total;
      items = bounds.items;
      streamed = bounds.streamed;
      doubles = bounds.doubles;
    } };
}

/// The error of [`Limits::new`] and [`Limits::with_items`]: a limit is outside its range.
#[derive(Clone, Copy, Debug, PartialEq, Eq, Error)]
#[error("a limit is out of range")]
pub struct BadLimits;

impl Limits {
    /// Makes limits of depth (4 to 128), of the bytes of one content (64 to 1,073,741,824) and of
    /// the bytes of one value (256 to 1,099,511,627,776). The limit `items` is the default,
    /// streamed forms are allowed, and doubles are not.
    ///
    /// # Errors
    ///
    /// `BadLimits` if one of the three is outside its range.
    pub fn new(depth: u64, length: u64, total: u64) -> Result<Limits, BadLimits>
        ensures ok { IsOk result ↔ (IsDepth depth × IsLength length × IsTotal total) }
        ensures kept { IfOk result (λ limits. limits ≡ record {
          depth = depth;
          length = length;
          total = total;
          items = 1_099_511_627_776;
          streamed = true;
          doubles = false;
        }) }
    {
        let is_depth = 4 <= depth && depth <= 128;
        let is_length = 64 <= length && length <= 1_073_741_824;
        let is_total = 256 <= total && total <= 1_099_511_627_776;
        if is_depth && is_length && is_total {
            Ok(Limits {
                depth,
                length,
                total,
                items: ITEMS,
                streamed: true,
                doubles: false,
            })
        } else {
            Err(BadLimits)
        }
    }

    /// Returns the default limits: depth 32, contents of 536,870,912 bytes, values of 1,073,741,824
    /// bytes, 1,099,511,627,776 items, with streamed forms and without doubles.
    pub fn standard() -> Limits
        ensures { result ≡ record {
          depth = 32;
          length = 536_870_912;
          total = 1_073_741_824;
          items = 1_099_511_627_776;
          streamed = true;
          doubles = false;
        } }
    {
        Limits {
            depth: 32,
            length: 536_870_912,
            total: 1_073_741_824,
            items: ITEMS,
            streamed: true,
            doubles: false,
        }
    }

    /// Sets the limit `items`: the members of one array, set or push, or the pairs of one map or
    /// attribute (16 to 1,099,511,627,776). The other limits stay the same.
    ///
    /// # Errors
    ///
    /// `BadLimits` if `items` is outside that range.
    pub fn with_items(self, items: u64) -> Result<Limits, BadLimits>
        ensures ok { IsOk result ↔ IsItems items }
        ensures kept { IfOk result (λ limits. limits ≡ record self { items = items }) }
    {
        if 16 <= items && items <= 1_099_511_627_776 {
            Ok(Limits { items, ..self })
        } else {
            Err(BadLimits)
        }
    }

    /// Allows or forbids streamed strings and aggregates. The other limits stay the same.
    pub fn with_streamed(self, allowed: bool) -> Limits
        ensures { result ≡ record self { streamed = allowed } }
    {
        Limits {
            streamed: allowed,
            ..self
        }
    }

    /// Allows or forbids doubles. The other limits stay the same. Version 2 never allows doubles
    /// (Redis serialization protocol specification, "Doubles").
    pub fn with_doubles(self, allowed: bool) -> Limits
        ensures { result ≡ record self { doubles = allowed } }
    {
        Limits {
            doubles: allowed,
            ..self
        }
    }

    /// Returns the greatest number of aggregates nested inside one another, 4 to 128.
    pub fn depth(&self) -> u64
        ensures depth { result ≡ self.now.depth }
        ensures in_range { IsDepth result }
    {
        self.depth
    }

    /// Returns the greatest number of bytes of one content, 64 to 1,073,741,824.
    pub fn length(&self) -> u64
        ensures length { result ≡ self.now.length }
        ensures in_range { IsLength result }
    {
        self.length
    }

    /// Returns the greatest number of bytes of one encoded value, 256 to 1,099,511,627,776.
    pub fn total(&self) -> u64
        ensures total { result ≡ self.now.total }
        ensures in_range { IsTotal result }
    {
        self.total
    }

    /// Returns the greatest number of members of one array, set or push, or of pairs of one map or
    /// attribute, 16 to 1,099,511,627,776.
    pub fn items(&self) -> u64
        ensures items { result ≡ self.now.items }
        ensures in_range { IsItems result }
    {
        self.items
    }

    /// Does nothing. Its contract states that each limit is within its range, for proofs that need
    /// this fact.
    #[inline]
    pub fn are_in_range(&self)
        ensures { AreBounds self.now }
    {
        // (reading a field makes the invariant of its struct known to the proof)
        let _ = &self.depth;
    }

    /// Returns whether streamed strings and aggregates are allowed.
    pub fn streamed(&self) -> bool
        ensures { result ≡ self.now.streamed }
    {
        self.streamed
    }

    /// Returns whether doubles are allowed.
    pub fn doubles(&self) -> bool
        ensures { result ≡ self.now.doubles }
    {
        self.doubles
    }
}
