//! The kinds of aggregates.

ghost use Rattle.std.specs.Prelude.{◌≡◌, ◌↔◌, IsTrue};
ghost use Rattle.resp_value.specs.Trees.{kind_byte};
ghost use Rattle.resp_value.specs.Canonical.{IsKindInTwo, IsKindBelow};

/// A kind of aggregate (Redis serialization protocol specification, "Arrays", "Sets", "Maps" and
/// "Pushes"; RESP3 specification, "Attribute type").
#[derive(Clone, Copy, Debug, PartialEq, Eq)]
pub enum OpenKind {
    /// An array.
    Array,
    /// A set.
    Set,
    /// A map. Keys and values alternate.
    Map,
    /// An attribute. Keys and values alternate, and the value that it annotates comes last.
    Attr,
    /// A push. It may only be the outermost value.
    Push,
}

impl OpenKind {
    ghost use Rattle.resp_value.specs.Kinds.{kind_of};

    /// Returns the type byte that begins an aggregate of this kind.
    pub fn byte(self) -> u8
        ensures { result ≡ kind_byte (kind_of self) }
    {
        match self {
            OpenKind::Array => b'*',
            OpenKind::Set => b'~',
            OpenKind::Map => b'%',
            OpenKind::Attr => b'|',
            OpenKind::Push => b'>',
        }
    }

    /// Returns whether version 2 has this kind.
    pub fn is_in_two(self) -> bool
        ensures { IsTrue result ↔ IsKindInTwo (kind_of self) }
    {
        match self {
            OpenKind::Array => true,
            OpenKind::Set | OpenKind::Map | OpenKind::Attr | OpenKind::Push => false,
        }
    }

    /// Returns whether an aggregate of this kind may be inside another value.
    pub fn is_below(self) -> bool
        ensures { IsTrue result ↔ IsKindBelow (kind_of self) }
    {
        match self {
            OpenKind::Push => false,
            OpenKind::Array | OpenKind::Set | OpenKind::Map | OpenKind::Attr => true,
        }
    }
}
