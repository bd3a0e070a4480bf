//! The nodes of values.

ghost use Rattle.std.specs.Prelude.{◌≡◌};
ghost use Rattle.resp_flat.specs.Nodes.{aggregate_node, leaf_node, text_node, verbatim_node};

/// The kind of a node of a null.
pub const NULL: u8 = 1;

/// The kind of a node of a boolean.
pub const BOOL: u8 = 2;

/// The kind of a node of an integer.
pub const INT: u8 = 3;

/// The kind of a node of a text.
pub const TEXT: u8 = 4;

/// The kind of a node of an aggregate.
pub const OPEN: u8 = 7;

/// A value, or the beginning of an aggregate whose members follow.
#[repr(C)]
#[derive(Clone, Copy, Debug, PartialEq, Eq)]
pub struct Node {
    /// The kind: [`NULL`], [`BOOL`], [`INT`], [`TEXT`] or [`OPEN`].
    pub kind: u8,
    /// The kind of a text or of an aggregate.
    pub form: u8,
    /// The format of a verbatim string.
    pub format: [u8; 3],
    /// An integer, or 1 for true and for a big number below zero.
    pub number: i64,
    /// The index of the first byte of a text.
    pub start: usize,
    /// The number of bytes of a text, or of members of an aggregate. Keys and values of a map are
    /// members. The members of an attribute are its keys and values and then the value that it
    /// annotates.
    pub length: usize,
    /// The number of nodes of the value, with this one. The next sibling comes after as many nodes.
    pub size: usize,
}

impl Default for Node {
    /// Returns a null.
    fn default() -> Node {
        leaf(NULL, 0)
    }
}

/// Returns the node of a value without content and members.
#[inline(always)]
pub fn leaf(kind: u8, number: i64) -> Node
    ensures { result ≡ leaf_node kind number }
{
    Node {
        kind,
        form: 0,
        format: [0; 3],
        number,
        start: 0,
        length: 0,
        size: 1,
    }
}

/// Returns the node of a text in the buffer.
#[inline(always)]
pub fn text(form: u8, start: usize, length: usize) -> Node
    ensures { result ≡ text_node form start length }
{
    Node {
        kind: TEXT,
        form,
        format: [0; 3],
        number: 0,
        start,
        length,
        size: 1,
    }
}

/// Returns the node of a verbatim string in the buffer.
#[inline(always)]
pub fn verbatim(format: [u8; 3], start: usize, length: usize) -> Node
    ensures { result ≡ verbatim_node format start length }
{
    Node {
        kind: TEXT,
        form: 5,
        format,
        number: 0,
        start,
        length,
        size: 1,
    }
}

/// Returns the node of an aggregate.
#[inline(always)]
pub fn aggregate(form: u8, length: usize, size: usize) -> Node
    ensures { result ≡ aggregate_node form length size }
{
    Node {
        kind: OPEN,
        form,
        format: [0; 3],
        number: 0,
        start: 0,
        length,
        size,
    }
}
