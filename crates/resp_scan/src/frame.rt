//! The state that is kept for an open aggregate.

use resp_value::kind::OpenKind;

/// An open aggregate.
#[derive(Clone, Copy)]
pub(crate) struct Frame {
    /// Its kind.
    pub kind: OpenKind,
    /// The members that it counts.
    pub shape: Shape,
}

/// The number of members of an open aggregate. The keys and values of a map are its members. The
/// keys and values of an attribute and the value that it annotates are its members.
#[derive(Clone, Copy)]
pub(crate) enum Shape {
    /// The number of members that have not begun.
    Left(u64),
    /// The number of members of a streamed aggregate that have begun.
    Begun(u64),
}

impl Default for Frame {
    fn default() -> Frame {
        Frame {
            kind: OpenKind::Array,
            shape: Shape::Left(0),
        }
    }
}
