//! The numbers of events, of texts, of aggregates and of kinds of commands, as `include/resp.h`
//! names them.

pub(crate) const MORE: u32 = 0;

pub(crate) const NULL: u32 = 1;

pub(crate) const BOOL: u32 = 2;

pub(crate) const INT: u32 = 3;

pub(crate) const TEXT: u32 = 4;

pub(crate) const PART: u32 = 5;

pub(crate) const TEXT_END: u32 = 6;

pub(crate) const OPEN: u32 = 7;

pub(crate) const CLOSE: u32 = 8;

pub(crate) const DONE: u32 = 9;

pub(crate) const WHOLE: u32 = 10;

pub(crate) const TEXT_SIMPLE: u32 = 0;

pub(crate) const TEXT_ERROR: u32 = 1;

pub(crate) const TEXT_DOUBLE: u32 = 2;

pub(crate) const TEXT_BULK: u32 = 3;

pub(crate) const TEXT_BULK_ERROR: u32 = 4;

pub(crate) const TEXT_VERBATIM: u32 = 5;

pub(crate) const TEXT_BIG: u32 = 6;

pub(crate) const ARRAY: u32 = 0;

pub(crate) const SET: u32 = 1;

pub(crate) const MAP: u32 = 2;

pub(crate) const ATTRIBUTE: u32 = 3;

pub(crate) const PUSH: u32 = 4;

/// The number of members of a streamed aggregate.
pub(crate) const STREAMED: u64 = u64::MAX;

/// The kind of a command that has exactly one reply.
pub(crate) const ONE_REPLY: u32 = 0;

/// The kind of a HELLO that requests version 2.
pub(crate) const HELLO_TWO: u32 = 2;

/// The kind of a HELLO that requests version 3.
pub(crate) const HELLO_THREE: u32 = 3;

/// The kind of a command that subscribes or unsubscribes.
pub(crate) const SUBSCRIBING: u32 = 16;

/// The kind of another command that does not have exactly one reply, or that changes the version.
pub(crate) const NOT_PAIRED: u32 = 17;
