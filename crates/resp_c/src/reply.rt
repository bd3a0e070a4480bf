//! Whole replies as one flat array of nodes.

ghost use Rattle.std.specs.Prelude.{◌≡◌};
ghost use Rattle.resp_c.specs.Answers.{bad_version};
ghost use Rattle.resp_c.specs.Limits.{bounds_of};
ghost use Rattle.resp_c.specs.Replies.{Reads, stop_number};
ghost use Rattle.resp_c.specs.Versions.{IsVersion, version_of};
ghost use Rattle.resp_value.specs.Bounds.{AreBounds};
ghost use Rattle.resp_value.specs.Causes.{number_of};
ghost use Rattle.resp_value.specs.Rules.{rules_under};
ghost use Rattle.resp_value.specs.declared.cause.Cause.TheVariants as cause;

use crate::answer::{BAD_VERSION, NO_ROOM, NOT_PLAIN};
use crate::limits::{RespLimits, checked};
use resp_flat::{InPlaceStop, Node, read_in_place};
use resp_value::cause::Cause;

/// The replies that a call has read.
#[repr(C)]
#[derive(Clone, Copy)]
pub struct RespReplies {
    /// The number of nodes of the replies.
    pub nodes: usize,
    /// The number of bytes of the buffer that belong to the replies.
    pub used: usize,
}

/// Returns the error number of this reason, if this many bytes are left.
fn stop_number(stop: InPlaceStop, left: usize) -> u32
    ensures { result ≡ stop_number stop left }
{
    match stop {
        InPlaceStop::Incomplete if left == 0 => 0,
        InPlaceStop::Incomplete => Cause::Truncated.number(),
        InPlaceStop::NoNodes => NO_ROOM,
        InPlaceStop::NotPlain => NOT_PLAIN,
        InPlaceStop::Refused(fault) => fault.cause.number(),
    }
}

/// Reads all complete replies at the beginning of a buffer, and fills nodes for them. Each text is a
/// part of the buffer. `replies` has the number of nodes and of bytes of these replies.
///
/// Returns 0 if the buffer has nothing else, or 9 if the bytes left are the beginning of a reply, or 65
/// if the next reply is complete and has more nodes than are left, or 70 if it is complete and not plain, or the number of the cause of a fault. Returns 64 for a version other
/// than 2 and 3, and 63 for a limit outside its range, and then changes nothing.
#[unsafe(no_mangle)]
pub extern "C" fn resp_reply_read(
    version: u32,
    limits: &RespLimits,
    buffer: &[u8],
    nodes: &mut [Node],
    replies: &mut RespReplies,
) -> u32
    // The nodes stand for the replies that the bytes used spell, and the result says why the bytes
    // that are left do not begin with another reply, or why it was not read.
    ensures read { IsVersion version → AreBounds (bounds_of limits.now) →
        Reads (rules_under (version_of version) (bounds_of limits.now)) buffer.now nodes.new
        replies.new result }

    ensures version { (IsVersion version → ⊥) → (result ≡ bad_version) ×
        (nodes.new ≡ nodes.old) × (replies.new ≡ replies.old) }
    ensures limits { IsVersion version → (AreBounds (bounds_of limits.now) → ⊥) →
        (result ≡ number_of cause.BadLimits) × (nodes.new ≡ nodes.old) ×
        (replies.new ≡ replies.old) }
{
    let Some(version) = crate::scanner::version(version) else {
        return BAD_VERSION;
    };
    let limits = match checked(limits) {
        Ok(limits) => limits,
        Err(_) => return Cause::BadLimits.number(),
    };
    let read = read_in_place(version, &limits, buffer, nodes);
    *replies = RespReplies {
        nodes: read.nodes,
        used: read.used,
    };
    stop_number(read.stop, buffer.len().saturating_sub(read.used))
}
