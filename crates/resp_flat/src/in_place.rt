//! Reads replies whose texts stay in the buffer.

ghost use Rattle.std.specs.Prelude.{◌≡◌, ℕ, ◌-◌, drop, length};
ghost use Rattle.resp_flat.specs.Plain.{BeginsWithPlain, LacksNodes};
ghost use Rattle.resp_flat.specs.declared.reading.Unread.TheVariants.{NoNodes, NoReply};
ghost use Rattle.resp_value.specs.Rules.{rules_under};
ghost use Rattle.resp_flat.specs.Places.{AreReadInPlace, StopsFor};

use crate::node::Node;
use crate::reading::{Filled, Unread, plain};
use resp_scan::event::{Fault, ScanError};
use resp_scan::nobody::Nobody;
use resp_scan::scanner::Scanner;
use resp_value::limits::Limits;
use resp_value::version::Version;

/// The number of the loop that ignores all events.
const LOOP: usize = 71;

/// Why [`read_in_place`] has read no further reply.
#[derive(Clone, Copy, Debug, PartialEq, Eq)]
pub enum InPlaceStop {
    /// No complete reply is left: the bytes are the beginning of one, or no bytes are left.
    Incomplete,
    /// The next reply is complete, and it has more nodes than are left.
    NoNodes,
    /// The next reply is complete, and it is not plain: it has a streamed string or
    /// aggregate, a big number, an integer with a `+`, or more than 16 aggregates inside one another.
    NotPlain,
    /// A byte of the next reply was rejected.
    Refused(Fault),
}

/// The replies that a call has read.
#[derive(Clone, Copy, Debug, PartialEq, Eq)]
pub struct InPlace {
    /// The number of nodes of the replies.
    pub nodes: usize,
    /// The number of bytes of the buffer that belong to the replies.
    pub used: usize,
    /// Why no further reply was read.
    pub stop: InPlaceStop,
}

/// Returns why no reply of these bytes was read. The bytes do not begin with a plain reply.
fn stop_without_reply(version: Version, limits: &Limits, bytes: &[u8]) -> InPlaceStop
    requires { BeginsWithPlain (rules_under version limits.now) bytes.now → ⊥ }
    ensures { (room : ℕ) → StopsFor (rules_under version limits.now) bytes.now room result }
{
    let mut scanner = Scanner::new(version, limits);
    match scanner.scan(bytes, &mut Nobody::<LOOP>) {
        Ok(scanned) => {
            if scanned.is_whole {
                InPlaceStop::NotPlain
            } else {
                InPlaceStop::Incomplete
            }
        }
        Err(ScanError::Fault(fault)) => InPlaceStop::Refused(fault),
        Err(ScanError::Stopped { taken: _ }) => InPlaceStop::Incomplete,
    }
}

/// Returns why no reply of these bytes was read, after [`plain`] has failed for this reason.
fn stop_for(version: Version, limits: &Limits, bytes: &[u8], why: Unread) -> InPlaceStop
    requires { why ≡ NoReply → BeginsWithPlain (rules_under version limits.now) bytes.now → ⊥ }
    ensures { (room : ℕ) →
        (why ≡ NoNodes → LacksNodes (rules_under version limits.now) bytes.now room) →
        StopsFor (rules_under version limits.now) bytes.now room result }
{
    match why {
        Unread::NoNodes => InPlaceStop::NoNodes,
        Unread::NoReply => stop_without_reply(version, limits, bytes),
    }
}

/// Reads all complete replies at the beginning of a buffer, and fills nodes for them. Does not
/// allocate. Each text is a part of the buffer.
///
/// The first [`InPlace::nodes`] nodes are those of the replies. The others have no meaning. A
/// number of nodes that is a third of the number of bytes is enough for any buffer.
///
/// [`InPlace::stop`] says why no further reply was read. After [`Stop::Incomplete`] call it again when
/// more bytes have come, with the bytes that were not used. After [`Stop::NoNodes`] call it again with
/// these bytes and the whole array, or with a larger one. After [`Stop::NotPlain`] read these bytes in
/// another way. After [`Stop::Refused`] no byte of the connection has a meaning.
///
/// # Examples
///
/// From [samples](../../samples/src/flat.rt):
///
/// ```rust
/// let mut nodes = [Node::default(); 16];
/// let buffer = b"*2\r\n:7\r\n$4\r\nhits\r\n+OK\r\n:1";
/// let read = read_in_place(Version::Three, &Limits::standard(), buffer, &mut nodes);
/// let mut at = 0;
/// while at < read.nodes {
///     println!(rt; "kind {}, size {}", nodes[at].kind, nodes[at].size)?;
///     at += nodes[at].size;
/// }
/// println!(rt; "{} bytes used: {:?}", read.used, read.stop)?;
/// ```
///
/// This prints:
///
/// ```text
/// kind 7, size 3
/// kind 4, size 1
/// 23 bytes used: Incomplete
/// ```
pub fn read_in_place(
    version: Version,
    limits: &Limits,
    buffer: &[u8],
    nodes: &mut [Node],
) -> InPlace
    // The bytes used are spellings of some replies, and the nodes stand for these.
    ensures replies { AreReadInPlace (rules_under version limits.now) buffer.now nodes.new
        result.nodes result.used }

    // Why the bytes that are left do not begin with another reply, or why it was not read.
    ensures stopped { StopsFor (rules_under version limits.now) (drop result.used buffer.now)
        (length nodes.new - result.nodes) result.stop }
{
    limits.are_in_range();
    let mut filled = Filled { end: 0, count: 0 };
    while filled.end < buffer.len() {
        match plain(version, limits, buffer, filled, nodes) {
            Ok(next) => filled = next,
            Err(why) => {
                let rest = &buffer[filled.end..];
                return InPlace {
                    nodes: filled.count,
                    used: filled.end,
                    stop: stop_for(version, limits, rest, why),
                };
            }
        }
    }
    InPlace {
        nodes: filled.count,
        used: filled.end,
        stop: InPlaceStop::Incomplete,
    }
}
