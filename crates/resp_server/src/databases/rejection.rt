//! Bytes of a client that are rejected, and the error reply to them.

ghost use Rattle.std.specs.Prelude.{◌≡◌, ◌++◌, [], true, OnErr, OnOk};
ghost use Rattle.resp_value.specs.Bounds.{Bounds};
ghost use Rattle.resp_value.specs.Canonical.{canonical_text};
ghost use Rattle.resp_value.specs.declared.version.Version.TheVariants.{Two};
ghost use Rattle.resp_session.specs.Replies.{error};
ghost use Rattle.resp_server.specs.Rejections.{rejection_text};
ghost use Rattle.resp_server.specs.Doing.{standing_of, waiting_of};
ghost use Rattle.resp_server.specs.Taking.{HasUnfinished};

use crate::databases::client::Client;
use crate::reply;
use bytes::BytesMut;
use resp_scan::event::Fault;
use std::alloc::AllocError;

/// Why bytes of a client are rejected.
#[derive(Clone, Copy, Debug, PartialEq, Eq)]
pub(crate) enum Rejection {
    /// No value within the limits contains a byte at its place.
    Faulty(Fault),
    /// A value is not a command.
    NoCommand,
    /// A line has more bytes than a line may have.
    LongLine,
    /// A quote of a line is not closed, or no space follows it.
    Quotes,
    /// An array of the words of a line exceeds a limit.
    OverLimits,
}

/// Why the next bytes of a client are not taken.
#[derive(Clone, Copy, Debug, PartialEq, Eq)]
pub(crate) enum TakeError {
    /// They are rejected.
    Rejected(Rejection),
    /// An allocation failed.
    OutOfMemory,
}

/// Stops running commands of the client, and queues the error reply to rejected bytes.
///
/// # Errors
///
/// `AllocError` if an allocation fails. Then the client is closing without the reply.
pub(crate) fn reject(client: &mut Client, why: Rejection) -> Result<(), AllocError>
    ensures replied { OnOk result (waiting_of client.new ≡ waiting_of client.old ++
        canonical_text Two (error (rejection_text why))) }
    ensures no_reply { OnErr result (waiting_of client.new ≡ waiting_of client.old) }
    ensures closing { standing_of client.new ≡
        record (standing_of client.old) { closing = true } }
    ensures nothing_begun { (limits : Bounds) → HasUnfinished limits client.new [] }
{
    client.shut();
    append(&mut client.out, why)
}

/// Appends the error reply to bytes that are rejected.
fn append(out: &mut BytesMut, why: Rejection) -> Result<(), AllocError>
    ensures appended { OnOk result (out.new.items ≡ out.old.items ++
        canonical_text Two (error (rejection_text why))) }
    ensures unchanged { OnErr result (out.new.items ≡ out.old.items) }
{
    match why {
        Rejection::Faulty(fault) => reply::fault(out, fault.cause.name().as_bytes(), fault.at),
        Rejection::NoCommand => reply::fault(out, b"NotCommand", 0),
        Rejection::LongLine => {
            out.extend_from_slice(b"-ERR Protocol error: too big inline request\r\n")
        }
        Rejection::Quotes => {
            out.extend_from_slice(b"-ERR Protocol error: unbalanced quotes in request\r\n")
        }
        Rejection::OverLimits => {
            out.extend_from_slice(b"-ERR Protocol error: inline request over a limit\r\n")
        }
    }
}
