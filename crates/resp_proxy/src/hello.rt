//! Replies to HELLO.

ghost use Rattle.std.specs.Prelude.{◌≡◌, ◌++◌, IfNone, IfOk, IfSome};
ghost use Rattle.resp_proxy.specs.Hellos.{HasId, IsIdAround, IsReplyWithNumber, own_reply};
ghost use Rattle.resp_value.specs.Canonical.{canonical_text};

use memchr::{memchr, memmem};
use resp_value::version::Version;
use std::alloc::{AllocError, Global};

/// The bytes before the id of the connection, in the reply to HELLO.
const BEFORE_ID: &[u8] = b"$2\r\nid\r\n:";

/// Returns the proxy's own reply to HELLO in version 2, for the client of this number.
pub(crate) fn hello_text(alloc: Global, number: u64) -> Result<Vec<u8>, AllocError>
    ensures { IfOk result (λ text. text.items ≡ canonical_text Version.Two (own_reply number)) }
{
    let mut text = Vec::new(alloc);
    text.extend_from_slice(
        b"*14\r\n$6\r\nserver\r\n$5\r\nredis\r\n$7\r\nversion\r\n$6\r\n7.0.15\r\n$5\r\nproto\r\n:2\r\n",
    )?;
    let id = format!(in alloc; "$2\r\nid\r\n:{}\r\n", number)?;
    text.extend_from_slice(id.as_bytes())?;
    text.extend_from_slice(
        b"$4\r\nmode\r\n$10\r\nstandalone\r\n$4\r\nrole\r\n$6\r\nmaster\r\n$7\r\nmodules\r\n*0\r\n",
    )?;
    Ok(text)
}

/// Returns the reply of a server to HELLO, with the number of a client in place of the id of the
/// connection.
pub(crate) fn with_number(alloc: Global, reply: &[u8], number: u64) -> Result<Vec<u8>, AllocError>
    ensures { IfOk result (λ text. IsReplyWithNumber number reply.now text.items) }
{
    let mut text = Vec::new(alloc);
    let Some(around) = around_id(reply) else {
        text.extend_from_slice(reply)?;
        return Ok(text);
    };
    let digits = format!(in alloc; "{number}")?;
    text.extend_from_slice(around.before)?;
    text.extend_from_slice(digits.as_bytes())?;
    text.extend_from_slice(around.after)?;
    Ok(text)
}

/// The bytes of a reply to HELLO before the digits of the id, and those after the digits.
#[derive(Clone, Copy)]
struct AroundId<'a> {
    before: &'a [u8],
    after: &'a [u8],
}

/// Returns the bytes before and after the digits of the id in a reply to HELLO, if it has one.
fn around_id(reply: &[u8]) -> Option<AroundId<'_>>
    ensures some { IfSome result (λ around.
        IsIdAround reply.now around.before.now around.after.now) }
    ensures none { IfNone result (HasId reply.now → ⊥) }
{
    let Some(start) = memmem::find(reply, BEFORE_ID) else {
        return None;
    };
    let (before, rest) = reply.split_at(start + BEFORE_ID.len());
    let count = memchr(b'\r', rest).unwrap_or(rest.len());
    let (_, after) = rest.split_at(count);
    Some(AroundId { before, after })
}
