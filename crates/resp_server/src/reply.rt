//! Writes replies. Each public function appends a whole reply. If it fails, the buffer is unchanged.

ghost use Rattle.std.specs.Prelude.{◌≡◌, ◌+◌, ◌≤◌, ◌++◌, length, codes, decimal, IsOk, OnOk, OnErr};
ghost use Rattle.resp_value.specs.Canonical.{canonical_text, Fits};
ghost use Rattle.resp_value.specs.Rules.{rules_under};
ghost use Rattle.resp_value.specs.Values.{datum_of};
ghost use Rattle.resp_value.specs.declared.version.Version.TheVariants.{Two};
ghost use Rattle.resp_session.specs.Replies.{error, hello_reply, natural};
ghost use Rattle.resp_server.specs.ReplyTexts.{fault_text, greeting_begin, greeting_end};

use bytes::BytesMut;
use itoa::Buffer;
use resp_encode::{EncodeError, encode};
use resp_value::laws;
use resp_value::limits::Limits;
use resp_value::value::Value;
use resp_value::version::Version;
use std::alloc::AllocError;

/// Appends a reply that is within the limits, or leaves the buffer unchanged. Fails only when out
/// of memory, and only if the spare capacity does not hold the reply.
pub(crate) fn reply(
    out: &mut BytesMut,
    version: Version,
    limits: &Limits,
    value: &Value,
) -> Result<(), AllocError>
    requires { Fits (rules_under version limits.now) (datum_of value.now) }
    ensures appended { OnOk result (out.new.items ≡
        out.old.items ++ canonical_text version (datum_of value.now)) }
    ensures unchanged { OnErr result (out.new.items ≡ out.old.items) }
    ensures room { length (canonical_text version (datum_of value.now)) ≤ out.old.spare →
        IsOk result }
    ensures spare { OnOk result (out.old.spare ≤
        out.new.spare + length (canonical_text version (datum_of value.now))) }
{
    match encode(version, limits, value, out) {
        Ok(()) => Ok(()),
        Err(EncodeError::OutOfMemory) => Err(AllocError),
        Err(_) => unreachable!(),
    }
}

/// The maximum number of bytes of the reply to a number of 64 bits.
pub(crate) const NUMBER_ROOM: usize = 23;

/// The number of bytes of HELLO's reply without the number.
const GREETING_ROOM: usize = 150;

/// The maximum number of bytes of the error reply to a protocol error without the name.
const FAULT_ROOM: usize = 52;

/// Appends the reply to a number, the same in both versions.
///
/// # Errors
///
/// `AllocError` if `out` cannot grow.
pub fn number(out: &mut BytesMut, number: u64) -> Result<(), AllocError>
    ensures appended { OnOk result (out.new.items ≡ out.old.items ++
        canonical_text Two (natural number)) }
    ensures unchanged { OnErr result (out.new.items ≡ out.old.items) }
{
    out.reserve(NUMBER_ROOM)?;
    reserved_number(out, number);
    Ok(())
}

/// Appends the reply to a number. There is room for it.
pub(crate) fn reserved_number(out: &mut BytesMut, number: u64)
    requires room { 23 ≤ out.old.spare }
    ensures { out.new.items ≡ out.old.items ++ canonical_text Two (natural number) }
{
    laws::digits_are_those_of_std();
    append_number(out, b":", number);
}

/// Appends some bytes, a number and CR LF. There is room for them.
fn append_number(out: &mut BytesMut, before: &[u8], number: u64)
    requires room { length before.now + 22 ≤ out.old.spare }
    ensures appended { out.new.items ≡ out.old.items ++ before.now ++ decimal number ++
        codes "\r\n" }
    ensures short { length out.new.items ≤ length out.old.items + (length before.now + 22) }
    ensures spare { out.old.spare ≤ out.new.spare + (length before.now + 22) }
{
    let mut digits = Buffer::new();
    out.extend_reserved(before);
    out.extend_reserved(digits.format(number).as_bytes());
    out.extend_reserved(b"\r\n");
}

/// Appends the reply to HELLO in a version, for the session of this id.
///
/// # Errors
///
/// `AllocError` if `out` cannot grow.
pub fn greeting(out: &mut BytesMut, version: Version, id: u64) -> Result<(), AllocError>
    ensures appended { OnOk result (out.new.items ≡ out.old.items ++
        canonical_text version (hello_reply version id)) }
    ensures unchanged { OnErr result (out.new.items ≡ out.old.items) }
{
    out.reserve(GREETING_ROOM + NUMBER_ROOM)?;
    out.extend_reserved(greeting_begin(version));
    laws::digits_are_those_of_std();
    append_number(out, b":", id);
    out.extend_reserved(greeting_end());
    Ok(())
}

/// Returns the part of HELLO's reply before the id of the session.
fn greeting_begin(version: Version) -> &'static [u8]
    ensures begin { result.now ≡ greeting_begin version }
    ensures short { length result.now ≤ 80 }
{
    match version {
        Version::Two =>
            b"*14\r\n$6\r\nserver\r\n$9\r\nresp_loop\r\n$7\r\nversion\r\n$5\r\n1.0.0\r\n\
            $5\r\nproto\r\n:2\r\n$2\r\nid\r\n",
        Version::Three =>
            b"%7\r\n$6\r\nserver\r\n$9\r\nresp_loop\r\n$7\r\nversion\r\n$5\r\n1.0.0\r\n\
            $5\r\nproto\r\n:3\r\n$2\r\nid\r\n",
    }
}

/// Returns the part of HELLO's reply after the id of the session.
fn greeting_end() -> &'static [u8]
    ensures end { result.now ≡ greeting_end }
    ensures short { length result.now ≤ 70 }
{
    b"$4\r\nmode\r\n$10\r\nstandalone\r\n$4\r\nrole\r\n$6\r\nmaster\r\n$7\r\nmodules\r\n*0\r\n"
}

/// Appends the error reply to a protocol error of this name at this byte of a value, the same in
/// both versions. It has at most 52 bytes without the name.
///
/// # Errors
///
/// `AllocError` if `out` cannot grow.
pub fn fault(out: &mut BytesMut, name: &[u8], at: u64) -> Result<(), AllocError>
    ensures appended { OnOk result (out.new.items ≡ out.old.items ++
        canonical_text Two (error (fault_text name.now at))) }
    ensures short { length out.new.items ≤ length out.old.items + (length name.now + 52) }
    ensures unchanged { OnErr result (out.new.items ≡ out.old.items) }
{
    out.reserve(name.len().saturating_add(FAULT_ROOM))?;
    out.extend_reserved(b"-ERR Protocol error: ");
    out.extend_reserved(name);
    laws::digits_are_those_of_std();
    append_number(out, b" at byte ", at);
    Ok(())
}
