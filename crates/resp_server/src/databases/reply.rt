//! Writes replies. Each function appends a whole reply, or leaves the buffer unchanged.

ghost use Rattle.std.specs.Prelude.{◌≡◌, ◌+◌, ◌≤◌, ◌++◌, OnOk, OnErr};
ghost use Rattle.resp_value.specs.Canonical.{canonical_text};
ghost use Rattle.resp_value.specs.declared.version.Version.TheVariants.{Two};
ghost use Rattle.resp_session.specs.Replies.{error};
ghost use Rattle.resp_server.specs.Deeds.{unknown_text};
ghost use Rattle.resp_server.specs.Names.{shown_word};
ghost use Rattle.resp_server.specs.Outcomes.{name_reply, ok_reply};

use bytes::BytesMut;
use resp_encode::append;
use resp_value::version::Version;
use std::alloc::AllocError;

/// Appends the reply OK.
pub(crate) fn reply_ok(out: &mut BytesMut) -> Result<(), AllocError>
    ensures appended { OnOk result (out.new.items ≡ out.old.items ++ canonical_text Two ok_reply) }
    ensures unchanged { OnErr result (out.new.items ≡ out.old.items) }
{
    out.extend_from_slice(b"+OK\r\n")
}

/// Appends a bulk string, or a null in place of an empty one.
pub(crate) fn reply_name(
    out: &mut BytesMut,
    version: Version,
    name: &[u8],
) -> Result<(), AllocError>
    ensures appended { OnOk result (out.new.items ≡ out.old.items ++
        canonical_text version (name_reply name.now)) }
    ensures unchanged { OnErr result (out.new.items ≡ out.old.items) }
{
    if name.is_empty() {
        return append::null(version, out);
    }
    append::bulk(name, out)
}

/// Appends the error reply to an unknown subcommand of CLIENT, whose bytes are shown as Redis shows
/// them: at most 128, up to a NUL, and a space in place of CR and LF.
pub(crate) fn reply_unknown(out: &mut BytesMut, subcommand: &[u8]) -> Result<(), AllocError>
    ensures appended { OnOk result (out.new.items ≡ out.old.items ++
        canonical_text Two (error (unknown_text subcommand.now))) }
    ensures unchanged { OnErr result (out.new.items ≡ out.old.items) }
{
    out.reserve(190)?;
    out.extend_reserved(b"-ERR unknown subcommand '");
    append_shown(out, subcommand);
    out.extend_reserved(b"'. Try CLIENT HELP.\r\n");
    Ok(())
}

/// Appends at most 128 bytes of a word, up to a NUL, with a space in place of CR and LF. There is
/// room for them.
fn append_shown(out: &mut BytesMut, word: &[u8])
    requires room { 128 ≤ out.old.spare }
    ensures appended { out.new.items ≡ out.old.items ++ shown_word 128 word.now }
    ensures spare { out.old.spare ≤ out.new.spare + 128 }
{
    let mut rest = word;
    for _ in 0..128_usize {
        let Some((byte, beyond)) = rest.split_first() else {
            return;
        };
        if *byte == 0 {
            return;
        }
        let shown = if *byte == b'\r' || *byte == b'\n' {
            b' '
        } else {
            *byte
        };
        out.extend_reserved(&[shown]);
        rest = beyond;
    }
}
