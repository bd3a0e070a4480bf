//! The replies and pushes that a client received, as lines of text.

ghost use Rattle.std.specs.Prelude.{◌+◌, ◌<◌, ◌≤◌, ◌^◌, ◌++◌, ℕ, List, Option, codes, decimal, length, IsErrOf};
ghost use Rattle.resp_print.specs.Headings.{push_heading, reply_heading};
ghost use Rattle.resp_print.specs.Printed.{Prints};
ghost use Rattle.resp_print.specs.Shown.{lines_on};
ghost use Rattle.resp_print.specs.Written.{WritesText};
ghost use Rattle.resp_cli_loop.specs.Printed.{HaveTooDeep, PlaysText, push_texts, reply_texts};
ghost use Rattle.resp_value.specs.Data.{depth};
ghost use Rattle.resp_value.specs.Values.{datum_of};
ghost use Rattle.resp_wire.specs.Worlds.{pushes_with, values_in};

use crate::play::PlayError;
use resp_io::device::{DeviceFault, Sink};
use resp_print::print_error::PrintError;
use resp_print::text::write_number;
use resp_print::value::{write_push_value, write_value};
use resp_value::value::{Members, Value};

/// Writes replies to a client. The first one is for the command with the number `count + 1`.
pub(crate) fn write_replies<W: Sink>(
    client: u64,
    count: u64,
    replies: &[Value],
    writer: &mut W,
) -> Result<(), PlayError>
    requires { count + length replies.now < 2 ^ 64 }
    ensures prints { PlaysText (W.written writer.old) (W.written writer.new) (W.failures writer.old)
        (W.failures writer.new) result (reply_texts client count (values_in replies.now)) }
    ensures memory { IsErrOf result PlayError.Memory → HaveTooDeep (values_in replies.now) }
{
    let mut number = count;
    let mut rest = replies;
    while let Some((reply, beyond)) = rest.split_first() {
        number += 1;
        write_reply(client, number, reply, writer)?;
        rest = beyond;
    }
    Ok(())
}

/// Writes pushes to a client.
pub(crate) fn write_pushes<W: Sink>(
    client: u64,
    pushes: &[Members],
    writer: &mut W,
) -> Result<(), PlayError>
    ensures prints { PlaysText (W.written writer.old) (W.written writer.new) (W.failures writer.old)
        (W.failures writer.new) result (push_texts client (pushes_with pushes.now)) }
    ensures memory { IsErrOf result PlayError.Memory → HaveTooDeep (pushes_with pushes.now) }
{
    let mut rest = pushes;
    while let Some((push, beyond)) = rest.split_first() {
        write_push(client, push, writer)?;
        rest = beyond;
    }
    Ok(())
}

/// Writes a client's reply with this number, after its heading.
///
/// # Errors
///
/// [`PlayError::Write`] if a write fails, and [`PlayError::Memory`] if the reply is nested too
/// deeply to be in memory. The first part of the text was written.
fn write_reply<W: Sink>(
    client: u64,
    number: u64,
    reply: &Value,
    writer: &mut W,
) -> Result<(), PlayError>
    ensures prints { PlaysText (W.written writer.old) (W.written writer.new) (W.failures writer.old)
        (W.failures writer.new) result
        (reply_heading client number ++ lines_on 1 (datum_of reply.now)) }
    ensures memory { IsErrOf result PlayError.Memory → 2 ^ 64 ≤ 1 + depth (datum_of reply.now) }
{
    write_numbers(writer, b"client ", client, b" reply ", number)?;
    played(write_value(reply, 1, None, writer))
}

/// Writes a push to a client, after its heading.
///
/// # Errors
///
/// The errors of [`write_reply`].
fn write_push<W: Sink>(client: u64, push: &Members, writer: &mut W) -> Result<(), PlayError>
    ensures prints { PlaysText (W.written writer.old) (W.written writer.new) (W.failures writer.old)
        (W.failures writer.new) result
        (push_heading client ++ lines_on 1 (datum_of (Value.Push push.now))) }
    ensures memory { IsErrOf result PlayError.Memory →
        2 ^ 64 ≤ 1 + depth (datum_of (Value.Push push.now)) }
{
    write_number(writer, b"client ", client, b" push\n")?;
    played(write_push_value(push, 1, None, writer))
}

/// Returns the result of printing as the result of playing.
fn played(printed: Result<(), PrintError>) -> Result<(), PlayError>
    ensures prints { (before after : Option (List ℕ)) (failures failures' : ℕ) (text : List ℕ)
        (levels : ℕ) → Prints before after failures failures' printed text levels →
        PlaysText before after failures failures' result text }
    ensures memory { (before after : Option (List ℕ)) (failures failures' : ℕ) (text : List ℕ)
        (levels : ℕ) → Prints before after failures failures' printed text levels →
        IsErrOf result PlayError.Memory → 2 ^ 64 ≤ levels }
{
    match printed {
        Ok(()) => Ok(()),
        Err(PrintError::Write) => Err(PlayError::Write),
        Err(PrintError::TooDeep) => Err(PlayError::Memory),
    }
}

/// Writes a line of two numbers, with words before each of them.
pub(crate) fn write_numbers<W: Sink>(
    writer: &mut W,
    words: &[u8],
    first: u64,
    between: &[u8],
    second: u64,
) -> Result<(), DeviceFault>
    ensures { WritesText (W.written writer.old) (W.written writer.new) (W.failures writer.old)
        (W.failures writer.new) result ((words.now ++ decimal first ++ between.now) ++
        (decimal second ++ codes "\n")) }
{
    write_number(writer, words, first, between)?;
    write_number(writer, b"", second, b"\n")
}
