//! Laws of the streams of values and commands. Each law is the contract of a function whose body is
//! empty or calls other laws.

ghost use Rattle.std.specs.Prelude.{[], List, Result};
ghost use Rattle.resp_session.specs.declared.words.Requested.{Requested};
ghost use Rattle.resp_value.specs.declared.value.Value.{Value};
ghost use Rattle.tokio_util.specs.Codec.Whole.{EndIsFinal};
ghost use Rattle.tokio_util.specs.declared.codec.framed_read.FramedRead.{FramedRead};
ghost use Rattle.resp_codec.specs.Commands as commands;
ghost use Rattle.resp_codec.specs.Commands.{Asks, gives_commands, reads_by};
ghost use Rattle.resp_codec.specs.FramedReaders.{AreItsValues, GivesItems, HasNoByte};
ghost use Rattle.resp_codec.specs.Streams.{AStreamIsItsCommands, AStreamIsItsValues, WhatIsWrittenComesBack};
ghost use Rattle.resp_codec.specs.Values.{HasTaken, Holds, gives_values, rules_of};
ghost use Rattle.resp_codec.specs.declared.command_codec.CommandCodec.{CommandCodec};
ghost use Rattle.resp_codec.specs.declared.error.CodecError.{CodecError};
ghost use Rattle.resp_codec.specs.declared.value_codec.RespCodec.{RespCodec};

use resp_value::laws as grammar;
use tokio::io::AsyncRead;

/// The items that a codec of values finds in an input are the values encoded in the input, in
/// order, up to its end or up to the error of its first fault.
pub fn a_stream_is_its_values()
    ensures { AStreamIsItsValues }
{}

/// The items that a codec of commands finds in an input are the requests of the values encoded in
/// the input, in order, up to its end or up to the error of its first fault.
pub fn a_stream_is_its_commands()
    ensures { AStreamIsItsCommands }
{}

/// If a framed reader of values has ended without an error, its items are the values encoded in all
/// bytes of its reader, in order. This holds for any reader that returns nothing after its end.
pub fn a_framed_reader_gives_its_values<R: AsyncRead>()
    ensures { EndIsFinal R.reads R.is_at_end → (framed : FramedRead R RespCodec)
        (items : List (Result Value CodecError)) → HasNoByte framed → HasTaken framed.decoder [] →
        GivesItems R.reads R.is_at_end R.fails gives_values framed items →
        AreItsValues R.reads R.is_at_end Holds (rules_of framed.decoder) framed.inner items }
{}

/// If a framed reader of commands has ended without an error, its items are the requests of the
/// values encoded in all bytes of its reader, in order. This holds for any reader that returns
/// nothing after its end.
pub fn a_framed_reader_gives_its_commands<R: AsyncRead>()
    ensures { EndIsFinal R.reads R.is_at_end → (framed : FramedRead R CommandCodec)
        (items : List (Result Requested CodecError)) → HasNoByte framed →
        commands.HasTaken framed.decoder [] →
        GivesItems R.reads R.is_at_end R.fails gives_commands framed items →
        AreItsValues R.reads R.is_at_end Asks (reads_by framed.decoder) framed.inner items }
{}

/// A reader with the same rules that reads the frame of a value returns that value, whatever bytes
/// follow, and uses exactly the bytes of the frame. It fails only when out of memory.
pub fn what_is_written_comes_back()
    ensures { WhatIsWrittenComesBack }
{
    grammar::no_spelling_begins_another();
    grammar::fronts_of_spellings_are_viable();
}
