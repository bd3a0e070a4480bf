//! One turn of a session: it reads up to the end of a value or of the piece.

ghost use Rattle.std.specs.Prelude.{◌≡◌, ◌+◌, ◌≤◌, length, OnOk, OnErr};
ghost use Rattle.resp_value.specs.declared.cause.Cause.TheVariants.{OutOfMemory};
ghost use Rattle.resp_server.specs.Answering.{AnswersFault, IsNamedFault, IsReading, TakesTurn};

use crate::answer_value::answer_value;
use crate::database::Database;
use crate::reply;
use crate::session::Session;
use crate::words::Words;
use resp_scan::event::Fault;
use resp_scan::whole;
use resp_session::laws;
use resp_value::cause::Cause;
use resp_value::laws as grammar;
use std::alloc::AllocError;
use std::hash::BuildHasher;

/// The result of a turn.
#[derive(Clone, Copy, Debug, PartialEq, Eq)]
pub(crate) struct Turn {
    /// The number of bytes of the piece that were used.
    pub(crate) used: usize,
    /// The number of commands that were run, 0 or 1.
    pub(crate) commands: u64,
}

/// Reads up to the end of a value or of the piece, and responds to the value or the fault. When out
/// of memory, the store, the session's version and the waiting bytes are unchanged.
pub(crate) fn take_turn<S: BuildHasher>(
    database: &mut Database<S>,
    session: &mut Session,
    piece: &[u8],
) -> Result<Turn, AllocError>
    requires { IsReading database.old.limits database.old.store session.old }
    ensures { TakesTurn database.old.limits database.new.limits database.old.store database.new.store
        session.old session.new piece.now result }
{
    if session.decoder.is_between() {
        if let Some(command) = whole::command(piece, &database.limits) {
            laws::a_command_is_its_words();
            grammar::no_spelling_is_empty();
            grammar::the_empty_text_is_viable();
            database.limits.are_in_range();
            let used = piece.len() - command.rest.len();
            let arguments = Words::Lent(command.arguments);
            database.run(
                command.name,
                arguments,
                session.id,
                &mut session.version,
                &mut session.out,
            )?;
            return Ok(Turn { used, commands: 1 });
        }
    }
    read_turn(database, session, piece)
}

/// Reads with the decoder, and responds to the value or the fault. It is not inlined, since most
/// commands are completely in a piece.
#[inline(never)]
fn read_turn<S: BuildHasher>(
    database: &mut Database<S>,
    session: &mut Session,
    piece: &[u8],
) -> Result<Turn, AllocError>
    requires { IsReading database.old.limits database.old.store session.old }
    ensures { TakesTurn database.old.limits database.new.limits database.old.store database.new.store
        session.old session.new piece.now result }
{
    grammar::no_spelling_is_empty();
    grammar::the_empty_text_is_viable();
    database.limits.are_in_range();
    let fed = match session
        .decoder
        .feed(database.alloc, &database.limits, piece)
    {
        Ok(fed) => fed,
        Err(fault) => {
            refuse(session, fault)?;
            return Ok(Turn {
                used: piece.len(),
                commands: 0,
            });
        }
    };
    let used = fed.used;
    let Some(value) = fed.value else {
        return Ok(Turn { used, commands: 0 });
    };
    let commands = answer_value(value, database, session)?;
    Ok(Turn { used, commands })
}

/// Queues the error reply for a fault and closes the session. Fails if the fault is `OutOfMemory`
/// or the allocation for the reply fails.
fn refuse(session: &mut Session, fault: Fault) -> Result<(), AllocError>
    requires { (fault.cause ≡ OutOfMemory → ⊥) → IsNamedFault fault }
    ensures refused { OnOk result (AnswersFault session.old session.new fault) }
    ensures short { length session.new.out.items ≤ length session.old.out.items + 68 }
    ensures unchanged { OnErr result (session.new.out.items ≡ session.old.out.items) }
    ensures same_version { session.new.version ≡ session.old.version }
    ensures same_decoder { session.new.decoder ≡ session.old.decoder }
    ensures same_id { session.new.id ≡ session.old.id }
{
    if let Cause::OutOfMemory = fault.cause {
        return Err(AllocError);
    }
    let name = fault.cause.name().as_bytes();
    reply::fault(&mut session.out, name, fault.at)?;
    session.closing = true;
    Ok(())
}
