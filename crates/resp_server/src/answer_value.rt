//! The response to a complete value.

ghost use Rattle.std.specs.Prelude.{◌≡◌, ◌≤◌, List, ℕ, false, IfOk, OnErr};
ghost use Rattle.resp_value.specs.Spellings.{IsSpelling};
ghost use Rattle.resp_value.specs.Values.{datum_of};
ghost use Rattle.resp_session.specs.Answers.{server_rules};
ghost use Rattle.resp_session.specs.Fitting.{FitsStore};
ghost use Rattle.resp_server.specs.Answering.{IsAnswerTo};
ghost use Rattle.resp_server.specs.Running.{IsSessionAsBefore, KeepsWithin};

use crate::database::Database;
use crate::reply::fault;
use crate::session::Session;
use crate::words::Words;
use resp_session::laws;
use resp_session::words::{Requested, asked_by};
use resp_value::value::Value;
use std::alloc::AllocError;
use std::hash::BuildHasher;

/// Responds to a value that was read, and returns the number of commands that were run, 0 or 1.
/// When out of memory, the store, the session's version and the waiting bytes are unchanged.
pub(crate) fn answer_value<S: BuildHasher>(
    value: Value,
    database: &mut Database<S>,
    session: &mut Session,
) -> Result<u64, AllocError>
    requires is_open { session.old.closing ≡ false }
    requires stored { FitsStore database.old.limits database.old.store }
    requires spelled { (written : List ℕ) ×
        IsSpelling (server_rules database.old.limits) (datum_of value) written }
    ensures answered { IfOk result (IsAnswerTo (datum_of value) database.old.store database.new.store
        session.old session.new) }
    ensures unchanged { OnErr result (IsSessionAsBefore database.old.store database.new.store
        session.old session.new) }
    ensures within { KeepsWithin database.old.limits database.new.limits database.new.store
        session.old.out.items session.new.out.items }
    ensures same_decoder { session.new.decoder ≡ session.old.decoder }
    ensures same_id { session.new.id ≡ session.old.id }
    ensures at_most_one { IfOk result (λ commands. commands ≤ 1) }
{
    laws::a_command_is_its_words();
    database.limits.are_in_range();
    match asked_by(value) {
        Requested::Command(words) => {
            let arguments = Words::Read(&words, 1);
            database.run(
                words.word(0),
                arguments,
                session.id,
                &mut session.version,
                &mut session.out,
            )?;
            Ok(1)
        }
        Requested::Nothing => Ok(0),
        Requested::NoCommand => {
            fault(&mut session.out, b"NotCommand", 0)?;
            session.closing = true;
            Ok(0)
        }
    }
}
