//! The response of a session to a piece.

ghost use Rattle.std.specs.Prelude.{◌≡◌, ◌≤◌, ◌+◌, ◌++◌, length, take, IfOk, IfErr};
ghost use Rattle.resp_session.specs.Answers.{server_rules};
ghost use Rattle.resp_session.specs.Fitting.{FitsStore};
ghost use Rattle.resp_server.specs.Answering.{IsAnswered, IsCutShort, IsReading, TakesWithin};
ghost use Rattle.resp_server.specs.Reading.{ReadsBy, WhereFrontRead};

use crate::database::Database;
use crate::hub::Taken;
use crate::session::Session;
use crate::turn::take_turn;
use resp_session::laws;
use std::hash::BuildHasher;

/// Responds to the values that are complete with a piece, one by one, while at most `held` bytes
/// wait. The rest of the piece is not used. When out of memory, the session is closing, and the
/// error has the number of commands run before.
pub(crate) fn answer<S: BuildHasher>(
    database: &mut Database<S>,
    session: &mut Session,
    piece: &[u8],
    held: usize,
) -> Result<Taken, u64>
    requires { IsReading database.old.limits database.old.store session.old }
    ensures answered { WhereFrontRead session.old.decoder (λ front. IfOk result (λ taken.
        IsAnswered database.old.limits database.old.store database.new.store session.old session.new
        (front ++ take taken.used piece.now) taken.commands)) }
    ensures cut_short { WhereFrontRead session.old.decoder (λ front. IfErr result (IsCutShort
        database.old.limits database.old.store database.new.store session.old session.new front
        piece.now)) }
    ensures within { IfOk result (λ taken. TakesWithin held (length session.old.out.items)
        (length session.new.out.items) session.new.closing (length piece.now) taken.used) }
    ensures bounded { length session.old.out.items ≤ held + database.old.limits.total →
        length session.new.out.items ≤ held + database.old.limits.total }
    ensures stored { FitsStore database.old.limits database.new.store }
    ensures same_limits { database.new.limits ≡ database.old.limits }
    ensures same_id { session.new.id ≡ session.old.id }
    ensures reading { ReadsBy (server_rules database.old.limits) session.new.decoder }
{
    laws::answers_go_on();
    laws::answers_end();
    // The contract of the decoder's `taken` states here that the bytes read are viable.
    let _taken = session.decoder.taken(&database.limits);
    let mut used = 0;
    let mut commands = 0;
    while used < piece.len() && session.out.len() <= held {
        let turn = match take_turn(database, session, &piece[used..]) {
            Ok(turn) => turn,
            Err(_) => {
                session.closing = true;
                return Err(commands);
            }
        };
        used += turn.used;
        commands += turn.commands;
        if session.closing {
            let used = piece.len();
            return Ok(Taken { used, commands });
        }
    }
    Ok(Taken { used, commands })
}
