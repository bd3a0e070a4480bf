//! The clients that were replied to.

ghost use Rattle.std.specs.Prelude.{◌≡◌, ◌<◌, take, OnOk};
ghost use Rattle.std.specs.VecDeque.{deque_capacity, deque_len};
ghost use Rattle.resp_board.specs.Runs.{clients_on};
ghost use Rattle.resp_proxy.specs.Telling.{Covers, Notes, NotesSome};

use resp_board::{Board, ClientId, LineId};
use std::alloc::AllocError;
use std::collections::VecDeque;

/// Makes room for one more client. There is nearly always room already.
#[inline(always)]
pub(crate) fn make_room(queued: &mut VecDeque<ClientId>) -> Result<(), AllocError>
    ensures room { OnOk result (deque_len queued.new < deque_capacity queued.new) }
    ensures same { queued.new.items ≡ queued.old.items }
{
    if queued.len() < queued.capacity() {
        return Ok(());
    }
    queued.reserve(1)
}

/// Queues a client, for which there is room. It is not queued twice in a row.
pub(crate) fn note(queued: &mut VecDeque<ClientId>, who: ClientId)
    requires { deque_len queued.old < deque_capacity queued.old }
    ensures { Notes who queued.old.items queued.new.items }
{
    if let Some(last) = queued.back() {
        if *last == who {
            return;
        }
    }
    queued.push_back_reserved(who);
}

/// Queues the clients of the first `count` commands that wait on a line, or of all if fewer wait.
pub(crate) fn note_first(
    queued: &mut VecDeque<ClientId>,
    board: &Board,
    line: LineId,
    count: usize,
) -> Result<(), AllocError>
    ensures noted { NotesSome (clients_on board.now line.place) queued.old.items queued.new.items }
    ensures all { OnOk result
        (Covers (take count (clients_on board.now line.place)) queued.new.items) }
{
    let mut before = 0;
    while before < count {
        queued.reserve(1)?;
        let Some(who) = board.waiting_client(line, before) else {
            return Ok(());
        };
        note(queued, who);
        before += 1;
    }
    Ok(())
}
