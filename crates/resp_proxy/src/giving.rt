//! Writes the bytes that wait on a board.

ghost use Rattle.std.specs.Prelude.{◌≡◌, ◌↔◌, ◌⊎◌, [], IsTrue};
ghost use Rattle.resp_board.specs.Runs.{KeepsBytes, KeepsOpen, unsent_on};
ghost use Rattle.resp_proxy.specs.Visiting.{GivesSome, HasNoCommand, HasNothingFor, SendsSome};
ghost use Rattle.resp_proxy.specs.Moving.{HasAll};
ghost use Rattle.resp_io.specs.Devices.{count_after};

use resp_board::{Board, ClientId, LineId};
use resp_io::device::{DeviceFault, Sink};

/// The result of the write of a visit.
#[derive(Clone, Copy, Debug, PartialEq, Eq)]
pub enum WriteOutcome {
    /// No bytes wait now.
    All,
    /// Bytes wait: the write failed, for example because it would block, or accepted a part.
    Some,
}

/// Writes bytes that wait for a client, with at most one write.
pub(crate) fn give<W: Sink>(board: &mut Board, who: ClientId, writer: &mut W) -> WriteOutcome
    ensures gives { GivesSome (W.written writer.old) (W.written writer.new) who board.old board.new }
    ensures all { result ≡ WriteOutcome.All → HasNothingFor board.new who }
    ensures idle { HasNothingFor board.old who → result ≡ WriteOutcome.All }
    ensures once { HasNothingFor board.old who ⊎
        (W.calls writer.new ≡ count_after 1 (W.calls writer.old)) }
    ensures same_clients { KeepsOpen board.old board.new }
{
    let Some(text) = board.to_client(who) else {
        return WriteOutcome::All;
    };
    if text.is_empty() {
        return WriteOutcome::All;
    }
    let count = match writer.write(text) {
        Ok(count) => count,
        Err(DeviceFault) => return WriteOutcome::Some,
    };
    board.given(who, count);
    left_for(board, who)
}

/// Returns whether bytes wait for a client.
fn left_for(board: &Board, who: ClientId) -> WriteOutcome
    ensures { result ≡ WriteOutcome.All → HasNothingFor board.now who }
{
    match board.to_client(who) {
        Some([]) | None => WriteOutcome::All,
        Some(_) => WriteOutcome::Some,
    }
}

/// Writes bytes that wait for the server, with at most one write.
pub(crate) fn send<W: Sink>(board: &mut Board, line: LineId, writer: &mut W) -> WriteOutcome
    ensures sends { SendsSome line.place (W.written writer.old) (W.written writer.new)
        board.old board.new }
    ensures same_bytes { KeepsBytes board.old board.new }
    ensures all { result ≡ WriteOutcome.All → unsent_on board.new line.place ≡ [] }
    ensures idle { unsent_on board.old line.place ≡ [] → result ≡ WriteOutcome.All }
    ensures once { (unsent_on board.old line.place ≡ []) ⊎
        (W.calls writer.new ≡ count_after 1 (W.calls writer.old)) }
    ensures same_clients { KeepsOpen board.old board.new }
{
    let bytes = board.to_server(line);
    if bytes.is_empty() {
        return WriteOutcome::All;
    }
    let count = match writer.write(bytes) {
        Ok(count) => count,
        Err(DeviceFault) => return WriteOutcome::Some,
    };
    board.sent(line, count);
    left_to_server(board, line)
}

/// Returns whether bytes wait for the server.
pub(crate) fn left_to_server(board: &Board, line: LineId) -> WriteOutcome
    ensures { (result ≡ WriteOutcome.All) ↔ (unsent_on board.now line.place ≡ []) }
{
    if board.to_server(line).is_empty() {
        WriteOutcome::All
    } else {
        WriteOutcome::Some
    }
}

/// Returns whether no bytes wait for a client.
pub(crate) fn has_no_bytes(board: &Board, who: ClientId) -> bool
    ensures { IsTrue result ↔ HasNothingFor board.now who }
{
    match board.to_client(who) {
        Some(text) => text.is_empty(),
        None => true,
    }
}

/// Returns whether a client is open, no command of it waits, and no bytes wait for it.
pub(crate) fn has_all(board: &Board, who: ClientId) -> bool
    ensures { IsTrue result ↔ HasAll board.now who }
{
    match (board.to_client(who), board.waiting_of(who)) {
        (Some(text), Some(count)) => text.is_empty() && count == 0,
        _ => false,
    }
}

/// Returns whether no command of a client waits.
pub(crate) fn has_no_command(board: &Board, who: ClientId) -> bool
    ensures { IsTrue result ↔ HasNoCommand board.now who }
{
    match board.waiting_of(who) {
        Some(count) => count == 0,
        None => true,
    }
}
