//! Takes replies from the bytes of the server.

ghost use Rattle.std.specs.Prelude.{◌≡◌, ◌≢◌, ◌++◌, ◌<◌, ◌≤◌, Some, [], length, slice_get, take, IfErr, IfNone, IfOk, IfSome, OnErr, OnOk};
ghost use Rattle.std.specs.Str.{byte};
ghost use Rattle.resp_board.specs.Boards.{Reply};
ghost use Rattle.resp_board.specs.Histories.{with_event};
ghost use Rattle.resp_board.specs.Runs.{HasRun, IsUnchanged, KeepsBytes, KeepsOpen, Runs, WhereRun};
ghost use Rattle.resp_frames.specs.Framing.{HasBegun, IsReady, WhereBegun, frame_rules};
ghost use Rattle.resp_frames.specs.Texts.{text_of, used_of};
ghost use Rattle.resp_proxy.specs.Probing.{KeepsStep};
ghost use Rattle.resp_proxy.specs.Rejecting.{IsNoReply, RejectsReply};
ghost use Rattle.resp_proxy.specs.Replying.{TakesReplies};
ghost use Rattle.resp_proxy.specs.Telling.{IsFor, Tells};
ghost use Rattle.resp_scan.specs.Reading.{HasNoValue, IsSpelled};

use crate::error::ServerError;
use crate::error_counts::ErrorCounts;
use crate::probing::Prober;
use crate::told::{make_room, note};
use resp_board::{Board, ClientId, LineId, ReplyError};
use resp_frames::{Begun, Frame, Frames};
use std::collections::VecDeque;

/// Gives each reply in the piece to the client of its command, queues this client, and counts the reply
/// if it is an error. Without an error it takes all bytes. It stops at a reply to a probe that is not
/// the expected one.
pub(crate) fn take_replies(
    frames: &mut Frames,
    begun: &mut Begun,
    board: &mut Board,
    line: LineId,
    queued: &mut VecDeque<ClientId>,
    prober: &Prober,
    errors: &mut ErrorCounts,
    piece: &[u8],
) -> Result<(), ServerError>
    ensures taken { WhereBegun frames.old begun.old (λ front. WhereRun board.old (λ h.
        TakesReplies (frame_rules frames.old) line.place (front ++ piece.now) begun.new result h
        board.new)) }
    ensures step { WhereBegun frames.old begun.old (λ front. WhereRun board.old (λ h.
        KeepsStep line.place prober.now.who prober.now.expected.items result board.old h
        board.new)) }
    ensures told { Tells line.place queued.old.items queued.new.items board.old board.new }
    ensures ready { IsReady frames.old → IsReady frames.new }
    ensures same_rules { frame_rules frames.new ≡ frame_rules frames.old }
    ensures same_clients { KeepsOpen board.old board.new }
{
    if !prober.is_in_step(board) {
        return Err(ServerError::OutOfStep);
    }
    let mut used = 0;
    while used < piece.len() {
        if make_room(queued).is_err() {
            return Err(ServerError::OutOfMemory);
        }
        let found = match take_reply(frames, begun, board, line, errors, &piece[used..]) {
            Ok(found) => found,
            Err(error) => return Err(error),
        };
        let Some(reply) = found else {
            return Ok(());
        };
        note(queued, reply.client);
        if !prober.stays_in_step(board, reply.client) {
            return Err(ServerError::OutOfStep);
        }
        if reply.used == 0 {
            // This never happens, since a reply has a byte. It shows that the loop ends.
            return Ok(());
        }
        used += reply.used;
    }
    Ok(())
}

/// A reply that was taken.
#[derive(Clone, Copy, Debug, PartialEq, Eq)]
pub(crate) struct Replied {
    /// The number of bytes of the piece that belong to the reply.
    pub(crate) used: usize,
    /// The client of the command. If it is closed, no client got the reply.
    pub(crate) client: ClientId,
}

/// Takes bytes that the server sent, up to the end of a value, gives this value to the client of the
/// first command that waits, and counts it if it is an error. Returns the number of bytes and the
/// client, or `None` if no value ends in the piece. Then all bytes of the piece are held.
///
/// # Errors
///
/// A [`ServerError`] if a byte was rejected, the value is a push, no command of which a byte was
/// sent is waiting, or memory ran out. No client gets the value.
pub(crate) fn take_reply(
    frames: &mut Frames,
    begun: &mut Begun,
    board: &mut Board,
    line: LineId,
    errors: &mut ErrorCounts,
    piece: &[u8],
) -> Result<Option<Replied>, ServerError>
    // The bytes that came since the last reply are a spelling, and the client gets these bytes.
    ensures answered { WhereBegun frames.old begun.old (λ front. WhereRun board.old (λ h.
        IfOk result (λ found. IfSome found (λ replied.
        IsSpelled (frame_rules frames.old) (front ++ take replied.used piece.now) ×
        HasBegun (frame_rules frames.old) begun.new [] × HasRun board.new
        (with_event (Reply line.place (front ++ take replied.used piece.now)) h))))) }
    // The command of this client waited first, and each other client has the bytes that it had.
    ensures client { IfOk result (λ found. IfSome found (λ replied.
        IsFor line.place replied.client board.old board.new)) }

    // No value has ended, and nobody gets any bytes.
    ensures more { WhereBegun frames.old begun.old (λ front. WhereRun board.old (λ h.
        IfOk result (λ found. IfNone found (HasNoValue (front ++ piece.now) ×
        HasBegun (frame_rules frames.old) begun.new (front ++ piece.now) × HasRun board.new h)))) }
    ensures nothing { IfOk result (λ found. IfNone found (KeepsBytes board.old board.new)) }
    // A push is no reply.
    ensures no_push { WhereBegun frames.old begun.old (λ front. IfOk result (λ found.
        IfSome found (λ replied.
        slice_get (front ++ take replied.used piece.now) 0 ≢ Some (byte ">")))) }
    // The error has its cause in the bytes that came since the last reply.
    ensures refused { WhereBegun frames.old begun.old (λ front. IfErr result (RejectsReply
        (frame_rules frames.old) line.place board.new (front ++ piece.now))) }
    ensures unchanged { OnErr result (IsUnchanged line.place board.old board.new) }
    // A reply that was taken has at least one byte of the piece.
    ensures progress { WhereBegun frames.old begun.old (λ front. IfOk result (λ found.
        IfSome found (λ replied. 0 < replied.used))) }
    ensures within_piece { IfOk result (λ found. IfSome found (λ replied.
        replied.used ≤ length piece.now)) }
    ensures ready { IsReady frames.old → IsReady frames.new }
    ensures same_rules { frame_rules frames.new ≡ frame_rules frames.old }
    ensures same_clients { KeepsOpen board.old board.new }
{
    let found = match frames.next(begun, piece) {
        Ok(found) => found,
        Err(error) => return Err(ServerError::Frame(error)),
    };
    let Some(frame) = found else {
        return Ok(None);
    };
    let replied = match give_reply(board, line, &frame) {
        Ok(replied) => replied,
        Err(error) => return Err(error),
    };
    errors.note(frame.text());
    Ok(Some(replied))
}

/// Gives a whole value to the client of the first command that waits.
fn give_reply(board: &mut Board, line: LineId, frame: &Frame) -> Result<Replied, ServerError>
    ensures run { OnOk result
        (Runs (Reply line.place (text_of frame.now)) board.old board.new) }
    ensures used { IfOk result (λ replied. replied.used ≡ used_of frame.now) }
    ensures client { IfOk result (λ replied.
        IsFor line.place replied.client board.old board.new) }
    ensures no_push { OnOk result (slice_get (text_of frame.now) 0 ≢ Some (byte ">")) }
    ensures refused { IfErr result (λ error.
        IsNoReply line.place board.new error (text_of frame.now)) }
    ensures unchanged { OnErr result (IsUnchanged line.place board.old board.new) }
    ensures same_clients { KeepsOpen board.old board.new }
{
    if frame.text().first() == Some(&b'>') {
        return Err(ServerError::Push);
    }
    match board.reply(line, frame.text()) {
        Ok(client) => Ok(Replied {
            used: frame.used(),
            client,
        }),
        Err(ReplyError::Unasked) => Err(ServerError::Unasked),
        Err(ReplyError::OutOfMemory) => Err(ServerError::OutOfMemory),
    }
}
