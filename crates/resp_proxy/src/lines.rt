//! Commands that a client sends as lines.

ghost use Rattle.std.specs.Prelude.{◌≡◌, ◌++◌, ◌∷◌, ◌≤◌, None, [], false, length, true, IfErr, IfOk, OnErr};
ghost use Rattle.resp_frames.specs.Commands.{IsCommand};
ghost use Rattle.resp_line.specs.Inline.{GoesOn};
ghost use Rattle.resp_board.specs.Runs.{KeepsOpen, KeepsRun, waiting_for};
ghost use Rattle.resp_proxy.specs.Leaving.{IsAside, part_used};
ghost use Rattle.resp_proxy.specs.Reasons.{BeginsForOwn, MovesOn, RefusesArray, inline_error};
ghost use Rattle.resp_proxy.specs.Refusing.{IsOfBytes, Refuses};
ghost use Rattle.resp_proxy.specs.Taking.{Carries, TakesLine};
ghost use Rattle.resp_proxy.specs.Unfinished.{terms_of};

use crate::carrying::carry_out;
use crate::counts::ProxyCounts;
use crate::error::ClientError;
use crate::intake::Intake;
use crate::part::Part;
use crate::route::Route;
use resp_board::Board;
use resp_frames::command_of_piece;
use resp_line::{InlineCommand, InlineError, next_inline};
use resp_value::laws::no_spelling_begins_another;
use std::alloc::{AllocError, Global};

/// Takes bytes up to the end of a line, and carries out the command of this line, unless it needs a
/// dedicated connection.
pub(crate) fn take_line(
    alloc: Global,
    intake: &Intake,
    counts: &mut ProxyCounts,
    line: &mut Vec<u8>,
    name: &mut Vec<u8>,
    board: &mut Board,
    route: Route,
    piece: &[u8],
) -> Result<Part, ClientError>
    ensures taken { (terms_of intake.now).lines ≡ true → GoesOn line.old.items piece.now →
        IfOk result (λ part. TakesLine (terms_of intake.now) route line.old.items piece.now
        line.new.items part board.old board.new) }
    ensures refused { (terms_of intake.now).lines ≡ true → GoesOn line.old.items piece.now →
        IfErr result (Refuses (terms_of intake.now) (line.old.items ++ piece.now)) }
    ensures open { (waiting_for board.old route.client ≡ None → ⊥) → IfErr result IsOfBytes }
    ensures unchanged { OnErr result (KeepsRun board.old board.new) }
    ensures progress { IfOk result MovesOn }
    ensures within { IfOk result (λ part. part_used part ≤ length piece.now) }
    ensures admitted { IfOk result (λ part. IsAside part → intake.now.admits_own ≡ true) }
    ensures same_clients { KeepsOpen board.old board.new }
{
    no_spelling_begins_another();
    let command = match next_inline(alloc, &intake.frames.limits(), line, piece) {
        Ok(Some(command)) => command,
        Ok(None) => return Ok(Part::Partial),
        Err(error) => return Err(error_of_line(error)),
    };
    let InlineCommand {
        content,
        text,
        used,
    } = command;
    let Some(text) = text else {
        return Ok(Part::Whole(used));
    };
    let taken = take_text(alloc, intake, counts, name, board, route, text.as_slice());
    let is_aside = match taken {
        Ok(is_aside) => is_aside,
        Err(error) => return Err(error),
    };
    if !is_aside {
        return Ok(Part::Whole(used));
    }
    match with_end(content) {
        Ok(line) => Ok(Part::Aside(used, line)),
        Err(AllocError) => Err(ClientError::OutOfMemory),
    }
}

/// Carries out the command with this text, unless it needs a dedicated connection and the client may
/// get one. Returns whether it does.
fn take_text(
    alloc: Global,
    intake: &Intake,
    counts: &mut ProxyCounts,
    name: &mut Vec<u8>,
    board: &mut Board,
    route: Route,
    text: &[u8],
) -> Result<bool, ClientError>
    ensures carried { IsCommand (terms_of intake.now).rules.limits text.now →
        IfOk result (λ is_aside. is_aside ≡ false →
        Carries (terms_of intake.now) route text.now board.old board.new) }
    ensures aside { IsCommand (terms_of intake.now).rules.limits text.now →
        IfOk result (λ is_aside. is_aside ≡ true →
        BeginsForOwn (terms_of intake.now).rules.limits text.now) }
    ensures admitted { IfOk result (λ is_aside. is_aside ≡ true →
        (intake.now.admits_own ≡ true) × (board.new ≡ board.old)) }
    ensures refused { IsCommand (terms_of intake.now).rules.limits text.now →
        IfErr result (RefusesArray (terms_of intake.now) text.now) }
    ensures open { (waiting_for board.old route.client ≡ None → ⊥) → IfErr result IsOfBytes }
    ensures unchanged { OnErr result (KeepsRun board.old board.new) }
    ensures same_clients { KeepsOpen board.old board.new }
{
    no_spelling_begins_another();
    let Some(command) = command_of_piece(text, &intake.frames.limits()) else {
        return Err(ClientError::OverLimits);
    };
    if intake.sets_aside(route, &command) {
        return Ok(true);
    }
    match carry_out(alloc, intake, counts, name, board, route, &command) {
        Ok(()) => Ok(false),
        Err(error) => Err(error),
    }
}

/// Returns the bytes of a line with its LF.
fn with_end(content: Vec<u8>) -> Result<Vec<u8>, AllocError>
    ensures { IfOk result (λ line. line.items ≡ content.items ++ 10 ∷ []) }
{
    let mut line = content;
    match line.push(b'\n') {
        Ok(()) => Ok(line),
        Err(_) => Err(AllocError),
    }
}

/// Returns the error for a line that is not a command.
fn error_of_line(error: InlineError) -> ClientError
    ensures { result ≡ inline_error error }
{
    match error {
        InlineError::LongLine => ClientError::LongLine,
        InlineError::Quotes => ClientError::Quotes,
        InlineError::OverLimits => ClientError::OverLimits,
        InlineError::OutOfMemory => ClientError::OutOfMemory,
    }
}
