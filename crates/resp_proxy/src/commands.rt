//! Takes commands from the bytes of a client.

ghost use Rattle.std.specs.Prelude.{◌≡◌, ◌++◌, ◌≤◌, None, [], drop, length, option_map, take, true, IfErr, IfOk, IsSome, OnErr, OnOk};
ghost use Rattle.resp_frames.specs.Framing.{IsReady, WhereBegun, frame_rules};
ghost use Rattle.resp_board.specs.Runs.{KeepsOpen, KeepsRun, waiting_for};
ghost use Rattle.resp_proxy.specs.Room.{HasRoom};
ghost use Rattle.resp_proxy.specs.Leaving.{IsAside, part_used};
ghost use Rattle.resp_proxy.specs.Reasons.{MovesOn};
ghost use Rattle.resp_proxy.specs.Refusing.{IsOfBytes, Refuses};
ghost use Rattle.resp_proxy.specs.Taking.{TakesArray, TakesOne, TakesSome};
ghost use Rattle.resp_proxy.specs.Unfinished.{WhereUnfinished, terms_of};

use crate::carrying::carry_out;
use crate::counts::ProxyCounts;
use crate::error::ClientError;
use crate::intake::Intake;
use crate::lines::take_line;
use crate::part::Part;
use crate::route::Route;
use crate::settings::Settings;
use resp_board::Board;
use resp_frames::{Begun, Request, Unfinished};
use std::alloc::{AllocError, Global};

/// The result of [`take_commands`].
#[derive(Drop)]
pub(crate) struct TakenCommands {
    /// The number of bytes that were taken, or that belong to the command that was put aside.
    pub(crate) used: usize,
    /// The text of the next command, an array or a line, if it needs a dedicated connection. It was
    /// not taken.
    pub(crate) aside: Option<Vec<u8>>,
    pub(crate) end: Result<(), ClientError>,
}

/// Takes commands from the piece while there is room.
///
/// # Errors
///
/// `end` is an error if the client is to be closed. The command that caused it is not carried out. The
/// whole piece counts as taken.
pub(crate) fn take_commands(
    alloc: Global,
    settings: &Settings,
    intake: &mut Intake,
    counts: &mut ProxyCounts,
    unfinished: &mut Unfinished,
    name: &mut Vec<u8>,
    board: &mut Board,
    route: Route,
    piece: &[u8],
) -> TakenCommands
    ensures taken { WhereUnfinished intake.old unfinished.old (λ front.
        TakesSome (terms_of intake.old) route (front ++ take result.used piece.now) unfinished.new
        (option_map (λ text. text.items) result.aside) result.end board.old board.new) }
    ensures within { result.used ≤ length piece.now }
    ensures open { IfErr result.end IsOfBytes }
    ensures whole { OnErr result.end (drop result.used piece.now ≡ []) }
    // If there is room for more, all bytes were taken.
    ensures all { OnOk result.end (result.aside ≡ None → HasRoom settings.now board.new route →
        result.used ≡ length piece.now) }
    ensures admitted { IsSome result.aside → intake.old.admits_own ≡ true }
    ensures same_clients { KeepsOpen board.old board.new }
    ensures ready { IsReady intake.old.frames → IsReady intake.new.frames }
    ensures same_terms { terms_of intake.new ≡ terms_of intake.old }
    ensures same_own { intake.new.admits_own ≡ intake.old.admits_own }
{
    let mut used = 0;
    while used < piece.len() && settings.has_room(board, route) {
        match take_one(
            alloc,
            intake,
            counts,
            unfinished,
            name,
            board,
            route,
            &piece[used..],
        ) {
            // This never happens, since a part has a byte. It shows that the loop ends.
            Ok(Part::Whole(0)) => return ended(piece.len(), Ok(())),
            Ok(Part::Whole(count)) => used += count,
            Ok(Part::Partial) => return ended(piece.len(), Ok(())),
            Ok(Part::Aside(count, text)) => {
                return TakenCommands {
                    used: used + count,
                    aside: Some(text),
                    end: Ok(()),
                };
            }
            Err(error) => return ended(piece.len(), Err(error)),
        }
    }
    ended(used, Ok(()))
}

/// Returns the result if no command was put aside.
fn ended(used: usize, end: Result<(), ClientError>) -> TakenCommands
    ensures { result ≡ record { used = used; aside = None; end = end } }
{
    TakenCommands {
        used,
        aside: None,
        end,
    }
}

/// Takes bytes up to the end of a command, and carries this command out, unless it needs a
/// dedicated connection.
fn take_one(
    alloc: Global,
    intake: &mut Intake,
    counts: &mut ProxyCounts,
    unfinished: &mut Unfinished,
    name: &mut Vec<u8>,
    board: &mut Board,
    route: Route,
    piece: &[u8],
) -> Result<Part, ClientError>
    ensures taken { WhereUnfinished intake.old unfinished.old (λ front. IfOk result (λ part.
        TakesOne (terms_of intake.old) route front piece.now unfinished.new part board.old board.new)) }
    ensures refused { WhereUnfinished intake.old unfinished.old (λ front.
        IfErr result (Refuses (terms_of intake.old) (front ++ piece.now))) }
    ensures open { (waiting_for board.old route.client ≡ None → ⊥) → IfErr result IsOfBytes }
    ensures progress { WhereUnfinished intake.old unfinished.old (λ front. IfOk result MovesOn) }
    ensures unchanged { OnErr result (KeepsRun board.old board.new) }
    ensures within { IfOk result (λ part. part_used part ≤ length piece.now) }
    ensures admitted { IfOk result (λ part. IsAside part → intake.old.admits_own ≡ true) }
    ensures same_clients { KeepsOpen board.old board.new }
    ensures ready { IsReady intake.old.frames → IsReady intake.new.frames }
    ensures same_terms { terms_of intake.new ≡ terms_of intake.old }
    ensures same_own { intake.new.admits_own ≡ intake.old.admits_own }
{
    if unfinished.is_line(intake.lines, piece) {
        take_line(
            alloc,
            intake,
            counts,
            &mut unfinished.line,
            name,
            board,
            route,
            piece,
        )
    } else {
        take_array(
            alloc,
            intake,
            counts,
            &mut unfinished.begun,
            name,
            board,
            route,
            piece,
        )
    }
}

/// Takes bytes up to the end of an array, and carries out the command that it is, unless it needs a
/// dedicated connection.
fn take_array(
    alloc: Global,
    intake: &mut Intake,
    counts: &mut ProxyCounts,
    begun: &mut Begun,
    name: &mut Vec<u8>,
    board: &mut Board,
    route: Route,
    piece: &[u8],
) -> Result<Part, ClientError>
    ensures taken { WhereBegun intake.old.frames begun.old (λ front. IfOk result (λ part.
        TakesArray (terms_of intake.old) route front piece.now begun.new part board.old board.new)) }
    ensures refused { WhereBegun intake.old.frames begun.old (λ front.
        IfErr result (Refuses (terms_of intake.old) (front ++ piece.now))) }
    ensures open { (waiting_for board.old route.client ≡ None → ⊥) → IfErr result IsOfBytes }
    ensures progress { WhereBegun intake.old.frames begun.old (λ front. IfOk result MovesOn) }
    ensures unchanged { OnErr result (KeepsRun board.old board.new) }
    ensures within { IfOk result (λ part. part_used part ≤ length piece.now) }
    ensures admitted { IfOk result (λ part. IsAside part → intake.old.admits_own ≡ true) }
    ensures same_clients { KeepsOpen board.old board.new }
    ensures ready { IsReady intake.old.frames → IsReady intake.new.frames }
    ensures same_terms { terms_of intake.new ≡ terms_of intake.old }
    ensures same_own { intake.new.admits_own ≡ intake.old.admits_own }
{
    let found = match intake.frames.next_request(begun, piece) {
        Ok(found) => found,
        Err(error) => return Err(ClientError::Protocol(error)),
    };
    let command = match found {
        Some(Request::Command(command)) => command,
        Some(Request::Empty(used)) => return Ok(Part::Whole(used)),
        None => return Ok(Part::Partial),
    };
    let used = command.frame.used();
    if intake.sets_aside(route, &command) {
        return match command.frame.text().to_vec(alloc) {
            Ok(text) => Ok(Part::Aside(used, text)),
            Err(AllocError) => Err(ClientError::OutOfMemory),
        };
    }
    match carry_out(alloc, intake, counts, name, board, route, &command) {
        Ok(()) => Ok(Part::Whole(used)),
        Err(error) => Err(error),
    }
}
