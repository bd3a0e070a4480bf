//! Carries out the commands of a client.

ghost use Rattle.std.specs.Prelude.{◌≡◌, ◌↔◌, ℕ, List, None, Some, IfErr, IsTrue, OnErr, OnOk};
ghost use Rattle.resp_frames.specs.Commands.{IsFrameOfWords, TellsWords};
ghost use Rattle.resp_frames.specs.Texts.{text_of};
ghost use Rattle.resp_board.specs.Boards.{Ask, Own};
ghost use Rattle.resp_board.specs.Runs.{KeepsOpen, KeepsRun, Runs, waiting_for};
ghost use Rattle.resp_proxy.specs.Unfinished.{terms_of};
ghost use Rattle.resp_proxy.specs.OwnReplies.{Stays};
ghost use Rattle.resp_proxy.specs.Terms.{Terms};
ghost use Rattle.resp_proxy.specs.Reasons.{RefusesArray};
ghost use Rattle.resp_proxy.specs.Refusing.{IsOfBytes};
ghost use Rattle.resp_proxy.specs.Taking.{Carries};

use crate::answer::{Answer, own_answer};
use crate::counts::ProxyCounts;
use crate::error::ClientError;
use crate::intake::Intake;
use crate::local::{local_answer, may_be_answered};
use crate::route::Route;
use resp_board::{AskError, Board, ClientId, OwnError};
use resp_commands::Class;
use resp_frames::CommandFrame;
use resp_value::laws::no_spelling_begins_another;
use std::alloc::{AllocError, Global};

/// Queues a command for the server if clients may share a connection for it and the proxy has no
/// reply of its own. Otherwise the proxy itself replies.
#[inline(always)]
pub(crate) fn carry_out(
    alloc: Global,
    intake: &Intake,
    counts: &mut ProxyCounts,
    name: &mut Vec<u8>,
    board: &mut Board,
    route: Route,
    command: &CommandFrame,
) -> Result<(), ClientError>
    // A command that may not be sent is answered.
    ensures carried { (front piece : List ℕ) →
        (found : IsFrameOfWords (terms_of intake.now).rules.limits front piece command.now) →
        Stays (terms_of intake.now) route command.now.words.class found.words.name
        found.words.arguments → OnOk result (Carries (terms_of intake.now) route
        (text_of command.now.frame) board.old board.new) }
    ensures refused { (words : TellsWords (terms_of intake.now).rules.limits
        (text_of command.now.frame) command.now.words) →
        Stays (terms_of intake.now) route command.now.words.class words.name words.arguments →
        IfErr result (RefusesArray (terms_of intake.now) (text_of command.now.frame)) }
    ensures open { (waiting_for board.old route.client ≡ None → ⊥) → IfErr result IsOfBytes }
    ensures unchanged { OnErr result (KeepsRun board.old board.new) }
    ensures same_clients { KeepsOpen board.old board.new }
{
    counts.commands_by_name.add(command.words.place);
    if is_sent(command) {
        return forward(board, route, command.frame.text());
    }
    answer_or_send(alloc, intake, counts, name, board, route, command)
}

/// Like `carry_out`, after the command was counted.
#[inline(never)]
fn answer_or_send(
    alloc: Global,
    intake: &Intake,
    counts: &ProxyCounts,
    name: &mut Vec<u8>,
    board: &mut Board,
    route: Route,
    command: &CommandFrame,
) -> Result<(), ClientError>
    ensures carried { (front piece : List ℕ) →
        (found : IsFrameOfWords (terms_of intake.now).rules.limits front piece command.now) →
        Stays (terms_of intake.now) route command.now.words.class found.words.name
        found.words.arguments → OnOk result (Carries (terms_of intake.now) route
        (text_of command.now.frame) board.old board.new) }
    ensures refused { (words : TellsWords (terms_of intake.now).rules.limits
        (text_of command.now.frame) command.now.words) →
        Stays (terms_of intake.now) route command.now.words.class words.name words.arguments →
        IfErr result (RefusesArray (terms_of intake.now) (text_of command.now.frame)) }
    ensures open { (waiting_for board.old route.client ≡ None → ⊥) → IfErr result IsOfBytes }
    ensures unchanged { OnErr result (KeepsRun board.old board.new) }
    ensures same_clients { KeepsOpen board.old board.new }
{
    no_spelling_begins_another();
    if is_shared(command) {
        let limits = intake.frames.limits();
        return match local_answer(alloc, &limits, intake.local_ping, counts, board, command) {
            Ok(Some(answer)) => own(board, route.client, &answer),
            Ok(None) => forward(board, route, command.frame.text()),
            Err(AllocError) => Err(ClientError::OutOfMemory),
        };
    }
    if intake.admits(command) {
        return forward(board, route, command.frame.text());
    }
    match own_answer(alloc, &intake.frames.limits(), route, name, command) {
        Ok(Answer::Reply(answer)) => own(board, route.client, &answer),
        Ok(Answer::Quit) => Err(ClientError::Quit),
        Ok(Answer::Http) => Err(ClientError::Http),
        Ok(Answer::NoneLeft(name)) => Err(ClientError::NoneLeft(name)),
        Err(AllocError) => Err(ClientError::OutOfMemory),
    }
}

/// Returns whether a command is sent without its words being read: clients may share a connection
/// for it, and the proxy replies to no command of this name.
#[inline(always)]
fn is_sent(command: &CommandFrame) -> bool
    ensures { IsTrue result → command.now.words.class ≡ Some Class.Shared }
{
    is_shared(command) && !may_be_answered(command)
}

/// Returns whether clients may share a connection for a command.
#[inline(always)]
fn is_shared(command: &CommandFrame) -> bool
    ensures { IsTrue result ↔ (command.now.words.class ≡ Some Class.Shared) }
{
    command.words.class == Some(Class::Shared)
}

/// Queues a command for the server.
fn forward(board: &mut Board, route: Route, text: &[u8]) -> Result<(), ClientError>
    ensures run { OnOk result
        (Runs (Ask route.client route.line.place text.now) board.old board.new) }
    ensures refused { (terms : Terms) (command : List ℕ) →
        IfErr result (RefusesArray terms command) }
    ensures open { (waiting_for board.old route.client ≡ None → ⊥) → IfErr result IsOfBytes }
    ensures unchanged { OnErr result (KeepsRun board.old board.new) }
    ensures same_clients { KeepsOpen board.old board.new }
{
    match board.ask(route.client, route.line, text) {
        Ok(()) => Ok(()),
        Err(AskError::NoClient) => Err(ClientError::NoClient),
        Err(_) => Err(ClientError::OutOfMemory),
    }
}

/// Gives a client a reply of the proxy itself.
pub(crate) fn own(board: &mut Board, who: ClientId, text: &[u8]) -> Result<(), ClientError>
    ensures run { OnOk result (Runs (Own who text.now) board.old board.new) }
    ensures refused { (terms : Terms) (command : List ℕ) →
        IfErr result (RefusesArray terms command) }
    ensures open { (waiting_for board.old who ≡ None → ⊥) → IfErr result IsOfBytes }
    ensures unchanged { OnErr result (KeepsRun board.old board.new) }
    ensures same_clients { KeepsOpen board.old board.new }
{
    match board.own(who, text) {
        Ok(()) => Ok(()),
        Err(OwnError::NoClient) => Err(ClientError::NoClient),
        Err(_) => Err(ClientError::OutOfMemory),
    }
}
