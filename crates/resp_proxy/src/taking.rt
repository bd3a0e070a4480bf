//! Takes the bytes of a client.

ghost use Rattle.std.specs.Prelude.{◌≡◌, ◌↔◌, ◌++◌, ◌≤◌, List, ℕ, None, [], drop, false, length, option_map, true, IfErr, IsErrOf, IsSome, OnOk};
ghost use Rattle.resp_frames.specs.Framing.{IsReady};
ghost use Rattle.resp_board.specs.Runs.{KeepsOpen, waiting_for};
ghost use Rattle.resp_proxy.specs.Clients.{Holds, client_id, is_closing, is_leaving, route_of, waits_for_room};
ghost use Rattle.resp_proxy.specs.Leaving.{LeavesRightly, PutsBack};
ghost use Rattle.resp_proxy.specs.Refusing.{IsOfBytes};
ghost use Rattle.resp_proxy.specs.Room.{HasRoom};
ghost use Rattle.resp_proxy.specs.Taking.{IsLastAnswer, SaysLast, TakesHeld, TakesIn};
ghost use Rattle.resp_proxy.specs.Terms.{Terms};
ghost use Rattle.resp_proxy.specs.Unfinished.{terms_of};
ghost use Rattle.resp_value.specs.declared.version.Version.{Version};

use crate::answer::{none_left, ok, protocol_error};
use crate::carrying::own;
use crate::client::Client;
use crate::commands::take_commands;
use crate::counts::ProxyCounts;
use crate::error::ClientError;
use crate::intake::Intake;
use crate::route::Route;
use crate::settings::Settings;
use bytes::BytesMut;
use resp_board::Board;
use resp_frames::Unfinished;
use std::alloc::{AllocError, Global};

/// Takes the commands for which there is room from the bytes that a client holds and from a piece,
/// and holds the other bytes. After an error the client is shut.
pub(crate) fn take_in(
    alloc: Global,
    settings: &Settings,
    intake: &mut Intake,
    counts: &mut ProxyCounts,
    board: &mut Board,
    client: &mut Client,
    piece: &[u8],
) -> Result<(), ClientError>
    ensures taken { IsReady intake.old.frames → (held : List ℕ) →
        Holds (terms_of intake.old) client.old held →
        TakesIn (terms_of intake.old) (route_of client.old) (held ++ piece.now) client.new
        result board.old board.new }
    ensures closing { IsErrOf result ClientError.Closing ↔ (is_closing client.old ≡ true) }
    ensures no_client { IsErrOf result ClientError.NoClient ↔ ((is_closing client.old ≡ false) ×
        (waiting_for board.old (client_id client.old) ≡ None)) }
    ensures all { OnOk result (is_leaving client.new ≡ false →
        HasRoom settings.now board.new (route_of client.old) → waits_for_room client.new ≡ []) }
    ensures leaves { IsReady intake.old.frames → (held : List ℕ) →
        Holds (terms_of intake.old) client.old held →
        LeavesRightly (terms_of intake.old) client.old →
        LeavesRightly (terms_of intake.old) client.new }
    ensures stays { OnOk result (is_leaving client.old ≡ true → board.new ≡ board.old) }
    ensures admitted { is_leaving client.old ≡ false → is_leaving client.new ≡ true →
        intake.old.admits_own ≡ true }
    ensures same_client { route_of client.new ≡ route_of client.old }
    ensures same_clients { KeepsOpen board.old board.new }
    ensures ready { IsReady intake.old.frames → IsReady intake.new.frames }
    ensures same_terms { terms_of intake.new ≡ terms_of intake.old }
{
    let taken = take_held(alloc, settings, intake, counts, board, client, piece);
    if let Err(error) = taken {
        shut(alloc, client);
        say_last(alloc, board, client.route, error);
    }
    taken
}

/// Like `take_in`, but after an error the client is not shut.
fn take_held(
    alloc: Global,
    settings: &Settings,
    intake: &mut Intake,
    counts: &mut ProxyCounts,
    board: &mut Board,
    client: &mut Client,
    piece: &[u8],
) -> Result<(), ClientError>
    ensures taken { IsReady intake.old.frames → (held : List ℕ) →
        Holds (terms_of intake.old) client.old held →
        TakesHeld (terms_of intake.old) (route_of client.old) (held ++ piece.now) client.new
        result board.old board.new }
    ensures closing { IsErrOf result ClientError.Closing ↔ (is_closing client.old ≡ true) }
    ensures no_client { IsErrOf result ClientError.NoClient ↔ ((is_closing client.old ≡ false) ×
        (waiting_for board.old (client_id client.old) ≡ None)) }
    ensures all { OnOk result (is_leaving client.new ≡ false →
        HasRoom settings.now board.new (route_of client.old) → waits_for_room client.new ≡ []) }
    ensures leaves { IsReady intake.old.frames → (held : List ℕ) →
        Holds (terms_of intake.old) client.old held →
        LeavesRightly (terms_of intake.old) client.old →
        OnOk result (LeavesRightly (terms_of intake.old) client.new) }
    ensures stays { OnOk result (is_leaving client.old ≡ true → board.new ≡ board.old) }
    ensures admitted { is_leaving client.old ≡ false → is_leaving client.new ≡ true →
        intake.old.admits_own ≡ true }
    ensures same_client { route_of client.new ≡ route_of client.old }
    ensures same_clients { KeepsOpen board.old board.new }
    ensures ready { IsReady intake.old.frames → IsReady intake.new.frames }
    ensures same_terms { terms_of intake.new ≡ terms_of intake.old }
{
    if client.is_closing {
        return Err(ClientError::Closing);
    }
    if board.to_client(client.route.client).is_none() {
        return Err(ClientError::NoClient);
    }
    if client.is_leaving {
        return keep(client, piece);
    }
    if client.rest.is_empty() {
        take_piece(alloc, settings, intake, counts, board, client, piece)
    } else {
        take_rest(alloc, settings, intake, counts, board, client, piece)
    }
}

/// Like `take_held`, if no bytes wait for room.
fn take_piece(
    alloc: Global,
    settings: &Settings,
    intake: &mut Intake,
    counts: &mut ProxyCounts,
    board: &mut Board,
    client: &mut Client,
    piece: &[u8],
) -> Result<(), ClientError>
    requires { client.old.rest.items ≡ [] }
    ensures taken { IsReady intake.old.frames → (held : List ℕ) →
        Holds (terms_of intake.old) client.old held →
        TakesHeld (terms_of intake.old) (route_of client.old) (held ++ piece.now) client.new
        result board.old board.new }
    ensures open { IfErr result IsOfBytes }
    ensures all { OnOk result (is_leaving client.new ≡ false →
        HasRoom settings.now board.new (route_of client.old) → waits_for_room client.new ≡ []) }
    ensures leaves { IsReady intake.old.frames → (held : List ℕ) →
        Holds (terms_of intake.old) client.old held → is_leaving client.old ≡ false →
        OnOk result (LeavesRightly (terms_of intake.old) client.new) }
    ensures admitted { is_leaving client.old ≡ false → is_leaving client.new ≡ true →
        intake.old.admits_own ≡ true }
    ensures same_client { route_of client.new ≡ route_of client.old }
    ensures same_clients { KeepsOpen board.old board.new }
    ensures ready { IsReady intake.old.frames → IsReady intake.new.frames }
    ensures same_terms { terms_of intake.new ≡ terms_of intake.old }
{
    let taken = take_commands(
        alloc,
        settings,
        intake,
        counts,
        &mut client.unfinished,
        &mut client.name,
        board,
        client.route,
        piece,
    );
    if let Err(error) = taken.end {
        return Err(error);
    }
    if let Err(error) = keep(client, &piece[taken.used..]) {
        return Err(error);
    }
    put_back(alloc, client, taken.aside)
}

/// Holds bytes after those that a client already holds.
fn keep(client: &mut Client, bytes: &[u8]) -> Result<(), ClientError>
    ensures kept { OnOk result (client.new.rest.items ≡ client.old.rest.items ++ bytes.now) }
    ensures memory { IfErr result (λ error. error ≡ ClientError.OutOfMemory) }
    ensures same_leaving { is_leaving client.new ≡ is_leaving client.old }
    ensures same_unfinished { client.new.unfinished ≡ client.old.unfinished }
    ensures same_client { route_of client.new ≡ route_of client.old }
{
    match client.rest.extend_from_slice(bytes) {
        Ok(()) => Ok(()),
        Err(AllocError) => Err(ClientError::OutOfMemory),
    }
}

/// Like `take_held`, for bytes after those that wait for room.
fn take_rest(
    alloc: Global,
    settings: &Settings,
    intake: &mut Intake,
    counts: &mut ProxyCounts,
    board: &mut Board,
    client: &mut Client,
    piece: &[u8],
) -> Result<(), ClientError>
    ensures taken { IsReady intake.old.frames → (held : List ℕ) →
        Holds (terms_of intake.old) client.old held →
        TakesHeld (terms_of intake.old) (route_of client.old) (held ++ piece.now) client.new
        result board.old board.new }
    ensures open { IfErr result IsOfBytes }
    ensures all { OnOk result (is_leaving client.new ≡ false →
        HasRoom settings.now board.new (route_of client.old) → waits_for_room client.new ≡ []) }
    ensures leaves { IsReady intake.old.frames → (held : List ℕ) →
        Holds (terms_of intake.old) client.old held → is_leaving client.old ≡ false →
        OnOk result (LeavesRightly (terms_of intake.old) client.new) }
    ensures admitted { is_leaving client.old ≡ false → is_leaving client.new ≡ true →
        intake.old.admits_own ≡ true }
    ensures same_client { route_of client.new ≡ route_of client.old }
    ensures same_clients { KeepsOpen board.old board.new }
    ensures ready { IsReady intake.old.frames → IsReady intake.new.frames }
    ensures same_terms { terms_of intake.new ≡ terms_of intake.old }
{
    if let Err(error) = keep(client, piece) {
        return Err(error);
    }
    let taken = take_commands(
        alloc,
        settings,
        intake,
        counts,
        &mut client.unfinished,
        &mut client.name,
        board,
        client.route,
        client.rest.as_slice(),
    );
    remove(alloc, client, taken.used);
    if let Err(error) = taken.end {
        return Err(error);
    }
    put_back(alloc, client, taken.aside)
}

/// Puts a command that needs a dedicated connection before the bytes that the client holds.
fn put_back(alloc: Global, client: &mut Client, aside: Option<Vec<u8>>) -> Result<(), ClientError>
    ensures put { OnOk result (PutsBack (option_map (λ text. text.items) aside) client.old client.new) }
    ensures memory { IfErr result (λ error. error ≡ ClientError.OutOfMemory) }
    ensures some { is_leaving client.old ≡ false → is_leaving client.new ≡ true → IsSome aside }
    ensures same_client { route_of client.new ≡ route_of client.old }
{
    let Some(text) = aside else {
        return Ok(());
    };
    let mut bytes = BytesMut::new(alloc);
    let Ok(()) = bytes.extend_from_slice(&text) else {
        return Err(ClientError::OutOfMemory);
    };
    let Ok(()) = bytes.extend_from_slice(client.rest.as_slice()) else {
        return Err(ClientError::OutOfMemory);
    };
    client.rest = bytes;
    client.is_leaving = true;
    Ok(())
}

/// Removes the first of the bytes that wait for room. If no bytes are left, no memory is held.
fn remove(alloc: Global, client: &mut Client, count: usize)
    requires { count ≤ length client.old.rest.items }
    ensures rest { client.new.rest.items ≡ drop count client.old.rest.items }
    ensures same_leaving { is_leaving client.new ≡ is_leaving client.old }
    ensures same_unfinished { client.new.unfinished ≡ client.old.unfinished }
    ensures same_client { route_of client.new ≡ route_of client.old }
{
    if count == client.rest.len() {
        client.rest = BytesMut::new(alloc);
    } else {
        client.rest.advance(count);
    }
}

/// Takes nothing more from a client. The bytes that it holds are lost.
pub(crate) fn shut(alloc: Global, client: &mut Client)
    ensures nothing { (terms : Terms) → Holds terms client.new [] }
    ensures stays { is_leaving client.new ≡ false }
    ensures closing { is_closing client.new ≡ true }
    ensures same_client { route_of client.new ≡ route_of client.old }
{
    client.unfinished = Unfinished::new(alloc);
    client.rest = BytesMut::new(alloc);
    client.is_closing = true;
    client.is_leaving = false;
}

/// Gives a client the last reply before it is closed, if the error has a reply and memory suffices.
fn say_last(alloc: Global, board: &mut Board, route: Route, error: ClientError)
    ensures said { SaysLast route error board.old board.new }
    ensures same_clients { KeepsOpen board.old board.new }
{
    if let Some(text) = last_answer(alloc, error) {
        let _ = own(board, route.client, &text);
    }
}

/// Returns the last reply to a client that is closed because of this error, if the error has a reply
/// and memory suffices.
fn last_answer(alloc: Global, error: ClientError) -> Option<Vec<u8>>
    ensures { (version : Version) →
        IsLastAnswer version error (option_map (λ text. text.items) result) }
{
    match error {
        ClientError::Quit => ok(alloc).ok(),
        ClientError::NoneLeft(name) => none_left(alloc, name).ok(),
        ClientError::Protocol(_) => protocol_error(alloc, error).ok(),
        ClientError::Quotes => protocol_error(alloc, error).ok(),
        ClientError::LongLine => protocol_error(alloc, error).ok(),
        ClientError::OverLimits => protocol_error(alloc, error).ok(),
        _ => None,
    }
}
