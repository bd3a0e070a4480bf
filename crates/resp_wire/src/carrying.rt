//! Carrying bytes between a client and its session.

ghost use Rattle.std.specs.Prelude.{◌≡◌, ◌≤◌, ◌++◌, [], length, take, drop, replicate, false, IfSome, IfErr, OnOk};
ghost use Rattle.resp_scan.specs.declared.event.Fault.{Fault};
ghost use Rattle.resp_session.specs.Reading.{MayGoOn};
ghost use Rattle.resp_client.specs.Clients.{state_of, without_front};
ghost use Rattle.resp_client.specs.Hearing.{HasTaken, KeepsReading, Refuses, WhereTaken};
ghost use Rattle.resp_server.specs.Handling.{WhereOpen};
ghost use Rattle.resp_server.specs.Hubs.{Seat, seat_at, seated};
ghost use Rattle.resp_wire.specs.Carrying.{HasBrought, HasClosed, HearsOn, LinkGoesOn, MeetsFault, StopsCarrying};
ghost use Rattle.resp_wire.specs.Hearing.{HearsAll};
ghost use Rattle.resp_wire.specs.Links.{Carries, is_of_link};
ghost use Rattle.resp_io.specs.Turns.{stopped_by};

use crate::asked::Responses;
use crate::error::AskError;
use crate::hear::hear_piece;
use crate::link::{Direction, Link};
use resp_client::Client;
use resp_server::{Hub, HubError};
use resp_session::laws;
use resp_value::cause::Cause;
use std::hash::BuildHasher;

/// The greatest number of bytes that a link carries at once.
const PIECE: usize = 1_024;

/// Carries the first `count` bytes that wait in a client to its session, or all if fewer wait. Adds
/// the client's number to the order for each command that these bytes complete.
pub(crate) fn carry_to_server<L: Link, S: BuildHasher>(
    link: &mut L,
    client: &mut Client,
    hub: &mut Hub<S>,
    id: u64,
    order: &mut Vec<usize>,
    number: usize,
    count: u64,
) -> Result<(), Cause>
    ensures brought { L.is_honest link.old → WhereOpen hub.old id (λ s front. OnOk result
        (HasBrought hub.old hub.new id s (front ++ take count (state_of client.old).out)
        order.old.items order.new.items number)) }
    ensures refusal { L.is_honest link.old → WhereOpen hub.old id (λ s front. IfErr result
        (StopsCarrying (λ _. HasClosed hub.old id s front (state_of client.old).out)
        (L.failures link.old) (L.failures link.new))) }
    ensures sent { OnOk result (state_of client.new ≡ without_front count (state_of client.old)) }
    ensures traffic { OnOk result (Carries Direction.ToServer
        (take count (state_of client.old).out) (L.traffic link.old) (L.traffic link.new)) }
    ensures same_reading { KeepsReading client.old client.new }
    ensures link { LinkGoesOn L.is_honest L.failures link.old link.new
        (stopped_by is_of_link result) }
{
    laws::answers_go_on();
    laws::answers_are_added();
    let Ok(closing) = hub.is_closing(id) else {
        return Err(Cause::NoSession);
    };
    if closing {
        return Err(Cause::Closing);
    }
    let total = count.min(client.out().len() as u64) as usize;
    let mut into = [0; PIECE];
    let mut done = 0;
    while done < total {
        let length = (total - done).min(PIECE);
        let room = &mut into[..length];
        if let Err(cause) = give(link, client, hub, id, order, number, room) {
            return Err(cause);
        }
        done += length;
    }
    Ok(())
}

/// Carries the first `count` bytes that wait in a session to its client, or all if fewer wait. Adds
/// the replies and pushes that these bytes complete.
pub(crate) fn carry_to_client<L: Link, S: BuildHasher>(
    link: &mut L,
    client: &mut Client,
    hub: &mut Hub<S>,
    id: u64,
    heard: &mut Responses,
    count: u64,
) -> Result<(), Cause>
    ensures heard { L.is_honest link.old → IfSome (seat_at hub.old id) (λ (s : Seat).
        WhereTaken client.old (λ front. OnOk result (HearsOn (state_of client.old) client.new
        heard.old heard.new (front ++ take count s.out)))) }
    ensures refusal { L.is_honest link.old → IfSome (seat_at hub.old id) (λ (s : Seat).
        WhereTaken client.old (λ front. IfErr result (StopsCarrying (MeetsFault
        (state_of client.old) heard.old heard.new front s.out) (L.failures link.old)
        (L.failures link.new)))) }
    ensures dropped { OnOk result (IfSome (seat_at hub.old id) (λ (s : Seat).
        hub.new ≡ seated hub.old id (record s { out = drop count s.out }))) }
    ensures traffic { OnOk result (IfSome (seat_at hub.old id) (λ (s : Seat).
        Carries Direction.ToClient (take count s.out) (L.traffic link.old) (L.traffic link.new))) }
    ensures link { LinkGoesOn L.is_honest L.failures link.old link.new
        (stopped_by is_of_link result) }
{
    laws::readings_go_on();
    laws::hearing_goes_on();
    let Ok(out) = hub.out(id) else {
        return Err(Cause::NoSession);
    };
    let total = count.min(out.len() as u64) as usize;
    let mut into = [0; PIECE];
    let mut done = 0;
    while done < total {
        let length = (total - done).min(PIECE);
        let room = &mut into[..length];
        if let Err(cause) = show(link, client, hub, id, heard, room) {
            return Err(cause);
        }
        done += length;
    }
    if let Err(cause) = settle(client) {
        return Err(cause);
    }
    Ok(())
}

/// Carries the first bytes that wait in a client to its session, as many as `room` has.
fn give<L: Link, S: BuildHasher>(
    link: &mut L,
    client: &mut Client,
    hub: &mut Hub<S>,
    id: u64,
    order: &mut Vec<usize>,
    number: usize,
    room: &mut [u8],
) -> Result<(), Cause>
    requires short { length room.old ≤ 1_024 }
    requires waiting { length room.old ≤ length (state_of client.old).out }
    ensures brought { L.is_honest link.old → WhereOpen hub.old id (λ s front. OnOk result
        (HasBrought hub.old hub.new id s (front ++ take (length room.old) (state_of client.old).out)
        order.old.items order.new.items number)) }
    ensures refusal { L.is_honest link.old → WhereOpen hub.old id (λ s front. IfErr result
        (StopsCarrying (λ _. HasClosed hub.old id s front (state_of client.old).out)
        (L.failures link.old) (L.failures link.new))) }
    ensures sent { OnOk result (state_of client.new ≡
        without_front (length room.old) (state_of client.old)) }
    ensures traffic { OnOk result (Carries Direction.ToServer (take (length room.old)
        (state_of client.old).out) (L.traffic link.old) (L.traffic link.new)) }
    ensures same_reading { KeepsReading client.old client.new }
    ensures link { LinkGoesOn L.is_honest L.failures link.old link.new
        (stopped_by is_of_link result) }
{
    let length = room.len();
    if let Err(fault) = link.carry(Direction::ToServer, &client.out()[..length], room) {
        return Err(fault.cause);
    }
    let commands = match hub.bytes(id, room) {
        Ok(handled) => handled.commands,
        Err(HubError::NoSession) => return Err(Cause::NoSession),
        Err(HubError::OutOfMemory { .. }) => return Err(Cause::OutOfMemory),
    };
    client.sent(length);
    add(order, number, commands)?;
    let Ok(closing) = hub.is_closing(id) else {
        return Err(Cause::NoSession);
    };
    if closing {
        return Err(Cause::Closing);
    }
    Ok(())
}

/// Adds `commands` commands of this client to the order.
fn add(order: &mut Vec<usize>, number: usize, commands: u64) -> Result<(), Cause>
    ensures added { OnOk result (order.new.items ≡ order.old.items ++ replicate commands number) }
    ensures refusal { IfErr result (λ cause. cause ≡ Cause.OutOfMemory) }
{
    for _ in 0..commands {
        if order.push(number).is_err() {
            return Err(Cause::OutOfMemory);
        }
    }
    Ok(())
}

/// Gives a client the first bytes that wait in its session, as many as there is room for.
fn show<L: Link, S: BuildHasher>(
    link: &mut L,
    client: &mut Client,
    hub: &mut Hub<S>,
    id: u64,
    heard: &mut Responses,
    room: &mut [u8],
) -> Result<(), Cause>
    requires short { length room.old ≤ 1_024 }
    requires waiting { IfSome (seat_at hub.old id) (λ (s : Seat). length room.old ≤ length s.out) }
    ensures heard { L.is_honest link.old → IfSome (seat_at hub.old id) (λ (s : Seat).
        WhereTaken client.old (λ front. OnOk result (HearsAll (state_of client.old) client.new
        heard.old heard.new (front ++ take (length room.old) s.out)))) }
    ensures refusal { L.is_honest link.old → IfSome (seat_at hub.old id) (λ (s : Seat).
        WhereTaken client.old (λ front. IfErr result (StopsCarrying (MeetsFault
        (state_of client.old) heard.old heard.new front s.out) (L.failures link.old)
        (L.failures link.new)))) }
    ensures dropped { OnOk result (IfSome (seat_at hub.old id) (λ (s : Seat).
        hub.new ≡ seated hub.old id (record s { out = drop (length room.old) s.out }))) }
    ensures traffic { OnOk result (IfSome (seat_at hub.old id) (λ (s : Seat).
        Carries Direction.ToClient (take (length room.old) s.out) (L.traffic link.old)
        (L.traffic link.new))) }
    ensures link { LinkGoesOn L.is_honest L.failures link.old link.new
        (stopped_by is_of_link result) }
{
    let length = room.len();
    let Ok(out) = hub.out(id) else {
        return Err(Cause::NoSession);
    };
    if let Err(fault) = link.carry(Direction::ToClient, &out[..length], room) {
        return Err(fault.cause);
    }
    let Ok(()) = hub.sent(id, length) else {
        return Err(Cause::NoSession);
    };
    match hear_piece(client, room, heard) {
        Ok(()) => Ok(()),
        Err(AskError::Fault(fault)) => Err(fault.cause),
        Err(_) => Err(Cause::OutOfMemory),
    }
}

/// Checks that the bytes that a client has read of a value are viable.
fn settle(client: &mut Client) -> Result<(), Cause>
    ensures taken { WhereTaken client.old (λ front. OnOk result (HasTaken client.new front ×
        MayGoOn (state_of client.old).limits (state_of client.old).waiting front ×
        (state_of client.new ≡ state_of client.old))) }
    ensures refusal { WhereTaken client.old (λ front. IfErr result (λ cause. (fault : Fault) ×
        (fault.cause ≡ cause) × Refuses (state_of client.old) front [] fault)) }
    ensures no_link { IfErr result (λ cause. is_of_link cause ≡ false) }
{
    let _heard = match client.feed(&[]) {
        Ok(heard) => heard,
        Err(fault) => return Err(fault.cause),
    };
    Ok(())
}
