//! The places of the open clients.

ghost use Rattle.std.specs.Prelude.{◌≡◌, ◌↔◌, ◌++◌, ◌∷◌, ◌≤◌, None, Some, [], length, take, unwrap_or, IfOk, IfSome, IsErrOf, IsSomeAnd, OnErr, OnOk, slice_set};
ghost use Rattle.std.specs.Option.{option_map};
ghost use Rattle.resp_board.specs.Desks.{Awaits, HasNoNumberLeft, out_of};
ghost use Rattle.resp_board.specs.Seats.{ChangesSeat, ClosesSeat, OpensSeat, SameBytes, bytes_in, desk_in};

use crate::desk::{Desk, DeskError};
use crate::seat::Seat;
use crate::ticket::{ClientId, Ticket};
use slab::Slab;
use std::alloc::{AllocError, Global};

/// Returns the desk of the client of this id, if it is open.
pub(crate) fn find(clients: &Slab<Seat>, who: ClientId) -> Option<&Desk>
    ensures { option_map (λ desk. desk.now) result ≡ desk_in clients.now.slots who }
{
    match clients.get(who.place) {
        Some(seat) => {
            if who.number == seat.number {
                Some(&seat.desk)
            } else {
                None
            }
        }
        None => None,
    }
}

/// Opens a client with this number.
pub(crate) fn open(
    alloc: Global,
    clients: &mut Slab<Seat>,
    number: u64,
) -> Result<ClientId, AllocError>
    ensures number { IfOk result (λ who. who.number ≡ number) }
    ensures opened { IfOk result (λ who. OpensSeat clients.old.slots clients.new.slots who) }
    ensures unchanged { OnErr result (clients.new.slots ≡ clients.old.slots) }
{
    let desk = Desk::new(alloc);
    let Ok(place) = clients.insert(Seat { number, desk }) else {
        return Err(AllocError);
    };
    Ok(ClientId { place, number })
}

/// Adds a command of a client, if it is open. A number is left for it.
pub(crate) fn ask(clients: &mut Slab<Seat>, who: ClientId)
    requires { IfSome (desk_in clients.old.slots who) (λ desk. HasNoNumberLeft desk → ⊥) }
    ensures { ChangesSeat clients.old.slots clients.new.slots who
        (λ answers. answers ++ None ∷ []) (λ given. given) }
{
    let Some(seat) = clients.get_mut(who.place) else {
        return;
    };
    if who.number != seat.number {
        return;
    }
    let _number = seat.desk.ask();
}

/// Adds a command of a client with this reply, if the client is open.
pub(crate) fn own(clients: &mut Slab<Seat>, who: ClientId, text: &[u8]) -> Result<(), DeskError>
    ensures answered { OnOk result (ChangesSeat clients.old.slots clients.new.slots who
        (λ answers. answers ++ Some text.now ∷ []) (λ given. given)) }
    ensures too_many { IsErrOf result DeskError.TooMany ↔
        IsSomeAnd (desk_in clients.old.slots who) HasNoNumberLeft }
    ensures unchanged { OnErr result (ChangesSeat clients.old.slots clients.new.slots who
        (λ answers. answers) (λ given. given)) }
{
    let Some(seat) = clients.get_mut(who.place) else {
        return Ok(());
    };
    if who.number != seat.number {
        return Ok(());
    }
    seat.desk.own(text)
}

/// Takes the reply to the command of this ticket, if its client is open.
pub(crate) fn answer(
    clients: &mut Slab<Seat>,
    ticket: Ticket,
    text: &[u8],
) -> Result<(), AllocError>
    requires { IfSome (desk_in clients.old.slots ticket.client) (λ desk.
        Awaits desk ticket.number) }
    ensures answered { OnOk result (ChangesSeat clients.old.slots clients.new.slots ticket.client
        (λ answers. slice_set answers ticket.number (Some text.now)) (λ given. given)) }
    ensures unchanged { OnErr result (ChangesSeat clients.old.slots clients.new.slots ticket.client
        (λ answers. answers) (λ given. given)) }
    ensures same_bytes { OnErr result (SameBytes clients.old.slots clients.new.slots) }
{
    let Some(seat) = clients.get_mut(ticket.client.place) else {
        return Ok(());
    };
    if ticket.client.number != seat.number {
        return Ok(());
    }
    seat.desk.answer(ticket.number, text)
}

/// Removes the first `count` bytes that wait for a client, if it is open.
pub(crate) fn remove(clients: &mut Slab<Seat>, who: ClientId, count: usize)
    requires { IfSome (desk_in clients.old.slots who) (λ desk. count ≤ length (out_of desk)) }
    ensures { ChangesSeat clients.old.slots clients.new.slots who (λ answers. answers)
        (λ given. given ++ take count (unwrap_or (bytes_in clients.old.slots who) [])) }
{
    let Some(seat) = clients.get_mut(who.place) else {
        return;
    };
    if who.number != seat.number {
        return;
    }
    seat.desk.given(count);
}

/// Closes a client, if it is open.
pub(crate) fn close(clients: &mut Slab<Seat>, who: ClientId)
    ensures { ClosesSeat clients.old.slots clients.new.slots who }
{
    let Some(seat) = clients.get(who.place) else {
        return;
    };
    if who.number != seat.number {
        return;
    }
    let _closed = clients.try_remove(who.place);
}
