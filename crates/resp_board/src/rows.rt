//! The lines of a board.

ghost use Rattle.std.specs.Prelude.{◌≡◌, ◌≢◌, is_some, true, ◌↔◌, ◌++◌, ◌∷◌, ◌+◌, ◌<◌, ◌≤◌, [], drop, length, take, IfOk, IfSome, IsNone, OnErr, OnOk, slice_get};
ghost use Rattle.resp_board.specs.Queues.{with_answered, with_connection, with_queued, with_sent, without_first};
ghost use Rattle.resp_board.specs.Rows.{ChangesLine, KeepsLines, ReleasesLine, begun_in, tickets_in, unsent_in};

use crate::queue::Queue;
use crate::ticket::Ticket;
use std::alloc::{AllocError, Global};
use std::mem;

/// Returns the ticket of the first command that waits on a line, if a byte of it was sent.
pub(crate) fn first_begun(lines: &Vec<Queue>, line: usize) -> Option<Ticket>
    ensures first { IfSome result (λ ticket.
        slice_get (tickets_in (slice_get lines.now.items line)) 0 ≡ Some ticket) }
    ensures none { IsNone result ↔ (begun_in (slice_get lines.now.items line) ≡ 0) }
{
    match lines.get(line) {
        Some(queue) => {
            if queue.begun() == 0 {
                None
            } else {
                queue.first()
            }
        }
        None => None,
    }
}

/// Returns the ticket of the first command that waits on a line.
pub(crate) fn first(lines: &Vec<Queue>, line: usize) -> Option<Ticket>
    ensures { result ≡ slice_get (tickets_in (slice_get lines.now.items line)) 0 }
{
    match lines.get(line) {
        Some(queue) => queue.first(),
        None => None,
    }
}

/// Returns the ticket of a command that waits on a line, by the number of commands that wait before
/// it.
pub(crate) fn waiting_at(lines: &Vec<Queue>, line: usize, before: usize) -> Option<Ticket>
    ensures { result ≡ slice_get (tickets_in (slice_get lines.now.items line)) before }
{
    match lines.get(line) {
        Some(queue) => queue.waiting_at(before),
        None => None,
    }
}

/// Returns the bytes that wait to be sent over a line. There are none if there is no such line.
pub(crate) fn unsent(lines: &Vec<Queue>, line: usize) -> &[u8]
    ensures { result.now ≡ unsent_in (slice_get lines.now.items line) }
{
    match lines.get(line) {
        Some(queue) => queue.unsent(),
        None => b"",
    }
}

/// Queues a command on a line, if there is such a line.
pub(crate) fn push(
    lines: &mut Vec<Queue>,
    line: usize,
    ticket: Ticket,
    text: &[u8],
) -> Result<(), AllocError>
    ensures queued { OnOk result (ChangesLine lines.old.items lines.new.items line
        (with_queued ticket text.now)) }
    ensures unchanged { OnErr result (ChangesLine lines.old.items lines.new.items line (λ l. l)) }
{
    match lines.get_mut(line) {
        Some(queue) => queue.push(ticket, text),
        None => Ok(()),
    }
}

/// Removes the first command that waits on a line, which was replied to. A byte of it was sent.
pub(crate) fn pop(lines: &mut Vec<Queue>, line: usize)
    requires { 0 < begun_in (slice_get lines.old.items line) }
    ensures answered { ChangesLine lines.old.items lines.new.items line with_answered }
    ensures rest { tickets_in (slice_get lines.new.items line) ≡
        drop 1 (tickets_in (slice_get lines.old.items line)) }
    ensures fewer { begun_in (slice_get lines.new.items line) + 1 ≡
        begun_in (slice_get lines.old.items line) }
{
    if let Some(queue) = lines.get_mut(line) {
        let _answered = queue.pop();
    }
}

/// Removes the first `count` bytes that wait to be sent over a line.
pub(crate) fn send(lines: &mut Vec<Queue>, line: usize, count: usize)
    requires { count ≤ length (unsent_in (slice_get lines.old.items line)) }
    ensures sent { ChangesLine lines.old.items lines.new.items line
        (with_sent (take count (unsent_in (slice_get lines.old.items line)))) }
    ensures same_waiting { tickets_in (slice_get lines.new.items line) ≡
        tickets_in (slice_get lines.old.items line) }
{
    if let Some(queue) = lines.get_mut(line) {
        queue.sent(count);
    }
}

/// Begins a line anew over a new connection. No byte of the commands that wait was sent.
pub(crate) fn reconnect(lines: &mut Vec<Queue>, line: usize)
    requires { begun_in (slice_get lines.old.items line) ≡ 0 }
    ensures connected { ChangesLine lines.old.items lines.new.items line with_connection }
    ensures same_waiting { tickets_in (slice_get lines.new.items line) ≡
        tickets_in (slice_get lines.old.items line) }
    ensures same_begun { begun_in (slice_get lines.new.items line) ≡
        begun_in (slice_get lines.old.items line) }
{
    if let Some(queue) = lines.get_mut(line) {
        queue.reconnect();
    }
}

/// Removes the first command that waits on a line, which was replied to, and begins the line anew over
/// a new connection. No byte of the commands that wait was sent.
pub(crate) fn remove_first(lines: &mut Vec<Queue>, line: usize)
    requires unbegun { begun_in (slice_get lines.old.items line) ≡ 0 }
    requires some { 0 < length (tickets_in (slice_get lines.old.items line)) }
    ensures removed { ChangesLine lines.old.items lines.new.items line without_first }
    ensures rest { tickets_in (slice_get lines.new.items line) ≡
        drop 1 (tickets_in (slice_get lines.old.items line)) }
    ensures none_begun { begun_in (slice_get lines.new.items line) ≡ 0 }
{
    if let Some(queue) = lines.get_mut(line) {
        let _removed = queue.remove_first();
    }
}

/// Moves the commands that wait on a line to the end of another line, in order. No byte of them was
/// sent.
pub(crate) fn release(
    alloc: Global,
    lines: &mut Vec<Queue>,
    from: usize,
    to: usize,
) -> Result<(), AllocError>
    requires unbegun { begun_in (slice_get lines.old.items from) ≡ 0 }
    requires apart { from ≢ to }
    requires from_there { is_some (slice_get lines.old.items from) ≡ true }
    requires to_there { is_some (slice_get lines.old.items to) ≡ true }
    ensures released { OnOk result (ReleasesLine lines.old.items lines.new.items from to) }
    ensures unchanged { OnErr result (KeepsLines lines.old.items lines.new.items) }
{
    let Some(queue) = lines.get_mut(from) else {
        return Ok(());
    };
    let mut moved = mem::replace(queue, Queue::new(alloc));
    let Some(other) = lines.get_mut(to) else {
        return Ok(());
    };
    let released = moved.release(other);
    if let Some(queue) = lines.get_mut(from) {
        *queue = moved;
    }
    released
}
