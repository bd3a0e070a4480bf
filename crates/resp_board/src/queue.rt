//! The commands of one line, which is a connection to a server.

ghost use Rattle.std.specs.Prelude.{◌≡◌, ◌↔◌, ◌++◌, ◌+◌, ◌≤◌, ◌∷◌, [], length, take, IfSome, IsNone, OnErr, OnOk, slice_get};
ghost use Rattle.std.specs.List.{concat};
ghost use Rattle.resp_board.specs.Begun.{IsCounted};

use crate::begin::begin;
use crate::ticket::Ticket;
use bytes::BytesMut;
use std::alloc::{AllocError, Global};
use std::collections::VecDeque;

/// The commands of one line: those that wait for replies, and the bytes that wait to be sent.
///
/// The server is sent whole commands, in the order in which they were queued. The first command that
/// waits is the one that the next reply of the server is for.
#[derive(Drop)]
pub struct Queue {
    /// The tickets of the commands that wait for replies.
    waiting: VecDeque<Ticket>,
    /// The bytes that wait to be sent.
    out: BytesMut,
    /// The lengths of the commands of which no byte was sent. They are the last that wait.
    unbegun: VecDeque<usize>,
    /// The number of bytes that were not sent of the command before them.
    left: usize,
    ghost counted: { IsCounted waiting.items unbegun.items left out.items },
}

impl Queue {
    ghost use Rattle.resp_board.specs.Queues.{HasQueued, KeepsQueued, WhereQueued, begun_count, nothing_queued, texts_of, unsent_of, waiting_commands, waiting_tickets, with_answered, with_commands, with_connection, with_queued, with_sent, without_first};

    /// Returns a line without commands. Does not allocate.
    pub fn new(alloc: Global) -> Queue
        ensures { HasQueued result nothing_queued }
    {
        Queue {
            waiting: VecDeque::new(alloc),
            out: BytesMut::new(alloc),
            unbegun: VecDeque::new(alloc),
            left: 0,
        }
    }

    /// Queues a whole command, after those that were queued before.
    ///
    /// # Errors
    ///
    /// `AllocError` if an allocation fails. Nothing changes.
    pub fn push(&mut self, ticket: Ticket, text: &[u8]) -> Result<(), AllocError>
        ensures queued { OnOk result (WhereQueued self.old (λ line.
            HasQueued self.new (with_queued ticket text.now line))) }
        ensures last { OnOk result (waiting_tickets self.new ≡
            waiting_tickets self.old ++ ticket ∷ []) }
        ensures unchanged { OnErr result (KeepsQueued self.old self.new) }
    {
        self.waiting.reserve(1)?;
        self.unbegun.reserve(1)?;
        self.out.extend_from_slice(text)?;
        self.waiting.push_back_reserved(ticket);
        self.unbegun.push_back_reserved(text.len());
        Ok(())
    }

    /// Returns the ticket of the first command that waits for a reply.
    pub fn first(&self) -> Option<Ticket>
        ensures { result ≡ slice_get (waiting_tickets self.now) 0 }
    {
        self.waiting.front().copied()
    }

    /// Returns the ticket of a command that waits for a reply, by the number of commands that wait
    /// before it.
    pub fn waiting_at(&self, before: usize) -> Option<Ticket>
        ensures { result ≡ slice_get (waiting_tickets self.now) before }
    {
        self.waiting.get(before).copied()
    }

    /// Returns the number of commands that wait for replies.
    pub fn waiting(&self) -> usize
        ensures { result ≡ length (waiting_tickets self.now) }
    {
        self.waiting.len()
    }

    /// Returns the number of commands that wait for replies and of which a byte was sent over this
    /// connection. They are the first that wait.
    pub fn begun(&self) -> usize
        ensures { result ≡ begun_count self.now }
    {
        self.waiting.len() - self.unbegun.len()
    }

    /// Removes the first command that waits, because the server replied to it, and returns its
    /// ticket. Returns `None`, and changes nothing, if no byte of it was sent: a server can only
    /// reply to a command of which it was sent a byte.
    pub fn pop(&mut self) -> Option<Ticket>
        ensures first { IfSome result (λ ticket.
            waiting_tickets self.old ≡ ticket ∷ waiting_tickets self.new) }
        ensures answered { IfSome result (λ _. WhereQueued self.old (λ line.
            HasQueued self.new (with_answered line))) }
        ensures fewer { IfSome result (λ _. begun_count self.new + 1 ≡ begun_count self.old) }
        ensures none { IsNone result ↔ (begun_count self.old ≡ 0) }
        ensures unchanged { IsNone result → KeepsQueued self.old self.new }
    {
        if self.waiting.len() == self.unbegun.len() {
            return None;
        }
        self.waiting.pop_front()
    }

    /// Returns the bytes that wait to be sent to the server: with the bytes that were sent over this
    /// connection, they are the commands that were queued for it, whole and in order.
    pub fn unsent(&self) -> &[u8]
        ensures waiting { result.now ≡ unsent_of self.now }
        ensures in_order { WhereQueued self.now (λ line.
            line.sent ++ result.now ≡ concat (texts_of line.commands)) }
    {
        self.out.as_slice()
    }

    /// Removes the first `count` bytes of [`Queue::unsent`] after they were sent. `count` is at most
    /// the length of [`Queue::unsent`].
    pub fn sent(&mut self, count: usize)
        requires { count ≤ length (unsent_of self.old) }
        ensures sent { WhereQueued self.old (λ line.
            HasQueued self.new (with_sent (take count (unsent_of self.old)) line)) }
        ensures same_waiting { waiting_tickets self.new ≡ waiting_tickets self.old }
    {
        begin(&mut self.unbegun, &mut self.left, count);
        self.out.advance(count);
    }

    /// Begins anew over a new connection, over which nothing was sent. Each command that waits is
    /// sent over it, whole. No byte of them was sent over the connection before.
    pub fn reconnect(&mut self)
        requires { begun_count self.old ≡ 0 }
        ensures connected { WhereQueued self.old (λ line.
            HasQueued self.new (with_connection line)) }
        ensures same_begun { begun_count self.new ≡ begun_count self.old }
        ensures same_waiting { waiting_tickets self.new ≡ waiting_tickets self.old }
    {
        self.out.advance(self.left);
        self.left = 0;
    }

    /// Removes the first command that waits, and its bytes, and returns its ticket. Begins anew over a
    /// new connection, over which nothing was sent, for the commands after it. No byte of them and of
    /// it was sent over the connection before. Returns `None`, and changes nothing, if no command
    /// waits.
    pub fn remove_first(&mut self) -> Option<Ticket>
        requires { begun_count self.old ≡ 0 }
        ensures first { IfSome result (λ ticket.
            waiting_tickets self.old ≡ ticket ∷ waiting_tickets self.new) }
        ensures removed { IfSome result (λ _. WhereQueued self.old (λ line.
            HasQueued self.new (without_first line))) }
        ensures none { IsNone result ↔ (waiting_tickets self.old ≡ []) }
        ensures unchanged { IsNone result → KeepsQueued self.old self.new }
        ensures none_begun { begun_count self.new ≡ 0 }
    {
        let Some(length) = self.unbegun.pop_front() else {
            return None;
        };
        let Some(ticket) = self.waiting.pop_front() else {
            return None;
        };
        let rest = self.left;
        self.out.advance(rest);
        self.out.advance(length);
        self.left = 0;
        Some(ticket)
    }

    /// Moves the commands that wait to the end of another line, in order. No byte of them was sent.
    /// Begins anew over a new connection, without commands.
    ///
    /// # Errors
    ///
    /// `AllocError` if an allocation fails. Nothing changes.
    pub fn release(&mut self, to: &mut Queue) -> Result<(), AllocError>
        requires { begun_count self.old ≡ 0 }
        ensures moved { OnOk result (WhereQueued self.old (λ from. WhereQueued to.old (λ line.
            HasQueued to.new (with_commands (waiting_commands from) line)))) }
        ensures emptied { OnOk result (HasQueued self.new nothing_queued) }
        ensures unchanged { OnErr result (KeepsQueued self.old self.new) }
        ensures unchanged_to { OnErr result (KeepsQueued to.old to.new) }
    {
        to.waiting.reserve(self.waiting.len())?;
        to.unbegun.reserve(self.unbegun.len())?;
        to.out.extend_from_slice(&self.out.as_slice()[self.left..])?;
        to.waiting.append(&mut self.waiting)?;
        to.unbegun.append(&mut self.unbegun)?;
        self.out.clear();
        self.left = 0;
        Ok(())
    }
}
