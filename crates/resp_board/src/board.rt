//! Many clients over many lines.

ghost use Rattle.std.specs.Prelude.{ℕ, ◌≡◌, ◌↔◌, ◌⊎◌, ◌++◌, ◌+◌, ◌<◌, ◌≤◌, ◌∷◌, [], None, false, true, drop, length, take, IfOk, IfSome, IsErrOf, OnErr, OnOk, slice_get};
ghost use Rattle.std.specs.List.{concat};
ghost use Rattle.std.specs.Option.{option_map};
ghost use Rattle.resp_board.specs.Boards.{Ask, Fail, Lose, Own, Release, Reply};
ghost use Rattle.resp_board.specs.Histories.{board_of, due_on, nothing_happened, texts_on, with_bytes, with_given};
ghost use Rattle.resp_board.specs.Answers.{front_answers};
ghost use Rattle.resp_board.specs.Joins.{StandsSomehow};
ghost use Rattle.resp_board.specs.Tickets.{answers_for};

use crate::bounds::Bounds;
use crate::desk::DeskError;
use crate::error::{AskError, OpenError, OwnError, ReleaseError, ReplyError};
use crate::queue::Queue;
use crate::seat::Seat;
use crate::ticket::{ClientId, LineId, Ticket};
use crate::{clients, rows};
use slab::Slab;
use std::alloc::{AllocError, Global};

/// The greatest number of a client.
const MOST_CLIENTS: u64 = 9_223_372_036_854_775_807;

/// Many clients over many lines, which are connections to servers.
///
/// A client gets only the replies to its own commands, in order, up to the first missing reply. A
/// line is sent whole commands, and those of each client in their order. A reply is the text of a
/// reply of a server, or the text of [`Board::own`], [`Board::lose`] or [`Board::fail`].
///
/// This holds if the server of a line replies to the commands of a connection one by one, in order,
/// and each reply is one call of [`Board::reply`].
///
/// Each call takes constant time, except that it copies the bytes that it is given, that
/// [`Board::lose`], [`Board::fail`] and [`Board::release`] visit each command that they reply to or
/// move, and that [`Board::sent`] visits each command that the bytes begin.
#[derive(Drop)]
pub struct Board {
    alloc: Global,
    bounds: Bounds,
    clients: Slab<Seat>,
    /// The number of the client that was opened last.
    last: u64,
    lines: Vec<Queue>,
    ghost run: { StandsSomehow clients.slots lines.items last },
}

impl Board {
    ghost use Rattle.resp_board.specs.Runs.{ClientIsFull, HasAnswered, HasAnsweredSome, HasBegun, HasClosed, HasFailedSome, HasLostSome, HasNoCommandLeft, HasNoIdLeft, HasOneFewerBegun, HasOpened, HasOpenedLine, HasRun, HasRunSome, IsUnchanged, KeepsBytes, KeepsOpen, KeepsOthers, KeepsRun, LacksLine, LacksLines, LineIsFull, LineOverflows, Runs, WhereRun, begun_on, bounds_of, clients_on, has_line, open_count, opened_count, unsent_on, waiting_count, waiting_for, waiting_on};

    /// Returns a board without clients and lines. Does not allocate.
    pub fn new(alloc: Global, bounds: Bounds) -> Board
        ensures run { HasRun result nothing_happened }
        ensures no_client { (who : ClientId) → waiting_for result who ≡ None }
        ensures no_line { (line : ℕ) → has_line result line ≡ false }
        ensures bounds { bounds_of result ≡ bounds }
    {
        Board {
            alloc,
            bounds,
            clients: Slab::new(alloc),
            last: 0,
            lines: Vec::new(alloc),
        }
    }

    /// Opens a client, and returns its id. No client had this id before.
    ///
    /// # Errors
    ///
    /// `TooMany` if 2^63 - 1 clients were opened, and otherwise `OutOfMemory` if an allocation
    /// fails. Nothing changes.
    pub fn open(&mut self) -> Result<ClientId, OpenError>
        ensures opened { IfOk result (HasOpened self.old self.new) }
        ensures run { KeepsRun self.old self.new }
        ensures too_many { IsErrOf result OpenError.TooMany ↔ HasNoIdLeft self.old }
        ensures unchanged { OnErr result (KeepsOpen self.old self.new) }
    {
        if self.last >= MOST_CLIENTS {
            return Err(OpenError::TooMany);
        }
        let number = self.last + 1;
        let Ok(who) = clients::open(self.alloc, &mut self.clients, number) else {
            return Err(OpenError::OutOfMemory);
        };
        self.last = number;
        Ok(who)
    }

    /// Opens a line, and returns its id.
    ///
    /// # Errors
    ///
    /// `AllocError` if an allocation fails. Nothing changes.
    pub fn open_line(&mut self) -> Result<LineId, AllocError>
        ensures opened { IfOk result (λ line. HasOpenedLine self.old self.new line.place) }
        ensures run { KeepsRun self.old self.new }
        ensures unchanged { OnErr result (KeepsOpen self.old self.new) }
    {
        let place = self.lines.len();
        self.lines.push(Queue::new(self.alloc))?;
        Ok(LineId { place })
    }

    /// Queues a whole command of a client on a line, after those that were queued before.
    ///
    /// # Errors
    ///
    /// `NoClient` if no client with this id is open; otherwise `ClientFull` if as many of its commands
    /// wait as [`Bounds::waiting`] allows; otherwise `TooMany` if the client has had 2^64 - 1
    /// commands; otherwise `NoLine` if there is no such line, or `LineFull` if with this command more
    /// bytes would wait there than [`Bounds::unsent`] allows; otherwise `OutOfMemory` if an allocation
    /// fails. Nothing changes.
    pub fn ask(&mut self, who: ClientId, line: LineId, text: &[u8]) -> Result<(), AskError>
        ensures run { OnOk result (Runs (Ask who line.place text.now) self.old self.new) }
        ensures no_client { IsErrOf result AskError.NoClient ↔ (waiting_for self.old who ≡ None) }
        ensures client_full { IsErrOf result AskError.ClientFull ↔ ClientIsFull self.old who }
        ensures too_many { IsErrOf result AskError.TooMany ↔ HasNoCommandLeft self.old who }
        ensures no_line { IsErrOf result AskError.NoLine ↔ LacksLine self.old who line.place }
        ensures line_full { IsErrOf result AskError.LineFull ↔
            LineIsFull self.old who line.place text.now }
        ensures same_open { KeepsOpen self.old self.new }
        ensures unchanged { OnErr result (KeepsRun self.old self.new) }
    {
        let Some(desk) = clients::find(&self.clients, who) else {
            return Err(AskError::NoClient);
        };
        if desk.waiting() >= self.bounds.waiting {
            return Err(AskError::ClientFull);
        }
        let Ok(number) = desk.next_number() else {
            return Err(AskError::TooMany);
        };
        if line.place >= self.lines.len() {
            return Err(AskError::NoLine);
        }
        if !self.line_admits(line, text.len()) {
            return Err(AskError::LineFull);
        }
        let ticket = Ticket {
            client: who,
            number,
            part: 0,
        };
        let Ok(()) = rows::push(&mut self.lines, line.place, ticket, text) else {
            return Err(AskError::OutOfMemory);
        };
        clients::ask(&mut self.clients, who);
        Ok(())
    }

    /// Returns whether a command of this length may be queued on a line.
    fn line_admits(&self, line: LineId, length: usize) -> bool
        ensures { (result ≡ false) ↔ LineOverflows self.now line.place length }
    {
        let unsent = rows::unsent(&self.lines, line.place).len();
        unsent == 0 || (unsent <= self.bounds.unsent && length <= self.bounds.unsent - unsent)
    }

    /// Gives a client a reply of the proxy itself to a command. The reply waits until all earlier
    /// commands of the client have their replies.
    ///
    /// # Errors
    ///
    /// `NoClient` if no client with this id is open; otherwise `ClientFull` if as many of its commands
    /// wait as [`Bounds::waiting`] allows; otherwise `TooMany` if the client has had 2^64 - 1
    /// commands; otherwise `OutOfMemory` if an allocation fails. Nothing changes.
    pub fn own(&mut self, who: ClientId, text: &[u8]) -> Result<(), OwnError>
        ensures run { OnOk result (Runs (Own who text.now) self.old self.new) }
        ensures no_client { IsErrOf result OwnError.NoClient ↔ (waiting_for self.old who ≡ None) }
        ensures client_full { IsErrOf result OwnError.ClientFull ↔ ClientIsFull self.old who }
        ensures too_many { IsErrOf result OwnError.TooMany ↔ HasNoCommandLeft self.old who }
        ensures same_open { KeepsOpen self.old self.new }
        ensures unchanged { OnErr result (KeepsRun self.old self.new) }
    {
        let Some(desk) = clients::find(&self.clients, who) else {
            return Err(OwnError::NoClient);
        };
        let full = desk.waiting() >= self.bounds.waiting;
        if full {
            return Err(OwnError::ClientFull);
        }
        match clients::own(&mut self.clients, who, text) {
            Ok(()) => Ok(()),
            Err(DeskError::TooMany) => Err(OwnError::TooMany),
            Err(DeskError::OutOfMemory) => Err(OwnError::OutOfMemory),
        }
    }

    /// Gives a reply of the server of a line to the client of the first command that waits there,
    /// and returns that client. If the client is closed, no client gets the reply. A server can only
    /// reply to a command of which a byte was sent.
    ///
    /// # Errors
    ///
    /// `Unasked` if no command of which a byte was sent waits on the line, and otherwise
    /// `OutOfMemory` if an allocation fails. Nothing changes. After `OutOfMemory` close the client
    /// that [`Board::next_client`] returns, and try again.
    pub fn reply(&mut self, line: LineId, text: &[u8]) -> Result<ClientId, ReplyError>
        ensures owner { IfOk result (λ who. clients_on self.old line.place ≡
            who ∷ clients_on self.new line.place) }
        ensures run { OnOk result (Runs (Reply line.place text.now) self.old self.new) }
        ensures unasked { IsErrOf result ReplyError.Unasked ↔ (begun_on self.old line.place ≡ 0) }
        ensures unchanged { OnErr result (IsUnchanged line.place self.old self.new) }
        ensures others { IfOk result (λ who. KeepsOthers who self.old self.new) }
        ensures fewer { OnOk result (HasOneFewerBegun line.place self.old self.new) }
        ensures same_open { KeepsOpen self.old self.new }
    {
        let Some(ticket) = rows::first_begun(&self.lines, line.place) else {
            return Err(ReplyError::Unasked);
        };
        let Ok(()) = clients::answer(&mut self.clients, ticket, text) else {
            return Err(ReplyError::OutOfMemory);
        };
        rows::pop(&mut self.lines, line.place);
        Ok(ticket.client)
    }

    /// Replies with this text to each command that waits on a line and of which a byte was sent,
    /// because its connection was lost. The others wait for a new connection: [`Board::to_server`]
    /// returns these commands, whole and in order.
    ///
    /// # Errors
    ///
    /// `AllocError` if an allocation fails. The first of these commands may have their replies, and
    /// the others still wait, so close the client that [`Board::next_client`] returns, and try again.
    pub fn lose(&mut self, line: LineId, text: &[u8]) -> Result<(), AllocError>
        ensures run { OnOk result (Runs (Lose line.place (begun_on self.old line.place) text.now)
            self.old self.new) }
        ensures some_answered { OnErr result (HasAnsweredSome line.place text.now
            self.old self.new) }
        ensures answered { HasAnswered line.place (begun_on self.old line.place)
            self.old self.new }
        ensures none_begun { OnOk result (begun_on self.new line.place ≡ 0) }
        ensures same_open { KeepsOpen self.old self.new }
    {
        self.reply_to_begun(line, text)?;
        rows::reconnect(&mut self.lines, line.place);
        Ok(())
    }

    /// Replies with this text to each command that waits on a line and of which a byte was sent.
    fn reply_to_begun(&mut self, line: LineId, text: &[u8]) -> Result<(), AllocError>
        ensures some_answered { HasAnsweredSome line.place text.now self.old self.new }
        ensures answered { HasAnswered line.place (begun_on self.old line.place)
            self.old self.new }
        ensures all { OnOk result (begun_on self.new line.place ≡ 0) }
        ensures same_open { KeepsOpen self.old self.new }
    {
        while self.begun(line) > 0 {
            let Ok(_) = self.reply(line, text) else {
                return Err(AllocError);
            };
        }
        Ok(())
    }

    /// Replies with this text to each command that waits on a line, because it has no connection.
    ///
    /// # Errors
    ///
    /// `AllocError` if an allocation fails. The first of these commands may have their replies, and
    /// the others still wait, so close the client that [`Board::next_client`] returns, and try again.
    pub fn fail(&mut self, line: LineId, text: &[u8]) -> Result<(), AllocError>
        ensures run { OnOk result (Runs (Fail line.place text.now) self.old self.new) }
        ensures some_answered { OnErr result (HasAnsweredSome line.place text.now self.old self.new ⊎
            HasLostSome line.place text.now self.old self.new) }
        ensures answered { HasAnswered line.place (length (waiting_on self.old line.place))
            self.old self.new }
        ensures none_waits { OnOk result (waiting_on self.new line.place ≡ []) }
        ensures same_open { KeepsOpen self.old self.new }
    {
        self.lose(line, text)?;
        self.reply_to_unbegun(line, text)
    }

    /// Replies with this text to each command that waits on a line. No byte of them was sent.
    fn reply_to_unbegun(&mut self, line: LineId, text: &[u8]) -> Result<(), AllocError>
        requires { begun_on self.old line.place ≡ 0 }
        ensures some_failed { HasFailedSome line.place text.now self.old self.new }
        ensures answered { HasAnswered line.place (length (waiting_on self.old line.place))
            self.old self.new }
        ensures none_waits { OnOk result (waiting_on self.new line.place ≡ []) }
        ensures same_open { KeepsOpen self.old self.new }
    {
        while self.waiting(line) > 0 {
            self.fail_first(line, text)?;
        }
        Ok(())
    }

    /// Replies with this text to the first command that waits on a line. No byte of it was sent.
    fn fail_first(&mut self, line: LineId, text: &[u8]) -> Result<(), AllocError>
        requires unbegun { begun_on self.old line.place ≡ 0 }
        requires some { 0 < length (waiting_on self.old line.place) }
        ensures run { OnOk result (Runs (Lose line.place 1 text.now) self.old self.new) }
        ensures rest { OnOk result (waiting_on self.new line.place ≡
            drop 1 (waiting_on self.old line.place)) }
        ensures answered { OnOk result (HasAnswered line.place 1 self.old self.new) }
        ensures unchanged { OnErr result (IsUnchanged line.place self.old self.new) }
        ensures none_begun { begun_on self.new line.place ≡ 0 }
        ensures same_open { KeepsOpen self.old self.new }
    {
        if let Some(ticket) = rows::first(&self.lines, line.place) {
            clients::answer(&mut self.clients, ticket, text)?;
            rows::remove_first(&mut self.lines, line.place);
        }
        Ok(())
    }

    /// Moves the commands that wait on a line without a connection to the end of another line, in
    /// order. No byte of them was sent. [`Board::to_server`] returns them for the other line, whole.
    /// They may be more than [`Bounds::unsent`] allows.
    ///
    /// # Errors
    ///
    /// `NoLine` if one of the lines does not exist, or they are the same; otherwise `Begun` if a byte
    /// of a command that waits on the first line was sent; otherwise `OutOfMemory` if an allocation
    /// fails. Nothing changes.
    pub fn release(&mut self, from: LineId, to: LineId) -> Result<(), ReleaseError>
        ensures run { OnOk result (Runs (Release from.place to.place) self.old self.new) }
        ensures no_line { IsErrOf result ReleaseError.NoLine ↔
            LacksLines self.old from.place to.place }
        ensures begun { IsErrOf result ReleaseError.Begun ↔
            HasBegun self.old from.place to.place }
        ensures same_open { KeepsOpen self.old self.new }
        ensures unchanged { OnErr result (KeepsRun self.old self.new) }
    {
        let count = self.lines.len();
        if from.place == to.place || from.place >= count || to.place >= count {
            return Err(ReleaseError::NoLine);
        }
        if self.begun(from) > 0 {
            return Err(ReleaseError::Begun);
        }
        let Ok(()) = rows::release(self.alloc, &mut self.lines, from.place, to.place) else {
            return Err(ReleaseError::OutOfMemory);
        };
        Ok(())
    }

    /// Returns the client of the first command that waits on a line.
    pub fn next_client(&self, line: LineId) -> Option<ClientId>
        ensures { result ≡ slice_get (clients_on self.now line.place) 0 }
    {
        match rows::first(&self.lines, line.place) {
            Some(ticket) => Some(ticket.client),
            None => None,
        }
    }

    /// Returns the client of a command that waits on a line, by the number of commands that wait
    /// there before it, or `None` if no more commands wait.
    pub fn waiting_client(&self, line: LineId, before: usize) -> Option<ClientId>
        ensures { result ≡ slice_get (clients_on self.now line.place) before }
    {
        match rows::waiting_at(&self.lines, line.place, before) {
            Some(ticket) => Some(ticket.client),
            None => None,
        }
    }

    /// Returns the number of commands that wait on a line.
    pub fn waiting(&self, line: LineId) -> usize
        ensures { result ≡ length (waiting_on self.now line.place) }
    {
        match self.lines.get(line.place) {
            Some(queue) => queue.waiting(),
            None => 0,
        }
    }

    /// Returns the number of commands that wait on a line and of which a byte was sent over this
    /// connection. They are the first that wait.
    pub fn begun(&self, line: LineId) -> usize
        ensures { result ≡ begun_on self.now line.place }
    {
        match self.lines.get(line.place) {
            Some(queue) => queue.begun(),
            None => 0,
        }
    }

    /// Returns the bytes that wait to be sent over a line: with the bytes that were sent over its
    /// connection, they are the commands that were queued for it, whole and in order.
    pub fn to_server(&self, line: LineId) -> &[u8]
        ensures waiting { result.now ≡ unsent_on self.now line.place }
        ensures in_order { WhereRun self.now (λ h.
            h.sent line.place ++ result.now ≡ concat (texts_on line.place (board_of h))) }
        ensures some { HasRunSome self.now }
    {
        rows::unsent(&self.lines, line.place)
    }

    /// Removes the first `count` bytes of [`Board::to_server`] after they were sent. `count` is at
    /// most the length of [`Board::to_server`].
    pub fn sent(&mut self, line: LineId, count: usize)
        requires { count ≤ length (unsent_on self.old line.place) }
        ensures run { WhereRun self.old (λ h. HasRun self.new
            (with_bytes line.place (take count (unsent_on self.old line.place)) h)) }
        ensures same_waiting { waiting_on self.new line.place ≡ waiting_on self.old line.place }
        ensures same_bytes { KeepsBytes self.old self.new }
        ensures same_open { KeepsOpen self.old self.new }
    {
        rows::send(&mut self.lines, line.place, count);
    }

    /// Returns the bytes that wait to be given to a client, or `None` if it is not open. With the
    /// bytes that it was given, they are the replies to its own commands in order, up to the first
    /// missing reply.
    pub fn to_client(&self, who: ClientId) -> Option<&[u8]>
        ensures waiting { option_map (λ text. text.now) result ≡ waiting_for self.now who }
        ensures due { WhereRun self.now (λ h. IfSome result (λ text.
            h.given who ++ text.now ≡ due_on who (board_of h))) }
        ensures some { HasRunSome self.now }
    {
        match clients::find(&self.clients, who) {
            Some(desk) => Some(desk.out()),
            None => None,
        }
    }

    /// Removes the first `count` bytes of [`Board::to_client`] after the client was given them.
    /// `count` is at most the length of [`Board::to_client`]. Nothing changes if the client is not
    /// open.
    pub fn given(&mut self, who: ClientId, count: usize)
        requires { IfSome (waiting_for self.old who) (λ text. count ≤ length text) }
        ensures run { WhereRun self.old (λ h. IfSome (waiting_for self.old who) (λ text.
            HasRun self.new (with_given who (take count text) h))) }
        ensures not_open { waiting_for self.old who ≡ None → KeepsRun self.old self.new }
        ensures same_open { KeepsOpen self.old self.new }
    {
        clients::remove(&mut self.clients, who, count);
    }

    /// Returns the number of a client's commands from the first one without a reply on, or `None` if
    /// it is not open.
    pub fn waiting_of(&self, who: ClientId) -> Option<u64>
        ensures waiting { result ≡ waiting_count self.now who }
        ensures unanswered { WhereRun self.now (λ h. IfSome result (λ count.
            count + length (front_answers (answers_for who (board_of h).entries)) ≡
            length (answers_for who (board_of h).entries))) }
        ensures some { HasRunSome self.now }
    {
        match clients::find(&self.clients, who) {
            Some(desk) => Some(desk.waiting()),
            None => None,
        }
    }

    /// Returns the number of open clients.
    pub fn open_clients(&self) -> usize
        ensures { result ≡ open_count self.now }
    {
        self.clients.len()
    }

    /// Returns the number of clients that were opened.
    pub fn opened_clients(&self) -> u64
        ensures { result ≡ opened_count self.now }
    {
        self.last
    }

    /// Closes a client. No client gets the missing replies. Its commands are still sent. Nothing
    /// changes if the client is not open.
    pub fn close(&mut self, who: ClientId)
        ensures run { KeepsRun self.old self.new }
        ensures closed { HasClosed self.old self.new who }
        ensures same_commands { (line : ℕ) → waiting_on self.new line ≡ waiting_on self.old line }
    {
        clients::close(&mut self.clients, who);
    }
}
