//! The proxy.

ghost use Rattle.std.specs.Prelude.{◌≡◌, ◌≢◌, ◌*◌, ◌↔◌, ◌⊎◌, ◌++◌, ℕ, List, None, Some, true, false, [], drop, length, min, slice_get, take, unwrap_or, IfErr, IfOk, IfSome, IsErrOf, IsTrue, OnErr, OnOk};
ghost use Rattle.resp_board.specs.Boards.{Ask, Fail};
ghost use Rattle.resp_board.specs.Histories.{nothing_happened, with_given};
ghost use Rattle.resp_board.specs.Runs.{HasAnsweredSome, HasClosed, HasNoIdLeft, HasOpened, HasOpenedLine, HasRun, KeepsBytes, KeepsOpen, KeepsRun, Runs, WhereRun, bounds_of, clients_on, unsent_on, waiting_count, waiting_for, waiting_on};
ghost use Rattle.resp_proxy.specs.Clients.{Holds, client_id, is_closing, is_leaving, route_of, waits_for_room};
ghost use Rattle.resp_proxy.specs.Room.{HasRoom, bounds_by};
ghost use Rattle.resp_proxy.specs.Failing.{FailsSome, Loses};
ghost use Rattle.resp_proxy.specs.Probing.{KeepsStep, RefusesProbe, echo_text, echoed_text};
ghost use Rattle.resp_proxy.specs.Replying.{TakesReplies};
ghost use Rattle.resp_proxy.specs.Taking.{TakesIn};
ghost use Rattle.resp_proxy.specs.Terms.{with_admitted};
ghost use Rattle.resp_proxy.specs.Unfinished.{terms_by};
ghost use Rattle.resp_proxy.specs.Telling.{Tells};
ghost use Rattle.resp_proxy.specs.Visiting.{GivesSome, HasNothingFor, IsDone, SendsSome};
ghost use Rattle.resp_io.specs.Devices.{count_after};
ghost use Rattle.resp_value.specs.Rules.{rules_under};
ghost use Rattle.resp_proxy.specs.Leaving.{LeavesRightly};
ghost use Rattle.resp_proxy.specs.Proxies.{HasNoClient, HasRoomFor, WhereHeld, lost_text, out_of_step_text, admits_own, board_in, replied_to, terms_of, settings_of, with_own_admitted, with_replied, with_terms};
ghost use Rattle.resp_proxy.specs.ServerLines.{HasBegunBy, WhereBegunBy, expected_of, is_attached, line_of, line_terms, prober_of, reply_limits, reply_rules_of, route_to, server_begun, situation_on};
ghost use Rattle.resp_proxy.specs.Wishes.{situation_of};

use crate::client::Client;
use crate::counts::{Counted, Numbers, ProxyCounts};
use crate::error::{ClientError, RenewError, ServerError};
use crate::giving::{WriteOutcome, give, has_no_bytes, has_no_command, left_to_server, send};
use crate::intake::Intake;
use crate::latency::Times;
use crate::probing::{Prober, echo};
use crate::replies::take_replies;
use crate::server_line::{ServerLine, forget, reply_frames};
use crate::setting::Setting;
use crate::settings::Settings;
use crate::taking::{shut, take_in};
use crate::told::note_first;
use resp_board::{AskError, Board, Bounds, ClientId, OpenError};
use resp_io::device::Sink;
use std::alloc::{AllocError, Global};
use std::collections::VecDeque;
use std::marker::Model;
use std::time::Duration;

/// The reply to each command of which a byte was sent, when the connection to the server is lost.
const LOST: &[u8] = b"-ERR connection to server lost; the command may have run\r\n";

/// The reply to each command of which a byte was sent, when a reply to a probe is wrong.
const OUT_OF_STEP: &[u8] = b"-ERR connection to server out of step; the command may have run\r\n";

/// A proxy between many clients and the connections to a server that they share.
#[derive(Drop)]
pub struct Proxy {
    pub(crate) alloc: Global,
    settings: Settings,
    pub(crate) board: Board,
    /// The commands of all clients.
    intake: Intake,
    counts: ProxyCounts,
    /// The clients that were replied to and not yet returned by [`Proxy::next_replied`].
    replied: VecDeque<ClientId>,
}

impl Model for Proxy {
    ghost use Rattle.resp_frames.specs.Framing.{IsReady};
    ghost use Rattle.resp_proxy.specs.Proxies.{Proxied};
    ghost use Rattle.resp_proxy.specs.Unfinished.{terms_of as intake_terms};

    ghost Value = { Proxied };

    ghost view = { λ p. record {
      board = p.board;
      settings = p.settings;
      terms = intake_terms p.intake;
      replied = p.replied.items;
    } };

    ghost invariant = { λ p. IsReady p.intake.frames };
}

impl Proxy {
    /// Returns a proxy without clients and without connections to a server.
    ///
    /// # Errors
    ///
    /// `AllocError` if an allocation fails.
    pub fn new(alloc: Global, settings: Settings) -> Result<Proxy, AllocError>
        ensures run { IfOk result (λ proxy. HasRun (board_in proxy) nothing_happened) }
        ensures no_clients { IfOk result (λ proxy. HasNoClient (board_in proxy)) }
        ensures bounds { IfOk result (λ proxy. bounds_of (board_in proxy) ≡ bounds_by settings) }
        ensures nobody { IfOk result (λ proxy. replied_to proxy ≡ []) }
        ensures settings { IfOk result (λ proxy. settings_of proxy ≡ settings) }
        // Whether lines are commands is a setting, and no command is admitted.
        ensures terms { IfOk result (λ proxy. terms_of proxy ≡ terms_by settings) }
    {
        let intake = Intake::new(alloc, &settings)?;
        let bounds = Bounds {
            waiting: settings.waiting as u64,
            unsent: usize::MAX,
        };
        Ok(Proxy {
            alloc,
            settings,
            board: Board::new(alloc, bounds),
            intake,
            counts: ProxyCounts::new(alloc)?,
            replied: VecDeque::new(alloc),
        })
    }

    /// Opens a line for a setting: a connection to the server that the clients in this setting
    /// share.
    ///
    /// # Errors
    ///
    /// `AllocError` if an allocation fails. Nothing changes.
    pub fn open_line(&mut self, setting: &Setting) -> Result<ServerLine, AllocError>
        ensures opened { IfOk result (λ line.
            HasOpenedLine (board_in self.old) (board_in self.new) (line_of line)) }
        ensures setting { IfOk result (λ line. situation_on line ≡ situation_of setting.now) }
        ensures detached { IfOk result (λ line. is_attached line ≡ false) }
        ensures begun { IfOk result (λ line. HasBegunBy line []) }
        ensures rules { IfOk result (λ line. reply_rules_of line ≡
            rules_under setting.now.version (reply_limits (settings_of self.old) setting.now.version)) }
        ensures nobody { IfOk result (λ line. prober_of line ≡ None) }
        ensures run { KeepsRun (board_in self.old) (board_in self.new) }
        ensures unchanged { OnErr result (KeepsOpen (board_in self.old) (board_in self.new)) }
        ensures same_terms { terms_of self.new ≡ terms_of self.old }
        ensures same_replied { replied_to self.new ≡ replied_to self.old }
    {
        let replies = reply_frames(self.alloc, &self.settings, setting.version)?;
        let setting = setting.copy(self.alloc)?;
        self.counts.make_room_for_line()?;
        let id = self.board.open_line()?;
        self.counts.add_line(id);
        Ok(ServerLine::new(self.alloc, id, replies, setting))
    }

    /// Uses a line for another setting. No connection continues it before [`Proxy::attach`]. The
    /// clients on the line have to be gone.
    ///
    /// # Errors
    ///
    /// `Waits` if a command waits on the line, and otherwise `OutOfMemory` if an allocation fails.
    /// Nothing changes.
    pub fn renew_line(&self, line: &mut ServerLine, setting: &Setting) -> Result<(), RenewError>
        ensures setting { OnOk result (situation_on line.new ≡ situation_of setting.now) }
        ensures detached { OnOk result (is_attached line.new ≡ false) }
        ensures begun { OnOk result (HasBegunBy line.new []) }
        ensures rules { OnOk result (reply_rules_of line.new ≡
            rules_under setting.now.version (reply_limits (settings_of self.now) setting.now.version)) }
        ensures waits { IsErrOf result RenewError.Waits ↔
            (waiting_on (board_in self.now) (line_of line.old) ≢ []) }
        ensures unchanged { OnErr result (line.new ≡ line.old) }
        ensures same_line { line_of line.new ≡ line_of line.old }
        ensures same_prober { prober_of line.new ≡ prober_of line.old }
        ensures same_expected { expected_of line.new ≡ expected_of line.old }
    {
        if self.board.waiting(line.id) > 0 {
            return Err(RenewError::Waits);
        }
        let Ok(copy) = setting.copy(self.alloc) else {
            return Err(RenewError::OutOfMemory);
        };
        match reply_frames(self.alloc, &self.settings, setting.version) {
            Ok(replies) => {
                line.renew(replies, copy);
                Ok(())
            }
            Err(AllocError) => {
                drop(copy);
                Err(RenewError::OutOfMemory)
            }
        }
    }

    /// Admits a command of this name, in upper, lower or mixed case, if the table of commands does
    /// not have it: from now on it is sent to the server, as a command for which clients may share
    /// a connection. The caller has to know that it has one reply, does not wait, and leaves no
    /// state in the connection.
    ///
    /// # Errors
    ///
    /// `AllocError` if an allocation fails. Nothing changes.
    pub fn admit(&mut self, name: &[u8]) -> Result<(), AllocError>
        ensures admitted { OnOk result (self.new ≡
            with_terms (with_admitted name.now (terms_of self.old)) self.old) }
        ensures unchanged { OnErr result (self.new ≡ self.old) }
    {
        self.intake.admit(self.alloc, name)
    }

    /// Opens a client whose commands go to this line. No client had its id before.
    ///
    /// # Errors
    ///
    /// `TooMany` if 2^63 - 1 clients were opened, and otherwise `OutOfMemory` if an allocation
    /// fails. Nothing changes.
    pub fn open(&mut self, line: &ServerLine) -> Result<Client, OpenError>
        ensures opened { IfOk result (λ client.
            HasOpened (board_in self.old) (board_in self.new) (client_id client)) }
        ensures route { IfOk result (λ client.
            route_of client ≡ route_to line.now (client_id client)) }
        ensures nothing { IfOk result (λ client. Holds (terms_of self.new) client []) }
        ensures is_open { IfOk result (λ client. is_closing client ≡ false) }
        ensures stays { IfOk result (λ client. is_leaving client ≡ false) }
        ensures run { KeepsRun (board_in self.old) (board_in self.new) }
        ensures too_many { IsErrOf result OpenError.TooMany ↔ HasNoIdLeft (board_in self.old) }
        ensures unchanged { OnErr result (KeepsOpen (board_in self.old) (board_in self.new)) }
        ensures same_terms { terms_of self.new ≡ terms_of self.old }
        ensures same_replied { replied_to self.new ≡ replied_to self.old }
    {
        match self.board.open() {
            Ok(client) => Ok(Client::new(self.alloc, line.route(client))),
            Err(error) => Err(error),
        }
    }

    /// Opens the proxy's own client that sends probes over a line. Call it once for each line.
    ///
    /// # Errors
    ///
    /// Those of [`Proxy::open`]. Nothing changes.
    pub fn open_prober(&mut self, line: &mut ServerLine) -> Result<ClientId, OpenError>
        ensures opened { IfOk result (λ who. (prober_of line.new ≡ Some who) ×
            HasOpened (board_in self.old) (board_in self.new) who) }
        ensures expected { OnOk result (expected_of line.new ≡ []) }
        ensures run { KeepsRun (board_in self.old) (board_in self.new) }
        ensures unchanged { OnErr result (line.new ≡ line.old) }
        ensures attached { is_attached line.new ≡ is_attached line.old }
        ensures same_line { line_terms line.new ≡ line_terms line.old }
        ensures same_begun { server_begun line.new ≡ server_begun line.old }
        ensures same_terms { terms_of self.new ≡ terms_of self.old }
        ensures same_replied { replied_to self.new ≡ replied_to self.old }
    {
        match self.board.open() {
            Ok(who) => {
                line.prober = Prober::of(self.alloc, who);
                self.counts.hide_client();
                Ok(who)
            }
            Err(error) => Err(error),
        }
    }

    /// Queues ECHO with this word on a line, as the proxy's own command, after the commands that were
    /// queued before. Its reply has to be this word: [`Proxy::from_server`] fails at any
    /// other reply.
    ///
    /// # Errors
    ///
    /// `NoClient` without [`Proxy::open_prober`], `ClientFull` if [`Settings::waiting`] probes wait, and
    /// `OutOfMemory` if an allocation fails. Nothing changes.
    pub fn probe(&mut self, line: &mut ServerLine, word: &[u8; 32]) -> Result<(), AskError>
        // The command is one of this client, and its reply is expected behind the others.
        ensures probed { OnOk result (IfSome (prober_of line.old) (λ who.
            Runs (Ask who (line_of line.old) (echo_text word.now)) (board_in self.old)
            (board_in self.new))) }
        ensures expected { OnOk result
            (expected_of line.new ≡ expected_of line.old ++ echoed_text word.now) }
        // The error has its cause in the prober, in a bound or in a failed allocation.
        ensures refused { IfErr result (RefusesProbe (board_in self.old) (prober_of line.old)
            (line_of line.old) (echo_text word.now)) }
        ensures unchanged { OnErr result (KeepsRun (board_in self.old) (board_in self.new)) }
        ensures same_expected { OnErr result (expected_of line.new ≡ expected_of line.old) }
        ensures same_prober { prober_of line.new ≡ prober_of line.old }
        ensures attached { is_attached line.new ≡ is_attached line.old }
        ensures same_line { line_terms line.new ≡ line_terms line.old }
        ensures same_begun { server_begun line.new ≡ server_begun line.old }
        ensures same_clients { KeepsOpen (board_in self.old) (board_in self.new) }
        ensures same_terms { terms_of self.new ≡ terms_of self.old }
    {
        let Some(who) = line.prober.who else {
            return Err(AskError::NoClient);
        };
        let Ok(text) = echo(self.alloc, word) else {
            return Err(AskError::OutOfMemory);
        };
        let before = line.prober.expected.len();
        if line.prober.expect(self.alloc, word).is_err() {
            return Err(AskError::OutOfMemory);
        }
        match self.board.ask(who, line.id, &text) {
            Ok(()) => Ok(()),
            Err(error) => {
                line.prober.expected.truncate(before);
                Err(error)
            }
        }
    }

    /// Removes the replies to probes that have arrived over a line, and forgets the probes whose
    /// replies were lost with the connection. Call it after each visit of the server, and after
    /// [`Proxy::lose`], [`Proxy::lose_out_of_step`] and [`Proxy::fail`].
    pub fn settle_probes(&mut self, line: &mut ServerLine)
        ensures given { IfSome (prober_of line.old) (λ who. WhereRun (board_in self.old) (λ h.
            IfSome (waiting_for (board_in self.old) who) (λ text.
            HasRun (board_in self.new) (with_given who text h)))) }
        // The replies that are expected last stay, one for each probe that waits.
        ensures expected { (gone : List ℕ) × (expected_of line.old ≡ gone ++ expected_of line.new) }
        ensures kept { IfSome (prober_of line.old) (λ who.
            IfSome (waiting_count (board_in self.old) who) (λ count.
            length (expected_of line.new) ≡ min (length (expected_of line.old)) (count * 39))) }
        ensures same_prober { prober_of line.new ≡ prober_of line.old }
        ensures attached { is_attached line.new ≡ is_attached line.old }
        ensures same_line { line_terms line.new ≡ line_terms line.old }
        ensures same_begun { server_begun line.new ≡ server_begun line.old }
        ensures same_clients { KeepsOpen (board_in self.old) (board_in self.new) }
        ensures same_terms { terms_of self.new ≡ terms_of self.old }
    {
        let Some(who) = line.prober.who else {
            return;
        };
        let Some(text) = self.board.to_client(who) else {
            return;
        };
        let count = text.len();
        let waiting = self.board.waiting_of(who).unwrap_or(0);
        self.board.given(who, count);
        line.prober.keep(waiting);
    }

    /// Closes a client. No client gets the missing replies. Its commands still go to the server.
    pub fn close(&mut self, client: Client)
        ensures closed { HasClosed (board_in self.old) (board_in self.new) (client_id client) }
        ensures run { KeepsRun (board_in self.old) (board_in self.new) }
        ensures same_terms { terms_of self.new ≡ terms_of self.old }
        ensures same_replied { replied_to self.new ≡ replied_to self.old }
    {
        self.board.close(client.route.client);
    }

    /// Returns whether a command of this client may be taken now.
    pub fn has_room(&self, client: &Client) -> bool
        ensures { IsTrue result ↔
            HasRoom (settings_of self.now) (board_in self.now) (route_of client.now) }
    {
        self.settings.has_room(&self.board, client.route)
    }

    /// Takes bytes that a client sent. Each command for which there is room is queued for the server,
    /// or the proxy replies to it. The bytes after them are held. Call it again without bytes when
    /// there is room.
    ///
    /// # Errors
    ///
    /// - `Closing` if the client is closing.
    /// - `NoClient` if the client is not open in this proxy.
    /// - `OutOfMemory` if an allocation fails.
    /// - Another [`ClientError`] if the bytes after the commands that were taken are its cause.
    ///
    /// The client is closing afterwards, and the bytes that are not a whole command are lost.
    pub fn from_client(&mut self, client: &mut Client, piece: &[u8]) -> Result<(), ClientError>
        ensures taken { WhereHeld self.old client.old (λ held.
            TakesIn (terms_of self.old) (route_of client.old) (held ++ piece.now) client.new
            result (board_in self.old) (board_in self.new)) }
        ensures closing { IsErrOf result ClientError.Closing ↔ (is_closing client.old ≡ true) }
        ensures no_client { IsErrOf result ClientError.NoClient ↔ ((is_closing client.old ≡ false) ×
            (waiting_for (board_in self.old) (client_id client.old) ≡ None)) }
        // If there is room for more, no bytes wait for room.
        ensures all { OnOk result (is_leaving client.new ≡ false → HasRoomFor self.new client.new →
            waits_for_room client.new ≡ []) }
        // The client is leaving only if its next command needs a connection of its own.
        ensures leaves { WhereHeld self.old client.old (λ held.
            LeavesRightly (terms_of self.old) client.old →
            LeavesRightly (terms_of self.old) client.new) }
        ensures stays { OnOk result (is_leaving client.old ≡ true →
            board_in self.new ≡ board_in self.old) }
        ensures admitted { is_leaving client.old ≡ false → is_leaving client.new ≡ true →
            admits_own self.old ≡ true }
        ensures same_client { route_of client.new ≡ route_of client.old }
        ensures same_clients { KeepsOpen (board_in self.old) (board_in self.new) }
        ensures same_terms { terms_of self.new ≡ terms_of self.old }
        ensures same_replied { replied_to self.new ≡ replied_to self.old }
    {
        take_in(
            self.alloc,
            &self.settings,
            &mut self.intake,
            &mut self.counts,
            &mut self.board,
            client,
            piece,
        )
    }

    /// Returns the number of bytes that wait to be sent over a line.
    pub fn unsent(&self, line: &ServerLine) -> usize
        ensures { result ≡ length (unsent_on (board_in self.now) (line_of line.now)) }
    {
        self.board.to_server(line.id).len()
    }

    /// Returns the number of bytes that wait to be written to this client, or 0 if it is not open.
    pub fn unread(&self, client: &Client) -> usize
        ensures { result ≡ length (unwrap_or
            (waiting_for (board_in self.now) (client_id client.now)) []) }
    {
        match self.board.to_client(client.route.client) {
            Some(text) => text.len(),
            None => 0,
        }
    }

    /// Returns the number of commands that wait on a line for replies.
    pub fn waiting(&self, line: &ServerLine) -> usize
        ensures { result ≡ length (waiting_on (board_in self.now) (line_of line.now)) }
    {
        self.board.waiting(line.id)
    }

    /// Returns the client of the first command that waits on a line for a reply.
    pub fn next_client(&self, line: &ServerLine) -> Option<ClientId>
        ensures { result ≡ slice_get (clients_on (board_in self.now) (line_of line.now)) 0 }
    {
        self.board.next_client(line.id)
    }

    /// Returns whether a client is closing, no command of it waits, and all its replies were
    /// written. Close it then.
    pub fn is_done(&self, client: &Client) -> bool
        ensures { IsTrue result ↔ IsDone (board_in self.now) client.now }
    {
        client.is_closing
            && has_no_bytes(&self.board, client.route.client)
            && has_no_command(&self.board, client.route.client)
    }

    /// Sets whether a client may get a connection of its own. If not, the proxy replies with an
    /// error to each command that needs one.
    pub fn admit_own(&mut self, is_admitted: bool)
        ensures { self.new ≡ with_own_admitted is_admitted self.old }
    {
        self.intake.admits_own = is_admitted;
    }

    /// Counts an event. `INFO proxy` prints the numbers.
    pub fn count(&mut self, counted: Counted)
        ensures same_state { self.new ≡ self.old }
    {
        self.counts.add(counted);
    }

    /// Counts commands of clients that were queued at this time on a line.
    pub fn count_queued(&mut self, line: &mut ServerLine, count: usize, now: Duration)
        ensures same_state { self.new ≡ self.old }
        ensures same_line { line.new ≡ line.old }
    {
        self.counts.add_queued(&mut line.waits, count, now);
    }

    /// Counts commands that got their replies over a line at this time.
    pub fn count_replied(&mut self, line: &mut ServerLine, count: usize, now: Duration)
        ensures same_state { self.new ≡ self.old }
        ensures same_line { line.new ≡ line.old }
    {
        self.counts.add_replied(&mut line.waits, count, now);
    }

    /// Counts commands on a line whose reply was the error for a lost or missing connection.
    pub fn count_failed(&mut self, line: &mut ServerLine, count: usize)
        ensures same_state { self.new ≡ self.old }
        ensures same_line { line.new ≡ line.old }
    {
        self.counts.add_failed(&mut line.waits, count);
    }

    /// Sets the number of lines that no client uses. `INFO proxy` does not count them.
    pub fn set_idle_lines(&mut self, idle: usize)
        ensures same_state { self.new ≡ self.old }
    {
        self.counts.set_idle_lines(idle);
    }

    /// Returns what was counted.
    pub fn numbers(&self) -> Numbers {
        self.counts.numbers(&self.board)
    }

    /// Returns the number of clients that have a connection of their own.
    pub fn own_clients(&self) -> u64 {
        self.counts.own()
    }

    /// Returns the counted times of the replies of the last one to two minutes.
    pub fn times(&self) -> Times {
        self.counts.times()
    }

    /// Takes nothing more from a client. The bytes that it holds are lost.
    pub fn shut(&mut self, client: &mut Client)
        ensures nothing { Holds (terms_of self.new) client.new [] }
        ensures closing { is_closing client.new ≡ true }
        ensures stays { is_leaving client.new ≡ false }
        ensures same_client { route_of client.new ≡ route_of client.old }
        ensures same_state { self.new ≡ self.old }
    {
        shut(self.alloc, client);
    }

    /// Takes bytes that the server sent over a line. Each whole reply goes to the client of its command.
    ///
    /// # Errors
    ///
    /// A [`ServerError`] if the bytes after the replies that were given are its cause, or if an allocation
    /// fails. Close the connection, and call [`Proxy::lose`].
    pub fn from_server(&mut self, line: &mut ServerLine, piece: &[u8]) -> Result<(), ServerError>
        ensures taken { WhereBegunBy line.old (λ front. WhereRun (board_in self.old) (λ h.
            TakesReplies (reply_rules_of line.old) (line_of line.old) (front ++ piece.now)
            (server_begun line.new) result h (board_in self.new))) }
        // The replies to probes are the expected ones. At the first that is not, nothing more is given.
        ensures step { WhereBegunBy line.old (λ front. WhereRun (board_in self.old) (λ h.
            KeepsStep (line_of line.old) (prober_of line.old) (expected_of line.old) result
            (board_in self.old) h (board_in self.new))) }
        // Each client whose bytes are other than before is returned by `next_replied`.
        ensures told { Tells (line_of line.old) (replied_to self.old) (replied_to self.new)
            (board_in self.old) (board_in self.new) }
        ensures same_prober { prober_of line.new ≡ prober_of line.old }
        ensures same_expected { expected_of line.new ≡ expected_of line.old }
        ensures same_clients { KeepsOpen (board_in self.old) (board_in self.new) }
        ensures same_terms { terms_of self.new ≡ terms_of self.old }
        ensures same_line { line_terms line.new ≡ line_terms line.old }
        ensures forgotten { OnErr result (HasBegunBy line.new []) }
        ensures detached { OnErr result (is_attached line.new ≡ false) }
        ensures attached { OnOk result (is_attached line.new ≡ is_attached line.old) }
    {
        let taken = take_replies(
            &mut line.replies,
            &mut line.begun,
            &mut self.board,
            line.id,
            &mut self.replied,
            &line.prober,
            &mut self.counts.errors,
            piece,
        );
        match taken {
            Ok(()) => {}
            Err(error) => {
                line.is_attached = false;
                forget(&mut line.begun);
                return Err(error);
            }
        }
        Ok(())
    }

    /// Replies with an error to each command on a line of which a byte was sent, because the connection
    /// to the server was lost, and forgets the incomplete reply of the server. The other commands of
    /// the line wait for a new connection.
    ///
    /// # Errors
    ///
    /// `AllocError` if an allocation fails. The first of these commands may have their replies, and the
    /// others still wait. Close the client of the first command, and try again.
    pub fn lose(&mut self, line: &mut ServerLine) -> Result<(), AllocError>
        ensures run { OnOk result (Loses (line_of line.old) lost_text (board_in self.old)
            (board_in self.new)) }
        ensures some_answered { OnErr result (HasAnsweredSome (line_of line.old) lost_text
            (board_in self.old) (board_in self.new)) }
        ensures told { Tells (line_of line.old) (replied_to self.old) (replied_to self.new)
            (board_in self.old) (board_in self.new) }
        ensures begun { HasBegunBy line.new [] }
        ensures detached { is_attached line.new ≡ false }
        ensures same_prober { prober_of line.new ≡ prober_of line.old }
        ensures same_expected { expected_of line.new ≡ expected_of line.old }
        ensures same_line { line_terms line.new ≡ line_terms line.old }
        ensures same_clients { KeepsOpen (board_in self.old) (board_in self.new) }
        ensures same_terms { terms_of self.new ≡ terms_of self.old }
    {
        self.lose_by(line, LOST)
    }

    /// Like [`Proxy::lose`], after [`ServerError::OutOfStep`]: the error reply says that the
    /// connection was out of step.
    ///
    /// # Errors
    ///
    /// Those of [`Proxy::lose`].
    pub fn lose_out_of_step(&mut self, line: &mut ServerLine) -> Result<(), AllocError>
        ensures run { OnOk result (Loses (line_of line.old) out_of_step_text (board_in self.old)
            (board_in self.new)) }
        ensures some_answered { OnErr result (HasAnsweredSome (line_of line.old) out_of_step_text
            (board_in self.old) (board_in self.new)) }
        ensures told { Tells (line_of line.old) (replied_to self.old) (replied_to self.new)
            (board_in self.old) (board_in self.new) }
        ensures begun { HasBegunBy line.new [] }
        ensures detached { is_attached line.new ≡ false }
        ensures same_prober { prober_of line.new ≡ prober_of line.old }
        ensures same_expected { expected_of line.new ≡ expected_of line.old }
        ensures same_line { line_terms line.new ≡ line_terms line.old }
        ensures same_clients { KeepsOpen (board_in self.old) (board_in self.new) }
        ensures same_terms { terms_of self.new ≡ terms_of self.old }
    {
        self.lose_by(line, OUT_OF_STEP)
    }

    /// Like `lose`, with this text as the reply.
    fn lose_by(&mut self, line: &mut ServerLine, text: &[u8]) -> Result<(), AllocError>
        ensures run { OnOk result (Loses (line_of line.old) text.now (board_in self.old)
            (board_in self.new)) }
        ensures some_answered { OnErr result (HasAnsweredSome (line_of line.old) text.now
            (board_in self.old) (board_in self.new)) }
        ensures told { Tells (line_of line.old) (replied_to self.old) (replied_to self.new)
            (board_in self.old) (board_in self.new) }
        ensures begun { HasBegunBy line.new [] }
        ensures detached { is_attached line.new ≡ false }
        ensures same_prober { prober_of line.new ≡ prober_of line.old }
        ensures same_expected { expected_of line.new ≡ expected_of line.old }
        ensures same_line { line_terms line.new ≡ line_terms line.old }
        ensures same_clients { KeepsOpen (board_in self.old) (board_in self.new) }
        ensures same_terms { terms_of self.new ≡ terms_of self.old }
    {
        line.is_attached = false;
        forget(&mut line.begun);
        let begun = self.board.begun(line.id);
        note_first(&mut self.replied, &self.board, line.id, begun)?;
        self.board.lose(line.id, text)
    }

    /// Replies with this text to each command that waits on a line, because no connection to the
    /// server can be opened. No byte of them is sent. A new connection begins.
    ///
    /// # Errors
    ///
    /// `AllocError` if an allocation fails. The first of these commands may have their replies, and the
    /// others still wait. Close the client of the first command, and try again.
    pub fn fail(&mut self, line: &mut ServerLine, text: &[u8]) -> Result<(), AllocError>
        ensures run { OnOk result (Runs (Fail (line_of line.old) text.now) (board_in self.old)
            (board_in self.new)) }
        ensures some_answered { OnErr result (FailsSome (line_of line.old) text.now
            (board_in self.old) (board_in self.new)) }
        ensures told { Tells (line_of line.old) (replied_to self.old) (replied_to self.new)
            (board_in self.old) (board_in self.new) }
        ensures begun { HasBegunBy line.new [] }
        ensures detached { is_attached line.new ≡ false }
        ensures same_prober { prober_of line.new ≡ prober_of line.old }
        ensures same_expected { expected_of line.new ≡ expected_of line.old }
        ensures same_line { line_terms line.new ≡ line_terms line.old }
        ensures same_clients { KeepsOpen (board_in self.old) (board_in self.new) }
        ensures same_terms { terms_of self.new ≡ terms_of self.old }
    {
        line.is_attached = false;
        forget(&mut line.begun);
        let all = self.board.waiting(line.id);
        note_first(&mut self.replied, &self.board, line.id, all)?;
        self.board.fail(line.id, text)
    }

    /// Returns the next client that was replied to by [`Proxy::from_server`],
    /// [`Proxy::visit_server`] or [`Proxy::lose`], and removes it from the queue of these clients. It
    /// may be closed. A client that was replied to more than once in a row is returned once.
    pub fn next_replied(&mut self) -> Option<ClientId>
        ensures first { result ≡ slice_get (replied_to self.old) 0 }
        ensures rest { self.new ≡ with_replied (drop 1 (replied_to self.old)) self.old }
    {
        self.replied.pop_front()
    }

    /// Writes bytes that wait for a client, with at most one write.
    pub fn give<W: Sink>(&mut self, client: &Client, writer: &mut W) -> WriteOutcome
        ensures gives { GivesSome (W.written writer.old) (W.written writer.new)
            (client_id client.now) (board_in self.old) (board_in self.new) }
        ensures all { result ≡ WriteOutcome.All →
            HasNothingFor (board_in self.new) (client_id client.now) }
        ensures idle { HasNothingFor (board_in self.old) (client_id client.now) →
            result ≡ WriteOutcome.All }
        ensures once { HasNothingFor (board_in self.old) (client_id client.now) ⊎
            (W.calls writer.new ≡ count_after 1 (W.calls writer.old)) }
        ensures same_clients { KeepsOpen (board_in self.old) (board_in self.new) }
        ensures same_terms { terms_of self.new ≡ terms_of self.old }
        ensures same_replied { replied_to self.new ≡ replied_to self.old }
    {
        give(&mut self.board, client.route.client, writer)
    }

    /// Writes bytes that wait to be sent over a line, with at most one write. Without a connection
    /// nothing is written.
    pub fn send<W: Sink>(&mut self, line: &ServerLine, writer: &mut W) -> WriteOutcome
        ensures sends { SendsSome (line_of line.now) (W.written writer.old)
            (W.written writer.new) (board_in self.old) (board_in self.new) }
        ensures same_bytes { KeepsBytes (board_in self.old) (board_in self.new) }
        ensures all { result ≡ WriteOutcome.All →
            unsent_on (board_in self.new) (line_of line.now) ≡ [] }
        ensures idle { unsent_on (board_in self.old) (line_of line.now) ≡ [] →
            result ≡ WriteOutcome.All }
        ensures once { is_attached line.now ≡ true →
            (unsent_on (board_in self.old) (line_of line.now) ≡ []) ⊎
            (W.calls writer.new ≡ count_after 1 (W.calls writer.old)) }
        // Without a connection nothing is written.
        ensures detached { is_attached line.now ≡ false → writer.new ≡ writer.old }
        ensures same_clients { KeepsOpen (board_in self.old) (board_in self.new) }
        ensures same_terms { terms_of self.new ≡ terms_of self.old }
        ensures same_replied { replied_to self.new ≡ replied_to self.old }
    {
        if !line.is_attached {
            return left_to_server(&self.board, line.id);
        }
        send(&mut self.board, line.id, writer)
    }
}
