//! The connection to the server that the clients in one setting share.

use crate::arrival::Arrival;
use crate::messages::{Messages, Topic};
use crate::server_link::{Loss, ServerLink};
use crate::stalled::Stalled;
use mio::Registry;
use resp_board::ClientId;
use resp_net::cause::cause_of;
use resp_proxy::{Counted, Proxy, RenewError, ServerError, ServerLine, Setting};
use std::alloc::{AllocError, Global};
use std::fs::Files;
use std::io;
use std::net::Net;
use std::random::RandomSource;
use std::time::Duration;

/// If this many bytes wait for the server, they are written before the next client is visited.
const EAGER: usize = 16_384;

/// The reply to the commands that wait while there is no connection, if the reason does not fit
/// into memory.
pub(crate) const NOT_CONNECTED: &[u8] = b"-ERR cannot connect to server\r\n";

/// The line of a setting, and its connection to the server.
#[derive(Drop)]
pub(crate) struct Channel {
    alloc: Global,
    pub(crate) line: ServerLine,
    pub(crate) link: ServerLink,
    /// The setting as it is shown in lines on standard error. It is empty for the first setting.
    shown: String,
    stalled: Stalled,
    /// The number of clients on the line.
    pub(crate) clients: usize,
    /// A client that is closed at its next visit, because an allocation failed.
    condemned: Option<ClientId>,
    /// The same client, until it was named for a visit.
    named: Option<ClientId>,
    /// Whether the connection was lost, and commands that were sent over it, at least in part,
    /// still wait for a reply.
    is_losing: bool,
    /// Whether it was lost because a reply to a probe was wrong.
    is_out_of_step: bool,
    /// The commands that were queued since the last probe.
    unprobed: u64,
    /// The time at which the server replied last to a command of a client.
    replied_at: Duration,
    /// The reply to commands that wait while there is no connection.
    failure: Vec<u8>,
}

impl Channel {
    /// Returns a channel without clients, before the first attempt to connect to the server.
    /// `shown` is the setting as it is shown, or empty for the first one.
    ///
    /// # Errors
    ///
    /// `AllocError` if an allocation fails.
    pub(crate) fn new(
        alloc: Global,
        proxy: &mut Proxy,
        link: ServerLink,
        setting: &Setting,
        shown: String,
    ) -> Result<Self, AllocError> {
        match proxy.open_line(setting) {
            Ok(line) => Ok(Channel {
                alloc,
                line,
                link,
                shown,
                stalled: Stalled::new(alloc),
                clients: 0,
                condemned: None,
                named: None,
                is_losing: false,
                is_out_of_step: false,
                unprobed: 0,
                replied_at: Duration::from_millis(0),
                failure: Vec::new(alloc),
            }),
            Err(AllocError) => {
                drop(link);
                drop(shown);
                Err(AllocError)
            }
        }
    }

    /// Uses a channel without clients for this setting, before the first attempt to connect to the
    /// server.
    ///
    /// # Errors
    ///
    /// A [`RenewError`] if the line can't be used. Nothing changes.
    pub(crate) fn renew(
        &mut self,
        proxy: &Proxy,
        link: ServerLink,
        setting: &Setting,
        shown: String,
    ) -> Result<(), RenewError> {
        if let Err(error) = proxy.renew_line(&mut self.line, setting) {
            drop(link);
            drop(shown);
            return Err(error);
        }
        self.link = link;
        self.shown = shown;
        self.is_losing = false;
        self.failure = Vec::new(self.alloc);
        Ok(())
    }

    /// Returns whether clients of this setting may enter now: its connection is open, or it is the
    /// first.
    pub(crate) fn is_ready(&self) -> bool {
        self.shown.is_empty() || self.link.is_open()
    }

    /// Returns whether the channel may be used for another setting: it has no clients, and nothing
    /// waits for the server or a reply.
    pub(crate) fn is_free(&self, proxy: &Proxy) -> bool {
        !self.shown.is_empty()
            && self.clients == 0
            && proxy.waiting(&self.line) == 0
            && proxy.unsent(&self.line) == 0
    }

    /// Returns the time at which the server replied last to a command of a client.
    pub(crate) fn replied_at(&self) -> Duration {
        self.replied_at
    }

    /// Returns whether the channel is in this setting.
    pub(crate) fn is_in(&self, setting: &Setting) -> bool {
        self.line.setting().is_same(setting)
    }

    /// Counts a client that uses the line from now on.
    pub(crate) fn add_client(&mut self) {
        self.clients = self.clients.saturating_add(1);
    }

    /// Counts a client that no longer uses the line.
    pub(crate) fn remove_client(&mut self) {
        self.clients = self.clients.saturating_sub(1);
    }

    /// Returns whether this client is to be closed now.
    pub(crate) fn is_condemned(&mut self, who: ClientId) -> bool {
        if self.condemned != Some(who) {
            return false;
        }
        self.condemned = None;
        true
    }

    /// Counts the commands that were queued, and queues a probe if enough were queued since the
    /// last one. If there is no memory or no random word for it, a later call tries again.
    pub(crate) fn note_queued(
        &mut self,
        random: &impl RandomSource,
        proxy: &mut Proxy,
        queued: usize,
        every: u64,
    ) {
        let now = self.link.now();
        proxy.count_queued(&mut self.line, queued, now);
        if every == 0 {
            return;
        }
        self.unprobed = self.unprobed.saturating_add(queued as u64);
        if self.unprobed < every {
            return;
        }
        let mut bytes = [0; 16];
        if random.fill_bytes(&mut bytes).is_err() {
            return;
        }
        if self.line.has_prober() || proxy.open_prober(&mut self.line).is_ok() {
            self.probe(proxy, &word_of(bytes));
        }
    }

    /// Queues a probe with this word.
    fn probe(&mut self, proxy: &mut Proxy, word: &[u8; 32]) {
        if proxy.probe(&mut self.line, word).is_ok() {
            self.unprobed = 0;
            let now = self.link.now();
            proxy.count_queued(&mut self.line, 1, now);
        }
    }

    /// Visits the connection in a place again when fewer bytes wait for the server.
    ///
    /// # Errors
    ///
    /// `AllocError` if an allocation fails.
    pub(crate) fn stall(&mut self, place: usize) -> Result<(), AllocError> {
        self.stalled.add(place)
    }

    /// Returns whether more than this many bytes wait for the server. Clients wait then.
    pub(crate) fn is_full(&self, proxy: &Proxy, unsent: usize) -> bool {
        proxy.unsent(&self.line) > unsent
    }

    /// Returns the place of the next connection whose client got room.
    pub(crate) fn next_stalled_place(&mut self, proxy: &Proxy, unsent: usize) -> Option<usize> {
        if self.is_full(proxy, unsent) {
            return None;
        }
        self.stalled.next()
    }

    /// Returns the client that is closed at its next visit, unless it was returned before.
    pub(crate) fn next_condemned(&mut self) -> Option<ClientId> {
        self.named.take()
    }

    /// Returns whether the channel has work to do although no socket is ready.
    pub(crate) fn has_work(&self, proxy: &Proxy, unsent: usize) -> bool {
        let has_stalled = !self.stalled.is_empty() && !self.is_full(proxy, unsent);
        has_stalled || self.is_losing
    }

    /// Returns the time until the link has work to do although its socket is not ready.
    pub(crate) fn patience(&self, proxy: &Proxy) -> Option<Duration> {
        if !self.is_used(proxy) && self.link.is_down() {
            return None;
        }
        self.link.patience(self.waits(proxy))
    }

    /// Returns whether the channel needs a connection: it is the first, has clients, or commands
    /// wait.
    fn is_used(&self, proxy: &Proxy) -> bool {
        !self.is_free(proxy)
    }

    /// Returns whether a command waits for a reply.
    fn waits(&self, proxy: &Proxy) -> bool {
        proxy.waiting(&self.line) > 0
    }

    /// Writes commands if many bytes wait for the server.
    pub(crate) fn send_eagerly(
        &mut self,
        net: &impl Net,
        proxy: &mut Proxy,
        messages: &mut Messages,
    ) {
        if proxy.unsent(&self.line) >= EAGER {
            if let Err(loss) = self.link.send(proxy, &self.line) {
                self.lose(net, proxy, messages, loss);
            }
        }
    }

    /// Writes the commands that wait for the server, reads replies, and connects to the server if
    /// there is no connection.
    pub(crate) fn work<R: Net + Files>(
        &mut self,
        net: &R,
        proxy: &mut Proxy,
        messages: &mut Messages,
        registry: &Registry,
        buffer: &mut [u8; 65_536],
    ) {
        self.finish_connecting(proxy, messages);
        self.exchange(net, proxy, messages, buffer);
        self.ask(net, proxy, messages, registry);
        let waits = self.waits(proxy);
        if let Err(loss) = self.link.judge(waits) {
            self.lose(net, proxy, messages, loss);
        }
        self.finish_losing(proxy);
        self.connect(net, proxy, messages, registry);
        if self.link.is_down() {
            self.fail(proxy);
        }
    }

    /// Asks a server that does not reply whether it is busy. The connection to a busy server is not
    /// given up.
    fn ask(&mut self, net: &impl Net, proxy: &Proxy, messages: &mut Messages, registry: &Registry) {
        let now = self.link.now();
        let waits = proxy.waiting(&self.line) > 0;
        let Some(why) = self.link.ask(net, registry, self.line.setting(), waits) else {
            return;
        };
        messages.add(
            now,
            Topic::Busy,
            Topic::Busy.words(),
            self.shown.as_str(),
            why,
        );
        self.link.bear();
    }

    /// Reads replies of the server, and writes commands to it.
    pub(crate) fn exchange(
        &mut self,
        net: &impl Net,
        proxy: &mut Proxy,
        messages: &mut Messages,
        buffer: &mut [u8; 65_536],
    ) {
        let before = proxy.waiting(&self.line);
        let exchanged = self.link.exchange(proxy, &mut self.line, buffer);
        let replied = before.saturating_sub(proxy.waiting(&self.line));
        if replied > 0 {
            self.replied_at = self.link.now();
            proxy.count_replied(&mut self.line, replied, self.replied_at);
        }
        if let Err(loss) = exchanged {
            self.lose(net, proxy, messages, loss);
        }
    }

    /// Starts to connect to the server if there is no connection, one is needed, and the pause is
    /// over.
    fn connect<R: Net + Files>(
        &mut self,
        net: &R,
        proxy: &Proxy,
        messages: &mut Messages,
        registry: &Registry,
    ) {
        if self.is_losing || !self.is_used(proxy) {
            return;
        }
        if let Err(error) = self.link.connect(net, registry, self.line.setting()) {
            self.tell_failure(messages, &error);
        }
    }

    /// Notes whether the pending connection is open.
    fn finish_connecting(&mut self, proxy: &mut Proxy, messages: &mut Messages) {
        match self.link.finish_connecting(proxy, &mut self.line) {
            Ok(false) => {}
            Ok(true) => self.tell_connected(proxy, messages),
            Err(error) => self.tell_failure(messages, &error),
        }
    }

    /// Uses a connection that has arrived in the setting of the line.
    ///
    /// # Errors
    ///
    /// Those of [`ServerLink::adopt`].
    pub(crate) fn adopt(
        &mut self,
        proxy: &mut Proxy,
        arrival: Arrival,
        registry: &Registry,
        messages: &mut Messages,
    ) -> io::Result<()> {
        self.finish_losing(proxy);
        self.link.adopt(proxy, &mut self.line, arrival, registry)?;
        self.tell_connected(proxy, messages);
        Ok(())
    }

    /// Counts and prints that the connection is open.
    fn tell_connected(&mut self, proxy: &mut Proxy, messages: &mut Messages) {
        self.failure = Vec::new(self.alloc);
        proxy.count(Counted::Connected);
        self.tell(messages, Topic::Connected, Topic::Connected.words(), "");
    }

    /// Prints why no connection to the server was opened, unless the reason is the same as before.
    fn tell_failure(&mut self, messages: &mut Messages, error: &io::Error) {
        let cause = cause_of(error);
        let reply = format!(in self.alloc; "-ERR cannot connect to server: {cause}\r\n");
        if self.has_failure(reply) {
            return;
        }
        let name = self.link.backend().name();
        let what = format!(in self.alloc; "cannot connect to {name}");
        let why = format!(in self.alloc; "{cause}");
        let topic = Topic::NotConnected;
        match (&what, &why) {
            (Ok(what), Ok(why)) => self.tell(messages, topic, what.as_str(), why.as_str()),
            _ => self.tell(messages, topic, topic.words(), ""),
        }
    }

    /// Prints a message about a topic: these words, the setting unless it is the first, and the
    /// reason if there is one.
    fn tell(&self, messages: &mut Messages, topic: Topic, words: &str, why: &str) {
        messages.add(self.link.now(), topic, words, self.shown.as_str(), why);
    }

    /// Sets the reply to the commands that wait while there is no connection, and returns whether
    /// this was the reply before. If an allocation fails, the reply has no reason.
    fn has_failure(&mut self, reply: Result<String, AllocError>) -> bool {
        let reply = match reply {
            Ok(reply) => reply.into_bytes(),
            Err(_) => Vec::new(self.alloc),
        };
        let is_same = reply.as_slice() == self.failure.as_slice();
        self.failure = reply;
        is_same
    }

    /// Prints that the connection to the server was lost, and replies to the commands that were
    /// sent over it, at least in part.
    fn lose(&mut self, net: &impl Net, proxy: &mut Proxy, messages: &mut Messages, loss: Loss) {
        // Otherwise a client that waits gets the descriptor of the lost connection.
        self.link.keep_spare(net);
        let why = self.reason_of(loss);
        let why = match &why {
            Ok(why) => why.as_str(),
            Err(_) => "",
        };
        let reply = format!(in self.alloc; "-ERR cannot connect to server: {why}\r\n");
        let _ = self.has_failure(reply);
        self.tell(messages, Topic::Lost, Topic::Lost.words(), why);
        self.is_losing = true;
        self.is_out_of_step = loss == Loss::Server(ServerError::OutOfStep);
        self.finish_losing(proxy);
    }

    /// Returns why a connection was lost, with the words of the server if it sent an error that no
    /// command waited for.
    fn reason_of(&self, loss: Loss) -> Result<String, AllocError> {
        let words = self.link.unasked();
        if words.is_empty() || !loss.is_unasked() {
            return format!(in self.alloc; "{loss}");
        }
        format!(in self.alloc; "{loss}: {words}")
    }

    /// Replies to the commands that were sent over a lost connection, at least in part. If an
    /// allocation fails, the client of the first command is closed, and the next call continues.
    fn finish_losing(&mut self, proxy: &mut Proxy) {
        if !self.is_losing {
            return;
        }
        let before = proxy.waiting(&self.line);
        let lost = if self.is_out_of_step {
            proxy.lose_out_of_step(&mut self.line)
        } else {
            proxy.lose(&mut self.line)
        };
        self.settle(proxy, before);
        match lost {
            Ok(()) => self.is_losing = false,
            Err(AllocError) => self.condemn(proxy),
        }
    }

    /// Replies to all commands that wait, since there is no connection.
    fn fail(&mut self, proxy: &mut Proxy) {
        if self.is_losing || !self.waits(proxy) {
            return;
        }
        let before = proxy.waiting(&self.line);
        let failed = proxy.fail(&mut self.line, or_not_connected(&self.failure));
        self.settle(proxy, before);
        if failed.is_err() {
            self.condemn(proxy);
        }
    }

    /// Removes the replies to probes, and counts the commands that failed: those by which the number
    /// of commands that wait has fallen.
    fn settle(&mut self, proxy: &mut Proxy, before: usize) {
        proxy.settle_probes(&mut self.line);
        let failed = before.saturating_sub(proxy.waiting(&self.line));
        proxy.count_failed(&mut self.line, failed);
    }

    /// Closes the client of the first command at its next visit, which is soon.
    fn condemn(&mut self, proxy: &Proxy) {
        self.condemned = proxy.next_client(&self.line);
        self.named = self.condemned;
    }
}

/// Returns the reply to commands that wait while there is no connection.
fn or_not_connected(failure: &[u8]) -> &[u8] {
    if failure.is_empty() {
        NOT_CONNECTED
    } else {
        failure
    }
}

/// Returns these bytes as hexadecimal digits.
fn word_of(bytes: [u8; 16]) -> [u8; 32] {
    let mut word = [0; 32];
    for index in 0..16 {
        word[2 * index] = digit(bytes[index] / 16);
        word[2 * index + 1] = digit(bytes[index] % 16);
    }
    word
}

/// Returns the hexadecimal digit of a number.
fn digit(number: u8) -> u8 {
    if number < 10 {
        number + b'0'
    } else {
        (number - 10) % 26 + b'a'
    }
}
