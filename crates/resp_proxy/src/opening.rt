//! The commands that a connection to the server begins with, before commands of clients are sent over it.

ghost use Rattle.std.specs.Prelude.{◌≡◌, ◌≢◌, ◌↔◌, ◌<◌, None, Some, Ok, [], length, IfErr, IfOk, IfSome, IsTrue, OnErr, OnOk};
ghost use Rattle.resp_io.specs.Devices.{count_after};
ghost use Rattle.resp_proxy.specs.Opened.{HasCome, IsAccepted, IsUnfinished, ReadsReplies, SendsOpening, count_in, ended_count, ended_text, failure_in, hello_in, refusal_in, replies_in, situation_in, unsent_in};
ghost use Rattle.resp_proxy.specs.Openings.{opening_count, opening_text};
ghost use Rattle.resp_proxy.specs.Wishes.{situation_of};

use crate::opening_replies::{Expected, OpeningError, OpeningReplies};
use crate::setting::Setting;
use resp_frames::Frames;
use resp_io::device::{DeviceFault, Sink, Source};
use resp_value::limits::Limits;
use resp_value::version::Version;
use std::alloc::{AllocError, Global};
use std::marker::Model;

/// The command that shows whether the server replies.
const PING: &[u8] = b"*1\r\n$4\r\nPING\r\n";

/// What follows the commands of a setting.
#[derive(Clone, Copy)]
pub enum Ending<'a> {
    /// Nothing.
    Setting,
    /// A command of a client. Any reply but an error is accepted.
    Command(&'a [u8]),
    /// PING, if the setting needs no command. Any reply is accepted but the two errors with which a
    /// server turns a connection away: too many clients, and protected mode.
    Check,
}

/// The progress of an opening.
#[derive(Clone, Copy, Debug, PartialEq, Eq)]
pub enum OpeningProgress {
    /// Commands were not sent yet: the write failed, for example because it would block, or
    /// accepted a part.
    Sends,
    /// All commands were sent, and the read failed, for example because it would block.
    Waits,
    /// Bytes were read, and a reply is missing.
    Reads,
    /// The server has accepted all commands.
    Accepted,
}

/// A connection to the server that is brought into a setting: the commands for it that were not
/// sent, and the replies of the server.
#[derive(Drop)]
pub struct Opening {
    setting: Setting,
    commands: Vec<u8>,
    /// The number of bytes of the commands that were sent.
    sent: usize,
    replies: OpeningReplies,
    /// Why the connection is not usable, if it is not.
    failure: Option<OpeningError>,
}

impl Model for Opening {
    ghost use Rattle.std.specs.Prelude.{drop};
    ghost use Rattle.resp_proxy.specs.Opened.{Opened};
    ghost use Rattle.resp_proxy.specs.Wishes.{situation_of};

    ghost Value = { Opened };

    ghost view = { λ o. record {
      situation = situation_of o.setting;
      unsent = drop o.sent o.commands.items;
      replies = o.replies;
      failure = o.failure;
    } };
}

impl Opening {
    /// Returns the opening of a connection that is brought into this setting, before anything was
    /// sent. `own` is the command AUTH of the proxy's own user, or empty.
    ///
    /// # Errors
    ///
    /// `AllocError` if an allocation fails.
    pub fn new(
        alloc: Global,
        setting: &Setting,
        own: &[u8],
        ending: Ending<'_>,
    ) -> Result<Opening, AllocError>
        ensures setting { IfOk result (λ o. situation_in o ≡ situation_of setting.now) }
        ensures unsent { IfOk result (λ o.
            unsent_in o ≡ ended_text (opening_text own.now (situation_of setting.now)) ending.entry) }
        ensures count { IfOk result (λ o. count_in o ≡
            ended_count (opening_text own.now (situation_of setting.now))
            (opening_count own.now (situation_of setting.now)) ending.entry) }
        ensures nothing { IfOk result (λ o. HasCome o []) }
    {
        let mut commands = Vec::new(alloc);
        let count = setting.commands(own, &mut commands)?;
        let (count, last) = end(&mut commands, count, ending)?;
        let frames = Frames::new(alloc, Version::Three, &Limits::standard())?;
        Ok(Opening {
            setting: setting.copy(alloc)?,
            commands,
            sent: 0,
            replies: OpeningReplies::new(alloc, frames, count, last),
            failure: None,
        })
    }

    /// Returns the setting into which the connection is brought.
    pub fn setting(&self) -> &Setting
        ensures { situation_of result.now ≡ situation_in self.now }
    {
        &self.setting
    }

    /// Returns whether the server has accepted all commands.
    pub fn is_accepted(&self) -> bool
        ensures { IsTrue result ↔ IsAccepted self.now }
    {
        self.failure.is_none() && self.replies.are_complete()
    }

    /// Returns the reply to HELLO, or an empty text.
    pub fn hello(&self) -> &[u8]
        ensures { result.now ≡ hello_in self.now }
    {
        &self.replies.hello
    }

    /// Returns the error with which the server rejected a command, or an empty text.
    pub fn refusal(&self) -> &[u8]
        ensures { result.now ≡ refusal_in self.now }
    {
        &self.replies.refusal
    }

    /// Returns the setting, and the reply to HELLO or an empty text.
    pub(crate) fn into_parts(self) -> (Setting, Vec<u8>)
        ensures setting { situation_of result.0 ≡ situation_in self }
        ensures hello { result.1.items ≡ hello_in self }
    {
        let Opening {
            setting,
            replies,
            ..
        } = self;
        (setting, replies.into_hello())
    }

    /// Sends commands, and reads replies once all commands were sent, with at most one write and one
    /// read.
    ///
    /// # Errors
    ///
    /// An [`OpeningError`] if the connection is not usable. The same is returned by each later call.
    pub fn visit<R: Source, W: Sink>(
        &mut self,
        reader: &mut R,
        writer: &mut W,
        buffer: &mut [u8],
    ) -> Result<OpeningProgress, OpeningError>
        requires { 0 < length buffer.old }
        // The bytes written are the first of the commands, and the bytes read are replies to them.
        ensures sends { SendsOpening (W.written writer.old) (W.written writer.new) self.old self.new }
        ensures reads { ReadsReplies (R.remaining reader.old) (R.remaining reader.new) self.old self.new
            result }
        ensures accepted { (result ≡ Ok OpeningProgress.Accepted) ↔ IsAccepted self.new }
        // Nothing is read before all commands were sent.
        ensures first { unsent_in self.new ≢ [] → reader.new ≡ reader.old }
        ensures unsent { result ≡ Ok OpeningProgress.Sends → unsent_in self.new ≢ [] }
        // One write if bytes wait, and one read after the last of them was written.
        ensures writes { IsUnfinished self.old → unsent_in self.old ≢ [] →
            W.calls writer.new ≡ count_after 1 (W.calls writer.old) }
        ensures tries { IsUnfinished self.old → unsent_in self.new ≡ [] →
            R.calls reader.new ≡ count_after 1 (R.calls reader.old) }
        ensures waits { result ≡ Ok OpeningProgress.Waits →
            R.failures reader.new ≡ count_after 1 (R.failures reader.old) }
        ensures same { IfSome (failure_in self.old) (λ e. result ≡ Err e) }
        ensures same_setting { situation_in self.new ≡ situation_in self.old }
    {
        if let Some(error) = self.failure {
            return Err(error);
        }
        if self.is_accepted() {
            return Ok(OpeningProgress::Accepted);
        }
        self.send(writer);
        if !self.unsent().is_empty() {
            return Ok(OpeningProgress::Sends);
        }
        self.receive(reader, buffer)
    }

    /// Returns the bytes of the commands that were not sent.
    fn unsent(&self) -> &[u8]
        ensures { result.now ≡ unsent_in self.now }
    {
        self.commands.get(self.sent..).unwrap_or(b"")
    }

    /// Sends commands, with at most one write.
    fn send<W: Sink>(&mut self, writer: &mut W)
        ensures sends { SendsOpening (W.written writer.old) (W.written writer.new) self.old self.new }
        ensures writes { unsent_in self.old ≢ [] → W.calls writer.new ≡ count_after 1 (W.calls writer.old) }
        ensures same_replies { replies_in self.new ≡ replies_in self.old }
        ensures same_failure { failure_in self.new ≡ failure_in self.old }
        ensures same_setting { situation_in self.new ≡ situation_in self.old }
    {
        let unsent = self.unsent();
        if unsent.is_empty() {
            return;
        }
        match writer.write(unsent) {
            Ok(count) => self.sent = self.sent.saturating_add(count),
            Err(DeviceFault) => {}
        }
    }

    /// Reads replies, with one read.
    fn receive<R: Source>(
        &mut self,
        reader: &mut R,
        buffer: &mut [u8],
    ) -> Result<OpeningProgress, OpeningError>
        requires { 0 < length buffer.old }
        ensures reads { ReadsReplies (R.remaining reader.old) (R.remaining reader.new) self.old self.new
            result }
        ensures accepted { IsUnfinished self.old → (result ≡ Ok OpeningProgress.Accepted) ↔
            IsAccepted self.new }
        ensures once { R.calls reader.new ≡ count_after 1 (R.calls reader.old) }
        ensures waits { result ≡ Ok OpeningProgress.Waits →
            R.failures reader.new ≡ count_after 1 (R.failures reader.old) }
        ensures all { result ≡ Ok OpeningProgress.Sends → ⊥ }
        ensures same_unsent { unsent_in self.new ≡ unsent_in self.old }
        ensures same_setting { situation_in self.new ≡ situation_in self.old }
    {
        let count = match reader.read(buffer) {
            Ok(count) => count,
            Err(DeviceFault) => return Ok(OpeningProgress::Waits),
        };
        if count == 0 {
            self.failure = Some(OpeningError::Closed);
            return Err(OpeningError::Closed);
        }
        if let Err(error) = self.replies.take(&buffer[..count]) {
            self.failure = Some(error);
            return Err(error);
        }
        if self.replies.are_complete() {
            return Ok(OpeningProgress::Accepted);
        }
        Ok(OpeningProgress::Reads)
    }
}

/// Appends what follows the commands of a setting, which are so many. Returns the number of commands, and
/// which replies to the last one are accepted.
fn end(
    commands: &mut Vec<u8>,
    count: u8,
    ending: Ending<'_>,
) -> Result<(usize, Expected), AllocError>
    ensures commands { OnOk result
        (commands.new.items ≡ ended_text commands.old.items ending.entry) }
    ensures count { IfOk result (λ ended.
        ended.0 ≡ ended_count commands.old.items count ending.entry) }
{
    match ending {
        Ending::Setting => Ok((usize::from(count), Expected::Setting)),
        Ending::Command(command) => {
            commands.extend_from_slice(command)?;
            Ok((usize::from(count) + 1, Expected::Success))
        }
        Ending::Check if commands.is_empty() => {
            commands.extend_from_slice(PING)?;
            Ok((1, Expected::Any))
        }
        Ending::Check => Ok((usize::from(count), Expected::Setting)),
    }
}
