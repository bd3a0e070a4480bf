//! The replies to the commands that a connection to the server begins with.

ghost use Rattle.std.specs.Prelude.{◌≡◌, ◌≢◌, ◌↔◌, ◌++◌, ◌<◌, ◌≤◌, [], length, take, IfErr, IfNone, IfOk, IfSome, IsTrue, OnOk};
ghost use Rattle.resp_frames.specs.Framing.{IsReady};
ghost use Rattle.resp_proxy.specs.OpeningReplies.{AcceptsReply, HasReplies, RefusesOpening, RejectsReply, WhereReplies, accepts, expected_next, opening_error, opening_terms};

use resp_frames::{Begun, FrameError, Frames};
use std::alloc::{AllocError, Global};
use thiserror::Error;

/// The reply to AUTH and SELECT if the server accepts them.
const ACCEPTED: &[u8] = b"+OK\r\n";

/// The errors with which a server turns a connection away.
const FULL: &[u8] = b"-ERR max number of clients";

const DENIED: &[u8] = b"-DENIED";

/// Why a connection to the server was not opened.
#[derive(Clone, Copy, Debug, PartialEq, Eq, Error)]
pub enum OpeningError {
    /// The server rejected a command, or its bytes are not the replies to the commands.
    #[error("the server rejected a command")]
    Rejected,
    /// The server closed the connection.
    #[error("closed by the server")]
    Closed,
    /// An allocation failed.
    #[error("out of memory")]
    OutOfMemory,
}

/// Which replies to a command are accepted.
#[derive(Clone, Copy, Debug, PartialEq, Eq)]
pub(crate) enum Expected {
    /// `+OK`, or the map that is the reply to HELLO: the command brings the connection into a
    /// setting.
    Setting,
    /// Any but an error: it is a command of a client.
    Success,
    /// Any but the two errors with which a server turns a connection away: the command only shows
    /// that the server replies.
    Any,
}

impl Expected {
    /// Returns whether this reply is accepted.
    pub(crate) fn accepts(self, reply: &[u8]) -> bool
        ensures { result ≡ accepts self reply.now }
    {
        match self {
            Expected::Setting => reply == ACCEPTED || reply.starts_with(b"%"),
            Expected::Success => !reply.starts_with(b"-"),
            Expected::Any => !reply.starts_with(FULL) && !reply.starts_with(DENIED),
        }
    }
}

/// The replies to the commands of an opening.
#[derive(Drop)]
pub(crate) struct OpeningReplies {
    alloc: Global,
    /// Which replies to the last command are accepted.
    pub(crate) last: Expected,
    /// The number of commands.
    pub(crate) count: usize,
    /// The number of commands whose replies are missing.
    pub(crate) missing: usize,
    frames: Frames,
    begun: Begun,
    /// The reply to HELLO, or empty.
    pub(crate) hello: Vec<u8>,
    /// The error that the server rejected a command with, or empty.
    pub(crate) refusal: Vec<u8>,
}

impl OpeningReplies {
    /// Returns the state before any reply to this many commands.
    pub(crate) fn new(alloc: Global, frames: Frames, count: usize, last: Expected) -> OpeningReplies
        requires { IsReady frames }
        ensures nothing { HasReplies result [] }
        ensures count { result.count ≡ count }
        ensures last { result.last ≡ last }
        ensures all { result.missing ≡ count }
    {
        OpeningReplies {
            alloc,
            last,
            count,
            missing: count,
            frames,
            begun: Begun::new(),
            hello: Vec::new(alloc),
            refusal: Vec::new(alloc),
        }
    }

    /// Returns whether all commands have their replies.
    pub(crate) fn are_complete(&self) -> bool
        ensures { IsTrue result ↔ (self.now.missing ≡ 0) }
    {
        self.missing == 0
    }

    /// Returns the reply to HELLO, or an empty text.
    pub(crate) fn into_hello(self) -> Vec<u8>
        ensures { result.items ≡ self.hello.items }
    {
        let OpeningReplies { hello, .. } = self;
        hello
    }

    /// Returns which replies to the next command are accepted.
    fn expected(&self) -> Expected
        ensures { result ≡ expected_next self.now }
    {
        if self.missing == 1 {
            self.last
        } else {
            Expected::Setting
        }
    }

    /// Takes bytes of the replies. No byte may follow the last reply.
    ///
    /// # Errors
    ///
    /// `Rejected` if a reply is not accepted, or a byte belongs to no reply, and `OutOfMemory` if an allocation fails.
    pub(crate) fn take(&mut self, piece: &[u8]) -> Result<(), OpeningError>
        ensures taken { WhereReplies self.old (λ bytes.
            OnOk result (HasReplies self.new (bytes ++ piece.now))) }
        ensures refused { WhereReplies self.old (λ bytes.
            IfErr result (RefusesOpening (opening_terms self.old) (bytes ++ piece.now))) }
        ensures same_terms { opening_terms self.new ≡ opening_terms self.old }
    {
        let mut used = 0;
        while used < piece.len() {
            if self.are_complete() {
                return Err(OpeningError::Rejected);
            }
            let found = match self.take_reply(&piece[used..]) {
                Ok(found) => found,
                Err(error) => return Err(error),
            };
            let Some(count) = found else {
                return Ok(());
            };
            if count == 0 {
                // This never happens, since a reply has a byte. It shows that the loop ends.
                return Ok(());
            }
            used += count;
        }
        Ok(())
    }

    /// Takes bytes up to the end of a reply, and returns their number, or `None` if no reply ends in the
    /// piece. Then all bytes of the piece are held.
    fn take_reply(&mut self, piece: &[u8]) -> Result<Option<usize>, OpeningError>
        requires { 0 < self.old.missing }
        ensures accepted { WhereReplies self.old (λ bytes. IfOk result (λ found. IfSome found (λ used.
            HasReplies self.new (bytes ++ take used piece.now)))) }
        ensures more { WhereReplies self.old (λ bytes. IfOk result (λ found. IfNone found
            (HasReplies self.new (bytes ++ piece.now)))) }
        ensures refused { WhereReplies self.old (λ bytes.
            IfErr result (RefusesOpening (opening_terms self.old) (bytes ++ piece.now))) }
        // A reply that was taken has at least one byte of the piece.
        ensures progress { WhereReplies self.old (λ bytes. IfOk result (λ found.
            IfSome found (λ used. 0 < used))) }
        ensures within { IfOk result (λ found. IfSome found (λ used. used ≤ length piece.now)) }
        ensures same_terms { opening_terms self.new ≡ opening_terms self.old }
    {
        let found = match self.frames.next(&mut self.begun, piece) {
            Ok(found) => found,
            Err(error) => return Err(opening_error(error)),
        };
        let Some(frame) = found else {
            return Ok(None);
        };
        if let Err(error) = self.judge(frame.text()) {
            return Err(error);
        }
        Ok(Some(frame.used()))
    }

    /// Accepts or rejects the reply to the next command.
    fn judge(&mut self, reply: &[u8]) -> Result<(), OpeningError>
        requires { 0 < self.old.missing }
        ensures accepted { OnOk result (AcceptsReply self.old reply.now self.new) }
        ensures rejected { IfErr result (RejectsReply self.old reply.now) }
        ensures same_terms { opening_terms self.new ≡ opening_terms self.old }
    {
        let expected = self.expected();
        if !expected.accepts(reply) {
            if reply.starts_with(b"-") {
                self.refusal = copied(self.alloc, reply)?;
            }
            return Err(OpeningError::Rejected);
        }
        if expected == Expected::Setting && reply.starts_with(b"%") {
            self.hello = copied(self.alloc, reply)?;
        }
        self.missing -= 1;
        Ok(())
    }
}

/// Returns the error for bytes of the server that are no reply.
fn opening_error(error: FrameError) -> OpeningError
    ensures { result ≡ opening_error error }
{
    match error {
        FrameError::Fault(_) | FrameError::NotACommand => OpeningError::Rejected,
        FrameError::OutOfMemory => OpeningError::OutOfMemory,
    }
}

/// Returns a copy of a reply.
fn copied(alloc: Global, reply: &[u8]) -> Result<Vec<u8>, OpeningError>
    ensures copy { IfOk result (λ copy. copy.items ≡ reply.now) }
    ensures memory { IfErr result (λ error. error ≡ OpeningError.OutOfMemory) }
{
    match reply.to_vec(alloc) {
        Ok(copy) => Ok(copy),
        Err(AllocError) => Err(OpeningError::OutOfMemory),
    }
}
