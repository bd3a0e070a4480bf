//! Takes the bytes of a client.

ghost use Rattle.std.specs.Prelude.{◌≡◌, ◌++◌, ◌<◌, ◌≤◌, ℕ, List, [], true, length, take, IfErr, IfOk, IfSome, OnErr};
ghost use Rattle.resp_value.specs.Rules.{rules_under};
ghost use Rattle.resp_value.specs.declared.version.Version.TheVariants.{Two};
ghost use Rattle.resp_frames.specs.Framing.{HasBegun};
ghost use Rattle.resp_frames.specs.Unfinished.{HasArray};
ghost use Rattle.resp_line.specs.Inline.{GoesOn};
ghost use Rattle.resp_server.specs.Rejections.{OnRejection, Rejects, inline_error, taking_error};
ghost use Rattle.resp_server.specs.Doing.{standing_of, waiting_of};
ghost use Rattle.resp_server.specs.Taking.{IsFull, Takes, TakesFirst, TakesOne, WhereUnfinished, progress_of};

use crate::databases::Databases;
use crate::databases::client::Client;
use crate::databases::rejection::{Rejection, TakeError, reject};
use resp_frames::{FrameError, Request};
use resp_line::{InlineError, next_inline};
use resp_value::laws::no_spelling_begins_another;
use std::alloc::AllocError;
use std::hash::BuildHasher;

impl<S: BuildHasher + Copy> Databases<S> {
    /// Gives the server a piece of the bytes that a client has sent. Runs the commands that are
    /// complete with this piece, in order, while at most `held` bytes wait to be written to the
    /// client, and queues their replies. The pieces may be cut anywhere. Returns the number of
    /// bytes that were used. Give the others again after bytes were written.
    ///
    /// If a byte is rejected, a value is not a command, or the quotes of a line are not closed, an
    /// error reply that names the problem is queued, and the client is closing: its further bytes
    /// are ignored. QUIT closes it too. Nulls, empty arrays and empty lines are ignored.
    ///
    /// # Errors
    ///
    /// `AllocError` if an allocation fails. The commands run before keep their effect and their
    /// replies, nothing after them is done, and the client is closing.
    pub fn take(
        &mut self,
        client: &mut Client,
        piece: &[u8],
        held: usize,
    ) -> Result<usize, AllocError>
        // The bytes that came since the last request and those that were used are requests, which
        // were done in order, each while at most `held` bytes waited, and a rest. The client has
        // begun the next request with the rest; or the rest is rejected; or it is ignored, since
        // the client was closing.
        ensures taken { WhereUnfinished self.old client.old (λ front. IfOk result (λ used.
            Takes held (front ++ take used piece.now) self.old self.new client.old client.new)) }
        // Some of the requests were done. Then the client was closed.
        ensures failed { WhereUnfinished self.old client.old (λ front. OnErr result
            (TakesFirst held (front ++ piece.now) self.old self.new client.old client.new)) }
        ensures closed { OnErr result ((standing_of client.new).closing ≡ true) }
        ensures within { IfOk result (λ used. used ≤ length piece.now) }
        // Bytes are left only if more than `held` bytes wait.
        ensures left { IfOk result (λ used. used < length piece.now → IsFull held client.new) }
        ensures onward { length (waiting_of client.old) ≤ held → 0 < length piece.now →
            IfOk result (λ used. 0 < used) }
        // Nothing else of the server is changed.
        ensures same_server { self.new ≡ record self.old { stores = self.new.stores } }
    {
        let mut used = 0;
        while used < piece.len() && !client.closing && client.out.len() <= held {
            match self.take_one(client, &piece[used..]) {
                // This never happens, since a request has a byte. It shows that the loop ends.
                Ok(Some(0)) => return Ok(piece.len()),
                Ok(Some(count)) => used += count,
                Ok(None) => return Ok(piece.len()),
                Err(TakeError::Rejected(why)) => {
                    return match reject(client, why) {
                        Ok(()) => Ok(piece.len()),
                        Err(AllocError) => Err(AllocError),
                    };
                }
                Err(TakeError::OutOfMemory) => {
                    client.shut();
                    return Err(AllocError);
                }
            }
        }
        if client.closing {
            client.shut();
            return Ok(piece.len());
        }
        Ok(used)
    }

    /// Takes bytes up to the end of a request, and runs it. Returns the number of bytes, or `None`
    /// if the request does not end in the piece. Then all bytes of the piece are held.
    ///
    /// # Errors
    ///
    /// The reason why the bytes are rejected, or `OutOfMemory`. Then nothing was done.
    fn take_one(&mut self, client: &mut Client, piece: &[u8]) -> Result<Option<usize>, TakeError>
        ensures taken { WhereUnfinished self.old client.old (λ front. IfOk result (λ found.
            TakesOne self.old.limits front piece.now found (progress_of self.old client.old)
            (progress_of self.new client.new) client.new)) }
        ensures rejected { WhereUnfinished self.old client.old (λ front. IfErr result
            (OnRejection (Rejects self.old.limits (front ++ piece.now)))) }
        ensures unchanged { OnErr result (progress_of self.new client.new ≡
            progress_of self.old client.old) }
        ensures onward { WhereUnfinished self.old client.old (λ front. IfOk result (λ found.
            IfSome found (λ used. 0 < used))) }
        ensures within { IfOk result (λ found. IfSome found (λ used. used ≤ length piece.now)) }
        ensures same_server { self.new ≡ record self.old { stores = self.new.stores } }
    {
        if client.unfinished.is_line(true, piece) {
            self.take_line(client, piece)
        } else {
            self.take_array(client, piece)
        }
    }

    /// Takes bytes up to the end of a line, and runs the command of this line. A line without words has
    /// no command.
    fn take_line(&mut self, client: &mut Client, piece: &[u8]) -> Result<Option<usize>, TakeError>
        ensures taken { HasBegun (rules_under Two self.old.limits) client.old.unfinished.begun [] →
            GoesOn client.old.unfinished.line.items piece.now → IfOk result (λ found.
            TakesOne self.old.limits client.old.unfinished.line.items piece.now found
            (progress_of self.old client.old) (progress_of self.new client.new) client.new) }
        ensures rejected { GoesOn client.old.unfinished.line.items piece.now → IfErr result
            (OnRejection (Rejects self.old.limits
            (client.old.unfinished.line.items ++ piece.now))) }
        ensures unchanged { OnErr result (progress_of self.new client.new ≡
            progress_of self.old client.old) }
        ensures onward { IfOk result (λ found. IfSome found (λ used. 0 < used)) }
        ensures within { IfOk result (λ found. IfSome found (λ used. used ≤ length piece.now)) }
        ensures same_server { self.new ≡ record self.old { stores = self.new.stores } }
    {
        no_spelling_begins_another();
        let command = match next_inline(
            self.alloc,
            &self.limits,
            &mut client.unfinished.line,
            piece,
        ) {
            Ok(Some(command)) => command,
            Ok(None) => return Ok(None),
            Err(error) => return Err(rejection_of_line(error)),
        };
        let Some(text) = &command.text else {
            return Ok(Some(command.used));
        };
        match self.run(client, text.as_slice()) {
            Ok(()) => Ok(Some(command.used)),
            Err(error) => Err(error),
        }
    }

    /// Takes bytes up to the end of an array, and runs the command that it is.
    fn take_array(&mut self, client: &mut Client, piece: &[u8]) -> Result<Option<usize>, TakeError>
        ensures taken { (front : List ℕ) →
            HasArray (rules_under Two self.old.limits) client.old.unfinished front →
            IfOk result (λ found. TakesOne self.old.limits front piece.now found
            (progress_of self.old client.old) (progress_of self.new client.new) client.new) }
        ensures rejected { (front : List ℕ) →
            HasArray (rules_under Two self.old.limits) client.old.unfinished front →
            IfErr result (OnRejection (Rejects self.old.limits (front ++ piece.now))) }
        ensures unchanged { OnErr result (progress_of self.new client.new ≡
            progress_of self.old client.old) }
        ensures onward { (front : List ℕ) →
            HasArray (rules_under Two self.old.limits) client.old.unfinished front →
            IfOk result (λ found. IfSome found (λ used. 0 < used)) }
        ensures within { IfOk result (λ found. IfSome found (λ used. used ≤ length piece.now)) }
        ensures same_server { self.new ≡ record self.old { stores = self.new.stores } }
    {
        let found = match self
            .frames
            .next_request(&mut client.unfinished.begun, piece)
        {
            Ok(found) => found,
            Err(error) => return Err(rejection_of(error)),
        };
        let command = match found {
            Some(Request::Command(command)) => command,
            Some(Request::Empty(used)) => return Ok(Some(used)),
            None => return Ok(None),
        };
        match self.run(client, command.frame.text()) {
            Ok(()) => Ok(Some(command.frame.used())),
            Err(error) => Err(error),
        }
    }
}

/// Returns why bytes that are not an array of words are not taken.
fn rejection_of(error: FrameError) -> TakeError
    ensures { result ≡ taking_error error }
{
    match error {
        FrameError::Fault(fault) => TakeError::Rejected(Rejection::Faulty(fault)),
        FrameError::NotACommand => TakeError::Rejected(Rejection::NoCommand),
        FrameError::OutOfMemory => TakeError::OutOfMemory,
    }
}

/// Returns why a line that is not a command is not taken.
fn rejection_of_line(error: InlineError) -> TakeError
    ensures { result ≡ inline_error error }
{
    match error {
        InlineError::LongLine => TakeError::Rejected(Rejection::LongLine),
        InlineError::Quotes => TakeError::Rejected(Rejection::Quotes),
        InlineError::OverLimits => TakeError::Rejected(Rejection::OverLimits),
        InlineError::OutOfMemory => TakeError::OutOfMemory,
    }
}
