//! Whole commands.

ghost use Rattle.std.specs.Prelude.{◌≡◌, ◌++◌, ◌≤◌, [], length, IfErr, IfNone, IfOk, IfSome, IsErrOf, OnErr};
ghost use Rattle.resp_frames.specs.Commands.{EndsOther, IsFrameOfWords};
ghost use Rattle.resp_frames.specs.Requests.{EndsNoRequest, IfEmpty, IsRequest, request_used};
ghost use Rattle.resp_frames.specs.Framing.{EndsValue, GoesOn, HasBegun, IsReady, RejectsIn, UsesWithin, WhereBegun, frame_limits, frame_rules};
ghost use Rattle.resp_frames.specs.Texts.{used_of};
ghost use Rattle.resp_scan.specs.Reading.{HasNoValue};

use crate::begun::Begun;
use crate::error::FrameError;
use crate::frames::Frames;
use crate::words::{CommandFrame, Request, is_empty_array, words_of};

impl Frames {
    /// Finds the end of the next command of a client, as [`Frames::next`] does. A command is an
    /// array of at least one bulk string and nothing else. A command that is complete in the piece
    /// is recognised without the scanner. Its words are counted, and its class is found in the
    /// table of commands. This allocates nothing.
    ///
    /// # Errors
    ///
    /// Those of [`Frames::next`], and `NotACommand` if the value is not a command.
    #[inline(always)]
    pub fn next_command<'a>(
        &mut self,
        begun: &mut Begun,
        piece: &'a [u8],
    ) -> Result<Option<CommandFrame<'a>>, FrameError>
        // The bytes that came since the last command are a command, and the next may begin. The words
        // are those of the command.
        ensures whole { WhereBegun self.old begun.old (λ front. EndsValue (frame_rules self.old)
            begun.new (IsFrameOfWords (frame_limits self.old) front piece.now) result) }

        // No value has ended, in any version and under any limits.
        ensures more { WhereBegun self.old begun.old (λ front. GoesOn (frame_rules self.old)
            begun.new (front ++ piece.now) result) }

        // The byte is the first that cannot follow the bytes before it, and the fault has its cause.
        ensures refused { WhereBegun self.old begun.old (λ front.
            RejectsIn (frame_rules self.old) front piece.now result) }

        // A value has ended that is no command.
        ensures no_command { WhereBegun self.old begun.old (λ front.
            IsErrOf result FrameError.NotACommand →
            EndsOther (frame_rules self.old) (frame_limits self.old) front piece.now) }
        ensures nothing_begun { WhereBegun self.old begun.old (λ front.
            OnErr result (HasBegun (frame_rules self.old) begun.new [])) }
        ensures within { UsesWithin (λ command. used_of command.frame) piece.now result }
        ensures ready { IsReady self.old → IsReady self.new }
        ensures same_rules { frame_rules self.new ≡ frame_rules self.old }
    {
        match self.next_request(begun, piece) {
            Ok(Some(Request::Command(command))) => Ok(Some(command)),
            Ok(Some(Request::Empty(_))) => Err(FrameError::NotACommand),
            Ok(None) => Ok(None),
            Err(error) => Err(error),
        }
    }

    /// Finds the end of the next command of a client, as [`Frames::next_command`] does, or of an
    /// empty array or null.
    ///
    /// # Errors
    ///
    /// Those of [`Frames::next`], and `NotACommand` if the value is neither.
    #[inline(always)]
    pub fn next_request<'a>(
        &mut self,
        begun: &mut Begun,
        piece: &'a [u8],
    ) -> Result<Option<Request<'a>>, FrameError>
        // The bytes that came since the last value are this command, or this empty array.
        ensures whole { WhereBegun self.old begun.old (λ front. EndsValue (frame_rules self.old)
            begun.new (IsRequest (frame_limits self.old) front piece.now) result) }

        // An empty array is a value that is no command.
        ensures empty { WhereBegun self.old begun.old (λ front. IfOk result (λ found.
            IfSome found (IfEmpty (λ used. EndsOther (frame_rules self.old) (frame_limits self.old)
            front piece.now)))) }

        // No value has ended, in any version and under any limits.
        ensures more { WhereBegun self.old begun.old (λ front. GoesOn (frame_rules self.old)
            begun.new (front ++ piece.now) result) }

        // The byte is the first that cannot follow the bytes before it, and the fault has its cause.
        ensures refused { WhereBegun self.old begun.old (λ front.
            RejectsIn (frame_rules self.old) front piece.now result) }

        // A value has ended that is neither a command nor an empty array.
        ensures no_request { WhereBegun self.old begun.old (λ front.
            IsErrOf result FrameError.NotACommand →
            EndsNoRequest (frame_rules self.old) (frame_limits self.old) front piece.now) }
        ensures nothing_begun { WhereBegun self.old begun.old (λ front.
            OnErr result (HasBegun (frame_rules self.old) begun.new [])) }
        ensures within { UsesWithin request_used piece.now result }
        ensures ready { IsReady self.old → IsReady self.new }
        ensures same_rules { frame_rules self.new ≡ frame_rules self.old }
    {
        if begun.held.is_none() {
            if let Some(found) = self.heads.find(piece, &self.limits) {
                return Ok(Some(Request::Command(found)));
            }
        }
        self.scan_request(begun, piece)
    }

    /// Like [`Frames::next_request`], with the scanner.
    #[inline(never)]
    fn scan_request<'a>(
        &mut self,
        begun: &mut Begun,
        piece: &'a [u8],
    ) -> Result<Option<Request<'a>>, FrameError>
        ensures whole { WhereBegun self.old begun.old (λ front. EndsValue (frame_rules self.old)
            begun.new (IsRequest (frame_limits self.old) front piece.now) result) }
        ensures empty { WhereBegun self.old begun.old (λ front. IfOk result (λ found.
            IfSome found (IfEmpty (λ used. EndsOther (frame_rules self.old) (frame_limits self.old)
            front piece.now)))) }
        ensures more { WhereBegun self.old begun.old (λ front. GoesOn (frame_rules self.old)
            begun.new (front ++ piece.now) result) }
        ensures refused { WhereBegun self.old begun.old (λ front.
            RejectsIn (frame_rules self.old) front piece.now result) }
        ensures no_request { WhereBegun self.old begun.old (λ front.
            IsErrOf result FrameError.NotACommand →
            EndsNoRequest (frame_rules self.old) (frame_limits self.old) front piece.now) }
        ensures nothing_begun { WhereBegun self.old begun.old (λ front.
            OnErr result (HasBegun (frame_rules self.old) begun.new [])) }
        ensures within { UsesWithin request_used piece.now result }
        ensures ready { IsReady self.old → IsReady self.new }
        ensures same_rules { frame_rules self.new ≡ frame_rules self.old }
    {
        let found = match self.next_shared(begun, piece) {
            Ok(found) => found,
            Err(error) => return Err(error),
        };
        let Some(frame) = found else {
            return Ok(None);
        };
        if let Some(words) = words_of(frame.text(), &self.limits) {
            return Ok(Some(Request::Command(CommandFrame { frame, words })));
        }
        if is_empty_array(frame.text()) {
            return Ok(Some(Request::Empty(frame.used())));
        }
        Err(FrameError::NotACommand)
    }
}
