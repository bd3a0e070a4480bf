//! The replies to one client's commands, in the order of the commands.

ghost use Rattle.std.specs.Prelude.{◌≡◌, ◌↔◌, ◌+◌, ◌-◌, ◌^◌, ◌≤◌, ◌<◌, ◌++◌, ◌∷◌, [], None, Some, length, take, IfOk, IsErr, IsErrOf, OnErr, OnOk, slice_get, slice_set};
ghost use Rattle.std.specs.List.{concat};

use crate::early::{Early, append_ready, drop_front, put};
use crate::text::Text;
use std::alloc::{AllocError, Global};
use std::collections::VecDeque;
use thiserror::Error;

/// The error of [`Desk::ask`]: no number is left for a command of the client. Nothing changes.
#[derive(Clone, Copy, Debug, PartialEq, Eq, Error)]
#[error("no number is left for a command of the client")]
pub struct TooMany;

/// The error of [`Desk::own`]: the client does not get the reply. Nothing changes.
#[derive(Clone, Copy, Debug, PartialEq, Eq, Error)]
pub enum DeskError {
    /// No number is left for a command of the client.
    #[error("no number is left for a command of the client")]
    TooMany,
    /// An allocation failed.
    #[error("out of memory")]
    OutOfMemory,
}

/// The replies to one client's commands.
///
/// Answers arrive in any order. The client is given them in the order of its commands, up to the
/// first missing one. Answers that arrive in order take no memory but their own bytes.
#[derive(Drop)]
pub struct Desk {
    alloc: Global,
    /// The number of commands.
    asked: u64,
    /// The number of replies that were added to `out`.
    done: u64,
    /// The replies after those, as far as one of them has arrived.
    early: VecDeque<Option<Early>>,
    /// The bytes that wait to be given to the client.
    out: Text,
    ghost in_range: { (done + length early.items ≤ asked) × (asked < 2 ^ 64) },
}

impl Desk {
    ghost use Rattle.resp_board.specs.Answers.{front_answers};
    ghost use Rattle.resp_board.specs.Desks.{Awaits, HasAnswers, HasNoNumberLeft, IsSame, KeepsAnswers, WhereAnswered, later, out_of, waiting_count};

    /// Returns a desk for a client without commands. Does not allocate.
    pub fn new(alloc: Global) -> Desk
        ensures nothing { HasAnswers result [] [] }
        ensures no_byte { out_of result ≡ [] }
    {
        Desk {
            alloc,
            asked: 0,
            done: 0,
            early: VecDeque::new(alloc),
            out: Text::new(alloc),
        }
    }

    /// Adds a command, and returns its number: 0 for the first one, 1 for the second one and so on.
    ///
    /// # Errors
    ///
    /// `TooMany` if the client has had 2^64 - 1 commands. Nothing changes.
    pub fn ask(&mut self) -> Result<u64, TooMany>
        ensures asked { IfOk result (λ number. WhereAnswered self.old (λ answers given.
            (number ≡ length answers) × HasAnswers self.new (answers ++ None ∷ []) given)) }
        ensures too_many { IsErr result ↔ HasNoNumberLeft self.old }
        ensures unchanged { OnErr result (KeepsAnswers self.old self.new) }
    {
        let number = self.asked;
        let Some(asked) = number.checked_add(1) else {
            return Err(TooMany);
        };
        self.asked = asked;
        Ok(number)
    }

    /// Returns the number that the next command gets.
    ///
    /// # Errors
    ///
    /// `TooMany` if the client has had 2^64 - 1 commands.
    pub fn next_number(&self) -> Result<u64, TooMany>
        ensures next { IfOk result (λ number. WhereAnswered self.now (λ answers given.
            number ≡ length answers)) }
        ensures too_many { IsErr result ↔ HasNoNumberLeft self.now }
    {
        if self.asked == u64::MAX {
            return Err(TooMany);
        }
        Ok(self.asked)
    }

    /// Takes the reply to the command of this number, which has none.
    ///
    /// # Errors
    ///
    /// `AllocError` if an allocation fails. The reply is still missing.
    pub fn answer(&mut self, number: u64, text: &[u8]) -> Result<(), AllocError>
        requires { Awaits self.old number }
        ensures answered { OnOk result (WhereAnswered self.old (λ answers given.
            HasAnswers self.new (slice_set answers number (Some text.now)) given)) }
        ensures unchanged { OnErr result (KeepsAnswers self.old self.new) }
        ensures same_bytes { OnErr result (out_of self.new ≡ out_of self.old) }
    {
        let place = number - self.done;
        self.take_answer(place, text)
    }

    /// Adds a command that has this reply.
    ///
    /// # Errors
    ///
    /// `TooMany` if the client has had 2^64 - 1 commands, and otherwise `OutOfMemory` if an
    /// allocation fails. Nothing changes.
    pub fn own(&mut self, text: &[u8]) -> Result<(), DeskError>
        ensures answered { OnOk result (WhereAnswered self.old (λ answers given.
            HasAnswers self.new (answers ++ Some text.now ∷ []) given)) }
        ensures too_many { IsErrOf result DeskError.TooMany ↔ HasNoNumberLeft self.old }
        ensures unchanged { OnErr result (KeepsAnswers self.old self.new) }
    {
        let number = self.asked;
        let Some(asked) = number.checked_add(1) else {
            return Err(DeskError::TooMany);
        };
        self.asked = asked;
        let Ok(()) = self.take_answer(number - self.done, text) else {
            self.asked = number;
            return Err(DeskError::OutOfMemory);
        };
        Ok(())
    }

    /// Takes the reply to the command at this place after those whose replies were added to `out`.
    fn take_answer(&mut self, place: u64, text: &[u8]) -> Result<(), AllocError>
        requires { slice_get (later self.old) place ≡ Some None }
        ensures answered { OnOk result (WhereAnswered self.old (λ answers given.
            HasAnswers self.new (slice_set answers (self.old.done + place) (Some text.now)) given)) }
        ensures unchanged { OnErr result (IsSame self.old self.new) }
    {
        let place = place as usize;
        if place == 0 {
            self.answer_first(text)
        } else {
            put(self.alloc, &mut self.early, place, text)
        }
    }

    /// Takes the reply to the first command without one.
    fn answer_first(&mut self, text: &[u8]) -> Result<(), AllocError>
        requires { 0 < length (later self.old) }
        ensures answered { OnOk result (WhereAnswered self.old (λ answers given.
            HasAnswers self.new (slice_set answers self.old.done (Some text.now)) given)) }
        ensures unchanged { OnErr result (IsSame self.old self.new) }
    {
        let before = self.out.len();
        self.out.append(text)?;
        let Ok(ready) = append_ready(&self.early, &mut self.out) else {
            self.out.truncate(before);
            return Err(AllocError);
        };
        drop_front(&mut self.early, ready + 1);
        self.done += ready as u64 + 1;
        Ok(())
    }

    /// Returns the bytes that wait to be given to the client. With the bytes that it was given, they
    /// are the replies to its commands in order, up to the first missing one.
    pub fn out(&self) -> &[u8]
        ensures waiting { result.now ≡ out_of self.now }
        ensures answers { WhereAnswered self.now (λ answers given.
            given ++ result.now ≡ concat (front_answers answers)) }
    {
        self.out.as_slice()
    }

    /// Removes the first `count` bytes of [`Desk::out`] after the client was given them. `count` is
    /// at most the length of [`Desk::out`].
    pub fn given(&mut self, count: usize)
        requires { count ≤ length (out_of self.old) }
        ensures { WhereAnswered self.old (λ answers given.
            HasAnswers self.new answers (given ++ take count (out_of self.old))) }
    {
        self.out.advance(self.alloc, count);
    }

    /// Returns the number of commands from the first one without a reply on.
    pub fn waiting(&self) -> u64
        ensures count { result ≡ waiting_count self.now }
        ensures unanswered { WhereAnswered self.now (λ answers given.
            result + length (front_answers answers) ≡ length answers) }
    {
        self.asked - self.done
    }
}
