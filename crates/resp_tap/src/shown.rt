//! The state of a tap.

ghost use Rattle.std.specs.Prelude.{◌≡◌, [], length, false, true};
ghost use Rattle.resp_tap.specs.Taps.{tap_state};
ghost use Rattle.resp_tap.specs.Watching.{HasTakenSomeRequest, HasTakenSomeValue, WhereRequested};

use crate::tap::Tap;

impl Tap {
    /// Returns whether the bytes of the client are still read. They are read until the first error
    /// in them.
    pub fn reads_commands(&self) -> bool
        ensures reads { result ≡ (tap_state self.now).reads_commands }
        ensures some { HasTakenSomeRequest self.now }
    {
        self.requests.is_reading()
    }

    /// Returns whether the bytes of the server are still read. They are read until the first error
    /// in them.
    pub fn reads_replies(&self) -> bool
        ensures reads { result ≡ (tap_state self.now).reads_replies }
        ensures some { HasTakenSomeValue self.now }
    {
        self.values.is_reading()
    }

    /// Returns whether the client has sent no part of a command.
    pub(crate) fn is_between(&self) -> bool
        ensures between { result ≡ true → WhereRequested self.now (λ front. front ≡ []) }
        ensures inside { result ≡ false → WhereRequested self.now (λ front. front ≡ [] → ⊥) }
    {
        self.requests.taken() == 0
    }

    /// Returns the number of commands that wait for their replies. MONITOR and other commands after
    /// which values belong to no command wait for a RESET.
    pub fn waiting(&self) -> u64
        ensures { result ≡ length (tap_state self.now).line.due }
    {
        self.line.waiting()
    }
}
