//! Servers whose clients are served over devices.

ghost use Rattle.std.specs.Prelude.{◌≡◌, ◌<◌, ℕ, Bool, List, [], false, is_some, length, take, true, IfErr, IfOk, IfSome, OnErr, OnOk};
ghost use Rattle.resp_io.specs.Devices.{failures_after};
ghost use Rattle.resp_io.specs.Turns.{Halts, Spends, has_failed, stopped_by};
ghost use Rattle.resp_wire.specs.Visits.{GoesOnWith, Sends, UsesWithin};

use resp_io::Halt;
use resp_io::device::Sink;
use std::alloc::AllocError;

/// A server with clients, each with replies that wait to be written to it. `C` is the server's type
/// for a client: its id, or its state.
///
/// The ghost members state what a server knows about a client.
pub trait Sessions<C> {
    /// Whether the server has this client.
    ghost has: { Self → C → Bool };

    /// Holds if the server has this client, in a state in which it can be given bytes.
    ghost knows: { Self → C → Type 0 };

    /// Whether no more commands of the client are run.
    ghost closing: { Self → C → Bool };

    /// The bytes that wait to be written to the client.
    ghost waiting: { Self → C → List ℕ };

    /// Holds if the client was given exactly these bytes since the first state, while at most so
    /// many bytes waited before each command, and this text was written to it.
    ghost has_served: { ℕ → Self → C → Self → C → List ℕ → List ℕ → Type 0 };

    /// Holds if the client was given only the first of these bytes since the first state, since an
    /// allocation failed, and this text was written to it.
    ghost has_cut_short: { ℕ → Self → C → Self → C → List ℕ → List ℕ → Type 0 };

    /// Holds if the client was given these bytes, while at most so many bytes waited before each
    /// command.
    ghost takes: { ℕ → Self → C → Self → C → List ℕ → Type 0 };

    /// Holds if this text was written to the client. It is the beginning of the bytes that waited.
    ghost writes: { Self → C → Self → C → List ℕ → Type 0 };

    /// Returns whether no more commands of a client are run, or `None` if the server does not have
    /// the client.
    fn find(&self, client: &C) -> Option<bool>
        ensures found { is_some result ≡ has self.now client.now }
        ensures known { IfSome result (λ is_closing. knows self.now client.now) }
        ensures closing { IfSome result (λ is_closing.
            is_closing ≡ closing self.now client.now) }
        ensures nothing { (held : ℕ) →
            has_served held self.now client.now self.now client.now [] [] };

    /// Gives the server a piece of the bytes that a client has sent. Runs the commands that are
    /// complete with this piece, in order, while at most `held` bytes wait to be written to the
    /// client. Returns the number of bytes that were used.
    ///
    /// # Errors
    ///
    /// `AllocError` if an allocation fails. Then the client is closing.
    fn give(&mut self, client: &mut C, piece: &[u8], held: usize) -> Result<usize, AllocError>
        requires here { knows self.old client.old }
        requires is_open { closing self.old client.old ≡ false }
        requires none_waits { waiting self.old client.old ≡ [] }
        ensures still_here { knows self.new client.new }
        ensures taken { IfOk result (λ used. takes held self.old client.old self.new client.new
            (take used piece.now)) }
        ensures served { IfOk result (λ used. GoesOnWith (has_served held) (has_served held)
            self.old client.old self.new client.new (take used piece.now)) }
        ensures cut_short { OnErr result (GoesOnWith (has_served held) (has_cut_short held)
            self.old client.old self.new client.new piece.now) }
        ensures closed { OnErr result (closing self.new client.new ≡ true) }
        ensures within { IfOk result (λ used. UsesWithin held
            (length (waiting self.new client.new)) (closing self.new client.new)
            (length piece.now) used) };

    /// Writes the bytes that wait to be written to a client, with as many writes as they need, and
    /// removes those that were written. Each write uses one of the turns that are left. Returns
    /// whether no more commands of the client are run.
    ///
    /// # Errors
    ///
    /// Why writing stopped. The other bytes still wait.
    fn send<W: Sink>(
        &mut self,
        client: &mut C,
        writer: &mut W,
        turns: &mut u64,
    ) -> Result<bool, Halt>
        requires here { knows self.old client.old }
        ensures still_here { knows self.new client.new }
        ensures sent { Sends has_served writes (W.written writer.old) (W.written writer.new)
            self.old client.old self.new client.new }
        ensures all { OnOk result (waiting self.new client.new ≡ []) }
        ensures part { OnErr result (0 < length (waiting self.new client.new)) }
        ensures closing { IfOk result (λ is_closing.
            is_closing ≡ closing self.new client.new) }
        ensures same_closing { closing self.new client.new ≡ closing self.old client.old }
        ensures failures { W.failures writer.new ≡
            failures_after (stopped_by has_failed result) (W.failures writer.old) }
        ensures turns { Spends (W.calls writer.old) (W.calls writer.new) turns.old turns.new }
        ensures halted { IfErr result (Halts (W.failures writer.old) (W.failures writer.new)
            turns.new) };
}
