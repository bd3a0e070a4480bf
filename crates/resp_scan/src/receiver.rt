//! What the machine passes the results of its steps to: a listener, or a slot for one event.

ghost use Rattle.std.specs.Prelude.{◌≡◌, ◌<◌, ℕ, List, Err, None, Ok, Result, Some, length};
ghost use Rattle.resp_scan.specs.declared.event.Event.TheVariants as event;
ghost use Rattle.resp_scan.specs.declared.event.Fault.{Fault};
ghost use Rattle.resp_scan.specs.declared.event.Step.{Step};
ghost use Rattle.resp_scan.specs.declared.event.TextKind.{TextKind};
ghost use Rattle.resp_scan.specs.Listening.{Hears, IsTextOf, whole_text_events};
ghost use Rattle.resp_scan.specs.Machine.Passing.{HearsStep, TurnsBy, gives};
ghost use Rattle.resp_scan.specs.Machine.Slots.{FillsStep};
ghost use Rattle.resp_scan.specs.Machine.Turns.{turn_of};

use crate::event::{Event, Fault, TextKind};
use crate::listen::{Turn, Turned};
use crate::listener::Listener;
use crate::slot::Slot;
use resp_value::kind::OpenKind;

/// A receiver of the results of the machine's steps, which chooses what a turn returns.
pub(crate) trait Receiver {
    /// The result of a turn.
    type Answer;

    /// The receiver before a call and after it, the result of the turn, and the result of the step
    /// that it received.
    ghost takes: { Self → Self → Self.Answer → Result Step Fault → Type 0 };

    /// The same for a text that used this number of bytes, of this kind and with these bytes,
    /// together with its end.
    ghost takes_text: { Self → Self → Self.Answer → ℕ → TextKind → List ℕ → Type 0 };

    /// Null.
    fn take_null(&mut self, used: usize) -> Self::Answer
        ensures { takes self.old self.new result (gives used event.Null) };

    /// A boolean.
    fn take_truth(&mut self, used: usize, truth: bool) -> Self::Answer
        ensures { takes self.old self.new result (gives used (event.Bool truth)) };

    /// An integer.
    fn take_int(&mut self, used: usize, number: i64) -> Self::Answer
        ensures { takes self.old self.new result (gives used (event.Int number)) };

    /// A text begins.
    fn take_text(&mut self, used: usize, kind: TextKind) -> Self::Answer
        ensures { takes self.old self.new result (gives used (event.Text kind)) };

    /// Some consecutive bytes of the text, at least one.
    fn take_part(&mut self, used: usize, bytes: &[u8]) -> Self::Answer
        requires { 0 < length bytes.now }
        ensures { takes self.old self.new result (gives used (event.Part bytes.entry)) };

    /// The text has ended.
    fn take_text_end(&mut self, used: usize) -> Self::Answer
        ensures { takes self.old self.new result (gives used event.TextEnd) };

    /// An aggregate begins.
    fn take_open(&mut self, used: usize, kind: OpenKind, count: Option<u64>) -> Self::Answer
        ensures { takes self.old self.new result (gives used (event.Open kind count)) };

    /// The innermost aggregate has ended.
    fn take_close(&mut self, used: usize) -> Self::Answer
        ensures { takes self.old self.new result (gives used event.Close) };

    /// The value has ended.
    fn take_done(&mut self, used: usize) -> Self::Answer
        ensures { takes self.old self.new result (gives used event.Done) };

    /// Receives the end of the piece, after the `used` bytes that were left of it.
    fn take_end(&mut self, used: usize) -> Self::Answer
        ensures { takes self.old self.new result (Ok (record { used = used; event = None })) };

    /// Receives a fault.
    fn take_fault(&mut self, fault: Fault) -> Self::Answer
        ensures { takes self.old self.new result (Err fault) };

    /// Receives a text that is completely in the piece, for which `used` bytes were used.
    fn take_whole_text(&mut self, used: usize, kind: TextKind, bytes: &[u8]) -> Self::Answer
        requires { IsTextOf kind bytes.now }
        ensures { takes_text self.old self.new result used kind bytes.now };
}

impl<L: Listener> Receiver for L {
    type Answer = Turned;

    ghost takes = { λ old new turned step. HearsStep (Hears (L.has_heard old) (L.has_heard new)
        (L.has_stopped new)) (new ≡ old) step turned };

    ghost takes_text = { λ old new turned used kind bytes. TurnsBy used turned
        (Hears (L.has_heard old) (L.has_heard new) (L.has_stopped new)
        (whole_text_events kind bytes)) };

    #[inline(always)]
    fn take_null(&mut self, used: usize) -> Turned {
        told(used, self.null())
    }

    #[inline(always)]
    fn take_truth(&mut self, used: usize, truth: bool) -> Turned {
        told(used, self.truth(truth))
    }

    #[inline(always)]
    fn take_int(&mut self, used: usize, number: i64) -> Turned {
        told(used, self.int(number))
    }

    #[inline(always)]
    fn take_text(&mut self, used: usize, kind: TextKind) -> Turned {
        told(used, self.text(kind))
    }

    #[inline(always)]
    fn take_part(&mut self, used: usize, bytes: &[u8]) -> Turned {
        told(used, self.part(bytes))
    }

    #[inline(always)]
    fn take_text_end(&mut self, used: usize) -> Turned {
        told(used, self.text_end())
    }

    #[inline(always)]
    fn take_open(&mut self, used: usize, kind: OpenKind, count: Option<u64>) -> Turned {
        told(used, self.open(kind, count))
    }

    #[inline(always)]
    fn take_close(&mut self, used: usize) -> Turned {
        told(used, self.close())
    }

    #[inline(always)]
    fn take_done(&mut self, used: usize) -> Turned {
        ends(used, Turn::Done)
    }

    #[inline(always)]
    fn take_end(&mut self, used: usize) -> Turned {
        ends(used, Turn::More)
    }

    #[inline(always)]
    fn take_fault(&mut self, _fault: Fault) -> Turned {
        ends(0, Turn::Failed)
    }

    #[inline(always)]
    fn take_whole_text(&mut self, used: usize, kind: TextKind, bytes: &[u8]) -> Turned {
        told(used, self.whole_text(kind, bytes))
    }
}

/// A slot as a receiver.
#[derive(Drop)]
pub(crate) struct Filling<'a, S> {
    pub(crate) slot: &'a mut S,
}

impl<S: Slot> Receiver for Filling<'_, S> {
    type Answer = Result<Option<usize>, Fault>;

    ghost takes = { λ old new answer step. (old.slot.ghost_name ≡ new.slot.ghost_name) ×
        FillsStep (S.shows new.slot.now) (new.slot.now ≡ old.slot.now) step answer };

    ghost takes_text = { λ old new answer used kind bytes.
        (old.slot.ghost_name ≡ new.slot.ghost_name) ×
        (answer ≡ Ok (Some used)) × S.shows_text new.slot.now kind bytes };

    #[inline(always)]
    fn take_null(&mut self, used: usize) -> Result<Option<usize>, Fault> {
        self.slot.event(Event::Null);
        Ok(Some(used))
    }

    #[inline(always)]
    fn take_truth(&mut self, used: usize, truth: bool) -> Result<Option<usize>, Fault> {
        self.slot.event(Event::Bool(truth));
        Ok(Some(used))
    }

    #[inline(always)]
    fn take_int(&mut self, used: usize, number: i64) -> Result<Option<usize>, Fault> {
        self.slot.event(Event::Int(number));
        Ok(Some(used))
    }

    #[inline(always)]
    fn take_text(&mut self, used: usize, kind: TextKind) -> Result<Option<usize>, Fault> {
        self.slot.event(Event::Text(kind));
        Ok(Some(used))
    }

    #[inline(always)]
    fn take_part(&mut self, used: usize, bytes: &[u8]) -> Result<Option<usize>, Fault> {
        self.slot.event(Event::Part(bytes));
        Ok(Some(used))
    }

    #[inline(always)]
    fn take_text_end(&mut self, used: usize) -> Result<Option<usize>, Fault> {
        self.slot.event(Event::TextEnd);
        Ok(Some(used))
    }

    #[inline(always)]
    fn take_open(
        &mut self,
        used: usize,
        kind: OpenKind,
        count: Option<u64>,
    ) -> Result<Option<usize>, Fault> {
        self.slot.event(Event::Open(kind, count));
        Ok(Some(used))
    }

    #[inline(always)]
    fn take_close(&mut self, used: usize) -> Result<Option<usize>, Fault> {
        self.slot.event(Event::Close);
        Ok(Some(used))
    }

    #[inline(always)]
    fn take_done(&mut self, used: usize) -> Result<Option<usize>, Fault> {
        self.slot.event(Event::Done);
        Ok(Some(used))
    }

    #[inline(always)]
    fn take_end(&mut self, _used: usize) -> Result<Option<usize>, Fault> {
        Ok(None)
    }

    #[inline(always)]
    fn take_fault(&mut self, fault: Fault) -> Result<Option<usize>, Fault> {
        Err(fault)
    }

    #[inline(always)]
    fn take_whole_text(
        &mut self,
        used: usize,
        kind: TextKind,
        bytes: &[u8],
    ) -> Result<Option<usize>, Fault> {
        self.slot.text(kind, bytes);
        Ok(Some(used))
    }
}

/// Returns a turn that passed no event to the listener.
#[inline(always)]
fn ends(used: usize, turn: Turn) -> Turned
    ensures { result ≡ record { used = used; turn = turn } }
{
    Turned { used, turn }
}

/// Returns a turn that passed an event, with the listener's decision whether to continue.
#[inline(always)]
fn told(used: usize, goes_on: bool) -> Turned
    ensures { result ≡ record { used = used; turn = turn_of goes_on } }
{
    let turn = if goes_on { Turn::On } else { Turn::Stopped };
    Turned { used, turn }
}
