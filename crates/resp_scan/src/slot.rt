//! Receivers of one event at a time.

ghost use Rattle.std.specs.Prelude.{ℕ, List};
ghost use Rattle.resp_scan.specs.declared.event.Event.{Event};
ghost use Rattle.resp_scan.specs.declared.event.TextKind.{TextKind};
ghost use Rattle.resp_scan.specs.Listening.{IsTextOf};

use crate::event::{Event, TextKind};

/// A receiver that keeps one event, in place of the event before it.
pub trait Slot {
    /// The slot holds this event.
    ghost shows: { Self → Event → Type 0 };

    /// The slot holds a text of this kind and with these bytes, together with its end.
    ghost shows_text: { Self → TextKind → List ℕ → Type 0 };

    /// Receives an event.
    fn event(&mut self, event: Event<'_>)
        ensures { shows self.new event.entry };

    /// Receives a simple string, a simple error, a double or a counted bulk string that is
    /// completely in the piece. This one call replaces [`Event::Text`], [`Event::Part`] and
    /// [`Event::TextEnd`].
    fn text(&mut self, kind: TextKind, bytes: &[u8])
        requires { IsTextOf kind bytes.now }
        ensures { shows_text self.new kind bytes.now };
}
