//! Receivers of all events of a value.

ghost use Rattle.std.specs.Prelude.{[], ◌∷◌, ◌<◌, length};
ghost use Rattle.resp_fronts.specs.Events as e;
ghost use Rattle.resp_value.specs.Kinds.{kind_of};
ghost use Rattle.resp_scan.specs.Kinds.{content_events, text_kind_of};
ghost use Rattle.resp_scan.specs.Reading.{Events};
ghost use Rattle.resp_scan.specs.Listening.{Hears, IsTextOf, whole_text_events};

use crate::event::TextKind;
use resp_value::kind::OpenKind;

/// A receiver of the events of a value, in order. Each call returns whether to continue. If it
/// returns false, the scanner stops for good.
///
/// The ghost members state what a listener knows about the events, so that it does not have to
/// store them. For example, a decoder states that it holds their values, a counter that it has
/// their number, and a writer that their text was written after its earlier contents.
///
/// # Examples
///
/// A listener that counts integers and makes no promise, from
/// [samples](../../samples/src/scanning.rt). The functions for the other events return true.
///
/// ```rust
/// impl Listener for Counter {
///     ghost Origin = { Unit {0} };
///
///     ghost has_heard = { λ _ _ _. Unit {0} };
///
///     ghost has_stopped = { λ _ _ _. Unit {0} };
///     // ..
///     fn int(&mut self, _number: i64) -> bool {
///         self.integers = self.integers.saturating_add(1);
///         true
///     }
///     // ..
/// }
/// ```
pub trait Listener {
    /// The state before the value began that the listener has to remember, such as the text that
    /// was already written.
    ghost Origin: { Type 0 };

    /// Holds if the listener has received exactly these events of the value, since that state.
    ghost has_heard: { Self → Origin → Events → Type 0 };

    /// Holds if the listener has received these events since that state, and stopped at the last of
    /// them.
    ghost has_stopped: { Self → Origin → Events → Type 0 };

    /// Null, in any of its encodings.
    fn null(&mut self) -> bool
        ensures { Hears (has_heard self.old) (has_heard self.new) (has_stopped self.new)
            (e.Null ∷ []) result };

    /// A boolean.
    fn truth(&mut self, truth: bool) -> bool
        ensures { Hears (has_heard self.old) (has_heard self.new) (has_stopped self.new)
            (e.Bool truth ∷ []) result };

    /// An integer.
    fn int(&mut self, number: i64) -> bool
        ensures { Hears (has_heard self.old) (has_heard self.new) (has_stopped self.new)
            (e.Int number ∷ []) result };

    /// A text begins. Its parts follow, and then its end.
    fn text(&mut self, kind: TextKind) -> bool
        ensures { Hears (has_heard self.old) (has_heard self.new) (has_stopped self.new)
            (e.Text (text_kind_of kind) ∷ []) result };

    /// Some consecutive bytes of the text, at least one. They are borrowed from the piece, except
    /// that the first digit of a big number is borrowed from a constant.
    fn part(&mut self, part: &[u8]) -> bool
        requires { 0 < length part.now }
        ensures { Hears (has_heard self.old) (has_heard self.new) (has_stopped self.new)
            (content_events part.now) result };

    /// The text has ended.
    fn text_end(&mut self) -> bool
        ensures { Hears (has_heard self.old) (has_heard self.new) (has_stopped self.new)
            (e.TextEnd ∷ []) result };

    /// An aggregate begins. The number is that of its members, or of its pairs if it is a map or an
    /// attribute. It is `None` if the aggregate is streamed. Its members follow, and then its
    /// close.
    fn open(&mut self, kind: OpenKind, count: Option<u64>) -> bool
        ensures { Hears (has_heard self.old) (has_heard self.new) (has_stopped self.new)
            (e.Open (kind_of kind) count ∷ []) result };

    /// The innermost aggregate has ended. An attribute ends after the value that it annotates.
    fn close(&mut self) -> bool
        ensures { Hears (has_heard self.old) (has_heard self.new) (has_stopped self.new)
            (e.Close ∷ []) result };

    /// A simple string, a simple error, a double or a counted bulk string that is completely in the
    /// piece.
    ///
    /// The scanner may deliver a complete text in this one call, but is not required to. It may
    /// call [`Listener::text`], [`Listener::part`] and [`Listener::text_end`] instead, as the
    /// default implementation of this function does.
    fn whole_text(&mut self, kind: TextKind, bytes: &[u8]) -> bool
        requires { IsTextOf kind bytes.now }
        ensures { Hears (has_heard self.old) (has_heard self.new) (has_stopped self.new)
            (whole_text_events kind bytes.now) result }
    {
        if !self.text(kind) {
            return false;
        }
        if bytes.is_empty() {
            return self.text_end();
        }
        if !self.part(bytes) {
            return false;
        }
        self.text_end()
    }
}
