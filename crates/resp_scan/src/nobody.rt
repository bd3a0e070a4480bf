//! A listener that ignores all events.

use crate::event::TextKind;
use crate::listener::Listener;
use resp_value::kind::OpenKind;

/// Ignores all events, and never stops.
///
/// [`Scanner::scan`](crate::scanner::Scanner::scan) is compiled for each listener, so each number
/// has its own loop. If a number has only one caller, the compiler inlines its loop.
#[derive(Clone, Copy)]
pub struct Nobody<const LOOP: usize>;

impl<const LOOP: usize> Listener for Nobody<LOOP> {
    ghost Origin = { Unit {0} };

    ghost has_heard = { λ _ _ _. Unit {0} };

    ghost has_stopped = { λ _ _ _. ⊥ };

    #[inline]
    fn null(&mut self) -> bool {
        true
    }

    #[inline]
    fn truth(&mut self, _truth: bool) -> bool {
        true
    }

    #[inline]
    fn int(&mut self, _number: i64) -> bool {
        true
    }

    #[inline]
    fn text(&mut self, _kind: TextKind) -> bool {
        true
    }

    #[inline]
    fn part(&mut self, _part: &[u8]) -> bool {
        true
    }

    #[inline]
    fn text_end(&mut self) -> bool {
        true
    }

    #[inline]
    fn open(&mut self, _kind: OpenKind, _count: Option<u64>) -> bool {
        true
    }

    #[inline]
    fn close(&mut self) -> bool {
        true
    }

    #[inline]
    fn whole_text(&mut self, _kind: TextKind, _bytes: &[u8]) -> bool {
        true
    }
}
