//! The incomplete value of a connection.

ghost use Rattle.resp_frames.specs.Framing.{HasBegun};
ghost use Rattle.resp_value.specs.Rules.{Rules};
ghost use Rattle.std.specs.Prelude.{◌≡◌, ◌↔◌, ℕ, List, [], IsTrue};

use resp_scan::scanner::Scanner;

/// The bytes of an incomplete value, and the scanner that has read them.
#[derive(Drop)]
pub(crate) struct BegunValue {
    pub(crate) scanner: Box<Scanner>,
    pub(crate) bytes: Vec<u8>,
}

/// The incomplete value of a connection. Between two values it holds no memory.
#[derive(Drop)]
pub struct Begun {
    pub(crate) held: Option<Box<BegunValue>>,
}

impl Begun {
    /// Returns a connection between two values.
    pub fn new() -> Begun
        ensures nothing { (rules : Rules) → HasBegun rules result [] }
    {
        Begun { held: None }
    }

    /// Returns whether no byte of a value was received.
    pub fn is_empty(&self) -> bool
        ensures { (rules : Rules) (front : List ℕ) → HasBegun rules self.now front →
            IsTrue result ↔ (front ≡ []) }
    {
        match &self.held {
            Some(held) => held.bytes.is_empty(),
            None => true,
        }
    }
}
