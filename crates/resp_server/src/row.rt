//! The rows of the store.

ghost use Rattle.std.specs.Prelude.{◌≡◌};
ghost use Rattle.resp_value.specs.Values.{content_bytes};

use crate::stored::Stored;
use resp_value::content::Content;

/// A value of the store with the place of its key.
#[derive(Drop)]
pub(crate) struct Row {
    /// The place of the key, counted from 0.
    pub(crate) place: usize,
    pub(crate) value: Stored,
}

impl Row {
    /// Sets the value.
    pub(crate) fn set(&mut self, value: Content)
        ensures value { self.new.value ≡ content_bytes value }
        ensures place { self.new.place ≡ self.old.place }
    {
        self.value = Stored::new(value);
    }
}
