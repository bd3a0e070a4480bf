//! Receivers of a client's pushes.

ghost use Rattle.std.specs.Prelude.{◌≡◌, [], ◌∷◌, ◌++◌, List, OnOk, OnErr};
ghost use Rattle.resp_value.specs.declared.value.Members.{Members};

use resp_value::value::Members;
use std::alloc::Global;
use thiserror::Error;

/// The error of a sink whose allocation failed.
#[derive(Clone, Copy, Debug, PartialEq, Eq, Error)]
#[error("out of memory")]
pub struct OutOfMemory;

/// A receiver of pushes.
pub trait PushSink: Drop {
    /// The pushes that it has stored, in order.
    ghost pushes: { Self → List Members };

    /// Stores the members of a push.
    ///
    /// # Errors
    ///
    /// `OutOfMemory` if an allocation fails. Then the push is not stored.
    fn show(&mut self, items: Members) -> Result<(), OutOfMemory>
        ensures appended { OnOk result (pushes self.new ≡ pushes self.old ++ items ∷ []) }
        ensures unchanged { OnErr result (pushes self.new ≡ pushes self.old) };

    /// Returns the members of each push that it has stored, in order.
    fn shown(&self) -> &[Members]
        ensures { result.now ≡ pushes self.now };
}

/// A list of pushes.
#[derive(Drop)]
pub struct PushList {
    list: Vec<Members>,
}

impl PushList {
    ghost use Rattle.resp_client.specs.PushLists.{list_shown};

    /// Creates an empty list. Does not allocate.
    pub fn new(alloc: Global) -> PushList
        ensures { list_shown result ≡ [] }
    {
        PushList {
            list: Vec::new(alloc),
        }
    }
}

impl PushSink for PushList {
    ghost use Rattle.resp_client.specs.PushLists.{list_shown};

    ghost pushes = { list_shown };

    fn show(&mut self, items: Members) -> Result<(), OutOfMemory> {
        self.list.push(items).map_err(|_| OutOfMemory)
    }

    fn shown(&self) -> &[Members] {
        self.list.as_slice()
    }
}

/// Passes a push to the caller's sink.
pub(crate) fn show_to(sink: &mut Box<dyn PushSink>, items: Members) -> Result<(), OutOfMemory>
    ensures appended { OnOk result (pushes sink.new ≡ pushes sink.old ++ items ∷ []) }
    ensures unchanged { OnErr result (pushes sink.new ≡ pushes sink.old) }
{
    sink.show(items)
}
