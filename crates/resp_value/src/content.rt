//! The content of a bulk string, a bulk error or a verbatim string.

ghost use Rattle.std.specs.Prelude.{◌≡◌, List, IfOk};
ghost use Rattle.std.proofs.Props.{props};
ghost use Rattle.resp_value.specs.Bytes.{IsText};

use std::alloc::{AllocError, Global};

/// Any bytes, CR and LF included: the content of a bulk string or a bulk error, or the text of a
/// verbatim string after its format (Redis serialization protocol specification, "Bulk strings",
/// "Bulk errors" and "Verbatim strings").
///
/// A content has no limit of its own. The limit `length` is checked when a value is read or
/// written.
#[derive(Debug, PartialEq, Eq, Drop)]
pub struct Content {
    bytes: Vec<u8>,
    ghost are_bytes: { IsText bytes.items } by { Prim.hlevel props },
}

impl Content {
    ghost use Rattle.resp_value.specs.Values.{content_bytes};

    /// Creates a content of the given bytes, which may be empty. Does not allocate.
    pub fn new(bytes: Vec<u8>) -> Content
        ensures { content_bytes result ≡ bytes.items }
    {
        Content { bytes }
    }

    /// Returns the bytes.
    pub fn list(&self) -> &[u8]
        ensures { result.now ≡ content_bytes self.now }
    {
        self.bytes.as_slice()
    }

    /// Returns the bytes as a `Vec`. Does not allocate.
    pub fn into_vec(self) -> Vec<u8>
        ensures { result.items ≡ content_bytes self }
    {
        let Content { bytes } = self;
        bytes
    }

    /// Copies the content into newly allocated memory.
    ///
    /// # Errors
    ///
    /// `AllocError` if the allocation fails.
    pub fn try_clone(&self, alloc: Global) -> Result<Content, AllocError>
        ensures { IfOk result (λ copy. content_bytes copy ≡ content_bytes self.now) }
    {
        let bytes = Vec::from_slice(alloc, self.list())?;
        Ok(Content::new(bytes))
    }
}
