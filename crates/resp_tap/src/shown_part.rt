//! How many bytes of each text are shown.

ghost use Rattle.std.specs.Prelude.{◌≡◌, ◌≤◌, None, Some, max};
ghost use Rattle.std.specs.Option.{ForSome};

/// The minimum number of bytes of a text that are shown.
const LEAST: usize = 12;

/// The minimum number of bytes that are kept of a word of a command.
const LEAST_OF_WORD: usize = 64;

/// How many bytes of each text are shown: all of them, or the first ones.
///
/// At least 12 bytes are shown. A tap compares the kept part of a text with the words by which replies
/// are paired with commands. The longest of them is `punsubscribe`.
#[derive(Clone, Copy, Debug, PartialEq, Eq)]
pub struct ShownPart {
    /// The maximum number of bytes of each text that are shown, or `None` if all are.
    pub most: Option<usize>,
    pub ghost enough: { ForSome most (λ most. 12 ≤ most) },
}

impl ShownPart {
    ghost use Rattle.resp_tap.specs.Parts.{kept_bytes, kept_for};

    /// All bytes of each text are shown.
    pub fn all() -> ShownPart
        ensures { result.most ≡ None }
    {
        ShownPart { most: None }
    }

    /// The first bytes of each text are shown: this many, and at least 12.
    pub fn first(bytes: usize) -> ShownPart
        ensures { result.most ≡ Some (max bytes 12) }
    {
        ShownPart {
            most: Some(bytes.max(LEAST)),
        }
    }

    /// Returns the part of each word of a command that is kept: at least 64 bytes, as many as are shown,
    /// and at least this many.
    pub(crate) fn of_words(self, least: usize) -> ShownPart
        ensures { result.most ≡ kept_for least self.most }
    {
        match self.most {
            None => ShownPart::all(),
            Some(most) => ShownPart::first(most.max(least.max(LEAST_OF_WORD))),
        }
    }

    /// Returns the maximum number of bytes of a text that are shown.
    pub(crate) fn bytes(self) -> usize
        ensures { result ≡ kept_bytes self.most }
    {
        self.most.unwrap_or(usize::MAX)
    }
}
