//! The words of a command after its name, lent by a scanner or decoded.

ghost use Rattle.std.specs.Prelude.{◌≡◌, ℕ, List, drop, length};
ghost use Rattle.std.specs.Map.Iter.{TakesFirst, deref};

use resp_scan::whole::CommandArguments;

/// The words of a command after its name, which are read in order.
///
/// The words that a scanner lends are such words. A type that holds decoded words can implement it
/// too.
pub trait Arguments<'a>: Drop {
    /// The words that are left.
    ghost words: { Self → List (List ℕ) };

    /// Returns the number of words that are left.
    fn left(&self) -> usize
        ensures { result ≡ length (words self.now) };

    /// Returns a copy of the words that are left, to read them twice.
    fn again(&self) -> Self
        ensures { words result ≡ words self.now };

    /// Returns the next word, or `None` after the last.
    fn next_word(&mut self) -> Option<&'a [u8]>
        ensures steps { TakesFirst deref (words self.old) result (words self.new) };
}

impl<'a> Arguments<'a> for CommandArguments<'a> {
    ghost words = { λ words. words };

    #[inline]
    fn left(&self) -> usize {
        self.len() as usize
    }

    #[inline(always)]
    fn again(&self) -> Self {
        self.iter()
    }

    #[inline(always)]
    fn next_word(&mut self) -> Option<&'a [u8]> {
        self.next()
    }
}

/// Skips this many words, or all if there are fewer.
#[tactic(auto, using(crate::proofs::Blocking::dropped_more))]
pub(crate) fn skip<'a, A: Arguments<'a>>(words: &mut A, count: u8)
    ensures { A.words words.new ≡ drop count (A.words words.old) }
{
    for _ in 0..count {
        let _word = words.next_word();
    }
}
