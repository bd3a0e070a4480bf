//! The words of a command, borrowed from a piece or from a value that the decoder has read.

ghost use Rattle.std.specs.Prelude.{◌≡◌, length};
ghost use Rattle.std.specs.Iterator.{at_most};
ghost use Rattle.std.specs.Map.Iter.{TakesFirst, deref};
ghost use Rattle.resp_server.specs.Words.{words_left};

use resp_scan::whole;
use resp_session::words as read;

/// The words of a command that were not taken yet, in order.
#[derive(Drop)]
pub(crate) enum Words<'a> {
    /// They are in the piece.
    Lent(whole::CommandArguments<'a>),
    /// The decoder has read them. The number counts the words taken.
    Read(&'a read::Words, usize),
}

impl<'a> Words<'a> {
    /// Returns the number of words.
    #[inline(always)]
    pub(crate) fn len(&self) -> u64
        ensures { result ≡ length (words_left self.now) }
    {
        match self {
            Words::Lent(words) => words.len(),
            Words::Read(words, taken) => words.len().saturating_sub(*taken) as u64,
        }
    }
}

impl<'a> Iterator for Words<'a> {
    type Item = &'a [u8];

    ghost next_gives = { λ old given new. TakesFirst deref (words_left old) given (words_left new) };

    ghost remaining = { λ words. at_most (length (words_left words)) };

    #[inline(always)]
    fn next(&mut self) -> Option<&'a [u8]> {
        match self {
            Words::Lent(words) => words.next(),
            Words::Read(words, taken) => {
                if *taken >= words.len() {
                    return None;
                }
                let word = words.word(*taken);
                *taken += 1;
                Some(word)
            }
        }
    }
}
