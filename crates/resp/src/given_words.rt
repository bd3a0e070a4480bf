//! The words of the command line.

use resp_cli_args::asked::Invocation;
use resp_cli_args::asking::Asking;
use resp_cli_args::words::read_words;
use resp_cli_ask::talk::bytes_of;
use resp_io::device::MemorySink;
use std::alloc::{AllocError, Global};
use std::env::{Env, FillError};
use std::str;

/// The maximum number of bytes of help, or of the line of an error.
const MOST_TEXT: usize = 65_536;

/// The text in place of a word that is not UTF-8.
const NO_TEXT: &str = "\u{fffd}";

/// The words of the command line. Those of the command of `ask` may have any bytes.
#[derive(Drop)]
pub struct GivenWords {
    texts: Vec<String>,
    /// The bytes of the words, if a word is not UTF-8.
    bytes: Option<Vec<Vec<u8>>>,
}

impl GivenWords {
    /// Returns words that are all UTF-8.
    pub(crate) fn of_texts(texts: Vec<String>) -> GivenWords {
        GivenWords { texts, bytes: None }
    }

    /// Reads the words of the command line, of which one is not UTF-8. Returns `None` if it is not a
    /// word of the command of `ask`.
    pub(crate) fn of_ask(rt: &HostRuntime) -> Result<Option<GivenWords>, AllocError> {
        let alloc = rt.alloc();
        let (mut texts, mut bytes) = (Vec::new(alloc), Vec::new(alloc));
        let mut first = None;
        for index in 0..usize::MAX {
            let Some(word) = word_at(rt, index)? else {
                break;
            };
            let text = str::from_utf8(word.as_slice());
            if text.is_err() && first.is_none() {
                first = Some(index);
            }
            texts.push(String::from_str(alloc, text.unwrap_or(NO_TEXT))?)?;
            bytes.push(word)?;
        }
        match (first, begin_of_command(alloc, texts.as_slice())?) {
            (Some(first), Some(begin)) if begin <= first => Ok(Some(GivenWords {
                texts,
                bytes: Some(bytes),
            })),
            _ => Ok(None),
        }
    }

    /// Returns the words as texts. Another text is in place of a word that is not UTF-8.
    pub(crate) fn texts(&self) -> &[String] {
        self.texts.as_slice()
    }

    /// Returns the words of the command of `ask`, which are the last words of the command line.
    pub(crate) fn of_command(
        &self,
        alloc: Global,
        asking: &Asking<'_>,
    ) -> Result<Vec<Vec<u8>>, AllocError> {
        let Some(words) = &self.bytes else {
            return bytes_of(alloc, asking.words.as_slice());
        };
        let before = words.len().saturating_sub(asking.words.len());
        let mut copies = Vec::new(alloc);
        for word in words.iter().skip(before) {
            copies.push(Vec::from_slice(alloc, word.as_slice())?)?;
        }
        Ok(copies)
    }
}

/// Returns the bytes of the word at this place, if there is one.
fn word_at(rt: &HostRuntime, index: usize) -> Result<Option<Vec<u8>>, AllocError> {
    let mut size = 256usize;
    for _ in 0..usize::BITS {
        let mut word = vec![in rt.alloc(); 0u8; size]?;
        match rt.arg(index, word.as_mut_slice()) {
            Ok(count) => {
                word.truncate(count);
                return Ok(Some(word));
            }
            Err(FillError::NotPresent) => return Ok(None),
            Err(FillError::TooLong) => size = size.saturating_add(size),
        }
    }
    Err(AllocError)
}

/// Returns the place of the first word of the command, if these words are those of `ask` with a
/// command.
fn begin_of_command(alloc: Global, texts: &[String]) -> Result<Option<usize>, AllocError> {
    let mut output = MemorySink::new(alloc, MOST_TEXT, MOST_TEXT)?;
    let mut faults = MemorySink::new(alloc, MOST_TEXT, MOST_TEXT)?;
    match read_words(alloc, texts, &mut output, &mut faults) {
        Ok(Invocation::Ask(asking)) => Ok(texts.len().checked_sub(asking.words.len())),
        _ => Ok(None),
    }
}
