//! Reads the words of a line, with the quoting of redis-cli.

ghost use Rattle.std.specs.Prelude.{◌≡◌, ◌≢◌, ◌≤◌, ◌<◌, ◌++◌, [], ◌∷◌, ℕ, List, true, length, IfErr, IfNone, IfOk, IfSome, IsSome, OnOk};
ghost use Rattle.std.specs.List.{AllByRecursion};
ghost use Rattle.resp_value.specs.Words.{texts_of};
ghost use Rattle.resp_line.specs.Lines.{AreWords, EndsBare, EndsQuote, FollowsBlanks, IfEnded, IsHexPair, IsWord, ReadsByte, ReadsUpTo, StartsWord, UnlessEnded, escaped, hex_value, is_bare, is_blank, is_space, quote_byte};

use std::alloc::{AllocError, Global};
use thiserror::Error;

/// Why a line has no words.
#[derive(Clone, Copy, Debug, PartialEq, Eq, Error)]
pub enum LineError {
    /// The quote at this byte of the line, counted from 0, is not closed.
    #[error("the quote at byte {at} is not closed")]
    Open { at: usize },
    /// A closing quote is before this byte of the line, counted from 0, which is not a blank.
    #[error("no space after the closing quote, at byte {at}")]
    NoSpace { at: usize },
    /// An allocation failed.
    #[error("out of memory")]
    Memory,
}

/// Returns whether a byte ends a word without quotes: a space, a tab or a CR.
fn is_space(byte: u8) -> bool
    ensures { result ≡ is_space byte }
{
    byte == b' ' || byte == b'\t' || byte == b'\r'
}

/// Returns whether a byte may be before a word and after a closing quote: a space, a tab, a CR, a
/// vertical tab or a form feed.
fn is_blank(byte: u8) -> bool
    ensures { result ≡ is_blank byte }
{
    is_space(byte) || byte == 11 || byte == 12
}

/// Returns whether a byte stands for itself outside quotes: it is neither a space nor a quote.
fn is_bare(byte: u8) -> bool
    ensures { result ≡ is_bare byte }
{
    !is_space(byte) && byte != b'"' && byte != b'\''
}

/// Returns a text without the blanks at its beginning.
fn without_blanks(text: &[u8]) -> &[u8]
    ensures blanks { FollowsBlanks text.now result.now }
    ensures starts { 0 < length result.now → StartsWord result.now }
{
    let mut rest = text;
    while let Some((byte, beyond)) = rest.split_first() {
        if !is_blank(*byte) {
            return rest;
        }
        rest = beyond;
    }
    rest
}

/// Appends the bytes at the beginning of a text that stand for themselves outside quotes, and returns
/// the bytes after them.
fn read_bare<'a>(text: &'a [u8], word: &mut Vec<u8>) -> Result<&'a [u8], AllocError>
    ensures bare { IfOk result (λ rest. (bare : List ℕ) × (word.new.items ≡ word.old.items ++ bare) ×
        AllByRecursion (λ b. is_bare b ≡ true) bare × (text.now ≡ bare ++ rest.now)) }
    ensures ends { IfOk result (λ rest. EndsBare rest.now) }
{
    let mut rest = text;
    while let Some((byte, beyond)) = rest.split_first() {
        if !is_bare(*byte) {
            return Ok(rest);
        }
        word.push(*byte)?;
        rest = beyond;
    }
    Ok(rest)
}

/// Returns the value of a hexadecimal digit.
fn hex_value(byte: u8) -> Option<u8>
    ensures value { result ≡ hex_value byte }
    ensures small { IfSome result (λ value. value < 16) }
{
    match byte {
        b'0'..=b'9' => Some(byte - b'0'),
        b'a'..=b'f' => Some(byte - b'a' + 10),
        b'A'..=b'F' => Some(byte - b'A' + 10),
        _ => None,
    }
}

/// Returns the byte for a backslash and this byte.
fn escaped(byte: u8) -> u8
    ensures { result ≡ escaped byte }
{
    match byte {
        b'n' => b'\n',
        b'r' => b'\r',
        b't' => b'\t',
        b'b' => 8,
        b'a' => 7,
        _ => byte,
    }
}

/// Returns the byte after `\` that is written as `xHH`.
fn hex_byte(text: &[u8]) -> Option<u8>
    ensures some { IfSome result (λ byte. IsHexPair text.now byte) }
    ensures none { IfNone result ((byte : ℕ) → IsHexPair text.now byte → ⊥) }
    ensures three { IsSome result → 3 ≤ length text.now }
{
    if text.len() < 3 || text[0] != b'x' {
        return None;
    }
    let high = hex_value(text[1])?;
    let low = hex_value(text[2])?;
    Some(high * 16 + low)
}

/// A quote, inside which spaces separate no words.
#[derive(Clone, Copy)]
enum Quote {
    Double,
    Single,
}

impl Quote {
    /// Returns the quote that a byte is.
    fn of(byte: u8) -> Option<Quote>
        ensures quote { IfSome result (λ quote. byte ≡ quote_byte quote) }
        ensures none { IfNone result ((byte ≢ 34) × (byte ≢ 39)) }
    {
        match byte {
            b'"' => Some(Quote::Double),
            b'\'' => Some(Quote::Single),
            _ => None,
        }
    }

    /// Returns the byte of the quote.
    fn byte(self) -> u8
        ensures { result ≡ quote_byte self }
    {
        match self {
            Quote::Double => b'"',
            Quote::Single => b'\'',
        }
    }
}

/// Returns the byte with which a text in double quotes begins, and the bytes after it. Returns `None`
/// at the closing quote, at the end of the text, and at a backslash that ends the text.
fn double_byte(text: &[u8]) -> Option<(u8, &[u8])>
    ensures read { IfSome result (λ read. ReadsByte Quote.Double read.0 text.now read.1.now) }
    ensures none { IfNone result ((byte : ℕ) (rest : List ℕ) →
        ReadsByte Quote.Double byte text.now rest → ⊥) }
    ensures shorter { IfSome result (λ read. length read.1.now < length text.now) }
{
    let (byte, beyond) = text.split_first()?;
    if *byte == b'"' {
        return None;
    }
    if *byte != b'\\' {
        return Some((*byte, beyond));
    }
    if let Some(value) = hex_byte(beyond) {
        return Some((value, &beyond[3..]));
    }
    let (escape, after) = beyond.split_first()?;
    Some((escaped(*escape), after))
}

/// Returns the byte with which a text in single quotes begins, and the bytes after it. Returns `None`
/// at the closing quote and at the end of the text.
fn single_byte(text: &[u8]) -> Option<(u8, &[u8])>
    ensures read { IfSome result (λ read. ReadsByte Quote.Single read.0 text.now read.1.now) }
    ensures none { IfNone result ((byte : ℕ) (rest : List ℕ) →
        ReadsByte Quote.Single byte text.now rest → ⊥) }
    ensures shorter { IfSome result (λ read. length read.1.now < length text.now) }
{
    let (byte, beyond) = text.split_first()?;
    if *byte == b'\'' {
        return None;
    }
    if *byte == b'\\' && !beyond.is_empty() && beyond[0] == b'\'' {
        return Some((b'\'', &beyond[1..]));
    }
    Some((*byte, beyond))
}

/// Returns the byte with which a text in quotes begins, and the bytes after it, or `None`.
fn quoted_byte(text: &[u8], quote: Quote) -> Option<(u8, &[u8])>
    ensures read { IfSome result (λ read. ReadsByte quote read.0 text.now read.1.now) }
    ensures none { IfNone result ((byte : ℕ) (rest : List ℕ) →
        ReadsByte quote byte text.now rest → ⊥) }
    ensures shorter { IfSome result (λ read. length read.1.now < length text.now) }
{
    match quote {
        Quote::Double => double_byte(text),
        Quote::Single => single_byte(text),
    }
}

/// Appends the text in quotes up to the closing quote, and returns the bytes after the quote, or
/// `None` if the quote is not closed.
fn read_quoted<'a>(
    text: &'a [u8],
    quote: Quote,
    word: &mut Vec<u8>,
) -> Result<Option<&'a [u8]>, AllocError>
    ensures closed { IfOk result (λ after. IfSome after (λ rest. (content : List ℕ) ×
        (word.new.items ≡ word.old.items ++ content) ×
        ReadsUpTo quote content text.now rest.now)) }
    ensures only { IfOk result (λ after. IfSome after (λ rest. (content end : List ℕ) →
        ReadsUpTo quote content text.now end → end ≡ rest.now)) }
    ensures open { IfOk result (λ after. IfNone after ((content end : List ℕ) →
        ReadsUpTo quote content text.now end → ⊥)) }
    ensures shorter { IfOk result (λ after. IfSome after (λ rest.
        length rest.now < length text.now)) }
{
    let mut rest = text;
    while let Some((byte, after)) = quoted_byte(rest, quote) {
        word.push(byte)?;
        rest = after;
    }
    let Some((byte, after)) = rest.split_first() else {
        return Ok(None);
    };
    if *byte == quote.byte() {
        return Ok(Some(after));
    }
    Ok(None)
}

/// The end of a word.
#[derive(Clone, Copy)]
enum WordEnd<'a> {
    /// The word is complete, and these bytes follow.
    Ended(&'a [u8]),
    /// A quote is not closed. Before it are this many bytes.
    Open(usize),
    /// A byte that is not a blank follows a closing quote. These bytes follow the quote.
    NoSpace(&'a [u8]),
}

/// Reads the word at the beginning of a text into `word`, which is empty. The text begins with a
/// byte that is not a blank.
fn read_word<'a>(text: &'a [u8], word: &mut Vec<u8>) -> Result<WordEnd<'a>, AllocError>
    requires empty { word.old.items ≡ [] }
    requires begins { StartsWord text.now }
    ensures ended { IfOk result (IfEnded (IsWord word.new.items text.now)) }
    ensures only { IfOk result (IfEnded (λ rest. (other end : List ℕ) →
        IsWord other text.now end → end ≡ rest)) }
    ensures none { IfOk result (UnlessEnded ((other end : List ℕ) →
        IsWord other text.now end → ⊥)) }
{
    let rest = read_bare(text, word)?;
    let open = text.len().saturating_sub(rest.len());
    let Some((byte, inside)) = rest.split_first() else {
        return Ok(WordEnd::Ended(rest));
    };
    let Some(quote) = Quote::of(*byte) else {
        return Ok(WordEnd::Ended(rest));
    };
    let after = read_quoted(inside, quote, word)?;
    Ok(word_end(after, open))
}

/// Returns the end of a word whose quote opens after `open` bytes, with the bytes after the closing
/// quote if there is one.
fn word_end(after: Option<&[u8]>, open: usize) -> WordEnd<'_>
    ensures closed { IfSome after.entry (λ bytes. IfEnded (λ rest. (rest ≡ bytes.now) × EndsQuote rest)
        result) }
    ensures open { IfNone after.entry (IfEnded (λ _. ⊥) result) }
    ensures glued { IfSome after.entry (λ bytes.
        UnlessEnded (EndsQuote bytes.now → ⊥) result) }
{
    let Some(after) = after else {
        return WordEnd::Open(open);
    };
    match after.split_first() {
        Some((byte, _)) => {
            if is_blank(*byte) {
                WordEnd::Ended(after)
            } else {
                WordEnd::NoSpace(after)
            }
        }
        None => WordEnd::Ended(after),
    }
}

/// Appends a word.
fn push_word(words: &mut Vec<Vec<u8>>, word: Vec<u8>) -> Result<(), LineError>
    ensures pushed { OnOk result (texts_of words.new.items ≡
        texts_of words.old.items ++ word.items ∷ []) }
    ensures memory { IfErr result (λ error. error ≡ LineError.Memory) }
{
    match words.push(word) {
        Ok(()) => Ok(()),
        Err(_) => Err(LineError::Memory),
    }
}

/// Returns the words of a line without its LF. A line of blanks has no words.
///
/// Words are separated by spaces, tabs and CR. Before a word and after a closing quote, vertical tabs
/// and form feeds are blanks too. A word may end with a text in quotes. In double quotes
/// `\n`, `\r`, `\t`, `\b`, `\a` and `\xHH` stand for bytes, and a backslash before any other byte for
/// that byte. In single quotes `\'` stands for a quote.
///
/// # Errors
///
/// - [`LineError::Open`] if a quote is not closed.
/// - [`LineError::NoSpace`] if a byte other than a blank follows a closing quote.
/// - [`LineError::Memory`] if an allocation fails.
pub fn words_of(alloc: Global, line: &[u8]) -> Result<Vec<Vec<u8>>, LineError>
    ensures words { IfOk result (λ words. AreWords (texts_of words.items) line.now) }
    ensures no_words { IfErr result (λ error. error ≢ LineError.Memory →
        (words : List (List ℕ)) → AreWords words line.now → ⊥) }
{
    let mut words = Vec::new(alloc);
    let mut rest = without_blanks(line);
    while !rest.is_empty() {
        let at = line.len().saturating_sub(rest.len());
        let mut word = Vec::new(alloc);
        let after = match read_word(rest, &mut word) {
            Ok(WordEnd::Ended(after)) => after,
            Ok(WordEnd::Open(count)) => {
                return Err(LineError::Open {
                    at: at.saturating_add(count),
                });
            }
            Ok(WordEnd::NoSpace(after)) => {
                return Err(LineError::NoSpace {
                    at: line.len().saturating_sub(after.len()),
                });
            }
            Err(_) => return Err(LineError::Memory),
        };
        if let Err(error) = push_word(&mut words, word) {
            return Err(error);
        }
        rest = without_blanks(after);
    }
    Ok(words)
}
