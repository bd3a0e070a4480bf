//! Recognises heads, bulk strings and commands that are complete at the beginning of some bytes.
//! Nothing is copied, and nothing is allocated.

ghost use Rattle.std.specs.Prelude.{◌≡◌, ◌+◌, ◌≤◌, ◌<◌, ◌^◌, ◌∷◌, List, ℕ, drop, length, IfNone, IfSome};
ghost use Rattle.std.specs.Bool.{MatchBool};
ghost use Rattle.std.specs.Iterator.{at_most};
ghost use Rattle.std.specs.Map.Iter.{TakesFirst, deref};
ghost use Rattle.std.specs.Str.{byte};
ghost use Rattle.resp_value.specs.Bytes.{crlf};
ghost use Rattle.resp_value.specs.Words.{word_datum, command_of};
ghost use Rattle.resp_scan.specs.Whole.{BeginsWith, BeginsWithHead, BeginsWithWord, BeginsWithWords};
ghost use Rattle.resp_scan.specs.Machine.Wholes.{BeginsWithDigits, HasNoDigit, HasTooMany};

use crate::short::short_number;
use resp_value::limits::Limits;
use std::marker::Model;

/// The head of an array or a bulk string, and the bytes after it.
#[derive(Clone, Copy, Debug)]
pub struct WholeHead<'a> {
    /// The number in the head.
    pub number: u64,
    /// The bytes after the head.
    pub rest: &'a [u8],
}

/// A number of digits, and the index after it.
#[derive(Clone, Copy)]
struct Number {
    number: u64,
    end: usize,
}

/// Returns the number of the digits after the first byte of a text, if it is at most this one. The
/// index is that of the first byte that is not a digit.
#[inline(always)]
fn digits(text: &[u8], most: u64) -> Option<Number>
    requires some { 0 < length text.now }
    requires small { most < 2 ^ 60 }
    ensures begins { IfSome result (λ found.
        BeginsWithDigits (drop 1 text.now) found.number (drop found.end text.now)) }
    ensures ends { IfSome result (λ found. HasNoDigit (drop found.end text.now)) }
    ensures within { IfSome result (λ found. (found.number ≤ most) × (0 < found.end) ×
        (found.end ≤ length text.now)) }
    ensures none { IfNone result (HasTooMany (drop 1 text.now) most) }
{
    let mut number = 0;
    for end in 1..text.len() {
        let digit = text[end];
        if digit < b'0' || b'9' < digit {
            return Some(Number { number, end });
        }
        number = number * 10 + u64::from(digit - b'0');
        if number > most {
            return None;
        }
    }
    Some(Number {
        number,
        end: text.len(),
    })
}

/// Returns whether CR LF is at this index.
#[inline(always)]
fn is_line_end(text: &[u8], index: usize) -> bool
    requires { index ≤ length text.now }
    ensures { MatchBool result (drop index text.now ≡ crlf (drop (index + 2) text.now))
        ((rest : List ℕ) → drop index text.now ≡ crlf rest → ⊥) }
{
    if text.len() - index < 2 {
        return false;
    }
    text[index] == b'\r' && text[index + 1] == b'\n'
}

/// Returns the number in the head of this type byte at the beginning of some bytes, if it is at
/// most this one, and the index after the head. Most heads have one digit or two.
#[inline(always)]
fn head_of(text: &[u8], kind: u8, most: u64) -> Option<Number>
    requires { most < 2 ^ 60 }
    ensures begins { IfSome result (λ head.
        BeginsWithHead text.now kind head.number (drop head.end text.now)) }
    ensures within { IfSome result (λ head.
        (head.number ≤ most) × (head.end ≤ length text.now)) }
    ensures none { IfNone result ((n : ℕ) (rest : List ℕ) → n ≤ most →
        BeginsWithHead text.now kind n rest → ⊥) }
{
    if text.len() >= 5 && text[0] == kind {
        if let Some(short) = short_number(text) {
            if short.count <= most {
                return Some(Number {
                    number: short.count,
                    end: short.head,
                });
            }
        }
    }
    head_by_digits(text, kind, most)
}

/// Like `head_of`, for any number of digits.
#[inline(never)]
fn head_by_digits(text: &[u8], kind: u8, most: u64) -> Option<Number>
    requires { most < 2 ^ 60 }
    ensures begins { IfSome result (λ head.
        BeginsWithHead text.now kind head.number (drop head.end text.now)) }
    ensures within { IfSome result (λ head.
        (head.number ≤ most) × (head.end ≤ length text.now)) }
    ensures none { IfNone result ((n : ℕ) (rest : List ℕ) → n ≤ most →
        BeginsWithHead text.now kind n rest → ⊥) }
{
    if text.is_empty() || text[0] != kind {
        return None;
    }
    let found = digits(text, most)?;
    if found.end == 1 {
        return None;
    }
    if !is_line_end(text, found.end) {
        return None;
    }
    Some(Number {
        number: found.number,
        end: found.end + 2,
    })
}

/// Like `head_of`, with the bytes after the head.
#[inline(always)]
fn head_with_rest(text: &[u8], kind: u8, most: u64) -> Option<WholeHead<'_>>
    requires { most < 2 ^ 60 }
    ensures begins { IfSome result (λ head.
        BeginsWithHead text.now kind head.number head.rest.now) }
    ensures within { IfSome result (λ head. head.number ≤ most) }
    ensures none { IfNone result ((n : ℕ) (rest : List ℕ) → n ≤ most →
        BeginsWithHead text.now kind n rest → ⊥) }
{
    let head = head_of(text, kind, most)?;
    Some(WholeHead {
        number: head.number,
        rest: &text[head.end..],
    })
}

/// A bulk string, and the bytes after it.
#[derive(Clone, Copy, Debug)]
pub struct WholeString<'a> {
    /// The content.
    pub content: &'a [u8],
    /// The bytes after the bulk string.
    pub rest: &'a [u8],
}

/// Returns the bulk string at the beginning of some bytes, if its content has at most this many
/// bytes.
#[inline(always)]
fn word(text: &[u8], most: u64) -> Option<WholeString<'_>>
    requires { most < 2 ^ 60 }
    ensures begins { IfSome result (λ found.
        BeginsWithWord most text.now found.content.now found.rest.now) }
    ensures none { IfNone result ((word rest : List ℕ) →
        BeginsWithWord most text.now word rest → ⊥) }
{
    let head = head_of(text, b'$', most)?;
    let length = head.number as usize;
    if text.len() - head.end < length {
        return None;
    }
    let end = head.end + length;
    if !is_line_end(text, end) {
        return None;
    }
    let (content, after) = text[head.end..].split_at(length);
    Some(WholeString {
        content,
        rest: &after[2..],
    })
}

/// Returns the bytes after this many bulk strings, each of at most `most` bytes.
#[inline(always)]
fn after_words(text: &[u8], count: u64, most: u64) -> Option<&[u8]>
    requires { most < 2 ^ 60 }
    ensures begins { IfSome result (λ rest. (words : List (List ℕ)) × (length words ≡ count) ×
        BeginsWithWords most text.now words rest.now) }
    ensures none { IfNone result ((words : List (List ℕ)) (rest : List ℕ) →
        length words ≡ count → BeginsWithWords most text.now words rest → ⊥) }
{
    let mut rest = text;
    for _ in 0..count {
        rest = word(rest, most)?.rest;
    }
    Some(rest)
}

/// Returns the bulk string at the beginning of some bytes that begin with one. It checks less than
/// `word`.
#[inline(always)]
fn first_word(text: &[u8]) -> WholeString<'_>
    requires { (word rest : List ℕ) × BeginsWithWord 1_073_741_824 text.now word rest }
    ensures { BeginsWithWord 1_073_741_824 text.now result.content.now result.rest.now }
{
    let mut length = 0;
    let mut end = 1;
    while text[end] != b'\r' {
        length = length * 10 + usize::from(text[end] - b'0');
        end += 1;
    }
    let (content, after) = text[end + 2..].split_at(length);
    WholeString {
        content,
        rest: &after[2..],
    }
}

/// The words of a command after its name, in order. They are borrowed, and taking them does not
/// allocate.
#[derive(Debug, Drop)]
pub struct CommandArguments<'a> {
    text: &'a [u8],
    left: u64,
}

impl<'a> Model for CommandArguments<'a> {
    ghost use Rattle.std.specs.Prelude.{ℕ, List};
    ghost use Rattle.resp_scan.specs.Whole.{HasWords, words_in};

    ghost Value = { List (List ℕ) };

    ghost view = { λ words. words_in words.left words.text.now };

    ghost invariant = { λ words. HasWords 1_073_741_824 words.left words.text.now };
}

impl<'a> CommandArguments<'a> {
    /// Returns the number of words that are left.
    #[inline]
    pub fn len(&self) -> u64
        ensures { result ≡ length self.now }
    {
        self.left
    }

    /// Returns an iterator over the words that are left.
    #[inline(always)]
    pub fn iter(&self) -> CommandArguments<'a>
        ensures { result ≡ self.now }
    {
        CommandArguments {
            text: self.text,
            left: self.left,
        }
    }
}

impl<'a> Iterator for CommandArguments<'a> {
    type Item = &'a [u8];

    ghost next_gives = { TakesFirst deref };

    ghost remaining = { λ words. at_most (length words) };

    #[inline(always)]
    fn next(&mut self) -> Option<&'a [u8]> {
        if self.left == 0 {
            return None;
        }
        let found = first_word(self.text);
        self.text = found.rest;
        self.left -= 1;
        Some(found.content)
    }
}

/// A command, and the bytes after it.
#[derive(Debug, Drop)]
pub struct WholeCommand<'a> {
    /// The first word.
    pub name: &'a [u8],
    /// The other words.
    pub arguments: CommandArguments<'a>,
    /// The bytes after the command.
    pub rest: &'a [u8],
}

/// Returns the head of an array at the beginning of some bytes, if its number is within the limit
/// `items`.
#[inline(always)]
pub fn array_head<'a>(text: &'a [u8], limits: &Limits) -> Option<WholeHead<'a>>
    ensures begins { IfSome result (λ head.
        BeginsWithHead text.now (byte "*") head.number head.rest.now) }
    ensures within { IfSome result (λ head. head.number ≤ limits.now.items) }
    ensures none { IfNone result ((n : ℕ) (rest : List ℕ) → n ≤ limits.now.items →
        BeginsWithHead text.now (byte "*") n rest → ⊥) }
{
    head_with_rest(text, b'*', limits.items())
}

/// Returns the head of a bulk string at the beginning of some bytes, if its number is within the
/// limit `length`.
#[inline(always)]
pub fn bulk_head<'a>(text: &'a [u8], limits: &Limits) -> Option<WholeHead<'a>>
    ensures begins { IfSome result (λ head.
        BeginsWithHead text.now (byte "$") head.number head.rest.now) }
    ensures within { IfSome result (λ head. head.number ≤ limits.now.length) }
    ensures none { IfNone result ((n : ℕ) (rest : List ℕ) → n ≤ limits.now.length →
        BeginsWithHead text.now (byte "$") n rest → ⊥) }
{
    head_with_rest(text, b'$', limits.length())
}

/// Returns the bulk string at the beginning of some bytes, if it is within the limits.
#[inline]
pub fn bulk_string<'a>(text: &'a [u8], limits: &Limits) -> Option<WholeString<'a>>
    ensures begins { IfSome result (λ found. BeginsWith limits.now text.now
        (word_datum found.content.now) found.rest.now) }
    ensures none { IfNone result ((content rest : List ℕ) →
        BeginsWith limits.now text.now (word_datum content) rest → ⊥) }
{
    let found = word(text, limits.length())?;
    if (text.len() - found.rest.len()) as u64 > limits.total() {
        return None;
    }
    Some(found)
}

/// Returns the command at the beginning of some bytes: an array of at least one bulk string and
/// nothing else, within the limits.
#[inline(always)]
pub fn command<'a>(text: &'a [u8], limits: &Limits) -> Option<WholeCommand<'a>>
    ensures begins { IfSome result (λ command. BeginsWith limits.now text.now
        (command_of (command.name.now ∷ command.arguments)) command.rest.now) }
    ensures none { IfNone result ((name : List ℕ) (arguments : List (List ℕ)) (rest : List ℕ) →
        BeginsWith limits.now text.now (command_of (name ∷ arguments)) rest → ⊥) }
{
    limits.are_in_range();
    let head = array_head(text, limits)?;
    if head.number == 0 {
        return None;
    }
    let most = limits.length();
    let count = head.number - 1;
    let name = word(head.rest, most)?;
    let rest = after_words(name.rest, count, most)?;
    if (text.len() - rest.len()) as u64 > limits.total() {
        return None;
    }
    let arguments = CommandArguments {
        text: name.rest,
        left: count,
    };
    Some(WholeCommand {
        name: name.content,
        arguments,
        rest,
    })
}
