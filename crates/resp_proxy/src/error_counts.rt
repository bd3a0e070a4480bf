//! Error replies of the server, counted by the first word of their text.

ghost use Rattle.std.specs.Prelude.{◌≡◌, ◌<◌, ◌≤◌, ℕ, List, length, option_map, slice_get, true, false, IfNone, IfSome};
ghost use Rattle.resp_proxy.specs.ErrorRows.{AddsError, CountsError, IsNewRow, MayAddRow, has_word, row_has};

use arrayvec::ArrayVec;
use std::alloc::{AllocError, Global};
use std::str;

/// The maximum number of rows: one for each of 128 words, and the first for all other errors.
const MOST_ROWS: usize = 129;

/// The maximum number of bytes of a word.
const LONGEST: usize = 32;

/// The maximum number of bytes of a reply that are examined: `-`, a word, and the byte after it.
const EXAMINED: usize = 34;

/// The number of errors whose texts begin with one word. It saturates at its maximum.
#[derive(Drop)]
pub(crate) struct ErrorRow {
    pub(crate) word: ArrayVec<u8, LONGEST>,
    pub(crate) count: u64,
}

/// The error replies of a server, in a row for each first word, such as `WRONGTYPE`. The first row
/// counts all errors whose word has no row of its own: there are 128 words already, an allocation
/// failed, or the word is longer than 32 bytes or has bytes other than upper-case letters, digits,
/// `_` and `-`.
#[derive(Drop)]
pub(crate) struct ErrorCounts {
    pub(crate) rows: Vec<ErrorRow>,
    ghost some: { 0 < length rows.items },
    ghost few: { length rows.items ≤ 129 },
}

/// Returns whether a row is that of this word.
fn row_has(row: Option<&ErrorRow>, word: &[u8]) -> bool
    ensures { result ≡ row_has word.now (option_map (λ row. row.now) row.entry) }
{
    match row {
        Some(row) => row.word.as_slice() == word,
        None => false,
    }
}

/// Returns the first word of the text of an error, given the reply. Returns `None` if the word has no
/// row of its own.
fn word_of(reply: &[u8]) -> Option<&[u8]> {
    let examined = reply.len().min(EXAMINED);
    let mut length = 1;
    while length < examined && is_of_word(reply[length]) {
        length += 1;
    }
    let is_whole = length < examined && matches!(reply.get(length), Some(b' ' | b'\r'));
    if length > 1 && is_whole {
        reply.get(1..length)
    } else {
        None
    }
}

/// Returns whether a word may have this byte.
fn is_of_word(byte: u8) -> bool {
    byte.is_ascii_uppercase() || byte.is_ascii_digit() || byte == b'_' || byte == b'-'
}

impl ErrorCounts {
    /// Returns counts of no errors.
    pub(crate) fn new(alloc: Global) -> Result<Self, AllocError> {
        let mut rows = Vec::new(alloc);
        rows.push(ErrorRow {
            word: ArrayVec::new(),
            count: 0,
        })?;
        Ok(ErrorCounts { rows })
    }

    /// Counts a reply if it is an error.
    #[inline(always)]
    pub(crate) fn note(&mut self, reply: &[u8]) {
        if reply.first() == Some(&b'-') {
            self.note_error(reply);
        }
    }

    /// Counts a reply that is an error.
    fn note_error(&mut self, reply: &[u8]) {
        let place = match word_of(reply) {
            Some(word) => self.place_of(word),
            None => 0,
        };
        self.count(place);
    }

    /// Returns a line for each first word of an error, in the order of the words, and then a line
    /// for all other errors.
    ///
    /// # Errors
    ///
    /// `AllocError` if an allocation fails.
    pub(crate) fn lines(&self, alloc: Global) -> Result<String, AllocError> {
        let mut text = String::new(alloc);
        let mut last = None;
        for _ in 0..self.rows.len() {
            let Some(row) = self.next_row(last) else {
                break;
            };
            last = Some(row.word.as_slice());
            let word = str::from_utf8(row.word.as_slice()).unwrap_or("?");
            add_line(alloc, &mut text, word, row.count)?;
        }
        add_line(alloc, &mut text, "other", self.rows[0].count)?;
        Ok(text)
    }

    /// Returns the row of the next word after this one, or of the first word.
    fn next_row(&self, last: Option<&[u8]>) -> Option<&ErrorRow> {
        let mut next: Option<&ErrorRow> = None;
        for row in &self.rows[1..] {
            let word = row.word.as_slice();
            let is_left = last.map_or(true, |last| last < word);
            if is_left && next.map_or(true, |next| word < next.word.as_slice()) {
                next = Some(row);
            }
        }
        next
    }

    /// Returns the place of the row of a word. If there is no row, one is added. The place is 0 if
    /// an allocation fails or there are 128 words already.
    fn place_of(&mut self, word: &[u8]) -> usize
        ensures within { result < length self.new.rows.items }
        ensures named { 0 < result → has_word word.now self.new.rows.items result ≡ true }
        ensures rows { MayAddRow word.now self.old.rows.items self.new.rows.items }
        ensures found { (place : ℕ) → 0 < place → has_word word.now self.old.rows.items place ≡ true →
            (0 < result) × (self.new.rows.items ≡ self.old.rows.items) }
    {
        if let Some(place) = self.find(word) {
            return place;
        }
        let place = self.rows.len();
        if place >= MOST_ROWS || word.len() > LONGEST {
            return 0;
        }
        if self.rows.push(row_of(word)).is_err() {
            return 0;
        }
        place
    }

    /// Returns the place of the row of a word, if there is one.
    fn find(&self, word: &[u8]) -> Option<usize>
        ensures some { IfSome result (λ place. (0 < place) ×
            (has_word word.now self.now.rows.items place ≡ true)) }
        ensures none { IfNone result ((place : ℕ) → 0 < place →
            has_word word.now self.now.rows.items place ≡ false) }
    {
        for place in 1..self.rows.len() {
            if row_has(self.rows.get(place), word) {
                return Some(place);
            }
        }
        None
    }

    /// Counts an error in the row at this place.
    fn count(&mut self, place: usize)
        requires { place < length self.old.rows.items }
        ensures { CountsError place self.old.rows.items self.new.rows.items }
    {
        self.rows[place].add_one();
    }
}

impl ErrorRow {
    /// Counts an error.
    fn add_one(&mut self)
        ensures { AddsError self.old self.new }
    {
        self.count = self.count.saturating_add(1);
    }
}

/// Returns a row of a word without errors.
fn row_of(word: &[u8]) -> ErrorRow
    requires { length word.now ≤ 32 }
    ensures { IsNewRow word.now result }
{
    let mut copy = ArrayVec::new();
    for byte in word {
        copy.push(*byte);
    }
    ErrorRow {
        word: copy,
        count: 0,
    }
}

/// Adds the line of a word to a text, if there are errors.
fn add_line(alloc: Global, text: &mut String, word: &str, count: u64) -> Result<(), AllocError> {
    if count == 0 {
        return Ok(());
    }
    let line = format!(in alloc; "errorstat_{word}:count={count}\r\n")?;
    text.push_str(line.as_str())
}
