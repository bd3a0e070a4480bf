//! The line printed for a row of scanners.

use anyhow::{Result, bail};
use resp_scan::{Event, Fault, Listener, OpenKind, TextKind};
use std::alloc::Global;

/// An event that is not part of a text, or a text without bytes.
#[derive(Clone, Copy, PartialEq)]
enum Told {
    Null,
    Bool(bool),
    Int(i64),
    Empty(TextKind),
    Open(OpenKind, Option<u64>),
    Close,
    Done,
}

/// The line printed for a row of scanners: items separated by commas. It is also a listener of
/// events.
///
/// When out of memory it goes on without adding words, and its end reports that.
#[derive(Drop)]
pub(crate) struct Story {
    said: String,
    is_out_of_memory: bool,
    /// Whether it records the number of bytes needed and prints no events.
    is_of_needed: bool,
    /// The last event, which has not been printed, and how many times it occurred.
    last: Option<Told>,
    times: u64,
    /// The kind of a text that has begun, until its first byte is received.
    begun: Option<TextKind>,
    /// Numbers that are printed together.
    numbers: Vec<u64>,
    /// The number of events that it receives before it stops.
    left: usize,
}

impl Story {
    /// Makes a listener that stops at the event of this number.
    pub(crate) fn new(alloc: Global, left: usize) -> Story {
        Story {
            said: String::new(alloc),
            is_out_of_memory: false,
            is_of_needed: false,
            last: None,
            times: 0,
            begun: None,
            numbers: Vec::new(alloc),
            left,
        }
    }

    /// From here on it records the number of bytes needed and prints no events.
    pub(crate) fn turn_to_needed(&mut self) {
        self.is_of_needed = true;
    }

    /// Adds the line of the scanner of this number, if the scanners before it have another line.
    pub(crate) fn join(&mut self, number: usize, other: &mut Story) {
        other.say_told();
        self.is_out_of_memory |= other.is_out_of_memory;
        if number == 0 {
            self.add(other.said.as_str());
        } else if self.said.as_str() != other.said.as_str() {
            self.number("but by scanner ", number as u64);
            self.item(other.said.as_str());
        }
    }

    /// Returns the whole line.
    pub(crate) fn finish(mut self) -> Result<String> {
        self.say_told();
        if self.is_out_of_memory {
            bail!("out of memory");
        }
        Ok(self.said)
    }

    /// Returns whether nothing was printed and no event was received.
    pub(crate) fn is_empty(&self) -> bool {
        self.said.is_empty() && self.last.is_none() && self.begun.is_none()
    }

    /// Adds words to the last item.
    pub(crate) fn add(&mut self, words: &str) {
        if self.said.push_str(words).is_err() {
            self.is_out_of_memory = true;
        }
    }

    fn add_bytes(&mut self, bytes: &[u8]) {
        if write!(self.said, "{}", bytes.escape_ascii()).is_err() {
            self.is_out_of_memory = true;
        }
    }

    fn add_number(&mut self, number: u64) {
        if write!(self.said, "{number}").is_err() {
            self.is_out_of_memory = true;
        }
    }

    fn add_int(&mut self, number: i64) {
        if write!(self.said, "int {number}").is_err() {
            self.is_out_of_memory = true;
        }
    }

    /// Adds the comma between two items.
    fn add_comma(&mut self) {
        if !self.said.is_empty() {
            self.add(", ");
        }
    }

    /// Adds an item that begins with these words.
    pub(crate) fn item(&mut self, words: &str) {
        self.say_told();
        self.add_comma();
        self.add(words);
    }

    /// Adds an item of words and a number.
    pub(crate) fn number(&mut self, words: &str, number: u64) {
        self.item(words);
        self.add_number(number);
    }

    /// Adds an item of words, the name of a cause and its place.
    pub(crate) fn fault(&mut self, words: &str, fault: Fault) {
        self.item(words);
        self.add(fault.cause.name());
        self.add(" at ");
        self.add_number(fault.at);
    }

    /// Adds an event.
    pub(crate) fn tell(&mut self, event: Event) {
        if self.is_of_needed {
            return;
        }
        match event {
            Event::Null => self.count(Told::Null),
            Event::Bool(truth) => self.count(Told::Bool(truth)),
            Event::Int(number) => self.count(Told::Int(number)),
            Event::Text(kind) => self.begun = Some(kind),
            Event::Part(part) => self.tell_part(part),
            Event::TextEnd => match self.begun.take() {
                Some(kind) => self.count(Told::Empty(kind)),
                None => self.add("\""),
            },
            Event::Open(kind, count) => self.count(Told::Open(kind, count)),
            Event::Close => self.count(Told::Close),
            Event::Done => self.count(Told::Done),
        }
    }

    fn tell_part(&mut self, part: &[u8]) {
        self.say_told();
        if part.is_empty() {
            self.add("(an empty part)");
        }
        self.add_bytes(part);
    }

    /// Adds a text that was received in one call.
    pub(crate) fn tell_whole_text(&mut self, kind: TextKind, bytes: &[u8]) {
        self.begun = Some(kind);
        self.say_told();
        self.add_bytes(bytes);
        self.add("\" in one call");
    }

    /// Prints the last event, and the beginning of a text of which nothing was printed.
    fn say_told(&mut self) {
        self.say_last();
        if let Some(kind) = self.begun.take() {
            self.add_comma();
            self.add_kind(kind);
        }
    }

    /// Counts an event that equals the last event. Prints the last event before a different event.
    fn count(&mut self, told: Told) {
        if self.last != Some(told) {
            self.say_last();
            self.last = Some(told);
        }
        self.times = self.times.saturating_add(1);
    }

    /// Prints the last event, and how many times it occurred.
    fn say_last(&mut self) {
        let Some(told) = self.last.take() else {
            return;
        };
        let times = self.times;
        self.times = 0;
        self.add_comma();
        if times > 1 {
            self.add_number(times);
            self.add(" x ");
        }
        self.add_told(told);
    }

    fn add_told(&mut self, told: Told) {
        match told {
            Told::Null => self.add("null"),
            Told::Bool(true) => self.add("true"),
            Told::Bool(false) => self.add("false"),
            Told::Int(number) => self.add_int(number),
            Told::Empty(kind) => {
                self.add_kind(kind);
                self.add("\"");
            }
            Told::Open(kind, count) => self.add_open(kind, count),
            Told::Close => self.add("end"),
            Told::Done => self.add("done"),
        }
    }

    /// Adds the kind of a text, a quotation mark, and the sign of a big number below zero.
    fn add_kind(&mut self, kind: TextKind) {
        self.add(match kind {
            TextKind::Simple => "simple \"",
            TextKind::Error => "error \"",
            TextKind::Double => "double \"",
            TextKind::Bulk => "bulk \"",
            TextKind::BulkError => "bulkerror \"",
            TextKind::Verbatim(_) => "verbatim \"",
            TextKind::Big { negative: true } => "big \"-",
            TextKind::Big { negative: false } => "big \"",
        });
        if let TextKind::Verbatim(format) = kind {
            self.add_bytes(&format);
            self.add("\" \"");
        }
    }

    fn add_open(&mut self, kind: OpenKind, count: Option<u64>) {
        self.add(match kind {
            OpenKind::Array => "array ",
            OpenKind::Set => "set ",
            OpenKind::Map => "map ",
            OpenKind::Attr => "attr ",
            OpenKind::Push => "push ",
        });
        match count {
            Some(count) => self.add_number(count),
            None => self.add("streamed"),
        }
    }

    /// Records a number, which is printed with the others.
    pub(crate) fn keep(&mut self, number: u64) {
        if self.numbers.push(number).is_err() {
            self.is_out_of_memory = true;
        }
    }

    /// Returns the recorded number at this index.
    pub(crate) fn kept(&self, place: usize) -> Option<u64> {
        self.numbers.get(place).copied()
    }

    /// Adds an item of the recorded numbers.
    pub(crate) fn say_kept(&mut self) {
        self.item("");
        for place in 0..self.numbers.len() {
            if place > 0 {
                self.add(" ");
            }
            if let Some(number) = self.kept(place) {
                self.add_number(number);
            }
        }
    }

    /// Records the number needed after this number of bytes if it is the first record, and prints
    /// it if it differs from the record.
    pub(crate) fn note(&mut self, taken: u64, needed: u64) {
        if !self.is_of_needed || self.kept(taken as usize) == Some(needed) {
            return;
        }
        if taken == self.numbers.len() as u64 {
            self.keep(needed);
        } else {
            self.number("other number after ", taken);
        }
    }

    /// Receives an event. Returns whether to continue.
    fn hear(&mut self, event: Event) -> bool {
        self.tell(event);
        self.left = self.left.saturating_sub(1);
        self.left > 0
    }
}

impl Listener for Story {
    ghost Origin = { Unit {0} };

    ghost has_heard = { λ _ _ _. Unit {0} };

    ghost has_stopped = { λ _ _ _. Unit {0} };

    fn null(&mut self) -> bool {
        self.hear(Event::Null)
    }

    fn truth(&mut self, truth: bool) -> bool {
        self.hear(Event::Bool(truth))
    }

    fn int(&mut self, number: i64) -> bool {
        self.hear(Event::Int(number))
    }

    fn text(&mut self, kind: TextKind) -> bool {
        self.hear(Event::Text(kind))
    }

    fn part(&mut self, part: &[u8]) -> bool {
        self.hear(Event::Part(part))
    }

    fn text_end(&mut self) -> bool {
        self.hear(Event::TextEnd)
    }

    fn open(&mut self, kind: OpenKind, count: Option<u64>) -> bool {
        self.hear(Event::Open(kind, count))
    }

    fn close(&mut self) -> bool {
        self.hear(Event::Close)
    }
}
