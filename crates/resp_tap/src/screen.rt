//! A bounded buffer for text that waits for the terminal.

ghost use Rattle.std.specs.Prelude.{◌≡◌, ◌+◌, ◌≤◌, length, None, IfOk, OnErr, OnOk};
ghost use Rattle.resp_io.specs.Devices.{Writes, count_after, failures_after, write_fails};
ghost use Rattle.resp_tap.specs.Screens.{left_out_end, left_out_front, notice_room};

use bytes::BytesMut;
use itoa::Buffer;
use resp_io::device::{DeviceFault, Sink};
use std::alloc::{AllocError, Global};
use std::marker::Model;

/// The free bytes that the line about omitted bytes needs.
const ROOM: usize = 64;

/// The number of free bytes that are needed to begin a line of JSON.
const LINE: usize = 8_192;

/// Holds printed text until it is shown, up to a maximum number of bytes. Text that arrives while
/// the screen is full is omitted and counted. When there is room again, a line says how many bytes
/// were omitted. If the text before it was cut inside a line, that line is ended first.
///
/// A line of JSON is begun only if there is room for 8,192 more bytes, so a line of at most that
/// length is not cut unless an allocation fails.
///
/// A write to a screen never fails, so printing never delays forwarding.
#[derive(Drop)]
pub struct Screen {
    text: BytesMut,
    most: usize,
    unshown: u64,
    in_line: bool,
    as_json: bool,
    calls: u64,
    failures: u64,
}

impl Model for Screen {
    ghost use Rattle.resp_tap.specs.Screens.{ScreenState};

    ghost Value = { ScreenState };

    ghost view = { λ s. record {
      held = s.text.items;
      most = s.most;
      unshown = s.unshown;
      in_line = s.in_line;
      as_json = s.as_json;
      calls = s.calls;
      failures = s.failures;
    } };
}

impl Screen {
    ghost use Rattle.std.specs.Prelude.{drop};
    ghost use Rattle.resp_tap.specs.Screens.{KeepsOrCounts, LineIsDue, SaysWhatIsLeftOut, has_room_for_line, new_screen};

    /// Returns an empty screen that holds at most `most` bytes. It allocates nothing.
    pub fn new(alloc: Global, most: usize) -> Screen
        ensures { result ≡ new_screen most }
    {
        Screen {
            text: BytesMut::new(alloc),
            most,
            unshown: 0,
            in_line: false,
            as_json: false,
            calls: 0,
            failures: 0,
        }
    }

    /// Returns the empty screen, after setting whether its lines are JSON. If they are, the line
    /// about omitted bytes is JSON too.
    pub fn with_json(mut self, as_json: bool) -> Screen
        ensures { result ≡ record self { as_json = as_json } }
    {
        self.as_json = as_json;
        self
    }

    /// Returns the text that is held.
    pub fn text(&self) -> &[u8]
        ensures { result.now ≡ self.now.held }
    {
        self.text.as_slice()
    }

    /// Returns the number of bytes that were omitted and not reported yet.
    pub fn unshown(&self) -> u64
        ensures { result ≡ self.now.unshown }
    {
        self.unshown
    }

    /// Removes the first `count` bytes of the held text, which were shown. `count` is at most the
    /// length of the held text.
    pub fn shown(&mut self, count: usize)
        requires { count ≤ length self.old.held }
        ensures { self.new ≡ record self.old { held = drop count self.old.held } }
    {
        self.text.advance(count);
    }

    /// Returns whether this many free bytes are enough to append text.
    fn has_room_for_line(&self, free: usize) -> bool
        ensures { result ≡ has_room_for_line self.now free }
    {
        !self.as_json || self.in_line || LINE <= free
    }

    /// Appends as much of `text` as there is room for, and counts the rest. Once a byte was
    /// omitted, nothing is appended until the line about omitted bytes is written. A line of JSON
    /// is begun only if there is room for 8,192 more bytes.
    fn keep(&mut self, text: &[u8])
        ensures kept { KeepsOrCounts self.old self.new text.now }
        ensures same_calls { self.new.calls ≡ self.old.calls }
        ensures same_failures { self.new.failures ≡ self.old.failures }
    {
        let free = self.most.saturating_sub(self.text.len());
        let room = if self.unshown == 0 && self.has_room_for_line(free) {
            free
        } else {
            0
        };
        let part = &text[..room.min(text.len())];
        let kept = match self.text.extend_from_slice(part) {
            Ok(()) => part.len(),
            Err(_) => 0,
        };
        self.unshown = self.unshown.saturating_add((text.len() - kept) as u64);
        if let Some(last) = text[..kept].last() {
            self.in_line = *last != b'\n';
        }
    }

    /// Appends a line with the number of omitted bytes, if bytes were omitted and there is room for
    /// at least 64 more bytes, or 8,256 if the lines are JSON. Call this between two texts.
    ///
    /// # Errors
    ///
    /// `AllocError` if an allocation fails. Nothing changes.
    pub fn say_what_is_left_out(&mut self) -> Result<(), AllocError>
        ensures due { OnOk result (LineIsDue self.old → SaysWhatIsLeftOut self.old self.new) }
        ensures not_due { OnOk result ((LineIsDue self.old → ⊥) → self.new ≡ self.old) }
        ensures unchanged { OnErr result (self.new ≡ self.old) }
        ensures bounded { length self.old.held ≤ self.old.most →
            length self.new.held ≤ self.new.most }
    {
        let room = self.most.saturating_sub(self.text.len());
        if self.unshown == 0 || room < notice_room(self.as_json) {
            return Ok(());
        }
        self.text.reserve(ROOM)?;
        let mut buffer = Buffer::new();
        if self.in_line {
            self.text.extend_reserved(b"\n");
        }
        let (front, end) = left_out_texts(self.as_json);
        self.text.extend_reserved(front);
        self.text
            .extend_reserved(buffer.format(self.unshown).as_bytes());
        self.text.extend_reserved(end);
        self.unshown = 0;
        self.in_line = false;
        Ok(())
    }
}

/// Returns the number of free bytes that are needed to append the line about omitted bytes.
fn notice_room(as_json: bool) -> usize
    ensures room { result ≡ notice_room as_json }
    ensures enough { 64 ≤ result }
{
    if as_json { LINE + ROOM } else { ROOM }
}

/// Returns the texts before and after the number of omitted bytes.
fn left_out_texts(as_json: bool) -> (&'static [u8], &'static [u8])
    ensures front { result.0.now ≡ left_out_front as_json }
    ensures end { result.1.now ≡ left_out_end as_json }
    ensures short { length result.0.now + length result.1.now ≤ 43 }
{
    if as_json {
        (b"{\"kind\":\"omitted\",\"bytes\":", b"}\n")
    } else {
        (b"", b" bytes not shown\n")
    }
}

impl Sink for Screen {
    ghost use Rattle.resp_tap.specs.Screens.{KeepsOrCounts};

    ghost written = { λ _. None };

    ghost calls = { λ s. s.calls };

    ghost failures = { λ s. s.failures };

    fn write(&mut self, from: &[u8]) -> Result<usize, DeviceFault>
        ensures within { IfOk result (λ n. n ≤ length from.now) }
        ensures bytes { Writes None None from.now result }
        ensures calls { self.new.calls ≡ count_after 1 self.old.calls }
        ensures failures { self.new.failures ≡
            failures_after (write_fails result) self.old.failures }
        ensures all { IfOk result (λ n. n ≡ length from.now) }
        ensures kept { KeepsOrCounts self.old self.new from.now }
    {
        self.calls = self.calls.saturating_add(1);
        if from.is_empty() {
            self.failures = self.failures.saturating_add(1);
        }
        self.keep(from);
        Ok(from.len())
    }
}
