//! Counted content, which ends after a given number of bytes, and the format of a verbatim string.

ghost use Rattle.std.specs.Prelude.{◌≡◌, ◌≤◌, ◌<◌, length};

use crate::machine::{Advance, EventTag, Machine, State};
use resp_value::cause::Cause;

impl Machine {
    ghost use Rattle.resp_scan.specs.Machine.Fields.{place_of, out_of, Reads};
    ghost use Rattle.resp_scan.specs.Machine.Scan.{scan};
    ghost use Rattle.resp_scan.specs.Machine.Tokens.{at, InContent, AtContentCr, AtContentLf, AtFormat, AtFormatSecond, AtFormatThird, AtFormatColon};
    ghost use Rattle.resp_scan.specs.Machine.Heads.{content_at};

    /// Begins content of `count` bytes.
    #[inline]
    pub(crate) fn content_begins(&mut self, used: usize, count: u64, tag: EventTag) -> Advance
        ensures gives { result ≡ record { used = used; tag = tag } }
        ensures format { self.new.format ≡ self.old.format }
        ensures place { place_of self.new ≡ content_at count (place_of self.old) }
    {
        self.count = count;
        self.state = if count == 0 {
            State::ContentCr
        } else {
            State::Content
        };
        self.gives(used, tag)
    }

    /// Reads content, at the beginning of the piece.
    #[inline]
    pub(crate) fn content(&mut self, piece: &[u8]) -> Advance
        requires { 0 < self.old.count }
        ensures { out_of result self.new ≡
            scan 0 (at (place_of self.old) (InContent self.old.count)) piece.now }
    {
        if piece.is_empty() {
            return self.rest(State::Content, piece);
        }
        let run = (piece.len() as u64).min(self.count);
        self.content_begins(run as usize, self.count - run, EventTag::Part)
    }

    /// Reads the CR after counted content.
    #[inline]
    pub(crate) fn content_cr(&mut self, piece: &[u8]) -> Advance
        ensures { out_of result self.new ≡ scan 0 (at (place_of self.old) AtContentCr) piece.now }
    {
        if piece.is_empty() {
            return self.rest(State::ContentCr, piece);
        }
        if piece[0] != b'\r' {
            return self.fail(0, Cause::Syntax);
        }
        self.content_lf(piece, 1)
    }

    /// Reads the LF after counted content. The text has ended.
    #[inline]
    pub(crate) fn content_lf(&mut self, piece: &[u8], i: usize) -> Advance
        requires { i ≤ length piece.now }
        ensures { Reads self.old self.new AtContentLf piece.now i result }
    {
        if i == piece.len() {
            return self.rest(State::ContentLf, piece);
        }
        if piece[i] != b'\n' {
            return self.fail(i, Cause::Syntax);
        }
        self.at_boundary(i + 1, EventTag::TextEnd)
    }

    /// Reads the first byte of the format of a verbatim string. The head counts `count` bytes, with
    /// the format and the colon.
    #[inline]
    pub(crate) fn format_first(&mut self, piece: &[u8], i: usize, count: u64) -> Advance
        requires within { i ≤ length piece.now }
        requires front { 4 ≤ count }
        ensures { Reads self.old self.new (AtFormat count) piece.now i result }
    {
        self.count = count;
        if i == piece.len() {
            return self.rest(State::FormatFirst, piece);
        }
        self.format_second(piece, i + 1, piece[i])
    }

    /// Reads the second byte of the format of a verbatim string, after this first byte.
    #[inline]
    pub(crate) fn format_second(&mut self, piece: &[u8], i: usize, first: u8) -> Advance
        requires within { i ≤ length piece.now }
        requires front { 4 ≤ self.old.count }
        ensures { Reads self.old self.new (AtFormatSecond first self.old.count) piece.now i result }
    {
        if i == piece.len() {
            self.format = [first, 0, 0];
            return self.rest(State::FormatSecond, piece);
        }
        self.format_third(piece, i + 1, first, piece[i])
    }

    /// Reads the third byte of the format of a verbatim string, after these two.
    #[inline]
    pub(crate) fn format_third(&mut self, piece: &[u8], i: usize, first: u8, second: u8) -> Advance
        requires within { i ≤ length piece.now }
        requires front { 4 ≤ self.old.count }
        ensures { Reads self.old self.new (AtFormatThird first second self.old.count)
            piece.now i result }
    {
        if i == piece.len() {
            self.format = [first, second, 0];
            return self.rest(State::FormatThird, piece);
        }
        self.format_colon(piece, i + 1, [first, second, piece[i]])
    }

    /// Reads the `:` after this format. The text begins, and has four bytes fewer than the head
    /// counts.
    #[inline]
    pub(crate) fn format_colon(&mut self, piece: &[u8], i: usize, format: [u8; 3]) -> Advance
        requires within { i ≤ length piece.now }
        requires front { 4 ≤ self.old.count }
        ensures { Reads self.old self.new (AtFormatColon format self.old.count) piece.now i result }
    {
        self.format = format;
        if i == piece.len() {
            return self.rest(State::FormatColon, piece);
        }
        if piece[i] != b':' {
            return self.fail(i, Cause::Syntax);
        }
        self.content_begins(i + 1, self.count - 4, EventTag::Verbatim)
    }
}
