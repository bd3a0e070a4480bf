//! Big numbers: any number of digits. Leading zeros are skipped.

ghost use Rattle.resp_scan.specs.Machine.Runs.{digit_run};
ghost use Rattle.std.specs.Prelude.{◌≡◌, ◌≤◌, ◌<◌, ◌+◌, ◌-◌, ◌^◌, length};

use crate::machine::{Advance, EventTag, Machine, State};
use resp_value::cause::Cause;

impl Machine {
    ghost use Rattle.resp_scan.specs.Machine.Fields.{place_of, out_of, Reads};
    ghost use Rattle.resp_scan.specs.Machine.Scan.{scan, Gave};
    ghost use Rattle.resp_scan.specs.Machine.Tokens.{at, Text, AtBigSign, AtBigFirst, InBigZeros, AtBigZeroLf, AtBigDigit, InBig};
    ghost use Rattle.resp_scan.specs.declared.event.TextKind.TheVariants as text;

    /// Reads after `(`. A sign does not reduce the number of bytes that are needed.
    #[inline]
    pub(crate) fn big_sign(&mut self, piece: &[u8], i: usize) -> Advance
        requires { i ≤ length piece.now }
        ensures { Reads self.old self.new AtBigSign piece.now i result }
    {
        if i == piece.len() {
            return self.rest(State::BigSign, piece);
        }
        match piece[i] {
            b'-' => match self.over_total(i + 1, 3) {
                Some(cause) => self.fail(i, cause),
                None => self.big_first(piece, i + 1, true),
            },
            b'+' => match self.over_total(i + 1, 3) {
                Some(cause) => self.fail(i, cause),
                None => self.big_first(piece, i + 1, false),
            },
            _ => self.big_first(piece, i, false),
        }
    }

    /// Reads the first digit, after `(` or a sign. A big number has at least one digit.
    #[inline]
    pub(crate) fn big_first(&mut self, piece: &[u8], i: usize, negative: bool) -> Advance
        requires { i ≤ length piece.now }
        ensures { Reads self.old self.new (AtBigFirst negative) piece.now i result }
    {
        if i == piece.len() {
            self.big_negative = negative;
            return self.rest(State::BigFirst, piece);
        }
        let byte = piece[i];
        if byte < b'0' || byte > b'9' {
            return self.fail(i, Cause::Syntax);
        }
        if byte == b'0' {
            return self.big_zeros(piece, i + 1, negative);
        }
        self.big_digit(i, negative, byte)
    }

    /// Reads after one or more zeros.
    #[inline]
    pub(crate) fn big_zeros(&mut self, piece: &[u8], from: usize, negative: bool) -> Advance
        requires { from ≤ length piece.now }
        ensures { Reads self.old self.new (InBigZeros negative) piece.now from result }
    {
        for i in from..piece.len() {
            let byte = piece[i];
            if byte < b'0' || byte > b'9' {
                if byte == b'\r' {
                    return self.big_zero_lf(piece, i + 1);
                }
                return self.fail(i, Cause::Syntax);
            }
            if !self.has_total_room(i + 1, 2) {
                return self.fail(i, Cause::Total);
            }
            if byte != b'0' {
                return self.big_digit(i, negative, byte);
            }
        }
        self.big_negative = negative;
        self.rest(State::BigZeros, piece)
    }

    /// Reads the first digit other than zero. The text begins, and the digit is due as a part.
    #[inline]
    fn big_digit(&mut self, i: usize, negative: bool, byte: u8) -> Advance
        requires { i < 2 ^ 63 }
        ensures { out_of result self.new ≡
            Gave (i + 1) (Text (text.Big negative))
            (at (place_of self.old) (AtBigDigit byte (self.old.limits.length - 1))) }
    {
        self.state = State::BigDigit;
        self.big_negative = negative;
        self.digit = byte;
        self.room = self.limits.length() - 1;
        self.gives(i + 1, EventTag::Big)
    }

    /// Reads the LF after a number of zeros alone.
    #[inline]
    pub(crate) fn big_zero_lf(&mut self, piece: &[u8], i: usize) -> Advance
        requires { i ≤ length piece.now }
        ensures { Reads self.old self.new AtBigZeroLf piece.now i result }
    {
        if i == piece.len() {
            return self.rest(State::BigZeroLf, piece);
        }
        if piece[i] != b'\n' {
            return self.fail(i, Cause::Syntax);
        }
        self.state = State::TextEnd;
        self.big_negative = false;
        self.gives(i + 1, EventTag::Big)
    }

    /// Reads further digits, at the beginning of the piece.
    #[inline]
    pub(crate) fn big(&mut self, piece: &[u8]) -> Advance
        requires { self.old.state ≡ State.Big }
        ensures { out_of result self.new ≡
            scan 0 (at (place_of self.old) (InBig self.old.room)) piece.now }
    {
        if piece.is_empty() {
            return self.rest(State::Big, piece);
        }
        let most = self.text_room().min(piece.len() as u64) as usize;
        let run = digit_run(&piece[..most]);
        if run > 0 {
            self.room -= run as u64;
            return self.gives(run, EventTag::Part);
        }
        if piece[0] == b'\r' {
            return self.line_lf(piece, 1);
        }
        if piece[0] < b'0' || piece[0] > b'9' {
            return self.fail(0, Cause::Syntax);
        }
        if self.room == 0 {
            return self.fail(0, Cause::Length);
        }
        self.fail(0, Cause::Total)
    }
}

/// Returns the number of digits at the beginning.
#[inline]
fn digit_run(s: &[u8]) -> usize
    ensures run { result ≡ digit_run s.now }
    ensures within { result ≤ length s.now }
{
    for i in 0..s.len() {
        if s[i] < b'0' || s[i] > b'9' {
            return i;
        }
    }
    s.len()
}
