//! Integers: a sign or no sign, and digits of a number of 64 bits.

ghost use Rattle.std.specs.Prelude.{◌≡◌, ◌≤◌, length};
ghost use Rattle.resp_scan.specs.Machine.Magnitudes.{greatest_magnitude};
ghost use Rattle.resp_scan.specs.Machine.Moves.{with_sign};

use crate::machine::{Advance, EventTag, Machine, State};
use resp_value::cause::Cause;

impl Machine {
    ghost use Rattle.resp_scan.specs.Machine.Fields.{Reads};
    ghost use Rattle.resp_scan.specs.Machine.Tokens.{AtIntSign, AtIntFirst, InInt, AtIntLf};

    /// Reads after `:`. A sign does not reduce the number of bytes that are needed.
    #[inline]
    pub(crate) fn int_sign(&mut self, piece: &[u8], i: usize) -> Advance
        requires { i ≤ length piece.now }
        ensures { Reads self.old self.new AtIntSign piece.now i result }
    {
        if i == piece.len() {
            return self.rest(State::IntSign, piece);
        }
        let byte = piece[i];
        if byte != b'-' && byte != b'+' {
            return self.int_first(piece, i, false);
        }
        match self.over_total(i + 1, 3) {
            Some(cause) => self.fail(i, cause),
            None => self.int_signed(piece, i + 1, byte == b'-'),
        }
    }

    /// Reads after a sign. It is not inlined, since few integers have a sign.
    #[inline(never)]
    pub(crate) fn int_signed(&mut self, piece: &[u8], i: usize, negative: bool) -> Advance
        requires { i ≤ length piece.now }
        ensures { Reads self.old self.new (AtIntFirst negative) piece.now i result }
    {
        self.int_first(piece, i, negative)
    }

    /// Reads the first digit, after `:` or a sign. An integer has at least one digit.
    #[inline(always)]
    pub(crate) fn int_first(&mut self, piece: &[u8], i: usize, negative: bool) -> Advance
        requires { i ≤ length piece.now }
        ensures { Reads self.old self.new (AtIntFirst negative) piece.now i result }
    {
        if i == piece.len() {
            self.negative = negative;
            return self.rest(State::IntFirst, piece);
        }
        if piece[i] < b'0' || piece[i] > b'9' {
            return self.fail(i, Cause::Syntax);
        }
        self.int_more(piece, i + 1, negative, piece[i] as u64 - b'0' as u64)
    }

    /// Reads after a digit. All digits in the piece are read first and then checked together.
    #[inline(always)]
    pub(crate) fn int_more(
        &mut self,
        piece: &[u8],
        from: usize,
        negative: bool,
        first: u64,
    ) -> Advance
        requires within { from ≤ length piece.now }
        requires fits { first ≤ greatest_magnitude negative }
        ensures { Reads self.old self.new (InInt negative first) piece.now from result }
    {
        let mut magnitude = first;
        for i in from..piece.len() {
            let byte = piece[i];
            if byte < b'0' || byte > b'9' {
                if byte == b'\r' && self.has_total_room(i, 2) {
                    return self.int_lf(piece, i + 1, negative, magnitude);
                }
                break;
            }
            if magnitude >= 922_337_203_685_477_580 {
                break;
            }
            magnitude = magnitude * 10 + (byte as u64 - b'0' as u64);
        }
        self.int_by_digits(piece, from, negative, first)
    }

    /// Like `int_more`, digit by digit. It is needed if the digits continue in the next piece or
    /// one of them may be rejected.
    #[cold]
    #[inline(never)]
    pub(crate) fn int_by_digits(
        &mut self,
        piece: &[u8],
        from: usize,
        negative: bool,
        first: u64,
    ) -> Advance
        requires within { from ≤ length piece.now }
        requires fits { first ≤ greatest_magnitude negative }
        ensures { Reads self.old self.new (InInt negative first) piece.now from result }
    {
        let mut magnitude = first;
        let room = self.total_room();
        let last = if negative { 8 } else { 7 };
        for i in from..piece.len() {
            let byte = piece[i];
            if byte < b'0' || byte > b'9' {
                if byte == b'\r' {
                    return self.int_lf(piece, i + 1, negative, magnitude);
                }
                return self.fail(i, Cause::Syntax);
            }
            let digit = (byte - b'0') as u64;
            if magnitude >= 922_337_203_685_477_580
                && (magnitude > 922_337_203_685_477_580 || digit > last)
            {
                return self.fail(i, Cause::Range);
            }
            if (i + 1) as u64 + 2 > room {
                return self.fail(i, Cause::Total);
            }
            magnitude = magnitude * 10 + digit;
        }
        self.negative = negative;
        self.magnitude = magnitude;
        self.rest(State::Int, piece)
    }

    /// Reads the LF of an integer of this sign and magnitude, and gives the integer.
    #[inline]
    pub(crate) fn int_lf(
        &mut self,
        piece: &[u8],
        i: usize,
        negative: bool,
        magnitude: u64,
    ) -> Advance
        requires within { i ≤ length piece.now }
        requires fits { magnitude ≤ greatest_magnitude negative }
        ensures { Reads self.old self.new (AtIntLf negative magnitude) piece.now i result }
    {
        if i == piece.len() {
            self.negative = negative;
            self.magnitude = magnitude;
            return self.rest(State::IntLf, piece);
        }
        if piece[i] != b'\n' {
            return self.fail(i, Cause::Syntax);
        }
        self.value = with_sign(negative, magnitude);
        self.at_boundary(i + 1, EventTag::Int)
    }
}

/// Returns the integer of this sign and magnitude. The magnitude of the least `i64` does not fit an
/// `i64`.
#[inline]
fn with_sign(negative: bool, magnitude: u64) -> i64
    requires { magnitude ≤ greatest_magnitude negative }
    ensures { result ≡ with_sign negative magnitude }
{
    if negative {
        if magnitude > 9_223_372_036_854_775_807 {
            i64::MIN
        } else {
            -(magnitude as i64)
        }
    } else {
        magnitude as i64
    }
}
