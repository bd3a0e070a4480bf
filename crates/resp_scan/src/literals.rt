//! Nulls and booleans.

ghost use Rattle.std.specs.Prelude.{◌≤◌, length};

use crate::machine::{Advance, EventTag, Machine, State};
use resp_value::cause::Cause;

impl Machine {
    ghost use Rattle.resp_scan.specs.Machine.Fields.{Reads};
    ghost use Rattle.resp_scan.specs.Machine.Tokens.{AtNullOne, AtNullCr, AtNullLf, AtBool, AtBoolCr, AtBoolLf};

    /// Reads the `1` after `$-` or `*-`.
    #[inline]
    pub(crate) fn null_one(&mut self, piece: &[u8], i: usize) -> Advance
        requires { i ≤ length piece.now }
        ensures { Reads self.old self.new AtNullOne piece.now i result }
    {
        if i == piece.len() {
            return self.rest(State::NullOne, piece);
        }
        if piece[i] != b'1' {
            return self.fail(i, Cause::Syntax);
        }
        self.null_cr(piece, i + 1)
    }

    /// Reads the CR after `_`, `$-1` or `*-1`.
    #[inline]
    pub(crate) fn null_cr(&mut self, piece: &[u8], i: usize) -> Advance
        requires { i ≤ length piece.now }
        ensures { Reads self.old self.new AtNullCr piece.now i result }
    {
        if i == piece.len() {
            return self.rest(State::NullCr, piece);
        }
        if piece[i] != b'\r' {
            return self.fail(i, Cause::Syntax);
        }
        self.null_lf(piece, i + 1)
    }

    /// Reads the LF of a null, and gives the null.
    #[inline]
    pub(crate) fn null_lf(&mut self, piece: &[u8], i: usize) -> Advance
        requires { i ≤ length piece.now }
        ensures { Reads self.old self.new AtNullLf piece.now i result }
    {
        if i == piece.len() {
            return self.rest(State::NullLf, piece);
        }
        if piece[i] != b'\n' {
            return self.fail(i, Cause::Syntax);
        }
        self.at_boundary(i + 1, EventTag::Null)
    }

    /// Reads after `#`.
    #[inline]
    pub(crate) fn bool(&mut self, piece: &[u8], i: usize) -> Advance
        requires { i ≤ length piece.now }
        ensures { Reads self.old self.new AtBool piece.now i result }
    {
        if i == piece.len() {
            return self.rest(State::Bool, piece);
        }
        match piece[i] {
            b't' => self.bool_cr(piece, i + 1, true),
            b'f' => self.bool_cr(piece, i + 1, false),
            _ => self.fail(i, Cause::Syntax),
        }
    }

    /// Reads the CR after `#t` or `#f`.
    #[inline]
    pub(crate) fn bool_cr(&mut self, piece: &[u8], i: usize, truth: bool) -> Advance
        requires { i ≤ length piece.now }
        ensures { Reads self.old self.new (AtBoolCr truth) piece.now i result }
    {
        if i == piece.len() {
            self.truth = truth;
            return self.rest(State::BoolCr, piece);
        }
        if piece[i] != b'\r' {
            return self.fail(i, Cause::Syntax);
        }
        self.bool_lf(piece, i + 1, truth)
    }

    /// Reads the LF of a boolean, and gives the boolean.
    #[inline]
    pub(crate) fn bool_lf(&mut self, piece: &[u8], i: usize, truth: bool) -> Advance
        requires { i ≤ length piece.now }
        ensures { Reads self.old self.new (AtBoolLf truth) piece.now i result }
    {
        if i == piece.len() {
            self.truth = truth;
            return self.rest(State::BoolLf, piece);
        }
        if piece[i] != b'\n' {
            return self.fail(i, Cause::Syntax);
        }
        self.truth = truth;
        self.at_boundary(i + 1, EventTag::Bool)
    }
}
