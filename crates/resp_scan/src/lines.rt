//! Simple strings and simple errors: one line, whose end is found with vector instructions.

ghost use Rattle.resp_scan.specs.Machine.Runs.{plain_run, run_to};
ghost use Rattle.std.specs.Prelude.{◌≡◌, ◌≤◌, length};

use crate::machine::{Advance, EventTag, Machine, State};
use memchr::memchr;
use resp_value::cause::Cause;

impl Machine {
    ghost use Rattle.resp_scan.specs.Machine.Fields.{place_of, out_of, Reads};
    ghost use Rattle.resp_scan.specs.Machine.Scan.{scan};
    ghost use Rattle.resp_scan.specs.Machine.Tokens.{at, InLine, AtLineLf};

    /// Reads the content of a line, at the beginning of the piece.
    #[inline]
    pub(crate) fn line(&mut self, piece: &[u8]) -> Advance
        requires { self.old.state ≡ State.Line }
        ensures { out_of result self.new ≡
            scan 0 (at (place_of self.old) (InLine self.old.room)) piece.now }
    {
        if piece.is_empty() {
            return self.rest(State::Line, piece);
        }
        if piece[0] == b'\r' {
            return self.line_lf(piece, 1);
        }
        let most = self.text_room().min(piece.len() as u64) as usize;
        let run = line_run(&piece[..most]);
        if run > 0 {
            self.room -= run as u64;
            return self.gives(run, EventTag::Part);
        }
        if piece[0] == b'\n' {
            return self.fail(0, Cause::Syntax);
        }
        if self.room == 0 {
            return self.fail(0, Cause::Length);
        }
        self.fail(0, Cause::Total)
    }

    /// Reads the LF of a line, or of a big number other than zero.
    #[inline]
    pub(crate) fn line_lf(&mut self, piece: &[u8], i: usize) -> Advance
        requires { i ≤ length piece.now }
        ensures { Reads self.old self.new AtLineLf piece.now i result }
    {
        if i == piece.len() {
            return self.rest(State::LineLf, piece);
        }
        if piece[i] != b'\n' {
            return self.fail(i, Cause::Syntax);
        }
        self.at_boundary(i + 1, EventTag::TextEnd)
    }
}

/// Returns the number of bytes before the first CR or LF. The first few bytes are checked one by
/// one, the others with vector instructions.
#[inline]
pub(crate) fn line_run(s: &[u8]) -> usize
    ensures run { result ≡ plain_run s.now }
    ensures within { result ≤ length s.now }
{
    let near = s.len().min(8);
    for i in 0..near {
        let byte = s[i];
        if byte <= b'\r' {
            // An LF or another byte below CR is rare, so the other search handles it.
            return if byte == b'\r' { i } else { far_run(s) };
        }
    }
    far_run(s)
}

/// Like `line_run`, with vector instructions alone: searches for a CR, and then for an LF before
/// it.
#[inline(never)]
fn far_run(s: &[u8]) -> usize
    ensures run { result ≡ plain_run s.now }
    ensures within { result ≤ length s.now }
{
    let cr = run_to(b'\r', s);
    run_to(b'\n', &s[..cr])
}

/// Returns the number of bytes before the first byte equal to `byte`, or the number of all bytes if
/// there is no such byte.
#[inline]
fn run_to(byte: u8, s: &[u8]) -> usize
    ensures value { result ≡ run_to byte s.now }
    ensures within { result ≤ length s.now }
{
    match memchr(byte, s) {
        Some(i) => i,
        None => s.len(),
    }
}
