//! Fast paths for short bulk strings, simple strings and integers that are completely at the
//! beginning of a piece.

ghost use Rattle.std.specs.Prelude.{IfNone, IfSome, ◌+◌, ◌-◌, ◌<◌, ◌^◌, ◌≡◌, ◌≤◌, drop, false, get_or, length, min, take, true};
ghost use Rattle.resp_scan.specs.Machine.Heads.{content_at};
ghost use Rattle.resp_scan.specs.Machine.Room.{has_total_room, total_room};
ghost use Rattle.resp_scan.specs.Machine.Runs.{plain_run};
ghost use Rattle.resp_scan.specs.Machine.Scan.{Gave, scan};
ghost use Rattle.resp_scan.specs.Machine.Tokens.{AtBulkHead, InInt, Place, Text, at};
ghost use Rattle.resp_scan.specs.Machine.Turns.{EndsAt, HasShortNumber, LeavesContent};
ghost use Rattle.resp_scan.specs.declared.event.TextKind.TheVariants as text;

use crate::lines::line_run;
use crate::machine::{Advance, EventTag, Machine, State};
use crate::turn::{beyond, ends_at};

/// The greatest number of bytes of a line that takes the fast path.
const LINE: usize = 1_000;

/// The number of bytes of an integer that are searched for its CR. No number of so few digits is
/// out of range.
const INTEGER: usize = 12;

impl Machine {
    ghost use Rattle.resp_scan.specs.Machine.Fields.{out_of, place_of};
    ghost use Rattle.resp_scan.specs.Machine.Sound.{IsSound};
    ghost use Rattle.resp_scan.specs.Machine.Tokens.{AtStart};

    /// Begins a short bulk string that is completely at the beginning of this piece.
    #[inline(always)]
    pub(crate) fn short_text(&mut self, piece: &[u8]) -> Option<Short>
        requires { IsSound (at (place_of self.old) AtStart) }
        ensures begun { IfSome result (λ short.
            out_of (record { used = short.head; tag = EventTag.Bulk }) self.new ≡
            scan 0 (at (place_of self.old) AtStart) piece.now) }
        ensures ends { IfSome result (λ short. (short.count < 2 ^ 10) × (short.head < 2 ^ 10) ×
            (short.head ≤ length piece.now) × EndsAt (drop short.head piece.now) short.count ×
            LeavesContent self.new.state self.new.count short.count) }
        ensures unchanged { IfNone result (self.new ≡ self.old) }
    {
        let short = short_head(piece)?;
        ends_at(beyond(piece, short.head), short.count as usize)?;
        if short.count > self.limits.length() {
            return None;
        }
        match self.begin(short.head as u64 + short.count + 1) {
            Some(_) => None,
            None => {
                let _ = self.content_begins(short.head, short.count, EventTag::Bulk);
                Some(short)
            }
        }
    }

    /// Begins a simple string that is completely at the beginning of this piece, and returns the
    /// number of bytes before its CR LF.
    #[inline(always)]
    pub(crate) fn short_line(&mut self, piece: &[u8]) -> Option<usize>
        requires { IsSound (at (place_of self.old) AtStart) }
        ensures begun { IfSome result (λ run.
            out_of (record { used = 1; tag = EventTag.Simple }) self.new ≡
            scan 0 (at (place_of self.old) AtStart) piece.now) }
        ensures line { IfSome result (λ run. (run < 2 ^ 10) × (1 ≤ length piece.now) ×
            (self.new.state ≡ State.Line) × EndsAt (drop 1 piece.now) run ×
            (run ≡ plain_run (take (min (min self.new.room
            (total_room (place_of self.new) - (1 + 2))) (length (drop 1 piece.now)))
            (drop 1 piece.now)))) }
        ensures unchanged { IfNone result (self.new ≡ self.old) }
    {
        if piece.is_empty() || piece[0] != b'+' {
            return None;
        }
        let line = beyond(piece, 1);
        let run = ends_at(line, line_run(line))?;
        if run > LINE || run as u64 > self.limits.length() {
            return None;
        }
        match self.begin(run as u64 + 2) {
            Some(_) => None,
            None => {
                self.state = State::Line;
                self.room = self.limits.length();
                Some(run)
            }
        }
    }

    /// Reads an integer of few digits and without a sign, if its CR is in this piece.
    #[inline(always)]
    pub(crate) fn short_int(&mut self, piece: &[u8]) -> Option<Advance>
        requires { IsSound (at (place_of self.old) AtStart) }
        ensures taken { IfSome result (λ taken. out_of taken self.new ≡
            scan 0 (at (place_of self.old) AtStart) piece.now) }
        ensures unchanged { IfNone result (self.new ≡ self.old) }
    {
        if piece.len() < 4 || piece[0] != b':' || piece[1] < b'0' || piece[1] > b'9' {
            return None;
        }
        let digits = few_digits(piece, u64::from(piece[1] - b'0'))?;
        match self.begin(digits.end as u64 + 1) {
            Some(_) => None,
            None => Some(self.int_lf(piece, digits.end + 1, false, digits.magnitude)),
        }
    }
}

/// The place of the CR after the digits of an integer, and their number.
#[derive(Clone, Copy)]
struct ShortDigits {
    end: usize,
    magnitude: u64,
}

/// Returns the digits of an integer after this first one, if they are few and a CR follows.
#[inline(always)]
fn few_digits(piece: &[u8], first: u64) -> Option<ShortDigits>
    requires { first ≤ 9 }
    ensures within { IfSome result (λ digits. (2 ≤ digits.end) × (digits.end < 12) ×
        (digits.end < length piece.now) × (digits.magnitude < 2 ^ 40)) }
    ensures digits { IfSome result (λ digits. (s : Place) → has_total_room s digits.end 2 ≡ true →
        scan 2 (at s (InInt false first)) (drop 2 piece.now) ≡
        scan digits.end (at s (InInt false digits.magnitude)) (drop digits.end piece.now)) }
    ensures carriage_return { IfSome result (λ digits. get_or piece.now digits.end 0 ≡ 13) }
{
    let mut magnitude = first;
    for end in 2..piece.len().min(INTEGER) {
        let byte = piece[end];
        if byte < b'0' || byte > b'9' {
            return match byte {
                b'\r' => Some(ShortDigits { end, magnitude }),
                _ => None,
            };
        }
        magnitude = magnitude * 10 + (byte as u64 - b'0' as u64);
    }
    None
}

/// A number of one or two digits after the first byte of a piece, and the index after its CR LF.
#[derive(Clone, Copy)]
pub(crate) struct Short {
    /// The index after the CR LF.
    pub head: usize,
    /// The number.
    pub count: u64,
}

/// Returns the head of a bulk string at the beginning of a piece, if its number has one or two
/// digits.
#[inline(always)]
#[tactic(auto, using(crate::proofs::Soundness::ShortHeads::text_head))]
fn short_head(piece: &[u8]) -> Option<Short>
    ensures within { IfSome result (λ short. (short.head ≤ length piece.now) × (4 ≤ short.head) ×
        (short.head ≤ 5) × (short.count < 100) × (get_or piece.now 0 0 ≡ 36)) }
    ensures head { IfSome result (λ short. (u : Place) → short.count ≤ u.bounds.length →
        short.head + short.count + 2 ≤ total_room u →
        Gave short.head (Text text.Bulk) (content_at short.count u) ≡
        scan 1 (at u AtBulkHead) (drop 1 piece.now)) }
{
    if piece.len() < 5 || piece[0] != b'$' {
        return None;
    }
    short_number(piece)
}

/// Returns the number of one or two digits after the first byte of a piece, if CR LF follows it.
#[inline(always)]
pub(crate) fn short_number(piece: &[u8]) -> Option<Short>
    requires { 5 ≤ length piece.now }
    ensures { IfSome result (λ short. HasShortNumber piece.now short.head short.count) }
{
    match piece[3] {
        b'\r' => two_digits(piece),
        b'\n' => one_digit(piece),
        _ => None,
    }
}

/// Like `short_number`, for one digit.
#[inline(always)]
fn one_digit(piece: &[u8]) -> Option<Short>
    requires begins { (5 ≤ length piece.now) × (get_or piece.now 3 0 ≡ 10) }
    ensures { IfSome result (λ short. HasShortNumber piece.now short.head short.count) }
{
    if piece[1] < b'0' || piece[1] > b'9' || piece[2] != b'\r' {
        return None;
    }
    Some(Short {
        head: 4,
        count: u64::from(piece[1] - b'0'),
    })
}

/// Like `short_number`, for two digits.
#[inline(always)]
fn two_digits(piece: &[u8]) -> Option<Short>
    requires begins { (5 ≤ length piece.now) × (get_or piece.now 3 0 ≡ 13) }
    ensures { IfSome result (λ short. HasShortNumber piece.now short.head short.count) }
{
    if piece[1] < b'0' || piece[1] > b'9' || piece[2] < b'0' || piece[2] > b'9' {
        return None;
    }
    if piece[4] != b'\n' {
        return None;
    }
    Some(Short {
        head: 5,
        count: u64::from(piece[1] - b'0') * 10 + u64::from(piece[2] - b'0'),
    })
}
