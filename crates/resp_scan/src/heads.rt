//! Heads of strings and aggregates: the number of bytes or members, or `-1` or `?` in its place.

ghost use Rattle.resp_scan.specs.Machine.Heads.{head_needed, streamed_kind, may_end};
ghost use Rattle.resp_scan.specs.Machine.Moves.{is_digit};
ghost use Rattle.std.specs.Prelude.{◌≡◌, ◌≤◌, ◌<◌, ◌+◌, ◌^◌, length, IfNone, true, slice_index};

use crate::machine::{Advance, EventTag, Head, Machine, State};
use crate::needed::needed_after;
use resp_value::cause::Cause;
use resp_value::kind::OpenKind;
use resp_value::version::Version;

/// From this number on the digits are checked one by one, which keeps the number within range. Most
/// numbers are smaller.
const MOST_JUDGED: u64 = 1 << 30;

impl Machine {
    ghost use Rattle.resp_scan.specs.Machine.Fields.{place_of, Reads};
    ghost use Rattle.resp_scan.specs.Machine.Tokens.{AtBulkHead, AtArrayHead, AtHead, InHead, AtHeadLf};
    ghost use Rattle.resp_scan.specs.Machine.Heads.{over, string_cause, aggregate_cause, HasFrame};
    ghost use Rattle.resp_scan.specs.Machine.Moves.{full_cause};
    ghost use Rattle.resp_scan.specs.Machine.Sound.{IsWithinRoom};

    /// Reads after `$`: a number, `-1` for null, or `?` for a streamed string.
    #[inline(always)]
    pub(crate) fn bulk_head(&mut self, piece: &[u8], i: usize) -> Advance
        requires { i ≤ length piece.now }
        ensures { Reads self.old self.new AtBulkHead piece.now i result }
    {
        if i == piece.len() {
            return self.rest(State::BulkHead, piece);
        }
        let byte = piece[i];
        if b'0' <= byte && byte <= b'9' {
            return self.head_digits(piece, i, Head::Bulk);
        }
        match byte {
            b'-' => self.null_one(piece, i + 1),
            b'?' => match self.streamed_string(i + 1) {
                Some(cause) => self.fail(i, cause),
                None => self.stream_cr(piece, i + 1),
            },
            _ => self.fail(i, Cause::Syntax),
        }
    }

    /// Reads after `*`: a number, `-1` for null, or `?` for a streamed array.
    #[inline(never)]
    pub(crate) fn array_head(&mut self, piece: &[u8], i: usize) -> Advance
        requires { i ≤ length piece.now }
        ensures { Reads self.old self.new AtArrayHead piece.now i result }
    {
        if i == piece.len() {
            return self.rest(State::ArrayHead, piece);
        }
        let byte = piece[i];
        let is_full = self.is_full();
        if b'0' <= byte && byte <= b'9' && !is_full {
            return self.head_digits(piece, i, Head::Array);
        }
        if byte == b'-' {
            return match self.over_total(i + 1, 3) {
                Some(cause) => self.fail(i, cause),
                None => self.null_one(piece, i + 1),
            };
        }
        if is_full {
            let cause = self.full_cause(byte);
            return self.fail(i, cause);
        }
        self.head_first(piece, i, Head::Array)
    }

    /// Returns the cause of rejecting this byte after the `*` of an array that exceeds the limit
    /// `depth`.
    #[inline]
    fn full_cause(&self, byte: u8) -> Cause
        ensures { result ≡ full_cause (place_of self.now) byte }
    {
        if byte == b'?' {
            match self.version {
                Version::Two => Cause::Version,
                Version::Three => {
                    if self.limits.streamed() {
                        Cause::Depth
                    } else {
                        Cause::Streamed
                    }
                }
            }
        } else if b'0' <= byte && byte <= b'9' {
            Cause::Depth
        } else {
            Cause::Syntax
        }
    }

    /// Returns the cause of rejecting the `?` of a streamed string, if it is rejected.
    #[inline]
    fn streamed_string(&self, used: usize) -> Option<Cause>
        requires { used ≤ 2 ^ 63 }
        ensures { result ≡ string_cause (place_of self.now) used }
    {
        match self.version {
            Version::Two => Some(Cause::Version),
            Version::Three => {
                if self.limits.streamed() {
                    self.over_total(used, 6)
                } else {
                    Some(Cause::Streamed)
                }
            }
        }
    }

    /// Returns the cause of rejecting the `?` of a streamed aggregate, if it is rejected.
    #[inline]
    fn streamed_aggregate(&self, used: usize) -> Option<Cause>
        requires { used ≤ 2 ^ 63 }
        ensures cause { result ≡ aggregate_cause (place_of self.now) used }
        ensures frames_need { IfNone result (self.now.frames_need < 2 ^ 62) }
    {
        match self.version {
            Version::Two => Some(Cause::Version),
            Version::Three => {
                if !self.limits.streamed() {
                    Some(Cause::Streamed)
                } else if self.is_full() {
                    Some(Cause::Depth)
                } else {
                    self.over_total(used, 5)
                }
            }
        }
    }

    /// Reads the first digit of a head, or the `?` of a streamed aggregate.
    #[inline(always)]
    pub(crate) fn head_first(&mut self, piece: &[u8], i: usize, head: Head) -> Advance
        requires within { i ≤ length piece.now }
        requires level { HasFrame (place_of self.old) head }
        ensures { Reads self.old self.new (AtHead head) piece.now i result }
    {
        if i == piece.len() {
            self.head = head;
            return self.rest(State::HeadFirst, piece);
        }
        let byte = piece[i];
        if byte == b'?' {
            return match streamed_kind(head) {
                None => self.fail(i, Cause::Syntax),
                Some(kind) => match self.streamed_aggregate(i + 1) {
                    Some(cause) => self.fail(i, cause),
                    None => self.open_cr(piece, i + 1, kind),
                },
            };
        }
        if byte < b'0' || byte > b'9' {
            return self.fail(i, Cause::Syntax);
        }
        self.head_digits(piece, i, head)
    }

    /// Reads a head from its first digit. All digits in the piece are read first and then checked
    /// together.
    #[inline(always)]
    fn head_digits(&mut self, piece: &[u8], i: usize, head: Head) -> Advance
        requires within { i < length piece.now }
        requires digit { is_digit (slice_index piece.now i) ≡ true }
        requires level { HasFrame (place_of self.old) head }
        ensures { Reads self.old self.new (AtHead head) piece.now i result }
    {
        let mut number = piece[i] as u64 - b'0' as u64;
        for j in i + 1..piece.len() {
            let byte = piece[j];
            if byte < b'0' || byte > b'9' {
                let ends = byte == b'\r' && may_end(head, number);
                if ends && self.over(j, head, number).is_none() {
                    return self.head_lf(piece, j + 1, head, number);
                }
                break;
            }
            if number >= MOST_JUDGED {
                break;
            }
            number = number * 10 + (byte as u64 - b'0' as u64);
        }
        self.head_by_digits(piece, i, head)
    }

    /// Like `head_digits`, digit by digit. It is needed if the digits continue in the next piece or
    /// one of them may be rejected.
    #[cold]
    #[inline(never)]
    fn head_by_digits(&mut self, piece: &[u8], i: usize, head: Head) -> Advance
        requires within { i < length piece.now }
        requires digit { is_digit (slice_index piece.now i) ≡ true }
        requires level { HasFrame (place_of self.old) head }
        ensures { Reads self.old self.new (AtHead head) piece.now i result }
    {
        let number = (piece[i] - b'0') as u64;
        match self.over(i + 1, head, number) {
            Some(cause) => self.fail(i, cause),
            None => self.head_more(piece, i + 1, head, number),
        }
    }

    /// Reads after a digit of a head, digit by digit.
    #[inline(never)]
    pub(crate) fn head_more(&mut self, piece: &[u8], from: usize, head: Head, first: u64) -> Advance
        requires within { from ≤ length piece.now }
        requires fits { first ≤ 2 ^ 40 }
        requires room { IsWithinRoom head first }
        requires level { HasFrame (place_of self.old) head }
        requires frames_need { self.old.frames_need + head_needed head first ≤ 2 ^ 41 }
        ensures { Reads self.old self.new (InHead head first) piece.now from result }
    {
        let mut number = first;
        for i in from..piece.len() {
            let byte = piece[i];
            if byte < b'0' || byte > b'9' {
                if byte == b'\r' && may_end(head, number) {
                    return self.head_lf(piece, i + 1, head, number);
                }
                return self.fail(i, Cause::Syntax);
            }
            number = number * 10 + (byte - b'0') as u64;
            if let Some(cause) = self.over(i + 1, head, number) {
                return self.fail(i, cause);
            }
        }
        self.head = head;
        self.count = number;
        self.rest(State::HeadMore, piece)
    }

    /// Returns the cause of rejecting a digit of a head that makes its number this: length or
    /// items, and then total.
    #[inline]
    fn over(&self, used: usize, head: Head, number: u64) -> Option<Cause>
        requires index { used ≤ 2 ^ 63 }
        requires number { number < 2 ^ 44 }
        ensures few { IfNone result (number ≤ 2 ^ 40) }
        ensures room { IfNone result (IsWithinRoom head number) }
        ensures frames_need { IfNone result
            (self.now.frames_need + head_needed head number ≤ 2 ^ 40) }
        ensures over { result ≡ over (place_of self.now) used head number }
    {
        match head {
            Head::Bulk | Head::BulkError | Head::Verbatim => {
                if number > self.limits.length() {
                    return Some(Cause::Length);
                }
            }
            Head::Chunk { room } => {
                if number > room {
                    return Some(Cause::Length);
                }
            }
            Head::Array | Head::Set | Head::Map | Head::Attr | Head::Push => {
                if number > self.limits.items() {
                    return Some(Cause::Items);
                }
            }
        }
        self.over_total(used, needed_after(head, number))
    }

    /// Reads the LF of a head with this number. A string, a chunk or an aggregate begins after it.
    #[inline(always)]
    pub(crate) fn head_lf(&mut self, piece: &[u8], i: usize, head: Head, number: u64) -> Advance
        requires within { i ≤ length piece.now }
        requires fits { number ≤ 2 ^ 40 }
        requires room { IsWithinRoom head number }
        requires ends { may_end head number ≡ true }
        requires level { HasFrame (place_of self.old) head }
        requires frames_need { self.old.frames_need + head_needed head number ≤ 2 ^ 41 }
        ensures { Reads self.old self.new (AtHeadLf head number) piece.now i result }
    {
        if i == piece.len() {
            self.head = head;
            self.count = number;
            return self.rest(State::HeadLf, piece);
        }
        if piece[i] != b'\n' {
            return self.fail(i, Cause::Syntax);
        }
        match head {
            Head::Bulk => self.content_begins(i + 1, number, EventTag::Bulk),
            Head::BulkError => self.content_begins(i + 1, number, EventTag::BulkError),
            Head::Verbatim => self.format_first(piece, i + 1, number),
            Head::Chunk { room } => self.chunk_begins(piece, i + 1, number, room),
            Head::Array => self.open(i + 1, OpenKind::Array, number, number),
            Head::Set => self.open(i + 1, OpenKind::Set, number, number),
            Head::Map => self.open(i + 1, OpenKind::Map, number, number * 2),
            Head::Attr => self.open(i + 1, OpenKind::Attr, number, number * 2 + 1),
            Head::Push => self.open(i + 1, OpenKind::Push, number, number),
        }
    }
}

/// Returns the kind of aggregate, if it may be streamed.
#[inline]
fn streamed_kind(head: Head) -> Option<OpenKind>
    ensures { result ≡ streamed_kind head }
{
    match head {
        Head::Array => Some(OpenKind::Array),
        Head::Set => Some(OpenKind::Set),
        Head::Map => Some(OpenKind::Map),
        _ => None,
    }
}

/// Returns whether a head may end with this number. A verbatim string has four bytes before its
/// text.
#[inline]
fn may_end(head: Head, number: u64) -> bool
    ensures { result ≡ may_end head number }
{
    match head {
        Head::Verbatim => number >= 4,
        _ => true,
    }
}
