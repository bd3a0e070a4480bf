//! The part of a value that was read, with the first bytes of each text and the lengths of the
//! longer texts.

ghost use Rattle.std.specs.Prelude.{◌≡◌, ◌-◌, ◌++◌, ℕ, [], None, Some, suc, take, true, IfNone, IfSome};
ghost use Rattle.resp_value.specs.Cuts.{longer};
ghost use Rattle.resp_decode.specs.CutBuilds.{may_cut};
ghost use Rattle.resp_scan.specs.Kinds.{text_kind_of};
ghost use Rattle.resp_scan.specs.Listening.{IsTextOf};

use crate::held::HeldParts;
use resp_scan::event::TextKind;
use resp_scan::listener::Listener;
use resp_value::CutValue;
use resp_value::kind::OpenKind;
use resp_value::value::Value;
use std::alloc::Global;
use std::mem;

/// The parts of a value that a decoder holds if it keeps the first bytes of each text.
#[derive(Drop)]
pub(crate) struct Kept {
    alloc: Global,
    held: HeldParts,
    /// The number of bytes of each text that are shown. One more is kept.
    shown: usize,
    /// Whether the text that is being read may be cut.
    cuts: bool,
    /// The number of bytes of the text that is being read, and 0 if it may not be cut.
    count: u64,
    /// The lengths of the finished texts that have more bytes than are shown.
    lengths: Vec<u64>,
}

impl Kept {
    ghost use Rattle.resp_decode.specs.Holding.{construction_of, maybe_datum};
    ghost use Rattle.resp_decode.specs.Keeping.{KeepsNothing};

    /// Creates an empty state. Does not allocate.
    pub(crate) fn new(alloc: Global, shown: usize) -> Kept
        ensures nothing_kept { KeepsNothing result }
        ensures shown { result.shown ≡ shown }
    {
        Kept {
            alloc,
            held: HeldParts::new(alloc),
            shown,
            cuts: true,
            count: 0,
            lengths: Vec::new(alloc),
        }
    }

    /// Returns the weight of the parts held.
    #[inline]
    pub(crate) fn weight(&self) -> u64
        ensures { result ≡ self.now.held.weight }
    {
        self.held.weight()
    }

    /// Returns the number of bytes of each text that are shown.
    #[inline]
    pub(crate) fn shown(&self) -> usize
        ensures { result ≡ self.now.shown }
    {
        self.shown
    }

    /// Takes out the outermost value if it is complete, with the lengths of its longer texts. No
    /// length is held then, and no value.
    pub(crate) fn take_whole(&mut self) -> Option<CutValue>
        ensures value { IfSome result (λ kept.
            maybe_datum (Some kept.value) ≡ (construction_of self.old.held).whole) }
        ensures lengths { IfSome result (λ kept. kept.lengths.items ≡ self.old.lengths.items) }
        ensures no_value { IfNone result ((construction_of self.old.held).whole ≡ None) }
        ensures holds { construction_of self.new.held ≡
            record (construction_of self.old.held) { whole = None } }
        ensures weighs { self.new.held.weight ≡ 0 }
        ensures no_lengths { self.new.lengths.items ≡ [] }
        ensures same_shown { self.new.shown ≡ self.old.shown }
    {
        let lengths = mem::replace(&mut self.lengths, Vec::new(self.alloc));
        match self.held.take_whole() {
            Some(value) => Some(CutValue { value, lengths }),
            None => None,
        }
    }
}

impl Listener for Kept {
    ghost use Rattle.resp_decode.specs.Brief.{WantMemory};
    ghost use Rattle.resp_decode.specs.Keeping.{HasKept};

    // The number of bytes of each text that are shown, which no call changes.
    ghost Origin = { ℕ };

    ghost has_heard = { λ kept shown. HasKept kept shown };

    ghost has_stopped = { λ _ _. WantMemory };

    #[inline]
    fn null(&mut self) -> bool {
        self.held.put_scalar(Value::Null, 0)
    }

    #[inline]
    fn truth(&mut self, truth: bool) -> bool {
        self.held.put_scalar(Value::Bool(truth), 0)
    }

    #[inline]
    fn int(&mut self, number: i64) -> bool {
        self.held.put_scalar(Value::Int(number), 0)
    }

    #[inline]
    fn text(&mut self, kind: TextKind) -> bool {
        self.cuts = may_cut(kind);
        self.count = 0;
        self.held.begin_text(kind);
        true
    }

    #[inline]
    fn part(&mut self, part: &[u8]) -> bool {
        if !self.cuts {
            return self.held.extend_text(part);
        }
        let kept = kept_bytes(part, self.count, self.shown);
        self.count = self.count.saturating_add(part.len() as u64);
        self.held.extend_text(kept)
    }

    #[inline]
    fn text_end(&mut self) -> bool {
        keep_length(&mut self.lengths, self.count, self.shown) && self.held.end_text()
    }

    #[inline]
    fn open(&mut self, kind: OpenKind, count: Option<u64>) -> bool {
        self.held.open_group(kind, count)
    }

    #[inline]
    fn close(&mut self) -> bool {
        self.held.close_group()
    }

    #[inline]
    fn whole_text(&mut self, kind: TextKind, bytes: &[u8]) -> bool {
        if !may_cut(kind) {
            return self.held.take_text(kind, bytes);
        }
        let kept = kept_bytes(bytes, 0, self.shown);
        keep_length(&mut self.lengths, bytes.len() as u64, self.shown)
            && self.held.take_text(kind, kept)
    }
}

/// Returns whether only the first bytes of a text of this kind are kept. Doubles and the digits of
/// big numbers are kept whole.
#[inline]
fn may_cut(kind: TextKind) -> bool
    ensures { result ≡ may_cut (text_kind_of kind) }
{
    match kind {
        TextKind::Double | TextKind::Big { .. } => false,
        _ => true,
    }
}

/// Returns the bytes of a part that are kept, if `count` bytes of the text come before it.
#[inline]
fn kept_bytes(part: &[u8], count: u64, shown: usize) -> &[u8]
    ensures { result.now ≡ take (suc shown - count) part.now }
{
    let Some(room) = (shown as u64).checked_sub(count) else {
        return &part[..0];
    };
    if part.len() as u64 <= room {
        part
    } else {
        &part[..room as usize + 1]
    }
}

/// Adds the length of a text if it has more bytes than are shown. Returns false if an allocation
/// fails.
#[inline]
fn keep_length(lengths: &mut Vec<u64>, count: u64, shown: usize) -> bool
    ensures { result ≡ true → lengths.new.items ≡ lengths.old.items ++ longer shown count }
{
    if count <= shown as u64 {
        return true;
    }
    lengths.push(count).is_ok()
}
