//! The decoder that keeps the first bytes of each text.

ghost use Rattle.std.specs.Prelude.{◌≡◌, ◌⊎◌, ◌↔◌, ◌≤◌, ◌<◌, ◌++◌, ℕ, length, take, [], None, Err, IsOk, OnOk, OnErr, IfOk, IfErr};
ghost use Rattle.resp_decode.specs.Keeping.{HasKept, KeepsNothing};
ghost use Rattle.resp_decode.specs.Standing.{TakesOrStands};
ghost use Rattle.resp_value.specs.declared.cause.Cause.TheVariants as cause;

use crate::decoder::fault_of;
use crate::fed::Fed;
use crate::kept::Kept;
use resp_scan::event::{Busy, Fault};
use resp_scan::scanner::Scanner;
use resp_value::CutValue;
use resp_value::limits::Limits;
use resp_value::version::Version;
use std::alloc::Global;

/// Reads values one after another, from pieces of any size, for a reader that shows only the first
/// bytes of each text.
///
/// Of each text it keeps one byte more than is shown, and the length of each text that has more
/// bytes than are shown. All other bytes are scanned and not kept. So the memory for a reply does
/// not grow with the length of its texts. The digits of a big number are all kept; the limit
/// `length` applies to them.
///
/// It reads the same encodings as a [`Decoder`](crate::decoder::Decoder) with the same limits, and
/// fails at the same bytes with the same causes.
#[derive(Drop)]
pub struct CutDecoder {
    alloc: Global,
    scanner: Scanner,
    kept: Kept,
    /// The bytes read are a prefix of a value, or there was a fault.
    pub ghost reading: { ∥ TakesOrStands (HasKept kept kept.shown) (KeepsNothing kept) scanner ∥₁ },
}

impl CutDecoder {
    ghost use Rattle.resp_decode.specs.CutDecoding.{GivesCut, HasFault, HasTaken, WeighsWhatIsKept, WhereTaken, rules_of, shown_of};
    ghost use Rattle.resp_decode.specs.Decoding.{IfNoValue, IfValue, LacksMemory, RefusesByte, TakesPiece};
    ghost use Rattle.resp_scan.specs.declared.event.Fault.{Fault};
    ghost use Rattle.resp_value.specs.Bounds.{AreBounds};
    ghost use Rattle.resp_value.specs.Rules.{WithinTotal, rules_under};
    ghost use Rattle.resp_value.specs.Spellings.{IsViable};

    /// Creates a decoder of this version with these limits, before the first value. It keeps
    /// `shown + 1` bytes of each text. Does not allocate.
    pub fn new(alloc: Global, version: Version, limits: &Limits, shown: usize) -> CutDecoder
        ensures nothing_taken { HasTaken result [] }
        ensures rules { rules_of result ≡ rules_under version limits.now }
        ensures shown { shown_of result ≡ shown }
    {
        CutDecoder {
            alloc,
            scanner: Scanner::new(version, limits),
            kept: Kept::new(alloc, shown),
        }
    }

    /// Reads bytes of the piece up to the end of a value, or up to the end of the piece. Call it
    /// again with the bytes that are left.
    ///
    /// # Errors
    ///
    /// Those of [`Decoder::feed`](crate::decoder::Decoder::feed).
    ///
    /// # Examples
    ///
    /// A text of which five bytes are shown, from [samples](../../samples/src/decoding.rt):
    ///
    /// ```rust
    /// let mut decoder = CutDecoder::new(alloc, Version::Two, &Limits::standard(), 5);
    /// decoder.feed(b"$12\r\nhello, wo")?;
    /// println!(rt; "{}", decoder.weight())?;
    /// if let Some(CutValue { value, lengths }) = &decoder.feed(b"rld\r\n")?.value {
    ///     if let Value::Bulk(content) = value {
    ///         println!(rt; "{} {lengths:?}", content.list().escape_ascii())?;
    ///     }
    /// }
    /// ```
    ///
    /// This prints `6` and `hello, [12]`.
    pub fn feed(&mut self, piece: &[u8]) -> Result<Fed<CutValue>, Fault>
        // A value has ended: the bytes are the encoding of a value, of which the first bytes of
        // each text and the lengths of the longer texts are returned, and the next value may begin.
        ensures value_whole { WhereTaken self.old (λ front. IfValue result (λ used.
            GivesCut (rules_of self.old) (shown_of self.old) self.new
            (front ++ take used piece.now))) }

        // No value has ended in the piece, and the whole piece was read.
        ensures used_up { WhereTaken self.old (λ front. IfNoValue result
            (TakesPiece (rules_of self.old) (HasTaken self.new) (front ++ piece.now) piece.now)) }

        // A fault: the byte is the first that cannot follow the bytes before it and the fault has
        // its cause, or an allocation failed.
        ensures refusal { WhereTaken self.old (λ front. IfErr result (λ fault.
            RefusesByte (rules_of self.old) front piece.now fault ⊎
            LacksMemory (rules_of self.old) front piece.now fault)) }

        // A call with a piece that is not empty uses at least one byte, and uses the whole piece if
        // no value ends in it.
        ensures uses_bytes { IfOk result (λ fed. 0 < length piece.now → 0 < fed.used) }
        ensures whole_piece { IfOk result (λ fed.
            fed.value ≡ None → fed.used ≡ length piece.now) }
        ensures within_piece { IfOk result (λ fed. fed.used ≤ length piece.now) }
        ensures same_rules { rules_of self.new ≡ rules_of self.old }
        ensures same_shown { shown_of self.new ≡ shown_of self.old }
        ensures fault_is_kept { IfErr result (HasFault self.new) }
        ensures fault_is_final { (fault : Fault) → HasFault self.old fault → result ≡ Err fault }
    {
        let shown = self.kept.shown();
        let scanned = match self.scanner.scan(piece, &mut self.kept) {
            Ok(scanned) => scanned,
            Err(stop) => {
                // After a fault the decoder holds nothing.
                self.kept = Kept::new(self.alloc, shown);
                return Err(fault_of(stop));
            }
        };
        let used = scanned.used;
        if !scanned.is_whole {
            return Ok(Fed { used, value: None });
        }
        let value = self.kept.take_whole();
        Ok(Fed { used, value })
    }

    /// Checks that the input may end here.
    ///
    /// # Errors
    ///
    /// - `Truncated` inside a value. Its byte is the number of bytes of this value that were read.
    /// - After a fault, the same fault again.
    pub fn finish(&self) -> Result<(), Fault>
        ensures only_between_values { WhereTaken self.now (λ front. IsOk result ↔ (front ≡ [])) }
        ensures truncated_inside_a_value { WhereTaken self.now (λ front.
            IfErr result (λ fault. (fault.cause ≡ cause.Truncated) × (fault.at ≡ length front))) }
        ensures fault_is_final { (fault : Fault) → HasFault self.now fault → result ≡ Err fault }
    {
        self.scanner.finish()
    }

    /// Changes the version, from the next value on.
    ///
    /// # Errors
    ///
    /// `Busy` from the first byte of a value until the value was returned, and after a fault. Then
    /// nothing is changed.
    pub fn set_version(&mut self, version: Version) -> Result<(), Busy>
        ensures only_between_values { WhereTaken self.old (λ front. IsOk result ↔ (front ≡ [])) }
        ensures nothing_taken { WhereTaken self.old (λ front. OnOk result (HasTaken self.new [])) }
        ensures new_version { OnOk result (rules_of self.new ≡
            rules_under version (rules_of self.old).limits) }
        ensures same_shown { shown_of self.new ≡ shown_of self.old }
        ensures unchanged_where_busy { OnErr result (self.new ≡ self.old) }
        ensures never_after_a_fault { (fault : Fault) → HasFault self.old fault → OnOk result ⊥ }
    {
        self.scanner.set_version(version)
    }

    /// Returns the number of bytes of the current value that were read, 0 between values. A
    /// rejected byte does not count.
    pub fn taken(&self) -> u64
        ensures length_of_front { WhereTaken self.now (λ front. result ≡ length front) }
        ensures viable { WhereTaken self.now (IsViable (rules_of self.now) WithinTotal) }
        ensures after_a_fault { (fault : Fault) → HasFault self.now fault → result ≡ fault.at }
        ensures at_most_total { result ≤ (rules_of self.now).limits.total }
        ensures limits_in_range { AreBounds (rules_of self.now).limits }
    {
        self.scanner.taken()
    }

    /// Returns a measure of the memory held for the current value: three for each finished node and
    /// each open aggregate, and one for each byte of content that is kept. The length of a
    /// longer text does not count. The measure is never more than the number of bytes read, and it
    /// is 0 after a fault.
    pub fn weight(&self) -> u64
        ensures weight_of_front { WhereTaken self.now
            (WeighsWhatIsKept (shown_of self.now) result) }
        ensures at_most_taken { WhereTaken self.now (λ front. result ≤ length front) }
        ensures nothing_after_a_fault { (fault : Fault) → HasFault self.now fault → result ≡ 0 }
    {
        // The contract of the scanner's `taken` states here that the bytes read are viable.
        let _taken = self.scanner.taken();
        self.kept.weight()
    }
}
