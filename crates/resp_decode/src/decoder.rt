//! The decoder, which reads values from pieces of any size.

ghost use Rattle.std.specs.Prelude.{◌≡◌, ◌⊎◌, ◌↔◌, ◌≤◌, ◌<◌, ◌++◌, ℕ, length, take, [], None, Err, IsOk, OnOk, OnErr, IfOk, IfErr};
ghost use Rattle.resp_decode.specs.Hearing.{HasHeard, HoldsNothing};
ghost use Rattle.resp_decode.specs.Standing.{TakesOrStands};
ghost use Rattle.resp_scan.specs.Listening.{fault_of};
ghost use Rattle.resp_value.specs.declared.cause.Cause.TheVariants as cause;

use crate::fed::Fed;
use crate::held::HeldParts;
use resp_scan::event::{Busy, Fault, ScanError};
use resp_scan::scanner::Scanner;
use resp_value::cause::Cause;
use resp_value::limits::Limits;
use resp_value::value::Value;
use resp_value::version::Version;
use std::alloc::Global;

/// Reads values one after another, from pieces of any size. It holds only the value that is being
/// read, and its memory grows with the bytes received.
#[derive(Drop)]
pub struct Decoder {
    scanner: Scanner,
    held: HeldParts,
    /// The bytes read are a prefix of a value, or there was a fault.
    pub ghost reading: { ∥ TakesOrStands (HasHeard held) (HoldsNothing held) scanner ∥₁ },
}

impl Decoder {
    ghost use Rattle.resp_decode.specs.Decoding.{GivesValue, HasTaken, IfNoValue, IfValue, HasFault, LacksMemory, RefusesByte, TakesPiece, WeighsWhatIsDue, WhereTaken, rules_of};
    ghost use Rattle.resp_scan.specs.declared.event.Fault.{Fault};
    ghost use Rattle.resp_value.specs.Bounds.{AreBounds};
    ghost use Rattle.resp_value.specs.Rules.{WithinTotal, rules_under};
    ghost use Rattle.resp_value.specs.Spellings.{IsViable};

    /// Creates a decoder of this version with these limits, before the first value. Does not
    /// allocate.
    ///
    /// # Examples
    ///
    /// The default limits do not allow doubles. From [samples](../../samples/src/decoding.rt):
    ///
    /// ```rust
    /// let mut decoder = Decoder::new(alloc, Version::Three, &Limits::standard());
    /// if let Err(fault) = decoder.feed(b",3.14\r\n") {
    ///     println!(rt; "{fault}")?;
    /// }
    /// let limits = Limits::standard().with_doubles(true);
    /// let mut decoder = Decoder::new(alloc, Version::Three, &limits);
    /// println!(rt; "{}", decoder.feed(b",3.14\r\n")?.value.is_some())?;
    /// ```
    ///
    /// This prints `Double at byte 0 of the value` and `true`.
    pub fn new(alloc: Global, version: Version, limits: &Limits) -> Decoder
        ensures nothing_taken { HasTaken result [] }
        ensures rules { rules_of result ≡ rules_under version limits.now }
    {
        Decoder {
            scanner: Scanner::new(version, limits),
            held: HeldParts::new(alloc),
        }
    }

    /// Reads bytes of the piece up to the end of a value, or up to the end of the piece. Call it
    /// again with the bytes that are left.
    ///
    /// # Errors
    ///
    /// A [`Fault`] at the first byte that no value within the limits could contain there, with the
    /// cause that [`Scanner::step`] would report, or with the cause `OutOfMemory` if an allocation
    /// fails. After a fault the decoder holds nothing, and every later call returns the same fault.
    ///
    /// # Examples
    ///
    /// Each value of a piece, from [example_decode](../../example_decode/src/main.rt):
    ///
    /// ```rust
    /// while !rest.is_empty() {
    ///     let fed = decoder.feed(rest)?;
    ///     rest = &rest[fed.used..];
    ///     if let Some(value) = &fed.value {
    ///         print_value(rt, value)?;
    ///     }
    /// }
    /// ```
    ///
    /// A value that comes in two pieces, from [samples](../../samples/src/decoding.rt):
    ///
    /// ```rust
    /// let mut decoder = Decoder::new(alloc, Version::Two, &Limits::standard());
    /// let first = decoder.feed(b"*2\r\n:1\r\n")?;
    /// let second = decoder.feed(b":2\r\n")?;
    /// println!(rt; "{} {}", first.value.is_some(), second.value.is_some())?;
    /// ```
    ///
    /// This prints `false true`.
    pub fn feed(&mut self, piece: &[u8]) -> Result<Fed<Value>, Fault>
        // A value has ended: the bytes are its encoding, and the next value may begin.
        ensures value_whole { WhereTaken self.old (λ front. IfValue result (λ used.
            GivesValue (rules_of self.old) self.new (front ++ take used piece.now))) }

        // No value has ended in the piece, and the whole piece was read.
        ensures used_up { WhereTaken self.old (λ front. IfNoValue result
            (TakesPiece (rules_of self.old) (HasTaken self.new) (front ++ piece.now) piece.now)) }

        // A fault: the byte is the first that cannot follow the bytes before it and the fault has
        // its cause, or an allocation failed.
        ensures refusal { WhereTaken self.old (λ front. IfErr result (λ fault.
            RefusesByte (rules_of self.old) front piece.now fault ⊎
            LacksMemory (rules_of self.old) front piece.now fault)) }

        // A call with a piece that is not empty uses at least one byte, and uses the whole piece if
        // no value ends in it.
        ensures uses_bytes { IfOk result (λ fed. 0 < length piece.now → 0 < fed.used) }
        ensures whole_piece { IfOk result (λ fed.
            fed.value ≡ None → fed.used ≡ length piece.now) }
        ensures within_piece { IfOk result (λ fed. fed.used ≤ length piece.now) }
        ensures same_rules { rules_of self.new ≡ rules_of self.old }
        ensures fault_is_kept { IfErr result (HasFault self.new) }
        ensures fault_is_final { (fault : Fault) → HasFault self.old fault → result ≡ Err fault }
    {
        let scanned = match self.scanner.scan(piece, &mut self.held) {
            Ok(scanned) => scanned,
            Err(stop) => {
                // After a fault the decoder holds nothing.
                self.held.clear();
                return Err(fault_of(stop));
            }
        };
        let used = scanned.used;
        if !scanned.is_whole {
            return Ok(Fed { used, value: None });
        }
        let value = self.held.take_whole();
        Ok(Fed { used, value })
    }

    /// Checks that the input may end here.
    ///
    /// # Errors
    ///
    /// - `Truncated` inside a value, at the number of its bytes that were read.
    /// - The earlier fault, after a fault.
    ///
    /// # Examples
    ///
    /// From [samples](../../samples/src/decoding.rt):
    ///
    /// ```rust
    /// let mut decoder = Decoder::new(alloc, Version::Two, &Limits::standard());
    /// let fed = decoder.feed(b"+OK\r\n$3\r\n")?;
    /// println!(rt; "{} {:?}", fed.used, decoder.finish())?;
    /// let fed = decoder.feed(b"$3\r\n")?;
    /// println!(rt; "{} {:?}", fed.used, decoder.finish())?;
    /// ```
    ///
    /// This prints `5 Ok(())` and `4 Err(Fault { cause: Truncated, at: 4 })`.
    pub fn finish(&self) -> Result<(), Fault>
        ensures only_between_values { WhereTaken self.now (λ front. IsOk result ↔ (front ≡ [])) }
        ensures truncated_inside_a_value { WhereTaken self.now (λ front.
            IfErr result (λ fault. (fault.cause ≡ cause.Truncated) × (fault.at ≡ length front))) }
        ensures fault_is_final { (fault : Fault) → HasFault self.now fault → result ≡ Err fault }
    {
        self.scanner.finish()
    }

    /// Changes the version, from the next value on.
    ///
    /// # Errors
    ///
    /// `Busy` from the first byte of a value until the value was returned, and after a fault. Then
    /// nothing is changed.
    pub fn set_version(&mut self, version: Version) -> Result<(), Busy>
        ensures only_between_values { WhereTaken self.old (λ front. IsOk result ↔ (front ≡ [])) }
        ensures nothing_taken { WhereTaken self.old (λ front. OnOk result (HasTaken self.new [])) }
        ensures new_version { OnOk result (rules_of self.new ≡
            rules_under version (rules_of self.old).limits) }
        ensures unchanged_where_busy { OnErr result (self.new ≡ self.old) }
        ensures never_after_a_fault { (fault : Fault) → HasFault self.old fault → OnOk result ⊥ }
    {
        self.scanner.set_version(version)
    }

    /// Returns the number of bytes of the current value that were read, 0 between values. A
    /// rejected byte does not count.
    pub fn taken(&self) -> u64
        ensures length_of_front { WhereTaken self.now (λ front. result ≡ length front) }
        ensures viable { WhereTaken self.now (IsViable (rules_of self.now) WithinTotal) }
        ensures after_a_fault { (fault : Fault) → HasFault self.now fault → result ≡ fault.at }
        ensures at_most_total { result ≤ (rules_of self.now).limits.total }
        ensures limits_in_range { AreBounds (rules_of self.now).limits }
    {
        self.scanner.taken()
    }

    /// Returns a measure of the memory held for the current value: three for each finished node and
    /// each open aggregate, and one for each byte of content. It is never more than the number of
    /// bytes read, and it is 0 after a fault.
    pub fn weight(&self) -> u64
        ensures weight_of_front { WhereTaken self.now (WeighsWhatIsDue result) }
        ensures at_most_taken { WhereTaken self.now (λ front. result ≤ length front) }
        ensures nothing_after_a_fault { (fault : Fault) → HasFault self.now fault → result ≡ 0 }
    {
        // The contract of the scanner's `taken` states here that the bytes read are viable.
        let _taken = self.scanner.taken();
        self.held.weight()
    }
}

/// Returns the fault for the scanner's error.
#[inline]
pub(crate) fn fault_of(stop: ScanError) -> Fault
    ensures { result ≡ fault_of stop }
{
    match stop {
        ScanError::Fault(fault) => fault,
        ScanError::Stopped { taken } => Fault {
            cause: Cause::OutOfMemory,
            at: taken,
        },
    }
}
