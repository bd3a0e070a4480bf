//! The values that one side of a connection sends, until the first error in its bytes.

ghost use Rattle.std.specs.Prelude.{◌≡◌, List, ℕ, [], true, None, Some, IfOk, MatchOption, OnErr};
ghost use Rattle.std.specs.Option.{ForSome};
ghost use Rattle.resp_value.specs.Rules.{rules_under};
ghost use Rattle.resp_decode.specs.CutDecoding.{HasTaken, rules_of, shown_of};
ghost use Rattle.resp_tap.specs.Parts.{kept_bytes};

use crate::shown_part::ShownPart;
use resp_decode::CutDecoder;
use resp_decode::fed::Fed;
use resp_scan::event::Fault;
use resp_value::CutValue;
use resp_value::cause::Cause;
use resp_value::limits::Limits;
use resp_value::version::Version;
use std::alloc::{AllocError, Global};

/// Reads the values that one side sends, until the first error in its bytes. It keeps one byte more
/// of each text than is shown. It holds memory only between two pieces of a value.
#[derive(Drop)]
pub(crate) struct SideReader {
    pub(crate) alloc: Global,
    pub(crate) version: Version,
    pub(crate) limits: Limits,
    /// How many bytes of each text are shown.
    pub(crate) shown: ShownPart,
    pub(crate) decoder: Option<Box<CutDecoder>>,
    /// Whether the bytes of this side are still read.
    pub(crate) is_reading: bool,
    pub ghost same_rules: { ForSome decoder (λ decoder. rules_of decoder.value ≡ rules_under version limits) },
    pub ghost same_shown: { ForSome decoder (λ decoder. shown_of decoder.value ≡ kept_bytes shown.most) },
    /// Until the first error, the reader has read some bytes of the incomplete value.
    pub ghost reading: { is_reading ≡ true → ∥ ((front : List ℕ) ×
        MatchOption decoder (front ≡ []) (λ decoder. HasTaken decoder.value front)) ∥₁ },
}

impl SideReader {
    ghost use Rattle.std.specs.Prelude.{◌<◌, ◌≤◌, ◌++◌, false, length, take, IfErr, OnOk};
    ghost use Rattle.resp_value.specs.declared.version.Version.TheVariants.{Two};
    ghost use Rattle.resp_decode.specs.Decoding.{IfNoValue, IfValue};
    ghost use Rattle.resp_tap.specs.Sides.{EndsSide, GoesOnSide, HasSent, RefusesSide, WhereSent, side_rules};

    /// Returns a reader of a new connection, in version 2, that keeps one byte more of each text than
    /// is shown. It allocates nothing.
    pub(crate) fn new(alloc: Global, limits: &Limits, shown: ShownPart) -> SideReader
        ensures nothing_sent { HasSent result [] }
        ensures version { result.version ≡ Two }
        ensures limits { result.limits ≡ limits.now }
        ensures shown { result.shown ≡ shown }
        ensures reads { result.is_reading ≡ true }
    {
        SideReader {
            alloc,
            version: Version::Two,
            limits: *limits,
            shown,
            decoder: None,
            is_reading: true,
        }
    }

    /// Reads bytes up to the end of a value or of the piece. After an error nothing more is read.
    ///
    /// # Errors
    ///
    /// The faults of [`CutDecoder::feed`], and `OutOfMemory` at byte 0 if there is no memory for a decoder.
    pub(crate) fn feed(&mut self, piece: &[u8]) -> Result<Fed<CutValue>, Fault>
        requires { self.old.is_reading ≡ true }
        ensures value_whole { WhereSent self.old (λ front. IfValue result (λ used.
            EndsSide (side_rules self.old) self.old.shown.most self.new
            (front ++ take used piece.now))) }
        ensures used_up { WhereSent self.old (λ front. IfNoValue result
            (GoesOnSide (side_rules self.old) self.new (front ++ piece.now) piece.now)) }
        ensures refusal { WhereSent self.old (λ front. IfErr result
            (RefusesSide (side_rules self.old) front piece.now)) }
        ensures uses_bytes { IfOk result (λ fed. 0 < length piece.now → 0 < fed.used) }
        ensures within_piece { IfOk result (λ fed. fed.used ≤ length piece.now) }
        ensures same_version { self.new.version ≡ self.old.version }
        ensures same_limits { self.new.limits ≡ self.old.limits }
        ensures same_shown { self.new.shown ≡ self.old.shown }
        ensures goes_on { OnOk result (self.new.is_reading ≡ true) }
        ensures stops { OnErr result (self.new.is_reading ≡ false) }
    {
        let held = self.decoder.take();
        let Ok(mut decoder) = begun(held, self.alloc, self.version, &self.limits, self.shown) else {
            self.is_reading = false;
            return Err(Fault {
                cause: Cause::OutOfMemory,
                at: 0,
            });
        };
        // Each limit is within its range, so no text has 2^64 bytes.
        self.limits.are_in_range();
        match decoder.feed(piece) {
            Ok(fed) => {
                self.decoder = kept(decoder, &fed, piece);
                Ok(fed)
            }
            Err(fault) => {
                self.is_reading = false;
                Err(fault)
            }
        }
    }

    /// Changes the version if no byte of a value was read.
    pub(crate) fn set_version(&mut self, version: Version)
        ensures nothing_sent { HasSent self.old [] → HasSent self.new [] }
        ensures new_version { HasSent self.old [] → self.new.version ≡ version }
        ensures same_limits { self.new.limits ≡ self.old.limits }
        ensures same_shown { self.new.shown ≡ self.old.shown }
        ensures same_reading { self.new.is_reading ≡ self.old.is_reading }
    {
        if self.version != version && self.taken() == 0 {
            self.decoder = None;
            self.version = version;
        }
    }

    /// Stops reading.
    pub(crate) fn stop(&mut self)
        ensures stops { self.new.is_reading ≡ false }
        ensures same_decoder { self.new.decoder ≡ self.old.decoder }
        ensures same_version { self.new.version ≡ self.old.version }
        ensures same_limits { self.new.limits ≡ self.old.limits }
        ensures same_shown { self.new.shown ≡ self.old.shown }
    {
        self.is_reading = false;
    }

    /// Returns the number of bytes that were read of the incomplete value.
    pub(crate) fn taken(&self) -> u64
        ensures { WhereSent self.now (λ front. result ≡ length front) }
    {
        match &self.decoder {
            Some(decoder) => decoder.taken(),
            None => 0,
        }
    }

    /// Returns whether the bytes of this side are still read.
    pub(crate) fn is_reading(&self) -> bool
        ensures { result ≡ self.now.is_reading }
    {
        self.is_reading
    }
}

/// Returns the decoder, or a new one if there is none.
fn begun(
    decoder: Option<Box<CutDecoder>>,
    alloc: Global,
    version: Version,
    limits: &Limits,
    shown: ShownPart,
) -> Result<Box<CutDecoder>, AllocError>
    requires rules { ForSome decoder (λ decoder. rules_of decoder.value ≡ rules_under version limits.now) }
    requires shown { ForSome decoder (λ decoder. shown_of decoder.value ≡ kept_bytes shown.most) }
    ensures sent { IfOk result (λ begun. (front : List ℕ) →
        MatchOption decoder (front ≡ []) (λ decoder. HasTaken decoder.value front) →
        HasTaken begun.value front) }
    ensures rules { IfOk result (λ begun. rules_of begun.value ≡ rules_under version limits.now) }
    ensures shown { IfOk result (λ begun. shown_of begun.value ≡ kept_bytes shown.most) }
    ensures nothing_sent { OnErr result ((front : List ℕ) →
        MatchOption decoder (front ≡ []) (λ decoder. HasTaken decoder.value front) → front ≡ []) }
{
    match decoder {
        Some(decoder) => Ok(decoder),
        None => {
            let decoder = CutDecoder::new(alloc, version, limits, shown.bytes());
            Ok(Box::new(alloc, decoder)?)
        }
    }
}

/// Returns the decoder, unless the piece ended with a value.
fn kept(decoder: Box<CutDecoder>, fed: &Fed<CutValue>, piece: &[u8]) -> Option<Box<CutDecoder>>
    ensures nothing_sent { HasTaken decoder.value [] →
        MatchOption result (◌≡◌ {A = List ℕ} [] []) (λ kept. HasTaken kept.value []) }
    ensures inside { fed.now.value ≡ None → result ≡ Some decoder }
    ensures rules { ForSome result (λ kept. rules_of kept.value ≡ rules_of decoder.value) }
    ensures shown { ForSome result (λ kept. shown_of kept.value ≡ shown_of decoder.value) }
{
    if fed.value.is_some() && fed.used == piece.len() {
        return None;
    }
    Some(decoder)
}
