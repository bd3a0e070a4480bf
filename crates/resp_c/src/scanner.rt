//! The functions of the scanner for C.

ghost use Rattle.std.specs.Prelude.{◌≡◌, ◌↔◌, ◌≤◌, ◌+◌, ◌⊎◌, [], length, Option, Some, IfSome, Ok, Err};
ghost use Rattle.resp_c.specs.Answers.{bad_version};
ghost use Rattle.resp_c.specs.Limits.{bounds_of};
ghost use Rattle.resp_c.specs.Memory.{scanner_alignment, scanner_size};
ghost use Rattle.resp_c.specs.Steps.{InMemory, IsHeld, WhereHeld};
ghost use Rattle.resp_c.specs.Told.{Tells};
ghost use Rattle.resp_c.specs.Versions.{IsVersion, version_of};
ghost use Rattle.resp_scan.specs.Counts.{close_count, open_count};
ghost use Rattle.resp_scan.specs.Kinds.{rules_of};
ghost use Rattle.resp_scan.specs.Reading.{HasRead, IsFaulted, MayEnd, WhereRead};
ghost use Rattle.resp_scan.specs.Slots.{Steps};
ghost use Rattle.resp_scan.specs.declared.event.Fault.{Fault};
ghost use Rattle.resp_scan.specs.declared.event.Step.{Step};
ghost use Rattle.resp_fronts.specs.LeastCompletions.{IsLeast};
ghost use Rattle.resp_value.specs.Bounds.{AreBounds};
ghost use Rattle.resp_value.specs.Causes.{number_of};
ghost use Rattle.resp_value.specs.Rules.{rules_under};
ghost use Rattle.resp_value.specs.declared.cause.Cause.TheVariants as cause;

use crate::answer::BAD_VERSION;
use crate::event::{RespEvent, tell};
use crate::limits::{RespLimits, checked};
use crate::memory::RespScanner;
use crate::number;
use resp_scan::scanner::Scanner;
use resp_value::cause::Cause;
use resp_value::version::Version;
use std::mem::{align_of, size_of};

/// Returns the number of bytes of a scanner's memory.
#[unsafe(no_mangle)]
pub extern "C" fn resp_scanner_size() -> usize
    ensures { result ≡ scanner_size }
{
    size_of::<Scanner>()
}

/// Returns the alignment of a scanner's memory.
#[unsafe(no_mangle)]
pub extern "C" fn resp_scanner_align() -> usize
    ensures { result ≡ scanner_alignment }
{
    align_of::<Scanner>()
}

/// Returns the version of this number, 2 or 3.
pub(crate) fn version(number: u32) -> Option<Version>
    ensures some { IfSome result (λ version. (version ≡ version_of number) × IsVersion number) }
    ensures none { result ≡ None → IsVersion number → ⊥ }
{
    match number {
        2 => Some(Version::Two),
        3 => Some(Version::Three),
        _ => None,
    }
}

/// Creates a scanner of version 2 or 3 with these limits in the memory, before the first value. It
/// may be called again.
///
/// Returns 0, or the number of an error: 64 for another version, 63 for a limit outside its range.
/// After an error the memory is unchanged.
#[unsafe(no_mangle)]
pub extern "C" fn resp_scanner_init(
    scanner: &mut RespScanner,
    version: u32,
    limits: &RespLimits,
) -> u32
    ensures begun { result ≡ 0 → WhereHeld scanner.new.scanner (λ new. HasRead new [] [] ×
        (rules_of new ≡ rules_under (version_of version) (bounds_of limits.now))) }
    ensures held { result ≡ 0 → IsHeld scanner.new.scanner }
    ensures ok { (result ≡ 0) ↔ (IsVersion version × AreBounds (bounds_of limits.now)) }
    ensures version { (result ≡ bad_version) ↔ (IsVersion version → ⊥) }
    ensures limits { (result ≡ number_of cause.BadLimits) ↔ (IsVersion version ×
        (AreBounds (bounds_of limits.now) → ⊥)) }
    ensures unchanged { (result ≡ 0 → ⊥) → scanner.new.scanner ≡ scanner.old.scanner }
{
    let Some(version) = crate::scanner::version(version) else {
        return BAD_VERSION;
    };
    match checked(limits) {
        Ok(limits) => {
            scanner.fill(Scanner::new(version, &limits));
            0
        }
        Err(_) => Cause::BadLimits.number(),
    }
}

/// Reads bytes of the piece up to the next event, or up to the end of the piece, as
/// [`Scanner::step`] does. A step may return an event without reading a byte.
///
/// Returns 0, or the number of the cause of a fault. After a fault `event` is unchanged, and
/// [`resp_scanner_taken`] is the place of the rejected byte in its value.
#[unsafe(no_mangle)]
pub extern "C" fn resp_scanner_step(
    scanner: &mut RespScanner,
    piece: &[u8],
    event: &mut RespEvent,
) -> u32
    requires { IsHeld scanner.old.scanner }
    ensures told { result ≡ 0 → (step : Step) × InMemory scanner.old.scanner scanner.new.scanner
        (λ old new. Steps old new piece.now (Ok step)) × (event.new.used ≡ step.used) ×
        Tells event.new step.event }
    ensures refused { (result ≡ 0 → ⊥) → (fault : Fault) × InMemory scanner.old.scanner
        scanner.new.scanner (λ old new. Steps old new piece.now (Err fault)) ×
        (result ≡ number_of fault.cause) × (event.new ≡ event.old) }
    ensures within_piece { result ≡ 0 → event.new.used ≤ length piece.now }
{
    match scanner.scanner().step(piece) {
        Ok(step) => {
            event.used = step.used;
            match step.event {
                None => event.kind = number::MORE,
                Some(told) => tell(event, told),
            }
            0
        }
        Err(fault) => fault.cause.number(),
    }
}

/// Checks that the input may end here. Returns 0, or 9 (`Truncated`) inside a value, or the number
/// of the earlier fault after a byte was rejected.
#[unsafe(no_mangle)]
pub extern "C" fn resp_scanner_finish(scanner: &mut RespScanner) -> u32
    requires { IsHeld scanner.old.scanner }
    ensures may_end { WhereHeld scanner.old.scanner (λ old. WhereRead old (λ front given.
        (result ≡ 0) ↔ MayEnd (rules_of old) front)) }
    ensures truncated { WhereHeld scanner.old.scanner (λ old. WhereRead old (λ front given.
        (result ≡ 0 → ⊥) → result ≡ number_of cause.Truncated)) }
    ensures fault_is_final { WhereHeld scanner.old.scanner (λ old. (fault : Fault) →
        IsFaulted old fault → result ≡ number_of fault.cause) }
    ensures unchanged { scanner.new.scanner ≡ scanner.old.scanner }
{
    match scanner.scanner().finish() {
        Ok(()) => 0,
        Err(fault) => fault.cause.number(),
    }
}

/// Changes the version, from the next value on.
///
/// Returns 0, or the number of an error, and then changes nothing: 62 (`Busy`) from the first byte
/// of a value until its `RESP_DONE` was given, and after a fault; 64 for a version other than 2 and
/// 3.
#[unsafe(no_mangle)]
pub extern "C" fn resp_scanner_set_version(scanner: &mut RespScanner, version: u32) -> u32
    requires { IsHeld scanner.old.scanner }
    ensures only_between_values { IsVersion version → WhereHeld scanner.old.scanner (λ old.
        WhereRead old (λ front given. (result ≡ 0) ↔ (front ≡ []))) }
    ensures new_version { result ≡ 0 → WhereHeld scanner.old.scanner (λ old.
        WhereHeld scanner.new.scanner (λ new. rules_of new ≡
        rules_under (version_of version) (rules_of old).limits)) }
    ensures nothing_read { result ≡ 0 → WhereHeld scanner.old.scanner (λ old.
        WhereRead old (λ front given. WhereHeld scanner.new.scanner (λ new. HasRead new [] []))) }
    ensures never_after_a_fault { WhereHeld scanner.old.scanner (λ old. (fault : Fault) →
        IsFaulted old fault → result ≡ 0 → ⊥) }
    ensures held { IsHeld scanner.new.scanner }
    ensures version { (result ≡ bad_version) ↔ (IsVersion version → ⊥) }
    ensures causes { (result ≡ 0) ⊎ (result ≡ number_of cause.Busy) ⊎
        (result ≡ bad_version) }
    ensures unchanged { (result ≡ 0 → ⊥) → scanner.new.scanner ≡ scanner.old.scanner }
{
    let Some(version) = crate::scanner::version(version) else {
        return BAD_VERSION;
    };
    match scanner.scanner().set_version(version) {
        Ok(()) => 0,
        Err(_) => Cause::Busy.number(),
    }
}

/// Returns the number of open aggregates: those whose open was given and whose close was not.
#[unsafe(no_mangle)]
pub extern "C" fn resp_scanner_depth(scanner: &mut RespScanner) -> usize
    requires { IsHeld scanner.old.scanner }
    ensures opens_less_closes { WhereHeld scanner.old.scanner (λ old. WhereRead old (λ front given.
        open_count given ≡ result + close_count given)) }
    ensures unchanged { scanner.new.scanner ≡ scanner.old.scanner }
{
    scanner.scanner().depth()
}

/// Returns the number of bytes of the current value that were read, 0 between values. A rejected
/// byte does not count. So after a fault the number is the place of the rejected byte.
#[unsafe(no_mangle)]
pub extern "C" fn resp_scanner_taken(scanner: &mut RespScanner) -> u64
    requires { IsHeld scanner.old.scanner }
    ensures length_of_front { WhereHeld scanner.old.scanner (λ old. WhereRead old (λ front given.
        result ≡ length front)) }
    ensures after_a_fault { WhereHeld scanner.old.scanner (λ old. (fault : Fault) →
        IsFaulted old fault → result ≡ fault.at) }
    ensures unchanged { scanner.new.scanner ≡ scanner.old.scanner }
{
    scanner.scanner().taken()
}

/// Returns the least number of bytes that complete the current value, ignoring the limit `total`: 3
/// between values, and 0 if all bytes were read and only events are left. The number has no meaning
/// after a fault.
#[unsafe(no_mangle)]
pub extern "C" fn resp_scanner_needed(scanner: &mut RespScanner) -> u64
    requires { IsHeld scanner.old.scanner }
    ensures least_completion { WhereHeld scanner.old.scanner (λ old. WhereRead old (λ front given.
        IsLeast (rules_of old) front result)) }
    ensures unchanged { scanner.new.scanner ≡ scanner.old.scanner }
{
    scanner.scanner().needed()
}
