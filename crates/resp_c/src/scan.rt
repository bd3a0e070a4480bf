//! Many events in one call.

ghost use Rattle.std.specs.Prelude.{◌<◌, ◌≡◌, ◌≤◌, drop, length, take};
ghost use Rattle.resp_c.specs.Scans.{IsUsedUp, Scans, used_by};
ghost use Rattle.resp_c.specs.Steps.{InMemory, IsHeld, WhereHeld};
ghost use Rattle.resp_scan.specs.Kinds.{rules_of};
ghost use Rattle.resp_scan.specs.Reading.{HasRead, IsFaulted, IsRefused};
ghost use Rattle.resp_scan.specs.declared.event.Fault.{Fault};
ghost use Rattle.resp_value.specs.Causes.{number_of};

use crate::event::RespEvent;
use crate::memory::RespScanner;

/// The result of a call over a piece.
#[repr(C)]
#[derive(Clone, Copy)]
pub struct RespScanned {
    /// The number of events that were stored.
    pub count: usize,
    /// The number of bytes of the piece that were used.
    pub used: usize,
}

/// Stores the events of the piece, as repeated calls of [`crate::scanner::resp_scanner_step`] do,
/// and stores a text that is completely in the piece as one event. Ends when the array is full, the
/// piece is used up or a byte is rejected.
///
/// Returns 0, or the number of the cause of a fault. The events before the rejected byte are
/// stored. `scanned` has the number of events stored and the number of bytes used: those of the
/// events, or the whole piece if it is used up.
#[unsafe(no_mangle)]
pub extern "C" fn resp_scanner_scan(
    scanner: &mut RespScanner,
    piece: &[u8],
    events: &mut [RespEvent],
    scanned: &mut RespScanned,
) -> u32
    requires { IsHeld scanner.old.scanner }

    // The array is full: it has the events of the bytes used, and values may have ended among them.
    ensures full { result ≡ 0 → scanned.new.count ≡ length events.old →
        (scanned.new.used ≡ used_by (take scanned.new.count events.new)) ×
        InMemory scanner.old.scanner scanner.new.scanner (λ old new. Scans old piece.now
        (take scanned.new.count events.new) scanned.new.used (HasRead new)) }

    // The piece is used up, and all events of the bytes read were stored.
    ensures used_up { result ≡ 0 → scanned.new.count < length events.old →
        (scanned.new.used ≡ length piece.now) ×
        InMemory scanner.old.scanner scanner.new.scanner (λ old new. Scans old piece.now
        (take scanned.new.count events.new) scanned.new.used (IsUsedUp new)) }

    // The byte is the first that cannot follow the bytes before it, and the events before it were
    // stored.
    ensures refused { (result ≡ 0 → ⊥) → (fault : Fault) × (result ≡ number_of fault.cause) ×
        (scanned.new.used ≡ used_by (take scanned.new.count events.new)) ×
        InMemory scanner.old.scanner scanner.new.scanner (λ old new. IsFaulted new fault × Scans old
        piece.now (take scanned.new.count events.new) scanned.new.used (λ front given.
        IsRefused (rules_of old) front given (drop scanned.new.used piece.now) fault)) }

    ensures within_piece { scanned.new.used ≤ length piece.now }
    ensures within_array { scanned.new.count ≤ length events.old }
    ensures others_left { drop scanned.new.count events.new ≡ drop scanned.new.count events.old }
    ensures same_rules { WhereHeld scanner.old.scanner (λ old. WhereHeld scanner.new.scanner
        (λ new. rules_of new ≡ rules_of old)) }
    ensures fault_is_final { WhereHeld scanner.old.scanner (λ old. (fault : Fault) →
        IsFaulted old fault → 0 < length events.old → (result ≡ number_of fault.cause) ×
        (scanned.new.count ≡ 0) × (scanner.new.scanner ≡ scanner.old.scanner)) }
{
    let scanner = scanner.scanner();
    let mut rest = piece;
    let mut count = 0;
    for event in events.iter_mut() {
        match scanner.step_into(rest, event) {
            Ok(Some(used)) => {
                event.used = used;
                rest = &rest[used..];
            }
            Ok(None) => {
                *scanned = RespScanned {
                    count,
                    used: piece.len(),
                };
                return 0;
            }
            Err(fault) => {
                *scanned = RespScanned {
                    count,
                    used: piece.len() - rest.len(),
                };
                return fault.cause.number();
            }
        }
        count += 1;
    }
    *scanned = RespScanned {
        count,
        used: piece.len() - rest.len(),
    };
    0
}
