//! The size of a command's text.

ghost use Rattle.std.specs.Prelude.{◌≡◌, ◌↔◌, ℕ, List, length};
ghost use Rattle.resp_encode.specs.Lengths.{HaveLengths};
ghost use Rattle.resp_value.specs.Bounds.{AreBounds};
ghost use Rattle.resp_value.specs.Canonical.{Fits, IsFirstOver, canonical_text};
ghost use Rattle.resp_value.specs.Causes.{number_of};
ghost use Rattle.resp_value.specs.Rules.{rules_under};
ghost use Rattle.resp_value.specs.Words.{command_of};
ghost use Rattle.resp_value.specs.declared.cause.Cause.TheVariants as cause;
ghost use Rattle.resp_value.specs.declared.cause.Limit.{Limit};
ghost use Rattle.resp_value.specs.declared.version.Version.TheVariants.{Two};
ghost use Rattle.resp_c.specs.Limits.{bounds_of};
ghost use Rattle.resp_c.specs.Writes.{limit_number};

use crate::limits::{RespLimits, checked};
use resp_encode::words_size;
use resp_value::cause::{Cause, Limit};

/// Returns the error number of exceeding this limit.
fn limit_number(limit: Limit) -> u32
    ensures { result ≡ limit_number limit }
{
    match limit {
        Limit::Depth => Cause::Depth.number(),
        Limit::Length => Cause::Length.number(),
        Limit::Items => Cause::Items.number(),
        Limit::Total => Cause::Total.number(),
    }
}

/// Sets `size` to the number of bytes of a command's text, computed from the lengths of its words.
///
/// Returns 0, or 63 for a limit outside its range, or the number of the first limit that a command
/// of such words exceeds: 7 for length, 13 for items and 8 for total. After an error `size` is
/// unchanged.
#[unsafe(no_mangle)]
pub extern "C" fn resp_command_size(limits: &RespLimits, lengths: &[usize], size: &mut usize) -> u32
    ensures size { (words : List (List ℕ)) → HaveLengths words lengths.now → result ≡ 0 →
        size.new ≡ length (canonical_text Two (command_of words)) }
    ensures fits { (words : List (List ℕ)) → HaveLengths words lengths.now → result ≡ 0 →
        Fits (rules_under Two (bounds_of limits.now)) (command_of words) }
    ensures over { (words : List (List ℕ)) → HaveLengths words lengths.now →
        AreBounds (bounds_of limits.now) → (result ≡ 0 → ⊥) → (limit : Limit) ×
        (result ≡ limit_number limit) ×
        IsFirstOver (rules_under Two (bounds_of limits.now)) (command_of words) limit }
    ensures bad_limits { (result ≡ number_of cause.BadLimits) ↔ (AreBounds (bounds_of limits.now) → ⊥) }
    ensures unchanged { (result ≡ 0 → ⊥) → size.new ≡ size.old }
{
    let limits = match checked(limits) {
        Ok(limits) => limits,
        Err(_) => return Cause::BadLimits.number(),
    };
    // C may pass a number of lengths that no array in memory has.
    if lengths.len() > isize::MAX as usize {
        return Cause::Items.number();
    }
    match words_size(&limits, lengths) {
        Ok(wanted) => {
            *size = wanted;
            0
        }
        Err(limit) => limit_number(limit),
    }
}
