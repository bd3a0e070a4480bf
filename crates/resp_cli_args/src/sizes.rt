//! Sizes in the words of a command line, such as `512M`.

ghost use Rattle.std.specs.Prelude.{◌≡◌, ◌<◌, ◌≤◌, ℕ, IfNone, IfSome};
ghost use Rattle.resp_cli_args.specs.Sizes.{IsSize, IsSizeIn, factor_of, suffix_of};

use crate::units::number_before;

/// The unit of a size. Each unit of several bytes has four spellings.
#[derive(Clone, Copy)]
pub(crate) enum Unit {
    /// No letters.
    Byte,
    Kilo,
    KiloSmall,
    KiloBytes,
    KiloBytesSmall,
    Mega,
    MegaSmall,
    MegaBytes,
    MegaBytesSmall,
    Giga,
    GigaSmall,
    GigaBytes,
    GigaBytesSmall,
}

/// All units.
const UNITS: [Unit; 13] = [
    Unit::Byte,
    Unit::Kilo,
    Unit::KiloSmall,
    Unit::KiloBytes,
    Unit::KiloBytesSmall,
    Unit::Mega,
    Unit::MegaSmall,
    Unit::MegaBytes,
    Unit::MegaBytesSmall,
    Unit::Giga,
    Unit::GigaSmall,
    Unit::GigaBytes,
    Unit::GigaBytesSmall,
];

/// Returns the number of bytes of a size: a number that may end in `K`, `M` or `G`, which are
/// powers of 1,024, or in `KB`, `MB` or `GB`, which are the same units. Each unit may be in lower
/// case. Returns `None` if the text is not a size from `least` to `most`.
pub(crate) fn size_of(text: &str, least: u64, most: u64) -> Option<u64>
    ensures some { IfSome result (IsSize text.now least most) }
    ensures none { IfNone result ((size : ℕ) → IsSize text.now least most size → ⊥) }
{
    let mut rest: &[Unit] = &UNITS;
    while let Some((unit, beyond)) = rest.split_first() {
        if let Some(size) = size_between(*unit, text, least, most) {
            return Some(size);
        }
        rest = beyond;
    }
    None
}

/// Returns the number of bytes of a size in this unit, if it is in this range.
fn size_between(unit: Unit, text: &str, least: u64, most: u64) -> Option<u64>
    ensures some { IfSome result (IsSizeIn unit text.now) }
    ensures in_range { IfSome result (λ size. (least ≤ size) × (size ≤ most)) }
    ensures none { IfNone result ((size : ℕ) → IsSizeIn unit text.now size → least ≤ size
        → size ≤ most → ⊥) }
{
    let size = number_before(suffix_of(unit), factor_of(unit), text)?;
    if size < least || size > most {
        return None;
    }
    Some(size)
}

/// Returns the letters of a unit.
fn suffix_of(unit: Unit) -> &'static str
    ensures { result.now ≡ suffix_of unit }
{
    match unit {
        Unit::Byte => "",
        Unit::Kilo => "K",
        Unit::KiloSmall => "k",
        Unit::KiloBytes => "KB",
        Unit::KiloBytesSmall => "kb",
        Unit::Mega => "M",
        Unit::MegaSmall => "m",
        Unit::MegaBytes => "MB",
        Unit::MegaBytesSmall => "mb",
        Unit::Giga => "G",
        Unit::GigaSmall => "g",
        Unit::GigaBytes => "GB",
        Unit::GigaBytesSmall => "gb",
    }
}

/// Returns the number of bytes of a unit.
fn factor_of(unit: Unit) -> u64
    ensures factor { result ≡ factor_of unit }
    ensures positive { 0 < result }
{
    match unit {
        Unit::Byte => 1,
        Unit::Kilo | Unit::KiloSmall | Unit::KiloBytes | Unit::KiloBytesSmall => 1_024,
        Unit::Mega | Unit::MegaSmall | Unit::MegaBytes | Unit::MegaBytesSmall => 1_048_576,
        Unit::Giga | Unit::GigaSmall | Unit::GigaBytes | Unit::GigaBytesSmall => 1_073_741_824,
    }
}
