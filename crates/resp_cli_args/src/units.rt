//! Numbers with a unit on the command line, such as `10ms` and `512M`.

ghost use Rattle.std.specs.Prelude.{◌<◌, ◌≤◌, ℕ, IfNone, IfSome};
ghost use Rattle.resp_cli_args.specs.Units.{HasUnit};

/// Returns the parts of a number with this unit, which has `scale` parts. Returns `None` for any
/// other text, and for 2^64 parts or more.
pub(crate) fn number_before(unit: &str, scale: u64, text: &str) -> Option<u64>
    requires { 0 < scale }
    ensures some { IfSome result (HasUnit unit.now scale text.now) }
    ensures none { IfNone result ((parts : ℕ) → HasUnit unit.now scale text.now parts → ⊥) }
{
    match text.strip_suffix(unit)?.parse::<u64>() {
        Ok(number) => number.checked_mul(scale),
        Err(_) => None,
    }
}

/// Returns the parts of a number with this unit, which has `scale` parts, if they are in this range.
pub(crate) fn number_within(
    unit: &str,
    scale: u64,
    text: &str,
    least: u64,
    most: u64,
) -> Option<u64>
    requires { 0 < scale }
    ensures some { IfSome result (HasUnit unit.now scale text.now) }
    ensures in_range { IfSome result (λ parts. (least ≤ parts) × (parts ≤ most)) }
    ensures none { IfNone result ((parts : ℕ) → HasUnit unit.now scale text.now parts → least ≤ parts
        → parts ≤ most → ⊥) }
{
    let parts = number_before(unit, scale, text)?;
    if parts < least || parts > most {
        return None;
    }
    Some(parts)
}
