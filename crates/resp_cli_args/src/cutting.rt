//! Where bytes are cut, in the words of a command line.

ghost use Rattle.std.specs.Prelude.{ℕ, IfNone, IfSome};
ghost use Rattle.resp_cli_args.specs.Cuttings.{HasSeed, IsCutting};

use crate::units::number_within;

/// Where the bytes of a server are cut.
#[derive(Clone, Copy)]
pub enum Cutting {
    /// After each run of this many bytes, from 1 to 65,536.
    Every(usize),
    /// At pseudo-random places, which this seed decides.
    Random(u64),
}

/// Parses where bytes are cut: a number from 1 to 65,536, or `random:` and a seed, which is a number
/// below 2^64. Returns `None` for any other text.
pub fn cutting_of(text: &str) -> Option<Cutting>
    ensures some { IfSome result (IsCutting text.now) }
    ensures none { IfNone result ((cutting : Cutting) → IsCutting text.now cutting → ⊥) }
{
    if let Some(size) = number_within("", 1, text, 1, 65_536) {
        return Some(Cutting::Every(size as usize));
    }
    Some(Cutting::Random(seed_after("random:", text)?))
}

/// Returns the number in a text after a prefix.
fn seed_after(prefix: &str, text: &str) -> Option<u64>
    ensures some { IfSome result (HasSeed prefix.now text.now) }
    ensures none { IfNone result ((number : ℕ) → HasSeed prefix.now text.now number → ⊥) }
{
    match text.strip_prefix(prefix)?.parse::<u64>() {
        Ok(seed) => Some(seed),
        Err(_) => None,
    }
}
