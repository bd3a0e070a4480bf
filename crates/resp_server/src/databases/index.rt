//! The number of a database, as in SELECT.

ghost use Rattle.std.specs.Prelude.{◌≡◌, ℤ, FitsSigned, IfNone, IfSome};
ghost use Rattle.std.specs.Fmt.{signed_decimal};
ghost use Rattle.std.specs.Int.{w64};
ghost use Rattle.resp_server.specs.Indexes.{IsIndexed};

use crate::refusal::Refusal;
use itoa::Buffer;
use std::str;

/// The number of databases.
pub(crate) const DATABASES: usize = 16;

/// Returns the number of the database that a word names: the decimal text of 0 to 15.
///
/// # Errors
///
/// The reason why the word names no database, as Redis gives it.
pub(crate) fn index_of(word: &[u8]) -> Result<usize, Refusal>
    ensures { IsIndexed word.now result }
{
    let Some(integer) = integer_of(word) else {
        return Err(Refusal::NoInteger);
    };
    if integer < -2_147_483_648 || integer > 2_147_483_647 {
        return Err(Refusal::FarIndex);
    }
    if integer < 0 || integer > 15 {
        return Err(Refusal::NoDatabase);
    }
    Ok(integer as usize)
}

/// Returns the integer whose decimal text a word is, without a plus sign and without a leading
/// zero.
fn integer_of(word: &[u8]) -> Option<i64>
    ensures some { IfSome result (λ z. word.now ≡ signed_decimal z) }
    ensures none { IfNone result ((z : ℤ) → FitsSigned w64 z → word.now ≡ signed_decimal z → ⊥) }
{
    let Ok(text) = str::from_utf8(word) else {
        return None;
    };
    let Ok(integer) = text.parse::<i64>() else {
        return None;
    };
    let mut digits = Buffer::new();
    if digits.format(integer) == text {
        Some(integer)
    } else {
        None
    }
}
