//! The sign and digits of a big number.

ghost use Rattle.std.specs.Prelude.{◌≡◌, ◌↔◌, ℕ, ◌<◌, List, length, IsTrue, IsSome, IfSome, IfOk, IsErrOf, All};
ghost use Rattle.std.proofs.Props.{props};
ghost use Rattle.resp_value.specs.Numbers.{IsDigit, IsDigits, IsKept, IsSignedDigits, KeepsDigits, kept_digits, is_minus};
ghost use Rattle.resp_value.specs.Signs.{sign_at, unsigned_part};

use std::alloc::{AllocError, Global};
use thiserror::Error;

/// An integer of any size: a sign, and decimal digits without leading zeros (Redis serialization
/// protocol specification, "Big numbers"). Zero is `0` and is never negative.
#[derive(Debug, PartialEq, Eq, Drop)]
pub struct Digits {
    negative: bool,
    digits: Vec<u8>,
    ghost are_kept: { IsKept negative digits.items } by { Prim.hlevel props },
}

/// Why [`Digits::new`] failed.
#[derive(Clone, Copy, Debug, PartialEq, Eq, Error)]
pub enum DigitsError {
    /// The text is not an optional `+` or `-` followed by one or more decimal digits.
    #[error("expected an optional sign and one or more digits")]
    BadDigits,
    /// The allocation for the digits failed.
    #[error("out of memory")]
    OutOfMemory,
}

/// Returns whether the text is one or more decimal digits.
fn are_digits(text: &[u8]) -> bool
    ensures { IsTrue result ↔ ((0 < length text.now) × All IsDigit text.now) }
{
    !text.is_empty() && text.iter().all(|byte| byte.is_ascii_digit())
}

/// Returns the digits without leading zeros. If all digits are zeros it returns a single `0`.
fn kept_part(digits: &[u8]) -> &[u8]
    requires { IsDigits digits.now }
    ensures { result.now ≡ kept_digits digits.now }
{
    let mut rest = digits;
    while rest.len() > 1 && rest[0] == b'0' {
        rest = &rest[1..];
    }
    rest
}

/// Returns whether the text begins with `-`.
fn begins_with_minus(text: &[u8]) -> bool
    ensures { result ≡ is_minus (sign_at text.now) }
{
    !text.is_empty() && text[0] == b'-'
}

/// Returns the text after its sign, or the whole text if it begins with neither `-` nor `+`.
fn unsigned_part(text: &[u8]) -> &[u8]
    ensures { result.now ≡ unsigned_part text.now }
{
    if !text.is_empty() && (text[0] == b'-' || text[0] == b'+') {
        &text[1..]
    } else {
        text
    }
}

impl Digits {
    ghost use Rattle.resp_value.specs.Values.{is_negative, digits_text};

    /// Parses the text of a big number, such as `-120` or `+007`: an optional `+` or `-`, and one
    /// or more decimal digits. Leading zeros are dropped, and so is the sign of a zero. Accepting
    /// leading zeros and the sign of a zero is a leniency of this library.
    ///
    /// # Errors
    ///
    /// `BadDigits` if and only if the text does not have that form. `OutOfMemory` if it has that
    /// form and the allocation for the digits fails.
    ///
    /// # Examples
    ///
    /// From [samples](../../samples/src/values.rt):
    ///
    /// ```rust
    /// let digits = Digits::new(alloc, b"-00123456789012345678901234567890")?;
    /// println!(
    ///     rt;
    ///     "{} {}",
    ///     digits.is_negative(),
    ///     digits.digits().escape_ascii()
    /// )?;
    /// ```
    ///
    /// This prints `true 123456789012345678901234567890`.
    pub fn new(alloc: Global, text: &[u8]) -> Result<Digits, DigitsError>
        ensures kept { IfOk result (λ digits. KeepsDigits text.now (is_negative digits)
            (digits_text digits)) }
        ensures bad { IsErrOf result DigitsError.BadDigits ↔ (IsSignedDigits text.now → ⊥) }
        ensures memory_last { IsErrOf result DigitsError.OutOfMemory → IsSignedDigits text.now }
    {
        let minus = begins_with_minus(text);
        let digits = unsigned_part(text);
        if !are_digits(digits) {
            return Err(DigitsError::BadDigits);
        }
        let kept = kept_part(digits);
        let negative = minus && kept[0] != b'0';
        match Vec::from_slice(alloc, kept) {
            Ok(digits) => Ok(Digits { negative, digits }),
            Err(_) => Err(DigitsError::OutOfMemory),
        }
    }

    /// Creates a big number of this sign and these digits, and keeps their memory. Does not
    /// allocate.
    ///
    /// Returns `None` if the digits are empty or contain another byte than a digit, if they have a
    /// leading zero, or if they are a negative `0`.
    pub fn of_kept(negative: bool, digits: Vec<u8>) -> Option<Digits>
        ensures kept { IsSome result ↔ IsKept negative digits.items }
        ensures same_sign { IfSome result (λ made. is_negative made ≡ negative) }
        ensures same_digits { IfSome result (λ made. digits_text made ≡ digits.items) }
    {
        if !are_digits(digits.as_slice()) {
            return None;
        }
        let begins_with_zero = digits[0] == b'0';
        if begins_with_zero && (negative || digits.len() > 1) {
            return None;
        }
        Some(Digits { negative, digits })
    }

    /// Returns whether the number is below zero. `0` never is.
    pub fn is_negative(&self) -> bool
        ensures { result ≡ is_negative self.now }
    {
        self.negative
    }

    /// Returns the digits, without a sign and without leading zeros. There is at least one digit,
    /// and zero is a single `0`.
    pub fn digits(&self) -> &[u8]
        ensures digits { result.now ≡ digits_text self.now }
        ensures kept { IsKept (is_negative self.now) result.now }
    {
        self.digits.as_slice()
    }

    /// Copies the number into newly allocated memory.
    ///
    /// # Errors
    ///
    /// `AllocError` if the allocation fails.
    pub fn try_clone(&self, alloc: Global) -> Result<Digits, AllocError>
        ensures sign { IfOk result (λ copy. is_negative copy ≡ is_negative self.now) }
        ensures digits { IfOk result (λ copy. digits_text copy ≡ digits_text self.now) }
    {
        let digits = Vec::from_slice(alloc, self.digits.as_slice())?;
        Ok(Digits {
            negative: self.negative,
            digits,
        })
    }
}
