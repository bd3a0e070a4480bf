//! The decimal digits of a number.

ghost use Rattle.std.specs.Prelude.{◌≡◌, ◌+◌, ◌/◌, ◌%◌, ◌≤◌, length};
ghost use Rattle.resp_value.specs.Numbers.{decimal};

/// Returns the number of decimal digits of a number, without leading zeros.
#[inline]
pub(crate) fn digit_count(number: u64) -> u64
    ensures count { result ≡ length (decimal number) }
    ensures few { result ≤ 20 }
{
    let mut rest = number;
    let mut count = 0;
    while rest >= 10_000 {
        rest /= 10_000;
        count += 4;
    }
    count + short_digit_count(rest)
}

/// Returns the number of decimal digits of a number below ten thousand.
#[inline]
fn short_digit_count(number: u64) -> u64
    requires { number ≤ 9999 }
    ensures count { result ≡ length (decimal number) }
    ensures few { result ≤ 4 }
{
    if number < 10 {
        1
    } else if number < 100 {
        2
    } else if number < 1000 {
        3
    } else {
        4
    }
}

/// The two digits of each number below a hundred, one after the other.
static PAIRS: [u8; 200] =
    *b"00010203040506070809101112131415161718192021222324252627282930313233343536373839\
      40414243444546474849505152535455565758596061626364656667686970717273747576777879\
      8081828384858687888990919293949596979899";

/// Returns the two digits of a number below a hundred.
#[inline(always)]
pub(crate) fn two_digits(number: u64) -> (u8, u8)
    requires { number ≤ 99 }
    ensures tens { result.0 ≡ 48 + number / 10 }
    ensures ones { result.1 ≡ 48 + number % 10 }
{
    let at = number as usize * 2;
    (PAIRS[at], PAIRS[at + 1])
}

/// Returns the digits of a number below ten thousand, with leading zeros.
#[inline(always)]
pub(crate) fn four_digits(number: u64) -> (u8, u8, u8, u8)
    requires { number ≤ 9999 }
    ensures thousands { result.0 ≡ 48 + number / 1000 }
    ensures hundreds { result.1 ≡ 48 + number / 100 % 10 }
    ensures tens { result.2 ≡ 48 + number / 10 % 10 }
    ensures ones { result.3 ≡ 48 + number % 10 }
{
    let (thousands, hundreds) = two_digits(number / 100);
    let (tens, ones) = two_digits(number % 100);
    (thousands, hundreds, tens, ones)
}
