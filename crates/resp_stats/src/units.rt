//! Numbers with units, for people.

use std::alloc::{AllocError, Global};

/// Returns a number of thousandths, rounded to three digits, such as `1.23`, `12.3` and `123`.
fn three_digits(alloc: Global, thousandths: u64) -> Result<String, AllocError> {
    if thousandths < 9_995 {
        let hundredths = (thousandths + 5) / 10;
        let (whole, part) = (hundredths / 100, hundredths % 100);
        return format!(in alloc; "{whole}.{part:02}");
    }
    if thousandths < 99_950 {
        let tenths = (thousandths + 50) / 100;
        let (whole, part) = (tenths / 10, tenths % 10);
        return format!(in alloc; "{whole}.{part}");
    }
    let whole = thousandths.saturating_add(500) / 1_000;
    format!(in alloc; "{whole}")
}

/// Returns a number of microseconds with a unit, such as `82 us`, `1.23 ms` and `12.3 s`. From 100,000
/// seconds on, these are hours and days. It has at most 7 bytes up to 99,999 days.
pub(crate) fn delay_text(alloc: Global, micros: u64) -> Result<String, AllocError> {
    if micros < 1_000 {
        return format!(in alloc; "{micros} us");
    }
    if micros < 1_000_000 {
        let number = three_digits(alloc, micros)?;
        return format!(in alloc; "{number} ms");
    }
    let millis = micros / 1_000;
    if millis < 99_999_500 {
        let number = three_digits(alloc, millis)?;
        return format!(in alloc; "{number} s");
    }
    let hours = millis / 3_600;
    if hours < 99_999_500 {
        let number = three_digits(alloc, hours)?;
        return format!(in alloc; "{number} h");
    }
    let number = three_digits(alloc, hours / 24)?;
    format!(in alloc; "{number} d")
}

/// Returns a number of bytes with a unit as in the options, such as `82`, `1.23K` and `12.3M`.
pub(crate) fn bytes_text(alloc: Global, bytes: u64) -> Result<String, AllocError> {
    if bytes < 1_024 {
        return format!(in alloc; "{bytes}");
    }
    let mut rest = bytes;
    for unit in ["K", "M", "G", "T", "P"] {
        if rest < 1_048_576 {
            let number = three_digits(alloc, rest.saturating_mul(1_000) / 1_024)?;
            return format!(in alloc; "{number}{unit}");
        }
        rest /= 1_024;
    }
    format!(in alloc; "{rest}P")
}
