//! Times on the command line, such as `500ms`.

ghost use Rattle.std.specs.Prelude.{◌<◌, ℕ, IfNone, IfSome};
ghost use Rattle.resp_cli_args.specs.Durations.{IsDuration, IsPause, IsTime};

use crate::units::{number_before, number_within};

/// The number of microseconds in a millisecond.
pub(crate) const MILLISECOND: u64 = 1_000;

/// The number of microseconds in a second.
pub(crate) const SECOND: u64 = 1_000_000;

/// The number of microseconds in an hour.
pub(crate) const HOUR: u64 = 3_600_000_000;

/// The number of microseconds in a day.
pub(crate) const DAY: u64 = 86_400_000_000;

/// Parses a time, and returns it in microseconds. A time is `0`, or a number with `us`, `ms`, `s`,
/// `m` or `h`, such as `10ms`. Returns `None` for any other text, and for 2^64 microseconds or
/// more.
pub fn duration_of(text: &str) -> Option<u64>
    ensures some { IfSome result (IsDuration text.now) }
    ensures none { IfNone result ((micros : ℕ) → IsDuration text.now micros → ⊥) }
{
    if text == "0" {
        return Some(0);
    }
    if let Some(micros) = number_before("us", 1, text) {
        return Some(micros);
    }
    if let Some(micros) = number_before("ms", 1_000, text) {
        return Some(micros);
    }
    if let Some(micros) = number_before("s", 1_000_000, text) {
        return Some(micros);
    }
    if let Some(micros) = number_before("m", 60_000_000, text) {
        return Some(micros);
    }
    number_before("h", 3_600_000_000, text)
}

/// Parses a time in this range, and returns it in microseconds. A time is a number with `us`, `ms`,
/// `s`, `m` or `h`.
pub(crate) fn time_of(text: &str, least: u64, most: u64) -> Option<u64>
    ensures some { IfSome result (IsTime text.now least most) }
    ensures none { IfNone result ((micros : ℕ) → IsTime text.now least most micros → ⊥) }
{
    if let Some(micros) = number_within("us", 1, text, least, most) {
        return Some(micros);
    }
    if let Some(micros) = number_within("ms", 1_000, text, least, most) {
        return Some(micros);
    }
    if let Some(micros) = number_within("s", 1_000_000, text, least, most) {
        return Some(micros);
    }
    if let Some(micros) = number_within("m", 60_000_000, text, least, most) {
        return Some(micros);
    }
    number_within("h", 3_600_000_000, text, least, most)
}

/// Parses a time in this range, and returns it in microseconds. Returns 0 if the text is `0`.
pub(crate) fn pause_of(text: &str, least: u64, most: u64) -> Option<u64>
    ensures some { IfSome result (IsPause text.now least most) }
    ensures none { IfNone result ((micros : ℕ) → IsPause text.now least most micros → ⊥) }
{
    if text == "0" {
        return Some(0);
    }
    time_of(text, least, most)
}
