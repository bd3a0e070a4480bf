//! The printed time of a command, reply or push.

ghost use Rattle.std.specs.Prelude.{◌≡◌, ◌++◌, ◌/◌, ◌%◌, None, Some, codes};
ghost use Rattle.resp_print.specs.Written.{WritesText};
ghost use Rattle.resp_tap.specs.Digits.{clock_text, date_text, digit, micros_text, time_text, two_digits, utc_text};

use crate::date::{Date, date_of};
use crate::moment::{Moment, Utc};
use resp_io::device::{DeviceFault, Sink};
use resp_print::text::{write_number, write_text};

/// The microseconds of a day.
const DAY: u64 = 86_400_000_000;

/// The last microsecond of the year 9999, in microseconds since 1970.
const LAST: u64 = 253_402_300_799_999_999;

/// The time of a command, reply or push.
#[derive(Clone, Copy, Debug, PartialEq, Eq)]
pub struct Stamp {
    /// The time at which it arrived.
    pub utc: Utc,
    /// For a reply, the microseconds that its command waited for it, if they are known.
    pub waited: Option<u64>,
}

ghost use Rattle.resp_tap.specs.Stamps.{ending_text, stamp_text, waited_text};

impl Stamp {
    /// Returns a stamp of this moment, without a waiting time.
    pub fn new(now: Moment) -> Stamp
        ensures { result ≡ record { utc = now.utc; waited = None } }
    {
        Stamp {
            utc: now.utc,
            waited: None,
        }
    }
}

/// Writes the end of a line: the time if there is a stamp, then LF.
///
/// # Errors
///
/// `DeviceFault` if a write fails. The first part of the text was written.
pub(crate) fn write_ending<W: Sink>(stamp: Option<Stamp>, writer: &mut W) -> Result<(), DeviceFault>
    ensures { WritesText (W.written writer.old) (W.written writer.new) (W.failures writer.old)
        (W.failures writer.new) result (ending_text stamp) }
{
    match stamp {
        None => write_text(writer, b"\n"),
        Some(stamp) => write_stamp(stamp, writer),
    }
}

/// Writes a time, the waiting time of a command, and LF.
fn write_stamp<W: Sink>(stamp: Stamp, writer: &mut W) -> Result<(), DeviceFault>
    ensures { WritesText (W.written writer.old) (W.written writer.new) (W.failures writer.old)
        (W.failures writer.new) result (codes " at " ++ stamp_text stamp) }
{
    write_clock(b" at ", stamp.utc, writer)?;
    write_waited(stamp.waited, writer)
}

/// Writes a time after these bytes, with its date if that is printed.
fn write_clock<W: Sink>(front: &[u8], utc: Utc, writer: &mut W) -> Result<(), DeviceFault>
    ensures { WritesText (W.written writer.old) (W.written writer.new) (W.failures writer.old)
        (W.failures writer.new) result (front.now ++ clock_text utc) }
{
    if utc.shows_date {
        write_utc(front, utc.micros, writer)
    } else {
        write_time(front, utc.micros % DAY, writer)
    }
}

/// Writes a time of day after these bytes, given in microseconds since midnight.
fn write_time<W: Sink>(front: &[u8], micros: u64, writer: &mut W) -> Result<(), DeviceFault>
    ensures { WritesText (W.written writer.old) (W.written writer.new) (W.failures writer.old)
        (W.failures writer.new) result (front.now ++ time_text micros) }
{
    write_text(writer, front)?;
    write_text(writer, &time_of_day(micros))
}

/// Writes a date and a time of day after these bytes, given in microseconds since 1970.
pub(crate) fn write_utc<W: Sink>(
    front: &[u8],
    micros: u64,
    writer: &mut W,
) -> Result<(), DeviceFault>
    ensures { WritesText (W.written writer.old) (W.written writer.new) (W.failures writer.old)
        (W.failures writer.new) result (front.now ++ utc_text micros) }
{
    write_text(writer, front)?;
    write_text(writer, &date_and_time(micros))
}

/// Writes how long a command waited, if that is known, and LF.
fn write_waited<W: Sink>(waited: Option<u64>, writer: &mut W) -> Result<(), DeviceFault>
    ensures { WritesText (W.written writer.old) (W.written writer.new) (W.failures writer.old)
        (W.failures writer.new) result (waited_text waited) }
{
    match waited {
        None => write_text(writer, b"\n"),
        Some(micros) => {
            let seconds = micros / 1_000_000;
            write_number(writer, b" after ", seconds, &seconds_end(micros))
        }
    }
}

/// Returns the point and the six decimals of a number of seconds, given in microseconds, and LF.
fn seconds_end(micros: u64) -> [u8; 10]
    ensures { result ≡ codes "." ++ (micros_text micros ++ codes " s\n") }
{
    let [a, b, c, d, e, f] = micros_of(micros);
    [b'.', a, b, c, d, e, f, b' ', b's', b'\n']
}

/// Returns the last decimal digit of a number.
fn digit(number: u64) -> u8
    ensures { result ≡ digit number }
{
    b'0' + (number % 10) as u8
}

/// Returns the last two decimal digits of a number.
fn two_digits(number: u64) -> [u8; 2]
    ensures { result ≡ two_digits number }
{
    [digit(number / 10), digit(number)]
}

/// Returns the last six decimal digits of a number.
fn micros_of(number: u64) -> [u8; 6]
    ensures { result ≡ micros_text number }
{
    [
        digit(number / 100_000),
        digit(number / 10_000),
        digit(number / 1_000),
        digit(number / 100),
        digit(number / 10),
        digit(number),
    ]
}

/// Returns a time of day as `HH:MM:SS.ssssss`, given in microseconds since midnight.
fn time_of_day(micros: u64) -> [u8; 15]
    ensures { result ≡ time_text micros }
{
    let [h, i] = two_digits(micros / 3_600_000_000);
    let [m, n] = two_digits(micros / 60_000_000 % 60);
    let [s, t] = two_digits(micros / 1_000_000 % 60);
    let [a, b, c, d, e, f] = micros_of(micros);
    [h, i, b':', m, n, b':', s, t, b'.', a, b, c, d, e, f]
}

/// Returns a date as `YYYY-MM-DD`.
fn date_bytes(date: Date) -> [u8; 10]
    ensures { result ≡ date_text date }
{
    let [c, d] = two_digits(date.year / 100);
    let [y, z] = two_digits(date.year);
    let [m, n] = two_digits(date.month);
    let [a, b] = two_digits(date.day);
    [c, d, y, z, b'-', m, n, b'-', a, b]
}

/// Returns a time as `YYYY-MM-DDTHH:MM:SS.ssssssZ`, given in microseconds since 1970.
fn date_and_time(micros: u64) -> [u8; 27]
    ensures { result ≡ utc_text micros }
{
    let shown = micros.min(LAST);
    let [a, b, c, d, e, f, g, h, i, j] = date_bytes(date_of(shown / DAY));
    let [k, l, m, n, o, p, q, r, s, t, u, v, w, x, y] = time_of_day(shown % DAY);
    [
        a, b, c, d, e, f, g, h, i, j, b'T', k, l, m, n, o, p, q, r, s, t, u, v, w, x, y, b'Z',
    ]
}
