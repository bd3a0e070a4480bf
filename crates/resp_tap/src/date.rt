//! Dates of the Gregorian calendar.

ghost use Rattle.std.specs.Prelude.{◌≡◌, ◌+◌, ◌*◌, ◌≤◌};
ghost use Rattle.resp_tap.specs.Dates.{date_of, first_of, is_leap, later, month_length, month_after};

/// A date.
#[derive(Clone, Copy, Debug, PartialEq, Eq)]
pub struct Date {
    /// The year.
    pub year: u64,
    /// The month, from 1.
    pub month: u64,
    /// The day of the month, from 1.
    pub day: u64,
}

/// Returns whether a year is a leap year.
fn is_leap(year: u64) -> bool
    ensures { result ≡ is_leap year }
{
    year % 4 == 0 && (year % 100 != 0 || year % 400 == 0)
}

/// Returns the number of days of a month.
fn month_length(year: u64, month: u64) -> u64
    ensures { result ≡ month_length year month }
{
    match month {
        2 if is_leap(year) => 29,
        2 => 28,
        4 | 6 | 9 | 11 => 30,
        _ => 31,
    }
}

/// Returns the first day of the next month.
fn month_after(date: Date) -> Date
    requires { date.year ≤ 4294967295 }
    ensures { result ≡ month_after date.year date.month }
{
    if date.month < 12 {
        Date {
            year: date.year,
            month: date.month + 1,
            day: 1,
        }
    } else {
        Date {
            year: date.year + 1,
            month: 1,
            day: 1,
        }
    }
}

/// Returns the number of days of the first years from 1970 on, this many.
fn days_of_years(years: u64) -> u64
    requires { years ≤ 4294967295 }
    ensures is_start { later result (first_of 1970 1) ≡ first_of (years + 1970) 1 }
    ensures within { result ≤ years * 366 }
{
    // 4 divides each leap year. 100 divides none, unless 400 does. 477 leap years are before 1970.
    let before = years + 1969;
    years * 365 + (before / 4 + before / 400 - before / 100 - 477)
}

/// Returns the date that is this number of days after 1 January 1970.
pub(crate) fn date_of(days: u64) -> Date
    requires { days ≤ 2932896 }
    ensures { result ≡ date_of days }
{
    // The year of the date, or one shortly before it.
    let years = days / 366;
    let mut left = days - days_of_years(years);
    let mut date = Date {
        year: years + 1970,
        month: 1,
        day: 1,
    };
    while left >= month_length(date.year, date.month) {
        left -= month_length(date.year, date.month);
        date = month_after(date);
    }
    Date {
        day: left + 1,
        ..date
    }
}
