//! Dates of printed times.

use super::check_equal;
use resp_io::device::MemorySink;
use resp_tap::Moment;
use resp_tap::json_line::write_remark_json;
use resp_tap::print::write_line;
use resp_tap::stamp::Stamp;
use std::alloc::Global;
use std::process::Abort;
use std::time::Duration;

/// Seconds since 1970 and their dates, as `date -u -d @SECONDS +%Y-%m-%dT%H:%M:%S` prints them.
const DATES: [(u64, &str); 24] = [
    (0, "1970-01-01T00:00:00"),
    (68_169_599, "1972-02-28T23:59:59"),
    (68_169_600, "1972-02-29T00:00:00"),
    (94_694_399, "1972-12-31T23:59:59"),
    (94_694_400, "1973-01-01T00:00:00"),
    (951_782_399, "2000-02-28T23:59:59"),
    (951_782_400, "2000-02-29T00:00:00"),
    (951_868_799, "2000-02-29T23:59:59"),
    (951_868_800, "2000-03-01T00:00:00"),
    (978_307_199, "2000-12-31T23:59:59"),
    (978_307_200, "2001-01-01T00:00:00"),
    (1_078_012_800, "2004-02-29T00:00:00"),
    (1_709_164_800, "2024-02-29T00:00:00"),
    (1_709_251_199, "2024-02-29T23:59:59"),
    (1_735_689_599, "2024-12-31T23:59:59"),
    (1_735_689_600, "2025-01-01T00:00:00"),
    (1_796_041_865, "2026-11-30T12:31:05"),
    (4_102_444_799, "2099-12-31T23:59:59"),
    (4_107_456_000, "2100-02-28T00:00:00"),
    (4_107_542_399, "2100-02-28T23:59:59"),
    (4_107_542_400, "2100-03-01T00:00:00"),
    (13_574_563_200, "2400-02-29T00:00:00"),
    (253_370_764_799, "9998-12-31T23:59:59"),
    (253_402_300_799, "9999-12-31T23:59:59"),
];

/// Returns the texts of a line with a date and of a line of JSON, at this time.
fn lines_at(alloc: Global, seconds: u64, micros: u64) -> Option<(MemorySink, MemorySink)> {
    let since_1970 = Duration::from_secs(seconds).saturating_add(Duration::from_micros(micros));
    let now = Moment::new(since_1970, Duration::ZERO, true);
    let mut text = MemorySink::new(alloc, 256, 256).ok()?;
    write_line(b"stats", Some(Stamp::new(now)), &mut text).ok()?;
    let mut json = MemorySink::new(alloc, 256, 256).ok()?;
    write_remark_json(
        1,
        b",\"kind\":\"gone\"",
        b",\"name\":",
        b"",
        now.utc.micros,
        &mut json,
    )
    .ok()?;
    Some((text, json))
}

/// Checks the texts of a time against this date and time of day.
fn check_date<R: Abort + AllocGlobal>(rt: &R, seconds: u64, micros: u64, wanted: &str) {
    let lines = lines_at(rt.alloc(), seconds, micros);
    let (text, json) = lines.expect(rt, "out of memory");
    let line = format!(in rt.alloc(); "stats at {wanted}\n").expect(rt, "out of memory");
    check_equal(rt, text.bytes(), line.as_str().as_bytes());
    let front = r#"{"client":1,"kind":"gone","time":""#;
    let line = format!(in rt.alloc(); "{front}{wanted}\"}}\n").expect(rt, "out of memory");
    check_equal(rt, json.bytes(), line.as_str().as_bytes());
}

#[test]
fn dates_are_those_of_the_calendar(rt: HostRuntime) {
    for (seconds, date) in DATES {
        for (micros, decimals) in [(0, "000000"), (221_043, "221043"), (999_999, "999999")] {
            let wanted = format!(in rt.alloc(); "{date}.{decimals}Z").expect(&rt, "out of memory");
            check_date(&rt, seconds, micros, wanted.as_str());
        }
    }
}

#[test]
fn a_time_after_the_year_9999_is_its_last_microsecond(rt: HostRuntime) {
    for seconds in [253_402_300_800, 18_446_744_073_709, u64::MAX] {
        check_date(&rt, seconds, 0, "9999-12-31T23:59:59.999999Z");
    }
}
