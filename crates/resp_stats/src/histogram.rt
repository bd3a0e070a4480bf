//! A histogram of times.

ghost use Rattle.std.specs.Prelude.{◌≡◌, ◌+◌, ◌-◌, ◌*◌, ◌^◌, ◌<◌, ◌≤◌, ◌↔◌, ℕ, List, [], ◌++◌, length, replicate, min, IsTrue, IsNone, IfSome};
ghost use Rattle.resp_stats.specs.Ranges.{start_of};
ghost use Rattle.resp_stats.specs.Times.{HasTimes, count_at_most, count_below, counted, last_count};

use crate::range::{RANGES, end_of, range_at, range_of};

/// The number of times in each range. Up to 31 microseconds each range is one microsecond, and
/// above that each power of two has 16 ranges. Times above 4,294,967,295 microseconds count as this
/// time.
///
/// # Examples
///
/// From [samples](../../samples/src/timing.rt):
///
/// ```rust
/// let mut delays = Histogram::new();
/// delays.add(80, 99);
/// delays.add(1_000, 1);
/// println!(rt; "{:?} {:?}", delays.percentile(50), delays.percentile(100))?;
/// ```
///
/// This prints `Some(83) Some(1023)`.
#[derive(Clone, Copy, Debug)]
pub struct Histogram {
    pub(crate) counts: [u64; RANGES],
    /// The number of all times.
    pub(crate) number: u64,
}

impl Histogram {
    /// Returns a histogram without times.
    pub fn new() -> Histogram
        ensures { HasTimes result [] }
    {
        Histogram {
            counts: [0; RANGES],
            number: 0,
        }
    }

    /// Adds a time in microseconds `count` times.
    pub fn add(&mut self, micros: u64, count: u64)
        ensures { (times : List ℕ) → HasTimes self.old times →
            HasTimes self.new (times ++ replicate count (counted micros)) }
    {
        let range = range_of(micros);
        self.counts[range] = self.counts[range].saturating_add(count);
        self.number = self.number.saturating_add(count);
    }

    /// Adds all times of another histogram.
    pub fn append(&mut self, other: &Histogram)
        ensures { (times others : List ℕ) → HasTimes self.old times → HasTimes other.now others →
            HasTimes self.new (times ++ others) }
    {
        for range in 0..RANGES {
            self.counts[range] = self.counts[range].saturating_add(other.counts[range]);
        }
        self.number = self.number.saturating_add(other.number);
    }

    /// Returns the number of times, or `u64::MAX` if there are more.
    pub fn len(&self) -> u64
        ensures { (times : List ℕ) → HasTimes self.now times →
            result ≡ min (length times) last_count }
    {
        self.number
    }

    /// Returns whether no time was added.
    pub fn is_empty(&self) -> bool
        ensures { (times : List ℕ) → HasTimes self.now times → IsTrue result ↔ (times ≡ []) }
    {
        self.number == 0
    }

    /// Returns how many times are less than 2 to this power, in microseconds.
    pub fn count_below(&self, power: u32) -> u64
        requires { power ≤ 32 }
        ensures { (times : List ℕ) → HasTimes self.now times → length times < 2 ^ 64 →
            result ≡ count_below (2 ^ power) times }
    {
        self.count_before(range_at(power))
    }

    /// Returns the number of times in the first ranges.
    fn count_before(&self, ranges: usize) -> u64
        requires { ranges ≤ 464 }
        ensures { (times : List ℕ) → HasTimes self.now times → length times < 2 ^ 64 →
            result ≡ count_below (start_of ranges) times }
    {
        let mut count = 0u64;
        for range in 0..ranges {
            count = count.saturating_add(self.counts[range]);
        }
        count
    }

    /// Returns a time in microseconds that `percent` percent of the times do not exceed. It is at
    /// most a sixteenth greater than the least such time. Returns `None` if there are no times.
    pub fn percentile(&self, percent: u64) -> Option<u64>
        requires more_than_none { 0 < percent }
        requires at_most_all { percent ≤ 100 }
        ensures none { (times : List ℕ) → HasTimes self.now times → IsNone result ↔ (times ≡ []) }
        ensures enough { IfSome result (λ time. (times : List ℕ) → HasTimes self.now times →
            length times < 2 ^ 64 →
            percent * length times ≤ 100 * count_at_most time times) }
        ensures near { IfSome result (λ time. (times : List ℕ) → HasTimes self.now times →
            length times < 2 ^ 64 → (less : ℕ) → 17 * less < 16 * time →
            100 * count_at_most less times < percent * length times) }
    {
        if self.number == 0 {
            return None;
        }
        Some(end_of(self.range_at_place(place_of(percent, self.number))))
    }

    /// Returns the range of the time at this place in order, from 1.
    fn range_at_place(&self, place: u64) -> usize
        ensures within { result < 464 }
        ensures before { (times : List ℕ) → HasTimes self.now times → length times < 2 ^ 64 →
            0 < place → count_below (start_of result) times < place }
        ensures reached { (times : List ℕ) → HasTimes self.now times → length times < 2 ^ 64 →
            place ≤ length times → place ≤ count_below (start_of (result + 1)) times }
    {
        let mut count = 0u64;
        for range in 0..RANGES - 1 {
            count = count.saturating_add(self.counts[range]);
            if place <= count {
                return range;
            }
        }
        RANGES - 1
    }
}

/// Returns the place of the time that `percent` percent of the times do not exceed, in order and
/// from 1.
fn place_of(percent: u64, number: u64) -> u64
    requires more_than_none { 0 < percent }
    requires at_most_all { percent ≤ 100 }
    requires some { 0 < number }
    ensures first { 0 < result }
    ensures enough { percent * number ≤ 100 * result }
    ensures no_more { 100 * (result - 1) < percent * number }
    ensures within { result ≤ number }
{
    let part = u128::from(number) * u128::from(percent);
    part.div_ceil(100) as u64
}
