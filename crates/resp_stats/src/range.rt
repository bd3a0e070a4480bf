//! The ranges of a histogram.
//!
//! Ranges 0 to 31 are one time in microseconds each. After them each power of two has 16 ranges.

ghost use Rattle.std.specs.Prelude.{◌≡◌, ◌+◌, ◌*◌, ◌^◌, ◌<◌, ◌≤◌, min};
ghost use Rattle.resp_stats.specs.Ranges.{start_of};

/// The number of ranges.
pub(crate) const RANGES: usize = 464;

/// The greatest time of the last range, in microseconds.
const MOST: u64 = 4_294_967_295;

/// Returns the range of a time in microseconds. A time greater than that of all ranges is in the last one.
pub(crate) fn range_of(micros: u64) -> usize
    ensures within { result < 464 }
    ensures from_start { start_of result ≤ min micros 4294967295 }
    ensures before_next { min micros 4294967295 < start_of (result + 1) }
{
    let micros = micros.min(MOST);
    if micros < 32 {
        return micros as usize;
    }
    let doublings = micros.ilog2() - 4;
    16 * doublings as usize + (micros >> doublings) as usize
}

/// Returns the greatest time of a range, in microseconds.
pub(crate) fn end_of(range: usize) -> u64
    requires { range < 464 }
    ensures { result + 1 ≡ start_of (range + 1) }
{
    if range < 32 {
        return range as u64;
    }
    let doublings = range / 16 - 1;
    let next = (range % 16 + 17) as u64;
    (next << doublings) - 1
}

/// Returns the range that begins at 2 to this power, in microseconds.
pub(crate) fn range_at(power: u32) -> usize
    requires { power ≤ 32 }
    ensures within { result ≤ 464 }
    ensures begins { start_of result ≡ 2 ^ power }
{
    if power < 4 {
        return 1 << power;
    }
    (power as usize - 3) * 16
}
