//! A histogram of times.

use anyhow::Result;
use resp_stats::Histogram;

pub(crate) fn run(rt: &impl Print) -> Result<()> {
    let mut delays = Histogram::new();
    delays.add(80, 99);
    delays.add(1_000, 1);
    println!(rt; "{:?} {:?}", delays.percentile(50), delays.percentile(100))?;
    Ok(())
}
