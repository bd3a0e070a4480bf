//! The sample of the README.

use resp_decode::decode_all;
use resp_value::{Limits, Version};

fn count_values(alloc: std::alloc::Global, input: &[u8]) -> anyhow::Result<usize> {
    Ok(decode_all(alloc, Version::Three, &Limits::standard(), input)?.len())
}

pub(crate) fn run(rt: &impl Print, alloc: std::alloc::Global) -> anyhow::Result<()> {
    println!(rt; "{}", count_values(alloc, b"+OK\r\n%1\r\n+a\r\n:7\r\n")?)?;
    Ok(())
}
