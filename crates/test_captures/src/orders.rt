//! Every order of some segments.

use crate::side::is_right;
use anyhow::Result;
use std::alloc::Global;

/// How many orders were tried, and how many had other bytes.
#[derive(Clone, Copy, Default)]
pub struct Counts {
    pub orders: u32,
    pub wrong: u32,
}

/// Tries every order of five segments, each with its place and its number of bytes, of a side of
/// `count` bytes.
pub fn of_segments(alloc: Global, segments: &[(usize, usize); 5], count: usize) -> Result<Counts> {
    let mut counts = Counts::default();
    for number in 0..120u32 {
        let mut left = Vec::from_slice(alloc, segments.as_slice())?;
        let mut order = Vec::new(alloc);
        let mut rest = number as usize;
        for size in 0..5usize {
            let index = rest % (5 - size);
            rest = rest / (5 - size);
            if index < left.len() {
                order.push(left.remove(index))?;
            }
        }
        counts.orders = counts.orders.saturating_add(1);
        if !is_right(alloc, order.as_slice(), count)? {
            counts.wrong = counts.wrong.saturating_add(1);
        }
    }
    Ok(counts)
}
