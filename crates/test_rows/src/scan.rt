//! Rows that run on scanners.

mod needed;
mod reader;
mod scanners;
mod stops;
mod story;

pub(crate) use scanners::Scanners;
