//! Measures how long the encoder needs for a value, beside the time to copy the same text.
//!
//! Without an argument it encodes few values and prints the length of each text, the same in every
//! run. With the argument `times` it encodes a million of each and prints nanoseconds.

use crate::texts::{ARRAY_10, BULK_16, BULK_1024, INTEGER, MAP, SIMPLE, Text};
use crate::{has, nanos};
use anyhow::{Context, Result};
use bytes::BytesMut;
use resp_decode::{Decoder, Fed};
use resp_encode::encode;
use resp_scan::event::Fault;
use resp_value::limits::Limits;
use resp_value::value::Value;
use resp_value::version::Version;
use std::alloc::Global;

/// The number of texts for which the buffer has room.
const BATCH: usize = 100;

/// The number of batches in a million values.
const ROUNDS: usize = 10_000;

/// Nanoseconds for a million values that make a hundredth of a nanosecond for one value.
const NANOS_IN_HUNDREDTHS: u128 = 10_000;

fn encode_all(value: &Value, rounds: usize, out: &mut BytesMut) -> Result<()> {
    let limits = Limits::standard();
    for _ in 0..rounds {
        out.clear();
        for _ in 0..BATCH {
            encode(Version::Three, &limits, value, out)?;
        }
    }
    Ok(())
}

fn copy_all(text: &[u8], rounds: usize, out: &mut BytesMut) -> Result<()> {
    for _ in 0..rounds {
        out.clear();
        for _ in 0..BATCH {
            out.extend_from_slice(text)?;
        }
    }
    Ok(())
}

/// Prints a line of times: the nanoseconds for one value, those to copy its text, and their ratio.
fn measure(
    rt: &HostRuntime,
    name: &str,
    value: &Value,
    text: &[u8],
    out: &mut BytesMut,
) -> Result<()> {
    encode_all(value, 1, out)?;
    let start = nanos(rt)?;
    encode_all(value, ROUNDS, out)?;
    let middle = nanos(rt)?;
    copy_all(text, ROUNDS, out)?;
    let copied = nanos(rt)?.saturating_sub(middle).max(1);
    print_times(rt, name, middle.saturating_sub(start), copied)
}

fn print_times(rt: &HostRuntime, name: &str, encoded: u128, copied: u128) -> Result<()> {
    let ratio = encoded.saturating_mul(100) / copied.max(1);
    let (encoded, copied) = (encoded / NANOS_IN_HUNDREDTHS, copied / NANOS_IN_HUNDREDTHS);
    println!(rt;
        "{name}: {}.{:02} ns a value, {}.{:02} ns to copy, ratio {}.{:02}",
        encoded / 100,
        encoded % 100,
        copied / 100,
        copied % 100,
        ratio / 100,
        ratio % 100
    )?;
    Ok(())
}

/// Prints the length of a value's text and of a batch of such texts.
fn count(
    rt: &HostRuntime,
    name: &str,
    value: &Value,
    length: usize,
    out: &mut BytesMut,
) -> Result<()> {
    encode_all(value, 1, out)?;
    println!(rt; "{name}: {length} bytes a value, {} in a batch", out.len())?;
    Ok(())
}

/// Returns the value encoded in a text.
fn value(alloc: Global, text: &[u8]) -> Result<Value> {
    let mut decoder = Decoder::new(alloc, Version::Three, &Limits::standard());
    let fed = decoder.feed(text);
    value_of(fed)
}

fn value_of(fed: Result<Fed<Value>, Fault>) -> Result<Value> {
    fed?.value.context("no value")
}

fn run(rt: &HostRuntime, timed: bool, text: &Text) -> Result<()> {
    let bytes = text.bytes(rt.alloc())?;
    let value = value(rt.alloc(), bytes.as_slice())?;
    let room = bytes.len().saturating_mul(BATCH);
    let mut out = BytesMut::with_capacity(rt.alloc(), room)?;
    if timed {
        measure(rt, text.name, &value, bytes.as_slice(), &mut out)
    } else {
        count(rt, text.name, &value, bytes.len(), &mut out)
    }
}

/// Runs the benchmark for each kind of value, as the arguments request.
pub(crate) fn bench(rt: &HostRuntime, words: &[String]) -> Result<()> {
    let timed = has(words, "times");
    for text in [SIMPLE, INTEGER, BULK_16, BULK_1024, ARRAY_10, MAP] {
        run(rt, timed, &text)?;
    }
    Ok(())
}
