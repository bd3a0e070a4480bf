//! Scans many streams, and prints for each stream a checksum of the numbers that represent its
//! steps in `include/resp.h`. tests/bindings compares them with those that `bindings/c/streams.c`
//! prints with the library for C.
//!
//! Standard input has one stream after another: its version; a byte of switches, 1 for doubles, 2
//! for no streamed forms and 4 for small limits; the number of its pieces; the length of each
//! piece, one byte; and their bytes.
#![tactic(auto)]

use anyhow::{Context, Result};
use resp_scan::{Event, OpenKind, Scanner, TextKind};
use resp_value::{Limits, Version};
use std::io::{BufWriter, Read, Write};

/// A checksum of numbers, in their order: 64-bit FNV-1a, a number at a time.
#[derive(Drop)]
struct Sum(u64);

impl Sum {
    fn add(&mut self, number: u64) {
        self.0 = (self.0 ^ number).wrapping_mul(1_099_511_628_211);
    }

    fn add_bytes(&mut self, bytes: &[u8]) {
        for byte in bytes {
            self.add(u64::from(*byte));
        }
    }

    fn add_text(&mut self, kind: TextKind) {
        match kind {
            TextKind::Simple => self.add(0),
            TextKind::Error => self.add(1),
            TextKind::Double => self.add(2),
            TextKind::Bulk => self.add(3),
            TextKind::BulkError => self.add(4),
            TextKind::Verbatim(format) => {
                self.add(5);
                self.add_bytes(&format);
            }
            TextKind::Big { negative } => {
                self.add(6);
                self.add(u64::from(negative));
            }
        }
    }

    fn add_open(&mut self, kind: OpenKind, members: Option<u64>) {
        self.add(match kind {
            OpenKind::Array => 0,
            OpenKind::Set => 1,
            OpenKind::Map => 2,
            OpenKind::Attr => 3,
            OpenKind::Push => 4,
        });
        self.add(members.unwrap_or(u64::MAX));
    }

    fn add_event(&mut self, event: &Event<'_>) {
        match event {
            Event::Null => self.add(1),
            Event::Bool(truth) => {
                self.add(2);
                self.add(u64::from(*truth));
            }
            Event::Int(number) => {
                self.add(3);
                self.add_bytes(&number.to_le_bytes());
            }
            Event::Text(kind) => {
                self.add(4);
                self.add_text(*kind);
            }
            Event::Part(bytes) => {
                self.add(5);
                self.add(bytes.len() as u64);
                self.add_bytes(bytes);
            }
            Event::TextEnd => self.add(6),
            Event::Open(kind, members) => {
                self.add(7);
                self.add_open(*kind, *members);
            }
            Event::Close => self.add(8),
            Event::Done => self.add(9),
        }
    }
}

/// Returns the limits for the switches.
fn limits(switches: u8) -> Result<Limits> {
    let limits = if switches & 4 == 0 {
        Limits::standard()
    } else {
        Limits::new(4, 64, 256)?.with_items(16)?
    };
    Ok(
        limits
            .with_doubles(switches & 1 != 0)
            .with_streamed(switches & 2 == 0),
    )
}

/// Adds the steps of a piece, each after the number of bytes that it used, and then the state of
/// the scanner or the cause of a fault. Returns whether there was no fault.
fn add_piece(scanner: &mut Scanner, piece: &[u8], sum: &mut Sum) -> bool {
    let mut rest = piece;
    for _ in 0..u64::MAX {
        let step = match scanner.step(rest) {
            Ok(step) => step,
            Err(fault) => {
                sum.add(u64::from(fault.cause.number()));
                sum.add(fault.at);
                return false;
            }
        };
        sum.add(step.used as u64);
        rest = &rest[step.used..];
        match &step.event {
            Some(event) => sum.add_event(event),
            None => break,
        }
    }
    sum.add(scanner.depth() as u64);
    sum.add(scanner.taken());
    sum.add(scanner.needed());
    true
}

/// Prints the sum of the first stream, and returns the streams after it.
fn print_stream<'a, W: Write>(streams: &'a [u8], output: &mut W) -> Result<&'a [u8]> {
    let (head, rest) = streams.split_at_checked(3).context("no head")?;
    let version = match head[0] {
        2 => Version::Two,
        _ => Version::Three,
    };
    let (lengths, rest) = rest
        .split_at_checked(head[2] as usize)
        .context("no lengths")?;
    let mut scanner = Scanner::new(version, &limits(head[1])?);
    let mut sum = Sum(0);
    let mut rest = rest;
    let mut goes_on = true;
    for length in lengths {
        let (piece, beyond) = rest.split_at_checked(*length as usize).context("no piece")?;
        rest = beyond;
        goes_on = goes_on && add_piece(&mut scanner, piece, &mut sum);
    }
    sum.add(match scanner.finish() {
        Ok(()) => 0,
        Err(fault) => u64::from(fault.cause.number()),
    });
    // Prints half of the bits, to keep the output short.
    writeln!(output, "{:08x}", sum.0 >> 32)?;
    Ok(rest)
}

fn main(rt: HostRuntime) -> Result<()> {
    let mut input = Vec::new(rt.alloc());
    rt.stdin().read_to_end(&mut input)?;
    let mut output = BufWriter::new(rt.alloc(), rt.stdout())?;
    let mut rest = input.as_slice();
    for _ in 0..u64::MAX {
        if rest.is_empty() {
            break;
        }
        rest = print_stream(rest, &mut output)?;
    }
    output.flush()?;
    Ok(())
}
