//! Measures how long the scanner and the decoder need for a text, to be compared with another
//! reader of the text.
//!
//! Without an argument it reads short texts in pieces of several sizes, with steps, with the loop
//! and with the decoder, and prints counts, which are the same in every run. With the argument
//! `times` it reads longer texts in pieces of two sizes, 32 MiB in all for each, and also prints
//! microseconds. With `once` it reads these texts a single time. It then uses the scanner's loop,
//! or with the argument `steps` or `trees` the steps or the decoder. With `peak` it only decodes
//! one array of a million bulk strings.

mod tally;
mod trees;

use self::tally::{Call, Tally, scan_text, step_text};
use self::trees::decode_text;
use crate::texts::{ARRAY_3, BULK_16, BULK_1024, BULK_65536, INTEGER, LINE, MAP, SIMPLE, Text};
use crate::{has, nanos};
use anyhow::Result;
use resp_decode::Decoder;
use resp_scan::event::Fault;
use resp_scan::scanner::Scanner;
use resp_value::limits::Limits;
use resp_value::version::Version;
use std::alloc::Global;

/// The size of the pieces of a text whose memory is measured.
const PIECE: usize = 16_384;

/// The way in which each text is read.
#[derive(Clone, Copy)]
struct Task {
    /// The calls with which it is read.
    calls: &'static [Call],
    /// The sizes of the pieces.
    sizes: &'static [usize],
    /// The least length of the text.
    least: usize,
    /// The number of times it is read.
    rounds: usize,
    /// Whether microseconds are printed instead of events.
    timed: bool,
}

/// A text that is read with a call in pieces of a size, a number of times.
#[derive(Clone, Copy)]
struct Reading<'a> {
    call: Call,
    text: &'a [u8],
    size: usize,
    rounds: usize,
}

/// Reads in pieces of several sizes with each call, and counts.
const COUNT: Task = Task {
    calls: &[Call::Step, Call::Scan, Call::Decode],
    sizes: &[1, 7, 1_000, 4_096, 16_384],
    least: 4_096,
    rounds: 1,
    timed: false,
};

/// Reads with the loop and measures the time, 32 MiB in all. The text fits a processor's cache, as
/// bytes do that were just received.
const MEASURE: Task = Task {
    calls: &[Call::Scan],
    sizes: &[4_096, 16_384],
    least: 262_144,
    rounds: 128,
    timed: true,
};

/// A scanner and a decoder, of which a call uses one.
#[derive(Drop)]
struct Readers {
    scanner: Scanner,
    decoder: Decoder,
}

impl Readers {
    fn new(alloc: Global) -> Readers {
        let limits = Limits::standard();
        Readers {
            scanner: Scanner::new(Version::Three, &limits),
            decoder: Decoder::new(alloc, Version::Three, &limits),
        }
    }

    fn read(&mut self, reading: &Reading<'_>, tally: &mut Tally) -> Result<()> {
        let (text, size) = (reading.text, reading.size);
        match reading.call {
            Call::Step => step_text(&mut self.scanner, text, size, tally)?,
            Call::Scan => scan_text(&mut self.scanner, text, size, tally)?,
            Call::Decode => decode_text(&mut self.decoder, text, size, tally)?,
        }
        Ok(())
    }

    /// Reads a text the requested number of times, and returns the nanoseconds used.
    fn read_rounds(
        &mut self,
        rt: &HostRuntime,
        reading: &Reading<'_>,
        tally: &mut Tally,
    ) -> Result<u128> {
        let start = nanos(rt)?;
        for _ in 0..reading.rounds {
            self.read(reading, tally)?;
        }
        let end = nanos(rt)?;
        self.finish()?;
        Ok(end.saturating_sub(start))
    }

    fn finish(&self) -> Result<()> {
        self.scanner.finish()?;
        self.decoder.finish()?;
        Ok(())
    }
}

/// Prints a line of the counts of a text, with the events or the microseconds of this thread's
/// processor time.
fn print_read(rt: &HostRuntime, name: &str, timed: bool, reading: &Reading<'_>) -> Result<()> {
    let mut tally = Tally::new();
    let nanos = read_anew(rt, reading, &mut tally)?;
    print_counts(rt, name, reading.size, &tally)?;
    if timed {
        println!(rt; "{} us", nanos / 1_000)?;
    } else {
        println!(rt; "{} events", tally.events())?;
    }
    Ok(())
}

/// Reads a text with new readers, and returns the nanoseconds used.
fn read_anew(rt: &HostRuntime, reading: &Reading<'_>, tally: &mut Tally) -> Result<u128> {
    let mut readers = Readers::new(rt.alloc());
    readers.read_rounds(rt, reading, tally)
}

/// Prints the counts that both readers have of a text.
fn print_counts(rt: &HostRuntime, name: &str, size: usize, tally: &Tally) -> Result<()> {
    let (replies, values) = (tally.replies, tally.values);
    let (content, sum) = (tally.content, tally.sum);
    print!(rt;
        "{name} by {size}: {replies} replies, {values} values, {content} bytes, sum {sum}; "
    )?;
    Ok(())
}

/// Reads a text made by repeating this text, in pieces of each size.
fn run(rt: &HostRuntime, task: &Task, text: &Text) -> Result<()> {
    let bytes = text.repeated(rt.alloc(), task.least)?;
    for size in task.sizes {
        for call in task.calls {
            let reading = Reading {
                call: *call,
                text: bytes.as_slice(),
                size: *size,
                rounds: task.rounds,
            };
            print_read(rt, text.name, task.timed, &reading)?;
        }
    }
    Ok(())
}

/// Decodes one array of a million bulk strings of eight bytes, in pieces of a thousand members.
fn decode_million(rt: &HostRuntime) -> Result<()> {
    let mut piece = Vec::new(rt.alloc());
    for _ in 0..1_000 {
        piece.extend_from_slice(b"$8\r\nxxxxxxxx\r\n")?;
    }
    let mut tally = Tally::new();
    decode_array(rt.alloc(), piece.as_slice(), &mut tally)?;
    print_counts(rt, "array of a million bulks", PIECE, &tally)?;
    println!(rt; "one value")?;
    Ok(())
}

/// Decodes an array of a million members. This piece has a thousand of them.
fn decode_array(alloc: Global, piece: &[u8], tally: &mut Tally) -> Result<(), Fault> {
    let mut decoder = Decoder::new(alloc, Version::Three, &Limits::standard());
    feed_array(&mut decoder, piece, tally)
}

fn feed_array(decoder: &mut Decoder, piece: &[u8], tally: &mut Tally) -> Result<(), Fault> {
    decode_text(decoder, b"*1000000\r\n", PIECE, tally)?;
    for _ in 0..1_000 {
        decode_text(decoder, piece, PIECE, tally)?;
    }
    Ok(())
}

/// Returns the way in which each text is read, for these arguments.
fn asked_for(words: &[String]) -> Task {
    let mut task = MEASURE;
    if has(words, "once") {
        task.rounds = 1;
    } else if !has(words, "times") {
        return COUNT;
    }
    if has(words, "steps") {
        task.calls = &[Call::Step];
    } else if has(words, "trees") {
        task.calls = &[Call::Decode];
    }
    task
}

/// Runs the benchmark for each text, as the arguments request.
pub(crate) fn bench(rt: &HostRuntime, words: &[String]) -> Result<()> {
    if has(words, "peak") {
        return decode_million(rt);
    }
    let task = asked_for(words);
    for text in [
        SIMPLE, INTEGER, LINE, BULK_16, BULK_1024, BULK_65536, ARRAY_3, MAP,
    ] {
        run(rt, &task, &text)?;
    }
    Ok(())
}
