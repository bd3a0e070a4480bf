//! Measures how long it takes to read replies into flat nodes, and to walk over all nodes.
//!
//! With the argument `times` each text is read 128 times, otherwise once.

use crate::texts::{ARRAY_3, BULK_16, BULK_1024, BULK_65536, INTEGER, LINE, MAP, SIMPLE, Text};
use crate::{has, nanos};
use anyhow::Result;
use resp_flat::{INT, Node, TEXT, read_in_place};
use resp_value::limits::Limits;
use resp_value::version::Version;

/// The number of nodes of one call.
const NODES: usize = 1_024;

/// The least length of a text. It fits a processor's cache.
const LEAST: usize = 262_144;

/// The times that a text is read when its time is measured.
const ROUNDS: usize = 128;

/// What was found in the nodes.
#[derive(Clone, Copy, Default)]
struct Counts {
    replies: u64,
    values: u64,
    content: u64,
    sum: i64,
}

impl Counts {
    /// Walks over the replies, and over all values in them.
    #[inline(always)]
    fn walk(&mut self, nodes: &[Node]) {
        let mut rest = nodes;
        for _ in 0..u64::MAX {
            let Some(first) = rest.first() else {
                break;
            };
            self.replies = self.replies.wrapping_add(1);
            rest = rest.get(first.size.max(1)..).unwrap_or_default();
        }
        for node in nodes {
            self.values = self.values.wrapping_add(1);
            match node.kind {
                INT => self.sum = self.sum.wrapping_add(node.number),
                TEXT => self.content = self.content.wrapping_add(node.length as u64),
                _ => {}
            }
        }
    }
}

/// Reads all replies of the text, and counts.
#[inline(never)]
fn read_text(limits: &Limits, text: &[u8], nodes: &mut [Node], counts: &mut Counts) {
    let mut rest = text;
    for _ in 0..u64::MAX {
        if rest.is_empty() {
            return;
        }
        let read = read_in_place(Version::Three, limits, rest, nodes);
        if read.used == 0 {
            return;
        }
        counts.walk(nodes.get(..read.nodes).unwrap_or_default());
        rest = rest.get(read.used..).unwrap_or_default();
    }
}

/// Reads a text the requested number of times, and prints the counts and the microseconds.
fn run(rt: &HostRuntime, text: &Text, rounds: usize) -> Result<()> {
    let bytes = text.repeated(rt.alloc(), LEAST)?;
    let limits = Limits::standard();
    let mut nodes = vec![in rt.alloc(); Node::default(); NODES]?;
    let mut counts = Counts::default();
    let start = nanos(rt)?;
    for _ in 0..rounds {
        read_text(&limits, &bytes, &mut nodes, &mut counts);
    }
    let micros = nanos(rt)?.saturating_sub(start) / 1_000;
    println!(rt;
        "{} by 16384: {} replies, {} values, {} bytes, sum {}; {micros} us",
        text.name, counts.replies, counts.values, counts.content, counts.sum
    )?;
    Ok(())
}

/// Runs the benchmark for each text, as the arguments request.
pub(crate) fn bench(rt: &HostRuntime, words: &[String]) -> Result<()> {
    let rounds = if has(words, "times") { ROUNDS } else { 1 };
    for text in [
        SIMPLE, INTEGER, LINE, BULK_16, BULK_1024, BULK_65536, ARRAY_3, MAP,
    ] {
        run(rt, &text, rounds)?;
    }
    Ok(())
}
