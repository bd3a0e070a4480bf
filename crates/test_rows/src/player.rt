//! Runs conversations, and prints how many runs printed the expected lines.

use crate::conversation::{Row, rows};
use crate::cut::Cut;
use crate::subject::Subject;
use crate::text;
use anyhow::{Context, Result};
use std::alloc::Global;
use std::fs::{self, Files};

/// Runs the conversations of a file, each on a new subject. Prints a line for each conversation:
/// its title with the number of runs, or the number of runs that differ and the first difference.
pub(crate) fn play<T: Subject>(rt: &(impl Files + Print + AllocGlobal), file: &str) -> Result<()> {
    let alloc = rt.alloc();
    let text = fs::read_to_string(rt, file)?;
    println!(rt; "{file}")?;
    for conversation in text.split("\n\n") {
        report::<T>(rt, alloc, conversation)?;
    }
    Ok(())
}

/// Runs a conversation and prints the result. A block of comments alone is not a conversation.
fn report<T: Subject>(rt: &impl Print, alloc: Global, conversation: &str) -> Result<()> {
    let rows = rows(alloc, conversation)?;
    if rows.is_empty() {
        return Ok(());
    }
    let title = conversation.lines().next().unwrap_or("");
    let title = title
        .strip_prefix("# ")
        .context("a conversation without a title")?;
    let runs = Runs::of::<T>(alloc, rows.as_slice())?;
    runs.print(rt, title)
}

/// The number of runs, the number of runs that differ, and the first difference.
#[derive(Drop)]
struct Runs {
    count: u64,
    differ: u64,
    first: String,
}

impl Runs {
    /// Runs the rows with their texts whole, cut at each byte of the longest text, and byte by
    /// byte.
    fn of<T: Subject>(alloc: Global, rows: &[Row<'_>]) -> Result<Runs> {
        let mut runs = Runs {
            count: 0,
            differ: 0,
            first: String::new(alloc),
        };
        let longest = longest::<T>(alloc, rows);
        for number in 0..=longest.saturating_add(1) {
            let cut = Cut::numbered(number, longest);
            runs.run::<T>(alloc, rows, cut)?;
            if longest == 0 {
                break;
            }
        }
        Ok(runs)
    }

    /// Runs the rows on a new subject, up to the first row that prints something else than
    /// expected.
    fn run<T: Subject>(&mut self, alloc: Global, rows: &[Row<'_>], cut: Cut) -> Result<()> {
        self.count = self.count.saturating_add(1);
        let mut subject = T::new(alloc)?;
        for row in rows {
            let said = said(alloc, &mut subject, row, cut)?;
            if said.as_str() != row.wanted.as_str() {
                self.differ = self.differ.saturating_add(1);
                return self.note(row, cut, said.as_str());
            }
        }
        Ok(())
    }

    /// Records the actual and the expected lines of a row, if it is the first that differs.
    fn note(&mut self, row: &Row<'_>, cut: Cut, said: &str) -> Result<()> {
        if self.first.is_empty() {
            let Row {
                name,
                given,
                wanted,
            } = row;
            writeln!(
                self.first,
                "  {cut:?}: {name} {given}\nwanted:\n{wanted}said:\n{said}"
            )?;
        }
        Ok(())
    }

    /// Prints a line with this title, and the first difference after it.
    fn print(&self, rt: &impl Print, title: &str) -> Result<()> {
        let Runs {
            count,
            differ,
            first,
        } = self;
        match *differ {
            0 => println!(rt; "{title}: {count} runs")?,
            _ => print!(rt; "{title}: {differ} of {count} runs differ\n{first}")?,
        }
        Ok(())
    }
}

/// Returns the length of the longest text that is cut.
fn longest<T: Subject>(alloc: Global, rows: &[Row<'_>]) -> usize {
    let mut longest = 0;
    for row in rows {
        if T::is_cut(row.name) {
            let length = text::bytes(alloc, row.given).map_or(0, |bytes| bytes.len());
            longest = longest.max(length);
        }
    }
    longest
}

/// Returns the lines that a row prints.
fn said<T: Subject>(alloc: Global, subject: &mut T, row: &Row<'_>, cut: Cut) -> Result<String> {
    let mut said = String::new(alloc);
    if let Err(error) = subject.run(row.name, row.given, cut, &mut said) {
        writeln!(said, "error: {error}")?;
    }
    Ok(said)
}
