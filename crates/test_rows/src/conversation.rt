//! The rows of a conversation, and how they are parsed from its lines.

use anyhow::{Context, Result};
use std::alloc::Global;

/// A row with the lines that it has to print.
#[derive(Drop)]
pub(crate) struct Row<'a> {
    /// The name of its call.
    pub(crate) name: &'a str,
    /// The arguments of the call.
    pub(crate) given: &'a str,
    /// The lines that it has to print, each with its LF.
    pub(crate) wanted: String,
}

/// Parses the rows of a conversation.
pub(crate) fn rows<'a>(alloc: Global, conversation: &'a str) -> Result<Vec<Row<'a>>> {
    let mut rows: Vec<Row<'a>> = Vec::new(alloc);
    for line in conversation.lines() {
        if let Some(wanted) = line.strip_prefix("> ") {
            let row = rows.last_mut().context("a line that is wanted of no row")?;
            row.wanted.push_str(wanted)?;
            row.wanted.push_str("\n")?;
        } else if !line.is_empty() && !line.starts_with('#') {
            let (name, given) = line.split_once(' ').unwrap_or((line, ""));
            let wanted = String::new(alloc);
            rows.push(Row {
                name,
                given,
                wanted,
            })?;
        }
    }
    Ok(rows)
}
