//! Commands, counted by name.

ghost use Rattle.std.specs.Prelude.{◌≡◌, length};
ghost use Rattle.resp_commands.specs.declared.table.TheConstants.{COMMANDS};
ghost use Rattle.resp_proxy.specs.NameRows.{AddsCommand, CountsCommand};

use resp_commands::COMMANDS;
use std::alloc::{AllocError, Global};
use std::str;

/// The number of commands of each name in the table of commands. A number saturates at its maximum.
#[derive(Drop)]
pub(crate) struct NameCounts {
    pub(crate) counts: Vec<u64>,
    ghost all: { length counts.items ≡ length COMMANDS },
}

impl NameCounts {
    /// Returns counts of no commands.
    pub(crate) fn new(alloc: Global) -> Result<Self, AllocError> {
        Ok(NameCounts {
            counts: vec![in alloc; 0; COMMANDS.len()]?,
        })
    }

    /// Counts a command, given its place in the table. A command that the table does not have is
    /// not counted.
    #[inline(always)]
    pub(crate) fn add(&mut self, place: Option<u8>)
        ensures { CountsCommand place self.old.counts.items self.new.counts.items }
    {
        if let Some(place) = place {
            self.add_at(usize::from(place));
        }
    }

    /// Counts a command at a place of the table, if the table has it.
    #[inline(always)]
    fn add_at(&mut self, place: usize)
        ensures { AddsCommand place self.old.counts.items self.new.counts.items }
    {
        if place < self.counts.len() {
            self.counts[place] = self.counts[place].saturating_add(1);
        }
    }

    /// Returns a line for each command that was counted, in the order of the names.
    ///
    /// # Errors
    ///
    /// `AllocError` if an allocation fails.
    pub(crate) fn lines(&self, alloc: Global) -> Result<String, AllocError> {
        let mut text = String::new(alloc);
        for place in 0..self.counts.len() {
            let count = self.counts[place];
            if count > 0 {
                let name = str::from_utf8(COMMANDS[place].name()).unwrap_or("?");
                let line = format!(in alloc; "cmdstat_{name}:calls={count}\r\n")?;
                text.push_str(line.as_str())?;
            }
        }
        Ok(text)
    }
}
