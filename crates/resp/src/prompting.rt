//! The prompt of `ask` on a terminal.

use resp_cli_args::asking::Asking;
use std::io::{self, IsTerminal, Read, Write};

/// A reader of lines that the user types. It prints a prompt before each read.
#[derive(Drop)]
pub struct Prompting<'a, R, W> {
    inner: R,
    terminal: W,
    prompt: &'a str,
}

impl<'a, R, W> Prompting<'a, R, W> {
    /// Returns a reader over `inner` that prints a prompt to `terminal`.
    pub(crate) fn new(inner: R, terminal: W, prompt: &'a str) -> Self {
        Prompting {
            inner,
            terminal,
            prompt,
        }
    }
}

impl<R: Read, W: Write> Read for Prompting<'_, R, W> {
    fn read(&mut self, into: &mut [u8]) -> io::Result<usize> {
        let _ = self.terminal.write_all(self.prompt.as_bytes());
        let result = self.inner.read(into);
        if let Ok(0) = &result {
            // The shell begins a line with its own prompt.
            let _ = self.terminal.write_all(b"\n");
        }
        result
    }
}

/// Returns whether commands are typed on a terminal and their replies are read there.
pub(crate) fn is_typed(rt: &HostRuntime, asking: &Asking<'_>) -> bool {
    let takes_lines = asking.words.is_empty() && !asking.options.raw && !asking.options.counts;
    takes_lines && rt.stdin().is_terminal() && rt.stdout().is_terminal()
}
