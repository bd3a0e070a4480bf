//! The keys with which the user asks for the table.

use mio::unix::SourceFd;
use mio::{Interest, Registry};
use resp_net::service::INPUT;
use std::os::fd::RawFd;

/// The descriptor of standard input.
const STANDARD_INPUT: RawFd = 0;

/// What the user has typed.
#[derive(Clone, Copy, Debug, PartialEq, Eq)]
pub(crate) enum Typed {
    Nothing,
    /// A line.
    Line,
    /// The end of the input: Ctrl-D.
    End,
}

/// Returns whether this program is in the background: another process group is in the foreground of
/// the terminal.
fn is_in_background() -> bool {
    let group = libc::tcgetpgrp(STANDARD_INPUT);
    group > 0 && group != libc::getpgrp()
}

/// Standard input, if it is a terminal whose keys ask for the table.
#[derive(Clone, Copy)]
pub(crate) struct Keyboard {
    is_used: bool,
    is_registered: bool,
    typed: Typed,
}

impl Keyboard {
    /// Returns a keyboard before anything was typed. It is used if commands are counted and
    /// standard input is a terminal.
    pub(crate) fn new(counts: bool) -> Keyboard {
        Keyboard {
            is_used: counts && libc::isatty(STANDARD_INPUT) == 1,
            is_registered: false,
            typed: Typed::Nothing,
        }
    }

    /// Returns whether keys ask for the table.
    pub(crate) fn is_used(&self) -> bool {
        self.is_used
    }

    /// Returns whether standard input still has to be registered.
    pub(crate) fn is_new(&self) -> bool {
        self.is_used && !self.is_registered
    }

    /// Reads a line from standard input, which is ready. A program in the background reads nothing,
    /// because the system would stop it.
    pub(crate) fn read(&mut self) {
        if !self.is_used || is_in_background() {
            return;
        }
        let mut line = [0; 4_096];
        match libc::read(STANDARD_INPUT, &mut line) {
            0 => self.typed = Typed::End,
            1.. => self.typed = Typed::Line,
            // The terminal has gone.
            _ => self.is_used = false,
        }
    }

    /// Returns what was typed since the last call, and registers standard input at the first call.
    pub(crate) fn take(&mut self, registry: &Registry) -> Typed {
        let typed = self.typed;
        self.typed = Typed::Nothing;
        let mut source = SourceFd(&STANDARD_INPUT);
        if self.is_new() {
            self.is_registered = true;
            self.is_used = registry
                .register(&mut source, INPUT, Interest::READABLE)
                .is_ok();
        } else if typed != Typed::Nothing {
            // After this call the system reports again that standard input is ready.
            let _ = registry.reregister(&mut source, INPUT, Interest::READABLE);
        }
        typed
    }
}
