//! Opening the files that the words of a command line name.

use resp_cli_args::options::STANDARD_INPUT;
use std::fs::File;
use std::io::{self, ErrorKind, IsTerminal, Write};

/// The line that tells the user why nothing happens.
const WAITS: &[u8] = b"reading standard input; Ctrl-D ends it\n";

/// Opens a file to be read.
///
/// # Errors
///
/// The error of the system, or an error of kind `IsADirectory` if it is a directory.
pub(crate) fn open_file(rt: &HostRuntime, name: &str) -> io::Result<File> {
    let file = File::open(rt, name)?;
    match file.metadata() {
        Ok(metadata) if metadata.is_dir() => Err(ErrorKind::IsADirectory.into()),
        _ => Ok(file),
    }
}

/// Says on standard error that the program reads standard input, if that is the input and a
/// terminal.
pub(crate) fn tell_waiting(rt: &HostRuntime, name: &str) {
    if name == STANDARD_INPUT && rt.stdin().is_terminal() {
        let _ = rt.stderr().write_all(WAITS);
    }
}
