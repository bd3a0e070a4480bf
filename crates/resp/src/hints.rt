//! Hints for a user whose words are probably not the intended ones.

use resp_cli_args::asking::Asking;
use resp_cli_args::server_address::ServerAddress;
use resp_commands::entry;
use resp_io::device::{DeviceFault, Sink};
use resp_print::text::write_text;
use std::fs::metadata;

/// What is probably missing from the words of `ask`.
#[derive(Clone, Copy)]
enum Lack<'a> {
    /// The address of the server: the name of a command is in its place.
    Server(&'a str),
    /// A colon between the host and the port.
    Colon { host: &'a str, port: &'a str },
}

/// Writes below the line of an error what is probably missing from the words of `ask`, if they look
/// incomplete.
pub(crate) fn write_hint<F: Sink>(asking: &Asking<'_>, faults: &mut F) -> Result<(), DeviceFault> {
    match lack_of(asking) {
        None => Ok(()),
        Some(Lack::Server(name)) => {
            write_text(
                faults,
                b"  was SERVER forgotten? it comes before the command: resp ask SERVER ",
            )?;
            write_text(faults, name.as_bytes())?;
            write_text(faults, b" ..\n")
        }
        Some(Lack::Colon { host, port }) => {
            write_text(
                faults,
                b"  a port follows its host after a colon: resp ask ",
            )?;
            write_text(faults, host.as_bytes())?;
            write_text(faults, b":")?;
            write_text(faults, port.as_bytes())?;
            write_text(faults, b" ..\n")
        }
    }
}

/// Writes below the line of an error what is at the path of a server, if that is no socket.
pub(crate) fn write_path_hint<F: Sink>(
    rt: &HostRuntime,
    server: &ServerAddress<'_>,
    faults: &mut F,
) -> Result<(), DeviceFault> {
    let ServerAddress::Path(path) = *server else {
        return Ok(());
    };
    match metadata(rt, path) {
        Ok(found) if found.is_dir() => {
            write_text(faults, b"  this path is a directory, not a Unix socket\n")
        }
        Ok(found) if found.is_file() => {
            write_text(faults, b"  this path is a file, not a Unix socket\n")
        }
        _ => Ok(()),
    }
}

/// Writes below the line of a file that does not exist which commands connect to a server, if the name of
/// the file looks like the address of one.
pub(crate) fn write_file_hint<F: Sink>(name: &str, faults: &mut F) -> Result<(), DeviceFault> {
    let port = match name.rsplit_once(':') {
        Some((_, port)) => port,
        None => name,
    };
    if !is_port(port) {
        return Ok(());
    }
    write_text(
        faults,
        b"  this command reads a file or standard input; ask and tap connect to a server\n",
    )
}

/// Returns what is probably missing from the words of `ask`, or `None` if they look complete.
fn lack_of<'a>(asking: &Asking<'a>) -> Option<Lack<'a>> {
    let server = asking.server_text;
    if entry(server.as_bytes()).is_some() {
        return Some(Lack::Server(server));
    }
    let first = asking.words.first()?;
    if is_port(first) && is_host_alone(server) {
        return Some(Lack::Colon {
            host: server,
            port: first,
        });
    }
    None
}

/// Returns whether a word is the number of a port.
fn is_port(word: &str) -> bool {
    matches!(word.parse::<u16>(), Ok(1..))
}

/// Returns whether the address of a server is that of a host without a port.
fn is_host_alone(server: &str) -> bool {
    !server.contains(':') && !server.contains('/') && server.parse::<u16>().is_err()
}
