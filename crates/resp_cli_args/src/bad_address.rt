//! The lines about a text that is no address.

use resp_io::device::{DeviceFault, Sink};
use resp_print::text::write_text;
use std::net::Ipv6Addr;

/// What is said about an address that a text is not.
#[derive(Clone, Copy)]
pub(crate) struct Wanted {
    /// How the address is written with a port.
    form: &'static [u8],
    /// A port, after its colon.
    port: &'static [u8],
    /// The ports.
    ports: &'static [u8],
    /// All forms of the address.
    forms: &'static [u8],
}

/// The address of a listener.
pub(crate) const LISTENER: Wanted = Wanted {
    form: b"IP:PORT",
    port: b":6380",
    ports: b"a port is a number from 1 to 65535, or 0 for one that the system chooses",
    forms: b"expected an IP address and a port, such as 127.0.0.1:6380, a port of this machine, such as 6380 or localhost:6380, or the path of a Unix socket, such as /run/resp/resp.sock",
};

/// The address of a server.
pub(crate) const SERVER: Wanted = Wanted {
    form: b"HOST:PORT",
    port: b":6379",
    ports: b"a port is a number from 1 to 65535",
    forms: b"expected the name or the IP address of a host and a port, such as redis.internal:6379, 127.0.0.1:6379 or [::1]:6379, a host alone, a port of this machine, such as 6379, or the path of a Unix socket, such as /run/redis/redis.sock",
};

/// Writes what is wrong with the address given for the argument `name`.
pub(crate) fn write_bad_address<F: Sink>(
    text: &str,
    name: &str,
    wanted: Wanted,
    faults: &mut F,
) -> Result<(), DeviceFault> {
    write_text(faults, b"error: invalid value '")?;
    write_text(faults, text.as_bytes())?;
    write_text(faults, b"' for '<")?;
    write_text(faults, name.as_bytes())?;
    write_text(faults, b">': ")?;
    write_cause(text, wanted, faults)?;
    write_text(faults, b"\n\nFor more information, try '--help'.\n")
}

/// Writes what to write in place of a text, or all forms of an address if the text is like none of them.
fn write_cause<F: Sink>(text: &str, wanted: Wanted, faults: &mut F) -> Result<(), DeviceFault> {
    if let Some((scheme, _)) = text.split_once("://") {
        write_text(faults, b"write ")?;
        write_text(faults, wanted.form)?;
        write_text(faults, b", without ")?;
        write_text(faults, scheme.as_bytes())?;
        return write_text(faults, b"://");
    }
    if text.contains('/') {
        write_text(
            faults,
            b"the path of a Unix socket begins with / or ./, such as ./",
        )?;
        return write_text(faults, text.as_bytes());
    }
    if text.starts_with('[') && text.ends_with(']') {
        write_text(faults, b"a port is missing, such as ")?;
        write_text(faults, text.as_bytes())?;
        return write_text(faults, wanted.port);
    }
    if text.parse::<Ipv6Addr>().is_ok() {
        write_text(
            faults,
            b"an IPv6 address has brackets and a port, such as [",
        )?;
        write_text(faults, text.as_bytes())?;
        write_text(faults, b"]")?;
        return write_text(faults, wanted.port);
    }
    if has_great_port(text) {
        return write_text(faults, wanted.ports);
    }
    write_text(faults, wanted.forms)
}

/// Returns whether a text is a number that is no port, or ends in one after a colon.
fn has_great_port(text: &str) -> bool {
    let port = match text.rsplit_once(':') {
        Some((_, port)) => port,
        None => text,
    };
    !port.is_empty()
        && port.as_bytes().iter().all(|byte| byte.is_ascii_digit())
        && port.parse::<u16>().is_err()
}
