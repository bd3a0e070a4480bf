//! The maximum number of clients at once of `serve`, `tap` and `proxy`.

use resp_cli_args::proxying::ProxyOptions;
use resp_net::descriptors::{Descriptors, MOST_CLIENTS, limit};
use std::io::Write;

/// The descriptors of `serve`: the standard streams, the listener, its poll, and a client that is
/// rejected.
pub const SERVE: Descriptors = Descriptors {
    fixed: 6,
    second: 0,
};

/// The descriptors of `tap`: those of `serve`, the terminal and its poll, the capture, and a spare one.
/// Each client has a connection to the server.
pub const TAP: Descriptors = Descriptors {
    fixed: 10,
    second: u32::MAX,
};

/// The descriptors of `proxy` without connections to the server: those of `serve`, reopened
/// standard output and standard error, each with a poll, and a spare one.
const PROXY: u32 = 11;

/// Returns the descriptors of `proxy`. Clients share some connections to the server, and some clients
/// have one of their own.
pub(crate) fn descriptors_of_proxy(options: &ProxyOptions) -> Descriptors {
    let lines = options.lines.min(MOST_CLIENTS as usize) as u32;
    Descriptors {
        fixed: PROXY + lines,
        second: options.own.min(MOST_CLIENTS as usize) as u32,
    }
}

/// Returns the maximum number of clients at once: the number that is given, or as many as the limit
/// of file descriptors allows. If this limit is too low for the given number, reports this on
/// standard error.
pub(crate) fn most_clients(
    rt: &HostRuntime,
    given: Option<usize>,
    descriptors: Descriptors,
) -> usize {
    let limit = limit();
    let Some(clients) = given else {
        return descriptors.most_clients(limit) as usize;
    };
    let needed = descriptors.for_clients(clients.min(MOST_CLIENTS as usize) as u32);
    if needed > limit {
        let line = format!(in rt.alloc();
            "{clients} clients need {needed} file descriptors, and the limit is {limit} (ulimit -n)\n"
        );
        if let Ok(line) = line {
            let _ = rt.stderr().write_all(line.as_str().as_bytes());
        }
    }
    clients
}
