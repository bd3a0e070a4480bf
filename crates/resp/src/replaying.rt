//! `resp tap --replay`, which prints the traffic in a capture.

use crate::failures::{Faults, WatchedInput};
use crate::listening::{filter_of, tables_of, tells_time};
use crate::opening::{open_file, tell_waiting};
use resp_cli_args::options::STANDARD_INPUT;
use resp_cli_args::tapping::Tapping;
use resp_cli_args::tool_error::ToolError;
use resp_cli_args::traffic::Captured;
use resp_cli_args::words::stop;
use resp_io::device::{Device, Sink};
use resp_io::live::LiveSink;
use resp_tap::Filter;
use resp_tap_net::{Replay, ReplayError, ReplaySettings};
use std::alloc::{AllocError, Global};
use std::io::Read;

/// The status if the file is not a capture, or is cut off.
const WRONG_CAPTURE: u8 = 1;

/// Returns how the capture is printed.
fn settings_of(tapping: &Tapping<'_>, captured: &Captured<'_>, is_slow: bool) -> ReplaySettings {
    ReplaySettings {
        limits: tapping.limits,
        tells_time: tells_time(tapping, is_slow),
        tells_date: tapping.tells_date,
        reads_lines: !tapping.refuses_lines,
        shows_passwords: tapping.shows_passwords,
        shown: tapping.shown,
        json: tapping.style.json,
        tables: tables_of(tapping.stats),
        port: port_of(captured.port),
    }
}

/// Returns the port of the server, or `None` for 0.
fn port_of(port: u64) -> Option<u16> {
    match u16::try_from(port) {
        Ok(0) | Err(_) => None,
        Ok(port) => Some(port),
    }
}

/// Prints the traffic in a capture, and returns the status.
pub(crate) fn run_replay<W: LiveSink>(
    rt: &HostRuntime,
    tapping: &Tapping<'_>,
    captured: &Captured<'_>,
    slower: Option<u64>,
    writer: &mut W,
    faults: &mut Faults<'_>,
) -> Result<u8, AllocError> {
    let alloc = rt.alloc();
    let filter = filter_of(alloc, &tapping.filter, slower)?;
    let settings = settings_of(tapping, captured, slower.is_some());
    tell_waiting(rt, captured.file);
    if captured.file == STANDARD_INPUT {
        return replay(alloc, rt.stdin(), settings, filter, writer, faults);
    }
    match open_file(rt, captured.file) {
        Ok(file) => replay(alloc, file, settings, filter, writer, faults),
        Err(error) => faults.refuse_opening(alloc, captured.file, &error),
    }
}

/// Prints the traffic in a capture that is read from a stream, and returns the status.
fn replay<R: Read + Drop, W: LiveSink>(
    alloc: Global,
    stream: R,
    settings: ReplaySettings,
    filter: Filter,
    writer: &mut W,
    faults: &mut Faults<'_>,
) -> Result<u8, AllocError> {
    let mut reader = Device::new(WatchedInput::new(stream, faults.failures));
    let Ok(mut replay) = Replay::new(alloc, settings, filter) else {
        return Err(AllocError);
    };
    let ended = replay.run(&mut reader, writer);
    let fragments = replay.fragments();
    drop(replay);
    status_of(alloc, ended, fragments, faults)
}

/// Reports how a replay has ended, and returns the status.
fn status_of(
    alloc: Global,
    ended: Result<(), ReplayError>,
    fragments: u64,
    faults: &mut Faults<'_>,
) -> Result<u8, AllocError> {
    if fragments > 0 {
        let line = format!(in alloc; "fragments of packets that are not read: {fragments}\n")?;
        let _ = faults.lines.write(line.as_str().as_bytes());
    }
    match ended {
        Ok(()) => Ok(0),
        Err(ReplayError::Capture(error)) => {
            let line = format!(in alloc; "capture: {error}\n")?;
            let _ = faults.lines.write(line.as_str().as_bytes());
            Ok(WRONG_CAPTURE)
        }
        Err(ReplayError::Read) => Ok(stop(&ToolError::Read, &mut faults.lines)),
        Err(ReplayError::Write) => Ok(stop(&ToolError::Write, &mut faults.lines)),
        Err(ReplayError::OutOfMemory) => Err(AllocError),
    }
}
