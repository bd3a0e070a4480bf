//! Rows that serve a session.

use super::devices::{Calls, Devices, Ending};
use crate::cut::Cut;
use crate::server::{TestHub, new_hub};
use crate::spelling::{add_answer, add_quoted, version_number};
use crate::text::{bytes, number, split};
use anyhow::Result;
use resp_io::device::MemorySink;
use resp_value::limits::Limits;
use resp_wire::ServeError;
use resp_wire::serve::{Served, serve};
use std::alloc::{AllocError, Global};

/// Serves a session over a reader of this text, and returns the number of reads.
fn serve_once(
    devices: Devices,
    cut: Cut,
    hub: &mut TestHub,
    id: u64,
    text: &[u8],
    writer: &mut MemorySink,
) -> (Result<Served, ServeError>, u64) {
    let mut reader = devices.reader(text, cut);
    let answer = serve(&mut reader, writer, hub, id, devices.turns);
    (answer, reader.calls())
}

/// Opens a session and prints its id.
pub(crate) fn open(hub: &mut TestHub, said: &mut String) -> Result<()> {
    add_answer(said, "session ", "", hub.open())?;
    Ok(())
}

/// Serves a session, and prints the bytes written and the result.
pub(crate) fn serve_session(
    alloc: Global,
    devices: Devices,
    hub: &mut TestHub,
    given: &str,
    cut: Cut,
    calls: &mut Calls,
    said: &mut String,
) -> Result<()> {
    let (id, text) = split(given);
    let id = number(id)?;
    let text = bytes(alloc, text)?;
    let mut writer = devices.writer(alloc)?;
    let (answer, reads) = serve_once(devices, cut, hub, id, text.as_slice(), &mut writer);
    calls.reads = reads;
    calls.writes = writer.calls();
    add_quoted(said, "wrote ", writer.bytes())?;
    add_end(said, answer)?;
    said.push_str("\n")?;
    Ok(())
}

/// Prints the version of a session, and the bytes that wait to be written to its client.
pub(crate) fn say_session(hub: &TestHub, id: &str, said: &mut String) -> Result<()> {
    let id = number(id)?;
    match (hub.version(id), hub.out(id)) {
        (Ok(version), Ok(out)) => {
            write!(said, "version {} ", version_number(version))?;
            add_quoted(said, "", out)?;
        }
        _ => said.push_str("NoSession\n")?,
    }
    Ok(())
}

/// Serves session 1 of a new hub, and prints the result.
pub(crate) fn serve_one(
    alloc: Global,
    devices: Devices,
    text: &[u8],
    said: &mut String,
) -> Result<()> {
    let mut hub = new_hub(alloc, Limits::standard());
    let id = hub.open()?;
    let mut writer = devices.writer(alloc)?;
    let (answer, reads) = serve_once(devices, Cut::Whole, &mut hub, id, text, &mut writer);
    let writes = writer.calls();
    let ending = Ending {
        written: writer.bytes(),
        waits: hub.out(id).unwrap_or(b""),
        calls: Calls { reads, writes },
        turns: devices.turns,
    };
    say_shortly(said, answer, ending)?;
    Ok(())
}

fn add_end(said: &mut String, answer: Result<Served, ServeError>) -> Result<(), AllocError> {
    match answer {
        Ok(served) => write!(said, "{served:?}"),
        Err(error) => write!(said, "{error:?}"),
    }
}

/// Prints on one line the result, the bytes written, the bytes that still wait to be written, and
/// whether a turn is left.
fn say_shortly(
    said: &mut String,
    answer: Result<Served, ServeError>,
    ending: Ending<'_>,
) -> Result<(), AllocError> {
    add_end(said, answer)?;
    ending.add_texts(said)?;
    ending.add_turns(said)
}
