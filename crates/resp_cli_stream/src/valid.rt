//! The bytes that a valid value can have at a place.

ghost use Rattle.std.specs.Prelude.{◌≡◌, ◌↔◌, true, IfOk};
ghost use Rattle.resp_print.specs.Written.{WritesText};
ghost use Rattle.resp_cli_stream.specs.Valid.{AreNext, lead_text, name_text, names_text, next_text};
ghost use Rattle.resp_value.specs.Rules.{WithinTotal, rules_under};
ghost use Rattle.resp_value.specs.Spellings.{IsViable};

use resp_io::device::{DeviceFault, Sink};
use resp_print::text::{write_quoted, write_text};
use resp_scan::nobody::Nobody;
use resp_scan::scanner::Scanner;
use resp_value::limits::Limits;
use resp_value::version::Version;
use std::alloc::{AllocError, Global};

/// If more bytes than this are valid, those that are not valid are named.
const MOST_NAMED: usize = 128;

/// The bytes that a valid value can have at a place.
#[derive(Drop)]
pub(crate) struct NextBytes {
    // Whether the value can go on with `bytes`. If not, it can go on with all others.
    goes_on: bool,
    bytes: Vec<u8>,
}

impl NextBytes {
    /// Finds the bytes that a valid value can have after a front.
    pub(crate) fn after(
        alloc: Global,
        front: &[u8],
        version: Version,
        limits: &Limits,
    ) -> Result<NextBytes, AllocError>
        ensures { IfOk result (λ next. AreNext (rules_under version limits.now) front.now
            next.goes_on next.bytes.items) }
    {
        let bytes = next_bytes(alloc, front, true, version, limits)?;
        if bytes.len() <= MOST_NAMED {
            return Ok(NextBytes {
                goes_on: true,
                bytes,
            });
        }
        let bytes = next_bytes(alloc, front, false, version, limits)?;
        Ok(NextBytes {
            goes_on: false,
            bytes,
        })
    }

    /// Writes which bytes are valid.
    pub(crate) fn write<F: Sink>(&self, faults: &mut F) -> Result<(), DeviceFault>
        ensures { WritesText (F.written faults.old) (F.written faults.new) (F.failures faults.old)
            (F.failures faults.new) result (next_text self.now.goes_on self.now.bytes.items) }
    {
        write_text(faults, lead(self.goes_on))?;
        write_names(self.bytes.as_slice(), faults)
    }
}

/// Returns the words before the names of the bytes.
fn lead(goes_on: bool) -> &'static [u8]
    ensures { result.now ≡ lead_text goes_on }
{
    if goes_on {
        b"valid here:"
    } else {
        b"valid here: any byte but"
    }
}

/// Writes each byte after a space.
fn write_names<F: Sink>(bytes: &[u8], faults: &mut F) -> Result<(), DeviceFault>
    ensures { WritesText (F.written faults.old) (F.written faults.new) (F.failures faults.old)
        (F.failures faults.new) result (names_text bytes.now) }
{
    let mut rest = bytes;
    while let Some((byte, beyond)) = rest.split_first() {
        write_name(*byte, faults)?;
        rest = beyond;
    }
    Ok(())
}

/// Writes a byte after a space.
fn write_name<F: Sink>(byte: u8, faults: &mut F) -> Result<(), DeviceFault>
    ensures { WritesText (F.written faults.old) (F.written faults.new) (F.failures faults.old)
        (F.failures faults.new) result (name_text byte) }
{
    write_text(faults, b" ")?;
    write_quoted(faults, &[byte])
}

/// Returns whether a valid value begins with the text.
fn begins_value(text: &[u8], version: Version, limits: &Limits) -> bool
    ensures { (result ≡ true) ↔ IsViable (rules_under version limits.now) WithinTotal text.now }
{
    let mut scanner = Scanner::new(version, limits);
    match scanner.scan(text, &mut Nobody::<0>) {
        Ok(scanned) => scanned.used == text.len(),
        Err(_) => false,
    }
}

/// Returns the bytes that a valid value can have after a front, or those that it cannot have.
fn next_bytes(
    alloc: Global,
    front: &[u8],
    goes_on: bool,
    version: Version,
    limits: &Limits,
) -> Result<Vec<u8>, AllocError>
    ensures { IfOk result (λ bytes.
        AreNext (rules_under version limits.now) front.now goes_on bytes.items) }
{
    let mut text = Vec::from_slice(alloc, front)?;
    text.push(0)?;
    let last = front.len();
    let mut bytes = Vec::new(alloc);
    for byte in 0..256_u16 {
        text[last] = byte as u8;
        if begins_value(text.as_slice(), version, limits) == goes_on {
            bytes.push(byte as u8)?;
        }
    }
    Ok(bytes)
}
