//! Reads the script of `loop` from the input. If a script is too long, only the part that decides
//! the error is kept.

use resp_cli_args::tool_error::ToolError;
use resp_cli_loop::script::MOST_BYTES;
use resp_io::device::Source;
use std::alloc::Global;

/// The greatest number of reads of the input, the same as for a stream.
const MOST_READS: u64 = 4_000_000_000;

/// The first word of the line that names the number of clients.
const CLIENTS: &[u8] = b"clients";

/// A search for a line with the first word `clients`, in pieces of any size.
#[derive(Drop)]
struct ClientsSearch {
    /// The number of bytes of the word that the line has so far, or `None` if the line begins with
    /// another word.
    matched: Option<usize>,
    /// Whether such a line was found.
    is_found: bool,
}

impl ClientsSearch {
    /// Searches a piece.
    fn look_in(&mut self, piece: &[u8]) {
        for byte in piece {
            let is_end = *byte == b' ' || *byte == b'\n';
            if is_end && self.is_at_word() {
                self.is_found = true;
            }
            self.matched = match self.matched {
                _ if *byte == b'\n' => Some(0),
                Some(count) if CLIENTS.get(count) == Some(byte) => Some(count + 1),
                _ => None,
            };
        }
    }

    /// Returns whether the line so far is the word.
    fn is_at_word(&self) -> bool {
        self.matched == Some(CLIENTS.len())
    }
}

/// Returns the bytes of the input. If a script is too long, returns its first bytes, with a line
/// that names clients if the input has such a line. This is enough to report the same first bad
/// line as the whole script.
///
/// # Errors
///
/// A failed read, too many reads, or an allocation that fails.
pub(crate) fn read_input<R: Source>(alloc: Global, reader: &mut R) -> Result<Vec<u8>, ToolError> {
    let mut bytes = Vec::new(alloc);
    let mut search = ClientsSearch {
        matched: Some(0),
        is_found: false,
    };
    let mut piece = [0; 4_096];
    for _ in 0..MOST_READS {
        let count = match reader.read(&mut piece) {
            Ok(count) => count,
            Err(_) => return Err(ToolError::Read),
        };
        search.look_in(&piece[..count]);
        if bytes.len() <= MOST_BYTES {
            bytes.extend_from_slice(&piece[..count])?;
        }
        let is_long = bytes.len() > MOST_BYTES;
        if count == 0 || is_long && search.is_found {
            if is_long {
                // The last line is cut, and it is a bad line whatever it contains.
                bytes.extend_from_slice(b".\n")?;
                if search.is_found || search.is_at_word() {
                    bytes.extend_from_slice(CLIENTS)?;
                }
            }
            return Ok(bytes);
        }
    }
    Err(ToolError::TooManyTurns)
}
