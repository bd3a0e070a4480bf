//! Writing a text.

ghost use Rattle.std.specs.Prelude.{◌≡◌, ◌<◌, ◌≤◌, drop, length, take, IfErr, OnOk, OnErr};
ghost use Rattle.resp_io.specs.Devices.{Appends, failures_after};
ghost use Rattle.resp_io.specs.Turns.{Halts, Spends, has_failed, stopped_by};

use crate::device::Sink;
use crate::halt::Halt;

/// The result of writing a text.
#[derive(Clone, Copy, Debug, PartialEq, Eq)]
pub struct Written {
    /// The number of bytes written, from the beginning of the text.
    pub count: usize,
    /// Why writing stopped, if not all bytes were written.
    pub end: Result<(), Halt>,
}

/// Writes a text, with as many writes as that needs.
pub fn write_text<W: Sink>(writer: &mut W, text: &[u8], turns: &mut u64) -> Written
    ensures within { result.count ≤ length text.now }
    ensures appended { Appends (W.written writer.old) (W.written writer.new)
        (take result.count text.now) }
    ensures whole { OnOk result.end (result.count ≡ length text.now) }
    ensures part { OnErr result.end (result.count < length text.now) }
    ensures onward { OnOk result.end (0 < length text.now → turns.new < turns.old) }
    ensures failures { W.failures writer.new ≡
        failures_after (stopped_by has_failed result.end) (W.failures writer.old) }
    ensures turns { Spends (W.calls writer.old) (W.calls writer.new) turns.old turns.new }
    ensures halted { IfErr result.end (Halts (W.failures writer.old) (W.failures writer.new)
        turns.new) }
{
    let mut count = 0;
    while count < text.len() {
        if *turns == 0 {
            return Written {
                count,
                end: Err(Halt::NoTurn),
            };
        }
        *turns -= 1;
        match writer.write(beyond(text, count)) {
            Ok(0) | Err(_) => {
                return Written {
                    count,
                    end: Err(Halt::Failed),
                };
            }
            Ok(more) => count += more,
        }
    }
    Written { count, end: Ok(()) }
}

/// Returns the bytes from this index on.
#[inline]
fn beyond(piece: &[u8], from: usize) -> &[u8]
    requires { from ≤ length piece.now }
    ensures { result.now ≡ drop from piece.now }
{
    &piece[from..]
}
