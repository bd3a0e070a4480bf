//! Reading a piece.

ghost use Rattle.std.specs.Prelude.{◌≡◌, ◌<◌, ◌≤◌, length, take, true, IfOk, IfErr, OnOk};
ghost use Rattle.resp_io.specs.Devices.{failures_after};
ghost use Rattle.resp_io.specs.Pieces.{GivesPiece, ReadsNothing};
ghost use Rattle.resp_io.specs.Turns.{Halts, Spends, TellsEnd, has_failed, stopped_by};

use crate::device::Source;
use crate::halt::Halt;

/// Reads some bytes with one read. The number is 0 only at the end, or if there is no room.
pub fn read_some<R: Source>(reader: &mut R, into: &mut [u8], turns: &mut u64) -> Result<usize, Halt>
    ensures within { IfOk result (λ count. count ≤ length into.new) }
    ensures piece { IfOk result (λ count. 0 < count → GivesPiece (length into.old) R.remaining
        R.calls R.failures reader.old reader.new (take count into.new)) }
    ensures empty { IfOk result (λ count. count ≡ 0 →
        ReadsNothing R.remaining R.calls reader.old reader.new true) }
    ensures end { 0 < length into.old → IfOk result (λ count. count ≡ 0 →
        TellsEnd (R.remaining reader.old) (R.remaining reader.new)) }
    ensures unread { IfErr result (λ halt.
        ReadsNothing R.remaining R.calls reader.old reader.new (has_failed halt)) }
    ensures failures { R.failures reader.new ≡
        failures_after (stopped_by has_failed result) (R.failures reader.old) }
    ensures turns { Spends (R.calls reader.old) (R.calls reader.new) turns.old turns.new }
    ensures onward { OnOk result (turns.new < turns.old) }
    ensures halted { IfErr result (Halts (R.failures reader.old) (R.failures reader.new)
        turns.new) }
{
    if *turns == 0 {
        return Err(Halt::NoTurn);
    }
    *turns -= 1;
    match reader.read(into) {
        Ok(count) => Ok(count),
        Err(_) => Err(Halt::Failed),
    }
}
