//! Laws of the errors of the encoder. Each is the contract of a function that calls laws of the
//! grammar.

ghost use Rattle.resp_encode.specs.Laws.{WhatWasReadIsRefusedForTotalOrMemory, WhatWasReadCountedIsRefusedForMemory};

use resp_value::laws as grammar;

/// A value that was read can be encoded. Under the rules by which it was read it has at most one
/// fault: its text may exceed the limit `total` (`total_or_memory`). If the limits forbid streamed
/// forms, it does not have this fault either (`memory_alone`). So [`crate::encode`] fails for it
/// only for that reason, or when out of memory.
pub fn what_was_read_can_be_encoded()
    ensures total_or_memory { WhatWasReadIsRefusedForTotalOrMemory }
    ensures memory_alone { WhatWasReadCountedIsRefusedForMemory }
{
    grammar::what_was_read_can_be_written();
}
