//! Which commands the bytes that were sent begin.

ghost use Rattle.std.specs.Prelude.{◌+◌, ◌≤◌};
ghost use Rattle.resp_board.specs.Begun.{BeginsMore, total};

use std::collections::VecDeque;

/// Bytes were sent. If they are more than those that were left of a command, they begin the next
/// commands, of these lengths.
pub(crate) fn begin(unbegun: &mut VecDeque<usize>, left: &mut usize, count: usize)
    requires { count ≤ left.old + total unbegun.old.items }
    ensures { BeginsMore count unbegun.old.items left.old unbegun.new.items left.new }
{
    let mut rest = count;
    while rest > *left {
        let Some(length) = unbegun.pop_front() else {
            return;
        };
        rest -= *left;
        *left = length;
    }
    *left -= rest;
}
