//! Removing a place from the queue.

ghost use Rattle.std.specs.Prelude.{◌≡◌, ◌+◌, ◌≤◌, ◌<◌, ◌==◌, drop, take};
ghost use Rattle.std.specs.VecDeque.{deque_len, deque_capacity};
ghost use Rattle.resp_schedule.specs.Places.{without};

use std::collections::VecDeque;

/// Removes a place from the queue, and returns how many of its first `due` places are left. The
/// order of the others is kept.
pub(crate) fn remove(queue: &mut VecDeque<usize>, due: usize, place: usize) -> usize
    requires { due ≤ deque_len queue.old }
    ensures queue { queue.new.items ≡ without place queue.old.items }
    ensures due { take result queue.new.items ≡ without place (take due queue.old.items) }
    ensures within { result ≤ deque_len queue.new }
    ensures capacity { deque_capacity queue.new ≡ deque_capacity queue.old }
{
    let mut left = 0;
    for index in 0..queue.len() {
        let Some(other) = queue.pop_front() else {
            return left;
        };
        if other != place {
            queue.push_back_reserved(other);
            if index < due {
                left += 1;
            }
        }
    }
    left
}
