//! Answers that arrive before their turn.

ghost use Rattle.std.specs.Prelude.{◌≡◌, ◌++◌, ◌∷◌, ◌+◌, ◌-◌, ◌<◌, ◌≤◌, List, ℕ, None, Some, length, drop, replicate, IfNone, IfOk, IfSome, OnErr, OnOk, slice_set};
ghost use Rattle.std.specs.List.{concat};
ghost use Rattle.std.specs.VecDeque.{deque_capacity, deque_len};
ghost use Rattle.resp_board.specs.Answers.{BeginsMissing, answers_of, front_answers};

use crate::text::Text;
use std::alloc::{AllocError, Global};
use std::collections::VecDeque;

/// A reply that arrived before its turn.
#[derive(Drop)]
pub(crate) struct Early {
    pub(crate) bytes: Vec<u8>,
}

/// Adds the replies after the first one to a text, up to the first missing one, and returns how many
/// they are.
pub(crate) fn append_ready(
    early: &VecDeque<Option<Early>>,
    out: &mut Text,
) -> Result<usize, AllocError>
    ensures count { IfOk result (λ count.
        count ≡ length (front_answers (drop 1 (answers_of early.now.items)))) }
    ensures added { OnOk result (out.new ≡
        out.old ++ concat (front_answers (drop 1 (answers_of early.now.items)))) }
    ensures front { OnErr result ((more : List ℕ) × (out.new ≡ out.old ++ more)) }
{
    let mut count = 0;
    while let Some(text) = answer_at(early, count + 1) {
        out.append(text)?;
        count += 1;
    }
    Ok(count)
}

/// Returns the reply at a place, or `None` if it is missing.
fn answer_at(early: &VecDeque<Option<Early>>, place: usize) -> Option<&[u8]>
    ensures there { IfSome result (λ text. drop place (answers_of early.now.items) ≡
        Some text.now ∷ drop (place + 1) (answers_of early.now.items)) }
    ensures within { IfSome result (λ text. place < length early.now.items) }
    ensures missing { IfNone result (BeginsMissing (drop place (answers_of early.now.items))) }
{
    match early.get(place) {
        Some(Some(answer)) => Some(answer.bytes.as_slice()),
        Some(None) => None,
        None => None,
    }
}

/// Removes the first `count` replies, of which there may be fewer.
pub(crate) fn drop_front(early: &mut VecDeque<Option<Early>>, count: usize)
    ensures { early.new.items ≡ drop count early.old.items }
{
    let mut rest = count;
    while rest > 0 && early.pop_front().is_some() {
        rest -= 1;
    }
}

/// Puts a reply at a place. The replies before it that are not there yet are missing.
pub(crate) fn put(
    alloc: Global,
    early: &mut VecDeque<Option<Early>>,
    place: usize,
    text: &[u8],
) -> Result<(), AllocError>
    requires { place < 18446744073709551615 }
    ensures put { OnOk result (answers_of early.new.items ≡ slice_set (answers_of early.old.items ++
        replicate (place + 1 - length early.old.items) None) place (Some text.now)) }
    ensures unchanged { OnErr result (early.new.items ≡ early.old.items) }
{
    let missing = (place + 1).saturating_sub(early.len());
    early.reserve(missing)?;
    let bytes = Vec::from_slice(alloc, text)?;
    add_missing(early, missing);
    if let Some(answer) = early.get_mut(place) {
        *answer = Some(Early { bytes });
    }
    Ok(())
}

/// Adds replies that are missing. There is room for them.
fn add_missing(early: &mut VecDeque<Option<Early>>, count: usize)
    requires { deque_len early.old + count ≤ deque_capacity early.old }
    ensures { early.new.items ≡ early.old.items ++ replicate count None }
{
    let mut rest = count;
    while rest > 0 {
        early.push_back_reserved(None);
        rest -= 1;
    }
}
