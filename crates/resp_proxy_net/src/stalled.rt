//! The connections that are read again once the server has accepted bytes.

ghost use Rattle.std.specs.Prelude.{◌≡◌};

use std::alloc::{AllocError, Global};
use std::collections::VecDeque;

/// The places of connections that were not read because too many bytes waited for the server. A place
/// is in the queue at most once.
#[derive(Drop)]
pub(crate) struct Stalled {
    queue: VecDeque<usize>,
    /// Whether each place is in the queue.
    is_queued: Vec<bool>,
}

impl Stalled {
    /// Returns a queue without places. Does not allocate.
    pub(crate) fn new(alloc: Global) -> Self {
        Stalled {
            queue: VecDeque::new(alloc),
            is_queued: Vec::new(alloc),
        }
    }

    /// Adds a place at the end of the queue, unless it is queued already.
    ///
    /// # Errors
    ///
    /// `AllocError` if an allocation fails. The place is not in the queue.
    pub(crate) fn add(&mut self, place: usize) -> Result<(), AllocError> {
        let length = place.checked_add(1).ok_or(AllocError)?;
        if self.is_queued.len() < length {
            self.is_queued.resize(length, false)?;
        }
        if !self.is_queued[place] {
            self.queue.push_back(place)?;
            self.is_queued[place] = true;
        }
        Ok(())
    }

    /// Removes the first place, and returns it.
    pub(crate) fn next(&mut self) -> Option<usize> {
        let place = self.queue.pop_front()?;
        if let Some(is_queued) = self.is_queued.get_mut(place) {
            *is_queued = false;
        }
        Some(place)
    }

    /// Returns whether no place is in the queue.
    pub(crate) fn is_empty(&self) -> bool {
        self.queue.is_empty()
    }
}
