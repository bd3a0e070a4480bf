//! The open connections of a capture.

use crate::replay_view::ReplayView;
use crate::replayed::Replayed;
use resp_capture::{Endpoint, Segment};
use resp_io::device::Sink;
use std::alloc::{AllocError, Global};
use std::collections::BTreeMap;

/// The open connections of a capture, each with the number of its client. The time to find one grows
/// with the logarithm of their number.
#[derive(Drop)]
pub(crate) struct OpenConnections {
    /// The connections by number, which is the order in which they were opened.
    by_number: BTreeMap<u64, Replayed>,
    /// The numbers of the connections, by client and server.
    numbers: BTreeMap<(Endpoint, Endpoint), u64>,
}

impl OpenConnections {
    /// Returns no connection. It allocates nothing.
    pub(crate) fn new(alloc: Global) -> OpenConnections {
        OpenConnections {
            by_number: BTreeMap::new(alloc),
            numbers: BTreeMap::new(alloc),
        }
    }

    /// Returns the number of the connection of a segment, if it is open.
    pub(crate) fn find(&self, segment: &Segment<'_>) -> Option<u64> {
        let (from, to) = (segment.from, segment.to);
        match self.numbers.get(&(from, to)) {
            Some(number) => Some(*number),
            None => self.numbers.get(&(to, from)).copied(),
        }
    }

    /// Returns the connection of this number.
    pub(crate) fn get(&self, number: u64) -> Option<&Replayed> {
        self.by_number.get(&number)
    }

    /// Returns the connection of this number.
    pub(crate) fn get_mut(&mut self, number: u64) -> Option<&mut Replayed> {
        self.by_number.get_mut(&number)
    }

    /// Adds a connection, whose client and server have no other open connection.
    ///
    /// # Errors
    ///
    /// `AllocError` if an allocation fails. The connection is not added.
    pub(crate) fn add(&mut self, replayed: Replayed) -> Result<(), AllocError> {
        let (number, ends) = (replayed.number(), replayed.ends());
        if self.numbers.insert(ends, number).is_err() {
            drop(replayed);
            return Err(AllocError);
        }
        if self.put(number, replayed) {
            return Ok(());
        }
        let _ = self.numbers.remove(&ends);
        Err(AllocError)
    }

    /// Adds the connection with this number. Returns false if an allocation fails.
    fn put(&mut self, number: u64, replayed: Replayed) -> bool {
        let inserted = self.by_number.insert(number, replayed);
        let is_put = inserted.is_ok();
        drop(inserted);
        is_put
    }

    /// Removes the connection of this number, and returns it.
    pub(crate) fn remove(&mut self, number: u64) -> Option<Replayed> {
        let replayed = self.by_number.remove(&number)?;
        let _ = self.numbers.remove(&replayed.ends());
        Some(replayed)
    }

    /// Prints how many bytes of each connection are missing at the end of the capture, in the order
    /// in which the connections were opened.
    ///
    /// # Errors
    ///
    /// `AllocError` if an allocation fails.
    pub(crate) fn finish<W: Sink>(
        &mut self,
        view: &mut ReplayView,
        out: &mut W,
    ) -> Result<(), AllocError> {
        for replayed in self.by_number.values_mut() {
            replayed.finish(view, out)?;
        }
        Ok(())
    }
}
