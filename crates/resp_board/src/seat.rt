//! An open client.

use crate::desk::Desk;

/// An open client: its number and its desk.
#[derive(Drop)]
pub struct Seat {
    pub(crate) number: u64,
    pub(crate) desk: Desk,
}
