//! Which lines are printed, and in which form.

use resp_tap::Filter;

/// Which lines are printed, and whether they are JSON.
#[derive(Drop)]
pub(crate) struct ShownLines {
    pub(crate) filter: Filter,
    pub(crate) json: bool,
}
