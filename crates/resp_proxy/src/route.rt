//! Where the commands of a client go.

use resp_board::{ClientId, LineId};
use resp_value::version::Version;

/// A client of a board, and the line to which its commands go.
#[derive(Clone, Copy, Debug, PartialEq, Eq)]
pub(crate) struct Route {
    pub(crate) client: ClientId,
    pub(crate) line: LineId,
    /// The version of the replies over the line.
    pub(crate) version: Version,
    /// Whether the line is in the setting in which every client begins. The proxy itself replies to
    /// HELLO and SELECT there if they change nothing.
    pub(crate) is_first: bool,
}
