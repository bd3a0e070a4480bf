//! The settings of a proxy.

ghost use Rattle.std.specs.Prelude.{◌≡◌, ◌↔◌, false, true, IsTrue};
ghost use Rattle.resp_proxy.specs.Room.{HasRoom};

use crate::route::Route;
use resp_board::Board;
use resp_value::limits::Limits;

/// The limits of a proxy.
#[derive(Clone, Copy, Debug, PartialEq, Eq)]
pub struct Settings {
    /// The limits on commands and replies.
    pub limits: Limits,
    /// The maximum number of commands of one client that wait for replies. 0 lets no command pass.
    pub waiting: u32,
    /// No command of a client is taken while more than this number of bytes wait for the client.
    pub held: usize,
    /// No command is taken while more than this number of bytes wait for the server.
    pub unsent: usize,
    /// Whether a line of words is a command too, such as `PING` and LF.
    pub lines: bool,
    /// Whether the proxy itself replies to PING.
    pub local_ping: bool,
}

impl Settings {
    /// Returns the default settings: the standard limits, 1,024 commands of a client, 1 MiB of
    /// replies for a client, and 1 MiB of commands for the server. Lines are commands, and PING is
    /// sent to the server.
    pub fn standard() -> Settings
        ensures waiting { result.waiting ≡ 1024 }
        ensures held { result.held ≡ 1048576 }
        ensures unsent { result.unsent ≡ 1048576 }
        ensures lines { result.lines ≡ true }
        ensures no_ping { result.local_ping ≡ false }
    {
        Settings {
            limits: Limits::standard(),
            waiting: 1_024,
            held: 1_048_576,
            unsent: 1_048_576,
            lines: true,
            local_ping: false,
        }
    }

    /// Returns whether a command of this client may be taken now.
    pub(crate) fn has_room(&self, board: &Board, route: Route) -> bool
        ensures { IsTrue result ↔ HasRoom self.now board.now route }
    {
        let Some(count) = board.waiting_of(route.client) else {
            return false;
        };
        let Some(text) = board.to_client(route.client) else {
            return false;
        };
        count < self.waiting as u64
            && text.len() <= self.held
            && board.to_server(route.line).len() <= self.unsent
    }
}
