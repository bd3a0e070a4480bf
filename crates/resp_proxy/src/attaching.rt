//! Connections to the server that continue a line.

ghost use Rattle.std.specs.Prelude.{◌≡◌, true, IfErr, [], OnErr, OnOk};
ghost use Rattle.resp_proxy.specs.Attaching.{MayAttach, RefusesAttach};
ghost use Rattle.resp_proxy.specs.Opened.{hello_in, situation_in};
ghost use Rattle.resp_proxy.specs.Proxies.{board_in};
ghost use Rattle.resp_proxy.specs.ServerLines.{HasBegunBy, expected_of, hello_on, is_attached, line_terms, prober_of, with_situation};

use crate::error::AttachError;
use crate::opening::Opening;
use crate::proxy::Proxy;
use crate::server_line::ServerLine;

impl Proxy {
    /// Lets a connection to the server continue a line, in whose setting the server has accepted it.
    /// The commands that wait on the line are sent over it, and the bytes that the server sends over
    /// it after the replies of the opening are the replies to them.
    ///
    /// # Errors
    ///
    /// An [`AttachError`] if the server has not accepted the connection in the setting of the line,
    /// or a reply is missing to a command that was sent over the last connection. Nothing changes.
    pub fn attach(&self, line: &mut ServerLine, opening: Opening) -> Result<(), AttachError>
        ensures attached { OnOk result (is_attached line.new ≡ true) }
        // The server has accepted the connection in the setting of the line, and no command was
        // sent over another one.
        ensures accepted { OnOk result (MayAttach (board_in self.now) line.old opening) }
        ensures refused { IfErr result (RefusesAttach (board_in self.now) line.old opening) }
        ensures begun { OnOk result (HasBegunBy line.new []) }
        ensures hello { OnOk result (hello_on line.new ≡ hello_in opening) }
        ensures setting { OnOk result (line_terms line.new ≡
            with_situation (situation_in opening) (line_terms line.old)) }
        ensures unchanged { OnErr result (line.new ≡ line.old) }
        ensures same_prober { prober_of line.new ≡ prober_of line.old }
        ensures same_expected { expected_of line.new ≡ expected_of line.old }
    {
        let refusal = if !opening.is_accepted() {
            Some(AttachError::NotAccepted)
        } else if !opening.setting().is_same(&line.setting) {
            Some(AttachError::OtherSetting)
        } else if self.board.begun(line.id) > 0 {
            Some(AttachError::Waits)
        } else {
            None
        };
        if let Some(error) = refusal {
            drop(opening);
            return Err(error);
        }
        line.continue_over(opening);
        Ok(())
    }
}
