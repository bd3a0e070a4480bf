//! Which texts consist of lines.

ghost use Rattle.resp_cli_ask.specs.Lined.{TellsLines};

/// The text of a reply is printed as it is exactly if it consists of one or more lines. A line has
/// printable ASCII characters and tabs, and ends with LF or CR LF.
pub fn texts_of_lines()
    ensures { TellsLines }
{}
