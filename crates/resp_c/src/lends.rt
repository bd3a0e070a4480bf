//! Borrows the scanner in memory of the caller.

ghost use Rattle.std.specs.Prelude.{◌≡◌, Some};
ghost use Rattle.std.specs.Borrow.{sem};
ghost use denote.Follow.{follows};
ghost use Rattle.resp_c.specs.contracts.memory.RespScanner.{the_row};
ghost use Rattle.resp_c.specs.Lent.{with_scanner};
ghost use Rattle.resp_scan.specs.Machine.Tokens.{Place};
ghost use Rattle.resp_scan.specs.contracts.scanner.Scanner.{the_row as scanner_row};

use crate::memory::RespScanner;
use resp_scan::scanner::Scanner;

impl RespScanner {
    /// Returns the scanner. When the borrow ends, its changes are in the memory.
    pub(crate) fn scanner(&mut self) -> &mut Scanner
        requires { (held : Place) × (self.old.scanner ≡ Some held) }
        ensures* writes_back { sem 𝓛 (follows the_row scanner_row self.entry.ghost_name
            result.ghost_name (with_scanner self.old)) }
        ensures value { self.old.scanner ≡ Some result.now }
    {
        unsafe { &mut *(self.memory as *mut Scanner) }
    }
}
