//! A scanner in memory of the caller.

ghost use Rattle.std.specs.Prelude.{◌≡◌, Option, Some};
ghost use Rattle.resp_scan.specs.Machine.Tokens.{Place};
ghost use Rattle.resp_c.specs.Memory.{coded_scanner, holds};

use resp_scan::scanner::Scanner;
use std::marker::Model;

/// Memory of the caller that may hold a scanner.
#[repr(C)]
pub struct RespScanner {
    pub(crate) memory: *mut u8,
    pub ghost scanner: { Option Place } by { coded_scanner },
}

impl Model for RespScanner {
    ghost also_owns = { λ s. holds s.memory s.scanner };
}

impl RespScanner {
    /// Puts a scanner into the memory, over an earlier one if there is one.
    pub(crate) fn fill(&mut self, scanner: Scanner)
        ensures { self.new.scanner ≡ Some scanner }
    {
        unsafe { (self.memory as *mut Scanner).write(scanner) };
    }
}
