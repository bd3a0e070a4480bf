//! Finds the places at which the values of a stream begin, as its bytes arrive.

ghost use Rattle.std.specs.Prelude.{◌≡◌, ◌≤◌, ◌++◌, ℕ, List, [], true, false};
ghost use Rattle.resp_scan.specs.Kinds.{rules_of};
ghost use Rattle.resp_fronts.specs.LeastCompletions.{IsLeast};
ghost use Rattle.resp_cli_stream.specs.Begun.{BeginsAt, HasReadOrRefused, HavePassed};
ghost use Rattle.resp_value.specs.Rules.{WithinTotal, rules_under};
ghost use Rattle.resp_value.specs.Spellings.{IsViable};

use resp_scan::nobody::Nobody;
use resp_scan::scanner::Scanner;
use resp_value::limits::Limits;
use resp_value::version::Version;

/// The number of complete values of a stream, and the place at which the next one begins.
#[derive(Drop)]
pub struct Starts {
    scanner: Scanner,
    values: u64,
    start: u64,
}

impl Starts {
    /// Returns the start of a stream.
    pub fn new(version: Version, limits: &Limits) -> Starts
        ensures nothing_passed { HavePassed result [] }
        ensures rules { rules_of result.scanner ≡ rules_under version limits.now }
    {
        Starts {
            scanner: Scanner::new(version, limits),
            values: 0,
            start: 0,
        }
    }

    /// Scans a piece until `most` values are complete, a byte is rejected, or the piece ends.
    /// Returns false if that many values are complete before the piece ends.
    pub fn pass(&mut self, piece: &[u8], most: u64) -> bool
        ensures begins { (bytes : List ℕ) → HavePassed self.old bytes →
            BeginsAt (rules_of self.old.scanner) (bytes ++ piece.now) self.new.values
            self.new.start }
        ensures passed { (bytes : List ℕ) → HavePassed self.old bytes → result ≡ true →
            HavePassed self.new (bytes ++ piece.now) }
        ensures at_most { self.old.values ≤ most → self.new.values ≤ most }
        ensures same_rules { rules_of self.new.scanner ≡ rules_of self.old.scanner }
    {
        let mut rest = piece;
        while self.values < most && !rest.is_empty() {
            let taken = self.scanner.taken();
            let scanned = match self.scanner.scan(rest, &mut Nobody::<0>) {
                Ok(scanned) => scanned,
                Err(_) => return true,
            };
            if scanned.used == 0 {
                return false;
            }
            rest = &rest[scanned.used..];
            if scanned.is_whole {
                let size = taken.saturating_add(scanned.used as u64);
                self.start = self.start.saturating_add(size);
                self.values += 1;
            }
        }
        rest.is_empty()
    }

    /// Returns the number of complete values.
    pub fn values(&self) -> u64
        ensures { result ≡ self.now.values }
    {
        self.values
    }

    /// Returns the number of bytes of the complete values, if it fits into 64 bits.
    pub fn start(&self) -> u64
        ensures { result ≡ self.now.start }
    {
        self.start
    }

    /// Returns the least number of bytes that complete the value that was begun. After a rejected
    /// byte the number is unspecified.
    pub fn needed(&self) -> u64
        ensures { (rest : List ℕ) → HasReadOrRefused self.now.scanner rest →
            IsViable (rules_of self.now.scanner) WithinTotal rest →
            IsLeast (rules_of self.now.scanner) rest result }
    {
        self.scanner.needed()
    }
}
