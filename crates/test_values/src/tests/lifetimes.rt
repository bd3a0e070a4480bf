//! Parts are borrowed from the caller's piece and live as long as the piece. `tests/proof/lifetimes` at
//! the top of the repository checks that no part lives longer: it changes lines of this file, and
//! the changed file must not compile.

use super::check_equal;
use resp_scan::event::Fault;
use resp_scan::{Event, Listener, Scanner, Step, TextKind};
use resp_value::kind::OpenKind;
use resp_value::limits::Limits;
use resp_value::version::Version;
use std::process::Abort;
use std::test::Fail;

fn step<'a>(scanner: &mut Scanner, rest: &'a [u8]) -> Result<Step<'a>, Fault> {
    scanner.step(rest)
}

/// Adds the parts of a piece. Returns `None` if the piece is not used up.
fn add_parts<'a>(scanner: &mut Scanner, piece: &'a [u8], kept: &mut Vec<&'a [u8]>) -> Option<()> {
    let mut from = 0;
    for _ in 0..100 {
        let Ok(step) = step(scanner, piece.get(from..)?) else {
            break;
        };
        from = from.saturating_add(step.used);
        match step.event {
            Some(Event::Part(part)) => kept.push(part).ok()?,
            Some(_) => {}
            None => return Some(()),
        }
    }
    None
}

/// Returns the parts of a piece, which are kept while the scanner goes on.
fn parts<'a, R: Abort + AllocGlobal>(
    rt: &R,
    scanner: &mut Scanner,
    piece: &'a [u8],
) -> Vec<&'a [u8]> {
    let mut kept = Vec::new(rt.alloc());
    assert!(rt; add_parts(scanner, piece, &mut kept).is_some());
    kept
}

fn are(rt: &impl Abort, kept: &[&[u8]], wanted: &[&[u8]]) {
    check_equal(rt, kept, wanted);
}

#[test]
fn parts_outlive_further_steps(rt: HostRuntime) -> Result<(), Fail> {
    let mut scanner = Scanner::new(Version::Two, &Limits::standard());
    let first = *b"*3\r\n+ab\r\n$5\r\ncd";
    let mut kept = parts(&rt, &mut scanner, &first);
    are(&rt, &kept, &[b"ab", b"cd"]);
    {
        let second = *b"efg\r\n-no\r\n+yes\r\n";
        let others = parts(&rt, &mut scanner, &second);
        are(&rt, &others, &[b"efg", b"no", b"yes"]);
        kept.push(b"and a constant")?;
    }
    are(&rt, &kept, &[b"ab", b"cd", b"and a constant"]);
    Ok(())
}

#[test]
fn parts_outlive_their_scanner(rt: HostRuntime) {
    let piece = *b"+ab\r\n(-00120\r\n";
    let kept = {
        let mut scanner = Scanner::new(Version::Three, &Limits::standard());
        parts(&rt, &mut scanner, &piece)
    };
    are(&rt, &kept, &[b"ab", b"1", b"20"]);
}

#[test]
fn a_piece_changes_after_its_parts(rt: HostRuntime) -> Result<(), Fail> {
    let mut scanner = Scanner::new(Version::Two, &Limits::standard());
    let mut piece = *b"+ab\r\n+";
    let parts_of_it = parts(&rt, &mut scanner, &piece);
    let part = *parts_of_it.first().ok_or("no part")?;
    drop(parts_of_it);
    are(&rt, &[part], &[b"ab"]);
    piece = *b"cdef\r\n";
    let others = parts(&rt, &mut scanner, &piece);
    are(&rt, &others, &[b"cdef"]);
    Ok(())
}

/// Keeps a constant for each part. The part itself lives only during the call.
#[derive(Drop)]
struct KeptConstant<'a> {
    length: usize,
    kept: &'a [u8],
}

impl<'a> Listener for KeptConstant<'a> {
    ghost Origin = { Unit {0} };

    ghost has_heard = { λ _ _ _. Unit {0} };

    ghost has_stopped = { λ _ _ _. Unit {0} };

    fn null(&mut self) -> bool {
        true
    }

    fn truth(&mut self, _truth: bool) -> bool {
        true
    }

    fn int(&mut self, _number: i64) -> bool {
        true
    }

    fn text(&mut self, _kind: TextKind) -> bool {
        true
    }

    fn part(&mut self, part: &[u8]) -> bool {
        self.length = self.length.saturating_add(part.len());
        self.kept = b"a constant of the listener";
        true
    }

    fn text_end(&mut self) -> bool {
        true
    }

    fn open(&mut self, _kind: OpenKind, _count: Option<u64>) -> bool {
        true
    }

    fn close(&mut self) -> bool {
        true
    }
}

#[test]
fn a_listener_keeps_no_part(rt: HostRuntime) -> Result<(), Fail> {
    let mut listener = KeptConstant {
        length: 0,
        kept: b"",
    };
    let mut scanner = Scanner::new(Version::Two, &Limits::standard());
    let scanned = scanner
        .scan(b"+ab\r\n", &mut listener)
        .ok()
        .ok_or("refused")?;
    check_equal(&rt, (scanned.is_whole, listener.length), (true, 2));
    are(&rt, &[listener.kept], &[b"a constant of the listener"]);
    Ok(())
}
