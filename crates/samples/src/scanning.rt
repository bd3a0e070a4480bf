//! Bytes to events.

use anyhow::Result;
use resp_scan::{Event, Listener, OpenKind, Scanner, Slot, TextKind};
use resp_value::{Limits, Version};

pub(crate) fn run(rt: &impl Print) -> Result<()> {
    print_events(rt)?;
    end_early(rt)?;
    change_version(rt)?;
    count_integers(rt)?;
    fill_slot(rt)
}

fn print_events(rt: &impl Print) -> Result<()> {
    let mut scanner = Scanner::new(Version::Two, &Limits::standard());
    let mut rest = b"$5\r\nhello\r\n".as_slice();
    for _ in 0..u64::MAX {
        let step = scanner.step(rest)?;
        rest = &rest[step.used..];
        match &step.event {
            Some(Event::Part(bytes)) => println!(rt; "part {}", bytes.escape_ascii())?,
            Some(event) => println!(rt; "{event:?}")?,
            None => break,
        }
    }
    Ok(())
}

fn end_early(rt: &impl Print) -> Result<()> {
    let mut scanner = Scanner::new(Version::Two, &Limits::standard());
    scanner.step(b"$5\r\n")?;
    println!(rt; "{} {}", scanner.taken(), scanner.needed())?;
    println!(rt; "{:?}", scanner.finish())?;
    Ok(())
}

fn change_version(rt: &impl Print) -> Result<()> {
    let mut scanner = Scanner::new(Version::Two, &Limits::standard());
    println!(rt; "{:?}", scanner.set_version(Version::Three))?;
    scanner.step(b"*1\r\n")?;
    println!(rt; "{:?}", scanner.set_version(Version::Two))?;
    Ok(())
}

/// Counts integers, and states nothing of its events.
#[derive(Drop)]
struct Counter {
    integers: u64,
}

impl Listener for Counter {
    ghost Origin = { Unit {0} };

    ghost has_heard = { λ _ _ _. Unit {0} };

    ghost has_stopped = { λ _ _ _. Unit {0} };

    fn null(&mut self) -> bool {
        true
    }

    fn truth(&mut self, _truth: bool) -> bool {
        true
    }

    fn int(&mut self, _number: i64) -> bool {
        self.integers = self.integers.saturating_add(1);
        true
    }

    fn text(&mut self, _kind: TextKind) -> bool {
        true
    }

    fn part(&mut self, _part: &[u8]) -> bool {
        true
    }

    fn text_end(&mut self) -> bool {
        true
    }

    fn open(&mut self, _kind: OpenKind, _count: Option<u64>) -> bool {
        true
    }

    fn close(&mut self) -> bool {
        true
    }
}

fn count_integers(rt: &impl Print) -> Result<()> {
    let mut scanner = Scanner::new(Version::Two, &Limits::standard());
    let mut counter = Counter { integers: 0 };
    let scanned = scanner.scan(b"*2\r\n:1\r\n:2\r\n+next", &mut counter)?;
    println!(rt;
        "{} {} {}",
        counter.integers, scanned.used, scanned.is_whole
    )?;
    Ok(())
}

/// Keeps the length of a text, and states nothing of it.
#[derive(Drop)]
struct Length {
    bytes: usize,
}

impl Slot for Length {
    ghost shows = { λ _ _. Unit {0} };

    ghost shows_text = { λ _ _ _. Unit {0} };

    fn event(&mut self, _event: Event<'_>) {}

    fn text(&mut self, _kind: TextKind, bytes: &[u8]) {
        self.bytes = bytes.len();
    }
}

fn fill_slot(rt: &impl Print) -> Result<()> {
    let mut scanner = Scanner::new(Version::Two, &Limits::standard());
    let mut length = Length { bytes: 0 };
    let used = scanner.step_into(b"$5\r\nhello\r\n", &mut length)?;
    println!(rt; "{used:?} {}", length.bytes)?;
    Ok(())
}
