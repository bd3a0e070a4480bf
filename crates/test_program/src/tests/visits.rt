//! Visits of a connection of `resp serve`, over readers and writers that would block.

use super::check_equal;
use resp_server::Hub;
use resp_server_net::{Next, Rest, Room, answer};
use resp_value::limits::Limits;
use std::cell::Cell;
use std::hash::{BuildHasherDefault, FoldHasher};
use std::io;
use std::io::{ErrorKind, Read, Write};
use std::process::Abort;

type TestHub = Hub<BuildHasherDefault<FoldHasher>>;

const PING: &[u8] = b"*1\r\n$4\r\nPING\r\n";

/// More bytes than the replies of these tests have.
const HELD: usize = 1_048_576;

/// The result of a read after all bytes were read.
#[derive(Clone, Copy)]
enum Then {
    Ends,
    WouldBlock,
    Fails,
    /// It goes on with the same bytes.
    Repeats,
}

/// A reader that gives the same bytes in each read, until it has given them `left` times.
#[derive(Drop)]
struct Client<'a> {
    bytes: &'a [u8],
    left: usize,
    then: Then,
    reads: &'a Cell<usize>,
}

impl Read for Client<'_> {
    fn read(&mut self, into: &mut [u8]) -> io::Result<usize> {
        self.reads.set(self.reads.get().saturating_add(1));
        match self.then {
            _ if self.left > 0 => self.left -= 1,
            Then::Repeats => {}
            Then::Ends => return Ok(0),
            Then::WouldBlock => return Err(ErrorKind::WouldBlock.into()),
            Then::Fails => return Err(ErrorKind::ConnectionReset.into()),
        }
        let count = self.bytes.len().min(into.len());
        let (front, _) = into.split_at_mut(count);
        front.copy_from_slice(&self.bytes[..count]);
        Ok(count)
    }
}

/// A writer that accepts `room` bytes, and would block or fail after that.
#[derive(Drop)]
struct Replies<'a> {
    room: usize,
    fails: bool,
    written: &'a Cell<usize>,
    writes: &'a Cell<usize>,
}

impl Write for Replies<'_> {
    fn write(&mut self, from: &[u8]) -> io::Result<usize> {
        self.writes.set(self.writes.get().saturating_add(1));
        let count = from.len().min(self.room);
        if count == 0 {
            let kind = match self.fails {
                true => ErrorKind::BrokenPipe,
                false => ErrorKind::WouldBlock,
            };
            return Err(kind.into());
        }
        self.room -= count;
        self.written.set(self.written.get().saturating_add(count));
        Ok(count)
    }

    fn flush(&mut self) -> io::Result<()> {
        Ok(())
    }
}

/// The result of a visit.
#[derive(Clone, Copy, Debug, PartialEq, Eq)]
struct Seen {
    next: Next,
    reads: usize,
    writes: usize,
    written: usize,
}

/// The memory of the visits, and the rest of session 1.
#[derive(Drop)]
struct Memory {
    room: Room,
    rest: Rest,
}

impl Memory {
    /// Makes the memory of visits that run a command while at most `held` bytes wait.
    fn new<R: AllocGlobal>(rt: &R, held: usize) -> Self {
        Memory {
            room: Room::new(rt.alloc(), held),
            rest: Rest::new(rt.alloc()),
        }
    }
}

/// Visits session 1 once.
fn visit(
    hub: &mut TestHub,
    memory: &mut Memory,
    bytes: &[u8],
    left: usize,
    then: Then,
    ends: bool,
    room: usize,
) -> Seen {
    let (reads, writes, written) = (Cell::new(0), Cell::new(0), Cell::new(0));
    let client = Client {
        bytes,
        left,
        then,
        reads: &reads,
    };
    let replies = Replies {
        room,
        fails: false,
        written: &written,
        writes: &writes,
    };
    let Memory { room, rest } = memory;
    let next = answer(client, replies, hub, &mut 1, room, rest, ends);
    Seen {
        next,
        reads: reads.get(),
        writes: writes.get(),
        written: written.get(),
    }
}

/// Returns a hub with session 1.
fn hub<R: Abort + AllocGlobal>(rt: &R) -> TestHub {
    let mut hub = Hub::new(rt.alloc(), Limits::standard(), BuildHasherDefault::new());
    check_equal(rt, hub.open().expect(rt, "out of memory"), 1);
    hub
}

/// Checks that a visit of a new session is like this.
fn check_visit<R: Abort + AllocGlobal>(rt: &R, left: usize, then: Then, ends: bool, seen: Seen) {
    let mut hub = hub(rt);
    let mut memory = Memory::new(rt, HELD);
    let visited = visit(&mut hub, &mut memory, PING, left, then, ends, 1_000);
    check_equal(rt, visited, seen);
}

fn seen(next: Next, reads: usize, writes: usize, written: usize) -> Seen {
    Seen {
        next,
        reads,
        writes,
        written,
    }
}

#[test]
fn a_read_that_does_not_fill_the_buffer_is_the_last(rt: HostRuntime) {
    let waits = seen(Next::Wait, 1, 1, 7);
    check_visit(&rt, 1, Then::WouldBlock, false, waits);
    check_visit(&rt, 5, Then::Ends, false, waits);
    // The end may have come, so it reads until it would block.
    check_visit(&rt, 2, Then::WouldBlock, true, seen(Next::Wait, 3, 2, 14));
}

#[test]
fn a_connection_that_ended_or_failed_is_closed(rt: HostRuntime) {
    check_visit(&rt, 1, Then::Ends, true, seen(Next::Close, 2, 1, 7));
    check_visit(&rt, 1, Then::Fails, true, seen(Next::Close, 2, 1, 7));
    check_visit(&rt, 0, Then::WouldBlock, false, seen(Next::Wait, 1, 0, 0));
}

#[test]
fn a_client_that_sends_without_end_is_left_after_16_turns(rt: HostRuntime) {
    check_visit(&rt, 0, Then::Repeats, true, seen(Next::Again, 8, 8, 56));
}

#[test]
fn nothing_is_read_while_a_reply_waits(rt: HostRuntime) {
    let mut hub = hub(&rt);
    let mut memory = Memory::new(&rt, HELD);
    let first = visit(&mut hub, &mut memory, PING, 1, Then::Repeats, true, 3);
    check_equal(&rt, first, seen(Next::Wait, 1, 2, 3));
    let second = visit(&mut hub, &mut memory, PING, 1, Then::Repeats, true, 0);
    check_equal(&rt, second, seen(Next::Wait, 0, 1, 0));
    let third = visit(
        &mut hub,
        &mut memory,
        PING,
        0,
        Then::WouldBlock,
        true,
        1_000,
    );
    check_equal(&rt, third, seen(Next::Wait, 1, 1, 4));
}

#[test]
fn a_command_is_run_only_while_few_bytes_wait(rt: HostRuntime) {
    let pings = b"*1\r\n$4\r\nPING\r\n*1\r\n$4\r\nPING\r\n*1\r\n$4\r\nPING\r\n";
    let mut hub = hub(&rt);
    let mut memory = Memory::new(&rt, 6);
    // The first reply waits, so the two commands after it are not run.
    let first = visit(&mut hub, &mut memory, pings, 1, Then::WouldBlock, true, 0);
    check_equal(&rt, first, seen(Next::Wait, 1, 1, 0));
    check_equal(&rt, hub.out(1).expect(&rt, "session 1"), b"+PONG\r\n");
    // Nothing more is run or read while it waits.
    let second = visit(&mut hub, &mut memory, pings, 1, Then::WouldBlock, true, 3);
    check_equal(&rt, second, seen(Next::Wait, 0, 2, 3));
    // Then the second command is run, and its reply waits.
    let third = visit(&mut hub, &mut memory, pings, 1, Then::WouldBlock, true, 4);
    check_equal(&rt, third, seen(Next::Wait, 0, 2, 4));
    check_equal(&rt, hub.out(1).expect(&rt, "session 1"), b"+PONG\r\n");
    // The third command is run before the client is read again.
    let last = visit(&mut hub, &mut memory, pings, 0, Then::Ends, true, 14);
    check_equal(&rt, last, seen(Next::Close, 1, 2, 14));
}

#[test]
fn a_session_with_an_error_is_closed_after_its_line(rt: HostRuntime) {
    let mut hub = hub(&rt);
    let mut memory = Memory::new(&rt, HELD);
    let seen = visit(&mut hub, &mut memory, b"?", 1, Then::Repeats, false, 1_000);
    check_equal(
        &rt,
        (seen.next, seen.reads, seen.writes),
        (Next::Close, 1, 1),
    );
}

#[test]
fn a_writer_that_fails_closes_the_connection(rt: HostRuntime) {
    let mut hub = hub(&rt);
    let (reads, writes, written) = (Cell::new(0), Cell::new(0), Cell::new(0));
    let client = Client {
        bytes: PING,
        left: 1,
        then: Then::WouldBlock,
        reads: &reads,
    };
    let replies = Replies {
        room: 0,
        fails: true,
        written: &written,
        writes: &writes,
    };
    let Memory { room, rest } = &mut Memory::new(&rt, HELD);
    let next = answer(client, replies, &mut hub, &mut 1, room, rest, false);
    check_equal(&rt, next, Next::Close);
}
