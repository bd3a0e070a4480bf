//! Scripts of `loop` over memory: their greatest length, and errors that stop a script.

ghost use Rattle.std.specs.Prelude.{None};

use super::check_equal;
use resp_cli_loop::play::{PlayError, play};
use resp_cli_loop::script::reasons::BadLine;
use resp_cli_loop::script::{MOST_BYTES, Script, ScriptError, read_script};
use resp_io::device::MemorySink;
use resp_value::cause::Cause;
use resp_value::limits::Limits;
use resp_wire::{Carried, Direction, Link, LinkFault, World};
use std::hash::{BuildHasherDefault, FoldHasher};
use std::process::Abort;

/// A key is read before it is set.
const TWO_CLIENTS: &[u8] =
    b"clients 2\nsend 1 SET a 1\nsend 2 GET a\nserver 2 20\nserver 1 27\npush 2 x\nflush\n";

const TWO_CLIENTS_WRITTEN: &[u8] = b"client 2 refused NotInVersion\n\
client 1 reply 1\n  simple \"OK\" 2\n\
client 2 reply 1\n  null\n\
commands 2 keys 1\n";

type TestHasher = BuildHasherDefault<FoldHasher>;

/// Parses a script.
fn script<R: Abort + AllocGlobal>(rt: &R, text: &[u8]) -> Script {
    read_script(rt.alloc(), text).expect(rt, "no script")
}

/// Returns a script of the greatest number of bytes, in 256 lines. The last line has no LF.
fn longest_text<R: Abort + AllocGlobal>(rt: &R) -> Vec<u8> {
    let mut text = b"clients 1\n"
        .to_vec(rt.alloc())
        .expect(rt, "out of memory");
    let mut comment = vec![in rt.alloc(); b'#'; 4_095].expect(rt, "out of memory");
    comment.push(b'\n').expect(rt, "out of memory");
    for _ in 0..255 {
        text.extend_from_slice(comment.as_slice())
            .expect(rt, "out of memory");
    }
    text.resize(MOST_BYTES, b'#').expect(rt, "out of memory");
    text
}

#[test]
fn a_byte_too_many_is_refused(rt: HostRuntime) {
    let mut text = longest_text(&rt);
    check_equal(&rt, script(&rt, text.as_slice()).clients, 1);
    text.push(b'#').expect(&rt, "out of memory");
    let refused = Err(ScriptError::BadScript {
        line: 257,
        reason: BadLine::LongScript,
    });
    check_equal(&rt, read_script(rt.alloc(), text.as_slice()), refused);
}

/// Checks the result of playing a script, and the bytes written to a writer that fails from a byte
/// on.
fn check_play<R: Abort + AllocGlobal, L: Link + Drop>(
    rt: &R,
    script: &Script,
    world: World<L, TestHasher>,
    fails_from: usize,
    answer: Result<(), PlayError>,
    written: &[u8],
) {
    let mut world = world;
    let mut writer = MemorySink::new(rt.alloc(), 4_096, fails_from).expect(rt, "out of memory");
    let played = play(rt.alloc(), script, &mut world, &mut writer);
    check_equal(rt, played, answer);
    check_equal(rt, writer.bytes(), written);
}

#[test]
fn a_failing_writer_stops_the_play(rt: HostRuntime) {
    let script = script(&rt, TWO_CLIENTS);
    for byte in 0..TWO_CLIENTS_WRITTEN.len() {
        let hasher: TestHasher = BuildHasherDefault::new();
        let world = World::new(rt.alloc(), 2, Limits::standard(), hasher).expect(&rt, "no world");
        let written = &TWO_CLIENTS_WRITTEN[..byte];
        check_play(&rt, &script, world, byte, Err(PlayError::Write), written);
    }
}

/// A link that carries nothing, and counts its failures.
#[derive(Drop)]
struct CutLink {
    failures: u64,
}

impl Link for CutLink {
    ghost is_honest = { λ _. Unit {0} };

    ghost traffic = { λ _. None };

    ghost failures = { λ link. link.failures };

    ghost calls = { λ _. 0 };

    fn carry(&mut self, _direction: Direction, _piece: &[u8], _into: &mut [u8]) -> Carried {
        self.failures = self.failures.saturating_add(1);
        Err(LinkFault { cause: Cause::Read })
    }
}

/// The error if a link fails at an event of the fourth line.
const STOPPED: PlayError = PlayError::Stopped {
    line: 4,
    cause: Cause::Read,
};

#[test]
fn a_failing_link_stops_the_play(rt: HostRuntime) {
    let script = script(&rt, b"clients 1\nsend 1 PING\n\nflush\nsend 1 PING\n");
    let links = vec![in rt.alloc(); CutLink { failures: 0 }].expect(&rt, "out of memory");
    let hasher: TestHasher = BuildHasherDefault::new();
    let world = World::over(rt.alloc(), links, Limits::standard(), hasher).expect(&rt, "no world");
    check_play(&rt, &script, world, 4_096, Err(STOPPED), b"");
}

#[test]
fn the_line_of_a_failed_link_is_named(rt: HostRuntime) {
    let mut said = MemorySink::new(rt.alloc(), 4_096, 64).expect(&rt, "out of memory");
    check_equal(&rt, STOPPED.line(&mut said).is_ok(), true);
    check_equal(&rt, said.bytes(), b"line 4: Read\n");
}
