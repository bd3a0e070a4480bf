//! Streams that are read in pieces of several sizes, from readers that return few bytes.

use super::check_equal;
use resp_cli_args::options::Task;
use resp_cli_args::tool_error::ToolError;
use resp_cli_stream::canon::canon;
use resp_cli_stream::check::check;
use resp_cli_stream::show::show;
use resp_io::device::{MemorySink, MemorySource};
use resp_value::cause::Cause;
use resp_value::limits::Limits;
use resp_value::version::Version;
use std::alloc::Global;
use std::process::Abort;

pub const STREAM: &[u8] = b"+OK\r\n:+007\r\n$3\r\nfoo\r\n$-1\r\n-ERR no\r\n";

const LINES: &[u8] = b"simple \"OK\" 2\nint 7\nbulk \"foo\" 3\nnull\nerror \"ERR no\" 6\n";

/// Nulls, integers and strings of version 2.
const SPELLINGS: &[u8] =
    b"$-1\r\n*-1\r\n:+007\r\n:-0\r\n:-00\r\n:9223372036854775807\r\n+OK\r\n-ERR no\r\n\
        $3\r\na\r\n\r\n$0\r\n\r\n";

const CANONICAL: &[u8] =
    b"$-1\r\n$-1\r\n:7\r\n:0\r\n:0\r\n:9223372036854775807\r\n+OK\r\n-ERR no\r\n\
        $3\r\na\r\n\r\n$0\r\n\r\n";

/// A stream of version 3 with each kind of value.
const ALL_KINDS: &[u8] =
    b"~2\r\n#t\r\n%1\r\n$1\r\n\"\r\n_\r\n(-0012\r\n(0\r\n!2\r\nno\r\n=6\r\ntxt:hi\r\n\
        *?\r\n#f\r\n.\r\n$?\r\n;2\r\nab\r\n;0\r\n|1\r\n+ttl\r\n:3600\r\n:3\r\n>1\r\n*-1\r\n";

const ALL_LINES: &[u8] =
    b"set\n  true\n  map\n    bulk \"\\\"\" 1\n    null\n  end 1\nend 2\nbig -12\nbig 0\n\
        bulkerror \"no\" 2\nverbatim \"txt\" \"hi\" 2\narray\n  false\nend 1\nbulk \"ab\" 2\n\
        attr\n  simple \"ttl\" 3\n  int 3600\nof\n  int 3\nend 1\npush\n  null\nend 1\n";

const ALL_CANONICAL: &[u8] =
    b"~2\r\n#t\r\n%1\r\n$1\r\n\"\r\n_\r\n(-12\r\n(0\r\n!2\r\nno\r\n=6\r\ntxt:hi\r\n*1\r\n#f\r\n\
        $2\r\nab\r\n|1\r\n+ttl\r\n:3600\r\n:3\r\n>1\r\n_\r\n";

/// An attribute without its value.
const ATTRIBUTE: &[u8] = b"|1\r\n+ttl\r\n:3600\r\n";

const ATTRIBUTE_LINES: &[u8] = b"attr\n  simple \"ttl\" 3\n  int 3600\n";

/// The result of a task over a stream, and the bytes that it writes.
type Run<'a> = (Task, Version, &'a [u8], Result<(), ToolError>, &'a [u8]);

/// Returns the error of a rejected value.
fn refused(value: u64, cause: Cause, at: u64) -> Result<(), ToolError> {
    Err(ToolError::Refused { value, cause, at })
}

/// Runs a task with reads of at most `piece` bytes, at least one.
pub fn run(
    alloc: Global,
    task: Task,
    version: Version,
    piece: usize,
    reader: &mut MemorySource<'_>,
    writer: &mut MemorySink,
) -> Result<(), ToolError> {
    let limits = Limits::standard();
    let piece = piece.clamp(1, 65_536);
    match task {
        Task::Show => show(alloc, version, &limits, piece, reader, writer),
        Task::Check => check(alloc, version, &limits, piece, reader, writer),
        Task::Canon => canon(alloc, version, &limits, piece, reader, writer),
    }
}

/// Checks the result of a task with reads of `piece` bytes, of which at most `most` bytes come, and
/// with writes that accept as many.
fn check_run<R: Abort + AllocGlobal>(rt: &R, wanted: Run<'_>, piece: usize, most: usize) {
    let (task, version, stream, answer, written) = wanted;
    let mut reader = MemorySource::new(stream, most.max(1));
    let mut writer = MemorySink::new(rt.alloc(), most, 512).expect(rt, "out of memory");
    let done = run(rt.alloc(), task, version, piece, &mut reader, &mut writer);
    check_equal(rt, (piece, most, done), (piece, most, answer));
    check_equal(rt, writer.bytes(), written);
}

/// Checks the result of a task at each cut of the stream.
fn check_cuts<R: Abort + AllocGlobal>(rt: &R, wanted: Run<'_>) {
    for piece in [1, 2, 3, 4_096] {
        for most in [1, 2, 3, 4_096] {
            check_run(rt, wanted, piece, most);
        }
    }
}

#[test]
fn the_same_comes_at_each_cut(rt: HostRuntime) {
    for (task, version, stream, written) in [
        (Task::Show, Version::Two, STREAM, LINES),
        (Task::Canon, Version::Two, SPELLINGS, CANONICAL),
        (Task::Show, Version::Three, ALL_KINDS, ALL_LINES),
        (
            Task::Check,
            Version::Three,
            ALL_KINDS,
            b"values 9 bytes 111\n",
        ),
        (Task::Canon, Version::Three, ALL_KINDS, ALL_CANONICAL),
    ] {
        check_cuts(&rt, (task, version, stream, Ok(()), written));
    }
}

#[test]
fn the_line_of_a_refused_value_is_ended(rt: HostRuntime) {
    for (task, stream, cause, at, written) in [
        (
            Task::Show,
            b"$5\r\nhel".as_slice(),
            Cause::Truncated,
            7,
            b"bulk \"hel\n".as_slice(),
        ),
        (
            Task::Show,
            b"*2\r\n+a",
            Cause::Truncated,
            6,
            b"array\n  simple \"a\n",
        ),
        (Task::Show, b"+a\nb", Cause::Syntax, 2, b"simple \"a\n"),
        (Task::Show, ATTRIBUTE, Cause::Truncated, 17, ATTRIBUTE_LINES),
    ] {
        let answer = refused(1, cause, at);
        check_cuts(&rt, (task, Version::Three, stream, answer, written));
    }
}

#[test]
fn what_came_before_a_refused_value_is_written(rt: HostRuntime) {
    for (task, written) in [
        (Task::Show, b"int 1\nsimple \"a\n".as_slice()),
        (Task::Canon, b":1\r\n"),
    ] {
        let answer = refused(2, Cause::Syntax, 3);
        check_cuts(&rt, (task, Version::Two, b":+1\r\n+a\rb", answer, written));
    }
}
