//! Readers and writers that fail in the middle of a stream.

use super::check_equal;
use super::streams::{STREAM, run};
use resp_cli_args::options::Task;
use resp_cli_args::tool_error::ToolError;
use resp_io::device::{MemorySink, MemorySource};
use resp_value::version::Version;
use std::process::Abort;

/// Makes a writer that accepts at most `most` bytes in a write, and fails from byte `fails_from`
/// on.
fn sink<R: Abort + AllocGlobal>(rt: &R, most: usize, fails_from: usize) -> MemorySink {
    MemorySink::new(rt.alloc(), most, fails_from).expect(rt, "out of memory")
}

/// Checks that a task with reads of `piece` bytes stops with this error, and has written these
/// bytes.
fn check_stop<R: Abort + AllocGlobal>(
    rt: &R,
    task: Task,
    piece: usize,
    reader: MemorySource<'_>,
    writer: MemorySink,
    stopped: (ToolError, &[u8]),
) {
    let (mut reader, mut writer) = (reader, writer);
    let done = run(
        rt.alloc(),
        task,
        Version::Two,
        piece,
        &mut reader,
        &mut writer,
    );
    let (answer, written) = stopped;
    check_equal(rt, done, Err(answer));
    check_equal(rt, writer.bytes(), written);
}

#[test]
fn a_failing_reader_stops_the_task(rt: HostRuntime) {
    for (byte, written) in [(0, b"".as_slice()), (7, b"simple \"OK\" 2\n")] {
        let reader = MemorySource::new(STREAM, 2).failing_from(byte);
        let writer = sink(&rt, 4_096, 256);
        let stopped = (ToolError::Read, written);
        check_stop(&rt, Task::Show, 4_096, reader, writer, stopped);
    }
}

#[test]
fn a_failing_writer_stops_the_task(rt: HostRuntime) {
    let lines = b"simple \"OK\" 2\nint 7\n".as_slice();
    // A writer that accepts no byte fails too.
    for (most, written) in [(1, lines), (4_096, lines), (0, b"")] {
        let reader = MemorySource::new(STREAM, 4_096);
        let writer = sink(&rt, most, 20);
        let stopped = (ToolError::Write, written);
        check_stop(&rt, Task::Show, 4_096, reader, writer, stopped);
    }
}

#[test]
fn a_writer_that_fails_before_a_refused_value_stops_the_task(rt: HostRuntime) {
    for (task, written) in [(Task::Show, b"int".as_slice()), (Task::Canon, b":1\r")] {
        let reader = MemorySource::new(b":+1\r\n+a\rb", 4_096);
        let writer = sink(&rt, 4_096, 3);
        check_stop(&rt, task, 1, reader, writer, (ToolError::Write, written));
    }
}
