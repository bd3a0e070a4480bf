//! Live streams: the bytes that were written before each read.

use super::check_equal;
use resp_cli_args::options::Task;
use resp_cli_args::tool_error::ToolError;
use resp_cli_stream::canon::canon;
use resp_cli_stream::check::check;
use resp_cli_stream::show::show;
use resp_io::device::{DeviceFault, MemorySink, MemorySource, Source};
use resp_io::live::{Gathering, LiveSource};
use resp_value::limits::Limits;
use resp_value::version::Version;
use std::alloc::Global;
use std::process::Abort;

/// A source that records at each read how many bytes were written before.
#[derive(Drop)]
struct Watcher<'a> {
    input: MemorySource<'a>,
    sent: Vec<usize>,
}

impl Source for Watcher<'_> {
    ghost use Rattle.std.specs.Prelude.{Some};

    ghost remaining = { λ w. Some w.input.left };

    ghost calls = { λ w. w.input.calls };

    ghost failures = { λ w. w.input.failures };

    fn read(&mut self, into: &mut [u8]) -> Result<usize, DeviceFault> {
        self.input.read(into)
    }
}

impl LiveSource<Gathering<MemorySink>> for Watcher<'_> {
    ghost use Rattle.std.specs.Prelude.{None};

    ghost looks = { λ _. None };

    fn read_beside(
        &mut self,
        into: &mut [u8],
        writer: &Gathering<MemorySink>,
    ) -> Result<usize, DeviceFault> {
        // A read that is not recorded is noticed below.
        let _ = self.sent.push(writer.inner().bytes().len());
        self.input.read(into)
    }
}

/// Runs a task with reads of five bytes.
fn run(
    alloc: Global,
    task: Task,
    reader: &mut Watcher<'_>,
    writer: &mut Gathering<MemorySink>,
) -> Result<(), ToolError> {
    let limits = Limits::standard();
    match task {
        Task::Show => show(alloc, Version::Two, &limits, 5, reader, writer),
        Task::Check => check(alloc, Version::Two, &limits, 5, reader, writer),
        Task::Canon => canon(alloc, Version::Two, &limits, 5, reader, writer),
    }
}

/// Checks that a task over a stream, with reads of five bytes, has written `sent` bytes before each
/// of them.
fn check_sent<R: Abort + AllocGlobal>(rt: &R, task: Task, stream: &[u8], sent: &[usize]) {
    let mut reader = Watcher {
        input: MemorySource::new(stream, 5),
        sent: Vec::new(rt.alloc()),
    };
    let sink = MemorySink::new(rt.alloc(), 4_096, 4_096).expect(rt, "out of memory");
    let mut writer = Gathering::new(rt.alloc(), sink).expect(rt, "out of memory");
    let done = run(rt.alloc(), task, &mut reader, &mut writer);
    check_equal(rt, done, Ok(()));
    check_equal(rt, reader.sent.as_slice(), sent);
}

#[test]
fn what_is_due_is_sent_before_each_read(rt: HostRuntime) {
    // The reads return `+OK\r\n`, `:1\r\n$`, `3\r\nfo`, `o\r\n` and the end.
    let stream = b"+OK\r\n:1\r\n$3\r\nfoo\r\n".as_slice();
    for (task, sent) in [
        (Task::Show, [0, 14, 20, 28, 33].as_slice()),
        (Task::Canon, &[0, 5, 9, 9, 18]),
        (Task::Check, &[0, 0, 0, 0, 0]),
    ] {
        check_sent(&rt, task, stream, sent);
    }
}
