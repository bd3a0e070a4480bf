//! The lines and statuses of faults.

use super::check_equal;
use resp_cli_args::tool_error::ToolError;
use resp_cli_stream::command_line::command;
use resp_io::device::{MemorySink, MemorySource};
use std::process::Abort;

/// Makes a writer that fails from a byte on.
fn sink<R: Abort + AllocGlobal>(rt: &R, fails_from: usize) -> MemorySink {
    MemorySink::new(rt.alloc(), 4_096, fails_from).expect(rt, "out of memory")
}

/// Checks that a fault has this line and this status.
fn check_fault<R: Abort + AllocGlobal>(rt: &R, fault: ToolError, line: &str, status: u8) {
    let mut writer = sink(rt, 64);
    let said = fault.line(&mut writer).is_ok();
    check_equal(rt, (said, writer.bytes()), (true, line.as_bytes()));
    check_equal(rt, fault.status(), status);
}

#[test]
fn faults_have_a_line_and_a_status(rt: HostRuntime) {
    let too_many = "value 1000000001: TooManyValues at byte 0\n";
    check_fault(
        &rt,
        ToolError::OverLimits { value: 3 },
        "value 3: OverLimits\n",
        1,
    );
    check_fault(&rt, ToolError::TooManyValues, too_many, 1);
    check_fault(&rt, ToolError::Read, "read failed\n", 3);
    check_fault(&rt, ToolError::Write, "write failed\n", 3);
    check_fault(&rt, ToolError::TooManyTurns, "too many turns\n", 3);
    check_fault(&rt, ToolError::Memory, "out of memory\n", 3);
}

#[test]
fn the_status_is_answered_though_nothing_can_be_said(rt: HostRuntime) {
    for (word, status) in [("check", 1), ("show", 3), ("play", 2)] {
        let mut reader = MemorySource::new(b"+a", 4_096);
        let (mut writer, mut faults) = (sink(&rt, 0), sink(&rt, 0));
        let words = ["resp", word];
        let answer = command(
            rt.alloc(),
            words.as_slice(),
            &mut reader,
            &mut writer,
            &mut faults,
        );
        check_equal(&rt, (word, answer), (word, status));
    }
}
