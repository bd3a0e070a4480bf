//! The command `ask`, which sends commands to a server.

use crate::failures::{Failures, Faults, WatchedInput, WatchedOutput};
use crate::hints::{write_hint, write_path_hint};
use crate::hosts::{addresses_of, name_of, password_of, refuse_server};
use crate::prompting::{Prompting, is_typed};
use crate::server_stream::ServerStream;
use resp_cli_args::asking::Asking;
use resp_cli_args::tool_error::ToolError;
use resp_cli_ask::{ExchangeError, Failure, Greeting, InputLines, RawCommands, ReplyForm, Talk};
use resp_io::device::{Device, DeviceFault, Sink, Source};
use resp_io::live::LiveSink;
use resp_print::text::{write_number, write_text};
use std::alloc::{AllocError, Global};
use std::io::{self, IsTerminal};
use std::time::{Duration, Instant};

/// The exit status after a reply that is an error, or an error in the input.
const ERROR: u8 = 1;

/// The exit status of a usage error.
const BAD_ARGUMENTS: u8 = 2;

/// The exit status after a device or an allocation failed.
const FAILED: u8 = 3;

/// The line for a reply that does not come in time.
const NO_REPLY: &[u8] = b"read failed: no reply within the time of --timeout\n";

/// The commands that are sent to a server.
#[derive(Drop)]
struct Request<'a, 'b> {
    asking: &'a Asking<'b>,
    /// The words of the command. If there is no word, commands are read from standard input.
    words: Vec<Vec<u8>>,
    /// The password for AUTH, if there is one.
    password: Option<String>,
}

/// Sends the command in the words, or the commands of standard input, and prints the replies. The
/// words are those of `asking`, whose bytes need not be text. Returns the exit status.
pub(crate) fn run_ask<O: LiveSink>(
    rt: &HostRuntime,
    asking: &Asking<'_>,
    words: Vec<Vec<u8>>,
    output: &mut O,
    faults: &mut Faults<'_>,
) -> Result<u8, AllocError> {
    let password = password_of(rt);
    if asking.options.user.is_some() && password.is_none() {
        let _ = write_text(
            &mut faults.lines,
            b"error: --user needs the variable RESP_PASSWORD\n",
        );
        return Ok(BAD_ARGUMENTS);
    }
    let request = Request {
        asking,
        words,
        password,
    };
    let status = ask_server(rt, &request, output, faults)?;
    drop(request);
    if status != 0 {
        let _ = write_hint(asking, &mut faults.lines);
    }
    Ok(status)
}

/// Connects to the server, sends the commands and prints the replies. Returns the exit status.
fn ask_server<O: LiveSink>(
    rt: &HostRuntime,
    request: &Request<'_, '_>,
    output: &mut O,
    faults: &mut Faults<'_>,
) -> Result<u8, AllocError> {
    let (alloc, asking) = (rt.alloc(), request.asking);
    let addresses = match addresses_of(rt, alloc, &asking.server) {
        Ok(addresses) => addresses,
        Err(error) => return refuse_server(alloc, &asking.server, &error, faults),
    };
    let timeout = timeout_of(asking);
    let stream = match ServerStream::connect(rt, addresses.as_slice(), timeout) {
        Ok(stream) => stream,
        Err(error) => {
            let name = name_of(alloc, &asking.server)?;
            let status = faults.refuse_connection(alloc, name.as_str(), &error)?;
            let _ = write_path_hint(rt, &asking.server, &mut faults.lines);
            return Ok(status);
        }
    };
    let mut reader = Device::new(WatchedInput::new(&stream, faults.failures));
    let mut writer = Device::new(WatchedOutput::new(&stream, faults.failures));
    ask_over(rt, request, &mut reader, &mut writer, output, faults)
}

/// Returns the time that the server has for each reply, if there is a limit.
fn timeout_of(asking: &Asking<'_>) -> Option<Duration> {
    let micros = asking.options.timeout;
    (micros > 0).then_some(Duration::from_micros(micros))
}

/// Sends the commands over an open connection, after AUTH and HELLO if the options ask for them.
/// Returns the exit status.
fn ask_over<R: Source, W: Sink, O: LiveSink>(
    rt: &HostRuntime,
    request: &Request<'_, '_>,
    reader: &mut R,
    writer: &mut W,
    output: &mut O,
    faults: &mut Faults<'_>,
) -> Result<u8, AllocError> {
    let asking = request.asking;
    let mut talk = Talk::new(rt.alloc(), &asking.options.limits, reader, writer);
    let asked = ask_with(rt, &mut talk, request, faults.failures, output);
    let (errors, next_reply) = (talk.errors(), talk.next_reply());
    drop(talk);
    match asked {
        Ok(()) if errors == 0 => Ok(0),
        Ok(()) => Ok(ERROR),
        Err(failure) => {
            if is_of_timeout(asking, &failure, faults.failures) {
                let _ = write_text(&mut faults.lines, NO_REPLY);
                return Ok(failure.status());
            }
            let _ = failure.write(next_reply, &mut faults.lines);
            write_why(rt.alloc(), &failure, faults)?;
            Ok(failure.status())
        }
    }
}

/// Returns whether a reply did not come within the time of `--timeout`.
fn is_of_timeout(asking: &Asking<'_>, failure: &Failure, failures: &Failures) -> bool {
    asking.options.timeout > 0
        && matches!(failure, Failure::Ask(ExchangeError::Read))
        && failures.is_late()
}

/// Returns how replies are printed. On a terminal, a text of several lines is printed as these
/// lines. The replies to commands that a person types have no numbers.
fn form_of(rt: &HostRuntime, asking: &Asking<'_>) -> ReplyForm {
    if asking.options.counts {
        ReplyForm::Counted
    } else if asking.options.style.json {
        ReplyForm::Json
    } else if asking.words.is_empty() && !is_typed(rt, asking) {
        ReplyForm::Numbered
    } else if rt.stdout().is_terminal() {
        ReplyForm::Lined
    } else {
        ReplyForm::Alone
    }
}

/// Writes why a device failed, if one did.
pub(crate) fn write_why(
    alloc: Global,
    failure: &Failure,
    faults: &mut Faults<'_>,
) -> Result<(), AllocError> {
    if failure.is_of_read() {
        return faults.write_why(alloc, &ToolError::Read);
    }
    if failure.is_of_write() {
        return faults.write_why(alloc, &ToolError::Write);
    }
    Ok(())
}

/// Sends AUTH and HELLO, and the commands if they were accepted. If the replies are counted, prints the
/// numbers of replies and errors and the time, unless a write of the output has failed.
fn ask_with<R: Source, W: Sink, O: LiveSink>(
    rt: &HostRuntime,
    talk: &mut Talk<'_, R, W>,
    request: &Request<'_, '_>,
    failures: &Failures,
    output: &mut O,
) -> Result<(), Failure> {
    let asking = request.asking;
    let form = form_of(rt, asking);
    let greeting = Greeting {
        user: asking.options.user,
        password: request.password.as_deref(),
        is_three: asking.options.is_three,
        form: if asking.options.style.json {
            ReplyForm::Json
        } else {
            ReplyForm::Alone
        },
    };
    if !talk.greet(rt.alloc(), &greeting, output)? {
        return Ok(());
    }
    talk.begin(form);
    let start = Instant::now(rt);
    let sent = send_commands(rt, talk, request, failures, output);
    if form != ReplyForm::Counted || sent.as_ref().is_err_and(Failure::is_of_output) {
        return sent;
    }
    let micros = micros_since(rt, start);
    match write_totals(talk.replies(), talk.errors(), micros, output) {
        Ok(()) => sent,
        Err(_) => Err(Failure::Output),
    }
}

/// Returns the microseconds since this instant, or 0 if the clock cannot be read.
fn micros_since(rt: &HostRuntime, start: io::Result<Instant>) -> u64 {
    let (Ok(start), Ok(end)) = (start, Instant::now(rt)) else {
        return 0;
    };
    let passed = end.saturating_duration_since(start);
    passed
        .as_secs()
        .saturating_mul(1_000_000)
        .saturating_add(u64::from(passed.subsec_micros()))
}

/// Sends the command in the words, or the commands of standard input.
fn send_commands<R: Source, W: Sink, O: LiveSink>(
    rt: &HostRuntime,
    talk: &mut Talk<'_, R, W>,
    request: &Request<'_, '_>,
    failures: &Failures,
    output: &mut O,
) -> Result<(), Failure> {
    let (alloc, asking) = (rt.alloc(), request.asking);
    if !request.words.is_empty() {
        return talk.send_words(alloc, request.words.clone()?, output);
    }
    let window = asking.options.window as u64;
    if is_typed(rt, asking) {
        return send_typed(rt, talk, asking, failures, output);
    }
    let mut input = Device::new(WatchedInput::new(rt.stdin(), failures));
    if asking.options.raw {
        let mut commands = RawCommands::new(alloc, &asking.options.limits)?;
        return talk.send_input(alloc, &mut commands, &mut input, window, output);
    }
    talk.send_input(
        alloc,
        &mut InputLines::new(alloc),
        &mut input,
        window,
        output,
    )
}

/// Sends the commands that a person types, with a prompt for each line. The error of a line that is
/// no command, or that is not sent, is printed at once, and the next line is read.
fn send_typed<R: Source, W: Sink, O: LiveSink>(
    rt: &HostRuntime,
    talk: &mut Talk<'_, R, W>,
    asking: &Asking<'_>,
    failures: &Failures,
    output: &mut O,
) -> Result<(), Failure> {
    let alloc = rt.alloc();
    let window = asking.options.window as u64;
    let server = name_of(alloc, &asking.server)?;
    let prompt = format!(in alloc; "{server}> ")?;
    let typed = Prompting::new(rt.stdin(), rt.stdout(), prompt.as_str());
    let mut input = Device::new(WatchedInput::new(typed, failures));
    let mut lines = InputLines::new(alloc);
    for _ in 0..u64::MAX {
        match talk.send_input(alloc, &mut lines, &mut input, window, output) {
            Err(failure) if failure.is_of_line() => {
                if output.flush().is_err() {
                    return Err(Failure::Output);
                }
                let _ = failure.write(talk.next_reply(), &mut Device::new(rt.stderr()));
            }
            ended => return ended,
        }
    }
    Ok(())
}

/// Writes the line of `--count`.
fn write_totals<O: Sink>(
    replies: u64,
    errors: u64,
    micros: u64,
    output: &mut O,
) -> Result<(), DeviceFault> {
    write_number(output, b"replies ", replies, b" errors ")?;
    write_number(output, b"", errors, b" seconds ")?;
    write_number(output, b"", micros / 1_000_000, b".")?;
    let part = micros % 1_000_000;
    let digits = [
        digit(part / 100_000),
        digit(part / 10_000),
        digit(part / 1_000),
    ];
    write_text(output, &digits)?;
    let rate = replies.saturating_mul(1_000_000) / micros.max(1);
    write_number(output, b" per second ", rate, b"\n")
}

/// Returns the last digit of a number.
fn digit(number: u64) -> u8 {
    b'0' + (number % 10) as u8
}
