//! The program `resp`. It shows, checks and rewrites streams of the Redis wire protocol, plays
//! scripts of several clients of one server, serves clients, prints the traffic between clients and
//! a server, and shares one connection to a server among many clients.
#![tactic(auto)]

mod asking;
mod checking;
mod failures;
mod given_words;
mod hints;
mod hosts;
mod input;
mod learning;
mod listening;
mod most_clients;
mod opening;
mod prompting;
mod replaying;
mod server_stream;
mod style;
mod survey;
mod swapped;

ghost use Rattle.std.specs.Prelude.{◌≤◌};

use asking::run_ask;
use failures::{Failures, Faults, StandardOutput, WatchedInput};
use given_words::GivenWords;
use hints::write_file_hint;
use input::read_input;
use listening::{run_proxy, run_serve, run_tap};
use opening::{open_file, tell_waiting};
use resp_cli_args::asked::Invocation;
use resp_cli_args::options::{Options, STANDARD_INPUT, Task};
use resp_cli_args::style::StyleOptions;
use resp_cli_args::tool_error::ToolError;
use resp_cli_args::words::{read_words, refuse_words, stop};
use resp_cli_loop::play::{PlayError, play, write_no_connection};
use resp_cli_loop::script::{Script, read_script};
use resp_cli_stream::command_line::{perform, run_options};
use resp_cli_stream::explain::explain;
use resp_cli_stream::watched::PlacedSource;
use resp_io::device::{Device, Sink};
use resp_io::live::{Gathering, LiveSink, LiveSource};
use resp_paint::Painted;
use resp_value::limits::Limits;
use resp_wire::{TcpLink, World};
use std::alloc::{AllocError, Global};
use std::env;
use std::hash::RandomState;
use std::io::{self, ErrorKind, IsTerminal, Read, Write};
use std::process::ExitCode;
use style::style_of;

/// The exit status of a usage error.
const BAD_ARGUMENTS: u8 = 2;

/// The exit status if a device failed or memory ran out.
const DEVICE_FAILED: u8 = 3;

/// Runs the program and exits with its status. When out of memory it reports that and exits with
/// status 3.
fn main(rt: HostRuntime) -> ExitCode {
    match run(&rt) {
        Ok(status) => ExitCode::from(status),
        Err(AllocError) => {
            let _ = rt.stderr().write_all(b"out of memory\n");
            ExitCode::from(DEVICE_FAILED)
        }
    }
}

/// Runs the command line and returns the status. Error messages are printed after the output, and
/// not printed if the reader of the output has closed it.
fn run(rt: &HostRuntime) -> Result<u8, AllocError> {
    let failures = Failures::new();
    let mut faults = Faults::new(rt.alloc(), &failures)?;
    let done = run_with(rt, &mut faults);
    drop(faults);
    done
}

/// Runs the command line and returns the status. Error messages are collected in `faults`.
fn run_with(rt: &HostRuntime, faults: &mut Faults<'_>) -> Result<u8, AllocError> {
    match env::args(rt) {
        Ok(words) => {
            let words = GivenWords::of_texts(words.collect(rt.alloc())?);
            let done = run_line(rt, &words, faults);
            drop(words);
            done
        }
        Err(error) => run_without_text(rt, error.kind(), faults),
    }
}

/// Runs the command line, whose words can't be read as text: one is not UTF-8, or an allocation has
/// failed. Returns the status.
fn run_without_text(
    rt: &HostRuntime,
    kind: ErrorKind,
    faults: &mut Faults<'_>,
) -> Result<u8, AllocError> {
    if kind == ErrorKind::InvalidData {
        if let Some(words) = GivenWords::of_ask(rt)? {
            let done = run_line(rt, &words, faults);
            drop(words);
            return done;
        }
    }
    let status = refuse_words(kind, &mut faults.lines);
    let _ = rt.stderr().write_all(faults.lines.bytes());
    Ok(status)
}

/// Runs the command line of these words over standard output, and prints the error messages after the
/// output. Returns the status.
fn run_line(
    rt: &HostRuntime,
    words: &GivenWords,
    faults: &mut Faults<'_>,
) -> Result<u8, AllocError> {
    let output = StandardOutput::new(rt.stdout(), faults.failures);
    let mut writer = Painted::new(Gathering::new(rt.alloc(), Device::new(output))?);
    let done = run_words(rt, words, &mut writer, faults);
    let is_written = done.is_ok() && writer.flush().is_ok();
    drop(writer);
    let status = done?;
    if faults.failures.is_output_closed() {
        return Ok(DEVICE_FAILED);
    }
    // If a device failed before, that was already reported.
    if !is_written && status != DEVICE_FAILED {
        return refuse_output(rt, faults.failures);
    }
    let _ = rt.stderr().write_all(faults.lines.bytes());
    Ok(status)
}

/// Reports that the output failed, and nothing else. Returns the status.
fn refuse_output(rt: &HostRuntime, failures: &Failures) -> Result<u8, AllocError> {
    let mut faults = Faults::new(rt.alloc(), failures)?;
    let status = stop(&ToolError::Write, &mut faults.lines);
    faults.write_why(rt.alloc(), &ToolError::Write)?;
    let _ = rt.stderr().write_all(faults.lines.bytes());
    Ok(status)
}

/// Runs the command line and returns the status.
fn run_words<W: LiveSink>(
    rt: &HostRuntime,
    words: &GivenWords,
    writer: &mut Painted<W>,
    faults: &mut Faults<'_>,
) -> Result<u8, AllocError> {
    let failures = faults.failures;
    match read_words(rt.alloc(), words.texts(), writer, &mut faults.lines) {
        Ok(Invocation::Stream(options)) => {
            if options.task == Task::Show && !set_style(rt, &options.style, writer, faults) {
                return Ok(BAD_ARGUMENTS);
            }
            failures.set_explains(is_explained(rt, options.explains, options.never_explains));
            run_task(rt, &options, writer, faults)
        }
        Ok(
            Invocation::Play {
                explains,
                never_explains,
                file,
            },
        ) => {
            failures.set_explains(is_explained(rt, explains, never_explains));
            run_script(rt, file, writer, faults)
        }
        Ok(Invocation::Serve(serving)) => run_serve(rt, &serving, writer, faults),
        Ok(Invocation::Tap(tapping)) => run_tap(rt, &tapping, writer, faults),
        Ok(Invocation::Proxy(proxying)) => run_proxy(rt, &proxying, writer, faults),
        Ok(Invocation::Ask(asking)) => {
            if !set_style(rt, &asking.options.style, writer, faults) {
                return Ok(BAD_ARGUMENTS);
            }
            failures.set_explains(is_explained(rt, false, false));
            let command = words.of_command(rt.alloc(), &asking)?;
            run_ask(rt, &asking, command, writer, faults)
        }
        Err(status) => Ok(status),
    }
}

/// Sets the style that the options ask for. If a word is wrong, reports it and returns false.
fn set_style<W: LiveSink>(
    rt: &HostRuntime,
    options: &StyleOptions<'_>,
    writer: &mut Painted<W>,
    faults: &mut Faults<'_>,
) -> bool {
    let Some(style) = style_of(rt, options, faults) else {
        return false;
    };
    writer.set_style(style);
    true
}

/// Runs the command on the file named in the options, or on standard input, and returns the status.
fn run_task<W: LiveSink>(
    rt: &HostRuntime,
    options: &Options<'_>,
    writer: &mut W,
    faults: &mut Faults<'_>,
) -> Result<u8, AllocError>
    requires { (1 ≤ options.now.piece) × (options.now.piece ≤ 65536) }
{
    let alloc = rt.alloc();
    tell_waiting(rt, options.file);
    if options.file == STANDARD_INPUT {
        return run_stream(alloc, options, rt.stdin(), writer, faults);
    }
    match open_file(rt, options.file) {
        Ok(file) => run_stream(alloc, options, file, writer, faults),
        Err(error) => {
            let status = faults.refuse_opening(alloc, options.file, &error)?;
            if error.kind() == ErrorKind::NotFound {
                let _ = write_file_hint(options.file, &mut faults.lines);
            }
            Ok(status)
        }
    }
}

/// Returns whether errors are explained: if an option requests it, or if standard error is a terminal
/// and no option forbids it.
fn is_explained(rt: &HostRuntime, explains: bool, never_explains: bool) -> bool {
    !never_explains && (explains || rt.stderr().is_terminal())
}

/// Runs the command on a stream and returns the status. If errors are explained, prints an
/// explanation after the line of a fault.
fn run_stream<R: Read + Drop, W: LiveSink>(
    alloc: Global,
    options: &Options<'_>,
    stream: R,
    writer: &mut W,
    faults: &mut Faults<'_>,
) -> Result<u8, AllocError>
    requires { (1 ≤ options.now.piece) × (options.now.piece ≤ 65536) }
{
    let mut reader = Device::new(WatchedInput::new(stream, faults.failures));
    if !faults.failures.explains() {
        return Ok(run_options(alloc, options, &mut reader, writer, &mut faults.lines));
    }
    let mut watched = PlacedSource::new(alloc, reader, options.version, &options.limits);
    let done = run_watched(alloc, options, &mut watched, writer, faults);
    drop(watched);
    done
}

/// Runs the command on a stream and returns the status. Prints an explanation after the line of a
/// fault.
fn run_watched<R: LiveSource<W>, W: LiveSink>(
    alloc: Global,
    options: &Options<'_>,
    watched: &mut PlacedSource<R>,
    writer: &mut W,
    faults: &mut Faults<'_>,
) -> Result<u8, AllocError>
    requires { (1 ≤ options.now.piece) × (options.now.piece ≤ 65536) }
{
    match perform(alloc, options, watched, writer) {
        Ok(()) => Ok(0),
        Err(error) => {
            let status = stop(&error, &mut faults.lines);
            let _ = explain(alloc, &error, options, watched, &mut faults.lines);
            faults.write_why(alloc, &error)?;
            Ok(status)
        }
    }
}

/// Plays the script in this file, or on standard input, and returns the status.
fn run_script<W: Sink>(
    rt: &HostRuntime,
    file: &str,
    writer: &mut W,
    faults: &mut Faults<'_>,
) -> Result<u8, AllocError> {
    tell_waiting(rt, file);
    if file == STANDARD_INPUT {
        return run_loop(rt, rt.stdin(), writer, faults);
    }
    match open_file(rt, file) {
        Ok(opened) => run_loop(rt, opened, writer, faults),
        Err(error) => faults.refuse_opening(rt.alloc(), file, &error),
    }
}

/// Plays the script in the input over TCP and returns the status. If requested, explains after the
/// error why the line is bad.
fn run_loop<R: Read + Drop, W: Sink>(
    rt: &HostRuntime,
    input: R,
    writer: &mut W,
    faults: &mut Faults<'_>,
) -> Result<u8, AllocError> {
    let alloc = rt.alloc();
    let bytes = match read_input(
        alloc,
        &mut Device::new(WatchedInput::new(input, faults.failures)),
    ) {
        Ok(bytes) => bytes,
        Err(error) => {
            let status = stop(&error, &mut faults.lines);
            faults.write_why(alloc, &error)?;
            return Ok(status);
        }
    };
    let script = match read_script(alloc, bytes.as_slice()) {
        Ok(script) => script,
        Err(error) => {
            let _ = error.line(&mut faults.lines);
            if faults.failures.explains() {
                let _ = error.explain(&mut faults.lines);
            }
            return Ok(error.status());
        }
    };
    play_script(rt, &script, writer, faults)
}

/// Plays a script over TCP and returns the status.
fn play_script<W: Sink>(
    rt: &HostRuntime,
    script: &Script,
    writer: &mut W,
    faults: &mut Faults<'_>,
) -> Result<u8, AllocError> {
    let alloc = rt.alloc();
    let mut links = Vec::new(alloc);
    if let Some(status) = connect(rt, script, &mut links, faults)? {
        return Ok(status);
    }
    let Ok(hasher) = RandomState::new(rt) else {
        return Ok(stop(&ToolError::Read, &mut faults.lines));
    };
    let Ok(mut world) = World::over(alloc, links, Limits::standard(), hasher) else {
        return Err(AllocError);
    };
    let done = play_in(alloc, script, &mut world, writer, faults);
    drop(world);
    done
}

/// Opens the connections of a script. Returns the status if one of them cannot be opened.
fn connect(
    rt: &HostRuntime,
    script: &Script,
    links: &mut Vec<TcpLink>,
    faults: &mut Faults<'_>,
) -> Result<Option<u8>, AllocError> {
    for index in 0..script.clients {
        match TcpLink::connect(rt) {
            Ok(link) => links.push(link)?,
            Err(error) => {
                let client = index as u64 + 1;
                let status = refuse_connection(rt.alloc(), client, &error, faults)?;
                return Ok(Some(status));
            }
        }
    }
    Ok(None)
}

/// Plays a script in a world and returns the status.
fn play_in<W: Sink>(
    alloc: Global,
    script: &Script,
    world: &mut World<TcpLink, RandomState>,
    writer: &mut W,
    faults: &mut Faults<'_>,
) -> Result<u8, AllocError> {
    match play(alloc, script, world, writer) {
        Ok(()) => Ok(0),
        Err(error) => {
            let _ = error.line(&mut faults.lines);
            if let PlayError::Write = error {
                faults.write_why(alloc, &ToolError::Write)?;
            }
            Ok(error.status())
        }
    }
}

/// Writes the error for a connection of `loop` that cannot be opened, and the reason if requested.
/// Returns the exit status.
fn refuse_connection(
    alloc: Global,
    client: u64,
    error: &io::Error,
    faults: &mut Faults<'_>,
) -> Result<u8, AllocError> {
    let status = stop(&ToolError::Read, &mut faults.lines);
    if faults.failures.explains() {
        let why = format!(in alloc; "{error}")?;
        let _ = write_no_connection(&mut faults.lines, client, why.as_str().as_bytes());
    }
    Ok(status)
}
