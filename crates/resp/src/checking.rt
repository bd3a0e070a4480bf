//! `resp proxy --check`, which asks a server for its commands and prints what the proxy would do with them.

use crate::asking::write_why;
use crate::failures::{Faults, WatchedInput, WatchedOutput};
use crate::hints::write_path_hint;
use crate::hosts::password_of;
use crate::server_stream::ServerStream;
use crate::survey::{Survey, SurveyError};
use resp_cli_args::proxying::Proxying;
use resp_cli_ask::talk::bytes_of;
use resp_cli_ask::{ExchangeError, Failure};
use resp_client::{Client, What};
use resp_io::device::{Device, DeviceFault, Sink, Source, write_all};
use resp_io::live::LiveSink;
use resp_net::Address;
use resp_print::text::{write_quoted, write_text};
use resp_value::command::Command;
use resp_value::limits::Limits;
use resp_value::value::Value;
use std::alloc::{AllocError, Global};
use std::time::Duration;

/// The exit status if the server has a command that the proxy does not know, or rejects AUTH or COMMAND.
const UNKNOWN: u8 = 1;

/// The maximum number of bytes of one read.
const PIECE: usize = 16_384;

/// The maximum number of reads.
const MOST_READS: u64 = 4_000_000_000;

/// Why there is no table.
#[derive(Drop)]
pub enum CheckError {
    /// The connection, the output or an allocation failed, or a reply is not valid.
    Ask(ExchangeError),
    /// The reply is an error, or not a list of commands.
    Reply(Value),
}

impl From<ExchangeError> for CheckError {
    fn from(error: ExchangeError) -> Self {
        CheckError::Ask(error)
    }
}

impl From<AllocError> for CheckError {
    fn from(_: AllocError) -> Self {
        CheckError::Ask(ExchangeError::Memory)
    }
}

/// Prints what the proxy would do with the commands of the server at one of these addresses. Returns the
/// exit status.
pub(crate) fn run_check<O: LiveSink>(
    rt: &HostRuntime,
    proxying: &Proxying<'_>,
    server: &str,
    addresses: &[Address],
    output: &mut O,
    faults: &mut Faults<'_>,
) -> Result<u8, AllocError> {
    let alloc = rt.alloc();
    let timeout = Duration::from_micros(proxying.options.times.server_timeout);
    let stream = match ServerStream::connect(rt, addresses, Some(timeout)) {
        Ok(stream) => stream,
        Err(error) => {
            let status = faults.refuse_connection(alloc, server, &error)?;
            let _ = write_path_hint(rt, &proxying.server, &mut faults.lines);
            return Ok(status);
        }
    };
    let mut reader = Device::new(WatchedInput::new(&stream, faults.failures));
    let mut writer = Device::new(WatchedOutput::new(&stream, faults.failures));
    let password = password_of(rt);
    let checked = check(
        alloc,
        proxying,
        server,
        password.as_deref(),
        &mut reader,
        &mut writer,
        output,
    );
    match checked {
        Ok(status) => Ok(status),
        Err(error) => refuse(alloc, server, error, faults),
    }
}

/// Reports why there is no table, and returns the exit status.
fn refuse(
    alloc: Global,
    server: &str,
    error: CheckError,
    faults: &mut Faults<'_>,
) -> Result<u8, AllocError> {
    match error {
        CheckError::Reply(reply) => {
            let _ = write_reply(server, &reply, &mut faults.lines);
            drop(reply);
            Ok(UNKNOWN)
        }
        CheckError::Ask(error) => {
            let failure = Failure::Ask(error);
            if failure.is_of_read() && faults.failures.is_late() {
                let _ = write_no_reply(server, &mut faults.lines);
                return Ok(failure.status());
            }
            let _ = failure.write(1, &mut faults.lines);
            write_why(alloc, &failure, faults)?;
            Ok(failure.status())
        }
    }
}

/// Asks the server for its commands and prints the table. Returns the exit status.
fn check<R: Source, W: Sink, O: Sink>(
    alloc: Global,
    proxying: &Proxying<'_>,
    server: &str,
    password: Option<&str>,
    reader: &mut R,
    writer: &mut W,
    output: &mut O,
) -> Result<u8, CheckError> {
    let survey = survey(alloc, proxying, password, reader, writer)?;
    let printed = print(&survey, proxying, server, output);
    drop(survey);
    printed
}

/// Asks the server for its commands, and returns what the proxy does with them.
pub(crate) fn survey<R: Source, W: Sink>(
    alloc: Global,
    proxying: &Proxying<'_>,
    password: Option<&str>,
    reader: &mut R,
    writer: &mut W,
) -> Result<Survey, CheckError> {
    let mut client = Client::new(alloc, &Limits::standard());
    let reply = commands(alloc, &mut client, password, reader, writer);
    drop(client);
    survey_of(alloc, reply?, proxying)
}

/// Sends AUTH if there is a password, and returns the reply to COMMAND.
fn commands<R: Source, W: Sink>(
    alloc: Global,
    client: &mut Client,
    password: Option<&str>,
    reader: &mut R,
    writer: &mut W,
) -> Result<Value, CheckError> {
    if let Some(password) = password {
        let reply = ask(alloc, client, &["AUTH", password], reader, writer)?;
        accept(reply)?;
    }
    Ok(ask(alloc, client, &["COMMAND"], reader, writer)?)
}

/// Fails if a reply is an error.
fn accept(reply: Value) -> Result<(), CheckError> {
    if let Value::Error(_) = &reply {
        return Err(CheckError::Reply(reply));
    }
    drop(reply);
    Ok(())
}

/// Returns the survey of a server that sent this reply to COMMAND.
fn survey_of(alloc: Global, reply: Value, proxying: &Proxying<'_>) -> Result<Survey, CheckError> {
    match Survey::of_reply(alloc, &reply, proxying) {
        Ok(survey) => {
            drop(reply);
            Ok(survey)
        }
        Err(SurveyError::NoList) => Err(CheckError::Reply(reply)),
        Err(SurveyError::Memory) => {
            drop(reply);
            Err(ExchangeError::Memory.into())
        }
    }
}

/// Prints a survey. Returns the exit status.
fn print<O: Sink>(
    survey: &Survey,
    proxying: &Proxying<'_>,
    server: &str,
    output: &mut O,
) -> Result<u8, CheckError> {
    let printed = if proxying.all {
        survey.print_all(output)
    } else {
        survey.print(server, output)
    };
    match printed {
        Ok(()) if survey.has_unknown() => Ok(UNKNOWN),
        Ok(()) => Ok(0),
        Err(_) => Err(ExchangeError::Output.into()),
    }
}

/// Sends a command and returns the reply.
fn ask<R: Source, W: Sink>(
    alloc: Global,
    client: &mut Client,
    words: &[&str],
    reader: &mut R,
    writer: &mut W,
) -> Result<Value, ExchangeError> {
    let Ok(command) = Command::new(bytes_of(alloc, words)?) else {
        return Err(ExchangeError::Memory);
    };
    if let Err(error) = client.send(&command) {
        return Err(ExchangeError::Refused(error));
    }
    if write_all(writer, client.out()).is_err() {
        return Err(ExchangeError::Write);
    }
    let length = client.out().len();
    client.sent(length);
    read_reply(client, reader, &mut [0; PIECE])
}

/// Reads the next reply.
fn read_reply<R: Source>(
    client: &mut Client,
    reader: &mut R,
    buffer: &mut [u8],
) -> Result<Value, ExchangeError> {
    for _ in 0..MOST_READS {
        let count = match reader.read(buffer) {
            Ok(0) => return Err(ExchangeError::Ended),
            Ok(count) => count,
            Err(_) => return Err(ExchangeError::Read),
        };
        let mut rest = &buffer[..count];
        for _ in 0..count {
            if rest.is_empty() {
                break;
            }
            let heard = match client.feed(rest) {
                Ok(heard) => heard,
                Err(fault) => return Err(ExchangeError::Fault(fault)),
            };
            rest = &rest[heard.used..];
            match heard.what {
                What::Reply { value, .. } => return Ok(value),
                other => drop(other),
            }
        }
    }
    Err(ExchangeError::TooManyTurns)
}

/// Writes that the server did not reply in time.
fn write_no_reply<F: Sink>(server: &str, faults: &mut F) -> Result<(), DeviceFault> {
    write_text(faults, server.as_bytes())?;
    write_text(faults, b": no reply within the time of --server-timeout\n")
}

/// Writes that a reply is an error, or no list of commands.
fn write_reply<F: Sink>(server: &str, reply: &Value, faults: &mut F) -> Result<(), DeviceFault> {
    write_text(faults, server.as_bytes())?;
    match reply {
        Value::Error(line) => {
            write_text(faults, b": the server replied \"")?;
            write_quoted(faults, line.text())?;
            write_text(faults, b"\"\n")
        }
        _ => write_text(
            faults,
            b": the reply to COMMAND is not a list of commands\n",
        ),
    }
}
