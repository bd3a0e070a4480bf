//! Runs a command line, and returns the exit status.

ghost use Rattle.std.specs.Prelude.{◌≡◌, ◌≢◌, ◌≤◌, ◌+◌, ℕ, List, [], Some, IfSome, map};
ghost use Rattle.clap.specs.Words.{App};
ghost use Rattle.resp_cli_args.specs.Program.{IsProgram};
ghost use Rattle.resp_cli_stream.specs.Runs.{DoesWords, HasFailures, HasRun, Lives, TaskWrites};
ghost use Rattle.resp_cli_stream.specs.Streams.{AreRead, AtEnd, UsesReader, failed_to_write};
ghost use Rattle.resp_cli_args.specs.Tried.{WritesSome};
ghost use Rattle.resp_io.specs.Devices.{failures_after};
ghost use Rattle.resp_value.specs.Rules.{rules_under};

use crate::canon::canon;
use crate::check::check;
use crate::json::show_json;
use crate::show::show;
use crate::stream::MOST_READS;
use resp_cli_args::asked::Invocation;
use resp_cli_args::options::{Options, STANDARD_INPUT, Task};
use resp_cli_args::tool_error::ToolError;
use resp_cli_args::words::{read_words, refuse_request, stop};
use resp_io::device::Sink;
use resp_io::live::{LiveSink, LiveSource};
use resp_print::text::write_text;
use std::alloc::Global;
use std::convert::AsStr;

/// The exit status of a usage error.
const BAD_ARGUMENTS: u8 = 2;

/// Runs the task that the options select. It reads the input from `reader`, and writes the output
/// to `writer`. The caller flushes the writer at the end.
///
/// # Errors
///
/// The errors of [`show`], [`show_json`], [`check`] or [`canon`].
pub fn perform<R: LiveSource<W>, W: LiveSink>(
    alloc: Global,
    options: &Options<'_>,
    reader: &mut R,
    writer: &mut W,
) -> Result<(), ToolError>
    requires { (1 ≤ options.now.piece) × (options.now.piece ≤ 65536) }
    ensures ran { (bytes : List ℕ) × AreRead (R.remaining reader.old) (R.remaining reader.new)
        bytes × TaskWrites options.now.task options.now.style.json (rules_under options.now.version options.now.limits)
        bytes (W.written writer.old) (W.written writer.new) result }
    ensures read_to_its_end { AtEnd result (IfSome (R.remaining reader.old) (λ _.
        R.remaining reader.new ≡ Some [])) }
    ensures live { Lives options.now.task options.now.style.json (rules_under options.now.version options.now.limits)
        (R.remaining reader.old) (W.written writer.old) (R.looks reader.old)
        (R.looks reader.new) }
    ensures reads { UsesReader MOST_READS result (R.calls reader.old) (R.calls reader.new)
        (R.failures reader.old) (R.failures reader.new) }
    ensures write_failures { W.failures writer.new ≡
        failures_after (failed_to_write result) (W.failures writer.old) }
{
    let version = options.version;
    let limits = options.limits;
    let piece = options.piece;
    match options.task {
        Task::Show if options.style.json => {
            show_json(alloc, version, &limits, piece, reader, writer)
        }
        Task::Show => show(alloc, version, &limits, piece, reader, writer),
        Task::Check => check(alloc, version, &limits, piece, reader, writer),
        Task::Canon => canon(alloc, version, &limits, piece, reader, writer),
    }
}

/// Runs the task of the options over the stream of `reader`, and returns the exit status: 0 if all
/// input was read, 1 if the input contains an error, and 3 if a device or an allocation failed. The
/// line of an error is written to `faults`; if that fails, the status stays the same. The caller
/// flushes the writer at the end.
pub fn run_options<R: LiveSource<W>, W: LiveSink, F: Sink>(
    alloc: Global,
    options: &Options<'_>,
    reader: &mut R,
    writer: &mut W,
    faults: &mut F,
) -> u8
    requires { (1 ≤ options.now.piece) × (options.now.piece ≤ 65536) }
    ensures status { (result ≤ 3) × (result ≢ 2) }
    ensures ran { HasRun options.now.task options.now.style.json
        (rules_under options.now.version options.now.limits) (R.remaining reader.old)
        (R.remaining reader.new) (W.written writer.old) (W.written writer.new)
        (F.written faults.old) (F.written faults.new) (R.looks reader.old) (R.looks reader.new)
        (F.failures faults.old) (F.failures faults.new) result }
    ensures reads_bounded { R.calls reader.new ≤ R.calls reader.old + MOST_READS }
    ensures nothing_told_at_zero { result ≡ 0 → faults.new ≡ faults.old }
    ensures failures { HasFailures result (F.written faults.old) (F.written faults.new)
        (F.failures faults.old) (F.failures faults.new) (R.failures reader.old)
        (R.failures reader.new) (W.failures writer.old) (W.failures writer.new) }
{
    match perform(alloc, options, reader, writer) {
        Ok(()) => 0,
        Err(error) => stop(&error, faults),
    }
}

/// Runs a command line over the stream of `reader`. The first word is the name of the program.
/// Returns the exit status:
///
/// - 0 if all input was read, or help was written;
/// - 1 if the input contains an error;
/// - 2 if the words are wrong, if they name a file or ask for an explanation, or if they do not ask
///   for a stream to be read;
/// - 3 if a device or an allocation failed.
///
/// The line of an error is written to `faults`; if that fails, the status stays the same. The
/// caller flushes the writer at the end.
pub fn command<S: AsStr, R: LiveSource<W>, W: LiveSink, F: Sink>(
    alloc: Global,
    words: &[S],
    reader: &mut R,
    writer: &mut W,
    faults: &mut F,
) -> u8
    ensures at_most_three { result ≤ 3 }
    ensures does { (program : App) × IsProgram program × DoesWords program
        (map S.text words.now) (reader.new ≡ reader.old) (WritesSome (W.written writer.old)
        (W.written writer.new) (W.failures writer.old) (W.failures writer.new)) (λ options. HasRun options.task options.style.json
        (rules_under options.version options.limits) (R.remaining reader.old)
        (R.remaining reader.new) (W.written writer.old) (W.written writer.new)
        (F.written faults.old) (F.written faults.new) (R.looks reader.old) (R.looks reader.new)
        (F.failures faults.old) (F.failures faults.new) result) result }
    ensures reads_bounded { R.calls reader.new ≤ R.calls reader.old + MOST_READS }
    ensures nothing_told_at_zero { result ≡ 0 → faults.new ≡ faults.old }
    ensures failures { HasFailures result (F.written faults.old) (F.written faults.new)
        (F.failures faults.old) (F.failures faults.new) (R.failures reader.old)
        (R.failures reader.new) (W.failures writer.old) (W.failures writer.new) }
    ensures nothing_at_two { result ≡ 2 →
        (reader.new ≡ reader.old) × (writer.new ≡ writer.old) }
{
    let asked = match read_words(alloc, words, writer, faults) {
        Ok(asked) => asked,
        Err(status) => return status,
    };
    let Invocation::Stream(options) = asked else {
        return refuse_request(faults);
    };
    if options.file != STANDARD_INPUT {
        let _ = write_text(faults, b"error: these words name a file\n");
        return BAD_ARGUMENTS;
    }
    if options.explains {
        let _ = write_text(faults, b"error: these words ask for an explanation\n");
        return BAD_ARGUMENTS;
    }
    run_options(alloc, &options, reader, writer, faults)
}
