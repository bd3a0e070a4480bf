//! The meaning of a command line: a subcommand with its options.

ghost use Rattle.std.specs.Prelude.{◌≢◌, IfErr, IfOk, OnErr, codes};
ghost use Rattle.clap.specs.Words.{found_of, rows_of, subcommand_rows_of};
ghost use Rattle.resp_cli_args.specs.CommandWords.{Enters, IsAsked, task_word};

use crate::asking::{Asking, asking_of};
use crate::bad_address::{LISTENER, SERVER, write_bad_address};
use crate::duration::{DAY, HOUR, MILLISECOND, SECOND, pause_of, time_of};
use crate::options::{MOST_BYTES, Options, Task, flag_of, options_of, text_of};
use crate::proxying::{Proxying, proxying_of};
use crate::serving::{Serving, serving_of};
use crate::sizes::size_of;
use crate::tapping::{Tapping, tapping_of};
use clap::ArgMatches;
use resp_io::device::{DeviceFault, Sink};
use resp_print::text::{write_number, write_text};
use std::alloc::Global;

/// The line for words that ask for something that is not done here.
pub(crate) const OTHER_WORDS: &[u8] = b"error: these words ask for nothing here\n";

/// The lines for a capture and an address.
const BOTH: &[u8] = b"error: the argument '--replay <FILE>' cannot be used with '<LISTEN>'\n\n\
    Usage: resp tap --replay <FILE>\n\nFor more information, try '--help'.\n";

/// The lines for two captures.
const BOTH_FILES: &[u8] =
    b"error: the argument '--replay <FILE>' cannot be used with '--record <FILE>'\n\n\
    Usage: resp tap --replay <FILE>\n\nFor more information, try '--help'.\n";

/// The lines for `--all` without `--check`.
const ALL_ALONE: &[u8] = b"error: the argument '--all' needs '--check': it lists the commands \
    of the server, and serves no client\n\nFor more information, try '--help'.\n";

/// The end of the lines about missing addresses.
const NEEDS_ADDRESSES: &[u8] = b"  <SERVER>\n\nUsage: resp tap [OPTIONS] <LISTEN> <SERVER>\n       \
    resp tap [OPTIONS] --replay <FILE>\n\nFor more information, try '--help'.\n";

/// The number of bytes of the unit `K`.
const KILO: u64 = 1_024;

/// The number of bytes of the unit `M`.
const MEGA: u64 = 1_048_576;

/// The number of bytes of the unit `G`.
const GIGA: u64 = 1_073_741_824;

/// What a command line asks for.
#[derive(Drop)]
pub enum Invocation<'a> {
    /// Read a stream: `show`, `check` or `canon`.
    Stream(Options<'a>),
    /// Play a script: `loop`.
    Play {
        /// Whether `--explain` is given: a bad line is explained.
        explains: bool,
        /// Whether `--no-explain` is given, which has precedence over `--explain`.
        never_explains: bool,
        /// The name of the file to read, or [`STANDARD_INPUT`](crate::options::STANDARD_INPUT).
        file: &'a str,
    },
    /// Serve clients: `serve`.
    Serve(Serving<'a>),
    /// Forward connections: `tap`.
    Tap(Tapping<'a>),
    /// Share one connection to a server: `proxy`.
    Proxy(Proxying<'a>),
    /// Send commands: `ask`.
    Ask(Asking<'a>),
}

/// Why a command line asks for nothing that can be done.
#[derive(Clone, Copy)]
pub(crate) enum NothingAsked<'a> {
    /// It asks for something that is not done here.
    OtherWords,
    /// The text is not an address.
    BadAddress {
        text: &'a str,
        /// The name of the argument.
        name: &'a str,
    },
    /// The text is not the address of a server.
    BadServer {
        text: &'a str,
    },
    /// The text of `--also` is no list of names of commands.
    BadNames {
        text: &'a str,
    },
    /// `--all` is given to `proxy` without `--check`.
    AllWithoutCheck,
    /// The text of an option is no number of bytes in its range.
    BadSize {
        text: &'a str,
        name: &'static str,
        least: u64,
        most: u64,
    },
    /// The text of an option is no time in its range.
    BadTime {
        text: &'a str,
        name: &'static str,
        /// The unit of an example, and the times that the option accepts.
        unit: &'static str,
        range: &'static str,
    },
    /// An address of `tap` is missing: that of the server if `listens` is true, and otherwise both.
    NoAddress {
        listens: bool,
    },
    /// Both a capture and an address are given to `tap`.
    BothFileAndAddress,
    /// Both a capture to be read and one to be written are given to `tap`.
    BothFiles,
    /// An allocation failed.
    Memory,
}

impl NothingAsked<'_> {
    /// Writes the line for standard error.
    pub(crate) fn write<F: Sink>(self, faults: &mut F) -> Result<(), DeviceFault> {
        match self {
            Self::OtherWords => write_text(faults, OTHER_WORDS),
            Self::Memory => write_text(faults, b"out of memory\n"),
            Self::BadAddress { text, name } => write_bad_address(text, name, LISTENER, faults),
            Self::BadServer { text } => write_bad_address(text, "SERVER", SERVER, faults),
            Self::BadNames { text } => write_bad_names(text, faults),
            Self::AllWithoutCheck => write_text(faults, ALL_ALONE),
            Self::NoAddress { listens } => write_no_address(listens, faults),
            Self::BothFileAndAddress => write_text(faults, BOTH),
            Self::BothFiles => write_text(faults, BOTH_FILES),
            Self::BadSize {
                text,
                name,
                least,
                most,
            } => write_bad_size(text, name, least, most, faults),
            Self::BadTime {
                text,
                name,
                unit,
                range,
            } => write_bad_time(text, name, unit, range, faults),
        }
    }
}

/// Writes what is wrong with the names of `--also`.
fn write_bad_names<F: Sink>(text: &str, faults: &mut F) -> Result<(), DeviceFault> {
    write_text(faults, b"error: invalid value '")?;
    write_text(faults, text.as_bytes())?;
    write_text(
        faults,
        b"' for '--also <NAMES>': expected names of commands with a comma between two of them, such as JSON.GET,JSON.SET; a name is one word of at most 64 bytes, and a subcommand can't be named\n\n",
    )?;
    write_text(faults, b"For more information, try '--help'.\n")
}

/// Writes which addresses of `tap` are missing.
fn write_no_address<F: Sink>(listens: bool, faults: &mut F) -> Result<(), DeviceFault> {
    write_text(
        faults,
        b"error: the following required arguments were not provided:\n",
    )?;
    if !listens {
        write_text(faults, b"  <LISTEN>\n")?;
    }
    write_text(faults, NEEDS_ADDRESSES)
}

/// Writes the range of an option that is a number of bytes.
fn write_bad_size<F: Sink>(
    text: &str,
    name: &str,
    least: u64,
    most: u64,
    faults: &mut F,
) -> Result<(), DeviceFault> {
    write_text(faults, b"error: invalid value '")?;
    write_text(faults, text.as_bytes())?;
    write_text(faults, b"' for '--")?;
    write_text(faults, name.as_bytes())?;
    write_text(faults, b" <N>': expected a size from ")?;
    write_size(least, faults)?;
    write_text(faults, b" to ")?;
    write_size(most, faults)?;
    write_text(faults, b", such as 4096 or 64K\n\n")?;
    write_text(faults, b"For more information, try '--help'.\n")
}

/// Writes a number of bytes in the greatest unit of which it is a multiple.
fn write_size<F: Sink>(bytes: u64, faults: &mut F) -> Result<(), DeviceFault> {
    if bytes >= GIGA && bytes % GIGA == 0 {
        write_number(faults, b"", bytes / GIGA, b"G")
    } else if bytes >= MEGA && bytes % MEGA == 0 {
        write_number(faults, b"", bytes / MEGA, b"M")
    } else if bytes >= KILO && bytes % KILO == 0 {
        write_number(faults, b"", bytes / KILO, b"K")
    } else {
        write_number(faults, b"", bytes, b"")
    }
}

/// Writes the times that an option accepts, or that a number other than 0 needs a unit.
fn write_bad_time<F: Sink>(
    text: &str,
    name: &str,
    unit: &str,
    range: &str,
    faults: &mut F,
) -> Result<(), DeviceFault> {
    write_text(faults, b"error: invalid value '")?;
    write_text(faults, text.as_bytes())?;
    write_text(faults, b"' for '--")?;
    write_text(faults, name.as_bytes())?;
    if text.parse::<u64>().unwrap_or(0) > 0 {
        write_text(
            faults,
            b" <TIME>': a time needs a unit (us, ms, s, m or h), such as ",
        )?;
        write_text(faults, text.as_bytes())?;
        write_text(faults, unit.as_bytes())?;
    } else {
        write_text(faults, b" <TIME>': expected ")?;
        write_text(faults, range.as_bytes())?;
    }
    write_text(faults, b"\n\nFor more information, try '--help'.\n")
}

/// Returns why these options are wrong: a number of bytes, a time, or something else.
pub(crate) fn wrong_options<'a>(given: &ArgMatches<'a>) -> NothingAsked<'a> {
    if let Some(wrong) = wrong_size(given, "length", 64, 1_073_741_824) {
        return wrong;
    }
    if let Some(wrong) = wrong_size(given, "total", 256, MOST_BYTES) {
        return wrong;
    }
    if let Some(wrong) = wrong_size(given, "piece", 1, 65_536) {
        return wrong;
    }
    if let Some(wrong) = wrong_size(given, "client-buffer", 1, MOST_BYTES) {
        return wrong;
    }
    if let Some(wrong) = wrong_size(given, "shown", 32, MOST_BYTES) {
        return wrong;
    }
    if let Some(wrong) = wrong_size(given, "client-buffer-limit", 1, MOST_BYTES) {
        return wrong;
    }
    if let Some(wrong) = wrong_size(given, "server-buffer", 1, MOST_BYTES) {
        return wrong;
    }
    wrong_times(given).unwrap_or(NothingAsked::OtherWords)
}

/// Returns why these options ask for nothing, if a time is wrong.
fn wrong_times<'a>(given: &ArgMatches<'a>) -> Option<NothingAsked<'a>> {
    if let Some(text) = text_of(given, "server-timeout") {
        if time_of(text, MILLISECOND, HOUR).is_none() {
            return Some(NothingAsked::BadTime {
                text,
                name: "server-timeout",
                unit: "ms",
                range: "a time from 1ms to 1h, such as 500ms or 5s",
            });
        }
    }
    let range = "0, or a time from 1s to 24h, such as 10s";
    if let Some(wrong) = wrong_pause(given, "report", SECOND, range) {
        return Some(wrong);
    }
    if let Some(wrong) = wrong_pause(given, "stats-every", SECOND, range) {
        return Some(wrong);
    }
    let range = "0, or a time from 1ms to 24h, such as 30s";
    if let Some(wrong) = wrong_pause(given, "timeout", MILLISECOND, range) {
        return Some(wrong);
    }
    wrong_pause(given, "drain-timeout", MILLISECOND, range)
}

/// Returns why an option asks for nothing, if it is given and is neither 0 nor a time up to 24 h.
fn wrong_pause<'a>(
    given: &ArgMatches<'a>,
    name: &'static str,
    least: u64,
    range: &'static str,
) -> Option<NothingAsked<'a>> {
    let text = text_of(given, name)?;
    match pause_of(text, least, DAY) {
        Some(_) => None,
        None => Some(NothingAsked::BadTime {
            text,
            name,
            unit: "s",
            range,
        }),
    }
}

/// Returns why an option asks for nothing, if it is given and is no number of bytes in its range.
fn wrong_size<'a>(
    given: &ArgMatches<'a>,
    name: &'static str,
    least: u64,
    most: u64,
) -> Option<NothingAsked<'a>> {
    let text = text_of(given, name)?;
    match size_of(text, least, most) {
        Some(_) => None,
        None => Some(NothingAsked::BadSize {
            text,
            name,
            least,
            most,
        }),
    }
}

/// Returns what the words ask for, or why they ask for nothing.
pub(crate) fn asked_of<'a>(
    alloc: Global,
    matches: &ArgMatches<'a>,
) -> Result<Invocation<'a>, NothingAsked<'a>>
    ensures ok { IfOk result (Enters (subcommand_rows_of matches.now)) }
    ensures err { IfErr result (λ nothing. nothing ≢ NothingAsked.Memory → (asked : Invocation)
        → Enters (subcommand_rows_of matches.now) asked → ⊥) }
{
    match matches.subcommand() {
        Some((name, given)) => asked_by(alloc, name, given),
        None => Err(NothingAsked::OtherWords),
    }
}

/// Returns what a subcommand with these options asks for.
fn asked_by<'a>(
    alloc: Global,
    name: &str,
    given: &ArgMatches<'a>,
) -> Result<Invocation<'a>, NothingAsked<'a>>
    ensures ok { IfOk result (IsAsked name.now (rows_of (found_of given.now))) }
    ensures err { IfErr result (λ nothing. nothing ≢ NothingAsked.Memory → (asked : Invocation)
        → IsAsked name.now (rows_of (found_of given.now)) asked → ⊥) }
{
    match name {
        "show" => stream_of(Task::Show, given),
        "check" => stream_of(Task::Check, given),
        "canon" => stream_of(Task::Canon, given),
        "loop" => play_of(given),
        "serve" => serve_of(given),
        "tap" => tap_of(given),
        "proxy" => proxy_of(given),
        "ask" => ask_of(alloc, given),
        _ => Err(NothingAsked::OtherWords),
    }
}

/// Returns what `show`, `check` or `canon` with these options asks for.
fn stream_of<'a>(task: Task, given: &ArgMatches<'a>) -> Result<Invocation<'a>, NothingAsked<'a>>
    ensures ok { IfOk result (IsAsked (task_word task) (rows_of (found_of given.now))) }
    ensures err { OnErr result ((asked : Invocation)
        → IsAsked (task_word task) (rows_of (found_of given.now)) asked → ⊥) }
{
    match options_of(task, given) {
        Some(options) => Ok(Invocation::Stream(options)),
        None => Err(wrong_options(given)),
    }
}

/// Returns what `loop` with these options asks for.
fn play_of<'a>(given: &ArgMatches<'a>) -> Result<Invocation<'a>, NothingAsked<'a>>
    ensures ok { IfOk result (IsAsked (codes "loop") (rows_of (found_of given.now))) }
    ensures err { OnErr result ((asked : Invocation)
        → IsAsked (codes "loop") (rows_of (found_of given.now)) asked → ⊥) }
{
    let explains = flag_of(given, "explain");
    let never_explains = flag_of(given, "no-explain");
    match (explains, never_explains, text_of(given, "file")) {
        (Some(explains), Some(never_explains), Some(file)) => Ok(Invocation::Play {
            explains,
            never_explains,
            file,
        }),
        _ => Err(NothingAsked::OtherWords),
    }
}

/// Returns what `serve` with these options asks for.
fn serve_of<'a>(given: &ArgMatches<'a>) -> Result<Invocation<'a>, NothingAsked<'a>>
    ensures ok { IfOk result (IsAsked (codes "serve") (rows_of (found_of given.now))) }
    ensures err { OnErr result ((asked : Invocation)
        → IsAsked (codes "serve") (rows_of (found_of given.now)) asked → ⊥) }
{
    match serving_of(given) {
        Ok(serving) => Ok(Invocation::Serve(serving)),
        Err(nothing) => Err(nothing),
    }
}

/// Returns what `tap` with these options asks for.
fn tap_of<'a>(given: &ArgMatches<'a>) -> Result<Invocation<'a>, NothingAsked<'a>>
    ensures ok { IfOk result (IsAsked (codes "tap") (rows_of (found_of given.now))) }
    ensures err { OnErr result ((asked : Invocation)
        → IsAsked (codes "tap") (rows_of (found_of given.now)) asked → ⊥) }
{
    match tapping_of(given) {
        Ok(tapping) => Ok(Invocation::Tap(tapping)),
        Err(nothing) => Err(nothing),
    }
}

/// Returns what `proxy` with these options asks for.
fn proxy_of<'a>(given: &ArgMatches<'a>) -> Result<Invocation<'a>, NothingAsked<'a>>
    ensures ok { IfOk result (IsAsked (codes "proxy") (rows_of (found_of given.now))) }
    ensures err { OnErr result ((asked : Invocation)
        → IsAsked (codes "proxy") (rows_of (found_of given.now)) asked → ⊥) }
{
    match proxying_of(given) {
        Ok(proxying) => Ok(Invocation::Proxy(proxying)),
        Err(nothing) => Err(nothing),
    }
}

/// Returns what `ask` with these options asks for.
fn ask_of<'a>(alloc: Global, given: &ArgMatches<'a>) -> Result<Invocation<'a>, NothingAsked<'a>>
    ensures ok { IfOk result (IsAsked (codes "ask") (rows_of (found_of given.now))) }
    ensures err { IfErr result (λ nothing. nothing ≢ NothingAsked.Memory → (asked : Invocation)
        → IsAsked (codes "ask") (rows_of (found_of given.now)) asked → ⊥) }
{
    match asking_of(alloc, given) {
        Ok(asking) => Ok(Invocation::Ask(asking)),
        Err(nothing) => Err(nothing),
    }
}
