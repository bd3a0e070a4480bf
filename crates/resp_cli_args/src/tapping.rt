//! The options of `resp tap`.

ghost use Rattle.std.specs.Prelude.{IfNone, IfOk, IfSome, OnErr};
ghost use Rattle.clap.specs.Words.{found_of, rows_of};
ghost use Rattle.resp_cli_args.specs.CommandWords.{HasFilter, HasStats, HasTapOptions, HasTapping};

use crate::asked::{NothingAsked, wrong_options};
use crate::duration::{DAY, MILLISECOND, SECOND};
use crate::options::{
    MOST_BYTES, bytes_of, flag_of, limits_of, most_of, number_of, pause_between, text_of,
};
use crate::style::{StyleOptions, style_of};
use crate::traffic::{Traffic, traffic_of};
use clap::ArgMatches;
use resp_value::limits::Limits;

/// The options of `resp tap`.
#[derive(Clone, Copy)]
pub struct Tapping<'a> {
    /// Where the traffic comes from.
    pub traffic: Traffic<'a>,
    /// The limits, which allow doubles.
    pub limits: Limits,
    /// The maximum number of clients at once, from 1 to 65,536, if it is given.
    pub clients: Option<usize>,
    /// The microseconds after which a tap that drains closes the clients that are still open, at most 24 h.
    pub drain_timeout: u64,
    /// The text that says where the bytes of the server are cut, if it is given.
    pub cut: Option<&'a str>,
    /// Whether times are printed.
    pub tells_time: bool,
    /// Whether times are printed with their dates.
    pub tells_date: bool,
    /// Whether the tap ends at once when its output fails.
    pub exits_with_output: bool,
    /// Whether clients are accepted after its output has failed.
    pub keeps_going: bool,
    /// Whether the client's bytes are arrays only, and a line is an error.
    pub refuses_lines: bool,
    /// Whether passwords in commands are printed.
    pub shows_passwords: bool,
    /// The maximum number of bytes of a word or of a text that are printed, from 32 to 1,024 GiB.
    pub shown: usize,
    /// How text is printed.
    pub style: StyleOptions<'a>,
    /// Which commands are printed, or counted.
    pub filter: FilterOptions<'a>,
    /// Whether commands are counted instead of printed.
    pub stats: StatsOptions,
}

/// The options that say that commands are counted.
#[derive(Clone, Copy)]
pub struct StatsOptions {
    /// Whether `--stats` is given.
    pub is_on: bool,
    /// The microseconds between two tables, or 0 if the only table is printed when the last
    /// connection closes. Any other number implies `--stats`.
    pub every: u64,
}

/// The options that say which commands are printed.
#[derive(Clone, Copy)]
pub struct FilterOptions<'a> {
    /// Whether only commands are printed whose reply is an error.
    pub errors: bool,
    /// The duration as it was given, if only commands that wait longer are printed.
    pub slower: Option<&'a str>,
    /// The names of the commands that are printed, with a comma between two of them, if they were
    /// given.
    pub names: Option<&'a str>,
    /// The glob, if only commands with a key that matches it are printed.
    pub key: Option<&'a str>,
    /// The number of the client whose lines are printed, or 0 for all clients.
    pub client: u64,
    /// Whether the lines about connections are printed, with addresses and names.
    pub connections: bool,
}

/// The options other than addresses.
#[derive(Clone, Copy)]
struct TapOptions<'a> {
    limits: Limits,
    clients: Option<usize>,
    drain_timeout: u64,
    cut: Option<&'a str>,
    tells_time: bool,
    tells_date: bool,
    exits_with_output: bool,
    keeps_going: bool,
    refuses_lines: bool,
    shows_passwords: bool,
    shown: usize,
    style: StyleOptions<'a>,
    filter: FilterOptions<'a>,
    stats: StatsOptions,
}

/// Returns the options of `tap`, or why there are none.
pub(crate) fn tapping_of<'a>(matches: &ArgMatches<'a>) -> Result<Tapping<'a>, NothingAsked<'a>>
    ensures ok { IfOk result (HasTapping (rows_of (found_of matches.now))) }
    ensures err { OnErr result ((tapping : Tapping)
        → HasTapping (rows_of (found_of matches.now)) tapping → ⊥) }
{
    let Some(options) = options_of(matches) else {
        return Err(wrong_options(matches));
    };
    match traffic_of(matches) {
        Ok(traffic) => Ok(Tapping {
            traffic,
            limits: options.limits,
            clients: options.clients,
            drain_timeout: options.drain_timeout,
            cut: options.cut,
            tells_time: options.tells_time,
            tells_date: options.tells_date,
            exits_with_output: options.exits_with_output,
            keeps_going: options.keeps_going,
            refuses_lines: options.refuses_lines,
            shows_passwords: options.shows_passwords,
            shown: options.shown,
            style: options.style,
            filter: options.filter,
            stats: options.stats,
        }),
        Err(nothing) => Err(nothing),
    }
}

/// Returns the options other than addresses; `None` if a number is outside its range.
fn options_of<'a>(matches: &ArgMatches<'a>) -> Option<TapOptions<'a>>
    ensures some { IfSome result (HasTapOptions (rows_of (found_of matches.now))) }
    ensures none { IfNone result ((options : TapOptions)
        → HasTapOptions (rows_of (found_of matches.now)) options → ⊥) }
{
    Some(TapOptions {
        limits: limits_of(matches)?.with_doubles(true),
        clients: most_of(matches, "max-clients")?,
        drain_timeout: pause_between(matches, "drain-timeout", MILLISECOND, DAY)?,
        cut: text_of(matches, "cut"),
        tells_time: flag_of(matches, "time")?,
        tells_date: flag_of(matches, "date")?,
        exits_with_output: flag_of(matches, "exit-with-output")?,
        keeps_going: flag_of(matches, "keep-going")?,
        refuses_lines: flag_of(matches, "no-inline")?,
        shows_passwords: flag_of(matches, "show-passwords")?,
        shown: bytes_of(matches, "shown", 32, MOST_BYTES)? as usize,
        style: style_of(matches),
        filter: filter_of(matches)?,
        stats: stats_of(matches)?,
    })
}

/// Returns the options that say which commands are printed; `None` if a number does not fit.
fn filter_of<'a>(matches: &ArgMatches<'a>) -> Option<FilterOptions<'a>>
    ensures some { IfSome result (HasFilter (rows_of (found_of matches.now))) }
    ensures none { IfNone result ((filter : FilterOptions)
        → HasFilter (rows_of (found_of matches.now)) filter → ⊥) }
{
    let errors = flag_of(matches, "errors")?;
    let connections = flag_of(matches, "connections")?;
    Some(FilterOptions {
        errors,
        slower: text_of(matches, "slower"),
        names: text_of(matches, "command"),
        key: text_of(matches, "key"),
        client: number_of(matches, "client")?,
        connections,
    })
}

/// Returns the options that say that commands are counted; `None` if a number does not fit.
fn stats_of(matches: &ArgMatches<'_>) -> Option<StatsOptions>
    ensures some { IfSome result (HasStats (rows_of (found_of matches.now))) }
    ensures none { IfNone result ((stats : StatsOptions)
        → HasStats (rows_of (found_of matches.now)) stats → ⊥) }
{
    let is_on = flag_of(matches, "stats")?;
    Some(StatsOptions {
        is_on,
        every: pause_between(matches, "stats-every", SECOND, DAY)?,
    })
}
