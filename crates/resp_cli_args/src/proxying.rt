//! The options of `resp proxy`.

ghost use Rattle.std.specs.Prelude.{ℕ, Bool, List, IfNone, IfOk, IfSome, OnErr};
ghost use Rattle.clap.specs.Words.{found_of, rows_of};
ghost use Rattle.resp_cli_args.specs.CommandWords.{HasNumberBetween, HasProxyFlags, HasProxyOptions, HasProxyTimes, HasProxyWords, HasProxying};
ghost use Rattle.resp_cli_args.specs.Hosts.{IsListenText, IsServerText};

use crate::asked::{NothingAsked, wrong_options};
use crate::duration::{DAY, HOUR, MILLISECOND, SECOND};
use crate::listen_address::{ListenAddress, listen_of};
use crate::names::are_names_if_given;
use crate::options::{
    MOST_BYTES, bytes_of, flag_of, limits_of, most_of, number_of, pause_between, text_of,
    time_between,
};
use crate::server_address::{ServerAddress, server_of};
use crate::style::is_on;
use clap::ArgMatches;
use resp_value::limits::Limits;

/// The options of `resp proxy`.
#[derive(Clone, Copy)]
pub struct Proxying<'a> {
    /// The address to listen on.
    pub address: ListenAddress<'a>,
    /// The address as it was given.
    pub address_text: &'a str,
    /// The address of the server.
    pub server: ServerAddress<'a>,
    /// The names of the commands that are sent although the table does not have them, with a comma
    /// between two of them, if they were given. Each name has from 1 to 64 bytes, and no space and no
    /// `|`.
    pub also: Option<&'a str>,
    /// Whether the server is asked at the start for commands that the table does not have.
    pub learns: bool,
    /// Whether the commands of the server are checked, and no client is served.
    pub checks: bool,
    /// Whether `--check` prints a line for each command. It is true only if `checks` is.
    pub all: bool,
    /// The options that are no address.
    pub options: ProxyOptions,
}

/// The options of `resp proxy` that are no address.
#[derive(Clone, Copy)]
pub struct ProxyOptions {
    /// The limits of commands and replies.
    pub limits: Limits,
    /// The most clients at once, from 1 to 65,536, if it is given.
    pub clients: Option<usize>,
    /// The most clients at once that have a connection of their own, from 0 to 65,536.
    pub own: usize,
    /// The most connections to the server that clients share, from 1 to 256.
    pub lines: usize,
    /// The most commands of one client that wait for replies, from 1 to 1,048,576.
    pub waiting: u32,
    /// The most bytes that wait to be written to a client when its next command is taken.
    pub held: usize,
    /// The most bytes that wait to be written to a client; with more it is closed.
    pub unread: usize,
    /// The most bytes that wait to be written to the server when a command is taken.
    pub unsent: usize,
    /// The times.
    pub times: ProxyTimes,
    /// The commands after which the connection to the server is checked by a probe, from 0 to
    /// 1,000,000,000; with 0 there is no probe.
    pub check_every: u64,
    /// Whether the proxy replies to PING itself.
    pub local_ping: bool,
    /// Whether a line is rejected as a command.
    pub refuses_lines: bool,
    /// Whether the proxy ends when standard input ends.
    pub drains: bool,
}

/// The times in the options of `resp proxy`, in microseconds.
#[derive(Clone, Copy)]
pub struct ProxyTimes {
    /// If commands wait and no reply arrives for this time, the proxy gives up the connection to
    /// the server. From 1 ms to 1 h.
    pub server_timeout: u64,
    /// The time from one report on standard output to the next, from 1 s to 24 h; with 0 there is no
    /// report.
    pub report: u64,
    /// The most time that the end of the proxy waits for replies to clients, from 1 ms to 24 h, or 0.
    pub drain_timeout: u64,
}

/// The options before the addresses are parsed.
#[derive(Clone, Copy)]
struct ProxyingOptions<'a> {
    address: &'a str,
    server: &'a str,
    options: ProxyOptions,
}

/// Returns the options of `proxy`, or why there are none.
pub(crate) fn proxying_of<'a>(matches: &ArgMatches<'a>) -> Result<Proxying<'a>, NothingAsked<'a>>
    ensures ok { IfOk result (HasProxying (rows_of (found_of matches.now))) }
    ensures err { OnErr result ((proxying : Proxying)
        → HasProxying (rows_of (found_of matches.now)) proxying → ⊥) }
{
    let Some(words) = words_of(matches) else {
        return Err(wrong_options(matches));
    };
    let also = text_of(matches, "also");
    if !are_names_if_given(also) {
        return Err(NothingAsked::BadNames {
            text: also.unwrap_or(""),
        });
    }
    let checks = is_on(text_of(matches, "check"));
    let all = is_on(text_of(matches, "all"));
    if all && !checks {
        return Err(NothingAsked::AllWithoutCheck);
    }
    match addresses_of(words.address, words.server) {
        Ok((address, server)) => Ok(Proxying {
            address,
            address_text: words.address,
            server,
            also,
            learns: is_on(text_of(matches, "learn")),
            checks,
            all,
            options: words.options,
        }),
        Err(nothing) => Err(nothing),
    }
}

/// Returns the address to listen on and that of the server.
pub(crate) fn addresses_of<'a>(
    listen: &'a str,
    server: &'a str,
) -> Result<(ListenAddress<'a>, ServerAddress<'a>), NothingAsked<'a>>
    ensures ok { IfOk result (λ both. IsListenText listen.now both.0 ×
        IsServerText server.now both.1) }
    ensures err { OnErr result ((here : ListenAddress) (there : ServerAddress)
        → IsListenText listen.now here → IsServerText server.now there → ⊥) }
{
    let address = listen_of(listen, "LISTEN")?;
    Ok((address, server_of(server)?))
}

/// Returns the options before the addresses are parsed; `None` if a number is outside its range.
fn words_of<'a>(matches: &ArgMatches<'a>) -> Option<ProxyingOptions<'a>>
    ensures some { IfSome result (λ words. HasProxyWords (rows_of (found_of matches.now))
        words.address.now words.server.now words.options) }
    ensures none { IfNone result ((address server : List ℕ) (options : ProxyOptions)
        → HasProxyWords (rows_of (found_of matches.now)) address server options → ⊥) }
{
    let Some(options) = options_of(matches) else {
        return None;
    };
    Some(ProxyingOptions {
        address: text_of(matches, "listen")?,
        server: text_of(matches, "server")?,
        options,
    })
}

/// Returns the options that are no address; `None` if a number is outside its range.
fn options_of(matches: &ArgMatches<'_>) -> Option<ProxyOptions>
    ensures some { IfSome result (HasProxyOptions (rows_of (found_of matches.now))) }
    ensures none { IfNone result ((options : ProxyOptions)
        → HasProxyOptions (rows_of (found_of matches.now)) options → ⊥) }
{
    let times = times_of(matches)?;
    let (local_ping, drains) = flags_of(matches)?;
    let refuses_lines = flag_of(matches, "no-inline")?;
    Some(ProxyOptions {
        limits: limits_of(matches)?,
        clients: most_of(matches, "max-clients")?,
        own: number_between(matches, "max-dedicated", 0, 65_536)? as usize,
        waiting: number_between(matches, "pipeline", 1, 1_048_576)? as u32,
        held: bytes_of(matches, "client-buffer", 1, MOST_BYTES)? as usize,
        unread: bytes_of(matches, "client-buffer-limit", 1, MOST_BYTES)? as usize,
        unsent: bytes_of(matches, "server-buffer", 1, MOST_BYTES)? as usize,
        times,
        check_every: number_between(matches, "check-every", 0, 1_000_000_000)?,
        lines: number_between(matches, "max-shared", 1, 256)? as usize,
        local_ping,
        refuses_lines,
        drains,
    })
}

/// Returns the times; `None` if one of them is outside its range.
fn times_of(matches: &ArgMatches<'_>) -> Option<ProxyTimes>
    ensures some { IfSome result (HasProxyTimes (rows_of (found_of matches.now))) }
    ensures none { IfNone result ((times : ProxyTimes)
        → HasProxyTimes (rows_of (found_of matches.now)) times → ⊥) }
{
    let server_timeout = time_between(matches, "server-timeout", MILLISECOND, HOUR)?;
    let report = pause_between(matches, "report", SECOND, DAY)?;
    Some(ProxyTimes {
        server_timeout,
        report,
        drain_timeout: pause_between(matches, "drain-timeout", MILLISECOND, DAY)?,
    })
}

/// Returns whether `--local-ping` and `--drain` are given.
fn flags_of(matches: &ArgMatches<'_>) -> Option<(bool, bool)>
    ensures some { IfSome result (HasProxyFlags (rows_of (found_of matches.now))) }
    ensures none { IfNone result ((flags : Bool × Bool)
        → HasProxyFlags (rows_of (found_of matches.now)) flags → ⊥) }
{
    let local_ping = flag_of(matches, "local-ping")?;
    Some((local_ping, flag_of(matches, "drain")?))
}

/// Returns the number of an option; `None` if it is outside this range.
pub(crate) fn number_between(
    matches: &ArgMatches<'_>,
    name: &str,
    least: u64,
    most: u64,
) -> Option<u64>
    ensures some { IfSome result
        (HasNumberBetween (rows_of (found_of matches.now)) name.now least most) }
    ensures none { IfNone result ((number : ℕ)
        → HasNumberBetween (rows_of (found_of matches.now)) name.now least most number → ⊥) }
{
    let number = number_of(matches, name)?;
    if number < least || number > most {
        return None;
    }
    Some(number)
}
