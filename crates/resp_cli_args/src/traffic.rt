//! Where the traffic of `resp tap` comes from.

ghost use Rattle.std.specs.Prelude.{IfOk, OnErr, ◌≡◌, None, Some, codes};
ghost use Rattle.clap.specs.Words.{first_of, found_of, rows_of};
ghost use Rattle.resp_cli_args.specs.CommandWords.{HasCaptured, HasRoute, HasTraffic};
ghost use Rattle.resp_cli_args.specs.declared.traffic.Captured.{Captured};
ghost use Rattle.resp_cli_args.specs.declared.traffic.Route.{Route};
ghost use Rattle.resp_cli_args.specs.declared.traffic.Traffic.{Traffic};

use crate::asked::NothingAsked;
use crate::listen_address::ListenAddress;
use crate::options::text_of;
use crate::proxying::{addresses_of, number_between};
use crate::server_address::ServerAddress;
use clap::ArgMatches;

/// Where the traffic of `resp tap` comes from.
#[derive(Clone, Copy)]
pub enum Traffic<'a> {
    /// It passes between clients and a server.
    Live(Route<'a>),
    /// It was captured.
    Captured(Captured<'a>),
}

/// The addresses between which traffic passes.
#[derive(Clone, Copy)]
pub struct Route<'a> {
    /// The address to listen on.
    pub address: ListenAddress<'a>,
    /// The address as it was given.
    pub address_text: &'a str,
    /// The address of the server.
    pub server: ServerAddress<'a>,
    /// The name of the file to which the traffic is written, if it was given.
    pub record: Option<&'a str>,
}

/// A capture.
#[derive(Clone, Copy)]
pub struct Captured<'a> {
    /// The name of the file to read, or [`STANDARD_INPUT`](crate::options::STANDARD_INPUT).
    pub file: &'a str,
    /// The port of the server, from 0 to 65,535, or 0 if it is not given.
    pub port: u64,
}

/// Returns where the traffic comes from, or why the options do not say that.
pub(crate) fn traffic_of<'a>(matches: &ArgMatches<'a>) -> Result<Traffic<'a>, NothingAsked<'a>>
    ensures ok { IfOk result (HasTraffic (rows_of (found_of matches.now))) }
    ensures err { OnErr result ((traffic : Traffic)
        → HasTraffic (rows_of (found_of matches.now)) traffic → ⊥) }
{
    match text_of(matches, "replay") {
        Some(file) => match captured_of(matches, file) {
            Ok(captured) => Ok(Traffic::Captured(captured)),
            Err(nothing) => Err(nothing),
        },
        None => match route_of(matches) {
            Ok(route) => Ok(Traffic::Live(route)),
            Err(nothing) => Err(nothing),
        },
    }
}

/// Returns the capture in this file, or why there is none: an address or a file to be written was
/// given too.
fn captured_of<'a>(
    matches: &ArgMatches<'a>,
    file: &'a str,
) -> Result<Captured<'a>, NothingAsked<'a>>
    requires { first_of (codes "replay") (rows_of (found_of matches.now)) ≡ Some file.now }
    ensures ok { IfOk result (HasCaptured (rows_of (found_of matches.now))) }
    ensures err { OnErr result ((captured : Captured)
        → HasCaptured (rows_of (found_of matches.now)) captured → ⊥) }
{
    if text_of(matches, "listen").is_some() {
        return Err(NothingAsked::BothFileAndAddress);
    }
    if text_of(matches, "record").is_some() {
        return Err(NothingAsked::BothFiles);
    }
    match number_between(matches, "port", 0, 65_535) {
        Some(port) => Ok(Captured { file, port }),
        None => Err(NothingAsked::OtherWords),
    }
}

/// Returns the addresses between which traffic passes, or why the options do not say them.
fn route_of<'a>(matches: &ArgMatches<'a>) -> Result<Route<'a>, NothingAsked<'a>>
    requires { first_of (codes "replay") (rows_of (found_of matches.now)) ≡ None }
    ensures ok { IfOk result (HasRoute (rows_of (found_of matches.now))) }
    ensures err { OnErr result ((route : Route)
        → HasRoute (rows_of (found_of matches.now)) route → ⊥) }
{
    let Some(listen) = text_of(matches, "listen") else {
        return Err(NothingAsked::NoAddress { listens: false });
    };
    let Some(server) = text_of(matches, "server") else {
        return Err(NothingAsked::NoAddress { listens: true });
    };
    match addresses_of(listen, server) {
        Ok((address, server)) => Ok(Route {
            address,
            address_text: listen,
            server,
            record: text_of(matches, "record"),
        }),
        Err(nothing) => Err(nothing),
    }
}
