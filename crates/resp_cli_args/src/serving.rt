//! The options of `resp serve`.

ghost use Rattle.std.specs.Prelude.{ℕ, List, Option, IfNone, IfOk, IfSome, OnErr};
ghost use Rattle.clap.specs.Words.{found_of, rows_of};
ghost use Rattle.resp_cli_args.specs.CommandWords.{HasServeWords, HasServing};
ghost use Rattle.resp_value.specs.Bounds.{Bounds};

use crate::asked::{NothingAsked, wrong_options};
use crate::duration::{DAY, MILLISECOND};
use crate::listen_address::{ListenAddress, listen_of};
use crate::options::{
    MOST_BYTES, bytes_of, flag_of, limits_of, most_of, number_of, pause_between, text_of,
};
use clap::ArgMatches;
use resp_value::limits::Limits;

/// The options of `resp serve`.
#[derive(Clone, Copy)]
pub struct Serving<'a> {
    /// The address to listen on.
    pub address: ListenAddress<'a>,
    /// The address as it was given.
    pub address_text: &'a str,
    /// The limits of a command.
    pub limits: Limits,
    /// The maximum number of clients at once, from 1 to 65,536, if it is given.
    pub clients: Option<usize>,
    /// The maximum number of bytes that wait to be written to a client before its next command is
    /// run.
    pub held: usize,
    /// The microseconds after which a server that drains closes the clients that are still open, at most
    /// 24 h.
    pub drain_timeout: u64,
    /// Whether 16 databases and more commands are served, for tests.
    pub is_test_server: bool,
    /// The seed of other encodings of the replies and of pieces, or 0 if the replies are sent as usual.
    pub torture: u64,
}

/// The options before the address is parsed.
#[derive(Clone, Copy)]
struct ServingOptions<'a> {
    address: &'a str,
    limits: Limits,
    clients: Option<usize>,
    held: usize,
    drain_timeout: u64,
}

/// Returns the options of `serve`, or why there are none.
pub(crate) fn serving_of<'a>(matches: &ArgMatches<'a>) -> Result<Serving<'a>, NothingAsked<'a>>
    ensures ok { IfOk result (HasServing (rows_of (found_of matches.now))) }
    ensures err { OnErr result ((serving : Serving)
        → HasServing (rows_of (found_of matches.now)) serving → ⊥) }
{
    let Some(words) = words_of(matches) else {
        return Err(wrong_options(matches));
    };
    let Some(is_test_server) = flag_of(matches, "test-server") else {
        return Err(wrong_options(matches));
    };
    let Some(torture) = number_of(matches, "torture") else {
        return Err(wrong_options(matches));
    };
    Ok(Serving {
        address: listen_of(words.address, "ADDRESS")?,
        address_text: words.address,
        limits: words.limits,
        clients: words.clients,
        held: words.held,
        drain_timeout: words.drain_timeout,
        is_test_server,
        torture,
    })
}

/// Returns the options before the address is parsed; `None` if a number is outside its range.
fn words_of<'a>(matches: &ArgMatches<'a>) -> Option<ServingOptions<'a>>
    ensures some { IfSome result (λ words. HasServeWords (rows_of (found_of matches.now))
        words.address.now words.limits words.clients words.held words.drain_timeout) }
    ensures none { IfNone result ((address : List ℕ) (limits : Bounds)
        (clients : Option ℕ) (held drain_timeout : ℕ)
        → HasServeWords (rows_of (found_of matches.now)) address limits clients held drain_timeout
        → ⊥) }
{
    Some(ServingOptions {
        address: text_of(matches, "address")?,
        limits: limits_of(matches)?,
        clients: most_of(matches, "max-clients")?,
        held: bytes_of(matches, "client-buffer", 1, MOST_BYTES)? as usize,
        drain_timeout: pause_between(matches, "drain-timeout", MILLISECOND, DAY)?,
    })
}
