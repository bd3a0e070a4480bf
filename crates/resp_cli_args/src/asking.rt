//! The options of `resp ask`.

ghost use Rattle.std.specs.Prelude.{◌≡◌, ◌≢◌, Option, [], map, IfErr, IfNone, IfOk, IfSome, codes, unwrap_or};
ghost use Rattle.clap.specs.Words.{all_of, found_of, rows_of};
ghost use Rattle.resp_cli_args.specs.CommandWords.{HasAskOptions, HasAsking};

use crate::asked::{NothingAsked, wrong_options};
use crate::duration::{DAY, MILLISECOND};
use crate::options::{flag_of, limits_of, pause_between, small_number_of, text_of};
use crate::server_address::{ServerAddress, server_of};
use crate::style::{StyleOptions, style_of};
use clap::ArgMatches;
use resp_value::limits::Limits;
use std::alloc::{AllocError, Global};

/// The options of `resp ask`.
#[derive(Drop)]
pub struct Asking<'a> {
    /// The address of the server.
    pub server: ServerAddress<'a>,
    /// The address as it was given.
    pub server_text: &'a str,
    /// The options other than the address and the words.
    pub options: AskOptions<'a>,
    /// The words of the command. If there is no word, commands are read from standard input.
    pub words: Vec<&'a str>,
}

/// The options of `resp ask` other than the address and the words.
#[derive(Clone, Copy)]
pub struct AskOptions<'a> {
    /// Whether HELLO 3 is sent first.
    pub is_three: bool,
    /// The name of the user, if one was given.
    pub user: Option<&'a str>,
    /// The maximum number of commands that wait for a reply, from 1 to 65,536.
    pub window: usize,
    /// The microseconds, up to 24 h, that the server has to accept the connection and to send something
    /// while a command waits, or 0 if `ask` waits for ever.
    pub timeout: u64,
    /// Whether the commands of standard input are RESP, and not lines.
    pub raw: bool,
    /// Whether replies are counted and not printed.
    pub counts: bool,
    /// How text is printed.
    pub style: StyleOptions<'a>,
    /// The limits of commands and replies, which allow doubles if HELLO 3 is sent.
    pub limits: Limits,
}

/// Returns the options of `ask`, or why there are none.
pub(crate) fn asking_of<'a>(
    alloc: Global,
    matches: &ArgMatches<'a>,
) -> Result<Asking<'a>, NothingAsked<'a>>
    ensures ok { IfOk result (HasAsking (rows_of (found_of matches.now))) }
    ensures err { IfErr result (λ nothing. nothing ≢ NothingAsked.Memory → (asking : Asking)
        → HasAsking (rows_of (found_of matches.now)) asking → ⊥) }
{
    let Some(options) = options_of(matches) else {
        return Err(wrong_options(matches));
    };
    let Some(text) = text_of(matches, "server") else {
        return Err(NothingAsked::OtherWords);
    };
    let server = match server_of(text) {
        Ok(server) => server,
        Err(nothing) => return Err(nothing),
    };
    match words_of(alloc, matches) {
        Ok(words) => Ok(Asking {
            server,
            server_text: text,
            options,
            words,
        }),
        Err(_) => Err(NothingAsked::Memory),
    }
}

/// Returns the words of the command.
fn words_of<'a>(alloc: Global, matches: &ArgMatches<'a>) -> Result<Vec<&'a str>, AllocError>
    ensures { IfOk result (λ words. map (λ word. word.now) words.items ≡
        unwrap_or (all_of (codes "words") (rows_of (found_of matches.now))) []) }
{
    match matches.get_strs("words") {
        Some(words) => Vec::from_slice(alloc, words),
        None => Ok(Vec::new(alloc)),
    }
}

/// Returns the options other than the address and the words, or `None` if a number is outside its
/// range.
fn options_of<'a>(matches: &ArgMatches<'a>) -> Option<AskOptions<'a>>
    ensures some { IfSome result (HasAskOptions (rows_of (found_of matches.now))) }
    ensures none { IfNone result ((options : AskOptions)
        → HasAskOptions (rows_of (found_of matches.now)) options → ⊥) }
{
    let is_three = flag_of(matches, "three")?;
    Some(AskOptions {
        is_three,
        user: text_of(matches, "user"),
        window: small_number_of(matches, "window")?,
        timeout: pause_between(matches, "timeout", MILLISECOND, DAY)?,
        raw: flag_of(matches, "raw")?,
        counts: flag_of(matches, "count")?,
        style: style_of(matches),
        limits: limits_of(matches)?.with_doubles(is_three),
    })
}
