//! The options of the command line.

ghost use Rattle.std.specs.Prelude.{◌≡◌, ℕ, Bool, Option, false, IfNone, IfOk, IfSome, OnErr, option_map};
ghost use Rattle.clap.specs.Words.{first_of, found_of, rows_of};
ghost use Rattle.resp_cli_args.specs.Addresses.{HasPort, IsAddressText, IsLocalPort};
ghost use Rattle.resp_cli_args.specs.CommandWords.{HasFlag, HasLimits, HasNumber, HasOptions, HasProto, HasMost, HasPause, HasReading, HasSize, HasSmallNumber, HasTime};
ghost use Rattle.resp_value.specs.Bounds.{Bounds};

use crate::asked::NothingAsked;
use crate::duration::{pause_of, time_of};
use crate::sizes::size_of;
use crate::style::{StyleOptions, style_of};
use clap::ArgMatches;
use resp_value::limits::Limits;
use resp_value::version::Version;
use std::net::{Ipv4Addr, SocketAddr, SocketAddrV4};

/// The file name that stands for standard input.
pub const STANDARD_INPUT: &str = "-";

/// The greatest number of bytes of an option: 1,024 GB.
pub(crate) const MOST_BYTES: u64 = 1_099_511_627_776;

/// What is done with the values of a stream.
#[derive(Clone, Copy, PartialEq, Eq)]
pub enum Task {
    /// Write them as lines of text.
    Show,
    /// Count them.
    Check,
    /// Write their canonical texts.
    Canon,
}

/// The options of `show`, `check` and `canon`.
#[derive(Clone, Copy)]
pub struct Options<'a> {
    /// What to do with the values of the stream.
    pub task: Task,
    /// The version of the protocol.
    pub version: Version,
    /// The limits of a value.
    pub limits: Limits,
    /// The most bytes of one read, from 1 to 65,536.
    pub piece: usize,
    /// The name of the file to read, or [`STANDARD_INPUT`].
    pub file: &'a str,
    /// How `show` prints text.
    pub style: StyleOptions<'a>,
    /// Whether `--explain` is given: an error in the input is explained.
    pub explains: bool,
    /// Whether `--no-explain` is given, which has precedence over `--explain`.
    pub never_explains: bool,
}

/// Returns the limits in the options; `None` if a number is outside its range.
pub(crate) fn limits_of(matches: &ArgMatches<'_>) -> Option<Limits>
    ensures some { IfSome result (HasLimits (rows_of (found_of matches.now))) }
    ensures no_doubles { IfSome result (λ limits. limits.doubles ≡ false) }
    ensures none { IfNone result ((limits : Bounds)
        → HasLimits (rows_of (found_of matches.now)) limits → ⊥) }
{
    let depth = number_of(matches, "depth")?;
    let length = bytes_of(matches, "length", 64, 1_073_741_824)?;
    let total = bytes_of(matches, "total", 256, MOST_BYTES)?;
    let items = number_of(matches, "items")?;
    let no_streamed = flag_of(matches, "no-streamed")?;
    let limits = Limits::new(depth, length, total).ok()?;
    let limits = limits.with_items(items).ok()?;
    Some(limits.with_streamed(!no_streamed))
}

/// Returns the number of an option.
pub(crate) fn number_of(matches: &ArgMatches<'_>, name: &str) -> Option<u64>
    ensures some { IfSome result (HasNumber (rows_of (found_of matches.now)) name.now) }
    ensures none { IfNone result ((number : ℕ)
        → HasNumber (rows_of (found_of matches.now)) name.now number → ⊥) }
{
    matches.get_one::<u64>(name)
}

/// Returns the number of bytes that an option gives, or `None` if the option has no number of bytes
/// from `least` to `most`.
pub(crate) fn bytes_of(matches: &ArgMatches<'_>, name: &str, least: u64, most: u64) -> Option<u64>
    ensures some { IfSome result
        (HasSize (rows_of (found_of matches.now)) name.now least most) }
    ensures none { IfNone result ((size : ℕ)
        → HasSize (rows_of (found_of matches.now)) name.now least most size → ⊥) }
{
    match text_of(matches, name) {
        Some(text) => size_of(text, least, most),
        None => None,
    }
}

/// Returns the microseconds of an option; `None` if it is no time with a unit in this range.
pub(crate) fn time_between(
    matches: &ArgMatches<'_>,
    name: &str,
    least: u64,
    most: u64,
) -> Option<u64>
    ensures some { IfSome result
        (HasTime (rows_of (found_of matches.now)) name.now least most) }
    ensures none { IfNone result ((micros : ℕ)
        → HasTime (rows_of (found_of matches.now)) name.now least most micros → ⊥) }
{
    match text_of(matches, name) {
        Some(text) => time_of(text, least, most),
        None => None,
    }
}

/// Returns the microseconds of an option; `None` if it is neither `0` nor a time with a unit in this
/// range.
pub(crate) fn pause_between(
    matches: &ArgMatches<'_>,
    name: &str,
    least: u64,
    most: u64,
) -> Option<u64>
    ensures some { IfSome result
        (HasPause (rows_of (found_of matches.now)) name.now least most) }
    ensures none { IfNone result ((micros : ℕ)
        → HasPause (rows_of (found_of matches.now)) name.now least most micros → ⊥) }
{
    match text_of(matches, name) {
        Some(text) => pause_of(text, least, most),
        None => None,
    }
}

/// Returns the number of an option from 1 to 65,536; `None` if it is outside that range.
pub(crate) fn small_number_of(matches: &ArgMatches<'_>, name: &str) -> Option<usize>
    ensures some { IfSome result (HasSmallNumber (rows_of (found_of matches.now)) name.now) }
    ensures none { IfNone result ((number : ℕ)
        → HasSmallNumber (rows_of (found_of matches.now)) name.now number → ⊥) }
{
    let number = number_of(matches, name)?;
    if number < 1 || number > 65_536 {
        return None;
    }
    Some(number as usize)
}

/// Returns the number of an option from 1 to 65,536, if it is given; `None` if it is outside that range.
pub(crate) fn most_of(matches: &ArgMatches<'_>, name: &str) -> Option<Option<usize>>
    ensures some { IfSome result (HasMost (rows_of (found_of matches.now)) name.now) }
    ensures none { IfNone result ((most : Option ℕ)
        → HasMost (rows_of (found_of matches.now)) name.now most → ⊥) }
{
    let Some(_text) = text_of(matches, name) else {
        return Some(None);
    };
    Some(Some(small_number_of(matches, name)?))
}

/// Returns whether an option is given.
pub(crate) fn flag_of(matches: &ArgMatches<'_>, name: &str) -> Option<bool>
    ensures some { IfSome result (HasFlag (rows_of (found_of matches.now)) name.now) }
    ensures none { IfNone result ((on : Bool)
        → HasFlag (rows_of (found_of matches.now)) name.now on → ⊥) }
{
    matches.get_one::<bool>(name)
}

/// Returns the text of an option.
pub(crate) fn text_of<'a>(matches: &ArgMatches<'a>, name: &str) -> Option<&'a str>
    ensures { option_map (λ text. text.now) result
        ≡ first_of name.now (rows_of (found_of matches.now)) }
{
    matches.get_str(name)
}

/// Returns the address in a text, which was given for the argument `name`. Without an IP address it
/// is an address of this machine.
pub(crate) fn address_of<'a>(text: &'a str, name: &'a str) -> Result<SocketAddr, NothingAsked<'a>>
    ensures ok { IfOk result (IsAddressText text.now) }
    ensures err { OnErr result ((address : SocketAddr) → IsAddressText text.now address → ⊥) }
{
    if let Ok(address) = text.parse::<SocketAddr>() {
        return Ok(address);
    }
    match local_port(text) {
        Some(port) => Ok(SocketAddr::V4(SocketAddrV4::new(Ipv4Addr::LOCALHOST, port))),
        None => Err(NothingAsked::BadAddress { text, name }),
    }
}

/// Returns the port of this machine in a text.
fn local_port(text: &str) -> Option<u16>
    ensures some { IfSome result (IsLocalPort text.now) }
    ensures none { IfNone result ((number : ℕ) → IsLocalPort text.now number → ⊥) }
{
    if let Some(port) = port_after("", text) {
        return Some(port);
    }
    if let Some(port) = port_after(":", text) {
        return Some(port);
    }
    port_after("localhost:", text)
}

/// Returns the port in a text after a prefix.
pub(crate) fn port_after(prefix: &str, text: &str) -> Option<u16>
    ensures some { IfSome result (HasPort prefix.now text.now) }
    ensures none { IfNone result ((number : ℕ) → HasPort prefix.now text.now number → ⊥) }
{
    match text.strip_prefix(prefix)?.parse::<u16>() {
        Ok(port) => Some(port),
        Err(_) => None,
    }
}

/// Returns the version of `--proto`.
fn version_of(matches: &ArgMatches<'_>) -> Option<Version>
    ensures some { IfSome result (HasProto (rows_of (found_of matches.now))) }
    ensures none { IfNone result ((version : Version)
        → HasProto (rows_of (found_of matches.now)) version → ⊥) }
{
    match text_of(matches, "proto")? {
        "2" => Some(Version::Two),
        "3" => Some(Version::Three),
        _ => None,
    }
}

/// Returns the version of the protocol, and whether doubles are accepted.
fn reading_of(matches: &ArgMatches<'_>) -> Option<(Version, bool)>
    ensures some { IfSome result (λ reading. HasReading (rows_of (found_of matches.now)) reading.0 reading.1) }
    ensures none { IfNone result ((version : Version) (doubles : Bool)
        → HasReading (rows_of (found_of matches.now)) version doubles → ⊥) }
{
    if flag_of(matches, "two")? {
        return Some((Version::Two, flag_of(matches, "doubles")?));
    }
    if flag_of(matches, "three")? {
        return Some((Version::Three, true));
    }
    Some((version_of(matches)?, flag_of(matches, "doubles")?))
}

/// Returns the options of a subcommand; `None` if a number is outside its range.
pub(crate) fn options_of<'a>(task: Task, matches: &ArgMatches<'a>) -> Option<Options<'a>>
    ensures task { IfSome result (λ options. options.task ≡ task) }
    ensures some { IfSome result (HasOptions (rows_of (found_of matches.now))) }
    ensures none { IfNone result ((options : Options)
        → HasOptions (rows_of (found_of matches.now)) options → ⊥) }
{
    let (version, doubles) = reading_of(matches)?;
    let limits = limits_of(matches)?.with_doubles(doubles);
    let piece = bytes_of(matches, "piece", 1, 65_536)? as usize;
    Some(Options {
        task,
        version,
        limits,
        piece,
        file: text_of(matches, "file")?,
        style: style_of(matches),
        explains: flag_of(matches, "explain")?,
        never_explains: flag_of(matches, "no-explain")?,
    })
}
