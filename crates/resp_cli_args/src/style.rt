//! The options that say how text is printed.

ghost use Rattle.std.specs.Prelude.{◌≡◌, option_map};
ghost use Rattle.clap.specs.Words.{found_of, rows_of};
ghost use Rattle.resp_cli_args.specs.CommandWords.{HasStyle, is_on};

use crate::options::text_of;
use clap::ArgMatches;

/// The options that say how text is printed.
#[derive(Clone, Copy)]
pub struct StyleOptions<'a> {
    /// When text is printed in color, as it was given, or `None` if it was not given.
    pub color: Option<&'a str>,
    /// Whether printable characters are printed as they are.
    pub utf8: bool,
    /// Whether values are printed as JSON, one a line.
    pub json: bool,
}

/// Returns the options that say how text is printed.
pub(crate) fn style_of<'a>(matches: &ArgMatches<'a>) -> StyleOptions<'a>
    ensures { HasStyle (rows_of (found_of matches.now)) result }
{
    StyleOptions {
        color: text_of(matches, "color"),
        utf8: is_on(text_of(matches, "utf8")),
        json: is_on(text_of(matches, "json")),
    }
}

/// Returns whether an option without a value is given, by the text of its value.
pub(crate) fn is_on(text: Option<&str>) -> bool
    ensures { result ≡ is_on (option_map (λ text. text.now) text.entry) }
{
    match text {
        Some(text) => text == "true",
        None => false,
    }
}
