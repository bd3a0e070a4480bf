//! The style in which text is printed, as the options and the environment ask for.

use crate::failures::Faults;
use resp_cli_args::style::StyleOptions;
use resp_paint::Style;
use std::env;
use std::io::IsTerminal;

/// The environment variable that switches colors off if it is not empty.
const NO_COLOR: &str = "NO_COLOR";

/// The end of the error for a word that is not valid for `--color`.
const BAD_COLOR: &[u8] = b"' for '--color <WHEN>': expected auto, always or never";

/// Returns the style that the options ask for. Without `--color`, and with `--color auto`, text has
/// colors if standard output is a terminal and `NO_COLOR` is not set. JSON is printed as it is. If
/// `--color` is given with another word, reports it and returns `None`.
pub(crate) fn style_of(
    rt: &HostRuntime,
    options: &StyleOptions<'_>,
    faults: &mut Faults<'_>,
) -> Option<Style> {
    let colors = match options.color {
        None | Some("auto") => rt.stdout().is_terminal() && !forbids_color(rt),
        Some("always") => true,
        Some("never") => false,
        Some(word) => {
            let _ = faults.write_bad_value(word, BAD_COLOR);
            return None;
        }
    };
    if options.json {
        return Some(Style::PLAIN);
    }
    Some(Style {
        colors,
        utf8: options.utf8,
    })
}

/// Returns whether the environment switches colors off.
fn forbids_color(rt: &HostRuntime) -> bool {
    match env::var(rt, NO_COLOR) {
        Ok(value) => !value.as_str().is_empty(),
        Err(_) => false,
    }
}
