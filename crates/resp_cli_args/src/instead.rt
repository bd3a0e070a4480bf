//! What to write in place of options that do not exist, and of words that are no number.

use resp_io::device::{DeviceFault, Sink};
use resp_print::text::write_text;

/// An option that does not exist, and what to write in its place.
struct Instead {
    /// The option with its dashes.
    name: &'static str,
    /// The end of the line about it.
    says: &'static str,
    /// The beginnings of the usage of the commands of which the line is true.
    usages: &'static [&'static str],
}

/// Where the password is.
const PASSWORD: &str = "is no option: the password is in the environment variable RESP_PASSWORD";

/// Why `tap` needs no password.
const NO_PASSWORD: &str =
    "is no option: tap needs no password, since its clients send AUTH themselves";

/// How connections are encrypted.
const TLS: &str = "is no option: stunnel encrypts connections, as docs/encryption.md shows";

/// The end of the usage error for a word that is no number.
const NO_NUMBER: &str = ": invalid digit found in string";

/// All options that have a line. Those that had another name before version 0.3.0 come first.
const ALL: &[Instead] = &[
    Instead {
        name: "--clients",
        says: "is now --max-clients <N>",
        usages: &["Usage: resp proxy", "Usage: resp tap", "Usage: resp serve"],
    },
    Instead {
        name: "--held",
        says: "is now --client-buffer <N>",
        usages: &["Usage: resp proxy", "Usage: resp serve"],
    },
    Instead {
        name: "--own",
        says: "is now --max-dedicated <N>",
        usages: &["Usage: resp proxy"],
    },
    Instead {
        name: "--lines",
        says: "is now --max-shared <N>",
        usages: &["Usage: resp proxy"],
    },
    Instead {
        name: "--waiting",
        says: "is now --pipeline <N>",
        usages: &["Usage: resp proxy"],
    },
    Instead {
        name: "--unread",
        says: "is now --client-buffer-limit <N>",
        usages: &["Usage: resp proxy"],
    },
    Instead {
        name: "--unsent",
        says: "is now --server-buffer <N>",
        usages: &["Usage: resp proxy"],
    },
    Instead {
        name: "--patience",
        says: "is now --server-timeout <TIME>, with a unit, such as 5s",
        usages: &["Usage: resp proxy"],
    },
    Instead {
        name: "--password",
        says: PASSWORD,
        usages: &["Usage: resp proxy", "Usage: resp ask"],
    },
    Instead {
        name: "--pass",
        says: PASSWORD,
        usages: &["Usage: resp proxy", "Usage: resp ask"],
    },
    Instead {
        name: "-a",
        says: PASSWORD,
        usages: &["Usage: resp proxy", "Usage: resp ask"],
    },
    Instead {
        name: "--password",
        says: NO_PASSWORD,
        usages: &["Usage: resp tap"],
    },
    Instead {
        name: "--pass",
        says: NO_PASSWORD,
        usages: &["Usage: resp tap"],
    },
    Instead {
        name: "-a",
        says: NO_PASSWORD,
        usages: &["Usage: resp tap"],
    },
    Instead {
        name: "--tls",
        says: TLS,
        usages: &[
            "Usage: resp proxy",
            "Usage: resp tap",
            "Usage: resp serve",
            "Usage: resp ask",
        ],
    },
];

impl Instead {
    /// Returns whether a usage error is about this option. `rest` is the text of the error from the name
    /// of the option on.
    fn is_meant(&self, text: &str, rest: &str) -> bool {
        match rest.strip_prefix(self.name) {
            Some(after) => after.starts_with("'")
                && self.usages.iter().any(|usage| text.contains(*usage)),
            None => false,
        }
    }
}

/// Returns the option that this usage error is about, if it is one that has a line.
fn meant_by(text: &str) -> Option<&'static Instead> {
    let rest = text.strip_prefix("error: unexpected argument '")?;
    ALL.iter().find(|option| option.is_meant(text, rest))
}

/// Writes a usage error. Of an option that has a line, writes what to write in its place. Of a word
/// that is no number, writes that a number is expected.
pub(crate) fn write_usage_error<F: Sink>(text: &str, faults: &mut F) -> Result<(), DeviceFault> {
    if let Some(option) = meant_by(text) {
        write_text(faults, b"error: '")?;
        write_text(faults, option.name.as_bytes())?;
        write_text(faults, b"' ")?;
        write_text(faults, option.says.as_bytes())?;
        return write_text(faults, b"\n\nFor more information, try '--help'.\n");
    }
    let Some((before, after)) = text.split_once(NO_NUMBER) else {
        return write_text(faults, text.as_bytes());
    };
    write_text(faults, before.as_bytes())?;
    write_text(faults, b": expected a number")?;
    if before.ends_with("'--client <N>'") {
        write_text(faults, b", as in the lines of client 1")?;
    }
    write_text(faults, after.as_bytes())
}
