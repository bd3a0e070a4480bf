//! HELLO with options.

ghost use Rattle.std.specs.Prelude.{◌≡◌, None};
ghost use Rattle.resp_server.specs.Deeds.{asked_by, hello_asks, options_ask};

use crate::databases::deed::{Deed, is_client_name};
use crate::refusal::{Refusal, Verb};
use resp_scan::whole::CommandArguments;
use resp_session::names::is_name;
use resp_value::version::Version;

/// Returns what a HELLO with these words after its name asks for.
pub(crate) fn hello(mut words: CommandArguments<'_>) -> Deed<'_>
    ensures { asked_by result ≡ hello_asks words.entry }
{
    let Some(version) = words.next() else {
        return Deed::Refused(Refusal::WrongNumber(Verb::Hello));
    };
    if version == b"2".as_slice() {
        options(Version::Two, words)
    } else if version == b"3".as_slice() {
        options(Version::Three, words)
    } else {
        Deed::Refused(Refusal::NoProtocol)
    }
}

/// Returns what a HELLO with these options asks for.
fn options(version: Version, mut words: CommandArguments<'_>) -> Deed<'_>
    ensures { asked_by result ≡ options_ask version None words.entry }
{
    let mut name = None;
    while let Some(option) = words.next() {
        let Some(word) = words.next() else {
            return Deed::Refused(Refusal::Syntax);
        };
        if is_name(option, b"setname") {
            if !is_client_name(word) {
                return Deed::Refused(Refusal::BadName);
            }
            name = Some(word);
            continue;
        }
        if !is_name(option, b"auth") {
            return Deed::Refused(Refusal::Syntax);
        }
        let Some(_password) = words.next() else {
            return Deed::Refused(Refusal::Syntax);
        };
        if word != b"default".as_slice() {
            return Deed::Refused(Refusal::WrongPassword);
        }
    }
    Deed::Hello(version, name)
}
