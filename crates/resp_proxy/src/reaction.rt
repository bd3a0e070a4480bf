//! What the proxy does with a command for which clients share no connection.

ghost use Rattle.std.specs.Prelude.{◌≡◌, ◌&&◌, not, IsTrue};
ghost use Rattle.resp_frames.specs.Commands.{TellsWords};
ghost use Rattle.resp_frames.specs.Framing.{frame_limits};
ghost use Rattle.resp_frames.specs.Texts.{text_of};
ghost use Rattle.resp_proxy.specs.Leaving.{IsForOwn};
ghost use Rattle.resp_proxy.specs.OwnReplies.{client_treatment, hello_treatment, keeps_by_hello, keeps_by_select, keeps_setting, moves, own_treatment, select_treatment, setname_treatment, setting_treatment, treatment_in, unlisted_treatment, unshared_treatment, with_words};

use resp_commands::Class;
use resp_frames::{CommandFrame, Frames};
use resp_scan::whole;
use resp_scan::whole::CommandArguments;
use resp_session::names::is_name;
use resp_value::laws::no_spelling_begins_another;
use resp_value::limits::Limits;

/// What the proxy does with a command that clients do not share a connection for.
#[derive(Clone, Copy)]
pub(crate) enum Reaction<'a> {
    /// It replies `+OK`.
    Ok,
    /// It replies with the number of the client.
    Number,
    /// It replies with the name of the client.
    Name,
    /// It gives the client this name.
    SetName(&'a [u8]),
    /// It replies to HELLO: the client stays in version 2.
    Hello,
    /// It replies with this error.
    Error(&'static [u8]),
    /// It replies that it does not know the command, or its subcommand.
    Unknown,
    /// It replies that it does not serve the command.
    Refused,
    /// It closes the client, because of QUIT.
    Quit,
    /// It closes the client, which speaks HTTP.
    Http,
    /// It closes the client, which needs a dedicated connection or another setting.
    NoneLeft,
}

/// The reaction to CLIENT with another number of words.
const WRONG_COUNT: Reaction<'static> = Reaction::Error(
    b"ERR wrong number of arguments for 'client' command",
);

/// Returns the reaction to the command of this class and name with these words after it.
pub(crate) fn reaction_to<'a>(
    is_first: bool,
    class: Option<Class>,
    name: &[u8],
    words: CommandArguments<'a>,
) -> Reaction<'a>
    ensures { treatment_in result ≡ unshared_treatment is_first class name.now words.entry }
{
    match class {
        Some(Class::OwnConnection) => Reaction::NoneLeft,
        Some(Class::Setting) => reaction_to_setting(is_first, name, words),
        Some(Class::OwnAnswer) => reaction_to_own(name, words),
        Some(Class::Shared | Class::Refused) => Reaction::Refused,
        None => reaction_to_unlisted(name, words),
    }
}

/// Returns the reaction to HELLO, AUTH, SELECT or RESET.
fn reaction_to_setting<'a>(is_first: bool, name: &[u8], words: CommandArguments<'a>) -> Reaction<'a>
    ensures { treatment_in result ≡ setting_treatment is_first name.now words.entry }
{
    if !is_first {
        return Reaction::NoneLeft;
    }
    if is_name(name, b"hello") {
        reaction_to_hello(words)
    } else if is_name(name, b"select") {
        reaction_to_select(words)
    } else {
        Reaction::NoneLeft
    }
}

/// Returns the reaction to HELLO with these words, of a client in version 2.
fn reaction_to_hello(mut words: CommandArguments<'_>) -> Reaction<'_>
    ensures { treatment_in result ≡ hello_treatment words.entry }
{
    let Some(version) = words.next() else {
        return Reaction::Hello;
    };
    if words.next().is_some() {
        return Reaction::NoneLeft;
    }
    if version == b"2".as_slice() {
        Reaction::Hello
    } else {
        Reaction::Error(
            b"NOPROTO 'HELLO' with another version than 2 needs a connection of its own, and no more are allowed",
        )
    }
}

/// Returns the reaction to SELECT with these words, of a client in database 0.
fn reaction_to_select(mut words: CommandArguments<'_>) -> Reaction<'_>
    ensures { treatment_in result ≡ select_treatment words.entry }
{
    let Some(database) = words.next() else {
        return Reaction::NoneLeft;
    };
    if words.next().is_some() {
        return Reaction::NoneLeft;
    }
    if database == b"0".as_slice() {
        Reaction::Ok
    } else {
        Reaction::NoneLeft
    }
}

/// Returns the reaction to a command whose reply depends on the client's own connection.
fn reaction_to_own<'a>(name: &[u8], words: CommandArguments<'a>) -> Reaction<'a>
    ensures { treatment_in result ≡ own_treatment name.now words.entry }
{
    if is_name(name, b"quit") {
        Reaction::Quit
    } else if is_name(name, b"client") {
        reaction_to_client(words)
    } else if is_name(name, b"exec") {
        Reaction::Error(b"ERR EXEC without MULTI")
    } else if is_name(name, b"discard") {
        Reaction::Error(b"ERR DISCARD without MULTI")
    } else {
        Reaction::Ok
    }
}

/// Returns the reaction to a command or a subcommand that the table does not have.
fn reaction_to_unlisted<'a>(name: &[u8], words: CommandArguments<'a>) -> Reaction<'a>
    ensures { treatment_in result ≡ unlisted_treatment name.now words.entry }
{
    if is_name(name, b"post") || is_name(name, b"host:") {
        Reaction::Http
    } else if is_name(name, b"client") {
        reaction_to_client(words)
    } else {
        Reaction::Unknown
    }
}

/// Returns the reaction to CLIENT with these words.
fn reaction_to_client(mut words: CommandArguments<'_>) -> Reaction<'_>
    ensures { treatment_in result ≡ client_treatment words.entry }
{
    let Some(word) = words.next() else {
        return Reaction::Unknown;
    };
    if is_name(word, b"id") {
        with_words(0, words, Reaction::Number)
    } else if is_name(word, b"getname") {
        with_words(0, words, Reaction::Name)
    } else if is_name(word, b"setname") {
        reaction_to_setname(words)
    } else if is_name(word, b"setinfo") {
        with_words(2, words, Reaction::Ok)
    } else if is_name(word, b"no-evict") {
        with_words(1, words, Reaction::Ok)
    } else {
        Reaction::Unknown
    }
}

/// Returns a reaction to a subcommand of CLIENT, if it has this number of words after it.
fn with_words<'a>(count: u64, words: CommandArguments<'_>, reaction: Reaction<'a>) -> Reaction<'a>
    ensures { treatment_in result ≡ with_words count words.entry (treatment_in reaction.entry) }
{
    if words.len() == count {
        reaction
    } else {
        WRONG_COUNT
    }
}

/// Returns the reaction to CLIENT SETNAME with these words.
fn reaction_to_setname(mut words: CommandArguments<'_>) -> Reaction<'_>
    ensures { treatment_in result ≡ setname_treatment words.entry }
{
    match (words.next(), words.next()) {
        (Some(name), None) => Reaction::SetName(name),
        _ => WRONG_COUNT,
    }
}

/// Returns whether a command needs a dedicated connection, or one in another setting, and the proxy
/// does not reply to it. `is_first` says whether the client is in the setting in which every client
/// begins.
#[inline(always)]
pub(crate) fn needs_own(frames: &Frames, is_first: bool, command: &CommandFrame) -> bool
    ensures same { (words : TellsWords (frame_limits frames.now) (text_of command.now.frame)
        command.now.words) →
        result ≡ moves is_first command.now.words.class words.name words.arguments }
    ensures needed { IsTrue result → IsForOwn command.now.words.class }
{
    match command.words.class {
        Some(Class::OwnConnection) => true,
        Some(Class::Setting) => leaves_setting(frames, is_first, command),
        _ => false,
    }
}

/// Returns whether a command that concerns the setting needs another connection than the client has.
fn leaves_setting(frames: &Frames, is_first: bool, command: &CommandFrame) -> bool
    ensures { (words : TellsWords (frame_limits frames.now) (text_of command.now.frame)
        command.now.words) →
        result ≡ not (is_first && keeps_setting words.name words.arguments) }
{
    if !is_first {
        return true;
    }
    !keeps_setting(&frames.limits(), command)
}

/// Returns whether a command leaves the client in version 2 and in database 0: HELLO, HELLO 2 and
/// SELECT 0.
fn keeps_setting(limits: &Limits, command: &CommandFrame) -> bool
    ensures { (words : TellsWords limits.now (text_of command.now.frame) command.now.words) →
        result ≡ keeps_setting words.name words.arguments }
{
    no_spelling_begins_another();
    match whole::command(command.frame.text(), limits) {
        Some(words) => keeps_by(words.name, words.arguments),
        None => false,
    }
}

/// Returns whether the command of this name with these words after it leaves the client in version 2
/// and in database 0.
fn keeps_by(name: &[u8], words: CommandArguments<'_>) -> bool
    ensures { result ≡ keeps_setting name.now words.entry }
{
    if is_name(name, b"hello") {
        keeps_by_hello(words)
    } else if is_name(name, b"select") {
        keeps_by_select(words)
    } else {
        false
    }
}

/// Returns whether HELLO with these words leaves the client in version 2.
fn keeps_by_hello(mut words: CommandArguments<'_>) -> bool
    ensures { result ≡ keeps_by_hello words.entry }
{
    match (words.next(), words.next()) {
        (None, _) => true,
        (Some(version), None) => version == b"2".as_slice(),
        _ => false,
    }
}

/// Returns whether SELECT with these words leaves the client in database 0.
fn keeps_by_select(mut words: CommandArguments<'_>) -> bool
    ensures { result ≡ keeps_by_select words.entry }
{
    match (words.next(), words.next()) {
        (Some(database), None) => database == b"0".as_slice(),
        _ => false,
    }
}
