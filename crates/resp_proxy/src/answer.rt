//! The replies of the proxy itself.

ghost use Rattle.std.specs.Prelude.{◌≡◌, ◌++◌, codes, if◌then◌else◌, map, pos, IfNone, IfOk, IfSome, OnOk};
ghost use Rattle.resp_commands.specs.Names.{IsUnknown};
ghost use Rattle.resp_frames.specs.Commands.{TellsWords};
ghost use Rattle.resp_frames.specs.Texts.{text_of};
ghost use Rattle.resp_proxy.specs.OwnReplies.{IsError, IsListed, IsReply, IsReplyBy, NeedsAnother, error, is_client_name, name_datum, named_reply, ok, on_line, treatment_in, unshared_treatment};
ghost use Rattle.resp_proxy.specs.Reasons.{Closes, FitsAnswer, HasReply, IsNoneLeft, Reacts};
ghost use Rattle.resp_proxy.specs.Refusing.{IsNamedBy, NamesCommand};
ghost use Rattle.resp_value.specs.Canonical.{canonical_text};
ghost use Rattle.resp_value.specs.Data.{scalar};
ghost use Rattle.resp_value.specs.Data as d;
ghost use Rattle.resp_value.specs.Words.{word_datum};
ghost use Rattle.resp_value.specs.declared.version.Version.{Version};

use crate::error::{ClientError, CommandName};
use crate::hello::hello_text;
use crate::reaction::{Reaction, reaction_to};
use crate::route::Route;
use crate::setting;
use resp_commands::{Class, Command, entry, subcommand};
use resp_frames::CommandFrame;
use resp_scan::whole;
use resp_scan::whole::CommandArguments;
use resp_value::laws::no_spelling_begins_another;
use resp_value::limits::Limits;
use resp_value::version::Version;
use std::alloc::{AllocError, Global};
use std::slice::EscapeAscii;

/// The maximum number of bytes of a command's name in an error.
const SHOWN: usize = 64;

/// The treatment of a command that is not sent to the server.
#[derive(Drop)]
pub(crate) enum Answer {
    /// It sends this reply.
    Reply(Vec<u8>),
    /// It closes the client, since the command is QUIT.
    Quit,
    /// It closes the client, since the command is a line of a request of HTTP.
    Http,
    /// It closes the client, since this command needs a dedicated connection or another setting, and
    /// no more are allowed. The bytes after it were meant for that connection.
    NoneLeft(CommandName),
}

/// Returns what the proxy does with a command that is not sent to the server.
pub(crate) fn own_answer(
    alloc: Global,
    limits: &Limits,
    route: Route,
    name: &mut Vec<u8>,
    command: &CommandFrame,
) -> Result<Answer, AllocError>
    ensures { (words : TellsWords limits.now (text_of command.now.frame) command.now.words) →
        IfOk result (FitsAnswer route name.old.items (unshared_treatment route.is_first
        command.now.words.class words.name words.arguments) words.name words.arguments) }
{
    no_spelling_begins_another();
    let Some(words) = whole::command(command.frame.text(), limits) else {
        // This never happens, since the frame is a command.
        return Ok(Answer::Quit);
    };
    answer_by(
        alloc,
        route,
        name,
        command.words.class,
        words.name,
        words.arguments,
    )
}

/// Returns what the proxy does with the command of this class and name with these words after it.
fn answer_by(
    alloc: Global,
    route: Route,
    own_name: &mut Vec<u8>,
    class: Option<Class>,
    name: &[u8],
    words: CommandArguments<'_>,
) -> Result<Answer, AllocError>
    ensures { IsListed class name.now words.entry → IfOk result (FitsAnswer route
        own_name.old.items (unshared_treatment route.is_first class name.now words.entry) name.now
        words.entry) }
{
    let first = words.iter().next();
    let reaction = reaction_to(route.is_first, class, name, words);
    react(alloc, route, own_name, reaction, name, first)
}

/// Returns the answer of a reaction to the command of this name. `first` is the word after the name.
fn react(
    alloc: Global,
    route: Route,
    own_name: &mut Vec<u8>,
    reaction: Reaction<'_>,
    name: &[u8],
    first: Option<&[u8]>,
) -> Result<Answer, AllocError>
    ensures { (treatment_in reaction.entry ≡ NeedsAnother → IsUnknown name.now → ⊥) →
        IfOk result (Reacts route own_name.old.items (treatment_in reaction.entry) name.now first.entry) }
{
    if let Some(answer) = closing(reaction, name, first) {
        return Ok(answer);
    }
    let text = reply(alloc, route, own_name, reaction, name, first)?;
    Ok(Answer::Reply(text))
}

/// Returns the answer of a reaction that closes the client.
fn closing(reaction: Reaction<'_>, name: &[u8], first: Option<&[u8]>) -> Option<Answer>
    ensures some { (treatment_in reaction.entry ≡ NeedsAnother → IsUnknown name.now → ⊥) →
        IfSome result (Closes (treatment_in reaction.entry) name.now first.entry) }
    ensures none { IfNone result (HasReply (treatment_in reaction.entry)) }
{
    match reaction {
        Reaction::Quit => Some(Answer::Quit),
        Reaction::Http => Some(Answer::Http),
        Reaction::NoneLeft => Some(none_left_for(name, first)),
        Reaction::Ok
        | Reaction::Number
        | Reaction::Name
        | Reaction::SetName(_)
        | Reaction::Hello
        | Reaction::Error(_)
        | Reaction::Unknown
        | Reaction::Refused => None,
    }
}

/// Returns the reply of a reaction to the command of this name. `first` is the word after the name.
fn reply(
    alloc: Global,
    route: Route,
    own_name: &mut Vec<u8>,
    reaction: Reaction<'_>,
    name: &[u8],
    first: Option<&[u8]>,
) -> Result<Vec<u8>, AllocError>
    requires { HasReply (treatment_in reaction) }
    ensures { IfOk result (λ text. IsReplyBy (treatment_in reaction.entry) route.version
        route.client.number own_name.old.items text.items) }
{
    match reaction {
        Reaction::Ok => ok(alloc),
        Reaction::Number => integer(alloc, route.client.number),
        Reaction::Name => name_of(alloc, route.version, own_name),
        Reaction::SetName(word) => set_name(alloc, own_name, word),
        Reaction::Hello => hello_text(alloc, route.client.number),
        Reaction::Error(message) => error(alloc, message),
        Reaction::Unknown => unknown(alloc, name, first),
        Reaction::Refused | Reaction::Quit | Reaction::Http | Reaction::NoneLeft => {
            not_served(alloc, name, first)
        }
    }
}

/// Returns the answer for a command of this name that needs a dedicated connection.
fn none_left_for(name: &[u8], first: Option<&[u8]>) -> Answer
    ensures { (IsUnknown name.now → ⊥) → IsNoneLeft name.now first.entry result }
{
    match command_name(name, first) {
        Some(name) => Answer::NoneLeft(name),
        // This never happens, since the table has a class for the command.
        None => Answer::Quit,
    }
}

/// Returns the name of the command with this name and this first word after it, as the table has
/// it, or `None` if the table has no such command.
fn command_name(name: &[u8], first: Option<&[u8]>) -> Option<CommandName>
    ensures some { IfSome result (NamesCommand name.now first.entry) }
    ensures none { IfNone result (IsUnknown name.now) }
{
    let command = entry(name)?;
    Some(CommandName {
        command: command.name(),
        subcommand: match first {
            Some(word) if command.has_subcommands() => subcommand_name(command, word),
            _ => None,
        },
    })
}

/// Returns the name of this subcommand of a command, as the table has it, or `None` if the command has
/// no such subcommand.
fn subcommand_name(command: &Command, word: &[u8]) -> Option<&'static [u8]>
    ensures { IsNamedBy command.now word.now result }
{
    Some(subcommand(command, word)?.name())
}

/// Returns the reply with the client's name, or with null if it has no name.
fn name_of(alloc: Global, version: Version, name: &[u8]) -> Result<Vec<u8>, AllocError>
    ensures { IfOk result (λ text. IsReply version (name_datum name.now) text.items) }
{
    if name.is_empty() {
        null(alloc, version)
    } else {
        bulk(alloc, name)
    }
}

/// Returns null.
fn null(alloc: Global, version: Version) -> Result<Vec<u8>, AllocError>
    ensures { IfOk result (λ text. IsReply version (scalar d.Null) text.items) }
{
    let text = copy_of(alloc, null_text(version))?;
    Ok(text)
}

/// Returns the text of null.
fn null_text(version: Version) -> &'static [u8]
    ensures { result.now ≡ canonical_text version (scalar d.Null) }
{
    match version {
        Version::Two => b"$-1\r\n",
        Version::Three => b"_\r\n",
    }
}

/// Gives the client a name, if each of its bytes is printable and not a space.
fn set_name(alloc: Global, kept: &mut Vec<u8>, name: &[u8]) -> Result<Vec<u8>, AllocError>
    ensures reply { IfOk result (λ text. (version : Version) →
        IsReply version (named_reply name.now) text.items) }
    ensures named { OnOk result (kept.new.items ≡
        (if is_client_name name.now then name.now else kept.old.items)) }
{
    if !is_client_name(name) {
        return error(
            alloc,
            b"ERR Client names cannot contain spaces, newlines or special characters.",
        );
    }
    let answer = ok(alloc)?;
    let copy = copy_of(alloc, name)?;
    *kept = copy;
    Ok(answer)
}

/// Returns whether each byte of a name of a client is printable and not a space.
pub(crate) fn is_client_name(name: &[u8]) -> bool
    ensures { result ≡ is_client_name name.now }
{
    let mut index = 0;
    while index < name.len() {
        if name[index] < b'!' || name[index] > b'~' {
            return false;
        }
        index += 1;
    }
    true
}

/// Returns `+OK`.
pub(crate) fn ok(alloc: Global) -> Result<Vec<u8>, AllocError>
    ensures { IfOk result (λ text. (version : Version) → IsReply version ok text.items) }
{
    let text = copy_of(alloc, b"+OK\r\n")?;
    Ok(text)
}

/// Returns a copy of these bytes.
fn copy_of(alloc: Global, bytes: &[u8]) -> Result<Vec<u8>, AllocError>
    ensures { IfOk result (λ copy. copy.items ≡ bytes.now) }
{
    bytes.to_vec(alloc)
}

/// Returns `+PONG`.
pub(crate) fn pong(alloc: Global) -> Result<Vec<u8>, AllocError>
    ensures { IfOk result (λ text. (version : Version) →
        IsReply version (scalar (d.Simple (codes "PONG"))) text.items) }
{
    let text = copy_of(alloc, b"+PONG\r\n")?;
    Ok(text)
}

/// Returns an integer.
fn integer(alloc: Global, number: u64) -> Result<Vec<u8>, AllocError>
    ensures { IfOk result (λ text. (version : Version) →
        IsReply version (scalar (d.Int (pos number))) text.items) }
{
    let text = format!(in alloc; ":{}\r\n", number)?;
    Ok(text.into_bytes())
}

/// Returns a bulk string of these bytes.
pub(crate) fn bulk(alloc: Global, bytes: &[u8]) -> Result<Vec<u8>, AllocError>
    ensures { IfOk result (λ text. (version : Version) →
        IsReply version (word_datum bytes.now) text.items) }
{
    let mut text = Vec::new(alloc);
    setting::bulk(bytes, &mut text)?;
    Ok(text)
}

/// Returns an error with this message. A space replaces each CR and LF of the message, so the error
/// is one line.
fn error(alloc: Global, message: &[u8]) -> Result<Vec<u8>, AllocError>
    ensures { IfOk result (λ text. (version : Version) →
        IsReply version (error (map on_line message.now)) text.items) }
{
    let mut text = one_line(alloc, message)?;
    text.extend_from_slice(b"\r\n")?;
    Ok(text)
}

/// Returns a minus and a message, with a space in place of each CR and LF.
fn one_line(alloc: Global, message: &[u8]) -> Result<Vec<u8>, AllocError>
    ensures { IfOk result (λ line. line.items ≡ codes "-" ++ map on_line message.now) }
{
    let mut line = copy_of(alloc, b"-")?;
    for byte in message {
        line.push(on_line(*byte))?;
    }
    Ok(line)
}

/// Returns a space in place of CR or LF.
fn on_line(byte: u8) -> u8
    ensures { result ≡ on_line byte }
{
    match byte {
        b'\r' | b'\n' => b' ',
        _ => byte,
    }
}

/// Returns the error for a command or a subcommand that the table does not have. `first` is the word
/// after the name.
fn unknown(alloc: Global, name: &[u8], first: Option<&[u8]>) -> Result<Vec<u8>, AllocError>
    ensures { IfOk result (λ text. (version : Version) → IsError version text.items) }
{
    let is_known = entry(name).is_some();
    let name = shown(name);
    let message = match first {
        Some(word) if is_known => {
            let word = shown(word);
            format!(in alloc; "ERR unknown subcommand '{word}' of '{name}'")?
        }
        _ => format!(in alloc; "ERR unknown command '{name}'")?,
    };
    let text = error(alloc, message.as_bytes())?;
    Ok(text)
}

/// Returns the error for a command that is not served. `first` is the word after the name.
fn not_served(alloc: Global, name: &[u8], first: Option<&[u8]>) -> Result<Vec<u8>, AllocError>
    ensures { IfOk result (λ text. (version : Version) → IsError version text.items) }
{
    let name = full_name(alloc, name, first)?;
    let message = format!(in alloc; "ERR '{name}' is not served by this proxy")?;
    let text = error(alloc, message.as_bytes())?;
    Ok(text)
}

/// Returns the beginning of a word, as errors show it.
fn shown(word: &[u8]) -> EscapeAscii<'_> {
    word[..word.len().min(SHOWN)].escape_ascii()
}

/// Returns the name of a command as errors show it: with the first word after it, if the command
/// has subcommands.
fn full_name(alloc: Global, name: &[u8], first: Option<&[u8]>) -> Result<String, AllocError> {
    let has_subcommands = entry(name).is_some_and(|command| command.has_subcommands());
    let name = shown(name);
    match first {
        Some(word) if has_subcommands => {
            let word = shown(word);
            format!(in alloc; "{name} {word}")
        }
        _ => format!(in alloc; "{name}"),
    }
}

/// Returns the error for a command that needs a dedicated connection, if no more clients may get
/// one. `name` is the name of the command, and `first` is the first word after it.
///
/// # Errors
///
/// `AllocError` if an allocation fails.
pub fn no_more(alloc: Global, name: &[u8], first: Option<&[u8]>) -> Result<Vec<u8>, AllocError>
    ensures { IfOk result (λ text. (version : Version) → IsError version text.items) }
{
    let name = full_name(alloc, name, first)?;
    let message = format!(in alloc;
        "ERR '{name}' needs a connection of its own, and no more are allowed"
    )?;
    let text = error(alloc, message.as_bytes())?;
    Ok(text)
}

/// Returns the error of `no_more` for the command with this name, in upper case.
pub(crate) fn none_left(alloc: Global, name: CommandName) -> Result<Vec<u8>, AllocError>
    ensures { IfOk result (λ text. (version : Version) → IsError version text.items) }
{
    let command = upper_case(alloc, name.command)?;
    match name.subcommand {
        Some(word) => {
            let word = upper_case(alloc, word)?;
            no_more(alloc, &command, Some(&word))
        }
        None => no_more(alloc, &command, None),
    }
}

/// Returns a copy of a word in upper case.
fn upper_case(alloc: Global, word: &[u8]) -> Result<Vec<u8>, AllocError> {
    let mut word = word.to_vec(alloc)?;
    word.make_ascii_uppercase();
    Ok(word)
}

/// Returns the error for a client that sent bytes that are not a command.
pub(crate) fn protocol_error(alloc: Global, cause: ClientError) -> Result<Vec<u8>, AllocError>
    ensures { IfOk result (λ text. (version : Version) → IsError version text.items) }
{
    let message = format!(in alloc; "ERR Protocol error: {cause}")?;
    let text = error(alloc, message.as_bytes())?;
    Ok(text)
}
