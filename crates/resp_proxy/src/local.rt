//! Replies of the proxy itself to commands that the server would reply to.

ghost use Rattle.std.specs.Prelude.{◌≡◌, IfOk, IfSome};
ghost use Rattle.resp_frames.specs.Texts.{text_of};
ghost use Rattle.resp_proxy.specs.OwnReplies.{IsReplyOf, info_treatment, local_treatment_in, ping_treatment, shared_treatment};
ghost use Rattle.resp_proxy.specs.Taking.{IsLocalReply};

use crate::answer::{bulk, pong};
use crate::counts::{Numbers, ProxyCounts};
use crate::latency::Times;
use resp_board::Board;
use resp_frames::CommandFrame;
use resp_scan::whole;
use resp_scan::whole::CommandArguments;
use resp_session::names::is_name;
use resp_value::limits::Limits;
use std::alloc::{AllocError, Global};

/// The index of the name in the usual text of a command that has one or two words and a name of
/// four bytes.
const NAME: usize = 8;

/// What the proxy does with a command for which clients share a connection.
#[derive(Clone, Copy)]
enum LocalReaction<'a> {
    /// Nothing, since the command is for the server.
    Server,
    /// It replies with what it has counted.
    Counts,
    /// It replies `+PONG`.
    Pong,
    /// It replies with this word.
    Echo(&'a [u8]),
}

/// Returns the reply of the proxy to `INFO proxy`, and to PING if `local_ping` is true. Returns `None`
/// if the command is for the server.
pub(crate) fn local_answer(
    alloc: Global,
    limits: &Limits,
    local_ping: bool,
    counts: &ProxyCounts,
    board: &Board,
    command: &CommandFrame,
) -> Result<Option<Vec<u8>>, AllocError>
    ensures { IfOk result (λ answer. IfSome answer (λ text.
        IsLocalReply limits.now local_ping (text_of command.now.frame) text.items)) }
{
    if !may_be_answered(command) || !has_local_name(command.frame.text()) {
        return Ok(None);
    }
    let Some(words) = whole::command(command.frame.text(), limits) else {
        return Ok(None);
    };
    let reaction = local_reaction_to(local_ping, words.name, words.arguments);
    local_reply(alloc, counts, board, reaction)
}

/// Returns whether a command may be INFO or PING, judging by its number of words and the first
/// letter of its name. Most commands are neither.
#[inline(always)]
pub(crate) fn may_be_answered(command: &CommandFrame) -> bool {
    command.words.arguments <= 1
        && matches!(
            command.frame.text().get(NAME),
            Some(b'I' | b'i' | b'P' | b'p')
        )
}

/// Returns whether a command in its usual text has one of the names INFO and PING.
fn has_local_name(text: &[u8]) -> bool {
    let Some(name) = text.get(NAME..NAME + 4) else {
        return false;
    };
    name.eq_ignore_ascii_case(b"INFO") || name.eq_ignore_ascii_case(b"PING")
}

/// Returns the reaction to the command of this name with these words after it.
fn local_reaction_to<'a>(
    local_ping: bool,
    name: &[u8],
    words: CommandArguments<'a>,
) -> LocalReaction<'a>
    ensures { local_treatment_in result ≡ shared_treatment local_ping name.now words.entry }
{
    if is_name(name, b"info") {
        local_reaction_to_info(words)
    } else if local_ping && is_name(name, b"ping") {
        local_reaction_to_ping(words)
    } else {
        LocalReaction::Server
    }
}

/// Returns the reaction to INFO with these words.
fn local_reaction_to_info(mut words: CommandArguments<'_>) -> LocalReaction<'_>
    ensures { local_treatment_in result ≡ info_treatment words.entry }
{
    let Some(section) = words.next() else {
        return LocalReaction::Server;
    };
    if words.next().is_some() {
        return LocalReaction::Server;
    }
    if is_name(section, b"proxy") {
        LocalReaction::Counts
    } else {
        LocalReaction::Server
    }
}

/// Returns the reaction to PING with these words.
fn local_reaction_to_ping(mut words: CommandArguments<'_>) -> LocalReaction<'_>
    ensures { local_treatment_in result ≡ ping_treatment words.entry }
{
    let Some(word) = words.next() else {
        return LocalReaction::Pong;
    };
    if words.next().is_some() {
        return LocalReaction::Server;
    }
    LocalReaction::Echo(word)
}

/// Returns the reply of a reaction, or `None` if the command is for the server.
fn local_reply(
    alloc: Global,
    counts: &ProxyCounts,
    board: &Board,
    reaction: LocalReaction<'_>,
) -> Result<Option<Vec<u8>>, AllocError>
    ensures { IfOk result (λ answer. IfSome answer (λ text.
        IsReplyOf (local_treatment_in reaction.entry) text.items)) }
{
    match reaction {
        LocalReaction::Server => Ok(None),
        LocalReaction::Counts => {
            let section = section_of(alloc, counts, board)?;
            let text = bulk(alloc, section.as_str().as_bytes())?;
            Ok(Some(text))
        }
        LocalReaction::Pong => {
            let text = pong(alloc)?;
            Ok(Some(text))
        }
        LocalReaction::Echo(word) => {
            let text = bulk(alloc, word)?;
            Ok(Some(text))
        }
    }
}

/// Returns the text of the section `proxy`.
fn section_of(alloc: Global, counts: &ProxyCounts, board: &Board) -> Result<String, AllocError> {
    let Numbers {
        clients,
        accepted,
        rejected,
        unread,
        own,
        commands,
        failed,
        connections,
        waiting,
        unsent,
        lines,
    } = counts.numbers(board);
    let Times {
        median,
        percentile_99,
        most,
    } = counts.times();
    let mut text = format!(in alloc;
        "# Proxy\r\nclients:{clients}\r\nclients_accepted:{accepted}\r\nclients_rejected:{rejected}\r\nclients_unread:{unread}\r\nclients_own:{own}\r\ncommands:{commands}\r\ncommands_waiting:{waiting}\r\ncommands_failed:{failed}\r\nbytes_unsent:{unsent}\r\nserver_connections:{connections}\r\nserver_lines:{lines}\r\nreply_us_p50:{median}\r\nreply_us_p99:{percentile_99}\r\nreply_us_max:{most}\r\n"
    )?;
    counts.add_lines(alloc, &mut text)?;
    Ok(text)
}
