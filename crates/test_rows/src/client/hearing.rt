//! Rows of the replies and pushes that a client receives.

use crate::spelling::{add_fault, add_final_fault, add_members, add_pushes, add_value, is_refused};
use anyhow::Result;
use resp_client::{Client, Fault, Heard, PushList, PushSink, What};
use std::alloc::{AllocError, Global};

/// `hear TEXT` prints each reply and each push of a text, and the fault if there is one.
pub(crate) fn hear(client: &mut Client, pieces: &[&[u8]], said: &mut String) -> Result<()> {
    for piece in pieces {
        if !hear_piece(client, piece, said)? {
            break;
        }
    }
    Ok(())
}

/// `taken` prints the number of bytes read of a value, and the fault if there was one.
pub(crate) fn taken(client: &Client, said: &mut String) -> Result<()> {
    writeln!(said, "taken {}", client.taken())?;
    if let Some(fault) = client.fault() {
        add_fault(said, fault.cause, fault.at)?;
    }
    Ok(())
}

/// `show TEXT` is `hear TEXT` with a sink, and finally prints the pushes that the sink has stored.
pub(crate) fn show(
    alloc: Global,
    client: &mut Client,
    pieces: &[&[u8]],
    said: &mut String,
) -> Result<()> {
    let mut sink: Box<dyn PushSink> = Box::new(alloc, PushList::new(alloc))?;
    for piece in pieces {
        let mut rest = *piece;
        for _ in 0..=piece.len() {
            match client.feed_with(rest, &mut sink) {
                Ok(Heard { used, what }) => {
                    rest = &rest[used..];
                    if !say_what(what, said)? {
                        break;
                    }
                }
                Err(fault) => {
                    say_refusal(client, rest, fault, said)?;
                    return Ok(add_pushes(said, sink.shown())?);
                }
            }
        }
    }
    Ok(add_pushes(said, sink.shown())?)
}

/// Prints the replies and pushes of a piece. Returns whether the client continues.
fn hear_piece(client: &mut Client, piece: &[u8], said: &mut String) -> Result<bool, AllocError> {
    let mut rest = piece;
    for _ in 0..=piece.len() {
        match client.feed(rest) {
            Ok(Heard { used, what }) => {
                rest = &rest[used..];
                if !say_what(what, said)? {
                    break;
                }
            }
            Err(fault) => return say_refusal(client, rest, fault, said),
        }
    }
    Ok(true)
}

/// Prints a fault, and a line if it is not returned again.
fn say_refusal(
    client: &mut Client,
    rest: &[u8],
    fault: Fault,
    said: &mut String,
) -> Result<bool, AllocError> {
    let is_final = is_refused(client.feed(rest), fault) && is_refused(client.feed(b""), fault);
    add_final_fault(said, fault, is_final)?;
    Ok(false)
}

/// `feed TEXT` makes one call, and prints the number of bytes used and the reply or push that ended
/// with them.
pub(crate) fn feed(client: &mut Client, text: &[u8], said: &mut String) -> Result<()> {
    say_heard(client.feed(text), said)?;
    Ok(())
}

fn say_heard(heard: Result<Heard, Fault>, said: &mut String) -> Result<(), AllocError> {
    match heard {
        Ok(Heard { used, what }) => {
            write!(said, "used {used}: ")?;
            if !say_what(what, said)? {
                said.push_str("more\n")?;
            }
            Ok(())
        }
        Err(fault) => add_fault(said, fault.cause, fault.at),
    }
}

/// Prints the reply or push that has ended. Returns whether there is one.
fn say_what(what: What, said: &mut String) -> Result<bool, AllocError> {
    match what {
        What::Reply { number, value } => {
            write!(said, "reply {number}: ")?;
            add_value(said, &value)?;
        }
        What::Push(items) => add_members(said, "push", items.list())?,
        What::Shown => said.push_str("shown")?,
        What::More => return Ok(false),
    }
    said.push_str("\n")?;
    Ok(true)
}
