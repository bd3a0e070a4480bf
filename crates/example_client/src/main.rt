//! Queues HELLO 3 and two commands, and prints their text. Then reads the replies from standard
//! input in pieces of 16 bytes, and prints each reply with the number of its command.
#![tactic(auto)]

use anyhow::Result;
use resp_client::{Client, What};
use resp_value::{Command, Limits, Version};
use std::alloc::Global;
use std::io::Read;

/// The size of one read, in bytes.
const PIECE: usize = 16;

/// Makes a command of a name and a key.
fn command(alloc: Global, name: &[u8], key: &[u8]) -> Result<Command> {
    let words = vec![in alloc; name.to_vec(alloc)?, key.to_vec(alloc)?]?;
    Ok(Command::new(words)?)
}

fn main(rt: HostRuntime) -> Result<()> {
    let alloc = rt.alloc();
    let mut client = Client::new(alloc, &Limits::standard());
    client.hello(Some(Version::Three))?;
    client.send(&command(alloc, b"INCR", b"a")?)?;
    client.send(&command(alloc, b"GET", b"b")?)?;
    println!(rt; "{}", client.out().escape_ascii())?;
    let length = client.out().len();
    client.sent(length);
    print_replies(&rt, &mut client)
}

/// Prints the replies and pushes of standard input, up to its end.
fn print_replies(rt: &HostRuntime, client: &mut Client) -> Result<()> {
    let mut input = rt.stdin();
    let mut piece = [0; PIECE];
    for _ in 0..u64::MAX {
        let count = input.read(&mut piece)?;
        if count == 0 {
            break;
        }
        print_heard(rt, client, &piece[..count])?;
    }
    Ok(())
}

/// Prints the replies and pushes of a piece. The client keeps the part of a reply that the piece
/// does not finish.
fn print_heard(rt: &HostRuntime, client: &mut Client, piece: &[u8]) -> Result<()> {
    let mut rest = piece;
    for _ in 0..u64::MAX {
        let fed = client.feed(rest)?;
        rest = &rest[fed.used..];
        match &fed.what {
            What::Reply { number, value } => println!(rt; "reply {number}: {value:?}")?,
            What::Push(items) => println!(rt; "push: {:?}", items.list())?,
            _ => break,
        }
    }
    Ok(())
}
