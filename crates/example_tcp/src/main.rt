//! Talks to Redis over TCP.
//!
//! `ask PORT` sends 10,000 commands in one pipeline to a server on this machine, with HELLO 3 in
//! the middle and pushes after it, and prints the number of replies and of pushes. It fails if a
//! reply belongs to another command. `serve PORT` is a server for clients on this machine, until it
//! is stopped. Without arguments the program prints its usage.
#![tactic(auto)]

mod asking;
mod serving;

use anyhow::Result;
use std::env;
use std::hash::RandomState;

/// The task that the command line names.
enum Task {
    Usage,
    Ask(u16),
    Serve(u16),
}

fn asked_for(rt: &HostRuntime) -> Result<Task> {
    let mut words = env::args(rt)?.skip(1);
    let (Some(name), Some(port)) = (words.next(), words.next()) else {
        return Ok(Task::Usage);
    };
    let port = port.parse()?;
    Ok(match name.as_str() {
        "ask" => Task::Ask(port),
        "serve" => Task::Serve(port),
        _ => Task::Usage,
    })
}

fn main(rt: HostRuntime) -> Result<()> {
    let alloc = rt.alloc();
    match asked_for(&rt)? {
        Task::Usage => println!(rt; "usage: example_tcp ask PORT | serve PORT")?,
        Task::Ask(port) => {
            let (replies, pushes) = asking::ask_server(&rt, alloc, port)?;
            println!(rt; "{replies} replies, each its command's, and {pushes} pushes")?;
        }
        Task::Serve(port) => serving::serve_clients(&rt, alloc, RandomState::new(&rt)?, port)?,
    }
    Ok(())
}
