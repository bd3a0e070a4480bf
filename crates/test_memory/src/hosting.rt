//! The server of 16 databases.

use crate::outcome::Outcome;
use resp_server::{Client, Databases};
use resp_value::limits::Limits;
use std::alloc::{AllocError, Global};
use std::hash::{BuildHasherDefault, FoldHasher};

type TestDatabases = Databases<BuildHasherDefault<FoldHasher>>;

fn new_databases(alloc: Global) -> Result<TestDatabases, AllocError> {
    Databases::new(alloc, Limits::standard(), BuildHasherDefault::new())
}

/// Makes the databases.
pub(crate) fn of_new(alloc: Global) -> Outcome {
    match new_databases(alloc) {
        Ok(mut databases) => Outcome::of(databases.open().is_some()),
        Err(AllocError) => Outcome::OutOfMemory,
    }
}

/// Runs the commands that `resp_server` has, as lines.
pub(crate) fn of_lines(alloc: Global) -> Outcome {
    let asked = b"SET a 1\r\nGET a\r\nHELLO 4\r\nDEL a\r\nGET a\r\n";
    let replies = [
        b"+OK\r\n".as_slice(),
        b"$1\r\n1\r\n",
        b"-NOPROTO unsupported protocol version\r\n",
        b":1\r\n",
        b"$-1\r\n",
    ];
    of_text(alloc, asked, &replies)
}

/// Runs the other commands, as arrays that come byte by byte.
pub(crate) fn of_arrays(alloc: Global) -> Outcome {
    let asked =
        b"*2\r\n$6\r\nSELECT\r\n$1\r\n1\r\n*3\r\n$6\r\nEXISTS\r\n$1\r\na\r\n$1\r\nb\r\n*1\r\n$6\r\nDBSIZE\r\n\
        *3\r\n$6\r\nCLIENT\r\n$7\r\nSETNAME\r\n$1\r\nn\r\n*2\r\n$6\r\nCLIENT\r\n$7\r\nGETNAME\r\n\
        *2\r\n$6\r\nCLIENT\r\n$3\r\nFOO\r\n*1\r\n$7\r\nFLUSHDB\r\n*1\r\n$8\r\nFLUSHALL\r\n";
    let replies = [
        b"+OK\r\n".as_slice(),
        b":0\r\n",
        b":0\r\n",
        b"+OK\r\n",
        b"$1\r\nn\r\n",
        b"-ERR unknown subcommand 'FOO'. Try CLIENT HELP.\r\n",
        b"+OK\r\n",
        b"+OK\r\n",
    ];
    of_text(alloc, asked, &replies)
}

/// Refuses an array.
pub(crate) fn of_fault(alloc: Global) -> Outcome {
    let Ok(mut databases) = new_databases(alloc) else {
        return Outcome::OutOfMemory;
    };
    let Some(mut client) = databases.open() else {
        return Outcome::Wrong;
    };
    match databases.take(&mut client, b"*x\r\nPING\r\n", 0) {
        Ok(10) => Outcome::of(
            client.is_closing()
                && client.out() == b"-ERR Protocol error: Syntax at byte 1\r\n".as_slice(),
        ),
        Ok(_) => Outcome::Wrong,
        Err(AllocError) => Outcome::refused(client.is_closing() && client.out().is_empty()),
    }
}

/// Gives the server a text byte by byte. If an allocation fails, the client is closing, its replies
/// are the first ones, and it takes nothing more.
fn of_text(alloc: Global, asked: &[u8], replies: &[&[u8]]) -> Outcome {
    let Ok(mut databases) = new_databases(alloc) else {
        return Outcome::OutOfMemory;
    };
    let Some(mut client) = databases.open() else {
        return Outcome::Wrong;
    };
    for index in 0..asked.len() {
        if databases
            .take(&mut client, &asked[index..index + 1], usize::MAX)
            .is_err()
        {
            let stands = client.is_closing()
                && begins(client.out(), replies)
                && stays(&mut databases, &mut client);
            return Outcome::refused(stands);
        }
    }
    let mut left = client.out();
    for reply in replies {
        let Some(rest) = left.strip_prefix(*reply) else {
            return Outcome::Wrong;
        };
        left = rest;
    }
    Outcome::of(left.is_empty() && !client.is_closing())
}

/// Returns whether a closing client takes nothing.
fn stays(databases: &mut TestDatabases, client: &mut Client) -> bool {
    let before = client.out().len();
    databases.take(client, b"PING\r\n", usize::MAX) == Ok(6) && client.out().len() == before
}

/// Returns whether a text is the first of these replies, one after another.
fn begins(text: &[u8], replies: &[&[u8]]) -> bool {
    let mut left = text;
    for reply in replies {
        if left.is_empty() {
            return true;
        }
        let Some(rest) = left.strip_prefix(*reply) else {
            return false;
        };
        left = rest;
    }
    left.is_empty()
}
