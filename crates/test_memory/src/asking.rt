//! Parts that test asking.

use crate::outcome::Outcome;
use resp_cli_ask::{ExchangeError, ReplyForm, Telling, ask_command};
use resp_client::Client;
use resp_io::device::{MemorySink, MemorySource};
use resp_line::{LineError, words_of};
use resp_value::command::Command;
use resp_value::limits::Limits;
use std::alloc::{AllocError, Global};

/// Returns whether a line has the words `SET`, `a b` and `c"`.
fn has_words(words: &[Vec<u8>]) -> bool {
    let [first, second, third] = words else {
        return false;
    };
    first.as_slice() == b"SET".as_slice()
        && second.as_slice() == b"a b".as_slice()
        && third.as_slice() == b"c\"".as_slice()
}

/// The words of a line, which are not returned in part.
pub(crate) fn of_line(alloc: Global) -> Outcome {
    match words_of(alloc, b" SET 'a b' \"\\x63\\\"\" ") {
        Ok(words) => Outcome::of(has_words(words.as_slice())),
        Err(LineError::Memory) => Outcome::OutOfMemory,
        Err(_) => Outcome::Wrong,
    }
}

/// Returns the command GET with a key.
fn get(alloc: Global) -> Result<Command, AllocError> {
    let mut words = Vec::new(alloc);
    words.push(Vec::from_slice(alloc, b"GET")?)?;
    words.push(Vec::from_slice(alloc, b"a")?)?;
    match Command::new(words) {
        Ok(command) => Ok(command),
        Err(_) => Err(AllocError),
    }
}

/// Sends a command and prints its reply. After a failed allocation, the text printed is nothing: the
/// allocation is for the command or for its reply.
fn asks(alloc: Global) -> Result<Outcome, AllocError> {
    let mut reader = MemorySource::new(b"$3\r\none\r\n", 4);
    let mut writer = MemorySink::new(alloc, 64, 64)?;
    let mut output = MemorySink::new(alloc, 64, 64)?;
    let mut client = Client::new(alloc, &Limits::standard());
    let mut telling = Telling {
        form: ReplyForm::Numbered,
        before: 0,
        errors: 0,
    };
    let command = get(alloc)?;
    let asked = ask_command(
        &mut reader,
        &mut writer,
        &mut client,
        &command,
        &mut telling,
        &mut output,
        &mut [0; 16],
    );
    let is_sent = writer.bytes() == b"*2\r\n$3\r\nGET\r\n$1\r\na\r\n".as_slice();
    Ok(match asked {
        Ok(()) => Outcome::of(
            is_sent && output.bytes() == b"reply 1\n  bulk \"one\" 3\n".as_slice(),
        ),
        Err(ExchangeError::Memory) => {
            Outcome::refused((is_sent || writer.bytes().is_empty()) && output.bytes().is_empty())
        }
        Err(_) => Outcome::Wrong,
    })
}

/// A command with its reply.
pub(crate) fn of_command(alloc: Global) -> Outcome {
    match asks(alloc) {
        Ok(outcome) => outcome,
        Err(_) => Outcome::OutOfMemory,
    }
}
