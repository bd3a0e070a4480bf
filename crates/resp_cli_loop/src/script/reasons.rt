//! Why a line of a script is bad.

ghost use Rattle.std.specs.Prelude.{◌≡◌};
ghost use Rattle.resp_cli_loop.specs.Reasons.{arguments_text, reason_text};

use crate::script::steps::EventVerb;
use std::fmt;
use std::fmt::{Display, Formatter, Write};

/// The error in a line of a script, or in the script as a whole.
#[derive(Clone, Copy, Debug, PartialEq, Eq)]
pub enum BadLine {
    /// No line of the script begins with the word `clients`.
    NoClients,
    /// The script has more than 1,048,576 bytes up to the end of this line.
    LongScript,
    /// This is line 10,001.
    ManyLines,
    /// The line has more than 4,096 bytes.
    LongLine,
    /// The line has more than 64 words.
    ManyWords,
    /// The line begins or ends with a space, or has two spaces in a row.
    Spaces,
    /// A byte of the line is neither a space nor printable ASCII.
    UnseenByte,
    /// This is the first line that is not skipped, and it is not `clients N` with N from 1 to 16.
    NotClients,
    /// Lines after the first one never begin with this word.
    UnknownWord,
    /// A word follows `flush`.
    FlushWords,
    /// The second word is not the number of a client.
    NoSuchClient,
    /// The words after the client's number are not allowed for this verb.
    Arguments(EventVerb),
}

impl BadLine {
    /// Returns a sentence that explains the error.
    pub fn sentence(&self) -> &'static str
        ensures { result.now ≡ reason_text self.now }
    {
        match self {
            BadLine::NoClients => "no line begins with the word clients",
            BadLine::LongScript => "a script has at most 1048576 bytes",
            BadLine::ManyLines => "a script has at most 10000 lines",
            BadLine::LongLine => "a line has at most 4096 bytes",
            BadLine::ManyWords => "a line has at most 64 words",
            BadLine::Spaces => "words are separated by one space, with no space at either end",
            BadLine::UnseenByte => "a byte is neither a space nor printable ASCII",
            BadLine::NotClients => "the first line must be `clients N`, with N from 1 to 16",
            BadLine::UnknownWord => {
                "unknown word: a line begins with send, hello, server, client, push, drop or flush"
            }
            BadLine::FlushWords => "flush takes nothing after it",
            BadLine::NoSuchClient => "the second word must be the number of a client",
            BadLine::Arguments(verb) => arguments_sentence(*verb),
        }
    }
}

/// Returns the sentence for the words after this verb.
fn arguments_sentence(verb: EventVerb) -> &'static str
    ensures { result.now ≡ arguments_text verb }
{
    match verb {
        EventVerb::Send => "send needs a client and a command of at least one word",
        EventVerb::Hello => "hello needs a client, optionally followed by 2 or 3",
        EventVerb::Server | EventVerb::Client => {
            "server and client need a client and a number of bytes from 1 to 1000000000"
        }
        EventVerb::Push => "push needs a client, optionally followed by words",
        EventVerb::Drop => "drop takes nothing after the client",
    }
}

impl Display for BadLine {
    fn fmt<W: Write>(&self, f: &mut Formatter<W>) -> fmt::Result {
        f.write_str(self.sentence())
    }
}
