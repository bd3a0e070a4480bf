//! The words of a command.

ghost use Rattle.std.specs.Prelude.{◌≡◌, ◌↔◌, ◌∷◌, List, ℕ, [], IfNone, IfSome, IsTrue};
ghost use Rattle.resp_frames.specs.Commands.{HasWords, IsCommand, IsFrameOfWords, TellsWords};
ghost use Rattle.resp_frames.specs.Requests.{IsEmptyArray, request_used};
ghost use Rattle.resp_scan.specs.Whole.{BeginsWith};
ghost use Rattle.resp_value.specs.Words.{command_of};

use crate::frame::Frame;
use resp_commands::{Class, listing_of};
use resp_scan::whole;
use resp_value::laws::{no_spelling_begins_another, no_spelling_is_empty};
use resp_value::limits::Limits;

/// The number of words of a command, its class, and its place in the table of commands.
#[derive(Clone, Copy, Debug)]
pub struct CommandWords {
    /// The number of words after the name.
    pub arguments: u64,
    /// The class of the command, or `None` if the table has no such command or subcommand.
    pub class: Option<Class>,
    /// The place of the command in the table, or `None` if the table has no command of its name.
    pub place: Option<u8>,
}

/// The bytes of a whole command, and the number and the class of its words.
#[derive(Debug, Drop)]
pub struct CommandFrame<'a> {
    /// The bytes.
    pub frame: Frame<'a>,
    /// The words.
    pub words: CommandWords,
}

/// A value that a client may send.
#[derive(Debug, Drop)]
pub enum Request<'a> {
    /// A command.
    Command(CommandFrame<'a>),
    /// An empty array, `*0\r\n`, or null, `*-1\r\n`. It is not a command and has no reply. This
    /// number of bytes of the piece belong to it.
    Empty(usize),
}

impl<'a> Request<'a> {
    /// Returns the number of bytes of the piece that belong to the value.
    pub fn used(&self) -> usize
        ensures { result ≡ request_used self.now }
    {
        match self {
            Request::Command(command) => command.frame.used(),
            Request::Empty(used) => *used,
        }
    }
}

/// Returns the number and the class of these words, and the place of the command.
#[inline(always)]
fn words_by(name: &[u8], arguments: whole::CommandArguments<'_>) -> CommandWords
    ensures { HasWords name.now arguments.entry result }
{
    let count = arguments.len();
    let listing = listing_of(name, arguments);
    CommandWords {
        arguments: count,
        class: listing.class,
        place: listing.place,
    }
}

/// Returns the command at the beginning of the piece, or `None` if the piece does not contain the whole
/// command.
#[inline(always)]
pub fn command_of_piece<'a>(piece: &'a [u8], limits: &Limits) -> Option<CommandFrame<'a>>
    ensures command { IfSome result (λ found. IsFrameOfWords limits.now [] piece.now found) }
    ensures none { IfNone result ((name : List ℕ) (arguments : List (List ℕ)) (rest : List ℕ) →
        BeginsWith limits.now piece.now (command_of (name ∷ arguments)) rest → ⊥) }
{
    no_spelling_is_empty();
    let command = whole::command(piece, limits)?;
    let used = piece.len() - command.rest.len();
    Some(CommandFrame {
        frame: Frame::InPiece(&piece[..used]),
        words: words_by(command.name, command.arguments),
    })
}

/// Returns whether the bytes are an empty array or null.
pub(crate) fn is_empty_array(text: &[u8]) -> bool
    ensures { IsTrue result ↔ IsEmptyArray text.now }
{
    text == b"*0\r\n".as_slice() || text == b"*-1\r\n".as_slice()
}

/// Returns the number and the class of the words of a command, or `None` if the bytes are not a
/// command.
pub(crate) fn words_of(text: &[u8], limits: &Limits) -> Option<CommandWords>
    ensures command { IfSome result (λ words. TellsWords limits.now text.now words) }
    ensures other { IfNone result (IsCommand limits.now text.now → ⊥) }
{
    no_spelling_begins_another();
    let command = whole::command(text, limits)?;
    if !command.rest.is_empty() {
        return None;
    }
    Some(words_by(command.name, command.arguments))
}
