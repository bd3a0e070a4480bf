//! The keys of a command.

ghost use Rattle.std.specs.Prelude.{◌≡◌, ℕ, List, IfNone, IfSome};
ghost use Rattle.resp_frames.specs.Framing.{frame_limits};
ghost use Rattle.resp_frames.specs.Keys.{HasKeys, HasNoKeys, Spells};
ghost use Rattle.resp_frames.specs.Texts.{text_of};

use crate::frames::Frames;
use crate::words::CommandFrame;
use resp_commands::{KeyWords, key_places, key_words, row_of};
use resp_scan::whole::{self, WholeCommand};
use resp_value::laws::no_spelling_begins_another;
use resp_value::limits::Limits;

impl Frames {
    /// Returns the words of a command that are keys, according to its row in the table of commands.
    /// They are borrowed from the bytes of the command, and nothing is allocated.
    ///
    /// Returns `None` if the table has no such command or subcommand, or if the number of its keys
    /// is not a decimal number or greater than the number of words after it.
    pub fn keys<'a>(&self, found: &'a CommandFrame<'_>) -> Option<KeyWords<'a>>
        // The words at exactly the places that the row names.
        ensures keys { (name : List ℕ) (arguments : List (List ℕ)) →
            Spells (frame_limits self.now) (text_of found.now.frame) name arguments →
            IfSome result (HasKeys name arguments) }
        ensures none { (name : List ℕ) (arguments : List (List ℕ)) →
            Spells (frame_limits self.now) (text_of found.now.frame) name arguments →
            IfNone result (HasNoKeys name arguments) }
    {
        let text = found.frame.text();
        let command = command_in(text, &self.limits)?;
        let row = row_of(command.name, command.arguments.iter().next())?;
        let places = key_places(&row.keys, command.arguments.iter())?;
        Some(key_words(places, command.arguments))
    }
}

/// Returns the command that the bytes contain.
fn command_in<'a>(text: &'a [u8], limits: &Limits) -> Option<WholeCommand<'a>>
    ensures words { (name : List ℕ) (arguments : List (List ℕ)) →
        Spells limits.now text.now name arguments →
        IfSome result (λ found. (found.name.now ≡ name) × (found.arguments ≡ arguments)) }
    ensures found { (name : List ℕ) (arguments : List (List ℕ)) →
        Spells limits.now text.now name arguments → IfNone result ⊥ }
{
    no_spelling_begins_another();
    whole::command(text, limits)
}
