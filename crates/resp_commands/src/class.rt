//! The class of a whole command.

ghost use Rattle.std.specs.Prelude.{◌≡◌, ◌==◌, false, if◌then◌else◌, IfNone, IfSome, MatchOption};
ghost use Rattle.resp_commands.specs.Classes.{HasClass, HasClassByWord, HasNoClass, IsClassOf, LacksArgument};
ghost use Rattle.resp_commands.specs.Names.{IsAt, IsUnknown};

use crate::command::{Class, Command};
use crate::lookup::{place, subcommand};
use crate::options::blocks;
use crate::table::COMMANDS;
use resp_scan::whole::CommandArguments;

/// What the table says about a command.
#[derive(Clone, Copy, Debug, PartialEq, Eq)]
pub struct Listing {
    /// The place of the command in the table, or `None` if the table has no command of this name.
    pub place: Option<u8>,
    /// The class of the command, or `None` if the table has no such command or subcommand.
    pub class: Option<Class>,
}

/// Returns what the table says about the command with this name and these other words, in upper,
/// lower or mixed case.
///
/// A command with subcommands and without a word after its name has the class of its row. XREAD and
/// XREADGROUP need a connection of their own only with BLOCK.
#[inline(always)]
pub fn listing_of(name: &[u8], arguments: CommandArguments<'_>) -> Listing
    ensures place { MatchOption result.place (IsUnknown name.now) (λ place. IsAt place name.now) }
    ensures class { MatchOption result.class (HasNoClass name.now arguments.entry)
        (HasClass name.now arguments.entry) }
{
    let Some(place) = place(name) else {
        return Listing {
            place: None,
            class: None,
        };
    };
    let command = &COMMANDS[usize::from(place)];
    Listing {
        place: Some(place),
        class: class_by(command, arguments),
    }
}

/// Returns the class of the command with this name and these other words, as [`listing_of`] does,
/// or `None` if the table has no such command, or no such subcommand of it.
#[inline(always)]
pub fn class_of(name: &[u8], arguments: CommandArguments<'_>) -> Option<Class>
    ensures known { IfSome result (λ class. HasClass name.now arguments.entry class) }
    ensures unknown { IfNone result (HasNoClass name.now arguments.entry) }
{
    listing_of(name, arguments).class
}

/// Returns the class of a command, given its row and the words after its name.
#[inline(always)]
fn class_by(command: &Command, arguments: CommandArguments<'_>) -> Option<Class>
    ensures known { IfSome result (λ class. IsClassOf command.now arguments.entry class) }
    ensures unknown { IfNone result (LacksArgument command.now arguments.entry) }
{
    if command.may_block {
        return Some(class_by_block(command.class, blocks(arguments)));
    }
    if command.container == 0 {
        return Some(command.class);
    }
    class_by_word(command, arguments)
}

/// Returns the class of a command with subcommands, given the words after its name.
#[inline(never)]
fn class_by_word(command: &Command, mut arguments: CommandArguments<'_>) -> Option<Class>
    requires waits_never { command.now.may_block ≡ false }
    requires has_subcommands { (command.now.container == 0) ≡ false }
    ensures known { IfSome result (λ class. HasClassByWord command.now arguments.entry class) }
    ensures unknown { IfNone result (LacksArgument command.now arguments.entry) }
{
    let Some(word) = arguments.next() else {
        return Some(command.class);
    };
    let subcommand = subcommand(command, word)?;
    Some(subcommand.class)
}

/// Returns the class of a command that waits only with BLOCK.
fn class_by_block(waiting: Class, blocks: bool) -> Class
    ensures { result ≡ (if blocks then waiting else Class.Shared) }
{
    if blocks { waiting } else { Class::Shared }
}
