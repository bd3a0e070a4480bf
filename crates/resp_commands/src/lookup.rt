//! Finding a command or a subcommand by its name.

ghost use Rattle.std.specs.Prelude.{◌≡◌, ◌<◌, ℕ, map, slice_index, IfSome, IfNone, Contains};
ghost use Rattle.std.specs.Bool.{MatchBool};
ghost use Rattle.std.specs.Char.{to_ascii_lowercase};
ghost use Rattle.resp_commands.specs.Names.{HasName, IsAt, IsSubcommand, IsUnknown, LacksSubcommand};
ghost use Rattle.resp_commands.specs.Rows.{HasNoRow, HasRow, IsRowOf, LacksRow};
ghost use Rattle.resp_commands.specs.Places.{hash_from, inner_place_of, place_of};

use crate::command::Command;
use crate::table::{COMMANDS, FACTOR, INNER_PLACES, INNER_STEPS, PLACES, STEPS, SUBCOMMANDS};

/// Returns the place in the table of the command of this name in upper, lower or mixed case, or `None`
/// if the table has no such command. The time does not depend on the number of commands.
#[inline(always)]
#[tactic(auto, using(crate::proofs::Found::unknown_past))]
pub fn place(name: &[u8]) -> Option<u8>
    ensures found { IfSome result (λ place. IsAt place name.now) }
    ensures unknown { IfNone result (IsUnknown name.now) }
{
    let place = place_of(name);
    if place >= COMMANDS.len() {
        return None;
    }
    if !is_lower_case_of(COMMANDS[place].name(), name) {
        return None;
    }
    Some(place as u8)
}

/// Returns the command of this name in upper, lower or mixed case, or `None` if the table has no
/// such command. The time does not depend on the number of commands.
pub fn entry(name: &[u8]) -> Option<&'static Command>
    ensures found { IfSome result (λ command. Contains COMMANDS command.now) }
    ensures named { IfSome result (λ command. HasName command.now name.now) }
    ensures unknown { IfNone result (IsUnknown name.now) }
{
    let place = place(name)?;
    Some(&COMMANDS[usize::from(place)])
}

/// Returns the subcommand of this name of a command, or `None` if the table has no such subcommand.
#[tactic(auto, using(crate::proofs::Found::no_subcommand_past, crate::proofs::Found::no_subcommand_container))]
pub fn subcommand(command: &Command, name: &[u8]) -> Option<&'static Command>
    ensures found { IfSome result (λ subcommand. Contains SUBCOMMANDS subcommand.now) }
    ensures named { IfSome result (λ subcommand. IsSubcommand command.now name.now subcommand.now) }
    ensures unknown { IfNone result (LacksSubcommand command.now name.now) }
{
    let place = inner_place_of(command.container, name);
    if place >= SUBCOMMANDS.len() {
        return None;
    }
    let subcommand = &SUBCOMMANDS[place];
    if subcommand.container != command.container {
        return None;
    }
    if !is_lower_case_of(subcommand.name(), name) {
        return None;
    }
    Some(subcommand)
}

/// Returns the row of a command, given its name and the word after it: the row of its subcommand if
/// it has subcommands. Returns `None` if the table has no such command, or no such subcommand of
/// it.
pub fn row_of(name: &[u8], first: Option<&[u8]>) -> Option<&'static Command>
    ensures known { IfSome result (λ row. HasRow name.now first.entry row.now) }
    ensures unknown { IfNone result (HasNoRow name.now first.entry) }
{
    let command = entry(name)?;
    row_by(command, first)
}

/// Returns the row of a command, or of its subcommand of this name.
fn row_by(command: &'static Command, first: Option<&[u8]>) -> Option<&'static Command>
    ensures known { IfSome result (λ row. IsRowOf command.now first.entry row.now) }
    ensures unknown { IfNone result (LacksRow command.now first.entry) }
{
    if command.container == 0 {
        return Some(command);
    }
    match first {
        Some(word) => subcommand(command, word),
        None => Some(command),
    }
}

/// Returns the place of the only command that may have this name, or a number past the table.
fn place_of(name: &[u8]) -> usize
    ensures { result ≡ place_of (map to_ascii_lowercase name.now) }
{
    let hash = hash_of(0, name);
    let step = usize::from(STEPS[hash % 128]);
    usize::from(PLACES[(hash / 128 + step) % 512])
}

/// Returns the place of the only subcommand that may have this name, or a number past the table.
fn inner_place_of(container: u8, name: &[u8]) -> usize
    ensures { result ≡ inner_place_of container (map to_ascii_lowercase name.now) }
{
    let hash = hash_of(container, name);
    let step = usize::from(INNER_STEPS[hash % 128]);
    usize::from(INNER_PLACES[(hash / 128 + step) % 512])
}

/// Returns the hash of a name, which begins with this number. A letter has the same digit in upper and
/// in lower case.
#[inline(always)]
fn hash_of(first: u8, name: &[u8]) -> usize
    ensures hash { result ≡ hash_from first (map to_ascii_lowercase name.now) }
    ensures below { result < 65_536 }
{
    let mut hash = u32::from(first);
    for byte in name {
        hash = (hash * FACTOR + u32::from(byte % 32)) % 65_536;
    }
    hash as usize
}

/// Returns whether a text is a word in lower case.
#[inline(always)]
fn is_lower_case_of(text: &[u8], word: &[u8]) -> bool
    ensures { MatchBool result (map to_ascii_lowercase word.now ≡ text.now)
        (map to_ascii_lowercase word.now ≡ text.now → ⊥) }
{
    if text.len() != word.len() {
        return false;
    }
    for i in 0..word.len() {
        if word[i].to_ascii_lowercase() != text[i] {
            return false;
        }
    }
    true
}
