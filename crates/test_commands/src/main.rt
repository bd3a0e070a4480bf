//! Prints rows of the table of commands, classes, places of keys, and slots of keys.
//!
//! Each line of standard input asks for something. `entry WORD` prints the command of this name: name,
//! class, arity, first key, last key, step, whether its keys are movable, how they are searched and
//! from which place, which nodes get a part, and how replies are merged. `class WORD ..` prints the
//! class of a command, `keys WORD ..` the places of its keys, and `slot KEY` the slot of the key.
//! `glob GLOB TEXT` prints whether the glob matches the text. `all` prints each command as `entry` finds
//! it, and `all subcommands` each subcommand as `subcommand` finds it.
#![tactic(auto)]

use anyhow::Result;
use resp_commands::glob::matches;
use resp_commands::{
    COMMANDS, Command, SUBCOMMANDS, class_of, entry, key_places, row_of, slot, subcommand,
};
use resp_scan::whole::{self, WholeCommand};
use resp_value::limits::Limits;
use std::alloc::Global;
use std::io::Read;

/// Prints a command after a text, or that there is no such command.
fn print_command(rt: &impl Print, before: &str, found: Option<&Command>) -> Result<()> {
    let Some(command) = found else {
        println!(rt; "unknown")?;
        return Ok(());
    };
    let name = command.name().escape_ascii();
    let keys = command.keys;
    let sign = if keys.from_end { "-" } else { "" };
    println!(rt;
        "{}{} {:?} {} {} {}{} {} {} {:?} {} {:?} {:?}",
        before,
        name,
        command.class,
        command.arity,
        keys.first,
        sign,
        keys.last,
        keys.step,
        keys.movable,
        keys.search,
        keys.start,
        command.split,
        command.merge
    )?;
    Ok(())
}

/// Prints each subcommand of a command.
fn print_subcommands(rt: &HostRuntime, command: &Command) -> Result<()> {
    let before = format!(in rt.alloc(); "{}|", command.name().escape_ascii())?;
    for row in &SUBCOMMANDS {
        if let Some(found) = subcommand(command, row.name()) {
            print_command(rt, before.as_str(), Some(found))?;
        }
    }
    Ok(())
}

/// Returns the text of a command of these words, which spaces separate.
fn text_of(alloc: Global, words: &[u8]) -> Result<Vec<u8>> {
    let mut text = Vec::new(alloc);
    let mut count: u64 = 0;
    for word in words.split(|byte| *byte == b' ') {
        count += 1;
        text.extend_from_slice(format!(in alloc; "${}\r\n", word.len())?.as_bytes())?;
        text.extend_from_slice(word)?;
        text.extend_from_slice(b"\r\n")?;
    }
    let mut whole = Vec::from_slice(alloc, format!(in alloc; "*{count}\r\n")?.as_bytes())?;
    whole.extend_from_slice(text.as_slice())?;
    Ok(whole)
}

/// Prints the class of a command.
fn print_class(rt: &impl Print, command: WholeCommand<'_>) -> Result<()> {
    match class_of(command.name, command.arguments) {
        Some(class) => println!(rt; "{:?}", class)?,
        None => println!(rt; "unknown")?,
    }
    Ok(())
}

/// Prints the places of the keys of a command whose row is this one.
fn print_keys(rt: &impl Print, row: Option<&Command>, command: WholeCommand<'_>) -> Result<()> {
    let Some(row) = row else {
        println!(rt; "unknown")?;
        return Ok(());
    };
    let count = command.arguments.len() as usize;
    let Some(places) = key_places(&row.keys, command.arguments) else {
        println!(rt; "none")?;
        return Ok(());
    };
    print!(rt; "keys")?;
    for place in 0..=count {
        if places.contains(place) {
            print!(rt; " {place}")?;
        }
    }
    println!(rt; "")?;
    Ok(())
}

/// Returns the row of a command.
fn row(mut command: WholeCommand<'_>) -> Option<&'static Command> {
    row_of(command.name, command.arguments.next())
}

/// Prints the class of a command, or the places of its keys.
fn print_whole(rt: &HostRuntime, words: &[u8], wants_keys: bool) -> Result<()> {
    let text = text_of(rt.alloc(), words)?;
    let limits = Limits::standard();
    let Some(command) = whole::command(text.as_slice(), &limits) else {
        println!(rt; "no command")?;
        return Ok(());
    };
    if !wants_keys {
        return print_class(rt, command);
    }
    match whole::command(text.as_slice(), &limits) {
        Some(again) => print_keys(rt, row(again), command),
        None => Ok(()),
    }
}

/// Prints whether the glob before the last space matches the text after it.
fn print_match(rt: &impl Print, words: &[u8]) -> Result<()> {
    let Some(space) = words.iter().rposition(|byte| *byte == b' ') else {
        return Ok(());
    };
    if matches(&words[..space], &words[space + 1..]) {
        println!(rt; "matches")?;
    } else {
        println!(rt; "differs")?;
    }
    Ok(())
}

/// Prints the result of one line.
fn print_result(rt: &HostRuntime, line: &[u8]) -> Result<()> {
    if let Some(word) = line.strip_prefix(b"entry ".as_slice()) {
        return print_command(rt, "", entry(word));
    }
    if let Some(key) = line.strip_prefix(b"slot ".as_slice()) {
        println!(rt; "{}", slot(key))?;
        return Ok(());
    }
    if let Some(words) = line.strip_prefix(b"class ".as_slice()) {
        return print_whole(rt, words, false);
    }
    if let Some(words) = line.strip_prefix(b"keys ".as_slice()) {
        return print_whole(rt, words, true);
    }
    if let Some(words) = line.strip_prefix(b"glob ".as_slice()) {
        return print_match(rt, words);
    }
    if line == b"all".as_slice() {
        for command in &COMMANDS {
            print_command(rt, "", entry(command.name()))?;
        }
    }
    if line == b"all subcommands".as_slice() {
        for command in &COMMANDS {
            print_subcommands(rt, command)?;
        }
    }
    Ok(())
}

fn main(rt: HostRuntime) -> Result<()> {
    let mut input = Vec::new(rt.alloc());
    rt.stdin().read_to_end(&mut input)?;
    for line in input.split(|byte| *byte == b'\n') {
        print_result(&rt, line)?;
    }
    Ok(())
}
