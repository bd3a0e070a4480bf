//! Values on one line, in the format of `resp show`: `array [int 1, bulk "a"]`, `map {null: true}`,
//! `attr {simple "ttl": int 3600} of int 3`.

use resp_scan::event::Fault;
use resp_value::value::Members;
use resp_value::{Cause, Value, Version};
use std::alloc::AllocError;
use std::fmt::Debug;

/// Adds a value.
#[cycle(add_value)]
pub(crate) fn add_value(said: &mut String, value: &Value) -> Result<(), AllocError> {
    match value {
        Value::Null => said.push_str("null"),
        Value::Bool(flag) => write!(said, "{flag}"),
        Value::Int(number) => write!(said, "int {number}"),
        Value::Simple(line) => add_text(said, "simple", line.text()),
        Value::Error(line) => add_text(said, "error", line.text()),
        Value::Double(double) => add_text(said, "double", double.text()),
        Value::Bulk(content) => add_text(said, "bulk", content.list()),
        Value::BulkError(content) => add_text(said, "bulkerror", content.list()),
        Value::Verbatim(format, content) => {
            add_text(said, "verbatim", format.as_slice())?;
            add_text(said, "", content.list())
        }
        Value::Big(digits) => {
            let sign = if digits.is_negative() { "-" } else { "" };
            write!(said, "big {sign}{}", digits.digits().escape_ascii())
        }
        Value::Array(members) => add_members(said, "array", members.list()),
        Value::Set(members) => add_members(said, "set", members.list()),
        Value::Push(members) => add_members(said, "push", members.list()),
        Value::Map(pairs) => add_pairs(said, "map", pairs.list()),
        Value::Attr(pairs, annotated) => {
            add_pairs(said, "attr", pairs.list())?;
            said.push_str(" of ")?;
            add_value(said, annotated)
        }
    }
}

/// Adds a word, a space and a quoted text.
fn add_text(said: &mut String, word: &str, text: &[u8]) -> Result<(), AllocError> {
    write!(said, "{word} \"{}\"", text.escape_ascii())
}

/// Adds the members of an array, a set or a push. A push is printed as a push that belongs to no
/// command.
#[cycle(add_value)]
pub(crate) fn add_members(
    said: &mut String,
    word: &str,
    members: &[Value],
) -> Result<(), AllocError> {
    write!(said, "{word} [")?;
    let mut is_first = true;
    for member in members {
        if !is_first {
            said.push_str(", ")?;
        }
        add_value(said, member)?;
        is_first = false;
    }
    said.push_str("]")
}

/// Adds the pairs of a map or an attribute.
#[cycle(add_value)]
fn add_pairs(said: &mut String, word: &str, pairs: &[(Value, Value)]) -> Result<(), AllocError> {
    write!(said, "{word} {{")?;
    let mut is_first = true;
    for pair in pairs {
        if !is_first {
            said.push_str(", ")?;
        }
        add_value(said, &pair.0)?;
        said.push_str(": ")?;
        add_value(said, &pair.1)?;
        is_first = false;
    }
    said.push_str("}")
}

/// Adds a line for each value.
pub(crate) fn add_values(said: &mut String, values: &[Value]) -> Result<(), AllocError> {
    for value in values {
        add_value(said, value)?;
        said.push_str("\n")?;
    }
    Ok(())
}

/// Adds a line for each push. A push belongs to no command.
pub(crate) fn add_pushes(said: &mut String, pushes: &[Members]) -> Result<(), AllocError> {
    for members in pushes {
        add_members(said, "push", members.list())?;
        said.push_str("\n")?;
    }
    Ok(())
}

/// Adds the line of a fault: the name of its cause, and its place.
pub(crate) fn add_fault(said: &mut String, cause: Cause, at: u64) -> Result<(), AllocError> {
    writeln!(said, "refused: {} at {at}", cause.name())
}

/// Adds the line of a fault, and a line if it is not returned again by every later call.
pub(crate) fn add_final_fault(
    said: &mut String,
    fault: Fault,
    is_final: bool,
) -> Result<(), AllocError> {
    add_fault(said, fault.cause, fault.at)?;
    if !is_final {
        said.push_str("the fault isn't answered again\n")?;
    }
    Ok(())
}

/// Returns whether a call returned this fault.
pub(crate) fn is_refused<T: Drop>(answer: Result<T, Fault>, fault: Fault) -> bool {
    match answer {
        Ok(_) => false,
        Err(answered) => answered == fault,
    }
}

/// Adds a line for the result of a call: a word and the number, or another word and the error.
pub(crate) fn add_answer<E: Debug + Drop>(
    said: &mut String,
    answered: &str,
    refused: &str,
    answer: Result<u64, E>,
) -> Result<(), AllocError> {
    match answer {
        Ok(number) => writeln!(said, "{answered}{number}"),
        Err(error) => writeln!(said, "{refused}{error:?}"),
    }
}

/// Adds the line of a text in the syntax of a Rust byte string.
pub(crate) fn add_quoted(said: &mut String, word: &str, text: &[u8]) -> Result<(), AllocError> {
    writeln!(said, "{word}\"{}\"", text.escape_ascii())
}

/// Returns the number of a version.
pub(crate) fn version_number(version: Version) -> u8 {
    match version {
        Version::Two => 2,
        Version::Three => 3,
    }
}
