//! Texts as rows write them: with the escapes `\r`, `\n`, `\\` and `\xNN`, and with `{text*count}`
//! for `count` repetitions of a text. Any other brace is written `\x7b` or `\x7d`.

use anyhow::{Context, Result, bail};
use memchr::memchr2;
use resp_value::{Command, Version};
use std::alloc::Global;

/// Returns the bytes of a row's text.
pub(crate) fn bytes(alloc: Global, text: &str) -> Result<Vec<u8>> {
    let mut all = Vec::new(alloc);
    let (first, runs) = text.split_once('{').unwrap_or((text, ""));
    add_escaped(&mut all, first)?;
    if first.len() < text.len() {
        for part in runs.split('{') {
            let (run, after) = part.split_once('}').context("a run without its end")?;
            add_run(alloc, &mut all, run)?;
            add_escaped(&mut all, after)?;
        }
    }
    Ok(all)
}

/// Returns the words of a row's text. A space inside a word is written `\x20`, and an empty word
/// `{x*0}`.
pub(crate) fn words(alloc: Global, text: &str) -> Result<Vec<Vec<u8>>> {
    let mut all = Vec::new(alloc);
    for word in text.split_whitespace() {
        all.push(bytes(alloc, word)?)?;
    }
    Ok(all)
}

/// Returns the first word, and the text after the space that follows it.
pub(crate) fn split(text: &str) -> (&str, &str) {
    text.split_once(' ').unwrap_or((text, ""))
}

/// Returns the number written in a text.
pub(crate) fn number(text: &str) -> Result<u64> {
    text.parse::<u64>().context("no number")
}

/// Returns the version of this number.
pub(crate) fn version(number: &str) -> Result<Version> {
    match number {
        "2" => Ok(Version::Two),
        "3" => Ok(Version::Three),
        _ => bail!("no version"),
    }
}

/// Returns the version of a number, or `None` if no number is given.
pub(crate) fn version_if_any(number: &str) -> Result<Option<Version>> {
    if number.is_empty() {
        return Ok(None);
    }
    version(number).map(Some)
}

/// Makes a command of the words of a row's text.
pub(crate) fn command(alloc: Global, text: &str) -> Result<Command> {
    Ok(Command::new(words(alloc, text)?)?)
}

/// Adds the repetitions written as `text*count`. The text is doubled once for each bit of the
/// count, because a program that is checked at run time is slow at copies of a single byte.
fn add_run(alloc: Global, all: &mut Vec<u8>, run: &str) -> Result<()> {
    let (text, count) = run.rsplit_once('*').context("a run without its count")?;
    let mut count = number(count)?;
    let mut part = Vec::new(alloc);
    add_escaped(&mut part, text)?;
    for _ in 0..u64::BITS {
        if count % 2 == 1 {
            all.extend_from_slice(part.as_slice())?;
        }
        count /= 2;
        if count == 0 {
            break;
        }
        let same = Vec::from_slice(alloc, part.as_slice())?;
        part.extend_from_slice(same.as_slice())?;
    }
    Ok(())
}

/// Adds a text that has escapes and no repetitions.
fn add_escaped(all: &mut Vec<u8>, text: &str) -> Result<()> {
    let mut rest = text.as_bytes();
    for _ in 0..=text.len() {
        let plain = memchr2(b'\\', b'}', rest).unwrap_or(rest.len());
        all.extend_from_slice(&rest[..plain])?;
        let Some((first, others)) = rest[plain..].split_first() else {
            break;
        };
        if *first == b'}' {
            bail!("a brace that ends no run");
        }
        rest = add_escape(all, others)?;
    }
    Ok(())
}

/// Adds the byte of an escape whose backslash was read, and returns the text after the escape.
fn add_escape<'a>(all: &mut Vec<u8>, text: &'a [u8]) -> Result<&'a [u8]> {
    let (byte, rest) = match text {
        [b'r', rest @ ..] => (b'\r', rest),
        [b'n', rest @ ..] => (b'\n', rest),
        [b'\\', rest @ ..] => (b'\\', rest),
        [b'x', high, low, rest @ ..] => ((digit(*high)? << 4) | digit(*low)?, rest),
        _ => bail!("an unknown escape"),
    };
    all.push(byte)?;
    Ok(rest)
}

/// Returns the value of a hexadecimal digit.
fn digit(byte: u8) -> Result<u8> {
    match byte {
        b'0'..=b'9' => Ok(byte - b'0'),
        b'a'..=b'f' => Ok(byte - b'a' + 10),
        b'A'..=b'F' => Ok(byte - b'A' + 10),
        _ => bail!("an unknown hexadecimal digit"),
    }
}
