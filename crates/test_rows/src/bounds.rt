//! Limits as rows write them.

use crate::text::number;
use anyhow::{Context, Result, bail};
use resp_value::Limits;

/// Returns the limits written in a text, as `depth=4 length=64 total=256 items=16 streamed=0
/// doubles=1`. Limits that are not named have their standard value.
pub(crate) fn limits(text: &str) -> Result<Limits> {
    let standard = Limits::standard();
    let (mut depth, mut length) = (standard.depth(), standard.length());
    let (mut total, mut items) = (standard.total(), standard.items());
    let (mut streamed, mut doubles) = (standard.streamed(), standard.doubles());
    for word in text.split_whitespace() {
        let (name, value) = word.split_once('=').context("a limit without its number")?;
        let value = number(value)?;
        match name {
            "depth" => depth = value,
            "length" => length = value,
            "total" => total = value,
            "items" => items = value,
            "streamed" => streamed = value != 0,
            "doubles" => doubles = value != 0,
            _ => bail!("an unknown limit"),
        }
    }
    let limits = Limits::new(depth, length, total)?.with_items(items)?;
    Ok(limits.with_streamed(streamed).with_doubles(doubles))
}
