//! Values to lines of text and to JSON.

use anyhow::Result;
use resp_decode::CutDecoder;
use resp_io::MemorySink;
use resp_json::value::write_json;
use resp_print::value::{write_cut_value, write_value};
use resp_value::{Content, CutValue, Limits, Members, Value, Version};
use std::alloc::Global;
use std::str;

pub(crate) fn run(rt: &impl Print, alloc: Global) -> Result<()> {
    let hits = Value::Bulk(Content::new(Vec::from_slice(alloc, b"hits")?));
    let value = Value::Array(Members::new(vec![in alloc; hits, Value::Int(7)]?));
    let mut text = MemorySink::new(alloc, 4_096, 4_096)?;
    write_value(&value, 0, None, &mut text)?;
    print!(rt; "{}", str::from_utf8(text.bytes())?)?;
    cut(rt, alloc)?;
    json(rt, alloc)
}

fn cut(rt: &impl Print, alloc: Global) -> Result<()> {
    let mut decoder = CutDecoder::new(alloc, Version::Two, &Limits::standard(), 5);
    let fed = decoder.feed(b"*2\r\n$12\r\nhello, world\r\n+OK\r\n")?;
    if let Some(CutValue { value, lengths }) = &fed.value {
        let mut text = MemorySink::new(alloc, 4_096, 4_096)?;
        write_cut_value(value, lengths.as_slice(), 0, 5, &mut text)?;
        print!(rt; "{}", str::from_utf8(text.bytes())?)?;
    }
    Ok(())
}

fn json(rt: &impl Print, alloc: Global) -> Result<()> {
    let hits = Value::Bulk(Content::new(Vec::from_slice(alloc, b"hits")?));
    let value = Value::Set(Members::new(vec![in alloc; hits, Value::Int(7)]?));
    let mut text = MemorySink::new(alloc, 4_096, 4_096)?;
    write_json(&value, &mut text)?;
    println!(rt; "{}", str::from_utf8(text.bytes())?)?;
    Ok(())
}
