//! Encodes a reply of three members in RESP3.
#![tactic(auto)]

use anyhow::Result;
use bytes::BytesMut;
use resp_encode::encode;
use resp_value::{Content, Limits, Members, Value, Version};
use std::io::Write;

fn main(rt: HostRuntime) -> Result<()> {
    let alloc = rt.alloc();
    let hello = Value::Bulk(Content::new(Vec::from_slice(alloc, b"hello")?));
    let members = vec![in alloc; Value::Int(42), hello, Value::Null]?;
    let reply = Value::Array(Members::new(members));

    let mut text = BytesMut::new(alloc);
    encode(Version::Three, &Limits::standard(), &reply, &mut text)?;
    rt.stdout().write_all(text.as_slice())?;
    Ok(())
}
