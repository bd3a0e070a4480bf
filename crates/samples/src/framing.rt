//! Codecs of framed streams.

use anyhow::Result;
use bytes::BytesMut;
use resp_codec::{CommandCodec, RespCodec};
use resp_session::words::Requested;
use resp_value::{Limits, Value, Version};
use std::alloc::Global;
use tokio_util::codec::{Decoder, Encoder};

pub(crate) fn run(rt: &impl Print, alloc: Global) -> Result<()> {
    read_values(rt, alloc)?;
    read_commands(rt, alloc)
}

fn read_values(rt: &impl Print, alloc: Global) -> Result<()> {
    let mut codec = RespCodec::new(alloc, Version::Two, &Limits::standard());
    let mut buffer = BytesMut::new(alloc);
    buffer.extend_from_slice(b"+OK\r\n$5\r\nhel")?;
    println!(rt; "{}", codec.decode(&mut buffer)?.is_some())?;
    println!(rt; "{} {}", codec.decode(&mut buffer)?.is_some(), buffer.len())?;
    println!(rt; "{}", codec.decode_eof(&mut buffer).is_err())?;
    Ok(())
}

fn read_commands(rt: &impl Print, alloc: Global) -> Result<()> {
    let mut codec = CommandCodec::new(alloc, &Limits::standard());
    let mut buffer = BytesMut::new(alloc);
    buffer.extend_from_slice(b"*1\r\n$4\r\nPING\r\n")?;
    if let Some(Requested::Command(words)) = codec.decode(&mut buffer)? {
        println!(rt; "{}", words.word(0).escape_ascii())?;
    }
    let mut out = BytesMut::new(alloc);
    codec.encode(Value::Null, &mut out)?;
    codec.set_version(Version::Three);
    codec.encode(Value::Null, &mut out)?;
    println!(rt; "{}", out.escape_ascii())?;
    Ok(())
}
