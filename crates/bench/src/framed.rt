//! Measures framed streams with GETs and their replies, beside `serve` and `ask` over memory.
//!
//! A framed stream reads a text of commands and encodes a null reply to each into a buffer, and
//! `serve` answers the same commands from an empty hub. A framed stream reads replies and encodes
//! their commands into a buffer, and `ask` sends the same commands in pipelines and reads the
//! replies. At last a bulk string is received in pieces of one byte. Without an argument it prints
//! counts, which are the same in every run. With the argument `times` there are a million commands,
//! and it also prints nanoseconds.

use crate::server::{Kind, command as text_of, new_hub};
use crate::{end_line, has, nanos};
use anyhow::Result;
use bytes::BytesMut;
use futures::TryStreamExt;
use futures::future::{Future, ready};
use futures::task::Poll;
use futures::test::MockTask;
use resp_client::client::Client;
use resp_codec::{CodecError, CommandCodec, RespCodec};
use resp_encode::EncodeError;
use resp_io::device::{MemorySink, MemorySource};
use resp_value::command::Command;
use resp_value::content::Content;
use resp_value::limits::Limits;
use resp_value::value::{Members, Value};
use resp_value::version::Version;
use resp_wire::ask::ask;
use resp_wire::serve::serve;
use resp_wire::{Request, Responses};
use std::alloc::{AllocError, Global};
use tokio_util::codec::{Decoder, Encoder, FramedRead};

/// The number of bytes that a reader returns at once.
const PIECE: usize = 16_384;

/// The number of items of a stream that are read at once, and of commands in a pipeline of `ask`.
const ITEMS: usize = 100;

/// A reply, a bulk string of 16 bytes.
const REPLY: &[u8] = b"$16\r\nxxxxxxxxxxxxxxxx\r\n";

/// Returns this text `count` times.
fn repeated(alloc: Global, text: &[u8], count: usize) -> Result<Vec<u8>> {
    let mut all = Vec::new(alloc);
    for _ in 0..count {
        all.extend_from_slice(text)?;
    }
    Ok(all)
}

/// Returns the value that a client sends for `GET key:NNNNNNNNNNNN`.
fn get(alloc: Global) -> Result<Value, AllocError> {
    let name = Value::Bulk(Content::new(b"GET".to_vec(alloc)?));
    let key = Value::Bulk(Content::new(b"key:000000000001".to_vec(alloc)?));
    Ok(Value::Array(Members::new(vec![in alloc; name, key]?)))
}

/// Polls a future until it is ready.
fn ready_of<F: Future>(rt: &HostRuntime, future: F) -> Result<Option<F::Output>>
    requires { F.can_poll future }
{
    let mut future = future;
    let task = MockTask::new(rt)?;
    for _ in 0..u64::MAX {
        if let Poll::Ready(output) = task.poll(&mut future) {
            return Ok(Some(output));
        }
    }
    Ok(None)
}

/// The encoded items: a buffer that is emptied after each item, and counts.
#[derive(Drop)]
struct Written<C> {
    codec: C,
    out: BytesMut,
    items: usize,
    bytes: usize,
}

impl<C: Encoder<Value, Error = CodecError> + Drop> Written<C> {
    fn new(alloc: Global, codec: C) -> Written<C> {
        Written {
            codec,
            out: BytesMut::new(alloc),
            items: 0,
            bytes: 0,
        }
    }

    /// Encodes a value, and counts it and its bytes.
    fn add(self, value: Value) -> Result<Written<C>, CodecError> {
        let mut written = self;
        written.out.clear();
        written.codec.encode(value, &mut written.out)?;
        written.items = written.items.saturating_add(1);
        written.bytes = written.bytes.saturating_add(written.out.len());
        Ok(written)
    }

    /// Returns the number of items and the number of bytes.
    fn counted(&self) -> (usize, usize) {
        (self.items, self.bytes)
    }
}

/// Encodes a GET.
fn add_get(alloc: Global, written: Written<RespCodec>) -> Result<Written<RespCodec>, CodecError> {
    match get(alloc) {
        Ok(get) => written.add(get),
        Err(_) => Err(CodecError::Refused(EncodeError::OutOfMemory)),
    }
}

/// Reads all commands of a text with a framed stream, and encodes a null for each. Returns the
/// number of commands and the number of bytes written.
fn answer_all(rt: &HostRuntime, text: &[u8]) -> Result<(usize, usize)> {
    let alloc = rt.alloc();
    let limits = Limits::standard();
    let commands = FramedRead::with_capacity(
        alloc,
        text,
        CommandCodec::new(alloc, &limits),
        PIECE,
    )?;
    let replies = Written::new(alloc, CommandCodec::new(alloc, &limits));
    let all = commands.try_fold(replies, |replies, _| ready(replies.add(Value::Null)));
    match ready_of(rt, all)? {
        Some(replies) => Ok(replies?.counted()),
        None => Ok((0, 0)),
    }
}

/// Reads all replies of a text with a framed stream, and encodes a GET for each. Returns the number
/// of replies and the number of bytes written.
fn hear_all(rt: &HostRuntime, text: &[u8]) -> Result<(usize, usize)> {
    let alloc = rt.alloc();
    let limits = Limits::standard();
    let codec = RespCodec::new(alloc, Version::Two, &limits);
    let replies = FramedRead::with_capacity(alloc, text, codec, PIECE)?;
    let commands = Written::new(alloc, RespCodec::new(alloc, Version::Two, &limits));
    let all = replies.try_fold(commands, |commands, _| ready(add_get(alloc, commands)));
    match ready_of(rt, all)? {
        Some(commands) => Ok(commands?.counted()),
        None => Ok((0, 0)),
    }
}

/// Prints a line of counts, with the nanoseconds of one item if it is timed.
fn print_line(
    rt: &HostRuntime,
    timed: bool,
    name: &str,
    counted: (usize, usize),
    nanos: u128,
) -> Result<()> {
    let (count, written) = counted;
    print!(rt; "{name}: {count} commands, {written} bytes written;")?;
    if timed {
        print!(rt; " {} ns", nanos / (count.max(1) as u128))?;
    }
    println!(rt; "")?;
    Ok(())
}

/// Measures a server's end: a framed stream of commands, and `serve`.
fn bench_servers(rt: &HostRuntime, timed: bool, count: usize) -> Result<()> {
    let alloc = rt.alloc();
    let one = text_of(alloc, Kind::Get, 1)?;
    let text = repeated(alloc, one.as_bytes(), count)?;
    let start = nanos(rt)?;
    let counted = answer_all(rt, text.as_slice())?;
    let taken = nanos(rt)?.saturating_sub(start);
    print_line(rt, timed, "commands by a framed stream", counted, taken)?;
    let mut hub = new_hub(alloc);
    let id = hub.open()?;
    let mut writer = MemorySink::new(alloc, PIECE, count.saturating_mul(5))?;
    let start = nanos(rt)?;
    let mut reader = MemorySource::new(text.as_slice(), PIECE);
    serve(&mut reader, &mut writer, &mut hub, id, u64::MAX)?;
    let taken = nanos(rt)?.saturating_sub(start);
    let written = writer.bytes().len();
    print_line(rt, timed, "commands by serve", (count, written), taken)
}

/// Returns a pipeline of GETs.
fn pipeline(alloc: Global) -> Result<Vec<Request>> {
    let mut requests = Vec::new(alloc);
    for _ in 0..ITEMS {
        let name = b"GET".to_vec(alloc)?;
        let key = b"key:000000000001".to_vec(alloc)?;
        let command = Command::new(vec![in alloc; name, key]?)?;
        requests.push(Request::Command(command))?;
    }
    Ok(requests)
}

/// Calls `ask` with `pipelines` pipelines. Returns the number of replies received and the number of
/// bytes written.
fn ask_all(
    rt: &HostRuntime,
    requests: &[Request],
    text: &[u8],
    pipelines: usize,
) -> Result<(usize, usize)> {
    let alloc = rt.alloc();
    let mut client = Client::new(alloc, &Limits::standard());
    let mut heard: usize = 0;
    let mut written: usize = 0;
    for _ in 0..pipelines {
        let mut asked = Responses::new(alloc);
        let mut reader = MemorySource::new(text, PIECE);
        let mut writer = MemorySink::new(alloc, PIECE, PIECE)?;
        ask(
            &mut reader,
            &mut writer,
            &mut client,
            requests,
            &mut asked,
            u64::MAX,
        )?;
        heard = heard.saturating_add(asked.replies.len());
        written = written.saturating_add(writer.bytes().len());
    }
    Ok((heard, written))
}

/// Measures a client's end: a framed stream of replies, and `ask`.
fn bench_clients(rt: &HostRuntime, timed: bool, count: usize) -> Result<()> {
    let alloc = rt.alloc();
    let text = repeated(alloc, REPLY, count)?;
    let start = nanos(rt)?;
    let counted = hear_all(rt, text.as_slice())?;
    let taken = nanos(rt)?.saturating_sub(start);
    print_line(rt, timed, "replies by a framed stream", counted, taken)?;
    let requests = pipeline(alloc)?;
    let replies = repeated(alloc, REPLY, ITEMS)?;
    let start = nanos(rt)?;
    let counted = ask_all(rt, requests.as_slice(), replies.as_slice(), count / ITEMS)?;
    let taken = nanos(rt)?.saturating_sub(start);
    print_line(rt, timed, "replies by ask", counted, taken)
}

/// Feeds a text to a codec byte by byte, and returns the number of values.
fn by_single_bytes(alloc: Global, text: &[u8]) -> Result<usize> {
    let mut codec = RespCodec::new(alloc, Version::Two, &Limits::standard());
    let mut buffer = BytesMut::new(alloc);
    let mut values: usize = 0;
    for byte in text {
        buffer.extend_from_slice(&[*byte])?;
        if codec.decode(&mut buffer)?.is_some() {
            values = values.saturating_add(1);
        }
    }
    Ok(values)
}

/// Measures a bulk string that is received in pieces of one byte. The cost of a byte should be the
/// same for each length.
fn bench_bytes(rt: &HostRuntime, timed: bool, length: usize) -> Result<()> {
    let alloc = rt.alloc();
    let mut text = format!(in alloc; "${length}\r\n")?.into_bytes();
    text.extend_from_slice(repeated(alloc, b"x", length)?.as_slice())?;
    text.extend_from_slice(b"\r\n")?;
    let start = nanos(rt)?;
    let values = by_single_bytes(alloc, text.as_slice())?;
    let taken = nanos(rt)?.saturating_sub(start);
    print!(rt; "a bulk string of {length} by single bytes: {values} value;")?;
    end_line(rt, timed, taken, length as u128, "a byte")
}

/// Runs the benchmark as the arguments request.
pub(crate) fn bench(rt: &HostRuntime, words: &[String]) -> Result<()> {
    let timed = has(words, "times");
    let count = if timed { 1_000_000 } else { 1_000 };
    bench_servers(rt, timed, count)?;
    bench_clients(rt, timed, count)?;
    for length in [1_024, 32_768, 1_048_576] {
        if timed || length < 2_048 {
            bench_bytes(rt, timed, length)?;
        }
    }
    Ok(())
}
