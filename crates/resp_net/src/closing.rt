//! The end of a connection of a client.

ghost use Rattle.std.specs.Prelude.{◌<◌, length};

use crate::service::Next;
use crate::stream::Stream;
use std::io::{ErrorKind, Read, Write};
use std::net::Shutdown;

/// The longest time between the last byte for a client and the end of its connection, in milliseconds.
pub const LINGER: u64 = 1_000;

/// The maximum number of reads of received bytes before a connection is closed.
const LAST_READS: usize = 4;

/// The most reads of received bytes before other connections are visited.
const TURNS: usize = 16;

/// Sends a line to a client that is not served, and closes the connection.
pub fn refuse(stream: &Stream, line: &[u8]) {
    let mut writer = stream;
    let _ = writer.write(line);
    close(stream);
}

/// Shuts down the sending direction, and then reads bytes that were received but not read: a socket
/// that is closed with unread bytes discards the bytes that it sent.
pub fn close(stream: &Stream) {
    let _ = stream.shutdown(Shutdown::Write);
    let mut reader = stream;
    let mut unread = [0; 4_096];
    for _ in 0..LAST_READS {
        let Ok(1..) = reader.read(&mut unread) else {
            return;
        };
    }
}

/// Reads what a client sends that gets nothing more, and drops it. A socket that is closed with unread bytes,
/// or to which bytes are sent later, is reset: the client would lose replies that it has not read. Returns
/// `Close` once the client has closed its side.
pub fn drop_input(stream: &Stream, buffer: &mut [u8]) -> Next
    requires { 0 < length buffer.old }
{
    let mut reader = stream;
    for _ in 0..TURNS {
        match reader.read(buffer) {
            Ok(1..) => {}
            Err(error) if error.kind() == ErrorKind::WouldBlock => return Next::Wait,
            _ => return Next::Close,
        }
    }
    Next::Again
}
