//! A conversation that is written as a capture, and read back.

use anyhow::Result;
use resp_capture::packet::read_packet;
use resp_capture::record::{file_head, record_head};
use resp_capture::{
    Capture, CapturedConnection, CapturedPacket, End, Endpoint, IpAddress, Packet, Placed,
    Recorded, Segment, SegmentKind, Time,
};
use std::alloc::Global;

/// The record of the first segment from 10.0.0.1:50000 to 10.0.0.2:6379, one second and two
/// nanoseconds after 1970.
const FIRST: [u8; 56] = [
    0, 0, 0, 1, 0, 0, 0, 2, 0, 0, 0, 40, 0, 0, 0, 40, 0x45, 0, 0, 40, 0, 0, 0x40, 0, 0x40, 6, 0x26,
    0xce, 10, 0, 0, 1, 10, 0, 0, 2, 0xc3, 0x50, 0x18, 0xeb, 0, 0, 0, 0, 0, 0, 0, 0, 0x50, 2, 0xff,
    0xff, 0, 0, 0, 0,
];

/// What the ends send, in turn.
const SENT: [(End, SegmentKind, &[u8]); 10] = [
    (End::Client, SegmentKind::Beginning, b""),
    (End::Server, SegmentKind::Beginning, b""),
    (End::Client, SegmentKind::Bytes, b"*1\r\n$4\r\nPING\r\n"),
    (End::Server, SegmentKind::Bytes, b"+PO"),
    (End::Server, SegmentKind::Bytes, b"NG\r\n"),
    (End::Client, SegmentKind::Bytes, b"\x00\xff"),
    (End::Client, SegmentKind::End, b""),
    (End::Server, SegmentKind::Bytes, b"-ERR\r\n"),
    (End::Server, SegmentKind::End, b""),
    (End::Server, SegmentKind::Reset, b""),
];

/// The bytes that each end sends.
const TEXTS: (&[u8], &[u8]) = (b"*1\r\n$4\r\nPING\r\n\x00\xff", b"+PONG\r\n-ERR\r\n");

/// How many segments were read, and how many were wrong.
#[derive(Clone, Copy, Default)]
pub struct Counts {
    pub segments: usize,
    pub wrong: usize,
}

/// What was read of the conversation.
#[derive(Drop)]
struct Heard {
    connection: CapturedConnection,
    client: Vec<u8>,
    server: Vec<u8>,
    counts: Counts,
}

/// Returns an end of the connection.
fn end(number: u32, port: u16) -> Endpoint {
    Endpoint {
        address: IpAddress::Four(0x0a00_0000 + number % 256),
        port,
    }
}

/// Returns the time of the segment of this number.
fn time_of(index: usize) -> Time {
    Time {
        seconds: 1 + index as u64,
        nanos: 2,
    }
}

/// Returns a connection between the two ends.
fn connection() -> Recorded {
    Recorded::new(end(1, 50_000), end(2, 6_379))
}

/// Returns the other end.
fn other(end: End) -> End {
    match end {
        End::Client => End::Server,
        End::Server => End::Client,
    }
}

/// Returns the capture of the conversation.
fn written(alloc: Global) -> Result<Vec<u8>> {
    let mut file = Vec::from_slice(alloc, file_head().as_slice())?;
    let mut recorded = connection();
    for (index, (end, sent, bytes)) in SENT.iter().enumerate() {
        let acknowledged = recorded.number(other(*end));
        let segment = recorded.next(*end, *sent, *bytes);
        if let Some(head) = record_head(time_of(index), &segment, acknowledged) {
            file.extend_from_slice(head.as_slice())?;
            file.extend_from_slice(segment.data)?;
        }
    }
    Ok(file)
}

/// Returns whether the first record has the bytes that the formats ask for, and whether a record
/// of too many bytes, or with an address of version 6, is refused.
pub fn bytes_are_right(alloc: Global) -> Result<bool> {
    let file = written(alloc)?;
    let most = Vec::from_slice(alloc, [7u8; 4_096].as_slice())?;
    let mut long = Vec::new(alloc);
    for _ in 0..16 {
        long.extend_from_slice(most.as_slice())?;
    }
    let mut recorded = connection();
    let too_long = recorded.next(End::Client, SegmentKind::Bytes, long.as_slice());
    let longest = recorded.next(End::Client, SegmentKind::Bytes, &long.as_slice()[..65_495]);
    let six = Endpoint {
        address: IpAddress::Six { high: 0, low: 1 },
        port: 1,
    };
    let of_six = Recorded::new(six, end(2, 6_379)).next(End::Client, SegmentKind::Bytes, b"");
    let time = time_of(0);
    Ok(
        file.as_slice().get(24..80) == Some(FIRST.as_slice())
            && record_head(time, &too_long, 0).is_none()
            && record_head(time, &of_six, 0).is_none()
            && record_head(time, &longest, 0).is_some(),
    )
}

/// Reads the capture of the conversation in pieces of this size, and compares each segment, and
/// the bytes of each end, with those that were written.
pub fn are_read(alloc: Global, piece: usize) -> Result<Counts> {
    let file = written(alloc)?;
    let mut capture = Capture::new(alloc);
    let mut heard = Heard {
        connection: CapturedConnection::new(alloc, end(1, 50_000), end(2, 6_379)),
        client: Vec::new(alloc),
        server: Vec::new(alloc),
        counts: Counts::default(),
    };
    let mut written = connection();
    for part in file.as_slice().chunks(piece.max(1)) {
        let mut rest = part;
        while !rest.is_empty() {
            let Ok(count) = capture.read(rest) else {
                heard.count(false);
                return Ok(heard.counts);
            };
            rest = &rest[count.min(rest.len())..];
            if let Ok(Some(frame)) = capture.frame() {
                heard.take(&frame, &mut written)?;
            }
        }
    }
    let are_same = heard.client.as_slice() == TEXTS.0 && heard.server.as_slice() == TEXTS.1;
    if !are_same || capture.end().is_err() {
        heard.counts.wrong = heard.counts.wrong.saturating_add(1);
    }
    Ok(heard.counts)
}

impl Heard {
    /// Counts a segment.
    fn count(&mut self, is_right: bool) {
        self.counts.segments = self.counts.segments.saturating_add(1);
        if !is_right {
            self.counts.wrong = self.counts.wrong.saturating_add(1);
        }
    }

    /// Takes the segment of a packet, and compares it with the next one that was written.
    fn take(&mut self, frame: &CapturedPacket<'_>, written: &mut Recorded) -> Result<()> {
        let index = self.counts.segments;
        let (Packet::Segment(segment), Some((end, sent, bytes))) = (
            read_packet(frame.link, frame.bytes),
            SENT.get(index),
        ) else {
            self.count(false);
            return Ok(());
        };
        let wanted: Segment<'_> = written.next(*end, *sent, *bytes);
        let is_right = segment == wanted
            && frame.time == Some(time_of(index))
            && self.connection.sender(&segment) == Some(*end);
        self.count(is_right);
        match self.connection.take(*end, &segment) {
            Ok(Placed::Given(given)) => match end {
                End::Client => self.client.extend_from_slice(given)?,
                End::Server => self.server.extend_from_slice(given)?,
            },
            Ok(Placed::Waits) | Err(_) => self.counts.wrong = self.counts.wrong.saturating_add(1),
        }
        Ok(())
    }
}
