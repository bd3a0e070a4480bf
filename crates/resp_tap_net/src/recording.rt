//! Records the traffic of a window in a capture.

ghost use Rattle.resp_capture.specs.Writing.{IsAddressFour};

use resp_capture::record::{HEAD, file_head, record_head};
use resp_capture::{End, Endpoint, IpAddress, Recorded, Segment, SegmentKind, Time};
use std::fs::{File, Files, OpenOptions};
use std::io;
use std::io::{ErrorKind, Write};
use std::net::{IpAddr, SocketAddr};
use std::os::unix::fs::OpenOptionsExt;
use std::rt::Clock;

/// The maximum number of bytes of traffic in a record.
const PIECE: usize = 16_384;

/// The permissions of the file. Only its owner reads and writes it.
const MODE: u32 = 0o600;

/// The network of the addresses of clients that have no IPv4 address.
const NETWORK: u32 = 0xf000_0000;

/// The port of a Unix socket.
const PORT: u16 = 6_379;

/// A capture to which the traffic of a window is written. After a failed write nothing more is
/// written.
#[derive(Drop)]
pub(crate) struct Recording {
    /// The file, if traffic is written.
    file: Option<File>,
    /// The number of bytes of its whole records.
    size: u64,
    /// The time of the last packet.
    time: Time,
    /// Why a write has failed, until this is reported.
    failure: Option<io::Error>,
    /// The bytes of a record.
    record: [u8; 16_440],
}

impl Recording {
    /// Returns a recording that writes nothing.
    pub(crate) fn none() -> Recording {
        Recording {
            file: None,
            size: 0,
            time: Time::default(),
            failure: None,
            record: [0; 16_440],
        }
    }

    /// Creates a file and writes the beginning of a capture. A file that exists is left unchanged.
    ///
    /// # Errors
    ///
    /// The error of the system. Its kind is `AlreadyExists` if there is a file of this name.
    pub(crate) fn create<R: Files<File = File>>(files: &R, path: &str) -> io::Result<Recording> {
        let mut options = OpenOptions::new();
        options.write(true).create_new(true);
        options.mode(MODE);
        let mut file = options.open(files, path)?;
        let head = file_head();
        file.write_all(&head)?;
        let mut recording = Recording::none();
        recording.file = Some(file);
        recording.size = head.len() as u64;
        Ok(recording)
    }

    /// Returns why a write has failed. Later calls return `None`.
    pub(crate) fn take_failure(&mut self) -> Option<io::Error> {
        self.failure.take()
    }

    /// Records that a client is connected, and returns the connection.
    pub(crate) fn begin(
        &mut self,
        clock: &impl Clock,
        client: Endpoint,
        server: Endpoint,
    ) -> Recorded {
        let mut recorded = Recorded::new(client, server);
        self.add(
            clock,
            &mut recorded,
            End::Client,
            SegmentKind::Beginning,
            b"",
        );
        recorded
    }

    /// Records what an end of a connection has sent.
    pub(crate) fn add(
        &mut self,
        clock: &impl Clock,
        recorded: &mut Recorded,
        end: End,
        sent: SegmentKind,
        bytes: &[u8],
    ) {
        if self.file.is_none() {
            return;
        }
        self.look_at_clock(clock);
        let acknowledged = recorded.number(other(end));
        if bytes.is_empty() {
            let segment = recorded.next(end, sent, bytes);
            self.write(&segment, acknowledged);
            return;
        }
        for part in bytes.chunks(PIECE) {
            let segment = recorded.next(end, sent, part);
            self.write(&segment, acknowledged);
        }
    }

    /// Reads the clock. If it can't be read, the time of the packet before is kept.
    fn look_at_clock(&mut self, clock: &impl Clock) {
        if let Ok(now) = clock.since_1970() {
            self.time = Time {
                seconds: now.as_secs(),
                nanos: now.subsec_nanos(),
            };
        }
    }

    /// Writes a segment to the file. If that fails, the file keeps its whole records, and nothing
    /// more is written.
    fn write(&mut self, segment: &Segment<'_>, acknowledged: u32) {
        let Some(file) = &mut self.file else {
            return;
        };
        match write_record(file, &mut self.record, self.time, segment, acknowledged) {
            Ok(count) => self.size = self.size.saturating_add(count as u64),
            Err(error) => {
                let _ = file.set_len(self.size);
                self.failure = Some(error);
                self.file = None;
            }
        }
    }
}

/// Writes the record of a segment, and returns the number of its bytes. The record is built in the
/// buffer.
fn write_record(
    file: &mut File,
    buffer: &mut [u8; 16_440],
    time: Time,
    segment: &Segment<'_>,
    acknowledged: u32,
) -> io::Result<usize> {
    let data = segment.data;
    if data.len() > PIECE {
        return Err(ErrorKind::InvalidInput.into());
    }
    let Some(head) = record_head(time, segment, acknowledged) else {
        return Err(ErrorKind::InvalidInput.into());
    };
    let count = HEAD + data.len();
    buffer[..HEAD].copy_from_slice(&head);
    buffer[HEAD..count].copy_from_slice(data);
    file.write_all(&buffer[..count])?;
    Ok(count)
}

/// Returns the other end.
fn other(end: End) -> End {
    match end {
        End::Client => End::Server,
        End::Server => End::Client,
    }
}

/// Returns the end of a connection with this address. `number` is the number of the client, or 0
/// for the server. An end without an IPv4 address gets the address 240.0.0.0 plus the number.
pub(crate) fn endpoint_of(address: Option<SocketAddr>, number: u64) -> Endpoint
    ensures { IsAddressFour result.address }
{
    let bits = match address {
        Some(address) => bits_of(address.ip()),
        None => None,
    };
    let port = match address {
        Some(address) => address.port(),
        None => PORT,
    };
    let own = NETWORK + (number % 268_435_456) as u32;
    Endpoint {
        address: IpAddress::Four(bits.unwrap_or(own)),
        port,
    }
}

/// Returns the bits of an IPv4 address, which may be written as an IPv6 address.
fn bits_of(ip: IpAddr) -> Option<u32> {
    match ip.to_canonical() {
        IpAddr::V4(ip) => Some(ip.to_bits()),
        IpAddr::V6(_) => None,
    }
}
