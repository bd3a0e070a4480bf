//! Captures of traffic over TCP, without files and sockets.
//!
//! [`Capture`] reads the blocks of a pcap or pcapng file that comes in pieces of any size, and
//! returns the packets. [`packet::read_packet`] finds the TCP segment of a packet. [`Reassembly`] puts
//! the segments of one side of a connection together, and [`CapturedConnection`] has both sides. [`record`]
//! writes a pcap file.
#![tactic(auto)]

pub mod address;
mod block;
pub mod capture;
pub mod connection;
pub mod error;
mod held;
mod interface;
pub mod laws;
pub mod link;
mod network;
pub mod number;
pub mod packet;
pub mod record;
pub mod recorded;
pub mod stream;
pub mod time;
pub mod transport;

pub use address::{Endpoint, IpAddress};
pub use capture::{Capture, CapturedPacket};
pub use connection::{CapturedConnection, End, is_to_server};
pub use error::{CaptureError, Reason, StreamError};
pub use link::LinkType;
pub use packet::Packet;
pub use recorded::{Recorded, SegmentKind};
pub use stream::{Placed, Reassembly};
pub use time::Time;
pub use transport::Segment;
