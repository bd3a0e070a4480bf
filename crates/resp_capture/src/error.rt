//! The errors of captures.

use thiserror::Error;

/// Why a segment was not taken. The stream is unchanged.
#[derive(Clone, Copy, Debug, PartialEq, Eq, Error)]
pub enum StreamError {
    /// Too many bytes wait for bytes before them.
    #[error("too many bytes wait for bytes before them")]
    Full,
    /// The place of the last byte is at or above 2^64.
    #[error("the segment is too far from the beginning")]
    TooFar,
    /// An allocation failed.
    #[error("out of memory")]
    OutOfMemory,
}

/// Why reading a file stops.
#[derive(Clone, Copy, Debug, PartialEq, Eq, Error)]
pub enum Reason {
    /// The file does not begin as pcap or pcapng do.
    #[error("this is no capture in the format pcap or pcapng")]
    NotACapture,
    /// A block has more than 1,048,576 bytes.
    #[error("a block has more than 1,048,576 bytes")]
    TooLong,
    /// The length of a block is less than that of its head, or no multiple of 4.
    #[error("a block has a wrong length")]
    WrongLength,
    /// The packets of the file have a link of this number, which is not read.
    #[error("packets of link type {0} are not read")]
    UnknownLink(u32),
    /// A packet names an interface that was not described.
    #[error("a packet has an interface that the file does not describe")]
    UnknownInterface,
    /// The times of an interface are too fine: a second has more than 2^63 parts, or 10^20 or more.
    #[error("the times of an interface have too many digits")]
    UnknownResolution,
    /// The file ends inside a block.
    #[error("the file ends inside a block")]
    Cut,
    /// An allocation failed.
    #[error("out of memory")]
    OutOfMemory,
}

/// Why reading a file stops, and the byte of the file at which the block begins, counted from 0.
#[derive(Clone, Copy, Debug, PartialEq, Eq, Error)]
#[error("{reason}, at byte {at}")]
pub struct CaptureError {
    pub at: u64,
    pub reason: Reason,
}
