//! Byte devices: what is read from and written to.
//!
//! A [`Source`] is a device from which bytes are read, and a [`Sink`] one to which they are written. A
//! [`Device`] is a reader or a writer of std, and [`MemorySource`] and [`MemorySink`] are devices in memory.
//! [`live`] has sinks that hold bytes until they are flushed.
//!
//! [`read_some`] makes one read, and [`write_text`] as many writes as a text needs. Each read and
//! each write uses one of the turns that are left. The definitions of `specs` join the reads and
//! writes of a connection: which pieces were read, and how many turns were used.
#![tactic(auto)]

pub mod device;
mod halt;
pub mod live;
mod read;
mod write;

pub use device::{
    Device, DeviceFault, MemorySink, MemorySource, Sink, Source, WriteFault, write_all,
};
pub use halt::Halt;
pub use read::read_some;
pub use write::{Written, write_text};
