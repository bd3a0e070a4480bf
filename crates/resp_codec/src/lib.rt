//! Codecs of values and commands for the framed streams of tokio: `Framed`, `FramedRead` and
//! `FramedWrite` of `tokio_util`.
//!
//! A [`RespCodec`] reads and writes values. A [`CommandCodec`] is for a server: it reads commands
//! and writes replies. Each byte is read once, because the codec keeps the part of a value that it
//! has read, and the buffer does not.
#![tactic(auto)]

mod command_codec;
mod error;
pub mod laws;
mod reading;
mod value_codec;

pub use command_codec::CommandCodec;
pub use error::CodecError;
pub use value_codec::RespCodec;
