//! An incremental decoder of RESP2 and RESP3, which reads bytes in pieces of any size and returns
//! values.
//!
//! A [`decoder::Decoder`] builds one value after another from the events of a scanner. It rejects
//! the same byte with the same error as the scanner, and it holds no more than the value that is
//! being read. A [`cut_decoder::CutDecoder`] keeps only the first bytes of each text, for values
//! that are shown.
#![tactic(auto)]

pub mod all;
pub mod cut_decoder;
pub mod decoder;
pub mod fed;
mod group;
mod held;
mod kept;
pub mod laws;
mod text;

pub use all::{AllFault, decode_all};
pub use cut_decoder::CutDecoder;
pub use decoder::Decoder;
pub use fed::Fed;
