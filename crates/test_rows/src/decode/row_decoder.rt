//! The decoders that rows run on.

use super::calls::Says;
use crate::spelling::add_value;
use resp_decode::{CutDecoder, Decoder, Fed};
use resp_scan::Busy;
use resp_scan::event::Fault;
use resp_value::{CutValue, Value, Version};
use std::alloc::AllocError;

/// A decoder that rows run on.
pub(crate) trait RowDecoder {
    type Value: Drop;

    /// Returns the number of bytes used, and the value that ended with them.
    fn feed(&mut self, piece: &[u8]) -> Result<(usize, Option<Self::Value>), Fault>;

    fn finish(&self) -> Result<(), Fault>;

    fn taken(&self) -> u64;

    fn weight(&self) -> u64;

    fn set_version(&mut self, version: Version) -> Result<(), Busy>;

    /// Adds a value to the text.
    fn say(value: &Self::Value, says: Says, said: &mut String) -> Result<(), AllocError>;
}

impl RowDecoder for Decoder {
    type Value = Value;

    fn feed(&mut self, piece: &[u8]) -> Result<(usize, Option<Value>), Fault> {
        match Decoder::feed(self, piece) {
            Ok(Fed { used, value }) => Ok((used, value)),
            Err(fault) => Err(fault),
        }
    }

    fn finish(&self) -> Result<(), Fault> {
        Decoder::finish(self)
    }

    fn taken(&self) -> u64 {
        Decoder::taken(self)
    }

    fn weight(&self) -> u64 {
        Decoder::weight(self)
    }

    fn set_version(&mut self, version: Version) -> Result<(), Busy> {
        Decoder::set_version(self, version)
    }

    fn say(value: &Value, says: Says, said: &mut String) -> Result<(), AllocError> {
        match says {
            Says::Value => add_value(said, value),
            Says::Size => add_size(value, said),
        }
    }
}

/// A decoder that keeps the first bytes of each text. A value is printed with the lengths of its longer
/// texts.
impl RowDecoder for CutDecoder {
    type Value = CutValue;

    fn feed(&mut self, piece: &[u8]) -> Result<(usize, Option<CutValue>), Fault> {
        match CutDecoder::feed(self, piece) {
            Ok(Fed { used, value }) => Ok((used, value)),
            Err(fault) => Err(fault),
        }
    }

    fn finish(&self) -> Result<(), Fault> {
        CutDecoder::finish(self)
    }

    fn taken(&self) -> u64 {
        CutDecoder::taken(self)
    }

    fn weight(&self) -> u64 {
        CutDecoder::weight(self)
    }

    fn set_version(&mut self, version: Version) -> Result<(), Busy> {
        CutDecoder::set_version(self, version)
    }

    fn say(value: &CutValue, _says: Says, said: &mut String) -> Result<(), AllocError> {
        let CutValue { value, lengths } = value;
        add_value(said, value)?;
        if !lengths.is_empty() {
            write!(said, " lengths {lengths:?}")?;
        }
        Ok(())
    }
}

/// Adds the kind of an aggregate with the number of its members or pairs, or any other value.
fn add_size(value: &Value, said: &mut String) -> Result<(), AllocError> {
    let (kind, size) = match value {
        Value::Array(members) => ("array", members.list().len()),
        Value::Set(members) => ("set", members.list().len()),
        Value::Push(members) => ("push", members.list().len()),
        Value::Map(pairs) => ("map", pairs.list().len()),
        _ => return add_value(said, value),
    };
    write!(said, "{kind} of {size}")
}
