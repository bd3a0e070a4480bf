//! The errors of a framed stream or sink.

ghost use Rattle.std.specs.Prelude.{◌≡◌};
ghost use Rattle.resp_codec.specs.declared.error.CodecError.TheVariants as variant;

use resp_encode::EncodeError;
use resp_scan::event::Fault;
use std::io;
use thiserror::Error;

/// Why a frame was not read or not written.
#[derive(Clone, Copy, Debug, Error)]
pub enum CodecError {
    /// A byte is not valid. The fault has the cause and the number of bytes of the value before
    /// that byte. Nothing is read after it.
    #[error("{0}")]
    Fault(Fault),
    /// The value cannot be encoded. The buffer and the codec are unchanged.
    #[error("{0}")]
    Refused(EncodeError),
    /// The reader or the writer failed, or an allocation for its buffer failed.
    #[error("{0}")]
    Io(io::Error),
}

impl From<Fault> for CodecError {
    ghost from_gives = { λ fault error. error ≡ variant.Fault fault };

    fn from(fault: Fault) -> CodecError {
        CodecError::Fault(fault)
    }
}

impl From<EncodeError> for CodecError {
    ghost from_gives = { λ refusal error. error ≡ variant.Refused refusal };

    fn from(refusal: EncodeError) -> CodecError {
        CodecError::Refused(refusal)
    }
}

impl From<io::Error> for CodecError {
    ghost from_gives = { λ failure error. error ≡ variant.Io failure };

    fn from(failure: io::Error) -> CodecError {
        CodecError::Io(failure)
    }
}
