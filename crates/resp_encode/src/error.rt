//! Errors of the encoder.

use resp_value::cause::Limit;
use thiserror::Error;

/// Why a value was not appended to a buffer. The buffer is unchanged. If a value has several
/// faults, the error is the first of them in this order.
#[derive(Clone, Copy, Debug, PartialEq, Eq, Error)]
pub enum EncodeError {
    /// The value holds a double, and the limits do not allow doubles.
    #[error("the limits do not allow doubles")]
    Double,
    /// The value holds a type that the version does not have.
    #[error("the version does not have this type")]
    NotInVersion,
    /// The value holds a push inside another value.
    #[error("a push is inside another value")]
    NestedPush,
    /// The value exceeds this limit, and no limit that is checked before it.
    #[error("the value exceeds the limit {0:?}")]
    OverLimits(Limit),
    /// The buffer could not grow.
    #[error("out of memory")]
    OutOfMemory,
}

/// Why a value was not completely written to a device.
#[derive(Clone, Copy, Debug, PartialEq, Eq, Error)]
pub enum EncodeToError {
    /// The value has a fault, or the allocation for its text failed. Nothing was written.
    #[error(transparent)]
    Refused(EncodeError),
    /// A write failed, or wrote no byte.
    #[error("write failed after {written} bytes")]
    Write {
        /// The number of bytes that were written. They are the first bytes of the text.
        written: u64,
    },
}

impl From<EncodeError> for EncodeToError {
    ghost use Rattle.std.specs.Prelude.{◌≡◌};
    ghost use Rattle.resp_encode.specs.declared.error.EncodeToError.{EncodeToError};

    ghost from_gives = { λ error converted. converted ≡ EncodeToError.Refused error };

    fn from(error: EncodeError) -> EncodeToError {
        EncodeToError::Refused(error)
    }
}
