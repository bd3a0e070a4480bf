//! Pushes, which a session sends without being asked.

ghost use Rattle.std.specs.Prelude.{◌≡◌, ◌++◌, Some, OnOk, OnErr};
ghost use Rattle.resp_value.specs.Canonical.{IsValue, canonical_text};
ghost use Rattle.resp_value.specs.declared.version.Version.TheVariants.{Three};
ghost use Rattle.resp_encode.specs.Pushes.{push_of};
ghost use Rattle.resp_server.specs.Hubs.{seat_of};
ghost use Rattle.resp_server.specs.PushRefusals.{IsPushVerdict, push_error};
ghost use Rattle.resp_server.specs.Running.{HasSameRest};

use crate::error::PushError;
use crate::session::Session;
use resp_encode::{EncodeError, encode_push};
use resp_value::limits::Limits;
use resp_value::value::Value;
use resp_value::version::Version;

/// Queues a push of the items in a session.
pub(crate) fn queue_push(
    session: &mut Session,
    limits: &Limits,
    items: &[Value],
) -> Result<(), PushError>
    ensures queued { OnOk result (session.new.out.items ≡
        session.old.out.items ++ canonical_text Three (push_of items.now)) }
    ensures verdict { IsPushVerdict limits.now (Some (seat_of session.old)) (push_of items.now)
        result }
    ensures unchanged { OnErr result (session.new.out.items ≡ session.old.out.items) }
    ensures same_version { session.new.version ≡ session.old.version }
    ensures rest { HasSameRest session.old session.new }
    ensures is_value { OnOk result (IsValue (push_of items.now)) }
{
    if session.closing {
        return Err(PushError::Closing);
    }
    match session.version {
        Version::Two => return Err(PushError::NotInVersion),
        Version::Three => {}
    }
    match encode_push(limits, items, &mut session.out) {
        Ok(()) => Ok(()),
        Err(error) => Err(push_error(error)),
    }
}

/// Returns the error of a push for this error of the encoder.
fn push_error(error: EncodeError) -> PushError
    ensures { result ≡ push_error error }
{
    match error {
        EncodeError::Double => PushError::Double,
        EncodeError::NotInVersion => PushError::NotInVersion,
        EncodeError::NestedPush => PushError::NestedPush,
        EncodeError::OverLimits(limit) => PushError::OverLimits(limit),
        EncodeError::OutOfMemory => PushError::OutOfMemory,
    }
}
