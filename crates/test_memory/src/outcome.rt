//! The outcome of a part.

use resp_scan::event::Fault;

#[derive(Clone, Copy)]
pub(crate) enum Outcome {
    Whole,
    OutOfMemory,
    Wrong,
}

impl Outcome {
    pub(crate) fn word(self) -> &'static str {
        match self {
            Outcome::Whole => "whole",
            Outcome::OutOfMemory => "out of memory",
            Outcome::Wrong => "wrong",
        }
    }

    pub(crate) fn is_whole(self) -> bool {
        matches!(self, Outcome::Whole)
    }

    /// Returns `Whole` if this holds, and `Wrong` if it does not.
    pub(crate) fn of(holds: bool) -> Outcome {
        if holds {
            Outcome::Whole
        } else {
            Outcome::Wrong
        }
    }

    /// Returns `OutOfMemory` if the state after the failed allocation is as promised, and `Wrong`
    /// if it is not.
    pub(crate) fn refused(stands: bool) -> Outcome {
        if stands {
            Outcome::OutOfMemory
        } else {
            Outcome::Wrong
        }
    }
}

/// Returns whether a call returned this fault.
pub(crate) fn answers<T: Drop>(answer: Result<T, Fault>, fault: Fault) -> bool {
    match answer {
        Ok(_) => false,
        Err(answered) => answered == fault,
    }
}
