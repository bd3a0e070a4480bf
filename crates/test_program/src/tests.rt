//! The tests, and what they have in common.

use std::fmt::Debug;
use std::process::Abort;

mod attempts;
mod counts;
mod dates;
mod failing;
mod live;
mod schedules;
mod screens;
mod scripts;
mod statuses;
mod streams;
mod visits;

/// Asserts that two values are equal. The tests call it instead of `assert_eq!`, which would be
/// proved anew at each place.
fn check_equal<T: PartialEq + Debug + Drop>(rt: &impl Abort, said: T, wanted: T) {
    assert_eq!(rt; said, wanted);
}
