//! Tests that no contract covers: the calls succeed, and a few of them have their expected results.

use std::fmt::Debug;
use std::process::Abort;

mod attributes;
mod build;
mod cause;
mod command;
mod content;
mod cut;
mod device;
mod digits;
mod double;
mod draw;
mod framed;
mod grammar;
mod in_place;
mod lifetimes;
mod limits;
mod line;
mod plain_end;
mod random_doubles;
mod refusals;
mod sent;
mod texts;
mod value;
mod words;
mod written;

/// Asserts that two values are equal. The tests call it instead of `assert_eq!`, which would be
/// proved anew at each place.
fn check_equal<T: PartialEq + Debug + Drop>(rt: &impl Abort, said: T, wanted: T) {
    assert_eq!(rt; said, wanted);
}
