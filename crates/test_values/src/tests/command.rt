//! The words that a command accepts and rejects.

use super::build::words;
use super::check_equal;
use resp_value::command::{BadCommand, Command};
use std::process::Abort;

/// Checks that a command keeps three words, and that a copy of it is equal.
fn check_kept<R: Abort + AllocGlobal>(rt: &R, command: &Command, wanted: [&[u8]; 3]) {
    let [first, second, third] = command.words() else {
        panic!(rt; "not three words");
    };
    check_equal(rt, first.as_slice(), wanted[0]);
    check_equal(rt, second.as_slice(), wanted[1]);
    check_equal(rt, third.as_slice(), wanted[2]);
    let copy = command.try_clone(rt.alloc()).expect(rt, "out of memory");
    check_equal(rt, &copy, command);
}

#[test]
fn keeps_its_words(rt: HostRuntime) {
    let texts = [b"SET".as_slice(), b"", b"\r\n\0\xff"];
    match Command::new(words(&rt, &texts)) {
        Ok(command) => check_kept(&rt, &command, texts),
        Err(_) => panic!(rt; "no command"),
    }
}

#[test]
fn refuses_no_word(rt: HostRuntime) {
    match Command::new(Vec::new(rt.alloc())) {
        Ok(_) => panic!(rt; "a command"),
        Err(BadCommand { words }) => check_equal(&rt, words.len(), 0),
    }
}
