//! The request that a value makes of a session.

use super::build::value;
use super::check_equal;
use resp_session::words::{Requested, Words, asked_by};
use std::process::Abort;

fn check_words(rt: &impl Abort, mut words: Words) {
    check_equal(rt, words.len(), 2);
    if words.len() == 2 {
        check_equal(rt, words.word(0), b"GET".as_slice());
        check_equal(rt, words.word(1), b"a\r\n".as_slice());
    }
    check_popped(rt, &mut words, b"a\r\n");
    check_popped(rt, &mut words, b"GET");
    check_equal(rt, words.pop().is_none(), true);
}

/// Checks that this is the last word, and removes it.
fn check_popped(rt: &impl Abort, words: &mut Words, wanted: &[u8]) {
    match words.pop() {
        Some(word) => check_equal(rt, word.list(), wanted),
        None => panic!(rt; "no word"),
    }
}

/// Checks that the value of a text is the command `GET` with one word, makes no request, or is not
/// a command.
fn check_asked<R: Abort + AllocGlobal>(rt: &R, text: &[u8], wanted: &str) {
    let word = match asked_by(value(rt, text)) {
        Requested::Command(words) => {
            check_words(rt, words);
            "command"
        }
        Requested::Nothing => "nothing",
        Requested::NoCommand => "no command",
    };
    check_equal(rt, word, wanted);
}

#[test]
fn a_command_has_its_words(rt: HostRuntime) {
    check_asked(&rt, b"*2\r\n$3\r\nGET\r\n$3\r\na\r\n\r\n", "command");
}

#[test]
fn nulls_and_empty_arrays_ask_nothing(rt: HostRuntime) {
    check_asked(&rt, b"*0\r\n", "nothing");
    check_asked(&rt, b"_\r\n", "nothing");
}

#[test]
fn other_values_are_no_command(rt: HostRuntime) {
    check_asked(&rt, b":1\r\n", "no command");
    check_asked(&rt, b"$4\r\nPING\r\n", "no command");
    check_asked(&rt, b"+PING\r\n", "no command");
    check_asked(&rt, b"*2\r\n$3\r\nGET\r\n:1\r\n", "no command");
}
