//! A small server of PING, ECHO, GET, SET, DEL and HELLO, over the requests that a codec of
//! commands reads.
//!
//! It shows how replies are made. `resp_server` is a server of the same commands with Redis's error
//! replies.

use resp_session::words::{Requested, Words};
use resp_value::{Content, Line, Members, PairList, Value, Version};
use std::alloc::{AllocError, Global};
use std::collections::BTreeMap;

/// The keys and values of one client, and the version of its replies.
#[derive(Drop)]
pub(crate) struct Server {
    values: BTreeMap<Vec<u8>, Vec<u8>>,
    version: Version,
}

impl Server {
    pub(crate) fn new(alloc: Global) -> Server {
        Server {
            values: BTreeMap::new(alloc),
            version: Version::Two,
        }
    }

    /// Returns the version of the last reply, and of the replies after it.
    pub(crate) fn version(&self) -> Version {
        self.version
    }

    /// Returns the reply to a request. An empty array has no reply.
    pub(crate) fn answer(
        &mut self,
        alloc: Global,
        asked: &Requested,
    ) -> Result<Option<Value>, AllocError> {
        match asked {
            Requested::Command(words) => Ok(Some(self.run(alloc, words)?)),
            Requested::Nothing => Ok(None),
            Requested::NoCommand => Ok(Some(error(alloc, b"ERR Protocol error")?)),
        }
    }

    fn run(&mut self, alloc: Global, words: &Words) -> Result<Value, AllocError> {
        match words.len() {
            1 => run_alone(alloc, words.word(0)),
            2 => self.run_with(alloc, words.word(0), words.word(1)),
            3 if is_name(words.word(0), b"SET") => self.set(alloc, words.word(1), words.word(2)),
            _ => unknown(alloc),
        }
    }

    /// Runs a command of a name and one argument.
    fn run_with(&mut self, alloc: Global, name: &[u8], word: &[u8]) -> Result<Value, AllocError> {
        if is_name(name, b"ECHO") {
            bulk(alloc, word)
        } else if is_name(name, b"GET") {
            self.get(alloc, word)
        } else if is_name(name, b"DEL") {
            Ok(self.delete(word))
        } else if is_name(name, b"HELLO") {
            self.hello(alloc, word)
        } else {
            unknown(alloc)
        }
    }

    fn get(&self, alloc: Global, key: &[u8]) -> Result<Value, AllocError> {
        match self.values.get(key) {
            Some(value) => bulk(alloc, value.as_slice()),
            None => Ok(Value::Null),
        }
    }

    fn set(&mut self, alloc: Global, key: &[u8], value: &[u8]) -> Result<Value, AllocError> {
        self.values
            .insert(key.to_vec(alloc)?, value.to_vec(alloc)?)?;
        line(alloc, b"OK")
    }

    fn delete(&mut self, key: &[u8]) -> Value {
        Value::Int(if self.values.remove(key).is_some() {
            1
        } else {
            0
        })
    }

    /// Changes the version from this reply on, and returns the reply. Version 2 has no maps, so the
    /// pair is an array there.
    fn hello(&mut self, alloc: Global, version: &[u8]) -> Result<Value, AllocError> {
        let proto = bulk(alloc, b"proto")?;
        match version {
            b"2" => {
                self.version = Version::Two;
                let members = vec![in alloc; proto, Value::Int(2)]?;
                Ok(Value::Array(Members::new(members)))
            }
            b"3" => {
                self.version = Version::Three;
                let pairs = vec![in alloc; (proto, Value::Int(3))]?;
                Ok(Value::Map(PairList::new(pairs)))
            }
            _ => error(alloc, b"NOPROTO unsupported protocol version"),
        }
    }
}

/// Returns whether a word is this name, in upper, lower or mixed case.
fn is_name(word: &[u8], name: &[u8]) -> bool {
    word.eq_ignore_ascii_case(name)
}

/// Runs a command without arguments.
fn run_alone(alloc: Global, name: &[u8]) -> Result<Value, AllocError> {
    if is_name(name, b"PING") {
        line(alloc, b"PONG")
    } else {
        unknown(alloc)
    }
}

fn unknown(alloc: Global) -> Result<Value, AllocError> {
    error(alloc, b"ERR unknown command or wrong number of arguments")
}

fn bulk(alloc: Global, bytes: &[u8]) -> Result<Value, AllocError> {
    Ok(Value::Bulk(Content::new(bytes.to_vec(alloc)?)))
}

/// Returns a simple string, or null if the text contains CR or LF.
fn line(alloc: Global, text: &[u8]) -> Result<Value, AllocError> {
    Ok(match Line::new(text.to_vec(alloc)?) {
        Ok(line) => Value::Simple(line),
        Err(_) => Value::Null,
    })
}

/// Returns a simple error, or null if the text contains CR or LF.
fn error(alloc: Global, text: &[u8]) -> Result<Value, AllocError> {
    Ok(match Line::new(text.to_vec(alloc)?) {
        Ok(line) => Value::Error(line),
        Err(_) => Value::Null,
    })
}
