//! The replay: it runs one command after another on one store.

use resp_value::command::Command;
use resp_value::value::Value;
use resp_wire::{MemoryLink, World};
use std::alloc::{AllocError, Global};
use std::hash::{BuildHasherDefault, FoldHasher};

pub(crate) type TestWorld = World<MemoryLink, BuildHasherDefault<FoldHasher>>;

/// A command with keys and values of one byte.
#[derive(Clone, Copy)]
pub(crate) enum Asked {
    Get(u8),
    Set(u8, u8),
    Delete(u8),
}

/// The reply to a command.
#[derive(Clone, Copy)]
pub(crate) enum Answer {
    Fine,
    Nothing,
    Byte(u8),
    Number(i64),
}

impl Asked {
    /// Returns the command with its words.
    pub(crate) fn command(self, alloc: Global) -> Result<Command, AllocError> {
        match self {
            Asked::Get(key) => command(alloc, &[b"GET", &[key]]),
            Asked::Set(key, value) => command(alloc, &[b"SET", &[key], &[value]]),
            Asked::Delete(key) => command(alloc, &[b"DEL", &[key]]),
        }
    }

    /// Returns the number of bytes of its text: 20 for a GET or a DEL of one key, and 27 for a SET
    /// of one byte.
    fn length(self) -> u64 {
        match self {
            Asked::Get(_) => 20,
            Asked::Set(_, _) => 27,
            Asked::Delete(_) => 20,
        }
    }

    /// Returns the number of bytes that arrive first.
    pub(crate) fn begun(self) -> u64 {
        self.length() / 3
    }

    /// Returns the number of bytes that arrive after them.
    pub(crate) fn rest(self) -> u64 {
        self.length().saturating_sub(self.begun())
    }
}

/// Makes a command with each text as a word.
fn command(alloc: Global, texts: &[&[u8]]) -> Result<Command, AllocError> {
    let mut words = Vec::new(alloc);
    for text in texts {
        words.push(text.to_vec(alloc)?)?;
    }
    Command::new(words).map_err(|_| AllocError)
}

/// The store, the clients in the order of their commands, and the reply to each command.
#[derive(Drop)]
pub(crate) struct Replay {
    store: Vec<(u8, u8)>,
    order: Vec<usize>,
    answers: Vec<Answer>,
}

impl Replay {
    pub(crate) fn new(alloc: Global) -> Replay {
        Replay {
            store: Vec::new(alloc),
            order: Vec::new(alloc),
            answers: Vec::new(alloc),
        }
    }

    /// Runs a command of this client.
    pub(crate) fn run(&mut self, client: usize, asked: Asked) -> Result<(), AllocError> {
        let answer = match asked {
            Asked::Get(key) => match value_of(self.store.as_slice(), key) {
                Some(value) => Answer::Byte(value),
                None => Answer::Nothing,
            },
            Asked::Set(key, value) => {
                set(&mut self.store, key, value)?;
                Answer::Fine
            }
            Asked::Delete(key) => {
                let before = self.store.len();
                self.store.retain(|entry| entry.0 != key);
                Answer::Number(if self.store.len() < before { 1 } else { 0 })
            }
        };
        self.order.push(client)?;
        self.answers.push(answer)?;
        Ok(())
    }

    /// Returns whether a world shows this order and this store.
    pub(crate) fn agrees(&self, world: &TestWorld) -> bool {
        let mut count: usize = 0;
        for (key, value) in world.entries() {
            match self.store.get(count) {
                Some(entry) => {
                    if key != [entry.0].as_slice() || value != [entry.1].as_slice() {
                        return false;
                    }
                }
                None => return false,
            }
            count = count.saturating_add(1);
        }
        count == self.store.len() && world.order() == self.order.as_slice()
    }

    /// Returns whether the client of a number has received the first `count` replies of this replay
    /// to it, and no others.
    pub(crate) fn answers(&self, world: &TestWorld, client: usize, count: usize) -> bool {
        client > 0
            && client <= world.clients()
            && self.are_answers(client, count, world.replies(client))
    }

    fn are_answers(&self, client: usize, count: usize, replies: &[Value]) -> bool {
        let mut seen: usize = 0;
        for (other, answer) in self.order.iter().zip(self.answers.iter()) {
            if *other == client && seen < count {
                match replies.get(seen) {
                    Some(reply) => {
                        if !is_answer(reply, *answer) {
                            return false;
                        }
                    }
                    None => return false,
                }
                seen = seen.saturating_add(1);
            }
        }
        seen == count && replies.len() == count
    }
}

fn value_of(store: &[(u8, u8)], key: u8) -> Option<u8> {
    for entry in store {
        if entry.0 == key {
            return Some(entry.1);
        }
    }
    None
}

/// Sets a key in its place, or after the others.
fn set(store: &mut Vec<(u8, u8)>, key: u8, value: u8) -> Result<(), AllocError> {
    for entry in store.iter_mut() {
        if entry.0 == key {
            entry.1 = value;
            return Ok(());
        }
    }
    store.push((key, value))?;
    Ok(())
}

fn is_answer(reply: &Value, answer: Answer) -> bool {
    match (reply, answer) {
        (Value::Simple(line), Answer::Fine) => line.text() == b"OK".as_slice(),
        (Value::Null, Answer::Nothing) => true,
        (Value::Bulk(content), Answer::Byte(byte)) => content.list() == [byte].as_slice(),
        (Value::Int(number), Answer::Number(wanted)) => *number == wanted,
        _ => false,
    }
}
