//! The name that a client has given to its connection.

ghost use Rattle.std.specs.Prelude.{◌≡◌, ◌<◌, ℕ, None, [], length, option_map};
ghost use Rattle.resp_session.specs.Operations.{is_name};
ghost use Rattle.resp_tap.specs.ClientNames.{Naming, heard_by, name_asked, name_in_hello, named_after, naming_of, option_at, shown_byte, shown_name, asked_by};

use crate::line::is_refusal;
use crate::seen::Seen;
use arrayvec::ArrayVec;
use resp_session::names::is_name;
use resp_session::words::Words;
use std::mem;

/// The maximum number of bytes of a name that are printed.
const MOST: usize = 64;

/// The name of a connection, as it is printed: at most 64 printable bytes. A client sets the name
/// with CLIENT SETNAME, or with HELLO and SETNAME, and RESET removes it. The change takes effect
/// when the reply arrives, unless the reply is an error. If a pipeline has several such commands,
/// only the last one takes effect.
#[derive(Drop)]
pub struct ClientName {
    pub(crate) text: ArrayVec<u8, MOST>,
    /// The number of the last command that asked for another name, until its reply arrives.
    pub(crate) asked: Option<u64>,
    /// The name that it asked for.
    pub(crate) next: ArrayVec<u8, MOST>,
}

/// Returns the byte that is printed for a byte of a name: `?` for a byte that is not printable.
fn shown_byte(byte: u8) -> u8
    ensures { result ≡ shown_byte byte }
{
    if byte.is_ascii_graphic() { byte } else { b'?' }
}

/// Returns the printed bytes of a name.
fn shown_name(name: &[u8]) -> ArrayVec<u8, MOST>
    ensures { result.items ≡ shown_name name.now }
{
    let mut shown = ArrayVec::new();
    for index in 0..name.len().min(MOST) {
        shown.push(shown_byte(name[index]));
    }
    shown
}

/// Returns the word after the word at this index, if the word at this index is `option`. `option`
/// is in lower case.
fn option_at<'a>(words: &'a Words, index: usize, option: &[u8]) -> Option<&'a [u8]>
    requires near { index < 8 }
    ensures { option_map (λ name. name.now) result ≡ option_at option.now index words.now }
{
    if index + 1 < words.len() && is_name(words.word(index), option) {
        return Some(words.word(index + 1));
    }
    None
}

/// Returns the name that a HELLO gives the connection, if any.
fn name_in_hello(words: &Words) -> Option<&[u8]>
    ensures { option_map (λ name. name.now) result ≡ name_in_hello words.now }
{
    if words.len() > 2 && is_name(words.word(2), b"auth") {
        return option_at(words, 5, b"setname");
    }
    option_at(words, 2, b"setname")
}

/// Returns the name that a command requests for its connection, or `None` if it requests no name.
/// The name is empty if the command removes the name.
fn name_asked(words: &Words) -> Option<&[u8]>
    ensures { option_map (λ name. name.now) result ≡ name_asked words.now }
{
    if words.len() == 0 {
        return None;
    }
    let name = words.word(0);
    if is_name(name, b"client") && words.len() == 3 {
        return option_at(words, 1, b"setname");
    }
    if is_name(name, b"hello") {
        return name_in_hello(words);
    }
    if is_name(name, b"reset") {
        return Some(b"");
    }
    None
}

impl ClientName {
    /// Returns the name of a new connection, which is empty. It allocates nothing.
    pub fn new() -> ClientName
        ensures { naming_of result ≡ record { name = []; asked = None; next = [] } }
    {
        ClientName {
            text: ArrayVec::new(),
            asked: None,
            next: ArrayVec::new(),
        }
    }

    /// Returns the printed bytes of the name, which are empty if the connection has no name.
    pub fn as_bytes(&self) -> &[u8]
        ensures { result.now ≡ (naming_of self.now).name }
    {
        self.text.as_slice()
    }

    /// Notes a command or a reply, which may give the connection another name.
    pub fn follow(&mut self, seen: &Seen)
        ensures { naming_of self.new ≡ named_after seen.now (naming_of self.old) }
    {
        match seen {
            Seen::Command { number, words, .. } => self.ask(*number, words),
            Seen::Reply { number, value } => self.hear(*number, is_refusal(&value.value)),
            _ => {}
        }
    }

    /// Notes a command.
    fn ask(&mut self, number: u64, words: &Words)
        ensures { naming_of self.new ≡ asked_by number (name_asked words.now) (naming_of self.old) }
    {
        if let Some(name) = name_asked(words) {
            self.asked = Some(number);
            self.next = shown_name(name);
        }
    }

    /// Notes the reply to a command.
    fn hear(&mut self, number: u64, is_refused: bool)
        ensures { naming_of self.new ≡ heard_by number is_refused (naming_of self.old) }
    {
        match self.asked {
            Some(asked) if asked == number => {}
            _ => return,
        }
        self.asked = None;
        let name = mem::replace(&mut self.next, ArrayVec::new());
        if !is_refused {
            self.text = name;
        }
    }
}
