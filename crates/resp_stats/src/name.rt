//! The names under which commands are counted.

ghost use Rattle.std.specs.Prelude.{◌≡◌, ◌≤◌, ℕ, List, [], ◌∷◌, ◌++◌, length, map, take, codes, nat_le, true};
ghost use Rattle.resp_stats.specs.Names.{full_name, has_subcommands, name_byte, table_name};

use arrayvec::ArrayVec;
use resp_session::names::is_name;
use resp_session::words::Words;

/// The maximum number of bytes of a name.
const MOST: usize = 20;

/// The name of a command in a table: at most 20 printable bytes.
#[derive(Debug, Drop)]
pub struct Name {
    pub(crate) text: ArrayVec<u8, MOST>,
}

/// Returns the byte that is printed for a byte of a name: `?` for a byte that is not printable.
fn name_byte(byte: u8) -> u8
    ensures { result ≡ name_byte byte }
{
    if byte.is_ascii_graphic() {
        byte.to_ascii_uppercase()
    } else {
        b'?'
    }
}

/// Returns whether a command of this name has subcommands.
fn has_subcommands(name: &[u8]) -> bool
    ensures { result ≡ has_subcommands name.now }
{
    is_name(name, b"acl")
        || is_name(name, b"client")
        || is_name(name, b"cluster")
        || is_name(name, b"command")
        || is_name(name, b"config")
        || is_name(name, b"debug")
        || is_name(name, b"function")
        || is_name(name, b"latency")
        || is_name(name, b"memory")
        || is_name(name, b"module")
        || is_name(name, b"object")
        || is_name(name, b"pubsub")
        || is_name(name, b"script")
        || is_name(name, b"sentinel")
        || is_name(name, b"slowlog")
        || is_name(name, b"xgroup")
        || is_name(name, b"xinfo")
}

/// Returns the name of a command: the first word, and the second word too if the command has
/// subcommands. Letters are in upper case, and `?` replaces a byte that is not printable. Only the
/// first 20 bytes are kept.
pub fn name_of(words: &Words) -> Name
    ensures { result.text.items ≡ table_name words.now }
{
    let mut name = Name::new();
    if words.len() == 0 {
        return name;
    }
    name.add(words.word(0));
    if words.len() > 1 && has_subcommands(words.word(0)) {
        name.push(b' ');
        name.add(words.word(1));
    }
    name
}

impl Name {
    /// Returns a name without bytes.
    fn new() -> Name
        ensures { result.text.items ≡ [] }
    {
        Name {
            text: ArrayVec::new(),
        }
    }

    /// Returns the name of the row of all commands without a row of their own.
    pub(crate) fn of_others() -> Name {
        let mut name = Name::new();
        for byte in b"(others)" {
            name.push(*byte);
        }
        name
    }

    /// Returns a copy of the name.
    pub(crate) fn copied(&self) -> Name
        ensures { result.text.items ≡ self.now.text.items }
    {
        let mut name = Name::new();
        let _ = name.text.try_extend_from_slice(self.text.as_slice());
        name
    }

    /// Returns the bytes of the name.
    pub fn as_bytes(&self) -> &[u8]
        ensures { result.now ≡ self.now.text.items }
    {
        self.text.as_slice()
    }

    /// Appends a byte if there is room for it.
    fn push(&mut self, byte: u8)
        ensures { self.new.text.items ≡ take 20 (self.old.text.items ++ byte ∷ []) }
    {
        if !self.text.is_full() {
            self.text.push(byte);
        }
    }

    /// Appends a word as far as there is room for it.
    fn add(&mut self, word: &[u8])
        ensures { self.new.text.items ≡ take 20 (self.old.text.items ++ map name_byte word.now) }
    {
        let mut index = 0;
        while !self.text.is_full() {
            let Some(byte) = word.get(index).copied() else {
                return;
            };
            self.text.push(name_byte(byte));
            index += 1;
        }
    }
}
