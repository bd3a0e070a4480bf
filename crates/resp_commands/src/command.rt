//! What the table says about a command.

/// How a proxy treats a command whose client shares its connection to the server.
///
/// [`class_of`](crate::class_of) returns the class of a whole command.
#[derive(Clone, Copy, Debug, PartialEq, Eq)]
pub enum Class {
    /// The server replies to the command once and without waiting, and the command leaves no state
    /// in the connection. So clients may share the connection.
    Shared,
    /// The command changes the version, the user or the database: HELLO, AUTH, SELECT and RESET.
    Setting,
    /// The reply depends on the client's own connection, so the proxy itself replies: QUIT, and
    /// EXEC, DISCARD and UNWATCH without MULTI and WATCH.
    OwnAnswer,
    /// The client needs a connection of its own from this command on: the command waits, subscribes,
    /// begins a transaction or watches keys.
    OwnConnection,
    /// The command is not for a shared connection: it administers the server, is for replicas, or
    /// has a subcommand that is refused.
    Refused,
}

/// The places of a command's keys among its words. The name has place 0.
#[derive(Clone, Copy, Debug, PartialEq, Eq)]
pub struct Keys {
    /// The place of the first key, or 0 if the command has no keys at fixed places.
    pub first: u8,
    /// The place of the last key.
    pub last: u8,
    /// Whether the place of the last key is counted from the end. Then 1 is the last word.
    pub from_end: bool,
    /// The distance between two keys.
    pub step: u8,
    /// Whether further keys are at places that depend on the other words.
    pub movable: bool,
    /// How the further keys are found.
    pub search: Search,
    /// The place from which the search starts.
    pub start: u8,
}

/// How keys are found whose places depend on the other words.
#[derive(Clone, Copy, Debug, PartialEq, Eq)]
pub enum Search {
    /// There are no further keys.
    Nothing,
    /// The word at the place is the number of the keys, which follow it, as in EVAL and ZUNION.
    Counted,
    /// The keys are the first half of the words after the word `STREAMS`, as in XREAD.
    Streams,
    /// A key follows the word `STORE`, and another the word `STOREDIST`, as in GEORADIUS.
    Stores,
    /// A key follows the last option `STORE` of SORT.
    Sort,
    /// The key of MIGRATE, or the keys after its option `KEYS`.
    Migrate,
}

/// Which nodes of a Redis Cluster get a part of a command.
#[derive(Clone, Copy, Debug, PartialEq, Eq)]
pub enum Split {
    /// The command goes to one node as it is.
    Never,
    /// Each node gets the keys of its slots, with the words that belong to them.
    ByKeys,
    /// Each node that is not a replica gets the command.
    AllShards,
    /// Each node gets the command, including replicas.
    AllNodes,
    /// The command has a rule of its own, as SCAN has.
    Special,
}

/// How the replies to the parts of a command are merged.
#[derive(Clone, Copy, Debug, PartialEq, Eq)]
pub enum Merge {
    /// The reply has the items of all replies: in the order of the keys, or in any order if the
    /// command has no keys.
    InOrder,
    /// If a part fails, the reply is its error. Otherwise it is the reply to any part.
    AllSucceeded,
    /// If all parts fail, the reply is an error. Otherwise it is the reply to a part that succeeds.
    OneSucceeded,
    /// The reply is the sum of the replies.
    Sum,
    /// The reply is the least of the replies.
    Minimum,
    /// The replies are arrays of 0 and 1. At each place the reply has 1 if all replies have 1 there.
    LogicalAnd,
    /// The command has a rule of its own.
    Special,
}

/// A command or a subcommand of the table.
#[derive(Clone, Copy)]
pub struct Command {
    /// The name in lower case, and spaces.
    pub(crate) padded: [u8; 24],
    /// The length of the name.
    pub(crate) length: u8,
    /// The number of a command that has subcommands, or of the command whose subcommand this is.
    /// Otherwise 0.
    pub(crate) container: u8,
    /// How a proxy treats the command. If its subcommand or an option decides that, this is the class
    /// without a subcommand and with the option.
    pub class: Class,
    /// Whether the command needs a connection of its own only with the option BLOCK.
    pub may_block: bool,
    /// The number of words with the name. If it is negative, it is the least number, negated.
    pub arity: i8,
    /// The places of the keys.
    pub keys: Keys,
    /// Which nodes of a cluster get a part of the command.
    pub split: Split,
    /// How the replies to the parts are merged.
    pub merge: Merge,
}

impl Command {
    ghost use Rattle.std.specs.Prelude.{◌≡◌, ◌↔◌, IsTrue};
    ghost use Rattle.resp_commands.specs.Classes.{HasSubcommands};
    ghost use Rattle.resp_commands.specs.Names.{name_of};

    /// Returns the name in lower case.
    pub fn name(&self) -> &[u8]
        ensures { result.now ≡ name_of self.now }
    {
        &self.padded[..usize::from(self.length).min(24)]
    }

    /// Returns whether the command has subcommands or is one.
    pub fn has_subcommands(&self) -> bool
        ensures { IsTrue result ↔ HasSubcommands self.now }
    {
        self.container != 0
    }
}
