//! A client: what the server knows about a connection.

ghost use Rattle.std.specs.Prelude.{◌≡◌, ◌<◌, ◌≤◌, ◌^◌, [], drop, length, true, false};

use bytes::BytesMut;
use resp_frames::Unfinished;
use resp_value::version::Version;
use std::alloc::Global;

/// What the server knows about a connection: its id, its version, its database, its name, the bytes
/// of its incomplete command, and the replies that wait to be written to it.
#[derive(Drop)]
pub struct Client {
    pub(crate) alloc: Global,
    pub(crate) id: u64,
    /// The version of the replies to it.
    pub(crate) version: Version,
    /// The number of its database.
    pub(crate) database: usize,
    /// Its name, which is empty if it has none.
    pub(crate) name: Vec<u8>,
    /// Whether no more of its commands are run.
    pub(crate) closing: bool,
    /// The replies that wait to be written.
    pub(crate) out: BytesMut,
    /// The incomplete command.
    pub(crate) unfinished: Unfinished,
    ghost small: { id < 2 ^ 63 },
}

impl Client {
    ghost use Rattle.resp_value.specs.Bounds.{Bounds};
    ghost use Rattle.resp_value.specs.declared.version.Version.TheVariants.{Two};
    ghost use Rattle.resp_server.specs.Doing.{standing_of, waiting_of};
    ghost use Rattle.resp_server.specs.Taking.{HasUnfinished, KeepsUnfinished};

    /// Returns a client in version 2 and database 0, without a name, that has sent nothing. Does
    /// not allocate.
    pub(crate) fn new(alloc: Global, id: u64) -> Client
        requires { id < 2 ^ 63 }
        ensures standing { standing_of result ≡ record {
          id = id;
          version = Two;
          database = 0;
          name = [];
          closing = false;
        } }
        ensures nothing_waits { waiting_of result ≡ [] }
        ensures nothing_begun { (limits : Bounds) → HasUnfinished limits result [] }
    {
        Client {
            alloc,
            id,
            version: Version::Two,
            database: 0,
            name: Vec::new(alloc),
            closing: false,
            out: BytesMut::new(alloc),
            unfinished: Unfinished::new(alloc),
        }
    }

    /// Returns the id of the client, which CLIENT ID and HELLO return.
    pub fn id(&self) -> u64
        ensures { result ≡ (standing_of self.now).id }
    {
        self.id
    }

    /// Returns the bytes that wait to be written to the client.
    pub fn out(&self) -> &[u8]
        ensures { result.now ≡ waiting_of self.now }
    {
        self.out.as_slice()
    }

    /// Removes the first `count` bytes of [`Client::out`] after they were written. `count` is at
    /// most the number of bytes that wait.
    pub fn sent(&mut self, count: usize)
        requires { count ≤ length (waiting_of self.old) }
        ensures sent { waiting_of self.new ≡ drop count (waiting_of self.old) }
        ensures same_standing { standing_of self.new ≡ standing_of self.old }
        // A request that has begun goes on.
        ensures same_begun { KeepsUnfinished self.old self.new }
    {
        self.out.advance(count);
    }

    /// Returns whether no more commands of the client are run: after QUIT, after a protocol error
    /// and when out of memory.
    pub fn is_closing(&self) -> bool
        ensures { result ≡ (standing_of self.now).closing }
    {
        self.closing
    }

    /// Stops running commands of the client, and drops the bytes of an incomplete command.
    pub(crate) fn shut(&mut self)
        ensures closing { standing_of self.new ≡ record (standing_of self.old) { closing = true } }
        ensures same_waiting { waiting_of self.new ≡ waiting_of self.old }
        ensures nothing_begun { (limits : Bounds) → HasUnfinished limits self.new [] }
    {
        self.unfinished = Unfinished::new(self.alloc);
        self.closing = true;
    }
}
