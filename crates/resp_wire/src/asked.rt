//! Requests of a client, and the replies and pushes received.

ghost use Rattle.std.specs.Prelude.{◌≡◌, [], OnOk, OnErr};

use resp_client::What;
use resp_value::command::Command;
use resp_value::value::{Members, Value};
use resp_value::version::Version;
use std::alloc::{AllocError, Global};

/// A request of a client.
#[derive(Debug, PartialEq, Eq, Drop)]
pub enum Request {
    /// HELLO, with the version that it requests, if any.
    Hello(Option<Version>),
    /// Another command. HELLO as a command is refused, as [`resp_client::SendError`] describes.
    Command(Command),
}

/// The replies and the pushes that a client has received, each in order.
#[derive(Debug, PartialEq, Eq, Drop)]
pub struct Responses {
    /// The replies, each with the number of its command, from 1.
    pub replies: Vec<(u64, Value)>,
    /// The members of each push.
    pub pushes: Vec<Members>,
}

impl Responses {
    ghost use Rattle.resp_wire.specs.Hearing.{AddsHeard, pushes_in, replies_in};

    /// Creates an empty list. Does not allocate.
    pub fn new(alloc: Global) -> Responses
        ensures replies { replies_in result ≡ [] }
        ensures pushes { pushes_in result ≡ [] }
    {
        Responses {
            replies: Vec::new(alloc),
            pushes: Vec::new(alloc),
        }
    }

    /// Adds a reply or a push. Adds nothing if an allocation fails.
    pub(crate) fn add(&mut self, what: What) -> Result<(), AllocError>
        ensures added { OnOk result (AddsHeard self.old self.new what) }
        ensures replies_stay { OnErr result (replies_in self.new ≡ replies_in self.old) }
        ensures pushes_stay { OnErr result (pushes_in self.new ≡ pushes_in self.old) }
    {
        match what {
            What::Reply { number, value } => self.replies.push((number, value))?,
            What::Push(items) => self.pushes.push(items)?,
            What::Shown | What::More => {}
        }
        Ok(())
    }
}
