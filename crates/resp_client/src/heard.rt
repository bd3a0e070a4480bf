//! The result of feeding a piece to a client.

use resp_value::value::{Members, Value};

/// The result of feeding a piece to a client.
#[derive(Debug, PartialEq, Eq, Drop)]
pub struct Heard {
    /// The number of bytes of the piece that were used. This is the whole piece at [`What::More`].
    pub used: usize,
    /// The reply or push that ends with these bytes.
    pub what: What,
}

/// The reply or push that has ended, if any.
#[derive(Debug, PartialEq, Eq, Drop)]
pub enum What {
    /// The reply to a command.
    Reply {
        /// The number of the command, from 1.
        number: u64,
        /// The reply.
        value: Value,
    },
    /// The members of a push. It belongs to no command.
    Push(Members),
    /// A push that was passed to the sink of [`crate::Client::feed_with`].
    Shown,
    /// No reply and no push: the piece is used up, and more bytes are needed.
    More,
}
