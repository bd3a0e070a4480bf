//! The values of the store.

ghost use Rattle.std.specs.Prelude.{◌≡◌};
ghost use Rattle.resp_value.specs.Values.{datum_of, content_bytes};
ghost use Rattle.resp_session.specs.Replies.{bulk_string};

use resp_value::content::Content;
use resp_value::value::Value;
use std::marker::Model;

/// The value of a key, stored as the bulk string of its reply. So a reply does not copy it first.
#[derive(Drop)]
pub(crate) struct Stored {
    reply: Value,
}

impl Model for Stored {
    ghost use Rattle.std.specs.Prelude.{ℕ, List};
    ghost use Rattle.resp_session.specs.Bulks.{bulk_bytes, IsBulk};

    ghost Value = { List ℕ };

    ghost view = { λ stored. bulk_bytes stored.reply };

    ghost invariant = { λ stored. IsBulk stored.reply };
}

impl Stored {
    /// Creates a stored value of the given bytes. Does not allocate.
    pub(crate) fn new(content: Content) -> Stored
        ensures { result ≡ content_bytes content }
    {
        Stored {
            reply: Value::Bulk(content),
        }
    }

    /// Returns the bytes.
    pub(crate) fn bytes(&self) -> &[u8]
        ensures { result.now ≡ self.now }
    {
        match &self.reply {
            Value::Bulk(content) => content.list(),
            _ => &[],
        }
    }

    /// Returns the bytes as a bulk string.
    pub(crate) fn reply(&self) -> &Value
        ensures { datum_of result.now ≡ bulk_string self.now }
    {
        &self.reply
    }
}
