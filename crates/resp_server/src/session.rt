//! A session: the bytes read from its client, and the bytes that wait to be written to it.

ghost use Rattle.std.specs.Prelude.{◌≡◌, ◌<◌, ◌^◌, [], false, None};
ghost use Rattle.resp_value.specs.Rules.{Rules};
ghost use Rattle.resp_value.specs.declared.version.Version.TheVariants.{Two};
ghost use Rattle.resp_server.specs.Reading.{HasReadFront, HoldsNoIdleDecoder, ReadsBy, WhereFrontRead};

use crate::reader::Reader;
use bytes::BytesMut;
use resp_value::version::Version;
use std::alloc::Global;

/// A session of a hub.
#[derive(Drop)]
pub(crate) struct Session {
    /// The number that the hub gave it.
    pub(crate) id: u64,
    /// The reader of the client's bytes, always in version 2.
    pub(crate) decoder: Reader,
    /// The version in which it replies.
    pub(crate) version: Version,
    /// The bytes that wait to be written.
    pub(crate) out: BytesMut,
    /// Whether it accepts no more commands and pushes.
    pub(crate) closing: bool,
    ghost small: { id < 2 ^ 63 },
}

impl Session {
    /// Creates a session that has read nothing. Does not allocate.
    pub(crate) fn new(alloc: Global, id: u64) -> Session
        requires { id < 2 ^ 63 }
        ensures id { result.id ≡ id }
        ensures version { result.version ≡ Two }
        ensures out { result.out.items ≡ [] }
        ensures open { result.closing ≡ false }
        ensures no_decoder { result.decoder ≡ None }
        ensures reading { (rules : Rules) → ReadsBy rules result.decoder }
    {
        Session {
            id,
            decoder: Reader::new(),
            version: Version::Two,
            out: BytesMut::new(alloc),
            closing: false,
        }
    }

    /// Frees the memory of the reader if it reads no value: between two values, and when the
    /// session is closing.
    pub(crate) fn shrink(&mut self)
        ensures same_id { self.new.id ≡ self.old.id }
        ensures same_version { self.new.version ≡ self.old.version }
        ensures same_out { self.new.out.items ≡ self.old.out.items }
        ensures same_closing { self.new.closing ≡ self.old.closing }
        ensures idle { HoldsNoIdleDecoder self.new.closing self.new.decoder }
        ensures same_taken { self.old.closing ≡ false →
            WhereFrontRead self.old.decoder (HasReadFront self.new.decoder) }
        ensures reading { (rules : Rules) →
            ReadsBy rules self.old.decoder → ReadsBy rules self.new.decoder }
    {
        if self.closing {
            self.decoder = Reader::new();
        } else {
            self.decoder.shrink();
        }
    }
}
